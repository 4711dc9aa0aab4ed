//! The regions, each with its tiles, or as one line.

ghost use Rattle.std.specs.Prelude.{◌<◌, length};
ghost use Rattle.regions.specs.Table.{kind_of};
ghost use Rattle.script_text.specs.Texts.{Adds};
ghost use Rattle.heap_view.specs.Areas.{kind_text, current_text, words_text, head_text, live_text, next_top_text, tops_text, body_lines};
ghost use Rattle.heap_view.specs.Areas.{region_lines, use_lines, use_text, line_body, region_line};

use crate::tile_lines::put_tiles;
use heap_dump::put_set;
use heap_words::addr::RegionNo;
use regions::{Kind, RegionTable};
use script_text::Text;
use step_core::Core;

/// Puts a region's top at the start of the marking that runs, if one does.
fn put_next_top(core: &Core, text: &mut Text, region: RegionNo)
    requires { region < length core.now.table.regions }
    ensures { Adds text.old (next_top_text core.now region) text.new }
{
    core.law_remembers();
    if !core.marking() {
        return;
    }
    text.put(", next ");
    text.put_digits(core.marker().tams.next(region).word() as u64);
}

/// Puts a region's tops at mark start.
fn put_tops(core: &Core, text: &mut Text, region: RegionNo)
    requires { region < length core.now.table.regions }
    ensures { Adds text.old (tops_text core.now region) text.new }
{
    core.law_remembers();
    let tams = &core.marker().tams;
    text.put("  top at mark start ");
    text.put_digits(tams.previous(region).word() as u64);
    put_next_top(core, text, region);
}

/// Puts the live bound of an ordinary region.
fn put_live(core: &Core, text: &mut Text, region: RegionNo)
    requires { region < length core.now.table.regions }
    ensures { Adds text.old (live_text core.now region (kind_of core.now.table region)) text.new }
{
    if let Kind::Ordinary = core.table().kind(region) {
        text.put(", live bound ");
        text.put_digits(u64::from(core.live_in(region)));
    }
}

/// Puts how many words of a region are handed out.
fn put_words(core: &Core, text: &mut Text, region: RegionNo)
    requires { region < length core.now.table.regions }
    ensures { Adds text.old (words_text core.now.table region) text.new }
{
    text.put(", ");
    text.put_digits(core.used_in(region) as u64);
    text.put(" of ");
    text.put_digits(core.table().words_per_region() as u64);
    text.put(" words handed out");
}

/// Puts whether new buffers are cut from a region.
fn put_current(core: &Core, text: &mut Text, region: RegionNo)
    ensures { Adds text.old (current_text core.now region) text.new }
{
    if !core.buffers().is_current(region) {
        return;
    }
    text.put(", current");
}

/// Puts which kind a region is of.
fn put_kind(table: &RegionTable, text: &mut Text, region: RegionNo)
    requires { region < length table.now.regions }
    ensures { Adds text.old (kind_text table.now region (kind_of table.now region)) text.new }
{
    match table.kind(region) {
        Kind::Free => text.put("free"),
        Kind::Ordinary => text.put("ordinary"),
        Kind::First => {
            text.put("first of a run of ");
            text.put_digits(table.run_length(region) as u64);
        }
        Kind::Rest => text.put("rest of a run"),
    }
}

/// Puts a region's number and its kind.
fn put_head(table: &RegionTable, text: &mut Text, region: RegionNo)
    requires { region < length table.now.regions }
    ensures { Adds text.old (head_text table.now region) text.new }
{
    text.put("region ");
    text.put_digits(region.number() as u64);
    text.put(": ");
    put_kind(table, text, region);
}

/// Puts what is said of the words of a region in use.
fn put_use(core: &Core, text: &mut Text, region: RegionNo)
    requires { region < length core.now.table.regions }
    ensures { Adds text.old (use_text core.now region) text.new }
{
    put_current(core, text, region);
    put_words(core, text, region);
}

/// Puts what is said of the words of a region in use, and the lines below it.
fn put_lines(core: &Core, text: &mut Text, region: RegionNo)
    requires { region < length core.now.table.regions }
    ensures { Adds text.old (use_lines core.now region) text.new }
{
    put_use(core, text, region);
    text.put("\n");
    put_tops(core, text, region);
    put_live(core, text, region);
    text.put("\n");
    put_set(
        core,
        text,
        region,
        "  remembered cards:",
        "",
        ", all of region ",
    );
    put_tiles(core, text, region);
}

/// Puts what follows a region's kind: of a free one nothing but the line's end.
fn put_body(core: &Core, text: &mut Text, region: RegionNo)
    requires { region < length core.now.table.regions }
    ensures { Adds text.old (body_lines core.now region (kind_of core.now.table region)) text.new }
{
    if let Kind::Free = core.table().kind(region) {
        text.put("\n");
        return;
    }
    put_lines(core, text, region);
}

/// Puts what follows a region's kind in its one line: of a free one nothing.
fn put_line_body(core: &Core, text: &mut Text, region: RegionNo)
    requires { region < length core.now.table.regions }
    ensures { Adds text.old (line_body core.now region (kind_of core.now.table region)) text.new }
{
    if let Kind::Free = core.table().kind(region) {
        return;
    }
    put_use(core, text, region);
    put_live(core, text, region);
}

/// Puts a region as one line.
pub(crate) fn put_region_line(core: &Core, text: &mut Text, region: RegionNo)
    requires { region < length core.now.table.regions }
    ensures { Adds text.old (region_line core.now region) text.new }
{
    put_head(core.table(), text, region);
    put_line_body(core, text, region);
    text.put("\n");
}

/// Puts a region.
pub(crate) fn put_region(core: &Core, text: &mut Text, region: RegionNo)
    requires { region < length core.now.table.regions }
    ensures { Adds text.old (region_lines core.now region) text.new }
{
    put_head(core.table(), text, region);
    put_body(core, text, region);
}
