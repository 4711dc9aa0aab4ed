//! A region at a moment, as lines.
//!
//! ```text
//!   r REGION f                                                             free
//!   r REGION KIND USED MARKED DEAD NEW FILLER LIVE TOP [NEXT GREY]         ordinary `o`, or the first of a run `h`
//!   r REGION t USED                                                        a later region of a run
//!   s CARDS ; REGIONS                                                      its remembered set: cards, and regions with all their cards
//! ```
//!
//! Numbers are words, but for GREY, which counts objects. Tops at mark start are words above the region's bottom; NEXT and GREY are there
//! while marking runs.

ghost use Rattle.std.specs.Prelude.{◌<◌, length};
ghost use Rattle.script_text.specs.Texts.{Adds};
ghost use Rattle.regions.specs.Table.{kind_of};
ghost use Rattle.heap_life.specs.RegionTexts.{kind_text, region_line, region_text, rest_text, shares_text, tops_text};

use crate::tile_text::put_tiles;
use heap_dump::{grey_count, put_set, shares_of};
use heap_words::addr::RegionNo;
use regions::Kind;
use script_text::Text;
use step_core::Core;

/// Adds the tops at mark start, and while marking runs how many objects are grey.
fn put_tops(core: &Core, text: &mut Text, region: RegionNo)
    requires { region < length core.now.table.regions }
    ensures { Adds text.old (tops_text core.now region) text.new }
{
    core.law_remembers();
    let tams = &core.marker().tams;
    let bottom = region.number() * core.table().words_per_region();
    text.put_number(u64::from(tams.previous(region).word() - bottom));
    if core.marking() {
        text.put_number(u64::from(tams.next(region).word() - bottom));
        text.put_number(u64::from(grey_count(core, region)));
    }
}

/// Adds what the words of a region are.
fn put_shares(core: &Core, text: &mut Text, region: RegionNo)
    requires { region < length core.now.table.regions }
    ensures { Adds text.old (shares_text core.now region) text.new }
{
    core.law_remembers();
    let shares = shares_of(core, region);
    text.put_number(u64::from(core.used_in(region)));
    text.put_number(u64::from(shares.marked));
    text.put_number(u64::from(shares.dead));
    text.put_number(u64::from(shares.new));
    text.put_number(u64::from(shares.filler));
    text.put_number(u64::from(core.live_in(region)));
    put_tops(core, text, region);
}

/// Adds what a region is, and what its words are.
fn put_kind(core: &Core, text: &mut Text, region: RegionNo)
    requires { region < length core.now.table.regions }
    ensures { Adds text.old (kind_text core.now region (kind_of core.now.table region)) text.new }
{
    match core.table().kind(region) {
        Kind::Free => text.put(" f"),
        Kind::Ordinary => {
            text.put(" o");
            put_shares(core, text, region);
        }
        Kind::First => {
            text.put(" h");
            put_shares(core, text, region);
        }
        Kind::Rest => {
            text.put(" t");
            text.put_number(u64::from(core.used_in(region)));
        }
    }
}

/// Adds a region's line.
fn put_line(core: &Core, text: &mut Text, region: RegionNo)
    requires { region < length core.now.table.regions }
    ensures { Adds text.old (region_line core.now region) text.new }
{
    text.put("r");
    text.put_number(u64::from(region.number()));
    put_kind(core, text, region);
    text.put("\n");
}

/// Adds what is told of a region below its line.
fn put_rest(core: &Core, text: &mut Text, region: RegionNo, tiles: bool)
    requires { region < length core.now.table.regions }
    ensures { Adds text.old (rest_text tiles core.now region (kind_of core.now.table region)) text.new }
{
    if let Kind::Free = core.table().kind(region) {
        return;
    }
    put_set(core, text, region, "s", " ;", " ");
    if tiles {
        put_tiles(core, text, region);
    }
}

/// Adds a region, with its tiles where they are asked for.
pub(crate) fn put_region(core: &Core, text: &mut Text, region: RegionNo, tiles: bool)
    requires { region < length core.now.table.regions }
    ensures { Adds text.old (region_text tiles core.now region) text.new }
{
    put_line(core, text, region);
    put_rest(core, text, region, tiles);
}
