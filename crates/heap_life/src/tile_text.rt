//! The tiles of a region, a line each.
//!
//! ```text
//!   o OFFSET NAME STATE POINTERS ; WEAK SLOTS ; DATA     an object: each field a name, `-` for nil, `?` where no object is
//!   x OFFSET SIZE                                        a filler
//! ```
//!
//! STATE is `m` marked, `d` dead or `n` new by the marking that last came to its end; while marking runs there follows `n` new, `u` not
//! found, `g` grey or `s` scanned. Of each kind of fields sixteen are told, and then how many more as `+N`.

ghost use Rattle.std.specs.Prelude.{◌≡◌, ◌*◌, ◌<◌, IsSome, length, flat_map, nat_le};
ghost use Rattle.script_text.specs.Texts.{Adds};
ghost use Rattle.regions.specs.Table.{object_at};
ghost use Rattle.regions.specs.Walks.{IsPlacedTile, placed, tiles_of};
ghost use Rattle.heap_life.specs.RegionTexts.{filler_text, letter_text, object_text, progress_letter, progress_text, tile_text, tiles_text};
ghost use Rattle.heap_dump.specs.Shares.{region_tiles};

use heap_dump::{Part, Progress, Spelling, part_of, progress_of, put_fields, walk_region};
use heap_words::addr::{Addr, RegionNo};
use regions::{RegionTable, Shape};
use script_text::Text;
use step_core::Core;

/// Up to how many tiles a region has its tiles told.
const MOST_TILES: u32 = 400;

/// The letter of what an object counts as.
fn letter(part: Part) -> &'static str
    ensures { result.now ≡ letter_text part }
{
    match part {
        Part::Marked => "m",
        Part::Dead => "d",
        Part::New => "n",
        Part::Filler => "x",
    }
}

/// The letter of what the marking that runs knows of an object.
fn progress_letter(progress: Progress) -> &'static str
    ensures { result.now ≡ progress_letter progress }
{
    match progress {
        Progress::New => "n",
        Progress::Unmarked => "u",
        Progress::Grey => "g",
        Progress::Scanned => "s",
    }
}

/// Adds what the marking knows of an object, while it runs.
fn put_progress(core: &Core, text: &mut Text, object: Addr)
    requires { IsSome (object_at core.now.table object) }
    ensures { Adds text.old (progress_text core.now object) text.new }
{
    if core.marking() {
        text.put(progress_letter(progress_of(core, object)));
    }
}

/// Adds an object.
fn put_object(core: &Core, text: &mut Text, object: Addr, part: Part)
    requires { IsSome (object_at core.now.table object) }
    ensures { Adds text.old (object_text core.now object part) text.new }
{
    let table = core.table();
    text.put_digits(table.name(object));
    text.put(" ");
    text.put(letter(part));
    put_progress(core, text, object);
    put_fields(core, text, object, Spelling::Page);
}

/// Adds a tile that is no object.
fn put_filler(text: &mut Text, offset: u64, size: u32)
    ensures { Adds text.old (filler_text offset size) text.new }
{
    text.put("x");
    text.put_number(offset);
    text.put_number(u64::from(size));
}

/// Adds a tile.
fn put_tile(core: &Core, text: &mut Text, region: RegionNo, at: Addr, shape: Shape)
    requires { IsPlacedTile core.now.table at shape }
    ensures { Adds text.old (tile_text core.now region (at, shape)) text.new }
{
    core.table().law();
    let bottom = u64::from(region.number()) * u64::from(core.table().words_per_region());
    let offset = u64::from(at.word()).saturating_sub(bottom);
    match &shape {
        Shape::Object { .. } => {
            text.put("o");
            text.put_number(offset);
            text.put(" ");
            put_object(core, text, at, part_of(core, at, shape));
        }
        Shape::Filler { size } => put_filler(text, offset, *size),
        Shape::Forwarded { size, .. } => put_filler(text, offset, *size),
    }
    text.put("\n");
}

/// Whether a region has few enough tiles to tell them.
fn has_few_tiles(table: &RegionTable, region: RegionNo) -> bool
    requires { region < length table.now.regions }
    ensures { result ≡ nat_le (length (placed (region * table.now.words_per_region) (tiles_of table.now region))) 400 }
{
    let mut count = 0u32;
    for (_at, _shape) in table.walk(region) {
        if count >= MOST_TILES {
            return false;
        }
        count += 1;
    }
    true
}

/// Adds a line for each tile that starts in a region.
fn put_each(core: &Core, text: &mut Text, region: RegionNo)
    requires { region < length core.now.table.regions }
    ensures { Adds text.old (flat_map (tile_text core.now region) (region_tiles core.now region)) text.new }
{
    for (at, shape) in walk_region(core, region) {
        put_tile(core, text, region, at, shape);
    }
}

/// Adds the tiles that start in a region, or that they are too many.
pub(crate) fn put_tiles(core: &Core, text: &mut Text, region: RegionNo)
    requires { region < length core.now.table.regions }
    ensures { Adds text.old (tiles_text core.now region) text.new }
{
    if !has_few_tiles(core.table(), region) {
        text.put("y\n");
        return;
    }
    put_each(core, text, region);
}
