//! The tiles of a region, a line each.

ghost use Rattle.std.specs.Prelude.{◌≡◌, ◌↔◌, ◌<◌, IsSome, IsTrue, length};
ghost use Rattle.regions.specs.Table.{object_at};
ghost use Rattle.regions.specs.Walks.{IsPlacedTile};
ghost use Rattle.step_core.specs.Stands.{kept_of};
ghost use Rattle.script_text.specs.Texts.{Adds};
ghost use Rattle.heap_view.specs.Tiles.{progress_text, keeping_text, marking_text, object_text, shape_text, tile_line, tile_lines};

use heap_dump::{Progress, Spelling, progress_of, put_fields, walk_region};
use heap_words::addr::{Addr, RegionNo};
use refinement::is_kept;
use regions::Shape;
use script_text::Text;
use step_core::Core;

/// What the marking that runs knows of an object, as a word.
fn progress_text(progress: Progress) -> &'static str
    ensures { result.now ≡ progress_text progress }
{
    match progress {
        Progress::New => "new",
        Progress::Unmarked => "unmarked",
        Progress::Grey => "grey",
        Progress::Scanned => "scanned",
    }
}

/// Puts what the marking knows of an object, while it runs.
pub(crate) fn put_progress(core: &Core, text: &mut Text, object: Addr)
    requires { IsSome (object_at core.now.table object) }
    ensures { Adds text.old (marking_text core.now object) text.new }
{
    if !core.marking() {
        return;
    }
    text.put(", ");
    text.put(progress_text(progress_of(core, object)));
}

/// Puts whether an object is kept.
fn put_keeping(core: &Core, text: &mut Text, object: Addr, kept: bool)
    requires { IsTrue kept ↔ IsSome (kept_of core.now object) }
    ensures { Adds text.old (keeping_text core.now object) text.new }
{
    if kept {
        text.put(", kept");
        return;
    }
    text.put(", dead");
}

/// Puts an object.
fn put_object(core: &Core, text: &mut Text, object: Addr, kept: bool)
    requires object { IsSome (object_at core.now.table object) }
    requires kept { IsTrue kept ↔ IsSome (kept_of core.now object) }
    ensures { Adds text.old (object_text core.now object) text.new }
{
    let table = core.table();
    text.put("#");
    text.put_digits(table.name(object));
    put_fields(core, text, object, Spelling::Lines);
    put_keeping(core, text, object, kept);
    put_progress(core, text, object);
}

/// Puts what a tile is.
fn put_shape(core: &Core, text: &mut Text, at: Addr, shape: Shape)
    requires { IsPlacedTile core.now.table at shape }
    ensures { Adds text.old (shape_text core.now at shape) text.new }
{
    core.law_remembers();
    let marker = core.marker();
    let kept = is_kept(
        core.table(),
        &marker.tams,
        &marker.bitmaps.previous,
        at,
        shape,
    );
    match &shape {
        Shape::Object { .. } => put_object(core, text, at, kept),
        Shape::Filler { size } => {
            text.put("filler of ");
            text.put_digits(*size as u64);
        }
        Shape::Forwarded { to, .. } => {
            text.put("moved to ");
            text.put_digits(to.word() as u64);
        }
    }
}

/// Puts a tile's line.
fn put_tile(core: &Core, text: &mut Text, at: Addr, shape: Shape)
    requires { IsPlacedTile core.now.table at shape }
    ensures { Adds text.old (tile_line core.now (at, shape)) text.new }
{
    text.put("  at ");
    text.put_digits(at.word() as u64);
    text.put(": ");
    put_shape(core, text, at, shape);
    text.put("\n");
}

/// Puts the tiles that start in a region.
pub(crate) fn put_tiles(core: &Core, text: &mut Text, region: RegionNo)
    requires { region < length core.now.table.regions }
    ensures { Adds text.old (tile_lines core.now region) text.new }
{
    for (at, shape) in walk_region(core, region) {
        put_tile(core, text, at, shape);
    }
}
