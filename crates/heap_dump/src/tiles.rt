//! What marking knows of an object.

ghost use Rattle.std.specs.Prelude.{◌≡◌, IsSome};
ghost use Rattle.regions.specs.Table.{object_at};
ghost use Rattle.heap_dump.specs.Tiles.{progress_of};

use heap_words::addr::Addr;
use step_core::Core;

/// What the marking that runs knows of an object.
#[derive(Clone, Copy, Debug, PartialEq, Eq)]
pub enum Progress {
    /// It was made since marking began.
    New,
    /// It wasn't found yet.
    Unmarked,
    /// It was found, and isn't scanned yet.
    Grey,
    /// Its pointers were followed.
    Scanned,
}

/// What the marking that runs knows of an object. While none runs, this says nothing.
pub fn progress_of(core: &Core, object: Addr) -> Progress
    requires { IsSome (object_at core.now.table object) }
    ensures { result ≡ progress_of core.now object }
{
    core.law_remembers();
    core.table().law();
    let marker = core.marker();
    if !marker
        .tams
        .is_below_next(core.table().words_per_region(), object)
    {
        return Progress::New;
    }
    if !marker.bitmaps.next.get(object) {
        return Progress::Unmarked;
    }
    if marker.grey.is_scanned(object) {
        Progress::Scanned
    } else {
        Progress::Grey
    }
}
