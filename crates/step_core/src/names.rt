//! Names of objects, found by their addresses, and what weak slots show: for a view, which follows dead objects' fields too.

ghost use Rattle.std.specs.Prelude.{◌≡◌, ◌<◌, IsSome, Some, length, slice_get};
ghost use Rattle.regions.specs.Table.{tile_in, weaks_at};
ghost use Rattle.step_core.specs.Stands.{name_in};
ghost use Rattle.step_core.specs.Mutators.{weaks_shown};

use crate::heap::Core;
use heap_words::addr::{Addr, Ptr};
use regions::{RegionTable, Shape};

/// The name of the object that a tile is.
fn tile_name(table: &RegionTable, at: Addr) -> Option<u64>
    requires { IsSome (tile_in table.now at) }
    ensures { result ≡ name_in table.now (Some at) }
{
    match table.tile(at) {
        Shape::Object { .. } => Some(table.name(at)),
        Shape::Filler { .. } => None,
        Shape::Forwarded { .. } => None,
    }
}

/// The name of the object that starts at an address, none where none does: a dead object's field can lead there.
///
/// ```rust
/// core.step(new);
/// assert_eq!(rt; object_name(core.table(), Addr::new(0)), Some(0));
/// assert_eq!(rt; object_name(core.table(), Addr::new(1)), None);
/// ```
pub fn object_name(table: &RegionTable, at: Addr) -> Option<u64>
    ensures { result ≡ name_in table.now (Some at) }
{
    table.law();
    if at.word() >= table.region_count() * table.words_per_region() {
        return None;
    }
    let Some(first) = table.first_tile(at) else {
        return None;
    };
    if first.word() != at.word() {
        return None;
    }
    tile_name(table, at)
}

impl Core {
    /// What a weak slot of an object shows: of a kept one nil, if what it leads to isn't kept, and else what it holds.
    ///
    /// ```rust
    /// let weak = Step::Mutator(Op { mutator: 0, action: Action::NewWeak { to: r0, counts, weaks: 1 } });
    /// core.step(weak);
    /// assert_eq!(rt; core.weak_shown(Addr::new(0), 0), None);
    /// ```
    pub fn weak_shown(&self, object: Addr, slot: u32) -> Ptr
        requires { slot < length (weaks_at self.now.table object) }
        ensures { slice_get (weaks_shown self.now object) slot ≡ Some result }
    {
        let word = self.table.get_weak(object, slot);
        if self.marker.lasting(&self.table, Some(object)).is_none() {
            return word;
        }
        self.marker.lasting(&self.table, word)
    }
}
