//! The roots.

ghost use Rattle.std.specs.Prelude.{◌≡◌, ℕ, Bool, false, List};
ghost use Rattle.std.specs.List.{AllZip};
ghost use Rattle.heap_model.specs.Relocation.{IsMoved};
ghost use Rattle.heap_model.specs.Evacuation.{place_after};
ghost use Rattle.evacuation.specs.Turns.{Pause, IsPause, IsTurn, After, in_set, space};
ghost use Rattle.evacuation.specs.declared.room.Notes.{Notes};

use crate::fields::new_word;
use object_copy::Destinations;
use regions::RegionTable;
use root_table::Roots;

/// The roots in order: each that isn't nil names the new place of its target. Where no region is evacuated, none is looked at. It stands
/// apart from the rest of a pause, so that a root costs few instructions.
#[inline(never)]
pub(crate) fn update_roots(
    table: &mut RegionTable,
    destinations: &mut Destinations,
    set: &[bool],
    roots: &mut Roots,
    regions: usize,
)
    ghost pause: { Pause }
    requires premises { IsPause pause }
    requires turn { IsTurn pause table.old destinations.old }
    requires flags { set.now ≡ pause.chosen }
    requires start { roots.old.words ≡ pause.roots }
    requires none { regions ≡ 0 → (a : ℕ) → in_set pause a ≡ false }
    ensures turn { IsTurn pause table.new destinations.new }
    ensures after { (noted : Notes) → After pause noted noted table.old table.new destinations.old destinations.new }
    ensures moved { AllZip (IsMoved (place_after (in_set pause) (space pause table.new).forward)) pause.roots roots.new.words }
    ensures places { roots.new.places ≡ roots.old.places }
{
    if regions == 0 {
        return;
    }
    let end = roots.len();
    let mut place = 0;
    while place < end {
        let Some(target) = roots.get(place) else {
            let Some(next) = roots.next_named(place) else {
                return;
            };
            place = next;
            continue;
        };
        let new = new_word(table, destinations, set, Some(target));
        roots.update(place, new);
        place += 1;
    }
}
