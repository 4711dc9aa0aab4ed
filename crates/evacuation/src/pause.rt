//! The pause.

ghost use Rattle.std.specs.Prelude.{◌≡◌, ℕ, length, false};
ghost use Rattle.remembered_sets.specs.Sets.{card_count};
ghost use Rattle.evacuation.specs.Evacuates.{CanEvacuate, HasEvacuated, all_layers};
ghost use Rattle.evacuation.specs.Turns.{Pause, PauseStands, PauseGoesOn, AreKept, AreVisited, HasCopied, in_set};

use crate::copied::settle_copies;
use crate::outside::{Kept, update_cards};
use crate::release::release_chosen;
use crate::room::{Context, PauseRoom, dirty_noted, flag_chosen};
use crate::roots::update_roots;
use crate::visited::flag_visited;
use bit_sets::bounded::BoundedBits;
use cards::CardTable;
use mark_bitmap::bitmaps::Bitmaps;
use mark_bitmap::tams::Tams;
use region_choice::LiveRow;
use regions::RegionTable;
use remembered_sets::RememberedSets;
use root_table::Roots;

/// How many regions were reclaimed, and how many words copied.
#[derive(Clone, Copy, Debug, PartialEq, Eq)]
pub struct Moved {
    pub regions: usize,
    pub words: u32,
}

/// Copies what is reached of the set, which has so many regions, and updates what names it: roots, fields outside, then the copies.
fn copy_reached(
    table: &mut RegionTable,
    context: &mut Context,
    kept: Kept,
    visited: &BoundedBits,
    roots: &mut Roots,
    regions: usize,
)
    ghost pause: { Pause }
    requires stands { PauseStands pause table.old context.old }
    requires kept { AreKept pause kept }
    requires visited { AreVisited pause visited.now }
    requires start { table.old ≡ pause.start }
    requires roots { roots.old.words ≡ pause.roots }
    requires none { regions ≡ 0 → (a : ℕ) → in_set pause a ≡ false }
    ensures goes_on { PauseGoesOn pause table.old table.new context.old context.new }
    ensures copied { HasCopied pause table.new context.new roots.new.words }
    ensures places { roots.new.places ≡ roots.old.places }
{
    update_roots(
        table,
        &mut context.destinations,
        &context.chosen,
        roots,
        regions,
    );
    update_cards(table, context, kept, visited);
    settle_copies(table, context);
}

/// Copies what is reached of the chosen regions out of them, updates what names it, and releases the regions. It takes no
/// memory, and the free regions have room for all copies. Where a field that was updated or copied leads to another region, its card enters
/// that region's remembered set, if that is to be done at once, and else becomes dirty.
pub fn evacuate(
    table: &mut RegionTable,
    tams: &mut Tams,
    bitmaps: &mut Bitmaps,
    cards: &mut CardTable,
    sets: &mut RememberedSets,
    roots: &mut Roots,
    room: &mut PauseRoom,
    chosen: &[LiveRow],
    at_once: bool,
    card_words: u32,
) -> Moved
    requires can { CanEvacuate (all_layers table.old tams.old bitmaps.old cards.old sets.old roots.old.words) chosen.now card_words }
    requires each_region { room.old.regions ≡ length table.old.regions }
    requires each_card { room.old.cards ≡ card_count sets.old }
    ensures room { room.new ≡ room.old }
    ensures places { roots.new.places ≡ roots.old.places }
    ensures regions { result.regions ≡ length chosen.now }
    ensures evacuated { HasEvacuated chosen.now at_once card_words result.words
        (all_layers table.old tams.old bitmaps.old cards.old sets.old roots.old.words)
        (all_layers table.new tams.new bitmaps.new cards.new sets.new roots.new.words) }
{
    table.law();
    flag_chosen(&mut room.context.chosen, chosen);
    flag_visited(&mut room.visited, table, sets, chosen, card_words);
    room.context.noted.cards.clear();
    room.context.noted.at_once = at_once;
    room.context.destinations.close();
    room.context.card_words = card_words;
    let kept = Kept {
        tams,
        marks: &bitmaps.previous,
    };
    std::mem::swap(sets, &mut room.context.noted.sets);
    copy_reached(
        table,
        &mut room.context,
        kept,
        &room.visited,
        roots,
        chosen.len(),
    );
    std::mem::swap(sets, &mut room.context.noted.sets);
    dirty_noted(cards, &room.context.noted.cards);
    release_chosen(table, tams, bitmaps, sets, chosen);
    table.law();
    Moved {
        regions: chosen.len(),
        words: room.context.destinations.words(),
    }
}
