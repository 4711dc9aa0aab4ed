//! The regions that a pause within so many cards reclaims: of those that a pause reclaims, the ones that few cards lead into.
//!
//! A pause visits each card that may lead into a region of its set, and takes longest where they are many, however few words it copies.
//!
//! ```text
//!   at most 20 cards
//!
//!   chosen by a pause      region  3   5   7   9   2
//!   cards that lead there          6  40   9   8   1
//!
//!   taken                          3       7           15 cards: 5 is passed over, and with 9 they would be 23
//! ```

ghost use Rattle.std.specs.Prelude.{◌≡◌, ◌≤◌, ◌<◌, All, IsPermutation, length, take};
ghost use Rattle.std.specs.Vec.{vec_capacity};
ghost use Rattle.remembered_sets.specs.Sets.{card_count};
ghost use Rattle.marker.specs.Stands.{MarkerStands};
ghost use Rattle.step_core.specs.Pause.{IsWithin};
ghost use Rattle.step_core.specs.Within.{AreWithin};

use crate::candidates::choose_regions;
use evacuation::PauseRoom;
use marker::Marker;
use region_choice::LiveRow;
use regions::RegionTable;
use remembered_sets::RememberedSets;

/// Of the first `rows_count` rows, puts those to the front into whose regions at most so many cards may lead, in their order, as long as
/// these are at most so many together. The result is how many. It costs a count of the cards for each row up to the first one that has too
/// many with those in front.
pub(crate) fn take_within(
    sets: &RememberedSets,
    room: &mut PauseRoom,
    rows: &mut [LiveRow],
    rows_count: usize,
    cards: u32,
) -> usize
    requires known { All (λ row. row.region < length sets.now.sets) (take rows_count rows.old) }
    requires each_card { room.old.cards ≡ card_count sets.now }
    requires some { rows_count ≤ length rows.old }
    ensures same { IsPermutation rows.old rows.new }
    ensures count { result ≤ rows_count }
    ensures within { AreWithin sets.now cards (take rows_count rows.old) (take result rows.new) }
    ensures room { room.new ≡ room.old }
{
    let mut count = 0;
    let mut left = cards;
    for place in 0..rows_count {
        let into = room.count_cards(sets, rows[place].region);
        if into > cards {
            continue;
        }
        if into > left {
            break;
        }
        rows.swap(count, place);
        count += 1;
        left -= into;
    }
    count
}

/// Puts the regions of a pause within so many cards to the front of the rows. The result is how many they are.
pub(crate) fn choose_within(
    table: &RegionTable,
    marker: &Marker,
    sets: &RememberedSets,
    room: &mut PauseRoom,
    rows: &mut Vec<LiveRow>,
    budget: u32,
    cards: u32,
) -> usize
    requires stands { MarkerStands table.now marker.now }
    requires each_region { length sets.now.sets ≡ length table.now.regions }
    requires each_card { room.old.cards ≡ card_count sets.now }
    requires room { length table.now.regions ≤ vec_capacity rows.old }
    ensures count { result ≤ length rows.new.items }
    ensures few { result ≤ length table.now.regions }
    ensures chosen { IsWithin table.now marker.now.tams marker.now.bitmaps.previous marker.now.running sets.now budget cards
        (take result rows.new.items) }
    ensures room { vec_capacity rows.new ≡ vec_capacity rows.old }
    ensures pause_room { room.new ≡ room.old }
{
    let count = choose_regions(table, marker, rows, budget);
    take_within(sets, room, rows.as_mut_slice(), count, cards)
}
