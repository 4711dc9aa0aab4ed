//! Room for a pause, which is made with the heap.
//!
//! ```text
//!                  in a pause                                    one entry for
//!   destinations   where copies go                               a region
//!   chosen         whether a region is evacuated                 a region
//!   noted          cards with a field that crosses regions now   a card, as a bit; or none, and sets gain such cards at once
//!   visited        cards to look at, in regions in use           a card, as a bit
//! ```
//!
//! All but the last, and how many words a card has, are a pause's context, which its functions pass on.
//!
//! Sets of cards are bits, so that a pause goes from one member to the next, and clears a set by words of 64 cards.

ghost use Rattle.std.specs.Prelude.{◌≡◌, ◌<◌, ◌/◌, ℕ, All, false, true, IfOk, length};
ghost use Rattle.std.specs.List.Sorted.{IsStrictlyIncreasing};
ghost use Rattle.cards.specs.Cards.{is_dirty};
ghost use Rattle.remembered_sets.specs.Sets.{card_count, cards_into};
ghost use Rattle.evacuation.specs.Evacuates.{is_chosen};
ghost use Rattle.evacuation.specs.Space.{flag, is_noted, with_note};

use bit_sets::bounded::BoundedBits;
use cards::CardTable;
use heap_words::addr::{Card, RegionNo};
use object_copy::Destinations;
use region_choice::LiveRow;
use remembered_sets::RememberedSets;
use std::alloc::{AllocError, Global};
use std::marker::Model;

/// Where a pause notes that a field leads to another region: at once in that region's remembered set, or else its card, among those that
/// become dirty at the pause's end. The remembered sets are those of the heap within a pause alone, and else none.
#[derive(Drop)]
pub(crate) struct Notes {
    pub(crate) at_once: bool,
    pub(crate) cards: BoundedBits,
    pub(crate) sets: RememberedSets,
}

/// A pause's context: the destinations, a flag for each region that is evacuated, what is noted, and how many words a card has.
#[derive(Drop)]
pub(crate) struct Context {
    pub(crate) destinations: Destinations,
    pub(crate) chosen: Vec<bool>,
    pub(crate) noted: Notes,
    pub(crate) card_words: u32,
}

/// The context of a pause, and the set of the cards that it visits. What it holds counts within a pause alone: clauses see how many
/// regions and cards it has room for.
pub struct PauseRoom {
    pub(crate) context: Context,
    pub(crate) visited: BoundedBits,
}

impl Model for PauseRoom {
    ghost use Rattle.evacuation.specs.Rooms.{RoomSizes, sizes_of, IsPauseRoom};

    ghost Value = { RoomSizes };

    ghost view = { sizes_of };

    ghost invariant = { IsPauseRoom };
}

/// Where it is let go there is one call, and not a drop for each of its parts.
impl Drop for PauseRoom {
    fn drop(self) {
        let PauseRoom {
            context: _,
            visited: _,
        } = self;
    }
}

fn flags(alloc: Global, count: u32) -> Result<Vec<bool>, AllocError>
    ensures { IfOk result (λ v. length v.items ≡ count) }
{
    vec![in alloc; false; count as usize]
}

impl PauseRoom {
    /// Room for so many regions and cards. No call takes memory afterwards.
    pub fn new(alloc: Global, regions: u32, cards: u32) -> Result<PauseRoom, AllocError>
        ensures { IfOk result (λ room. room ≡ record { regions = regions; cards = cards }) }
    {
        Ok(PauseRoom {
            context: Context {
                destinations: Destinations::new(alloc, regions)?,
                chosen: flags(alloc, regions)?,
                noted: Notes {
                    at_once: false,
                    cards: BoundedBits::new(alloc, cards)?,
                    sets: RememberedSets::new(alloc, 0, 1, 0)?,
                },
                card_words: 0,
            },
            visited: BoundedBits::new(alloc, cards)?,
        })
    }

    /// How many cards may have a field that leads into a region. It costs what the region's set holds, and a look at each 64 cards between
    /// the lowest and the highest of them.
    pub fn count_cards(&mut self, sets: &RememberedSets, region: RegionNo) -> u32
        requires region { region < length sets.now.sets }
        requires each_card { self.old.cards ≡ card_count sets.now }
        ensures room { self.new ≡ self.old }
        ensures count { result ≡ cards_into sets.now region }
    {
        self.visited.clear();
        sets.mark_cards(region, &mut self.visited);
        self.visited.count()
    }
}

/// Flags the rows' regions, and no others.
pub(crate) fn flag_chosen(set: &mut [bool], rows: &[LiveRow])
    requires { All (λ row. row.region < length set.old) rows.now }
    ensures flags { (k : ℕ) → flag set.new k ≡ is_chosen rows.now k }
    ensures len { length set.new ≡ length set.old }
{
    set.fill(false);
    for row in rows {
        set[row.region.number() as usize] = true;
    }
}

/// Notes that a field in a card of the region `home` leads into another region.
#[inline(never)]
pub(crate) fn note_crossing(notes: &mut Notes, card: u32, home: u32, region: u32)
    requires card { card < length notes.old.cards }
    requires own { card / notes.old.sets.cards_per_region ≡ home }
    requires region { region < length notes.old.sets.sets }
    requires known { card < card_count notes.old.sets }
    ensures notes { notes.new ≡ with_note notes.old card region }
    ensures noted { is_noted notes.new card region ≡ true }
{
    if notes.at_once {
        notes.sets.add_from(RegionNo::new(home), RegionNo::new(region), Card::new(card));
    } else {
        notes.cards.set(card);
    }
}

/// The noted cards become dirty at the queue's end, by rising number.
pub(crate) fn dirty_noted(cards: &mut CardTable, noted: &BoundedBits)
    requires clean { (card : ℕ) → is_dirty cards.old card ≡ false }
    requires len { length noted.now ≡ length cards.old.dirty }
    ensures dirty { (card : ℕ) → is_dirty cards.new card ≡ flag noted.now card }
    ensures logs { cards.new.logs ≡ cards.old.logs }
    ensures queue { IsStrictlyIncreasing cards.new.queue }
    ensures len { length cards.new.dirty ≡ length cards.old.dirty }
{
    cards.law();
    noted.law();
    let mut start = 0;
    while let Some(card) = noted.next(start) {
        cards.append(Card::new(card));
        start = card + 1;
    }
}
