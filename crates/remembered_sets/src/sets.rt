//! The remembered sets of all regions: `RememberedSets`, a `RememberedSet` of `set` for each, beside them a `Filter` of `filter` for each
//! four, and one flag for each card.
//!
//! ```text
//!   region      0     1            2     3
//!   inline      -     6 9 .. 40    0     -
//!   sources     -     3            -     -        card c lies in region c / cards_per_region
//!   entered     0     -            -     6 7      region 1 covers all cards of region 3, of which 6 and 7 alone entered a set
//!   filters     ---- one table ----------         that of regions 0 to 3; the next four have one of theirs
//! ```
//!
//! A set that marks a region whole covers cards in which no field ever led into it. `entered` has the cards that were added to a set,
//! whichever it was, since the set of their own region was last emptied: a pause visits the cards of a marked region that are in it,
//! and no others. A region's set is emptied when the region is freed, and no object in it is kept then.
//!
//! Each region has a filter of its own, and clauses see it as a part of the region's set. Four neighbours have theirs in one table, so that
//! making them asks for memory once: what asks touches a page, and a heap may have thousands of regions.

ghost use Rattle.std.specs.Prelude.{◌≡◌, ◌≢◌, ◌⊎◌, ◌||◌, ◌+◌, ◌*◌, ◌/◌, ◌%◌, ◌<◌, ◌≤◌, if◌then◌else◌};
ghost use Rattle.std.specs.Prelude.{All, ℕ, false, true, IfOk, Some, length, slice_get, slice_index_or, List};
ghost use Rattle.bit_sets.specs.Bits.{has, is_between};
ghost use Rattle.remembered_sets.specs.Sets.{added, after_all, card_count, cleared, covers, empty_sets, may_lead, set_of};
ghost use Rattle.remembered_sets.specs.Sets.{emptied, emptied_filter, no_set, Change, AreSets, LeavesSet, Sets};
ghost use Rattle.remembered_sets.specs.Sharing.{filter_of};
ghost use Rattle.remembered_sets.specs.Owed.{owed};

use crate::filter::{Filter, SHARERS, add_to_filter, clear_filter, new_filters};
use crate::set::RememberedSet;
use bit_sets::bits::Bits;
use bit_sets::bounded::BoundedBits;
use heap_words::addr::{Card, RegionNo};
use heap_words::powers::quotient;
use std::alloc::{AllocError, Global};
use std::marker::Model;
use work_counter::Work;

/// A remembered set for each region, and the cards that entered one. Clauses see the list of the sets, each with its filter, how many
/// cards a region has, and a flag for each card.
pub struct RememberedSets {
    sets: Vec<RememberedSet>,
    filters: Vec<Filter>,
    /// Whether the filters have rows.
    have_rows: bool,
    cards_per_region: u32,
    entered: Bits,
}

impl Model for RememberedSets {
    ghost use Rattle.remembered_sets.specs.Sets.{Sets};

    ghost Value = { Sets };

    ghost use Rattle.remembered_sets.specs.Inside.{sets_of, IsSetTable};

    ghost view = { sets_of };

    ghost invariant = { IsSetTable };
}

/// Where it is let go there is one call, and not a drop for each of its parts.
impl Drop for RememberedSets {
    fn drop(self) {
        let RememberedSets {
            sets: _,
            filters: _,
            have_rows: _,
            cards_per_region: _,
            entered: _,
        } = self;
    }
}

/// The sets of the regions from one up to another, which is not one of them, are empty, and so are their filters. The other sets stay, and
/// so do their filters.
fn clear_each(sets: &mut Vec<RememberedSet>, filters: &mut Vec<Filter>, first: u32, past: u32)
    requires order { first ≤ past }
    requires known { past ≤ length sets.old.items }
    requires tables { length sets.old.items ≤ 4 * length filters.old.items }
    ensures sets { (k : ℕ) → slice_index_or sets.new.items k no_set ≡ (if is_between first past k
        then emptied (slice_index_or sets.old.items k no_set) else slice_index_or sets.old.items k no_set) }
    ensures filters { (k : ℕ) → filter_of filters.new.items k ≡ (if is_between first past k
        then emptied_filter (filter_of filters.old.items k) else filter_of filters.old.items k) }
    ensures each { length sets.new.items ≡ length sets.old.items }
    ensures each_table { length filters.new.items ≡ length filters.old.items }
{
    for number in first..past {
        clear_filter(filters, number);
        sets[number as usize].clear();
    }
}

impl RememberedSets {
    /// An empty set for each region, and no card that entered one. No call takes memory afterwards. It takes 16 cards and a bit for each
    /// region a set, a bit for each card, and `3 * rows` bits a card of a region for each set's filter, none where `rows` is 0; where the
    /// cards or the bits of four filters are 2 to the 32nd or more there is no memory for them.
    pub fn new(
        alloc: Global,
        regions: u32,
        cards_per_region: u32,
        rows: u32,
    ) -> Result<RememberedSets, AllocError>
        requires some_cards { 0 < cards_per_region }
        requires whole { 0 < rows → cards_per_region % 64 ≡ 0 }
        ensures { IfOk result (λ sets. sets ≡ empty_sets regions cards_per_region rows) }
    {
        let Some(cards) = regions.checked_mul(cards_per_region) else {
            return Err(AllocError);
        };
        let entered = Bits::new(alloc, cards)?;
        let filters = new_filters(alloc, regions, cards_per_region, rows)?;
        let mut sets = Vec::with_capacity(alloc, regions as usize)?;
        for _ in 0..regions {
            sets.push(RememberedSet::new(alloc, regions)?)?;
        }
        Ok(RememberedSets {
            sets,
            filters,
            have_rows: rows != 0,
            cards_per_region,
            entered,
        })
    }

    /// Tells a proof what is known of all sets: a region has cards; no set has more than sixteen cards inline, nor one
    /// twice; each has a mark for each region, and a filter; and there is a flag for each card. It does nothing.
    pub fn law(&self)
        ensures { AreSets self.now }
    {
        let _ = &self.cards_per_region;
    }

    /// Whether the region's set covers the card.
    pub fn covers(&self, region: RegionNo, card: Card) -> bool
        requires region { region < length self.now.sets }
        requires card { card < card_count self.now }
        ensures { result ≡ covers self.now region card }
    {
        let source = quotient(card.number(), self.cards_per_region);
        let set = &self.sets[region.number() as usize];
        set.covers(card, source)
    }

    /// How many cards stand one by one in the region's set.
    pub fn card_count(&self, region: RegionNo) -> usize
        requires { region < length self.now.sets }
        ensures { result ≡ length (set_of self.now region).inline }
    {
        let set = &self.sets[region.number() as usize];
        set.len()
    }

    /// A card of those that stand one by one in the region's set, in the order in which they came.
    pub fn card(&self, region: RegionNo, place: usize) -> Card
        requires region { region < length self.now.sets }
        requires place { place < length (set_of self.now region).inline }
        ensures { slice_get (set_of self.now region).inline place ≡ Some result }
    {
        let set = &self.sets[region.number() as usize];
        set.card(place)
    }

    /// Whether the region's set covers all cards of the region `source` by a mark.
    pub fn is_whole(&self, region: RegionNo, source: RegionNo) -> bool
        requires region { region < length self.now.sets }
        requires source { source < length self.now.sets }
        ensures { result ≡ slice_index_or (set_of self.now region).sources source false }
    {
        let set = &self.sets[region.number() as usize];
        set.is_whole(source.number())
    }

    /// Adds a card to the region's set, and to those that entered one. Where the set covers it, what it covers stays.
    pub fn add(&mut self, region: RegionNo, card: Card)
        requires region { region < length self.old.sets }
        requires card { card < card_count self.old }
        ensures after { self.new ≡ added self.old region card }
        ensures covered { covers self.new region card ≡ true }
        ensures leads { may_lead self.new region card ≡ true }
    {
        let source = RegionNo::new(quotient(card.number(), self.cards_per_region));
        self.add_from(source, region, card);
    }

    /// The same for a card whose own region, `source`, is known. Where the set marks that region the caller needs no call.
    #[inline(always)]
    pub fn add_from(&mut self, source: RegionNo, region: RegionNo, card: Card)
        requires source { card / self.old.cards_per_region ≡ source }
        requires region { region < length self.old.sets }
        requires card { card < card_count self.old }
        ensures after { self.new ≡ added self.old region card }
        ensures covered { covers self.new region card ≡ true }
        ensures leads { may_lead self.new region card ≡ true }
    {
        self.add_counted(source, region, card, &mut Work::new());
    }

    /// The same, for one who counts: a turn for each word of the set's filter that it clears first. So many turns the sets owe less then.
    /// The look at the set's own cards, sixteen at most, isn't counted.
    #[inline(always)]
    pub fn add_counted(&mut self, source: RegionNo, region: RegionNo, card: Card, work: &mut Work)
        requires source { card / self.old.cards_per_region ≡ source }
        requires region { region < length self.old.sets }
        requires card { card < card_count self.old }
        ensures after { self.new ≡ added self.old region card }
        ensures covered { covers self.new region card ≡ true }
        ensures leads { may_lead self.new region card ≡ true }
        ensures work { work.new + owed self.new ≤ work.old + owed self.old }
    {
        self.entered.set(card.number());
        let number = region.number();
        add_to_filter(
            &mut self.filters,
            self.have_rows,
            number,
            card,
            source.number(),
            self.cards_per_region,
            work,
        );
        let set = &mut self.sets[number as usize];
        set.add(card, source.number());
    }

    /// Flags the cards in which a field may lead into the region: those that its set covers, that entered a set and that the set's filter
    /// lets through. The other flags stay. It costs the set's own cards, and for each region that it marks whole a look at words that hold
    /// 64 flags each.
    pub fn mark_cards(&self, region: RegionNo, flags: &mut BoundedBits)
        requires region { region < length self.now.sets }
        requires each { length flags.old ≡ card_count self.now }
        ensures flags { (c : ℕ) → has flags.new c ≡ (has flags.old c || may_lead self.now region c) }
        ensures len { length flags.new ≡ length flags.old }
    {
        let set = &self.sets[region.number() as usize];
        if set.is_untouched() {
            return;
        }
        self.mark_covered(region, flags);
    }

    /// The same where cards were added to the set.
    #[inline(never)]
    fn mark_covered(&self, region: RegionNo, flags: &mut BoundedBits)
        requires region { region < length self.now.sets }
        requires each { length flags.old ≡ card_count self.now }
        ensures flags { (c : ℕ) → has flags.new c ≡ (has flags.old c || may_lead self.now region c) }
        ensures len { length flags.new ≡ length flags.old }
    {
        let number = region.number();
        let set = &self.sets[number as usize];
        let filter = &self.filters[(number / SHARERS) as usize];
        set.mark(
            filter,
            number % SHARERS,
            self.cards_per_region,
            &self.entered,
            flags,
        );
    }

    /// The region's set is empty, its filter too, and none of the region's own cards has entered a set. The other sets stay, and so do
    /// their filters.
    pub fn clear(&mut self, region: RegionNo)
        requires { region < length self.old.sets }
        ensures { self.new ≡ cleared self.old region }
    {
        self.entered.law();
        let number = region.number();
        let from = number * self.cards_per_region;
        self.entered.clear_range(from, from + self.cards_per_region);
        clear_filter(&mut self.filters, number);
        let set = &mut self.sets[number as usize];
        set.clear();
    }

    /// The same of so many regions from one on. Their own cards are looked at as one range.
    pub fn clear_run(&mut self, first: RegionNo, count: u32)
        requires { first + count ≤ length self.old.sets }
        ensures sets { (k : ℕ) → set_of self.new k
            ≡ (if is_between first (first + count) k then emptied (set_of self.old k) else set_of self.old k) }
        ensures entered { (card : ℕ) → has self.new.entered card
            ≡ (if is_between first (first + count) (card / self.old.cards_per_region) then false else has self.old.entered card) }
        ensures each { length self.new.sets ≡ length self.old.sets }
        ensures cards { self.new.cards_per_region ≡ self.old.cards_per_region }
    {
        self.entered.law();
        let number = first.number();
        let past = number + count;
        let cards = self.cards_per_region;
        self.entered.clear_range(number * cards, past * cards);
        clear_each(&mut self.sets, &mut self.filters, number, past);
    }
}

/// What a set covers after a card is added: the card, all that it covered, and else nothing but cards of the card's own
/// region, or the card alone where there was room inline. The other sets stay. The card has entered a set then, and no other that
/// hadn't; what may have led into a region still may.
pub fn add_law()
    ensures covered { (s : Sets) (region card : ℕ) → AreSets s → region < length s.sets → card < card_count s
        → covers (added s region card) region card ≡ true }
    ensures grows { (s : Sets) (region card other c : ℕ) → region < length s.sets → covers s other c ≡ true
        → covers (added s region card) other c ≡ true }
    ensures only { (s : Sets) (region card c : ℕ) → region < length s.sets → covers (added s region card) region c ≡ true
        → (covers s region c ≡ true) ⊎ (c / s.cards_per_region ≡ card / s.cards_per_region) }
    ensures only_the_card { (s : Sets) (region card c : ℕ) → region < length s.sets → length (set_of s region).inline < 16
        → covers (added s region card) region c ≡ true
        → (covers s region c ≡ true) ⊎ (c ≡ card) }
    ensures others { (s : Sets) (region card other : ℕ) → other ≢ region → set_of (added s region card) other ≡ set_of s other }
    ensures leads { (s : Sets) (region card : ℕ) → AreSets s → region < length s.sets → card < card_count s
        → may_lead (added s region card) region card ≡ true }
    ensures leads_still { (s : Sets) (region card other c : ℕ) → region < length s.sets → may_lead s other c ≡ true
        → may_lead (added s region card) other c ≡ true }
    ensures entered_only { (s : Sets) (region card c : ℕ) → has (added s region card).entered c ≡ true
        → (has s.entered c ≡ true) ⊎ (c ≡ card) }
{}

/// A cleared set covers nothing, no card of its own region has entered a set, and the other sets and cards stay.
pub fn clear_law()
    ensures nothing { (s : Sets) (region card : ℕ) → region < length s.sets → covers (cleared s region) region card ≡ false }
    ensures others { (s : Sets) (region other : ℕ) → other ≢ region → set_of (cleared s region) other ≡ set_of s other }
    ensures own { (s : Sets) (region card : ℕ) → card / s.cards_per_region ≡ region → has (cleared s region).entered card ≡ false }
    ensures other_cards { (s : Sets) (region card : ℕ) → card / s.cards_per_region ≢ region
        → has (cleared s region).entered card ≡ has s.entered card }
{}

/// A card that is added is covered until the region's set is cleared, whatever else is added and cleared. Until its own region's set is
/// cleared too, a field in it may lead there.
pub fn run_law()
    ensures covered { (s : Sets) (region card : ℕ) (changes : List Change) → AreSets s → region < length s.sets → card < card_count s
        → All (LeavesSet region) changes
        → covers (after_all changes (added s region card)) region card ≡ true }
    ensures leads { (s : Sets) (region card : ℕ) (changes : List Change) → AreSets s → region < length s.sets → card < card_count s
        → All (LeavesSet region) changes → All (LeavesSet (card / s.cards_per_region)) changes
        → may_lead (after_all changes (added s region card)) region card ≡ true }
{}
