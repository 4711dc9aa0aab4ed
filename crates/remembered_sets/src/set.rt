//! One remembered set, that of one region, without its filter: `RememberedSet`. `sets` has all of them.

ghost use Rattle.std.specs.Prelude.{◌≡◌, ◌||◌, ◌&&◌, ◌<◌, ◌*◌, ◌/◌, ℕ, false, true, All, IfOk, Some, length, slice_get, slice_index_or};
ghost use Rattle.bit_sets.specs.Bits.{has};
ghost use Rattle.remembered_sets.specs.Sets.{IsFilter, empty_set, emptied, lets_through, set_covers, set_with};
ghost use Rattle.remembered_sets.specs.Sharing.{filter_at};

use crate::filter::Filter;
use crate::flags::{flag_each, flag_sources};
use bit_sets::bits::Bits;
use bit_sets::bounded::BoundedBits;
use heap_words::addr::Card;
use heap_words::short_list::ShortList;
use std::alloc::{AllocError, Global};
use std::marker::Model;

/// How many cards a set holds one by one.
pub(crate) const INLINE: usize = 16;

/// Cards, sixteen at most, and a mark for each region whose cards are all in the set. Clauses see the two lists, and a filter without
/// rows: the set's own is in a table with its neighbours'.
pub(crate) struct RememberedSet {
    inline: ShortList<INLINE>,
    sources: Bits,
}

impl Model for RememberedSet {
    ghost use Rattle.remembered_sets.specs.Sets.{CardSet};

    ghost Value = { CardSet };

    ghost use Rattle.remembered_sets.specs.Inside.{set_of};

    ghost view = { set_of };
}

/// Where it is dropped there is one call, and not a drop for each of its parts.
impl Drop for RememberedSet {
    fn drop(self) {
        let RememberedSet {
            inline: _,
            sources: _,
        } = self;
    }
}

impl RememberedSet {
    /// The empty set, among so many regions. No call takes memory afterwards.
    pub(crate) fn new(alloc: Global, regions: u32) -> Result<RememberedSet, AllocError>
        ensures { IfOk result (λ set. set ≡ empty_set regions 0 0) }
    {
        let sources = Bits::new(alloc, regions)?;
        Ok(RememberedSet {
            inline: ShortList::new(),
            sources,
        })
    }

    /// Whether the set covers a card that is in the region `source`.
    pub(crate) fn covers(&self, card: Card, source: u32) -> bool
        requires { source < length self.now.sources }
        ensures { result ≡ set_covers self.now card source }
    {
        self.sources.get(source) || self.inline.as_slice().contains(&card.number())
    }

    /// How many cards are there one by one.
    pub(crate) fn len(&self) -> usize
        ensures { result ≡ length self.now.inline }
    {
        self.inline.len()
    }

    /// A card of those that are there one by one, in the order in which they came.
    pub(crate) fn card(&self, place: usize) -> Card
        requires { place < length self.now.inline }
        ensures { slice_get self.now.inline place ≡ Some result }
    {
        Card::new(self.inline.get(place))
    }

    /// Whether all cards of the region `source` are in the set.
    pub(crate) fn is_whole(&self, source: u32) -> bool
        requires { source < length self.now.sources }
        ensures { result ≡ slice_index_or self.now.sources source false }
    {
        self.sources.get(source)
    }

    /// Adds a card that is in the region `source`: inline while there is room, else by a mark for its region. Where it is covered nothing
    /// changes.
    #[inline(always)]
    pub(crate) fn add(&mut self, card: Card, source: u32)
        requires { source < length self.old.sources }
        ensures { self.new ≡ set_with self.old card source }
    {
        if self.sources.get(source) {
            return;
        }
        self.add_alone(card, source);
    }

    /// The same where the region `source` isn't marked.
    #[inline(never)]
    fn add_alone(&mut self, card: Card, source: u32)
        requires known { source < length self.old.sources }
        requires unmarked { slice_index_or self.old.sources source false ≡ false }
        ensures { self.new ≡ set_with self.old card source }
    {
        if self.inline.as_slice().contains(&card.number()) {
            return;
        }
        if self.inline.len() < INLINE {
            self.inline.push(card.number());
        } else {
            self.sources.set(source);
        }
    }

    /// Whether nothing was added to the set since it was made or emptied: then it covers no card. It costs two looks.
    #[inline(always)]
    pub(crate) fn is_untouched(&self) -> bool
        ensures { result ≡ true → (card source : ℕ) → set_covers self.now card source ≡ false }
    {
        if self.inline.len() != 0 {
            return false;
        }
        self.sources.is_untouched()
    }

    /// Flags the cards that the set covers, that are in `entered` and that the set's filter, one of four, lets through, and leaves the
    /// other flags.
    pub(crate) fn mark(
        &self,
        filter: &Filter,
        part: u32,
        cards_per_region: u32,
        entered: &Bits,
        flags: &mut BoundedBits,
    )
        requires part { part < 4 }
        requires some_cards { 0 < cards_per_region }
        requires filter { IsFilter cards_per_region (filter_at filter.now part) }
        requires known { All (λ c. c < length flags.old) self.now.inline }
        requires each { length flags.old ≡ length self.now.sources * cards_per_region }
        requires even { length entered.now ≡ length flags.old }
        ensures flags { (c : ℕ) → has flags.new c
            ≡ (has flags.old c || (set_covers self.now c (c / cards_per_region)
            && (has entered.now c && lets_through (filter_at filter.now part) cards_per_region c))) }
        ensures len { length flags.new ≡ length flags.old }
    {
        flag_each(
            flags,
            self.inline.as_slice(),
            entered,
            filter,
            part,
            cards_per_region,
        );
        flag_sources(
            flags,
            &self.sources,
            entered,
            filter,
            part,
            cards_per_region,
        );
    }

    /// The set is empty.
    pub(crate) fn clear(&mut self)
        ensures { self.new ≡ emptied self.old }
    {
        self.inline.clear();
        self.sources.clear();
    }
}
