//! Flags for the cards that a set covers, a card alone and all cards of a region, but for cards that didn't enter a set, and for those that
//! the set's filter holds back, one of four in a table.
//!
//! ```text
//!   2 cards a region    inline: 0, 9     sources: 3     entered: 0, 4, 6     no filter
//!   card      0  1  2  3  4  5  6  7  8  9
//!   flag      x                 x                 cards 7 and 9 are covered, but didn't enter a set
//! ```

ghost use Rattle.std.specs.Prelude.{◌≡◌, ◌==◌, ◌||◌, ◌&&◌, ◌<◌, ◌*◌, ◌/◌, ℕ, All, length};
ghost use Rattle.std.specs.List.{list_any};
ghost use Rattle.bit_sets.specs.Bits.{has};
ghost use Rattle.remembered_sets.specs.Sets.{IsFilter, lets_through};
ghost use Rattle.remembered_sets.specs.Sharing.{filter_at};

use crate::filter::Filter;
use bit_sets::bits::Bits;
use bit_sets::bounded::BoundedBits;
use heap_words::addr::Card;
use heap_words::powers::quotient;

/// Whether a card entered a set, and the filter lets it through, one of four.
fn is_passing(card: &u32, entered: &Bits, filter: &Filter, part: u32, cards_per_region: u32) -> bool
    requires part { part < 4 }
    requires some_cards { 0 < cards_per_region }
    requires filter { IsFilter cards_per_region (filter_at filter.now part) }
    requires known { card.now < length entered.now }
    ensures { result ≡ (has entered.now card.now && lets_through (filter_at filter.now part) cards_per_region card.now) }
{
    if entered.get(*card) {
        let source = quotient(*card, cards_per_region);
        return filter.lets_through(part, Card::new(*card), source, cards_per_region);
    }
    false
}

/// Flags the cards of a list that entered a set, and that the filter lets through.
pub(crate) fn flag_each(
    flags: &mut BoundedBits,
    cards: &[u32],
    entered: &Bits,
    filter: &Filter,
    part: u32,
    cards_per_region: u32,
)
    requires part { part < 4 }
    requires some_cards { 0 < cards_per_region }
    requires filter { IsFilter cards_per_region (filter_at filter.now part) }
    requires known { All (λ c. c < length flags.old) cards.now }
    requires even { length entered.now ≡ length flags.old }
    ensures flags { (c : ℕ) → has flags.new c ≡ (has flags.old c
        || (list_any (λ x. x == c) cards.now && (has entered.now c && lets_through (filter_at filter.now part) cards_per_region c))) }
    ensures len { length flags.new ≡ length flags.old }
{
    for card in cards {
        if is_passing(card, entered, filter, part, cards_per_region) {
            flags.set(*card);
        }
    }
}

/// Flags the cards of the regions that are marked, that entered a set and that the filter lets through. It goes from one marked region to
/// the next, and takes 64 cards at once.
pub(crate) fn flag_sources(
    flags: &mut BoundedBits,
    sources: &Bits,
    entered: &Bits,
    filter: &Filter,
    part: u32,
    cards_per_region: u32,
)
    requires part { part < 4 }
    requires some_cards { 0 < cards_per_region }
    requires filter { IsFilter cards_per_region (filter_at filter.now part) }
    requires each { length flags.old ≡ length sources.now * cards_per_region }
    requires even { length entered.now ≡ length flags.old }
    ensures flags { (c : ℕ) → has flags.new c ≡ (has flags.old c || (has sources.now (c / cards_per_region)
        && (has entered.now c && lets_through (filter_at filter.now part) cards_per_region c))) }
    ensures len { length flags.new ≡ length flags.old }
{
    flags.law();
    if sources.is_untouched() {
        return;
    }
    let mut start = 0;
    while let Some(source) = sources.next(start) {
        filter.mark(part, source, cards_per_region, entered, flags);
        start = source + 1;
    }
}
