//! The fields of objects outside the set, card by card.
//!
//! Only cards that the remembered sets of the chosen regions cover are visited: no other field outside names the set. A card
//! is walked from the tile that holds its first word. Copies may come to other regions meanwhile, so a cursor walks, no
//! iterator.

ghost use Rattle.std.specs.Prelude.{◌≡◌, ◌<◌, ◌≤◌, ◌+◌, ◌*◌, ◌/◌, ℕ, Bool, List, IsSome, count_by, false, length};
ghost use Rattle.regions.specs.Table.{object_at, tile_in};
ghost use Rattle.regions.specs.Walks.{IsHolder, IsPlacedTile};
ghost use Rattle.refinement.specs.Remembering.{field_word};
ghost use Rattle.evacuation.specs.Space.{IsFieldClean, IsSpaceObject, IsVisited, AreClean};
ghost use Rattle.evacuation.specs.Turns.{Pause, PauseStands, PauseGoesOn, AreKept, EachCard, IsCardPlace, in_set, layout, plan, space};
ghost use Rattle.evacuation.specs.Cursors.{AreCardsFieldsClean, AreCardsFieldsOutside, IsCardClean};

use crate::fields::{CardPlace, is_inside, update_field};
use crate::room::Context;
use bit_sets::bounded::BoundedBits;
use heap_words::addr::Addr;
use mark_bitmap::marks::Marks;
use mark_bitmap::tams::Tams;
use refinement::{is_kept, next_link};
use regions::{RegionTable, Shape};
use work_counter::Work;

/// What tells which objects are kept: the tops at mark start, and the marks of the marking that is over.
#[derive(Clone, Copy)]
pub(crate) struct Kept<'a> {
    pub(crate) tams: &'a Tams,
    pub(crate) marks: &'a Marks,
}

/// Each field of an object that lies in a card names the new place of its target.
fn update_object(table: &mut RegionTable, context: &mut Context, place: CardPlace, at: Addr)
    ghost pause: { Pause }
    requires stands { PauseStands pause table.old context.old }
    requires place { IsCardPlace pause place }
    requires outside { in_set pause at ≡ false }
    requires object { IsSpaceObject (space pause table.old) at }
    ensures goes_on { PauseGoesOn pause table.old table.new context.old context.new }
    ensures clean { AreCardsFieldsClean pause table.new place.card at }
{
    table.law();
    let first = at.word() + 2;
    let from = place.card * context.card_words;
    let to = from + context.card_words;
    let count = table.field_count(at);
    let start = from.saturating_sub(first);
    let end = to.saturating_sub(first).min(count);
    let mut next = start;
    'fields: while let Some(link) = next_link(table, at, next, end) {
        update_field(table, context, place, at, link.0, link.1);
        next = link.0 + 1;
    }
}

/// The fields of one tile that lie in a card, if the tile is a kept object.
fn update_tile(
    table: &mut RegionTable,
    context: &mut Context,
    kept: Kept,
    place: CardPlace,
    at: Addr,
    shape: Shape,
)
    ghost pause: { Pause }
    requires stands { PauseStands pause table.old context.old }
    requires kept { AreKept pause kept }
    requires place { IsCardPlace pause place }
    requires outside { in_set pause at ≡ false }
    requires tile { IsPlacedTile table.old at shape }
    ensures goes_on { PauseGoesOn pause table.old table.new context.old context.new }
    ensures tile { IsSome (tile_in table.new at) }
    ensures clean { (visited : List Bool) (i : ℕ) → IsVisited (layout pause) (plan pause) visited at i
        → field_word at i / pause.card_words ≡ place.card → IsFieldClean (layout pause) (space pause table.new) at i }
{
    if is_kept(table, kept.tams, kept.marks, at, shape) {
        update_object(table, context, place, at);
    }
}

/// Whether a field that lies in a card, of an object kept or not, names an object of the set.
#[inline(always)]
fn names_set(table: &RegionTable, context: &Context, card: u32, at: Addr) -> bool
    ghost pause: { Pause }
    requires stands { PauseStands pause table.now context.now }
    requires card { card < length pause.start.regions * pause.cards_per_region }
    requires object { IsSome (object_at table.now at) }
    ensures { result ≡ false → AreCardsFieldsOutside pause table.now card at }
{
    table.law();
    let first = at.word() + 2;
    let from = card * context.card_words;
    let to = from + context.card_words;
    let count = table.field_count(at);
    let start = from.saturating_sub(first);
    let end = to.saturating_sub(first).min(count);
    let mut field = start;
    'fields: while field < end {
        if let Some(target) = table.get_field(at, field) {
            if is_inside(table, &context.chosen, target) {
                return true;
            }
        }
        field += 1;
    }
    false
}

/// The same. Most objects that are no longer than a card name nothing of the set there: whether such a one is kept isn't asked, since the
/// processor would wait for the marks.
#[inline(always)]
fn update_small(
    table: &mut RegionTable,
    context: &mut Context,
    kept: Kept,
    place: CardPlace,
    at: Addr,
    shape: Shape,
)
    ghost pause: { Pause }
    requires stands { PauseStands pause table.old context.old }
    requires kept { AreKept pause kept }
    requires place { IsCardPlace pause place }
    requires outside { in_set pause at ≡ false }
    requires tile { IsPlacedTile table.old at shape }
    ensures goes_on { PauseGoesOn pause table.old table.new context.old context.new }
    ensures tile { IsSome (tile_in table.new at) }
    ensures clean { (visited : List Bool) (i : ℕ) → IsVisited (layout pause) (plan pause) visited at i
        → field_word at i / pause.card_words ≡ place.card → IsFieldClean (layout pause) (space pause table.new) at i }
{
    match shape {
        Shape::Object { .. } => {
            if shape.size() <= context.card_words && !names_set(table, context, place.card, at) {
                return;
            }
        }
        Shape::Filler { .. } | Shape::Forwarded { .. } => {}
    }
    update_tile(table, context, kept, place, at, shape);
}

/// The fields of one card, which ends at the word `end`, from the tile on that holds its first word and starts in a region outside
/// the set.
fn update_tiles(
    table: &mut RegionTable,
    context: &mut Context,
    kept: Kept,
    place: CardPlace,
    first: Addr,
    end: u32,
)
    ghost pause: { Pause }
    requires stands { PauseStands pause table.old context.old }
    requires kept { AreKept pause kept }
    requires place { IsCardPlace pause place }
    requires outside { in_set pause first ≡ false }
    requires holder { IsHolder table.old first (place.card * pause.card_words) }
    requires end { end ≡ place.card * pause.card_words + pause.card_words }
    ensures goes_on { PauseGoesOn pause table.old table.new context.old context.new }
    ensures clean { (visited : List Bool) → IsCardClean pause visited table.new place.card }
{
    table.law();
    let mut at = first;
    'tiles: loop {
        table.law();
        let shape = table.tile(at);
        let past = at.word() + shape.size();
        update_small(table, context, kept, place, at, shape);
        if past >= end {
            break 'tiles;
        }
        let Some(next) = table.next_tile(at) else {
            break 'tiles;
        };
        at = next;
    }
}

/// The fields of one card. Where the tile of its first word starts in a region of the set, the card has no field of an object outside,
/// and none of its tiles is looked at.
fn update_card(table: &mut RegionTable, context: &mut Context, kept: Kept, card: u32)
    ghost pause: { Pause }
    requires stands { PauseStands pause table.old context.old }
    requires kept { AreKept pause kept }
    requires known { card < length pause.start.regions * pause.cards_per_region }
    ensures goes_on { PauseGoesOn pause table.old table.new context.old context.new }
    ensures clean { (visited : List Bool) → IsCardClean pause visited table.new card }
{
    table.law();
    let from = card * context.card_words;
    let bottom = Addr::new(from);
    let Some(first) = table.first_tile(bottom) else {
        return;
    };
    if is_inside(table, &context.chosen, first) {
        return;
    }
    let home = table.region_of(bottom).number();
    let end = from + context.card_words;
    update_tiles(table, context, kept, CardPlace { card, home }, first, end);
}

/// The fields of all cards that are to be visited, by rising number.
pub(crate) fn update_cards(
    table: &mut RegionTable,
    context: &mut Context,
    kept: Kept,
    visited: &BoundedBits,
)
    ghost pause: { Pause }
    requires stands { PauseStands pause table.old context.old }
    requires kept { AreKept pause kept }
    requires visited { EachCard pause visited.now }
    ensures goes_on { PauseGoesOn pause table.old table.new context.old context.new }
    ensures clean { AreClean (layout pause) (plan pause) visited.now (space pause table.new) (length visited.now) }
{
    update_cards_counted(table, context, kept, visited, &mut Work::new());
}

/// The same, for one who counts the cards: each that is flagged is visited once. What a card takes isn't counted yet.
#[inline(always)]
pub(crate) fn update_cards_counted(
    table: &mut RegionTable,
    context: &mut Context,
    kept: Kept,
    visited: &BoundedBits,
    visits: &mut Work,
)
    ghost pause: { Pause }
    requires stands { PauseStands pause table.old context.old }
    requires kept { AreKept pause kept }
    requires visited { EachCard pause visited.now }
    ensures goes_on { PauseGoesOn pause table.old table.new context.old context.new }
    ensures clean { AreClean (layout pause) (plan pause) visited.now (space pause table.new) (length visited.now) }
    ensures visits { visits.new ≤ visits.old + count_by (λ is_in. is_in) visited.now }
{
    visited.law();
    let mut start = 0;
    while let Some(card) = visited.next(start) {
        visits.tick();
        update_card(table, context, kept, card);
        start = card + 1;
    }
}
