//! The scan of one card.
//!
//! ```text
//!                      from                        to
//!   the card           |                           |
//!   tiles      | A            | filler | B       | C         | D     |
//!   fields           .   .   *             *   *      .   .
//!              ^ the walk starts                 ^ the last tile that it looks at
//! ```
//!
//! Of the fields, those marked `*` are in the card; those of a dead object aren't looked at. In a run of regions A is the
//! run's one object, however far below the card it starts.

ghost use Rattle.std.specs.Prelude.{◌≡◌, ◌≢◌, ◌↔◌, ◌+◌, ◌-◌, ◌*◌, ◌/◌, ◌%◌, ◌^◌, ◌<◌, ◌≤◌, true, false, ℕ, Option, Some, IsSome, IsTrue};
ghost use Rattle.std.specs.Prelude.{length, min, slice_get};
ghost use Rattle.heap_model.specs.Heap.{Stored};
ghost use Rattle.regions.specs.Table.{object_at, fields_at, tile_in};
ghost use Rattle.regions.specs.Walks.{IsHolder, IsPlacedTile};
ghost use Rattle.mark_bitmap.specs.Kept.{kept_in};
ghost use Rattle.remembered_sets.specs.Sets.{card_count, covers, may_lead};
ghost use Rattle.remembered_sets.specs.Owed.{owed};
ghost use Rattle.refinement.specs.Remembering.{field_word, Gains, IsCovered};
ghost use Rattle.refinement.specs.Refining.{with_field, AddsCard, AreObjectsCovered, CanScan, FieldsInside, IsObjectCovered, IsScanned};
ghost use Rattle.refinement.specs.Refining.{SetsFit};
ghost use Rattle.refinement.specs.Turns.{card_fields, scan_turns};

use crate::links::{leads_elsewhere, next_link_counted};
use heap_words::addr::{Addr, Card, RegionNo};
use mark_bitmap::marks::Marks;
use mark_bitmap::tams::Tams;
use regions::{RegionTable, Shape};
use remembered_sets::RememberedSets;
use work_counter::Work;

/// Whether the tile at an address is a kept object.
#[inline(always)]
pub fn is_kept(table: &RegionTable, tams: &Tams, marks: &Marks, at: Addr, shape: Shape) -> bool
    requires tile { IsPlacedTile table.now at shape }
    requires marks { length marks.now ≡ length table.now.regions * table.now.words_per_region }
    ensures { IsTrue result ↔ IsSome (kept_in table.now tams.now marks.now at) }
{
    table.law();
    match shape {
        Shape::Object { .. } => {
            if !tams.lies_below_previous(table, at) {
                return true;
            }
            marks.get(at)
        }
        Shape::Filler { .. } | Shape::Forwarded { .. } => false,
    }
}

/// Which fields of an object, of so many, are in the card: those from the first number on, below the second.
#[inline(always)]
fn fields_in(card_words: u32, card: Card, object: Addr, count: u32) -> (u32, u32)
    requires object { object + 2 < 2 ^ 32 }
    requires card { card * card_words + card_words < 2 ^ 32 }
    ensures start { result.0 ≡ card * card_words - (object + 2) }
    ensures end { result.1 ≡ min (card * card_words + card_words - (object + 2)) count }
{
    let first = object.word() + 2;
    let from = card.number() * card_words;
    let to = from + card_words;
    (
        from.saturating_sub(first),
        to.saturating_sub(first).min(count),
    )
}

/// Adds the card to the set of the region that a field leads into, which names `target`, if that isn't `home`, the region of the
/// field's word. `last` is a region that needs no look: `home`, or one whose set has the card. So fields in turn that lead into one
/// region cost one look at its set; the result is such a region too.
#[inline(always)]
fn scan_field(
    table: &RegionTable,
    sets: &mut RememberedSets,
    card: Card,
    object: Addr,
    field: u32,
    target: Addr,
    home: u32,
    last: u32,
    work: &mut Work,
) -> u32
    requires names { slice_get (fields_at table.now object) field ≡ Some (Some target) }
    requires inside { FieldsInside table.now object }
    requires regions { length sets.old.sets ≡ length table.now.regions }
    requires card { card < card_count sets.old }
    requires home { field_word object field / table.now.words_per_region ≡ home }
    requires source { card / sets.old.cards_per_region ≡ home }
    requires last { last ≢ home → may_lead sets.old last card ≡ true }
    ensures after { sets.new ≡ with_field table.now.words_per_region card (field_word object field) (Some target) sets.old }
    ensures covered { target / table.now.words_per_region ≢ field_word object field / table.now.words_per_region
        → may_lead sets.new (target / table.now.words_per_region) card ≡ true }
    ensures last { result ≢ home → may_lead sets.new result card ≡ true }
    ensures work { work.new + owed sets.new ≤ work.old + owed sets.old }
{
    let region = table.region_of(target);
    if region.number() == home {
        return last;
    }
    if region.number() == last {
        return last;
    }
    sets.add_counted(RegionNo::new(home), region, card, work);
    region.number()
}

/// Adds the card for the fields of an object that are in it. `home` is the card's region.
#[inline(always)]
fn scan_object(
    table: &RegionTable,
    sets: &mut RememberedSets,
    card_words: u32,
    card: Card,
    object: Addr,
    home: u32,
    before: u32,
    work: &mut Work,
) -> u32
    requires object { IsSome (object_at table.now object) }
    requires inside { FieldsInside table.now object }
    requires fit { SetsFit table.now card_words sets.old }
    requires card { card < card_count sets.old }
    requires home { card / sets.old.cards_per_region ≡ home }
    requires last { before ≢ home → may_lead sets.old before card ≡ true }
    ensures scanned { (kept : ℕ → Option Stored) → kept object ≡ object_at table.now object
        → IsScanned table.now.words_per_region kept card_words card object sets.old sets.new }
    ensures last { result ≢ home → may_lead sets.new result card ≡ true }
    ensures work { work.new + owed sets.new
        ≤ work.old + owed sets.old + card_fields card_words card object (length (fields_at table.now object)) }
{
    table.law();
    let count = table.field_count(object);
    let (start, end) = fields_in(card_words, card, object, count);
    let mut last = before;
    let mut next = start;
    // Each turn begins with a call that ticks.
    'fields: while let Some(link) = next_link_counted(table, object, next, end, work) {
        last = scan_field(table, sets, card, object, link.0, link.1, home, last, work);
        next = link.0 + 1;
    }
    last
}

/// Adds the card for the fields of one tile that are in it, if the tile is a kept object. `home` is the card's region. It is part of its
/// callers, so that a card that one tile has whole costs no call.
#[inline(always)]
fn scan_tile(
    table: &RegionTable,
    tams: &Tams,
    marks: &Marks,
    sets: &mut RememberedSets,
    card_words: u32,
    card: Card,
    at: Addr,
    shape: Shape,
    home: u32,
    before: u32,
    work: &mut Work,
) -> u32
    requires stands { CanScan table.now tams.now marks.now card_words sets.old }
    requires card { card < card_count sets.old }
    requires tile { IsPlacedTile table.now at shape }
    requires home { card / sets.old.cards_per_region ≡ home }
    requires last { before ≢ home → may_lead sets.old before card ≡ true }
    ensures adds { AddsCard table.now.words_per_region (kept_in table.now tams.now marks.now) card_words card sets.old sets.new }
    ensures covered { IsObjectCovered table.now.words_per_region (kept_in table.now tams.now marks.now) card_words card
        (may_lead sets.new) at }
    ensures last { result ≢ home → may_lead sets.new result card ≡ true }
    ensures work { work.new + owed sets.new
        ≤ work.old + owed sets.old + card_fields card_words card at (length (fields_at table.now at)) }
{
    if is_kept(table, tams, marks, at, shape) {
        return scan_object(table, sets, card_words, card, at, home, before, work);
    }
    before
}

/// The same, as a call. What the tile is it looks up anew: so who goes over many tiles keeps none of it for this.
#[cold]
#[inline(never)]
fn scan_apart(
    table: &RegionTable,
    tams: &Tams,
    marks: &Marks,
    sets: &mut RememberedSets,
    card_words: u32,
    card: Card,
    at: Addr,
    home: u32,
    before: u32,
    work: &mut Work,
) -> u32
    requires stands { CanScan table.now tams.now marks.now card_words sets.old }
    requires card { card < card_count sets.old }
    requires tile { IsSome (tile_in table.now at) }
    requires home { card / sets.old.cards_per_region ≡ home }
    requires last { before ≢ home → may_lead sets.old before card ≡ true }
    ensures adds { AddsCard table.now.words_per_region (kept_in table.now tams.now marks.now) card_words card sets.old sets.new }
    ensures covered { IsObjectCovered table.now.words_per_region (kept_in table.now tams.now marks.now) card_words card
        (may_lead sets.new) at }
    ensures last { result ≢ home → may_lead sets.new result card ≡ true }
    ensures work { work.new + owed sets.new
        ≤ work.old + owed sets.old + card_fields card_words card at (length (fields_at table.now at)) }
{
    let shape = table.tile(at);
    scan_tile(
        table, tams, marks, sets, card_words, card, at, shape, home, before, work,
    )
}

/// The same for one of many tiles. Most of them have no field in the card that leads elsewhere than into its own region or into that of
/// the last such field: whether such an object is kept isn't asked.
#[inline(always)]
fn scan_small(
    table: &RegionTable,
    tams: &Tams,
    marks: &Marks,
    sets: &mut RememberedSets,
    card_words: u32,
    card: Card,
    at: Addr,
    shape: Shape,
    home: u32,
    before: u32,
    work: &mut Work,
) -> u32
    requires stands { CanScan table.now tams.now marks.now card_words sets.old }
    requires card { card < card_count sets.old }
    requires tile { IsPlacedTile table.now at shape }
    requires home { card / sets.old.cards_per_region ≡ home }
    requires last { before ≢ home → may_lead sets.old before card ≡ true }
    ensures adds { AddsCard table.now.words_per_region (kept_in table.now tams.now marks.now) card_words card sets.old sets.new }
    ensures covered { IsObjectCovered table.now.words_per_region (kept_in table.now tams.now marks.now) card_words card
        (may_lead sets.new) at }
    ensures last { result ≢ home → may_lead sets.new result card ≡ true }
    ensures work { work.new + owed sets.new
        ≤ work.old + owed sets.old + 2 * card_fields card_words card at (length (fields_at table.now at)) }
{
    table.law();
    match shape {
        Shape::Object { .. } => {
            let (start, end) = fields_in(card_words, card, at, table.field_count(at));
            if leads_elsewhere(table, at, start, end, home, before, work) {
                return scan_apart(
                    table, tams, marks, sets, card_words, card, at, home, before, work,
                );
            }
            before
        }
        Shape::Filler { .. } | Shape::Forwarded { .. } => before,
    }
}

/// Adds the card for the fields of kept objects that are in it, over the tiles of a region from the one on that holds the
/// card's first word. Answers how many tiles it looked at.
#[inline(never)]
fn scan_walk(
    table: &RegionTable,
    tams: &Tams,
    marks: &Marks,
    sets: &mut RememberedSets,
    card_words: u32,
    card: Card,
    first: Addr,
    work: &mut Work,
) -> u32
    requires stands { CanScan table.now tams.now marks.now card_words sets.old }
    requires card { card < card_count sets.old }
    requires holder { IsHolder table.now first (card * card_words) }
    ensures looked { result ≤ card_words }
    ensures adds { AddsCard table.now.words_per_region (kept_in table.now tams.now marks.now) card_words card sets.old sets.new }
    ensures covered { AreObjectsCovered table.now (kept_in table.now tams.now marks.now) card_words card (may_lead sets.new) first }
    ensures work { work.new + owed sets.new ≤ work.old + owed sets.old + scan_turns card_words }
{
    table.law();
    let from = card.number() * card_words;
    let end = from + card_words;
    let home = table.region_of(Addr::new(from)).number();
    let mut looked = 0;
    let mut last = home;
    for (at, shape) in table.walk_from(first) {
        work.tick();
        if at.word() >= end {
            return looked;
        }
        looked += 1;
        last = scan_small(
            table, tams, marks, sets, card_words, card, at, shape, home, last, work,
        );
        if at.word() + shape.size() >= end {
            return looked;
        }
    }
    looked
}

/// The same, whose first tile is looked at before there is a walk: so a card that is within one object costs none.
fn scan_tiles(
    table: &RegionTable,
    tams: &Tams,
    marks: &Marks,
    sets: &mut RememberedSets,
    card_words: u32,
    card: Card,
    first: Addr,
    work: &mut Work,
) -> u32
    requires stands { CanScan table.now tams.now marks.now card_words sets.old }
    requires card { card < card_count sets.old }
    requires holder { IsHolder table.now first (card * card_words) }
    ensures looked { result ≤ card_words }
    ensures adds { AddsCard table.now.words_per_region (kept_in table.now tams.now marks.now) card_words card sets.old sets.new }
    ensures covered { AreObjectsCovered table.now (kept_in table.now tams.now marks.now) card_words card (may_lead sets.new) first }
    ensures work { work.new + owed sets.new ≤ work.old + owed sets.old + scan_turns card_words }
{
    table.law();
    let from = card.number() * card_words;
    let shape = table.tile(first);
    if first.word() + shape.size() < from + card_words {
        return scan_walk(table, tams, marks, sets, card_words, card, first, work);
    }
    let home = table.region_of(Addr::new(from)).number();
    scan_tile(
        table, tams, marks, sets, card_words, card, first, shape, home, home, work,
    );
    1
}

/// Adds a card to the sets of the regions that its crossing fields lead into, and to no other. It walks from the tile that
/// holds the card's first word to the card's end, and answers how many tiles it looked at: at most one for each word of the
/// card, and none where no tile holds the first word.
pub fn scan_card(
    table: &RegionTable,
    tams: &Tams,
    marks: &Marks,
    sets: &mut RememberedSets,
    card_words: u32,
    card: Card,
) -> u32
    requires stands { CanScan table.now tams.now marks.now card_words sets.old }
    requires card { card < card_count sets.old }
    ensures looked { result ≤ card_words }
    ensures covered { IsCovered table.now.words_per_region (kept_in table.now tams.now marks.now) card_words card (may_lead sets.new) }
    ensures adds { AddsCard table.now.words_per_region (kept_in table.now tams.now marks.now) card_words card sets.old sets.new }
    ensures gains { Gains table.now.words_per_region (kept_in table.now tams.now marks.now) card_words sets.old.cards_per_region card
        (covers sets.old) (covers sets.new) }
    ensures leads { (region c : ℕ) → may_lead sets.old region c ≡ true → may_lead sets.new region c ≡ true }
    ensures stands { CanScan table.now tams.now marks.now card_words sets.new }
    ensures count { card_count sets.new ≡ card_count sets.old }
{
    scan_card_counted(table, tams, marks, sets, card_words, card, &mut Work::new())
}

/// The same, for one who counts. Whatever the heap's size, it takes at most a turn for each word of the region below the card, as the
/// search for the first tile, two for each word of the card, two more, and what the sets owe less afterwards.
#[inline(always)]
pub fn scan_card_counted(
    table: &RegionTable,
    tams: &Tams,
    marks: &Marks,
    sets: &mut RememberedSets,
    card_words: u32,
    card: Card,
    work: &mut Work,
) -> u32
    requires stands { CanScan table.now tams.now marks.now card_words sets.old }
    requires card { card < card_count sets.old }
    ensures looked { result ≤ card_words }
    ensures covered { IsCovered table.now.words_per_region (kept_in table.now tams.now marks.now) card_words card (may_lead sets.new) }
    ensures adds { AddsCard table.now.words_per_region (kept_in table.now tams.now marks.now) card_words card sets.old sets.new }
    ensures gains { Gains table.now.words_per_region (kept_in table.now tams.now marks.now) card_words sets.old.cards_per_region card
        (covers sets.old) (covers sets.new) }
    ensures leads { (region c : ℕ) → may_lead sets.old region c ≡ true → may_lead sets.new region c ≡ true }
    ensures stands { CanScan table.now tams.now marks.now card_words sets.new }
    ensures count { card_count sets.new ≡ card_count sets.old }
    ensures work { work.new + owed sets.new
        ≤ work.old + owed sets.old + (card * card_words % table.now.words_per_region + 1) + scan_turns card_words }
{
    table.law();
    let from = Addr::new(card.number() * card_words);
    let Some(first) = table.first_tile_counted(from, work) else {
        return 0;
    };
    scan_tiles(table, tams, marks, sets, card_words, card, first, work)
}
