//! What names the object of a run, before that moves down: roots, fields outside, and its own fields name the new place then.
//!
//! ```text
//!   regions    3         4         5         6         7
//!              free      free      run       run       ordinary      the run moves from 5 to 3, over its own words where they are many
//!                                  | a0 .. own fields  | .. f ..     each field f that names a0 names the bottom of 3
//! ```
//!
//! All pointers to it lead to its bottom, so fields outside are in the cards that may lead into its first region. No field's tile changes
//! its size meanwhile. A cursor walks over tiles, as in a pause.

ghost use Rattle.std.specs.Prelude.{◌≡◌, ◌+◌, ◌*◌, ◌<◌, ℕ, Bool, List, IsSome, Some, length, map, true, slice_get};
ghost use Rattle.heap_model.specs.Redirection.{redirected};
ghost use Rattle.regions.specs.Table.{Table, fields_at, object_words, run_length};
ghost use Rattle.remembered_sets.specs.Sets.{card_count};
ghost use Rattle.regions.specs.Walks.{IsHolder, IsPlacedTile};
ghost use Rattle.refinement.specs.Remembering.{field_card, field_word};
ghost use Rattle.evacuation.specs.Space.{flag};
ghost use Rattle.evacuation.specs.Sliding.{Slide, SlideStands, SlideGoesOn, OwnGoesOn, AreKeptIn, IsWay, IsCardUnnamed, IsObjectUnnamed};
ghost use Rattle.evacuation.specs.Sliding.{CanRedirect, HasRedirected, Names, NotesCard, RedirectsInTurn, kept_at, slide_of};

use crate::outside::Kept;
use crate::pause::Moved;
use crate::room::{PauseRoom, dirty_noted};
use crate::visited::flag_visited;
use bit_sets::bounded::BoundedBits;
use cards::CardTable;
use heap_words::addr::{Addr, RegionNo};
use heap_words::powers::quotient;
use mark_bitmap::bitmaps::Bitmaps;
use mark_bitmap::tams::Tams;
use refinement::{is_kept, next_link};
use region_choice::LiveRow;
use regions::{RegionTable, Shape};
use remembered_sets::RememberedSets;
use root_table::Roots;

/// Where an object is, and where it comes to.
#[derive(Clone, Copy)]
pub(crate) struct Way {
    pub(crate) from: Addr,
    pub(crate) to: Addr,
}

/// A field that names `target` names the new place if that is the old one, and its card is noted.
fn redirect_field(
    table: &mut RegionTable,
    noted: &mut BoundedBits,
    way: &Way,
    card: u32,
    at: Addr,
    field: u32,
    target: Addr,
)
    ghost slide: { Slide }
    requires stands { SlideStands slide table.old noted.old }
    requires way { IsWay slide way.now }
    requires known { card < length noted.old }
    requires in_card { field_card slide.card_words at field ≡ card }
    requires object { IsSome (kept_at slide table.old at) }
    requires names { slice_get (fields_at table.old at) field ≡ Some (Some target) }
    ensures goes_on { SlideGoesOn slide (λ c. c ≡ card) table.old table.new noted.old noted.new }
    ensures unnamed { Names slide table.new at field slide.from → ⊥ }
{
    table.law();
    if target.word() == way.from.word() {
        table.set_field(at, field, Some(way.to));
        noted.set(card);
    }
}

/// Each field of an object that is in a card names the new place if it named the old one, and then the card is noted.
fn redirect_object(
    table: &mut RegionTable,
    noted: &mut BoundedBits,
    way: &Way,
    card_words: u32,
    card: u32,
    at: Addr,
)
    ghost slide: { Slide }
    requires stands { SlideStands slide table.old noted.old }
    requires way { IsWay slide way.now }
    requires words { card_words ≡ slide.card_words }
    requires known { card < length noted.old }
    requires object { IsSome (kept_at slide table.old at) }
    ensures goes_on { SlideGoesOn slide (λ c. c ≡ card) table.old table.new noted.old noted.new }
    ensures unnamed { IsObjectUnnamed slide table.new card at }
{
    table.law();
    let first = at.word() + 2;
    let from = card * card_words;
    let to = from + card_words;
    let count = table.field_count(at);
    let start = from.saturating_sub(first);
    let end = to.saturating_sub(first).min(count);
    let mut next = start;
    'fields: while let Some(link) = next_link(table, at, next, end) {
        redirect_field(table, noted, way, card, at, link.0, link.1);
        next = link.0 + 1;
    }
}

/// The fields of one tile that are in a card, if the tile is a kept object.
fn redirect_tile(
    table: &mut RegionTable,
    noted: &mut BoundedBits,
    kept: Kept,
    way: &Way,
    card_words: u32,
    card: u32,
    at: Addr,
    shape: Shape,
)
    ghost slide: { Slide }
    requires stands { SlideStands slide table.old noted.old }
    requires kept { AreKeptIn slide kept }
    requires way { IsWay slide way.now }
    requires words { card_words ≡ slide.card_words }
    requires known { card < length noted.old }
    requires tile { IsPlacedTile table.old at shape }
    ensures goes_on { SlideGoesOn slide (λ c. c ≡ card) table.old table.new noted.old noted.new }
    ensures unnamed { IsObjectUnnamed slide table.new card at }
{
    if is_kept(table, kept.tams, kept.marks, at, shape) {
        redirect_object(table, noted, way, card_words, card, at);
    }
}

/// The fields of one card, from the tile on that holds its first word.
fn redirect_tiles(
    table: &mut RegionTable,
    noted: &mut BoundedBits,
    kept: Kept,
    way: &Way,
    card_words: u32,
    card: u32,
    first: Addr,
)
    ghost slide: { Slide }
    requires stands { SlideStands slide table.old noted.old }
    requires kept { AreKeptIn slide kept }
    requires way { IsWay slide way.now }
    requires words { card_words ≡ slide.card_words }
    requires known { card < length noted.old }
    requires holder { IsHolder table.old first (card * card_words) }
    ensures goes_on { SlideGoesOn slide (λ c. c ≡ card) table.old table.new noted.old noted.new }
    ensures unnamed { IsCardUnnamed slide table.new card }
{
    table.law();
    let end = card * card_words + card_words;
    let mut at = first;
    'tiles: loop {
        table.law();
        let shape = table.tile(at);
        let past = at.word() + shape.size();
        redirect_tile(table, noted, kept, way, card_words, card, at, shape);
        if past >= end {
            break 'tiles;
        }
        let Some(next) = table.next_tile(at) else {
            break 'tiles;
        };
        at = next;
    }
}

/// The fields of one card.
fn redirect_card(
    table: &mut RegionTable,
    noted: &mut BoundedBits,
    kept: Kept,
    way: &Way,
    card_words: u32,
    card: u32,
)
    ghost slide: { Slide }
    requires stands { SlideStands slide table.old noted.old }
    requires kept { AreKeptIn slide kept }
    requires way { IsWay slide way.now }
    requires words { card_words ≡ slide.card_words }
    requires known { card < length noted.old }
    ensures goes_on { SlideGoesOn slide (λ c. c ≡ card) table.old table.new noted.old noted.new }
    ensures unnamed { IsCardUnnamed slide table.new card }
{
    table.law();
    let bottom = Addr::new(card * card_words);
    let Some(first) = table.first_tile(bottom) else {
        return;
    };
    redirect_tiles(table, noted, kept, way, card_words, card, first);
}

/// The fields of all cards that are to be visited, by rising number.
fn redirect_cards(
    table: &mut RegionTable,
    noted: &mut BoundedBits,
    kept: Kept,
    way: &Way,
    card_words: u32,
    visited: &BoundedBits,
)
    ghost slide: { Slide }
    requires stands { SlideStands slide table.old noted.old }
    requires kept { AreKeptIn slide kept }
    requires way { IsWay slide way.now }
    requires words { card_words ≡ slide.card_words }
    requires visited { length visited.now ≡ length noted.old }
    ensures goes_on { SlideGoesOn slide (λ c. flag visited.now c ≡ true) table.old table.new noted.old noted.new }
    ensures unnamed { (card : ℕ) → flag visited.now card ≡ true → IsCardUnnamed slide table.new card }
{
    visited.law();
    let mut start = 0;
    while let Some(card) = visited.next(start) {
        redirect_card(table, noted, kept, way, card_words, card);
        start = card + 1;
    }
}

/// Notes a word's card where the word's target is in another region.
fn note_word(table: &RegionTable, noted: &mut BoundedBits, card_words: u32, word: u32, target: Addr)
    ghost slide: { Slide }
    requires stands { SlideStands slide table.now noted.old }
    requires words { card_words ≡ slide.card_words }
    requires within { word < slide.regions * slide.words }
    ensures notes { NotesCard slide noted.old noted.new word target }
{
    table.law();
    if table.leads_out(word, target) {
        noted.set(quotient(word, card_words));
    }
}

/// A field of the object itself names the new place if it named the old one. Its card at the new place is noted if it leads into another
/// region from there.
fn settle_field(
    table: &mut RegionTable,
    noted: &mut BoundedBits,
    way: &Way,
    card_words: u32,
    field: u32,
)
    ghost slide: { Slide }
    requires stands { SlideStands slide table.old noted.old }
    requires way { IsWay slide way.now }
    requires words { card_words ≡ slide.card_words }
    requires object { IsSome (kept_at slide table.old slide.from) }
    requires field { field < length (fields_at table.old slide.from) }
    requires room { field_word slide.to field < slide.regions * slide.words }
    ensures goes_on { (old : Table) (noted' : List Bool) → OwnGoesOn slide field old table.old noted' noted.old
        → OwnGoesOn slide (field + 1) old table.new noted' noted.new }
{
    table.law();
    let Some(target) = table.get_field(way.from, field) else {
        return;
    };
    let word = way.to.field(field) as u32;
    if target.word() == way.from.word() {
        table.set_field(way.from, field, Some(way.to));
        note_word(table, noted, card_words, word, way.to);
        return;
    }
    note_word(table, noted, card_words, word, target);
}

/// The fields of the object itself.
fn settle_fields(table: &mut RegionTable, noted: &mut BoundedBits, way: &Way, card_words: u32)
    ghost slide: { Slide }
    requires stands { SlideStands slide table.old noted.old }
    requires way { IsWay slide way.now }
    requires words { card_words ≡ slide.card_words }
    requires object { IsSome (kept_at slide table.old slide.from) }
    requires below { slide.to < slide.from }
    ensures goes_on { OwnGoesOn slide (length (fields_at table.old slide.from)) table.old table.new noted.old noted.new }
{
    table.law();
    let count = table.field_count(way.from);
    for field in 0..count {
        settle_field(table, noted, way, card_words, field);
    }
}

/// The fields of the visited cards, and then those of the object itself.
fn redirect_fields(
    table: &mut RegionTable,
    noted: &mut BoundedBits,
    kept: Kept,
    way: &Way,
    card_words: u32,
    visited: &BoundedBits,
)
    ghost slide: { Slide }
    requires stands { SlideStands slide table.old noted.old }
    requires kept { AreKeptIn slide kept }
    requires way { IsWay slide way.now }
    requires words { card_words ≡ slide.card_words }
    requires visited { length visited.now ≡ length noted.old }
    requires object { IsSome (kept_at slide table.old slide.from) }
    requires below { slide.to < slide.from }
    ensures { RedirectsInTurn slide visited.now table.old table.new noted.old noted.new }
{
    redirect_cards(table, noted, kept, way, card_words, visited);
    settle_fields(table, noted, way, card_words);
}

/// What names the object of the run that begins at `first`, which is kept, names the place that it has when the run begins at `to`. The
/// cards of what leads to another region from then on are dirty: those of fields outside, and of its own at their new places. The run
/// itself is still to be moved. It takes no memory. The result is how many regions and words move.
pub fn redirect_run(
    table: &mut RegionTable,
    tams: &Tams,
    bitmaps: &Bitmaps,
    cards: &mut CardTable,
    sets: &RememberedSets,
    roots: &mut Roots,
    room: &mut PauseRoom,
    first: RegionNo,
    to: RegionNo,
    card_words: u32,
) -> Moved
    requires can { CanRedirect table.old tams.now bitmaps.now.previous cards.old sets.now card_words first to }
    requires room { room.old.cards ≡ card_count sets.now }
    ensures room { room.new ≡ room.old }
    ensures roots { roots.new ≡ record roots.old {
      words = map (redirected (first * table.old.words_per_region)
          (to * table.old.words_per_region)) roots.old.words;
    } }
    ensures redirected { HasRedirected (slide_of table.old tams.now bitmaps.now.previous card_words first to) table.old table.new
        cards.old cards.new }
    ensures regions { result.regions ≡ run_length table.old first }
    ensures words { result.words ≡ object_words table.old (first * table.old.words_per_region) }
{
    table.law();
    let words = table.words_per_region();
    let count = table.run_length(first);
    let way = Way {
        from: Addr::new(first.number() * words),
        to: Addr::new(to.number() * words),
    };
    let size = table.object_size(way.from);
    let cards_per_region = words / card_words;
    let row = LiveRow {
        region: first,
        live_bound: 0,
    };
    flag_visited(&mut room.visited, table, sets, &[row], card_words);
    room.visited.clear_range(
        first.number() * cards_per_region,
        (first.number() + count) * cards_per_region,
    );
    room.context.noted.cards.clear();
    roots.redirect(way.from, way.to);
    let kept = Kept {
        tams,
        marks: &bitmaps.previous,
    };
    redirect_fields(
        table,
        &mut room.context.noted.cards,
        kept,
        &way,
        card_words,
        &room.visited,
    );
    dirty_noted(cards, &room.context.noted.cards);
    Moved {
        regions: count as usize,
        words: size,
    }
}
