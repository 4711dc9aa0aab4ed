//! One word that is updated: what it names is copied, unless it was before.

ghost use Rattle.std.specs.Prelude.{◌≡◌, ◌/◌, ◌<◌, ℕ, true, false, Some, length, slice_get};
ghost use Rattle.heap_model.specs.Heap.{Stored};
ghost use Rattle.regions.specs.Table.{fields_at, tile_in, moved_to};
ghost use Rattle.refinement.specs.Remembering.{field_word};
ghost use Rattle.evacuation.specs.Space.{IsField, IsNamed, IsNewWord, IsFieldClean, IsFieldSettled, IsDestination, NotesWord};
ghost use Rattle.evacuation.specs.Turns.{Pause, IsPause, IsTurn, PauseStands, After, PauseGoesOn, AreNotes, IsCardPlace};
ghost use Rattle.evacuation.specs.declared.room.Notes.{Notes};
ghost use Rattle.evacuation.specs.Turns.{in_set, layout, plan, space, kept_now};

use crate::room::{Context, Notes, note_crossing};
use heap_words::addr::{Addr, Ptr};
use heap_words::powers::quotient;
use object_copy::{Destinations, copy};
use regions::RegionTable;

/// Whether an address lies in a region that is evacuated.
pub(crate) fn is_inside(table: &RegionTable, set: &[bool], at: Addr) -> bool
    ghost pause: { Pause }
    requires flags { set.now ≡ pause.chosen }
    requires words { table.now.words_per_region ≡ pause.start.words_per_region }
    ensures { result ≡ in_set pause at }
{
    let region = table.region_of(at).number() as usize;
    if region < set.len() {
        set[region]
    } else {
        false
    }
}

/// The new place of a reached object of the set, which is copied unless it is forwarded already. It is part of its callers, so that an
/// object that is costs no call.
#[inline(always)]
pub(crate) fn new_place(
    table: &mut RegionTable,
    destinations: &mut Destinations,
    from: Addr,
) -> Addr
    ghost pause: { Pause }
    requires premises { IsPause pause }
    requires turn { IsTurn pause table.old destinations.old }
    requires named { IsNamed (layout pause) (plan pause) from }
    ensures turn { IsTurn pause table.new destinations.new }
    ensures place { moved_to (tile_in table.new from) ≡ Some result }
    ensures after { (noted : Notes) → After pause noted noted table.old table.new destinations.old destinations.new }
    ensures frame { (b : ℕ) (y : Stored) → in_set pause b ≡ false → kept_now pause table.old b ≡ Some y
        → kept_now pause table.new b ≡ Some y }
{
    table.law();
    match table.target(from) {
        Some(to) => to,
        None => copy(table, destinations, from),
    }
}

/// What a root word holds after the copying.
pub(crate) fn new_word(
    table: &mut RegionTable,
    destinations: &mut Destinations,
    set: &[bool],
    word: Ptr,
) -> Ptr
    ghost pause: { Pause }
    requires premises { IsPause pause }
    requires turn { IsTurn pause table.old destinations.old }
    requires flags { set.now ≡ pause.chosen }
    requires named { (c : ℕ) → word ≡ Some c → in_set pause c ≡ true → IsNamed (layout pause) (plan pause) c }
    ensures turn { IsTurn pause table.new destinations.new }
    ensures word { IsNewWord (layout pause) (space pause table.new) word result }
    ensures after { (noted : Notes) → After pause noted noted table.old table.new destinations.old destinations.new }
{
    let Some(from) = word else {
        return None;
    };
    if !is_inside(table, set, from) {
        return Some(from);
    }
    Some(new_place(table, destinations, from))
}

/// The numbers of a card, and of the region that it is in.
#[derive(Clone, Copy)]
pub(crate) struct CardPlace {
    pub(crate) card: u32,
    pub(crate) home: u32,
}

/// Notes for a word, whose card is known, that the word's target lies in another region, if it does.
#[inline(always)]
fn note(table: &RegionTable, notes: &mut Notes, place: CardPlace, target: Addr)
    ghost pause: { Pause }
    requires premises { IsPause pause }
    requires words { table.now.words_per_region ≡ pause.start.words_per_region }
    requires notes { AreNotes pause notes.old }
    requires place { IsCardPlace pause place }
    requires target { target / pause.start.words_per_region < length pause.start.regions }
    ensures notes { (word : ℕ) → word / pause.card_words ≡ place.card → word / pause.start.words_per_region ≡ place.home
        → NotesWord (layout pause) notes.old notes.new word target }
    ensures stay { AreNotes pause notes.new }
{
    let region = table.region_of(target).number();
    if region != place.home {
        note_crossing(notes, place.card, place.home, region);
    }
}

/// A field that names an object of the set names its new place, which is the answer. Its card is to be noted if that lies in another
/// region.
fn redirect(
    table: &mut RegionTable,
    destinations: &mut Destinations,
    at: Addr,
    field: u32,
    target: Addr,
) -> Addr
    ghost pause: { Pause }
    requires premises { IsPause pause }
    requires turn { IsTurn pause table.old destinations.old }
    requires outside { in_set pause at ≡ false }
    requires field { IsField (space pause table.old) at field }
    requires names { slice_get (fields_at table.old at) field ≡ Some (Some target) }
    requires inside { in_set pause target ≡ true }
    ensures turn { IsTurn pause table.new destinations.new }
    ensures known { result / pause.start.words_per_region < length pause.start.regions }
    ensures after { (noted noted' : Notes) → NotesWord (layout pause) noted noted' (field_word at field) result
        → After pause noted noted' table.old table.new destinations.old destinations.new }
    ensures settled { (noted noted' : Notes) → NotesWord (layout pause) noted noted' (field_word at field) result
        → IsFieldSettled (layout pause) noted' (space pause table.new) at field }
{
    let to = new_place(table, destinations, target);
    table.law();
    table.set_field(at, field, Some(to));
    to
}

/// A field of an object outside the set, which names `target`, names its new place, and its card is noted if it leads into another
/// region than the card's own. A field that names nothing of the set stays as it is.
pub(crate) fn update_field(
    table: &mut RegionTable,
    context: &mut Context,
    place: CardPlace,
    at: Addr,
    field: u32,
    target: Addr,
)
    ghost pause: { Pause }
    requires stands { PauseStands pause table.old context.old }
    requires place { IsCardPlace pause place }
    requires in_card { field_word at field / pause.card_words ≡ place.card }
    requires outside { in_set pause at ≡ false }
    requires field { IsField (space pause table.old) at field }
    requires names { slice_get (fields_at table.old at) field ≡ Some (Some target) }
    ensures goes_on { PauseGoesOn pause table.old table.new context.old context.new }
    ensures clean { IsFieldClean (layout pause) (space pause table.new) at field }
{
    if !is_inside(table, &context.chosen, target) {
        return;
    }
    let to = redirect(table, &mut context.destinations, at, field, target);
    note(table, &mut context.noted, place, to);
}

/// A copied field names the new place of its target, and that is noted if it leads into another region. Its word is read once.
pub(crate) fn settle_field(table: &mut RegionTable, context: &mut Context, at: Addr, field: u32)
    ghost pause: { Pause }
    requires stands { PauseStands pause table.old context.old }
    requires outside { in_set pause at ≡ false }
    requires field { IsField (space pause table.old) at field }
    requires taken { IsDestination context.old.destinations (at / pause.start.words_per_region) }
    ensures goes_on { PauseGoesOn pause table.old table.new context.old context.new }
    ensures settled { IsFieldSettled (layout pause) context.new.noted (space pause table.new) at field }
{
    table.law();
    let Some(target) = table.get_field(at, field) else {
        return;
    };
    let word = at.field(field) as u32;
    let card = quotient(word, context.card_words);
    let home = table.region_of(Addr::new(word)).number();
    if is_inside(table, &context.chosen, target) {
        let to = redirect(table, &mut context.destinations, at, field, target);
        note(table, &mut context.noted, CardPlace { card, home }, to);
        return;
    }
    note(table, &mut context.noted, CardPlace { card, home }, target);
}
