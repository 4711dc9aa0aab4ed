//! What keeps crossing fields remembered as the heap changes, whatever is kept, dirty and covered. They speak of
//! no table: a region has so many words, and a card so many card words.
//!
//! ```text
//!   a new heap, which keeps nothing; a new object                   kept_law
//!   a stored data word; fewer objects are kept                      fields_law, kept_law
//!   a stored pointer or weak slot                                   store_law
//!   marking ends: fewer objects are kept, weak slots are cleared    cleared_law
//!   a card becomes dirty; a card is added to a set                  more_law
//!   a region's set is cleared, and the region is released           fields_law, release_law
//! ```

ghost use Rattle.std.specs.Prelude.{◌≡◌, ◌≢◌, ℕ, ◌/◌, ◌<◌, Bool, true, false, List, Option, Some, None, if◌then◌else◌, length};
ghost use Rattle.heap_model.specs.Heap.{fields, Heap, IsClosed, Stored};
ghost use Rattle.heap_model.specs.Marking.{Marking};
ghost use Rattle.heap_model.specs.Weak.{cleared_after};
ghost use Rattle.regions.specs.Table.{Table};
ghost use Rattle.mark_bitmap.specs.Tops.{Tops, is_in_region};
ghost use Rattle.mark_bitmap.specs.Kept.{heap_in, kept_in};
ghost use Rattle.remembered_sets.specs.Sets.{Sets, covers, may_lead};
ghost use Rattle.refinement.specs.Remembering.{field_card, field_word, AddsNil, ClearsFields, Gains, IsCrossing, IsNoted, KeepsFields};
ghost use Rattle.refinement.specs.Remembering.{LeadsInside, NoneLeadsInto, Remembers, SetsField};
ghost use Rattle.refinement.specs.Refining.{AddsCard};

/// Where nothing is kept, all is remembered. So it is where what is kept now was kept with the same fields: where fewer
/// objects are kept, or data words are written. A new object with nil fields keeps it.
pub fn kept_law()
    ensures nothing { (words card_words : ℕ) (kept : ℕ → Option Stored) (dirty : ℕ → Bool) (covered : ℕ → ℕ → Bool)
        → ((a : ℕ) → kept a ≡ None) → Remembers words kept card_words dirty covered }
    ensures fewer { (words card_words : ℕ) (kept kept' : ℕ → Option Stored) (dirty : ℕ → Bool) (covered : ℕ → ℕ → Bool)
        → KeepsFields kept kept' → Remembers words kept card_words dirty covered → Remembers words kept' card_words dirty covered }
    ensures added { (words card_words at : ℕ) (kept kept' : ℕ → Option Stored) (dirty : ℕ → Bool) (covered : ℕ → ℕ → Bool)
        → AddsNil kept kept' at → Remembers words kept card_words dirty covered → Remembers words kept' card_words dirty covered }
{}

/// What keeps the fields of what is kept: the same objects, or fewer, or another one in an object's place, with the same
/// fields, as after a store of a data word.
pub fn fields_law()
    ensures same { (kept kept' : ℕ → Option Stored) → ((a : ℕ) → kept' a ≡ kept a) → KeepsFields kept kept' }
    ensures gone { (kept kept' : ℕ → Option Stored) (gone : ℕ → Bool)
        → ((a : ℕ) → kept' a ≡ (if gone a then None else kept a)) → KeepsFields kept kept' }
    ensures values { (kept kept' : ℕ → Option Stored) (at : ℕ) (before after : Stored)
        → kept at ≡ Some before → kept' at ≡ Some after → fields after ≡ fields before → ((a : ℕ) → a ≢ at → kept' a ≡ kept a)
        → KeepsFields kept kept' }
{}

/// What is kept now was kept, and each of its fields is nil or what it was: what was remembered still is. So it is once
/// marking is over, where weak slots are cleared.
pub fn cleared_law()
    ensures remembers { (words card_words : ℕ) (kept kept' : ℕ → Option Stored) (dirty : ℕ → Bool) (covered : ℕ → ℕ → Bool)
        → ClearsFields kept kept' → Remembers words kept card_words dirty covered → Remembers words kept' card_words dirty covered }
    ensures inside { (words regions : ℕ) (kept kept' : ℕ → Option Stored)
        → ClearsFields kept kept' → LeadsInside words regions kept → LeadsInside words regions kept' }
    ensures over { (h : Heap) (m : Marking) (kept' : ℕ → Option Stored) → ((a : ℕ) → kept' a ≡ cleared_after h m a)
        → ClearsFields h.kept kept' }
{}

/// A field gets a value that is nil, or leads into the field's own region, or the field's card is dirty afterwards.
pub fn store_law()
    ensures { (words card_words at index : ℕ) (value : Option ℕ) (kept kept' : ℕ → Option Stored) (dirty dirty' : ℕ → Bool)
        (covered : ℕ → ℕ → Bool)
        → SetsField kept kept' at index value → IsNoted words card_words dirty' (field_word at index) value
        → ((card : ℕ) → dirty card ≡ true → dirty' card ≡ true)
        → Remembers words kept card_words dirty covered → Remembers words kept' card_words dirty' covered }
{}

/// More cards are dirty, or more are covered.
pub fn more_law()
    ensures { (words card_words : ℕ) (kept : ℕ → Option Stored) (dirty dirty' : ℕ → Bool) (covered covered' : ℕ → ℕ → Bool)
        → ((card : ℕ) → dirty card ≡ true → dirty' card ≡ true)
        → ((region card : ℕ) → covered region card ≡ true → covered' region card ≡ true)
        → Remembers words kept card_words dirty covered → Remembers words kept card_words dirty' covered' }
{}

/// A crossing field in a clean card is covered. So where no card is dirty all are.
pub fn clean_law()
    ensures { (words card_words at index target : ℕ) (kept : ℕ → Option Stored) (dirty : ℕ → Bool) (covered : ℕ → ℕ → Bool)
        → Remembers words kept card_words dirty covered → IsCrossing words kept at index target
        → dirty (field_card card_words at index) ≡ false
        → covered (target / words) (field_card card_words at index) ≡ true }
{}

/// A region that no kept object's field leads into has its set cleared, while objects may go, as the region's own do when
/// it is released. Such is a region that has no kept object, where each field leads to a kept object.
pub fn release_law()
    ensures cleared { (words card_words region : ℕ) (kept kept' : ℕ → Option Stored) (dirty : ℕ → Bool) (covered covered' : ℕ → ℕ → Bool)
        → KeepsFields kept kept' → NoneLeadsInto words kept' region
        → ((at index target : ℕ) → IsCrossing words kept' at index target → target / words ≢ region
        → covered (target / words) (field_card card_words at index) ≡ true
        → covered' (target / words) (field_card card_words at index) ≡ true)
        → Remembers words kept card_words dirty covered → Remembers words kept' card_words dirty covered' }
    ensures empty { (words region : ℕ) (h : Heap)
        → 0 < words → IsClosed h → ((a : ℕ) → is_in_region words region a ≡ true → h.kept a ≡ None) → NoneLeadsInto words h.kept region }
{}

/// Where each field leads to a kept object, it leads into a region of the table.
pub fn inside_law()
    ensures { (t : Table) (tops : Tops) (previous : List Bool) (roots : List (Option ℕ))
        → IsClosed (heap_in t tops previous roots) → LeadsInside t.words_per_region (length t.regions) (kept_in t tops previous) }
{}

/// What adding a card covers: what was covered, and else only cards of its own region, in the sets that were asked for. Cards in which a
/// field may lead into a region are such cards still.
pub fn gains_law()
    ensures gains { (words card_words card : ℕ) (kept : ℕ → Option Stored) (old new : Sets)
        → LeadsInside words (length old.sets) kept → AddsCard words kept card_words card old new
        → Gains words kept card_words old.cards_per_region card (covers old) (covers new) }
    ensures leads { (words card_words card : ℕ) (kept : ℕ → Option Stored) (old new : Sets) (region c : ℕ)
        → LeadsInside words (length old.sets) kept → AddsCard words kept card_words card old new
        → may_lead old region c ≡ true → may_lead new region c ≡ true }
{}
