//! What is kept of the objects in the table, by the previous marks and tops at mark start, as laws.
//!
//! ```text
//!   a region   bottom             previous top at mark start        top
//!              | marked: kept     | kept, marked or not             |
//!              | unmarked: dead   |                                 |
//! ```

ghost use Rattle.std.specs.Prelude.{◌≡◌, ◌≢◌, ◌⊎◌, ◌<◌, if◌then◌else◌, ℕ, Bool, true, false, List, Option, Some, None, length, slice_set};
ghost use Rattle.heap_model.specs.Graph.{Graph};
ghost use Rattle.heap_model.specs.Heap.{Stored};
ghost use Rattle.heap_model.specs.Redirection.{ObjectMoved};
ghost use Rattle.heap_model.specs.Marking.{KeepsSnapshot};
ghost use Rattle.heap_model.specs.Weak.{cleared_object, cleared_after};
ghost use Rattle.regions.specs.Table.{Table, object_at};
ghost use Rattle.mark_bitmap.specs.Marks.{is_marked};
ghost use Rattle.mark_bitmap.specs.Grey.{Scans};
ghost use Rattle.mark_bitmap.specs.Tops.{Tops, below_previous, below_next, exchanged, is_in_region, with_bottom, AreNewer};
ghost use Rattle.mark_bitmap.specs.Kept.{kept_in, heap_in, marking_in};

/// An object that starts at or above its region's previous top is kept, and one that is marked; another one isn't.
pub fn kept_law()
    ensures above { (t : Table) (tops : Tops) (previous : List Bool) (a : ℕ) → below_previous t tops a ≡ false
        → kept_in t tops previous a ≡ object_at t a }
    ensures marked { (t : Table) (tops : Tops) (previous : List Bool) (a : ℕ) → is_marked previous a ≡ true
        → kept_in t tops previous a ≡ object_at t a }
    ensures dead { (t : Table) (tops : Tops) (previous : List Bool) (a : ℕ) → below_previous t tops a ≡ true → is_marked previous a ≡ false
        → kept_in t tops previous a ≡ None }
    ensures object { (t : Table) (tops : Tops) (previous : List Bool) (a : ℕ) (s : Stored) → kept_in t tops previous a ≡ Some s
        → object_at t a ≡ Some s }
{}

/// A mark in the previous bitmap keeps its object, and changes nothing else.
pub fn set_law()
    ensures same { (t : Table) (tops : Tops) (previous : List Bool) (a : ℕ) → a < length previous
        → kept_in t tops (slice_set previous a true) a ≡ object_at t a }
    ensures others { (t : Table) (tops : Tops) (previous : List Bool) (a b : ℕ) → b ≢ a
        → kept_in t tops (slice_set previous a true) b ≡ kept_in t tops previous b }
{}

/// Where some addresses lose their objects, and tops and marks of the others stay, what is kept of the others stays.
#[tactic(auto, using(crate::proofs::KeptLaws::gone_kept))]
pub fn gone_law()
    ensures { (t t' : Table) (tops tops' : Tops) (previous previous' : List Bool) (gone : ℕ → Bool)
        → ((a : ℕ) → object_at t' a ≡ (if gone a then None else object_at t a))
        → ((a : ℕ) → gone a ≡ false → below_previous t' tops' a ≡ below_previous t tops a)
        → ((a : ℕ) → gone a ≡ false → is_marked previous' a ≡ is_marked previous a)
        → (a : ℕ) → kept_in t' tops' previous' a ≡ (if gone a then None else kept_in t tops previous a) }
{}

/// An object that moved is kept at its new place, where that lies above its region's top at mark start. Of the regions whose marks and
/// tops changed, none had another object. What is kept elsewhere stays.
pub fn moved_law()
    ensures { (t t' : Table) (tops tops' : Tops) (previous previous' : List Bool) (roots : List (Option ℕ)) (from to : ℕ) (object : Stored)
        (touched : ℕ → Bool) → kept_in t tops previous from ≡ Some object → object_at t to ≡ None → object_at t' to ≡ Some object
        → object_at t' from ≡ None → ((a : ℕ) → a ≢ from → a ≢ to → object_at t' a ≡ object_at t a)
        → ((a : ℕ) → touched a ≡ true → a ≢ from → object_at t a ≡ None) → below_previous t' tops' to ≡ false
        → ((a : ℕ) → touched a ≡ false → below_previous t' tops' a ≡ below_previous t tops a)
        → ((a : ℕ) → touched a ≡ false → is_marked previous' a ≡ is_marked previous a)
        → ObjectMoved (heap_in t tops previous roots) (heap_in t' tops' previous' roots) from to object }
{}

/// A region that is taken or released, its marks cleared and its tops reset: nothing of it is kept, and of the other
/// regions what was.
#[tactic(auto, using(crate::proofs::KeptLaws::region_kept))]
pub fn region_law()
    ensures { (t t' : Table) (tops : Tops) (previous previous' : List Bool) (k bottom : ℕ)
        → 0 < t.words_per_region → t'.words_per_region ≡ t.words_per_region
        → ((a : ℕ) → object_at t' a ≡ (if is_in_region t.words_per_region k a then None else object_at t a))
        → ((a : ℕ) → is_marked previous' a ≡ (if is_in_region t.words_per_region k a then false else is_marked previous a))
        → (a : ℕ) → kept_in t' (with_bottom tops k bottom) previous' a
        ≡ (if is_in_region t.words_per_region k a then None else kept_in t tops previous a) }
{}

/// Marking is over, and the roles are exchanged: what is kept is what marking keeps.
#[tactic(auto, using(crate::proofs::KeptLaws::swap_kept))]
pub fn swap_law()
    ensures { (s : Graph) (t t' : Table) (tops : Tops) (previous next : List Bool) (scans : Scans) (logged : List ℕ)
        (roots : List (Option ℕ))
        → AreNewer tops → KeepsSnapshot s (heap_in t tops previous roots) (marking_in t tops next scans logged)
        → t'.words_per_region ≡ t.words_per_region
        → ((a : ℕ) → (is_marked next a ≡ true) ⊎ (below_next t tops a ≡ false)
        → object_at t' a ≡ cleared_object (marking_in t tops next scans logged) (object_at t a))
        → (a : ℕ) → kept_in t' (exchanged tops) next a
        ≡ cleared_after (heap_in t tops previous roots) (marking_in t tops next scans logged) a }
{}
