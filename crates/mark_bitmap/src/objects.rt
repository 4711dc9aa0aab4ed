//! What marks and tops at mark start have to do with the objects of the table, as laws. It holds for the previous
//! ones and for the next ones alike, from the making of a heap on, so an exchange of roles keeps it.
//!
//! ```text
//!   made            nothing is marked, all tops are at the bottoms      new_law
//!   begin           marks are cleared, each next top is its region's    fewer_law, set_next_law, newer_law
//!   mark            an object below its region's next top is marked     set_law
//!   a new object    it starts at or above both tops                     table_law
//!   release         a region's marks go, and both its tops              fewer_law, reset_law, table_law
//! ```

ghost use Rattle.std.specs.Prelude.{◌≡◌, ℕ, ◌*◌, ◌<◌, ◌≤◌, Bool, true, false, List, Some, length, replicate, slice_index, slice_set};
ghost use Rattle.heap_model.specs.Heap.{Stored};
ghost use Rattle.regions.specs.Table.{Table, free_table, object_at, top_of, used_of};
ghost use Rattle.mark_bitmap.specs.Marks.{is_marked};
ghost use Rattle.mark_bitmap.specs.Tops.{Tops, bottoms, below_previous, below_next, is_below, is_in_region, with_bottom, AreNewer};
ghost use Rattle.mark_bitmap.specs.Kept.{MarksObjects};

/// In a new heap.
pub fn new_law()
    ensures { (count words : ℕ) → MarksObjects (free_table count words) (bottoms count words) (replicate (count * words) false) }
{}

/// An object below its region's top at mark start is marked.
pub fn set_law()
    ensures { (t : Table) (tops : List ℕ) (marks : List Bool) (a : ℕ) (s : Stored)
        → MarksObjects t tops marks → object_at t a ≡ Some s → is_below t.words_per_region tops a ≡ true
        → MarksObjects t tops (slice_set marks a true) }
{}

/// Marks are cleared: all, or some.
pub fn fewer_law()
    ensures all { (t : Table) (tops : List ℕ) (marks : List Bool) → MarksObjects t tops marks
        → MarksObjects t tops (replicate (length marks) false) }
    ensures some { (t : Table) (tops : List ℕ) (marks marks' : List Bool)
        → MarksObjects t tops marks → length marks' ≡ length marks → ((a : ℕ) → is_marked marks' a ≡ true → is_marked marks a ≡ true)
        → MarksObjects t tops marks' }
{}

/// A region's top at mark start becomes its present top.
pub fn set_next_law()
    ensures { (t : Table) (tops : List ℕ) (marks : List Bool) (k : ℕ)
        → 0 < t.words_per_region → MarksObjects t tops marks → k < length t.regions → MarksObjects t (slice_set tops k (top_of t k)) marks }
{}

/// The top at mark start of a region without marks becomes its bottom.
pub fn reset_law()
    ensures { (t : Table) (tops : List ℕ) (marks : List Bool) (k : ℕ)
        → 0 < t.words_per_region → MarksObjects t tops marks
        → ((a : ℕ) → is_in_region t.words_per_region k a ≡ true → is_marked marks a ≡ false)
        → MarksObjects t (slice_set tops k (k * t.words_per_region)) marks }
{}

/// The table changes: no top falls below one at mark start, and where a mark is there is still an object.
pub fn table_law()
    ensures { (t t' : Table) (tops : List ℕ) (marks : List Bool)
        → MarksObjects t tops marks → length t'.regions ≡ length t.regions → t'.words_per_region ≡ t.words_per_region
        → ((k : ℕ) → k < length t.regions → slice_index tops k ≤ top_of t' k)
        → ((a : ℕ) → is_marked marks a ≡ true → (s : Stored) × (object_at t' a ≡ Some s))
        → MarksObjects t' tops marks }
{}

/// A region of which nothing is handed out, as a free one, has its top at mark start at its bottom, and no marks.
#[tactic(auto, using(crate::proofs::ObjectLaws::free_unmarked))]
pub fn free_law()
    ensures top { (t : Table) (tops : List ℕ) (marks : List Bool) (k : ℕ)
        → MarksObjects t tops marks → k < length t.regions → used_of t k ≡ 0 → slice_index tops k ≡ k * t.words_per_region }
    ensures marks { (t : Table) (tops : List ℕ) (marks : List Bool) (k a : ℕ)
        → MarksObjects t tops marks → k < length t.regions → used_of t k ≡ 0 → is_in_region t.words_per_region k a ≡ true
        → is_marked marks a ≡ false }
{}

/// What lies below a top at mark start can be marked: the bitmap has a bit for it.
#[tactic(auto, using(crate::proofs::ObjectLaws::within))]
pub fn within_law()
    ensures { (t : Table) (tops : List ℕ) (marks : List Bool) (a : ℕ)
        → 0 < t.words_per_region → MarksObjects t tops marks → is_below t.words_per_region tops a ≡ true → a < length marks }
{}

/// While marking runs no next top lies below the previous one: from `begin` on, and as regions are taken and released.
#[tactic(auto, using(crate::proofs::KeptLaws::newer_below))]
pub fn newer_law()
    ensures begin { (t : Table) (tops : Tops) (previous : List Bool)
        → MarksObjects t tops.previous previous → ((k : ℕ) → k < length t.regions → slice_index tops.next k ≡ top_of t k) → AreNewer tops }
    ensures reset { (tops : Tops) (k bottom : ℕ) → length tops.next ≡ length tops.previous → AreNewer tops
        → AreNewer (with_bottom tops k bottom) }
    ensures below { (t : Table) (tops : Tops) (a : ℕ) → AreNewer tops → below_next t tops a ≡ false → below_previous t tops a ≡ false }
{}
