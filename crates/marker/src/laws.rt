//! What a marker's clauses ask for, from what the theory says of a heap and its marking, and what keeps them as the
//! table changes.

ghost use Rattle.std.specs.Prelude.{◌≡◌, ℕ, ◌*◌, ◌<◌, ◌≤◌, true, false, List, Option, Some, length, slice_index};
ghost use Rattle.heap_model.specs.Graph.{Graph};
ghost use Rattle.heap_model.specs.Clearing.{WillShow};
ghost use Rattle.heap_model.specs.Heap.{Stored};
ghost use Rattle.heap_model.specs.Marking.{KeepsSnapshot};
ghost use Rattle.regions.specs.Table.{Table, kind_of, object_at, object_words, pointers_at, top_of, released};
ghost use Rattle.regions.specs.Shaped.{IsShaped};
ghost use Rattle.regions.specs.declared.row.Kind.TheVariants as kinds;
ghost use Rattle.mark_bitmap.specs.Marks.{is_marked};
ghost use Rattle.mark_bitmap.specs.Tops.{is_in_region};
ghost use Rattle.marker.specs.Views.{heap_of, marking_of};
ghost use Rattle.marker.specs.Stands.{MarkerStands, CanFollow};
ghost use Rattle.marker.specs.declared.marker.Marker.{Marker};

/// Where the heap shows a graph and the snapshot invariant holds, marking can follow every pointer. So a heap that
/// carries these two need not carry the third.
pub fn follow_law()
    ensures { (s g : Graph) (t : Table) (roots : List (Option ℕ)) (m : Marker)
        → WillShow g (heap_of t roots m) → KeepsSnapshot s (heap_of t roots m) (marking_of t m) → CanFollow t m }
{}

/// The table changes beneath the marker: no top falls below one at mark start, and where an object was there still is
/// one, of as many words and pointers.
pub fn table_law()
    ensures { (t t' : Table) (m : Marker)
        → MarkerStands t m → length t'.regions ≡ length t.regions → t'.words_per_region ≡ t.words_per_region
        → ((k : ℕ) → k < length t.regions → slice_index m.tams.previous k ≤ top_of t' k)
        → ((k : ℕ) → k < length t.regions → slice_index m.tams.next k ≤ top_of t' k)
        → ((a : ℕ) (x : Stored) → object_at t a ≡ Some x → (y : Stored) × (object_at t' a ≡ Some y))
        → ((a : ℕ) (x : Stored) → object_at t a ≡ Some x → object_words t' a ≡ object_words t a)
        → ((a : ℕ) (x : Stored) → object_at t a ≡ Some x → length (pointers_at t' a) ≡ length (pointers_at t a))
        → (m.running ≡ true → CanFollow t' m) → MarkerStands t' m }
{}

/// A region without marks, both its tops at its bottom, is released while marking doesn't run.
pub fn release_law()
    ensures { (t : Table) (m : Marker) (k : ℕ)
        → IsShaped t → MarkerStands t m → m.running ≡ false → k < length t.regions → kind_of t k ≡ kinds.Ordinary
        → ((a : ℕ) → is_in_region t.words_per_region k a ≡ true → is_marked m.bitmaps.previous a ≡ false)
        → ((a : ℕ) → is_in_region t.words_per_region k a ≡ true → is_marked m.bitmaps.next a ≡ false)
        → slice_index m.tams.previous k ≡ k * t.words_per_region → slice_index m.tams.next k ≡ k * t.words_per_region
        → MarkerStands (released t k) m }
{}
