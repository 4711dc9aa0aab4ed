//! Marking from a snapshot: it begins, goes on beside mutators, and is exact at its end.

ghost use Rattle.std.specs.Prelude.{◌≡◌, ℕ, ◌≤◌, ◌⊎◌, Bool, true, false, List, Option, Some, length, slice_get, slice_set};
ghost use Rattle.heap_model.specs.Graph.{Graph, IsReachable, next_name};
ghost use Rattle.heap_model.specs.Clearing.{WillShow, HasWeak};
ghost use Rattle.heap_model.specs.Heap.{Heap, Stored, IsRoot, IsHeld, RootSet, ObjectSet, ObjectAdded, SameHeap};
ghost use Rattle.heap_model.specs.Marking.{Marking, KeepsSnapshot, Begins, MarksMore, IsSaved, PairsSet, IsDone, MarksExactly};
ghost use Rattle.heap_model.specs.Marking.{SameMarking};
ghost use Rattle.heap_model.specs.Weak.{cleared_object, cleared_after};
ghost use Rattle.heap_model.specs.Kept.{kept_by};
ghost use Rattle.heap_model.specs.Count.{IsReachableCount, ListsMarked};

/// Marking begins with the present graph as its snapshot.
#[tactic(auto, using(crate::proofs::Begin::begins))]
pub fn begin_law()
    ensures { (g : Graph) (h : Heap) (m : Marking) → WillShow g h → Begins h m → KeepsSnapshot g h m }
{}

/// Each part of marking keeps the invariant.
pub fn mark_law()
    ensures { (s g : Graph) (h : Heap) (m m' : Marking) → WillShow g h → KeepsSnapshot s h m → MarksMore h m m' → KeepsSnapshot s h m' }
{}

/// A root place that is set to what a mutator can hold keeps the invariant: roots need no barrier.
pub fn root_law()
    ensures { (s g : Graph) (h h' : Heap) (m : Marking) (place : ℕ) (w : Option ℕ)
        → WillShow g h → KeepsSnapshot s h m → IsHeld h w → RootSet h h' place w → KeepsSnapshot s h' m }
{}

/// A store into a pointer keeps the invariant, where the old value is saved.
pub fn put_law()
    ensures { (s g : Graph) (h h' : Heap) (m m' : Marking)
        (d : ℕ) (x y : Stored) (field : ℕ) (was w : Option ℕ)
        → WillShow g h → KeepsSnapshot s h m → IsRoot h d → IsHeld h w
        → slice_get x.pointers field ≡ Some was → ObjectSet h h' d x y → y.pointers ≡ slice_set x.pointers field w
        → y.weaks ≡ x.weaks → y.held ≡ x.held → IsSaved m m' was → KeepsSnapshot s h' m' }
{}

/// A store into data words, weak slots or held slots keeps the invariant, where what is held no more is marked or logged, and what
/// is held then a mutator can store.
pub fn write_law()
    ensures { (s g : Graph) (h h' : Heap) (m : Marking) (d : ℕ) (x y : Stored) → WillShow g h
        → KeepsSnapshot s h m → ObjectSet h h' d x y → y.pointers ≡ x.pointers → PairsSet h m x y → KeepsSnapshot s h' m }
{}

/// An object made since the snapshot keeps the invariant, at or above the top at mark start, where no weak slot leads to it.
pub fn new_law()
    ensures { (s : Graph) (h h' : Heap) (m : Marking) (a : ℕ) (x : Stored) (place : ℕ)
        → KeepsSnapshot s h m → m.old a ≡ false → next_name s ≤ x.name → ObjectAdded h h' a x place → ((b : ℕ) → HasWeak h b a → ⊥)
        → KeepsSnapshot s h' m }
{}

/// Only what is kept at each address counts, the root words, and the marking of each address.
pub fn same_marking_law()
    ensures { (s : Graph) (h h' : Heap) (m m' : Marking) → KeepsSnapshot s h m → SameHeap h h' → SameMarking m m' → KeepsSnapshot s h' m' }
{}

/// At the end marking is exact. What is kept from then on, its weak slots cleared, is all that was reachable in the
/// snapshot, and what was made since. Where no mutator took a step meanwhile, that is what is reachable.
pub fn done_law()
    ensures exact { (s g : Graph) (h : Heap) (m : Marking) → WillShow g h → KeepsSnapshot s h m → IsDone h m → MarksExactly s h m }
    ensures all { (s : Graph) (h : Heap) (m : Marking) → KeepsSnapshot s h m → IsDone h m
        → (n : ℕ) → IsReachable s n → (a : ℕ) × (x : Stored) × (cleared_after h m a ≡ Some x) × (x.name ≡ n) }
    ensures only { (s : Graph) (h : Heap) (m : Marking) → KeepsSnapshot s h m → IsDone h m
        → (a : ℕ) (x : Stored) → cleared_after h m a ≡ Some x → IsReachable s x.name ⊎ (next_name s ≤ x.name) }
    ensures quiet { (g : Graph) (h : Heap) (m : Marking) → WillShow g h → KeepsSnapshot g h m → IsDone h m
        → (a : ℕ) (x : Stored) → cleared_after h m a ≡ Some x → IsReachable g x.name }
{}

/// The number of marked addresses at the end is that of the names that are reachable in the snapshot.
pub fn count_law()
    ensures { (s g : Graph) (h : Heap) (m : Marking) → WillShow g h → KeepsSnapshot s h m → IsDone h m
        → (marks : List ℕ) → ListsMarked m.marked marks → IsReachableCount s (length marks) }
{}

/// When the new marks and tops at mark start take the place of the previous ones, and are above them, they keep
/// what marking keeps, its weak slots cleared, where those of the objects that are marked or new were cleared before.
#[tactic(auto, using(crate::proofs::Kept::kept_by_marks))]
pub fn kept_law()
    ensures { (s : Graph) (tiles cleared_tiles : ℕ → Option Stored) (below marked : ℕ → Bool) (roots : List (Option ℕ)) (m : Marking)
        → KeepsSnapshot s (record { kept = kept_by tiles below marked; roots = roots }) m
        → ((a : ℕ) → m.old a ≡ false → below a ≡ false)
        → ((a : ℕ) → (m.marked a ≡ true) ⊎ (m.old a ≡ false) → cleared_tiles a ≡ cleared_object m (tiles a))
        → (a : ℕ) → kept_by cleared_tiles m.old m.marked a ≡ cleared_after
        (record { kept = kept_by tiles below marked; roots = roots }) m a }
{}
