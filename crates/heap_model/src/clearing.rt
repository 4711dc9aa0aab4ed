//! Weak slots that are still to be cleared. When marking ends, the slots that lead to what isn't kept any more needn't be written at
//! once: as long as nothing is kept there, such a slot shows nil.
//!
//! ```text
//!   when marking ends       7: weak slots [40, 64]     40 isn't marked, 64 is      shows [nil, 64]: 40 isn't kept any more
//!   7 is looked at          7: weak slots [nil, 64]                                shows [nil, 64]
//! ```

ghost use Rattle.std.specs.Prelude.{◌≡◌, ℕ, ◌⊎◌, Option, Some, None, slice_get};
ghost use Rattle.std.specs.List.{AllZip};
ghost use Rattle.heap_model.specs.Graph.{Graph, Object, next_name, object_named, held_by, with_root, with_object, with_changed};
ghost use Rattle.heap_model.specs.Heap.{Heap, Stored, Holds, Shows, IsShown, RootSet, ObjectSet, ObjectAdded, SameHeap};
ghost use Rattle.heap_model.specs.Marking.{Marking, KeepsSnapshot, IsDone, kept_after};
ghost use Rattle.heap_model.specs.Weak.{Clears};
ghost use Rattle.heap_model.specs.Clearing.{WillShow, IsWeakShown, HasWeak, KeepsAt, IsPassed, IsClearedTo, ClearsWeaks, kept_word};
ghost use Rattle.heap_model.specs.Clearing.{CanBeFollowed, kept_held, with_kept_weaks};

/// A heap shows the graph if and only if it will, and nothing is left to clear.
pub fn left_law()
    ensures will { (g : Graph) (h : Heap) → Shows g h → WillShow g h }
    ensures nothing { (g : Graph) (h : Heap) → Shows g h → IsClearedTo None h }
    ensures shows { (g : Graph) (h : Heap) → WillShow g h → IsClearedTo None h → Shows g h }
{}

/// Roots and pointers lead to kept objects, whatever weak slots hold, and so does what is held for a key that is kept.
pub fn followed_law()
    ensures pointers { (g : Graph) (h : Heap) → WillShow g h → CanBeFollowed h }
    ensures held { (g : Graph) (h : Heap) → WillShow g h → (a k b : ℕ) → Holds h a k b → KeepsAt h b }
{}

/// What is read of a weak slot, but nil where its target isn't kept, is what the graph has; and so is what is read of a held slot, but
/// nil where its key isn't kept.
pub fn slot_law()
    ensures weak { (g : Graph) (h : Heap) → WillShow g h
        → (a i : ℕ) (x : Stored) (w : Option ℕ) → h.kept a ≡ Some x → slice_get x.weaks i ≡ Some w
        → (o : Object) × (object_named g x.name ≡ Some o) × (v : Option ℕ) × (slice_get o.weaks i ≡ Some v)
        × IsShown h (kept_word h.kept w) v }
    ensures held { (g : Graph) (h : Heap) → WillShow g h
        → (a i : ℕ) (x : Stored) (w : Option ℕ) → h.kept a ≡ Some x → slice_get (kept_held h.kept x) i ≡ Some w
        → (o : Object) × (object_named g x.name ≡ Some o) × (v : Option ℕ) × (slice_get o.held i ≡ Some v) × IsShown h w v }
{}

/// When marking is over, what is kept will show the graph with its weak slots cleared, and no word has been written.
pub fn end_law()
    ensures { (s g g' : Graph) (h : Heap) (m : Marking) → WillShow g h → KeepsSnapshot s h m → IsDone h m → Clears s g g'
        → WillShow g' (record { kept = kept_after h m; roots = h.roots }) }
{}

/// Mutators' steps go on meanwhile. No weak slot may lead to where an object is added.
pub fn meanwhile_law()
    ensures root { (g : Graph) (h h' : Heap) → WillShow g h
        → (place : ℕ) (w v : Option ℕ) → IsShown h w v → RootSet h h' place w → WillShow (with_root g place v) h' }
    ensures object { (g : Graph) (h h' : Heap) → WillShow g h
        → (d : ℕ) (x y : Stored) (o p : Object) → ObjectSet h h' d x y → object_named g x.name ≡ Some o
        → AllZip (IsShown h) y.pointers p.pointers → AllZip (IsWeakShown h) y.weaks p.weaks
        → AllZip (IsShown h) (kept_held h.kept y) p.held → held_by y.weaks y.held ≡ y.held → y.values ≡ p.values
        → WillShow (with_changed g x.name p) h' }
    ensures added { (g : Graph) (h h' : Heap) → WillShow g h
        → (a : ℕ) (x : Stored) (o : Object) (place : ℕ) → ObjectAdded h h' a x place → ((b : ℕ) → HasWeak h b a → ⊥)
        → x.name ≡ next_name g → AllZip (IsShown h) x.pointers o.pointers → AllZip (IsShown h) x.weaks o.weaks
        → AllZip (IsShown h) x.held o.held → x.values ≡ o.values
        → WillShow (with_object g o place) h' }
    ensures same { (g : Graph) (h h' : Heap) → WillShow g h → SameHeap h h' → WillShow g h' }
    ensures left { (h h' : Heap) (place : Option ℕ) → ((a b : ℕ) → HasWeak h' a b → HasWeak h a b ⊎ KeepsAt h' b)
        → ((b : ℕ) → KeepsAt h b → KeepsAt h' b) → IsClearedTo place h → IsClearedTo place h' }
{}

/// Clearing some objects' slots changes nothing of what the heap will show, nor of marking; and it has come further where each object on
/// its way is cleared.
pub fn further_law()
    ensures shows { (g : Graph) (h h' : Heap) → WillShow g h → ClearsWeaks h h' → WillShow g h' }
    ensures further { (h h' : Heap) (from to : Option ℕ) → ClearsWeaks h h' → IsClearedTo from h
        → ((a : ℕ) (x : Stored) → IsPassed to a → h.kept a ≡ Some x → IsPassed from a ⊎ (h'.kept a ≡ Some (with_kept_weaks h.kept x)))
        → IsClearedTo to h' }
    ensures marking { (s : Graph) (h h' : Heap) (m : Marking) → ClearsWeaks h h' → KeepsSnapshot s h m → KeepsSnapshot s h' m }
{}
