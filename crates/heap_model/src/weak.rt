//! Weak slots: what a mutator reads from one while marking runs, and their clearing when it ends.

ghost use Rattle.std.specs.Prelude.{◌≡◌, ◌≢◌, ℕ, ◌<◌, ◌≤◌, ◌⊎◌, ◌↔◌, Bool, true, false, Option, Some, slice_get};
ghost use Rattle.heap_model.specs.Graph.{Graph, Object, IsReachable, IsSound, next_name, object_named, object_fields, with_root};
ghost use Rattle.heap_model.specs.Graph.{with_object, with_changed};
ghost use Rattle.heap_model.specs.Heap.{Heap, IsShown, Shows, RootSet};
ghost use Rattle.heap_model.specs.Clearing.{WillShow};
ghost use Rattle.heap_model.specs.Marking.{Marking, KeepsSnapshot, IsSaved, IsDone};
ghost use Rattle.heap_model.specs.Count.{IsReachableCount};
ghost use Rattle.heap_model.specs.Weak.{touched, IsKnown, PairsChange, KeepsUnreached, Clears, cleared_after, AreReached, cleared_graph};

/// In every graph that steps lead to, the next name is above every name.
pub fn sound_law()
    ensures root { (g : Graph) (place : ℕ) (v : Option ℕ) → IsSound g → ((n : ℕ) → v ≡ Some n → n < next_name g)
        → IsSound (with_root g place v) }
    ensures object { (g : Graph) (o : Object) (place : ℕ) → IsSound g
        → ((i n : ℕ) → slice_get (object_fields o) i ≢ Some (Some n)) → IsSound (with_object g o place) }
    ensures changed { (g : Graph) (n : ℕ) (o p : Object) → IsSound g → object_named g n ≡ Some o
        → ((i k : ℕ) → slice_get (object_fields p) i ≡ Some (Some k) → k < next_name g) → IsSound (with_changed g n p) }
    ensures cleared { (s g g' : Graph) → Clears s g g' → IsSound g → IsSound g' }
{}

/// What was neither reachable in the snapshot nor touched since has the pointers that it had then, and of pairs that came or went
/// what is held is known: when marking begins, and after each step of a mutator. A pointer is stored only in what was reachable in the
/// snapshot, or is new.
pub fn unreached_law()
    ensures begins { (g : Graph) → IsSound g → KeepsUnreached g g }
    ensures root { (s g : Graph) (place : ℕ) (v : Option ℕ) → KeepsUnreached s g → KeepsUnreached s (with_root g place v) }
    ensures object { (s g : Graph) (o : Object) (place : ℕ) → KeepsUnreached s g → next_name s ≤ next_name g
        → ((i b : ℕ) → slice_get o.held i ≢ Some (Some b)) → KeepsUnreached s (with_object g o place) }
    ensures changed { (s g : Graph) (n : ℕ) (o p : Object) → KeepsUnreached s g → object_named g n ≡ Some o
        → IsReachable s n ⊎ (next_name s ≤ n) → PairsChange s o p → KeepsUnreached s (with_changed g n p) }
    ensures written { (s g : Graph) (n : ℕ) (o p : Object) → KeepsUnreached s g → object_named g n ≡ Some o
        → p.pointers ≡ o.pointers → PairsChange s o p → KeepsUnreached s (with_changed g n p) }
    ensures touches { (s g : Graph) (v : Option ℕ) → KeepsUnreached s g → KeepsUnreached (touched s v) g }
{}

/// What is reachable while marking runs was reachable in the snapshot, or is new. So no name that the clearing at its end takes
/// from a weak slot is reachable then.
#[tactic(auto, using(crate::proofs::Touched::reached_known))]
pub fn reached_law()
    ensures { (s g : Graph) (h : Heap) (m : Marking) → WillShow g h → KeepsSnapshot s h m → (n : ℕ) → IsReachable g n
        → IsReachable s n ⊎ (next_name s ≤ n) }
{}

/// A root place may take what a weak slot holds, where the target is saved and its name touched.
pub fn touch_law()
    ensures { (s g : Graph) (h h' : Heap) (m m' : Marking) (place : ℕ) (w v : Option ℕ)
        → WillShow g h → KeepsSnapshot s h m → KeepsUnreached s g → ((a : ℕ) → m.scanned a ≡ true → m.marked a ≡ true)
        → ((a : ℕ) → m.marked a ≡ false → m.done a ≡ 0)
        → IsShown h w v → RootSet h h' place w → IsSaved m m' w → KeepsSnapshot (touched s v) h' m' }
{}

/// Nothing but the log and the snapshot changes where the name that a word shows is touched, and its object saved: as where a pair is
/// overwritten.
pub fn save_law()
    ensures { (s g : Graph) (h : Heap) (m m' : Marking) (w v : Option ℕ) → WillShow g h → KeepsSnapshot s h m → KeepsUnreached s g
        → ((a : ℕ) → m.scanned a ≡ true → m.marked a ≡ true) → ((a : ℕ) → m.marked a ≡ false → m.done a ≡ 0)
        → IsShown h w v → IsSaved m m' w → KeepsSnapshot (touched s v) h m' }
{}

/// When marking is over, clearing the slots of what is kept, by marks and tops, is clearing them in the graph, by what is
/// reachable in the snapshot: what is kept shows the cleared graph.
pub fn clear_law()
    ensures shows { (s g g' : Graph) (h : Heap) (m : Marking) → Shows g h → KeepsSnapshot s h m → IsDone h m → Clears s g g'
        → Shows g' (record { kept = cleared_after h m; roots = h.roots }) }
    ensures once { (s g a b : Graph) → Clears s g a → Clears s g b → a ≡ b }
    ensures exists { (s g : Graph) (n : ℕ) → IsReachableCount s n → (g' : Graph) × Clears s g g' }
    ensures computed { (s g : Graph) (flag : ℕ → Bool) → AreReached s flag → Clears s g (cleared_graph flag (next_name s) g) }
    ensures reachable { (s g g' : Graph) → Clears s g g' → ((n : ℕ) → IsReachable g n → IsKnown s n)
        → (n : ℕ) → IsReachable g n ↔ IsReachable g' n }
    ensures after { (s g g' : Graph) → Clears s g g' → (n : ℕ) → IsReachable g' n → IsReachable g n }
{}
