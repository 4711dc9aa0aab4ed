//! Objects that move, or are gone.

ghost use Rattle.std.specs.Prelude.{ℕ, Option};
ghost use Rattle.heap_model.specs.Graph.{Graph};
ghost use Rattle.heap_model.specs.Heap.{Heap, Shows};
ghost use Rattle.heap_model.specs.Marking.{Marking, KeepsSnapshot};
ghost use Rattle.heap_model.specs.Relocation.{Relocates, KeepsOld};

/// A move keeps what is shown, and the invariant of marking where old objects stay.
pub fn move_law()
    ensures shows { (place : ℕ → Option ℕ) (g : Graph) (h h' : Heap) → Shows g h → Relocates place h h' → Shows g h' }
    ensures marking { (place : ℕ → Option ℕ) (s g : Graph) (h h' : Heap) (m : Marking) → Shows g h → Relocates place h h'
        → KeepsOld place h m → KeepsSnapshot s h m → KeepsSnapshot s h' m }
{}
