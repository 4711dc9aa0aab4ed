//! One object that moves, over words of its own perhaps: its old place and its new one are known, so what names it is redirected by
//! a comparison.

ghost use Rattle.std.specs.Prelude.{ℕ};
ghost use Rattle.heap_model.specs.Heap.{Heap, Stored};
ghost use Rattle.heap_model.specs.Relocation.{Relocates};
ghost use Rattle.heap_model.specs.Redirection.{place_moved, ObjectMoved, Redirects};

/// Where all that names an object's place is redirected to another one, and the object moves there, the heap has moved it.
pub fn redirection_law()
    ensures { (h now h' : Heap) (from to : ℕ) (object : Stored) → Redirects from to h now → ObjectMoved now h' from to object
        → Relocates (place_moved from to) h h' }
{}
