//! Copying the reached objects of a set out of their regions.

ghost use Rattle.std.specs.Prelude.{◌≡◌, ◌⊎◌, ◌↔◌, ℕ, Bool, true, false, Option, Some, None, length, slice_get, slice_set};
ghost use Rattle.heap_model.specs.Heap.{Heap, Stored, IsRoot, IsClosed, RootSet, ObjectSet, fields};
ghost use Rattle.heap_model.specs.Relocation.{Relocates, IsMoved};
ghost use Rattle.heap_model.specs.Evacuation.{IsReached, IsEvacuating, IsEvacuated, place_after, released, Copies};

/// Each turn of the copying leads on: at the start nothing is forwarded; then a reached object is copied, or a root
/// or a field that names a forwarded object is updated.
pub fn turn_law()
    ensures start { (set : ℕ → Bool) (h : Heap) → IsEvacuating set h (λ a. None) h }
    ensures copied { (set : ℕ → Bool) (h now now' : Heap) (forward forward' : ℕ → Option ℕ) → IsEvacuating set h forward now
        → (a b : ℕ) (x : Stored) → IsReached set h a → Copies set forward forward' now now' a b x → IsEvacuating set h forward' now' }
    ensures root { (set : ℕ → Bool) (h now now' : Heap) (forward : ℕ → Option ℕ) → IsEvacuating set h forward now
        → (j : ℕ) (w w' : Option ℕ) → slice_get h.roots j ≡ Some w → IsMoved (place_after set forward) w w' → RootSet now now' j w'
        → IsEvacuating set h forward now' }
    ensures field { (set : ℕ → Bool) (h now now' : Heap) (forward : ℕ → Option ℕ) → IsEvacuating set h forward now
        → (b i c d : ℕ) (y y' : Stored) → set b ≡ false → slice_get (fields y) i ≡ Some (Some c) → set c ≡ true → forward c ≡ Some d
        → ObjectSet now now' b y y' → y'.values ≡ y.values
        → length y'.pointers ≡ length y.pointers → length y'.weaks ≡ length y.weaks → fields y' ≡ slice_set (fields y) i (Some d)
        → IsEvacuating set h forward now' }
{}

/// What a word outside the set still names within it is reached, and each field outside the set names an object
/// of the set as it was, or a present one outside.
pub fn named_law()
    ensures root { (set : ℕ → Bool) (h now : Heap) (forward : ℕ → Option ℕ) → IsEvacuating set h forward now
        → (j c : ℕ) → slice_get now.roots j ≡ Some (Some c) → set c ≡ true → IsRoot h c }
    ensures field { (set : ℕ → Bool) (h now : Heap) (forward : ℕ → Option ℕ) → IsEvacuating set h forward now
        → (b i c : ℕ) (y : Stored) → now.kept b ≡ Some y → set b ≡ false → slice_get (fields y) i ≡ Some (Some c) → set c ≡ true
        → IsReached set h c }
    ensures target { (set : ℕ → Bool) (h now : Heap) (forward : ℕ → Option ℕ) → IsEvacuating set h forward now → IsClosed h
        → (b i c : ℕ) (y : Stored) → now.kept b ≡ Some y → set b ≡ false → slice_get (fields y) i ≡ Some (Some c)
        → ((set c ≡ true) × (x : Stored) × (h.kept c ≡ Some x)) ⊎ ((set c ≡ false) × (z : Stored) × (now.kept c ≡ Some z)) }
{}

/// Once no word names the set any more, the copying was a move, and what is copied is what is reached.
#[tactic(auto, using(crate::proofs::Evacuated::evacuated_relocates, crate::proofs::Evacuated::reached_exactly))]
pub fn evacuation_law()
    ensures moves { (set : ℕ → Bool) (h now : Heap) (forward : ℕ → Option ℕ) → IsEvacuating set h forward now → IsEvacuated set now
        → Relocates (place_after set forward) h (released set now) }
    ensures reached { (set : ℕ → Bool) (h now : Heap) (forward : ℕ → Option ℕ) → IsEvacuating set h forward now → IsEvacuated set now
        → (a : ℕ) → IsReached set h a ↔ ((set a ≡ true) × (b : ℕ) × (forward a ≡ Some b)) }
{}
