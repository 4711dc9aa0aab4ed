//! What a heap shows of a graph, and how a mutator's steps carry it along.

ghost use Rattle.std.specs.Prelude.{◌≡◌, ℕ, Option, Some, length, slice_get, slice_set};
ghost use Rattle.std.specs.List.{AllZip};
ghost use Rattle.heap_model.specs.Graph.{Graph, Object, IsReachable, next_name, object_named, held_by, with_root, with_object};
ghost use Rattle.heap_model.specs.Graph.{with_changed};
ghost use Rattle.heap_model.specs.Heap.{Heap, Stored, Shows, IsShown, IsClosed, RootSet, ObjectSet, ObjectAdded, SameHeap};
ghost use Rattle.heap_model.specs.Heap.{fields, with_field};
ghost use Rattle.heap_model.specs.Clearing.{WillShow, StandsOnce};

/// Each object that a root reaches is in the heap once, with the graph's contents.
#[tactic(auto, using(crate::proofs::Shown::stands_once))]
pub fn stands_law()
    ensures { (g : Graph) (h : Heap) → WillShow g h → (n : ℕ) → IsReachable g n → StandsOnce g h n }
{}

/// No root and no field names anything but the start of a kept object.
pub fn closed_law()
    ensures { (g : Graph) (h : Heap) → Shows g h → IsClosed h }
{}

/// What is read of the heap is what the graph has: root places, pointers, weak slots, held slots, data words.
pub fn read_law()
    ensures root { (g : Graph) (h : Heap) → Shows g h
        → (place : ℕ) (w : Option ℕ) → slice_get h.roots place ≡ Some w
        → (v : Option ℕ) × (slice_get g.roots place ≡ Some v) × IsShown h w v }
    ensures pointer { (g : Graph) (h : Heap) → Shows g h
        → (a i : ℕ) (x : Stored) (w : Option ℕ) → h.kept a ≡ Some x → slice_get x.pointers i ≡ Some w
        → (o : Object) × (object_named g x.name ≡ Some o) × (v : Option ℕ) × (slice_get o.pointers i ≡ Some v) × IsShown h w v }
    ensures weak { (g : Graph) (h : Heap) → Shows g h
        → (a i : ℕ) (x : Stored) (w : Option ℕ) → h.kept a ≡ Some x → slice_get x.weaks i ≡ Some w
        → (o : Object) × (object_named g x.name ≡ Some o) × (v : Option ℕ) × (slice_get o.weaks i ≡ Some v) × IsShown h w v }
    ensures held { (g : Graph) (h : Heap) → Shows g h
        → (a i : ℕ) (x : Stored) (w : Option ℕ) → h.kept a ≡ Some x → slice_get x.held i ≡ Some w
        → (o : Object) × (object_named g x.name ≡ Some o) × (v : Option ℕ) × (slice_get o.held i ≡ Some v) × IsShown h w v }
    ensures values { (g : Graph) (h : Heap) → Shows g h
        → (a : ℕ) (x : Stored) → h.kept a ≡ Some x → (o : Object) × (object_named g x.name ≡ Some o) × (x.values ≡ o.values) }
{}

/// Setting a field sets it in the list of the fields; there are as many pointers as before, and the rest stays.
#[tactic(auto, using(crate::proofs::Fields::field_set))]
pub fn field_law()
    ensures field { (x : Stored) (i : ℕ) (v : Option ℕ) → fields (with_field x i v) ≡ slice_set (fields x) i v }
    ensures shape { (x : Stored) (i : ℕ) (v : Option ℕ) → length (with_field x i v).pointers ≡ length x.pointers }
    ensures slots { (x : Stored) (i : ℕ) (v : Option ℕ) → length (with_field x i v).weaks ≡ length x.weaks }
    ensures name { (x : Stored) (i : ℕ) (v : Option ℕ) → (with_field x i v).name ≡ x.name }
    ensures values { (x : Stored) (i : ℕ) (v : Option ℕ) → (with_field x i v).values ≡ x.values }
{}

/// A root place set in both.
pub fn root_set_law()
    ensures { (g : Graph) (h h' : Heap) → Shows g h
        → (place : ℕ) (w v : Option ℕ) → IsShown h w v → RootSet h h' place w → Shows (with_root g place v) h' }
{}

/// An object changed in both. A held slot that isn't nil has a key then.
pub fn object_set_law()
    ensures { (g : Graph) (h h' : Heap) → Shows g h
        → (d : ℕ) (x y : Stored) (o p : Object) → ObjectSet h h' d x y → object_named g x.name ≡ Some o
        → AllZip (IsShown h) y.pointers p.pointers → AllZip (IsShown h) y.weaks p.weaks
        → AllZip (IsShown h) y.held p.held → held_by y.weaks y.held ≡ y.held → y.values ≡ p.values → Shows (with_changed g x.name p) h' }
{}

/// An object added to both, under the graph's next name.
pub fn object_added_law()
    ensures { (g : Graph) (h h' : Heap) → Shows g h
        → (a : ℕ) (x : Stored) (o : Object) (place : ℕ) → ObjectAdded h h' a x place → x.name ≡ next_name g
        → AllZip (IsShown h) x.pointers o.pointers → AllZip (IsShown h) x.weaks o.weaks
        → AllZip (IsShown h) x.held o.held → x.values ≡ o.values → Shows (with_object g o place) h' }
{}

/// Only what is kept at each address counts, and the root words.
pub fn same_heap_law()
    ensures { (g : Graph) (h h' : Heap) → Shows g h → SameHeap h h' → Shows g h' }
{}
