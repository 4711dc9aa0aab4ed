//! Reachable names.

ghost use Rattle.std.specs.Prelude.{ℕ, ◌↔◌};
ghost use Rattle.heap_model.specs.Graph.{Graph, IsReachable};
ghost use Rattle.heap_model.specs.Paths.{IsReachableInOrder, IsReachableByPath};

/// A name is reachable if and only if a finite list of names leads to it from root places, by pointers, and by held slots whose object
/// and key are in the list. So is each to which a path of pointers leads.
pub fn path_law()
    ensures order { (g : Graph) (n : ℕ) → IsReachable g n ↔ IsReachableInOrder g n }
    ensures path { (g : Graph) (n : ℕ) → IsReachableByPath g n → IsReachable g n }
{}
