//! The root places of a graph that become nil.

ghost use Rattle.std.specs.Prelude.{◌≡◌, ◌≤◌, ◌+◌, length};
ghost use Rattle.heap_model.specs.Graph.{with_nils};

use crate::pointer::Pointer;

/// So many places from `first` on hold nil.
pub(crate) fn fill_nil(roots: &mut [Pointer], first: usize, count: usize)
    requires { first + count ≤ length roots.old }
    ensures { roots.new ≡ with_nils roots.old first count }
{
    for index in 0..count {
        roots[first + index] = Pointer::nil();
    }
}
