//! A shortest way from a root to an object.

ghost use Rattle.std.specs.Prelude.{◌≡◌, ◌⊎◌, false, true};
ghost use Rattle.heap_calls.specs.Ways.{FindsWay, way_answer};

use crate::answer::{Answer, number, told};
use heap_walk::{Holder, path};
use step_core::Core;

/// How many entries a way has; Full, where the room was spent.
fn way_answer(count: Option<usize>) -> Answer
    ensures { result ≡ way_answer count }
{
    match count {
        Some(count) => number(count as u64),
        None => told(18, 0, 0),
    }
}

/// Tells a way, and counts its entries; Full, where the buffer has no room for the search.
pub fn path_on(core: &Core, name: u64, way: &mut [Holder]) -> Answer
    ensures { FindsWay name true way.old way.new core.now result ⊎ FindsWay name false way.old way.new core.now result }
{
    let count = path(core, name, way);
    way_answer(count)
}
