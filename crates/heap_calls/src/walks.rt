//! The objects that a heap keeps, and who names one, told one after another.

ghost use Rattle.std.specs.Prelude.{◌≡◌};
ghost use Rattle.heap_calls.specs.Walks.{Finds, Walks};

use crate::answer::{Answer, number};
use heap_walk::{Entry, Holder, walk, who};
use step_core::Core;

/// Tells them from a cursor on, which goes on, and counts them.
pub fn walk_on(core: &Core, cursor: &mut u64, objects: &mut [Entry]) -> Answer
    ensures { Walks cursor.old cursor.new objects.old objects.new core.now result }
{
    number(walk(core, cursor, objects) as u64)
}

/// Tells who names the object of a name, from a cursor on, which goes on, and counts them.
pub fn find_on(core: &Core, name: u64, cursor: &mut u64, holders: &mut [Holder]) -> Answer
    ensures { Finds name cursor.old cursor.new holders.old holders.new core.now result }
{
    number(who(core, name, cursor, holders) as u64)
}
