//! A pointer that is loaded, and a data word of the object that it leads to, in one call.

ghost use Rattle.std.specs.Prelude.{◌≡◌, Some};
ghost use Rattle.heap_steps.specs.Actors.{IsStep};
ghost use Rattle.heap_calls.specs.Loads.{Loads, LoadsOrNot, loading};

use crate::answer::{Answer, answer_of};
use crate::heap::{is_known, no_step_of};
use crate::named::register;
use step_core::Core;

/// Loads the pointer, and reads the word.
#[inline(always)]
fn load(core: &mut Core, mutator: u32, to: u32, object: u32, field: u32, word: u32) -> Answer
    requires { IsStep core.old.config (loading mutator to object field) }
    ensures { Loads core.old mutator to object field word result (Some core.new) }
{
    answer_of(core.get_word(mutator, register(to), register(object), field, word))
}

/// The same, if the heap has the mutator and both registers.
#[inline(always)]
pub fn get_word(
    core: &mut Core,
    mutator: u32,
    to: u32,
    object: u32,
    field: u32,
    word: u32,
) -> Answer
    ensures { LoadsOrNot core.old mutator to object field word result (Some core.new) }
{
    if !is_known(core, mutator, to.max(object)) {
        return no_step_of(core, true);
    }
    load(core, mutator, to, object, field, word)
}
