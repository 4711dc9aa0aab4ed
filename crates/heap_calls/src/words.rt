//! Several data words in one call, between an object and a buffer of C's.

ghost use Rattle.std.specs.Prelude.{◌≡◌, Some, true, false};
ghost use Rattle.heap_calls.specs.Numbers.{refused};
ghost use Rattle.heap_calls.specs.Steps.{HasRegister};
ghost use Rattle.heap_calls.specs.Words.{ReadsIn, WritesIn};

use crate::answer::{Answer, answer_of, done, no_step};
use heap_steps::{Refusal, Register, Reply};
use step_core::Core;

/// Whether a mutator has a register.
#[inline(always)]
fn has_register(core: &Core, mutator: u32, which: u32) -> bool
    ensures has { result ≡ true → HasRegister core.now mutator which }
    ensures not { result ≡ false → HasRegister core.now mutator which → ⊥ }
{
    let places = core.roots().places();
    mutator < places.mutators() && which < places.registers()
}

fn refused(why: Refusal) -> Answer
    ensures { result ≡ refused why }
{
    answer_of(Reply::Refused(why))
}

/// Reads them, if the mutator has the register.
pub fn read(core: &Core, mutator: u32, object: u32, from: u32, out: &mut [u64]) -> Answer
    ensures { ReadsIn mutator object from out.old out.new core.now result }
{
    if !has_register(core, mutator, object) {
        return no_step();
    }
    match core.read_words(mutator, Register { number: object }, from, out) {
        Ok(()) => done(),
        Err(why) => refused(why),
    }
}

/// Writes them, if the mutator has the register.
pub fn write(core: &mut Core, mutator: u32, object: u32, from: u32, words: &[u64]) -> Answer
    ensures { WritesIn core.old mutator object from words.now result (Some core.new) }
{
    if !has_register(core, mutator, object) {
        return no_step();
    }
    match core.write_words(mutator, Register { number: object }, from, words) {
        Ok(()) => done(),
        Err(why) => refused(why),
    }
}
