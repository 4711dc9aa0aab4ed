//! A new object with its fields, in one call.

ghost use Rattle.std.specs.Prelude.{◌≡◌, ◌≢◌, ℕ, ◌<◌, ◌≤◌, ◌^◌, List, length, slice_index, IfOk, Some, true, false};
ghost use Rattle.regions.specs.Table.{pointers_at, weaks_at, values_at};
ghost use Rattle.heap_steps.specs.Actors.{IsStep};
ghost use Rattle.step_core.specs.Answers.{new_reply};
ghost use Rattle.step_core.specs.Making.{HasMadeStep, NamesObject};
ghost use Rattle.step_core.specs.Mutators.{register_of};
ghost use Rattle.step_core.specs.Stands.{CoreState};
ghost use Rattle.heap_calls.specs.Numbers as spec;
ghost use Rattle.heap_calls.specs.Steps.{HasRegister};
ghost use Rattle.heap_calls.specs.Filled.{AreFields, Fills, FillsIt, FillsOrNot, FillsFields, IsSource, StepsTo};
ghost use Rattle.heap_calls.specs.Filled.{making, pointing, wording};

use crate::answer::{Answer, answer_of};
use crate::heap::{is_known, no_step_of};
use crate::named::{counts, register};
use heap_steps::{Counts, Refusal, Reply};
use heap_words::addr::Addr;
use step_core::{Core, NewObject, new_reply};

/// How many pointers and data words the object gets.
#[inline(always)]
fn counts_of(from: &[u32], words: &[u64]) -> Counts
    requires few { length from.now < 2 ^ 32 }
    requires few_words { length words.now < 2 ^ 32 }
    ensures { result ≡ spec.counts (length from.now) (length words.now) }
{
    counts(from.len() as u32, words.len() as u32)
}

/// Whether a number is that of nil or of a register, and of another one than the one that takes the object. The number of nil is the
/// largest, and 0 follows it here: so one comparison does.
#[inline(always)]
fn is_source(core: &Core, to: u32, number: u32) -> bool
    ensures is { result ≡ true → IsSource core.now.config to number }
    ensures not { result ≡ false → IsSource core.now.config to number → ⊥ }
{
    if number == to {
        return false;
    }
    number.wrapping_add(1) <= core.roots().places().registers()
}

/// Whether each source is nil or a register, and another one than the one that takes the object.
#[inline(always)]
fn has_sources(core: &Core, to: u32, from: &[u32]) -> bool
    ensures all { result ≡ true → (i : ℕ) → i < length from.now → IsSource core.now.config to (slice_index from.now i) }
    ensures not { result ≡ false → ((i : ℕ) → i < length from.now → IsSource core.now.config to (slice_index from.now i)) → ⊥ }
{
    for number in from.iter() {
        if !is_source(core, to, *number) {
            return false;
        }
    }
    true
}

/// Whether the numbers name steps of the heap's.
#[inline(always)]
pub fn has_fields(core: &Core, mutator: u32, to: u32, from: &[u32], words: &[u64]) -> bool
    ensures has { result ≡ true → AreFields core.now.config mutator to from.now words.now }
    ensures not { result ≡ false → AreFields core.now.config mutator to from.now words.now → ⊥ }
{
    if from.len() > u32::MAX as usize || words.len() > u32::MAX as usize {
        return false;
    }
    if !is_known(core, mutator, to) {
        return false;
    }
    has_sources(core, to, from)
}

/// Fills the data words of the object that starts at an address, which the register holds. It has so many pointers and no weak slot.
#[inline(always)]
fn word(core: &mut Core, mutator: u32, to: u32, at: Addr, pointers: u32, words: &[u64])
    requires few { length words.now < 2 ^ 32 }
    requires known { HasRegister core.old mutator to }
    requires held { register_of core.old mutator (spec.register to) ≡ Some at }
    requires pointers { length (pointers_at core.old.table at) ≡ pointers }
    requires weaks { length (weaks_at core.old.table at) ≡ 0 }
    requires counts { length (values_at core.old.table at) ≡ length words.now }
    ensures { StepsTo core.old (wording mutator to words.now) (length words.now) core.new }
{
    for i in 0..words.len() as u32 {
        core.write_behind_at(mutator, register(to), at, pointers, i, words[i as usize]);
    }
}

/// Fills the object that starts at an address, which the register holds. It has as many pointers and data words, and no weak
/// slot.
#[inline(always)]
fn fill_at(core: &mut Core, mutator: u32, to: u32, at: Addr, from: &[u32], words: &[u64])
    requires fields { AreFields core.old.config mutator to from.now words.now }
    requires made { NamesObject core.old mutator (spec.register to) (length from.now) 0 (length words.now) }
    requires held { register_of core.old mutator (spec.register to) ≡ Some at }
    ensures { FillsFields core.old mutator to from.now words.now core.new }
{
    core.put_all_at(mutator, register(to), at, from);
    word(core, mutator, to, at, from.len() as u32, words);
}

/// Fills the object that a register holds. If it held none, each step would be refused, and none is done.
#[inline(always)]
fn fill_object(core: &mut Core, mutator: u32, to: u32, from: &[u32], words: &[u64])
    requires fields { AreFields core.old.config mutator to from.now words.now }
    requires made { NamesObject core.old mutator (spec.register to) (length from.now) 0 (length words.now) }
    ensures { FillsFields core.old mutator to from.now words.now core.new }
{
    let Some(at) = core.address_of(mutator, register(to)) else {
        return;
    };
    fill_at(core, mutator, to, at, from, words);
}

/// Fills an object, if the reply says that it was made.
#[inline(always)]
pub fn fill_made(core: &mut Core, reply: Reply, mutator: u32, to: u32, from: &[u32], words: &[u64])
    requires fields { AreFields core.old.config mutator to from.now words.now }
    requires made { HasMadeStep (making mutator to from.now words.now) reply core.old }
    ensures { FillsIt reply core.old mutator to from.now words.now core.new }
{
    match reply {
        Reply::Named(None) => {}
        Reply::Named(Some(_)) => {
            fill_object(core, mutator, to, from, words);
        }
        _ => {}
    }
}

/// Fills an object, if it was made: the address is known then.
#[inline(always)]
fn fill_new(
    core: &mut Core,
    made: &Result<NewObject, Refusal>,
    mutator: u32,
    to: u32,
    from: &[u32],
    words: &[u64],
)
    requires fields { AreFields core.old.config mutator to from.now words.now }
    requires made { HasMadeStep (making mutator to from.now words.now) (new_reply made.now) core.old }
    requires at { IfOk made.now (λ x. register_of core.old mutator (spec.register to) ≡ Some x.at) }
    ensures { FillsIt (new_reply made.now) core.old mutator to from.now words.now core.new }
{
    match made {
        Ok(object) => {
            fill_at(core, mutator, to, object.at, from, words);
        }
        Err(_) => {}
    }
}

#[inline(always)]
fn fill(core: &mut Core, mutator: u32, to: u32, from: &[u32], words: &[u64]) -> Answer
    requires { AreFields core.old.config mutator to from.now words.now }
    ensures { Fills core.old mutator to from.now words.now result (Some core.new) }
{
    let made = core.make_at(mutator, register(to), counts_of(from, words));
    fill_new(core, &made, mutator, to, from, words);
    answer_of(new_reply(&made))
}

/// Makes an object and fills it, if the numbers name steps of the heap's.
#[inline(always)]
pub fn make(core: &mut Core, mutator: u32, to: u32, from: &[u32], words: &[u64]) -> Answer
    ensures { FillsOrNot core.old mutator to from.now words.now result (Some core.new) }
{
    if !has_fields(core, mutator, to, from, words) {
        return no_step_of(core, true);
    }
    fill(core, mutator, to, from, words)
}
