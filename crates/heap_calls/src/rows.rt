//! Several fields in one call, and registers one after another: all of them or none.

ghost use Rattle.std.specs.Prelude.{◌≡◌, ◌≢◌, ◌⊎◌, ◌+◌, ◌-◌, ◌<◌, ◌^◌, ℕ, Some, false, true};
ghost use Rattle.heap_words.specs.Configs.{registers_of};
ghost use Rattle.graph_runs.specs.State.{root_counts_of};
ghost use Rattle.heap_steps.specs.Roots.{IsValue};
ghost use Rattle.heap_calls.specs.Numbers as spec;
ghost use Rattle.heap_calls.specs.Numbers.{refused};
ghost use Rattle.heap_calls.specs.Rows.{AreSteps, DoesAll, DoesNone, DoesOrNot, GetMany, PutMany, Fill, FillWords};

use crate::answer::{Answer, answer_of, done};
use crate::heap::{is_known, no_step_of};
use crate::named::{register, value};
use heap_steps::{Refusal, Reply};
use step_core::{Core, Source};

#[inline(always)]
fn refused(why: Refusal) -> Answer
    ensures { result ≡ refused why }
{
    answer_of(Reply::Refused(why))
}

/// Whether mutators have so many registers from one on, and that one in any case.
#[inline(always)]
fn has_row(core: &Core, first: u32, count: u32) -> bool
    ensures has { result ≡ true → first + (count - 1) < registers_of core.now.config }
    ensures few { result ≡ true → first + count < 2 ^ 32 }
    ensures not { result ≡ false → first + (count - 1) < registers_of core.now.config → ⊥ }
{
    let _config = core.config();
    let registers = core.roots().places().registers();
    first < registers && count <= registers - first
}

/// Whether a register is none of so many from one on, or the last of them.
#[inline(always)]
fn is_apart(object: u32, to: u32, count: u32) -> bool
    ensures is { result ≡ true → (k : ℕ) → k + 1 < count → object ≢ to + k }
    ensures not { result ≡ false → ((k : ℕ) → k + 1 < count → object ≢ to + k) → ⊥ }
{
    if object < to {
        return true;
    }
    if u64::from(object - to) + 1 < u64::from(count) {
        return false;
    }
    true
}

#[inline(always)]
fn get_row(core: &mut Core, mutator: u32, to: u32, object: u32, field: u32, count: u32) -> Answer
    requires steps { AreSteps core.old.config (GetMany mutator to object field count) }
    requires few { to + count < 2 ^ 32 }
    ensures { DoesAll core.old (GetMany mutator to object field count) result (Some core.new)
        ⊎ DoesNone core.old (GetMany mutator to object field count) result (Some core.new) }
{
    match core.pointers_from(mutator, register(object), field, count) {
        Ok(at) => {
            core.get_row(mutator, to, register(object), at, field, count);
            done()
        }
        Err(why) => refused(why),
    }
}

/// Registers from one on take pointers from one on, if the numbers name steps of the heap.
#[inline(always)]
pub fn get_many(
    core: &mut Core,
    mutator: u32,
    to: u32,
    object: u32,
    field: u32,
    count: u32,
) -> Answer
    ensures { DoesOrNot core.old (GetMany mutator to object field count) result (Some core.new) }
{
    if !is_known(core, mutator, object) || !has_row(core, to, count) {
        return no_step_of(core, true);
    }
    if !is_apart(object, to, count) {
        return no_step_of(core, true);
    }
    get_row(core, mutator, to, object, field, count)
}

#[inline(always)]
fn put_row(core: &mut Core, mutator: u32, object: u32, field: u32, from: u32, count: u32) -> Answer
    requires steps { AreSteps core.old.config (PutMany mutator object field from count) }
    requires few { from + count < 2 ^ 32 }
    ensures { DoesAll core.old (PutMany mutator object field from count) result (Some core.new)
        ⊎ DoesNone core.old (PutMany mutator object field from count) result (Some core.new) }
{
    match core.pointers_from(mutator, register(object), field, count) {
        Ok(at) => {
            core.put_row(
                mutator,
                register(object),
                at,
                field,
                Source::Row(from),
                count,
            );
            done()
        }
        Err(why) => refused(why),
    }
}

/// Pointers from one on take what registers from one on hold, if the numbers name steps of the heap.
#[inline(always)]
pub fn put_many(
    core: &mut Core,
    mutator: u32,
    object: u32,
    field: u32,
    from: u32,
    count: u32,
) -> Answer
    ensures { DoesOrNot core.old (PutMany mutator object field from count) result (Some core.new) }
{
    if !is_known(core, mutator, object) || !has_row(core, from, count) {
        return no_step_of(core, true);
    }
    put_row(core, mutator, object, field, from, count)
}

/// Whether a number is that of nil or of a register. The number of nil is the largest, and 0 follows it here.
#[inline(always)]
fn is_value(core: &Core, from: u32) -> bool
    ensures is { result ≡ true → IsValue (root_counts_of core.now.config) (spec.value from) }
    ensures not { result ≡ false → IsValue (root_counts_of core.now.config) (spec.value from) → ⊥ }
{
    from.wrapping_add(1) <= core.roots().places().registers()
}

#[inline(always)]
fn fill_row(core: &mut Core, mutator: u32, object: u32, field: u32, from: u32, count: u32) -> Answer
    requires steps { AreSteps core.old.config (Fill mutator object field from count) }
    ensures { DoesAll core.old (Fill mutator object field from count) result (Some core.new)
        ⊎ DoesNone core.old (Fill mutator object field from count) result (Some core.new) }
{
    match core.pointers_from(mutator, register(object), field, count) {
        Ok(at) => {
            core.put_row(
                mutator,
                register(object),
                at,
                field,
                Source::One(value(from)),
                count,
            );
            done()
        }
        Err(why) => refused(why),
    }
}

/// Pointers from one on all take nil, or what a register holds, if the numbers name steps of the heap.
#[inline(always)]
pub fn fill_pointers(
    core: &mut Core,
    mutator: u32,
    object: u32,
    field: u32,
    from: u32,
    count: u32,
) -> Answer
    ensures { DoesOrNot core.old (Fill mutator object field from count) result (Some core.new) }
{
    if !is_known(core, mutator, object) || !is_value(core, from) {
        return no_step_of(core, true);
    }
    fill_row(core, mutator, object, field, from, count)
}

#[inline(always)]
fn write_row(
    core: &mut Core,
    mutator: u32,
    object: u32,
    field: u32,
    word: u64,
    count: u32,
) -> Answer
    requires steps { AreSteps core.old.config (FillWords mutator object field word count) }
    ensures { DoesAll core.old (FillWords mutator object field word count) result (Some core.new)
        ⊎ DoesNone core.old (FillWords mutator object field word count) result (Some core.new) }
{
    match core.words_from(mutator, register(object), field, count) {
        Ok(at) => {
            core.write_row(mutator, register(object), at, field, word, count);
            done()
        }
        Err(why) => refused(why),
    }
}

/// Data words from one on all take one word, if the numbers name steps of the heap.
#[inline(always)]
pub fn fill_words(
    core: &mut Core,
    mutator: u32,
    object: u32,
    field: u32,
    word: u64,
    count: u32,
) -> Answer
    ensures { DoesOrNot core.old (FillWords mutator object field word count) result (Some core.new) }
{
    if !is_known(core, mutator, object) {
        return no_step_of(core, true);
    }
    write_row(core, mutator, object, field, word, count)
}
