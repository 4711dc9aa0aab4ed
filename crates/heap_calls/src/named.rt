//! What a call's numbers name.

ghost use Rattle.std.specs.Prelude.{◌≡◌};
ghost use Rattle.heap_calls.specs.Numbers as spec;
ghost use Rattle.heap_calls.specs.Numbers.{by};

use heap_steps::{Action, Counts, GlobalRoot, Op, Register, Step};

/// A register's number, whatever it is.
#[inline(always)]
pub fn register(number: u32) -> Register
    ensures { result ≡ spec.register number }
{
    Register { number }
}

/// A global's number, whatever it is.
#[inline(always)]
pub fn global(number: u32) -> GlobalRoot
    ensures { result ≡ spec.global number }
{
    GlobalRoot { number }
}

/// How many pointers and data words an object gets.
#[inline(always)]
pub fn counts(pointers: u32, values: u32) -> Counts
    ensures { result ≡ spec.counts pointers values }
{
    Counts { pointers, values }
}

/// What is stored: nil, or what a register holds.
#[inline(always)]
pub fn value(number: u32) -> Option<Register>
    ensures { result ≡ spec.value number }
{
    if number == u32::MAX {
        None
    } else {
        Some(register(number))
    }
}

/// A mutator's step.
#[inline(always)]
pub fn by(mutator: u32, action: Action) -> Step
    ensures { result ≡ by mutator action }
{
    Step::Mutator(Op { mutator, action })
}
