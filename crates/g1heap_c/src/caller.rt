//! A policy as C keeps it, and what its client sets beside the policy's own numbers.

ghost use Rattle.std.specs.Prelude.{◌≡◌};
ghost use Rattle.heap_steps.specs.declared.step.Reply.TheVariants as replies;
ghost use Rattle.heap_steps.specs.declared.step.Refusal.TheVariants as refusals;
ghost use Rattle.heap_calls.specs.Filled.{StepsTo};
ghost use Rattle.heap_calls.specs.Steps.{HasRegister};
ghost use Rattle.g1heap_c.specs.Policies.{nil_steps, nilling};

use collection::Policy;
use heap_steps::{Action, Op, Refusal, Register, Reply, Step};
use step_core::Core;

/// The numbers of a policy of collection, and one that no step of it reads or changes.
#[repr(C)]
#[derive(Clone, Copy, Debug, PartialEq, Eq, Drop)]
pub struct CallerPolicy {
    pub numbers: Policy,
    /// Not 0: where a new object is refused as Full, the register that was to take it becomes nil.
    pub nil_on_full: u32,
    /// Room for numbers of later versions, all 0.
    pub reserved: [u32; 11],
}

/// The register becomes nil, by a step of the mutator's.
#[cold]
#[inline(never)]
fn drop_register(core: &mut Core, mutator: u32, to: u32)
    requires { HasRegister core.old mutator to }
    ensures { StepsTo core.old (nilling mutator to) 1 core.new }
{
    let register = Register { number: to };
    core.step(Step::Mutator(Op {
        mutator,
        action: Action::Drop { register },
    }));
}

/// Where an object was refused as Full and the number is set, the register becomes nil that was to take it.
#[inline(always)]
pub(crate) fn nil_where_full(core: &mut Core, number: u32, mutator: u32, to: u32, reply: Reply)
    requires { reply ≡ replies.Refused refusals.Full → HasRegister core.old mutator to }
    ensures { StepsTo core.old (nilling mutator to) (nil_steps number reply) core.new }
{
    match reply {
        Reply::Refused(Refusal::Full) => {
            if number != 0 {
                drop_register(core, mutator, to);
            }
        }
        _ => {}
    }
}
