//! The mutators' steps, a call for each. Any numbers will do.

ghost use Rattle.std.specs.Prelude.{◌≡◌, ◌<◌, ◌≤◌};
ghost use Rattle.heap_steps.specs.declared.step.Action.TheVariants as actions;
ghost use Rattle.heap_calls.specs.Numbers as spec;
ghost use Rattle.heap_calls.specs.Numbers.{by};
ghost use Rattle.heap_calls.specs.Steps.{TakesStep, plain};
ghost use Rattle.g1heap_c.specs.Calls.{IsCall, NoStepCall, StepCall};

use heap_calls::answer::Answer;
use heap_calls::heap::{Heap, take, take_none, take_scope, take_up_to};
use heap_calls::named::{by, counts, global, register, value};
use heap_steps::{Action, Op, Register};

/// `to` takes a new object of so many pointers and data words.
#[unsafe(no_mangle)]
pub extern "C" fn g1_new_object(
    heap: &mut Heap,
    mutator: u32,
    to: u32,
    pointers: u32,
    values: u32,
) -> Answer
    ensures { IsCall heap.old (StepCall (by mutator (actions.New (spec.register to) (spec.counts pointers values)))) result heap.new }
{
    let op = Op {
        mutator,
        action: Action::New {
            to: register(to),
            counts: counts(pointers, values),
        },
    };
    take_up_to(heap, op, to, false)
}

/// The same with weak slots, of which an object has at most 255.
#[unsafe(no_mangle)]
pub extern "C" fn g1_new_weak(
    heap: &mut Heap,
    mutator: u32,
    to: u32,
    pointers: u32,
    weaks: u32,
    values: u32,
) -> Answer
    ensures few { weaks ≤ 255 → IsCall heap.old
        (StepCall (by mutator (actions.NewWeak (spec.register to) (spec.counts pointers values) weaks))) result heap.new }
    ensures many { 255 < weaks → IsCall heap.old NoStepCall result heap.new }
{
    if 255 < weaks {
        return take_none(heap);
    }
    take(
        heap,
        by(
            mutator,
            Action::NewWeak {
                to: register(to),
                counts: counts(pointers, values),
                weaks: weaks as u8,
            },
        ),
    )
}

/// `to` takes a pointer of the object that `object` names.
#[unsafe(no_mangle)]
pub extern "C" fn g1_get(heap: &mut Heap, mutator: u32, to: u32, object: u32, field: u32) -> Answer
    ensures { IsCall heap.old (StepCall (by mutator (actions.Get (spec.register to) (spec.register object) field))) result heap.new }
{
    let op = Op {
        mutator,
        action: Action::Get {
            to: register(to),
            object: register(object),
            field,
        },
    };
    take_up_to(heap, op, to.max(object), true)
}

/// A pointer of an object takes nil, or what a register holds: each has code of its own, so neither is tested again.
#[inline(always)]
fn put(
    heap: &mut Heap,
    mutator: u32,
    object: Register,
    field: u32,
    value: Option<Register>,
) -> Answer
    ensures takes { TakesStep plain heap.old.handle.core (by mutator (actions.Put object field value)) result heap.new.handle.core }
    ensures same { heap.new.markings ≡ heap.old.markings }
{
    match value {
        None => {
            let op = Op {
                mutator,
                action: Action::Put {
                    object,
                    field,
                    value: None,
                },
            };
            take_up_to(heap, op, object.number, false)
        }
        Some(from) => {
            let op = Op {
                mutator,
                action: Action::Put {
                    object,
                    field,
                    value: Some(from),
                },
            };
            take_up_to(heap, op, object.number.max(from.number), false)
        }
    }
}

/// A pointer of the object that `object` names takes what `from` holds, or nil.
#[unsafe(no_mangle)]
pub extern "C" fn g1_put(
    heap: &mut Heap,
    mutator: u32,
    object: u32,
    field: u32,
    from: u32,
) -> Answer
    ensures { IsCall heap.old (StepCall (by mutator (actions.Put (spec.register object) field (spec.value from)))) result heap.new }
{
    put(heap, mutator, register(object), field, value(from))
}

/// Tells a data word of the object that `object` names.
#[unsafe(no_mangle)]
pub extern "C" fn g1_read(heap: &mut Heap, mutator: u32, object: u32, field: u32) -> Answer
    ensures { IsCall heap.old (StepCall (by mutator (actions.Read (spec.register object) field))) result heap.new }
{
    let op = Op {
        mutator,
        action: Action::Read {
            object: register(object),
            field,
        },
    };
    take_up_to(heap, op, object, true)
}

/// A data word of the object that `object` names takes a value.
#[unsafe(no_mangle)]
pub extern "C" fn g1_write(
    heap: &mut Heap,
    mutator: u32,
    object: u32,
    field: u32,
    value: u64,
) -> Answer
    ensures { IsCall heap.old (StepCall (by mutator (actions.Write (spec.register object) field value))) result heap.new }
{
    let op = Op {
        mutator,
        action: Action::Write {
            object: register(object),
            field,
            value,
        },
    };
    take_up_to(heap, op, object, true)
}

/// `to` takes what `from` holds.
#[unsafe(no_mangle)]
pub extern "C" fn g1_move(heap: &mut Heap, mutator: u32, to: u32, from: u32) -> Answer
    ensures { IsCall heap.old (StepCall (by mutator (actions.Move (spec.register to) (spec.register from)))) result heap.new }
{
    let op = Op {
        mutator,
        action: Action::Move {
            to: register(to),
            from: register(from),
        },
    };
    take_up_to(heap, op, to.max(from), true)
}

/// `to` becomes nil.
#[unsafe(no_mangle)]
pub extern "C" fn g1_drop(heap: &mut Heap, mutator: u32, to: u32) -> Answer
    ensures { IsCall heap.old (StepCall (by mutator (actions.Drop (spec.register to)))) result heap.new }
{
    let op = Op {
        mutator,
        action: Action::Drop {
            register: register(to),
        },
    };
    take_up_to(heap, op, to, true)
}

/// `to` takes what a global holds.
#[unsafe(no_mangle)]
pub extern "C" fn g1_load(heap: &mut Heap, mutator: u32, to: u32, from: u32) -> Answer
    ensures { IsCall heap.old (StepCall (by mutator (actions.Load (spec.register to) (spec.global from)))) result heap.new }
{
    take(
        heap,
        by(
            mutator,
            Action::Load {
                to: register(to),
                from: global(from),
            },
        ),
    )
}

/// A global takes what `from` holds.
#[unsafe(no_mangle)]
pub extern "C" fn g1_save(heap: &mut Heap, mutator: u32, to: u32, from: u32) -> Answer
    ensures { IsCall heap.old (StepCall (by mutator (actions.Save (spec.global to) (spec.register from)))) result heap.new }
{
    take(
        heap,
        by(
            mutator,
            Action::Save {
                to: global(to),
                from: register(from),
            },
        ),
    )
}

/// Tells how many pointers and data words the object has that `object` names.
#[unsafe(no_mangle)]
pub extern "C" fn g1_shape(heap: &mut Heap, mutator: u32, object: u32) -> Answer
    ensures { IsCall heap.old (StepCall (by mutator (actions.Shape (spec.register object)))) result heap.new }
{
    let op = Op {
        mutator,
        action: Action::Shape {
            object: register(object),
        },
    };
    take_up_to(heap, op, object, true)
}

/// `to` takes what a weak slot of the object holds that `object` names.
#[unsafe(no_mangle)]
pub extern "C" fn g1_get_weak(
    heap: &mut Heap,
    mutator: u32,
    to: u32,
    object: u32,
    slot: u32,
) -> Answer
    ensures { IsCall heap.old (StepCall (by mutator (actions.GetWeak (spec.register to) (spec.register object) slot))) result heap.new }
{
    let op = Op {
        mutator,
        action: Action::GetWeak {
            to: register(to),
            object: register(object),
            slot,
        },
    };
    take_up_to(heap, op, object.max(to), true)
}

/// A weak slot of the object that `object` names takes what `from` holds, or nil.
#[unsafe(no_mangle)]
pub extern "C" fn g1_put_weak(
    heap: &mut Heap,
    mutator: u32,
    object: u32,
    slot: u32,
    from: u32,
) -> Answer
    ensures { IsCall heap.old (StepCall (by mutator (actions.PutWeak (spec.register object) slot (spec.value from)))) result heap.new }
{
    take(
        heap,
        by(
            mutator,
            Action::PutWeak {
                object: register(object),
                slot,
                value: value(from),
            },
        ),
    )
}

/// Tells how many weak slots the object has that `object` names.
#[unsafe(no_mangle)]
pub extern "C" fn g1_weaks(heap: &mut Heap, mutator: u32, object: u32) -> Answer
    ensures { IsCall heap.old (StepCall (by mutator (actions.Weaks (spec.register object)))) result heap.new }
{
    let op = Op {
        mutator,
        action: Action::Weaks {
            object: register(object),
        },
    };
    take_up_to(heap, op, object, true)
}

/// A frame is left: each register from one on becomes nil.
#[unsafe(no_mangle)]
pub extern "C" fn g1_scope(heap: &mut Heap, mutator: u32, first: u32) -> Answer
    ensures { IsCall heap.old (StepCall (by mutator (actions.Scope (spec.register first)))) result heap.new }
{
    take_scope(heap, mutator, first)
}
