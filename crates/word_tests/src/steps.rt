//! Plans and records with memory, and which steps the sizes of a heap allow.

use heap_steps::{
    Action, Actor, CollectorStep, Counts, Event, GlobalRoot, Op, Plan, Record, Register, Reply,
    RunFault, Step, run_fault,
};
use heap_words::config::{Config, Format, NewFault};
use std::alloc::{AllocError, Global};
use std::process::Abort;
use std::test::Fail;

/// A heap of 64 words and one mutator.
fn config() -> Config {
    Config {
        format: Format::V1,
        regions: 4,
        words: 16,
        buffer: 8,
        mutators: 1,
        first_name: 0,
    }
}

/// The same with two mutators, one global and four registers each.
fn framed() -> Config {
    Config {
        format: Format::V3 {
            card: 8,
            globals: 1,
            registers: 4,
        },
        mutators: 2,
        ..config()
    }
}

fn r(number: u32) -> Register {
    Register { number }
}

/// A small object, made by the first mutator.
fn new_object() -> Step {
    Step::Mutator(Op {
        mutator: 0,
        action: Action::New {
            to: r(0),
            counts: Counts {
                pointers: 0,
                values: 0,
            },
        },
    })
}

/// A plan of two steps.
fn two_steps(rt: &impl Abort, alloc: Global) -> Result<Plan, AllocError> {
    let sizes = config();
    let mut plan = Plan::new(alloc, sizes);
    plan.push(Step::Collector(CollectorStep::Begin))?;
    let step = new_object();
    assert!(rt; step.is_in(&sizes));
    plan.push(step)?;
    Ok(plan)
}

#[test]
fn keeps_plans(rt: HostRuntime) -> Result<(), Fail> {
    let plan = two_steps(&rt, rt.alloc())?;
    assert_eq!(rt; plan.steps().len(), 2);
    assert_eq!(rt; plan.config().regions, 4);
    Ok(())
}

/// A record of one event.
fn one_event(rt: &impl Abort, alloc: Global) -> Result<Record, AllocError> {
    let sizes = config();
    let mut record = Record::new(alloc, sizes);
    let event = Event {
        actor: Actor::Mutator(0),
        step: new_object(),
        reply: Reply::Named(Some(0)),
    };
    assert!(rt; event.is_in(&sizes));
    record.push(event)?;
    Ok(record)
}

#[test]
fn keeps_records(rt: HostRuntime) -> Result<(), Fail> {
    let record = one_event(&rt, rt.alloc())?;
    assert_eq!(rt; record.events().len(), 1);
    assert_eq!(rt; record.config().words, 16);
    Ok(())
}

/// What a mutator's step may name: registers and globals below their counts, and a scope in the third format alone.
#[test]
fn knows_roots(rt: HostRuntime) {
    let in_first = Step::Mutator(Op {
        mutator: 0,
        action: Action::Scope { from: r(0) },
    });
    assert!(rt; !in_first.is_in(&config()));
    for (mutator, action, allowed) in [
        (1, Action::Scope { from: r(3) }, true),
        (2, Action::Scope { from: r(3) }, false),
        (0, Action::Scope { from: r(4) }, false),
        (
            0,
            Action::PutWeak {
                object: r(3),
                slot: 0,
                value: Some(r(4)),
            },
            false,
        ),
        (
            0,
            Action::Load {
                to: r(3),
                from: GlobalRoot { number: 1 },
            },
            false,
        ),
        (
            0,
            Action::Save {
                to: GlobalRoot { number: 0 },
                from: r(3),
            },
            true,
        ),
    ] {
        let step = Step::Mutator(Op { mutator, action });
        assert_eq!(rt; step.is_in(&framed()), allowed);
    }
}

#[test]
fn tells_why_no_heap_was_made(rt: HostRuntime) {
    assert_eq!(rt; run_fault(NewFault::NoMemory), RunFault::NoMemory);
    assert_eq!(rt;
        run_fault(NewFault::BadWords),
        RunFault::Heap(NewFault::BadWords)
    );
}
