//! Weak slots: cleared at the end of marking, kept by a reading, carried along by a pause; and their refusals.

ghost use Rattle.std.specs.Prelude.{◌≡◌, ◌<◌};

use crate::steps::{act, collect, register};
use heap_steps::{Action, CollectorStep, Counts, Refusal, Reply};
use heap_words::config::{Config, Format};
use std::alloc::Global;
use std::process::Abort;
use std::test::Fail;
use step_core::Core;

const WEAK: Config = Config {
    format: Format::V1,
    regions: 4,
    words: 16,
    buffer: 8,
    mutators: 1,
    first_name: 0,
};

/// The object of r0 has a weak slot that holds the object of r1, whose data word is 0; then r1 is nil.
fn held_weakly(rt: &impl Abort, alloc: Global) -> Core {
    let Ok(mut core) = Core::new(alloc, &WEAK) else {
        panic!(rt; "a core");
    };
    let r1 = register(1);
    let none = Counts {
        pointers: 0,
        values: 0,
    };
    let word = Counts {
        pointers: 0,
        values: 1,
    };
    let steps = [
        (
            Action::NewWeak {
                to: register(0),
                counts: none,
                weaks: 1,
            },
            Reply::Named(Some(0)),
        ),
        (
            Action::New {
                to: r1,
                counts: word,
            },
            Reply::Named(Some(1)),
        ),
        (put(Some(1)), Reply::Done),
        (Action::Drop { register: r1 }, Reply::Done),
    ];
    for (action, reply) in steps {
        check_act(rt, &mut core, action, reply);
    }
    core
}

/// The slot takes what a register holds, or nil.
fn put(value: Option<u32>) -> Action {
    let value = match value {
        None => None,
        Some(number) => Some(register(number)),
    };
    Action::PutWeak {
        object: register(0),
        slot: 0,
        value,
    }
}

/// r1 takes what the slot holds.
fn get() -> Action {
    Action::GetWeak {
        to: register(1),
        object: register(0),
        slot: 0,
    }
}

fn check_act(rt: &impl Abort, core: &mut Core, action: Action, reply: Reply) {
    assert_eq!(rt; act(core, 0, action), Some(reply));
}

fn check_collect(rt: &impl Abort, core: &mut Core, step: CollectorStep, reply: Reply) {
    assert_eq!(rt; collect(core, step), reply);
}

/// What a weak slot alone leads to isn't marked, and the slot is nil afterwards.
#[test]
fn cleared(rt: HostRuntime) -> Result<(), Fail> {
    let mut core = held_weakly(&rt, rt.alloc());
    check_collect(&rt, &mut core, CollectorStep::Begin, Reply::Done);
    check_collect(&rt, &mut core, CollectorStep::Remark, Reply::Marked(1));
    check_act(&rt, &mut core, get(), Reply::Named(None));
    Ok(())
}

/// What is read from a slot while marking runs is kept through this cycle, though the register gives it up, and isn't
/// through the next one.
#[test]
fn touched(rt: HostRuntime) -> Result<(), Fail> {
    let mut core = held_weakly(&rt, rt.alloc());
    check_collect(&rt, &mut core, CollectorStep::Begin, Reply::Done);
    check_act(&rt, &mut core, get(), Reply::Named(Some(1)));
    let dropped = Action::Drop {
        register: register(1),
    };
    check_act(&rt, &mut core, dropped, Reply::Done);
    check_collect(&rt, &mut core, CollectorStep::Remark, Reply::Marked(2));
    check_collect(&rt, &mut core, CollectorStep::Begin, Reply::Done);
    check_collect(&rt, &mut core, CollectorStep::Remark, Reply::Marked(1));
    check_act(&rt, &mut core, get(), Reply::Named(None));
    Ok(())
}

/// A pause copies what a slot leads to, and the slot names the copy.
#[test]
fn moved(rt: HostRuntime) -> Result<(), Fail> {
    let mut core = held_weakly(&rt, rt.alloc());
    let moved = Reply::Moved {
        regions: 1,
        words: 6,
    };
    check_collect(&rt, &mut core, CollectorStep::Pause(100), moved);
    check_act(&rt, &mut core, get(), Reply::Named(Some(1)));
    let read = Action::Read {
        object: register(1),
        field: 0,
    };
    check_act(&rt, &mut core, read, Reply::Word(0));
    Ok(())
}

/// Nil comes before NoField, the slots are counted by themselves, and a slot may be made nil.
#[test]
fn refusals(rt: HostRuntime) -> Result<(), Fail> {
    let mut core = held_weakly(&rt, rt.alloc());
    let nil = Reply::Refused(Refusal::Nil);
    let no_field = Reply::Refused(Refusal::NoField);
    let r0 = register(0);
    let r5 = register(5);
    let steps = [
        (Action::Weaks { object: r5 }, nil),
        (Action::Weaks { object: r0 }, Reply::Word(1)),
        (
            Action::GetWeak {
                to: r5,
                object: r5,
                slot: 9,
            },
            nil,
        ),
        (
            Action::GetWeak {
                to: r5,
                object: r0,
                slot: 1,
            },
            no_field,
        ),
        (
            Action::PutWeak {
                object: r5,
                slot: 9,
                value: None,
            },
            nil,
        ),
        (
            Action::PutWeak {
                object: r0,
                slot: 1,
                value: None,
            },
            no_field,
        ),
        (
            Action::Shape { object: r0 },
            Reply::Shape {
                pointers: 0,
                values: 0,
            },
        ),
        (put(None), Reply::Done),
        (get(), Reply::Named(None)),
    ];
    for (action, reply) in steps {
        check_act(&rt, &mut core, action, reply);
    }
    Ok(())
}

/// A slot that leads into another region has its card noted: four such stores fill a card log.
#[test]
fn noted(rt: HostRuntime) -> Result<(), Fail> {
    let mut core = held_weakly(&rt, rt.alloc());
    let wide = Action::NewWeak {
        to: register(0),
        counts: Counts {
            pointers: 1,
            values: 0,
        },
        weaks: 60,
    };
    check_act(&rt, &mut core, wide, Reply::Refused(Refusal::Full));
    let wide = Action::NewWeak {
        to: register(0),
        counts: Counts {
            pointers: 1,
            values: 0,
        },
        weaks: 29,
    };
    check_act(&rt, &mut core, wide, Reply::Named(Some(2)));
    check_act(
        &rt,
        &mut core,
        Action::Weaks {
            object: register(0),
        },
        Reply::Word(29),
    );
    let small = Action::New {
        to: register(1),
        counts: Counts {
            pointers: 0,
            values: 0,
        },
    };
    check_act(&rt, &mut core, small, Reply::Named(Some(3)));
    for slot in [0, 5, 13, 21] {
        let put = Action::PutWeak {
            object: register(0),
            slot,
            value: Some(register(1)),
        };
        check_act(&rt, &mut core, put, Reply::Done);
    }
    assert_eq!(rt; core.queued(), 4);
    Ok(())
}

/// An object is made, and this is its name.
fn made(to: u32, counts: Counts, weaks: u8, name: u64) -> (Action, Reply) {
    let action = Action::NewWeak {
        to: register(to),
        counts,
        weaks,
    };
    (action, Reply::Named(Some(name)))
}

/// A weak slot in a register's object takes what another holds.
fn put_in(object: u32, slot: u32, value: u32) -> (Action, Reply) {
    let action = Action::PutWeak {
        object: register(object),
        slot,
        value: Some(register(value)),
    };
    (action, Reply::Done)
}

/// r7 takes what a weak slot in a register's object holds.
fn get_from(object: u32, slot: u32, name: Option<u64>) -> (Action, Reply) {
    let action = Action::GetWeak {
        to: register(7),
        object: register(object),
        slot,
    };
    (action, Reply::Named(name))
}

fn forget(number: u32) -> (Action, Reply) {
    let register = register(number);
    (Action::Drop { register }, Reply::Done)
}

/// Each action has its reply.
fn check_acts(rt: &impl Abort, core: &mut Core, steps: &[(Action, Reply)]) {
    for (action, reply) in steps {
        check_act(rt, core, *action, *reply);
    }
}

/// Marking begins and ends.
fn check_cycle(rt: &impl Abort, core: &mut Core, marked: u32) {
    check_collect(rt, core, CollectorStep::Begin, Reply::Done);
    check_collect(rt, core, CollectorStep::Remark, Reply::Marked(marked));
}

fn check_cleanup(rt: &impl Abort, core: &mut Core, regions: u32) {
    let reply = Reply::Reclaimed(regions);
    check_collect(rt, core, CollectorStep::Cleanup, reply);
}

/// The object of r0 has 20 words, two regions to itself, and 17 weak slots. The first and the last one, which is in the
/// second region, hold the object of r1; the object of r2 has a weak slot that holds the object of r0.
fn held_in_a_run(rt: &impl Abort, alloc: Global) -> Core {
    let Ok(mut core) = Core::new(alloc, &WEAK) else {
        panic!(rt; "a core");
    };
    let none = Counts {
        pointers: 0,
        values: 0,
    };
    let one = Counts {
        pointers: 0,
        values: 1,
    };
    let steps = [
        made(0, one, 17, 0),
        made(1, one, 0, 1),
        made(2, none, 1, 2),
        put_in(0, 0, 1),
        put_in(0, 16, 1),
        put_in(2, 0, 0),
    ];
    check_acts(rt, &mut core, &steps);
    core
}

/// A run's weak slots are cleared in both of its regions, once what they hold is lost.
#[test]
fn cleared_in_a_run(rt: HostRuntime) -> Result<(), Fail> {
    let mut core = held_in_a_run(&rt, rt.alloc());
    check_cycle(&rt, &mut core, 3);
    let kept = [get_from(0, 0, Some(1)), get_from(0, 16, Some(1))];
    check_acts(&rt, &mut core, &kept);
    check_acts(&rt, &mut core, &[forget(1), forget(7)]);
    check_cycle(&rt, &mut core, 2);
    let cleared = [get_from(0, 0, None), get_from(0, 16, None)];
    check_acts(&rt, &mut core, &cleared);
    check_acts(&rt, &mut core, &[get_from(2, 0, Some(0))]);
    Ok(())
}

/// A pause copies what a run's weak slots hold, and they name the copy, also the one in its second region.
#[test]
fn moved_from_a_run(rt: HostRuntime) -> Result<(), Fail> {
    let mut core = held_in_a_run(&rt, rt.alloc());
    check_acts(&rt, &mut core, &[forget(1)]);
    let moved = Reply::Moved {
        regions: 1,
        words: 6,
    };
    check_collect(&rt, &mut core, CollectorStep::Pause(100), moved);
    let names = [get_from(0, 0, Some(1)), get_from(0, 16, Some(1))];
    check_acts(&rt, &mut core, &names);
    let read = Action::Read {
        object: register(7),
        field: 0,
    };
    check_acts(&rt, &mut core, &[(read, Reply::Word(0))]);
    Ok(())
}

/// A run that a weak slot alone leads to is lost: the slot is cleared, and both of its regions are reclaimed and taken again.
#[test]
fn a_run_held_weakly(rt: HostRuntime) -> Result<(), Fail> {
    let mut core = held_in_a_run(&rt, rt.alloc());
    check_acts(&rt, &mut core, &[forget(0)]);
    check_cycle(&rt, &mut core, 2);
    check_acts(&rt, &mut core, &[get_from(2, 0, None)]);
    check_cleanup(&rt, &mut core, 2);
    let one = Counts {
        pointers: 0,
        values: 1,
    };
    let again = [made(0, one, 29, 3), get_from(0, 28, None)];
    check_acts(&rt, &mut core, &again);
    Ok(())
}

/// A run that was read from a weak slot while marking runs is kept through this cycle, and reclaimed in the next one.
#[test]
fn a_touched_run(rt: HostRuntime) -> Result<(), Fail> {
    let mut core = held_in_a_run(&rt, rt.alloc());
    check_acts(&rt, &mut core, &[forget(0)]);
    check_collect(&rt, &mut core, CollectorStep::Begin, Reply::Done);
    check_acts(&rt, &mut core, &[get_from(2, 0, Some(0)), forget(7)]);
    check_collect(&rt, &mut core, CollectorStep::Remark, Reply::Marked(3));
    check_cleanup(&rt, &mut core, 0);
    check_cycle(&rt, &mut core, 2);
    check_acts(&rt, &mut core, &[get_from(2, 0, None)]);
    check_cleanup(&rt, &mut core, 2);
    Ok(())
}
