//! Each step once, each refusal of the graph, objects whose fields are side by side, and small records before the judge.

mod reasons;

use crate::actions::{
    g, get, get_weak, named, new, new_weak, put, put_nil, put_weak, r, read, write,
};
use heap_steps::{Action, Actor, CollectorStep, Event, Op, Record, Refusal, Reply, Step};
use heap_words::config::{Config, Format};
use object_graph::{Graph, Verdict, check};
use std::alloc::{AllocError, Global};
use std::process::Abort;
use std::test::Fail;

/// A heap of 64 words and one mutator.
fn config(first_name: u64) -> Config {
    Config {
        format: Format::V1,
        regions: 4,
        words: 16,
        buffer: 8,
        mutators: 1,
        first_name,
    }
}

/// Takes an action of the one mutator.
fn apply(rt: &impl Abort, graph: &mut Graph, action: Action) -> Result<Reply, AllocError> {
    let op = Op { mutator: 0, action };
    let places = graph.places();
    assert!(rt; op.is_at(&places));
    graph.apply(op)
}

/// Takes actions of the one mutator, and compares each reply.
fn check_replies(
    rt: &impl Abort,
    graph: &mut Graph,
    rows: &[(Action, Reply)],
) -> Result<(), AllocError> {
    for (action, reply) in rows {
        assert_eq!(rt; apply(rt, graph, *action)?, *reply);
    }
    Ok(())
}

#[test]
fn reads_and_writes_objects(rt: HostRuntime) -> Result<(), Fail> {
    let shape = Reply::Shape {
        pointers: 1,
        values: 1,
    };
    let rows = [
        (new(0, 1, 1), Reply::Named(Some(0))),
        (new(1, 0, 2), Reply::Named(Some(1))),
        (put(0, 0, 1), Reply::Done),
        (get(2, 0, 0), Reply::Named(Some(1))),
        (write(2, 1, 9), Reply::Done),
        (read(1, 1), Reply::Word(9)),
        (Action::Shape { object: r(0) }, shape),
    ];
    let mut graph = Graph::new(rt.alloc(), &config(0))?;
    check_replies(&rt, &mut graph, &rows)?;
    Ok(())
}

#[test]
fn moves_roots(rt: HostRuntime) -> Result<(), Fail> {
    let copy = Action::Move {
        to: r(3),
        from: r(0),
    };
    let save = Action::Save {
        to: g(15),
        from: r(3),
    };
    let load = Action::Load {
        to: r(4),
        from: g(15),
    };
    let rows = [
        (new(0, 1, 1), Reply::Named(Some(0))),
        (copy, Reply::Done),
        (save, Reply::Done),
        (Action::Drop { register: r(3) }, Reply::Done),
        (load, Reply::Named(Some(0))),
        (read(3, 0), Reply::Refused(Refusal::Nil)),
    ];
    let mut graph = Graph::new(rt.alloc(), &config(0))?;
    check_replies(&rt, &mut graph, &rows)?;
    Ok(())
}

#[test]
fn refuses_in_order(rt: HostRuntime) -> Result<(), Fail> {
    let rows = [
        (read(0, 0), Reply::Refused(Refusal::Nil)),
        (new(0, 60, 3), Reply::Refused(Refusal::TooBig)),
        (new(0, 60, 2), Reply::Named(Some(u64::MAX - 1))),
        (get(1, 0, 60), Reply::Refused(Refusal::NoField)),
        (get(1, 0, 59), Reply::Named(None)),
        (new(0, 60, 3), Reply::Refused(Refusal::TooBig)),
        (new(0, 0, 0), Reply::Refused(Refusal::NamesSpent)),
    ];
    let mut graph = Graph::new(rt.alloc(), &config(u64::MAX - 1))?;
    check_replies(&rt, &mut graph, &rows)?;
    Ok(())
}

/// Four objects, of which some fields are set, and then a fifth.
fn fill(rt: &impl Abort, graph: &mut Graph, names: &[u64; 5]) -> Result<(), AllocError> {
    let rows = [
        (new(0, 2, 1), named(names[0])),
        (new(1, 0, 0), named(names[1])),
        (new(2, 0, 2), named(names[2])),
        (new(3, 1, 0), named(names[3])),
        (put(0, 1, 3), Reply::Done),
        (write(0, 0, 7), Reply::Done),
        (write(2, 1, u64::MAX), Reply::Done),
        (put(3, 0, 0), Reply::Done),
        (new_weak(4, 1, 3, 1), named(names[4])),
    ];
    check_replies(rt, graph, &rows)
}

/// Compares the fields of these five.
fn check_filled(rt: &impl Abort, graph: &mut Graph, names: &[u64; 5]) -> Result<(), AllocError> {
    let no_field = Reply::Refused(Refusal::NoField);
    let rows = [
        (get(5, 0, 0), Reply::Named(None)),
        (get(5, 0, 1), named(names[3])),
        (get(5, 0, 2), no_field),
        (get(5, 1, 0), no_field),
        (get(5, 3, 0), named(names[0])),
        (get(5, 4, 0), Reply::Named(None)),
        (read(0, 0), Reply::Word(7)),
        (read(0, 1), no_field),
        (read(1, 0), no_field),
        (read(2, 0), Reply::Word(0)),
        (read(2, 1), Reply::Word(u64::MAX)),
        (read(4, 0), Reply::Word(0)),
    ];
    check_replies(rt, graph, &rows)
}

/// The first names that there are, and the last.
const NAMES: [[u64; 5]; 2] = [
    [0, 1, 2, 3, 4],
    [
        u64::MAX - 5,
        u64::MAX - 4,
        u64::MAX - 3,
        u64::MAX - 2,
        u64::MAX - 1,
    ],
];

#[test]
fn keeps_objects_apart(rt: HostRuntime) -> Result<(), Fail> {
    for names in NAMES {
        let mut graph = Graph::new(rt.alloc(), &config(names[0]))?;
        fill(&rt, &mut graph, &names)?;
        check_filled(&rt, &mut graph, &names)?;
        let rows = [
            (put(0, 1, 4), Reply::Done),
            (put_nil(3, 0), Reply::Done),
            (get(5, 3, 0), Reply::Named(None)),
            (get(5, 0, 1), named(names[4])),
        ];
        check_replies(&rt, &mut graph, &rows)?;
    }
    Ok(())
}

fn done(action: Action, reply: Reply) -> Event {
    Event {
        actor: Actor::Mutator(0),
        step: Step::Mutator(Op { mutator: 0, action }),
        reply,
    }
}

/// Adds an event, which the record's sizes allow.
fn push(rt: &impl Abort, history: &mut Record, event: Event) -> Result<(), AllocError> {
    let config = history.config();
    assert!(rt; event.is_in(&config));
    history.push(event)
}

/// Compares what the judge says of a record.
fn check_verdict(
    rt: &impl Abort,
    alloc: Global,
    history: &Record,
    verdict: Verdict,
) -> Result<(), AllocError> {
    assert_eq!(rt; check(alloc, history)?, verdict);
    Ok(())
}

/// Nothing forbids any of these three.
fn may_be(rt: &impl Abort, alloc: Global) -> Result<Record, AllocError> {
    let mut record = Record::new(alloc, config(0));
    push(
        rt,
        &mut record,
        done(new(0, 0, 0), Reply::Refused(Refusal::Full)),
    )?;
    push(
        rt,
        &mut record,
        done(read(0, 0), Reply::Refused(Refusal::Nil)),
    )?;
    push(
        rt,
        &mut record,
        Event {
            actor: Actor::Collector,
            step: Step::Collector(CollectorStep::Remark),
            reply: Reply::Marked(99),
        },
    )?;
    Ok(record)
}

/// An object that no heap of 64 words could hold isn't refused because the heap is full.
fn too_big(rt: &impl Abort, alloc: Global) -> Result<Record, AllocError> {
    let mut record = Record::new(alloc, config(0));
    push(
        rt,
        &mut record,
        done(new(0, 63, 0), Reply::Refused(Refusal::Full)),
    )?;
    Ok(record)
}

/// A pointer that nothing was put into is nil.
fn misread(rt: &impl Abort, alloc: Global) -> Result<Record, AllocError> {
    let mut record = Record::new(alloc, config(7));
    push(rt, &mut record, done(new(0, 1, 0), Reply::Named(Some(7))))?;
    push(
        rt,
        &mut record,
        Event {
            actor: Actor::Marker(7),
            step: Step::Collector(CollectorStep::Mark(4)),
            reply: Reply::Done,
        },
    )?;
    push(rt, &mut record, done(get(1, 0, 0), Reply::Named(Some(7))))?;
    Ok(record)
}

#[test]
fn judges_records(rt: HostRuntime) -> Result<(), Fail> {
    let alloc = rt.alloc();
    check_verdict(&rt, alloc, &may_be(&rt, alloc)?, Verdict::Yes(3))?;
    check_verdict(&rt, alloc, &too_big(&rt, alloc)?, Verdict::No(1))?;
    Ok(())
}

#[test]
fn judges_names_from_the_first(rt: HostRuntime) -> Result<(), Fail> {
    let alloc = rt.alloc();
    let record = misread(&rt, alloc)?;
    assert_eq!(rt; record.events().len(), 3);
    assert_eq!(rt; record.config().first_name, 7);
    check_verdict(&rt, alloc, &record, Verdict::No(3))?;
    Ok(())
}

fn collected(step: CollectorStep, reply: Reply) -> Event {
    Event {
        actor: Actor::Collector,
        step: Step::Collector(step),
        reply,
    }
}

#[test]
fn reads_and_writes_weak_slots(rt: HostRuntime) -> Result<(), Fail> {
    let shape = Reply::Shape {
        pointers: 1,
        values: 1,
    };
    let rows = [
        (new_weak(0, 1, 2, 1), Reply::Named(Some(0))),
        (Action::Weaks { object: r(0) }, Reply::Word(2)),
        (Action::Shape { object: r(0) }, shape),
        (get_weak(1, 0, 1), Reply::Named(None)),
        (put_weak(0, 1, 0), Reply::Done),
        (get_weak(1, 0, 1), Reply::Named(Some(0))),
        (get(1, 0, 0), Reply::Named(None)),
        (get_weak(1, 0, 2), Reply::Refused(Refusal::NoField)),
        (put_weak(0, 2, 0), Reply::Refused(Refusal::NoField)),
        (put_weak(2, 0, 0), Reply::Refused(Refusal::Nil)),
        (new_weak(2, 0, 255, 0), Reply::Refused(Refusal::TooBig)),
    ];
    let mut graph = Graph::new(rt.alloc(), &config(0))?;
    check_replies(&rt, &mut graph, &rows)?;
    Ok(())
}

/// A weak slot of #0, in r0, holds #1, which nothing else names.
fn held_weakly(rt: &impl Abort, alloc: Global) -> Result<Record, AllocError> {
    let mut record = Record::new(alloc, config(0));
    push(
        rt,
        &mut record,
        done(new_weak(0, 0, 1, 0), Reply::Named(Some(0))),
    )?;
    push(rt, &mut record, done(new(1, 0, 1), Reply::Named(Some(1))))?;
    push(rt, &mut record, done(put_weak(0, 0, 1), Reply::Done))?;
    push(
        rt,
        &mut record,
        done(Action::Drop { register: r(1) }, Reply::Done),
    )?;
    Ok(record)
}

/// Marking begins, and ends with so many objects marked.
fn mark(rt: &impl Abort, history: &mut Record, marked: u32) -> Result<(), AllocError> {
    push(rt, history, collected(CollectorStep::Begin, Reply::Done))?;
    push(
        rt,
        history,
        collected(CollectorStep::Remark, Reply::Marked(marked)),
    )?;
    Ok(())
}

/// What the weak slot of the object in r0 holds comes into a register, which then is nil.
fn look(rt: &impl Abort, history: &mut Record, to: u32, name: u64) -> Result<(), AllocError> {
    push(
        rt,
        history,
        done(get_weak(to, 0, 0), Reply::Named(Some(name))),
    )?;
    push(
        rt,
        history,
        done(Action::Drop { register: r(to) }, Reply::Done),
    )?;
    Ok(())
}

/// A heap of 512 words, which has room for an object with 255 weak slots.
fn roomy() -> Config {
    Config {
        words: 128,
        ..config(0)
    }
}

/// Adds actions of the one mutator with their replies.
fn push_rows(
    rt: &impl Abort,
    history: &mut Record,
    rows: &[(Action, Reply)],
) -> Result<(), AllocError> {
    for (action, reply) in rows {
        push(rt, history, done(*action, *reply))?;
    }
    Ok(())
}

/// An object without weak slots, which a marking finds; one with 255 and one with two; and objects up to #9, in r4.
fn slots_made(rt: &impl Abort, history: &mut Record) -> Result<(), AllocError> {
    push(rt, history, done(new(0, 1, 1), named(0)))?;
    mark(rt, history, 1)?;
    let no_field = Reply::Refused(Refusal::NoField);
    let rows = [
        (new_weak(1, 1, 255, 1), named(1)),
        (new_weak(2, 1, 2, 1), named(2)),
        (get_weak(7, 0, 0), no_field),
        (get_weak(7, 1, 254), Reply::Named(None)),
        (get_weak(7, 1, 255), no_field),
        (new(3, 0, 0), named(3)),
    ];
    push_rows(rt, history, &rows)?;
    for name in 4..10u64 {
        push(rt, history, done(new(4, 0, 0), named(name)))?;
    }
    Ok(())
}

/// Some fields of #1 and #2 are set; these hold that, and those beside them nothing.
fn slots_set(rt: &impl Abort, history: &mut Record) -> Result<(), AllocError> {
    let rows = [
        (put_weak(1, 254, 4), Reply::Done),
        (put_weak(2, 0, 0), Reply::Done),
        (write(1, 0, 7), Reply::Done),
        (put(2, 0, 3), Reply::Done),
        (get_weak(7, 1, 253), Reply::Named(None)),
        (get_weak(7, 1, 254), named(9)),
        (get_weak(7, 2, 0), named(0)),
        (get_weak(7, 2, 1), Reply::Named(None)),
        (read(1, 0), Reply::Word(7)),
        (read(2, 0), Reply::Word(0)),
        (get(7, 2, 0), named(3)),
    ];
    push_rows(rt, history, &rows)
}

/// When marking begins, #2 alone leads to #3. So the slot that holds #3 keeps it, though by the end of marking nothing leads there.
fn slots_copied(rt: &impl Abort, history: &mut Record) -> Result<(), AllocError> {
    let rows = [
        (put_weak(1, 253, 3), Reply::Done),
        (Action::Drop { register: r(3) }, Reply::Done),
        (Action::Drop { register: r(7) }, Reply::Done),
    ];
    push_rows(rt, history, &rows)?;
    push(rt, history, collected(CollectorStep::Begin, Reply::Done))?;
    push(rt, history, done(put_nil(2, 0), Reply::Done))?;
    push(
        rt,
        history,
        collected(CollectorStep::Remark, Reply::Marked(5)),
    )?;
    let kept = [
        (get_weak(7, 1, 253), named(3)),
        (get_weak(7, 1, 254), named(9)),
    ];
    push_rows(rt, history, &kept)
}

#[test]
fn keeps_weak_slots_apart(rt: HostRuntime) -> Result<(), Fail> {
    let alloc = rt.alloc();
    let mut record = Record::new(alloc, roomy());
    slots_made(&rt, &mut record)?;
    slots_set(&rt, &mut record)?;
    slots_copied(&rt, &mut record)?;
    mark(&rt, &mut record, 4)?;
    let cleared = [
        (get_weak(7, 1, 253), Reply::Named(None)),
        (get_weak(7, 1, 254), named(9)),
    ];
    push_rows(&rt, &mut record, &cleared)?;
    check_verdict(&rt, alloc, &record, Verdict::Yes(38))?;
    Ok(())
}

/// #1 is held weakly while marking runs, and its slot's reply afterwards is this one.
fn cleared_then(rt: &impl Abort, alloc: Global, reply: Reply) -> Result<Record, AllocError> {
    let mut record = held_weakly(rt, alloc)?;
    mark(rt, &mut record, 1)?;
    push(rt, &mut record, done(get_weak(1, 0, 0), reply))?;
    Ok(record)
}

#[test]
fn clears_what_only_weak_slots_name(rt: HostRuntime) -> Result<(), Fail> {
    let alloc = rt.alloc();
    let cleared = cleared_then(&rt, alloc, Reply::Named(None))?;
    check_verdict(&rt, alloc, &cleared, Verdict::Yes(7))?;
    let wrong = cleared_then(&rt, alloc, Reply::Named(Some(1)))?;
    check_verdict(&rt, alloc, &wrong, Verdict::No(7))?;
    Ok(())
}

/// #1 is read from its weak slot while marking runs, and then again; the next marking clears the slot.
fn touched_while_marking(rt: &impl Abort, alloc: Global) -> Result<Record, AllocError> {
    let mut touched = held_weakly(rt, alloc)?;
    push(
        rt,
        &mut touched,
        collected(CollectorStep::Begin, Reply::Done),
    )?;
    look(rt, &mut touched, 1, 1)?;
    push(
        rt,
        &mut touched,
        collected(CollectorStep::Remark, Reply::Marked(2)),
    )?;
    look(rt, &mut touched, 1, 1)?;
    mark(rt, &mut touched, 1)?;
    push(
        rt,
        &mut touched,
        done(get_weak(1, 0, 0), Reply::Named(None)),
    )?;
    Ok(touched)
}

#[test]
fn keeps_what_was_read_while_marking_ran(rt: HostRuntime) -> Result<(), Fail> {
    let touched = touched_while_marking(&rt, rt.alloc())?;
    check_verdict(&rt, rt.alloc(), &touched, Verdict::Yes(13))?;
    Ok(())
}

/// #1 is held weakly, and a pause moves it.
fn moved(rt: &impl Abort, alloc: Global) -> Result<Record, AllocError> {
    let mut moved = held_weakly(rt, alloc)?;
    let pause = Reply::Moved {
        regions: 1,
        words: 6,
    };
    push(rt, &mut moved, collected(CollectorStep::Pause(100), pause))?;
    // without a snapshot nothing is cleared
    push(
        rt,
        &mut moved,
        collected(CollectorStep::Remark, Reply::Marked(1)),
    )?;
    push(
        rt,
        &mut moved,
        done(get_weak(1, 0, 0), Reply::Named(Some(1))),
    )?;
    push(rt, &mut moved, done(read(1, 0), Reply::Word(0)))?;
    Ok(moved)
}

#[test]
fn a_pause_leaves_weak_slots(rt: HostRuntime) -> Result<(), Fail> {
    let moved = moved(&rt, rt.alloc())?;
    check_verdict(&rt, rt.alloc(), &moved, Verdict::Yes(8))?;
    Ok(())
}

/// #1 is made while marking runs, and its weak slot then alone holds #0.
fn made_while_marking(rt: &impl Abort, alloc: Global) -> Result<Record, AllocError> {
    let mut record = Record::new(alloc, config(0));
    push(rt, &mut record, done(new(1, 0, 1), Reply::Named(Some(0))))?;
    push(
        rt,
        &mut record,
        collected(CollectorStep::Begin, Reply::Done),
    )?;
    push(
        rt,
        &mut record,
        done(new_weak(0, 0, 1, 0), Reply::Named(Some(1))),
    )?;
    push(rt, &mut record, done(put_weak(0, 0, 1), Reply::Done))?;
    push(
        rt,
        &mut record,
        done(Action::Drop { register: r(1) }, Reply::Done),
    )?;
    Ok(record)
}

#[test]
fn keeps_slots_made_while_marking_ran(rt: HostRuntime) -> Result<(), Fail> {
    let alloc = rt.alloc();
    let mut record = made_while_marking(&rt, alloc)?;
    push(
        &rt,
        &mut record,
        collected(CollectorStep::Remark, Reply::Marked(1)),
    )?;
    look(&rt, &mut record, 2, 0)?;
    mark(&rt, &mut record, 1)?;
    push(
        &rt,
        &mut record,
        done(get_weak(2, 0, 0), Reply::Named(None)),
    )?;
    check_verdict(&rt, alloc, &record, Verdict::Yes(11))?;
    Ok(())
}

/// A heap of 64 words, with two mutators, one global and four registers each.
fn framed() -> Config {
    Config {
        format: Format::V3 {
            card: 8,
            globals: 1,
            registers: 4,
        },
        mutators: 2,
        ..config(0)
    }
}

/// A frame that is left takes the mutator's registers from one on with it, and no others.
#[test]
fn leaves_frames(rt: HostRuntime) -> Result<(), Fail> {
    let mut graph = Graph::new(rt.alloc(), &framed())?;
    let save = Action::Save {
        to: g(0),
        from: r(3),
    };
    let scope = Action::Scope { from: r(2) };
    let rows = [
        (new(1, 0, 1), Reply::Named(Some(0))),
        (new(3, 0, 1), Reply::Named(Some(1))),
        (save, Reply::Done),
        (scope, Reply::Done),
        (read(1, 0), Reply::Word(0)),
        (read(3, 0), Reply::Refused(Refusal::Nil)),
        (
            Action::Load {
                to: r(2),
                from: g(0),
            },
            Reply::Named(Some(1)),
        ),
        (Action::Scope { from: r(0) }, Reply::Done),
        (read(1, 0), Reply::Refused(Refusal::Nil)),
    ];
    check_replies(&rt, &mut graph, &rows)?;
    Ok(())
}
