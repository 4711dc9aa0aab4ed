//! Runs of every step.

ghost use Rattle.std.specs.Prelude.{◌≡◌};

use heap_steps::{
    Action, CollectorStep, Counts, GlobalRoot, Op, Refusal, Register, Reply, RunFault, Step,
};
use heap_words::addr::{Card, RegionNo};
use heap_words::config::{Config, Format, NewFault};
use std::process::Abort;
use std::test::Fail;
use step_core::{Core, run};

const CONFIG: Config = Config {
    format: Format::V1,
    regions: 4,
    words: 16,
    buffer: 8,
    mutators: 2,
    first_name: 7,
};

pub(crate) fn register(number: u32) -> Register
    ensures { result.number ≡ number }
{
    Register { number }
}

/// Each action once, by both mutators, and its reply.
#[test]
fn every_action(rt: HostRuntime) -> Result<(), Fail> {
    let r0 = register(0);
    let r1 = register(1);
    let g3 = GlobalRoot { number: 3 };
    let rows: [(u32, Action, Reply); 14] = [
        (
            0,
            Action::New {
                to: r0,
                counts: Counts {
                    pointers: 2,
                    values: 1,
                },
            },
            Reply::Named(Some(7)),
        ),
        (
            0,
            Action::New {
                to: r1,
                counts: Counts {
                    pointers: 0,
                    values: 1,
                },
            },
            Reply::Named(Some(8)),
        ),
        (
            0,
            Action::Put {
                object: r0,
                field: 1,
                value: Some(r1),
            },
            Reply::Done,
        ),
        (
            0,
            Action::Write {
                object: r1,
                field: 0,
                value: 77,
            },
            Reply::Done,
        ),
        (0, Action::Drop { register: r1 }, Reply::Done),
        (
            0,
            Action::Get {
                to: r1,
                object: r0,
                field: 1,
            },
            Reply::Named(Some(8)),
        ),
        (
            0,
            Action::Read {
                object: r1,
                field: 0,
            },
            Reply::Word(77),
        ),
        (0, Action::Save { to: g3, from: r0 }, Reply::Done),
        (1, Action::Load { to: r1, from: g3 }, Reply::Named(Some(7))),
        (1, Action::Move { to: r0, from: r1 }, Reply::Done),
        (
            1,
            Action::Shape { object: r0 },
            Reply::Shape {
                pointers: 2,
                values: 1,
            },
        ),
        (
            1,
            Action::Put {
                object: r0,
                field: 0,
                value: None,
            },
            Reply::Done,
        ),
        (
            1,
            Action::Read {
                object: r0,
                field: 1,
            },
            Reply::Refused(Refusal::NoField),
        ),
        (
            1,
            Action::New {
                to: r0,
                counts: Counts {
                    pointers: 40,
                    values: 20,
                },
            },
            Reply::Refused(Refusal::Full),
        ),
    ];
    let Ok(mut core) = Core::new(rt.alloc(), &CONFIG) else {
        return Err(Fail::from("a core"));
    };
    assert_eq!(rt; core.config(), CONFIG);
    for (mutator, action, reply) in rows {
        assert_eq!(rt; act(&mut core, mutator, action), Some(reply));
    }
    Ok(())
}

/// A step of the collector. One that the heap's format hasn't is told as Full, which no step of the collector is.
pub(crate) fn collect(core: &mut Core, step: CollectorStep) -> Reply {
    let taken = Step::Collector(step);
    let config = core.config();
    if taken.is_in(&config) {
        core.step(taken)
    } else {
        Reply::Refused(Refusal::Full)
    }
}

/// A mutator's action, None for one that the heap's sizes don't allow.
pub(crate) fn act(core: &mut Core, mutator: u32, action: Action) -> Option<Reply> {
    let step = Step::Mutator(Op { mutator, action });
    let config = core.config();
    if step.is_in(&config) {
        Some(core.step(step))
    } else {
        None
    }
}

/// An object in r0 that names another, which no register holds any more.
fn make_two(rt: &impl Abort, core: &mut Core) {
    let made = [
        Action::New {
            to: register(0),
            counts: Counts {
                pointers: 1,
                values: 0,
            },
        },
        Action::New {
            to: register(1),
            counts: Counts {
                pointers: 0,
                values: 1,
            },
        },
        Action::Put {
            object: register(0),
            field: 0,
            value: Some(register(1)),
        },
        Action::Drop {
            register: register(1),
        },
    ];
    for action in made {
        assert!(rt; act(core, 0, action).is_some());
    }
}

/// Steps of the collector: each reply, whether marking runs afterwards, and how many objects were scanned since it began.
fn check_cycle(rt: &impl Abort, core: &mut Core, rows: &[(CollectorStep, Reply, bool, u32)]) {
    for (step, reply, marking, scans) in rows {
        assert_eq!(rt; collect(core, *step), *reply);
        assert!(rt; core.marking() == *marking && core.scans() == *scans);
    }
}

/// A cycle by steps. The object that r0 names is found by the log alone, since its last pointer goes before it is scanned; once it is
/// unreachable the next cycle doesn't mark it. Neither region is reclaimed: the one is current, and the other holds an object.
#[test]
fn a_marking_cycle(rt: HostRuntime) -> Result<(), Fail> {
    let Ok(mut core) = Core::new(rt.alloc(), &CONFIG) else {
        return Err(Fail::from("a core"));
    };
    make_two(&rt, &mut core);
    let refused = Reply::Refused(Refusal::MarkRunning);
    let idle = Reply::Refused(Refusal::NotMarking);
    let before = [
        (CollectorStep::Remark, idle, false, 0),
        (CollectorStep::Mark(1), idle, false, 0),
        (CollectorStep::Begin, Reply::Done, true, 0),
        (CollectorStep::Begin, refused, true, 0),
        (CollectorStep::Cleanup, refused, true, 0),
        (CollectorStep::Mark(0), Reply::Done, true, 0),
    ];
    let after = [
        (CollectorStep::Mark(1), Reply::Done, true, 1),
        (CollectorStep::Mark(9), Reply::Done, true, 1),
        (CollectorStep::Remark, Reply::Marked(2), false, 2),
        (CollectorStep::Cleanup, Reply::Reclaimed(0), false, 2),
        (CollectorStep::Begin, Reply::Done, true, 0),
        (CollectorStep::Remark, Reply::Marked(1), false, 1),
        (CollectorStep::Cleanup, Reply::Reclaimed(0), false, 1),
    ];
    check_cycle(&rt, &mut core, &before);
    let deleted = Action::Put {
        object: register(0),
        field: 0,
        value: None,
    };
    assert_eq!(rt; act(&mut core, 0, deleted), Some(Reply::Done));
    check_cycle(&rt, &mut core, &after);
    Ok(())
}

/// Objects of a region each, of which a register holds the last: two cycles reclaim the others, the memory above goes back, and the regions
/// are taken again.
#[test]
fn reclaims_regions(rt: HostRuntime) -> Result<(), Fail> {
    let r0 = register(0);
    let Ok(mut core) = Core::new(rt.alloc(), &CONFIG) else {
        return Err(Fail::from("a core"));
    };
    let half = Action::New {
        to: r0,
        counts: Counts {
            pointers: 3,
            values: 3,
        },
    };
    for round in 0..3u64 {
        for place in 0..6u64 {
            assert_eq!(rt;
                act(&mut core, 0, half),
                Some(Reply::Named(Some(7 + 6 * round + place)))
            );
        }
        assert_eq!(rt; collect(&mut core, CollectorStep::Begin), Reply::Done);
        assert_eq!(rt; collect(&mut core, CollectorStep::Remark), Reply::Marked(1));
        assert_eq!(rt;
            collect(&mut core, CollectorStep::Cleanup),
            Reply::Reclaimed(if round == 0 { 2 } else { 3 })
        );
        assert!(rt; core.give_back(rt.alloc()).is_ok());
    }
    Ok(())
}

/// Five objects of registers 0 to 4: two in region 0, two in region 1, and the last one in region 2.
fn five_objects(rt: &impl Abort, core: &mut Core) {
    for number in 0..5u32 {
        let action = Action::New {
            to: register(number),
            counts: Counts {
                pointers: if number < 4 { 4 } else { 2 },
                values: 2,
            },
        };
        assert!(rt; act(core, 0, action).is_some());
    }
}

/// Four stores out of region 0 and 1 into region 2 fill a card log; refined, they are remembered by region 2, and the next
/// store makes its card dirty again.
#[test]
fn a_card_log_fills(rt: HostRuntime) -> Result<(), Fail> {
    let config = Config {
        buffer: 4,
        ..CONFIG
    };
    let Ok(mut core) = Core::new(rt.alloc(), &config) else {
        return Err(Fail::from("a core"));
    };
    five_objects(&rt, &mut core);
    fill_a_log(&rt, &mut core);
    check_refined(&rt, &mut core, 3, 3);
    check_refined(&rt, &mut core, 9, 1);
    check_stored(&rt, &mut core, 0, 2);
    check_refined(&rt, &mut core, 9, 0);
    check_remembered(&rt, &core);
    Ok(())
}

/// Nothing is queued while the log has room.
fn fill_a_log(rt: &impl Abort, core: &mut Core) {
    check_stored(rt, core, 0, 0);
    check_stored(rt, core, 0, 1);
    check_stored(rt, core, 1, 0);
    check_stored(rt, core, 2, 0);
    check_refined(rt, core, 9, 0);
    check_stored(rt, core, 3, 0);
    assert_eq!(rt; core.queued(), 4);
}

/// The last object is stored into a field of another.
fn check_stored(rt: &impl Abort, core: &mut Core, number: u32, field: u32) {
    let put = Action::Put {
        object: Register { number },
        field,
        value: Some(Register { number: 4 }),
    };
    assert_eq!(rt; act(core, 0, put), Some(Reply::Done));
}

fn check_refined(rt: &impl Abort, core: &mut Core, cards: u32, refined: u32) {
    assert_eq!(rt;
        collect(core, CollectorStep::Refine(cards)),
        Reply::Refined(refined)
    );
}

/// Region 2 alone remembers the first four cards, and the first card alone is dirty.
fn check_remembered(rt: &impl Abort, core: &Core) {
    for card in 0..8u32 {
        for region in 0..4u32 {
            assert_eq!(rt;
                remembers(core, region, card),
                Some((region == 2 && card < 4, card == 0))
            );
        }
    }
}

/// Whether a region remembers a card, and whether the card is dirty. None where there is no such region or card.
pub(crate) fn remembers(core: &Core, region: u32, card: u32) -> Option<(bool, bool)> {
    core.law_remembers();
    let table = core.table();
    table.law();
    let regions = table.region_count();
    let length = core.config().card_words();
    if card >= 1024 || length > 64 || region >= regions {
        return None;
    }
    if card * length >= regions * table.words_per_region() {
        return None;
    }
    let covered = core.sets().covers(RegionNo::new(region), Card::new(card));
    Some((covered, core.cards().is_dirty(Card::new(card))))
}

/// A run of two steps has an event for each, and the calls that tell a proof something change nothing.
#[test]
fn a_run(rt: HostRuntime) -> Result<(), Fail> {
    let steps = [
        Step::Collector(CollectorStep::Begin),
        Step::Collector(CollectorStep::Remark),
    ];
    let Ok(record) = run(rt.alloc(), &CONFIG, &steps) else {
        return Err(Fail::from("a run of two steps"));
    };
    let replies = [Reply::Done, Reply::Marked(0)];
    assert_eq!(rt; record.events().len(), 2);
    for (event, reply) in record.events().iter().zip(replies) {
        assert_eq!(rt; event.reply, reply);
    }
    let Ok(core) = Core::new(rt.alloc(), &CONFIG) else {
        return Err(Fail::from("a core"));
    };
    core.law_remembers();
    core.law_whole();
    assert!(rt; core.queued() == 0 && !core.marking());
    Ok(())
}

/// The faults of a run print as they are told.
#[test]
fn faults(rt: HostRuntime) -> Result<(), Fail> {
    let texts = [
        (RunFault::BadWorkers, "1 BadWorkers"),
        (RunFault::NoMemory, "2 NoMemory"),
        (RunFault::NoWorker, "3 NoWorker"),
        (RunFault::Unfinished, "4 Unfinished"),
        (RunFault::Heap(NewFault::BadBuffer), "5 Heap"),
    ];
    for (fault, text) in texts {
        let printed = format!(in rt.alloc(); "{fault}")?;
        assert_eq!(rt; printed.as_str(), text);
    }
    let small = Config {
        regions: 1,
        ..CONFIG
    };
    match run(rt.alloc(), &small, &[]) {
        Err(fault) => assert_eq!(rt; fault, RunFault::Heap(NewFault::BadRegions)),
        Ok(_) => return Err(Fail::from("a heap of one region")),
    }
    match run(rt.alloc(), &CONFIG, &[]) {
        Err(_) => return Err(Fail::from("a run of no steps")),
        Ok(record) => assert_eq!(rt; record.config(), CONFIG),
    }
    Ok(())
}
