//! Humongous objects: which regions they take, and when they go. Regions have 16 words.

use crate::pauses::{begin, check, cleanup, forget, get, make, pause, put, refine, remark};
use crate::steps::{act, collect, register, remembers};
use heap_steps::{Action, CollectorStep, Counts, Reply};
use heap_words::config::{Config, Format};
use std::process::Abort;
use std::test::Fail;
use step_core::Core;

/// Half a region, one word more, a region, one word more. Then regions 1 and 5 are free, which aren't adjacent: 17 words find
/// no place, 16 and 9 do.
#[test]
fn sizes_at_the_edges(rt: HostRuntime) -> Result<(), Fail> {
    let lines = [
        make(0, 3, 3),
        make(1, 3, 4),
        make(2, 7, 7),
        make(3, 7, 8),
        forget(1),
        begin(),
        remark(3),
        cleanup(1),
        make(5, 7, 8),
        make(1, 7, 7),
        make(4, 0, 7),
    ];
    let places = [
        Some(0),
        Some(16),
        Some(32),
        Some(48),
        Some(80),
        None,
        None,
        None,
    ];
    check(&rt, rt.alloc(), 6, 8, &lines, &places)
}

/// A run takes the last two regions, and a small object goes on in its buffer. Then no region is free.
#[test]
fn a_run_at_the_end(rt: HostRuntime) -> Result<(), Fail> {
    let lines = [
        make(0, 3, 3),
        make(1, 3, 4),
        make(2, 7, 8),
        make(3, 0, 0),
        make(4, 3, 4),
        make(5, 31, 32),
        make(5, 31, 31),
    ];
    let places = [Some(0), Some(16), Some(32), Some(8), None, None, None, None];
    check(&rt, rt.alloc(), 4, 8, &lines, &places)
}

/// An object has the whole heap, which is reclaimed with it.
#[test]
fn the_whole_heap(rt: HostRuntime) -> Result<(), Fail> {
    let lines = [
        make(0, 31, 31),
        make(1, 0, 0),
        forget(0),
        begin(),
        remark(0),
        cleanup(4),
        make(2, 0, 0),
        make(3, 40, 6),
    ];
    let places = [None, None, Some(0), Some(16), None, None, None, None];
    check(&rt, rt.alloc(), 4, 8, &lines, &places)
}

/// A buffer stays open when its mutator makes a humongous object. What is made while marking runs is kept, and goes a
/// cycle later.
#[test]
fn a_new_run_stays(rt: HostRuntime) -> Result<(), Fail> {
    let lines = [
        make(0, 0, 0),
        begin(),
        make(1, 0, 0),
        make(2, 10, 10),
        make(3, 0, 0),
        forget(2),
        remark(1),
        cleanup(0),
        make(4, 7, 8),
        begin(),
        remark(4),
        cleanup(2),
        make(5, 7, 7),
    ];
    let places = [
        Some(0),
        Some(8),
        None,
        Some(10),
        Some(48),
        Some(16),
        None,
        None,
    ];
    check(&rt, rt.alloc(), 5, 8, &lines, &places)
}

/// A pause leaves a run where it is, and updates its field in its later region.
#[test]
fn a_field_in_a_later_region(rt: HostRuntime) -> Result<(), Fail> {
    let lines = [
        make(0, 16, 0),
        make(1, 0, 1),
        put(0, 15, 1),
        forget(1),
        pause(100, 1, 3),
        refine(5, 1),
        get(1, 0, 15),
    ];
    let places = [Some(0), Some(48), None, None, None, None, None, None];
    check(&rt, rt.alloc(), 6, 8, &lines, &places)
}

/// Exactly these cards lead into a region by its set, and this one alone is dirty.
fn check_cards(rt: &impl Abort, core: &Core, region: u32, cards: u32, dirty: Option<u32>) {
    for card in 0..24u32 {
        assert_eq!(rt;
            remembers(core, region, card),
            Some((card < cards, dirty == Some(card))),
            "card {card}"
        );
    }
}

/// Seventeen cards of a run of nine regions lead into region 9: sixteen enter its set, and the last waits in its mutator's
/// card log. A pause moves what they lead to into region 10, and then its set covers all of them: the seventeenth, 16, by its
/// whole region 8, and card 17 with it.
#[test]
fn seventeen_cards(rt: HostRuntime) -> Result<(), Fail> {
    let config = Config {
        format: Format::V1,
        regions: 12,
        words: 16,
        buffer: 8,
        mutators: 1,
        first_name: 0,
    };
    let Ok(mut core) = Core::new(rt.alloc(), &config) else {
        return Err(Fail::from("a core"));
    };
    let new = |to: u32, pointers: u32, values: u32| Action::New {
        to: register(to),
        counts: Counts { pointers, values },
    };
    assert!(rt; act(&mut core, 0, new(0, 142, 0)).is_some());
    assert!(rt; act(&mut core, 0, new(1, 0, 1)).is_some());
    for store in 0..17u32 {
        let put = Action::Put {
            object: register(0),
            field: (8 * store).saturating_sub(2),
            value: Some(register(1)),
        };
        assert_eq!(rt; act(&mut core, 0, put), Some(Reply::Done));
    }
    for (step, reply) in [
        (CollectorStep::Refine(20), Reply::Refined(16)),
        (
            CollectorStep::Pause(100),
            Reply::Moved {
                regions: 1,
                words: 3,
            },
        ),
        (CollectorStep::Refine(20), Reply::Refined(17)),
    ] {
        if step == CollectorStep::Pause(100) {
            check_cards(&rt, &core, 9, 16, Some(16));
        }
        assert_eq!(rt; collect(&mut core, step), reply);
    }
    check_cards(&rt, &core, 10, 18, None);
    Ok(())
}
