//! Pauses: where copies go, and what the collector replies.

ghost use Rattle.std.specs.Prelude.{◌≡◌, ◌<◌};

use crate::steps::{act, collect, register};
use heap_steps::{Action, CollectorStep, Counts, Reply};
use heap_words::addr::Addr;
use heap_words::config::{Config, Format};
use std::alloc::Global;
use std::process::Abort;
use std::test::Fail;
use step_core::Core;

/// A mutator's action, a step of the collector with its reply, or where the tile of a card's first word starts.
#[derive(Clone, Copy)]
pub(crate) enum Line {
    Act(Action),
    Collect(CollectorStep, Reply),
    FirstTile(u32, Option<u32>),
}

pub(crate) fn make(to: u32, pointers: u32, values: u32) -> Line {
    Line::Act(Action::New {
        to: register(to),
        counts: Counts { pointers, values },
    })
}

pub(crate) fn get(to: u32, object: u32, field: u32) -> Line {
    Line::Act(Action::Get {
        to: register(to),
        object: register(object),
        field,
    })
}

pub(crate) fn put(object: u32, field: u32, value: u32) -> Line {
    Line::Act(Action::Put {
        object: register(object),
        field,
        value: Some(register(value)),
    })
}

fn put_nil(object: u32, field: u32) -> Line {
    Line::Act(Action::Put {
        object: register(object),
        field,
        value: None,
    })
}

pub(crate) fn forget(number: u32) -> Line {
    Line::Act(Action::Drop {
        register: register(number),
    })
}

pub(crate) fn begin() -> Line {
    Line::Collect(CollectorStep::Begin, Reply::Done)
}

pub(crate) fn remark(marked: u32) -> Line {
    Line::Collect(CollectorStep::Remark, Reply::Marked(marked))
}

pub(crate) fn cleanup(reclaimed: u32) -> Line {
    Line::Collect(CollectorStep::Cleanup, Reply::Reclaimed(reclaimed))
}

pub(crate) fn pause(budget: u32, regions: u32, words: u32) -> Line {
    Line::Collect(
        CollectorStep::Pause(budget),
        Reply::Moved { regions, words },
    )
}

pub(crate) fn refine(cards: u32, refined: u32) -> Line {
    Line::Collect(CollectorStep::Refine(cards), Reply::Refined(refined))
}

/// Where the tile of a card's first word starts, none above the region's top.
fn first_tile(core: &Core, card: u32) -> Option<u32> {
    let table = core.table();
    table.law();
    let words = table.region_count() * table.words_per_region();
    if words / 8 <= card {
        return None;
    }
    match table.first_tile(Addr::new(card * 8)) {
        Some(at) => Some(at.word()),
        None => None,
    }
}

/// Where the object starts that a register of mutator 0 names.
fn place_of(core: &Core, number: u32) -> Option<u32> {
    let place = core.globals() as usize + number as usize;
    let roots = core.roots();
    if roots.len() <= place {
        return None;
    }
    roots.get(place).map(|at| at.word())
}

/// Does the lines with mutator 0, and compares the collector's replies; then each register's object is at its place.
pub(crate) fn check(
    rt: &impl Abort,
    alloc: Global,
    regions: u32,
    buffer: u32,
    lines: &[Line],
    places: &[Option<u32>; 8],
) -> Result<(), Fail> {
    let config = Config {
        format: Format::V1,
        regions,
        words: 16,
        buffer,
        mutators: 1,
        first_name: 0,
    };
    let Ok(mut core) = Core::new(alloc, &config) else {
        return Err(Fail::from("a core"));
    };
    for line in lines {
        match line {
            Line::Act(action) => assert!(rt; act(&mut core, 0, *action).is_some()),
            Line::Collect(step, reply) => assert_eq!(rt; collect(&mut core, *step), *reply),
            Line::FirstTile(card, at) => assert_eq!(rt; first_tile(&core, *card), *at),
        }
    }
    for number in 0..8u32 {
        assert_eq!(rt;
            place_of(&core, number),
            places[number as usize],
            "r{number}"
        );
    }
    Ok(())
}

/// The copies go to region 1: what the roots name, by register, and then what these name.
#[test]
fn copies_breadth_first(rt: HostRuntime) -> Result<(), Fail> {
    let lines = [
        make(0, 1, 0),
        make(1, 0, 1),
        put(0, 0, 1),
        forget(1),
        begin(),
        get(1, 0, 0),
        make(2, 1, 0),
        put(2, 0, 1),
        put_nil(0, 0),
        forget(1),
        remark(2),
        pause(16, 1, 9),
        get(1, 2, 0),
    ];
    let places = [Some(16), Some(22), Some(19), None, None, None, None, None];
    check(&rt, rt.alloc(), 4, 8, &lines, &places)
}

/// While marking runs two regions are evacuated, whose objects are all new; what isn't reached stays behind, and the copied
/// field that leads back to region 0 makes its card dirty.
#[test]
fn copies_while_marking(rt: HostRuntime) -> Result<(), Fail> {
    let lines = [
        make(0, 1, 0),
        make(1, 0, 1),
        put(0, 0, 1),
        forget(1),
        begin(),
        make(1, 2, 2),
        make(2, 2, 2),
        make(3, 2, 2),
        make(4, 2, 2),
        get(5, 0, 0),
        put(4, 0, 5),
        put_nil(0, 0),
        forget(3),
        pause(100, 2, 12),
        refine(5, 1),
        remark(2),
        get(6, 4, 0),
    ];
    let places = [
        Some(0),
        Some(8),
        Some(48),
        None,
        Some(54),
        Some(4),
        Some(4),
        None,
    ];
    check(&rt, rt.alloc(), 6, 4, &lines, &places)
}

/// A field outside the set names the copy, and its card is dirty again.
#[test]
fn updates_a_field_outside(rt: HostRuntime) -> Result<(), Fail> {
    let lines = [
        make(0, 4, 2),
        make(1, 3, 3),
        make(2, 2, 2),
        put(0, 0, 2),
        forget(2),
        refine(5, 0),
        pause(100, 1, 6),
        get(2, 0, 0),
        refine(5, 1),
    ];
    let places = [Some(0), Some(8), Some(32), None, None, None, None, None];
    check(&rt, rt.alloc(), 4, 4, &lines, &places)
}

/// A dead object's pointer isn't followed, whatever is now where it leads. The cards know their first tiles.
#[test]
fn follows_no_dead_object(rt: HostRuntime) -> Result<(), Fail> {
    let lines = [
        make(0, 4, 2),
        make(1, 1, 0),
        make(2, 1, 1),
        make(3, 2, 2),
        make(4, 4, 2),
        Line::FirstTile(0, Some(0)),
        Line::FirstTile(1, Some(8)),
        Line::FirstTile(2, Some(16)),
        Line::FirstTile(3, Some(22)),
        Line::FirstTile(4, None),
        put(1, 0, 4),
        make(5, 4, 2),
        forget(1),
        forget(3),
        forget(4),
        begin(),
        remark(3),
        cleanup(1),
        make(6, 4, 2),
        make(7, 4, 2),
        pause(100, 1, 8),
        Line::FirstTile(6, Some(48)),
        Line::FirstTile(7, None),
    ];
    let places = [
        Some(0),
        None,
        Some(12),
        None,
        None,
        Some(32),
        Some(40),
        Some(48),
    ];
    check(&rt, rt.alloc(), 4, 4, &lines, &places)
}

/// A pause gives regions back to a full heap: new objects find a place again.
#[test]
fn makes_room(rt: HostRuntime) -> Result<(), Fail> {
    let lines = [
        make(0, 3, 3),
        make(1, 3, 3),
        make(2, 3, 3),
        make(2, 3, 3),
        make(3, 3, 3),
        make(3, 3, 3),
        forget(1),
        begin(),
        remark(3),
        pause(100, 1, 8),
        make(4, 3, 3),
        make(5, 3, 3),
    ];
    let places = [
        Some(48),
        None,
        Some(24),
        Some(40),
        Some(0),
        Some(8),
        None,
        None,
    ];
    check(&rt, rt.alloc(), 4, 8, &lines, &places)
}
