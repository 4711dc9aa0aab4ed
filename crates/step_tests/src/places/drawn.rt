//! Sizes of heaps and steps, drawn at random.

ghost use Rattle.std.specs.Prelude.{◌<◌};

use heap_steps::{Action, CollectorStep, Counts, GlobalRoot, Register};
use heap_words::config::{Config, Format};
use rand_core::utils::NextWord;
use rand_pcg::Lcg64Xsh32;

pub(crate) fn below(draw: &mut Lcg64Xsh32, limit: u32) -> u32
    requires { 0 < limit }
    ensures { result < limit }
{
    draw.next_word() % limit
}

/// Few registers, so that objects are shared and lost.
fn register(draw: &mut Lcg64Xsh32) -> Register {
    Register {
        number: below(draw, 4),
    }
}

fn global(draw: &mut Lcg64Xsh32) -> GlobalRoot {
    GlobalRoot {
        number: below(draw, 3),
    }
}

fn stored(draw: &mut Lcg64Xsh32) -> Option<Register> {
    if below(draw, 9) == 0 {
        None
    } else {
        Some(register(draw))
    }
}

/// Four fields at most, and now and then so many that the last ones are after the first 16 words.
fn pointers(draw: &mut Lcg64Xsh32) -> u32 {
    if below(draw, 14) == 0 {
        16 + below(draw, 5)
    } else {
        below(draw, 5)
    }
}

/// Few data words, where an object has few fields; up to 23 where it has more, so that it is humongous mostly.
fn counts(draw: &mut Lcg64Xsh32, pointers: u32) -> Counts {
    let most = if pointers < 5 { 3 } else { 24 };
    Counts {
        pointers,
        values: below(draw, most),
    }
}

/// One to four weak slots.
fn weaks(draw: &mut Lcg64Xsh32) -> u8
    ensures { 0 < result }
{
    1 + below(draw, 4) as u8
}

/// One of the first fields, or one of the last of an object that has many.
fn field(draw: &mut Lcg64Xsh32) -> u32 {
    if below(draw, 6) == 0 {
        14 + below(draw, 6)
    } else {
        below(draw, 3)
    }
}

/// A step on a field of an object: mostly a store.
fn access(draw: &mut Lcg64Xsh32) -> Action {
    let object = register(draw);
    let field = field(draw);
    match below(draw, 11) {
        0..=1 => Action::Get {
            to: register(draw),
            object,
            field,
        },
        2 => Action::Read { object, field },
        3 => Action::Write {
            object,
            field,
            value: u64::from(below(draw, 100)),
        },
        4 => Action::Shape { object },
        _ => Action::Put {
            object,
            field,
            value: stored(draw),
        },
    }
}

/// A step on a weak slot of an object: a reading, a store, or how many there are.
fn weak_access(draw: &mut Lcg64Xsh32) -> Action {
    let object = register(draw);
    let slot = below(draw, 3);
    match below(draw, 9) {
        0 => Action::Weaks { object },
        1..=4 => Action::GetWeak {
            to: register(draw),
            object,
            slot,
        },
        _ => Action::PutWeak {
            object,
            slot,
            value: stored(draw),
        },
    }
}

/// An object with so many pointers is made, each third time with weak slots.
fn made(draw: &mut Lcg64Xsh32, to: Register, pointers: u32) -> Action {
    let counts = counts(draw, pointers);
    if below(draw, 3) == 0 {
        Action::NewWeak {
            to,
            counts,
            weaks: weaks(draw),
        }
    } else {
        Action::New { to, counts }
    }
}

fn new(draw: &mut Lcg64Xsh32) -> Action {
    let to = register(draw);
    let pointers = pointers(draw);
    made(draw, to, pointers)
}

/// An action of a mutator.
pub(crate) fn action(draw: &mut Lcg64Xsh32) -> Action {
    match below(draw, 26) {
        0..=5 => new(draw),
        6 => Action::Move {
            to: register(draw),
            from: register(draw),
        },
        7 => Action::Drop {
            register: register(draw),
        },
        8 => Action::Load {
            to: register(draw),
            from: global(draw),
        },
        9 => Action::Save {
            to: global(draw),
            from: register(draw),
        },
        10..=15 => weak_access(draw),
        _ => access(draw),
    }
}

/// A field or a weak slot of a register's object takes what another holds.
fn linked(draw: &mut Lcg64Xsh32, value: Register) -> Action {
    let object = register(draw);
    if below(draw, 3) == 0 {
        Action::PutWeak {
            object,
            slot: below(draw, 2),
            value: Some(value),
        }
    } else {
        Action::Put {
            object,
            field: field(draw),
            value: Some(value),
        }
    }
}

/// An object is made, one of its fields takes what a register holds, and a register's object takes the new one, also into a weak
/// slot.
pub(crate) fn growth(draw: &mut Lcg64Xsh32) -> [Action; 3] {
    let to = register(draw);
    let pointers = pointers(draw).max(1);
    let made = made(draw, to, pointers);
    let last = below(draw, pointers.min(2));
    let first = Action::Put {
        object: to,
        field: pointers.saturating_sub(1 + last),
        value: Some(register(draw)),
    };
    [made, first, linked(draw, to)]
}

/// An object is made with weak slots, one of them takes what a register holds, and the register takes the object.
pub(crate) fn weak_growth(draw: &mut Lcg64Xsh32) -> [Action; 3] {
    let holder = register(draw);
    let held = register(draw);
    let pointers = pointers(draw);
    let made = Action::NewWeak {
        to: holder,
        counts: counts(draw, pointers),
        weaks: weaks(draw),
    };
    let stored = Action::PutWeak {
        object: holder,
        slot: 0,
        value: Some(held),
    };
    let moved = Action::Move {
        to: held,
        from: holder,
    };
    [made, stored, moved]
}

/// A reading of one of the first weak slots.
fn weak_reading(draw: &mut Lcg64Xsh32) -> Action {
    Action::GetWeak {
        to: register(draw),
        object: register(draw),
        slot: below(draw, 2),
    }
}

/// Some readings of weak slots.
pub(crate) fn weak_readings(draw: &mut Lcg64Xsh32) -> [Action; 3] {
    let first = weak_reading(draw);
    let second = weak_reading(draw);
    [first, second, weak_reading(draw)]
}

/// Nothing, a few words, many, or more than any heap has.
fn budget(draw: &mut Lcg64Xsh32) -> u32 {
    match below(draw, 6) {
        0 => below(draw, 2) * below(draw, 8),
        1..=3 => below(draw, 24),
        4 => below(draw, 200),
        _ => u32::MAX - below(draw, 2),
    }
}

pub(crate) fn collection(draw: &mut Lcg64Xsh32) -> CollectorStep {
    match below(draw, 12) {
        0..=1 => CollectorStep::Begin,
        2 => CollectorStep::Mark(below(draw, 3)),
        3..=4 => CollectorStep::Remark,
        5 => CollectorStep::Cleanup,
        6..=7 => CollectorStep::Refine(below(draw, 5)),
        _ => CollectorStep::Pause(budget(draw)),
    }
}

/// Three to twelve regions of 16 or 32 words, one or two mutators, and either format.
pub(crate) fn sizes(draw: &mut Lcg64Xsh32) -> Config {
    let words = if below(draw, 2) == 0 { 16 } else { 32 };
    let format = match below(draw, 4) {
        0 => Format::V2 { card: 16 },
        1 => Format::V2 { card: words },
        _ => Format::V1,
    };
    Config {
        format,
        regions: 3 + below(draw, 10),
        words,
        buffer: 4 + below(draw, 5),
        mutators: 1 + below(draw, 2),
        first_name: u64::from(below(draw, 2)),
    }
}
