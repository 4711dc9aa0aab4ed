//! Texts of records: each fault with its line, records that are read back, the printed forms, and readers and writers that fail.

use crate::actions::{
    g, get, get_weak, named, new, new_weak, put, put_nil, put_weak, r, read, write,
};
use crate::scripts::CONFIG;
use heap_steps::{Action, Actor, CollectorStep, Event, Op, Record, Refusal, Reply, Step};
use script_text::{
    Kind, LineBuffer, LineFault, NextFault, ReadFault, RecordEvents, RecordLines, WatchedReader,
    WatchedWriter, WriteFault, parse_record, read_text, write_record,
};
use std::alloc::{AllocError, Global};
use std::io;
use std::io::{ErrorKind, Read, Write};
use std::process::Abort;
use std::test::Fail;

/// The fault of a record's text; none where it is a record.
fn record_fault_of(alloc: Global, text: &[u8]) -> Option<LineFault> {
    match parse_record(alloc, text) {
        Ok(_) => None,
        Err(fault) => Some(fault),
    }
}

/// The fault of a record's text whose lines are read for a fault alone; none where it is a record.
fn rest_fault_of(text: &[u8]) -> Option<LineFault> {
    match RecordEvents::new(text) {
        Ok(events) => events.check_rest().err(),
        Err(fault) => Some(fault),
    }
}

/// Takes a record's events one by one, to their end or to the first fault.
fn taken_fault_of(rt: &impl Abort, text: &[u8]) -> Option<LineFault> {
    let mut events = match RecordEvents::new(text) {
        Ok(events) => events,
        Err(fault) => return Some(fault),
    };
    for _ in 0..text.len() {
        match events.next_event() {
            Ok(Some(_)) => {}
            Ok(None) => {
                assert_eq!(rt; events.check_rest(), Ok(()));
                return None;
            }
            Err(fault) => {
                assert_eq!(rt; events.next_event(), Err(fault));
                assert_eq!(rt; events.check_rest(), Err(fault));
                return Some(fault);
            }
        }
    }
    None
}

/// The fault of a record's text; none where it is a record. However the text is read, the fault is the same.
fn fault_of(rt: &impl Abort, alloc: Global, text: &[u8]) -> Option<LineFault> {
    let fault = record_fault_of(alloc, text);
    assert_eq!(rt; rest_fault_of(text), fault);
    assert_eq!(rt; taken_fault_of(rt, text), fault);
    fault
}

/// Second lines of records whose count is faulty.
const BAD_COUNTS: [&str; 5] = [
    "2 0 drop r0 = ok",
    "01 0 drop r0 = ok",
    "0 0 drop r0 = ok",
    "",
    "2 x drop r0 = ok",
];

/// Second lines of records whose actor is faulty.
const BAD_ACTORS: [&str; 8] = [
    "1",
    "1 = ok",
    "1 1 drop r0 = ok",
    "1 m8 mark 4 = ok",
    "1 m00 mark 4 = ok",
    "1 f8 refine 2 = refined 0",
    "1 f refine 2 = refined 0",
    "1 gcc mark 4 = ok",
];

/// Second lines of records whose step is faulty.
const BAD_STEPS: [&str; 21] = [
    "1 0 drop = ok",
    "1 0 = ok",
    "1 0 drop r0 =ok",
    "1 0 drop r0 =",
    "1 m0 refine 2 = refined 0",
    "1 f0 mark 4 = ok",
    "1 0 put r0 0 nil 1 1 1 1 1 1 = ok",
    "1 0 newweak r0 1 256 1 = #0",
    "1 0 scope r0 = ok",
    "1 0 drop r10 =",
    "1 gc mark = ok",
    "1 gc  mark 4 = ok",
    "1 gc mark 04 = ok",
    "1 gc mark 4 5 = ok",
    "1 gc marks 4 = ok",
    "1 gc begin 1 = ok",
    "1 gc collect = ok",
    "1 gc = ok",
    "1 gc refine 2 =refined 0",
    "1 m0 mark = ok",
    "1 f7 refine 02 = refined 0",
];

/// Second lines of records whose reply is faulty.
const BAD_REPLIES: [&str; 28] = [
    "1 0 newweak r0 1 1 1 = refused 4 TooBig 1",
    "1 0 newweak r0 1 1 1",
    "1 0 drop r0",
    "1 0 drop r0 = ",
    "1 0 drop r0 = ok = ok",
    "1 0 drop r0 = done",
    "1 0 drop r0 = refused 1 NoField",
    "1 0 drop r0 = refused 8 NoMemory",
    "1 0 drop r0 = refused",
    "1 0 drop r0 = #",
    "1 0 drop r0 = #18446744073709551616",
    "1 gc remark = marked 4294967296",
    "1 gc pause 1 = moved 1 4294967296",
    "1 gc pause 1 = moved 1",
    "1 0 shape r0 = 4294967296 0",
    "1 gc remark = marked 00",
    "1 0 write r0 0 0 = moved 1 1 1",
    "1 gc refine 2 = refined",
    "1 gc refine 2 = refined 00",
    "1 gc refine 2 = refined 0 0",
    "1 gc refine 2 = refined 4294967296",
    "1 gc cleanup = reclaimed x",
    "1 gc pause 1 = moved 1  1",
    "1 gc begin = okay",
    "1 gc begin = refused 7 MarkRunning",
    "1 gc begin = refused 6 NotMarking",
    "1 gc begin = refused 06 MarkRunning",
    "1 m0 mark 4 = marked 1 2",
];

/// Compares the faults of records with these second lines.
fn check_record_faults(
    rt: &impl Abort,
    alloc: Global,
    lines: &[&str],
    kind: Kind,
) -> Result<(), AllocError> {
    for line in lines {
        let text = format!(in alloc; "heap 4 16 8 1 0\n{line}\n")?;
        let fault = Some(LineFault { line: 2, kind });
        assert_eq!(rt; fault_of(rt, alloc, text.as_bytes()), fault, "{line}");
    }
    Ok(())
}

/// Faults after good events, each with its line: in the middle, in the last line, of a line that is cut, and the first of two.
const LATE_FAULTS: [(&str, u64, Kind); 5] = [
    (
        "heap 4 16 8 1 0\n1 0 drop r0 = ok\n2 0 drop r0 = done\n3 0 drop r0 = ok\n",
        3,
        Kind::BadReply,
    ),
    (
        "heap 4 16 8 1 0\n1 0 drop r0 = ok\n2 gc begin = ok\n4 0 drop r0 = ok\n",
        4,
        Kind::BadCount,
    ),
    ("heap 4 16 8 1 0\n1 0 drop r0 = ok\n2", 3, Kind::Cut),
    (
        "heap 4 16 8 1 0\n1 0 drop r0 = ok\n2 0 drop r8 = ok\n3 0 drop r0 = o",
        3,
        Kind::BadStep,
    ),
    (
        "heap 4 16 8 1 0\n1 0 drop r0 = ok\n\n3 1 drop r0 = ok\n",
        3,
        Kind::BadCount,
    ),
];

#[test]
fn late_faults(rt: HostRuntime) -> Result<(), Fail> {
    for (text, line, kind) in LATE_FAULTS {
        let fault = Some(LineFault { line, kind });
        assert_eq!(rt; fault_of(&rt, rt.alloc(), text.as_bytes()), fault, "{text}");
    }
    Ok(())
}

#[test]
fn record_faults(rt: HostRuntime) -> Result<(), Fail> {
    let alloc = rt.alloc();
    check_record_faults(&rt, alloc, &BAD_COUNTS, Kind::BadCount)?;
    check_record_faults(&rt, alloc, &BAD_ACTORS, Kind::BadActor)?;
    check_record_faults(&rt, alloc, &BAD_STEPS, Kind::BadStep)?;
    check_record_faults(&rt, alloc, &BAD_REPLIES, Kind::BadReply)?;
    Ok(())
}

#[test]
fn an_empty_record(rt: HostRuntime) -> Result<(), Fail> {
    let (line, kind) = (1, Kind::BadHeap);
    let fault = Some(LineFault { line, kind });
    assert_eq!(rt; fault_of(&rt, rt.alloc(), b""), fault);
    Ok(())
}

/// Records, each with its number of events.
const RECORDS: [(&str, usize); 12] = [
    ("heap 4 16 8 1 0\n", 0),
    (
        "heap 4 16 8 1 0\n1 0 new r0 1 1 = #0\n2 0 read r0 0 = 0\n3 0 get r1 r0 0 = nil\n",
        3,
    ),
    (
        "heap 4 16 8 2 0\n1 0 new r0 0 1 = #0\n2 0 save g0 r0 = ok\n3 1 load r1 g0 = #0\n4 1 write r1 0 2 = ok\n\
         5 0 write r0 0 1 = ok\n6 1 read r1 0 = 1\n",
        6,
    ),
    (
        "heap 4 16 8 1 0\n1 0 new r0 0 1 = refused 3 Full\n2 0 read r0 0 = refused 1 Nil\n3 gc remark = marked 99\n",
        3,
    ),
    ("heap 4 16 8 1 0\n1 0 drop r0 = nil\n", 1),
    (
        "heap 4 16 8 1 0\n1 0 newweak r0 0 1 0 = #0\n2 0 new r1 0 1 = #1\n3 0 putweak r0 0 r1 = ok\n4 0 drop r1 = ok\n\
         5 gc begin = ok\n6 gc remark = marked 1\n7 0 getweak r1 r0 0 = nil\n\
         8 0 putweak r0 1 nil = refused 2 NoField\n9 0 weaks r0 = 1\n\
         10 0 newweak r7 4294967295 255 4294967295 = refused 4 TooBig\n",
        10,
    ),
    (
        "heap 4 16 8 1 0\n1 m7 mark 9 = refused 7 NotMarking\n2 f7 refine 1 = refined 5\n",
        2,
    ),
    (
        "heap 4 16 8 1 0\n1 gc begin = reclaimed 7\n2 gc begin = refused 6 MarkRunning\n3 gc cleanup = moved 1 4294967295\n\
         4 gc pause 0 = 4294967295 0\n",
        4,
    ),
    (
        "heap 4 16 8 1 0\n1 gc begin = ok\n2 gc mark 4294967295 = ok\n3 m0 mark 4 = ok\n4 gc remark = marked 12\n\
         5 gc cleanup = reclaimed 3\n6 gc refine 10 = refined 4294967295\n7 f7 refine 1 = refined 0\n\
         8 gc pause 100 = moved 2 31\n9 gc cleanup = refused 6 MarkRunning\n10 gc mark 0 = refused 7 NotMarking\n\
         11 f0 refine 3 = refused 6 MarkRunning\n12 gc pause 7 = refused 3 Full\n13 gc remark = 5\n",
        13,
    ),
    (
        "heap 4 16 8 1 18446744073709551614\n1 0 new r7 0 0 = #18446744073709551614\n\
         2 0 new r7 0 0 = refused 5 NamesSpent\n3 0 new r7 31 32 = refused 4 TooBig\n\
         4 0 put r7 0 nil = refused 2 NoField\n5 0 read r7 0 = 18446744073709551615\n",
        5,
    ),
    (
        "heap 6 16 4 1 0\n1 0 new r0 1 0 = #0\n2 0 new r1 0 1 = #1\n3 0 write r1 0 5 = ok\n4 0 put r0 0 r1 = ok\n\
         5 0 drop r1 = ok\n6 gc begin = ok\n7 0 new r1 2 2 = #2\n8 0 new r2 2 2 = #3\n9 0 new r3 2 2 = #4\n\
         10 0 new r4 2 2 = #5\n11 0 get r5 r0 0 = #1\n12 0 put r4 0 r5 = ok\n13 0 put r0 0 nil = ok\n\
         14 0 drop r5 = ok\n15 0 drop r3 = ok\n16 gc pause 100 = moved 2 12\n17 gc refine 5 = refined 1\n\
         18 gc mark 10 = ok\n19 gc remark = marked 2\n20 0 get r6 r4 0 = #1\n21 0 read r6 0 = 5\n",
        21,
    ),
    (
        "heap3 4 16 8 1 0 8 65536 65536\n1 0 new r65535 0 1 = #0\n2 0 save g65535 r65535 = ok\n3 0 scope r9 = ok\n\
         4 0 load r10 g65535 = #0\n5 0 write r10 0 7 = ok\n",
        5,
    ),
];

/// Reads a record of so many events, and compares what is written of it.
fn check_read_back(
    rt: &impl Abort,
    alloc: Global,
    text: &str,
    events: usize,
) -> Result<(), AllocError> {
    let history = parse_record(alloc, text.as_bytes());
    assert!(rt; history.is_ok(), "{text}");
    let Ok(history) = history else {
        return Ok(());
    };
    assert_eq!(rt; history.events().len(), events, "{text}");
    let mut writer = WatchedWriter::new(Vec::new(alloc));
    assert_eq!(rt;
        write_record(alloc, &history, &mut writer),
        Ok(()),
        "{text}"
    );
    assert_eq!(rt; writer.into_inner().as_slice(), text.as_bytes(), "{text}");
    Ok(())
}

#[test]
fn records_are_read_back(rt: HostRuntime) -> Result<(), Fail> {
    for (text, events) in RECORDS {
        check_read_back(&rt, rt.alloc(), text, events)?;
    }
    Ok(())
}

/// Lines of scripts, from the shortest to more than 16 bytes, each with a reply and what is written of them.
const TOLD: [(&str, Reply, &str); 6] = [
    ("gc begin", Reply::Done, "1 gc begin = ok"),
    ("0 drop r1", Reply::Done, "1 0 drop r1 = ok"),
    ("1 get r7 r0 0", Reply::Named(None), "1 1 get r7 r0 0 = nil"),
    (
        "0 put r1 10 r7",
        Reply::Refused(Refusal::Nil),
        "1 0 put r1 10 r7 = refused 1 Nil",
    ),
    (
        "0 new r10 12 340",
        Reply::Named(Some(5)),
        "1 0 new r10 12 340 = #5",
    ),
    (
        "1 write r0 0 18446744073709551615",
        Reply::Done,
        "1 1 write r0 0 18446744073709551615 = ok",
    ),
];

/// Writes the record of the one event that a line and a reply tell, and compares its line.
fn check_told(
    rt: &impl Abort,
    alloc: Global,
    line: &str,
    reply: Reply,
    told: &str,
) -> Result<(), Fail> {
    let line = line.as_bytes();
    if line.len() > 120 {
        return Err(Fail::from("no script has such a line"));
    }
    let text = format!(in alloc; "heap 4 16 8 2 0\n{told}\n")?;
    let mut writer = WatchedWriter::new(Vec::new(alloc));
    let mut lines = RecordLines::new(alloc, &CONFIG)?;
    assert_eq!(rt; lines.put_line(line, reply, &mut writer), Ok(()));
    assert_eq!(rt; lines.finish(&mut writer), Ok(()));
    assert_eq!(rt; writer.into_inner().as_slice(), text.as_bytes());
    Ok(())
}

#[test]
fn told_lines(rt: HostRuntime) -> Result<(), Fail> {
    for (line, reply, told) in TOLD {
        check_told(&rt, rt.alloc(), line, reply, told)?;
    }
    Ok(())
}

/// Takes the events of a record one by one, the usual ones as such: they are these. No event is taken where none is left.
fn check_usual(rt: &impl Abort, text: &[u8], wanted: &[Event]) -> Result<(), Fail> {
    let Ok(mut events) = RecordEvents::new(text) else {
        return Err(Fail::from("this is a record"));
    };
    for event in wanted {
        let taken = match events.next_usual() {
            Some(taken) => Ok(Some(taken)),
            None => events.next_event(),
        };
        assert_eq!(rt; taken, Ok(Some(*event)));
    }
    assert_eq!(rt; events.next_usual(), None);
    assert_eq!(rt; events.next_event(), Ok(None));
    Ok(())
}

/// Takes the events of a record one by one, and compares them with those that are read at once.
fn check_taken(rt: &impl Abort, alloc: Global, text: &str) -> Result<(), Fail> {
    let Ok(history) = parse_record(alloc, text.as_bytes()) else {
        return Err(Fail::from("this is a record"));
    };
    let Ok(mut events) = RecordEvents::new(text.as_bytes()) else {
        return Err(Fail::from("this is a record"));
    };
    assert_eq!(rt; events.config(), history.config(), "{text}");
    for event in history.events() {
        assert_eq!(rt; events.check_rest(), Ok(()), "{text}");
        assert_eq!(rt; events.next_event(), Ok(Some(*event)), "{text}");
    }
    for _ in 0..2 {
        assert_eq!(rt; events.next_event(), Ok(None), "{text}");
    }
    check_usual(rt, text.as_bytes(), history.events())
}

#[test]
fn events_are_taken(rt: HostRuntime) -> Result<(), Fail> {
    for (text, _) in RECORDS {
        check_taken(&rt, rt.alloc(), text)?;
    }
    Ok(())
}

#[test]
fn beginnings_of_records(rt: HostRuntime) -> Result<(), Fail> {
    let alloc = rt.alloc();
    for (text, _) in RECORDS {
        let text = text.as_bytes();
        let mut line = 1u64;
        for end in 1..text.len() {
            let fault = fault_of(&rt, alloc, &text[..end]);
            if text[end - 1] == b'\n' {
                line = line.saturating_add(1);
                assert_eq!(rt; fault, None, "{end}");
            } else {
                let cut = LineFault {
                    line,
                    kind: Kind::Cut,
                };
                assert_eq!(rt; fault, Some(cut), "{end}");
            }
        }
    }
    Ok(())
}

/// Adds an event, where the record's sizes allow it.
fn push(record: &mut Record, event: Event) -> Result<(), Fail> {
    if !event.is_in(&record.config()) {
        return Err(Fail::from("the sizes don't allow it"));
    }
    record.push(event)?;
    Ok(())
}

fn push_op(record: &mut Record, mutator: u32, action: Action, reply: Reply) -> Result<(), Fail> {
    let event = Event {
        actor: Actor::Mutator(mutator),
        step: Step::Mutator(Op { mutator, action }),
        reply,
    };
    push(record, event)
}

fn push_collector(
    record: &mut Record,
    actor: Actor,
    step: CollectorStep,
    reply: Reply,
) -> Result<(), Fail> {
    let event = Event {
        actor,
        step: Step::Collector(step),
        reply,
    };
    push(record, event)
}

/// Each form of a mutator's action, and each form of its reply.
fn push_ops(record: &mut Record) -> Result<(), Fail> {
    let shape = Reply::Shape {
        pointers: 5,
        values: 60,
    };
    let copy = Action::Move {
        to: r(0),
        from: r(7),
    };
    let load = Action::Load {
        to: r(0),
        from: g(0),
    };
    let save = Action::Save {
        to: g(15),
        from: r(7),
    };
    let ops = [
        (new(0, 4, 4_294_967_295), named(18_446_744_073_709_551_615)),
        (get(7, 0, 10), Reply::Named(None)),
        (put_nil(0, 3), Reply::Done),
        (put(0, 3, 7), Reply::Refused(Refusal::Nil)),
        (read(7, 0), Reply::Word(0)),
        (
            write(7, 1, 18_446_744_073_709_551_615),
            Reply::Refused(Refusal::NoField),
        ),
        (copy, Reply::Refused(Refusal::Full)),
        (
            Action::Drop { register: r(7) },
            Reply::Refused(Refusal::TooBig),
        ),
        (load, Reply::Refused(Refusal::NamesSpent)),
        (save, Reply::Word(10_000_000_000_000_000_000)),
        (Action::Shape { object: r(7) }, shape),
    ];
    for (action, reply) in ops {
        push_op(record, 1, action, reply)?;
    }
    Ok(())
}

/// The same of actions on weak slots.
fn push_weak_ops(record: &mut Record) -> Result<(), Fail> {
    let too_big = Reply::Refused(Refusal::TooBig);
    let nil = Action::PutWeak {
        object: r(7),
        slot: 3,
        value: None,
    };
    let ops = [
        (new_weak(7, 4_294_967_295, 255, 0), too_big),
        (get_weak(7, 0, 254), named(0)),
        (nil, Reply::Done),
        (put_weak(7, 0, 0), Reply::Refused(Refusal::Nil)),
        (Action::Weaks { object: r(0) }, Reply::Word(255)),
    ];
    for (action, reply) in ops {
        push_op(record, 1, action, reply)?;
    }
    Ok(())
}

/// Each step of the collector, each form of its reply, and each actor.
fn push_collections(record: &mut Record) -> Result<(), Fail> {
    let moved = Reply::Moved {
        regions: 2,
        words: 31,
    };
    let collections = [
        (CollectorStep::Begin, Reply::Refused(Refusal::MarkRunning)),
        (CollectorStep::Mark(9), Reply::Refused(Refusal::NotMarking)),
        (CollectorStep::Remark, Reply::Marked(7)),
        (CollectorStep::Cleanup, Reply::Reclaimed(99)),
        (CollectorStep::Refine(100), Reply::Refined(1000)),
        (CollectorStep::Pause(0), moved),
    ];
    for (step, reply) in collections {
        push_collector(record, Actor::Collector, step, reply)?;
    }
    push_collector(
        record,
        Actor::Marker(0),
        CollectorStep::Mark(4),
        Reply::Done,
    )?;
    push_collector(
        record,
        Actor::Refiner(7),
        CollectorStep::Refine(1),
        Reply::Refined(0),
    )
}

/// A record with each form of step, reply and actor.
fn many_forms(alloc: Global) -> Result<Record, Fail> {
    let mut record = Record::new(alloc, CONFIG);
    push_ops(&mut record)?;
    push_weak_ops(&mut record)?;
    push_collections(&mut record)?;
    Ok(record)
}

const MANY_FORMS: &str = "heap 4 16 8 2 0
1 1 new r0 4 4294967295 = #18446744073709551615
2 1 get r7 r0 10 = nil
3 1 put r0 3 nil = ok
4 1 put r0 3 r7 = refused 1 Nil
5 1 read r7 0 = 0
6 1 write r7 1 18446744073709551615 = refused 2 NoField
7 1 move r0 r7 = refused 3 Full
8 1 drop r7 = refused 4 TooBig
9 1 load r0 g0 = refused 5 NamesSpent
10 1 save g15 r7 = 10000000000000000000
11 1 shape r7 = 5 60
12 1 newweak r7 4294967295 255 0 = refused 4 TooBig
13 1 getweak r7 r0 254 = #0
14 1 putweak r7 3 nil = ok
15 1 putweak r7 0 r0 = refused 1 Nil
16 1 weaks r0 = 255
17 gc begin = refused 6 MarkRunning
18 gc mark 9 = refused 7 NotMarking
19 gc remark = marked 7
20 gc cleanup = reclaimed 99
21 gc refine 100 = refined 1000
22 gc pause 0 = moved 2 31
23 m0 mark 4 = ok
24 f7 refine 1 = refined 0
";

/// What a writer does with its last byte taken.
#[derive(Clone, Copy, Debug, PartialEq, Eq)]
enum Then {
    Fails,
    TakesNone,
}

/// A writer that takes a byte at a time, and so many in all.
#[derive(Drop)]
struct Slow {
    taken: Vec<u8>,
    room: usize,
    then: Then,
}

impl Write for Slow {
    fn write(&mut self, buf: &[u8]) -> io::Result<usize> {
        if buf.is_empty() {
            return Ok(0);
        }
        if self.taken.len() < self.room {
            self.taken.push(buf[0])?;
            return Ok(1);
        }
        match self.then {
            Then::Fails => Err(io::Error::from(ErrorKind::Other)),
            Then::TakesNone => Ok(0),
        }
    }

    fn flush(&mut self) -> io::Result<()> {
        Ok(())
    }
}

#[test]
fn printed_forms(rt: HostRuntime) -> Result<(), Fail> {
    let alloc = rt.alloc();
    let record = many_forms(alloc)?;
    let mut writer = WatchedWriter::new(Vec::new(alloc));
    assert_eq!(rt; write_record(alloc, &record, &mut writer), Ok(()));
    let written = writer.into_inner();
    assert_eq!(rt; written.as_slice(), MANY_FORMS.as_bytes());
    Ok(())
}

#[test]
fn slow_writers(rt: HostRuntime) -> Result<(), Fail> {
    let alloc = rt.alloc();
    let record = many_forms(alloc)?;
    let text = MANY_FORMS.as_bytes();
    for then in [Then::Fails, Then::TakesNone] {
        for room in [0, 1, 15, 16, 17, text.len() - 1, text.len()] {
            let slow = Slow {
                taken: Vec::new(alloc),
                room,
                then,
            };
            let mut writer = WatchedWriter::new(slow);
            let result = write_record(alloc, &record, &mut writer);
            if room < text.len() {
                assert_eq!(rt; result, Err(WriteFault::CannotWrite), "{room}");
            } else {
                assert_eq!(rt; result, Ok(()));
            }
            assert_eq!(rt; writer.into_inner().taken.as_slice(), &text[..room]);
        }
    }
    Ok(())
}

#[test]
fn long_record(rt: HostRuntime) -> Result<(), Fail> {
    let alloc = rt.alloc();
    let mut record = Record::new(alloc, CONFIG);
    let mut text = String::from_str(alloc, "heap 4 16 8 2 0\n")?;
    for count in 1..2001u64 {
        push_op(&mut record, 0, read(3, 5), Reply::Word(count))?;
        write!(text, "{count} 0 read r3 5 = {count}\n")?;
    }
    let mut writer = WatchedWriter::new(Vec::new(alloc));
    assert_eq!(rt; write_record(alloc, &record, &mut writer), Ok(()));
    let written = writer.into_inner();
    assert!(rt; written.as_slice() == text.as_bytes());
    Ok(())
}

/// A reader that gives a byte at a time, so many in all, and then an error or the end.
#[derive(Drop)]
struct Drip {
    left: usize,
    then: Option<ErrorKind>,
}

impl Read for Drip {
    fn read(&mut self, buf: &mut [u8]) -> io::Result<usize> {
        if buf.is_empty() {
            return Ok(0);
        }
        if self.left > 0 {
            self.left -= 1;
            buf[0] = b'a';
            return Ok(1);
        }
        match self.then {
            Some(kind) => Err(io::Error::from(kind)),
            None => Ok(0),
        }
    }
}

#[test]
fn readers(rt: HostRuntime) -> Result<(), Fail> {
    let alloc = rt.alloc();
    let whole = Drip {
        left: 5,
        then: None,
    };
    let text = read_text(alloc, &mut WatchedReader::new(whole));
    let Ok(bytes) = text else {
        return Err(Fail::from("all bytes are read"));
    };
    assert_eq!(rt; bytes.as_slice(), b"aaaaa".as_slice());
    for (kind, fault) in [
        (ErrorKind::Other, ReadFault::CannotRead),
        (ErrorKind::OutOfMemory, ReadFault::NoMemory),
    ] {
        let broken = Drip {
            left: 3,
            then: Some(kind),
        };
        match read_text(alloc, &mut WatchedReader::new(broken)) {
            Ok(_) => return Err(Fail::from("the read fails")),
            Err(got) => assert_eq!(rt; got, fault),
        }
    }
    Ok(())
}

/// A reader that gives a byte of a text at a time.
#[derive(Drop)]
struct Bytes<'a> {
    rest: &'a [u8],
}

impl Read for Bytes<'_> {
    fn read(&mut self, buf: &mut [u8]) -> io::Result<usize> {
        let most = buf.len().min(1);
        self.rest.read(&mut buf[..most])
    }
}

/// Each line is taken once it is whole, and a cut last line isn't.
#[test]
fn lines_as_they_come(rt: HostRuntime) -> Result<(), Fail> {
    let rest = b"heap 4 16 8 2 0\n1 0 drop r0 = ok\n2 0 drop r0 = o".as_slice();
    let mut reader = WatchedReader::new(Bytes { rest });
    let mut lines = LineBuffer::new(rt.alloc())?;
    assert_eq!(rt; lines.next_heap(&mut reader), Ok(Some(CONFIG)));
    assert!(rt; matches!(lines.next_event(&mut reader, 1, &CONFIG), Ok(Some(_))));
    assert_eq!(rt; lines.next_event(&mut reader, 2, &CONFIG), Ok(None));
    Ok(())
}

/// A line of more than 120 bytes has no line feed to wait for, and a read that fails is told.
#[test]
fn lines_that_do_not_come(rt: HostRuntime) -> Result<(), Fail> {
    for (left, fault) in [
        (121, NextFault::Line(Kind::LongLine)),
        (120, NextFault::Read(ReadFault::CannotRead)),
    ] {
        let mut reader = WatchedReader::new(Drip {
            left,
            then: Some(ErrorKind::Other),
        });
        let mut lines = LineBuffer::new(rt.alloc())?;
        assert_eq!(rt; lines.next_heap(&mut reader), Err(fault));
    }
    Ok(())
}
