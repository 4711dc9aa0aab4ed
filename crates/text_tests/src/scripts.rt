//! Texts of scripts: one that is read, each fault with its line, and the beginnings of a text.

use heap_steps::{Action, CollectorStep, Counts, Op, Register, Step};
use heap_words::config::{Config, Format};
use script_text::{Kind, LineFault, ReadFault, ScriptSteps, WriteFault, parse};
use std::alloc::Global;
use std::process::Abort;
use std::test::Fail;

/// The sizes of `heap 4 16 8 2 0`.
pub(crate) const CONFIG: Config = Config {
    format: Format::V1,
    regions: 4,
    words: 16,
    buffer: 8,
    mutators: 2,
    first_name: 0,
};

#[test]
fn good_script(rt: HostRuntime) -> Result<(), Fail> {
    let text =
        b"heap 4 16 8 2 0\n0 new r0 1 4294967295\n1 get r7 r0 0\n0 read r1 10\ngc pause 4294967295\n";
    let Ok(plan) = parse(rt.alloc(), text) else {
        return Err(Fail::from("this is a script"));
    };
    assert_eq!(rt; plan.config(), CONFIG);
    let steps = [
        Step::Mutator(Op {
            mutator: 0,
            action: Action::New {
                to: Register { number: 0 },
                counts: Counts {
                    pointers: 1,
                    values: 4_294_967_295,
                },
            },
        }),
        Step::Mutator(Op {
            mutator: 1,
            action: Action::Get {
                to: Register { number: 7 },
                object: Register { number: 0 },
                field: 0,
            },
        }),
        Step::Mutator(Op {
            mutator: 0,
            action: Action::Read {
                object: Register { number: 1 },
                field: 10,
            },
        }),
        Step::Collector(CollectorStep::Pause(4_294_967_295)),
    ];
    assert_eq!(rt; plan.steps(), steps.as_slice());
    let lines = [
        "0 new r0 1 4294967295",
        "1 get r7 r0 0",
        "0 read r1 10",
        "gc pause 4294967295",
    ];
    check_taken(&rt, text, &steps, &lines)
}

/// Takes the steps of a script with these sizes one by one, and compares them and their lines.
fn check_taken(rt: &impl Abort, text: &[u8], steps: &[Step], lines: &[&str]) -> Result<(), Fail> {
    let Ok(mut script) = ScriptSteps::new(text) else {
        return Err(Fail::from("this is a script"));
    };
    assert_eq!(rt; script.config(), CONFIG);
    for (step, line) in steps.iter().zip(lines) {
        let Some(next) = script.next_line() else {
            return Err(Fail::from("a step is left"));
        };
        assert_eq!(rt; next.step, *step);
        assert_eq!(rt; next.line, line.as_bytes());
    }
    for _ in 0..2 {
        assert!(rt; script.next_line().is_none());
    }
    assert_eq!(rt; script.config(), CONFIG);
    Ok(())
}

/// Each step of the collector.
#[test]
fn collections(rt: HostRuntime) -> Result<(), Fail> {
    let text =
        b"heap 4 16 8 2 0\ngc begin\ngc mark 4294967295\ngc remark\ngc cleanup\ngc refine 10\ngc pause 0\n";
    let steps = [
        Step::Collector(CollectorStep::Begin),
        Step::Collector(CollectorStep::Mark(4_294_967_295)),
        Step::Collector(CollectorStep::Remark),
        Step::Collector(CollectorStep::Cleanup),
        Step::Collector(CollectorStep::Refine(10)),
        Step::Collector(CollectorStep::Pause(0)),
    ];
    let Ok(plan) = parse(rt.alloc(), text) else {
        return Err(Fail::from("this is a script"));
    };
    assert_eq!(rt; plan.steps(), steps.as_slice());
    let lines = [
        "gc begin",
        "gc mark 4294967295",
        "gc remark",
        "gc cleanup",
        "gc refine 10",
        "gc pause 0",
    ];
    check_taken(&rt, text, &steps, &lines)
}

#[test]
fn no_steps(rt: HostRuntime) -> Result<(), Fail> {
    check_taken(&rt, b"heap 4 16 8 2 0\n", &[], &[])
}

/// The fault of a text, if its steps are to be taken one by one; none where it is a script.
fn taken_fault_of(text: &[u8]) -> Option<LineFault> {
    match ScriptSteps::new(text) {
        Ok(_) => None,
        Err(fault) => Some(fault),
    }
}

/// The fault of a text; none where it is a script.
fn fault_of(alloc: Global, text: &[u8]) -> Option<LineFault> {
    match parse(alloc, text) {
        Ok(_) => None,
        Err(fault) => Some(fault),
    }
}

/// Faulty texts, each with the line and the kind of its fault.
const FAULTS: [(&str, u64, Kind); 53] = [
    ("", 1, Kind::BadHeap),
    ("\n", 1, Kind::BadHeap),
    ("heap 4 16 8 1 0", 1, Kind::Cut),
    ("heap 4 16 8 1\n", 1, Kind::BadHeap),
    ("heap 4 16 8 1 0 0\n", 1, Kind::BadHeap),
    ("heap 4 16 8 1 0 \n", 1, Kind::BadHeap),
    ("heap 4294967296 16 8 1 0\n", 1, Kind::BadHeap),
    ("heap 4 16 8 1 18446744073709551616\n", 1, Kind::BadHeap),
    ("heap 4 16 8 1 0\n0 new r8 1 1\n", 2, Kind::BadStep),
    ("heap 4 16 8 1 0\n0 new r0 01 1\n", 2, Kind::BadStep),
    ("heap 4 16 8 1 0\n0 new r0 +1 1\n", 2, Kind::BadStep),
    ("heap 4 16 8 1 0\n0 new r0 1 4294967296\n", 2, Kind::BadStep),
    ("heap 4 16 8 1 0\n0 new r0 1 1 1 1 1 1\n", 2, Kind::BadStep),
    ("heap 4 16 8 1 0\n0 newweak r0 1 256 1\n", 2, Kind::BadStep),
    ("heap 4 16 8 1 0\n0 newweak r0 1 1\n", 2, Kind::BadStep),
    ("heap 4 16 8 1 0\n0 new r0 1 1 1\n", 2, Kind::BadStep),
    ("heap 4 16 8 1 0\n0 getweak r0 nil 0\n", 2, Kind::BadStep),
    ("heap 4 16 8 1 0\n0 putweak r0 0 g0\n", 2, Kind::BadStep),
    ("heap 4 16 8 1 0\n0 weaks r0 0\n", 2, Kind::BadStep),
    ("heap 4 16 8 1 0\n0  new r0 1 1\n", 2, Kind::BadStep),
    ("heap 4 16 8 1 0\n0 new r0 1 1 \n", 2, Kind::BadStep),
    ("heap 4 16 8 1 0\n1 drop r0\n", 2, Kind::BadActor),
    ("heap 4 16 8 1 0\n00 drop r0\n", 2, Kind::BadActor),
    ("heap 4 16 8 1 0\nm0 mark 4\n", 2, Kind::BadActor),
    ("heap 4 16 8 1 0\n0 begin\n", 2, Kind::BadStep),
    ("heap 4 16 8 1 0\n\n", 2, Kind::BadActor),
    ("heap 4 16 8 1 0\ngc pause\n", 2, Kind::BadStep),
    ("heap 4 16 8 1 0\ngc pause 4294967296\n", 2, Kind::BadStep),
    ("heap 4 16 8 1 0\ngc pause 4 5\n", 2, Kind::BadStep),
    ("heap 4 16 8 1 0\ngc mark\n", 2, Kind::BadStep),
    ("heap 4 16 8 1 0\ngc  mark 4\n", 2, Kind::BadStep),
    ("heap 4 16 8 1 0\ngc mark 04\n", 2, Kind::BadStep),
    ("heap 4 16 8 1 0\ngc mark 4 \n", 2, Kind::BadStep),
    ("heap 4 16 8 1 0\ngc refine \n", 2, Kind::BadStep),
    ("heap 4 16 8 1 0\ngc refine 1x\n", 2, Kind::BadStep),
    ("heap 4 16 8 1 0\ngc begin 1\n", 2, Kind::BadStep),
    ("heap 4 16 8 1 0\ngc remarks\n", 2, Kind::BadStep),
    ("heap 4 16 8 1 0\ngc clean\n", 2, Kind::BadStep),
    ("heap 4 16 8 1 0\ngc collect\n", 2, Kind::BadStep),
    ("heap 4 16 8 1 0\ngc\n", 2, Kind::BadStep),
    ("heap 4 16 8 1 0\ngc \n", 2, Kind::BadStep),
    ("heap 4 16 8 1 0\ngcmark 4\n", 2, Kind::BadActor),
    ("heap 4 16 8 1 0\n gc mark 4\n", 2, Kind::BadActor),
    ("heap 4 16 8 1 0\n0 read r0 0\nx\ny\n", 3, Kind::BadActor),
    ("heap 4 16 8 1 0\nx\n0 read r0 0", 2, Kind::BadActor),
    ("heap 4 16 8 1 0\n0 load r0 g16\n", 2, Kind::BadStep),
    ("heap2 4 16 8 1 0 8\n0 scope r0\n", 2, Kind::BadStep),
    ("heap3 4 16 8 1 0 8 1\n", 1, Kind::BadHeap),
    ("heap3 4 16 8 1 0 8 1 4294967296\n", 1, Kind::BadHeap),
    ("heap3 4 16 8 1 0 8 1 9\n0 drop r08\n", 2, Kind::BadStep),
    ("heap3 4 16 8 1 0 8 1 9\n0 save g1 r8\n", 2, Kind::BadStep),
    (
        "heap3 4 16 8 1 0 8 1 4294967295\n0 scope r4294967296\n",
        2,
        Kind::BadStep,
    ),
    (
        "heap3 4 16 8 1 0 8 65536 65536\n0 save g65535 r65535\n0 scope r10\n0 drop r65536\n",
        4,
        Kind::BadStep,
    ),
];

/// Compares the fault of a text.
fn check_fault(rt: &impl Abort, alloc: Global, text: &str, line: u64, kind: Kind) {
    let fault = Some(LineFault { line, kind });
    assert_eq!(rt; fault_of(alloc, text.as_bytes()), fault, "{text}");
    assert_eq!(rt; taken_fault_of(text.as_bytes()), fault, "{text}");
}

#[test]
fn faults(rt: HostRuntime) -> Result<(), Fail> {
    for (text, line, kind) in FAULTS {
        check_fault(&rt, rt.alloc(), text, line, kind);
    }
    Ok(())
}

#[test]
fn long_lines(rt: HostRuntime) -> Result<(), Fail> {
    let alloc = rt.alloc();
    for (actor, count, kind) in [
        ("0", 118u64, Kind::BadStep),
        ("0", 119u64, Kind::LongLine),
        ("gc", 117u64, Kind::BadStep),
        ("gc", 118u64, Kind::LongLine),
    ] {
        let heap = format!(in alloc; "heap 4 16 8 1 0\n{actor} ")?;
        let mut text = Vec::from_slice(alloc, heap.as_bytes())?;
        for _ in 0..count {
            text.push(b'a')?;
        }
        text.push(b'\n')?;
        let fault = Some(LineFault { line: 2, kind });
        assert_eq!(rt; fault_of(alloc, text.as_slice()), fault, "{actor} {count}");
        assert_eq!(rt; taken_fault_of(text.as_slice()), fault, "{actor} {count}");
    }
    Ok(())
}

#[test]
fn beginnings(rt: HostRuntime) -> Result<(), Fail> {
    let alloc = rt.alloc();
    let text = b"heap 4 16 8 2 0\n0 new r0 1 1\n1 read r0 0\ngc mark 10\ngc begin\n".as_slice();
    let mut line = 1u64;
    for (end, byte) in text.iter().enumerate() {
        let fault = fault_of(alloc, &text[..end]);
        assert_eq!(rt; taken_fault_of(&text[..end]), fault, "{end}");
        if end == 0 {
            assert_eq!(rt;
                fault,
                Some(LineFault {
                    line: 1,
                    kind: Kind::BadHeap
                })
            );
        } else if text[end - 1] == b'\n' {
            assert_eq!(rt; fault, None, "{end}");
        } else {
            assert_eq!(rt;
                fault,
                Some(LineFault {
                    line,
                    kind: Kind::Cut
                }),
                "{end}"
            );
        }
        if *byte == b'\n' {
            line = line.wrapping_add(1);
        }
    }
    assert_eq!(rt; line, 6);
    assert_eq!(rt; fault_of(alloc, text), None);
    assert_eq!(rt; taken_fault_of(text), None);
    Ok(())
}

#[test]
fn printed_faults(rt: HostRuntime) -> Result<(), Fail> {
    let alloc = rt.alloc();
    let kinds = [
        (Kind::Cut, "line 12: 1 Cut"),
        (Kind::LongLine, "line 12: 2 LongLine"),
        (Kind::BadHeap, "line 12: 3 BadHeap"),
        (Kind::BadActor, "line 12: 4 BadActor"),
        (Kind::BadStep, "line 12: 5 BadStep"),
        (Kind::BadCount, "line 12: 6 BadCount"),
        (Kind::BadReply, "line 12: 7 BadReply"),
        (Kind::NoMemory, "line 12: 8 NoMemory"),
    ];
    for (kind, text) in kinds {
        let fault = LineFault { line: 12, kind };
        assert_eq!(rt; format!(in alloc; "{fault}")?.as_str(), text);
    }
    let read = ReadFault::CannotRead;
    let write = WriteFault::NoMemory;
    assert_eq!(rt;
        format!(in alloc; "{read}, {write}")?.as_str(),
        "1 CannotRead, 2 NoMemory"
    );
    Ok(())
}
