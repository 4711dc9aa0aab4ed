//! Views of small heaps, written by hand, and a writer that fails.

use heap_view::{Glance, Viewed, view_script, view_text};
use script_text::{WatchedReader, WatchedWriter, parse};
use std::alloc::Global;
use std::io;
use std::io::{ErrorKind, Write};
use std::process::Abort;
use std::test::Fail;
use step_core::{Core, run_to_core};
use type_names::Types;

/// The heap after a script.
fn heap_after(alloc: Global, script: &str) -> Result<Core, Fail> {
    let Ok(plan) = parse(alloc, script.as_bytes()) else {
        return Err(Fail::from("this is a script"));
    };
    let config = plan.config();
    let Ok((_, core)) = run_to_core(alloc, &config, plan.steps()) else {
        return Err(Fail::from("a run"));
    };
    Ok(core)
}

/// All of a heap, as it is after the last step.
const WHOLE: Glance = Glance {
    at: None,
    viewed: Viewed::Regions {
        region: None,
        summary: false,
    },
};

/// The heap after a script has this view.
fn assert_glance(
    rt: &impl Abort,
    alloc: Global,
    script: &str,
    glance: &Glance,
    view: &str,
) -> Result<(), Fail> {
    let core = heap_after(alloc, script)?;
    let types = Types::new(alloc);
    let written = view_text(alloc, &core, glance, &types)?;
    assert_eq!(rt; written.as_slice(), view.as_bytes(), "{script}");
    Ok(())
}

/// The heap after a script has this view, where all of it is viewed.
fn assert_view(rt: &impl Abort, alloc: Global, script: &str, view: &str) -> Result<(), Fail> {
    assert_glance(rt, alloc, script, &WHOLE, view)
}

#[test]
fn a_new_heap(rt: HostRuntime) -> Result<(), Fail> {
    let view = "\
heap 2 16 8 1 5
next name 5
marking doesn't run
region 0: free
region 1: free
queue of cards: none
globals: all nil
mutator 0: all nil
";
    assert_view(&rt, rt.alloc(), "heap 2 16 8 1 5\n", view)
}

/// Marking runs: an object is scanned, two are grey, one is new. Each mutator has a dirty card, and one a saved pointer.
#[test]
fn while_marking(rt: HostRuntime) -> Result<(), Fail> {
    let script = "\
heap 4 16 8 2 0
0 new r0 2 1
0 new r1 0 2
0 new r2 1 4
0 write r1 1 9
0 put r0 0 r1
0 put r0 1 r2
0 save g3 r0
gc begin
gc mark 1
0 put r0 0 nil
0 drop r1
1 new r0 1 0
1 put r0 0 r0
1 load r7 g3
1 put r0 0 r7
";
    let view = "\
heap 4 16 8 2 0
next name 4
marking runs, objects scanned: 1
region 0: ordinary, 16 of 16 words handed out
  top at mark start 0, next 16, live bound 16
  at 0: #0, pointers nil #2, data 0, kept, scanned
  at 5: filler of 3
  at 8: #1, data 0 9, kept, grey
  at 12: filler of 4
region 1: ordinary, current, 16 of 16 words handed out
  top at mark start 16, next 24, live bound 16
  at 16: #2, pointers nil, data 0 0 0 0, kept, grey
  at 23: filler of 1
  at 24: #3, pointers #0, kept, new
  at 27: filler of 5
region 2: free
region 3: free
queue of cards: none
globals: g3 #0 at 0
mutator 0: r0 #0 at 0, r2 #2 at 16
  card log: 0
  deletion log: #1
mutator 1: r0 #3 at 24, r7 #0 at 0
  open buffer at 27, 5 words left
  card log: 3
";
    assert_view(&rt, rt.alloc(), script, view)
}

/// What of a heap is viewed, as it is after the last step.
fn glance_at(viewed: Viewed) -> Glance {
    Glance { at: None, viewed }
}

/// An object that two roots and three objects name, one of them by two fields, and one by a weak slot alone; and one that nothing names.
#[test]
fn an_object_and_who_names_it(rt: HostRuntime) -> Result<(), Fail> {
    let script = "\
heap3 2 64 8 2 7 8 4 3
0 newweak r0 1 1 2
0 new r1 2 0
0 newweak r2 0 2 0
0 write r0 1 18446744073709551615
0 put r0 0 r1
0 put r1 0 r0
0 put r1 1 r0
0 putweak r2 1 r0
0 save g3 r0
1 load r2 g3
gc begin
";
    let head = "heap3 2 64 8 2 7 8 4 3\nnext name 10\nmarking runs, objects scanned: 0\n";
    let named = "\
object #7 at 0: pointers 1, weak slots 1, data words 2, unmarked
  pointer 0: #8
  weak slot 0: nil
  data word 0: 0
  data word 1: 18446744073709551615
named by
  global g3
  register r0 of mutator 0
  register r2 of mutator 1
  #8, pointer 0 and 1 more
  #9, weak slot 1
";
    let view = format!(in rt.alloc(); "{head}{named}")?;
    assert_glance(
        &rt,
        rt.alloc(),
        script,
        &glance_at(Viewed::Object(7)),
        view.as_str(),
    )?;
    let view = format!(in rt.alloc(); "{head}object #10: none is kept\n")?;
    assert_glance(
        &rt,
        rt.alloc(),
        script,
        &glance_at(Viewed::Object(10)),
        view.as_str(),
    )?;
    let script = "heap 2 16 8 1 0\n0 new r0 0 1\n0 drop r0\n";
    let view = "\
heap 2 16 8 1 0
next name 1
marking doesn't run
object #0 at 0: pointers 0, weak slots 0, data words 1
  data word 0: 0
named by nothing
";
    assert_glance(&rt, rt.alloc(), script, &glance_at(Viewed::Object(0)), view)
}

/// What each snapshot begins with.
const META: &str = "\
{\"snapshot\":{\"meta\":{\"node_fields\":[\"type\",\"name\",\"id\",\"self_size\",\"edge_count\",\"detachedness\"],\
\"node_types\":[[\"hidden\",\"array\",\"string\",\"object\",\"code\",\"closure\",\"regexp\",\"number\",\"native\",\"synthetic\"],\
\"string\",\"number\",\"number\",\"number\",\"number\"],\"edge_fields\":[\"type\",\"name_or_index\",\"to_node\"],\
\"edge_types\":[[\"context\",\"element\",\"property\",\"internal\",\"hidden\",\"shortcut\",\"weak\"],\"string_or_number\",\"node\"],\
\"trace_function_info_fields\":[\"function_id\",\"name\",\"script_name\",\"script_id\",\"line\",\"column\"],\
\"trace_node_fields\":[\"id\",\"function_info_index\",\"count\",\"size\",\"children\"],\
\"sample_fields\":[\"timestamp_us\",\"last_assigned_id\"],\
\"location_fields\":[\"object_index\",\"script_id\",\"line\",\"column\"]},";

/// An object that two roots, a pointer and a weak slot name.
#[test]
fn a_snapshot(rt: HostRuntime) -> Result<(), Fail> {
    let script = "\
heap3 2 64 8 1 7 8 2 2
0 newweak r0 1 1 2
0 new r1 0 0
0 put r0 0 r1
0 putweak r0 0 r1
0 write r0 0 9
0 save g1 r1
";
    let rest = "\
\"node_count\":4,\"edge_count\":6,\"trace_function_count\":0},
\"nodes\":[9,0,1,0,1,0
,9,1,3,0,3,0
,3,7,19,48,2,0
,3,6,21,16,0,0],
\"edges\":[1,1,6
,2,3,18
,2,4,12
,2,5,18
,1,0,18
,6,8,18],
\"trace_function_infos\":[],
\"trace_tree\":[],
\"samples\":[],
\"locations\":[],
\"strings\":[\"\",
\"(roots)\",
\"global g0\",
\"global g1\",
\"register r0 of mutator 0\",
\"register r1 of mutator 0\",
\"pointers 0, weak slots 0, data words 0, first word none\",
\"pointers 1, weak slots 1, data words 2, first word 9\",
\"weak slot 0\"]}
";
    let view = format!(in rt.alloc(); "{META}{rest}")?;
    assert_glance(
        &rt,
        rt.alloc(),
        script,
        &glance_at(Viewed::Snapshot),
        view.as_str(),
    )
}

/// A run of three regions, and after a pause two copies in region 4. One of the cards that the pause made dirty is refined.
#[test]
fn a_run_and_a_pause(rt: HostRuntime) -> Result<(), Fail> {
    let script = "\
heap 6 16 8 1 10
0 new r0 1 0
0 new r1 20 12
0 new r2 0 1
0 write r2 0 9
0 put r0 0 r1
0 put r1 19 r2
0 drop r2
0 save g0 r1
0 drop r1
gc pause 100
gc refine 1
";
    let view = "\
heap 6 16 8 1 10
next name 13
marking doesn't run
region 0: free
region 1: first of a run of 3, 16 of 16 words handed out
  top at mark start 16
  remembered cards: 0
  at 16: #11, pointers nil nil nil nil nil nil nil nil and 12 more, data 0 0 0 0 0 0 0 0 and 4 more, kept
region 2: rest of a run, 16 of 16 words handed out
  top at mark start 32
region 3: rest of a run, 2 of 16 words handed out
  top at mark start 48
region 4: ordinary, 6 of 16 words handed out
  top at mark start 64, live bound 6
  remembered cards: 4
  at 64: #10, pointers #11, kept
  at 67: #12, data 9, kept
region 5: free
queue of cards: 8
globals: g0 #11 at 16
mutator 0: r0 #10 at 64
";
    assert_view(&rt, rt.alloc(), script, view)
}

/// Three cards lead into region 1.
#[test]
fn remembered_cards(rt: HostRuntime) -> Result<(), Fail> {
    let script = "\
heap 4 16 8 1 0
0 new r0 4 2
0 new r1 4 2
0 new r2 4 2
0 new r3 4 2
0 new r4 4 2
0 put r0 0 r2
0 put r1 0 r2
0 put r4 3 r2
gc pause 0
";
    let view = "\
heap 4 16 8 1 0
next name 5
marking doesn't run
region 0: ordinary, 16 of 16 words handed out
  top at mark start 0, live bound 16
  at 0: #0, pointers #2 nil nil nil, data 0 0, kept
  at 8: #1, pointers #2 nil nil nil, data 0 0, kept
region 1: ordinary, 16 of 16 words handed out
  top at mark start 16, live bound 16
  remembered cards: 0 1 4
  at 16: #2, pointers nil nil nil nil, data 0 0, kept
  at 24: #3, pointers nil nil nil nil, data 0 0, kept
region 2: ordinary, 8 of 16 words handed out
  top at mark start 32, live bound 8
  at 32: #4, pointers nil nil nil #2, data 0 0, kept
region 3: free
queue of cards: none
globals: all nil
mutator 0: r0 #0 at 0, r1 #1 at 8, r2 #2 at 16, r3 #3 at 24, r4 #4 at 32
";
    assert_view(&rt, rt.alloc(), script, view)
}

/// Eighteen cards of region 1 lead into region 0: sixteen are one by one in its set, and then all of region 1 does.
#[test]
fn a_full_set(rt: HostRuntime) -> Result<(), Fail> {
    let alloc = rt.alloc();
    let mut script = String::new(alloc);
    script.push_str("heap 3 256 128 1 0\n0 new r7 0 0\n0 new r6 0 126\n")?;
    for _ in 0..18 {
        script.push_str("0 new r0 1 5\n0 put r0 0 r7\n")?;
    }
    script.push_str("gc pause 0\n")?;
    let core = heap_after(alloc, script.as_str())?;
    let types = Types::new(alloc);
    let written = view_text(alloc, &core, &WHOLE, &types)?;
    let start = "\
heap 3 256 128 1 0
next name 20
marking doesn't run
region 0: ordinary, 256 of 256 words handed out
  top at mark start 0, live bound 256
  remembered cards: 32 33 34 35 36 37 38 39 40 41 42 43 44 45 46 47, all of region 1
  at 0: #0, kept
  at 2: filler of 126
";
    assert!(rt; written.as_slice().starts_with(start.as_bytes()));
    Ok(())
}

/// A dead object's pointer may lead to where no object is any more.
#[test]
fn a_dead_pointer(rt: HostRuntime) -> Result<(), Fail> {
    let script = "\
heap 3 16 8 1 0
0 new r0 4 2
0 new r1 1 5
0 new r2 4 2
0 put r1 0 r2
0 drop r1
0 drop r2
gc begin
gc remark
gc pause 0
";
    let view = "\
heap 3 16 8 1 0
next name 3
marking doesn't run
region 0: ordinary, 16 of 16 words handed out
  top at mark start 16, live bound 8
  at 0: #0, pointers nil nil nil nil, data 0 0, kept
  at 8: #1, pointers no object at 16, data 0 0 0 0 0, dead
region 1: free
region 2: free
queue of cards: none
globals: all nil
mutator 0: r0 #0 at 0
";
    assert_view(&rt, rt.alloc(), script, view)
}

/// Two objects have weak slots. While marking runs, one slot was read: what it named is saved.
#[test]
fn weak_slots(rt: HostRuntime) -> Result<(), Fail> {
    let script = "\
heap 4 16 8 1 0
0 newweak r0 1 2 1
0 new r1 0 1
0 newweak r2 0 10 2
0 put r0 0 r0
0 putweak r0 0 r1
0 drop r1
gc begin
gc mark 1
0 getweak r1 r0 0
";
    let view = "\
heap 4 16 8 1 0
next name 3
marking runs, objects scanned: 1
region 0: ordinary, current, 16 of 16 words handed out
  top at mark start 0, next 16, live bound 16
  at 0: #0, pointers #0, weak slots #1 nil, data 0, kept, scanned
  at 6: filler of 2
  at 8: #1, data 0, kept, unmarked
  at 11: filler of 5
region 1: first of a run of 1, 14 of 16 words handed out
  top at mark start 16, next 30
  at 16: #2, weak slots nil nil nil nil nil nil nil nil and 2 more, data 0 0, kept, grey
region 2: free
region 3: free
queue of cards: none
globals: all nil
mutator 0: r0 #0 at 0, r1 #1 at 8, r2 #2 at 16
  deletion log: #1
";
    assert_view(&rt, rt.alloc(), script, view)
}

/// At the end of marking a weak slot whose object wasn't found becomes nil, and one whose object was found stays.
#[test]
fn cleared_weak_slots(rt: HostRuntime) -> Result<(), Fail> {
    let script = "\
heap 2 16 8 1 0
0 newweak r0 0 2 1
0 new r1 0 1
0 putweak r0 0 r1
0 putweak r0 1 r0
0 drop r1
gc begin
gc remark
";
    let view = "\
heap 2 16 8 1 0
next name 2
marking doesn't run
region 0: ordinary, current, 8 of 16 words handed out
  top at mark start 8, live bound 5
  at 0: #0, weak slots nil #0, data 0, kept
  at 5: #1, data 0, dead
region 1: free
queue of cards: none
globals: all nil
mutator 0: r0 #0 at 0
";
    assert_view(&rt, rt.alloc(), script, view)
}

/// A writer that takes a byte at a time, and so many in all.
#[derive(Drop)]
struct Small {
    taken: Vec<u8>,
    room: usize,
}

impl Write for Small {
    fn write(&mut self, buf: &[u8]) -> io::Result<usize> {
        if buf.is_empty() {
            return Ok(0);
        }
        if self.taken.len() < self.room {
            self.taken.push(buf[0])?;
            return Ok(1);
        }
        Err(io::Error::from(ErrorKind::Other))
    }

    fn flush(&mut self) -> io::Result<()> {
        Ok(())
    }
}

/// Wherever a writer fails, the view fails, and a beginning of it is written.
#[test]
fn a_writer_that_fails(rt: HostRuntime) -> Result<(), Fail> {
    let alloc = rt.alloc();
    let script = "heap 4 16 8 1 0\n0 new r0 1 1\n0 put r0 0 r0\ngc begin\n";
    let core = heap_after(alloc, script)?;
    let types = Types::new(alloc);
    let whole = view_text(alloc, &core, &WHOLE, &types)?;
    assert!(rt; whole.len() > 100);
    for room in 0..whole.len() {
        let taken = Vec::new(alloc);
        let mut reader = WatchedReader::new(script.as_bytes());
        let mut writer = WatchedWriter::new(Small { taken, room });
        assert!(rt;
            view_script(alloc, &WHOLE, &types, &mut reader, &mut writer).is_err(),
            "{room}"
        );
        let Small { taken, room: _ } = writer.into_inner();
        assert_eq!(rt; taken.as_slice(), &whole[..room], "{room}");
    }
    Ok(())
}

/// A summary has a line a region, and what they add up to: in region 0 an object of 8 words lives, and one of 8 is dead.
#[test]
fn a_summary(rt: HostRuntime) -> Result<(), Fail> {
    let script = "\
heap 4 16 8 1 0
0 new r0 1 5
0 new r1 0 6
0 drop r1
gc begin
gc remark
0 new r1 0 1
0 put r0 0 r1
";
    let view = "\
heap 4 16 8 1 0
next name 3
marking doesn't run
region 0: ordinary, 16 of 16 words handed out, live bound 8
region 1: ordinary, current, 8 of 16 words handed out, live bound 8
region 2: free
region 3: free
in all: 24 of 64 words handed out, 16 live, 2 of 4 regions free, 0 cards queued
";
    let glance = Glance {
        at: None,
        viewed: Viewed::Regions {
            region: None,
            summary: true,
        },
    };
    assert_glance(&rt, rt.alloc(), script, &glance, view)
}

/// One region can be asked for, as its lines or as its one line, and one that isn't there.
#[test]
fn one_region(rt: HostRuntime) -> Result<(), Fail> {
    let alloc = rt.alloc();
    let script = "heap 2 16 8 1 0\n0 new r0 1 1\n";
    let head = "heap 2 16 8 1 0\nnext name 1\nmarking doesn't run\n";
    let lines = "\
region 0: ordinary, current, 8 of 16 words handed out
  top at mark start 0, live bound 8
  at 0: #0, pointers nil, data 0, kept
  at 4: filler of 4
";
    let line = "region 0: ordinary, current, 8 of 16 words handed out, live bound 8\n";
    let none = "region 2: there is none\n";
    for (region, summary, end) in [(0, false, lines), (0, true, line), (2, false, none)] {
        let glance = Glance {
            at: None,
            viewed: Viewed::Regions {
                region: Some(region),
                summary,
            },
        };
        let view = format!(in alloc; "{head}{end}")?;
        assert_glance(&rt, alloc, script, &glance, view.as_str())?;
    }
    Ok(())
}
