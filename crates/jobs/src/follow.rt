//! A record that is judged as it is written: event by event, from a file or a pipe, with no more memory than the graph takes.

ghost use Rattle.std.specs.Prelude.{◌≡◌, ◌≢◌, ◌↔◌, ◌++◌, [], ℕ, Bool, List, OnOk, OnErr};
ghost use Rattle.std.specs.Io.KnownBytes.{IsAtEnd};
ghost use Rattle.object_graph.specs.Reasons.{HasJudged};
ghost use Rattle.object_graph.specs.declared.given.Given.{Given};
ghost use Rattle.object_graph.specs.declared.judge.Verdict.{Verdict};
ghost use Rattle.heap_steps.specs.declared.step.Event as events;
ghost use Rattle.script_text.specs.Awaited.{whole_lines};
ghost use Rattle.script_text.specs.Events.{record_of};
ghost use Rattle.script_text.specs.Watched.{Reader, Writer, Gives, TookBytes, TakesPart};
ghost use Rattle.heap_words.specs.Configs.{Suits};
ghost use Rattle.jobs.specs.Verdicts.{IsJudged, IsTextOfRun};
ghost use Rattle.jobs.specs.Followed.{IsFinding, FindsBy, told_text, EndsFollowed, PerformsFollow, FollowedYes, FollowedNo};

use crate::explain::{judged_by, write_finding};
use crate::judge::{conclude_verdict, verdict_law, write_verdict};
use heap_words::config::Config;
use job_ends::{JobFault, JudgeFault};
use object_graph::{Finding, Judge};
use script_text::{
    Kind, LineBuffer, LineFault, NextFault, ReadFault, WatchedReader, WatchedWriter, WriteFault,
};
use std::alloc::Global;
use std::io::{Read, Write};

/// Judges the events after the heap line, each as soon as its line is whole, to the end of input or to the first that isn't allowed. Lines
/// are counted in 64 bits: after 18,446,744,073,709,551,614 events a longer count is refused for memory.
fn follow_events<R: Read>(
    config: &Config,
    judge: &mut Judge,
    lines: &mut LineBuffer,
    reader: &mut WatchedReader<R>,
) -> Result<Finding, JobFault>
    requires suits { Suits config.now }
    requires config { judge.old.config ≡ config.now }
    requires judged { HasJudged judge.old [] }
    ensures { (given : Reader) (head : List ℕ) → Gives given reader.old (head ++ lines.old)
        → record_of head ≡ Ok (record { config = config.now; events = [] }) → FindsBy given reader.new result }
{
    for count in 1..u64::MAX {
        let event = match lines.next_event(reader, count, config) {
            Ok(Some(event)) => event,
            Ok(None) => return Ok(Finding::Allowed(count - 1)),
            Err(NextFault::Line(kind)) => {
                return Err(JobFault::Line(LineFault {
                    line: count + 1,
                    kind,
                }));
            }
            Err(NextFault::Read(fault)) => return Err(JobFault::Read(fault)),
        };
        match judge.judge_event(&event) {
            Ok(None) => {}
            Ok(Some(given)) => {
                return Ok(Finding::Refused {
                    number: count,
                    event,
                    given,
                });
            }
            Err(_) => return Err(JobFault::Judge(JudgeFault::NoMemory)),
        }
    }
    Err(JobFault::Judge(JudgeFault::NoMemory))
}

/// Judges the lines after the heap line, in a graph of these sizes.
fn follow_lines<R: Read>(
    alloc: Global,
    config: &Config,
    lines: &mut LineBuffer,
    reader: &mut WatchedReader<R>,
) -> Result<Finding, JobFault>
    ensures { (given : Reader) (head : List ℕ) → Gives given reader.old (head ++ lines.old)
        → record_of head ≡ Ok (record { config = config.now; events = [] }) → FindsBy given reader.new result }
{
    if let Err(fault) = config.check() {
        return Err(JobFault::Judge(JudgeFault::Heap(fault)));
    }
    match Judge::new(alloc, config) {
        Ok(mut judge) => {
            let found = follow_events(config, &mut judge, lines, reader);
            drop(judge);
            found
        }
        Err(_) => Err(JobFault::Judge(JudgeFault::NoMemory)),
    }
}

/// Judges a record, of which nothing was read.
fn find<R: Read>(
    alloc: Global,
    lines: &mut LineBuffer,
    reader: &mut WatchedReader<R>,
) -> Result<Finding, JobFault>
    requires { lines.old ≡ [] }
    ensures { FindsBy reader.old reader.new result }
{
    let config = match lines.next_heap(reader) {
        Ok(Some(config)) => config,
        Ok(None) => {
            return Err(JobFault::Line(LineFault {
                line: 1,
                kind: Kind::BadHeap,
            }));
        }
        Err(NextFault::Line(kind)) => return Err(JobFault::Line(LineFault { line: 1, kind })),
        Err(NextFault::Read(fault)) => return Err(JobFault::Read(fault)),
    };
    follow_lines(alloc, &config, lines, reader)
}

/// Writes what is told of a finding. It takes no memory.
fn write_told<W: Write>(
    explained: bool,
    finding: Finding,
    writer: &mut WatchedWriter<W>,
) -> Result<(), WriteFault>
    ensures ok { OnOk result (TookBytes writer.old writer.new (told_text explained finding)) }
    ensures err { OnErr result (TakesPart writer.old writer.new (told_text explained finding)) }
    ensures memory { result ≢ Err WriteFault.NoMemory }
{
    if explained {
        write_finding(finding, writer)
    } else {
        write_verdict(finding.verdict(), writer)
    }
}

/// Reads a record as it is written, judges it event by event, and writes the verdict: `no` and the first event that isn't allowed as soon
/// as its line is whole, `yes` and the number of events at the end of input. A last line that no line feed ends counts as not written.
/// Where it is asked for, a no has its reason after it, as `explain_record` writes it. A line's fault is told as soon as the line is
/// whole, or has more than 120 bytes. What it holds grows with the graph, and not with the text.
pub fn follow_record<R: Read, W: Write>(
    alloc: Global,
    explained: bool,
    reader: &mut WatchedReader<R>,
    writer: &mut WatchedWriter<W>,
) -> Result<Finding, JobFault>
    ensures { EndsFollowed explained reader.old reader.new writer.old writer.new result }
{
    let Ok(mut lines) = LineBuffer::new(alloc) else {
        return Err(JobFault::Read(ReadFault::NoMemory));
    };
    let finding = match find(alloc, &mut lines, reader) {
        Ok(finding) => finding,
        Err(fault) => return Err(fault),
    };
    match write_told(explained, finding, writer) {
        Ok(()) => Ok(finding),
        Err(fault) => Err(JobFault::Write(fault)),
    }
}

/// Judges a record as it is written, and answers the program's status.
pub fn follow_and_conclude<R: Read, W: Write, E: Write>(
    alloc: Global,
    explained: bool,
    reader: &mut WatchedReader<R>,
    out: &mut WatchedWriter<W>,
    err: &mut WatchedWriter<E>,
) -> u8
    ensures { PerformsFollow explained reader.old reader.new out.old out.new err.old err.new result }
{
    let outcome = follow_record(alloc, explained, reader, out);
    conclude_verdict(judged_by(outcome), err)
}

/// What is found is the verdict of `check` on the text without its cut last line: yes at the end of input, if and only if that is the text
/// of a run of so many events; no n where, whatever comes after, `check` has no other verdict.
pub fn follow_law()
    ensures yes { (text : List ℕ) (left : Reader) (n : ℕ) → IsFinding text left (Ok (Finding.Allowed n))
        ↔ (IsAtEnd left.left × IsTextOfRun (whole_lines text) n) }
    ensures no { (text : List ℕ) (left : Reader) (n : ℕ) (e : events.Event) (given : Given)
        → IsFinding text left (Ok (Finding.Refused n e given)) → (more : List ℕ) (v : Verdict) → IsJudged (whole_lines (text ++ more)) v
        → v ≡ Verdict.No n }
{
    verdict_law();
}

/// What the status says by itself: 0, the reader gave the text of a run to its end, and the verdict says so; 3, it gave the text of a
/// record that breaks at its last event, and the verdict names that.
pub fn follow_status_law()
    ensures yes { (explained : Bool) (given left : Reader) (old new err told : Writer)
        → PerformsFollow explained given left old new err told 0 → FollowedYes given left old new err told }
    ensures no { (explained : Bool) (given left : Reader) (old new err told : Writer)
        → PerformsFollow explained given left old new err told 3 → FollowedNo explained given left old new err told }
{
    verdict_law();
}
