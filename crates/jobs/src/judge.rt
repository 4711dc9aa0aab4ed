//! A record that is read, judged and answered by the verdict.

ghost use Rattle.std.specs.Prelude.{◌≡◌, ◌≢◌, ◌≤◌, ◌↔◌, ℕ, List, OnOk, OnErr, length, take};
ghost use Rattle.script_text.specs.Watched.{Reader, Writer, TookBytes, TakesPart};
ghost use Rattle.object_graph.specs.declared.judge.Verdict.{Verdict};
ghost use Rattle.jobs.specs.Verdicts.{verdict_word, verdict_number, verdict_line, IsJudged, Judges, TellsVerdict, PerformsCheck};
ghost use Rattle.jobs.specs.Verdicts.{IsTextOfRun, IsTextBrokenAt, ToldYes, ToldNo};

use crate::explain::explained_law;
use crate::finding::find_in;
use graph_runs::judged_once;
use job_ends::{JobFault, tell};
use object_graph::Verdict;
use script_text::{
    WatchedReader, WatchedWriter, WriteFault, put_number, put_text, read_record_is_spelled,
    read_text, spelled_record_is_read, write_bytes,
};
use std::alloc::Global;
use std::io::{Read, Write};

/// The room that a verdict's line needs.
const ROOM: usize = 32;

/// The word that tells a verdict, and a space.
fn verdict_word(verdict: Verdict) -> &'static [u8]
    ensures word { result.now ≡ verdict_word verdict }
    ensures short { length result.now ≤ 4 }
{
    match verdict {
        Verdict::Yes(_) => b"yes ",
        Verdict::No(_) => b"no ",
    }
}

/// The number that a verdict names.
fn verdict_number(verdict: Verdict) -> u64
    ensures { result ≡ verdict_number verdict }
{
    match verdict {
        Verdict::Yes(events) => events,
        Verdict::No(event) => event,
    }
}

/// Puts the line of a verdict at a buffer's front, and answers where it ends.
pub(crate) fn put_verdict(buffer: &mut [u8], verdict: Verdict) -> usize
    requires { ROOM ≤ length buffer.old }
    ensures put { take result buffer.new ≡ verdict_line verdict }
    ensures end { result ≤ ROOM }
{
    let at = put_text(buffer, 0, verdict_word(verdict));
    let at = put_number(buffer, at, verdict_number(verdict));
    put_text(buffer, at, b"\n")
}

/// Writes the line of a verdict. Where that fails, the writer refused, and a beginning of the line is written. It takes no memory.
pub(crate) fn write_verdict<W: Write>(
    verdict: Verdict,
    writer: &mut WatchedWriter<W>,
) -> Result<(), WriteFault>
    ensures ok { OnOk result (TookBytes writer.old writer.new (verdict_line verdict)) }
    ensures err { OnErr result (TakesPart writer.old writer.new (verdict_line verdict)) }
    ensures memory { result ≢ Err WriteFault.NoMemory }
{
    let mut buffer = [0u8; ROOM];
    let at = put_verdict(&mut buffer, verdict);
    write_bytes(writer, &buffer[..at])
}

/// Reads a record to the end of input, judges it by the graph alone, and writes the verdict: `yes` and the number of events, or `no` and
/// the first event that isn't allowed, counted from 1. Nothing is written before the judge has ended.
pub fn judge_record<R: Read, W: Write>(
    alloc: Global,
    reader: &mut WatchedReader<R>,
    writer: &mut WatchedWriter<W>,
) -> Result<Verdict, JobFault>
    ensures { Judges reader.old reader.new writer.old writer.new result }
{
    let text = match read_text(alloc, reader) {
        Ok(text) => text,
        Err(fault) => return Err(JobFault::Read(fault)),
    };
    let verdict = match find_in(alloc, text.as_slice()) {
        Ok(finding) => finding.verdict(),
        Err(fault) => return Err(fault),
    };
    explained_law();
    match write_verdict(verdict, writer) {
        Ok(()) => Ok(verdict),
        Err(fault) => Err(JobFault::Write(fault)),
    }
}

/// Tells a verdict, and answers the program's status: 0 for yes, 3 for no, 1 for a fault, with its line on standard error. That a write of
/// this line fails changes nothing.
pub fn conclude_verdict<E: Write>(
    outcome: Result<Verdict, JobFault>,
    err: &mut WatchedWriter<E>,
) -> u8
    ensures { TellsVerdict err.old err.new outcome result }
{
    match outcome {
        Ok(Verdict::Yes(_)) => 0,
        Ok(Verdict::No(_)) => 3,
        Err(fault) => {
            let _ = tell(fault, err);
            1
        }
    }
}

/// Judges a record, and answers the program's status.
pub fn judge_and_conclude<R: Read, W: Write, E: Write>(
    alloc: Global,
    reader: &mut WatchedReader<R>,
    out: &mut WatchedWriter<W>,
    err: &mut WatchedWriter<E>,
) -> u8
    ensures { PerformsCheck reader.old reader.new out.old out.new err.old err.new result }
{
    let outcome = judge_record(alloc, reader, out);
    conclude_verdict(outcome, err)
}

/// Which verdict a text gets: yes if and only if it is a record's text whose sizes suit and whose events are a run of the graph, with their
/// number; no if and only if the graph allows the events before the n-th and none goes on with that one. No text gets two verdicts.
pub fn verdict_law()
    ensures yes { (input : List ℕ) (n : ℕ) → IsJudged input (Verdict.Yes n) ↔ IsTextOfRun input n }
    ensures no { (input : List ℕ) (n : ℕ) → IsJudged input (Verdict.No n) ↔ IsTextBrokenAt input n }
    ensures once { (input : List ℕ) (a b : Verdict) → IsJudged input a → IsJudged input b → a ≡ b }
{
    read_record_is_spelled();
    spelled_record_is_read();
    judged_once();
}

/// What the status says by itself: 0, the file was the text of a run, and the verdict says so; 3, it was the text of a record that breaks,
/// and the verdict names the event.
pub fn status_law()
    ensures yes { (given left : Reader) (old new err told : Writer) → PerformsCheck given left old new err told 0
        → ToldYes given left old new err told }
    ensures no { (given left : Reader) (old new err told : Writer) → PerformsCheck given left old new err told 3
        → ToldNo given left old new err told }
{
    verdict_law();
}
