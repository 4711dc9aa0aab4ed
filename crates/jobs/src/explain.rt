//! A record that is read, judged, and answered by the verdict with its reason: where it is no, what the graph gives in the event's place.

ghost use Rattle.std.specs.Prelude.{◌≡◌, ◌≢◌, ◌≤◌, ◌+◌, ◌++◌, ℕ, List, OnOk, OnErr, length, take};
ghost use Rattle.std.specs.Fmt.{decimal};
ghost use Rattle.script_text.specs.Watched.{TookBytes, TakesPart};
ghost use Rattle.object_graph.specs.Reasons.{verdict_of};
ghost use Rattle.object_graph.specs.declared.judge.Finding.{Finding};
ghost use Rattle.jobs.specs.Verdicts.{IsJudged};
ghost use Rattle.jobs.specs.Explanations.{done_text, form_text, given_text, reason_line, finding_text, judged_by, TellsHint, IsExplained};
ghost use Rattle.jobs.specs.Explanations.{Explains, PerformsExplain, TellsFinding};

use crate::causes::conclude_unread;
use crate::finding::find_in;
use crate::judge::{conclude_verdict, put_verdict};
use heap_steps::{CollectorStep, DoneReply, Event, Replies, Reply};
use job_ends::JobFault;
use object_graph::{Finding, Given, Verdict};
use script_text::{
    LineFault, REASON_ROOM, TextKind, WatchedReader, WatchedWriter, WriteFault, put_event_text,
    put_fault_reason, put_number, put_reply, put_text, read_text, write_bytes,
};
use std::alloc::Global;
use std::io::{ErrorKind, Read, Write};

/// The room that a verdict's line and its reason need.
const ROOM: usize = 264;

/// What a step of the collector replies where it is done.
fn done_text(done: DoneReply) -> &'static [u8]
    ensures text { result.now ≡ done_text done }
    ensures short { length result.now ≤ 11 }
{
    match done {
        DoneReply::Ok => b"ok",
        DoneReply::Marked => b"marked N",
        DoneReply::Reclaimed => b"reclaimed N",
        DoneReply::Refined => b"refined N",
        DoneReply::Moved => b"moved N W",
    }
}

/// The replies that a step of the collector may have.
fn put_form(buffer: &mut [u8], at: usize, step: CollectorStep) -> usize
    requires { at + 47 ≤ length buffer.old }
    ensures put { take result buffer.new ≡ take at buffer.old ++ form_text step }
    ensures end { result ≤ at + 47 }
{
    let Replies { done, refused } = step.verb().replies();
    let at = put_text(buffer, at, done_text(done));
    let Some(why) = refused else {
        return at;
    };
    let at = put_text(buffer, at, b" or ");
    put_reply(buffer, at, Reply::Refused(why))
}

/// What the graph gives for a step.
fn put_given(buffer: &mut [u8], at: usize, given: Given) -> usize
    requires { at + 47 ≤ length buffer.old }
    ensures put { take result buffer.new ≡ take at buffer.old ++ given_text given }
    ensures end { result ≤ at + 47 }
{
    match given {
        Given::Reply(reply) => put_reply(buffer, at, reply),
        Given::Object(name) => {
            let at = put_text(buffer, at, b"#");
            let at = put_number(buffer, at, name);
            put_text(buffer, at, b" or refused 3 Full")
        }
        Given::Form(step) => put_form(buffer, at, step),
    }
}

/// The number after a number, which may have 65 bits.
fn put_next(buffer: &mut [u8], at: usize, number: u64) -> usize
    requires { at + 21 ≤ length buffer.old }
    ensures put { take result buffer.new ≡ take at buffer.old ++ decimal (number + 1) }
    ensures end { result ≤ at + 21 }
{
    if number == u64::MAX {
        let at = put_number(buffer, at, 1_844_674_407_370_955_161);
        return put_text(buffer, at, b"6");
    }
    put_number(buffer, at, number + 1)
}

/// The line that tells why an event may not happen.
fn put_reason(buffer: &mut [u8], at: usize, number: u64, event: &Event, given: Given) -> usize
    requires { at + 227 ≤ length buffer.old }
    ensures put { take result buffer.new ≡ take at buffer.old ++ reason_line number event.now given }
    ensures end { result ≤ at + 227 }
{
    let at = put_text(buffer, at, b"event ");
    let at = put_number(buffer, at, number);
    let at = put_text(buffer, at, b", line ");
    let at = put_next(buffer, at, number);
    let at = put_text(buffer, at, b": ");
    let at = put_event_text(buffer, at, event);
    let at = put_text(buffer, at, b"; the graph gives ");
    let at = put_given(buffer, at, given);
    put_text(buffer, at, b"\n")
}

/// The verdict's line, and after a no its reason.
fn put_finding(buffer: &mut [u8], finding: Finding) -> usize
    requires { length buffer.old ≡ ROOM }
    ensures put { take result buffer.new ≡ finding_text finding }
    ensures end { result ≤ ROOM }
{
    let at = put_verdict(buffer, finding.verdict());
    match finding {
        Finding::Allowed(_) => at,
        Finding::Refused {
            number,
            event,
            given,
        } => put_reason(buffer, at, number, &event, given),
    }
}

/// Writes the verdict's line, and after a no its reason. Where that fails, the writer refused, and a beginning is written. It takes no
/// memory.
pub(crate) fn write_finding<W: Write>(
    finding: Finding,
    writer: &mut WatchedWriter<W>,
) -> Result<(), WriteFault>
    ensures ok { OnOk result (TookBytes writer.old writer.new (finding_text finding)) }
    ensures err { OnErr result (TakesPart writer.old writer.new (finding_text finding)) }
    ensures memory { result ≢ Err WriteFault.NoMemory }
{
    let mut buffer = [0u8; ROOM];
    let at = put_finding(&mut buffer, finding);
    write_bytes(writer, &buffer[..at])
}

/// Writes the line that tells what a line with a fault lacks. That the writer refuses it changes nothing.
fn write_hint<W: Write>(text: &[u8], fault: LineFault, writer: &mut WatchedWriter<W>)
    ensures { TellsHint fault text.now writer.old writer.new }
{
    let mut buffer = [0u8; REASON_ROOM];
    let at = put_fault_reason(&mut buffer, 0, TextKind::Record, text, fault);
    let _ = write_bytes(writer, &buffer[..at]);
}

/// Reads a record to the end of input, judges it by the graph alone, and writes the verdict as `judge_record` does. After a no one more
/// line says what the graph gives in place of the event that isn't allowed, and what else may be there. Of a line with a fault one line
/// shows it and says what may be where reading it stopped. Nothing else is written before the judge has ended.
///
/// ```text
///   no 13
///   event 13, line 14: 0 get r1 r0 0 = #4; the graph gives #3
///
///   line 5: 4 0 drop r9 = ok; word 4: a register below r8
/// ```
pub fn explain_record<R: Read, W: Write>(
    alloc: Global,
    reader: &mut WatchedReader<R>,
    writer: &mut WatchedWriter<W>,
) -> Result<Finding, JobFault>
    ensures { Explains reader.old reader.new writer.old writer.new result }
{
    let text = match read_text(alloc, reader) {
        Ok(text) => text,
        Err(fault) => return Err(JobFault::Read(fault)),
    };
    let finding = match find_in(alloc, text.as_slice()) {
        Ok(finding) => finding,
        Err(JobFault::Line(fault)) => {
            write_hint(text.as_slice(), fault, writer);
            return Err(JobFault::Line(fault));
        }
        Err(fault) => return Err(fault),
    };
    match write_finding(finding, writer) {
        Ok(()) => Ok(finding),
        Err(fault) => Err(JobFault::Write(fault)),
    }
}

/// The outcome of a judging without its reason.
pub(crate) fn judged_by(outcome: Result<Finding, JobFault>) -> Result<Verdict, JobFault>
    ensures { result ≡ judged_by outcome }
{
    match outcome {
        Ok(finding) => Ok(finding.verdict()),
        Err(fault) => Err(fault),
    }
}

/// Tells why a file of this name wasn't judged, and answers the program's status.
fn tell_unjudged<E: Write>(
    name: &str,
    reason: Option<ErrorKind>,
    fault: JobFault,
    err: &mut WatchedWriter<E>,
) -> u8
    ensures { TellsFinding name.now err.old err.new (Err fault) result }
{
    match fault {
        JobFault::Read(fault) => conclude_unread(fault, name, reason, err),
        _ => conclude_verdict(Err(fault), err),
    }
}

/// Tells how a judging of a file of this name ended, with the system's reason where it can't be read, and answers the program's status.
fn tell_finding<E: Write>(
    name: &str,
    reason: Option<ErrorKind>,
    outcome: Result<Finding, JobFault>,
    err: &mut WatchedWriter<E>,
) -> u8
    ensures { TellsFinding name.now err.old err.new outcome result }
{
    match outcome {
        Ok(finding) => conclude_verdict(Ok(finding.verdict()), err),
        Err(fault) => tell_unjudged(name, reason, fault, err),
    }
}

/// Judges a record in a file of this name and explains the verdict, and answers the program's status. Where it can't be read, standard
/// error is told why.
pub fn explain_and_conclude<R: Read, W: Write, E: Write>(
    alloc: Global,
    name: &str,
    reader: &mut WatchedReader<R>,
    out: &mut WatchedWriter<W>,
    err: &mut WatchedWriter<E>,
) -> u8
    ensures { PerformsExplain name.now reader.old reader.new out.old out.new err.old err.new result }
{
    let outcome = explain_record(alloc, reader, out);
    tell_finding(name, reader.reason(), outcome, err)
}

/// An explained verdict is the verdict that the text gets without it.
pub fn explained_law()
    ensures { (input : List ℕ) (finding : Finding) → IsExplained input finding → IsJudged input (verdict_of finding) }
{}
