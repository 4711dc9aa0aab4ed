//! A script whose lines are done in their order, answered by its record, which is written as it is made.

ghost use Rattle.std.specs.Prelude.{◌≡◌, ◌≤◌, ◌<◌, ◌+◌, ◌^◌, ◌++◌, ◌∷◌, [], ℕ, List, Ok, OnOk, length};
ghost use Rattle.heap_steps.specs.declared.step.Event as events;
ghost use Rattle.heap_steps.specs.Actors.{StepList};
ghost use Rattle.heap_steps.specs.Faults.{IsRunFault};
ghost use Rattle.script_text.specs.Records.{IsToldBy};
ghost use Rattle.script_text.specs.Watched.{Writer};
ghost use Rattle.step_core.specs.Passages.{IsRunInOrder};
ghost use Rattle.script_runs.specs.InOrder.{AnswersInOrder, HasDone, IsOnItsWay};
ghost use Rattle.job_ends.specs.Runs.{Ends};

use heap_steps::{Reply, RunFault, run_fault};
use job_ends::JobFault;
use script_text::{RecordLines, ScriptSteps, WatchedReader, WatchedWriter, WriteFault, read_text};
use std::alloc::Global;
use std::io::{Read, Write};
use step_core::Core;

/// Puts the line of an event that a script's line and a reply tell, where the writer refused none before.
#[inline(always)]
fn put_line<W: Write>(
    before: Result<(), WriteFault>,
    lines: &mut RecordLines,
    line: &[u8],
    reply: Reply,
    writer: &mut WatchedWriter<W>,
) -> Result<(), WriteFault>
    requires few { OnOk before (lines.old.events + 1 < 2 ^ 64) }
    requires short { length line.now ≤ 120 }
    ensures count { (n : ℕ) → OnOk before (lines.old.events ≡ n) → OnOk result (lines.new.events ≡ n + 1) }
    ensures way { (plan : StepList) (es : List events.Event) (e : events.Event) (first : Writer) → IsToldBy line.now reply e
        → IsOnItsWay plan es first writer.old lines.old before → IsOnItsWay plan (es ++ e ∷ []) first writer.new lines.new result }
{
    match before {
        Ok(()) => lines.put_line(line, reply, writer),
        Err(fault) => Err(fault),
    }
}

/// Does the steps that are left in their order, and puts the line of each event: the script's own, and the reply. Where the writer refuses
/// one, the steps after it are done all the same: so what was written is a beginning of a whole run's record.
fn do_steps<W: Write>(
    core: &mut Core,
    lines: &mut RecordLines,
    steps: &mut ScriptSteps<'_>,
    writer: &mut WatchedWriter<W>,
) -> Result<(), WriteFault>
    requires sizes { steps.old.config ≡ core.old.config }
    requires few { length steps.old.steps < 2 ^ 64 }
    requires none { lines.old.events ≡ 0 }
    ensures { (plan : StepList) (first : Writer) → HasDone plan steps.old.steps core.old first writer.old lines.old (Ok tt)
        → HasDone plan [] core.new first writer.new lines.new result }
{
    let mut outcome = Ok(());
    'script: while let Some(next) = steps.next_line() {
        let event = core.perform(&next.step);
        outcome = put_line(outcome, lines, next.line, event.reply, writer);
    }
    outcome
}

/// Does a script's steps in their order in a new heap, and writes the record of its events.
fn run_steps<W: Write>(
    alloc: Global,
    steps: &mut ScriptSteps<'_>,
    writer: &mut WatchedWriter<W>,
) -> Result<(), JobFault>
    requires few { length steps.old.steps < 2 ^ 64 }
    ensures { AnswersInOrder steps.old writer.old writer.new result }
{
    let config = steps.config();
    let mut core = match Core::new(alloc, &config) {
        Ok(core) => core,
        Err(fault) => return Err(JobFault::Run(run_fault(fault))),
    };
    let Ok(mut lines) = RecordLines::new(alloc, &config) else {
        return Err(JobFault::Run(RunFault::NoMemory));
    };
    match do_steps(&mut core, &mut lines, steps, writer) {
        Ok(()) => {}
        Err(fault) => return Err(JobFault::Write(fault)),
    }
    match lines.finish(writer) {
        Ok(()) => Ok(()),
        Err(fault) => Err(JobFault::Write(fault)),
    }
}

/// Reads a script to the end of input, runs it in a new heap, and writes its record: each line once its step is done, by way of a buffer.
/// Nothing is written before the heap is made, and no fault but the writer's can come after: the script's text is read twice, for its
/// faults and for its steps, and no list of the steps is kept.
pub fn run_script<R: Read, W: Write>(
    alloc: Global,
    reader: &mut WatchedReader<R>,
    writer: &mut WatchedWriter<W>,
) -> Result<(), JobFault>
    ensures { Ends IsRunInOrder IsRunFault reader.old reader.new writer.old writer.new result }
{
    let text = match read_text(alloc, reader) {
        Ok(text) => text,
        Err(fault) => return Err(JobFault::Read(fault)),
    };
    match ScriptSteps::new(text.as_slice()) {
        Ok(mut steps) => run_steps(alloc, &mut steps, writer),
        Err(fault) => Err(JobFault::Line(fault)),
    }
}
