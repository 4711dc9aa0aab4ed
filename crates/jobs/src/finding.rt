//! What the judge finds in a record's text, whose events are read one by one: no list of them is kept.

ghost use Rattle.std.specs.Prelude.{◌≡◌, ◌<◌, ◌^◌, [], length, IfOk, IfErr};
ghost use Rattle.heap_words.specs.Configs.{Suits};
ghost use Rattle.graph_runs.specs.State.{first_state};
ghost use Rattle.object_graph.specs.Reasons.{Finds, HasJudged};
ghost use Rattle.jobs.specs.Verdicts.{IsJudgeFault};
ghost use Rattle.jobs.specs.Explanations.{FindsIn};

use job_ends::{JobFault, JudgeFault};
use object_graph::{Finding, Judge};
use script_text::RecordEvents;
use std::alloc::{AllocError, Global};

/// Judges the events that are left, to the last, to the first that isn't allowed, or to a line with a fault.
fn judge_events(judge: &mut Judge, events: &mut RecordEvents<'_>) -> Result<Finding, AllocError>
    requires config { judge.old.config ≡ events.old.config }
    requires judged { HasJudged judge.old [] }
    requires few { length events.old.events < 2 ^ 64 }
    ensures finds { IfOk result (Finds (first_state events.old.config) events.old.events) }
    ensures fault { events.new.fault ≡ events.old.fault }
{
    let mut count = 0u64;
    'lines: loop {
        // A usual event is judged where it is read, and not copied to where another one would be.
        if let Some(event) = events.next_usual() {
            count += 1;
            if let Some(given) = judge.judge_event(&event)? {
                return Ok(Finding::Refused {
                    number: count,
                    event,
                    given,
                });
            }
            continue;
        }
        let Ok(Some(event)) = events.next_event() else {
            return Ok(Finding::Allowed(count));
        };
        count += 1;
        if let Some(given) = judge.judge_event(&event)? {
            return Ok(Finding::Refused {
                number: count,
                event,
                given,
            });
        }
    }
}

/// Judges a record as far as no line has a fault, in a graph of its sizes. No event was taken before.
fn find_events(alloc: Global, events: &mut RecordEvents<'_>) -> Result<Finding, JudgeFault>
    requires few { length events.old.events < 2 ^ 64 }
    ensures suits { IfOk result (λ finding. Suits events.old.config) }
    ensures finds { IfOk result (Finds (first_state events.old.config) events.old.events) }
    ensures unjudged { IfErr result (IsJudgeFault events.old.config) }
    ensures fault { events.new.fault ≡ events.old.fault }
{
    let config = events.config();
    if let Err(fault) = config.check() {
        return Err(JudgeFault::Heap(fault));
    }
    match Judge::new(alloc, &config) {
        Ok(mut judge) => {
            let found = judge_events(&mut judge, events);
            drop(judge);
            match found {
                Ok(finding) => Ok(finding),
                Err(_) => Err(JudgeFault::NoMemory),
            }
        }
        Err(_) => Err(JudgeFault::NoMemory),
    }
}

/// What the judge finds of a record's text, or why it isn't judged: a line has a fault, its sizes don't suit, or memory was refused. Each
/// line is read once. A line's fault comes first, wherever it is: so the lines that weren't judged are read for one.
pub(crate) fn find_in(alloc: Global, text: &[u8]) -> Result<Finding, JobFault>
    ensures { FindsIn text.now result }
{
    let mut events = match RecordEvents::new(text) {
        Ok(events) => events,
        Err(fault) => return Err(JobFault::Line(fault)),
    };
    let found = find_events(alloc, &mut events);
    if let Err(fault) = events.check_rest() {
        return Err(JobFault::Line(fault));
    }
    match found {
        Ok(finding) => Ok(finding),
        Err(fault) => Err(JobFault::Judge(fault)),
    }
}
