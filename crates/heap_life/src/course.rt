//! A run of a list of events on its way, and the moments that are shown of it.

ghost use Rattle.std.specs.Prelude.{◌≡◌, ◌<◌, ◌+◌, ◌%◌, ◌==◌, ◌||◌, IfOk, ℕ, OnOk, Some, length, slice_get};
ghost use Rattle.heap_steps.specs.Actors.{AreEvents, IsStep, IsStepOf};
ghost use Rattle.heap_life.specs.Lives.{moved_by, NotesTold, IsLived};
ghost use Rattle.heap_life.specs.Tolds.{nothing_told};
ghost use Rattle.heap_life.specs.Tellers.{HasTold};
ghost use Rattle.heap_life.specs.Courses.{IsDoneIn, PassesEvent};

use crate::life::Moment;
use crate::moment_text::Teller;
use crate::pace::Pace;
use crate::pacing::{count_on, event_at};
use heap_dump::numbers_of;
use heap_steps::{Event, Record, Reply};
use std::alloc::{AllocError, Global};
use step_core::Core;

/// What was done of a list of events so far, and what is shown of it.
pub(crate) struct Course {
    /// The events that are done, with their replies.
    pub done: Record,
    /// How many of them count.
    pub counted: u64,
    /// How many words pauses have copied.
    pub copied: u64,
    /// Whether a moment is due after the last of them.
    pub behind: bool,
    /// The moments so far.
    pub moments: Vec<Moment>,
    /// What is told of them.
    pub teller: Teller,
}

impl Course {
    /// The events that are done, the moments, and what is told of them.
    pub(crate) fn into_parts(self) -> (Record, Vec<Moment>, Teller)
        ensures { result ≡ (self.done, self.moments, self.teller) }
    {
        let Course {
            done,
            counted: _,
            copied: _,
            behind: _,
            moments,
            teller,
        } = self;
        (done, moments, teller)
    }
}

/// Its drop is one call, and not one for each of its parts.
impl Drop for Course {
    fn drop(self) {
        let Course {
            done: _,
            counted: _,
            copied: _,
            behind: _,
            moments: _,
            teller: _,
        } = self;
    }
}

/// How many words a reply says were copied.
fn words_moved(reply: Reply) -> u64
    ensures { result ≡ moved_by reply }
{
    match reply {
        Reply::Moved { words, .. } => u64::from(words),
        _ => 0,
    }
}

/// Adds a moment and tells it, where one is due.
fn note_if(
    due: bool,
    core: &Core,
    teller: &mut Teller,
    moments: &mut Vec<Moment>,
    event: u64,
    copied: u64,
) -> Result<(), AllocError>
    requires { length teller.old.last.items ≡ core.now.config.regions }
    ensures { OnOk result (NotesTold due core.now event copied moments.old.items moments.new.items teller.old teller.new) }
{
    if !due {
        return Ok(());
    }
    core.law_remembers();
    let numbers = numbers_of(core);
    let moment = Moment {
        event,
        copied,
        numbers,
    };
    moments.push(moment)?;
    teller.tell(core, &moment);
    Ok(())
}

/// Whether a moment is due: after a step that is shown, before one, or by the number of events.
fn is_due(pace: &Pace, behind: bool, ahead: bool, done: u64) -> bool
    ensures { result ≡ (behind || ahead || done % pace.now.every == 0) }
{
    behind || ahead || pace.is_stop(done)
}

/// Does the step of an event, and answers the event with the heap's reply.
fn do_step(core: &mut Core, event: Event) -> Event
    requires own { IsStepOf core.old.config event.actor event.step }
    requires step { IsStep core.old.config event.step }
    ensures { IsDoneIn event result core.old core.new }
{
    let reply = core.step(event.step);
    core.law_whole();
    core.law_remembers();
    Event {
        actor: event.actor,
        step: event.step,
        reply,
    }
}

/// Does the step of event `index`, counted from 0, and adds the moment before it where one is due.
fn pass(
    core: &mut Core,
    pace: &Pace,
    event: Event,
    index: u64,
    course: &mut Course,
) -> Result<(), AllocError>
    requires own { IsStepOf core.old.config event.actor event.step }
    requires step { IsStep core.old.config event.step }
    requires sizes { course.old.done.config ≡ core.old.config }
    requires few { course.old.counted < 18446744073709551615 }
    requires teller { length course.old.teller.last.items ≡ core.old.config.regions }
    ensures { OnOk result (PassesEvent pace.now event index core.old core.new course.old course.new) }
{
    let ahead = pace.shows(event.step, course.counted);
    let due = is_due(pace, course.behind, ahead, index);
    let copied = course.copied;
    note_if(
        due,
        core,
        &mut course.teller,
        &mut course.moments,
        index,
        copied,
    )?;
    course.counted = count_on(pace, event.step, course.counted);
    let made = do_step(core, event);
    course.copied = copied.saturating_add(words_moved(made.reply));
    course.behind = ahead;
    course.done.push(made)?;
    Ok(())
}

/// Does the steps of events in their order, and adds the moments that the pace shows.
pub(crate) fn live_on(
    alloc: Global,
    core: &mut Core,
    events: &[Event],
    pace: &Pace,
    teller: Teller,
) -> Result<Course, AllocError>
    requires events { AreEvents core.old.config events.now }
    requires teller { length teller.last.items ≡ core.old.config.regions }
    requires told { HasTold (nothing_told teller.tiles) teller }
    ensures { IfOk result (λ x. IsLived teller.most (nothing_told teller.tiles) core.old pace.now events.now core.new x.done
        x.moments.items x.teller) }
{
    let mut course = Course {
        done: Record::with_room(alloc, core.config(), events.len())?,
        counted: 0,
        copied: 0,
        behind: true,
        moments: Vec::new(alloc),
        teller,
    };
    for index in 0..events.len() {
        let event = event_at(events, index);
        pass(core, pace, event, index as u64, &mut course)?;
    }
    let copied = course.copied;
    note_if(
        true,
        core,
        &mut course.teller,
        &mut course.moments,
        events.len() as u64,
        copied,
    )?;
    Ok(course)
}
