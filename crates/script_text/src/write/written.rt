//! What is written of a record is read back as that record.

ghost use Rattle.std.specs.Prelude.{◌≡◌, ◌≤◌, All, Ok};
ghost use Rattle.script_text.specs.Events.{record_of};
ghost use Rattle.script_text.specs.Records.{record_text};
ghost use Rattle.script_text.specs.Reading.{small, large};
ghost use Rattle.script_text.specs.Fits.{RegisterFits, ValueFits, Fits, CollectionFits};
ghost use Rattle.script_text.specs.Fits.{StepFits, ReplyFits, EventFits, ConfigFits};

use crate::laws::spelled_record_is_read;
use heap_steps::{Action, CollectorStep, Event, Record, Register, Reply, Step};
use heap_words::config::Config;

/// Reads numbers: so it is known of each that it is one of its type.
macro_rules! read_all {
    ($($number:expr),*) => {{
        $(let _ = $number;)*
    }};
}

/// A register's number is one of its type, where there is one.
fn value_fits(value: Option<Register>)
    ensures { ValueFits value }
{
    match value {
        None => {}
        Some(register) => read_all!(register.number),
    }
}

/// The numbers of a store to a field are those of their types.
fn store_fits(object: Register, field: u32, value: Option<Register>)
    ensures { RegisterFits object × (field ≤ small) × ValueFits value }
{
    read_all!(object.number, field);
    value_fits(value);
}

/// The same of a word that is stored.
fn write_fits(object: Register, field: u32, value: u64)
    ensures { RegisterFits object × (field ≤ small) × (value ≤ large) }
{
    read_all!(object.number, field, value);
}

/// The numbers of a mutator's action are those of their types.
fn action_fits(action: Action)
    ensures { Fits action }
{
    match action {
        Action::New { to, counts } => read_all!(to.number, counts.pointers, counts.values),
        Action::Get { to, object, field } => read_all!(to.number, object.number, field),
        Action::Put {
            object,
            field,
            value,
        } => store_fits(object, field, value),
        Action::Read { object, field } => read_all!(object.number, field),
        Action::Write {
            object,
            field,
            value,
        } => write_fits(object, field, value),
        Action::Move { to, from } => read_all!(to.number, from.number),
        Action::Drop { register } => read_all!(register.number),
        Action::Load { to, from } => read_all!(to.number, from.number),
        Action::Save { to, from } => read_all!(to.number, from.number),
        Action::Shape { object } => read_all!(object.number),
        Action::NewWeak { to, counts, weaks } => {
            read_all!(to.number, counts.pointers, weaks, counts.values)
        }
        Action::GetWeak { to, object, slot } => read_all!(to.number, object.number, slot),
        Action::PutWeak {
            object,
            slot,
            value,
        } => store_fits(object, slot, value),
        Action::Weaks { object } => read_all!(object.number),
        Action::Scope { from } => read_all!(from.number),
    }
}

fn collection_fits(step: CollectorStep)
    ensures { CollectionFits step }
{
    match step {
        CollectorStep::Mark(units) => read_all!(units),
        CollectorStep::Refine(cards) => read_all!(cards),
        CollectorStep::Pause(budget) => read_all!(budget),
        CollectorStep::Compact(budget) => read_all!(budget),
        CollectorStep::PauseWithin(limits) => read_all!(limits.words, limits.cards),
        CollectorStep::Young(limits) => read_all!(limits.words, limits.cards),
        CollectorStep::Clear(objects) => read_all!(objects),
        _ => {}
    }
}

fn step_fits(step: Step)
    ensures { StepFits step }
{
    match step {
        Step::Mutator(op) => action_fits(op.action),
        Step::Collector(collection) => collection_fits(collection),
    }
}

fn reply_fits(reply: Reply)
    ensures { ReplyFits reply }
{
    match reply {
        Reply::Done => {}
        Reply::Named(None) => {}
        Reply::Named(Some(name)) => read_all!(name),
        Reply::Word(word) => read_all!(word),
        Reply::Shape { pointers, values } => read_all!(pointers, values),
        Reply::Marked(count) => read_all!(count),
        Reply::Reclaimed(count) => read_all!(count),
        Reply::Refined(count) => read_all!(count),
        Reply::Moved { regions, words } => read_all!(regions, words),
        Reply::Refused(_) => {}
    }
}

fn event_fits(event: &Event)
    ensures { EventFits event.now }
{
    step_fits(event.step);
    reply_fits(event.reply);
}

fn events_fit(events: &[Event])
    ensures { All EventFits events.now }
{
    for event in events {
        event_fits(event);
    }
}

fn config_fits(config: Config)
    ensures { ConfigFits config }
{
    read_all!(
        config.regions,
        config.words,
        config.buffer,
        config.mutators,
        config.first_name
    );
}

/// What `write_record` writes of a record, `parse_record` reads as that record, or it is refused memory: the numbers of a record are those
/// of its type, so its text has no fault.
pub fn written_record_is_read(history: &Record)
    ensures { record_of (record_text history.now) ≡ Ok history.now }
{
    let config = history.config();
    config_fits(config);
    let events = history.events();
    events_fit(events);
    let _ = events.len();
    spelled_record_is_read();
}
