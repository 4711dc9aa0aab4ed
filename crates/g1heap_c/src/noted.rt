//! The steps that a policy takes, noted for who records them.

ghost use Rattle.std.specs.Prelude.{◌≡◌, slice_set};
ghost use Rattle.g1heap_c.specs.Noted.{entry_of, step_code, step_number};

use collection::Watch;
use heap_calls::answer::{Answer, answer_of};
use heap_steps::{CollectionVerb, Event, Step, Verb};

/// A step that was taken, with its answer: one of the collector's by its verb's place in the table, 0 begin to 9 clear, with its numbers;
/// and one past these the mutator's own.
#[repr(C)]
#[derive(Clone, Copy, Debug, PartialEq, Eq, Drop)]
pub struct Entry {
    pub step: u32,
    pub number: u32,
    pub second: u32,
    pub answer: Answer,
}

/// As many entries as there are, how many steps were taken, and how many markings of the heap ended.
#[derive(Drop)]
pub(crate) struct Notes<'a> {
    pub(crate) entries: &'a mut [Entry],
    pub(crate) count: u32,
    pub(crate) markings: u64,
}

/// Which step it is.
fn code_of(step: Step) -> u32
    ensures { result ≡ step_code step }
{
    match step {
        Step::Collector(collection) => collection.verb().place(),
        Step::Mutator(_) => CollectionVerb::all().len() as u32,
    }
}

/// Its numbers.
fn numbers_of(step: Step) -> (u32, u32)
    ensures first { result.0 ≡ step_number step 0 }
    ensures second { result.1 ≡ step_number step 1 }
{
    match step {
        Step::Collector(collection) => collection.numbers(),
        Step::Mutator(_) => (0, 0),
    }
}

/// Writes an entry, where there is room for it.
fn note(entries: &mut [Entry], at: u32, event: &Event)
    ensures { entries.new ≡ slice_set entries.old at (entry_of event.now) }
{
    let step = code_of(event.step);
    let (number, second) = numbers_of(event.step);
    let at = at as usize;
    if at < entries.len() {
        entries[at] = Entry {
            step,
            number,
            second,
            answer: answer_of(event.reply),
        };
    }
}

impl Watch for Notes<'_> {
    ghost use Rattle.g1heap_c.specs.Noted.{IsEntered};

    ghost sees = { λ x e y. IsEntered x e y };

    fn took(&mut self, event: &Event) {
        note(self.entries, self.count, event);
        self.count = self.count.saturating_add(1);
        self.markings.took(event);
    }
}
