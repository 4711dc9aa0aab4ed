//! The collector's steps, a call for each. Any numbers will do.

ghost use Rattle.heap_steps.specs.declared.step.Step.TheVariants as steps;
ghost use Rattle.heap_steps.specs.declared.step.CollectorStep.TheVariants as collector;
ghost use Rattle.g1heap_c.specs.Calls.{IsCall, StepCall};

use heap_calls::answer::Answer;
use heap_calls::heap::{Heap, mark, take};
use heap_steps::{CollectorStep, Limits, Step};

/// Marking begins.
#[unsafe(no_mangle)]
pub extern "C" fn g1_begin(heap: &mut Heap) -> Answer
    ensures { IsCall heap.old (StepCall (steps.Collector collector.Begin)) result heap.new }
{
    take(heap, Step::Collector(CollectorStep::Begin))
}

/// At most so many objects are scanned; the answer tells how many.
#[unsafe(no_mangle)]
pub extern "C" fn g1_mark(heap: &mut Heap, objects: u32) -> Answer
    ensures { IsCall heap.old (StepCall (steps.Collector (collector.Mark objects))) result heap.new }
{
    mark(heap, objects)
}

/// Marking is brought to its end, which is counted.
#[unsafe(no_mangle)]
pub extern "C" fn g1_remark(heap: &mut Heap) -> Answer
    ensures { IsCall heap.old (StepCall (steps.Collector collector.Remark)) result heap.new }
{
    let answer = take(heap, Step::Collector(CollectorStep::Remark));
    if answer.code == 5 {
        heap.markings = heap.markings.wrapping_add(1);
    }
    answer
}

/// Regions with nothing live are free again.
#[unsafe(no_mangle)]
pub extern "C" fn g1_cleanup(heap: &mut Heap) -> Answer
    ensures { IsCall heap.old (StepCall (steps.Collector collector.Cleanup)) result heap.new }
{
    take(heap, Step::Collector(CollectorStep::Cleanup))
}

/// At most so many queued cards are refined.
#[unsafe(no_mangle)]
pub extern "C" fn g1_refine(heap: &mut Heap, cards: u32) -> Answer
    ensures { IsCall heap.old (StepCall (steps.Collector (collector.Refine cards))) result heap.new }
{
    take(heap, Step::Collector(CollectorStep::Refine(cards)))
}

/// Live objects are copied out of some regions, at most so many words, and these regions are free again.
#[unsafe(no_mangle)]
pub extern "C" fn g1_pause(heap: &mut Heap, words: u32) -> Answer
    ensures { IsCall heap.old (StepCall (steps.Collector (collector.Pause words))) result heap.new }
{
    take(heap, Step::Collector(CollectorStep::Pause(words)))
}

/// Live objects of the highest regions are copied down, at most so many words, and these regions are free again.
#[unsafe(no_mangle)]
pub extern "C" fn g1_compact(heap: &mut Heap, words: u32) -> Answer
    ensures { IsCall heap.old (StepCall (steps.Collector (collector.Compact words))) result heap.new }
{
    take(heap, Step::Collector(CollectorStep::Compact(words)))
}

/// The same as a pause, of those of its regions that few cards lead into, as long as these are at most `cards` together.
#[unsafe(no_mangle)]
pub extern "C" fn g1_pause_within(heap: &mut Heap, words: u32, cards: u32) -> Answer
    ensures { IsCall heap.old (StepCall (steps.Collector (collector.PauseWithin (record { words = words; cards = cards }))))
        result heap.new }
{
    take(
        heap,
        Step::Collector(CollectorStep::PauseWithin(Limits { words, cards })),
    )
}

/// The same of the regions that objects were made in last, the oldest of these first.
#[unsafe(no_mangle)]
pub extern "C" fn g1_young(heap: &mut Heap, words: u32, cards: u32) -> Answer
    ensures { IsCall heap.old (StepCall (steps.Collector (collector.Young (record { words = words; cards = cards })))) result heap.new }
{
    take(
        heap,
        Step::Collector(CollectorStep::Young(Limits { words, cards })),
    )
}

/// What the last marking found dead leaves the weak slots of at most so many objects.
#[unsafe(no_mangle)]
pub extern "C" fn g1_clear(heap: &mut Heap, objects: u32) -> Answer
    ensures { IsCall heap.old (StepCall (steps.Collector (collector.Clear objects))) result heap.new }
{
    take(heap, Step::Collector(CollectorStep::Clear(objects)))
}
