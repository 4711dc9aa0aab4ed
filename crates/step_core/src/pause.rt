//! A pause, a compaction and a young pause: the regions of a collection set are evacuated and reclaimed, within a budget of words.
//!
//! ```text
//!   close          no buffer is open, and no region is current
//!   refine all     every dirty card is refined: what leads into a region is covered by its set
//!   choose         within the budget and the free regions, a pause the candidates with the least live words,
//!                  one within so many cards those of them that few cards lead into,
//!                  a compaction the highest ordinary regions, if all copies go down,
//!                  a young pause the young regions that were taken first, of which few cards lead into each
//!   evacuate       what is reached in them is copied into free regions, and they are released; fields that lead to other regions
//!                  then are noted: in the third format in the sets of these, else their cards are dirty
//! ```

ghost use Rattle.std.specs.Prelude.{◌≡◌, ℕ, ◌<◌, ◌^◌, false, None, length, All};
ghost use Rattle.heap_model.specs.Graph.{Graph};
ghost use Rattle.alloc_buffers.specs.Placement.{closed};
ghost use Rattle.cards.specs.Cards.{is_dirty};
ghost use Rattle.step_core.specs.Stands.{ShowsGraph, KeepsFrom};
ghost use Rattle.region_choice.specs.Ages.{AgesAfter};
ghost use Rattle.evacuation.specs.Evacuates.{is_chosen};
ghost use Rattle.step_core.specs.Pause.{AreForgotten, IsReady, EvacuatesSet, HasMoved, HasPaused, HasPausedWithin};
ghost use Rattle.step_core.specs.Pause.{HasPausedYoung};
ghost use Rattle.step_core.specs.Sliding.{HasCompacted};

use crate::candidates::{Choice, choose_set};
use crate::heap::Core;
use evacuation::{Moved, evacuate};
use heap_steps::is_third;
use marker::live::LiveWords;
use region_choice::{LiveRow, RegionAges};

/// Nothing is counted any more of the regions of the collection set: their marks go with the evacuation.
fn forget_counts(live: &mut LiveWords, rows: &[LiveRow])
    requires previous { All (λ row. row.region < length live.old.previous) rows.now }
    requires next { All (λ row. row.region < length live.old.next) rows.now }
    ensures { AreForgotten rows.now live.old live.new }
{
    for row in rows {
        live.forget(row.region);
    }
}

/// Nor are their ages known any more.
fn forget_ages(ages: &mut RegionAges, rows: &[LiveRow])
    requires { All (λ row. row.region < length ages.old.stamps) rows.now }
    ensures { AgesAfter (is_chosen rows.now) ages.old ages.new }
{
    for row in rows {
        ages.forget(row.region);
    }
}

impl Core {
    /// No buffer is open and no region current, and no card is dirty.
    fn make_ready(&mut self)
        ensures shows { (g : Graph) → ShowsGraph g self.old → ShowsGraph g self.new }
        ensures keeps { (s : Graph) → KeepsFrom s self.old → KeepsFrom s self.new }
        ensures ready { IsReady self.old self.new }
    {
        self.buffers.close_all();
        self.cards.flush_all();
        let queued = self.cards.queued();
        self.refine(queued);
        self.cards.law();
    }

    /// The regions of the collection set are evacuated, where nothing is dirty.
    fn evacuate_set(&mut self, choice: Choice, budget: u32) -> Moved
        requires settled { self.old.clearing ≡ None }
        requires clean { (card : ℕ) → is_dirty self.old.cards card ≡ false }
        requires closed { self.old.buffers ≡ closed self.old.buffers.words (length self.old.buffers.open_buffers) }
        ensures shows { (g : Graph) → ShowsGraph g self.old → ShowsGraph g self.new }
        ensures keeps { (s : Graph) → KeepsFrom s self.old → KeepsFrom s self.new }
        ensures evacuates { EvacuatesSet choice budget result.regions result.words self.old self.old self.new }
        ensures few { result.regions < 2 ^ 32 }
    {
        self.table.law();
        let count = choose_set(
            choice,
            &self.table,
            &self.marker,
            &self.sets,
            &self.ages,
            &mut self.room,
            &mut self.rows,
            budget,
        );
        forget_counts(&mut self.marker.live, &self.rows[..count]);
        forget_ages(&mut self.ages, &self.rows[..count]);
        evacuate(
            &mut self.table,
            &mut self.marker.tams,
            &mut self.marker.bitmaps,
            &mut self.cards,
            &mut self.sets,
            &mut self.roots,
            &mut self.room,
            &self.rows[..count],
            is_third(self.config.format),
            self.config.card_words(),
        )
    }

    /// All is made ready, and the regions of the collection set are evacuated.
    fn move_set(&mut self, choice: Choice, budget: u32) -> Moved
        requires settled { self.old.clearing ≡ None }
        ensures shows { (g : Graph) → ShowsGraph g self.old → ShowsGraph g self.new }
        ensures keeps { (s : Graph) → KeepsFrom s self.old → KeepsFrom s self.new }
        ensures moved { HasMoved choice budget result.regions result.words self.old self.new }
        ensures few { result.regions < 2 ^ 32 }
    {
        self.make_ready();
        self.evacuate_set(choice, budget)
    }

    /// A pause, where no weak slot is still to be cleared.
    pub(crate) fn pause(&mut self, budget: u32) -> Moved
        requires settled { self.old.clearing ≡ None }
        ensures shows { (g : Graph) → ShowsGraph g self.old → ShowsGraph g self.new }
        ensures keeps { (s : Graph) → KeepsFrom s self.old → KeepsFrom s self.new }
        ensures paused { HasPaused budget result.regions result.words self.old self.new }
        ensures few { result.regions < 2 ^ 32 }
    {
        self.move_set(Choice::Best, budget)
    }

    /// A pause within so many cards, where none is either.
    pub(crate) fn pause_within(&mut self, budget: u32, cards: u32) -> Moved
        requires settled { self.old.clearing ≡ None }
        ensures shows { (g : Graph) → ShowsGraph g self.old → ShowsGraph g self.new }
        ensures keeps { (s : Graph) → KeepsFrom s self.old → KeepsFrom s self.new }
        ensures paused { HasPausedWithin budget cards result.regions result.words self.old self.new }
        ensures few { result.regions < 2 ^ 32 }
    {
        self.move_set(Choice::Within(cards), budget)
    }

    /// A compaction, where none is either.
    pub(crate) fn compact(&mut self, budget: u32) -> Moved
        requires settled { self.old.clearing ≡ None }
        ensures shows { (g : Graph) → ShowsGraph g self.old → ShowsGraph g self.new }
        ensures keeps { (s : Graph) → KeepsFrom s self.old → KeepsFrom s self.new }
        ensures compacted { HasCompacted budget result.regions result.words self.old self.new }
        ensures few { result.regions < 2 ^ 32 }
    {
        let moved = self.move_set(Choice::Highest, budget);
        if moved.regions > 0 {
            return moved;
        }
        self.law_shaped();
        self.law_remembers();
        self.slide(budget)
    }

    /// A young pause within so many cards, where none is either.
    pub(crate) fn young(&mut self, budget: u32, cards: u32) -> Moved
        requires settled { self.old.clearing ≡ None }
        ensures shows { (g : Graph) → ShowsGraph g self.old → ShowsGraph g self.new }
        ensures keeps { (s : Graph) → KeepsFrom s self.old → KeepsFrom s self.new }
        ensures paused { HasPausedYoung budget cards result.regions result.words self.old self.new }
        ensures few { result.regions < 2 ^ 32 }
    {
        self.move_set(Choice::Youngest(cards), budget)
    }
}
