//! The run that a compaction moves down where no ordinary region goes down any more.
//!
//! ```text
//!   region     0     1     2     3     4     5     6     7     8        the run from 3 on is the lowest one with a free region below:
//!              run   free  free  run   run   ord.  free  run   run      it comes to 1 and 2, and 3 and 4 are free then
//! ```

ghost use Rattle.std.specs.Prelude.{◌≡◌, ◌↔◌, ◌*◌, ◌^◌, ◌<◌, ◌≤◌, ℕ, false, true, IfNone, IfSome, IsTrue, None, Some, length};
ghost use Rattle.alloc_buffers.specs.Placement.{closed};
ghost use Rattle.cards.specs.Cards.{is_dirty};
ghost use Rattle.heap_model.specs.Graph.{Graph};
ghost use Rattle.heap_model.specs.Heap.{Stored};
ghost use Rattle.regions.specs.Table.{kind_of};
ghost use Rattle.regions.specs.Tiles.{Object, tile_size};
ghost use Rattle.regions.specs.declared.row.Kind.TheVariants as kinds;
ghost use Rattle.step_core.specs.Stands.{ShowsGraph, KeepsFrom, kept_of};
ghost use Rattle.step_core.specs.Sliding.{IsMovable, IsLowestMovable, MovesRun, Slides};

use crate::cleanup::forget;
use crate::heap::Core;
use crate::highest::is_free;
use evacuation::{Moved, redirect_run};
use heap_words::addr::{Addr, RegionNo};
use regions::{Kind, RegionTable};

/// A run, by its first region, and the region that it is to begin at.
#[derive(Clone, Copy)]
pub(crate) struct RunWay {
    pub(crate) first: RegionNo,
    pub(crate) to: RegionNo,
}

/// Whether a region is the first of a run.
#[inline(always)]
fn is_first(table: &RegionTable, region: RegionNo) -> bool
    requires { region < length table.now.regions }
    ensures { IsTrue result ↔ (kind_of table.now region ≡ kinds.First) }
{
    matches!(table.kind(region), Kind::First)
}

impl Core {
    /// Whether the object of the run that begins in a region is kept, and has at most so many words.
    fn can_move(&self, region: RegionNo, words: u32) -> bool
        requires known { region < length self.now.table.regions }
        requires first { kind_of self.now.table region ≡ kinds.First }
        ensures yes { result ≡ true → (x : Stored) × (kept_of self.now (region * self.now.table.words_per_region) ≡ Some x)
            × (tile_size (Object x) ≤ words) }
        ensures no { result ≡ false → (x : Stored) → kept_of self.now (region * self.now.table.words_per_region) ≡ Some x
            → words < tile_size (Object x) }
    {
        self.table.law();
        if self.is_dead_run(region) {
            return false;
        }
        let bottom = Addr::new(region.number() * self.table.words_per_region());
        let size = self.table.object_size(bottom);
        if size > words {
            return false;
        }
        true
    }

    /// Whether a run begins in a region that can move to a lower one, and has at most so many words.
    fn goes_down(&self, region: RegionNo, to: u32, words: u32) -> bool
        requires known { region < length self.now.table.regions }
        requires low { to ≤ region }
        ensures yes { result ≡ true → (to < region) × (kind_of self.now.table region ≡ kinds.First) × (x : Stored)
            × (kept_of self.now (region * self.now.table.words_per_region) ≡ Some x) × (tile_size (Object x) ≤ words) }
        ensures no { result ≡ false → to < region → kind_of self.now.table region ≡ kinds.First → (x : Stored)
            → kept_of self.now (region * self.now.table.words_per_region) ≡ Some x → words < tile_size (Object x) }
    {
        if to >= region.number() {
            return false;
        }
        if !is_first(&self.table, region) {
            return false;
        }
        self.can_move(region, words)
    }

    /// The lowest run with a free region directly below whose object is kept and has at most so many words, and the lowest of the free
    /// regions directly below it. It costs a look at each region up to there.
    fn run_to_move(&self, words: u32) -> Option<RunWay>
        ensures lowest { IfSome result (λ way. IsLowestMovable self.now words way.first way.to) }
        ensures none { IfNone result ((k j : ℕ) (m : IsMovable self.now k j) → tile_size (Object m.object) ≤ words → ⊥) }
    {
        let mut to = 0;
        let mut number = 0;
        while number < self.table.region_count() {
            let region = RegionNo::new(number);
            if self.goes_down(region, to, words) {
                return Some(RunWay {
                    first: region,
                    to: RegionNo::new(to),
                });
            }
            number += 1;
            if !is_free(&self.table, region) {
                to = number;
            }
        }
        None
    }

    /// A run moves, and what names its object names the new place.
    fn move_run(&mut self, first: RegionNo, to: RegionNo) -> Moved
        requires idle { self.old.marker.running ≡ false }
        requires settled { self.old.clearing ≡ None }
        requires clean { (card : ℕ) → is_dirty self.old.cards card ≡ false }
        requires closed { self.old.buffers ≡ closed self.old.buffers.words (length self.old.buffers.open_buffers) }
        requires movable { IsMovable self.old first to }
        ensures shows { (g : Graph) → ShowsGraph g self.old → ShowsGraph g self.new }
        ensures keeps { (s : Graph) → KeepsFrom s self.old → KeepsFrom s self.new }
        ensures moves { MovesRun first to result.regions result.words self.old self.new }
        ensures few { result.regions < 2 ^ 32 }
    {
        self.table.law();
        let moved = redirect_run(
            &mut self.table,
            &self.marker.tams,
            &self.marker.bitmaps,
            &mut self.cards,
            &self.sets,
            &mut self.roots,
            &mut self.room,
            first,
            to,
            self.config.card_words(),
        );
        self.table.law();
        forget(
            &self.table,
            &mut self.marker,
            &mut self.sets,
            &mut self.ages,
            first,
            moved.regions as u32,
        );
        self.table.move_run(first, to);
        self.table.law();
        moved
    }

    /// The lowest run that can moves down, where marking doesn't run. It is no part of its caller, which does all other steps too.
    #[inline(never)]
    pub(crate) fn slide(&mut self, words: u32) -> Moved
        requires settled { self.old.clearing ≡ None }
        requires clean { (card : ℕ) → is_dirty self.old.cards card ≡ false }
        requires closed { self.old.buffers ≡ closed self.old.buffers.words (length self.old.buffers.open_buffers) }
        ensures shows { (g : Graph) → ShowsGraph g self.old → ShowsGraph g self.new }
        ensures keeps { (s : Graph) → KeepsFrom s self.old → KeepsFrom s self.new }
        ensures slides { Slides words result.regions result.words self.old self.new }
        ensures few { result.regions < 2 ^ 32 }
    {
        if self.marker.running {
            return Moved {
                regions: 0,
                words: 0,
            };
        }
        match self.run_to_move(words) {
            Some(way) => self.move_run(way.first, way.to),
            None => Moved {
                regions: 0,
                words: 0,
            },
        }
    }
}
