//! Cleanup: what holds nothing live is reclaimed, without a copy: ordinary regions, and runs whose object isn't kept.
//!
//! ```text
//!   region           0          1          2 current   3 free   4 to 6: a run
//!   live bound       12         0          0
//!                    marked     no mark,   no mark,             no mark, its object below
//!                    objects    top at mark start is the top    its top at mark start
//!   after cleanup    as it was  free       as it was   free     free
//! ```
//!
//! A region that is released has no marks, both its tops at mark start are its bottom, its remembered set is empty, and it isn't young,
//! as in a new heap; so has each region of a run. Its cards stay as they are.

ghost use Rattle.std.specs.Prelude.{◌≡◌, ◌↔◌, ◌<◌, ◌≤◌, ◌+◌, ◌*◌, false, None, IsTrue, length};
ghost use Rattle.heap_model.specs.Graph.{Graph};
ghost use Rattle.regions.specs.Table.{kind_of, run_length};
ghost use Rattle.regions.specs.declared.row.Kind.TheVariants as kinds;
ghost use Rattle.marker.specs.Stands.{MarkerStands};
ghost use Rattle.bit_sets.specs.Bits.{is_between};
ghost use Rattle.region_choice.specs.Ages.{AgesAfter};
ghost use Rattle.step_core.specs.Stands.{ShowsGraph, KeepsFrom, kept_of};
ghost use Rattle.step_core.specs.Cycle.{IsDeadRegion, HasCleaned};
ghost use Rattle.step_core.specs.Cleaning.{IsDeadHead, HasForgotten, HasEmptied, HasReleased};

use crate::heap::Core;
use heap_words::addr::{Addr, RegionNo};
use marker::Marker;
use region_choice::RegionAges;
use regions::{Kind, RegionTable};
use remembered_sets::RememberedSets;

/// Forgets the marks, the tops at mark start, the remembered sets and the ages of so many regions from one on.
pub(crate) fn forget(
    table: &RegionTable,
    marker: &mut Marker,
    sets: &mut RememberedSets,
    ages: &mut RegionAges,
    first: RegionNo,
    count: u32,
)
    requires stands { MarkerStands table.now marker.old }
    requires idle { marker.old.running ≡ false }
    requires within { first + count ≤ length table.now.regions }
    requires each { length sets.old.sets ≡ length table.now.regions }
    requires each_age { length ages.old.stamps ≡ length table.now.regions }
    ensures stands { MarkerStands table.now marker.new }
    ensures forgotten { HasForgotten table.now.words_per_region first count marker.old marker.new }
    ensures cleared { HasEmptied first count sets.old sets.new }
    ensures aged { AgesAfter (is_between first (first + count)) ages.old ages.new }
{
    table.law();
    sets.clear_run(first, count);
    for i in 0..count {
        let region = RegionNo::new(first.number() + i);
        marker.forget(table, region);
        ages.forget(region);
    }
}

impl Core {
    /// Whether nothing of an ordinary region is live, and no objects are cut from it now.
    fn is_dead_region(&self, region: RegionNo) -> bool
        requires known { region < length self.now.table.regions }
        requires ordinary { kind_of self.now.table region ≡ kinds.Ordinary }
        ensures { IsTrue result ↔ IsDeadRegion self.now region }
    {
        if self.buffers.is_current(region) {
            return false;
        }
        self.marker.live_bound(&self.table, region) == 0
    }

    /// Whether the humongous object that begins in a region isn't kept.
    pub(crate) fn is_dead_run(&self, region: RegionNo) -> bool
        requires known { region < length self.now.table.regions }
        requires first { kind_of self.now.table region ≡ kinds.First }
        ensures { IsTrue result ↔ (kept_of self.now (region * self.now.table.words_per_region) ≡ None) }
    {
        self.table.law();
        let words = self.table.words_per_region();
        let object = Addr::new(region.number() * words);
        if !self.marker.tams.is_below_previous(words, object) {
            return false;
        }
        !self.marker.bitmaps.previous.get(object)
    }

    /// Whether nothing is live of a region, or of the run that begins there.
    fn is_dead(&self, region: RegionNo) -> bool
        requires { region < length self.now.table.regions }
        ensures { IsTrue result ↔ IsDeadHead self.now region }
    {
        match self.table.kind(region) {
            Kind::Ordinary => self.is_dead_region(region),
            Kind::First => self.is_dead_run(region),
            Kind::Free | Kind::Rest => false,
        }
    }

    /// Releases a dead region, or a dead run with all its regions: so many from one on.
    fn release(&mut self, region: RegionNo, count: u32)
        requires known { region < length self.old.table.regions }
        requires idle { self.old.marker.running ≡ false }
        requires settled { self.old.clearing ≡ None }
        requires dead { IsDeadHead self.old region }
        requires together { count ≡ run_length self.old.table region }
        ensures shows { (g : Graph) → ShowsGraph g self.old → ShowsGraph g self.new }
        ensures keeps { (s : Graph) → KeepsFrom s self.old → KeepsFrom s self.new }
        ensures released { HasReleased region count self.old self.new }
    {
        self.table.law();
        forget(
            &self.table,
            &mut self.marker,
            &mut self.sets,
            &mut self.ages,
            region,
            count,
        );
        self.table.release(region);
    }

    /// Releases the dead regions and runs, while marking doesn't run. The result is how many regions.
    pub(crate) fn cleanup(&mut self) -> u32
        requires idle { self.old.marker.running ≡ false }
        requires settled { self.old.clearing ≡ None }
        ensures shows { (g : Graph) → ShowsGraph g self.old → ShowsGraph g self.new }
        ensures keeps { (s : Graph) → KeepsFrom s self.old → KeepsFrom s self.new }
        ensures cleaned { HasCleaned result self.old self.new }
    {
        self.table.law();
        let mut count = 0;
        let mut number = 0;
        while number < self.table.region_count() {
            let region = RegionNo::new(number);
            self.table.law();
            let together = self.table.run_length(region);
            if self.is_dead(region) {
                self.release(region, together);
                count += together;
            }
            number += together;
        }
        count
    }
}
