//! A marking cycle: the collector's steps that begin marking, go on with it, end it, and reclaim what holds nothing live.
//!
//! ```text
//!             begin                  mark k                     remark                  cleanup
//!   idle ----------------> marking ---------------> marking ----------------> idle -----------------> idle
//!          no buffer is open;       k grey objects            logs are taken,        dead regions are
//!          what roots name is       are scanned, or           all grey scanned;      released
//!          grey, or waits           k words looked at         the new marks tell
//!                                                             what is kept
//! ```
//!
//! In the first two formats what roots name is grey at once, and `mark` counts objects. In the third it waits, and `mark` counts words: so
//! neither step's time hangs on how many objects there are, or how large they are: of an object with more words than are left it scans a
//! part.
//!
//! After `remark`, weak slots that lead to what isn't kept are cleared: in the first two formats at once, in the third later, so many
//! objects at a time (`clear`). What needs all of them to lead to what is kept first brings that to its end (`settle`): `begin`, `cleanup`
//! and all that moves objects. Until then such a slot shows nil: whoever reads one asks whether its target is kept.
//!
//! Mutators go on between these steps: their stores save what they overwrite, they save what they read from weak slots
//! (`barrier`), and what they make lies at or above
//! the tops at mark start, so that it is kept without a mark.

ghost use Rattle.std.specs.Prelude.{◌≡◌, true, false, None};
ghost use Rattle.heap_model.specs.Graph.{Graph};
ghost use Rattle.step_core.specs.Stands.{ShowsGraph, KeepsFrom};
ghost use Rattle.step_core.specs.Cycle.{HasBegun, HasMarked, HasRemarked, HasSettled, HasLooked, ShowsCleared, ClearsAtOnce};

use crate::heap::Core;
use heap_words::addr::Addr;
use heap_words::config::Format;

impl Core {
    /// Clearing that is going on comes to its end.
    pub(crate) fn settle(&mut self)
        ensures { HasSettled self.old self.new }
    {
        self.table.law();
        let Some(from) = self.clearing else {
            return;
        };
        self.marker.clear_rest(&mut self.table, from);
        self.table.law();
        self.clearing = None;
    }

    /// Looks at up to so many objects that have weak slots, if any are still to be cleared, and clears those that lead to what isn't kept.
    /// The result is at how many it looked, fewer only if no more are left.
    pub(crate) fn clear(&mut self, units: u32) -> u32
        ensures shows { (g : Graph) → ShowsGraph g self.old → ShowsGraph g self.new }
        ensures keeps { (s : Graph) → KeepsFrom s self.old → KeepsFrom s self.new }
        ensures looked { HasLooked units result self.old self.new }
    {
        let Some(from) = self.clearing else {
            return 0;
        };
        let progress = self.marker.clear(&mut self.table, from, units);
        self.clearing = progress.left;
        progress.looked
    }

    /// Marking begins, with the present graph as its snapshot. It doesn't run yet, and no weak slot is still to be cleared. All regions are
    /// old from now on.
    pub(crate) fn begin(&mut self)
        requires idle { self.old.marker.running ≡ false }
        requires settled { self.old.clearing ≡ None }
        ensures shows { (g : Graph) → ShowsGraph g self.old → ShowsGraph g self.new }
        ensures keeps { (g : Graph) → ShowsGraph g self.old → KeepsFrom g self.new }
        ensures begun { HasBegun self.old self.new }
    {
        self.table.law();
        self.buffers.retire_all();
        self.ages.make_all_old();
        self.marker
            .begin(&self.table, &self.roots, self.config.format);
    }

    /// Up to so many units of marking: objects in the first two formats, words in the third.
    pub(crate) fn mark(&mut self, units: u32)
        requires { self.old.marker.running ≡ true }
        ensures shows { (g : Graph) → ShowsGraph g self.old → ShowsGraph g self.new }
        ensures keeps { (s : Graph) → KeepsFrom s self.old → KeepsFrom s self.new }
        ensures marked { HasMarked units self.old self.new }
    {
        self.marker.mark(&self.table, self.config.format, units);
    }

    /// Marking is brought to its end, and weak slots are to be cleared of what it didn't reach. The result is how many objects
    /// are marked.
    pub(crate) fn remark(&mut self) -> u32
        requires { self.old.marker.running ≡ true }
        ensures shows { (s g : Graph) → ShowsGraph g self.old → KeepsFrom s self.old → ShowsCleared s g self.new }
        ensures remarked { HasRemarked result self.old self.new }
    {
        let count = self.marker.finish(&self.table);
        self.clearing = Some(Addr::new(0));
        count
    }

    /// What is left to clear after a remark is cleared at once in the first two formats.
    pub(crate) fn clear_by_format(&mut self)
        ensures shows { (g : Graph) → ShowsGraph g self.old → ShowsGraph g self.new }
        ensures cleared { ClearsAtOnce self.old.config.format self.old self.new }
    {
        match self.config.format {
            Format::V1 | Format::V2 { .. } => self.settle(),
            Format::V3 { .. } => {}
        }
    }
}
