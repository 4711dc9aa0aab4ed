//! The fingers that are set. They are counted, so where none is nobody looks for one. A finger is a bit of a summary, one for each 64
//! addresses: not, as in some papers, the one address that marking has come to.

ghost use Rattle.std.specs.Prelude.{◌≡◌, ◌==◌, ◌<◌, false, true, IfOk, IfSome, length, MatchOption, replicate, slice_set};
ghost use Rattle.bit_sets.specs.Bits.{has, HasNone, IsLowest};
ghost use Rattle.mark_bitmap.specs.Marks.{marked_count};

use crate::summary::Summary;
use std::alloc::{AllocError, Global};
use std::marker::Model;

/// A set of fingers below a length that is given when it is made. Clauses see a flag for each finger.
pub struct Fingers {
    set: Summary,
    /// How many are set.
    count: u32,
}

impl Model for Fingers {
    ghost use Rattle.std.specs.Prelude.{◌≡◌, List, Bool};
    ghost use Rattle.mark_bitmap.specs.Marks.{marked_count};

    ghost Value = { List Bool };

    ghost view = { λ f. f.set };

    ghost invariant = { λ f. f.count ≡ marked_count f.set };
}

/// Where it is let go there is one call, and not a drop for each of its parts.
impl Drop for Fingers {
    fn drop(self) {
        let Fingers { set: _, count: _ } = self;
    }
}

/// A finger is one of those that are set, which are counted.
#[tactic(auto, using(crate::proofs::Counted::count_fits))]
fn join(set: &mut Summary, count: &mut u32, finger: u32)
    requires known { finger < length set.old }
    requires counted { count.old ≡ marked_count set.old }
    ensures set { set.new ≡ slice_set set.old finger true }
    ensures counted { count.new ≡ marked_count set.new }
{
    set.law();
    if set.get(finger) {
        return;
    }
    set.set(finger);
    *count += 1;
}

/// A finger isn't one of those that are set, if it was.
#[tactic(auto, using(crate::proofs::Counted::none_counted, crate::proofs::Counted::unset_stays))]
fn leave(set: &mut Summary, count: &mut u32, finger: u32)
    requires known { finger < length set.old }
    requires counted { count.old ≡ marked_count set.old }
    ensures set { set.new ≡ slice_set set.old finger false }
    ensures counted { count.new ≡ marked_count set.new }
{
    if *count == 0 {
        return;
    }
    if !set.get(finger) {
        return;
    }
    set.remove(finger);
    *count -= 1;
}

/// No finger is set. Where none is counted nothing is written.
#[tactic(auto, using(crate::proofs::Counted::all_unset))]
fn empty(set: &mut Summary, count: &mut u32)
    requires counted { count.old ≡ marked_count set.old }
    ensures set { set.new ≡ replicate (length set.old) false }
    ensures counted { count.new ≡ 0 }
{
    if *count == 0 {
        return;
    }
    set.clear();
    *count = 0;
}

/// The lowest of those that are set.
fn lowest_of(set: &Summary, count: u32) -> Option<u32>
    requires { count ≡ marked_count set.now }
    ensures lowest { MatchOption result (HasNone (has set.now) 0) (IsLowest (has set.now) 0) }
    ensures within { IfSome result (λ found. found < length set.now) }
{
    if count == 0 {
        return None;
    }
    set.lowest()
}

impl Fingers {
    /// No finger is set of those below `count`. No call takes memory afterwards.
    pub fn new(alloc: Global, count: u32) -> Result<Fingers, AllocError>
        ensures { IfOk result (λ fingers. fingers ≡ replicate count false) }
    {
        let set = Summary::new(alloc, count)?;
        Ok(Fingers { set, count: 0 })
    }

    /// Whether no finger is set.
    pub fn is_empty(&self) -> bool
        ensures { result ≡ (marked_count self.now == 0) }
    {
        self.count == 0
    }

    /// A finger is set.
    pub fn set(&mut self, finger: u32)
        requires { finger < length self.old }
        ensures { self.new ≡ slice_set self.old finger true }
    {
        join(&mut self.set, &mut self.count, finger);
    }

    /// A finger falls.
    pub fn remove(&mut self, finger: u32)
        requires { finger < length self.old }
        ensures { self.new ≡ slice_set self.old finger false }
    {
        leave(&mut self.set, &mut self.count, finger);
    }

    /// No finger is set.
    pub fn clear(&mut self)
        ensures { self.new ≡ replicate (length self.old) false }
    {
        empty(&mut self.set, &mut self.count);
    }

    /// The lowest finger that is set.
    pub fn lowest(&self) -> Option<u32>
        ensures lowest { MatchOption result (HasNone (has self.now) 0) (IsLowest (has self.now) 0) }
        ensures within { IfSome result (λ found. found < length self.now) }
    {
        lowest_of(&self.set, self.count)
    }
}
