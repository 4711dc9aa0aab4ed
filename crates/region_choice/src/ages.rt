//! How old regions are: the order in which they were taken, and which of them are young.
//!
//! A region that is taken gets a stamp, the next number. It is young until all regions are made old, which is one number more to
//! remember: up to it stamps are old. A region that is released has no stamp.
//!
//! ```text
//!               new    take 2    take 0    make_all_old    take 1    forget 2    take 2
//!   region 0     -        -         2            2            2          2          2
//!   region 1     -        -         -            -            3          3          3
//!   region 2     -        1         1            1            1          -          4
//!   old up to    0        0         0            2            2          2          2
//!   young       none      2        2 0         none           1          1         1 2
//! ```
//!
//! A choice by age takes the rows of young regions in this order, the one that was taken first in front.
//!
//! ```rust
//! use heap_words::addr::RegionNo;
//! use region_choice::RegionAges;
//!
//! let mut ages = RegionAges::new(alloc, 4)?;
//! ages.take(RegionNo::new(2));
//! ```

ghost use Rattle.std.specs.Prelude.{◌≡◌, ℕ, ◌+◌, ◌<◌, ◌≤◌, ◌↔◌, IfOk, IsPermutation, IsSorted, IsTrue, Some, length, replicate, slice_get};
ghost use Rattle.std.specs.Prelude.{take};
ghost use Rattle.region_choice.specs.Ages.{age_cmp, stamp_of, IsYoung};
ghost use Rattle.region_choice.specs.Choice.{copy_limit, live_sum};

use crate::{Chosen, LiveRow, front_within, limit_of};
use heap_words::addr::RegionNo;
use std::alloc::{AllocError, Global};
use std::marker::Model;

/// The order in which regions were taken.
#[derive(Drop)]
pub struct RegionAges {
    stamps: Vec<u64>,
    last: u64,
    old_up_to: u64,
}

impl Model for RegionAges {
    ghost use Rattle.region_choice.specs.Ages.{Ages, AreGiven};

    ghost Value = { Ages };

    ghost view = { λ a. record { stamps = a.stamps.items; last = a.last; old_up_to = a.old_up_to } };

    ghost invariant = { λ a. AreGiven (record { stamps = a.stamps.items; last = a.last; old_up_to = a.old_up_to }) };
}

fn no_stamps(alloc: Global, count: usize) -> Result<Vec<u64>, AllocError>
    ensures { IfOk result (λ v. v.items ≡ replicate count 0) }
{
    vec![in alloc; 0; count]
}

impl RegionAges {
    ghost use Rattle.region_choice.specs.Ages.{AreGiven, all_old, fresh_ages, with_forgotten, with_taken};

    /// The ages of so many regions, none of which was taken. The answer is an error where there is no memory for a word a region.
    ///
    /// ```rust
    /// let fresh = RegionAges::new(alloc, 4)?;
    /// assert!(rt; !fresh.is_young(RegionNo::new(2)));
    /// ```
    pub fn new(alloc: Global, regions: u32) -> Result<RegionAges, AllocError>
        ensures { IfOk result (λ a. a ≡ fresh_ages regions) }
    {
        let stamps = no_stamps(alloc, regions as usize)?;
        Ok(RegionAges {
            stamps,
            last: 0,
            old_up_to: 0,
        })
    }

    /// A region is taken, and is younger than all others. From the 2^64th on that is taken, they are as young as the last before: none
    /// of them older, and young until all are made old.
    ///
    /// ```rust
    /// ages.take(RegionNo::new(0));
    /// assert!(rt; ages.is_young(RegionNo::new(0)));
    /// ```
    pub fn take(&mut self, region: RegionNo)
        requires { region < length self.old.stamps }
        ensures taken { self.new ≡ with_taken self.old region }
        ensures youngest { (k : ℕ) → stamp_of self.new k ≤ stamp_of self.new region }
        ensures positive { 0 < stamp_of self.new region }
    {
        self.last = self.last.saturating_add(1);
        self.stamps[region.number() as usize] = self.last;
    }

    /// A region is released: it isn't young, and if it is taken again, it is as young as any then.
    ///
    /// ```rust
    /// ages.forget(RegionNo::new(2));
    /// assert!(rt; !ages.is_young(RegionNo::new(2)));
    /// ```
    pub fn forget(&mut self, region: RegionNo)
        requires { region < length self.old.stamps }
        ensures { self.new ≡ with_forgotten self.old region }
    {
        self.stamps[region.number() as usize] = 0;
    }

    /// No region is young any more. It costs the same for many regions as for few.
    ///
    /// ```rust
    /// ages.make_all_old();
    /// assert!(rt; !ages.is_young(RegionNo::new(2)));
    /// ```
    pub fn make_all_old(&mut self)
        ensures made { self.new ≡ all_old self.old }
        ensures none { (k : ℕ) → stamp_of self.new k ≤ self.new.old_up_to }
    {
        self.old_up_to = self.last;
    }

    /// Whether a region was taken since all were made old, and wasn't released.
    ///
    /// ```rust
    /// assert!(rt; ages.is_young(RegionNo::new(2)));
    /// assert!(rt; !ages.is_young(RegionNo::new(1)));
    /// ```
    #[inline(always)]
    pub fn is_young(&self, region: RegionNo) -> bool
        ensures { IsTrue result ↔ IsYoung self.now region }
    {
        self.old_up_to < self.stamp(region)
    }

    /// When a region was taken, as a number that is higher for later ones; 0 where it wasn't, or was released.
    #[inline(always)]
    fn stamp(&self, region: RegionNo) -> u64
        ensures { result ≡ stamp_of self.now region }
    {
        match self.stamps.get(region.number() as usize) {
            Some(stamp) => *stamp,
            None => 0,
        }
    }

    /// Tells a proof that stamps are given in order. It does nothing.
    pub fn law(&self)
        ensures { AreGiven self.now }
    {
        let _ = &self.last;
    }
}

/// Sorts rows by age, those of the regions that were taken first in front, and answers how many of them are taken, and the sum of their
/// live bounds: the longest front within the copy limit, where a region has `words` words and `free` regions are free.
pub fn choose_by_age(
    rows: &mut [LiveRow],
    ages: &RegionAges,
    words: u32,
    budget: u64,
    free: u32,
) -> Chosen
    ensures same { IsPermutation rows.old rows.new }
    ensures sorted { IsSorted (age_cmp ages.now) rows.new }
    ensures count { result.count ≤ length rows.new }
    ensures sum { result.sum ≡ live_sum (take result.count rows.new) }
    ensures within { result.sum ≤ copy_limit words budget free }
    ensures next { (row : LiveRow) → slice_get rows.new result.count ≡ Some row
        → copy_limit words budget free < result.sum + row.live_bound }
{
    rows.sort_unstable_by_key(|row| (ages.stamp(row.region), row.region.number()));
    front_within(rows, limit_of(words, budget, free))
}
