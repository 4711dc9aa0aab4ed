//! Sets of numbers whose lowest member is found in three steps, however far it lies.
//!
//! Above the set stands a set of groups, each of 64 numbers, that has the groups with a member; and above that a set of
//! blocks, each of 64 groups.
//!
//! ```text
//!   blocks     0: yes                              | 1: no ..             one number for 4,096
//!   groups     0: no     | 1: yes    | 2: no  ..   | 64: no ..            one number for 64
//!   members    0 ..  63  | 64 ..  70 | 128 ..      | 4,096 ..
//!                               ^ lowest: block 0, in it group 1, in it 70
//! ```
//!
//! A number that comes enters each level, and one that goes leaves each level where it was the last one. So a call
//! costs a word a level, whatever the set has. That holds for up to 262,144 numbers, of which the blocks fit one word;
//! with more the lowest block is searched for. All words are written when a set is made: for the fingers of a heap that is one for 4,096
//! of its own, 4 MiB for 16 GiB.

ghost use Rattle.std.specs.Prelude.{◌≡◌, ◌≢◌, ◌*◌, ◌/◌, ◌^◌, ◌<◌, ℕ, false, true, IfOk, IfSome, length, MatchOption, replicate, slice_set};
ghost use Rattle.std.specs.Int.{div_ceil};
ghost use Rattle.bit_sets.specs.Bits.{has, HasNone, IsLowest};
ghost use Rattle.mark_bitmap.specs.Summary.{AreLevels, HasMember, HasNoMember, IsMember, IsSummary};

use bit_sets::small_bits::SmallBits;
use std::alloc::{AllocError, Global};
use std::marker::Model;

/// A set of numbers below a length that is given when it is made. Clauses see a flag for each number.
pub struct Summary {
    members: SmallBits,
    groups: SmallBits,
    blocks: SmallBits,
}

impl Model for Summary {
    ghost use Rattle.std.specs.Prelude.{List, Bool};
    ghost use Rattle.mark_bitmap.specs.Summary.{AreLevels};

    ghost Value = { List Bool };

    ghost view = { λ s. s.members };

    ghost invariant = { λ s. AreLevels s.members s.groups s.blocks };
}

/// Where it is let go there is one call, and not a drop for each of its parts.
impl Drop for Summary {
    fn drop(self) {
        let Summary {
            members: _,
            groups: _,
            blocks: _,
        } = self;
    }
}

/// The lowest member of a group.
fn lowest_member(set: &SmallBits, group: u32) -> Option<u32>
    requires { 64 * group < length set.now }
    ensures { MatchOption result (HasNoMember (has set.now) group) (IsMember (has set.now) group) }
{
    set.lowest_in(group)
}

/// The lowest member of a group that has one.
#[tactic(auto, using(crate::proofs::Summaries::has_some))]
fn first_member(set: &SmallBits, group: u32) -> u32
    requires known { 64 * group < length set.now }
    requires some { HasMember (has set.now) group }
    ensures { IsMember (has set.now) group result }
{
    set.first_in(group)
}

/// The lowest block. Mostly it stands in the first word.
fn lowest_block(blocks: &SmallBits) -> Option<u32>
    ensures { MatchOption result (HasNone (has blocks.now) 0) (IsLowest (has blocks.now) 0) }
{
    if blocks.len() == 0 {
        return blocks.next(0);
    }
    match blocks.lowest_in(0) {
        Some(found) => Some(found),
        None => blocks.next(0),
    }
}

/// A group leaves the groups above a set, if it has no member. Whether it left.
fn leave_groups(set: &SmallBits, groups: &mut SmallBits, group: u32) -> bool
    requires known { group < length groups.old }
    requires count { length groups.old ≡ div_ceil (length set.now) 64 }
    requires each { (a : ℕ) → has set.now a ≡ true → has groups.old (a / 64) ≡ true }
    requires others { (i : ℕ) → i ≢ group → has groups.old i ≡ true → HasMember (has set.now) i }
    ensures count { length groups.new ≡ length groups.old }
    ensures fewer { (i : ℕ) → has groups.new i ≡ true → has groups.old i ≡ true }
    ensures others { (i : ℕ) → i ≢ group → has groups.new i ≡ has groups.old i }
    ensures summary { IsSummary (has set.now) groups.new }
    ensures stayed { result ≡ false → groups.new ≡ groups.old }
{
    if lowest_member(set, group).is_some() {
        return false;
    }
    groups.remove(group);
    true
}

/// A number that isn't in the set any more leaves the groups, and its group the blocks, where it was the last one.
fn leave_levels(members: &SmallBits, groups: &mut SmallBits, blocks: &mut SmallBits, number: u32)
    requires known { number < length members.now }
    requires group_count { length groups.old ≡ div_ceil (length members.now) 64 }
    requires block_count { length blocks.old ≡ div_ceil (length groups.old) 64 }
    requires each { (a : ℕ) → has members.now a ≡ true → has groups.old (a / 64) ≡ true }
    requires others { (i : ℕ) → i ≢ number / 64 → has groups.old i ≡ true → HasMember (has members.now) i }
    requires block_summary { IsSummary (has groups.old) blocks.old }
    ensures { AreLevels members.now groups.new blocks.new }
{
    let group = number / 64;
    if !leave_groups(members, groups, group) {
        return;
    }
    leave_groups(groups, blocks, group / 64);
}

impl Summary {
    /// The empty set of the numbers below `count`. No call takes memory afterwards.
    pub fn new(alloc: Global, count: u32) -> Result<Summary, AllocError>
        ensures { IfOk result (λ summary. summary ≡ replicate count false) }
    {
        let groups = count.div_ceil(64);
        Ok(Summary {
            members: SmallBits::new(alloc, count)?,
            groups: SmallBits::new(alloc, groups)?,
            blocks: SmallBits::new(alloc, groups.div_ceil(64))?,
        })
    }

    /// Tells a proof what is known of each set: its numbers are below 2 to the 32nd. It does nothing.
    pub fn law(&self)
        ensures { length self.now < 2 ^ 32 }
    {
        self.members.law();
    }

    /// Whether a number is in the set.
    pub fn get(&self, number: u32) -> bool
        requires { number < length self.now }
        ensures { result ≡ has self.now number }
    {
        self.members.get(number)
    }

    /// A number is in the set. Where its group has a member already, so have the levels above.
    pub fn set(&mut self, number: u32)
        requires { number < length self.old }
        ensures { self.new ≡ slice_set self.old number true }
    {
        let lowest = lowest_member(&self.members, number / 64);
        self.members.set(number);
        if lowest.is_some() {
            return;
        }
        self.groups.set(number / 64);
        self.blocks.set(number / 64 / 64);
    }

    /// A number is not in the set.
    pub fn remove(&mut self, number: u32)
        requires { number < length self.old }
        ensures { self.new ≡ slice_set self.old number false }
    {
        self.members.remove(number);
        leave_levels(&self.members, &mut self.groups, &mut self.blocks, number);
    }

    /// The set is empty.
    pub fn clear(&mut self)
        ensures { self.new ≡ replicate (length self.old) false }
    {
        self.members.clear();
        self.groups.clear();
        self.blocks.clear();
    }

    /// The lowest number of the set.
    pub fn lowest(&self) -> Option<u32>
        ensures lowest { MatchOption result (HasNone (has self.now) 0) (IsLowest (has self.now) 0) }
        ensures within { IfSome result (λ found. found < length self.now) }
    {
        let block = lowest_block(&self.blocks)?;
        let group = first_member(&self.groups, block);
        Some(first_member(&self.members, group))
    }
}
