//! The clearing of weak slots, after the end of marking.
//!
//! A weak slot is a field that marking doesn't follow, so an object that weak slots alone lead to is found dead. While
//! marking runs, a mutator that reads one saves what it read, if that is old, and so it is marked. Once marking is over,
//! each slot of an object that stays either leads to what stays too, or becomes nil; the target's space can be
//! reclaimed only after that. It may be done in pieces: each looks at so many objects, and says where to go on.
//!
//! ```text
//!                    made      marking runs          marking ends                          later
//!   a weak slot      nil --->  what is overwritten -> its target is marked, or new: stays    it holds what is kept
//!                              isn't saved; what      its target is old and unmarked: nil    or nil
//!                              is read is saved
//!   of a dead object                                  stays, and is reclaimed with it
//! ```
//!
//! New is what was made since marking began. What a key of a pair held becomes nil where the key does. Only objects with weak
//! slots are looked at, each once: the set of their starts is searched, and no region is walked.

ghost use Rattle.std.specs.Prelude.{◌≡◌, ◌≤◌, ◌<◌, ◌↔◌, ℕ, None, IsSome, IsTrue};
ghost use Rattle.heap_model.specs.Weak.{cleared_word};
ghost use Rattle.regions.specs.Table.{object_at};
ghost use Rattle.mark_bitmap.specs.Kept.{MarksObjects};
ghost use Rattle.marker.specs.Views.{ended_marking_of};
ghost use Rattle.marker.specs.Clears.{IsStaying, ClearsSome, ClearsStaying, HasCleared, DropsHeld, IsBetween, LooksAt};

use crate::marker::Marker;
use heap_words::addr::{Addr, Ptr};
use regions::RegionTable;

/// What an object's nil keys hold becomes nil: so what is held goes with its key. A plain object holds nothing.
fn drop_held(table: &mut RegionTable, object: Addr)
    requires { IsSome (object_at table.old object) }
    ensures { DropsHeld table.old table.new object }
{
    table.law();
    let count = table.held_count(object);
    for slot in 0..count {
        match table.get_weak(object, slot) {
            None => table.set_held(object, slot, None),
            Some(_) => {}
        }
    }
}

/// How far clearing came: at how many objects it looked, and from which address on there may be more, if any.
#[derive(Drop)]
pub struct Progress {
    pub looked: u32,
    pub left: Ptr,
}

impl Marker {
    /// What a weak slot with such a word holds once it is cleared: the word, if it leads to what is marked or new, and else nil.
    pub fn lasting(&self, table: &RegionTable, target: Ptr) -> Ptr
        requires { MarksObjects table.now self.now.tams.previous self.now.bitmaps.previous }
        ensures { result ≡ cleared_word (ended_marking_of table.now self.now) target }
    {
        let Some(at) = target else {
            return None;
        };
        table.law();
        if self.tams.lies_below_previous(table, at) && !self.bitmaps.previous.get(at) {
            return None;
        }
        Some(at)
    }

    /// Whether the object at an address is kept: it is marked or new.
    fn keeps(&self, table: &RegionTable, at: Addr) -> bool
        requires { MarksObjects table.now self.now.tams.previous self.now.bitmaps.previous }
        ensures { IsTrue result ↔ IsStaying (ended_marking_of table.now self.now) at }
    {
        table.law();
        if !self.tams.lies_below_previous(table, at) {
            return true;
        }
        self.bitmaps.previous.get(at)
    }

    /// Clears the weak slots of an object, and what they held.
    fn clear_object(&self, table: &mut RegionTable, object: Addr)
        requires object { IsSome (object_at table.old object) }
        requires marks { MarksObjects table.old self.now.tams.previous self.now.bitmaps.previous }
        ensures { HasCleared (ended_marking_of table.old self.now) table.old table.new object }
    {
        table.law();
        let count = table.weak_count(object);
        for slot in 0..count {
            let target = self.lasting(table, table.get_weak(object, slot));
            table.set_weak(object, slot, target);
        }
        drop_held(table, object);
    }

    /// Clears the weak slots of an object, if it is one that stays.
    fn clear_staying(&self, table: &mut RegionTable, object: Addr)
        requires object { IsSome (object_at table.old object) }
        requires marks { MarksObjects table.old self.now.tams.previous self.now.bitmaps.previous }
        ensures { ClearsStaying (ended_marking_of table.old self.now) table.old table.new object }
    {
        if self.keeps(table, object) {
            self.clear_object(table, object);
        }
    }

    /// Clears the weak slots of all objects that stay, from an address on. It looks at the objects that have weak slots alone.
    pub fn clear_rest(&self, table: &mut RegionTable, from: Addr)
        requires { MarksObjects table.old self.now.tams.previous self.now.bitmaps.previous }
        ensures { ClearsSome (ended_marking_of table.old self.now) table.old table.new (λ (a : ℕ). from ≤ a) }
    {
        table.law();
        let mut left = table.next_with_weaks(from);
        while let Some(object) = left {
            table.law();
            let behind = Addr::new(object.word() + 1);
            self.clear_staying(table, object);
            left = table.next_with_weaks(behind);
        }
    }

    /// Looks at up to `units` objects that have weak slots, from an address on by rising address, and clears the slots of those that
    /// stay. It says at how many it looked, fewer only if no more are left, and where to go on.
    pub fn clear(&self, table: &mut RegionTable, from: Addr, units: u32) -> Progress
        requires { MarksObjects table.old self.now.tams.previous self.now.bitmaps.previous }
        ensures cleared { ClearsSome (ended_marking_of table.old self.now) table.old table.new (IsBetween from result.left) }
        ensures looked { LooksAt table.old from result.left result.looked }
        ensures most { result.looked ≤ units }
        ensures over { result.looked < units → result.left ≡ None }
    {
        table.law();
        let mut left = table.next_with_weaks(from);
        for looked in 0..units {
            let Some(object) = left else {
                return Progress { looked, left: None };
            };
            table.law();
            let behind = Addr::new(object.word() + 1);
            self.clear_staying(table, object);
            left = table.next_with_weaks(behind);
        }
        Progress {
            looked: units,
            left,
        }
    }
}
