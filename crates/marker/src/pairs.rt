//! Pairs while marking runs: what a marked object holds for a marked key is marked.
//!
//! ```text
//!   an object of pairs     keys          held          what is done
//!   marked                 k, marked     b             b is marked
//!   marked                 k, unmarked   b             nothing yet: k may be marked later
//!   marked                 nil, or new   b             nothing: nil holds nothing, and who put b for a new key had it in a register
//!   unmarked               k             b             nothing yet: the object may be marked later
//! ```
//!
//! A key can be marked long after the object that has it was scanned. So `finish` goes over the objects of pairs in passes, until one finds
//! nothing more to mark. A pass looks at each object with weak slots once, by rising address, and what it marks is scanned at once, so that
//! further keys are marked within the same pass. Pairs that lead to each other by rising address take two passes. By falling address each
//! pass finds one pair more, and n of them take n + 1 passes, which is quadratic in n. A pass that is repeated has marked an object, so
//! there are at most as many as objects are marked, and one.
//!
//! In a table in which no object of pairs was made, nothing is looked at.

ghost use Rattle.std.specs.Prelude.{◌≡◌, ℕ, ◌<◌, ◌↔◌, true, false, length, IsTrue, IsSome};
ghost use Rattle.regions.specs.Table.{held_at, object_at};
ghost use Rattle.mark_bitmap.specs.Marks.{is_marked, marked_count, HasNone};
ghost use Rattle.mark_bitmap.specs.Grey.{is_grey, KeepsPlace};
ghost use Rattle.marker.specs.Stands.{MarkerStands};
ghost use Rattle.marker.specs.Steps.{KeepsSnapshots, SameRoles, Grows, ScansMore};
ghost use Rattle.marker.specs.Pairs.{IsMarkedKey, FollowsSlot, FollowsHeld, FollowsPairs, HasFollowedPairs};

use crate::marker::Marker;
use heap_words::addr::{Addr, Ptr};
use mark_bitmap::marks::Marks;
use regions::RegionTable;

/// Whether a key leads to a marked object.
fn is_marked_key(marks: &Marks, key: Ptr) -> bool
    ensures { IsTrue result ↔ IsMarkedKey marks.now key }
{
    let Some(at) = key else {
        return false;
    };
    if at.word() >= marks.len() {
        return false;
    }
    marks.get(at)
}

impl Marker {
    /// Marks what a marked object holds in a slot, if its key is marked.
    fn reach_slot(&mut self, table: &RegionTable, object: Addr, slot: u32)
        requires stands { MarkerStands table.now self.old }
        requires running { self.old.running ≡ true }
        requires marked { is_marked self.old.bitmaps.next object ≡ true }
        requires within { slot < length (held_at table.now object) }
        ensures stands { MarkerStands table.now self.new }
        ensures snapshots { KeepsSnapshots table.now self.old self.new }
        ensures held { FollowsSlot table.now self.old self.new object slot }
        ensures marked { (a : ℕ) → is_marked self.old.bitmaps.next a ≡ true → is_marked self.new.bitmaps.next a ≡ true }
        ensures same { SameRoles self.old self.new }
        ensures scanned { self.new.grey.scanned ≡ self.old.grey.scanned }
        ensures scans { self.new.scans ≡ self.old.scans }
        ensures logs { self.new.logs ≡ self.old.logs }
        ensures waiting { self.new.waiting ≡ self.old.waiting }
    {
        table.law();
        let key = table.get_weak(object, slot);
        if is_marked_key(&self.bitmaps.next, key) {
            self.reach(table, table.get_held(object, slot));
        }
    }

    /// Marks what a marked object holds for marked keys.
    fn reach_held(&mut self, table: &RegionTable, object: Addr)
        requires stands { MarkerStands table.now self.old }
        requires running { self.old.running ≡ true }
        requires marked { is_marked self.old.bitmaps.next object ≡ true }
        requires there { IsSome (object_at table.now object) }
        ensures stands { MarkerStands table.now self.new }
        ensures snapshots { KeepsSnapshots table.now self.old self.new }
        ensures held { FollowsHeld table.now self.old self.new object }
        ensures marked { (a : ℕ) → is_marked self.old.bitmaps.next a ≡ true → is_marked self.new.bitmaps.next a ≡ true }
        ensures same { SameRoles self.old self.new }
        ensures scanned { self.new.grey.scanned ≡ self.old.grey.scanned }
        ensures scans { self.new.scans ≡ self.old.scans }
        ensures logs { self.new.logs ≡ self.old.logs }
        ensures waiting { self.new.waiting ≡ self.old.waiting }
    {
        for slot in 0..table.held_count(object) {
            self.reach_slot(table, object, slot);
        }
    }

    /// The same of an object that may be marked, and what is grey then is scanned.
    fn follow_object(&mut self, table: &RegionTable, object: Addr)
        requires stands { MarkerStands table.now self.old }
        requires running { self.old.running ≡ true }
        requires none_left { HasNone (is_grey self.old.bitmaps.next self.old.grey) 0 }
        requires there { IsSome (object_at table.now object) }
        ensures none_left { HasNone (is_grey self.new.bitmaps.next self.new.grey) 0 }
        ensures held { is_marked self.old.bitmaps.next object ≡ true → FollowsHeld table.now self.old self.new object }
        ensures work { ScansMore self.old self.new }
        ensures grows { Grows self.old self.new }
        ensures stands { MarkerStands table.now self.new }
        ensures snapshots { KeepsSnapshots table.now self.old self.new }
        ensures same { SameRoles self.old self.new }
        ensures logs { self.new.logs ≡ self.old.logs }
        ensures waiting { self.new.waiting ≡ self.old.waiting }
    {
        table.law();
        if self.bitmaps.next.get(object) {
            self.reach_held(table, object);
            self.scan_objects(table, u32::MAX);
        }
    }

    /// One pass: marks what objects that were marked hold for keys that were marked, and scans what is grey then. Whether something was
    /// marked.
    fn follow_pairs(&mut self, table: &RegionTable) -> bool
        requires stands { MarkerStands table.now self.old }
        requires running { self.old.running ≡ true }
        requires none_left { HasNone (is_grey self.old.bitmaps.next self.old.grey) 0 }
        ensures none_left { HasNone (is_grey self.new.bitmaps.next self.new.grey) 0 }
        ensures held { FollowsPairs table.now self.old self.new }
        ensures more { result ≡ true → marked_count self.old.grey.scanned < marked_count self.new.grey.scanned }
        ensures over { result ≡ false → marked_count self.new.grey.scanned ≡ marked_count self.old.grey.scanned }
        ensures work { ScansMore self.old self.new }
        ensures grows { Grows self.old self.new }
        ensures stands { MarkerStands table.now self.new }
        ensures snapshots { KeepsSnapshots table.now self.old self.new }
        ensures same { SameRoles self.old self.new }
        ensures logs { self.new.logs ≡ self.old.logs }
        ensures waiting { self.new.waiting ≡ self.old.waiting }
    {
        let before = self.scans.since();
        let mut left = table.next_with_weaks(Addr::new(0));
        while let Some(object) = left {
            table.law();
            let behind = Addr::new(object.word() + 1);
            self.follow_object(table, object);
            left = table.next_with_weaks(behind);
        }
        self.scans.since() != before
    }

    /// As many passes as mark something, and one that marks nothing.
    #[inline(never)]
    fn follow_all_pairs(&mut self, table: &RegionTable)
        requires stands { MarkerStands table.now self.old }
        requires running { self.old.running ≡ true }
        requires none_left { HasNone (is_grey self.old.bitmaps.next self.old.grey) 0 }
        ensures none_left { HasNone (is_grey self.new.bitmaps.next self.new.grey) 0 }
        ensures pairs { HasFollowedPairs table.now self.new }
        ensures work { ScansMore self.old self.new }
        ensures grows { Grows self.old self.new }
        ensures stands { MarkerStands table.now self.new }
        ensures snapshots { KeepsSnapshots table.now self.old self.new }
        ensures same { SameRoles self.old self.new }
        ensures logs { self.new.logs ≡ self.old.logs }
        ensures waiting { self.new.waiting ≡ self.old.waiting }
    {
        let mut more = true;
        'passes: while more {
            more = self.follow_pairs(table);
        }
    }

    /// Scans all grey objects, and follows all pairs: but for logs and roots nothing is left to be marked.
    pub(crate) fn mark_rest(&mut self, table: &RegionTable)
        requires stands { MarkerStands table.now self.old }
        requires running { self.old.running ≡ true }
        ensures none_left { HasNone (is_grey self.new.bitmaps.next self.new.grey) 0 }
        ensures pairs { HasFollowedPairs table.now self.new }
        ensures work { ScansMore self.old self.new }
        ensures grows { Grows self.old self.new }
        ensures stands { MarkerStands table.now self.new }
        ensures snapshots { KeepsSnapshots table.now self.old self.new }
        ensures same { SameRoles self.old self.new }
        ensures logs { self.new.logs ≡ self.old.logs }
        ensures waiting { self.new.waiting ≡ self.old.waiting }
    {
        table.law();
        self.scan_objects(table, u32::MAX);
        if table.may_have_pairs() {
            self.follow_all_pairs(table);
        }
    }
}
