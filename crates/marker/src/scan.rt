//! Scans: the old targets of grey objects are marked.
//!
//! ```text
//!   grey     marked, and not scanned: its targets are still to be marked
//!   scanned  marked, and so are its old targets as they were at the scan
//! ```
//!
//! In the third format words are counted, and an object may be scanned in part: it stays grey and held, and how many of its words were
//! looked at is kept. So one call looks at no more words than it is asked to, however large an object is.
//!
//! ```text
//!   mark 7, in the third format      roots that wait     a grey object, 2 pointers    a grey object, 3 pointers
//!   counted                          1      2            5                            7: itself and its first pointer
//!   mark 7                                                                            2: the others, and it is scanned
//! ```

ghost use Rattle.std.specs.Prelude.{◌≡◌, ℕ, ◌+◌, ◌^◌, ◌<◌, ◌≤◌, [], true, false, Some, length, slice_set};
ghost use Rattle.regions.specs.Table.{pointers_at};
ghost use Rattle.mark_bitmap.specs.Marks.{is_marked, marked_count, HasNone};
ghost use Rattle.mark_bitmap.specs.Tops.{below_next};
ghost use Rattle.mark_bitmap.specs.Grey.{is_grey, KeepsPlace};
ghost use Rattle.marker.specs.Stands.{MarkerStands, IsKept};
ghost use Rattle.marker.specs.Views.{is_by_address};
ghost use Rattle.marker.specs.Roots.{IsInSpan};
ghost use Rattle.marker.specs.Steps.{KeepsSnapshots, SameRoles, MarksWanted, Grows, ScansMore};
ghost use Rattle.marker.specs.Looks.{MarksUpTo, words_of_scan, words_scanned};
ghost use Rattle.marker.specs.Counts.{added, IsMore};

use crate::marker::{Marker, is_by_address};
use heap_words::addr::{Addr, Ptr};
use heap_words::config::Format;
use regions::RegionTable;

impl Marker {
    /// Marks what a pointer leads to, unless it is marked or was made since marking began. The tests are part of the caller.
    #[inline(always)]
    pub(crate) fn reach(&mut self, table: &RegionTable, target: Ptr)
        requires stands { MarkerStands table.now self.old }
        requires running { self.old.running ≡ true }
        requires kept { (a : ℕ) → target ≡ Some a → below_next table.now self.old.tams a ≡ true → IsKept table.now self.old a }
        ensures stands { MarkerStands table.now self.new }
        ensures marks { MarksWanted table.now (λ a. target ≡ Some a) self.old self.new }
        ensures same { SameRoles self.old self.new }
        ensures scanned { self.new.grey.scanned ≡ self.old.grey.scanned }
        ensures place { KeepsPlace self.old.grey self.new.grey }
        ensures scans { self.new.scans ≡ self.old.scans }
        ensures logs { self.new.logs ≡ self.old.logs }
        ensures waiting { self.new.waiting ≡ self.old.waiting }
    {
        let Some(at) = target else {
            return;
        };
        table.law();
        if self.tams.lies_below_next(table, at) {
            self.reach_old(table, at);
        }
    }

    /// Marks an old object, unless it is marked, by one look at its bit. It is grey then, and its words are counted.
    #[inline(always)]
    fn reach_old(&mut self, table: &RegionTable, at: Addr)
        requires stands { MarkerStands table.now self.old }
        requires running { self.old.running ≡ true }
        requires below { below_next table.now self.old.tams at ≡ true }
        requires kept { IsKept table.now self.old at }
        ensures stands { MarkerStands table.now self.new }
        ensures marks { MarksWanted table.now (λ a. at ≡ a) self.old self.new }
        ensures same { SameRoles self.old self.new }
        ensures scanned { self.new.grey.scanned ≡ self.old.grey.scanned }
        ensures place { KeepsPlace self.old.grey self.new.grey }
        ensures scans { self.new.scans ≡ self.old.scans }
        ensures logs { self.new.logs ≡ self.old.logs }
        ensures waiting { self.new.waiting ≡ self.old.waiting }
    {
        table.law();
        if !self.bitmaps.next.insert(at) {
            return;
        }
        let size = table.object_size(at);
        self.grey.add(at);
        self.live.add(table.region_of(at), size);
    }

    /// The grey object that is held enters the scanned ones, and the next one is held. The object's targets are still to be marked.
    #[inline(always)]
    fn enter(&mut self, table: &RegionTable, object: Addr)
        requires stands { MarkerStands table.now self.old }
        requires running { self.old.running ≡ true }
        requires grey { is_grey self.old.bitmaps.next self.old.grey object ≡ true }
        requires held { self.old.grey.held ≡ Some object }
        ensures stands { MarkerStands table.now self.new }
        ensures next { self.new.bitmaps.next ≡ self.old.bitmaps.next }
        ensures whole { self.new.grey.looked ≡ 0 }
        ensures scanned { self.new.grey.scanned ≡ slice_set self.old.grey.scanned object true }
        ensures counted { self.new.scans ≡ added self.old.scans }
        ensures same { SameRoles self.old self.new }
        ensures logs { self.new.logs ≡ self.old.logs }
        ensures waiting { self.new.waiting ≡ self.old.waiting }
    {
        table.law();
        self.grey.remove(&self.bitmaps.next, object);
        self.scans.add();
    }

    /// Marks what an object's pointers from one on lead to, up to another one, which is not one of them: what was there when marking began.
    #[inline(always)]
    fn reach_pointers(&mut self, table: &RegionTable, object: Addr, from: u32, to: u32)
        requires stands { MarkerStands table.now self.old }
        requires running { self.old.running ≡ true }
        requires marked { is_marked self.old.bitmaps.next object ≡ true }
        requires order { from ≤ to }
        requires within { to ≤ length (pointers_at table.now object) }
        ensures stands { MarkerStands table.now self.new }
        ensures marks { MarksWanted table.now (IsInSpan (pointers_at table.now object) from to) self.old self.new }
        ensures same { SameRoles self.old self.new }
        ensures scanned { self.new.grey.scanned ≡ self.old.grey.scanned }
        ensures place { KeepsPlace self.old.grey self.new.grey }
        ensures scans { self.new.scans ≡ self.old.scans }
        ensures logs { self.new.logs ≡ self.old.logs }
        ensures waiting { self.new.waiting ≡ self.old.waiting }
    {
        for field in from..to {
            let target = table.get_ptr(object, field);
            self.reach(table, target);
        }
    }

    /// Scans the grey object that is held, or what is left of it: each of its targets that was there when marking began is marked.
    #[inline(always)]
    fn scan(&mut self, table: &RegionTable, object: Addr)
        requires stands { MarkerStands table.now self.old }
        requires running { self.old.running ≡ true }
        requires grey { is_grey self.old.bitmaps.next self.old.grey object ≡ true }
        requires held { self.old.grey.held ≡ Some object }
        ensures stands { MarkerStands table.now self.new }
        ensures snapshots { KeepsSnapshots table.now self.old self.new }
        ensures grows { Grows self.old self.new }
        ensures whole { self.new.grey.looked ≡ 0 }
        ensures scanned { self.new.grey.scanned ≡ slice_set self.old.grey.scanned object true }
        ensures counted { self.new.scans ≡ added self.old.scans }
        ensures same { SameRoles self.old self.new }
        ensures logs { self.new.logs ≡ self.old.logs }
        ensures waiting { self.new.waiting ≡ self.old.waiting }
    {
        let done = self.grey.looked().saturating_sub(1);
        let count = table.pointer_count(object);
        // It isn't grey any more before its targets are, so that down a list one object is grey at a time.
        self.enter(table, object);
        self.reach_pointers(table, object, done, count);
    }

    /// Looks at so many words more of the grey object that is held, and not at all that are left: the targets among them are marked. It
    /// stays held and grey.
    #[inline(never)]
    fn look(&mut self, table: &RegionTable, object: Addr, words: u32)
        requires stands { MarkerStands table.now self.old }
        requires running { self.old.running ≡ true }
        requires grey { is_grey self.old.bitmaps.next self.old.grey object ≡ true }
        requires held { self.old.grey.held ≡ Some object }
        requires some { 0 < words }
        requires fewer { self.old.grey.looked + words < words_of_scan table.now object }
        requires fits { self.old.grey.looked + words < 2 ^ 32 }
        ensures stands { MarkerStands table.now self.new }
        ensures snapshots { KeepsSnapshots table.now self.old self.new }
        ensures grows { Grows self.old self.new }
        ensures looked { self.new.grey.looked ≡ self.old.grey.looked + words }
        ensures scanned { self.new.grey.scanned ≡ self.old.grey.scanned }
        ensures scans { self.new.scans ≡ self.old.scans }
        ensures same { SameRoles self.old self.new }
        ensures logs { self.new.logs ≡ self.old.logs }
        ensures waiting { self.new.waiting ≡ self.old.waiting }
    {
        let looked = self.grey.looked();
        self.grey.look(looked + words);
        self.reach_pointers(table, object, looked.saturating_sub(1), looked + words - 1);
    }

    /// Scans up to `most` grey objects, and says how many: fewer only if none is left. Which ones, no clause says: in the first two
    /// formats the lowest first, in the third the one that was found last.
    pub(crate) fn scan_objects(&mut self, table: &RegionTable, most: u32) -> u32
        requires stands { MarkerStands table.now self.old }
        requires running { self.old.running ≡ true }
        ensures most { result ≤ most }
        ensures none_left { result < most → HasNone (is_grey self.new.bitmaps.next self.new.grey) 0 }
        ensures count { marked_count self.new.grey.scanned ≡ marked_count self.old.grey.scanned + result }
        ensures scans { IsMore self.old.scans self.new.scans result }
        ensures grows { Grows self.old self.new }
        ensures stands { MarkerStands table.now self.new }
        ensures snapshots { KeepsSnapshots table.now self.old self.new }
        ensures same { SameRoles self.old self.new }
        ensures logs { self.new.logs ≡ self.old.logs }
        ensures waiting { self.new.waiting ≡ self.old.waiting }
    {
        for done in 0..most {
            let Some(object) = self.grey.any(&self.bitmaps.next) else {
                return done;
            };
            self.scan(table, object);
        }
        most
    }

    /// How many words of the object that is held were not looked at yet.
    #[inline(always)]
    fn words_left(&self, table: &RegionTable, object: Addr) -> u64
        requires stands { MarkerStands table.now self.now }
        requires running { self.now.running ≡ true }
        requires grey { is_grey self.now.bitmaps.next self.now.grey object ≡ true }
        requires held { self.now.grey.held ≡ Some object }
        ensures left { result + self.now.grey.looked ≡ words_of_scan table.now object }
        ensures some { 0 < result }
        ensures fits { result + self.now.grey.looked ≤ 2 ^ 32 }
    {
        u64::from(table.pointer_count(object)) + 1 - u64::from(self.grey.looked())
    }

    /// Scans grey objects until `most` words are looked at, the last object only in part if it has more, and says how many: fewer only if
    /// none is left.
    fn scan_words(&mut self, table: &RegionTable, most: u32) -> u32
        requires stands { MarkerStands table.now self.old }
        requires running { self.old.running ≡ true }
        ensures most { result ≤ most }
        ensures none_left { result < most → HasNone (is_grey self.new.bitmaps.next self.new.grey) 0 }
        ensures count { words_scanned table.now self.new ≡ words_scanned table.now self.old + result }
        ensures work { ScansMore self.old self.new }
        ensures grows { Grows self.old self.new }
        ensures stands { MarkerStands table.now self.new }
        ensures snapshots { KeepsSnapshots table.now self.old self.new }
        ensures same { SameRoles self.old self.new }
        ensures logs { self.new.logs ≡ self.old.logs }
        ensures waiting { self.new.waiting ≡ self.old.waiting }
    {
        let mut done: u32 = 0;
        'objects: while done < most {
            let Some(object) = self.grey.any(&self.bitmaps.next) else {
                return done;
            };
            let left = self.words_left(table, object);
            if left > u64::from(most - done) {
                self.look(table, object, most - done);
                return most;
            }
            self.scan(table, object);
            done += left as u32;
        }
        done
    }

    /// Takes up to `most` of the roots that wait, the last ones first, and says how many: fewer only if none is left. What they name is
    /// marked.
    fn take_roots(&mut self, table: &RegionTable, most: usize) -> usize
        requires stands { MarkerStands table.now self.old }
        requires running { self.old.running ≡ true }
        ensures most { result ≤ most }
        ensures none_left { result < most → self.new.waiting.addresses ≡ [] }
        ensures count { length self.old.waiting.addresses ≡ length self.new.waiting.addresses + result }
        ensures marked { (a : ℕ) → is_marked self.old.bitmaps.next a ≡ true → is_marked self.new.bitmaps.next a ≡ true }
        ensures scanned { self.new.grey.scanned ≡ self.old.grey.scanned }
        ensures place { KeepsPlace self.old.grey self.new.grey }
        ensures scans { self.new.scans ≡ self.old.scans }
        ensures stands { MarkerStands table.now self.new }
        ensures snapshots { KeepsSnapshots table.now self.old self.new }
        ensures same { SameRoles self.old self.new }
        ensures logs { self.new.logs ≡ self.old.logs }
    {
        for taken in 0..most {
            let Some(at) = self.waiting.pop() else {
                return taken;
            };
            self.reach_old(table, at);
        }
        most
    }

    /// Takes all roots that wait.
    pub(crate) fn take_all_roots(&mut self, table: &RegionTable)
        requires stands { MarkerStands table.now self.old }
        requires running { self.old.running ≡ true }
        ensures none_left { self.new.waiting.addresses ≡ [] }
        ensures marked { (a : ℕ) → is_marked self.old.bitmaps.next a ≡ true → is_marked self.new.bitmaps.next a ≡ true }
        ensures scanned { self.new.grey.scanned ≡ self.old.grey.scanned }
        ensures scans { self.new.scans ≡ self.old.scans }
        ensures stands { MarkerStands table.now self.new }
        ensures snapshots { KeepsSnapshots table.now self.old self.new }
        ensures same { SameRoles self.old self.new }
        ensures logs { self.new.logs ≡ self.old.logs }
    {
        let all = self.waiting.len();
        self.take_roots(table, all);
    }

    /// Goes on with marking for up to `units` units, and says how many were counted: fewer only if nothing is left to be marked. In the
    /// first two formats a unit is an object that is scanned. In the third it is a word that is looked at: a root that waits, which come
    /// first, an object that is scanned, or one of its pointers. An object with more words than are left to be counted is scanned in part,
    /// and the next call goes on there.
    pub fn mark(&mut self, table: &RegionTable, format: Format, units: u32) -> u32
        requires stands { MarkerStands table.now self.old }
        requires running { self.old.running ≡ true }
        ensures counted { MarksUpTo (is_by_address format) table.now units result self.old self.new }
        ensures work { ScansMore self.old self.new }
        ensures grows { Grows self.old self.new }
        ensures stands { MarkerStands table.now self.new }
        ensures snapshots { KeepsSnapshots table.now self.old self.new }
        ensures same { SameRoles self.old self.new }
        ensures logs { self.new.logs ≡ self.old.logs }
    {
        if is_by_address(format) {
            self.take_all_roots(table);
            return self.scan_objects(table, units);
        }
        let roots = self.take_roots(table, units as usize) as u32;
        roots + self.scan_words(table, units - roots)
    }
}
