//! The beginning of marking, deletion logs, and its end.

ghost use Rattle.std.specs.Prelude.{◌≡◌, ◌≢◌, ◌<◌, ◌≤◌, ◌==◌, if◌then◌else◌, ◌*◌, ◌↔◌};
ghost use Rattle.std.specs.Prelude.{ℕ, [], true, false, Some, IsTrue, Contains, length, slice_get, slice_index, slice_set};
ghost use Rattle.heap_model.specs.Graph.{Graph};
ghost use Rattle.heap_model.specs.Clearing.{WillShow, CanBeFollowed};
ghost use Rattle.heap_model.specs.Marking.{KeepsSnapshot, Begins, IsSaved};
ghost use Rattle.regions.specs.Table.{top_of};
ghost use Rattle.mark_bitmap.specs.Marks.{is_between, is_marked, marked_count};
ghost use Rattle.mark_bitmap.specs.Tops.{exchanged, is_in_region, with_bottom};
ghost use Rattle.mark_bitmap.specs.Grey.{KeepsPlace};
ghost use Rattle.satb_log.specs.Logs.{log_of};
ghost use Rattle.marker.specs.Views.{heap_of, is_by_address, marking_of};
ghost use Rattle.marker.specs.Stands.{MarkerStands, IsKept};
ghost use Rattle.marker.specs.Ends.{EndsExactly};
ghost use Rattle.marker.specs.Steps.{KeepsSnapshots, SameRoles, MarksWanted, ScansMore, saved};
ghost use Rattle.marker.specs.Roots.{AreNamedBelow, IsInFirst, NamesMarked, IsFirstUnmarked};
ghost use Rattle.marker.specs.Looks.{BeginsBy};
ghost use Rattle.marker.specs.Counts.{restarted};

use crate::marker::{Marker, is_by_address};
use heap_words::addr::{Addr, Ptr, RegionNo};
use heap_words::config::Format;
use mark_bitmap::marks::Marks;
use mark_bitmap::tams::Tams;
use regions::RegionTable;
use root_table::Roots;
use satb_log::logs::DeletionLog;

/// The next top of each region becomes its present top.
fn set_tops(tams: &mut Tams, table: &RegionTable)
    requires { length tams.old.next ≡ length table.now.regions }
    ensures tops { (k : ℕ) → k < length table.now.regions → slice_index tams.new.next k ≡ top_of table.now k }
    ensures len { length tams.new.next ≡ length tams.old.next }
    ensures previous { tams.new.previous ≡ tams.old.previous }
{
    for number in 0..table.region_count() {
        let region = RegionNo::new(number);
        tams.set_next(region, table.top(region));
    }
}

/// Whether a place names a marked object.
#[inline(always)]
fn names_marked(marks: &Marks, roots: &Roots, place: usize) -> bool
    requires known { place < length roots.now.words }
    requires marks { AreNamedBelow roots.now.words place (length marks.now) }
    ensures { IsTrue result ↔ NamesMarked marks.now roots.now.words place }
{
    let Some(at) = roots.get(place) else {
        return false;
    };
    marks.get(at)
}

/// The first place from `from` on that doesn't name a marked object, be it nil, unmarked or after the last one. A place costs one look
/// at a bit: the loop only reads, and is after a first look, so that the compiler keeps what it looks at in registers.
#[inline(always)]
fn past_marked(marks: &Marks, roots: &Roots, from: usize) -> usize
    requires { AreNamedBelow roots.now.words from (length marks.now) }
    ensures { IsFirstUnmarked marks.now roots.now.words from result }
{
    let mut place = from;
    'places: while place < roots.len() && names_marked(marks, roots, place) {
        place += 1;
    }
    place
}

/// Clears the addresses from `from` up to `to`, which is not one of them, where so many words are marked: none of them is where no word is,
/// and so none is looked at.
fn clear_counted(marks: &mut Marks, words: u32, from: Addr, to: Addr)
    requires within { to ≤ length marks.old }
    requires counted { words ≡ 0 → (a : ℕ) → from ≤ a → a < to → is_marked marks.old a ≡ false }
    ensures len { length marks.new ≡ length marks.old }
    ensures marks { (a : ℕ) → is_marked marks.new a ≡ (if is_between from to a then false else is_marked marks.old a) }
{
    if words != 0 {
        marks.clear_range(from, to);
    }
}

impl Marker {
    /// Marking begins with nothing marked: all that is there is old.
    fn start(&mut self, table: &RegionTable)
        requires stands { MarkerStands table.now self.old }
        requires idle { self.old.running ≡ false }
        requires closed { CanBeFollowed (heap_of table.now [] self.old) }
        ensures stands { MarkerStands table.now self.new }
        ensures running { self.new.running ≡ true }
        ensures unmarked { (a : ℕ) → is_marked self.new.bitmaps.next a ≡ false }
        ensures unscanned { (a : ℕ) → is_marked self.new.grey.scanned a ≡ false }
        ensures whole { self.new.grey.looked ≡ 0 }
        ensures tops { (k : ℕ) → k < length table.now.regions → slice_index self.new.tams.next k ≡ top_of table.now k }
        ensures previous_tops { self.new.tams.previous ≡ self.old.tams.previous }
        ensures previous_marks { self.new.bitmaps.previous ≡ self.old.bitmaps.previous }
        ensures logs { self.new.logs ≡ self.old.logs }
        ensures scans { self.new.scans ≡ restarted self.old.scans }
        ensures waiting { self.new.waiting ≡ self.old.waiting }
    {
        self.bitmaps.next.clear();
        self.grey.clear();
        set_tops(&mut self.tams, table);
        self.scans.restart();
        self.live.restart();
        self.running = true;
    }

    /// Marks what the roots name. What is marked costs one look at a bit.
    fn reach_roots(&mut self, table: &RegionTable, roots: &Roots)
        requires stands { MarkerStands table.now self.old }
        requires running { self.old.running ≡ true }
        requires kept { (place a : ℕ) → slice_get roots.now.words place ≡ Some (Some a) → IsKept table.now self.old a }
        ensures stands { MarkerStands table.now self.new }
        ensures marks { MarksWanted table.now (IsInFirst roots.now.words (length roots.now.words)) self.old self.new }
        ensures same { SameRoles self.old self.new }
        ensures scanned { self.new.grey.scanned ≡ self.old.grey.scanned }
        ensures place { KeepsPlace self.old.grey self.new.grey }
        ensures scans { self.new.scans ≡ self.old.scans }
        ensures logs { self.new.logs ≡ self.old.logs }
        ensures waiting { self.new.waiting ≡ self.old.waiting }
    {
        table.law();
        let mut from = 0;
        while let Some(place) = roots.next_named(from) {
            if !names_marked(&self.bitmaps.next, roots, place) {
                self.reach(table, roots.get(place));
                from = place + 1;
                continue;
            }
            from = past_marked(&self.bitmaps.next, roots, place);
        }
    }

    /// Marking begins: what is there is old, and each object that a root names is marked and grey in the first two formats, and waits in
    /// the third.
    pub fn begin(&mut self, table: &RegionTable, roots: &Roots, format: Format)
        requires stands { MarkerStands table.now self.old }
        requires idle { self.old.running ≡ false }
        requires closed { CanBeFollowed (heap_of table.now roots.now.words self.old) }
        requires room { is_by_address format ≡ false → length roots.now.words ≤ self.old.waiting.room }
        ensures stands { MarkerStands table.now self.new }
        ensures running { self.new.running ≡ true }
        ensures begins { Begins (heap_of table.now roots.now.words self.new) (marking_of table.now self.new) }
        ensures roots { BeginsBy (is_by_address format) self.new }
        ensures snapshot { (g : Graph) → WillShow g (heap_of table.now roots.now.words self.old)
            → KeepsSnapshot g (heap_of table.now roots.now.words self.new) (marking_of table.now self.new) }
        ensures tops { (k : ℕ) → k < length table.now.regions → slice_index self.new.tams.next k ≡ top_of table.now k }
        ensures previous_tops { self.new.tams.previous ≡ self.old.tams.previous }
        ensures previous_marks { self.new.bitmaps.previous ≡ self.old.bitmaps.previous }
        ensures logs { self.new.logs ≡ self.old.logs }
        ensures scans { self.new.scans ≡ restarted self.old.scans }
        ensures room { self.new.waiting.room ≡ self.old.waiting.room }
    {
        table.law();
        self.start(table);
        if is_by_address(format) {
            self.reach_roots(table, roots);
            return;
        }
        self.waiting.copy(roots);
    }

    /// Marks what a log names. What is marked costs one look at a bit.
    fn reach_all(&mut self, table: &RegionTable, log: &DeletionLog)
        requires stands { MarkerStands table.now self.old }
        requires running { self.old.running ≡ true }
        requires kept { (a : ℕ) → Contains log.now a → IsKept table.now self.old a }
        ensures stands { MarkerStands table.now self.new }
        ensures marks { MarksWanted table.now (Contains log.now) self.old self.new }
        ensures same { SameRoles self.old self.new }
        ensures scanned { self.new.grey.scanned ≡ self.old.grey.scanned }
        ensures place { KeepsPlace self.old.grey self.new.grey }
        ensures scans { self.new.scans ≡ self.old.scans }
        ensures logs { self.new.logs ≡ self.old.logs }
        ensures waiting { self.new.waiting ≡ self.old.waiting }
    {
        table.law();
        for place in 0..log.len() {
            let at = Addr::new(log.get(place));
            if self.bitmaps.next.get(at) {
                continue;
            }
            self.reach(table, Some(at));
        }
    }

    /// Saves what a pointer held before it is overwritten, or what was read from a weak slot: its address enters the mutator's
    /// log, if it was there when marking began. Whether the log is full now, so that it has to be taken before the next one is saved.
    #[inline(always)]
    pub fn save(&mut self, table: &RegionTable, mutator: u32, overwritten: Ptr) -> bool
        requires stands { MarkerStands table.now self.old }
        requires running { self.old.running ≡ true }
        requires known { mutator < length self.old.logs }
        requires room { length (log_of self.old.logs mutator) < 8 }
        requires kept { (a : ℕ) → overwritten ≡ Some a → IsKept table.now self.old a }
        ensures stands { MarkerStands table.now self.new }
        ensures after { self.new ≡ saved table.now self.old mutator overwritten }
        ensures saved { IsSaved (marking_of table.now self.old) (marking_of table.now self.new) overwritten }
        ensures full { result ≡ (length (log_of self.new.logs mutator) == 8) }
        ensures most { length (log_of self.new.logs mutator) ≤ 8 }
        ensures others { (other : ℕ) → other ≢ mutator → log_of self.new.logs other ≡ log_of self.old.logs other }
        ensures same { SameRoles self.old self.new }
        ensures scans { self.new.scans ≡ self.old.scans }
        ensures mutators { length self.new.logs ≡ length self.old.logs }
        ensures waiting { self.new.waiting ≡ self.old.waiting }
    {
        let Some(at) = overwritten else {
            return false;
        };
        table.law();
        if !self.tams.lies_below_next(table, at) {
            return false;
        }
        self.logs.log(mutator, at)
    }

    /// Takes a mutator's log, which is empty afterwards: what was logged is marked.
    #[inline(never)]
    pub fn take_log(&mut self, table: &RegionTable, mutator: u32)
        requires stands { MarkerStands table.now self.old }
        requires running { self.old.running ≡ true }
        requires known { mutator < length self.old.logs }
        ensures stands { MarkerStands table.now self.new }
        ensures snapshots { KeepsSnapshots table.now self.old self.new }
        ensures marks { MarksWanted table.now (Contains (log_of self.old.logs mutator)) self.old self.new }
        ensures emptied { self.new.logs ≡ slice_set self.old.logs mutator [] }
        ensures scanned { self.new.grey.scanned ≡ self.old.grey.scanned }
        ensures scans { self.new.scans ≡ self.old.scans }
        ensures same { SameRoles self.old self.new }
        ensures waiting { self.new.waiting ≡ self.old.waiting }
    {
        let log = self.logs.drain(mutator);
        self.reach_all(table, &log);
    }

    /// Takes the logs of all mutators. One that is empty is passed over.
    fn take_logs(&mut self, table: &RegionTable)
        requires stands { MarkerStands table.now self.old }
        requires running { self.old.running ≡ true }
        ensures scanned { self.new.grey.scanned ≡ self.old.grey.scanned }
        ensures stands { MarkerStands table.now self.new }
        ensures snapshots { KeepsSnapshots table.now self.old self.new }
        ensures emptied { (mutator : ℕ) → mutator < length self.new.logs → log_of self.new.logs mutator ≡ [] }
        ensures len { length self.new.logs ≡ length self.old.logs }
        ensures scans { self.new.scans ≡ self.old.scans }
        ensures same { SameRoles self.old self.new }
        ensures waiting { self.new.waiting ≡ self.old.waiting }
    {
        for mutator in 0..self.logs.mutators() {
            if self.logs.len(mutator) == 0 {
                continue;
            }
            self.take_log(table, mutator);
        }
    }

    /// Marking ends: all logs and all roots that wait are taken, all grey objects scanned, what is held for marked keys is marked, and the
    /// next marks and tops become the previous ones. No weak slot is cleared yet. The result is how many objects are marked, and as many
    /// were scanned.
    ///
    /// Pairs are followed in passes over the objects that have weak slots, until a pass marks nothing: two passes where pairs lead to each
    /// other by rising address, and n + 1 for n of them by falling address, which is quadratic in n. If no object of pairs was made in the
    /// table, there is no pass.
    pub fn finish(&mut self, table: &RegionTable) -> u32
        requires stands { MarkerStands table.now self.old }
        requires running { self.old.running ≡ true }
        ensures stands { MarkerStands table.now self.new }
        ensures over { self.new.running ≡ false }
        ensures exact { EndsExactly table.now self.old self.new result }
        ensures count { result ≡ marked_count self.new.bitmaps.previous }
        ensures scans { self.new.scans.since ≡ result }
        ensures scanned { (a : ℕ) → is_marked self.old.grey.scanned a ≡ true → is_marked self.new.grey.scanned a ≡ true }
        ensures counted { self.new.scans.since ≡ marked_count self.new.grey.scanned }
        ensures work { ScansMore self.old self.new }
        ensures tops { self.new.tams ≡ exchanged self.old.tams }
        ensures marks { self.new.bitmaps.next ≡ self.old.bitmaps.previous }
        ensures mutators { length self.new.logs ≡ length self.old.logs }
        ensures room { self.new.waiting.room ≡ self.old.waiting.room }
    {
        table.law();
        self.take_logs(table);
        self.take_all_roots(table);
        self.mark_rest(table);
        let count = self.scans.since();
        self.bitmaps.swap_roles();
        self.tams.swap_roles();
        self.live.swap_roles();
        self.running = false;
        count
    }

    /// A region whose objects all are dead is about to be released, or just taken: its marks of both roles go, and both
    /// its tops fall to its bottom.
    pub fn forget(&mut self, table: &RegionTable, region: RegionNo)
        requires stands { MarkerStands table.now self.old }
        requires idle { self.old.running ≡ false }
        requires known { region < length table.now.regions }
        ensures stands { MarkerStands table.now self.new }
        ensures previous { (a : ℕ) → is_marked self.new.bitmaps.previous a
            ≡ (if is_in_region table.now.words_per_region region a then false else is_marked self.old.bitmaps.previous a) }
        ensures next { (a : ℕ) → is_marked self.new.bitmaps.next a
            ≡ (if is_in_region table.now.words_per_region region a then false else is_marked self.old.bitmaps.next a) }
        ensures tops { self.new.tams ≡ with_bottom self.old.tams region (region * table.now.words_per_region) }
        ensures logs { self.new.logs ≡ self.old.logs }
        ensures running { self.new.running ≡ false }
        ensures grey { self.new.grey ≡ self.old.grey }
        ensures scans { self.new.scans ≡ self.old.scans }
        ensures waiting { self.new.waiting ≡ self.old.waiting }
    {
        table.law();
        let words = table.words_per_region();
        let bottom = region.number() * words;
        let from = Addr::new(bottom);
        let to = Addr::new(bottom + words);
        let previous = self.live.previous(region);
        clear_counted(&mut self.bitmaps.previous, previous, from, to);
        let next = self.live.next(region);
        clear_counted(&mut self.bitmaps.next, next, from, to);
        self.tams.reset(region, from);
        self.live.forget(region);
    }
}
