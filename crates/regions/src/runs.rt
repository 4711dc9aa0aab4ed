//! Runs: adjacent regions that hold one humongous object.
ghost use Rattle.std.specs.Prelude.{◌≡◌, ◌≢◌, ◌+◌, ◌*◌, ◌/◌, ◌<◌, ◌≤◌, ℕ, length, replicate, Some};
ghost use Rattle.heap_words.specs.Sizes.{size_of};
ghost use lib.Seq.{paste};
ghost use Rattle.regions.specs.Table.{first_run, is_free as region_is_free, new_object, new_pairs, run_length, run_regions};
ghost use Rattle.regions.specs.Table.{with_regions, with_run, kind_of, moved_run, EachForwardedIn};
ghost use Rattle.regions.specs.Rows.{free_row, kind_is_free, run_kind, run_rows, AreUsedBelow};
ghost use Rattle.regions.specs.declared.row.Kind.TheVariants as kinds;
ghost use Rattle.heap_words.specs.Configs.{max_words};

use crate::row::{Kind, Row, is_free};
use crate::table::RegionTable;
use crate::updates::{rests_from, write_free};
use heap_words::addr::{Addr, RegionNo};
use heap_words::header::{HeaderCounts, PairCounts};

/// The lowest place from which `count` rows are free, where no row below `from` is.
fn lowest_run(rows: &[Row], count: usize, from: usize) -> Option<usize>
    requires some { 0 < count }
    requires used { AreUsedBelow from rows.now }
    ensures { result ≡ first_run (λ row. kind_is_free row.kind) count rows.now }
{
    let mut start = from;
    for i in from..rows.len() {
        if is_free(&rows[i]) {
            if i + 1 - start == count {
                return Some(start);
            }
        } else {
            start = i + 1;
        }
    }
    None
}

/// What kind a run's `i`th region is.
#[inline(always)]
fn nth_kind(i: u32) -> Kind
    ensures { result ≡ run_kind i }
{
    if i == 0 { Kind::First } else { Kind::Rest }
}

/// Writes the rows of a humongous object of `words` words, in regions of `size` words. All but the last one are full.
fn write_run(rows: &mut [Row], at: usize, count: u32, size: u32, words: u32)
    requires some { 0 < count }
    requires within { at + count ≤ length rows.old }
    requires small { count * size ≤ max_words }
    requires tight { count * size < words + size }
    ensures { rows.new ≡ paste rows.old at (run_rows size words 0 count) count }
{
    let last = count - 1;
    for i in 0..last {
        rows[at + i as usize] = Row {
            kind: nth_kind(i),
            used: size,
        };
    }
    let left = words - last * size;
    rows[at + last as usize] = Row {
        kind: nth_kind(last),
        used: size.min(left),
    };
}

/// The rows of a run become free, and then those from `to` on are its rows.
fn move_rows(rows: &mut [Row], from: usize, to: usize, count: u32, size: u32, words: u32)
    requires some { 0 < count }
    requires source { from + count ≤ length rows.old }
    requires target { to + count ≤ length rows.old }
    requires small { count * size ≤ max_words }
    requires tight { count * size < words + size }
    ensures { rows.new ≡ paste (paste rows.old from (replicate count free_row) count) to (run_rows size words 0 count) count }
{
    write_free(rows, from, count as usize);
    write_run(rows, to, count, size, words);
}

impl RegionTable {
    /// The lowest run of `count` free regions, by its first region.
    #[inline(never)]
    pub fn free_run(&self, count: u32) -> Option<RegionNo>
        requires { 0 < count }
        ensures { result ≡ first_run region_is_free count self.now.regions }
    {
        let at = lowest_run(&self.rows, count as usize, self.lowest)?;
        Some(RegionNo::new(at as u32))
    }

    /// How many regions from one on belong together: those of the run that begins there, or that region alone.
    pub fn run_length(&self, region: RegionNo) -> u32
        requires { region < length self.now.regions }
        ensures { result ≡ run_length self.now region }
    {
        1 + rests_from(&self.rows, region.number() as usize + 1) as u32
    }

    /// Makes a humongous object at the bottom of the run of `count` free regions that `free_run` found.
    /// Its pointers and weak slots are nil and its data words 0, and it ends in the last of the regions.
    #[inline(never)]
    pub fn make_run(&mut self, first: RegionNo, count: u32, name: u64, counts: HeaderCounts)
        requires positive { 0 < count }
        requires lowest { first_run region_is_free count self.old.regions ≡ Some first }
        requires covers { size_of counts.pointers counts.weaks counts.values ≤ count * self.old.words_per_region }
        requires tight { count * self.old.words_per_region
            < size_of counts.pointers counts.weaks counts.values + self.old.words_per_region }
        ensures { self.new ≡ with_regions self.old first count
            (run_regions self.old.words_per_region (new_object name counts.pointers counts.weaks counts.values) count) }
    {
        let number = first.number();
        let weaks = u32::from(counts.weaks);
        let size = counts.size();
        let bottom = number * self.words_per_region;
        let end = bottom + size;
        self.words.zero_below(end);
        self.words.write_object(Addr::new(bottom), name, counts);
        self.first_tiles.put_tile(bottom, size);
        write_run(
            &mut self.rows,
            number as usize,
            count,
            self.words_per_region,
            size,
        );
        self.free -= count;
        self.weak_starts.add(bottom, weaks);
    }

    /// The same of an object of pairs, whose keys are nil and hold nothing.
    #[inline(never)]
    pub fn make_run_of_pairs(&mut self, first: RegionNo, count: u32, name: u64, counts: PairCounts)
        requires positive { 0 < count }
        requires some { 0 < counts.pairs }
        requires lowest { first_run region_is_free count self.old.regions ≡ Some first }
        requires covers { size_of counts.pointers (counts.pairs + counts.pairs) counts.values ≤ count * self.old.words_per_region }
        requires tight { count * self.old.words_per_region
            < size_of counts.pointers (counts.pairs + counts.pairs) counts.values + self.old.words_per_region }
        ensures { self.new ≡ with_regions self.old first count
            (run_regions self.old.words_per_region (new_pairs name counts.pointers counts.pairs counts.values) count) }
    {
        let number = first.number();
        let weaks = counts.pairs.get();
        let size = counts.size();
        let bottom = number * self.words_per_region;
        let end = bottom + size;
        self.words.zero_below(end);
        self.words.write_pairs(Addr::new(bottom), name, counts);
        self.first_tiles.put_tile(bottom, size);
        write_run(
            &mut self.rows,
            number as usize,
            count,
            self.words_per_region,
            size,
        );
        self.free -= count;
        self.weak_starts.note_pairs();
        self.weak_starts.add(bottom, weaks);
    }

    /// Makes a humongous object in the lowest run of `count` free regions, and answers its first region;
    /// none where there is no such run, and then nothing changed.
    pub fn take_run(&mut self, count: u32, name: u64, counts: HeaderCounts) -> Option<RegionNo>
        requires positive { 0 < count }
        requires covers { size_of counts.pointers counts.weaks counts.values ≤ count * self.old.words_per_region }
        requires tight { count * self.old.words_per_region
            < size_of counts.pointers counts.weaks counts.values + self.old.words_per_region }
        ensures lowest { result ≡ first_run region_is_free count self.old.regions }
        ensures taken { self.new ≡ with_run self.old count (new_object name counts.pointers counts.weaks counts.values)
            (first_run region_is_free count self.old.regions) }
    {
        let first = self.free_run(count)?;
        self.make_run(first, count, name, counts);
        Some(first)
    }

    /// Moves a run down, to the regions from `to` on: those between are free, and its object's words come over their own where the way is
    /// shorter than they are. What isn't used any more is free.
    pub fn move_run(&mut self, first: RegionNo, to: RegionNo)
        requires known { first < length self.old.regions }
        requires run { kind_of self.old first ≡ kinds.First }
        requires below { to < first }
        requires free { (k : ℕ) → to ≤ k → k < first → kind_of self.old k ≡ kinds.Free }
        requires untargeted { EachForwardedIn (λ a. first ≢ a / self.old.words_per_region) self.old.regions }
        ensures { self.new ≡ moved_run self.old first to }
    {
        let number = first.number();
        let place = to.number();
        let from = Addr::new(number * self.words_per_region);
        let at = Addr::new(place * self.words_per_region);
        let size = self.object_size(from);
        let weaks = self.weak_count(from);
        let count = size.div_ceil(self.words_per_region);
        self.words.copy_down(from, at, size);
        move_rows(
            &mut self.rows,
            number as usize,
            place as usize,
            count,
            self.words_per_region,
            size,
        );
        self.first_tiles.put_tile(at.word(), size);
        self.weak_starts.release(number);
        self.weak_starts.add(at.word(), weaks);
    }
}
