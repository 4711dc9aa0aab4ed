//! Changes of regions and tiles.
ghost use Rattle.std.specs.Prelude.{◌≡◌, ◌≢◌, ◌+◌, ◌-◌, ◌/◌, ◌<◌, ◌≤◌, ◌^◌, ◌∷◌, [], length, drop, position, replicate, Some, IsSome};
ghost use Rattle.heap_words.specs.Sizes.{size_of};
ghost use lib.Seq.{paste};
ghost use Rattle.heap_model.specs.Heap.{Stored};
ghost use Rattle.regions.specs.Tiles.{Object, Filler, Forwarded};
ghost use Rattle.regions.specs.Table.{first_free, taken, kind_of, used_of, top_of, region_at, IsOrdinary, IsReleasable};
ghost use Rattle.regions.specs.Table.{released, EachForwardedIn, tile_in, object_at, object_words, push_tile};
ghost use Rattle.regions.specs.Table.{replace_tile, new_object, new_pairs, front_count, remainder};
ghost use Rattle.regions.specs.Rows.{kind_is_free, kind_is_rest, free_row, put_remainder, AreUsedBelow};
ghost use Rattle.regions.specs.declared.row.Kind.TheVariants as kinds;

use crate::row::{Kind, Row, is_free, is_rest};
use crate::table::RegionTable;
use heap_words::addr::{Addr, RegionNo};
use heap_words::header::{FillerSize, HeaderCounts, PairCounts};
use heap_words::words::Words;

/// The lowest free row, where none below `from` is free.
fn lowest_free(rows: &[Row], from: usize) -> Option<usize>
    requires { AreUsedBelow from rows.now }
    ensures { result ≡ position (λ row. kind_is_free row.kind) rows.now }
{
    for i in from..rows.len() {
        if is_free(&rows[i]) {
            return Some(i);
        }
    }
    None
}

/// How many rows from one on are of a run's later regions.
pub(crate) fn rests_from(rows: &[Row], from: usize) -> usize
    requires { from ≤ length rows.now }
    ensures { result ≡ front_count (λ row. kind_is_rest row.kind) (drop from rows.now) }
{
    for i in from..rows.len() {
        if !is_rest(&rows[i]) {
            return i - from;
        }
    }
    rows.len() - from
}

/// Makes rows free.
pub(crate) fn write_free(rows: &mut [Row], at: usize, count: usize)
    requires { at + count ≤ length rows.old }
    ensures { rows.new ≡ paste rows.old at (replicate count free_row) count }
{
    for i in 0..count {
        rows[at + i] = Row {
            kind: Kind::Free,
            used: 0,
        };
    }
}

/// Writes a filler's header, unless the filler has no words.
#[inline(always)]
fn write_remainder(words: &mut Words, at: u32, size: u32)
    requires within { at + size ≤ words.old.written }
    requires small { size < 2 ^ 24 }
    ensures all { words.new.all ≡ put_remainder words.old.all at size }
    ensures written { words.new.written ≡ words.old.written }
{
    if size > 0 {
        words.write_filler(Addr::new(at), FillerSize::new(size));
    }
}

impl RegionTable {
    /// Takes the lowest free region, which is ordinary then and has no tiles.
    #[inline(never)]
    pub fn take_free(&mut self) -> Option<RegionNo>
        ensures lowest { result ≡ first_free self.old }
        ensures taken { self.new ≡ taken self.old (first_free self.old) }
    {
        let at = lowest_free(&self.rows, self.lowest)?;
        self.rows[at] = Row {
            kind: Kind::Ordinary,
            used: 0,
        };
        self.lowest = at + 1;
        self.free -= 1;
        Some(RegionNo::new(at as u32))
    }

    /// Releases a region, and with the first of a run all its regions.
    pub fn release(&mut self, region: RegionNo)
        requires known { region < length self.old.regions }
        requires releasable { IsReleasable (kind_of self.old region) }
        requires untargeted { EachForwardedIn (λ to. region ≢ to / self.old.words_per_region) self.old.regions }
        ensures { self.new ≡ released self.old region }
    {
        let at = region.number() as usize;
        let rests = rests_from(&self.rows, at + 1);
        write_free(&mut self.rows, at, rests + 1);
        self.lowest = self.lowest.min(at);
        self.free += rests as u32 + 1;
        self.weak_starts.release(region.number());
    }

    /// Puts a filler at the top of an ordinary region, and says where it starts.
    pub fn push_filler(&mut self, region: RegionNo, size: FillerSize) -> Addr
        requires known { region < length self.old.regions }
        requires ordinary { kind_of self.old region ≡ kinds.Ordinary }
        requires room { used_of self.old region + size ≤ self.old.words_per_region }
        ensures at { result ≡ top_of self.old region }
        ensures pushed { self.new ≡ push_tile self.old region (Filler size) }
    {
        let more = size.get();
        let at = self.top(region);
        let end = at.word() + more;
        self.words.zero_below(end);
        self.words.write_filler(at, size);
        self.first_tiles.put_tile(at.word(), more);
        let number = region.number() as usize;
        let used = self.rows[number].used;
        self.rows[number] = Row {
            kind: Kind::Ordinary,
            used: used + more,
        };
        at
    }

    /// Splits a filler of `filler` words: `size` of them stay at its start, and the rest is a filler of its own
    /// or nothing. The result is the address of the rest.
    #[inline(always)]
    pub fn split_filler(&mut self, at: Addr, filler: FillerSize, size: FillerSize) -> Addr
        requires there { tile_in self.old at ≡ Some (Filler filler) }
        requires room { size ≤ filler }
        ensures rest { result ≡ at + size }
        ensures split { self.new ≡ replace_tile self.old at (Filler size ∷ remainder (filler - size)) }
    {
        let kept = size.get();
        self.words.write_filler(at, size);
        let behind = at.word() + kept;
        write_remainder(&mut self.words, behind, filler.get() - kept);
        self.first_tiles.cut_front(at.word(), kept, filler.get());
        Addr::new(behind)
    }

    /// Makes an object at the start of a filler of `filler` words: its pointers and weak slots are nil and its data words 0.
    /// The rest is a filler again or nothing.
    #[inline(always)]
    pub fn make_object(&mut self, at: Addr, filler: FillerSize, name: u64, counts: HeaderCounts)
        requires there { tile_in self.old at ≡ Some (Filler filler) }
        requires room { size_of counts.pointers counts.weaks counts.values ≤ filler }
        ensures { self.new ≡ replace_tile self.old at
            (Object (new_object name counts.pointers counts.weaks counts.values)
            ∷ remainder (filler - size_of counts.pointers counts.weaks counts.values)) }
    {
        let weaks = u32::from(counts.weaks);
        let size = counts.size();
        self.words.write_object(at, name, counts);
        write_remainder(&mut self.words, at.word() + size, filler.get() - size);
        self.first_tiles.cut_front(at.word(), size, filler.get());
        self.weak_starts.add(at.word(), weaks);
    }

    /// Makes an object of pairs at the start of a filler of `filler` words: its pointers and its keys are nil, these hold nothing, and its
    /// data words are 0. The rest is a filler again or nothing. One without a pair is made by `make_object`.
    pub fn make_pairs(&mut self, at: Addr, filler: FillerSize, name: u64, counts: PairCounts)
        requires there { tile_in self.old at ≡ Some (Filler filler) }
        requires some { 0 < counts.pairs }
        requires room { size_of counts.pointers (counts.pairs + counts.pairs) counts.values ≤ filler }
        ensures { self.new ≡ replace_tile self.old at
            (Object (new_pairs name counts.pointers counts.pairs counts.values)
            ∷ remainder (filler - size_of counts.pointers (counts.pairs + counts.pairs) counts.values)) }
    {
        let weaks = counts.pairs.get();
        let taken = counts.size();
        self.words.write_pairs(at, name, counts);
        write_remainder(&mut self.words, at.word() + taken, filler.get() - taken);
        self.first_tiles.cut_front(at.word(), taken, filler.get());
        self.weak_starts.note_pairs();
        self.weak_starts.add(at.word(), weaks);
    }

    /// The object at `from` becomes forwarded to its copy at `to`.
    pub fn forward(&mut self, from: Addr, to: Addr)
        requires object { IsSome (object_at self.old from) }
        requires ordinary { IsOrdinary (region_at self.old from) }
        requires copy { object_words self.old to ≡ object_words self.old from }
        requires apart { to ≢ from }
        requires untargeted { EachForwardedIn (λ x. x ≢ from) self.old.regions }
        ensures { self.new ≡ replace_tile self.old from (Forwarded to (object_words self.old from) ∷ []) }
    {
        let weaks = self.weak_count(from);
        self.words.write_forwarded(from, to);
        self.weak_starts.forget(from.word(), weaks);
    }

    /// Puts a copy of the object at `from` at the top of an ordinary region, and says where it starts.
    pub fn copy_object(&mut self, from: Addr, region: RegionNo) -> Addr
        requires object { IsSome (object_at self.old from) }
        requires known { region < length self.old.regions }
        requires ordinary { kind_of self.old region ≡ kinds.Ordinary }
        requires room { used_of self.old region + object_words self.old from ≤ self.old.words_per_region }
        ensures at { result ≡ top_of self.old region }
        ensures pushed { (s : Stored) → object_at self.old from ≡ Some s → self.new ≡ push_tile self.old region (Object s) }
    {
        let to = self.top(region);
        let size = self.object_size(from);
        let weaks = self.weak_count(from);
        let end = to.word() + size;
        self.words.zero_below(end);
        self.words.copy_apart(from, to, size);
        self.first_tiles.put_tile(to.word(), size);
        let number = region.number() as usize;
        let used = self.rows[number].used;
        self.rows[number] = Row {
            kind: Kind::Ordinary,
            used: used + size,
        };
        self.weak_starts.add(to.word(), weaks);
        to
    }
}
