//! Where an object goes: into a buffer, beside the buffers, or into a run of its own.

ghost use Rattle.std.specs.Prelude.{◌≡◌, ◌<◌, ◌≤◌, ◌+◌, ◌-◌, ◌*◌, ◌^◌, ◌↔◌, ◌∷◌};
ghost use Rattle.std.specs.Prelude.{length, Some, None, IfOk, OnErr, IsErr, IfSome, IfNone, slice_get};
ghost use Rattle.heap_words.specs.Configs.{max_object_words};
ghost use Rattle.regions.specs.Table.{used_of, kind_of, tile_in, push_tile, replace_tile, remainder};
ghost use Rattle.regions.specs.Tiles.{Filler};
ghost use Rattle.regions.specs.declared.row.Kind.TheVariants as kinds;
ghost use Rattle.alloc_buffers.specs.Placement.{room_for, allocation_of, small_allocation_of, run_count, CanAllocate, IsAllocated};
ghost use Rattle.alloc_buffers.specs.Placement.{IsAllocation, HasRoom};
ghost use Rattle.alloc_buffers.specs.Placement.{in_buffer, alone, in_new_buffer, with_buffer};
ghost use Rattle.alloc_buffers.specs.OpenBuffers.{buffer_of};

use crate::buffers::{AllocBuffers, Buffer};
use heap_words::addr::{Addr, RegionNo};
use heap_words::header::FillerSize;
use regions::RegionTable;
use thiserror::Error;

/// No free region, or no run of free regions, is left where one is needed.
#[derive(Clone, Copy, Debug, PartialEq, Eq, Error)]
#[error("no free region is left")]
pub struct Full;

/// Where an object is to be made.
#[derive(Clone, Copy, Debug, PartialEq, Eq)]
pub enum Allocation {
    /// Over a filler of the object's size, which starts at an address.
    Filler(Addr),
    /// In the lowest run of so many free regions, from the bottom of the first one on.
    Run { first: RegionNo, count: u32 },
}

/// A region with room for so many words.
fn room(table: &mut RegionTable, current: Option<u32>, words: u32) -> Option<u32>
    requires known { IfSome current (λ k. k < length table.old.regions) }
    requires ordinary { IfSome current (λ k. kind_of table.old k ≡ kinds.Ordinary) }
    requires small { words ≤ table.old.words_per_region }
    ensures room { IfSome result (λ k. HasRoom table.old table.new k words) }
    ensures none { IfNone result (room_for table.old current words ≡ None) }
    ensures same { IfNone result (table.new ≡ table.old) }
    ensures some { IfSome result (λ k. room_for table.old current words ≡ Some (record { region = k; table = table.new })) }
{
    if let Some(number) = current {
        if table.has_room(RegionNo::new(number), words) {
            return Some(number);
        }
    }
    let region = table.take_free()?;
    Some(region.number())
}

/// A filler of so many words at the top of a region.
fn push_filler(table: &mut RegionTable, region: RegionNo, size: u32) -> Addr
    requires known { region < length table.old.regions }
    requires ordinary { kind_of table.old region ≡ kinds.Ordinary }
    requires positive { 0 < size }
    requires room { used_of table.old region + size ≤ table.old.words_per_region }
    ensures at { result ≡ region * table.old.words_per_region + used_of table.old region }
    ensures pushed { table.new ≡ push_tile table.old region (Filler size) }
{
    table.law();
    table.push_filler(region, FillerSize::new(size))
}

/// Splits a filler, and answers where its second part starts.
#[inline(always)]
fn split_filler(table: &mut RegionTable, at: Addr, rest: u32, size: u32) -> Addr
    requires filler { tile_in table.old at ≡ Some (Filler rest) }
    requires positive { 0 < size }
    requires room { size ≤ rest }
    requires small { rest < 2 ^ 24 }
    ensures rest { result ≡ at + size }
    ensures split { table.new ≡ replace_tile table.old at (Filler size ∷ remainder (rest - size)) }
{
    table.split_filler(at, FillerSize::new(rest), FillerSize::new(size))
}

/// How many regions of `words` words a humongous object takes.
fn count_regions(words: u32, size: u32) -> u32
    requires words { 0 < words }
    requires small { size + words ≤ 2 ^ 32 }
    ensures { result ≡ run_count words size }
{
    (size + (words - 1)) / words
}

impl AllocBuffers {
    /// The place of an object of so many words for a mutator. A small one's is a filler of that size, which belongs to no
    /// buffer, and no object changed. A humongous one's is the lowest run of free regions that it needs, and nothing
    /// changed: buffers stay open.
    #[inline(always)]
    pub fn allocate(
        &mut self,
        table: &mut RegionTable,
        mutator: u32,
        size: u32,
    ) -> Result<Allocation, Full>
        requires mutator { mutator < length self.old.open_buffers }
        requires within { size ≤ length table.old.regions * table.old.words_per_region }
        requires small { size ≤ max_object_words }
        requires ready { CanAllocate table.old self.old size }
        ensures place { IfOk result (λ p. allocation_of table.old self.old mutator size ≡ Some
            (record { place = p; table = table.new; buffers = self.new })) }
        ensures full { IsErr result ↔ (allocation_of table.old self.old mutator size ≡ None) }
        ensures table_same { OnErr result (table.new ≡ table.old) }
        ensures buffers_same { OnErr result (self.new ≡ self.old) }
        ensures placed { IfOk result (λ p. IsAllocation table.old table.new self.old self.new size p) }
    {
        table.law();
        let words = table.words_per_region();
        if 2 * size <= words {
            return match self.find(table, mutator, size) {
                Some(at) => Ok(Allocation::Filler(at)),
                None => Err(Full),
            };
        }
        let count = count_regions(words, size);
        match table.free_run(count) {
            Some(first) => Ok(Allocation::Run { first, count }),
            None => Err(Full),
        }
    }

    /// Cuts so many words from the start of a mutator's buffer, if it has them, and answers the buffer as it was. The table's filler
    /// there stays whole.
    #[inline(always)]
    pub fn cut(&mut self, table: &RegionTable, mutator: u32, size: u32) -> Option<Buffer>
        requires mutator { mutator < length self.old.open_buffers }
        requires ready { CanAllocate table.now self.old size }
        ensures opened { IfSome result (λ x. slice_get self.old.open_buffers mutator ≡ Some (Some x)) }
        ensures room { IfSome result (λ x. size ≤ x.rest) }
        ensures cut { IfSome result (λ x. self.new
            ≡ with_buffer self.old self.old.current mutator (buffer_of (x.next + size) (x.rest - size))) }
        ensures same { IfNone result (self.new ≡ self.old) }
    {
        table.law();
        let Some(buffer) = self.open_buffer(mutator) else {
            return None;
        };
        if buffer.rest < size {
            return None;
        }
        self.open_buffers[mutator as usize].put(buffer.next + size, buffer.rest - size);
        Some(buffer)
    }

    /// The place of an object of at most half a region.
    #[inline(always)]
    fn find(&mut self, table: &mut RegionTable, mutator: u32, size: u32) -> Option<Addr>
        requires mutator { mutator < length self.old.open_buffers }
        requires small { size ≤ table.old.words_per_region }
        requires ready { CanAllocate table.old self.old size }
        ensures some { IfSome result (λ a. small_allocation_of table.old self.old mutator size
            ≡ Some (record { place = Allocation.Filler a; table = table.new; buffers = self.new })) }
        ensures none { IfNone result (small_allocation_of table.old self.old mutator size ≡ None) }
        ensures table_same { IfNone result (table.new ≡ table.old) }
        ensures buffers_same { IfNone result (self.new ≡ self.old) }
        ensures placed { IfSome result (λ a. IsAllocated table.old table.new self.old self.new size a) }
    {
        if let Some(open) = self.open_buffer(mutator) {
            if size <= open.rest {
                return Some(self.allocate_inside(table, mutator, size, open));
            }
        }
        if size <= self.words {
            self.allocate_in_new(table, mutator, size)
        } else {
            self.allocate_alone(table, size)
        }
    }

    /// At the start of the mutator's buffer.
    #[inline(always)]
    fn allocate_inside(
        &mut self,
        table: &mut RegionTable,
        mutator: u32,
        size: u32,
        buffer: Buffer,
    ) -> Addr
        requires mutator { mutator < length self.old.open_buffers }
        requires ready { CanAllocate table.old self.old size }
        requires opened { slice_get self.old.open_buffers mutator ≡ Some (Some buffer) }
        requires room { size ≤ buffer.rest }
        ensures some { in_buffer table.old self.old mutator size buffer
            ≡ record { place = Allocation.Filler result; table = table.new; buffers = self.new } }
        ensures placed { IsAllocated table.old table.new self.old self.new size result }
    {
        table.law();
        let next = split_filler(table, Addr::new(buffer.next), buffer.rest, size);
        self.open_buffers[mutator as usize].put(next.word(), buffer.rest - size);
        Addr::new(buffer.next)
    }

    /// Words of its own.
    #[inline(never)]
    fn allocate_alone(&mut self, table: &mut RegionTable, size: u32) -> Option<Addr>
        requires small { size ≤ table.old.words_per_region }
        requires ready { CanAllocate table.old self.old size }
        ensures some { IfSome result (λ a. alone self.old size (room_for table.old self.old.current size)
            ≡ Some (record { place = Allocation.Filler a; table = table.new; buffers = self.new })) }
        ensures none { IfNone result (alone self.old size (room_for table.old self.old.current size) ≡ None) }
        ensures table_same { IfNone result (table.new ≡ table.old) }
        ensures buffers_same { IfNone result (self.new ≡ self.old) }
        ensures placed { IfSome result (λ a. IsAllocated table.old table.new self.old self.new size a) }
    {
        let region = room(table, self.current, size)?;
        table.law();
        let at = push_filler(table, RegionNo::new(region), size);
        self.current = Some(region);
        Some(at)
    }

    /// At the start of a new buffer, which is pushed as one filler.
    #[inline(never)]
    fn allocate_in_new(&mut self, table: &mut RegionTable, mutator: u32, size: u32) -> Option<Addr>
        requires mutator { mutator < length self.old.open_buffers }
        requires ready { CanAllocate table.old self.old size }
        requires fits { size ≤ self.old.words }
        ensures some { IfSome result (λ a. in_new_buffer self.old mutator size (room_for table.old self.old.current self.old.words)
            ≡ Some (record { place = Allocation.Filler a; table = table.new; buffers = self.new })) }
        ensures none { IfNone result (in_new_buffer self.old mutator size (room_for table.old self.old.current self.old.words) ≡ None) }
        ensures table_same { IfNone result (table.new ≡ table.old) }
        ensures buffers_same { IfNone result (self.new ≡ self.old) }
        ensures placed { IfSome result (λ a. IsAllocated table.old table.new self.old self.new size a) }
    {
        let region = room(table, self.current, self.words)?;
        table.law();
        let at = push_filler(table, RegionNo::new(region), self.words);
        self.current = Some(region);
        table.law();
        let next = split_filler(table, at, self.words, size);
        self.open_buffers[mutator as usize].put(next.word(), self.words - size);
        Some(at)
    }
}
