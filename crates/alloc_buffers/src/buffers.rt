//! The open buffers of the mutators, and the region that new ones are cut from.

ghost use Rattle.std.specs.Prelude.{◌≡◌, ℕ, ◌<◌, ◌≤◌, ◌↔◌, length, Some, None, replicate, IsTrue, IfOk, slice_get, slice_index_or};
ghost use Rattle.regions.specs.Table.{Table, top_of};
ghost use Rattle.alloc_buffers.specs.Placement.{BuffersStand, AreAbove};
ghost use Rattle.alloc_buffers.specs.OpenBuffers.{buffer_of, rest_of};

use heap_words::addr::RegionNo;
use heap_words::config::Config;
use std::alloc::{AllocError, Global};
use std::marker::Model;

/// What is left of a mutator's buffer: its first address, and how many words.
#[derive(Clone, Copy, Debug, PartialEq, Eq)]
pub struct Buffer {
    pub next: u32,
    pub rest: u32,
}

/// What is left of a mutator's buffer, or nothing: then both numbers are 0. So whether so many words are left is one look.
#[derive(Clone, Copy)]
pub(crate) struct OpenBuffer {
    next: u32,
    rest: u32,
}

impl Model for OpenBuffer {
    ghost use Rattle.std.specs.Prelude.{◌≡◌, Option};
    ghost use Rattle.alloc_buffers.specs.declared.buffers.Buffer.{Buffer};
    ghost use Rattle.alloc_buffers.specs.OpenBuffers.{buffer_of, next_of, rest_of, parts_of};

    ghost Value = { Option Buffer };

    ghost view = { λ b. buffer_of b.next b.rest };

    ghost invariant = { λ b. b.rest ≡ 0 → b.next ≡ 0 };

    ghost inverse = { λ o. record { next = next_of o; rest = rest_of o } };

    ghost inverse_ok = { λ a h. rw (parts_of a.next a.rest h).0 (rw (parts_of a.next a.rest h).1 (λ i. a)) };
}

impl OpenBuffer {
    /// No buffer.
    fn none() -> OpenBuffer
        ensures { result ≡ None }
    {
        OpenBuffer { next: 0, rest: 0 }
    }

    /// What is left, none where nothing is.
    #[inline(always)]
    pub(crate) fn get(&self) -> Option<Buffer>
        ensures { result ≡ self.now }
    {
        if self.rest == 0 {
            return None;
        }
        Some(Buffer {
            next: self.next,
            rest: self.rest,
        })
    }

    /// How many words are left.
    #[inline(always)]
    fn rest(&self) -> u32
        ensures { result ≡ rest_of self.now }
    {
        self.rest
    }

    /// The words from an address on are left, or nothing is. The two numbers are written one by one, where they are.
    #[inline(always)]
    pub(crate) fn put(&mut self, next: u32, rest: u32)
        ensures { self.new ≡ buffer_of next rest }
    {
        self.next = if rest == 0 { 0 } else { next };
        self.rest = rest;
    }
}

/// The current region, and the open buffer of each mutator that has one.
#[derive(Drop)]
pub struct AllocBuffers {
    pub(crate) words: u32,
    pub(crate) current: Option<u32>,
    pub(crate) open_buffers: Vec<OpenBuffer>,
}

impl Model for AllocBuffers {
    ghost use Rattle.alloc_buffers.specs.Placement.{Buffers};

    ghost Value = { Buffers };

    ghost view = { λ b. record { words = b.words; current = b.current; open_buffers = b.open_buffers.items } };
}

fn no_buffers(alloc: Global, count: usize) -> Result<Vec<OpenBuffer>, AllocError>
    ensures { IfOk result (λ v. v.items ≡ replicate count None) }
{
    vec![in alloc; OpenBuffer::none(); count]
}

/// Forgets each buffer.
fn forget(buffers: &mut [OpenBuffer])
    ensures { buffers.new ≡ replicate (length buffers.old) None }
{
    buffers.fill(OpenBuffer::none());
}

impl AllocBuffers {
    ghost use Rattle.alloc_buffers.specs.Placement.{closed, retired};

    /// No buffer is open, and no region is current.
    pub fn new(alloc: Global, config: &Config) -> Result<AllocBuffers, AllocError>
        ensures closed { IfOk result (λ b. b ≡ closed config.now.buffer config.now.mutators) }
        ensures stand { IfOk result (λ b. (t : Table) → BuffersStand t b) }
    {
        let open_buffers = no_buffers(alloc, config.mutators as usize)?;
        Ok(AllocBuffers {
            words: config.buffer,
            current: None,
            open_buffers,
        })
    }

    /// All buffers are forgotten. What is left of each stays one filler.
    pub fn retire_all(&mut self)
        ensures retired { self.new ≡ retired self.old }
        ensures stand { (t : Table) → BuffersStand t self.old → BuffersStand t self.new }
        ensures above { (t : Table) (limit : ℕ → ℕ) → ((k : ℕ) → k < length t.regions → limit k ≤ top_of t k) → AreAbove t self.new limit }
    {
        forget(&mut self.open_buffers);
    }

    /// All buffers are forgotten, and no region is current.
    pub fn close_all(&mut self)
        ensures closed { self.new ≡ closed self.old.words (length self.old.open_buffers) }
        ensures stand { (t : Table) → BuffersStand t self.new }
        ensures above { (t : Table) (limit : ℕ → ℕ) → ((k : ℕ) → k < length t.regions → limit k ≤ top_of t k) → AreAbove t self.new limit }
    {
        self.retire_all();
        self.current = None;
    }

    /// Whether a region is the one that buffers are cut from.
    pub fn is_current(&self, region: RegionNo) -> bool
        ensures { IsTrue result ↔ (self.now.current ≡ Some region) }
    {
        match self.current {
            Some(number) => number == region.number(),
            None => false,
        }
    }

    /// The region that buffers are cut from, none where no region is current.
    pub fn current(&self) -> Option<u32>
        ensures { result ≡ self.now.current }
    {
        self.current
    }

    /// What is left of a mutator's buffer, none where none is open.
    #[inline(always)]
    pub fn open_buffer(&self, mutator: u32) -> Option<Buffer>
        requires { mutator < length self.now.open_buffers }
        ensures { slice_get self.now.open_buffers mutator ≡ Some result }
    {
        self.open_buffers[mutator as usize].get()
    }

    /// How many words are left of a mutator's buffer, 0 where none is open. It is a look at one number.
    #[inline(always)]
    pub fn rest(&self, mutator: u32) -> u32
        requires { mutator < length self.now.open_buffers }
        ensures { result ≡ rest_of (slice_index_or self.now.open_buffers mutator None) }
    {
        self.open_buffers[mutator as usize].rest()
    }
}
