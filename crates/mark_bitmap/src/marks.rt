//! Sets of addresses.
//!
//! ```text
//!   address    0 .. 15  16 ..  20  21 ..  30  31 ..
//!   object              | c:    |           | d:
//!   marked     0     0   1      0   0     0   1
//!                            next(17) = 31, without a look at each address
//! ```
//!
//! Over a marking cycle a set is cleared, then grows as objects are marked, and then stays, but that a region that
//! is released loses its part of it. It is kept as bits, one an address, in pages that are written as marks come to them: so a heap of
//! which little is in use pays for that little, wherever it is.

ghost use Rattle.std.specs.Prelude.{◌≡◌, ◌+◌, ◌^◌, ◌<◌, ◌≤◌, if◌then◌else◌};
ghost use Rattle.std.specs.Prelude.{ℕ, List, Bool, false, true, IfOk, IfSome, length, MatchOption, not, replicate, slice_set};
ghost use Rattle.heap_model.specs.Count.{ListsMarked};
ghost use Rattle.mark_bitmap.specs.Marks.{is_between, is_marked, marked_count, HasNone, IsLowest};

use bit_sets::bits::Bits;
use heap_words::addr::Addr;
use std::alloc::{AllocError, Global};
use std::marker::Model;

/// A set of addresses below a length that is given when it is made. Clauses see a flag for each address.
#[derive(Drop)]
pub struct Marks {
    bits: Bits,
}

impl Model for Marks {
    ghost use Rattle.std.specs.Prelude.{List, Bool};

    ghost Value = { List Bool };

    ghost view = { λ s. s.bits };
}

impl Marks {
    /// The empty set of the addresses below `count`. No call takes memory afterwards.
    pub fn new(alloc: Global, count: u32) -> Result<Marks, AllocError>
        ensures { IfOk result (λ marks. marks ≡ replicate count false) }
    {
        let bits = Bits::new(alloc, count)?;
        Ok(Marks { bits })
    }

    /// Tells a proof what is known of each set: its addresses are below 2 to the 32nd. It does nothing.
    pub fn law(&self)
        ensures { length self.now < 2 ^ 32 }
    {
        self.bits.law();
    }

    /// How many addresses there are, marked or not.
    pub fn len(&self) -> u32
        ensures { result ≡ length self.now }
    {
        self.bits.len()
    }

    /// Whether an address is marked.
    #[inline(always)]
    pub fn get(&self, at: Addr) -> bool
        requires { at < length self.now }
        ensures { result ≡ is_marked self.now at }
    {
        self.bits.get(at.word())
    }

    /// Marks an address.
    #[inline(always)]
    pub fn set(&mut self, at: Addr)
        requires { at < length self.old }
        ensures { self.new ≡ slice_set self.old at true }
    {
        self.bits.set(at.word());
    }

    /// Marks an address. Whether it wasn't marked.
    #[inline(always)]
    pub fn insert(&mut self, at: Addr) -> bool
        requires { at < length self.old }
        ensures came { result ≡ not (is_marked self.old at) }
        ensures same { result ≡ false → self.new ≡ self.old }
        ensures set { self.new ≡ slice_set self.old at true }
    {
        self.bits.insert(at.word())
    }

    /// Clears each address. It touches none of them: what is marked afterwards is written anew.
    pub fn clear(&mut self)
        ensures { self.new ≡ replicate (length self.old) false }
    {
        self.bits.clear();
    }

    /// The memory of pages that the set no longer has goes back to the system. The set stays, and so does its room. Where the memory that
    /// this asks for meanwhile is refused, none goes back.
    pub fn give_back(&mut self, alloc: Global) -> Result<(), AllocError>
        ensures { self.new ≡ self.old }
    {
        self.bits.give_back(alloc)
    }

    /// Clears the addresses from `from` up to `to`, which is not one of them.
    pub fn clear_range(&mut self, from: Addr, to: Addr)
        requires { to ≤ length self.old }
        ensures len { length self.new ≡ length self.old }
        ensures marks { (a : ℕ) → is_marked self.new a
            ≡ (if is_between from to a then false else is_marked self.old a) }
    {
        self.bits.clear_range(from.word(), to.word());
    }

    /// The lowest marked address at or above `from`.
    pub fn next(&self, from: Addr) -> Option<Addr>
        ensures lowest { MatchOption result (HasNone (is_marked self.now) from) (IsLowest (is_marked self.now) from) }
        ensures within { IfSome result (λ found. found < length self.now) }
    {
        self.bits.next(from.word()).map(Addr::new)
    }

    /// The numbers of the marked addresses, for who looks for one within a range, or beside another set.
    #[inline(always)]
    pub fn bits(&self) -> &Bits
        ensures { result.now ≡ self.now }
    {
        &self.bits
    }
}

/// How many addresses are marked.
pub fn count_marked(marks: &Marks) -> u32
    ensures { result ≡ marked_count marks.now }
{
    let len = marks.len();
    let mut count = 0;
    let mut from = 0;
    while from < len {
        let Some(found) = marks.next(Addr::new(from)) else {
            return count;
        };
        count += 1;
        from = found.word() + 1;
    }
    count
}

/// The number of marked addresses is that of a list in which each of them stands once, and nothing else.
pub fn count_law()
    ensures { (marks : List Bool) → (addresses : List ℕ) × ListsMarked (is_marked marks) addresses
        × (length addresses ≡ marked_count marks) }
{}
