//! Where objects with weak slots start, so that whoever looks for weak slots looks at these objects alone.
//!
//! ```text
//!   region                      0         1                     2          3
//!   may one start in it?        no        yes                   no         yes
//!   addresses at which one                | .  x  .  .  x  . |             | .  .  .  .  .  . |
//!   starts
//! ```
//!
//! An address enters the set when such an object is made there or copied there, and leaves it when the object is forwarded
//! or its region released. Its region enters the regions, and leaves them when it is released: so there may be one with no
//! such object left. A search passes over all other regions, 64 at once, and in these over 64 words at once. It takes one
//! bit a word and one a region, all reserved when the table is made.

ghost use Rattle.std.specs.Prelude.{◌≡◌, ◌+◌, ◌*◌, ◌^◌, ◌<◌, ◌≤◌, if◌then◌else◌, ℕ, IfOk, MatchOption, false, length, replicate};
ghost use Rattle.bit_sets.specs.Bits.{has, is_between, HasNone, IsLowest};
ghost use Rattle.regions.specs.WeakStarts.{start_added, forgotten, with_pairs, IsNextWithWeaks};
ghost use Rattle.regions.specs.Shaped.{AreBare};

use crate::table::RegionTable;
use bit_sets::bits::Bits;
use heap_words::addr::Addr;
use std::alloc::{AllocError, Global};
use std::marker::Model;

/// A set of addresses, with the regions in which it may have one. Clauses see a flag for each address.
pub(crate) struct WeakStarts {
    region_words: u32,
    regions: Bits,
    addresses: Bits,
    /// Whether an object of pairs was made.
    pairs: bool,
}

impl Model for WeakStarts {
    ghost use Rattle.regions.specs.WeakStarts.{Starts, AreRegions};

    ghost Value = { Starts };

    ghost view = { λ s. record { region_words = s.region_words; flags = s.addresses; pairs = s.pairs } };

    ghost invariant = { λ s. AreRegions s.region_words s.regions s.addresses };
}

/// Where it is let go there is one call, and not a drop for each of its parts.
impl Drop for WeakStarts {
    fn drop(self) {
        let WeakStarts {
            region_words: _,
            regions: _,
            addresses: _,
            pairs: _,
        } = self;
    }
}

impl WeakStarts {
    /// No address of so many regions of so many words. No call takes memory afterwards.
    pub(crate) fn new(alloc: Global, regions: u32, words: u32) -> Result<WeakStarts, AllocError>
        requires positive { 0 < words }
        requires small { regions * words < 2 ^ 32 }
        ensures { IfOk result (λ starts. starts
            ≡ record { region_words = words; flags = replicate (regions * words) false; pairs = false }) }
    {
        Ok(WeakStarts {
            region_words: words,
            regions: Bits::new(alloc, regions)?,
            addresses: Bits::new(alloc, regions * words)?,
            pairs: false,
        })
    }

    /// An object with so many weak slots starts at an address.
    #[inline(always)]
    pub(crate) fn add(&mut self, at: u32, weaks: u32)
        requires { at < length self.old.flags }
        ensures { self.new ≡ start_added self.old at weaks }
    {
        if weaks > 0 {
            self.addresses.set(at);
            self.regions.set(at / self.region_words);
        }
    }

    /// An object of pairs is made.
    pub(crate) fn note_pairs(&mut self)
        ensures { self.new ≡ with_pairs self.old }
    {
        self.pairs = true;
    }

    /// An object with so many weak slots is gone from an address.
    pub(crate) fn forget(&mut self, at: u32, weaks: u32)
        requires { at < length self.old.flags }
        ensures { self.new ≡ forgotten self.old at weaks }
    {
        if weaks > 0 {
            self.addresses.remove(at);
        }
    }

    /// No such object starts in a region any more.
    pub(crate) fn release(&mut self, region: u32)
        requires { region * self.old.region_words + self.old.region_words ≤ length self.old.flags }
        ensures region_words { self.new.region_words ≡ self.old.region_words }
        ensures pairs { self.new.pairs ≡ self.old.pairs }
        ensures len { length self.new.flags ≡ length self.old.flags }
        ensures flags { (a : ℕ) → has self.new.flags a
            ≡ (if is_between (region * self.old.region_words) (region * self.old.region_words + self.old.region_words) a then false
            else has self.old.flags a) }
    {
        self.addresses.law();
        if self.regions.get(region) {
            let bottom = region * self.region_words;
            self.addresses
                .clear_range(bottom, bottom + self.region_words);
            self.regions.remove(region);
        }
    }

    /// The memory of pages that the set no longer has goes back to the system. The set stays, and so does its room. Where the memory that
    /// this asks for meanwhile is refused, none goes back.
    pub(crate) fn give_back(&mut self, alloc: Global) -> Result<(), AllocError>
        ensures { self.new ≡ self.old }
    {
        self.addresses.give_back(alloc)
    }

    /// The lowest address of the set from one on.
    fn next(&self, from: u32) -> Option<u32>
        ensures { MatchOption result (HasNone (has self.now.flags) from) (IsLowest (has self.now.flags) from) }
    {
        self.addresses.law();
        let mut left = from / self.region_words;
        while let Some(region) = self.regions.next(left) {
            let bottom = region * self.region_words;
            let end = bottom + self.region_words;
            if let Some(found) = self.addresses.next_below(from.max(bottom), end) {
                return Some(found);
            }
            left = region + 1;
        }
        None
    }
}

impl RegionTable {
    /// The lowest address from one on at which an object with weak slots starts. It passes over regions in which no such object was
    /// made or copied since they were taken, 64 at once, and over 64 words of the others at once.
    pub fn next_with_weaks(&self, from: Addr) -> Option<Addr>
        ensures { IsNextWithWeaks self.now from result }
    {
        match self.weak_starts.next(from.word()) {
            Some(found) => Some(Addr::new(found)),
            None => None,
        }
    }

    /// Whether there may be objects of pairs: one was made since the table was. As long as none was, no object has held slots, and nobody
    /// need look for any.
    pub fn may_have_pairs(&self) -> bool
        ensures { result ≡ false → AreBare self.now }
    {
        self.weak_starts.pairs
    }
}
