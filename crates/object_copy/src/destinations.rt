//! The regions that copies go to.

ghost use Rattle.std.specs.Prelude.{◌≡◌, ◌<◌, ◌+◌, ◌^◌, ◌∷◌, [], ◌++◌, IfOk, Some, length, slice_get};
ghost use Rattle.object_copy.specs.Copies.{no_destinations};

use heap_words::addr::RegionNo;
use std::alloc::{AllocError, Global};
use std::marker::Model;

/// The regions that copies go to, in the order in which they were taken, and how many words were copied. Clauses see a list
/// of regions, and how many more there is room for.
#[derive(Drop)]
pub struct Destinations {
    regions: Vec<u32>,
    count: usize,
    last: Option<u32>,
    words: u32,
}

impl Model for Destinations {
    ghost use Rattle.std.specs.Prelude.{◌≤◌, ◌-◌, take, vec_len};
    ghost use Rattle.object_copy.specs.Copies.{Destinations};

    ghost Value = { Destinations };

    ghost view = { λ d. record {
      regions = take d.count d.regions.items;
      last = d.last;
      room = vec_len d.regions - d.count;
      words = d.words;
    } };

    ghost invariant = { λ d. d.count ≤ vec_len d.regions };
}

impl Destinations {
    /// No destination yet, and room for each of so many regions. No call takes memory afterwards.
    pub fn new(alloc: Global, regions: u32) -> Result<Destinations, AllocError>
        ensures { IfOk result (λ d. d ≡ no_destinations regions) }
    {
        Ok(Destinations {
            regions: vec![in alloc; 0; regions as usize]?,
            count: 0,
            last: None,
            words: 0,
        })
    }

    /// The destination that copies go to now.
    pub fn last(&self) -> Option<RegionNo>
        ensures { result ≡ self.now.last }
    {
        match self.last {
            Some(number) => Some(RegionNo::new(number)),
            None => None,
        }
    }

    /// The n-th destination.
    pub fn region(&self, n: usize) -> Option<RegionNo>
        ensures region { result ≡ slice_get self.now.regions n }
        ensures few { length self.now.regions < 2 ^ 64 }
    {
        if n < self.count {
            Some(RegionNo::new(self.regions[n]))
        } else {
            None
        }
    }

    /// How many words were copied.
    pub fn words(&self) -> u32
        ensures { result ≡ self.now.words }
    {
        self.words
    }

    /// A region becomes the open destination.
    pub(crate) fn push(&mut self, region: RegionNo)
        requires { 0 < self.old.room }
        ensures regions { self.new.regions ≡ self.old.regions ++ region ∷ [] }
        ensures last { self.new.last ≡ Some region }
        ensures room { self.new.room + 1 ≡ self.old.room }
        ensures words { self.new.words ≡ self.old.words }
    {
        self.regions[self.count] = region.number();
        self.count += 1;
        self.last = Some(region.number());
    }

    /// So many words were copied.
    pub(crate) fn count_words(&mut self, size: u32)
        requires { self.old.words + size < 2 ^ 32 }
        ensures { self.new ≡ record {
          regions = self.old.regions;
          last = self.old.last;
          room = self.old.room;
          words = self.old.words + size;
        } }
    {
        self.words += size;
    }

    /// Copying is over: no region is a destination, and there is room for all again.
    pub fn close(&mut self)
        ensures { self.new ≡ no_destinations (length self.old.regions + self.old.room) }
    {
        self.count = 0;
        self.last = None;
        self.words = 0;
    }
}
