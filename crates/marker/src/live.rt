//! How many words of each region are marked. They are counted as objects are marked, so that a pause looks up how full a region
//! is, and walks no marks. An object's header is read for it as soon as the object's address is known, so that the processor has it when
//! the object is scanned.
//!
//! ```text
//!             previous                                     next
//!   begin     stays                                        0 for each region
//!   mark      stays                                        the object's words are added to its region's
//!   finish    what was counted: all that is marked         what was the previous
//!   forget    the region's is 0                            the region's is 0
//! ```

ghost use Rattle.std.specs.Prelude.{◌≡◌, ◌+◌, ◌<◌, ◌^◌, IfOk, length, replicate, slice_index};
ghost use Rattle.regions.specs.Table.{kind_of};
ghost use Rattle.regions.specs.declared.row.Kind.TheVariants as kinds;
ghost use Rattle.mark_bitmap.specs.Live.{live_bound_of};
ghost use Rattle.marker.specs.Stands.{MarkerStands};
ghost use Rattle.marker.specs.Live.{counts_exchanged, nothing_counted, with_more, with_none};

use crate::marker::Marker;
use heap_words::addr::RegionNo;
use regions::RegionTable;
use std::alloc::{AllocError, Global};
use std::marker::Model;

/// The words of each region's marked objects. Clauses see two lists of numbers.
pub struct LiveWords {
    previous: Vec<u32>,
    next: Vec<u32>,
}

impl Model for LiveWords {
    ghost use Rattle.marker.specs.Live.{LiveCounts};

    ghost Value = { LiveCounts };

    ghost view = { λ l. record { previous = l.previous.items; next = l.next.items } };
}

/// Where it is dropped there is one call, and not a drop for each of its parts.
impl Drop for LiveWords {
    fn drop(self) {
        let LiveWords {
            previous: _,
            next: _,
        } = self;
    }
}

/// A count of 0 for each region.
fn zeros(alloc: Global, regions: u32) -> Result<Vec<u32>, AllocError>
    ensures { IfOk result (λ v. v.items ≡ replicate regions 0) }
{
    vec![in alloc; 0; regions as usize]
}

/// All counts become 0.
fn clear_all(counts: &mut [u32])
    ensures { counts.new ≡ replicate (length counts.old) 0 }
{
    counts.fill(0);
}

impl LiveWords {
    /// Nothing is counted. No call takes memory afterwards.
    pub(crate) fn new(alloc: Global, regions: u32) -> Result<LiveWords, AllocError>
        ensures { IfOk result (λ live. live ≡ nothing_counted regions) }
    {
        Ok(LiveWords {
            previous: zeros(alloc, regions)?,
            next: zeros(alloc, regions)?,
        })
    }

    /// The words of the region's objects that the marking that is over marked.
    pub fn previous(&self, region: RegionNo) -> u32
        requires { region < length self.now.previous }
        ensures { result ≡ slice_index self.now.previous region }
    {
        self.previous[region.number() as usize]
    }

    /// The words of the region's objects that are marked of the other role: of the marking that runs, or of the one before.
    pub(crate) fn next(&self, region: RegionNo) -> u32
        requires { region < length self.now.next }
        ensures { result ≡ slice_index self.now.next region }
    {
        self.next[region.number() as usize]
    }

    /// Marking begins: nothing is marked.
    pub(crate) fn restart(&mut self)
        ensures next { self.new.next ≡ replicate (length self.old.next) 0 }
        ensures previous { self.new.previous ≡ self.old.previous }
    {
        clear_all(&mut self.next);
    }

    /// An object of so many words that starts in the region is marked.
    pub(crate) fn add(&mut self, region: RegionNo, words: u32)
        requires known { region < length self.old.next }
        requires room { slice_index self.old.next region + words < 2 ^ 32 }
        ensures { self.new ≡ with_more self.old region words }
    {
        self.next[region.number() as usize] += words;
    }

    /// Marking is over: what was counted is what is marked.
    pub(crate) fn swap_roles(&mut self)
        ensures { self.new ≡ counts_exchanged self.old }
    {
        std::mem::swap(&mut self.previous, &mut self.next);
    }

    /// A region that is taken or released, and has no marks any more.
    pub fn forget(&mut self, region: RegionNo)
        requires previous { region < length self.old.previous }
        requires next { region < length self.old.next }
        ensures { self.new ≡ with_none self.old region }
    {
        self.previous[region.number() as usize] = 0;
        self.next[region.number() as usize] = 0;
    }
}

impl Marker {
    /// A region's live bound, by a look: what was counted of it, and all words from its top at mark start to its top.
    pub fn live_bound(&self, table: &RegionTable, region: RegionNo) -> u32
        requires stands { MarkerStands table.now self.now }
        requires known { region < length table.now.regions }
        requires ordinary { kind_of table.now region ≡ kinds.Ordinary }
        ensures { result ≡ live_bound_of table.now self.now.tams.previous self.now.bitmaps.previous region }
    {
        table.law();
        let above = table.top(region).word() - self.tams.previous(region).word();
        self.live.previous(region) + above
    }
}
