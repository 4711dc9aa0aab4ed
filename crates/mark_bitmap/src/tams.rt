//! The top at mark start of each region, for the marking that is over and for the one that runs or comes.
//!
//! ```text
//!   a region   bottom                    previous           next                top       end
//!              | marked or not: dead, or | marked by the    | made since begin: |  free   |
//!              | kept                    | next; kept yet   | kept              |         |
//! ```
//!
//! What starts at or above the previous top at mark start is kept without a mark. `begin` sets each next one to the
//! region's top; `remark` exchanges the two; a region that is taken or released has both at its bottom.

ghost use Rattle.std.specs.Prelude.{◌≡◌, ℕ, ◌*◌, ◌<◌, ◌≤◌, ◌^◌, true, false, List, IfOk, length, nat_lt, slice_index, slice_set};
ghost use Rattle.mark_bitmap.specs.Tops.{below_next, below_previous, bottoms, exchanged, is_below, is_in_region, with_bottom, LiesBelow};

use heap_words::addr::{Addr, RegionNo};
use heap_words::powers::quotient;
use regions::RegionTable;
use std::alloc::{AllocError, Global};
use std::marker::Model;

/// The tops at mark start of each region. Clauses see two lists of addresses.
pub struct Tams {
    previous: Vec<u32>,
    next: Vec<u32>,
}

impl Model for Tams {
    ghost use Rattle.mark_bitmap.specs.Tops.{Tops};

    ghost Value = { Tops };

    ghost view = { λ t. record { previous = t.previous.items; next = t.next.items } };
}

/// Where it is let go there is one call, and not a drop for each of its parts.
impl Drop for Tams {
    fn drop(self) {
        let Tams {
            previous: _,
            next: _,
        } = self;
    }
}

/// The bottom of each region.
fn bottoms_of(alloc: Global, regions: u32, words: u32) -> Result<Vec<u32>, AllocError>
    requires { regions * words ≤ 2 ^ 32 }
    ensures { IfOk result (λ v. v.items ≡ bottoms regions words) }
{
    let mut found = Vec::with_capacity(alloc, regions as usize)?;
    for region in 0..regions {
        found.push(region * words)?;
    }
    Ok(found)
}

/// Whether an address lies below the top of its region, regions having `words` words.
#[tactic(auto, unfolding(crate::specs::Tops::is_below))]
fn lies_below(tops: &[u32], words: u32, at: u32) -> bool
    requires { 0 < words }
    ensures { result ≡ is_below words tops.now at }
{
    match tops.get(quotient(at, words) as usize) {
        Some(top) => at < *top,
        None => false,
    }
}

/// Whether an address lies below the top of a region.
fn is_under(tops: &[u32], region: RegionNo, at: Addr) -> bool
    ensures { result ≡ nat_lt at (slice_index tops.now region) }
{
    match tops.get(region.number() as usize) {
        Some(top) => at.word() < *top,
        None => false,
    }
}

impl Tams {
    /// Both tops of each region at its bottom. No call takes memory afterwards.
    pub fn new(alloc: Global, regions: u32, words: u32) -> Result<Tams, AllocError>
        requires { regions * words ≤ 2 ^ 32 }
        ensures previous { IfOk result (λ tops. tops.previous ≡ bottoms regions words) }
        ensures next { IfOk result (λ tops. tops.next ≡ bottoms regions words) }
    {
        Ok(Tams {
            previous: bottoms_of(alloc, regions, words)?,
            next: bottoms_of(alloc, regions, words)?,
        })
    }

    /// The region's top when the marking that is over began.
    pub fn previous(&self, region: RegionNo) -> Addr
        requires { region < length self.now.previous }
        ensures { result ≡ slice_index self.now.previous region }
    {
        Addr::new(self.previous[region.number() as usize])
    }

    /// The region's top when the marking that runs began.
    pub fn next(&self, region: RegionNo) -> Addr
        requires { region < length self.now.next }
        ensures { result ≡ slice_index self.now.next region }
    {
        Addr::new(self.next[region.number() as usize])
    }

    /// Whether an address lies below its region's previous top, regions having `words` words.
    pub fn is_below_previous(&self, words: u32, at: Addr) -> bool
        requires { 0 < words }
        ensures { result ≡ is_below words self.now.previous at }
    {
        lies_below(&self.previous, words, at.word())
    }

    /// Whether an address lies below its region's next top, regions having `words` words.
    pub fn is_below_next(&self, words: u32, at: Addr) -> bool
        requires { 0 < words }
        ensures { result ≡ is_below words self.now.next at }
    {
        lies_below(&self.next, words, at.word())
    }

    /// Whether an address lies below its region's previous top, regions being those of a table: it finds the region by a shift.
    #[inline(always)]
    #[tactic(auto, unfolding(crate::specs::Tops::is_below))]
    pub fn lies_below_previous(&self, table: &RegionTable, at: Addr) -> bool
        ensures { result ≡ below_previous table.now self.now at }
    {
        is_under(&self.previous, table.region_of(at), at)
    }

    /// The same of its region's next top.
    #[inline(always)]
    #[tactic(auto, unfolding(crate::specs::Tops::is_below))]
    pub fn lies_below_next(&self, table: &RegionTable, at: Addr) -> bool
        ensures { result ≡ below_next table.now self.now at }
    {
        is_under(&self.next, table.region_of(at), at)
    }

    /// Marking begins: the region's next top.
    pub fn set_next(&mut self, region: RegionNo, top: Addr)
        requires { region < length self.old.next }
        ensures next { self.new.next ≡ slice_set self.old.next region top }
        ensures previous { self.new.previous ≡ self.old.previous }
    {
        self.next[region.number() as usize] = top.word();
    }

    /// A region that is taken or released: both tops at its bottom.
    pub fn reset(&mut self, region: RegionNo, bottom: Addr)
        requires previous { region < length self.old.previous }
        requires next { region < length self.old.next }
        ensures { self.new ≡ with_bottom self.old region bottom }
    {
        self.previous[region.number() as usize] = bottom.word();
        self.next[region.number() as usize] = bottom.word();
    }

    /// The two tops of each region exchange their roles.
    pub fn swap_roles(&mut self)
        ensures { self.new ≡ exchanged self.old }
    {
        std::mem::swap(&mut self.previous, &mut self.next);
    }
}

/// What lies below a top, by ranges: an address of region k where it is less than the region's top, and no address
/// that is in no region with a top. A region's new top counts in that region alone.
pub fn below_law()
    ensures region { (words : ℕ) (tops : List ℕ) (k a : ℕ) → is_in_region words k a ≡ true
        → is_below words tops a ≡ nat_lt a (slice_index tops k) }
    ensures only { (words : ℕ) (tops : List ℕ) (a : ℕ) → 0 < words → is_below words tops a ≡ true → LiesBelow words tops a }
    ensures set { (words : ℕ) (tops : List ℕ) (k top a : ℕ) → k < length tops → is_in_region words k a ≡ true
        → is_below words (slice_set tops k top) a ≡ nat_lt a top }
    ensures others { (words : ℕ) (tops : List ℕ) (k top a : ℕ) → 0 < words → is_in_region words k a ≡ false
        → is_below words (slice_set tops k top) a ≡ is_below words tops a }
{}
