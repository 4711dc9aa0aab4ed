//! What the words of a region are: live by the last marking, dead, new since it began, or of fillers.

ghost use Rattle.std.specs.Prelude.{◌≡◌, ◌<◌, length};
ghost use Rattle.regions.specs.Walks.{ArePlaced, IsPlacedTile};
ghost use Rattle.heap_dump.specs.Shares.{part_in, AreSharesOf, is_grey, grey_objects, region_tiles};

use heap_words::addr::{Addr, RegionNo};
use regions::{Shape, Walk};
use step_core::Core;

/// What a tile's words count as, by the marking that last came to its end.
#[derive(Clone, Copy, Debug, PartialEq, Eq)]
pub enum Part {
    /// An object that it marked.
    Marked,
    /// An object that was there when it began, and that it didn't mark.
    Dead,
    /// An object that was made since it began.
    New,
    /// No object.
    Filler,
}

/// How many words of a region's tiles count as each part.
#[derive(Clone, Copy, Debug, PartialEq, Eq)]
pub struct Shares {
    pub marked: u32,
    pub dead: u32,
    pub new: u32,
    pub filler: u32,
}

/// The tiles that start in a region, from its bottom to its top.
pub fn walk_region(core: &Core, region: RegionNo) -> Walk<'_>
    requires { region < length core.now.table.regions }
    ensures tiles { result ≡ region_tiles core.now region }
    ensures placed { ArePlaced core.now.table result }
{
    core.table().law();
    core.table().walk(region)
}

/// What the words of a tile count as.
pub fn part_of(core: &Core, at: Addr, shape: Shape) -> Part
    requires { IsPlacedTile core.now.table at shape }
    ensures { result ≡ part_in core.now at shape }
{
    core.law_remembers();
    core.table().law();
    let marker = core.marker();
    match shape {
        Shape::Object { .. } => {
            if !marker
                .tams
                .is_below_previous(core.table().words_per_region(), at)
            {
                return Part::New;
            }
            if marker.bitmaps.previous.get(at) {
                Part::Marked
            } else {
                Part::Dead
            }
        }
        Shape::Filler { .. } | Shape::Forwarded { .. } => Part::Filler,
    }
}

/// What the words of the tiles that start in a region count as: of a run's first region, the words of its one object.
pub fn shares_of(core: &Core, region: RegionNo) -> Shares
    requires { region < length core.now.table.regions }
    ensures { AreSharesOf core.now region result }
{
    core.table().law();
    let mut marked = 0;
    let mut dead = 0;
    let mut new = 0;
    let mut filler = 0;
    for (at, shape) in walk_region(core, region) {
        let size = shape.size();
        match part_of(core, at, shape) {
            Part::Marked => marked += size,
            Part::Dead => dead += size,
            Part::New => new += size,
            Part::Filler => filler += size,
        }
    }
    Shares {
        marked,
        dead,
        new,
        filler,
    }
}

/// Whether a tile is a grey object: found by the marking that runs, and not scanned yet.
fn is_grey(core: &Core, at: Addr, shape: Shape) -> bool
    requires { IsPlacedTile core.now.table at shape }
    ensures { result ≡ is_grey core.now at shape }
{
    core.law_remembers();
    core.table().law();
    let marker = core.marker();
    match shape {
        Shape::Object { .. } => marker.bitmaps.next.get(at) && !marker.grey.is_scanned(at),
        Shape::Filler { .. } | Shape::Forwarded { .. } => false,
    }
}

/// How many of a region's objects are grey.
pub fn grey_count(core: &Core, region: RegionNo) -> u32
    requires { region < length core.now.table.regions }
    ensures { result ≡ grey_objects core.now region }
{
    let mut count = 0u32;
    for (at, shape) in walk_region(core, region) {
        if is_grey(core, at, shape) {
            count = count.saturating_add(1);
        }
    }
    count
}
