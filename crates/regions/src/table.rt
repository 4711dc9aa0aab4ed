//! The table: making it, and what is asked of its regions.
ghost use Rattle.std.specs.Prelude.{◌≡◌, ◌≢◌, ◌+◌, ◌/◌, ◌<◌, true, false, length, nat_le, IsOk, IfOk, IfErr, IsSome, IfSome};
ghost use Rattle.heap_words.specs.Configs.{Suits, IsNewFault};
ghost use Rattle.heap_words.specs.Contents.{header_at};
ghost use Rattle.regions.specs.Table.{free_count, free_table, HasNoForwarded, kind_of, used_of, top_of, tile_in};
ghost use Rattle.regions.specs.Rows.{sizes_in, IsBelow, header_target};
ghost use Rattle.regions.specs.Shapes.{tile_shape, shape_by};
ghost use Rattle.regions.specs.Shaped.{IsShaped};
ghost use Rattle.regions.specs.declared.row.Kind.TheVariants as kinds;

use crate::first_tiles::FirstTiles;
use crate::row::{Kind, Row, Shape, free_rows};
use crate::weak_starts::WeakStarts;
use heap_words::addr::{Addr, RegionNo};
use heap_words::config::{Config, NewFault};
use heap_words::header::{Count, Header};
use heap_words::words::Words;
use std::alloc::Global;
use std::marker::Model;

/// The regions of a heap with their words. Clauses see a `Table` of regions and tiles, and no word.
pub struct RegionTable {
    pub(crate) words: Words,
    pub(crate) rows: Vec<Row>,
    pub(crate) words_per_region: u32,
    /// The exponent of the words of a region, which are a power of two: so a region is found by a shift.
    pub(crate) shift: u32,
    /// No region below this one is free: so a search for a free one begins here.
    pub(crate) lowest: usize,
    /// How many regions are free.
    pub(crate) free: u32,
    /// What leads to the tile of each card's first word.
    pub(crate) first_tiles: FirstTiles,
    /// Where the objects with weak slots start.
    pub(crate) weak_starts: WeakStarts,
}

impl Model for RegionTable {
    ghost use Rattle.regions.specs.Table.{Table};

    ghost Value = { Table };

    ghost use Rattle.regions.specs.Rows.{table_of, IsRegionTable};

    ghost view = { λ a. table_of a.words_per_region a.words.all a.rows.items };

    ghost invariant = { λ a. IsRegionTable a.words_per_region a.shift a.lowest a.free a.first_tiles a.weak_starts a.words a.rows.items };
}

/// Where it is let go there is one call, and not a drop for each of its parts.
impl Drop for RegionTable {
    fn drop(self) {
        let RegionTable {
            words: _,
            rows: _,
            words_per_region: _,
            shift: _,
            lowest: _,
            free: _,
            first_tiles: _,
            weak_starts: _,
        } = self;
    }
}

/// The size of the object at an address, 1 where there is none.
#[tactic(auto, unfolding(heap_words::specs::Headers::header_of))]
pub(crate) fn size_at(words: &Words, at: Addr) -> u32
    requires { at < words.now.written }
    ensures { result ≡ sizes_in words.now.all at }
{
    match words.object_at(at) {
        Some(counts) => counts.size(),
        None => 1,
    }
}

/// What the tile at an address is.
pub(crate) fn shape_at(words: &Words, at: Addr) -> Shape
    requires known { at < words.now.written }
    requires target { IsBelow (header_target (header_at words.now.all at)) words.now.written }
    ensures { result ≡ shape_by (sizes_in words.now.all) (header_at words.now.all at) }
{
    match words.header(at) {
        Some(header) => match header {
            Header::Object {
                pointers,
                weaks,
                data,
            } => Shape::Object {
                pointers,
                slots: Count::new(u32::from(weaks)),
                values: data,
            },
            Header::Pairs {
                pointers,
                pairs,
                data,
            } => Shape::Object {
                pointers: Count::new(u32::from(pointers)),
                slots: Count::new(2 * pairs.get()),
                values: data,
            },
            Header::Filler { size } => Shape::Filler { size: size.get() },
            Header::Forwarded { to } => Shape::Forwarded {
                to,
                size: size_at(words, to),
            },
        },
        None => Shape::Filler { size: 1 },
    }
}

impl RegionTable {
    /// A table of free regions, as many and as large as the configuration says. A fault is the first that the
    /// configuration has, or that memory was refused.
    pub fn new(alloc: Global, config: &Config) -> Result<RegionTable, NewFault>
        ensures suits { IsOk result → Suits config.now }
        ensures made { IfOk result (λ t. t ≡ free_table config.now.regions config.now.words) }
        ensures fault { IfErr result (IsNewFault config.now) }
        ensures unmoved { IfOk result HasNoForwarded }
    {
        config.check()?;
        let count = config.regions as usize * config.words as usize;
        let Ok(words) = Words::new(alloc, count) else {
            return Err(NewFault::NoMemory);
        };
        let Ok(rows) = free_rows(alloc, config.regions as usize) else {
            return Err(NewFault::NoMemory);
        };
        let Ok(first_tiles) = FirstTiles::new(alloc, count as u32, config.card_words()) else {
            return Err(NewFault::NoMemory);
        };
        let Ok(weak_starts) = WeakStarts::new(alloc, config.regions, config.words) else {
            return Err(NewFault::NoMemory);
        };
        Ok(RegionTable {
            words,
            rows,
            words_per_region: config.words,
            shift: config.words.ilog2(),
            lowest: 0,
            free: config.regions,
            first_tiles,
            weak_starts,
        })
    }

    /// Tells a proof what is known of every table. It does nothing.
    pub fn law(&self)
        ensures { IsShaped self.now }
    {
        let _ = &self.words_per_region;
    }

    /// How many words a region has.
    pub fn words_per_region(&self) -> u32
        ensures { result ≡ self.now.words_per_region }
    {
        self.words_per_region
    }

    /// The region of an address.
    pub fn region_of(&self, at: Addr) -> RegionNo
        ensures { result ≡ at / self.now.words_per_region }
    {
        RegionNo::new(at.word() >> self.shift)
    }

    /// Whether an address lies in another region than a word does. So a field that stands in the word and names the address leads
    /// out of its region. The two differ in no bit above those of a region's words if they lie in the same: so no shift is needed.
    pub fn leads_out(&self, word: u32, target: Addr) -> bool
        ensures out { result ≡ true → target / self.now.words_per_region ≢ word / self.now.words_per_region }
        ensures within { result ≡ false → target / self.now.words_per_region ≡ word / self.now.words_per_region }
    {
        (target.word() ^ word) >= self.words_per_region
    }

    /// How many regions there are.
    pub fn region_count(&self) -> u32
        ensures { result ≡ length self.now.regions }
    {
        self.rows.len() as u32
    }

    /// What a region is.
    pub fn kind(&self, region: RegionNo) -> Kind
        requires { region < length self.now.regions }
        ensures { result ≡ kind_of self.now region }
    {
        self.rows[region.number() as usize].kind
    }

    /// How many regions are free.
    pub fn free_count(&self) -> u32
        ensures { result ≡ free_count self.now }
    {
        self.free
    }

    /// The address behind the words of a region that are handed out: a free region's bottom, an ordinary one's
    /// end of its tiles. In a run it is the end of the object or of the region, whichever comes first.
    pub fn top(&self, region: RegionNo) -> Addr
        requires { region < length self.now.regions }
        ensures { result ≡ top_of self.now region }
    {
        let number = region.number();
        Addr::new(number * self.words_per_region + self.rows[number as usize].used)
    }

    /// Whether so many words are left above the top of an ordinary region.
    pub fn has_room(&self, region: RegionNo, size: u32) -> bool
        requires known { region < length self.now.regions }
        requires ordinary { kind_of self.now region ≡ kinds.Ordinary }
        ensures { result ≡ nat_le (used_of self.now region + size) self.now.words_per_region }
    {
        let used = self.rows[region.number() as usize].used;
        u64::from(used) + u64::from(size) <= u64::from(self.words_per_region)
    }

    /// What the tile at an address is. One must start there.
    pub fn tile(&self, at: Addr) -> Shape
        requires { IsSome (tile_in self.now at) }
        ensures { IfSome (tile_in self.now at) (λ t. result ≡ tile_shape t) }
    {
        shape_at(&self.words, at)
    }
}
