//! Walks over a region's tiles, the tile behind another one, and the tile that holds a word.
ghost use Rattle.std.specs.Prelude.{◌≡◌, ◌≢◌, ◌↔◌, ◌+◌, ◌*◌, ◌/◌, ◌%◌, ◌<◌, ◌≤◌, ℕ, length, IsSome, IfSome, IfNone};
ghost use Rattle.std.specs.Iterator.{YieldsFirst, item_count};
ghost use Rattle.regions.specs.Tiles.{total_size};
ghost use Rattle.regions.specs.Table.{kind_of, object_at, tile_in, top_of};
ghost use Rattle.regions.specs.declared.row.Kind.TheVariants as kinds;
ghost use Rattle.regions.specs.FirstTiles.{LeadsTo};
ghost use Rattle.regions.specs.Walks.{tiles_of, placed, walk_rest, IsCut, IsWalk, IsTileBehind, IsHolder, IsLowestTile, IsNextTile, IsLast};

use crate::row::{Kind, Shape};
use crate::table::{RegionTable, shape_at, size_at};
use heap_words::addr::{Addr, RegionNo};
use std::marker::Model;
use work_counter::Work;

/// The tiles of a region in order, each with its address. Clauses see the list of those that are left.
#[derive(Drop)]
pub struct Walk<'a> {
    table: &'a RegionTable,
    region: RegionNo,
    offset: u32,
    end: u32,
}

impl<'a> Model for Walk<'a> {
    ghost use Rattle.std.specs.Prelude.{List};
    ghost use Rattle.heap_words.specs.declared.addr.Addr.{Addr};
    ghost use Rattle.regions.specs.declared.row.Shape.{Shape};
    ghost use Rattle.regions.specs.Walks.{walk_rest, IsWalk};

    ghost Value = { List (Addr × Shape) };

    ghost view = { λ w. walk_rest w.table.now w.region w.offset };

    ghost invariant = { λ w. IsWalk w.table.now w.region w.offset w.end };
}

impl<'a> Iterator for Walk<'a> {
    type Item = (Addr, Shape);

    ghost next_gives = { YieldsFirst (λ w. w) };

    ghost remaining = { item_count (λ w. w) };

    fn next(&mut self) -> Option<(Addr, Shape)> {
        if self.offset >= self.end {
            return None;
        }
        let (at, shape, size) = self.table.tile_behind(self.region, self.offset);
        self.offset += size;
        Some((at, shape))
    }
}

impl RegionTable {
    /// The tiles that start in a region, from its bottom to its top. The first region of a run has its one object.
    pub fn walk(&self, region: RegionNo) -> Walk<'_>
        requires { region < length self.now.regions }
        ensures { result ≡ placed (region * self.now.words_per_region) (tiles_of self.now region) }
    {
        let end = self.tile_words(region);
        Walk {
            table: self,
            region,
            offset: 0,
            end,
        }
    }

    /// The tiles of a region from the one at an address on, up to the region's top.
    pub fn walk_from(&self, at: Addr) -> Walk<'_>
        requires { IsSome (tile_in self.now at) }
        ensures { result ≡ walk_rest self.now (at / self.now.words_per_region) (at % self.now.words_per_region) }
    {
        self.law();
        let region = self.region_of(at);
        let end = self.tile_words(region);
        Walk {
            table: self,
            region,
            offset: at.word() - region.number() * self.words_per_region(),
            end,
        }
    }

    /// The lowest address of a region at which a tile starts. With `next_tile` it goes over a region whose objects change
    /// meanwhile.
    pub fn lowest_tile(&self, region: RegionNo) -> Option<Addr>
        requires { region < length self.now.regions }
        ensures { IsLowestTile self.now region result }
    {
        self.law();
        let bottom = region.number() * self.words_per_region();
        if self.tile_words(region) == 0 {
            return None;
        }
        Some(Addr::new(bottom))
    }

    /// Where the tile behind the one at an address starts, none where that is its region's last, as the one object of a
    /// run is. With it a region is gone through while its tiles change and more come.
    pub fn next_tile(&self, at: Addr) -> Option<Addr>
        requires { IsSome (tile_in self.now at) }
        ensures next { IfSome result (IsNextTile self.now at) }
        ensures last { IfNone result (IsLast self.now at) }
    {
        self.law();
        let region = self.region_of(at);
        let next = at.word() + self.tile(at).size();
        match self.kind(region) {
            Kind::Ordinary => {
                if next < self.top(region).word() {
                    Some(Addr::new(next))
                } else {
                    None
                }
            }
            Kind::Free | Kind::First | Kind::Rest => None,
        }
    }

    /// The same of an object in an ordinary region, whose header isn't looked at for that.
    pub fn next_behind(&self, object: Addr) -> Option<Addr>
        requires object { IsSome (object_at self.now object) }
        requires ordinary { kind_of self.now (object / self.now.words_per_region) ≡ kinds.Ordinary }
        ensures next { IfSome result (IsNextTile self.now object) }
        ensures last { IfNone result (IsLast self.now object) }
    {
        self.law();
        let next = object.word() + self.object_size(object);
        if next < self.top(self.region_of(object)).word() {
            Some(Addr::new(next))
        } else {
            None
        }
    }

    /// Where the tile that holds a word starts: in a run its object. None where the word is at or above its
    /// region's top. It looks at the tile to which the entry of the word's card leads, and at those from there on if that isn't the one:
    /// at the tiles of two cards at most where an object has words in the word's card, and else at those of a buffer (`first_tiles`).
    #[inline(always)]
    pub fn first_tile(&self, word: Addr) -> Option<Addr>
        requires { word < length self.now.regions * self.now.words_per_region }
        ensures found { IsSome result ↔ (word < top_of self.now (word / self.now.words_per_region)) }
        ensures holder { IfSome result (λ a. IsHolder self.now a word) }
    {
        self.first_tile_counted(word, &mut Work::new())
    }

    /// The same, for one who counts: a turn for each tile that it looks at after the first. No promise says that these are few, so they are
    /// at most the words of the region below the word, and one more.
    #[inline(always)]
    pub fn first_tile_counted(&self, word: Addr, work: &mut Work) -> Option<Addr>
        requires { word < length self.now.regions * self.now.words_per_region }
        ensures found { IsSome result ↔ (word < top_of self.now (word / self.now.words_per_region)) }
        ensures holder { IfSome result (λ a. IsHolder self.now a word) }
        ensures work { work.new ≤ work.old + word % self.now.words_per_region + 1 }
    {
        self.law();
        if self.top(self.region_of(word)).word() <= word.word() {
            return None;
        }
        let card = self.first_tiles.card_of(word.word());
        let start = Addr::new(self.first_tiles.start(card));
        if word.word() < start.word() + self.tile(start).size() {
            return Some(start);
        }
        self.search_tile(start, word, work)
    }

    /// The same by a search from a tile on that leads to the word's. It isn't made part of its callers, which mostly look for a card's
    /// first word.
    #[inline(never)]
    fn search_tile(&self, start: Addr, word: Addr, work: &mut Work) -> Option<Addr>
        requires leads { (a : ℕ) × IsHolder self.now a word × LeadsTo self.now start a word }
        requires below { word < top_of self.now (word / self.now.words_per_region) }
        ensures found { IsSome result ↔ (word < top_of self.now (word / self.now.words_per_region)) }
        ensures holder { IfSome result (λ a. IsHolder self.now a word) }
        ensures work { work.new ≤ work.old + word % self.now.words_per_region + 1 }
    {
        self.law();
        for (at, shape) in self.walk_from(start) {
            work.tick();
            if word.word() < at.word() + shape.size() {
                return Some(at);
            }
        }
        None
    }

    /// The tile at an offset of a region, with its address and its size.
    pub(crate) fn tile_behind(&self, region: RegionNo, offset: u32) -> (Addr, Shape, u32)
        requires known { region < length self.now.regions }
        requires cut { IsCut offset (tiles_of self.now region) }
        requires within { offset < total_size (tiles_of self.now region) }
        ensures { IsTileBehind self.now region offset result }
    {
        let at = Addr::new(region.number() * self.words_per_region + offset);
        let shape = shape_at(&self.words, at);
        let size = shape.size();
        (at, shape, size)
    }

    /// How many words the tiles have that start in a region. Most regions that are asked for are ordinary, so that the others are
    /// asked for apart.
    pub(crate) fn tile_words(&self, region: RegionNo) -> u32
        requires { region < length self.now.regions }
        ensures { IsWalk self.now region 0 result }
    {
        let row = self.rows[region.number() as usize];
        match row.kind {
            Kind::Ordinary => row.used,
            Kind::Free | Kind::First | Kind::Rest => self.run_words(region),
        }
    }

    /// The same of a region that isn't ordinary.
    #[inline(never)]
    fn run_words(&self, region: RegionNo) -> u32
        requires known { region < length self.now.regions }
        requires other { kind_of self.now region ≢ kinds.Ordinary }
        ensures { IsWalk self.now region 0 result }
    {
        match self.rows[region.number() as usize].kind {
            Kind::First => size_at(
                &self.words,
                Addr::new(region.number() * self.words_per_region),
            ),
            Kind::Free | Kind::Rest | Kind::Ordinary => 0,
        }
    }
}
