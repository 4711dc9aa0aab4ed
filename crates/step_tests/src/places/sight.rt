//! A heap as it is seen from outside: every object, every region and every root.

ghost use Rattle.std.specs.Prelude.{◌<◌, IsSome};
ghost use Rattle.regions.specs.Table.{object_at, tile_in};

use heap_words::addr::{Addr, RegionNo};
use regions::{Kind, Shape};
use std::alloc::{AllocError, Global};
use step_core::Core;

/// How many fields an object of a drawn heap has at most.
pub(crate) const FIELDS: usize = 24;

/// An object where it is, and what its fields name: its pointers, and its weak slots after them. The fields that it
/// hasn't name nothing.
#[derive(Clone, Copy, Debug, PartialEq, Eq)]
pub(crate) struct Seen {
    pub(crate) at: u32,
    pub(crate) size: u32,
    pub(crate) name: u64,
    pub(crate) pointers: u32,
    pub(crate) weaks: u32,
    /// Whether it starts at or above its region's previous top at mark start, or is marked.
    pub(crate) kept: bool,
    pub(crate) fields: [Option<u32>; FIELDS],
}

impl Seen {
    /// What a field names, None after the last one.
    pub(crate) fn field(&self, number: u32) -> Option<u32> {
        if (number as usize) < FIELDS {
            self.fields[number as usize]
        } else {
            None
        }
    }

    /// A field takes what it is to name.
    pub(crate) fn set_field(&mut self, number: u32, word: Option<u32>) {
        if (number as usize) < FIELDS {
            self.fields[number as usize] = word;
        }
    }
}

/// What a region is, its top, and its tops at mark start.
#[derive(Clone, Copy, Debug, PartialEq, Eq)]
pub(crate) struct Space {
    pub(crate) number: u32,
    pub(crate) kind: Kind,
    pub(crate) top: u32,
    pub(crate) previous: u32,
    pub(crate) next: u32,
}

/// A heap as it is seen, its objects by rising address.
#[derive(Drop)]
pub(crate) struct Sight {
    /// The words of a region.
    pub(crate) words: u32,
    /// The words of a card.
    pub(crate) card_words: u32,
    pub(crate) spaces: Vec<Space>,
    pub(crate) objects: Vec<Seen>,
    pub(crate) roots: Vec<Option<u32>>,
}

impl Sight {
    /// The object that a word names.
    pub(crate) fn object(&self, word: Option<u32>) -> Option<Seen> {
        let at = word?;
        self.objects.iter().find(|object| object.at == at).copied()
    }

    /// What a root place holds.
    pub(crate) fn root(&self, place: usize) -> Option<u32> {
        match self.roots.get(place) {
            Some(word) => *word,
            None => None,
        }
    }
}

/// What a field of the object at an address names, None after its last field.
fn field_of(core: &Core, at: Addr, field: u32) -> Option<u32>
    requires { IsSome (object_at core.now.table at) }
{
    let table = core.table();
    if field < table.field_count(at) {
        table.get_field(at, field).map(|target| target.word())
    } else {
        None
    }
}

/// What the fields of the object at an address name.
fn fields_of(core: &Core, at: Addr) -> [Option<u32>; FIELDS]
    requires { IsSome (object_at core.now.table at) }
{
    let mut fields = [None; FIELDS];
    let count = core.table().field_count(at) as usize;
    for number in 0..FIELDS.min(count) {
        fields[number] = field_of(core, at, number as u32);
    }
    fields
}

/// The object at an address of a region with this previous top at mark start.
fn object_seen(core: &Core, at: Addr, previous: u32) -> Seen
    requires { IsSome (object_at core.now.table at) }
{
    let table = core.table();
    let marks = &core.marker().bitmaps.previous;
    let marked = at.word() < marks.len() && marks.get(at);
    Seen {
        at: at.word(),
        size: table.object_size(at),
        name: table.name(at),
        pointers: table.pointer_count(at),
        weaks: table.weak_count(at),
        kept: marked || at.word() >= previous,
        fields: fields_of(core, at),
    }
}

/// The object that a tile is.
fn tile_seen(core: &Core, at: Addr, previous: u32) -> Option<Seen>
    requires { IsSome (tile_in core.now.table at) }
{
    match core.table().tile(at) {
        Shape::Object { .. } => Some(object_seen(core, at, previous)),
        Shape::Filler { .. } | Shape::Forwarded { .. } => None,
    }
}

/// The object that starts at a word.
fn word_seen(core: &Core, word: u32, previous: u32) -> Option<Seen> {
    let table = core.table();
    table.law();
    if word >= table.region_count() * table.words_per_region() {
        return None;
    }
    let at = table.first_tile(Addr::new(word))?;
    if at.word() != word {
        return None;
    }
    tile_seen(core, at, previous)
}

/// The object that a root place names.
pub(crate) fn named(core: &Core, place: usize) -> Option<Seen> {
    let roots = core.roots();
    if roots.len() <= place {
        return None;
    }
    word_seen(core, roots.get(place)?.word(), 0)
}

/// The region of this number.
fn space_seen(core: &Core, number: u32) -> Space
    requires { number < core.now.config.regions }
{
    core.law_remembers();
    let region = RegionNo::new(number);
    let table = core.table();
    let tams = &core.marker().tams;
    Space {
        number,
        kind: table.kind(region),
        top: table.top(region).word(),
        previous: tams.previous(region).word(),
        next: tams.next(region).word(),
    }
}

/// The heap as it is, word by word. The words inside an object that was seen are skipped.
pub(crate) fn look(alloc: Global, core: &Core) -> Result<Sight, AllocError> {
    let words = core.config().words;
    let mut spaces = Vec::new(alloc);
    let mut objects = Vec::new(alloc);
    for number in 0..core.config().regions {
        let space = space_seen(core, number);
        spaces.push(space)?;
        let mut end = 0u32;
        for word in number.saturating_mul(words)..space.top {
            if word < end {
                continue;
            }
            if let Some(object) = word_seen(core, word, space.previous) {
                end = word.saturating_add(object.size);
                objects.push(object)?;
            }
        }
    }
    let mut roots = Vec::new(alloc);
    for place in 0..core.roots().len() {
        roots.push(core.roots().get(place).map(|target| target.word()))?;
    }
    Ok(Sight {
        words,
        card_words: core.config().card_words(),
        spaces,
        objects,
        roots,
    })
}
