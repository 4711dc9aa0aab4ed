//! A search for ways: from the roots on, along pointers, each object once, those with fewer objects between a root and them first.
//!
//! It looks at each pointer of what roots lead to once, and takes a bit for each word of the heap, and a `Stage` for each object that it
//! finds.

ghost use Rattle.std.specs.Prelude.{◌≡◌, ◌+◌, ◌<◌, [], IfOk, OnOk, IsSome, Some, false, length, replicate, slice_get};
ghost use Rattle.bit_sets.specs.Bits.{has};
ghost use Rattle.regions.specs.Table.{pointers_at};
ghost use Rattle.heap_walk.specs.Holders.{links_at};
ghost use Rattle.heap_walk.specs.Starts.{word_count};
ghost use Rattle.heap_view.specs.Search.{Finds, HasRoots, HasSearched, IsSearch, KeepsPlaces};

use crate::snapshot::{root_at, root_count};
use bit_sets::bits::Bits;
use heap_walk::{link_at, links};
use heap_words::addr::Addr;
use regions::RegionTable;
use std::alloc::{AllocError, Global};
use step_core::Core;

/// An object that is found: where it starts, where the way to it comes from, and how many objects are between the root and it. Where none
/// is, the way comes from a root place, else from the stage of the last of them.
#[derive(Clone, Copy)]
pub(crate) struct Stage {
    pub(crate) at: u32,
    pub(crate) from: usize,
    pub(crate) depth: usize,
}

/// How many words the heap has.
fn word_count(table: &RegionTable) -> u32
    ensures { result ≡ word_count table.now }
{
    table.law();
    table.region_count() * table.words_per_region()
}

/// Adds an object to those that are found, unless it is among them.
fn find(seen: &mut Bits, stages: &mut Vec<Stage>, stage: Stage) -> Result<(), AllocError>
    requires { stage.at < length seen.old }
    ensures { OnOk result (Finds seen.old seen.new stages.old.items stages.new.items stage) }
{
    if !seen.insert(stage.at) {
        return Ok(());
    }
    stages.push(stage)?;
    Ok(())
}

/// Finds what a root place names.
fn find_root(
    core: &Core,
    seen: &mut Bits,
    stages: &mut Vec<Stage>,
    place: u32,
) -> Result<(), AllocError>
    requires place { place < length core.now.roots }
    requires roots { HasRoots core.now stages.old.items seen.old place }
    ensures { OnOk result (HasRoots core.now stages.new.items seen.new (place + 1)) }
{
    core.law_shaped();
    core.law_remembers();
    let Some(at) = root_at(core, place) else {
        return Ok(());
    };
    let stage = Stage {
        at: at.word(),
        from: place as usize,
        depth: 0,
    };
    find(seen, stages, stage)
}

/// Finds what the roots name.
fn find_roots(core: &Core, seen: &mut Bits, stages: &mut Vec<Stage>) -> Result<(), AllocError>
    requires empty { stages.old.items ≡ [] }
    requires none { seen.old ≡ replicate (word_count core.now.table) false }
    ensures { OnOk result (HasSearched core.now stages.new.items seen.new 0 0) }
{
    for place in 0..root_count(core) {
        find_root(core, seen, stages, place)?;
    }
    Ok(())
}

/// Finds what a pointer of an object names, of those that are found.
fn follow_link(
    core: &Core,
    seen: &mut Bits,
    stages: &mut Vec<Stage>,
    place: usize,
    index: u32,
) -> Result<(), AllocError>
    requires place { place < length stages.old.items }
    requires index { (stage : Stage) → slice_get stages.old.items place ≡ Some stage
        → index < length (pointers_at core.now.table stage.at) }
    requires searched { HasSearched core.now stages.old.items seen.old place index }
    ensures { OnOk result (HasSearched core.now stages.new.items seen.new place (index + 1)
        × KeepsPlaces stages.old.items stages.new.items) }
{
    core.law_shaped();
    core.law_remembers();
    let stage = stages[place];
    let Some(at) = link_at(core, Addr::new(stage.at), false, index) else {
        return Ok(());
    };
    let next = Stage {
        at: at.word(),
        from: place,
        depth: stage.depth + 1,
    };
    find(seen, stages, next)
}

/// Finds what the pointers of an object name, of those that are found.
fn follow(
    core: &Core,
    seen: &mut Bits,
    stages: &mut Vec<Stage>,
    place: usize,
) -> Result<(), AllocError>
    requires place { place < length stages.old.items }
    requires searched { HasSearched core.now stages.old.items seen.old place 0 }
    ensures { OnOk result (HasSearched core.now stages.new.items seen.new (place + 1) 0
        × KeepsPlaces stages.old.items stages.new.items) }
{
    core.law_shaped();
    let object = Addr::new(stages[place].at);
    for index in 0..links(core, object, false) {
        follow_link(core, seen, stages, place, index)?;
    }
    Ok(())
}

/// All that roots lead to, each object by a shortest way.
pub(crate) fn search(alloc: Global, core: &Core) -> Result<Vec<Stage>, AllocError>
    ensures { IfOk result (λ stages. IsSearch core.now stages.items) }
{
    let mut seen = Bits::new(alloc, word_count(core.table()))?;
    let mut stages = Vec::new(alloc);
    find_roots(core, &mut seen, &mut stages)?;
    let mut place = 0;
    while place < stages.len() {
        follow(core, &mut seen, &mut stages, place)?;
        place += 1;
    }
    Ok(stages)
}
