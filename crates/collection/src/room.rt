//! Whether there is room for an object that is asked for, beside two free regions.

ghost use Rattle.std.specs.Prelude.{◌≡◌, ◌↔◌, ◌+◌, ◌*◌, ◌<◌, ◌≤◌, ◌^◌, IsTrue, true, false, ℕ};
ghost use Rattle.heap_steps.specs.Actors.{IsOp, IsThird};
ghost use Rattle.regions.specs.Table.{free_count};
ghost use Rattle.graph_runs.specs.Run.{IsNew};
ghost use Rattle.alloc_buffers.specs.Placement.{run_count};
ghost use Rattle.collection.specs.Steps.{FitsLeavingTwo, AsksWithin, LeavesTwo, asked_words};
ghost use Rattle.collection.specs.Rooms.{FitsOpen, HasRun, IsCreatable, IsSpared, TakesRegion, has_rest};

use heap_steps::{Action, Op};
use heap_words::addr::RegionNo;
use heap_words::config::{Config, Format};
use step_core::Core;

/// How many words the object has that is asked for.
#[inline(always)]
pub(crate) fn words_of(action: &Action) -> u64
    ensures { result ≡ asked_words action.now }
{
    match action {
        Action::New { counts, .. } => counts.size(0),
        Action::NewWeak { counts, weaks, .. } => counts.size(*weaks),
        _ => 0,
    }
}

/// Whether the graph would create the object: it isn't larger than an object may be, and a name is left.
pub(crate) fn is_creatable(core: &Core, action: &Action, size: u64) -> bool
    requires { size ≡ asked_words action.now }
    ensures { IsTrue result ↔ IsCreatable core.now action.now }
{
    if core.config().object_limit() < size {
        return false;
    }
    core.next_name() != u64::MAX
}

/// Whether the region that buffers are cut from has so many words left.
fn has_rest(core: &Core, words: u32) -> bool
    ensures { result ≡ has_rest core.now.table core.now.buffers.current words }
{
    core.law_remembers();
    match core.buffers().current() {
        Some(region) => core.table().has_room(RegionNo::new(region), words),
        None => false,
    }
}

/// Whether an object of at most half a region needs no free region: it fits into the mutator's buffer, or what is cut for it into the
/// region that buffers are cut from.
fn fits_open(core: &Core, mutator: u32, size: u32) -> bool
    requires known { mutator < core.now.config.mutators }
    requires small { 2 * size ≤ core.now.config.words }
    ensures fits { IsTrue result ↔ FitsOpen core.now mutator size }
    ensures takes { result ≡ false → TakesRegion core.now mutator size }
{
    core.law_remembers();
    if let Some(open) = core.buffers().open_buffer(mutator) {
        if size <= open.rest {
            return true;
        }
    }
    let buffer = core.config().buffer;
    if size <= buffer {
        has_rest(core, buffer)
    } else {
        has_rest(core, size)
    }
}

/// How many regions a larger object takes.
fn count_regions(config: &Config, size: u32) -> u32
    requires words { 0 < config.now.words }
    requires small { size + config.now.words ≤ 2 ^ 32 }
    ensures { result ≡ run_count config.now.words size }
{
    (size + (config.words - 1)) / config.words
}

/// Whether a larger object has a run of free regions, and two are left beside it.
fn has_run(core: &Core, size: u32) -> bool
    requires large { core.now.config.words < 2 * size }
    requires within { size ≤ core.now.config.regions * core.now.config.words }
    ensures { IsTrue result ↔ HasRun core.now size }
{
    core.law_remembers();
    core.law_shaped();
    let config = core.config();
    let count = count_regions(&config, size);
    if core.free_regions() < count + 2 {
        return false;
    }
    core.table().free_run(count).is_some()
}

/// Whether the object can be made so that two free regions stay two, if they are: then it has a place too.
pub(crate) fn is_spared(core: &Core, op: &Op, size: u32) -> bool
    requires asked { AsksWithin core.now.config op.now size }
    ensures spared { result ≡ true → IsSpared core.now op.now }
    ensures full { result ≡ false → FitsLeavingTwo core.now op.now → ⊥ }
    ensures small { result ≡ false → 2 * size ≤ core.now.config.words → free_count core.now.table ≤ 2 }
    ensures large { result ≡ false → core.now.config.words < 2 * size → HasRun core.now size → ⊥ }
{
    core.law_remembers();
    if 2 * u64::from(size) <= u64::from(core.config().words) {
        if core.free_regions() > 2 {
            return true;
        }
        fits_open(core, op.mutator, size)
    } else {
        has_run(core, size)
    }
}

/// Whether an object may have more than half a region. Of up to 8 words none has, since a region has 16.
#[inline(always)]
fn is_large(core: &Core, size: u64) -> bool
    ensures { result ≡ false → 2 * size ≤ core.now.config.words }
{
    core.law_remembers();
    8 < size && u64::from(core.config().words) / 2 < size
}

/// Whether an object of at most half a region has room in the mutator's buffer, or more than two regions are free. The buffer is asked
/// first: mostly it has room, and who makes the object asks it in any case.
#[inline(always)]
pub(crate) fn has_spare(core: &Core, op: &Op, size: u64) -> bool
    requires mutator { op.now.mutator < core.now.config.mutators }
    requires new { IsNew op.now.action }
    requires size { size ≡ asked_words op.now.action }
    ensures { result ≡ true → IsSpared core.now op.now }
{
    core.law_remembers();
    if is_large(core, size) {
        return false;
    }
    if size < u64::from(core.buffers().rest(op.mutator)) {
        return true;
    }
    core.free_regions() > 2
}

/// Whether the heap has too few regions to leave two beside those that an object takes.
pub(crate) fn is_last_resort(config: &Config, action: &Action, size: u32) -> bool
    requires words { 0 < config.now.words }
    requires small { size + config.now.words ≤ 2 ^ 32 }
    requires size { size ≡ asked_words action.now }
    ensures { IsTrue result ↔ (LeavesTwo config.now action.now → ⊥) }
{
    let taken = if 2 * u64::from(size) <= u64::from(config.words) {
        1
    } else {
        count_regions(config, size)
    };
    u64::from(taken) + 2 >= u64::from(config.regions)
}

/// Whether compactions may make a run for an object: it is one of more than half a region, and the heap's format has them.
pub(crate) fn may_compact(config: &Config, size: u32) -> bool
    ensures { IsTrue result ↔ ((config.now.words < 2 * size) × IsThird config.now.format) }
{
    match config.format {
        Format::V3 { .. } => u64::from(config.words) < 2 * u64::from(size),
        _ => false,
    }
}
