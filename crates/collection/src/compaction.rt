//! Compactions, until an object of more than half a region has a run of free regions, or no region in use is above a free one.
//!
//! ```text
//!   with a budget of a region's words     until no ordinary region goes down
//!   with no budget                        each moves a run down, which then rests on what is in use: at most as many as there are regions
//! ```

ghost use Rattle.std.specs.Prelude.{◌≡◌, ◌↔◌, ◌+◌, ◌*◌, ◌<◌, ◌≤◌, true, false, IsTrue, ℕ, length};
ghost use Rattle.heap_steps.specs.Actors.{IsThird, IsOp};
ghost use Rattle.heap_steps.specs.declared.step.Reply.TheVariants as replies;
ghost use Rattle.heap_model.specs.Graph.{Graph};
ghost use Rattle.regions.specs.Table.{free_count, kind_of};
ghost use Rattle.graph_runs.specs.State.{State};
ghost use Rattle.graph_runs.specs.Run.{IsNew};
ghost use Rattle.step_core.specs.Stands.{Stands};
ghost use Rattle.collection.specs.Space.{IsCollected, IsCompact, IsPacked, IsQuiet, LieBelowFree, RunsRestBelow, is_ordinary};
ghost use Rattle.collection.specs.Space.{ordinary_end};
ghost use Rattle.collection.specs.Steps.{CollectsWithin, FitsLeavingTwo, AsksWithin};
ghost use Rattle.collection.specs.Rooms.{HasRun, IsSpared};

use crate::numbers::Policy;
use crate::room::is_spared;
use crate::steps::{Watch, take};
use crate::whole::collect_dense;
use heap_steps::{CollectorStep, Op, Reply, is_third};
use heap_words::addr::RegionNo;
use regions::{Kind, RegionTable};
use step_core::Core;

/// Whether a region is an ordinary one.
fn is_ordinary(table: &RegionTable, region: RegionNo) -> bool
    requires { region < length table.now.regions }
    ensures { result ≡ is_ordinary (kind_of table.now region) }
{
    match table.kind(region) {
        Kind::Ordinary => true,
        Kind::Free | Kind::First | Kind::Rest => false,
    }
}

/// The number above the highest ordinary region, 0 where there is none.
fn end_of_ordinary(core: &Core) -> u32
    ensures { result ≡ ordinary_end core.now.table }
{
    let table = core.table();
    let mut number = table.region_count();
    while number > 0 {
        if is_ordinary(table, RegionNo::new(number - 1)) {
            return number;
        }
        number -= 1;
    }
    0
}

/// A compaction of a region of words, which takes one destination at most. Answers whether the highest ordinary region is lower then: else
/// each is below each free one, and a run may have moved.
fn compact_once<W: Watch>(core: &mut Core, policy: &mut Policy, watch: &mut W) -> bool
    requires third { IsThird core.old.config.format }
    ensures collects { CollectsWithin W.sees 1 core.old watch.old core.new watch.new }
    ensures quiet { (s : State) → IsQuiet s core.old → IsQuiet s core.new }
    ensures packed { (g : Graph) → IsPacked g core.old → IsPacked g core.new }
    ensures lower { result ≡ true → ordinary_end core.new.table < ordinary_end core.old.table }
    ensures below { result ≡ false → (s : State) → IsQuiet s core.old → 2 ≤ free_count core.old.table → LieBelowFree core.new.table }
{
    let words = core.config().words;
    let end = end_of_ordinary(core);
    take(core, policy, CollectorStep::Compact(words), watch);
    end_of_ordinary(core) < end
}

/// Whether a reply says that a compaction moved something.
fn moves(reply: Reply) -> bool
    ensures { (n w : ℕ) → reply ≡ replies.Moved n w → IsTrue result ↔ (0 < n) }
{
    match reply {
        Reply::Moved { regions, .. } => regions > 0,
        _ => false,
    }
}

/// A compaction with no budget, where no ordinary region goes down. Answers whether a run moved: then the lowest with a free region
/// directly below did.
fn slide_once<W: Watch>(core: &mut Core, policy: &mut Policy, watch: &mut W) -> bool
    requires third { IsThird core.old.config.format }
    ensures collects { CollectsWithin W.sees 1 core.old watch.old core.new watch.new }
    ensures quiet { (s : State) → IsQuiet s core.old → IsQuiet s core.new }
    ensures packed { (g : Graph) → LieBelowFree core.old.table → IsPacked g core.old → IsPacked g core.new }
    ensures below { LieBelowFree core.old.table → LieBelowFree core.new.table }
    ensures rests { result ≡ true → (s : State) → IsQuiet s core.old → LieBelowFree core.old.table
        → (n : ℕ) → RunsRestBelow n core.old.table → RunsRestBelow (n + 1) core.new.table }
    ensures compact { result ≡ false → (s : State) → IsQuiet s core.old → LieBelowFree core.old.table → IsCompact core.new.table }
{
    let reply = take(core, policy, CollectorStep::Compact(u32::MAX), watch);
    moves(reply)
}

/// Compactions that move runs, until the object has a run of free regions, or none moves. Answers whether it has.
fn slide_for<W: Watch>(
    core: &mut Core,
    policy: &mut Policy,
    op: &Op,
    size: u32,
    watch: &mut W,
) -> bool
    requires third { IsThird core.old.config.format }
    requires asked { AsksWithin core.old.config op.now size }
    requires large { core.old.config.words < 2 * size }
    ensures collects { CollectsWithin W.sees core.old.config.regions core.old watch.old core.new watch.new }
    ensures quiet { (s : State) → IsQuiet s core.old → IsQuiet s core.new }
    ensures packed { (g : Graph) → LieBelowFree core.old.table → IsPacked g core.old → IsPacked g core.new }
    ensures spared { result ≡ true → IsSpared core.new op.now }
    ensures full { result ≡ false → FitsLeavingTwo core.new op.now → ⊥ }
    ensures none { result ≡ false → HasRun core.new size → ⊥ }
    ensures compact { result ≡ false → (s : State) → IsQuiet s core.old → LieBelowFree core.old.table → IsCompact core.new.table }
{
    let most = core.config().regions;
    let mut moved = 0;
    while moved < most {
        if is_spared(core, op, size) {
            return true;
        }
        if !slide_once(core, policy, watch) {
            return is_spared(core, op, size);
        }
        moved += 1;
    }
    core.law_remembers();
    core.law_shaped();
    is_spared(core, op, size)
}

/// Compactions until the object has a run of free regions, or none moves anything. Answers whether it has.
pub(crate) fn compact_for<W: Watch>(
    core: &mut Core,
    policy: &mut Policy,
    op: &Op,
    size: u32,
    watch: &mut W,
) -> bool
    requires third { IsThird core.old.config.format }
    requires asked { AsksWithin core.old.config op.now size }
    requires large { core.old.config.words < 2 * size }
    ensures collects { CollectsWithin W.sees (2 * core.old.config.regions + 1) core.old watch.old core.new watch.new }
    ensures quiet { (s : State) → IsQuiet s core.old → IsQuiet s core.new }
    ensures packed { (s : State) → IsQuiet s core.old → 2 ≤ free_count core.old.table → (g : Graph) → IsPacked g core.old
        → IsPacked g core.new }
    ensures spared { result ≡ true → IsSpared core.new op.now }
    ensures full { result ≡ false → FitsLeavingTwo core.new op.now → ⊥ }
    ensures none { result ≡ false → HasRun core.new size → ⊥ }
    ensures compact { result ≡ false → (s : State) → IsQuiet s core.old → 2 ≤ free_count core.old.table → IsCompact core.new.table }
{
    core.law_remembers();
    'compactions: loop {
        if !compact_once(core, policy, watch) {
            return slide_for(core, policy, op, size, watch);
        }
        if is_spared(core, op, size) {
            return true;
        }
    }
}

/// Compactions that move runs, until none moves: no region in use is above a free one then.
fn slide_down<W: Watch>(core: &mut Core, policy: &mut Policy, watch: &mut W)
    requires third { IsThird core.old.config.format }
    ensures collects { CollectsWithin W.sees core.old.config.regions core.old watch.old core.new watch.new }
    ensures quiet { (s : State) → IsQuiet s core.old → IsQuiet s core.new }
    ensures packed { (g : Graph) → LieBelowFree core.old.table → IsPacked g core.old → IsPacked g core.new }
    ensures compact { (s : State) → IsQuiet s core.old → LieBelowFree core.old.table → IsCompact core.new.table }
{
    let most = core.config().regions;
    let mut moved = 0;
    while moved < most {
        if !slide_once(core, policy, watch) {
            return;
        }
        moved += 1;
    }
    core.law_remembers();
    core.law_shaped();
}

/// Compactions until none moves anything: no region in use is above a free one then.
fn compact_down<W: Watch>(core: &mut Core, policy: &mut Policy, watch: &mut W)
    requires third { IsThird core.old.config.format }
    ensures collects { CollectsWithin W.sees (2 * core.old.config.regions + 1) core.old watch.old core.new watch.new }
    ensures quiet { (s : State) → IsQuiet s core.old → IsQuiet s core.new }
    ensures packed { (s : State) → IsQuiet s core.old → 2 ≤ free_count core.old.table → (g : Graph) → IsPacked g core.old
        → IsPacked g core.new }
    ensures compact { (s : State) → IsQuiet s core.old → 2 ≤ free_count core.old.table → IsCompact core.new.table }
{
    core.law_remembers();
    'compactions: loop {
        if !compact_once(core, policy, watch) {
            slide_down(core, policy, watch);
            return;
        }
    }
}

/// A whole collection, pauses for as long as each frees a region, and in the third format compactions until none moves anything: then, if
/// two regions were free, no region in use is above a free one. What is kept is what roots reach, as after `collect`.
///
/// ```rust
/// collect_down(&mut core, &mut policy, &mut Unwatched);
/// assert_eq!(rt; core.free_regions(), 4);
/// ```
pub fn collect_down<W: Watch>(core: &mut Core, policy: &mut Policy, watch: &mut W)
    ensures collects { CollectsWithin W.sees (13 + 4 * core.old.config.regions) core.old watch.old core.new watch.new }
    ensures quiet { (s : State) → Stands s core.old → IsCollected s.graph core.new }
    ensures packed { (s : State) → Stands s core.old → 2 ≤ free_count core.old.table → IsPacked s.graph core.new }
    ensures compact { IsThird core.old.config.format → 2 ≤ free_count core.old.table → (s : State) → Stands s core.old
        → IsCompact core.new.table }
{
    collect_dense(core, policy, watch);
    if !is_third(core.config().format) {
        return;
    }
    compact_down(core, policy, watch);
}
