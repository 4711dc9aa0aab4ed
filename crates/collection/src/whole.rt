//! A whole collection: a cycle of marking with no mutator's step in it, a cleanup, and pauses for as long as each frees a region.

ghost use Rattle.std.specs.Prelude.{◌≡◌, ◌+◌, ◌-◌, ◌*◌, ◌<◌, ◌≤◌, ℕ, true, false};
ghost use Rattle.regions.specs.Table.{free_count};
ghost use Rattle.graph_runs.specs.State.{State};
ghost use Rattle.step_core.specs.Stands.{Stands};
ghost use Rattle.collection.specs.Space.{IsCollected, IsQuiet, IsPacked};
ghost use Rattle.collection.specs.Steps.{CollectsWithin};

use crate::density::is_packed;
use crate::numbers::Policy;
use crate::steps::{Watch, take};
use heap_steps::CollectorStep;
use step_core::Core;

/// Ends marking, if it runs.
fn end_marking<W: Watch>(core: &mut Core, policy: &mut Policy, watch: &mut W)
    ensures collects { CollectsWithin W.sees 1 core.old watch.old core.new watch.new }
    ensures idle { core.new.marker.running ≡ false }
    ensures free { free_count core.old.table ≤ free_count core.new.table }
{
    if core.marking() {
        take(core, policy, CollectorStep::Remark, watch);
    }
}

/// A cycle of marking, in which no mutator takes a step, and the cleanup after it: what is kept then is what roots reach.
fn mark_all<W: Watch>(core: &mut Core, policy: &mut Policy, watch: &mut W)
    requires idle { core.old.marker.running ≡ false }
    ensures collects { CollectsWithin W.sees 3 core.old watch.old core.new watch.new }
    ensures quiet { (s : State) → Stands s core.old → IsCollected s.graph core.new }
    ensures free { free_count core.old.table ≤ free_count core.new.table }
{
    take(core, policy, CollectorStep::Begin, watch);
    take(core, policy, CollectorStep::Remark, watch);
    take(core, policy, CollectorStep::Cleanup, watch);
}

/// A pause of what is least live, with no budget. Answers whether more regions are free.
fn pause_once<W: Watch>(core: &mut Core, policy: &mut Policy, watch: &mut W) -> bool
    ensures collects { CollectsWithin W.sees 1 core.old watch.old core.new watch.new }
    ensures quiet { (s : State) → IsQuiet s core.old → IsQuiet s core.new }
    ensures more { result ≡ true → free_count core.old.table < free_count core.new.table }
    ensures packed { result ≡ false → (s : State) → IsQuiet s core.old → 2 ≤ free_count core.old.table → IsPacked s.graph core.new }
    ensures within { free_count core.new.table ≤ core.new.config.regions }
{
    let before = core.free_regions();
    take(core, policy, CollectorStep::Pause(u32::MAX), watch);
    core.free_regions() > before
}

/// Pauses for as long as each frees a region and one is in use: at most so many pauses as regions are in use. None where there is nothing
/// to gain.
pub(crate) fn pause_all<W: Watch>(core: &mut Core, policy: &mut Policy, watch: &mut W)
    ensures collects { CollectsWithin W.sees (core.old.config.regions - free_count core.old.table) core.old watch.old core.new watch.new }
    ensures quiet { (s : State) → IsQuiet s core.old → IsQuiet s core.new }
    ensures packed { (s : State) → IsQuiet s core.old → 2 ≤ free_count core.old.table → IsPacked s.graph core.new }
{
    'pauses: loop {
        core.law_remembers();
        if core.free_regions() >= core.config().regions {
            return;
        }
        core.law_shaped();
        if is_packed(core, policy) {
            return;
        }
        if !pause_once(core, policy, watch) {
            return;
        }
    }
}

/// The same without a look at what there is to gain: all but what fills its region moves together.
pub(crate) fn pause_down<W: Watch>(core: &mut Core, policy: &mut Policy, watch: &mut W)
    ensures collects { CollectsWithin W.sees (core.old.config.regions - free_count core.old.table) core.old watch.old core.new watch.new }
    ensures quiet { (s : State) → IsQuiet s core.old → IsQuiet s core.new }
    ensures packed { (s : State) → IsQuiet s core.old → 2 ≤ free_count core.old.table → IsPacked s.graph core.new }
{
    'pauses: loop {
        core.law_remembers();
        if core.config().regions <= core.free_regions() {
            return;
        }
        if !pause_once(core, policy, watch) {
            return;
        }
    }
}

/// A whole collection, of at most four steps and a pause for each region in use. What is kept then is what roots reach. Where two regions
/// were free, what roots reach has more than half of the words of all regions in use; of all but one, if that alone is ordinary.
///
/// ```rust
/// collect(&mut core, &mut policy, &mut Unwatched);
/// assert_eq!(rt; core.free_regions(), 4);
/// ```
pub fn collect<W: Watch>(core: &mut Core, policy: &mut Policy, watch: &mut W)
    ensures collects { CollectsWithin W.sees (4 + (core.old.config.regions - free_count core.old.table)) core.old watch.old core.new
        watch.new }
    ensures quiet { (s : State) → Stands s core.old → IsCollected s.graph core.new }
    ensures packed { (s : State) → Stands s core.old → 2 ≤ free_count core.old.table → IsPacked s.graph core.new }
{
    end_marking(core, policy, watch);
    mark_all(core, policy, watch);
    pause_all(core, policy, watch);
    policy.note_packed(core);
}

/// A cycle of marking once more.
fn mark_again<W: Watch>(core: &mut Core, policy: &mut Policy, watch: &mut W)
    ensures collects { CollectsWithin W.sees 4 core.old watch.old core.new watch.new }
    ensures quiet { (s : State) → IsQuiet s core.old → IsCollected s.graph core.new }
{
    end_marking(core, policy, watch);
    mark_all(core, policy, watch);
}

/// Two cycles of marking, where half of the regions are free: what lives is in few regions now, and both sets of marks take pages for these
/// alone then.
fn mark_twice<W: Watch>(core: &mut Core, policy: &mut Policy, watch: &mut W)
    ensures collects { CollectsWithin W.sees 8 core.old watch.old core.new watch.new }
    ensures quiet { (s : State) → IsQuiet s core.old → IsCollected s.graph core.new }
{
    if core.free_regions() < core.config().regions / 2 {
        return;
    }
    mark_again(core, policy, watch);
    mark_again(core, policy, watch);
}

/// The same, and pauses after it for as long as each frees a region.
pub(crate) fn collect_dense<W: Watch>(core: &mut Core, policy: &mut Policy, watch: &mut W)
    ensures collects { CollectsWithin W.sees (12 + 2 * core.old.config.regions) core.old watch.old core.new watch.new }
    ensures quiet { (s : State) → Stands s core.old → IsCollected s.graph core.new }
    ensures packed { (s : State) → Stands s core.old → 2 ≤ free_count core.old.table → IsPacked s.graph core.new }
{
    collect(core, policy, watch);
    mark_twice(core, policy, watch);
    pause_down(core, policy, watch);
    policy.note_down(core);
}
