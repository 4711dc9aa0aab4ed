//! An object that is asked for, with the steps of the collector that are due before it.

ghost use Rattle.std.specs.Prelude.{◌≡◌, ◌⊎◌, ◌+◌, ◌-◌, ◌*◌, ◌<◌, ◌≤◌, true, false, ℕ, nat_le};
ghost use Rattle.heap_model.specs.Graph.{Graph};
ghost use Rattle.regions.specs.Table.{free_count};
ghost use Rattle.graph_runs.specs.State.{State};
ghost use Rattle.graph_runs.specs.Run.{IsNew};
ghost use Rattle.step_core.specs.Stands.{Stands, IsCore};
ghost use Rattle.step_core.specs.Making.{HasMade};
ghost use Rattle.heap_steps.specs.Actors.{IsOp, IsThird};
ghost use Rattle.heap_steps.specs.declared.step.Reply.TheVariants as replies;
ghost use Rattle.heap_steps.specs.declared.step.Refusal.TheVariants as refusals;
ghost use Rattle.collection.specs.Asked.{MakesByPolicy, MakesRoom, due_steps};
ghost use Rattle.collection.specs.Steps.{CollectsWithin, CollectsSome, FitsLeavingTwo, AsksFor, AsksWithin, IsDue, LeavesTwo, asked_words};
ghost use Rattle.collection.specs.Space.{IsCompact, IsPacked, IsQuiet};
ghost use Rattle.collection.specs.Rooms.{HasRun, IsCreatable, IsFilled, IsLastResort, IsSpared};

use crate::compaction::compact_for;
use crate::cycle::{collect_due, finish_cycle};
use crate::numbers::Policy;
use crate::room::{has_spare, is_creatable, is_last_resort, is_spared, may_compact, words_of};
use crate::steps::{Watch, take_own};
use crate::whole::collect;
use heap_steps::{Op, Refusal, Reply};
use step_core::Core;

/// Takes what is due, if a look is.
fn look<W: Watch>(core: &mut Core, policy: &mut Policy, size: u32, due: bool, watch: &mut W)
    ensures collects { CollectsWithin W.sees (due_steps core.old.config due) core.old watch.old core.new watch.new }
    ensures some { due ≡ true → IsDue core.old policy.old.begin_at
        → CollectsSome W.sees (core.old.config.regions + 5) core.old watch.old core.new watch.new }
{
    if due {
        policy.look_on(&core.config(), u64::from(size));
        collect_due(core, policy, watch);
    }
}

/// Compactions after a whole collection, which left no run for the object. Answers whether it may be made after them.
fn compact_all<W: Watch>(
    core: &mut Core,
    policy: &mut Policy,
    op: &Op,
    size: u32,
    watch: &mut W,
) -> bool
    requires third { IsThird core.old.config.format }
    requires asked { AsksWithin core.old.config op.now size }
    requires large { core.old.config.words < 2 * size }
    ensures collects { CollectsWithin W.sees (2 * core.old.config.regions + 1) core.old watch.old core.new watch.new }
    ensures quiet { (s : State) → IsQuiet s core.old → IsQuiet s core.new }
    ensures packed { (s : State) → IsQuiet s core.old → 2 ≤ free_count core.old.table → (g : Graph) → IsPacked g core.old
        → IsPacked g core.new }
    ensures room { result ≡ true → IsSpared core.new op.now ⊎ (LeavesTwo core.old.config op.now.action → ⊥) }
    ensures leaves { result ≡ false → LeavesTwo core.old.config op.now.action }
    ensures full { result ≡ false → FitsLeavingTwo core.new op.now → ⊥ }
    ensures none { result ≡ false → HasRun core.new size → ⊥ }
    ensures compact { result ≡ false → (s : State) → IsQuiet s core.old → 2 ≤ free_count core.old.table → IsCompact core.new.table }
    ensures core { result ≡ false → IsCore core.new }
{
    if compact_for(core, policy, op, size, watch) {
        return true;
    }
    core.law_remembers();
    core.law_shaped();
    is_last_resort(&core.config(), &op.action, size)
}

/// A whole collection, and compactions where an object of more than half a region has no run after it. Answers whether the object may be
/// made then: there is room beside two free regions, or the heap has too few regions to leave two.
fn collect_all<W: Watch>(
    core: &mut Core,
    policy: &mut Policy,
    op: &Op,
    size: u32,
    watch: &mut W,
) -> bool
    requires asked { AsksWithin core.old.config op.now size }
    ensures collects { CollectsWithin W.sees (5 + 3 * core.old.config.regions) core.old watch.old core.new watch.new }
    ensures room { result ≡ true → IsSpared core.new op.now ⊎ IsLastResort core.old op.now core.new }
    ensures leaves { result ≡ false → LeavesTwo core.old.config op.now.action }
    ensures full { result ≡ false → FitsLeavingTwo core.new op.now → ⊥ }
    ensures filled { result ≡ false → (s : State) → Stands s core.old → IsFilled s.graph core.old op.now.action core.new }
{
    collect(core, policy, watch);
    core.law_remembers();
    core.law_shaped();
    if is_spared(core, op, size) {
        return true;
    }
    if may_compact(&core.config(), size) {
        return compact_all(core, policy, op, size, watch);
    }
    is_last_resort(&core.config(), &op.action, size)
}

/// Takes what is due, and if need be brings the cycle to its end, or does a whole collection, until there is room for the object. Answers
/// whether it may be made.
fn make_room<W: Watch>(
    core: &mut Core,
    policy: &mut Policy,
    op: &Op,
    size: u32,
    due: bool,
    watch: &mut W,
) -> bool
    requires asked { AsksWithin core.old.config op.now size }
    ensures collects { CollectsWithin W.sees (5 * core.old.config.regions + 12) core.old watch.old core.new watch.new }
    ensures paced { MakesRoom W.sees due policy.old.begin_at op.now core.old watch.old core.new watch.new }
    ensures room { result ≡ true → IsSpared core.new op.now ⊎ IsLastResort core.old op.now core.new }
    ensures leaves { result ≡ false → LeavesTwo core.old.config op.now.action }
    ensures full { result ≡ false → FitsLeavingTwo core.new op.now → ⊥ }
    ensures filled { result ≡ false → (s : State) → Stands s core.old → IsFilled s.graph core.old op.now.action core.new }
{
    look(core, policy, size, due, watch);
    if is_spared(core, op, size) {
        return true;
    }
    finish_cycle(core, policy, watch);
    if is_spared(core, op, size) {
        return true;
    }
    collect_all(core, policy, op, size, watch)
}

/// Makes an object that the graph would create, or refuses it as Full. How many words may be asked for before the next look is set once the
/// collector took its steps, since none of them changes that.
fn make_creatable<W: Watch>(
    core: &mut Core,
    policy: &mut Policy,
    op: Op,
    size: u32,
    due: bool,
    watch: &mut W,
) -> Reply
    requires asked { AsksFor core.old.config op size }
    requires creatable { IsCreatable core.old op.action }
    ensures { MakesByPolicy W.sees due policy.old.left policy.new.left policy.old.begin_at op result core.old watch.old core.new watch.new }
{
    let left = policy.left_after(&core.config(), due);
    let has_room = make_room(core, policy, &op, size, due, watch);
    policy.left = left;
    if !has_room {
        return Reply::Refused(Refusal::Full);
    }
    take_own(core, op, watch)
}

/// Makes an object where something has to be looked at before.
#[inline(never)]
fn make_looking<W: Watch>(
    core: &mut Core,
    policy: &mut Policy,
    op: Op,
    size: u64,
    due: bool,
    watch: &mut W,
) -> Reply
    requires { AsksFor core.old.config op size }
    ensures { MakesByPolicy W.sees due policy.old.left policy.new.left policy.old.begin_at op result core.old watch.old core.new watch.new }
{
    core.law_remembers();
    core.law_shaped();
    if !is_creatable(core, &op.action, size) {
        return take_own(core, op, watch);
    }
    make_creatable(core, policy, op, size as u32, due, watch)
}

/// The same. The call writes its answer into memory, and that is cleared here, so that who makes an object at once doesn't clear any.
#[inline(always)]
fn make_apart<W: Watch>(
    core: &mut Core,
    policy: &mut Policy,
    op: Op,
    size: u64,
    due: bool,
    watch: &mut W,
) -> Reply
    requires { AsksFor core.old.config op size }
    ensures { MakesByPolicy W.sees due policy.old.left policy.new.left policy.old.begin_at op result core.old watch.old core.new watch.new }
{
    make_looking(core, policy, op, size, due, watch)
}

/// Makes an object, with the steps of the collector that are due before it. Like any step that makes one it may be refused; as Full only
/// after a whole collection, and in the third format compactions, where it is one of more than half a region. If the heap has regions
/// enough to leave two beside those that the object takes, and two were free, then it is refused as Full only where fewer are free than
/// these and two, and what roots reach has more than half of the words of all regions but two and those that it takes. In the first two
/// formats one of more than half a region may also want for free regions that are side by side. Two regions that were free stay free then.
/// While words are left to ask for no step of the collector comes, else those that are due; and more, up to a whole collection, only where
/// there is no room for the object then.
///
/// ```rust
/// let op = Op { mutator: 0, action: Action::New { to: r0, counts } };
/// assert_eq!(rt; make(&mut core, &mut policy, op, &mut Unwatched), Reply::Named(Some(0)));
/// ```
#[inline(always)]
pub fn make<W: Watch>(core: &mut Core, policy: &mut Policy, op: Op, watch: &mut W) -> Reply
    requires op { IsOp core.old.config op }
    requires new { IsNew op.action }
    ensures { MakesByPolicy W.sees (nat_le policy.old.left (asked_words op.action)) (policy.old.left - asked_words op.action)
        policy.new.left policy.old.begin_at op result core.old watch.old core.new watch.new }
{
    let size = words_of(&op.action);
    let due = !policy.spends(size);
    if !due && has_spare(core, &op, size) {
        return take_own(core, op, watch);
    }
    make_apart(core, policy, op, size, due, watch)
}
