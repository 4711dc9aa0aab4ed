//! What is due at a look: steps that go on with a cycle of marking, or evacuate some regions. How many at most is proved, and what any
//! steps of the collector do; which they are is the policy's choice.
//!
//! A look does one kind of work, so that it stops the program for a short time. From one cycle to the next:
//!
//! ```text
//!   free regions    many                     begin_at                                   wanted
//!   looks           young  young  young ...  mark  mark  mark  clear  clear  reclaim    pause  -  pause  -  ...
//!                                            ^ begin        ^ remark                           ^ rests
//! ```
//!
//! Cards are refined before it; where they are many, at a look of their own. After a pause the next one rests until as many words are asked
//! for as a fourth of its work. A pause visits so many cards at most, and more only where it gains little for them.

ghost use Rattle.std.specs.Prelude.{◌≡◌, ◌⊎◌, ◌+◌, ◌<◌, ◌≤◌, true};
ghost use Rattle.regions.specs.Table.{free_count};
ghost use Rattle.heap_steps.specs.Actors.{HasCollection};
ghost use Rattle.collection.specs.Steps.{CollectsWithin, CollectsSome, IsDue};

use crate::numbers::{EVACUATED, Policy, REFINED, moved};
use crate::steps::{Watch, take};
use crate::whole::pause_all;
use heap_steps::{CollectorStep, Limits, Reply, is_third};
use heap_words::config::Config;
use step_core::Core;

/// A pause within so many cards: of new regions, or of those in which least is live. The first two formats have no such steps, and take
/// the latter without a bound on cards.
fn bounded_pause(config: &Config, words: u32, cards: u32, is_young: bool) -> CollectorStep
    ensures { HasCollection config.now.format result }
{
    if !is_third(config.format) {
        return CollectorStep::Pause(words);
    }
    let limits = Limits { words, cards };
    if is_young {
        CollectorStep::Young(limits)
    } else {
        CollectorStep::PauseWithin(limits)
    }
}

/// Takes a pause within the cards that the policy has for it.
fn pause_within<W: Watch>(
    core: &mut Core,
    policy: &mut Policy,
    words: u32,
    is_young: bool,
    watch: &mut W,
) -> Reply
    ensures { CollectsSome W.sees 1 core.old watch.old core.new watch.new }
{
    let config = core.config();
    let before = core.free_regions();
    let step = bounded_pause(&config, words, policy.visited(), is_young);
    let reply = take(core, policy, step, watch);
    policy.note_pause(&config, before, core.free_regions(), reply, core.queued());
    reply
}

/// Evacuates some new regions, of which most objects are dead by now: by age, but before the first cycle those in which least is live, so
/// that what survived earlier pauses moves down as well, and leaves room side by side for large objects.
fn pause_young<W: Watch>(core: &mut Core, policy: &mut Policy, watch: &mut W)
    ensures { CollectsSome W.sees 1 core.old watch.old core.new watch.new }
{
    let config = core.config();
    let before = core.free_regions();
    let budget = policy.pause_words;
    let is_young = policy.cycles != 0;
    let reply = pause_within(core, policy, budget, is_young, watch);
    policy.note_young(&config, before, core.free_regions(), reply);
}

/// Reclaims what is dead, after marking. Evacuation is due then.
fn reclaim<W: Watch>(core: &mut Core, policy: &mut Policy, watch: &mut W)
    ensures { CollectsSome W.sees 1 core.old watch.old core.new watch.new }
{
    take(core, policy, CollectorStep::Cleanup, watch);
    policy.plan_evacuation(&core.config(), core.free_regions(), core.live_words());
}

/// Ends a cycle: remark and cleanup.
fn end_cycle<W: Watch>(core: &mut Core, policy: &mut Policy, watch: &mut W)
    ensures { CollectsWithin W.sees 2 core.old watch.old core.new watch.new }
{
    take(core, policy, CollectorStep::Remark, watch);
    reclaim(core, policy, watch);
}

/// Ends marking, where nothing is left to be marked. If weak slots are to be cleared the next looks do that, and reclaim what is dead.
fn end_marking<W: Watch>(core: &mut Core, policy: &mut Policy, watch: &mut W)
    ensures { CollectsWithin W.sees 2 core.old watch.old core.new watch.new }
{
    take(core, policy, CollectorStep::Remark, watch);
    if !core.clearing() {
        reclaim(core, policy, watch);
    }
}

/// Marks, and ends marking where nothing is left to be marked, or the cycle where few regions are free.
fn mark_on<W: Watch>(core: &mut Core, policy: &mut Policy, watch: &mut W)
    ensures { CollectsSome W.sees 3 core.old watch.old core.new watch.new }
{
    let words = policy.spend_marks(&core.config(), core.free_regions());
    take(core, policy, CollectorStep::Mark(words), watch);
    if core.free_regions() <= policy.reserve {
        end_cycle(core, policy, watch);
    } else if !core.grey() {
        end_marking(core, policy, watch);
    }
}

/// Clears some weak slots, and reclaims what is dead once all are cleared.
fn clear_on<W: Watch>(core: &mut Core, policy: &mut Policy, watch: &mut W)
    ensures { CollectsSome W.sees 2 core.old watch.old core.new watch.new }
{
    if !is_third(core.config().format) {
        reclaim(core, policy, watch);
        return;
    }
    let objects = policy.spend_clears(&core.config(), core.free_regions());
    take(core, policy, CollectorStep::Clear(objects), watch);
    if !core.clearing() {
        reclaim(core, policy, watch);
    }
}

/// Takes a pause of the regions in which least is live, within the policy's cards or within any.
fn pause_some<W: Watch>(
    core: &mut Core,
    policy: &mut Policy,
    words: u32,
    is_within: bool,
    watch: &mut W,
) -> Reply
    ensures { CollectsWithin W.sees 1 core.old watch.old core.new watch.new }
{
    if is_within {
        return pause_within(core, policy, words, false, watch);
    }
    take(core, policy, CollectorStep::Pause(words), watch)
}

/// Evacuates some of the regions in which little is live, so many words at most, which are fewer then; within the policy's cards, or
/// within any. Answers whether it paid. If what is left of a look cut it short, or few regions had so few cards, that says nothing: the
/// next look goes on.
fn evacuate_some<W: Watch>(
    core: &mut Core,
    policy: &mut Policy,
    left: &mut u32,
    is_within: bool,
    watch: &mut W,
) -> bool
    ensures collects { CollectsWithin W.sees 1 core.old watch.old core.new watch.new }
    ensures more { result ≡ true → free_count core.old.table < free_count core.new.table }
{
    if policy.wanted == 0 || *left == 0 {
        return false;
    }
    let config = core.config();
    let before = core.free_regions();
    if before >= policy.wanted {
        policy.plan_cycle(&config, before);
        return false;
    }
    let budget = policy.evacuation_budget(&config, before, core.live_words(), *left);
    let is_bounded = is_within && policy.is_bounded(&config);
    let reply = pause_some(core, policy, budget, is_within, watch);
    let after = core.free_regions();
    let (regions, copied) = moved(reply);
    let is_few = regions == 0 || copied < u64::from(budget / 2);
    let is_cut_short = budget == *left && budget < policy.pause_words || is_bounded && is_few;
    *left = u64::from(*left).saturating_sub(copied) as u32;
    policy.plan_next(&config, after);
    if policy.pays(&config, before, after, copied) {
        return true;
    }
    if !is_cut_short || after >= policy.wanted {
        policy.plan_cycle(&config, after);
    }
    false
}

/// Evacuates regions in which little is live for as long as that pays, within the budget of words for a look.
fn evacuate<W: Watch>(core: &mut Core, policy: &mut Policy, watch: &mut W)
    ensures { CollectsWithin W.sees (core.old.config.regions + 1) core.old watch.old core.new watch.new }
{
    let mut left = policy.pause_words;
    'pauses: loop {
        core.law_remembers();
        if !evacuate_some(core, policy, &mut left, false, watch) {
            return;
        }
        core.law_remembers();
    }
}

/// Begins a cycle where few regions are free, or many words were asked for since the last one began. Answers whether it is due.
fn begin_cycle<W: Watch>(core: &mut Core, policy: &mut Policy, watch: &mut W) -> bool
    ensures collects { CollectsWithin W.sees 3 core.old watch.old core.new watch.new }
    ensures some { free_count core.old.table ≤ policy.old.begin_at → CollectsSome W.sees 3 core.old watch.old core.new watch.new }
{
    let free = core.free_regions();
    let most = policy.most_asked(&core.config());
    if free > policy.begin_at && policy.asked < most {
        return false;
    }
    let words = if policy.cycles == 0 {
        core.used_words() / 2
    } else {
        policy.marked
    };
    policy.plan_marking(&core.config(), free, words);
    take(core, policy, CollectorStep::Begin, watch);
    if free <= policy.reserve {
        end_cycle(core, policy, watch);
    }
    true
}

/// Goes on with a cycle, or begins one where it is due.
fn mark_or_begin<W: Watch>(core: &mut Core, policy: &mut Policy, watch: &mut W)
    ensures collects { CollectsWithin W.sees 3 core.old watch.old core.new watch.new }
    ensures some { IsDue core.old policy.old.begin_at → CollectsSome W.sees 3 core.old watch.old core.new watch.new }
{
    if core.marking() {
        mark_on(core, policy, watch);
    } else {
        begin_cycle(core, policy, watch);
    }
}

/// The same, and the evacuation after a cycle.
fn cycle_on<W: Watch>(core: &mut Core, policy: &mut Policy, watch: &mut W)
    ensures collects { CollectsWithin W.sees (core.old.config.regions + 4) core.old watch.old core.new watch.new }
    ensures some { IsDue core.old policy.old.begin_at
        → CollectsSome W.sees (core.old.config.regions + 4) core.old watch.old core.new watch.new }
{
    mark_or_begin(core, policy, watch);
    evacuate(core, policy, watch);
}

/// Evacuates some new regions, and goes on with a cycle.
fn young_on<W: Watch>(core: &mut Core, policy: &mut Policy, watch: &mut W)
    ensures { CollectsSome W.sees 4 core.old watch.old core.new watch.new }
{
    pause_young(core, policy, watch);
    mark_or_begin(core, policy, watch);
}

/// Refines all that is queued but half of the cards that may be left, once they are more. Answers whether that is enough for a look: it
/// never is twice in turn.
fn refine_most<W: Watch>(core: &mut Core, policy: &mut Policy, watch: &mut W) -> bool
    ensures collects { CollectsWithin W.sees 1 core.old watch.old core.new watch.new }
    ensures some { CollectsSome W.sees 1 core.old watch.old core.new watch.new ⊎ (core.new ≡ core.old) × (policy.new ≡ policy.old) }
    ensures enough { result ≡ true → CollectsSome W.sees 1 core.old watch.old core.new watch.new }
{
    let queued = core.queued();
    if queued <= policy.cards_left {
        return false;
    }
    let cards = queued - policy.cards_left / 2;
    take(core, policy, CollectorStep::Refine(cards), watch);
    policy.last != REFINED && cards > policy.cards_left
}

/// Reclaims what is dead, which clears all weak slots that are left, and evacuates.
fn reclaim_all<W: Watch>(core: &mut Core, policy: &mut Policy, watch: &mut W)
    ensures { CollectsSome W.sees (core.old.config.regions + 2) core.old watch.old core.new watch.new }
{
    reclaim(core, policy, watch);
    evacuate(core, policy, watch);
}

/// Clears weak slots where few regions are free. It reclaims what is dead and evacuates once all are cleared, or where hardly any are free.
fn clear_or_reclaim<W: Watch>(core: &mut Core, policy: &mut Policy, watch: &mut W)
    ensures { CollectsSome W.sees (core.old.config.regions + 5) core.old watch.old core.new watch.new }
{
    if !is_third(core.config().format) {
        reclaim_all(core, policy, watch);
        return;
    }
    if core.free_regions() <= policy.clear_until() {
        reclaim_all(core, policy, watch);
        return;
    }
    let objects = policy.hurried_clears();
    take(core, policy, CollectorStep::Clear(objects), watch);
    if core.clearing() {
        policy.note_clears();
        return;
    }
    reclaim_all(core, policy, watch);
}

/// All that is due, where few regions are free.
fn hurry<W: Watch>(core: &mut Core, policy: &mut Policy, watch: &mut W)
    ensures collects { CollectsWithin W.sees (core.old.config.regions + 5) core.old watch.old core.new watch.new }
    ensures some { IsDue core.old policy.old.begin_at
        → CollectsSome W.sees (core.old.config.regions + 5) core.old watch.old core.new watch.new }
{
    if core.clearing() {
        clear_or_reclaim(core, policy, watch);
        return;
    }
    refine_most(core, policy, watch);
    if policy.is_young_due(core.free_regions()) {
        young_on(core, policy, watch);
        return;
    }
    cycle_on(core, policy, watch);
}

/// Goes on with a cycle, or begins one where it is due, or evacuates some regions after one.
fn go_on<W: Watch>(core: &mut Core, policy: &mut Policy, watch: &mut W)
    ensures collects { CollectsWithin W.sees 4 core.old watch.old core.new watch.new }
    ensures some { IsDue core.old policy.old.begin_at → CollectsSome W.sees 4 core.old watch.old core.new watch.new }
{
    if core.marking() {
        mark_on(core, policy, watch);
        return;
    }
    if begin_cycle(core, policy, watch) {
        return;
    }
    if policy.rests(&core.config(), core.free_regions()) {
        return;
    }
    let mut left = policy.pause_words;
    evacuate_some(core, policy, &mut left, true, watch);
}

/// One kind of work, beside cards: clears weak slots, evacuates new regions, or goes on with a cycle. Answers which, as `Policy.last` says.
fn work_on<W: Watch>(core: &mut Core, policy: &mut Policy, watch: &mut W) -> u32
    ensures collects { CollectsWithin W.sees 4 core.old watch.old core.new watch.new }
    ensures some { IsDue core.old policy.old.begin_at → CollectsSome W.sees 4 core.old watch.old core.new watch.new }
{
    if core.clearing() {
        clear_on(core, policy, watch);
        return 0;
    }
    if policy.is_young_turn(&core.config(), core.free_regions()) {
        pause_young(core, policy, watch);
        return EVACUATED;
    }
    go_on(core, policy, watch);
    0
}

/// The same, and cards before it. If many are refined that is all.
fn work<W: Watch>(core: &mut Core, policy: &mut Policy, watch: &mut W)
    ensures collects { CollectsWithin W.sees 5 core.old watch.old core.new watch.new }
    ensures some { IsDue core.old policy.old.begin_at → CollectsSome W.sees 5 core.old watch.old core.new watch.new }
{
    if refine_most(core, policy, watch) {
        policy.last = REFINED;
        return;
    }
    let last = work_on(core, policy, watch);
    policy.last = last;
}

/// Takes the steps that are due at a look, at most five, and one for each region where few are free; at least one, if marking runs or few
/// regions are free. A look does one kind of work, so that it is short: it refines cards, marks, clears weak slots or takes one pause. Only
/// where no more regions are free than are kept in reserve all that is due is done at once.
///
/// ```rust
/// collect_due(&mut core, &mut policy, &mut Unwatched);
/// ```
pub fn collect_due<W: Watch>(core: &mut Core, policy: &mut Policy, watch: &mut W)
    ensures collects { CollectsWithin W.sees (core.old.config.regions + 5) core.old watch.old core.new watch.new }
    ensures some { IsDue core.old policy.old.begin_at
        → CollectsSome W.sees (core.old.config.regions + 5) core.old watch.old core.new watch.new }
{
    if core.free_regions() <= policy.reserve {
        hurry(core, policy, watch);
    } else {
        work(core, policy, watch);
    }
}

/// Ends a cycle, if one runs, or if weak slots are still to be cleared.
fn end_running<W: Watch>(core: &mut Core, policy: &mut Policy, watch: &mut W)
    ensures { CollectsWithin W.sees 2 core.old watch.old core.new watch.new }
{
    if core.marking() {
        end_cycle(core, policy, watch);
    } else if core.clearing() {
        reclaim(core, policy, watch);
    }
}

/// Does all pauses that are left after a cycle.
fn evacuate_all<W: Watch>(core: &mut Core, policy: &mut Policy, watch: &mut W)
    ensures { CollectsWithin W.sees core.old.config.regions core.old watch.old core.new watch.new }
{
    if policy.wanted == 0 {
        return;
    }
    pause_all(core, policy, watch);
    policy.plan_cycle(&core.config(), core.free_regions());
}

/// Brings a cycle to its end, if one runs, and what is left of the evacuation after it.
pub(crate) fn finish_cycle<W: Watch>(core: &mut Core, policy: &mut Policy, watch: &mut W)
    ensures { CollectsWithin W.sees (2 + core.old.config.regions) core.old watch.old core.new watch.new }
{
    end_running(core, policy, watch);
    evacuate_all(core, policy, watch);
}
