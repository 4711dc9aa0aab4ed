//! Pauses, ends of marking and steps on weak slots in drawn heaps. Each is compared with a plain one over what was seen of the
//! heap just before it: where every object is, what every field and every root names, and what every region is; after a
//! pause also which cards wait, in order.
//!
//! ```text
//!   seen before     every object, root and region
//!   plain pause     a list of candidates, sorted; a list of copies, which grows while it is gone through
//!   plain remark    a list of what is marked, over the heap as it was seen when marking began
//!   seen after      the same objects in the same places
//! ```

mod drawn;
mod plain;
mod sight;
mod weak;

use crate::steps::{act, collect, remembers};
use drawn::{action, below, collection, growth, sizes, weak_growth, weak_readings};
use heap_steps::{Action, CollectorStep, Counts, Register, Reply};
use plain::{PlainPause, part_of, plain_pause};
use rand_pcg::Lcg64Xsh32;
use sight::{FIELDS, Sight, look, named};
use std::alloc::Global;
use std::process::Abort;
use std::test::Fail;
use step_core::Core;
use weak::{PlainCycle, changed, heap_marked, place_of};

/// What happened in all scripts together.
#[derive(Debug, Drop)]
struct Tally {
    scripts: u64,
    pauses: u64,
    /// Pauses that copied something.
    copying: u64,
    /// Those of them while marking ran.
    copying_while_marking: u64,
    /// Pauses that copied what only a field outside named.
    outside: u64,
    /// Pauses that copied what only fields of copies named.
    deep: u64,
    /// Pauses whose copies are in more than one region.
    wide: u64,
    /// Pauses that updated a field in a later region of a run.
    later: u64,
    /// Pauses that left two cards or more, which were refined one by one.
    ordered: u64,
    /// Objects that were copied.
    copied: u64,
    /// Objects that were compared.
    compared: u64,
    /// Ends of marking.
    remarks: u64,
    /// Objects whose weak slots an end of marking cleared.
    cleared: u64,
    /// Ends of marking with marked objects that only a reading of a weak slot reached.
    touched: u64,
    /// Objects that were made with weak slots.
    made: u64,
    /// Steps on weak slots that weren't refused.
    weak_steps: u64,
}

/// Whether a card is dirty, None for a card that isn't there.
fn is_dirty(core: &Core, card: u32) -> Option<bool> {
    match remembers(core, 0, card) {
        Some((_, dirty)) => Some(dirty),
        None => None,
    }
}

/// These cards wait, and no others.
fn check_cards(rt: &impl Abort, core: &Core, cards: &[u32], script: u64) {
    let config = core.config();
    let words = config.regions.saturating_mul(config.words);
    for card in 0..part_of(config.card_words(), words) {
        let waits = cards.iter().any(|waiting| *waiting == card);
        assert_eq!(rt;
            is_dirty(core, card),
            Some(waits),
            "script {script}, card {card}"
        );
    }
    assert_eq!(rt; core.queued() as usize, cards.len(), "script {script}");
}

/// The cards wait in this order: refined one by one, they become clean in turn.
fn check_order(rt: &impl Abort, core: &mut Core, cards: &[u32], script: u64) {
    let one = CollectorStep::Refine(1);
    for card in cards {
        assert_eq!(rt;
            is_dirty(core, *card),
            Some(true),
            "script {script}, card {card}"
        );
        assert_eq!(rt; collect(core, one), Reply::Refined(1), "script {script}");
        assert_eq!(rt;
            is_dirty(core, *card),
            Some(false),
            "script {script}, card {card}"
        );
    }
    assert_eq!(rt; collect(core, one), Reply::Refined(0), "script {script}");
}

/// Every region, object and root is as expected.
fn check_sight(rt: &impl Abort, after: &Sight, expected: &Sight, script: u64) {
    assert_eq!(rt;
        after.spaces.as_slice(),
        expected.spaces.as_slice(),
        "script {script}"
    );
    assert_eq!(rt;
        after.objects.as_slice(),
        expected.objects.as_slice(),
        "script {script}"
    );
    assert_eq!(rt;
        after.roots.as_slice(),
        expected.roots.as_slice(),
        "script {script}"
    );
}

/// The reply tells how many regions were reclaimed, and how many words copied.
fn check_reply(rt: &impl Abort, reply: Reply, plain: &PlainPause, script: u64) -> Result<(), Fail> {
    let Reply::Moved { regions, words } = reply else {
        return Err(Fail::from("the reply to a pause"));
    };
    assert_eq!(rt; regions as usize, plain.chosen.len(), "script {script}");
    assert_eq!(rt; words, plain.copied_words(), "script {script}");
    Ok(())
}

/// A pause, compared with the plain one. Each second time the cards are refined, in order; else they wait on.
fn pause(
    rt: &impl Abort,
    alloc: Global,
    core: &mut Core,
    budget: u32,
    tally: &mut Tally,
) -> Result<(), Fail> {
    let script = tally.scripts;
    let before = look(alloc, core)?;
    let marking = core.marking();
    let plain = plain_pause(alloc, &before, marking, budget)?;
    let expected = plain.sight_after(alloc, &before)?;
    let cards = plain.cards(alloc, &before)?;
    let reply = collect(core, CollectorStep::Pause(budget));
    check_reply(rt, reply, &plain, script)?;
    check_sight(rt, &look(alloc, core)?, &expected, script);
    check_cards(rt, core, &cards, script);
    if tally.pauses % 2 == 0 {
        check_order(rt, core, &cards, script);
        tally.ordered = more(tally.ordered, cards.len() > 1);
    }
    tally.later = more(tally.later, plain.updates_later_region(&before));
    tally.count(&plain, &expected, marking);
    Ok(())
}

/// One more if something is so.
fn more(count: u64, is_so: bool) -> u64 {
    count.saturating_add(u64::from(is_so))
}

impl Tally {
    fn count(&mut self, plain: &PlainPause, expected: &Sight, marking: bool) {
        let copies = plain.copies.len();
        self.pauses = more(self.pauses, true);
        self.copying = more(self.copying, copies > 0);
        self.copying_while_marking = more(self.copying_while_marking, copies > 0 && marking);
        self.outside = more(self.outside, plain.by_fields > plain.by_roots);
        self.deep = more(self.deep, copies > plain.by_fields);
        self.wide = more(self.wide, plain.is_wide());
        self.copied = self.copied.saturating_add(copies as u64);
        self.compared = self.compared.saturating_add(expected.objects.len() as u64);
    }
}

/// Marking begins, and the heap is kept as it is seen then.
fn begin(core: &mut Core, alloc: Global, cycle: &mut PlainCycle) -> Result<(), Fail> {
    if collect(core, CollectorStep::Begin) == Reply::Done {
        cycle.began = look(alloc, core)?;
        cycle.touched.clear();
    }
    Ok(())
}

/// The reply tells how many objects are marked.
fn check_marked(rt: &impl Abort, reply: Reply, count: usize, script: u64) -> Result<(), Fail> {
    let Reply::Marked(marked) = reply else {
        return Err(Fail::from("the reply at the end of marking"));
    };
    assert_eq!(rt; marked as usize, count, "script {script}");
    Ok(())
}

/// The end of marking, compared with the plain one.
fn remark(
    rt: &impl Abort,
    alloc: Global,
    core: &mut Core,
    cycle: &PlainCycle,
    tally: &mut Tally,
) -> Result<(), Fail> {
    let before = look(alloc, core)?;
    let by_roots = cycle.reached(alloc, &[])?.len();
    let marked = cycle.reached(alloc, &cycle.touched)?;
    let expected = heap_marked(alloc, &before, &marked)?;
    let reply = collect(core, CollectorStep::Remark);
    check_marked(rt, reply, marked.len(), tally.scripts)?;
    check_sight(rt, &look(alloc, core)?, &expected, tally.scripts);
    tally.remarks = more(tally.remarks, true);
    tally.cleared = tally.cleared.saturating_add(changed(&before, &expected));
    tally.touched = more(tally.touched, marked.len() > by_roots);
    Ok(())
}

/// A step of the collector, compared where there is a plain one.
fn collector(
    rt: &impl Abort,
    alloc: Global,
    core: &mut Core,
    step: CollectorStep,
    cycle: &mut PlainCycle,
    tally: &mut Tally,
) -> Result<(), Fail> {
    match step {
        CollectorStep::Pause(budget) => pause(rt, alloc, core, budget, tally),
        CollectorStep::Begin => begin(core, alloc, cycle),
        CollectorStep::Remark if core.marking() => remark(rt, alloc, core, cycle, tally),
        _ => {
            collect(core, step);
            Ok(())
        }
    }
}

/// An object is made with weak slots; if there is room, a register names it, and its fields are nil.
fn make(
    rt: &impl Abort,
    core: &mut Core,
    mutator: u32,
    (to, counts, weaks): (Register, Counts, u8),
    tally: &mut Tally,
) -> Result<(), Fail> {
    let action = Action::NewWeak { to, counts, weaks };
    let Some(Reply::Named(Some(name))) = act(core, mutator, action) else {
        return Ok(());
    };
    let Some(object) = named(core, place_of(mutator, to)) else {
        return Err(Fail::from("a new object"));
    };
    let size = counts.size(weaks);
    assert_eq!(rt; (object.name, object.pointers), (name, counts.pointers));
    assert_eq!(rt;
        (object.weaks, u64::from(object.size)),
        (u32::from(weaks), size)
    );
    assert_eq!(rt; object.fields, [None; FIELDS]);
    tally.made = more(tally.made, true);
    Ok(())
}

/// A step on a weak slot, compared with the plain one. What is read from one is touched.
fn weak_step(
    rt: &impl Abort,
    alloc: Global,
    core: &mut Core,
    mutator: u32,
    action: Action,
    cycle: &mut PlainCycle,
    tally: &mut Tally,
) -> Result<(), Fail> {
    let mut expected = look(alloc, core)?;
    let Some(reply) = expected.weak_step(mutator, action) else {
        return Err(Fail::from("a step on a weak slot"));
    };
    assert_eq!(rt;
        act(core, mutator, action),
        Some(reply),
        "script {}",
        tally.scripts
    );
    check_sight(rt, &look(alloc, core)?, &expected, tally.scripts);
    if let Action::GetWeak { to, .. } = action {
        cycle.touch(expected.root(place_of(mutator, to)), reply)?;
    }
    tally.weak_steps = more(tally.weak_steps, !matches!(reply, Reply::Refused(_)));
    Ok(())
}

/// A mutator's step, compared where there is a plain one.
fn mutate(
    rt: &impl Abort,
    alloc: Global,
    core: &mut Core,
    mutator: u32,
    action: Action,
    cycle: &mut PlainCycle,
    tally: &mut Tally,
) -> Result<(), Fail> {
    match action {
        Action::NewWeak { to, counts, weaks } => {
            make(rt, core, mutator, (to, counts, weaks), tally)
        }
        Action::GetWeak { .. } | Action::PutWeak { .. } | Action::Weaks { .. } => {
            weak_step(rt, alloc, core, mutator, action, cycle, tally)
        }
        _ => {
            assert!(rt; act(core, mutator, action).is_some());
            Ok(())
        }
    }
}

/// Steps of one mutator.
fn mutate_all(
    rt: &impl Abort,
    alloc: Global,
    core: &mut Core,
    mutator: u32,
    actions: &[Action],
    cycle: &mut PlainCycle,
    tally: &mut Tally,
) -> Result<(), Fail> {
    for action in actions {
        mutate(rt, alloc, core, mutator, *action, cycle, tally)?;
    }
    Ok(())
}

/// One to four steps.
fn turn(
    rt: &impl Abort,
    alloc: Global,
    core: &mut Core,
    draw: &mut Lcg64Xsh32,
    cycle: &mut PlainCycle,
    tally: &mut Tally,
) -> Result<(), Fail> {
    let mutator = below(draw, 2) % core.config().mutators;
    match below(draw, 14) {
        0..=4 => collector(rt, alloc, core, collection(draw), cycle, tally),
        5..=9 => mutate_all(rt, alloc, core, mutator, &growth(draw), cycle, tally),
        10 => mutate_all(rt, alloc, core, mutator, &weak_growth(draw), cycle, tally),
        11 => {
            begin(core, alloc, cycle)?;
            mutate_all(rt, alloc, core, mutator, &weak_readings(draw), cycle, tally)
        }
        _ => mutate(rt, alloc, core, mutator, action(draw), cycle, tally),
    }
}

/// A script of 50 turns, each drawn when it is taken: about 105 steps.
fn script(rt: &impl Abort, alloc: Global, tally: &mut Tally) -> Result<(), Fail> {
    let mut draw = Lcg64Xsh32::new(tally.scripts, 54);
    let config = sizes(&mut draw);
    let Ok(mut core) = Core::new(alloc, &config) else {
        return Err(Fail::from("a core"));
    };
    let mut cycle = PlainCycle {
        began: look(alloc, &core)?,
        touched: Vec::new(alloc),
    };
    for _ in 0..50 {
        turn(rt, alloc, &mut core, &mut draw, &mut cycle, tally)?;
    }
    Ok(())
}

impl Tally {
    fn empty() -> Tally {
        Tally {
            scripts: 0,
            pauses: 0,
            copying: 0,
            copying_while_marking: 0,
            outside: 0,
            deep: 0,
            wide: 0,
            later: 0,
            ordered: 0,
            copied: 0,
            compared: 0,
            remarks: 0,
            cleared: 0,
            touched: 0,
            made: 0,
            weak_steps: 0,
        }
    }

    fn check_pauses(&self, rt: &impl Abort) {
        assert!(rt;
            self.copying > 600 && self.copying_while_marking > 300 && self.later > 2,
            "{self:?}"
        );
        assert!(rt;
            self.outside > 100 && self.deep > 50 && self.wide > 45,
            "{self:?}"
        );
        assert!(rt;
            self.ordered > 80 && self.copied > 1_200 && self.compared > 18_000,
            "{self:?}"
        );
    }

    fn check_weak(&self, rt: &impl Abort) {
        assert!(rt;
            self.remarks > 700 && self.cleared > 100 && self.touched > 25,
            "{self:?}"
        );
        assert!(rt; self.made > 2_400 && self.weak_steps > 2_800, "{self:?}");
    }
}

/// 400 scripts. Many pauses copy something, also while marking runs, also what only fields name, also into more than one
/// region; some update a field in a later region of a run; and many leave more than one card. Weak slots are read and stored,
/// some keep what they held, and many are cleared.
#[test]
fn pauses_are_plain_ones(rt: HostRuntime) -> Result<(), Fail> {
    let mut tally = Tally::empty();
    for _ in 0..400 {
        script(&rt, rt.alloc(), &mut tally)?;
        tally.scripts = more(tally.scripts, true);
    }
    tally.check_weak(&rt);
    tally.check_pauses(&rt);
    Ok(())
}
