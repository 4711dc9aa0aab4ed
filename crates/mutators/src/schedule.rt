//! The actors' turns in the order that the words of a seed draw.
//!
//! ```text
//!   lines left   0: 2  1: 1  gc: 0     word 7   the actor at place 7 mod 2 of those with lines left: mutator 1
//!                0: 2  1: 0  gc: 0     word 4   mutator 0
//! ```

ghost use Rattle.std.specs.Prelude.{◌≡◌, ◌+◌, ◌<◌, ◌≤◌, ◌↔◌, ◌≢◌, ◌⊎◌, ◌++◌, if◌then◌else◌};
ghost use Rattle.std.specs.Prelude.{ℕ, false, OnOk, IfOk, IfErr, length, take, drop};
ghost use Rattle.rand_pcg.specs.Pcg.{pcg32};
ghost use Rattle.heap_steps.specs.Faults.{IsRunFault};
ghost use Rattle.rand_pcg.specs.Lcg.{Lcg};
ghost use Rattle.mutators.specs.Scripts.{scripted, is_scripted};
ghost use Rattle.mutators.specs.Journals.{mutators_of};
ghost use Rattle.mutators.specs.Turns.{SamePlan, IsCast, TakesTurn};
ghost use Rattle.mutators.specs.Draws.{open_places, lefts_of, pick, total, Picks, LeavesScripts, IsRound};
ghost use Rattle.mutators.specs.Rounds.{background, background_by, HasTurn, TakesRound, TakesRounds, AreDrawn};
ghost use Rattle.mutators.specs.Draws.{has_background, scripted_actors, drawn_by, rest_of};
ghost use Rattle.mutators.specs.Interleavings.{IsAsked, AreAsked, IsRunOf};

use crate::journal::Journal;
use heap_steps::{Actor, Plan, Record, RunFault, run_fault};
use rand_core::utils::NextWord;
use rand_pcg::Lcg64Xsh32;
use std::alloc::{AllocError, Global};

fn draw(words: &mut Lcg64Xsh32) -> u32
    ensures value { result ≡ (pcg32 words.old).0 }
    ensures next { words.new ≡ (pcg32 words.old).1 }
{
    words.next_word()
}

fn background_at(place: u32, markers: u32, refiners: u32) -> Actor
    requires place { place < markers + refiners }
    requires small { (markers ≤ 8) × (refiners ≤ 8) }
    ensures is { result ≡ background markers place }
    ensures asked { IsAsked markers refiners result }
    ensures background { is_scripted result ≡ false }
    ensures cast { (m : ℕ) → IsCast m result }
{
    if place < markers {
        Actor::Marker(place as u8)
    } else {
        Actor::Refiner((place - markers) as u8)
    }
}

fn scripted_at(mutators: usize, place: usize) -> Actor
    requires place { place ≤ mutators }
    requires few { mutators ≤ 64 }
    ensures is { result ≡ scripted mutators place }
    ensures cast { IsCast mutators result }
{
    if place == mutators {
        Actor::Collector
    } else {
        Actor::Mutator(place as u32)
    }
}

/// The places of the scripted actors that have lines left, in order.
fn open_places(alloc: Global, journal: &Journal) -> Result<Vec<usize>, AllocError>
    ensures { IfOk result (λ v. v.items ≡ open_places (lefts_of journal.now)) }
{
    let mutators = journal.mutators();
    let mut unfinished = Vec::new(alloc);
    for k in 0..mutators + 1 {
        if journal.is_left(k) {
            unfinished.push(k)?;
        }
    }
    Ok(unfinished)
}

/// Takes the n-th place out, if it isn't to be kept.
fn keep_if(places: &mut Vec<usize>, n: usize, kept: bool)
    requires { n < length places.old.items }
    ensures { places.new.items ≡ (if kept then places.old.items else (take n places.old.items ++ drop (n + 1) places.old.items)) }
{
    if !kept {
        let _ = places.remove(n);
    }
}

/// The turn of a scripted actor, which leaves the open places once its script is at its end.
fn scripted_round(
    journal: &mut Journal,
    unfinished: &mut Vec<usize>,
    word: u32,
) -> Result<(), AllocError>
    requires unfinished { unfinished.old.items ≡ open_places (lefts_of journal.old) }
    requires some { 0 < length unfinished.old.items }
    ensures plan { SamePlan journal.old journal.new }
    ensures picks { OnOk result (Picks journal.old journal.new (pick word (lefts_of journal.old))) }
    ensures takes { OnOk result (TakesTurn journal.old journal.new (scripted (mutators_of journal.old) (pick word
        (lefts_of journal.old)))) }
    ensures unfinished { OnOk result (unfinished.new.items ≡ open_places (lefts_of journal.new)) }
    ensures asked { (markers refiners : ℕ)
        → OnOk result (AreAsked markers refiners journal.old.events → AreAsked markers refiners journal.new.events) }
{
    let mutators = journal.mutators();
    let n = (word % unfinished.len() as u32) as usize;
    let place = unfinished[n];
    journal.turn_at(scripted_at(mutators, place), place)?;
    keep_if(unfinished, n, journal.is_left(place));
    Ok(())
}

fn background_round(
    journal: &mut Journal,
    word: u32,
    markers: u32,
    refiners: u32,
) -> Result<(), AllocError>
    requires some { 0 < markers + refiners }
    requires small { (markers ≤ 8) × (refiners ≤ 8) }
    ensures plan { SamePlan journal.old journal.new }
    ensures leaves { OnOk result (LeavesScripts journal.old journal.new) }
    ensures turn { OnOk result (HasTurn journal.old journal.new (background_by word markers refiners)) }
    ensures asked { OnOk result (AreAsked markers refiners journal.old.events → AreAsked markers refiners journal.new.events) }
{
    let actor = background_at(word % (markers + refiners), markers, refiners);
    journal.turn(actor)?;
    Ok(())
}

/// A round: a word picks the scripted actor that takes a turn and, where there are background actors, another word one of those.
fn one_round(
    journal: &mut Journal,
    unfinished: &mut Vec<usize>,
    words: &mut Lcg64Xsh32,
    markers: u32,
    refiners: u32,
) -> Result<(), AllocError>
    requires unfinished { unfinished.old.items ≡ open_places (lefts_of journal.old) }
    requires some { 0 < length unfinished.old.items }
    requires small { (markers ≤ 8) × (refiners ≤ 8) }
    ensures plan { SamePlan journal.old journal.new }
    ensures unfinished { OnOk result (unfinished.new.items ≡ open_places (lefts_of journal.new)) }
    ensures round { OnOk result (IsRound pcg32 (has_background markers refiners) journal.old words.old journal.new words.new) }
    ensures turns { OnOk result (TakesRound pcg32 markers refiners journal.old words.old journal.new words.new) }
    ensures asked { OnOk result (AreAsked markers refiners journal.old.events → AreAsked markers refiners journal.new.events) }
{
    let word = draw(words);
    scripted_round(journal, unfinished, word)?;
    if markers + refiners == 0 {
        return Ok(());
    }
    let other = draw(words);
    background_round(journal, other, markers, refiners)?;
    Ok(())
}

/// Rounds till no script has a line left.
fn all_rounds(
    alloc: Global,
    journal: &mut Journal,
    mut words: Lcg64Xsh32,
    markers: u32,
    refiners: u32,
) -> Result<(), AllocError>
    requires small { (markers ≤ 8) × (refiners ≤ 8) }
    ensures plan { SamePlan journal.old journal.new }
    ensures drawn { OnOk result (scripted_actors journal.new.events
        ≡ scripted_actors journal.old.events ++ rest_of pcg32 (has_background markers refiners) words journal.old) }
    ensures rounds { OnOk result ((rest : Lcg)
        × TakesRounds pcg32 markers refiners (total (lefts_of journal.old)) journal.old words journal.new rest) }
    ensures asked { OnOk result (AreAsked markers refiners journal.old.events → AreAsked markers refiners journal.new.events) }
    ensures over { OnOk result (length (open_places (lefts_of journal.new)) ≡ 0) }
{
    let mut unfinished = open_places(alloc, journal)?;
    'rounds: while !unfinished.is_empty() {
        one_round(journal, &mut unfinished, &mut words, markers, refiners)?;
    }
    Ok(())
}

/// Does a plan's scripts in a new heap, in the order that the words of a seed draw, with so many refiners and markers beside.
/// The record's events are an interleaving of the whole scripts, and all actors take their turns in the order drawn; a background actor
/// that has nothing to do in its turn does nothing. More than 8 refiners or markers are `BadWorkers`; else the fault is the first of the
/// sizes, or want of memory.
///
/// ```rust
/// let record = simulate(alloc, &plan, 7, 0, 0)?;
/// assert_eq!(rt; record.events().len(), 2);
/// assert_eq!(rt; check(alloc, &record)?, Verdict::Yes(2));
/// ```
pub fn simulate(
    alloc: Global,
    plan: &Plan,
    seed: u64,
    refiners: u32,
    markers: u32,
) -> Result<Record, RunFault>
    ensures run { IfOk result (IsRunOf plan.now markers refiners) }
    ensures drawn { IfOk result (λ r. scripted_actors r.events ≡ drawn_by seed markers refiners plan.now) }
    ensures rounds { IfOk result (λ r. AreDrawn seed markers refiners plan.now r.events) }
    ensures bad { (result ≡ Err RunFault.BadWorkers) ↔ ((8 < refiners) ⊎ (8 < markers)) }
    ensures fault { IfErr result (λ f. f ≢ RunFault.BadWorkers → IsRunFault plan.now.config f) }
{
    if refiners > 8 || markers > 8 {
        return Err(RunFault::BadWorkers);
    }
    let mut journal = match Journal::new(alloc, plan) {
        Ok(journal) => journal,
        Err(fault) => return Err(run_fault(fault)),
    };
    let words = Lcg64Xsh32::new(seed, 54);
    let Ok(()) = all_rounds(alloc, &mut journal, words, markers, refiners) else {
        return Err(RunFault::NoMemory);
    };
    Ok(journal.into_record())
}
