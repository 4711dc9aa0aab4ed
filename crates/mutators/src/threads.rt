//! The actors' turns in threads.
//!
//! ```text
//!   queue of places   2 0 3        worker w: pops 1, locks, gives the actor there one turn, unlocks, pushes 1 back
//!   places            0 .. m-1 the mutators, m the collector, then the markers, then the refiners
//! ```
//!
//! A place whose script is at its end isn't pushed back. The worker that finds nothing left to do raises a flag; one without a place looks
//! at that, and leaves the lock to those that have work. As long as a script has lines left its place is in the queue or with a worker.
//!
//! Each worker counts its done turns in its share of a ledger, whose book is under the lock and has the number of events: so the
//! counts that the workers hand back sum to it.

ghost use Rattle.std.specs.Prelude.{◌≡◌, ◌+◌, ◌≤◌, ◌<◌, ◌≢◌, ◌↔◌, ◌⊎◌};
ghost use Rattle.std.specs.Prelude.{ℕ, [], length, sum, slice_index, vec_capacity, vec_len};
ghost use Rattle.std.specs.Prelude.{IfOk, IfErr, IfSome, IsFalse, IsTrue, None, Some, true, false};
ghost use Rattle.crossbeam_queue.specs.Passes.{IsPassOf};
ghost use Rattle.heap_words.specs.Configs.{Suits};
ghost use Rattle.heap_words.specs.declared.config.Config.{Config};
ghost use Rattle.mutators.specs.Turns.{IsCast};
ghost use Rattle.mutators.specs.Interleavings.{IsAsked, IsOf, IsRunOf, IsThreadsFault};

use crate::journal::{Journal, Turn};
use crate::shared::{Below, Crew, Places, Shared};
use crossbeam_queue::Pass;
use heap_steps::{Actor, Plan, Record, RunFault, run_fault};
use std::alloc::{AllocError, Global};
use std::marker::Brand;
use std::sync::atomic::{AtomicBool, AtomicU64, Ordering};
use std::sync::ledger::{Blank, Share};
use std::sync::{Mutex, Wait};
use std::thread;
use std::thread::{JoinHandle, Threads};

/// The record of a run in threads, and how many turns of each worker were done.
#[derive(Debug, Drop)]
pub struct Threaded {
    pub history: Record,
    pub done: [u64; 32],
}

/// How many actors of each kind there are.
#[derive(Clone, Copy)]
struct Cast {
    mutators: u32,
    markers: u32,
    refiners: u32,
    ghost small: { (mutators ≤ 64) × (markers ≤ 8) × (refiners ≤ 8) },
}

impl Cast {
    fn count(self) -> u32
        ensures { result ≡ self.mutators + 1 + self.markers + self.refiners }
    {
        self.mutators + 1 + self.markers + self.refiners
    }

    fn actor_at(self, place: u32) -> Actor
        requires { place < self.mutators + 1 + self.markers + self.refiners }
        ensures cast { IsCast self.mutators result }
        ensures asked { IsAsked self.markers self.refiners result }
    {
        if place < self.mutators {
            return Actor::Mutator(place);
        }
        let place = place - self.mutators;
        if place == 0 {
            return Actor::Collector;
        }
        let place = place - 1;
        if place < self.markers {
            Actor::Marker(place as u8)
        } else {
            Actor::Refiner((place - self.markers) as u8)
        }
    }
}

/// What a worker hands back: its part, with its count for the amount.
#[derive(Drop)]
struct Spent<C: Crew> {
    count: u64,
    share: Share<C>,
    ghost one_part: { share.parts ≡ 1 },
    ghost counted: { share.amount ≡ count },
}

/// A worker that runs, or what one that could not be started gave back.
#[derive(Drop)]
enum Hand<C: Crew> {
    Running(JoinHandle<Spent<C>>),
    Idle(Spent<C>),
}

fn unspent<C: Crew>(share: Share<C>) -> Spent<C>
    requires part { share.parts ≡ 1 }
    requires amount { share.amount ≡ 0 }
{
    Spent { count: 0, share }
}

/// What the workers of a run share.
#[derive(Drop)]
struct Hall<'a, C: Crew, F: Fn(u32) + Sync, R: Wait> {
    rt: &'a R,
    shared: &'a Mutex<Shared<C>>,
    places: &'a Places<C>,
    skipped: &'a AtomicU64,
    over: &'a AtomicBool,
    seen: &'a F,
    cast: Cast,
    ghost same_cast: { (cast.mutators ≡ C.plan.config.mutators) × (cast.markers ≡ C.markers) × (cast.refiners ≡ C.refiners) },
    ghost all_places: { cast.mutators + 1 + cast.markers + cast.refiners ≡ C.places },
}

/// Whether this worker could not be started, and so does nothing.
fn is_skipped(skipped: &AtomicU64, worker: u32) -> bool {
    skipped.load(Ordering::SeqCst) == u64::from(worker)
}

/// Takes turns till nothing is left to do.
fn work<C: Crew, F: Fn(u32) + Sync, R: Wait>(
    hall: &Hall<'_, C, F, R>,
    mut pass: Pass<u32, ()>,
    mut share: Share<C>,
    worker: u32,
) -> Spent<C>
    requires pass { IsPassOf hall.now.places.now pass }
    requires part { share.parts ≡ 1 }
    requires amount { share.amount ≡ 0 }
    requires seen { F.pre hall.now.seen.now worker }
{
    let rt = hall.rt;
    let mut held: Option<u32> = None;
    let mut count = 0u64;
    for _ in rt.forever() {
        if held.is_none() {
            held = hall.places.pop_as::<Below<C>, R>(rt, &mut pass);
        }
        let Some(place) = held else {
            if hall.over.load(Ordering::SeqCst) {
                break;
            }
            continue;
        };
        let turn = hall
            .shared
            .lock(rt)
            .next_turn(hall.cast.actor_at(place), &mut share);
        let Some(turn) = turn else {
            hall.over.store(true, Ordering::SeqCst);
            break;
        };
        held = match turn {
            Turn::End => None,
            Turn::Done | Turn::Idle => hall
                .places
                .push_as::<Below<C>, R>(rt, &mut pass, place)
                .err(),
        };
        if let Turn::Done = turn {
            count += 1;
            (hall.seen)(worker);
        }
    }
    Spent { count, share }
}

struct Gathered<C: Crew> {
    all: Share<C>,
    done: [u64; 32],
    started: u32,
}

/// Joins the workers, the last one first, and puts their parts together.
fn join_all<C: Crew, R: Threads>(
    rt: &R,
    mut all: Share<C>,
    mut hands: Vec<Hand<C>>,
    started: u32,
) -> Gathered<C>
    requires few { vec_len hands ≤ 32 }
    requires amount { all.amount ≡ 0 }
    ensures parts { result.all.parts ≡ all.parts + vec_len hands }
    ensures amount { sum result.done ≡ result.all.amount }
    ensures rest { (w : ℕ) → vec_len hands ≤ w → slice_index result.done w ≡ 0 }
{
    let mut done = [0u64; 32];
    'join: while let Some(hand) = hands.pop() {
        let Spent { count, share } = match hand {
            Hand::Running(handle) => handle.join(rt),
            Hand::Idle(spent) => spent,
        };
        all.merge(share);
        done[hands.len()] = count;
    }
    Gathered { all, done, started }
}

/// Starts the workers, joins them, and puts their parts together.
fn start_all<'x, C: Crew + Send + Sync, F: Fn(u32) + Sync, R: Threads + Wait + Sync>(
    hall: &'x Hall<'x, C, F, R>,
    workers: u32,
    all: Share<C>,
    pass: Pass<u32, ()>,
    hands: Vec<Hand<C>>,
) -> Gathered<C>
    requires workers { workers ≤ 32 }
    requires pass { IsPassOf hall.now.places.now pass }
    requires whole { (all.parts ≡ workers + 1) × (all.amount ≡ 0) }
    requires hands { (hands.items ≡ []) × (workers ≤ vec_capacity hands) }
    requires seen { (w : ℕ) → w < 32 → F.pre hall.now.seen.now w }
    ensures parts { result.all.parts ≡ workers + 1 }
    ensures amount { sum result.done ≡ result.all.amount }
    ensures rest { (w : ℕ) → workers ≤ w → slice_index result.done w ≡ 0 }
{
    thread::scope(
        thread::scope_env(),
        hall.rt,
        move |scope| -> Gathered<C>
            requires { (workers ≤ 32) × IsPassOf hall.now.places.now pass × ((all.parts ≡ workers + 1) × (all.amount ≡ 0))
                × ((hands.items ≡ []) × (workers ≤ vec_capacity hands)) × ((w : ℕ) → w < 32 → F.pre hall.now.seen.now w) }
            ensures { (result.all.parts ≡ workers + 1) × (sum result.done ≡ result.all.amount)
                × ((w : ℕ) → workers ≤ w → slice_index result.done w ≡ 0) }
        {
            let mut all = all;
            let mut pass = pass;
            let mut hands = hands;
            let mut started = 0u32;
            'start: for worker in 0..workers {
                let share = all.split_off(1, 0);
                let mine = hall.places.another::<Below<C>>(&mut pass);
                let job = move || -> Spent<C>
                    requires { IsPassOf hall.now.places.now mine × (share.parts ≡ 1) × (share.amount ≡ 0) × F.pre hall.now.seen.now worker }
                {
                    if is_skipped(hall.skipped, worker) {
                        return unspent(share);
                    }
                    work(hall, mine, share, worker)
                };
                let hand = match scope.spawn(job) {
                    Ok(handle) => {
                        started += 1;
                        Hand::Running(handle)
                    }
                    Err(refused) => {
                        hall.skipped.store(u64::from(worker), Ordering::SeqCst);
                        Hand::Idle((refused.value)())
                    }
                };
                hands.push_reserved(hand);
            }
            join_all(hall.rt, all, hands, started)
        },
    )
}

/// The queue with every place in it, and room for the workers.
struct Room<C: Crew> {
    queue: Places<C>,
    pass: Pass<u32, ()>,
    hands: Vec<Hand<C>>,
}

fn room_of<C: Crew, R: Wait>(
    rt: &R,
    alloc: Global,
    cast: Cast,
    workers: u32,
) -> Result<Room<C>, AllocError>
    requires { cast.mutators + 1 + cast.markers + cast.refiners ≡ C.places }
    ensures pass { IfOk result (λ r. IsPassOf r.queue r.pass) }
    ensures hands { IfOk result (λ r. (r.hands.items ≡ []) × (workers ≤ vec_capacity r.hands)) }
{
    let (queue, mut pass) = Places::<C>::ruled(alloc, cast.count() as usize)?;
    for place in 0..cast.count() {
        let _ = queue.push_as::<Below<C>, R>(rt, &mut pass, place);
    }
    let hands = Vec::with_capacity(alloc, workers as usize)?;
    Ok(Room { queue, pass, hands })
}

/// The fault of a run whose workers are joined, if it has one.
fn stopped_by(fault: bool, started: u32, is_ended: bool) -> Option<RunFault>
    ensures fault { IfSome result (λ f. (config : Config) → Suits config → IsThreadsFault config f) }
    ensures memory { (result ≡ Some RunFault.NoMemory) ↔ (fault ≡ true) }
    ensures worker { result ≡ Some RunFault.NoWorker → started ≡ 0 }
    ensures unfinished { result ≡ Some RunFault.Unfinished → is_ended ≡ false }
    ensures ended { result ≡ None → is_ended ≡ true }
{
    if fault {
        return Some(RunFault::NoMemory);
    }
    if started == 0 {
        return Some(RunFault::NoWorker);
    }
    if is_ended {
        None
    } else {
        Some(RunFault::Unfinished)
    }
}

/// What a run comes to once its workers are joined.
fn finish(
    plan: &Plan,
    cast: Cast,
    journal: Journal,
    fault: bool,
    started: u32,
    done: [u64; 32],
) -> Result<Threaded, RunFault>
    requires { IsOf plan.now cast.markers cast.refiners journal }
    ensures run { IfOk result (λ t. IsRunOf plan.now cast.markers cast.refiners t.history) }
    ensures done { IfOk result (λ t. t.done ≡ done) }
    ensures events { IfOk result (λ t. t.history.events ≡ journal.events) }
    ensures fault { IfErr result (λ f. Suits plan.now.config → IsThreadsFault plan.now.config f) }
    ensures memory { (result ≡ Err RunFault.NoMemory) ↔ (fault ≡ true) }
    ensures worker { result ≡ Err RunFault.NoWorker → started ≡ 0 }
{
    let is_ended = journal.is_ended();
    if let Some(fault) = stopped_by(fault, started, is_ended) {
        return Err(fault);
    }
    Ok(Threaded {
        history: journal.into_record(),
        done,
    })
}

fn gather<C: Crew + Send + Sync, F: Fn(u32) + Sync, R: Threads + Wait + Sync>(
    rt: &R,
    alloc: Global,
    blank: Blank,
    journal: Journal,
    plan: &Plan,
    cast: Cast,
    workers: u32,
    seen: &F,
) -> Result<Threaded, RunFault>
    requires name { blank.name ≡ C.name }
    requires parts { (blank.parts ≡ C.parts) × (blank.parts ≡ workers + 1) }
    requires workers { workers ≤ 32 }
    requires plan { plan.now ≡ C.plan }
    requires cast { (cast.mutators ≡ C.plan.config.mutators) × (cast.markers ≡ C.markers) × (cast.refiners ≡ C.refiners) }
    requires places { cast.mutators + 1 + cast.markers + cast.refiners ≡ C.places }
    requires of { IsOf C.plan C.markers C.refiners journal }
    requires empty { length journal.events ≡ 0 }
    requires seen { (w : ℕ) → w < 32 → F.pre seen.now w }
    ensures run { IfOk result (λ t. IsRunOf plan.now cast.markers cast.refiners t.history) }
    ensures counts { IfOk result (λ t. sum t.done ≡ length t.history.events) }
    ensures rest { IfOk result (λ t. (w : ℕ) → workers ≤ w → slice_index t.done w ≡ 0) }
    ensures fault { IfErr result (λ f. Suits plan.now.config → IsThreadsFault plan.now.config f) }
{
    let Ok(Room { queue, pass, hands }) = room_of::<C, R>(rt, alloc, cast, workers) else {
        return Err(RunFault::NoMemory);
    };
    let (book, all) = blank.open::<C>();
    let shared = Mutex::new(Shared::new(journal, book));
    let skipped = AtomicU64::new(u64::MAX);
    let over = AtomicBool::new(false);
    let Gathered {
        mut all,
        done,
        started,
    } = start_all(
        &Hall {
            rt,
            shared: &shared,
            places: &queue,
            skipped: &skipped,
            over: &over,
            seen,
            cast,
        },
        workers,
        all,
        pass,
        hands,
    );
    let (journal, fault) = shared.into_inner().close(&mut all);
    finish(plan, cast, journal, fault, started, done)
}

/// Whether the counts of a run are in range.
fn are_counts(workers: u32, refiners: u32, markers: u32) -> bool
    ensures bad { IsFalse result ↔ ((workers ≡ 0) ⊎ (32 < workers) ⊎ (8 < refiners) ⊎ (8 < markers)) }
    ensures few { IsTrue result → (workers ≤ 32) × (refiners ≤ 8) × (markers ≤ 8) }
{
    workers != 0 && workers <= 32 && refiners <= 8 && markers <= 8
}

/// What a run starts with: a new heap of the plan, and how many actors there are.
struct Start {
    journal: Journal,
    cast: Cast,
}

/// What a run of so many workers, refiners and markers starts with.
fn begin(
    alloc: Global,
    plan: &Plan,
    workers: u32,
    refiners: u32,
    markers: u32,
) -> Result<Start, RunFault>
    ensures of { IfOk result (λ s. IsOf plan.now markers refiners s.journal) }
    ensures empty { IfOk result (λ s. length s.journal.events ≡ 0) }
    ensures cast { IfOk result (λ s. (s.cast.mutators ≡ plan.now.config.mutators)
        × (s.cast.markers ≡ markers) × (s.cast.refiners ≡ refiners)) }
    ensures suits { IfOk result (λ s. Suits plan.now.config) }
    ensures few { IfOk result (λ s. workers ≤ 32) }
    ensures bad { (result ≡ Err RunFault.BadWorkers) ↔ ((workers ≡ 0) ⊎ (32 < workers) ⊎ (8 < refiners) ⊎ (8 < markers)) }
    ensures fault { IfErr result (λ f. f ≢ RunFault.BadWorkers → IsThreadsFault plan.now.config f) }
{
    if !are_counts(workers, refiners, markers) {
        return Err(RunFault::BadWorkers);
    }
    let journal = match Journal::new(alloc, plan) {
        Ok(journal) => journal,
        Err(fault) => return Err(run_fault(fault)),
    };
    let cast = Cast {
        mutators: journal.config().mutators,
        markers,
        refiners,
    };
    Ok(Start { journal, cast })
}

/// Does a plan's scripts in a new heap by so many workers, with so many refiners and markers beside, and calls `seen` with a worker's
/// number after each of its done turns. The record's events are an interleaving of the whole scripts; the counts of done
/// turns sum to their number. Other than 1 to 32 workers, and more than 8 refiners or markers, are `BadWorkers`. It may wait.
///
/// ```rust
/// use std::sync::atomic::{AtomicU64, Ordering};
///
/// let turns = AtomicU64::new(0);
/// let threaded = run_threads_seen(&rt, alloc, &plan, 2, 0, 0, &|_| {
///     turns.fetch_add(1, Ordering::SeqCst);
/// })?;
/// assert_eq!(rt; threaded.history.events().len(), 2);
/// assert_eq!(rt; turns.load(Ordering::SeqCst), 2);
/// ```
pub fn run_threads_seen<F: Fn(u32) + Sync, R: Threads + Wait + Sync>(
    rt: &R,
    alloc: Global,
    plan: &Plan,
    workers: u32,
    refiners: u32,
    markers: u32,
    seen: &F,
) -> Result<Threaded, RunFault>
    requires seen { (w : ℕ) → w < 32 → F.pre seen.now w }
    ensures run { IfOk result (λ t. IsRunOf plan.now markers refiners t.history) }
    ensures counts { IfOk result (λ t. sum t.done ≡ length t.history.events) }
    ensures rest { IfOk result (λ t. (w : ℕ) → workers ≤ w → slice_index t.done w ≡ 0) }
    ensures bad { (result ≡ Err RunFault.BadWorkers) ↔ ((workers ≡ 0) ⊎ (32 < workers) ⊎ (8 < refiners) ⊎ (8 < markers)) }
    ensures fault { IfErr result (λ f. f ≢ RunFault.BadWorkers → IsThreadsFault plan.now.config f) }
{
    let Start { journal, cast } = begin(alloc, plan, workers, refiners, markers)?;
    gather::<Brand, F, R>(
        rt,
        alloc,
        Blank::new(u64::from(workers) + 1),
        journal,
        plan,
        cast,
        workers,
        seen,
    )
}

/// The same, without a look at the workers.
///
/// ```rust
/// let record = run_threads(&rt, alloc, &plan, 4, 0, 0)?;
/// assert_eq!(rt; record.events().len(), 2);
/// ```
pub fn run_threads<R: Threads + Wait + Sync>(
    rt: &R,
    alloc: Global,
    plan: &Plan,
    workers: u32,
    refiners: u32,
    markers: u32,
) -> Result<Record, RunFault>
    ensures run { IfOk result (IsRunOf plan.now markers refiners) }
    ensures bad { (result ≡ Err RunFault.BadWorkers) ↔ ((workers ≡ 0) ⊎ (32 < workers) ⊎ (8 < refiners) ⊎ (8 < markers)) }
    ensures fault { IfErr result (λ f. f ≢ RunFault.BadWorkers → IsThreadsFault plan.now.config f) }
{
    let Threaded { history, done: _ } = run_threads_seen(
        rt,
        alloc,
        plan,
        workers,
        refiners,
        markers,
        &|_| {},
    )?;
    Ok(history)
}
