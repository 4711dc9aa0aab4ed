//! The deletion logs of all mutators.
//!
//! Over a marking cycle: all logs are empty when marking begins; each mutator's stores fill its own; a full one is
//! drained within the store that filled it; at the end all are drained.

ghost use Rattle.std.specs.Prelude.{◌≡◌, ◌⊎◌, ◌<◌, ◌≤◌, ◌∷◌, ◌++◌, ◌==◌};
ghost use Rattle.std.specs.Prelude.{ℕ, List, [], Contains, IfOk, length, replicate, slice_get, slice_set, Some};
ghost use Rattle.satb_log.specs.Logs.{log_of, logged};

use heap_words::addr::Addr;
use heap_words::short_list::ShortList;
use std::alloc::{AllocError, Global};
use std::marker::Model;

/// How many addresses a deletion log has room for.
pub const LOG_LEN: usize = 8;

/// Addresses in the order in which they were logged.
pub type DeletionLog = ShortList<LOG_LEN>;

/// A deletion log for each mutator. Clauses see the list of the logs.
pub struct DeletionLogs {
    logs: Vec<DeletionLog>,
}

impl Model for DeletionLogs {
    ghost use Rattle.std.specs.Prelude.{List, ℕ, ◌<◌, ◌^◌, vec_len};

    ghost Value = { List (List ℕ) };

    ghost view = { λ all. all.logs.items };

    ghost invariant = { λ all. vec_len all.logs < 2 ^ 32 };
}

/// Where it is dropped there is one call, and not a drop for each of its parts.
impl Drop for DeletionLogs {
    fn drop(self) {
        let DeletionLogs { logs: _ } = self;
    }
}

impl DeletionLogs {
    /// An empty log for each mutator. No call takes memory afterwards.
    pub fn new(alloc: Global, mutators: u32) -> Result<DeletionLogs, AllocError>
        ensures { IfOk result (λ logs. logs ≡ replicate mutators []) }
    {
        let mut logs = Vec::with_capacity(alloc, mutators as usize)?;
        for _ in 0..mutators {
            logs.push(DeletionLog::new())?;
        }
        Ok(DeletionLogs { logs })
    }

    /// How many mutators there are.
    pub fn mutators(&self) -> u32
        ensures { result ≡ length self.now }
    {
        self.logs.len() as u32
    }

    /// How many addresses are in the mutator's log.
    pub fn len(&self, mutator: u32) -> usize
        requires { mutator < length self.now }
        ensures value { result ≡ length (log_of self.now mutator) }
        ensures at_most { result ≤ 8 }
    {
        let log = &self.logs[mutator as usize];
        log.len()
    }

    /// Whether the mutator's log has no room for another address.
    pub fn is_full(&self, mutator: u32) -> bool
        requires { mutator < length self.now }
        ensures full { result ≡ (length (log_of self.now mutator) == 8) }
        ensures at_most { length (log_of self.now mutator) ≤ 8 }
    {
        let log = &self.logs[mutator as usize];
        log.is_full()
    }

    /// The address at a place of the mutator's log, in the order in which they were logged.
    pub fn logged(&self, mutator: u32, place: usize) -> Addr
        requires known { mutator < length self.now }
        requires place { place < length (log_of self.now mutator) }
        ensures { slice_get (log_of self.now mutator) place ≡ Some result }
    {
        let log = &self.logs[mutator as usize];
        Addr::new(log.get(place))
    }

    /// An address enters the mutator's log at its end. Whether the log is full now.
    #[inline(always)]
    pub fn log(&mut self, mutator: u32, address: Addr) -> bool
        requires known { mutator < length self.old }
        requires room { length (log_of self.old mutator) < 8 }
        ensures logged { self.new ≡ slice_set self.old mutator (log_of self.old mutator ++ address ∷ []) }
        ensures full { result ≡ (length (log_of self.new mutator) == 8) }
        ensures most { length (log_of self.new mutator) ≤ 8 }
    {
        let own = &mut self.logs[mutator as usize];
        own.push(address.word());
        own.is_full()
    }

    /// The addresses of the mutator's log, which is empty afterwards.
    pub fn drain(&mut self, mutator: u32) -> DeletionLog
        requires { mutator < length self.old }
        ensures all { result ≡ log_of self.old mutator }
        ensures emptied { self.new ≡ slice_set self.old mutator [] }
    {
        let taken = &mut self.logs[mutator as usize];
        std::mem::replace(taken, DeletionLog::new())
    }
}

/// What is in all logs together: `log` adds the address and nothing else; what `drain` hands out and what is left
/// in the logs was in them, and nothing else; where each log is empty, nothing is logged.
pub fn logged_law()
    ensures stays { (logs : List (List ℕ)) (mutator a b : ℕ) → mutator < length logs → Contains (logged logs) b
        → Contains (logged (slice_set logs mutator (log_of logs mutator ++ a ∷ []))) b }
    ensures new { (logs : List (List ℕ)) (mutator a : ℕ) → mutator < length logs
        → Contains (logged (slice_set logs mutator (log_of logs mutator ++ a ∷ []))) a }
    ensures only { (logs : List (List ℕ)) (mutator a b : ℕ) → Contains (logged (slice_set logs mutator (log_of logs mutator ++ a ∷ []))) b
        → Contains (logged logs) b ⊎ (b ≡ a) }
    ensures drained { (logs : List (List ℕ)) (mutator b : ℕ) → Contains (logged logs) b
        → Contains (logged (slice_set logs mutator [])) b ⊎ Contains (log_of logs mutator) b }
    ensures rest { (logs : List (List ℕ)) (mutator b : ℕ) → Contains (logged (slice_set logs mutator [])) b → Contains (logged logs) b }
    ensures one { (logs : List (List ℕ)) (mutator b : ℕ) → Contains (log_of logs mutator) b → Contains (logged logs) b }
    ensures empty { (logs : List (List ℕ)) → ((mutator : ℕ) → mutator < length logs → log_of logs mutator ≡ []) → logged logs ≡ [] }
{}
