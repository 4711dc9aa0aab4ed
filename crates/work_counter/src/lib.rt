//! How much work a call does: the turns that its loops take, counted in proofs alone.
//!
//! ```text
//!   for card in cards {          where there are n cards, and `look_at` ensures work.new ≤ work.old + t,
//!       work.tick();             the function ensures work.new ≤ work.old + n * (1 + t)
//!       look_at(card, work);
//!   }
//! ```
//!
//! These are time credits (Atkey 2011, Charguéraud and Pottier 2015), written as a count that goes up: a clause says how many turns a call
//! may take from the one who calls it. What is put off, as clearing what the next one finds, is owed: a value of a model, which the clause
//! adds on both sides. A `Work` takes no bytes, and its calls leave no instruction.
//!
//! **A tick is the author's word.** No proof asks that each turn of a loop ticks: a loop without a tick counts nothing, and neither does a
//! call that is lent a new `Work`. So a reader has to see three things. Each turn begins with a tick, or with a call that ticks. Between
//! two ticks no loop runs whose length a size changes. What a loop of the standard library takes, as a `fill`, its caller counts by
//! `tick_each`. What a clause then refuses is a turn too many: a second scan, a search that begins anew, a walk over all where a part was
//! promised.
#![tactic(auto)]

ghost use Rattle.std.specs.Borrow.{ftrue};
ghost use Rattle.std.specs.Prelude.{◌≡◌, ◌+◌, ℕ};

use std::marker::Model;

/// How many turns were taken, by all that it was lent to. Clauses see that number. Whoever counts nothing makes one for the call:
///
/// ```text
///   look_at(card, &mut Work::new())
/// ```
#[derive(Drop)]
pub struct Work {
    ghost turns: { ℕ },
}

impl Model for Work {
    ghost Value = { ℕ };

    ghost view = { λ w. w.turns };

    ghost also_owns = { λ _. ftrue };
}

impl Work {
    /// A counter. At which number it is nobody knows: so it serves what comes, and tells nothing of what was.
    #[inline(always)]
    pub fn new() -> Work
        ensures { (n : ℕ) × (result ≡ n) }
    {
        Work {}
    }

    /// The counter after so many turns more.
    #[inline(always)]
    fn after(&self, turns: &u32) -> Work
        ensures { result ≡ self.now + turns.now }
    {
        let _ = turns;
        Work {}
    }

    /// One turn of a loop begins.
    #[inline(always)]
    pub fn tick(&mut self)
        ensures { self.new ≡ self.old + 1 }
    {
        *self = self.after(&1);
    }

    /// So many turns are taken by a call that doesn't count them, as a loop of the standard library.
    #[inline(always)]
    pub fn tick_each(&mut self, turns: u32)
        ensures { self.new ≡ self.old + turns }
    {
        *self = self.after(&turns);
    }
}
