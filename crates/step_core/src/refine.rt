//! Refinement by steps: cards from the front of the queue are looked at, and enter the remembered sets of the regions that
//! their pointers lead into. Logs that aren't full are not read.
//!
//! ```text
//!   refine 2     queue 5 2 3      region 1 covers -        region 3 covers 2
//!   then         queue 3          region 1 covers 5        region 3 covers 2 5
//! ```

ghost use Rattle.std.specs.Prelude.{◌≡◌, ◌+◌, ◌*◌, ◌≤◌, if◌then◌else◌};
ghost use Rattle.heap_model.specs.Graph.{Graph};
ghost use Rattle.heap_words.specs.Configs.{card_words};
ghost use Rattle.remembered_sets.specs.Owed.{owed};
ghost use Rattle.refinement.specs.Turns.{card_turns};
ghost use Rattle.step_core.specs.Stands.{ShowsGraph, KeepsFrom};
ghost use Rattle.step_core.specs.Refining.{RefinesCard, HasRefined};

use crate::heap::Core;
use refinement::refine_one_counted;
use work_counter::Work;

impl Core {
    /// Refines the front of the queue, where a card has so many words. False where the queue is empty.
    fn refine_card(&mut self, words: u32, work: &mut Work) -> bool
        requires { words ≡ card_words self.old.config }
        ensures shows { (g : Graph) → ShowsGraph g self.old → ShowsGraph g self.new }
        ensures keeps { (s : Graph) → KeepsFrom s self.old → KeepsFrom s self.new }
        ensures refined { RefinesCard result self.old self.new }
        ensures work { work.new + owed self.new.sets ≤ work.old + owed self.old.sets
            + (if result then card_turns self.old.table.words_per_region (card_words self.old.config) else 0) }
    {
        self.table.law();
        refine_one_counted(
            &self.table,
            &self.marker.tams,
            &self.marker.bitmaps.previous,
            &mut self.cards,
            &mut self.sets,
            words,
            work,
        )
    }

    /// Refines up to so many cards. The result is how many.
    pub(crate) fn refine(&mut self, cards: u32) -> u32
        ensures shows { (g : Graph) → ShowsGraph g self.old → ShowsGraph g self.new }
        ensures keeps { (s : Graph) → KeepsFrom s self.old → KeepsFrom s self.new }
        ensures refined { HasRefined cards result self.old self.new }
    {
        self.refine_counted(cards, &mut Work::new())
    }

    /// The same, for one who counts: so many turns for each card that it refines, whatever the heap's size, and one more. Filters that were
    /// emptied since are cleared besides, by as many turns as the sets owe less afterwards.
    #[inline(always)]
    pub(crate) fn refine_counted(&mut self, cards: u32, work: &mut Work) -> u32
        ensures shows { (g : Graph) → ShowsGraph g self.old → ShowsGraph g self.new }
        ensures keeps { (s : Graph) → KeepsFrom s self.old → KeepsFrom s self.new }
        ensures refined { HasRefined cards result self.old self.new }
        ensures work { work.new + owed self.new.sets ≤ work.old + owed self.old.sets
            + result * (card_turns self.old.table.words_per_region (card_words self.old.config) + 1) + 1 }
    {
        let words = self.config.card_words();
        for done in 0..cards {
            work.tick();
            if !self.refine_card(words, work) {
                return done;
            }
        }
        cards
    }
}
