//! Refinement of one card.

ghost use Rattle.std.specs.Prelude.{◌≡◌, ◌+◌, ◌≤◌, if◌then◌else◌, length};
ghost use Rattle.mark_bitmap.specs.Kept.{kept_in};
ghost use Rattle.cards.specs.Cards.{is_dirty};
ghost use Rattle.remembered_sets.specs.Sets.{card_count, may_lead};
ghost use Rattle.remembered_sets.specs.Owed.{owed};
ghost use Rattle.refinement.specs.Remembering.{Remembers};
ghost use Rattle.refinement.specs.Refining.{CanScan, Refines};
ghost use Rattle.refinement.specs.Turns.{card_turns};

use crate::scan::scan_card_counted;
use cards::CardTable;
use mark_bitmap::marks::Marks;
use mark_bitmap::tams::Tams;
use regions::RegionTable;
use remembered_sets::RememberedSets;
use work_counter::Work;

/// Takes the front card of the queue, which becomes clean, and enters it for its crossing fields. False where the queue is
/// empty, and then nothing changes.
pub fn refine_one(
    table: &RegionTable,
    tams: &Tams,
    marks: &Marks,
    cards: &mut CardTable,
    sets: &mut RememberedSets,
    card_words: u32,
) -> bool
    requires stands { CanScan table.now tams.now marks.now card_words sets.old }
    requires cards { length cards.old.dirty ≡ card_count sets.old }
    ensures refines { Refines result table.now.words_per_region (kept_in table.now tams.now marks.now) card_words cards.old cards.new
        sets.old sets.new }
    ensures remembers { Remembers table.now.words_per_region (kept_in table.now tams.now marks.now) card_words (is_dirty cards.old)
        (may_lead sets.old)
        → Remembers table.now.words_per_region (kept_in table.now tams.now marks.now) card_words (is_dirty cards.new) (may_lead sets.new) }
    ensures stands { CanScan table.now tams.now marks.now card_words sets.new }
    ensures cards { length cards.new.dirty ≡ card_count sets.new }
{
    refine_one_counted(
        table,
        tams,
        marks,
        cards,
        sets,
        card_words,
        &mut Work::new(),
    )
}

/// The same, for one who counts. A card takes no more turns in a heap of many regions than in one of few.
#[inline(always)]
pub fn refine_one_counted(
    table: &RegionTable,
    tams: &Tams,
    marks: &Marks,
    cards: &mut CardTable,
    sets: &mut RememberedSets,
    card_words: u32,
    work: &mut Work,
) -> bool
    requires stands { CanScan table.now tams.now marks.now card_words sets.old }
    requires cards { length cards.old.dirty ≡ card_count sets.old }
    ensures refines { Refines result table.now.words_per_region (kept_in table.now tams.now marks.now) card_words cards.old cards.new
        sets.old sets.new }
    ensures remembers { Remembers table.now.words_per_region (kept_in table.now tams.now marks.now) card_words (is_dirty cards.old)
        (may_lead sets.old)
        → Remembers table.now.words_per_region (kept_in table.now tams.now marks.now) card_words (is_dirty cards.new) (may_lead sets.new) }
    ensures stands { CanScan table.now tams.now marks.now card_words sets.new }
    ensures cards { length cards.new.dirty ≡ card_count sets.new }
    ensures work { work.new + owed sets.new
        ≤ work.old + owed sets.old + (if result then card_turns table.now.words_per_region card_words else 0) }
{
    table.law();
    let Some(card) = cards.dequeue() else {
        return false;
    };
    scan_card_counted(table, tams, marks, sets, card_words, card, work);
    true
}
