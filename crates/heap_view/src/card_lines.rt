//! Dirty cards.

ghost use Rattle.std.specs.Prelude.{◌<◌, length, codes};
ghost use Rattle.cards.specs.Cards.{log_of};
ghost use Rattle.script_text.specs.Texts.{Adds, spaced_number};
ghost use Rattle.heap_view.specs.Lists.{titled_line};
ghost use Rattle.heap_view.specs.Actors.{queue_line};

use cards::CardTable;
use heap_dump::{put_logged, put_queued};
use script_text::Text;

/// Puts the queue of refinement, from its front.
pub(crate) fn put_queue(cards: &CardTable, text: &mut Text)
    ensures { Adds text.old (queue_line cards.now.queue) text.new }
{
    let count = cards.queued();
    if count == 0 {
        text.put("queue of cards: none\n");
        return;
    }
    text.put("queue of cards:");
    put_queued(cards, text, count);
    text.put("\n");
}

/// Puts a mutator's card log, if it isn't empty.
pub(crate) fn put_card_log(cards: &CardTable, text: &mut Text, mutator: u32)
    requires { mutator < length cards.now.logs }
    ensures { Adds text.old (titled_line (codes "  card log:") spaced_number (log_of cards.now mutator)) text.new }
{
    if cards.logged(mutator) == 0 {
        return;
    }
    text.put("  card log:");
    put_logged(cards, text, mutator);
    text.put("\n");
}
