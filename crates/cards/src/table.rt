//! Which cards are dirty, and where they are listed.
//!
//! ```text
//!   card     0 1 2 3 4 5 6 7 8 9          log 0   3 9 1         queue   5 2
//!   dirty    . * * * . * * . . *          log 1   6
//! ```

ghost use Rattle.std.specs.List.{concat};
ghost use Rattle.std.specs.Prelude.{◌≡◌, ◌⊎◌, ◌||◌, ◌&&◌, ◌==◌, ◌<◌, ◌∷◌};
ghost use Rattle.std.specs.Prelude.{Contains, ℕ, false, true, not, All, IfNone, IfOk, IfSome, [], length, slice_get, slice_index_or};
ghost use Rattle.std.specs.Prelude.{slice_set, Some};
ghost use Rattle.cards.specs.Cards.{appended, clean_cards, dirtied, flushed, is_dirty, Cards, ListsDirtyOnce};

use crate::flags::Flags;
use crate::log::{CardLog, LOG_LEN, move_to};
use crate::queue::give_back;
use heap_words::addr::Card;
use std::alloc::{AllocError, Global};
use std::collections::VecDeque;
use std::marker::Model;

/// A dirty flag for each card, a log for each mutator, and the queue. Clauses see the three lists.
pub struct CardTable {
    dirty: Flags,
    logs: Vec<CardLog>,
    queue: VecDeque<u32>,
}

impl Model for CardTable {
    ghost use Rattle.cards.specs.Cards.{Cards};

    ghost Value = { Cards };

    ghost use Rattle.cards.specs.Inside.{cards_of, IsCardTable};

    ghost view = { cards_of };

    ghost invariant = { IsCardTable };
}

/// Where it is dropped there is one call, and not a drop for each of its parts.
impl Drop for CardTable {
    fn drop(self) {
        let CardTable {
            dirty: _,
            logs: _,
            queue: _,
        } = self;
    }
}

impl CardTable {
    /// All cards are clean. No call takes memory afterwards.
    pub fn new(alloc: Global, cards: u32, mutators: u32) -> Result<CardTable, AllocError>
        ensures { IfOk result (λ table. table ≡ clean_cards cards mutators) }
    {
        let dirty = Flags::new(alloc, cards)?;
        let mut logs = Vec::with_capacity(alloc, mutators as usize)?;
        for _ in 0..mutators {
            logs.push(CardLog::new())?;
        }
        let queue = VecDeque::with_capacity(alloc, cards as usize)?;
        Ok(CardTable { dirty, logs, queue })
    }

    /// Tells a proof what is known of every table: a dirty card is listed once and a clean one not at all, and each log
    /// has room. It does nothing.
    pub fn law(&self)
        ensures listed { ListsDirtyOnce self.now }
        ensures room { All (λ log. length log < 4) self.now.logs }
    {
        let _ = &self.dirty;
    }

    /// Whether the card is dirty.
    pub fn is_dirty(&self, card: Card) -> bool
        requires { card < length self.now.dirty }
        ensures { result ≡ is_dirty self.now card }
    {
        self.dirty.get(card.number())
    }

    /// How many cards are in the queue.
    pub fn queued(&self) -> u32
        ensures { result ≡ length self.now.queue }
    {
        self.queue.len() as u32
    }

    /// The card at a place of the queue, counted from its front.
    pub fn queued_card(&self, place: u32) -> Card
        requires { place < length self.now.queue }
        ensures { slice_get self.now.queue place ≡ Some result }
    {
        Card::new(self.queue[place as usize])
    }

    /// How many cards are in the mutator's log.
    pub fn logged(&self, mutator: u32) -> usize
        requires { mutator < length self.now.logs }
        ensures { result ≡ length (slice_index_or self.now.logs mutator []) }
    {
        let log = &self.logs[mutator as usize];
        log.len()
    }

    /// The card at a place of the mutator's log, in the order in which they became dirty.
    pub fn logged_card(&self, mutator: u32, place: usize) -> Card
        requires mutator { mutator < length self.now.logs }
        requires place { place < length (slice_index_or self.now.logs mutator []) }
        ensures { slice_get (slice_index_or self.now.logs mutator []) place ≡ Some result }
    {
        let log = &self.logs[mutator as usize];
        Card::new(log.get(place))
    }

    /// A clean card becomes dirty at the end of the mutator's log, which goes to the queue if that makes four. Where the
    /// card is dirty nothing changes.
    pub fn dirty(&mut self, mutator: u32, card: Card)
        requires mutator { mutator < length self.old.logs }
        requires card { card < length self.old.dirty }
        ensures after { self.new ≡ dirtied self.old mutator card }
        ensures cards { length self.new.dirty ≡ length self.old.dirty }
        ensures mutators { length self.new.logs ≡ length self.old.logs }
    {
        if self.is_dirty(card) {
            return;
        }
        self.dirty.set(card.number());
        let log = &mut self.logs[mutator as usize];
        log.push(card.number());
        if log.len() == LOG_LEN {
            move_to(log, &mut self.queue);
        }
    }

    /// The front of the queue leaves it, and becomes clean.
    pub fn dequeue(&mut self) -> Option<Card>
        ensures empty { IfNone result ((self.old.queue ≡ []) × (self.new ≡ self.old)) }
        ensures front { IfSome result (λ card. self.old.queue ≡ card ∷ self.new.queue) }
        ensures cleaned { IfSome result (λ card. self.new.dirty ≡ slice_set self.old.dirty card false) }
        ensures logs { self.new.logs ≡ self.old.logs }
        ensures was_dirty { IfSome result (λ card. is_dirty self.old card ≡ true) }
        ensures known { IfSome result (λ card. card < length self.old.dirty) }
    {
        let card = self.queue.pop_front()?;
        self.dirty.remove(card);
        Some(Card::new(card))
    }

    /// A clean card becomes dirty at the queue's end.
    pub fn append(&mut self, card: Card)
        requires card { card < length self.old.dirty }
        requires clean { is_dirty self.old card ≡ false }
        ensures { self.new ≡ appended self.old card }
    {
        self.dirty.set(card.number());
        self.queue.push_back_reserved(card.number());
    }

    /// All logs go to the queue, by mutator.
    pub fn flush_all(&mut self)
        ensures { self.new ≡ flushed self.old }
    {
        for mutator in 0..self.logs.len() {
            let log = &mut self.logs[mutator];
            move_to(log, &mut self.queue);
        }
    }
}

impl CardTable {
    /// The memory of flags after the last dirty card goes back to the system, and so does that of the queue's room beyond its cards. The
    /// table stays, and so does its room. Where the memory that this asks for meanwhile is refused, less goes back.
    pub fn give_back(&mut self, alloc: Global) -> Result<(), AllocError>
        ensures { self.new ≡ self.old }
    {
        let cards = self.dirty.len();
        self.dirty.give_back(alloc)?;
        give_back(alloc, &mut self.queue, cards)
    }
}

/// Which cards are dirty after each call: the one that it names changes, and no other.
pub fn dirty_law()
    ensures dirtied { (t : Cards) (mutator card other : ℕ) → card < length t.dirty
        → is_dirty (dirtied t mutator card) other ≡ (other == card || is_dirty t other) }
    ensures appended { (t : Cards) (card other : ℕ) → card < length t.dirty
        → is_dirty (appended t card) other ≡ (other == card || is_dirty t other) }
    ensures cleaned { (t u : Cards) (card other : ℕ) → card < length t.dirty → u.dirty ≡ slice_set t.dirty card false
        → is_dirty u other ≡ (not (other == card) && is_dirty t other) }
{}

/// A dirty card is in the queue or in one of the logs, and what is there is dirty.
pub fn listed_law()
    ensures dirty { (t : Cards) (card : ℕ) → ListsDirtyOnce t → is_dirty t card ≡ true
        → Contains t.queue card ⊎ Contains (concat t.logs) card }
    ensures queue { (t : Cards) (card : ℕ) → ListsDirtyOnce t → Contains t.queue card → is_dirty t card ≡ true }
    ensures logs { (t : Cards) (card : ℕ) → ListsDirtyOnce t → Contains (concat t.logs) card → is_dirty t card ≡ true }
{}
