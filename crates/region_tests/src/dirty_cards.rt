//! Dirty cards in their logs and in the queue.

use cards::CardTable;
use heap_words::addr::Card;
use std::test::Fail;

/// Three cards stay in their log. The fourth sends them to the queue, in order; a fifth begins the log anew.
#[test]
fn sends_a_full_log(rt: HostRuntime) -> Result<(), Fail> {
    let mut table = CardTable::new(rt.alloc(), 10, 2)?;
    table.dirty(0, Card::new(3));
    table.dirty(0, Card::new(9));
    table.dirty(0, Card::new(1));
    assert_eq!(rt; table.queued(), 0);
    assert!(rt; table.is_dirty(Card::new(9)) && !table.is_dirty(Card::new(7)));
    table.dirty(0, Card::new(7));
    assert!(rt; table.queued() == 4 && table.is_dirty(Card::new(7)));
    table.dirty(0, Card::new(2));
    assert_eq!(rt; table.queued(), 4);
    for card in [3, 9, 1, 7] {
        assert_eq!(rt; table.dequeue(), Some(Card::new(card)));
    }
    assert_eq!(rt; table.dequeue(), None);
    Ok(())
}

/// A dirty card that is marked again changes nothing, whichever mutator marks it.
#[test]
fn lists_a_dirty_card_once(rt: HostRuntime) -> Result<(), Fail> {
    let mut table = CardTable::new(rt.alloc(), 4, 2)?;
    table.dirty(0, Card::new(2));
    table.dirty(1, Card::new(2));
    table.dirty(0, Card::new(2));
    table.dirty(0, Card::new(2));
    table.dirty(0, Card::new(2));
    assert_eq!(rt; table.queued(), 0);
    table.flush_all();
    assert_eq!(rt; table.queued(), 1);
    table.dirty(1, Card::new(2));
    table.flush_all();
    assert_eq!(rt; table.dequeue(), Some(Card::new(2)));
    assert_eq!(rt; table.dequeue(), None);
    Ok(())
}

/// What is taken is clean, and dirty again where it is appended, at the end.
#[test]
fn appends(rt: HostRuntime) -> Result<(), Fail> {
    let mut table = CardTable::new(rt.alloc(), 8, 1)?;
    table.dirty(0, Card::new(4));
    table.dirty(0, Card::new(6));
    table.flush_all();
    assert_eq!(rt; table.dequeue(), Some(Card::new(4)));
    let first = Card::new(4);
    assert!(rt; !table.is_dirty(first));
    if !table.is_dirty(first) {
        table.append(first);
    }
    assert!(rt; table.is_dirty(first));
    for card in [6, 4] {
        assert_eq!(rt; table.dequeue(), Some(Card::new(card)));
    }
    assert_eq!(rt; table.queued(), 0);
    Ok(())
}

/// All logs go to the queue by mutator, and are empty then.
#[test]
fn flushes_by_mutator(rt: HostRuntime) -> Result<(), Fail> {
    let mut table = CardTable::new(rt.alloc(), 8, 2)?;
    table.dirty(1, Card::new(5));
    table.dirty(0, Card::new(4));
    table.dirty(1, Card::new(6));
    table.flush_all();
    assert_eq!(rt; table.queued(), 3);
    table.flush_all();
    for card in [4, 5, 6] {
        assert_eq!(rt; table.dequeue(), Some(Card::new(card)));
    }
    assert_eq!(rt; table.dequeue(), None);
    Ok(())
}
