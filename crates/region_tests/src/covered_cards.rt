//! Sets that fill, that are cleared, and that are apart.

ghost use Rattle.std.specs.Prelude.{◌≡◌, IfOk, length};

use bit_sets::bounded::BoundedBits;
use evacuation::PauseRoom;
use heap_words::addr::{Card, RegionNo};
use remembered_sets::RememberedSets;
use std::alloc::{AllocError, Global};
use std::test::Fail;

/// Sets of 8 regions of 16 cards, where the set of region 7 has sixteen cards: 0, 3, 6 and so on up to 45.
fn filled(alloc: Global) -> Result<RememberedSets, AllocError>
    ensures { IfOk result (λ sets. (length sets.sets ≡ 8) × (sets.cards_per_region ≡ 16)) }
{
    let mut sets = RememberedSets::new(alloc, 8, 16, 0)?;
    for place in 0..16 {
        sets.add(RegionNo::new(7), Card::new(3 * place));
    }
    Ok(sets)
}

/// Sixteen cards are inline, and no other is covered. The seventeenth marks its region, 3: that one's cards are
/// covered then, those of the regions beside it aren't, and the sixteen still are.
#[test]
fn marks_the_region_of_the_seventeenth(rt: HostRuntime) -> Result<(), Fail> {
    let mut sets = filled(rt.alloc())?;
    let region = RegionNo::new(7);
    for card in 0..64 {
        assert_eq!(rt;
            sets.covers(region, Card::new(card)),
            card % 3 == 0 && card < 48,
            "{card}"
        );
    }
    sets.add(region, Card::new(50));
    for card in 0..128 {
        let is_covered = sets.covers(region, Card::new(card));
        assert_eq!(rt;
            is_covered,
            card % 3 == 0 && card < 48 || card / 16 == 3,
            "{card}"
        );
    }
    Ok(())
}

/// The cards that may lead into a region count once each: those that are inline, and of a marked region those that entered a set. Each
/// region has a count of its own.
#[test]
fn counts_cards_into_a_region(rt: HostRuntime) -> Result<(), Fail> {
    let mut sets = filled(rt.alloc())?;
    let mut room = PauseRoom::new(rt.alloc(), 8, 128)?;
    let region = RegionNo::new(7);
    assert_eq!(rt; room.count_cards(&sets, region), 16);
    sets.add(region, Card::new(50));
    assert_eq!(rt; room.count_cards(&sets, region), 17);
    assert_eq!(rt; room.count_cards(&sets, RegionNo::new(6)), 0);
    Ok(())
}

/// A covered card takes no room: the sixteenth of a set is inline though its cards were added many times.
#[test]
fn adds_a_card_once(rt: HostRuntime) -> Result<(), Fail> {
    let mut sets = filled(rt.alloc())?;
    let region = RegionNo::new(7);
    sets.add(region, Card::new(45));
    sets.add(region, Card::new(0));
    assert!(rt; !sets.covers(region, Card::new(46)) && !sets.covers(region, Card::new(1)));
    Ok(())
}

/// A cleared set covers nothing, and has room for sixteen cards again.
#[test]
fn clears(rt: HostRuntime) -> Result<(), Fail> {
    let mut sets = filled(rt.alloc())?;
    let region = RegionNo::new(7);
    sets.add(region, Card::new(50));
    sets.clear(region);
    for card in 0..128 {
        assert!(rt; !sets.covers(region, Card::new(card)), "{card}");
    }
    sets.add(region, Card::new(50));
    assert!(rt; sets.covers(region, Card::new(50)) && !sets.covers(region, Card::new(51)));
    Ok(())
}

/// What is added to one region's set is in no other's, and clearing one leaves the others.
#[test]
fn keeps_sets_apart(rt: HostRuntime) -> Result<(), Fail> {
    let mut sets = RememberedSets::new(rt.alloc(), 3, 2, 0)?;
    let first = RegionNo::new(0);
    let second = RegionNo::new(1);
    sets.add(first, Card::new(2));
    sets.add(second, Card::new(5));
    assert!(rt; sets.covers(first, Card::new(2)) && !sets.covers(second, Card::new(2)));
    assert!(rt; sets.covers(second, Card::new(5)) && !sets.covers(first, Card::new(5)));
    sets.clear(first);
    assert!(rt; !sets.covers(first, Card::new(2)) && sets.covers(second, Card::new(5)));
    Ok(())
}

/// Marking flags what the set covers and what entered a set, beside what was flagged before: of a region that is marked whole the one
/// card that was added. Another region's set flags nothing.
#[test]
fn marks_cards(rt: HostRuntime) -> Result<(), Fail> {
    let mut sets = filled(rt.alloc())?;
    let region = RegionNo::new(7);
    let mut flags = BoundedBits::new(rt.alloc(), 128)?;
    assert!(rt; flags.len() == 128);
    flags.set(127);
    assert!(rt; flags.len() == 128);
    sets.mark_cards(RegionNo::new(6), &mut flags);
    assert!(rt; flags.len() == 128);
    for card in 0..128 {
        assert_eq!(rt; flags.get(card), card == 127, "{card}");
    }
    sets.add(region, Card::new(50));
    sets.mark_cards(region, &mut flags);
    assert!(rt; flags.len() == 128);
    for card in 0..128 {
        assert_eq!(rt;
            flags.get(card),
            card % 3 == 0 && card < 48 || card == 50 || card == 127,
            "{card}"
        );
    }
    Ok(())
}

/// Of a region that is marked whole the cards that entered a set are flagged row by row: three, one, and one at the region's end.
#[test]
fn marks_rows(rt: HostRuntime) -> Result<(), Fail> {
    let mut sets = filled(rt.alloc())?;
    let region = RegionNo::new(7);
    sets.add(region, Card::new(48));
    sets.add(region, Card::new(49));
    sets.add(region, Card::new(50));
    sets.add(region, Card::new(52));
    sets.add(region, Card::new(63));
    let mut flags = BoundedBits::new(rt.alloc(), 128)?;
    assert!(rt; flags.len() == 128);
    sets.mark_cards(region, &mut flags);
    assert!(rt; flags.len() == 128);
    for card in 46..128 {
        let is_in = card < 51 && card > 47 || card == 52 || card == 63;
        assert_eq!(rt; flags.get(card), is_in, "{card}");
    }
    Ok(())
}

/// The same sets, where cards 50 and 60 of region 3 entered a set, and regions 0 to 2 were freed.
fn left_over(alloc: Global) -> Result<RememberedSets, AllocError>
    ensures { IfOk result (λ sets. (length sets.sets ≡ 8) × (sets.cards_per_region ≡ 16)) }
{
    let mut sets = filled(alloc)?;
    sets.add(RegionNo::new(7), Card::new(50));
    sets.add(RegionNo::new(6), Card::new(60));
    sets.clear(RegionNo::new(0));
    sets.clear(RegionNo::new(1));
    sets.clear(RegionNo::new(2));
    Ok(sets)
}

/// Of a region that two sets mark whole, each is led to by the cards that entered either. Once the region's own set is emptied, none of
/// them is, though the sets cover them still; what enters anew is.
#[test]
fn forgets_the_cards_of_a_freed_region(rt: HostRuntime) -> Result<(), Fail> {
    let mut sets = left_over(rt.alloc())?;
    let region = RegionNo::new(7);
    let mut flags = BoundedBits::new(rt.alloc(), 128)?;
    assert!(rt; flags.len() == 128);
    sets.mark_cards(region, &mut flags);
    assert!(rt; flags.len() == 128);
    for card in 0..128 {
        assert_eq!(rt; flags.get(card), card == 50 || card == 60, "{card}");
    }
    sets.clear(RegionNo::new(3));
    assert!(rt; sets.covers(region, Card::new(50)));
    flags.clear();
    assert!(rt; flags.len() == 128);
    sets.add(region, Card::new(51));
    sets.mark_cards(region, &mut flags);
    assert!(rt; flags.len() == 128);
    for card in 0..128 {
        assert_eq!(rt; flags.get(card), card == 51, "{card}");
    }
    Ok(())
}

/// Sets of 12 regions of 64 cards with filters of four rows and two, where the set of region 9 has sixteen cards: those from 0 to 15.
fn filtered(alloc: Global) -> Result<RememberedSets, AllocError>
    ensures { IfOk result (λ sets. (length sets.sets ≡ 12) × (sets.cards_per_region ≡ 64)) }
{
    let mut sets = RememberedSets::new(alloc, 12, 64, 2)?;
    for place in 0..16 {
        sets.add(RegionNo::new(9), Card::new(place));
    }
    Ok(sets)
}

/// Of a region that is marked whole a card that entered another set is held back, until a card with its places in the same two rows is
/// added: regions 2 and 10 have the same rows. A card that has one of its places alone stays held back, as 140 does: its place in the
/// second row is that of card 12. A cleared set lets nothing through.
#[test]
fn holds_cards_back(rt: HostRuntime) -> Result<(), Fail> {
    let mut sets = filtered(rt.alloc())?;
    let region = RegionNo::new(9);
    sets.add(region, Card::new(130));
    sets.add(RegionNo::new(8), Card::new(131));
    sets.add(RegionNo::new(8), Card::new(140));
    let mut flags = BoundedBits::new(rt.alloc(), 768)?;
    assert!(rt; flags.len() == 768);
    sets.mark_cards(region, &mut flags);
    assert!(rt; flags.len() == 768);
    for card in 0..768 {
        assert_eq!(rt; flags.get(card), card < 16 || card == 130, "{card}");
    }
    sets.add(region, Card::new(643));
    sets.mark_cards(region, &mut flags);
    assert!(rt; flags.len() == 768);
    for card in 0..768 {
        let is_in = card < 16 || card == 130 || card == 131 || card == 643;
        assert_eq!(rt; flags.get(card), is_in, "{card}");
    }
    assert!(rt; sets.covers(region, Card::new(140)));
    sets.clear(region);
    flags.clear();
    assert!(rt; flags.len() == 768);
    sets.add(region, Card::new(130));
    sets.mark_cards(region, &mut flags);
    assert!(rt; flags.len() == 768);
    for card in 0..768 {
        assert_eq!(rt; flags.get(card), card == 130, "{card}");
    }
    Ok(())
}
