//! Sets of numbers that know their lowest and their highest member.

use bit_sets::bits::Bits;
use bit_sets::bounded::BoundedBits;
use std::test::Fail;

/// Whether the set has these numbers, in this order, and no other ones.
fn are(bits: &BoundedBits, members: &[u32]) -> bool {
    bits.law();
    let mut start = 0;
    for member in members {
        let Some(found) = bits.next(start) else {
            return false;
        };
        if found != *member || !bits.get(found) {
            return false;
        }
        start = found + 1;
    }
    bits.next(start).is_none()
}

/// Members come, go as a range and are cleared; what comes afterwards is alone.
#[test]
fn holds_numbers(rt: HostRuntime) -> Result<(), Fail> {
    let mut bits = BoundedBits::new(rt.alloc(), 1000)?;
    assert!(rt; bits.len() == 1000 && are(&bits, &[]));
    bits.set(700);
    assert!(rt; bits.len() == 1000);
    bits.set(3);
    assert!(rt; bits.len() == 1000 && are(&bits, &[3, 700]));
    bits.set_range(998, 1000);
    assert!(rt; bits.len() == 1000);
    bits.clear_range(0, 64);
    assert!(rt; bits.len() == 1000 && are(&bits, &[700, 998, 999]));
    bits.clear();
    assert!(rt; bits.len() == 1000 && are(&bits, &[]));
    bits.set(64);
    assert!(rt; are(&bits, &[64]));
    Ok(())
}

/// The members of a range of another set come, and what was there stays.
#[test]
fn takes_members(rt: HostRuntime) -> Result<(), Fail> {
    let mut bits = BoundedBits::new(rt.alloc(), 200)?;
    let mut members = Bits::new(rt.alloc(), 200)?;
    assert!(rt; bits.len() == 200 && members.len() == 200);
    members.set_range(60, 70);
    assert!(rt; members.len() == 200);
    members.set(130);
    assert!(rt; members.len() == 200);
    bits.set(5);
    assert!(rt; bits.len() == 200);
    bits.set_members(&members, 0, 60);
    assert!(rt; bits.len() == 200 && are(&bits, &[5]));
    bits.set_members(&members, 62, 66);
    assert!(rt; bits.len() == 200 && are(&bits, &[5, 62, 63, 64, 65]));
    bits.set_members(&members, 69, 131);
    assert!(rt; are(&bits, &[5, 62, 63, 64, 65, 69, 130]));
    Ok(())
}
