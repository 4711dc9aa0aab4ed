//! Marks, their roles, tops at mark start, and what is grey.

ghost use Rattle.std.specs.Prelude.{◌≡◌, ◌<◌, length};
ghost use Rattle.mark_bitmap.specs.Grey.{HasFingers};

use heap_words::addr::{Addr, RegionNo};
use mark_bitmap::bitmaps::Bitmaps;
use mark_bitmap::finger_set::Fingers;
use mark_bitmap::grey::Grey;
use mark_bitmap::marks::{Marks, count_marked};
use mark_bitmap::summary::Summary;
use mark_bitmap::tams::Tams;
use std::process::Abort;
use std::test::Fail;

/// Marks an address, if it is one of the set's.
fn mark_one(marks: &mut Marks, at: u32) {
    if at < marks.len() {
        marks.set(Addr::new(at));
    }
}

/// Clears a range, if it is one of the set's.
fn clear_some(marks: &mut Marks, from: u32, to: u32) {
    if to <= marks.len() {
        marks.clear_range(Addr::new(from), Addr::new(to));
    }
}

fn is_marked(marks: &Marks, at: u32) -> bool {
    at < marks.len() && marks.get(Addr::new(at))
}

/// Whether the lowest mark from an address on is that, and none is between.
fn goes_on(marks: &Marks, from: u32, next: u32) -> bool {
    marks.next(Addr::new(from)) == Some(Addr::new(next))
        && marks.bits().next_below(from, next).is_none()
}

/// Whether the lowest address that is marked in one set alone is this.
fn is_lowest_alone(marks: &Marks, other: &Marks, at: u32) -> bool {
    if marks.len() != other.len() || at >= marks.len() {
        return false;
    }
    let (bits, others) = (marks.bits(), other.bits());
    bits.next_without(others, 0, 200) == Some(at)
        && bits.lowest_without(others, at / 64) == Some(at)
}

/// Each call once: three addresses are marked, found in the set and beside another one, counted, and cleared.
#[test]
fn holds_addresses(rt: HostRuntime) -> Result<(), Fail> {
    let mut marks = Marks::new(rt.alloc(), 200)?;
    let mut other = Marks::new(rt.alloc(), 200)?;
    mark_one(&mut marks, 199);
    mark_one(&mut marks, 64);
    mark_one(&mut marks, 63);
    mark_one(&mut other, 63);
    assert!(rt; is_marked(&marks, 64) && !is_marked(&marks, 65));
    assert!(rt; count_marked(&marks) == 3);
    assert!(rt; goes_on(&marks, 0, 63) && goes_on(&marks, 65, 199));
    assert!(rt; is_lowest_alone(&marks, &other, 64));
    clear_some(&mut marks, 60, 64);
    assert!(rt; goes_on(&marks, 0, 64));
    marks.clear();
    assert!(rt; count_marked(&marks) == 0);
    Ok(())
}

fn begins_with(marks: &Marks, at: u32) -> bool {
    marks.next(Addr::new(0)) == Some(Addr::new(at))
}

/// What was marked as next is previous after the exchange, and the other way round.
#[test]
fn exchanges_roles(rt: HostRuntime) -> Result<(), Fail> {
    let mut both = Bitmaps::new(rt.alloc(), 128)?;
    mark_one(&mut both.next, 5);
    mark_one(&mut both.previous, 70);
    both.swap_roles();
    assert!(rt; begins_with(&both.previous, 5) && begins_with(&both.next, 70));
    Ok(())
}

/// Three regions of 16 words over a cycle: at first nothing is below a top; then region 1 has its next top at
/// 20, which becomes the previous one, and is released.
#[test]
fn lives_over_a_cycle(rt: HostRuntime) -> Result<(), Fail> {
    let mut tops = Tams::new(rt.alloc(), 3, 16)?;
    let region = RegionNo::new(1);
    for at in [0, 15, 16, 47, 48, 4_000_000_000] {
        assert!(rt;
            !tops.is_below_previous(16, Addr::new(at)) && !tops.is_below_next(16, Addr::new(at))
        );
    }
    tops.set_next(region, Addr::new(20));
    assert!(rt; tops.next(region) == Addr::new(20) && tops.previous(region) == Addr::new(16));
    assert!(rt; tops.is_below_next(16, Addr::new(19)) && !tops.is_below_next(16, Addr::new(20)));
    assert!(rt;
        !tops.is_below_next(16, Addr::new(35)) && !tops.is_below_previous(16, Addr::new(19))
    );
    tops.swap_roles();
    assert!(rt;
        tops.is_below_previous(16, Addr::new(16)) && !tops.is_below_next(16, Addr::new(16))
    );
    tops.reset(region, Addr::new(16));
    assert!(rt; tops.next(region) == Addr::new(16) && tops.previous(region) == Addr::new(16));
    Ok(())
}

/// An object that was neither marked nor scanned is marked, and so it is grey.
fn mark(rt: &impl Abort, marks: &mut Marks, grey: &mut Grey, at: u32)
    requires known { at < length marks.old }
    requires even { length marks.old ≡ length grey.old.scanned }
    requires fingers { HasFingers marks.old grey.old }
    ensures marks { length marks.new ≡ length marks.old }
    ensures scanned { length grey.new.scanned ≡ length grey.old.scanned }
    ensures fingers { HasFingers marks.new grey.new }
{
    let object = Addr::new(at);
    assert!(rt; !marks.get(object) && !grey.is_scanned(object));
    marks.set(object);
    grey.add(object);
}

/// The grey object that comes next is this one, and it is scanned.
fn scan(rt: &impl Abort, marks: &Marks, grey: &mut Grey, at: u32)
    requires known { at < length grey.old.scanned }
    requires even { length marks.now ≡ length grey.old.scanned }
    requires fingers { HasFingers marks.now grey.old }
    ensures scanned { length grey.new.scanned ≡ length grey.old.scanned }
    ensures fingers { HasFingers marks.now grey.new }
{
    let object = Addr::new(at);
    assert_eq!(rt; grey.any(marks), Some(object));
    grey.remove(marks, object);
    assert!(rt; grey.is_scanned(object));
}

/// Grey objects come by rising address; one that is marked below another one comes next all the same.
#[test]
#[tactic(auto, unfolding(mark_bitmap::specs::Grey::nothing_scanned))]
fn finds_what_is_below(rt: HostRuntime) -> Result<(), Fail> {
    let mut marks = Marks::new(rt.alloc(), 200)?;
    let mut grey = Grey::new(rt.alloc(), 200, true)?;
    mark(&rt, &mut marks, &mut grey, 199);
    mark(&rt, &mut marks, &mut grey, 64);
    scan(&rt, &marks, &mut grey, 64);
    mark(&rt, &mut marks, &mut grey, 3);
    scan(&rt, &marks, &mut grey, 3);
    scan(&rt, &marks, &mut grey, 199);
    assert_eq!(rt; grey.any(&marks), None);
    grey.clear();
    assert!(rt; !grey.is_scanned(Addr::new(64)));
    Ok(())
}

/// By the stack the one that was found last comes next, and then those that were found before it.
#[test]
#[tactic(auto, unfolding(mark_bitmap::specs::Grey::nothing_scanned))]
fn comes_back_to_what_was_found_before(rt: HostRuntime) -> Result<(), Fail> {
    let mut marks = Marks::new(rt.alloc(), 200)?;
    let mut grey = Grey::new(rt.alloc(), 200, false)?;
    mark(&rt, &mut marks, &mut grey, 3);
    mark(&rt, &mut marks, &mut grey, 199);
    mark(&rt, &mut marks, &mut grey, 64);
    scan(&rt, &marks, &mut grey, 64);
    mark(&rt, &mut marks, &mut grey, 5);
    scan(&rt, &marks, &mut grey, 5);
    scan(&rt, &marks, &mut grey, 199);
    scan(&rt, &marks, &mut grey, 3);
    assert_eq!(rt; grey.any(&marks), None);
    Ok(())
}

/// So many words of the object that comes next are looked at, if there is one: it is scanned in part then.
fn look(marks: &Marks, grey: &mut Grey, words: u32)
    requires even { length marks.now ≡ length grey.old.scanned }
    requires fingers { HasFingers marks.now grey.old }
    ensures scanned { length grey.new.scanned ≡ length grey.old.scanned }
    ensures fingers { HasFingers marks.now grey.new }
{
    let Some(_) = grey.any(marks) else {
        return;
    };
    if words != 0 {
        grey.look(words);
    }
}

/// An object that is scanned in part comes next until it is scanned, and what was found meanwhile comes after it, the last one first.
#[test]
#[tactic(auto, unfolding(mark_bitmap::specs::Grey::nothing_scanned))]
fn comes_back_to_what_is_scanned_in_part(rt: HostRuntime) -> Result<(), Fail> {
    let mut marks = Marks::new(rt.alloc(), 200)?;
    let mut grey = Grey::new(rt.alloc(), 200, false)?;
    mark(&rt, &mut marks, &mut grey, 90);
    look(&marks, &mut grey, 2);
    mark(&rt, &mut marks, &mut grey, 5);
    mark(&rt, &mut marks, &mut grey, 150);
    look(&marks, &mut grey, 3);
    assert_eq!(rt; grey.looked(), 3);
    scan(&rt, &marks, &mut grey, 90);
    assert_eq!(rt; grey.looked(), 0);
    scan(&rt, &marks, &mut grey, 150);
    scan(&rt, &marks, &mut grey, 5);
    assert_eq!(rt; grey.any(&marks), None);
    Ok(())
}

/// Where the stack is full the lower of two objects is held, and the other comes by its finger, after the stack.
#[test]
#[tactic(auto, unfolding(mark_bitmap::specs::Grey::nothing_scanned))]
fn fills_the_stack(rt: HostRuntime) -> Result<(), Fail> {
    let mut marks = Marks::new(rt.alloc(), 200)?;
    let mut grey = Grey::new(rt.alloc(), 200, false)?;
    for at in 0..70 {
        mark(&rt, &mut marks, &mut grey, at);
    }
    for from_last in 0..65 {
        scan(&rt, &marks, &mut grey, 64 - from_last);
    }
    for at in 65..70 {
        scan(&rt, &marks, &mut grey, at);
    }
    assert_eq!(rt; grey.any(&marks), None);
    Ok(())
}

/// Takes the lowest member again and again: whether they are these, and no others.
fn gives(set: &mut Summary, members: &[u32]) -> bool {
    for member in members {
        let Some(found) = set.lowest() else {
            return false;
        };
        if found != *member {
            return false;
        }
        set.remove(found);
    }
    set.lowest().is_none()
}

fn join(set: &mut Summary, count: u32, number: u32)
    requires { length set.old ≡ count }
    ensures { length set.new ≡ count }
{
    if number < count {
        set.set(number);
    }
}

/// A lower member comes first, and once it is gone the next one, in another group or block.
#[test]
fn finds_the_lowest_member(rt: HostRuntime) -> Result<(), Fail> {
    let mut set = Summary::new(rt.alloc(), 10_000)?;
    join(&mut set, 10_000, 4_096);
    join(&mut set, 10_000, 63);
    assert!(rt; gives(&mut set, &[63, 4_096]));
    Ok(())
}

/// The numbers at the borders of groups and blocks, after the set was cleared.
#[test]
fn finds_members_at_borders(rt: HostRuntime) -> Result<(), Fail> {
    let mut set = Summary::new(rt.alloc(), 10_000)?;
    join(&mut set, 10_000, 1_000);
    set.clear();
    join(&mut set, 10_000, 9_999);
    join(&mut set, 10_000, 4_096);
    join(&mut set, 10_000, 4_095);
    join(&mut set, 10_000, 64);
    join(&mut set, 10_000, 63);
    join(&mut set, 10_000, 0);
    assert!(rt; gives(&mut set, &[0, 63, 64, 4_095, 4_096, 9_999]));
    Ok(())
}

/// Sets a finger, if it is one of so many.
fn raise(fingers: &mut Fingers, count: u32, finger: u32)
    requires { length fingers.old ≡ count }
    ensures { length fingers.new ≡ count }
{
    if finger < count {
        fingers.set(finger);
    }
}

/// A finger falls, if it is one of so many.
fn lower(fingers: &mut Fingers, count: u32, finger: u32)
    requires { length fingers.old ≡ count }
    ensures { length fingers.new ≡ count }
{
    if finger < count {
        fingers.remove(finger);
    }
}

fn lowest_is(fingers: &Fingers, finger: u32) -> bool {
    !fingers.is_empty() && fingers.lowest() == Some(finger)
}

fn has_none(fingers: &Fingers) -> bool {
    fingers.is_empty() && fingers.lowest().is_none()
}

/// Fingers are set, one twice, and fall, one twice; the lowest is found, and none where none is set.
#[test]
fn finds_the_lowest_finger(rt: HostRuntime) -> Result<(), Fail> {
    let mut fingers = Fingers::new(rt.alloc(), 10_000)?;
    assert!(rt; has_none(&fingers));
    raise(&mut fingers, 10_000, 70);
    raise(&mut fingers, 10_000, 9_000);
    raise(&mut fingers, 10_000, 3);
    raise(&mut fingers, 10_000, 70);
    assert!(rt; lowest_is(&fingers, 3));
    lower(&mut fingers, 10_000, 70);
    lower(&mut fingers, 10_000, 70);
    lower(&mut fingers, 10_000, 3);
    assert!(rt; lowest_is(&fingers, 9_000));
    fingers.clear();
    assert!(rt; has_none(&fingers));
    Ok(())
}
