//! Where roots are, and which are found.

use heap_words::addr::{Addr, Ptr};
use root_table::{RootCounts, Roots};
use std::process::Abort;
use std::test::Fail;

fn at(word: u32) -> Ptr {
    Some(Addr::new(word))
}

/// The places that `next_named` leads to, from the first on.
fn assert_named(rt: &impl Abort, roots: &Roots, expected: &[usize]) {
    let mut from = 0;
    for place in expected {
        assert_eq!(rt; roots.next_named(from), Some(*place));
        from = place.saturating_add(1);
    }
    assert_eq!(rt; roots.next_named(from), None);
}

/// Globals come first, and then each mutator's registers.
#[test]
fn places_roots(rt: HostRuntime) {
    let places = RootCounts::new(2, 2, 3);
    assert!(rt; places.globals() == 2 && places.mutators() == 2 && places.registers() == 3);
    assert_eq!(rt; places.count(), 8);
    assert_eq!(rt; places.register(0, 0), 2);
    assert_eq!(rt; places.register(1, 0), 5);
    assert_eq!(rt; places.register(1, 2), 7);
}

/// What isn't nil is found in order, in whichever row it is; a frame that is left takes its registers with it, and no other's.
#[test]
fn finds_what_is_named(rt: HostRuntime) -> Result<(), Fail> {
    let places = RootCounts::new(2, 2, 3);
    let mut roots = Roots::new(rt.alloc(), places)?;
    assert_named(&rt, &roots, &[]);
    roots.set_global(1, at(16));
    roots.set_register(0, 2, at(24));
    roots.set_register(1, 0, at(32));
    roots.set_register(1, 2, at(40));
    assert_named(&rt, &roots, &[1, 4, 5, 7]);
    assert_eq!(rt; roots.len(), 8);
    roots.leave(1, 1);
    assert_named(&rt, &roots, &[1, 4, 5]);
    roots.leave(0, 0);
    assert_named(&rt, &roots, &[1, 5]);
    Ok(())
}
