//! The roots that wait.
//!
//! In the third format `begin` doesn't mark what the roots name: it copies their addresses, and marking takes these by and by. So it needs
//! no barrier for roots: what was there at `begin` isn't moved while marking runs, and what a root takes later was reachable or is new.
//!
//! ```text
//!   roots at begin   | 40 . 16 . 40 |      copy    | 40 16 40 . . |     room for all roots
//!   the roots later  | 96 . 16 8 . |       pop     | 40 16 . . . |      the last one is marked, and then its object is grey
//! ```
//!
//! There is room for all roots from the beginning: no call but the making takes memory.

ghost use Rattle.std.specs.Prelude.{◌≡◌, ◌<◌, ◌≤◌, ◌↔◌, [], IsTrue, None, IfOk, IfSome, length};
ghost use Rattle.marker.specs.Roots.{AreHeldBy};
ghost use Rattle.marker.specs.Waiting.{none_waiting, with_root};

use heap_words::addr::{Addr, Ptr};
use root_table::Roots;
use std::alloc::{AllocError, Global};
use std::marker::Model;

/// Addresses that roots held when marking began. Clauses see the list of them, and for how many there is room.
pub struct WaitingRoots {
    addresses: Vec<u32>,
}

impl Model for WaitingRoots {
    ghost use Rattle.std.specs.Vec.{vec_capacity};
    ghost use Rattle.marker.specs.Waiting.{Waiting};

    ghost Value = { Waiting };

    ghost view = { λ w. record { addresses = w.addresses.items; room = vec_capacity w.addresses } };
}

/// Where it is let go there is one call, and not a drop for each of its parts.
impl Drop for WaitingRoots {
    fn drop(self) {
        let WaitingRoots { addresses: _ } = self;
    }
}

impl WaitingRoots {
    /// None waits, and there is room for so many.
    pub(crate) fn new(alloc: Global, room: usize) -> Result<WaitingRoots, AllocError>
        ensures { IfOk result (λ w. w ≡ none_waiting room) }
    {
        Ok(WaitingRoots {
            addresses: Vec::with_capacity(alloc, room)?,
        })
    }

    /// How many wait.
    pub(crate) fn len(&self) -> usize
        ensures { result ≡ length self.now.addresses }
    {
        self.addresses.len()
    }

    /// Whether none waits.
    pub fn is_empty(&self) -> bool
        ensures { IsTrue result ↔ self.now.addresses ≡ [] }
    {
        self.addresses.is_empty()
    }

    /// Takes the last one, if there is one.
    #[inline(always)]
    pub(crate) fn pop(&mut self) -> Option<Addr>
        ensures none { result ≡ None → (self.old.addresses ≡ []) × (self.new ≡ self.old) }
        ensures last { IfSome result (λ a. self.old ≡ with_root self.new a) }
    {
        let word = self.addresses.pop()?;
        Some(Addr::new(word))
    }

    /// What a root names waits, unless the root is nil.
    #[inline(always)]
    fn push(&mut self, value: Ptr)
        requires { length self.old.addresses < self.old.room }
        ensures nil { value ≡ None → self.new ≡ self.old }
        ensures named { IfSome value (λ a. self.new ≡ with_root self.old a) }
    {
        let Some(at) = value else {
            return;
        };
        self.addresses.push_reserved(at.word());
    }

    /// What the roots name waits. It costs the roots in use.
    pub(crate) fn copy(&mut self, roots: &Roots)
        requires none { self.old.addresses ≡ [] }
        requires room { length roots.now.words ≤ self.old.room }
        ensures held { AreHeldBy roots.now.words (length roots.now.words) self.new.addresses }
        ensures room { self.new.room ≡ self.old.room }
    {
        let mut from = 0;
        while let Some(place) = roots.next_named(from) {
            self.push(roots.get(place));
            from = place + 1;
        }
    }
}
