//! What a root place holds.

ghost use Rattle.std.specs.Prelude.{◌≡◌, ◌≢◌, false, true, None, Some};

use heap_words::addr::{Addr, Ptr};
use std::marker::Model;

/// Nil, or the address of an object, in two numbers: so a copy is one load and one store of 64 bits, where a `Ptr` is copied in two.
///
/// ```text
///   nil           | 0 | 0  |
///   address 40    | 1 | 40 |
/// ```
#[derive(Clone, Copy)]
pub(crate) struct Held {
    named: u32,
    word: u32,
}

impl Model for Held {
    ghost use Rattle.std.specs.Prelude.{◌≡◌, ◌⊎◌, ℕ, Option};
    ghost use Rattle.root_table.specs.Numbers.{root_of, named_of, word_of, parts_of};

    ghost Value = { Option ℕ };

    ghost view = { λ h. root_of h.named h.word };

    ghost invariant = { λ h. ((h.named ≡ 0) ⊎ (h.named ≡ 1)) × (h.named ≡ 0 → h.word ≡ 0) };

    ghost inverse = { λ o. record { named = named_of o; word = word_of o } };

    ghost inverse_ok = { λ a h. rw (parts_of a.named a.word h.0 h.1).0 (rw (parts_of a.named a.word h.0 h.1).1 (λ i. a)) };
}

impl Held {
    /// Nil.
    #[inline(always)]
    pub(crate) fn nil() -> Held
        ensures { result ≡ None }
    {
        Held { named: 0, word: 0 }
    }

    /// Nil, or an address.
    #[inline(always)]
    pub(crate) fn of(value: Ptr) -> Held
        ensures { result ≡ value }
    {
        match value {
            None => Held::nil(),
            Some(at) => Held {
                named: 1,
                word: at.word(),
            },
        }
    }

    /// Whether it is an address.
    #[inline(always)]
    pub(crate) fn is(&self, at: Addr) -> bool
        ensures yes { result ≡ true → self.now ≡ Some at }
        ensures no { result ≡ false → self.now ≢ Some at }
    {
        if self.word != at.word() {
            return false;
        }
        self.named != 0
    }

    /// The same as a pointer.
    #[inline(always)]
    pub(crate) fn get(self) -> Ptr
        ensures { result ≡ self }
    {
        if self.named == 0 {
            return None;
        }
        Some(Addr::new(self.word))
    }
}
