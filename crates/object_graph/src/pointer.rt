//! Pointers as words.

ghost use Rattle.std.specs.Prelude.{◌≡◌, ◌<◌, ◌-◌, ◌^◌, Some, None};
ghost use Rattle.object_graph.specs.Fields.{pointer_of};

use std::marker::Model;

/// A pointer in one word: nil, or an object's name.
#[derive(Clone, Copy)]
pub(crate) struct Pointer {
    word: u64,
}

impl Model for Pointer {
    ghost use Rattle.std.specs.Prelude.{ℕ, Option};
    ghost use Rattle.object_graph.specs.Fields.{pointer_of, word_of, word_of-pointer_of};

    ghost Value = { Option ℕ };

    ghost view = { λ p. pointer_of p.word };

    ghost inverse = { λ o. record { word = word_of o } };

    ghost inverse_ok = { λ a h. rw word_of-pointer_of (λ i. a) };
}

impl Pointer {
    /// The pointer that is nil.
    pub(crate) fn nil() -> Pointer
        ensures { result ≡ None }
    {
        Pointer { word: 0 }
    }

    /// The pointer to the object of a name.
    pub(crate) fn to(name: u64) -> Pointer
        requires { name < 2 ^ 64 - 1 }
        ensures { result ≡ Some name }
    {
        Pointer { word: name + 1 }
    }

    /// The pointer whose word this is.
    pub(crate) fn of_word(word: u64) -> Pointer
        ensures { result ≡ pointer_of word }
    {
        Pointer { word }
    }

    /// The pointer's word.
    pub(crate) fn word(self) -> u64
        ensures { pointer_of result ≡ self }
    {
        self.word
    }

    /// The name, if it isn't nil.
    pub(crate) fn name(self) -> Option<u64>
        ensures { result ≡ self }
    {
        if self.word == 0 {
            None
        } else {
            Some(self.word - 1)
        }
    }
}
