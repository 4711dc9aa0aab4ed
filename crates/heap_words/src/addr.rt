//! Addresses, which count words from 0, and the numbers of regions and cards.

ghost use Rattle.std.specs.Prelude.{◌≡◌, ℕ};
ghost use Rattle.heap_words.specs.Sizes.{field_word};

use std::marker::Model;

/// The address of a word.
#[derive(Clone, Copy, Debug, PartialEq, Eq)]
pub struct Addr(u32);

impl Model for Addr {
    ghost Value = { ℕ };

    ghost view = { λ a. a.0 };

    ghost inverse = { λ n. record { 0 = n } };
}

impl Addr {
    /// The address of the word with this number.
    pub fn new(word: u32) -> Addr
        ensures { result ≡ word }
    {
        Addr(word)
    }

    /// The word's number.
    pub fn word(self) -> u32
        ensures { result ≡ self }
    {
        self.0
    }

    /// The number of the word that holds a field of the object at this address. Fields count from 0: pointers, weak slots, held slots.
    #[inline(always)]
    pub fn field(self, field: u32) -> usize
        ensures { result ≡ field_word self field }
    {
        self.0 as usize + 2 + field as usize
    }
}

/// A pointer: nil, or the address where its target starts.
pub type Ptr = Option<Addr>;

/// The number of a region. Region k holds the addresses from k times the words of a region on.
#[derive(Clone, Copy, Debug, PartialEq, Eq)]
pub struct RegionNo(u32);

impl Model for RegionNo {
    ghost Value = { ℕ };

    ghost view = { λ a. a.0 };

    ghost inverse = { λ n. record { 0 = n } };
}

impl RegionNo {
    /// The region with this number.
    pub fn new(number: u32) -> RegionNo
        ensures { result ≡ number }
    {
        RegionNo(number)
    }

    /// The region as a number.
    pub fn number(self) -> u32
        ensures { result ≡ self }
    {
        self.0
    }
}

/// The number of a card. Card c holds the addresses from c times the words of a card on.
#[derive(Clone, Copy, Debug, PartialEq, Eq)]
pub struct Card(u32);

impl Model for Card {
    ghost Value = { ℕ };

    ghost view = { λ a. a.0 };

    ghost inverse = { λ n. record { 0 = n } };
}

impl Card {
    /// The card with this number.
    pub fn new(number: u32) -> Card
        ensures { result ≡ number }
    {
        Card(number)
    }

    /// The card as a number.
    pub fn number(self) -> u32
        ensures { result ≡ self }
    {
        self.0
    }
}
