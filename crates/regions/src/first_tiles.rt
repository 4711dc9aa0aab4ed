//! The first tile of each card: an entry that leads to the tile that holds the card's first word.
//!
//! ```text
//!   cards      |0       |1       |2       |3       |4       |5       |
//!   tiles      |a   |b      |c |d   |e  |f, left of the buffer   |g ..
//!   entry       a        b        d        a        a        e
//! ```
//!
//! Each card that begins below its region's top has an entry: where a tile starts, at or below the card's first word, in the region where
//! the tile of that word starts. The tile of that word is found from there, tile by tile (`RegionTable::first_tile`).
//!
//! A new tile is the entry of each card that begins in it. An object that is cut off a filler's front takes no tile's start away: all
//! entries still lead to their tiles, so it has to write none. For speed alone one that crosses a card's border does. It becomes the entry
//! of the cards that begin in it, and what is left of the filler that of the filler's last card. In the picture that last card is 5: its
//! entry was written when d crossed into card 2, and e, which starts where d ends, crossed no border.
//!
//! So no size of a heap or of its regions makes a search longer. A card's first word is in an object, which then is its entry, or in what
//! is left of a buffer. Of what is left only the last card may hold words of an object too, and a search for it passes what came since its
//! entry was written: tiles that start in one card. So where an object has words in a card, the card's first tile and its objects are
//! found by a walk over the tiles of two cards at most. For a card that a filler covers, as cards 3 and 4, a search may pass all objects
//! of one buffer. Tables of this kind are known as block offset tables.
//!
//! There is room for an entry of each card, and those of the first cards are written. The others are 0 to who asks, and nothing of
//! them is touched until a tile comes there (`reach`): so a table that is made touches nothing, however many cards a heap has.

ghost use Rattle.std.specs.Prelude.{◌≡◌, ◌+◌, ◌*◌, ◌/◌, ◌<◌, ◌≤◌, ◌^◌, ◌⊎◌, if◌then◌else◌};
ghost use Rattle.std.specs.Prelude.{ℕ, IfOk, IsTrue, length, replicate, slice_index, vec_capacity, vec_len};
ghost use Rattle.std.specs.Int.{div_ceil, is_power_of_two};
ghost use Rattle.bit_sets.specs.Bits.{is_between};
ghost use Rattle.heap_words.specs.Memory.{memory};
ghost use Rattle.regions.specs.FirstTiles.{AreEntriesPut, IsCutOff, IsOwn, IsPut};
ghost use Rattle.heap_words.specs.Configs.{max_words};

use std::alloc::{AllocError, Global};
use std::marker::Model;

mod giving;

/// The entries of all cards. Addresses and sizes are words. A card has a power of two of words, so that a card is found by a
/// shift.
#[derive(Drop)]
pub(crate) struct FirstTiles {
    card_words: u32,
    shift: u32,
    /// The entries that are written. There is room for all.
    starts: Vec<u32>,
    /// How many cards there are.
    cards: u32,
}

impl Model for FirstTiles {
    ghost use Rattle.std.specs.Prelude.{◌≤◌, length, vec_capacity};
    ghost use Rattle.heap_words.specs.Memory.{Memory, memory};
    ghost use Rattle.regions.specs.FirstTiles.{Entries, IsPower};

    ghost Value = { Entries };

    ghost view = { λ f. record { card_words = f.card_words; starts = (memory f.starts.items f.cards).all } };

    ghost invariant = { λ f. IsPower f.card_words f.shift × (length f.starts.items ≤ f.cards) × (f.cards ≤ vec_capacity f.starts) };
}

/// So many entries are written, the new ones as 0, and up to 64 more of those that there are: so who goes up seldom comes here.
#[cold]
#[inline(never)]
fn write_zeros(entries: &mut Vec<u32>, past: u32, cards: u32)
    requires more { vec_len entries.old ≤ past }
    requires within { past ≤ cards }
    requires room { cards ≤ vec_capacity entries.old }
    ensures all { (memory entries.new.items cards).all ≡ (memory entries.old.items cards).all }
    ensures written { past ≤ vec_len entries.new }
    ensures within { vec_len entries.new ≤ cards }
    ensures room { cards ≤ vec_capacity entries.new }
{
    let end = past.saturating_add(64).min(cards);
    entries.resize(end as usize, 0).unwrap();
}

/// The entries of the first cards are written, of so many of those that there are: as 0 where they weren't.
#[inline(always)]
fn zero_below(entries: &mut Vec<u32>, past: u32, cards: u32)
    requires short { vec_len entries.old ≤ cards }
    requires within { past ≤ cards }
    requires room { cards ≤ vec_capacity entries.old }
    ensures all { (memory entries.new.items cards).all ≡ (memory entries.old.items cards).all }
    ensures written { past ≤ vec_len entries.new }
    ensures within { vec_len entries.new ≤ cards }
    ensures room { cards ≤ vec_capacity entries.new }
{
    if entries.len() < past as usize {
        write_zeros(entries, past, cards);
    }
}

/// A card's entry, 0 where it isn't written.
fn entry_at(entries: &[u32], card: u32) -> u32
    ensures { result ≡ slice_index entries.now card }
{
    let place = card as usize;
    if place < entries.len() {
        entries[place]
    } else {
        0
    }
}

/// The first card that begins at a word or after it, where a card has 2 to the `shift`th words.
#[inline(always)]
fn card_from(shift: u32, word: u32) -> u32
    requires narrow { shift < 12 }
    requires small { word ≤ max_words }
    ensures { result ≡ div_ceil word (2 ^ shift) }
{
    (word + ((1 << shift) - 1)) >> shift
}

/// So many cards are written at once where many have the same entry.
const BLOCK: usize = 64;

/// The cards of a block from one on have this entry: as the block's size is known, that takes no loop.
#[inline(always)]
fn fill_block(entries: &mut [u32], from: usize, entry: u32)
    requires { from + 64 ≤ length entries.old }
    ensures len { length entries.new ≡ length entries.old }
    ensures entries { (c : ℕ) → slice_index entries.new c ≡ (if is_between from (from + 64) c then entry else slice_index entries.old c) }
{
    entries[from..from + BLOCK].fill(entry);
}

/// The cards from one on up to another, which is not one of them, have this entry.
#[cold]
#[inline(never)]
fn fill_more(entries: &mut [u32], from: u32, to: u32, entry: u32)
    requires { to ≤ length entries.old }
    ensures len { length entries.new ≡ length entries.old }
    ensures entries { (c : ℕ) → slice_index entries.new c ≡ (if is_between from to c then entry else slice_index entries.old c) }
{
    let end = to as usize;
    let past = end.saturating_sub(BLOCK - 1);
    let mut next = from as usize;
    'full: while next < past {
        fill_block(entries, next, entry);
        next += BLOCK;
    }
    for card in next..end {
        entries[card] = entry;
    }
}

/// The same. Mostly there is one card or none, which takes no loop.
#[inline(always)]
fn fill_cards(entries: &mut [u32], from: u32, to: u32, entry: u32)
    requires { to ≤ length entries.old }
    ensures len { length entries.new ≡ length entries.old }
    ensures entries { (c : ℕ) → slice_index entries.new c ≡ (if is_between from to c then entry else slice_index entries.old c) }
{
    if from >= to {
        return;
    }
    entries[from as usize] = entry;
    if from + 1 < to {
        fill_more(entries, from, to, entry);
    }
}

/// Each card that begins in the words from `at` up to `end` has `at` as its entry.
#[inline(always)]
fn write_tile(entries: &mut [u32], shift: u32, at: u32, end: u32)
    requires narrow { shift < 12 }
    requires order { at ≤ end }
    requires small { end ≤ max_words }
    requires within { end ≤ length entries.old * 2 ^ shift }
    ensures len { length entries.new ≡ length entries.old }
    ensures entries { (c : ℕ) → IsPut at end (c * 2 ^ shift) (slice_index entries.old c) (slice_index entries.new c) }
{
    fill_cards(entries, card_from(shift, at), card_from(shift, end), at);
}

/// The last card that begins in the words from `at` up to `end`, if one does, has `at` as its entry.
#[inline(always)]
fn write_rest(entries: &mut [u32], shift: u32, at: u32, end: u32)
    requires narrow { shift < 12 }
    requires order { at ≤ end }
    requires small { end ≤ max_words }
    requires within { end ≤ length entries.old * 2 ^ shift }
    ensures len { length entries.new ≡ length entries.old }
    ensures entries { (c : ℕ) → (slice_index entries.new c ≡ slice_index entries.old c)
        ⊎ IsOwn at end (c * 2 ^ shift) (slice_index entries.new c) }
    ensures last { (c : ℕ) → at ≤ c * 2 ^ shift → c * 2 ^ shift < end → end ≤ c * 2 ^ shift + 2 ^ shift
        → slice_index entries.new c ≡ at }
{
    let past = card_from(shift, end);
    if card_from(shift, at) < past {
        entries[past as usize - 1] = at;
    }
}

/// The words from `at` up to `middle` become an object, and those behind it, up to `end`, are what is left of a filler.
#[inline(always)]
fn write_cut(entries: &mut [u32], shift: u32, at: u32, middle: u32, end: u32)
    requires narrow { shift < 12 }
    requires order { at ≤ middle }
    requires rest { middle ≤ end }
    requires small { end ≤ max_words }
    requires within { end ≤ length entries.old * 2 ^ shift }
    ensures len { length entries.new ≡ length entries.old }
    ensures entries { (c : ℕ) → IsCutOff (2 ^ shift) at middle end (c * 2 ^ shift) (slice_index entries.old c)
        (slice_index entries.new c) }
{
    write_tile(entries, shift, at, middle);
    write_rest(entries, shift, middle, end);
}

impl FirstTiles {
    /// An entry for each card of so many words.
    pub(crate) fn new(alloc: Global, words: u32, card_words: u32) -> Result<FirstTiles, AllocError>
        requires power { IsTrue (is_power_of_two card_words) }
        requires small { card_words < 2 ^ 12 }
        ensures { IfOk result (λ f. f ≡ record { card_words = card_words; starts = replicate (words / card_words) 0 }) }
    {
        let cards = words / card_words;
        let shift = card_words.ilog2();
        Ok(FirstTiles {
            card_words,
            shift,
            starts: Vec::with_capacity(alloc, cards as usize)?,
            cards,
        })
    }

    /// The card of a word.
    pub(crate) fn card_of(&self, word: u32) -> u32
        ensures card { result ≡ word / self.now.card_words }
        ensures positive { 0 < self.now.card_words }
    {
        word >> self.shift
    }

    /// A tile stands at an address: it is the entry of the cards that begin in it.
    pub(crate) fn put_tile(&mut self, at: u32, size: u32)
        requires within { at + size ≤ length self.old.starts * self.old.card_words }
        requires small { at + size ≤ max_words }
        ensures { AreEntriesPut (IsPut at (at + size)) self.old self.new }
    {
        let shift = self.shift;
        zero_below(&mut self.starts, card_from(shift, at + size), self.cards);
        write_tile(&mut self.starts, shift, at, at + size);
    }

    /// An object takes the front of a filler of `filler` words. Where no card begins in it nothing is written: then its last word is in one
    /// card with the word before the object, and the two differ in no bit above those of a card's words.
    #[inline(always)]
    pub(crate) fn cut_front(&mut self, at: u32, size: u32, filler: u32)
        requires room { size ≤ filler }
        requires within { at + filler ≤ length self.old.starts * self.old.card_words }
        requires small { at + filler ≤ max_words }
        ensures { AreEntriesPut (IsCutOff self.old.card_words at (at + size) (at + filler)) self.old self.new }
    {
        let middle = at + size;
        if (at.wrapping_sub(1) ^ middle.wrapping_sub(1)) >= self.card_words {
            let end = at + filler;
            zero_below(&mut self.starts, card_from(self.shift, end), self.cards);
            write_cut(&mut self.starts, self.shift, at, middle, end);
        }
    }

    /// A card's entry: where a tile starts from which the tile of the card's first word is found.
    pub(crate) fn start(&self, card: u32) -> u32
        ensures { result ≡ slice_index self.now.starts card }
    {
        entry_at(&self.starts, card)
    }
}
