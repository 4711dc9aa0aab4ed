//! A flag for each card, of which the first are written.
//!
//! ```text
//!   card     0  1  2  3  4  5 ..
//!   flag     .  *  *  .  not written: none of these cards is flagged, and nothing is touched
//! ```
//!
//! There is room for all. Where a card is flagged above those that are written, clear flags are written up to it, and a few more
//! (`reach`). So flags that are made touch nothing, however many cards a heap has.

ghost use Rattle.std.specs.Prelude.{◌≡◌, ◌<◌, ◌≤◌, false, true, IfOk, length, replicate, slice_index_or, slice_set, vec_capacity, vec_len};
ghost use Rattle.cards.specs.Flags.{flags_of, AreClearFrom};

use heap_words::room::give_back;
use std::alloc::{AllocError, Global};
use std::marker::Model;

/// The flags of all cards. Clauses see each.
#[derive(Drop)]
pub(crate) struct Flags {
    /// The flags that are written. There is room for all.
    items: Vec<bool>,
    /// How many cards there are.
    count: u32,
}

impl Model for Flags {
    ghost use Rattle.std.specs.Prelude.{List, Bool, ◌≤◌, length, vec_capacity};
    ghost use Rattle.cards.specs.Flags.{flags_of};

    ghost Value = { List Bool };

    ghost view = { λ s. flags_of s.items.items s.count };

    ghost invariant = { λ s. (length s.items.items ≤ s.count) × (s.count ≤ vec_capacity s.items) };
}

/// So many flags are written, the new ones clear, and up to 64 more of those that there are: so who goes up seldom comes here.
#[cold]
#[inline(never)]
fn write_clear(items: &mut Vec<bool>, past: u32, count: u32)
    requires more { vec_len items.old ≤ past }
    requires within { past ≤ count }
    requires room { count ≤ vec_capacity items.old }
    ensures all { flags_of items.new.items count ≡ flags_of items.old.items count }
    ensures written { past ≤ vec_len items.new }
    ensures within { vec_len items.new ≤ count }
    ensures room { count ≤ vec_capacity items.new }
{
    let end = past.saturating_add(64).min(count);
    items.resize(end as usize, false).unwrap();
}

/// So many flags are written, clear where they weren't.
#[inline(always)]
fn clear_below(items: &mut Vec<bool>, past: u32, count: u32)
    requires short { vec_len items.old ≤ count }
    requires within { past ≤ count }
    requires room { count ≤ vec_capacity items.old }
    ensures all { flags_of items.new.items count ≡ flags_of items.old.items count }
    ensures written { past ≤ vec_len items.new }
    ensures within { vec_len items.new ≤ count }
    ensures room { count ≤ vec_capacity items.new }
{
    if items.len() < past as usize {
        write_clear(items, past, count);
    }
}

/// The number after that of the last flag that is set, 0 where none is.
fn set_end(items: &[bool]) -> usize
    ensures clear { AreClearFrom result items.now }
    ensures within { result ≤ length items.now }
{
    let mut end = 0;
    for i in 0..items.len() {
        if items[i] {
            end = i + 1;
        }
    }
    end
}

impl Flags {
    /// No card is flagged of so many.
    pub(crate) fn new(alloc: Global, count: u32) -> Result<Flags, AllocError>
        ensures { IfOk result (λ flags. flags ≡ replicate count false) }
    {
        Ok(Flags {
            items: Vec::with_capacity(alloc, count as usize)?,
            count,
        })
    }

    /// How many cards there are.
    pub(crate) fn len(&self) -> usize
        ensures { result ≡ length self.now }
    {
        self.count as usize
    }

    /// Whether a card is flagged.
    #[inline(always)]
    pub(crate) fn get(&self, card: u32) -> bool
        ensures { result ≡ slice_index_or self.now card false }
    {
        let place = card as usize;
        if place < self.items.len() {
            self.items[place]
        } else {
            false
        }
    }

    /// A card is flagged.
    #[inline(always)]
    pub(crate) fn set(&mut self, card: u32)
        requires { card < length self.old }
        ensures { self.new ≡ slice_set self.old card true }
    {
        clear_below(&mut self.items, card + 1, self.count);
        self.items[card as usize] = true;
    }

    /// A card isn't flagged any more. No flag is written for it.
    pub(crate) fn remove(&mut self, card: u32)
        requires { card < length self.old }
        ensures { self.new ≡ slice_set self.old card false }
    {
        let place = card as usize;
        if place < self.items.len() {
            self.items[place] = false;
        }
    }

    /// The flags after the last one that is set are no longer written, and their memory goes back to the system. Each flag stays, and so
    /// does the room. Where the memory that this asks for meanwhile is refused, none goes back.
    pub(crate) fn give_back(&mut self, alloc: Global) -> Result<(), AllocError>
        ensures { self.new ≡ self.old }
    {
        let end = set_end(&self.items);
        self.items.truncate(end);
        give_back(alloc, &mut self.items, self.count as usize)
    }
}
