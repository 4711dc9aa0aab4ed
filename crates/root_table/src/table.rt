//! The table of roots.

ghost use Rattle.std.specs.Prelude.{◌≡◌, ◌≢◌, ◌<◌, ◌≤◌, ◌+◌, ◌-◌, ◌^◌, ℕ, true, false, map, Some};
ghost use Rattle.std.specs.Prelude.{None, IfOk, IfSome, IsSome, length, MatchOption, replicate, slice_index_or, slice_set};
ghost use Rattle.heap_model.specs.Graph.{register_place, root_places, with_nils};
ghost use Rattle.heap_model.specs.Redirection.{redirected};
ghost use Rattle.root_table.specs.Roots.{AreNil, AreRedirectedBetween, HoldNowhere, IsNextHolder, IsNextNamed};

use crate::held::Held;
use crate::root_counts::RootCounts;
use heap_words::addr::{Addr, Ptr};
use std::alloc::{AllocError, Global};
use std::marker::Model;

/// What each root place holds: nil, or the address of an object. Globals and registers are apart, so that the place of mutator 0's register
/// among the registers is its number. There is a bound for the globals and one for each of 64 mutators, in the table itself, so that no
/// pointer is followed to one.
pub struct Roots {
    places: RootCounts,
    globals: Vec<Held>,
    registers: Vec<Held>,
    /// From this number on a row's roots are nil: row 0 is the globals, and the row of a mutator's registers is its number and one.
    used: [u32; 65],
}

impl Model for Roots {
    ghost use Rattle.std.specs.Prelude.{◌++◌};
    ghost use Rattle.root_table.specs.Roots.{RootTable};
    ghost use Rattle.root_table.specs.Bounds.{IsRootTable};

    ghost Value = { RootTable };

    ghost view = { λ r. record { places = r.places; words = r.globals.items ++ r.registers.items } };

    ghost invariant = { λ r. IsRootTable r.places r.globals.items r.registers.items r.used };
}

/// Where it is let go there is one call, and not a drop for each of its parts.
impl Drop for Roots {
    fn drop(self) {
        let Roots {
            places: _,
            globals: _,
            registers: _,
            used: _,
        } = self;
    }
}

/// So many places from `first` on hold nil.
fn fill_nil(words: &mut [Held], first: usize, count: usize)
    requires { first + count ≤ length words.old }
    ensures { words.new ≡ with_nils words.old first count }
{
    for index in 0..count {
        words[first + index] = Held::nil();
    }
}

/// The lowest index from `from` on, below `to`, where an address is held, or `to` where there is none.
fn first_holder(words: &[Held], from: usize, to: usize, at: Addr) -> usize
    requires { to ≤ length words.now }
    ensures none { HoldNowhere words.now at from result }
    ensures found { result < to → IsNextHolder words.now at from result }
    ensures end { to ≤ result → HoldNowhere words.now at from to }
{
    for index in from..to {
        if words[index].is(at) {
            return index;
        }
    }
    to
}

/// Bounds of rows of which nothing is in use.
fn none_used() -> [u32; 65]
    ensures { result ≡ replicate 65 0 }
{
    [0; 65]
}

impl Roots {
    /// All roots nil. There is no memory for 2 to the 32nd places or more, nor for more than 64 mutators.
    pub fn new(alloc: Global, places: RootCounts) -> Result<Roots, AllocError>
        ensures { IfOk result (λ r. r ≡ record { places = places; words = replicate (root_places places) None }) }
    {
        let count = places.count();
        if count > u32::MAX as usize || places.mutators() > 64 {
            return Err(AllocError);
        }
        let globals = places.globals() as usize;
        Ok(Roots {
            places,
            globals: vec![in alloc; Held::nil(); globals]?,
            registers: vec![in alloc; Held::nil(); count - globals]?,
            used: none_used(),
        })
    }

    /// Where the roots stand: there is a place for each.
    pub fn places(&self) -> RootCounts
        ensures places { result ≡ self.now.places }
        ensures count { length self.now.words ≡ root_places self.now.places }
    {
        self.places
    }

    /// How many places there are.
    #[inline(always)]
    pub fn len(&self) -> usize
        ensures { result ≡ length self.now.words }
    {
        self.globals.len() + self.registers.len()
    }

    /// What a place holds.
    #[inline(always)]
    pub fn get(&self, place: usize) -> Ptr
        requires { place < length self.now.words }
        ensures { result ≡ slice_index_or self.now.words place None }
    {
        let globals = self.globals.len();
        if place < globals {
            self.globals[place].get()
        } else {
            self.registers[place - globals].get()
        }
    }

    /// The place of a mutator's register among the registers. Places are below 2 to the 32nd, so it needs no wider numbers.
    #[inline(always)]
    fn among_registers(&self, mutator: u32, register: u32) -> usize
        requires mutator { mutator < self.now.places.mutators }
        requires register { register < self.now.places.registers }
        ensures { self.now.places.globals + result ≡ register_place self.now.places mutator register }
    {
        (self.places.registers() * mutator + register) as usize
    }

    /// Where a mutator's registers begin among all registers: who looks at several of them finds that once.
    #[inline(always)]
    pub fn row(&self, mutator: u32) -> u32
        requires { mutator < self.now.places.mutators }
        ensures { self.now.places.globals + result ≡ register_place self.now.places mutator 0 }
    {
        self.places.registers() * mutator
    }

    /// What a register holds of a mutator whose registers begin there.
    #[inline(always)]
    pub fn in_row(&self, row: u32, register: u32) -> Ptr
        requires { self.now.places.globals + (row + register) < length self.now.words }
        ensures { result ≡ slice_index_or self.now.words (self.now.places.globals + (row + register)) None }
    {
        self.registers[(row + register) as usize].get()
    }

    /// What a mutator's register holds, as it is kept.
    #[inline(always)]
    fn held(&self, mutator: u32, register: u32) -> Held
        requires mutator { mutator < self.now.places.mutators }
        requires register { register < self.now.places.registers }
        ensures { result ≡ slice_index_or self.now.words (register_place self.now.places mutator register) None }
    {
        self.registers[self.among_registers(mutator, register)]
    }

    /// What a mutator's register holds.
    #[inline(always)]
    pub fn register(&self, mutator: u32, register: u32) -> Ptr
        requires mutator { mutator < self.now.places.mutators }
        requires register { register < self.now.places.registers }
        ensures { result ≡ slice_index_or self.now.words (register_place self.now.places mutator register) None }
    {
        self.held(mutator, register).get()
    }

    /// A mutator's register takes a value.
    #[inline(always)]
    pub fn set_register(&mut self, mutator: u32, register: u32, value: Ptr)
        requires mutator { mutator < self.old.places.mutators }
        requires register { register < self.old.places.registers }
        ensures { self.new ≡ record self.old { words = slice_set self.old.words (register_place self.old.places mutator register) value } }
    {
        self.keep(mutator, register, Held::of(value));
    }

    /// A mutator's register takes what another one of its holds, which isn't looked at.
    #[inline(always)]
    pub fn copy_register(&mut self, mutator: u32, to: u32, from: u32)
        requires mutator { mutator < self.old.places.mutators }
        requires to { to < self.old.places.registers }
        requires from { from < self.old.places.registers }
        ensures { self.new ≡ record self.old {
          words = slice_set self.old.words (register_place self.old.places mutator to)
              (slice_index_or self.old.words (register_place self.old.places mutator from) None);
        } }
    {
        let held = self.held(mutator, from);
        self.keep(mutator, to, held);
    }

    /// A mutator's register takes what is held, and its row's bound is above it.
    #[inline(always)]
    fn keep(&mut self, mutator: u32, register: u32, value: Held)
        requires mutator { mutator < self.old.places.mutators }
        requires register { register < self.old.places.registers }
        ensures { self.new ≡ record self.old { words = slice_set self.old.words (register_place self.old.places mutator register) value } }
    {
        let at = self.among_registers(mutator, register);
        self.registers[at] = value;
        if self.used[mutator as usize + 1] <= register {
            self.used[mutator as usize + 1] = register + 1;
        }
    }

    /// A global takes a value.
    #[inline(always)]
    pub fn set_global(&mut self, global: u32, value: Ptr)
        requires { global < self.old.places.globals }
        ensures { self.new ≡ record self.old { words = slice_set self.old.words global value } }
    {
        self.keep_global(global, Held::of(value));
    }

    /// A global takes what a mutator's register holds, which isn't looked at.
    #[inline(always)]
    pub fn copy_to_global(&mut self, global: u32, mutator: u32, from: u32)
        requires global { global < self.old.places.globals }
        requires mutator { mutator < self.old.places.mutators }
        requires from { from < self.old.places.registers }
        ensures { self.new ≡ record self.old {
          words = slice_set self.old.words global (slice_index_or self.old.words (register_place self.old.places mutator from) None);
        } }
    {
        let value = self.held(mutator, from);
        self.keep_global(global, value);
    }

    /// A global takes what is held, and the globals' bound is above it.
    #[inline(always)]
    fn keep_global(&mut self, global: u32, value: Held)
        requires { global < self.old.places.globals }
        ensures { self.new ≡ record self.old { words = slice_set self.old.words global value } }
    {
        self.globals[global as usize] = value;
        if self.used[0] <= global {
            self.used[0] = global + 1;
        }
    }

    /// A place that doesn't hold nil takes a value.
    pub fn update(&mut self, place: usize, value: Ptr)
        requires { IsSome (slice_index_or self.old.words place None) }
        ensures { self.new ≡ record self.old { words = slice_set self.old.words place value } }
    {
        let held = Held::of(value);
        let globals = self.globals.len();
        if place < globals {
            self.globals[place] = held;
        } else {
            self.registers[place - globals] = held;
        }
    }

    /// Each place that holds one address holds another from now on. It looks at no place above its row's bound.
    pub fn redirect(&mut self, from: Addr, to: Addr)
        ensures { self.new ≡ record self.old { words = map (redirected from to) self.old.words } }
    {
        for row in 0..self.places.mutators() as usize + 1 {
            let used = self.used[row];
            if used == 0 {
                continue;
            }
            let start = self.places.start_of(row);
            self.redirect_among(start, start + used as usize, from, to);
        }
    }

    /// Each place from `first` on, below `past`, that holds one address holds another from now on.
    fn redirect_among(&mut self, first: usize, past: usize, from: Addr, to: Addr)
        requires order { first ≤ past }
        requires within { past ≤ length self.old.words }
        ensures places { self.new.places ≡ self.old.places }
        ensures words { AreRedirectedBetween from to first past self.old.words self.new.words }
    {
        let mut place = first;
        'places: while let Some(named) = self.holder_among(place, past, from) {
            self.update(named, Some(to));
            place = named + 1;
        }
    }

    /// The lowest place from `from` on, below `to`, that holds an address.
    fn holder_among(&self, from: usize, to: usize, at: Addr) -> Option<usize>
        requires { to ≤ length self.now.words }
        ensures lowest { MatchOption result (HoldNowhere self.now.words at from to) (IsNextHolder self.now.words at from) }
        ensures below { IfSome result (λ place. place < to) }
    {
        let globals = self.globals.len();
        let end = to.min(globals);
        let global = first_holder(&self.globals, from, end, at);
        if global < end {
            return Some(global);
        }
        let start = from.saturating_sub(globals);
        let past = to.saturating_sub(globals);
        let register = first_holder(&self.registers, start, past, at);
        if register < past {
            return Some(globals + register);
        }
        None
    }

    /// A mutator's registers from `register` on are nil. It costs those below their bound.
    pub fn leave(&mut self, mutator: u32, register: u32)
        requires mutator { mutator < self.old.places.mutators }
        requires register { register < self.old.places.registers }
        ensures { self.new ≡ record self.old {
          words = with_nils self.old.words (register_place self.old.places mutator register)
              (self.old.places.registers - register);
        } }
    {
        let row = mutator as usize + 1;
        let used = self.used[row];
        if used <= register {
            return;
        }
        let first = self.among_registers(mutator, register);
        self.used[row] = register;
        fill_nil(&mut self.registers, first, (used - register) as usize);
    }

    /// The lowest place from `from` on that doesn't hold nil. It looks at no place above its row's bound. Where `from` itself holds
    /// something that is one look, which is part of the caller.
    #[inline(always)]
    pub fn next_named(&self, from: usize) -> Option<usize>
        ensures lowest { MatchOption result (AreNil self.now.words from (length self.now.words)) (IsNextNamed self.now.words from) }
        ensures within { IfSome result (λ place. place < length self.now.words) }
        ensures small { IfSome result (λ place. place + 1 < 2 ^ 64) }
    {
        if self.len() <= from {
            return None;
        }
        match self.get(from) {
            Some(_) => Some(from),
            None => self.next_in_rows(from),
        }
    }

    /// The same, row by row. A row of which nothing is in use is passed over by a look at its bound.
    #[inline(never)]
    fn next_in_rows(&self, from: usize) -> Option<usize>
        requires { from < length self.now.words }
        ensures lowest { MatchOption result (AreNil self.now.words from (length self.now.words)) (IsNextNamed self.now.words from) }
        ensures within { IfSome result (λ place. place < length self.now.words) }
        ensures small { IfSome result (λ place. place + 1 < 2 ^ 64) }
    {
        for row in self.places.row_of(from)..self.places.mutators() as usize + 1 {
            let used = self.used[row];
            if used == 0 {
                continue;
            }
            let start = self.places.start_of(row);
            let end = start + used as usize;
            let Some(place) = self.first_named(from.max(start), end) else {
                continue;
            };
            return Some(place);
        }
        None
    }

    /// The lowest place from `from` on, below `to`, that doesn't hold nil.
    fn first_named(&self, from: usize, to: usize) -> Option<usize>
        requires { to ≤ length self.now.words }
        ensures lowest { MatchOption result (AreNil self.now.words from to) (IsNextNamed self.now.words from) }
        ensures below { IfSome result (λ place. place < to) }
    {
        for place in from..to {
            let Some(_) = self.get(place) else {
                continue;
            };
            return Some(place);
        }
        None
    }
}
