//! Fields of an object one after another, and registers one after another: each as by a step of its own.
//!
//! ```text
//!   r0 holds 40, an object of 3 pointers and 2 data words
//!
//!   pointers_from(0, r0, 1, 2) = 40             it has pointers 1 and 2
//!   get_row(0, 5, r0, 40, 1, 2)                 get r5 r0 1, get r6 r0 2
//!   put_row(0, r0, 40, 1, Row(5), 2)            put r0 1 r5, put r0 2 r6
//!   put_row(0, r0, 40, 1, One(nil), 2)          put r0 1 nil, put r0 2 nil
//!   write_row(0, r0, 40, 0, 7, 2)               write r0 0 7, write r0 1 7
//! ```

ghost use Rattle.std.specs.Prelude.{◌≡◌, ◌≢◌, ℕ, ◌+◌, ◌-◌, ◌<◌, ◌≤◌, ◌^◌, Some, IfErr, IfOk, length};
ghost use Rattle.heap_words.specs.Configs.{registers_of};
ghost use Rattle.graph_runs.specs.State.{root_counts_of};
ghost use Rattle.heap_steps.specs.Roots.{IsRegister, IsValue};
ghost use Rattle.regions.specs.Table.{pointers_at, values_at, weaks_at};
ghost use Rattle.step_core.specs.Mutators.{register_of};
ghost use Rattle.step_core.specs.Parts.{FillsField};
ghost use Rattle.step_core.specs.Rows.{AreDone, FitsSource, Gets, HasNoPointer, HasNoWord, HasPointers, HasPointersAt, HasStored};
ghost use Rattle.step_core.specs.Rows.{HasWordsAt};
ghost use Rattle.step_core.specs.Rows.{getting_each, putting_each, source_at, writing_each};
ghost use Rattle.step_core.specs.Words.{HasDataWords, writing};

use crate::heap::Core;
use heap_steps::{Refusal, Register};
use heap_words::addr::Addr;

/// What pointers take, one after another: what registers from one on hold, or each the same, nil or what a register holds.
#[derive(Clone, Copy, Drop)]
pub enum Source {
    Row(u32),
    One(Option<Register>),
}

/// What the pointer of this number takes, counted from the first one.
#[inline(always)]
fn source_at(source: Source, number: u32) -> Option<Register>
    requires { FitsSource source (number + 1) }
    ensures { result ≡ source_at source number }
{
    match source {
        Source::Row(first) => Some(Register {
            number: first + number,
        }),
        Source::One(value) => value,
    }
}

impl Core {
    /// Where the object starts that a mutator's register holds, as an address in words, if it has so many pointers from one on. Else why
    /// each step that loads the last of them, or stores into it, is refused.
    ///
    /// ```rust
    /// core.step(new);
    /// assert_eq!(rt; core.pointers_from(0, r0, 0, 1), Ok(Addr::new(0)));
    /// assert_eq!(rt; core.pointers_from(0, r0, 1, 1), Err(Refusal::NoField));
    /// ```
    #[inline(always)]
    pub fn pointers_from(
        &self,
        mutator: u32,
        object: Register,
        from: u32,
        count: u32,
    ) -> Result<Addr, Refusal>
        requires mutator { mutator < self.now.config.mutators }
        requires object { IsRegister (root_counts_of self.now.config) object }
        ensures all { IfOk result (HasPointersAt self.now mutator object from count) }
        ensures few { IfOk result (λ a. from + count < 2 ^ 32) }
        ensures refused { IfErr result (HasNoPointer self.now mutator object (from + (count - 1))) }
        ensures none { IfErr result (λ why. HasPointers self.now mutator object from count → ⊥) }
    {
        let Some(at) = self.register(mutator, object) else {
            return Err(Refusal::Nil);
        };
        if u64::from(self.table.plain_pointer_count(at)) < u64::from(from) + u64::from(count) {
            return Err(Refusal::NoField);
        }
        Ok(at)
    }

    /// The same of data words, and of steps that write.
    ///
    /// ```rust
    /// core.step(new);
    /// assert_eq!(rt; core.words_from(0, r0, 0, 1), Ok(Addr::new(0)));
    /// assert_eq!(rt; core.words_from(0, r0, 0, 2), Err(Refusal::NoField));
    /// ```
    #[inline(always)]
    pub fn words_from(
        &self,
        mutator: u32,
        object: Register,
        from: u32,
        count: u32,
    ) -> Result<Addr, Refusal>
        requires mutator { mutator < self.now.config.mutators }
        requires object { IsRegister (root_counts_of self.now.config) object }
        ensures all { IfOk result (HasWordsAt self.now mutator object from count) }
        ensures few { IfOk result (λ a. from + count < 2 ^ 32) }
        ensures refused { IfErr result (HasNoWord self.now mutator object (from + (count - 1))) }
        ensures none { IfErr result (λ why. HasDataWords self.now mutator object from count → ⊥) }
    {
        let Some(at) = self.register(mutator, object) else {
            return Err(Refusal::Nil);
        };
        if u64::from(self.table.value_count(at)) < u64::from(from) + u64::from(count) {
            return Err(Refusal::NoField);
        }
        Ok(at)
    }

    /// Does the step `get` for a pointer that the object at an address has, which the register holds.
    #[inline(always)]
    fn get_at(&mut self, mutator: u32, to: Register, object: Register, at: Addr, field: u32)
        requires mutator { mutator < self.old.config.mutators }
        requires to { IsRegister (root_counts_of self.old.config) to }
        requires object { IsRegister (root_counts_of self.old.config) object }
        requires held { register_of self.old mutator object ≡ Some at }
        requires field { field < length (pointers_at self.old.table at) }
        ensures { Gets self.old mutator to object field self.new }
    {
        self.law_remembers();
        let value = self.table.get_ptr(at, field);
        self.take_named(mutator, to, value);
    }

    /// Does the step `get` for so many pointers from one on, into registers from one on: of the object at an address, which the register
    /// holds. That isn't among those, but may be the last.
    ///
    /// ```rust
    /// core.step(new);
    /// core.get_row(0, 0, r0, Addr::new(0), 0, 1);
    /// ```
    #[inline(always)]
    pub fn get_row(
        &mut self,
        mutator: u32,
        to: u32,
        object: Register,
        at: Addr,
        from: u32,
        count: u32,
    )
        requires mutator { mutator < self.old.config.mutators }
        requires object { IsRegister (root_counts_of self.old.config) object }
        requires row { to + count ≤ registers_of self.old.config }
        requires few_registers { to + count < 2 ^ 32 }
        requires apart { (k : ℕ) → k + 1 < count → object.number ≢ to + k }
        requires has { HasPointersAt self.old mutator object from count at }
        requires few { from + count < 2 ^ 32 }
        ensures done { AreDone self.old (getting_each mutator to object from) count self.new }
        ensures config { self.new.config ≡ self.old.config }
    {
        for number in 0..count {
            let to = Register {
                number: to + number,
            };
            self.get_at(mutator, to, object, at, from + number);
        }
    }

    /// Does the step `put` for so many pointers from one on: of the object at an address, which the register holds.
    ///
    /// ```rust
    /// core.step(new);
    /// core.put_row(0, r0, Addr::new(0), 0, step_core::Source::One(None), 1);
    /// ```
    #[inline(always)]
    pub fn put_row(
        &mut self,
        mutator: u32,
        object: Register,
        at: Addr,
        from: u32,
        source: Source,
        count: u32,
    )
        requires mutator { mutator < self.old.config.mutators }
        requires object { IsRegister (root_counts_of self.old.config) object }
        requires values { (k : ℕ) → k < count → IsValue (root_counts_of self.old.config) (source_at source k) }
        requires fits { FitsSource source count }
        requires has { HasPointersAt self.old mutator object from count at }
        requires few { from + count < 2 ^ 32 }
        ensures { HasStored self.old (putting_each mutator object from source) at count self.new }
    {
        for number in 0..count {
            let value = source_at(source, number);
            self.put_at(mutator, object, at, from + number, value);
        }
    }

    /// Does the step `write` for a data word, as `write_behind_at`, of an object that has so many pointers and weak slots.
    #[inline(always)]
    fn write_at(
        &mut self,
        mutator: u32,
        object: Register,
        at: Addr,
        fields: u32,
        field: u32,
        word: u64,
    )
        requires mutator { mutator < self.old.config.mutators }
        requires object { IsRegister (root_counts_of self.old.config) object }
        requires held { register_of self.old mutator object ≡ Some at }
        requires fields { length (pointers_at self.old.table at) + length (weaks_at self.old.table at) ≡ fields }
        requires field { field < length (values_at self.old.table at) }
        ensures { FillsField self.old (writing mutator object field word) at self.new }
    {
        self.law_remembers();
        self.law_shaped();
        self.write_known(mutator, object, at, fields, field, word);
    }

    /// Does the step `write` with one word for so many data words from one on: of the object at an address, which the register holds.
    ///
    /// ```rust
    /// core.step(new);
    /// core.write_row(0, r0, Addr::new(0), 0, 7, 1);
    /// ```
    #[inline(always)]
    pub fn write_row(
        &mut self,
        mutator: u32,
        object: Register,
        at: Addr,
        from: u32,
        word: u64,
        count: u32,
    )
        requires mutator { mutator < self.old.config.mutators }
        requires object { IsRegister (root_counts_of self.old.config) object }
        requires has { HasWordsAt self.old mutator object from count at }
        requires few { from + count < 2 ^ 32 }
        ensures { HasStored self.old (writing_each mutator object from word) at count self.new }
    {
        self.law_remembers();
        self.law_shaped();
        let fields = self.table.field_count(at);
        for number in 0..count {
            self.write_at(mutator, object, at, fields, from + number, word);
        }
    }
}
