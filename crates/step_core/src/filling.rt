//! Fields of an object whose address and counts are known: who fills a new object looks at its register once, and not at its header.
//!
//! ```text
//!   new r0 2 1      r0 holds 40          make_at(0, r0, 2 1) = #7, 40, or after a step address_of(0, r0) = 40
//!   put r0 0 r1     put_at(0, r0, 40, 0, r1)
//!   put r0 1 nil    put_at(0, r0, 40, 1, nil)               none of these looks at r0
//!   write r0 0 7    write_behind_at(0, r0, 40, 2, 0, 7)     nor at the header
//! ```
//!
//! `put_all_at` (`near`) stores all pointers, and asks once what each `put_at` asks.

ghost use Rattle.std.specs.Prelude.{◌≡◌, ◌<◌, IfNone, IfOk, Some, length};
ghost use Rattle.graph_runs.specs.State.{root_counts_of};
ghost use Rattle.heap_steps.specs.Roots.{IsRegister, IsValue};
ghost use Rattle.regions.specs.Table.{pointers_at, weaks_at, values_at};
ghost use Rattle.step_core.specs.Mutators.{register_of};
ghost use Rattle.step_core.specs.Answers.{new_reply};
ghost use Rattle.step_core.specs.Making.{HasMade};
ghost use Rattle.step_core.specs.Parts.{FillsField};
ghost use Rattle.step_core.specs.Words.{AreRefused, Takes, making, putting, writing};

use crate::heap::Core;
use crate::mutator::NewObject;
use heap_steps::{Counts, Refusal, Register};
use heap_words::addr::{Addr, Ptr};

impl Core {
    ghost use Rattle.heap_steps.specs.declared.step.Action.TheVariants as actions;

    /// Makes an object, as the step `new` does, and answers its name and where it starts, or why it is refused.
    ///
    /// ```rust
    /// let made = core.make_at(0, r0, counts);
    /// assert_eq!(rt; made.map(|object| object.at), Ok(Addr::new(0)));
    /// ```
    #[inline(always)]
    pub fn make_at(
        &mut self,
        mutator: u32,
        to: Register,
        counts: Counts,
    ) -> Result<NewObject, Refusal>
        requires mutator { mutator < self.old.config.mutators }
        requires to { IsRegister (root_counts_of self.old.config) to }
        ensures takes { Takes self.old (making mutator to counts) (new_reply result) self.new }
        ensures made { HasMade mutator (actions.New to counts) (new_reply result) self.new }
        ensures at { IfOk result (λ x. register_of self.new mutator to ≡ Some x.at) }
        ensures config { self.new.config ≡ self.old.config }
    {
        self.made(mutator, to, counts, 0)
    }

    /// Where the object starts that a mutator's register holds, as an address in words. It is none if the register holds nil, and each
    /// `put` and `write` of its fields is refused then.
    ///
    /// ```rust
    /// core.step(new);
    /// assert_eq!(rt; core.address_of(0, r0), Some(Addr::new(0)));
    /// ```
    #[inline(always)]
    pub fn address_of(&self, mutator: u32, object: Register) -> Ptr
        requires mutator { mutator < self.now.config.mutators }
        requires object { IsRegister (root_counts_of self.now.config) object }
        ensures held { result ≡ register_of self.now mutator object }
        ensures nil { IfNone result (AreRefused self.now mutator object) }
    {
        self.register(mutator, object)
    }

    /// Does the step `put` of a mutator, whose register `object` holds the object that starts at an address, for a field that the object
    /// has: its header isn't looked at. The object has as many fields as before. The store itself is a call: `put_all_at` seldom needs it.
    ///
    /// ```rust
    /// core.step(new);
    /// core.put_at(0, r0, Addr::new(0), 0, Some(r0));
    /// ```
    #[inline(always)]
    pub fn put_at(
        &mut self,
        mutator: u32,
        object: Register,
        at: Addr,
        field: u32,
        value: Option<Register>,
    )
        requires mutator { mutator < self.old.config.mutators }
        requires object { IsRegister (root_counts_of self.old.config) object }
        requires value { IsValue (root_counts_of self.old.config) value }
        requires held { register_of self.old mutator object ≡ Some at }
        requires field { field < length (pointers_at self.old.table at) }
        ensures { FillsField self.old (putting mutator object field value) at self.new }
    {
        self.law_remembers();
        self.put_known(mutator, object, at, field, value);
    }

    /// Does the step `write` of a mutator, whose register `object` holds the object that starts at an address, for a data word that the
    /// object has. The object has so many pointers and no weak slot: its header isn't looked at. It has as many fields as before.
    ///
    /// ```rust
    /// core.step(new);
    /// core.write_behind_at(0, r0, Addr::new(0), 1, 0, 7);
    /// ```
    #[inline(always)]
    pub fn write_behind_at(
        &mut self,
        mutator: u32,
        object: Register,
        at: Addr,
        pointers: u32,
        field: u32,
        value: u64,
    )
        requires mutator { mutator < self.old.config.mutators }
        requires object { IsRegister (root_counts_of self.old.config) object }
        requires held { register_of self.old mutator object ≡ Some at }
        requires pointers { length (pointers_at self.old.table at) ≡ pointers }
        requires weaks { length (weaks_at self.old.table at) ≡ 0 }
        requires field { field < length (values_at self.old.table at) }
        ensures { FillsField self.old (writing mutator object field value) at self.new }
    {
        self.law_remembers();
        self.law_shaped();
        self.write_known(mutator, object, at, pointers, field, value);
    }
}
