//! Pointers of an object stored one after another, as long as each store is the table's alone: marking doesn't run, and the value is nil or
//! leads into the region of the field's word. So no card is noted and nothing is saved, and what is asked of the heap is asked once.
//!
//! ```text
//!   regions of 16 words, r0 holds 4, r1 holds 8, r2 holds 32
//!
//!   put_all_at(0, r0, 4, [1, nil, 2])     8 and nil are stored here; 32 is in another region, so its store is a call
//! ```

ghost use Rattle.std.specs.Prelude.{◌≡◌, ℕ, ◌+◌, ◌<◌, ◌≤◌, ◌^◌, Some, length, slice_index, true, false};
ghost use Rattle.heap_words.specs.Configs.{globals_of};
ghost use Rattle.heap_model.specs.Heap.{IsRoot};
ghost use Rattle.graph_runs.specs.State.{root_counts_of, register_place};
ghost use Rattle.heap_steps.specs.Roots.{IsRegister, IsValue};
ghost use Rattle.regions.specs.Table.{fields_at, pointers_at};
ghost use Rattle.refinement.specs.Remembering.{field_word};
ghost use Rattle.step_core.specs.Mutators.{register_of};
ghost use Rattle.step_core.specs.Near.{CanPut, HasPut, LeadsFar, LeadsNear, source};
ghost use Rattle.step_core.specs.Parts.{FillsField, HoldsRegister, HoldsValue};
ghost use Rattle.step_core.specs.Stands.{heap_of};
ghost use Rattle.step_core.specs.Storing.{CanStore, StoresWith};
ghost use Rattle.step_core.specs.Words.{putting};

use crate::heap::Core;
use heap_steps::Register;
use heap_words::addr::{Addr, Ptr};

/// What a number names as a pointer's source: the largest one nil, any other one a register.
#[inline(always)]
fn source_of(number: u32) -> Option<Register>
    ensures { result ≡ source number }
{
    if number == u32::MAX {
        return None;
    }
    Some(Register { number })
}

impl Core {
    /// Where a mutator's registers begin among all registers.
    #[inline(always)]
    fn row(&self, mutator: u32) -> u32
        requires { mutator < self.now.config.mutators }
        ensures { globals_of self.now.config + result ≡ register_place (root_counts_of self.now.config) mutator 0 }
    {
        self.roots.row(mutator)
    }

    /// What a mutator's register holds. Its registers begin at `row`.
    #[inline(always)]
    fn register_in(&self, row: u32, mutator: u32, register: Register) -> Ptr
        requires mutator { mutator < self.now.config.mutators }
        requires register { IsRegister (root_counts_of self.now.config) register }
        requires row { globals_of self.now.config + row ≡ register_place (root_counts_of self.now.config) mutator 0 }
        ensures { HoldsRegister self.now mutator register result }
    {
        self.roots.in_row(row, register.number)
    }

    /// What is stored: nil, or what a register holds. The mutator's registers begin at `row`.
    #[inline(always)]
    fn stored_in(&self, row: u32, mutator: u32, value: Option<Register>) -> Ptr
        requires mutator { mutator < self.now.config.mutators }
        requires value { IsValue (root_counts_of self.now.config) value }
        requires row { globals_of self.now.config + row ≡ register_place (root_counts_of self.now.config) mutator 0 }
        ensures { HoldsValue self.now mutator value result }
    {
        match value {
            None => None,
            Some(register) => self.register_in(row, mutator, register),
        }
    }

    /// Whether a value is nil, or leads into the region that the field's word is in.
    #[inline(always)]
    pub(crate) fn is_near(&self, object: Addr, field: u32, target: &Ptr) -> bool
        requires rooted { IsRoot (heap_of self.now) object }
        requires field { field < length (fields_at self.now.table object) }
        ensures near { result ≡ true → LeadsNear self.now.table.words_per_region (field_word object field) target.now }
        ensures far { result ≡ false → LeadsFar self.now.table.words_per_region (field_word object field) target.now }
    {
        let Some(to) = target else {
            return true;
        };
        self.table.law();
        let word = object.field(field) as u32;
        !self.table.leads_out(word, *to)
    }

    /// Stores such a value in a pointer while marking doesn't run.
    #[inline(always)]
    fn store_near(&mut self, object: Addr, field: u32, target: Ptr)
        requires can { CanStore object field target self.old }
        requires idle { self.old.marker.running ≡ false }
        requires near { LeadsNear self.old.table.words_per_region (field_word object field) target }
        ensures { (mutator : ℕ) → StoresWith self.old.cards mutator object field target self.old self.new }
    {
        self.table.set_ptr(object, field, target);
    }

    /// Does the step `put` while marking doesn't run: by such a store, or by a call if the value leads further.
    #[inline(always)]
    fn put_near(
        &mut self,
        row: u32,
        mutator: u32,
        object: Register,
        at: Addr,
        field: u32,
        value: Option<Register>,
    )
        requires mutator { mutator < self.old.config.mutators }
        requires object { IsRegister (root_counts_of self.old.config) object }
        requires value { IsValue (root_counts_of self.old.config) value }
        requires held { register_of self.old mutator object ≡ Some at }
        requires field { field < length (pointers_at self.old.table at) }
        requires row { globals_of self.old.config + row ≡ register_place (root_counts_of self.old.config) mutator 0 }
        requires idle { self.old.marker.running ≡ false }
        ensures fills { FillsField self.old (putting mutator object field value) at self.new }
        ensures idle { self.new.marker.running ≡ false }
    {
        self.law_remembers();
        let target = self.stored_in(row, mutator, value);
        if self.is_near(at, field, &target) {
            self.store_near(at, field, target);
        } else {
            self.store_far(mutator, at, field, target);
        }
    }

    /// Does the step `put` for each of the first pointers while marking doesn't run.
    #[inline(always)]
    fn put_idle(&mut self, mutator: u32, object: Register, at: Addr, from: &[u32])
        requires idle { self.old.marker.running ≡ false }
        requires can { CanPut self.old mutator object at from.now }
        ensures { HasPut self.old mutator object from.now at (length from.now) self.new }
    {
        let row = self.row(mutator);
        for field in 0..from.len() as u32 {
            let value = source_of(from[field as usize]);
            self.put_near(row, mutator, object, at, field, value);
        }
    }

    /// Does it by a call each.
    #[inline(always)]
    fn put_apart(&mut self, mutator: u32, object: Register, at: Addr, from: &[u32])
        requires { CanPut self.old mutator object at from.now }
        ensures { HasPut self.old mutator object from.now at (length from.now) self.new }
    {
        for field in 0..from.len() as u32 {
            let value = source_of(from[field as usize]);
            self.put_at(mutator, object, at, field, value);
        }
    }

    /// Does the step `put` of a mutator, whose register `object` holds the object that starts at an address, for its first pointers, one
    /// after another: `from` has the numbers of their sources, `u32::MAX` for nil and else a register's. The object has as many fields as
    /// before.
    ///
    /// ```rust
    /// core.step(new);
    /// core.put_all_at(0, r0, Addr::new(0), &[0]);
    /// ```
    #[inline(always)]
    pub fn put_all_at(&mut self, mutator: u32, object: Register, at: Addr, from: &[u32])
        requires few { length from.now < 2 ^ 32 }
        requires mutator { mutator < self.old.config.mutators }
        requires object { IsRegister (root_counts_of self.old.config) object }
        requires values { (i : ℕ) → i < length from.now → IsValue (root_counts_of self.old.config) (source (slice_index from.now i)) }
        requires held { register_of self.old mutator object ≡ Some at }
        requires fields { length from.now ≤ length (pointers_at self.old.table at) }
        ensures { HasPut self.old mutator object from.now at (length from.now) self.new }
    {
        if self.marker.running {
            self.put_apart(mutator, object, at, from);
        } else {
            self.put_idle(mutator, object, at, from);
        }
    }
}
