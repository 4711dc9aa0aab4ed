//! The barriers: what a store into a field does beside the store, and what reading a weak slot does beside the reading.
//!
//! While marking runs, the pointer that is overwritten is saved in its mutator's deletion log, if it leads to an object
//! that was there when marking began: so what the snapshot reached is found even if this was the last pointer to it. A log
//! that is full then is taken within the same store: what it names is marked, and it is empty. This is the deletion
//! barrier of Yuasa, 'Real-time garbage collection on general-purpose machines' (1990).
//!
//! Marking doesn't follow weak slots. So while it runs, what a mutator reads from one is saved in the same way: it
//! will be marked, and the mutator may keep it. What is overwritten in a weak slot isn't saved.
//!
//! A value that leads out of the region of the field's word makes the field's card dirty, so that refinement finds it:
//! the card enters its mutator's card log, and a log of four cards goes to the queue. The object's own region doesn't
//! count: a humongous object's fields lie in several.
//!
//! ```text
//!   put r0 0 nil      field of r0   deletion log      next marks
//!   before            40            16 8 8 24 0 16 7  8 16
//!   saved             40            .. 7 40: full     8 16
//!   stored            nil           .. 7 40: full     8 16
//!   taken             nil           empty             0 7 8 16 24 40
//!
//!   put r0 0 r4       field at 2, target 32, regions of 16 words, cards of 8: card 0 becomes dirty
//! ```

ghost use Rattle.std.specs.Prelude.{◌≡◌, ◌<◌, ◌/◌, length, true};
ghost use Rattle.heap_model.specs.Heap.{IsRoot};
ghost use Rattle.graph_runs.specs.State.{root_counts_of};
ghost use Rattle.heap_steps.specs.Roots.{IsRegister};
ghost use Rattle.regions.specs.Table.{weaks_at, fields_at};
ghost use Rattle.cards.specs.Cards.{is_dirty, dirtied};
ghost use Rattle.refinement.specs.Remembering.{field_word};
ghost use Rattle.heap_words.specs.Configs.{card_words};
ghost use Rattle.step_core.specs.Stands.{heap_of, IsWordOf};
ghost use Rattle.step_core.specs.Mutators.{noted, weak_field};
ghost use Rattle.step_core.specs.Near.{LeadsFar};
ghost use Rattle.step_core.specs.Parts.{Touches};
ghost use Rattle.step_core.specs.Storing.{CanStore, HasNoted, StoresPointer, StoresWeak, StoresWith};

use crate::heap::Core;
use heap_steps::Register;
use heap_words::addr::{Addr, Card, Ptr};
use heap_words::powers::quotient;

impl Core {
    /// The card of a field's word becomes dirty.
    #[inline(always)]
    fn note_far(&mut self, mutator: u32, object: Addr, field: u32)
        requires known { mutator < self.old.config.mutators }
        requires rooted { IsRoot (heap_of self.old) object }
        requires field { field < length (fields_at self.old.table object) }
        ensures same { self.new ≡ record self.old { cards = self.new.cards } }
        ensures cards { self.new.cards ≡ dirtied self.old.cards mutator (field_word object field / card_words self.old.config) }
        ensures dirty { is_dirty self.new.cards (field_word object field / card_words self.old.config) ≡ true }
    {
        self.table.law();
        let word = object.field(field) as u32;
        let card = quotient(word, self.config.card_words());
        self.cards.dirty(mutator, Card::new(card));
    }

    /// A value is about to be stored in a pointer or a weak slot: the field's card becomes dirty if the value leads into another
    /// region than the field's word lies in.
    #[inline(always)]
    fn note(&mut self, mutator: u32, object: Addr, field: u32, target: &Ptr)
        requires known { mutator < self.old.config.mutators }
        requires rooted { IsRoot (heap_of self.old) object }
        requires field { field < length (fields_at self.old.table object) }
        ensures same { self.new ≡ record self.old { cards = self.new.cards } }
        ensures cards { self.new.cards ≡ noted self.old mutator (field_word object field) target.now }
        ensures noted { HasNoted self.new (field_word object field) target.now }
    {
        if !self.is_near(object, field, target) {
            self.note_far(mutator, object, field);
        }
    }

    /// Stores a pointer into an object that a root names, and keeps marking and remembering right. A store within a region is part of the
    /// caller, and any other is a call, for which the former saves no registers.
    #[inline(always)]
    pub(crate) fn store(&mut self, mutator: u32, object: Addr, field: u32, target: Ptr)
        requires known { mutator < self.old.config.mutators }
        requires can { CanStore object field target self.old }
        ensures { StoresPointer mutator object field target self.old self.new }
    {
        if self.is_near(object, field, &target) {
            self.store_noted(mutator, object, field, target);
        } else {
            self.store_far(mutator, object, field, target);
        }
    }

    /// The same of a value that leads into another region, as a call: that isn't tested again.
    #[cold]
    #[inline(never)]
    pub(crate) fn store_far(&mut self, mutator: u32, object: Addr, field: u32, target: Ptr)
        requires known { mutator < self.old.config.mutators }
        requires can { CanStore object field target self.old }
        requires far { LeadsFar self.old.table.words_per_region (field_word object field) target }
        ensures { StoresPointer mutator object field target self.old self.new }
    {
        self.note_far(mutator, object, field);
        self.store_noted(mutator, object, field, target);
    }

    /// The same of any value, as a call.
    #[cold]
    #[inline(never)]
    pub(crate) fn store_apart(&mut self, mutator: u32, object: Addr, field: u32, target: Ptr)
        requires known { mutator < self.old.config.mutators }
        requires can { CanStore object field target self.old }
        ensures { StoresPointer mutator object field target self.old self.new }
    {
        self.note(mutator, object, field, &target);
        self.store_noted(mutator, object, field, target);
    }

    /// Stores a pointer whose card is noted, and saves the one that is overwritten.
    #[inline(always)]
    fn store_noted(&mut self, mutator: u32, object: Addr, field: u32, target: Ptr)
        requires known { mutator < self.old.config.mutators }
        requires can { CanStore object field target self.old }
        requires noted { HasNoted self.old (field_word object field) target }
        ensures { StoresWith self.old.cards mutator object field target self.old self.new }
    {
        if !self.marker.running {
            self.table.set_ptr(object, field, target);
            return;
        }
        let overwritten = self.table.get_ptr(object, field);
        let full = self.marker.save(&self.table, mutator, overwritten);
        self.table.set_ptr(object, field, target);
        if full {
            self.marker.take_log(&self.table, mutator);
        }
    }

    /// Stores a value into a weak slot of an object that a root names, and keeps remembering right. Marking isn't concerned.
    pub(crate) fn store_weak(&mut self, mutator: u32, object: Addr, slot: u32, target: Ptr)
        requires known { mutator < self.old.config.mutators }
        requires rooted { IsRoot (heap_of self.old) object }
        requires slot { slot < length (weaks_at self.old.table object) }
        requires word { IsWordOf (heap_of self.old) target }
        ensures { StoresWeak (noted self.old mutator (field_word object (weak_field self.old object slot)) target) object slot target
            self.old self.new }
    {
        self.table.law();
        let index = self.table.pointer_count(object) + slot;
        self.note(mutator, object, index, &target);
        self.store_weak_noted(object, slot, target);
    }

    /// Stores a value into a weak slot whose card is noted.
    fn store_weak_noted(&mut self, object: Addr, slot: u32, target: Ptr)
        requires rooted { IsRoot (heap_of self.old) object }
        requires slot { slot < length (weaks_at self.old.table object) }
        requires word { IsWordOf (heap_of self.old) target }
        requires noted { HasNoted self.old (field_word object (weak_field self.old object slot)) target }
        ensures { StoresWeak self.old.cards object slot target self.old self.new }
    {
        self.table.law();
        self.table.set_weak(object, slot, target);
    }

    /// A register takes what was read from a weak slot. While marking runs, that is saved, and its name is touched.
    pub(crate) fn touch(&mut self, mutator: u32, to: Register, value: &Ptr)
        requires known { mutator < self.old.config.mutators }
        requires to { IsRegister (root_counts_of self.old.config) to }
        requires word { IsWordOf (heap_of self.old) value.now }
        ensures { Touches mutator to value.now self.old self.new }
    {
        let running = self.marker.running;
        self.roots.set_register(mutator, to.number, *value);
        if !running {
            return;
        }
        let full = self.marker.save(&self.table, mutator, *value);
        if full {
            self.marker.take_log(&self.table, mutator);
        }
    }
}
