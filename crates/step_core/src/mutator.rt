//! The mutator's steps.

ghost use Rattle.std.specs.Prelude.{◌≡◌, ◌<◌, ◌≤◌, ◌*◌, ◌↔◌, Some, None, IfSome, IfNone, IfOk, IsErr, IsSome, OnErr, length, true, false};
ghost use Rattle.heap_words.specs.Configs.{max_object_words, object_limit};
ghost use Rattle.heap_words.specs.Sizes.{size_of};
ghost use Rattle.heap_model.specs.Heap.{IsRoot};
ghost use Rattle.graph_runs.specs.State.{root_counts_of};
ghost use Rattle.heap_steps.specs.Roots.{IsRegister, IsGlobal, IsValue, IsOpAt};
ghost use Rattle.heap_steps.specs.declared.step.Reply.TheVariants as replies;
ghost use Rattle.heap_steps.specs.declared.step.Refusal.TheVariants as refusals;
ghost use Rattle.regions.specs.Table.{new_object, object_at, fields_at, pointers_at, weaks_at, values_at, set_pointer, set_value};
ghost use Rattle.alloc_buffers.specs.Placement.{address_of, allocation_of, CanHold, IsMadeAt, Placement, made_at};
ghost use Rattle.step_core.specs.Stands.{IsWordOf, heap_of, name_in};
ghost use Rattle.step_core.specs.Answers.{IsWithin, new_reply};
ghost use Rattle.step_core.specs.Making.{CanMake, HasMade, MakesNew, MakesObject};
ghost use Rattle.step_core.specs.Mutators.{value_of, weak_of, weaks_made, with_current};
ghost use Rattle.step_core.specs.Cycle.{LeavesRegions};
ghost use Rattle.step_core.specs.Parts.{DoesAction, GetsWeak, HoldsValue, NamesAt, Touches};
ghost use Rattle.step_core.specs.Words.{Takes};

use crate::heap::Core;
use alloc_buffers::{AllocBuffers, Allocation, Full};
use heap_steps::{Action, Counts, GlobalRoot, Op, Refusal, Register, Reply};
use heap_words::addr::{Addr, Ptr, RegionNo};
use heap_words::header::{Count, FillerSize, HeaderCounts};
use region_choice::RegionAges;
use regions::RegionTable;

/// Makes a new object in its place, and answers its address.
#[inline(always)]
fn make(table: &mut RegionTable, place: Allocation, name: u64, counts: HeaderCounts) -> Addr
    requires { CanHold table.old place (size_of counts.pointers counts.weaks counts.values) }
    ensures at { result ≡ address_of table.old place }
    ensures made { table.new ≡ made_at table.old place (new_object name counts.pointers counts.weaks counts.values) }
{
    table.law();
    match place {
        Allocation::Filler(at) => {
            let size = FillerSize::new(counts.size());
            table.make_object(at, size, name, counts);
            at
        }
        Allocation::Run { first, count } => {
            let words = table.words_per_region();
            table.make_run(first, count, name, counts);
            Addr::new(first.number() * words)
        }
    }
}

/// The counts of an object as its header has them.
#[inline(always)]
fn header_counts(counts: Counts, weaks: u8) -> HeaderCounts
    requires { size_of counts.pointers weaks counts.values ≤ max_object_words }
    ensures pointers { result.pointers ≡ counts.pointers }
    ensures weaks { result.weaks ≡ weaks }
    ensures values { result.values ≡ counts.values }
{
    HeaderCounts {
        pointers: Count::new(counts.pointers),
        weaks,
        values: Count::new(counts.values),
    }
}

/// Makes an object in the mutator's buffer, if that has room: it is written over the start of what is left of the buffer.
#[inline(always)]
fn make_inside(
    table: &mut RegionTable,
    buffers: &mut AllocBuffers,
    mutator: u32,
    size: u32,
    name: u64,
    counts: Counts,
    weaks: u8,
) -> Option<Addr>
    requires can { CanMake table.old buffers.old mutator size counts weaks }
    requires half { 2 * size ≤ table.old.words_per_region }
    ensures made { IfSome result (λ a. (p : Placement) × IsMadeAt table.old table.new buffers.old buffers.new mutator size
        (new_object name counts.pointers weaks counts.values) a p) }
    ensures current { buffers.new.current ≡ buffers.old.current }
    ensures table_same { IfNone result (table.new ≡ table.old) }
    ensures buffers_same { IfNone result (buffers.new ≡ buffers.old) }
{
    table.law();
    let open = buffers.cut(table, mutator, size)?;
    let at = Addr::new(open.next);
    table.make_object(
        at,
        FillerSize::new(open.rest),
        name,
        header_counts(counts, weaks),
    );
    Some(at)
}

/// A region that is the current one now is taken, unless it was current before.
fn take_current(ages: &mut RegionAges, was: Option<u32>, now: Option<u32>)
    requires known { IfSome now (λ k. k < length ages.old.stamps) }
    ensures { ages.new ≡ with_current ages.old was now }
{
    let Some(number) = now else {
        return;
    };
    if let Some(before) = was {
        if before == number {
            return;
        }
    }
    ages.take(RegionNo::new(number));
}

/// Makes an object in its place. A region that is taken for it is the youngest then.
#[inline(always)]
fn make_in_place(
    table: &mut RegionTable,
    buffers: &mut AllocBuffers,
    ages: &mut RegionAges,
    mutator: u32,
    size: u32,
    name: u64,
    counts: Counts,
    weaks: u8,
) -> Result<Addr, Full>
    requires can { CanMake table.old buffers.old mutator size counts weaks }
    requires each { length ages.old.stamps ≡ length table.old.regions }
    ensures made { IfOk result (λ a. (p : Placement) × IsMadeAt table.old table.new buffers.old buffers.new mutator size
        (new_object name counts.pointers weaks counts.values) a p) }
    ensures full { IsErr result ↔ (allocation_of table.old buffers.old mutator size ≡ None) }
    ensures table_same { OnErr result (table.new ≡ table.old) }
    ensures buffers_same { OnErr result (buffers.new ≡ buffers.old) }
    ensures aged { IfOk result (λ a. ages.new ≡ with_current ages.old buffers.old.current buffers.new.current) }
    ensures ages_same { OnErr result (ages.new ≡ ages.old) }
{
    let was = buffers.current();
    let Ok(place) = buffers.allocate(table, mutator, size) else {
        return Err(Full);
    };
    take_current(ages, was, buffers.current());
    table.law();
    Ok(make(table, place, name, header_counts(counts, weaks)))
}

/// Makes a new object, and answers its address: in the mutator's buffer, if it can't be humongous and there is room.
#[inline(always)]
fn create(
    table: &mut RegionTable,
    buffers: &mut AllocBuffers,
    ages: &mut RegionAges,
    mutator: u32,
    size: u32,
    humongous: bool,
    name: u64,
    counts: Counts,
    weaks: u8,
) -> Result<Addr, Full>
    requires can { CanMake table.old buffers.old mutator size counts weaks }
    requires half { humongous ≡ false → 2 * size ≤ table.old.words_per_region }
    requires each { length ages.old.stamps ≡ length table.old.regions }
    ensures made { IfOk result (λ a. (p : Placement) × IsMadeAt table.old table.new buffers.old buffers.new mutator size
        (new_object name counts.pointers weaks counts.values) a p) }
    ensures full { IsErr result ↔ (allocation_of table.old buffers.old mutator size ≡ None) }
    ensures table_same { OnErr result (table.new ≡ table.old) }
    ensures buffers_same { OnErr result (buffers.new ≡ buffers.old) }
    ensures aged { IfOk result (λ a. ages.new ≡ with_current ages.old buffers.old.current buffers.new.current) }
    ensures ages_same { OnErr result (ages.new ≡ ages.old) }
{
    if !humongous {
        if let Some(at) = make_inside(table, buffers, mutator, size, name, counts, weaks) {
            return Ok(at);
        }
    }
    make_in_place(table, buffers, ages, mutator, size, name, counts, weaks)
}

/// How many weak slots the object that an action makes has. `act` asks it, so that `new_object` stands there once.
fn weaks_of(action: Action) -> u8
    ensures { result ≡ weaks_made action }
{
    match action {
        Action::NewWeak { weaks, .. } => weaks,
        _ => 0,
    }
}

/// A new object: its name, and where it starts.
#[derive(Drop)]
pub struct NewObject {
    pub name: u64,
    pub at: Addr,
}

/// The reply to who asks for an object: its name, or why it is refused.
///
/// ```rust
/// let made = core.make_at(0, r0, counts);
/// assert_eq!(rt; new_reply(&made), Reply::Named(Some(0)));
/// ```
#[inline(always)]
pub fn new_reply(made: &Result<NewObject, Refusal>) -> Reply
    ensures { result ≡ new_reply made.now }
{
    match made {
        Ok(object) => Reply::Named(Some(object.name)),
        Err(refusal) => Reply::Refused(*refusal),
    }
}

impl Core {
    ghost use Rattle.heap_steps.specs.declared.step.Action.TheVariants as actions;
    ghost use Rattle.heap_steps.specs.declared.step.Step.TheVariants as steps;

    fn get(&mut self, mutator: u32, to: Register, object: Register, field: u32) -> Reply
        requires mutator { mutator < self.old.config.mutators }
        requires to { IsRegister (root_counts_of self.old.config) to }
        requires object { IsRegister (root_counts_of self.old.config) object }
        ensures { DoesAction mutator (actions.Get to object field) result self.old self.new }
    {
        let Some(at) = self.register(mutator, object) else {
            return Reply::Refused(Refusal::Nil);
        };
        if field >= self.table.plain_pointer_count(at) {
            return Reply::Refused(Refusal::NoField);
        }
        let value = self.table.get_ptr(at, field);
        let name = self.take_named(mutator, to, value);
        Reply::Named(name)
    }

    fn read(&self, mutator: u32, object: Register, field: u32) -> Reply
        requires mutator { mutator < self.now.config.mutators }
        requires object { IsRegister (root_counts_of self.now.config) object }
        ensures { DoesAction mutator (actions.Read object field) result self.now self.now }
    {
        let Some(at) = self.register(mutator, object) else {
            return Reply::Refused(Refusal::Nil);
        };
        if field >= self.table.value_count(at) {
            return Reply::Refused(Refusal::NoField);
        }
        Reply::Word(self.table.get_value(at, field))
    }

    /// What is stored: nil, or what a register holds.
    fn stored(&self, mutator: u32, value: Option<Register>) -> Ptr
        requires mutator { mutator < self.now.config.mutators }
        requires value { IsValue (root_counts_of self.now.config) value }
        ensures { HoldsValue self.now mutator value result }
    {
        match value {
            None => None,
            Some(register) => self.register(mutator, register),
        }
    }

    #[inline(always)]
    fn put(&mut self, mutator: u32, object: Register, field: u32, value: Option<Register>) -> Reply
        requires mutator { mutator < self.old.config.mutators }
        requires object { IsRegister (root_counts_of self.old.config) object }
        requires value { IsValue (root_counts_of self.old.config) value }
        ensures { DoesAction mutator (actions.Put object field value) result self.old self.new }
    {
        let Some(at) = self.register(mutator, object) else {
            return Reply::Refused(Refusal::Nil);
        };
        self.put_in(mutator, object, at, field, value)
    }

    /// The same, in the object that starts at an address, which the register holds.
    #[inline(always)]
    pub(crate) fn put_in(
        &mut self,
        mutator: u32,
        object: Register,
        at: Addr,
        field: u32,
        value: Option<Register>,
    ) -> Reply
        requires mutator { mutator < self.old.config.mutators }
        requires value { IsValue (root_counts_of self.old.config) value }
        requires names { NamesAt self.old mutator object at }
        ensures { DoesAction mutator (actions.Put object field value) result self.old self.new }
    {
        match self.stored(mutator, value) {
            None => self.put_word(mutator, object, at, field, value, None),
            Some(to) => self.put_word(mutator, object, at, field, value, Some(to)),
        }
    }

    /// The same of the word that is stored. Nil and an address have code of their own each, so neither is tested again.
    #[inline(always)]
    fn put_word(
        &mut self,
        mutator: u32,
        object: Register,
        at: Addr,
        field: u32,
        value: Option<Register>,
        target: Ptr,
    ) -> Reply
        requires mutator { mutator < self.old.config.mutators }
        requires names { NamesAt self.old mutator object at }
        requires target { HoldsValue self.old mutator value target }
        ensures { DoesAction mutator (actions.Put object field value) result self.old self.new }
    {
        if field >= self.table.plain_pointer_count(at) {
            return Reply::Refused(Refusal::NoField);
        }
        self.store(mutator, at, field, target);
        Reply::Done
    }

    /// The same of a field that the object has, whose header isn't looked at then. The store itself is a call.
    #[inline(always)]
    pub(crate) fn put_known(
        &mut self,
        mutator: u32,
        object: Register,
        at: Addr,
        field: u32,
        value: Option<Register>,
    )
        requires mutator { mutator < self.old.config.mutators }
        requires value { IsValue (root_counts_of self.old.config) value }
        requires names { NamesAt self.old mutator object at }
        requires field { field < length (pointers_at self.old.table at) }
        ensures does { DoesAction mutator (actions.Put object field value) replies.Done self.old self.new }
        ensures table { self.new.table ≡ set_pointer self.old.table at field (value_of self.old mutator value) }
    {
        let target = self.stored(mutator, value);
        self.store_apart(mutator, at, field, target);
    }

    fn write(&mut self, mutator: u32, object: Register, field: u32, value: u64) -> Reply
        requires mutator { mutator < self.old.config.mutators }
        requires object { IsRegister (root_counts_of self.old.config) object }
        ensures { DoesAction mutator (actions.Write object field value) result self.old self.new }
    {
        let Some(at) = self.register(mutator, object) else {
            return Reply::Refused(Refusal::Nil);
        };
        self.write_in(mutator, object, at, field, value)
    }

    /// The same, in the object that starts at an address, which the register holds.
    #[inline(always)]
    pub(crate) fn write_in(
        &mut self,
        mutator: u32,
        object: Register,
        at: Addr,
        field: u32,
        value: u64,
    ) -> Reply
        requires { NamesAt self.old mutator object at }
        ensures { DoesAction mutator (actions.Write object field value) result self.old self.new }
    {
        if field >= self.table.value_count(at) {
            return Reply::Refused(Refusal::NoField);
        }
        self.table.set_value(at, field, value);
        Reply::Done
    }

    /// The same of a data word that the object has, whose number isn't tested then, and where the object has so many fields.
    #[inline(always)]
    pub(crate) fn write_known(
        &mut self,
        mutator: u32,
        object: Register,
        at: Addr,
        fields: u32,
        field: u32,
        value: u64,
    )
        requires names { NamesAt self.old mutator object at }
        requires fields { fields ≡ length (fields_at self.old.table at) }
        requires field { field < length (values_at self.old.table at) }
        ensures does { DoesAction mutator (actions.Write object field value) replies.Done self.old self.new }
        ensures table { self.new.table ≡ set_value self.old.table at field value }
    {
        self.table.set_value_behind(at, fields, field, value);
    }

    fn move_register(&mut self, mutator: u32, to: Register, from: Register) -> Reply
        requires mutator { mutator < self.old.config.mutators }
        requires to { IsRegister (root_counts_of self.old.config) to }
        requires from { IsRegister (root_counts_of self.old.config) from }
        ensures { DoesAction mutator (actions.Move to from) result self.old self.new }
    {
        self.copy_register(mutator, to, from);
        Reply::Done
    }

    fn drop_register(&mut self, mutator: u32, register: Register) -> Reply
        requires mutator { mutator < self.old.config.mutators }
        requires register { IsRegister (root_counts_of self.old.config) register }
        ensures { DoesAction mutator (actions.Drop register) result self.old self.new }
    {
        self.set_register(mutator, register, None);
        Reply::Done
    }

    fn load(&mut self, mutator: u32, to: Register, from: GlobalRoot) -> Reply
        requires mutator { mutator < self.old.config.mutators }
        requires to { IsRegister (root_counts_of self.old.config) to }
        requires from { IsGlobal (root_counts_of self.old.config) from }
        ensures { DoesAction mutator (actions.Load to from) result self.old self.new }
    {
        let value = self.root(from.number as usize);
        let name = self.name_of(&value);
        self.set_register(mutator, to, value);
        Reply::Named(name)
    }

    fn save(&mut self, mutator: u32, to: GlobalRoot, from: Register) -> Reply
        requires mutator { mutator < self.old.config.mutators }
        requires to { IsGlobal (root_counts_of self.old.config) to }
        requires from { IsRegister (root_counts_of self.old.config) from }
        ensures { DoesAction mutator (actions.Save to from) result self.old self.new }
    {
        self.copy_to_global(to, mutator, from);
        Reply::Done
    }

    fn shape(&self, mutator: u32, object: Register) -> Reply
        requires mutator { mutator < self.now.config.mutators }
        requires object { IsRegister (root_counts_of self.now.config) object }
        ensures { DoesAction mutator (actions.Shape object) result self.now self.now }
    {
        let Some(at) = self.register(mutator, object) else {
            return Reply::Refused(Refusal::Nil);
        };
        Reply::Shape {
            pointers: self.table.pointer_count(at),
            values: self.table.value_count(at),
        }
    }

    /// What a weak slot of an object that a root names shows: what it holds, or nil while it is still to be cleared.
    #[inline(always)]
    fn weak_word(&self, object: Addr, slot: u32) -> Ptr
        requires rooted { IsRoot (heap_of self.now) object }
        requires slot { slot < length (weaks_at self.now.table object) }
        ensures { result ≡ weak_of self.now object slot }
    {
        let word = self.table.get_weak(object, slot);
        if self.clearing.is_none() {
            return word;
        }
        self.marker.lasting(&self.table, word)
    }

    /// How many weak slots an object that a root names has: its fields but its pointers, so that its header isn't asked which kind it is.
    #[inline(always)]
    fn slot_count(&self, object: Addr) -> u32
        requires { IsRoot (heap_of self.now) object }
        ensures { result ≡ length (weaks_at self.now.table object) }
    {
        self.table.field_count(object) - self.table.plain_pointer_count(object)
    }

    /// A register takes what was read from a weak slot, and its name is answered. What follows a test of the value is in both arms, so that
    /// each knows it.
    #[inline(always)]
    fn touch_named(&mut self, mutator: u32, to: Register, value: Ptr) -> Option<u64>
        requires known { mutator < self.old.config.mutators }
        requires to { IsRegister (root_counts_of self.old.config) to }
        requires word { IsWordOf (heap_of self.old) value }
        ensures name { result ≡ name_in self.old.table value }
        ensures touches { Touches mutator to value self.old self.new }
    {
        match value {
            None => {
                self.touch(mutator, to, &value);
                None
            }
            Some(_) => {
                let name = self.name_of(&value);
                self.touch(mutator, to, &value);
                name
            }
        }
    }

    /// `to` takes what a weak slot shows that the object at an address has, which the register holds. Answers its name.
    #[inline(always)]
    fn get_weak_at(
        &mut self,
        mutator: u32,
        to: Register,
        object: Register,
        at: Addr,
        slot: u32,
    ) -> Option<u64>
        requires mutator { mutator < self.old.config.mutators }
        requires to { IsRegister (root_counts_of self.old.config) to }
        requires names { NamesAt self.old mutator object at }
        requires slot { slot < length (weaks_at self.old.table at) }
        ensures { GetsWeak mutator to object slot (replies.Named result) self.old self.new }
    {
        self.law_remembers();
        let value = self.weak_word(at, slot);
        self.touch_named(mutator, to, value)
    }

    /// The same by a call. A name comes back in two registers of the machine, where a reply would be written into memory: so who neither
    /// marks nor clears has no room on the stack.
    #[cold]
    #[inline(never)]
    fn get_weak_apart(
        &mut self,
        mutator: u32,
        to: Register,
        object: Register,
        at: Addr,
        slot: u32,
    ) -> Option<u64>
        requires mutator { mutator < self.old.config.mutators }
        requires to { IsRegister (root_counts_of self.old.config) to }
        requires names { NamesAt self.old mutator object at }
        requires slot { slot < length (weaks_at self.old.table at) }
        ensures { GetsWeak mutator to object slot (replies.Named result) self.old self.new }
    {
        self.get_weak_at(mutator, to, object, at, slot)
    }

    // A function that is inlined always has to be small: whoever does any step has this one, and would no longer be inlined itself.
    #[inline]
    fn get_weak(&mut self, mutator: u32, to: Register, object: Register, slot: u32) -> Reply
        requires mutator { mutator < self.old.config.mutators }
        requires to { IsRegister (root_counts_of self.old.config) to }
        requires object { IsRegister (root_counts_of self.old.config) object }
        ensures { GetsWeak mutator to object slot result self.old self.new }
    {
        let Some(at) = self.register(mutator, object) else {
            return Reply::Refused(Refusal::Nil);
        };
        if slot >= self.slot_count(at) {
            return Reply::Refused(Refusal::NoField);
        }
        if self.marker.running || self.clearing.is_some() {
            return Reply::Named(self.get_weak_apart(mutator, to, object, at, slot));
        }
        Reply::Named(self.get_weak_at(mutator, to, object, at, slot))
    }

    fn put_weak(
        &mut self,
        mutator: u32,
        object: Register,
        slot: u32,
        value: Option<Register>,
    ) -> Reply
        requires mutator { mutator < self.old.config.mutators }
        requires object { IsRegister (root_counts_of self.old.config) object }
        requires value { IsValue (root_counts_of self.old.config) value }
        ensures { DoesAction mutator (actions.PutWeak object slot value) result self.old self.new }
    {
        let Some(at) = self.register(mutator, object) else {
            return Reply::Refused(Refusal::Nil);
        };
        let target = self.stored(mutator, value);
        if slot >= self.table.weak_count(at) {
            return Reply::Refused(Refusal::NoField);
        }
        self.store_weak(mutator, at, slot, target);
        Reply::Done
    }

    fn weaks(&self, mutator: u32, object: Register) -> Reply
        requires mutator { mutator < self.now.config.mutators }
        requires object { IsRegister (root_counts_of self.now.config) object }
        ensures { DoesAction mutator (actions.Weaks object) result self.now self.now }
    {
        let Some(at) = self.register(mutator, object) else {
            return Reply::Refused(Refusal::Nil);
        };
        Reply::Word(u64::from(self.table.weak_count(at)))
    }

    fn scope(&mut self, mutator: u32, from: Register) -> Reply
        requires mutator { mutator < self.old.config.mutators }
        requires from { IsRegister (root_counts_of self.old.config) from }
        ensures { DoesAction mutator (actions.Scope from) result self.old self.new }
    {
        self.leave(mutator, from);
        Reply::Done
    }

    /// Whether an object of so many words is too big. Of up to 16 none is, since a region has as many.
    #[inline(always)]
    fn is_too_big(&self, size: u64) -> bool
        ensures big { result ≡ true → object_limit self.now.config < size }
        ensures fits { result ≡ false → size ≤ object_limit self.now.config }
    {
        16 < size && self.config.object_limit() < size
    }

    /// Whether an object of so many words may be humongous, which has more than half a region. Of up to 8 none is, since a region has 16.
    #[inline(always)]
    fn is_humongous(&self, size: u32) -> bool
        requires { size ≤ max_object_words }
        ensures { result ≡ false → 2 * size ≤ self.now.table.words_per_region }
    {
        8 < size && self.table.words_per_region() < 2 * size
    }

    /// Whether an object has up to 18 words and no weak slot, and leaves something of the mutator's buffer. No promise hangs on the answer.
    /// The last test is that of `cut`, in the same numbers, so that the compiler leaves that out.
    #[inline(always)]
    fn is_small(&self, mutator: u32, counts: Counts, weaks: u8) -> bool
        requires { mutator < self.now.config.mutators }
    {
        let size = counts.size(weaks);
        if weaks > 0 || 18 < size || self.next == u64::MAX {
            return false;
        }
        (size as u32) < self.buffers.rest(mutator)
    }

    /// Makes an object with so many weak slots, 0 of them for a plain one, and answers it, or why it is refused. A small one is made
    /// within the caller, and any other by a call, for which a small one saves no registers.
    #[inline(always)]
    pub(crate) fn made(
        &mut self,
        mutator: u32,
        to: Register,
        counts: Counts,
        weaks: u8,
    ) -> Result<NewObject, Refusal>
        requires mutator { mutator < self.old.config.mutators }
        requires to { IsRegister (root_counts_of self.old.config) to }
        ensures { MakesNew mutator to counts weaks result self.old self.new }
    {
        if self.is_small(mutator, counts, weaks) {
            self.new_here(mutator, to, counts, weaks)
        } else {
            self.made_apart(mutator, to, counts, weaks)
        }
    }

    /// The same, and replies.
    #[inline(always)]
    fn new_object(&mut self, mutator: u32, to: Register, counts: Counts, weaks: u8) -> Reply
        requires mutator { mutator < self.old.config.mutators }
        requires to { IsRegister (root_counts_of self.old.config) to }
        ensures { MakesObject mutator to counts weaks result self.old self.new }
    {
        new_reply(&self.made(mutator, to, counts, weaks))
    }

    /// Makes an object by a call, which writes its answer into memory. That memory is cleared here, so that who makes a small object
    /// doesn't clear any.
    #[inline(always)]
    fn made_apart(
        &mut self,
        mutator: u32,
        to: Register,
        counts: Counts,
        weaks: u8,
    ) -> Result<NewObject, Refusal>
        requires mutator { mutator < self.old.config.mutators }
        requires to { IsRegister (root_counts_of self.old.config) to }
        ensures { MakesNew mutator to counts weaks result self.old self.new }
    {
        self.new_apart(mutator, to, counts, weaks)
    }

    /// Makes an object, as a call.
    #[cold]
    #[inline(never)]
    fn new_apart(
        &mut self,
        mutator: u32,
        to: Register,
        counts: Counts,
        weaks: u8,
    ) -> Result<NewObject, Refusal>
        requires mutator { mutator < self.old.config.mutators }
        requires to { IsRegister (root_counts_of self.old.config) to }
        ensures { MakesNew mutator to counts weaks result self.old self.new }
    {
        self.new_here(mutator, to, counts, weaks)
    }

    /// The same, as part of the caller.
    #[inline(always)]
    fn new_here(
        &mut self,
        mutator: u32,
        to: Register,
        counts: Counts,
        weaks: u8,
    ) -> Result<NewObject, Refusal>
        requires mutator { mutator < self.old.config.mutators }
        requires to { IsRegister (root_counts_of self.old.config) to }
        ensures { MakesNew mutator to counts weaks result self.old self.new }
    {
        let size = counts.size(weaks);
        if self.is_too_big(size) {
            return Err(Refusal::TooBig);
        }
        if self.next == u64::MAX {
            return Err(Refusal::NamesSpent);
        }
        self.table.law();
        let size = size as u32;
        let humongous = self.is_humongous(size);
        let name = self.next;
        let table = &mut self.table;
        let Ok(at) = create(
            table,
            &mut self.buffers,
            &mut self.ages,
            mutator,
            size,
            humongous,
            name,
            counts,
            weaks,
        ) else {
            return Err(Refusal::Full);
        };
        self.roots.set_register(mutator, to.number, Some(at));
        self.next += 1;
        Ok(NewObject { name, at })
    }

    /// Does a mutator's step. Where the step is known, as in a call of the C library, its own arm alone is left of this.
    #[inline(always)]
    pub(crate) fn act(&mut self, op: Op) -> Reply
        requires { IsOpAt (root_counts_of self.old.config) op }
        ensures takes { Takes self.old (steps.Mutator op) result self.new }
        ensures leaves { LeavesRegions self.old self.new }
        ensures within { IsWithin self.old.config op.action result }
        ensures made { HasMade op.mutator op.action result self.new }
    {
        let mutator = op.mutator;
        match op.action {
            Action::New { to, counts } | Action::NewWeak { to, counts, .. } => {
                self.new_object(mutator, to, counts, weaks_of(op.action))
            }
            Action::Get { to, object, field } => self.get(mutator, to, object, field),
            Action::Put {
                object,
                field,
                value,
            } => self.put(mutator, object, field, value),
            Action::Read { object, field } => self.read(mutator, object, field),
            Action::Write {
                object,
                field,
                value,
            } => self.write(mutator, object, field, value),
            Action::Move { to, from } => self.move_register(mutator, to, from),
            Action::Drop { register } => self.drop_register(mutator, register),
            Action::Load { to, from } => self.load(mutator, to, from),
            Action::Save { to, from } => self.save(mutator, to, from),
            Action::Shape { object } => self.shape(mutator, object),
            Action::GetWeak { to, object, slot } => self.get_weak(mutator, to, object, slot),
            Action::PutWeak {
                object,
                slot,
                value,
            } => self.put_weak(mutator, object, slot, value),
            Action::Weaks { object } => self.weaks(mutator, object),
            Action::Scope { from } => self.scope(mutator, from),
        }
    }
}
