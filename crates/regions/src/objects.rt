//! Reads and writes of objects: each is one access to a word or two, and no walk.
ghost use Rattle.std.specs.Prelude.{◌≡◌, ◌<◌, ◌≤◌, ◌+◌, length, take, drop, slice_get, Some, IsSome, IfSome};
ghost use Rattle.heap_words.specs.Contents.{header_at, counts_of, pointer_count_at, field_count_at, weak_count, value_count, IsPlainHeader};
ghost use Rattle.regions.specs.Table.{object_at, object_words, pointers_at, weaks_at, held_at, fields_at, values_at, set_pointer};
ghost use Rattle.regions.specs.Table.{set_weak, set_held, set_field, set_value, set_values, tile_in, moved_to};
ghost use Rattle.regions.specs.Rows.{header_target, sizes_in};
ghost use Rattle.regions.specs.Shaped.{IsBareAt};

use crate::table::RegionTable;
use heap_words::addr::{Addr, Ptr};
use heap_words::header::Header;
use heap_words::words::Words;

/// How many pointers the object at an address has.
fn pointers_in(words: &Words, at: Addr) -> u32
    requires within { at < words.now.written }
    requires object { IsSome (counts_of (header_at words.now.all at)) }
    ensures { result ≡ pointer_count_at words.now.all at }
{
    words.pointer_count(at)
}

/// The same of an object without held slots.
fn plain_pointers_in(words: &Words, at: Addr) -> u32
    requires within { at < words.now.written }
    requires object { IsPlainHeader (header_at words.now.all at) }
    ensures { result ≡ pointer_count_at words.now.all at }
{
    words.plain_pointer_count(at)
}

/// How many fields the object at an address has.
fn fields_in(words: &Words, at: Addr) -> u32
    requires within { at < words.now.written }
    requires object { IsSome (counts_of (header_at words.now.all at)) }
    ensures { result ≡ field_count_at words.now.all at }
{
    words.field_count(at)
}

/// How many weak slots the object at an address has.
fn weaks_in(words: &Words, at: Addr) -> u32
    requires within { at < words.now.written }
    requires object { IsSome (counts_of (header_at words.now.all at)) }
    ensures { result ≡ weak_count (header_at words.now.all at) }
{
    words.weak_count(at)
}

/// How many data words the object at an address has.
fn values_in(words: &Words, at: Addr) -> u32
    requires within { at < words.now.written }
    requires object { IsSome (counts_of (header_at words.now.all at)) }
    ensures { result ≡ value_count (header_at words.now.all at) }
{
    words.value_count(at)
}

/// How many words the object at an address has.
fn size_in(words: &Words, at: Addr) -> u32
    requires within { at < words.now.written }
    requires object { IsSome (counts_of (header_at words.now.all at)) }
    ensures { result ≡ sizes_in words.now.all at }
{
    words.object_size(at)
}

/// Where the object at an address went, if it is forwarded.
fn target_in(words: &Words, at: Addr) -> Option<Addr>
    requires { at < words.now.written }
    ensures { result ≡ header_target (header_at words.now.all at) }
{
    match words.header(at) {
        Some(header) => match header {
            Header::Forwarded { to } => Some(to),
            Header::Object { .. } | Header::Pairs { .. } | Header::Filler { .. } => None,
        },
        None => None,
    }
}

impl RegionTable {
    /// The name of the object at an address.
    pub fn name(&self, object: Addr) -> u64
        requires { IsSome (object_at self.now object) }
        ensures { IfSome (object_at self.now object) (λ s. result ≡ s.name) }
    {
        self.words.name(object)
    }

    /// How many pointers the object at an address has.
    pub fn pointer_count(&self, object: Addr) -> u32
        requires { IsSome (object_at self.now object) }
        ensures { result ≡ length (pointers_at self.now object) }
    {
        pointers_in(&self.words, object)
    }

    /// The same of an object without held slots: its header isn't asked which kind it is.
    pub fn plain_pointer_count(&self, object: Addr) -> u32
        requires there { IsSome (object_at self.now object) }
        requires bare { IsBareAt self.now object }
        ensures { result ≡ length (pointers_at self.now object) }
    {
        plain_pointers_in(&self.words, object)
    }

    /// How many weak slots the object at an address has.
    pub fn weak_count(&self, object: Addr) -> u32
        requires { IsSome (object_at self.now object) }
        ensures { result ≡ length (weaks_at self.now object) }
    {
        weaks_in(&self.words, object)
    }

    /// How many fields the object at an address has: its pointers, its weak slots behind them, and its held slots last.
    pub fn field_count(&self, object: Addr) -> u32
        requires { IsSome (object_at self.now object) }
        ensures { result ≡ length (fields_at self.now object) }
    {
        fields_in(&self.words, object)
    }

    /// How many data words the object at an address has.
    pub fn value_count(&self, object: Addr) -> u32
        requires { IsSome (object_at self.now object) }
        ensures { result ≡ length (values_at self.now object) }
    {
        values_in(&self.words, object)
    }

    /// How many words the object at an address has, with its header and its name.
    pub fn object_size(&self, object: Addr) -> u32
        requires { IsSome (object_at self.now object) }
        ensures { result ≡ object_words self.now object }
    {
        size_in(&self.words, object)
    }

    /// A pointer of the object at an address.
    pub fn get_ptr(&self, object: Addr, index: u32) -> Ptr
        requires { index < length (pointers_at self.now object) }
        ensures { slice_get (pointers_at self.now object) index ≡ Some result }
    {
        self.words.get_field(object, index)
    }

    /// Stores a pointer in the object at an address.
    pub fn set_ptr(&mut self, object: Addr, index: u32, target: Ptr)
        requires { index < length (pointers_at self.old object) }
        ensures { self.new ≡ set_pointer self.old object index target }
    {
        self.words.set_field(object, index, target);
    }

    /// A weak slot of the object at an address.
    pub fn get_weak(&self, object: Addr, slot: u32) -> Ptr
        requires { slot < length (weaks_at self.now object) }
        ensures { slice_get (weaks_at self.now object) slot ≡ Some result }
    {
        let place = pointers_in(&self.words, object) + slot;
        self.words.get_field(object, place)
    }

    /// Stores an address, or nil, in a weak slot of the object at an address.
    pub fn set_weak(&mut self, object: Addr, slot: u32, target: Ptr)
        requires { slot < length (weaks_at self.old object) }
        ensures { self.new ≡ set_weak self.old object slot target }
    {
        let place = pointers_in(&self.words, object) + slot;
        self.words.set_field(object, place, target);
    }

    /// How many held slots the object at an address has: one for each weak slot, its key, in an object of pairs, and else none.
    pub fn held_count(&self, object: Addr) -> u32
        requires { IsSome (object_at self.now object) }
        ensures { result ≡ length (held_at self.now object) }
    {
        self.field_count(object) - self.pointer_count(object) - self.weak_count(object)
    }

    /// A held slot of the object at an address: what it holds for the key in the weak slot of that place.
    pub fn get_held(&self, object: Addr, slot: u32) -> Ptr
        requires { slot < length (held_at self.now object) }
        ensures { slice_get (held_at self.now object) slot ≡ Some result }
    {
        self.law();
        let place = self.pointer_count(object) + self.weak_count(object) + slot;
        self.get_field(object, place)
    }

    /// Stores an address, or nil, in a held slot of the object at an address. Its key stays.
    pub fn set_held(&mut self, object: Addr, slot: u32, target: Ptr)
        requires { slot < length (held_at self.old object) }
        ensures { self.new ≡ set_held self.old object slot target }
    {
        self.law();
        let place = self.pointer_count(object) + self.weak_count(object) + slot;
        self.set_field(object, place, target);
    }

    /// A field of the object at an address, by its place among the fields in address order.
    pub fn get_field(&self, object: Addr, field: u32) -> Ptr
        requires { field < length (fields_at self.now object) }
        ensures { slice_get (fields_at self.now object) field ≡ Some result }
    {
        self.words.get_field(object, field)
    }

    /// Stores an address, or nil, in a field of the object at an address.
    pub fn set_field(&mut self, object: Addr, field: u32, target: Ptr)
        requires { field < length (fields_at self.old object) }
        ensures { self.new ≡ set_field self.old object field target }
    {
        self.words.set_field(object, field, target);
    }

    /// A data word of the object at an address.
    pub fn get_value(&self, object: Addr, field: u32) -> u64
        requires { field < length (values_at self.now object) }
        ensures { slice_get (values_at self.now object) field ≡ Some result }
    {
        self.words.value(object, field)
    }

    /// Stores a data word in the object at an address.
    pub fn set_value(&mut self, object: Addr, field: u32, value: u64)
        requires { field < length (values_at self.old object) }
        ensures { self.new ≡ set_value self.old object field value }
    {
        self.words.set_value(object, field, value);
    }

    /// The same in an object that has so many fields: its header isn't looked at.
    pub fn set_value_behind(&mut self, object: Addr, fields: u32, field: u32, value: u64)
        requires fields { fields ≡ length (fields_at self.old object) }
        requires field { field < length (values_at self.old object) }
        ensures { self.new ≡ set_value self.old object field value }
    {
        self.words.set_value_behind(object, fields, field, value);
    }

    /// Copies data words of the object at an address, from one on: as many as there is room for.
    pub fn get_values(&self, object: Addr, from: u32, out: &mut [u64])
        requires object { IsSome (object_at self.now object) }
        requires within { from + length out.old ≤ length (values_at self.now object) }
        ensures { out.new ≡ take (length out.old) (drop from (values_at self.now object)) }
    {
        self.words.values(object, from, out);
    }

    /// Stores data words in the object at an address, from one on.
    pub fn set_values(&mut self, object: Addr, from: u32, values: &[u64])
        requires object { IsSome (object_at self.old object) }
        requires within { from + length values.now ≤ length (values_at self.old object) }
        ensures { self.new ≡ set_values self.old object from values.now }
    {
        self.words.set_values(object, from, values);
    }

    /// Where the tile at an address went, if it is an object that was forwarded.
    pub fn target(&self, at: Addr) -> Option<Addr>
        requires { IsSome (tile_in self.now at) }
        ensures { result ≡ moved_to (tile_in self.now at) }
    {
        target_in(&self.words, at)
    }
}
