//! Objects in the words of a small memory.

ghost use Rattle.std.specs.Prelude.{◌≡◌, ◌<◌, IfOk};
ghost use Rattle.heap_words.specs.Contents.{field_count_at};

use heap_words::addr::{Addr, Ptr};
use heap_words::header::{
    Count, FillerSize, Header, HeaderCounts, ObjectCounts, PairCount, PairCounts,
};
use heap_words::words::Words;
use std::alloc::{AllocError, Global};
use std::test::Fail;

fn fields_of(words: &Words, object: Addr) -> u32
    requires { object < words.now.written }
    ensures { result ≡ field_count_at words.now.all object }
{
    match words.object_at(object) {
        Some(counts) => counts.pointers.get() + (counts.weaks.get() + counts.held.get()),
        None => 0,
    }
}

/// Whether an object with these counts and this name is there.
fn is_there(words: &Words, object: Addr, counts: ObjectCounts, name: u64) -> bool {
    let written = words.written();
    if written < 2 || written - 2 < object.word() as usize {
        return false;
    }
    words.object_at(object) == Some(counts) && words.name(object) == name
}

/// Whether a field, counted from 0, leads to that.
fn leads(words: &Words, object: Addr, field: u32, to: Ptr) -> bool {
    if words.written() <= object.field(field) {
        return false;
    }
    words.get_field(object, field) == to
}

/// Whether a data word, counted from 0, is this.
fn has_value(words: &Words, object: Addr, field: u32, value: u64) -> bool {
    if words.written() <= object.word() as usize {
        return false;
    }
    if words.object_at(object).is_none() {
        return false;
    }
    let fields = fields_of(words, object);
    if words.written() <= object.field(fields) + field as usize {
        return false;
    }
    words.value(object, field) == value
}

/// Whether this header is there.
fn has_header(words: &Words, at: Addr, header: Header) -> bool {
    if words.written() <= at.word() as usize {
        return false;
    }
    words.header(at) == Some(header)
}

/// Sets a data word of an object, if it is there.
fn store(words: &mut Words, object: Addr, field: u32, value: u64)
    ensures { words.new.written ≡ words.old.written }
{
    if words.written() <= object.word() as usize {
        return;
    }
    if words.object_at(object).is_none() {
        return;
    }
    let fields = fields_of(words, object);
    if words.written() <= object.field(fields) + field as usize {
        return;
    }
    words.set_value(object, field, value);
}

fn small() -> HeaderCounts
    ensures pointers { result.pointers ≡ 1 }
    ensures weaks { result.weaks ≡ 0 }
    ensures values { result.values ≡ 2 }
{
    HeaderCounts {
        pointers: Count::new(1),
        weaks: 0,
        values: Count::new(2),
    }
}

/// Twenty words, of which sixteen are written.
fn sixteen_words(alloc: Global) -> Result<Words, AllocError>
    ensures { IfOk result (λ words. words.written ≡ 16) }
{
    let mut words = Words::new(alloc, 20)?;
    words.zero_below(16);
    Ok(words)
}

/// An object of one pointer and two data words, and a filler after it.
#[test]
fn holds_objects(rt: HostRuntime) -> Result<(), Fail> {
    let mut words = sixteen_words(rt.alloc())?;
    let object = Addr::new(1);
    words.write_object(object, 7, small());
    words.write_filler(Addr::new(6), FillerSize::new(2));
    words.set_field(object, 0, Some(Addr::new(8)));
    store(&mut words, object, 1, 9);
    let size = FillerSize::new(2);
    assert!(rt;
        is_there(&words, object, small().counts(), 7)
            && leads(&words, object, 0, Some(Addr::new(8)))
    );
    assert!(rt; has_value(&words, object, 0, 0) && has_value(&words, object, 1, 9));
    assert!(rt; has_header(&words, Addr::new(6), Header::Filler { size }));
    Ok(())
}

/// A copy of such an object, to which the object is forwarded.
#[test]
fn copies_an_object(rt: HostRuntime) -> Result<(), Fail> {
    let mut words = sixteen_words(rt.alloc())?;
    let object = Addr::new(1);
    let copy = Addr::new(8);
    words.write_object(object, 7, small());
    words.set_field(object, 0, Some(copy));
    store(&mut words, object, 1, 9);
    words.copy_apart(object, copy, 5);
    words.write_forwarded(object, copy);
    assert!(rt; is_there(&words, copy, small().counts(), 7) && leads(&words, copy, 0, Some(copy)));
    assert!(rt; has_value(&words, copy, 0, 0) && has_value(&words, copy, 1, 9));
    assert!(rt; has_header(&words, object, Header::Forwarded { to: copy }));
    assert!(rt; !is_there(&words, object, small().counts(), 7));
    Ok(())
}

fn slotted() -> HeaderCounts
    ensures pointers { result.pointers ≡ 1 }
    ensures weaks { result.weaks ≡ 2 }
    ensures values { result.values ≡ 1 }
{
    HeaderCounts {
        pointers: Count::new(1),
        weaks: 2,
        values: Count::new(1),
    }
}

/// An object of one pointer, two weak slots and one data word.
#[test]
fn holds_weak_slots(rt: HostRuntime) -> Result<(), Fail> {
    let mut words = sixteen_words(rt.alloc())?;
    let object = Addr::new(4);
    words.write_object(object, 7, slotted());
    words.set_field(object, 1, Some(Addr::new(9)));
    words.set_field(object, 2, Some(object));
    store(&mut words, object, 0, 5);
    assert!(rt; is_there(&words, object, slotted().counts(), 7) && leads(&words, object, 0, None));
    assert!(rt;
        leads(&words, object, 1, Some(Addr::new(9))) && leads(&words, object, 2, Some(object))
    );
    assert!(rt; has_value(&words, object, 0, 5));
    Ok(())
}

fn paired() -> PairCounts
    ensures pointers { result.pointers ≡ 1 }
    ensures pairs { result.pairs ≡ 2 }
    ensures values { result.values ≡ 1 }
{
    PairCounts {
        pointers: 1,
        pairs: PairCount::new(2),
        values: Count::new(1),
    }
}

/// An object of one pointer, two pairs and one data word: the first key holds what is at 9.
#[test]
fn holds_pairs(rt: HostRuntime) -> Result<(), Fail> {
    let mut words = sixteen_words(rt.alloc())?;
    let object = Addr::new(4);
    let held = Addr::new(9);
    words.write_pairs(object, 7, paired());
    words.set_field(object, 1, Some(object));
    words.set_field(object, 3, Some(held));
    store(&mut words, object, 0, 5);
    assert!(rt; is_there(&words, object, paired().counts(), 7) && leads(&words, object, 0, None));
    assert!(rt; leads(&words, object, 1, Some(object)) && leads(&words, object, 2, None));
    assert!(rt; leads(&words, object, 3, Some(held)) && leads(&words, object, 4, None));
    assert!(rt; has_value(&words, object, 0, 5));
    Ok(())
}
