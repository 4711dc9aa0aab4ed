//! The classes of the kept objects, one for each object.

ghost use Rattle.std.specs.Prelude.{◌≡◌, ◌++◌, IfOk, OnOk, map, length, option_map, sum_by};
ghost use Rattle.heap_view.specs.Census.{AddsClasses, AreSmall, class_cmp, class_of, class_size, is_same, kept_classes};
ghost use Rattle.heap_view.specs.Types.{listed_class, type_of, type_word, word_class};

use heap_walk::{Entry, walk};
use std::alloc::{AllocError, Global};
use std::cmp::Ordering;
use step_core::Core;
use type_names::Types;

/// How many objects a walk tells at a time.
const AT_A_TIME: usize = 64;

/// A class of objects: how many fields of each kind they have, and their first data word, 0 where they have none.
#[derive(Clone, Copy)]
pub(crate) struct Class {
    pub(crate) pointers: u32,
    pub(crate) weaks: u32,
    pub(crate) values: u32,
    pub(crate) word: u64,
}

/// The class of an object.
pub(crate) fn class_of(entry: &Entry) -> Class
    ensures { result ≡ class_of entry.now }
{
    Class {
        pointers: entry.pointers,
        weaks: entry.weaks,
        values: entry.values,
        word: entry.word,
    }
}

/// Adds the classes of some objects.
fn add_classes(classes: &mut Vec<Class>, entries: &[Entry]) -> Result<(), AllocError>
    ensures { OnOk result (classes.new.items ≡ classes.old.items ++ map class_of entries.now) }
{
    for entry in entries {
        classes.push(class_of(entry))?;
    }
    Ok(())
}

/// Adds the classes of the next kept objects from a place on, which goes on, and answers whether there may be more.
fn add_next(core: &Core, place: &mut u64, classes: &mut Vec<Class>) -> Result<bool, AllocError>
    ensures { IfOk result (AddsClasses core.now place.old place.new classes.old.items classes.new.items) }
{
    core.law_shaped();
    let mut entries = [Entry {
        name: 0,
        word: 0,
        pointers: 0,
        weaks: 0,
        values: 0,
    }; AT_A_TIME];
    let count = walk(core, place, &mut entries);
    add_classes(classes, &entries[..count])?;
    Ok(count == AT_A_TIME)
}

/// The classes of the kept objects, one for each object.
pub(crate) fn kept_classes(alloc: Global, core: &Core) -> Result<Vec<Class>, AllocError>
    ensures value { IfOk result (λ classes. classes.items ≡ kept_classes core.now) }
    ensures small { IfOk result (λ classes. AreSmall classes.items) }
{
    core.law_shaped();
    let mut classes = Vec::new(alloc);
    let mut place = 0;
    'objects: loop {
        if !add_next(core, &mut place, &mut classes)? {
            return Ok(classes);
        }
    }
}

/// Which of two classes comes first.
pub(crate) fn class_order(a: &Class, b: &Class) -> Ordering
    ensures { result ≡ class_cmp a.now b.now }
{
    a.pointers
        .cmp(&b.pointers)
        .then(a.weaks.cmp(&b.weaks))
        .then(a.values.cmp(&b.values))
        .then(a.word.cmp(&b.word))
}

/// Whether two classes are the same.
pub(crate) fn is_same(a: &Class, b: &Class) -> bool
    ensures { result ≡ is_same a.now b.now }
{
    class_order(a, b).is_eq()
}

/// How many words an object of a class has.
pub(crate) fn class_size(class: &Class) -> u64
    ensures { result ≡ class_size class.now }
{
    2 + u64::from(class.pointers) + u64::from(class.weaks) + u64::from(class.values)
}

/// How many words the objects of these classes have.
pub(crate) fn sum_of(classes: &[Class]) -> u64
    requires { AreSmall classes.now }
    ensures { result ≡ sum_by class_size classes.now }
{
    let mut sum = 0;
    for class in classes {
        sum += class_size(class);
    }
    sum
}

/// The name of a class's first data word, if it has one.
pub(crate) fn type_of<'a>(types: &Types<'a>, class: &Class) -> Option<&'a [u8]>
    ensures { option_map (λ name. name.now) result ≡ type_of types.now class.now }
{
    if class.values == 0 {
        return None;
    }
    types.name(class.word)
}

/// The first word with the name of a class, if that has a name.
fn type_word(types: &Types, class: &Class) -> Option<u64>
    ensures { result ≡ type_word types.now class.now }
{
    if class.values == 0 {
        return None;
    }
    types.first(class.word)
}

/// The class of objects of one data word and nothing else.
fn word_class(word: u64) -> Class
    ensures { result ≡ word_class word }
{
    Class {
        pointers: 0,
        weaks: 0,
        values: 1,
        word,
    }
}

/// The class under which objects of a class are listed.
pub(crate) fn listed_class(types: &Types, class: &Class) -> Class
    ensures { result ≡ listed_class types.now class.now }
{
    match type_word(types, class) {
        Some(word) => word_class(word),
        None => *class,
    }
}

/// Puts in the place of each class the one under which its objects are listed.
pub(crate) fn list_classes(types: &Types, classes: &mut Vec<Class>)
    ensures value { classes.new.items ≡ map (listed_class types.now) classes.old.items }
    ensures length { length classes.new.items ≡ length classes.old.items }
{
    for place in 0..classes.len() {
        classes[place] = listed_class(types, &classes[place]);
    }
}
