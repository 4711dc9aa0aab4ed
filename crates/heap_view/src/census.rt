//! A census: how many kept objects there are of each class, and how many words they have.

ghost use Rattle.std.specs.Prelude.{◌≡◌, ◌≤◌, IfOk, IsSorted, length, drop};
ghost use Rattle.std.specs.List.{prefix_len};
ghost use Rattle.heap_words.specs.Configs.{max_words};
ghost use Rattle.heap_view.specs.Census.{AreRows, AreSmall, IsCensus, class_cmp, class_size, is_same, row_cmp, row_of};

use crate::classes::{Class, class_order, class_size, is_same};
use std::alloc::{AllocError, Global};
use std::cmp::Ordering;

/// A row of a census: a class, how many objects are of it, and how many words these have.
#[derive(Clone, Copy)]
pub(crate) struct Row {
    pub(crate) class: Class,
    pub(crate) objects: u64,
    pub(crate) words: u64,
}

/// The row of a class of so many objects.
fn row_of(class: Class, objects: u64) -> Row
    requires objects { objects ≤ max_words }
    requires size { class_size class ≤ max_words }
    ensures { result ≡ row_of class objects }
{
    Row {
        class,
        objects,
        words: objects * class_size(&class),
    }
}

/// How many classes from a place on are the same as one.
fn run_length(classes: &[Class], from: usize, class: &Class) -> usize
    requires { from ≤ length classes.now }
    ensures { result ≡ prefix_len (λ other. is_same other class.now) (drop from classes.now) }
{
    for place in from..classes.len() {
        if !is_same(&classes[place], class) {
            return place - from;
        }
    }
    classes.len() - from
}

/// The rows of classes in order, one for each class.
fn rows_of(alloc: Global, classes: &[Class]) -> Result<Vec<Row>, AllocError>
    requires small { AreSmall classes.now }
    requires sorted { IsSorted class_cmp classes.now }
    ensures { IfOk result (λ rows. AreRows classes.now rows.items) }
{
    let mut rows = Vec::new(alloc);
    let mut place = 0;
    while place < classes.len() {
        let class = classes[place];
        let count = run_length(classes, place, &class);
        rows.push(row_of(class, count as u64))?;
        place += count;
    }
    Ok(rows)
}

/// Which of two rows comes first.
fn row_order(a: &Row, b: &Row) -> Ordering
    ensures { result ≡ row_cmp a.now b.now }
{
    b.words.cmp(&a.words).then(class_order(&a.class, &b.class))
}

/// The census of objects of these classes, which it sorts.
pub(crate) fn census_of(alloc: Global, classes: &mut [Class]) -> Result<Vec<Row>, AllocError>
    requires { AreSmall classes.old }
    ensures census { IfOk result (λ rows. IsCensus classes.old rows.items) }
    ensures length { length classes.new ≡ length classes.old }
{
    classes.sort_unstable_by(|a, b| class_order(a, b));
    let mut rows = rows_of(alloc, classes)?;
    rows.sort_unstable_by(|a, b| row_order(a, b));
    Ok(rows)
}
