//! The lines of a census.

ghost use Rattle.std.specs.Prelude.{◌≡◌, ◌+◌, ◌-◌, ◌<◌, ℕ, List, OnOk, codes, if◌then◌else◌, length};
ghost use Rattle.script_text.specs.Texts.{Adds};
ghost use Rattle.heap_view.specs.Census.{AreCensusLines, class_text, column, first_text, padding, row_line, rows_text, sums_line};
ghost use Rattle.heap_view.specs.Census.{space_if, table_text, type_text};

use crate::census::{Row, census_of};
use crate::classes::{Class, kept_classes, sum_of, type_of};
use script_text::Text;
use std::alloc::{AllocError, Global};
use step_core::Core;
use type_names::Types;

/// Puts a space, if one is wanted.
fn put_space(text: &mut Text, wanted: bool)
    ensures { Adds text.old (space_if wanted) text.new }
{
    if wanted {
        text.put(" ");
    }
}

/// Puts a space for each place that a number doesn't have, of nine before its last digit.
fn put_padding(text: &mut Text, number: u64)
    ensures { Adds text.old (padding 9 number) text.new }
{
    let mut left = number;
    for place in 0..9_u32 {
        left /= 10;
        put_space(text, left == 0);
    }
}

/// Puts a number, at the right of a column of ten places.
fn put_column(text: &mut Text, number: u64)
    ensures { Adds text.old (column number) text.new }
{
    put_padding(text, number);
    text.put_digits(number);
}

/// Puts the first data word of a class, if its objects have one.
pub(crate) fn put_first(text: &mut Text, class: &Class)
    ensures { Adds text.old (first_text class.now) text.new }
{
    if class.values == 0 {
        text.put("none");
        return;
    }
    text.put_digits(class.word);
}

/// Puts a class.
fn put_class(text: &mut Text, class: &Class)
    ensures { Adds text.old (class_text class.now) text.new }
{
    put_column(text, u64::from(class.pointers));
    text.put("  ");
    put_column(text, u64::from(class.weaks));
    text.put("  ");
    put_column(text, u64::from(class.values));
    text.put("  ");
    put_first(text, class);
}

/// Puts the name of a class's first data word, if it has one.
fn put_type(text: &mut Text, types: &Types, class: &Class)
    ensures { Adds text.old (type_text types.now class.now) text.new }
{
    match type_of(types, class) {
        Some(name) => {
            text.put("  ");
            text.put_bytes(name);
        }
        None => {}
    }
}

/// Puts a row.
fn put_row(text: &mut Text, types: &Types, row: &Row)
    ensures { Adds text.old (row_line types.now row.now) text.new }
{
    put_column(text, row.words);
    text.put("  ");
    put_column(text, row.objects);
    text.put("  ");
    put_class(text, &row.class);
    put_type(text, types, &row.class);
    text.put("\n");
}

/// Puts each row.
fn put_rows(text: &mut Text, types: &Types, rows: &[Row])
    ensures { Adds text.old (rows_text types.now rows.now) text.new }
{
    for row in rows {
        put_row(text, types, row);
    }
}

/// Puts how many words, objects and classes there are in all.
fn put_sums(text: &mut Text, words: u64, objects: u64, classes: u64)
    ensures { Adds text.old (sums_line words objects classes) text.new }
{
    put_column(text, words);
    text.put("  ");
    put_column(text, objects);
    text.put("  in all: classes ");
    text.put_digits(classes);
    text.put("\n");
}

/// Puts the table of a census.
fn put_table(text: &mut Text, types: &Types, rows: &[Row], words: u64, objects: u64)
    ensures { Adds text.old (table_text types.now rows.now words objects) text.new }
{
    text.put("     words     objects    pointers  weak slots  data words  first word\n");
    put_rows(text, types, rows);
    put_sums(text, words, objects, rows.len() as u64);
}

/// Puts the census of the kept objects. The error is want of memory.
pub(crate) fn put_census(
    alloc: Global,
    core: &Core,
    types: &Types,
    text: &mut Text,
) -> Result<(), AllocError>
    ensures { OnOk result ((lines : List ℕ) × AreCensusLines types.now core.now lines × Adds text.old lines text.new) }
{
    let mut classes = kept_classes(alloc, core)?;
    let words = sum_of(&classes);
    let rows = census_of(alloc, &mut classes)?;
    put_table(text, types, &rows, words, classes.len() as u64);
    Ok(())
}
