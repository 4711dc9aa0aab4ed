//! The fields of an object, spelled for a terminal or for a page: of each kind the first ones, and how many more there are.

ghost use Rattle.std.specs.Prelude.{◌≡◌, IsSome};
ghost use Rattle.regions.specs.Table.{object_at, values_at};
ghost use Rattle.script_text.specs.Texts.{Adds};
ghost use Rattle.heap_walk.specs.Holders.{links_at};
ghost use Rattle.heap_dump.specs.Fields.{fields_text, links_text, more_text, named_text, pointer_text, shown, spaced_pointer};
ghost use Rattle.heap_dump.specs.Fields.{title_text, values_text};

use heap_walk::{link_at, links};
use heap_words::addr::{Addr, Ptr};
use regions::RegionTable;
use script_text::Text;
use step_core::{Core, object_name};

/// Whom a text is spelled for.
#[derive(Clone, Copy, Debug, PartialEq, Eq)]
pub enum Spelling {
    /// A person at a terminal.
    Lines,
    /// A page's scripts.
    Page,
}

/// How many fields of a kind are told.
fn shown(spelling: Spelling) -> u32
    ensures { result ≡ shown spelling }
{
    match spelling {
        Spelling::Lines => 8,
        Spelling::Page => 16,
    }
}

/// Puts how many of an object's fields of a kind aren't told, if there are some.
fn put_more(text: &mut Text, count: u32, spelling: Spelling)
    ensures { Adds text.old (more_text spelling count) text.new }
{
    let shown = shown(spelling);
    if count <= shown {
        return;
    }
    match spelling {
        Spelling::Lines => {
            text.put(" and ");
            text.put_digits(u64::from(count - shown));
            text.put(" more");
        }
        Spelling::Page => {
            text.put(" +");
            text.put_digits(u64::from(count - shown));
        }
    }
}

/// Puts the object at an address by its name, or that none starts there.
fn put_named(text: &mut Text, at: Addr, name: Option<u64>, spelling: Spelling)
    ensures { Adds text.old (named_text spelling at name) text.new }
{
    match spelling {
        Spelling::Lines => match name {
            None => {
                text.put("no object at ");
                text.put_digits(at.word() as u64);
            }
            Some(name) => {
                text.put("#");
                text.put_digits(name);
            }
        },
        Spelling::Page => match name {
            None => text.put("?"),
            Some(name) => text.put_digits(name),
        },
    }
}

/// Puts a pointer or a weak slot by the name that it leads to, or that it is nil.
pub fn put_pointer(table: &RegionTable, text: &mut Text, pointer: Ptr, spelling: Spelling)
    ensures { Adds text.old (pointer_text spelling table.now pointer) text.new }
{
    match pointer {
        None => match spelling {
            Spelling::Lines => text.put("nil"),
            Spelling::Page => text.put("-"),
        },
        Some(at) => put_named(text, at, object_name(table, at), spelling),
    }
}

/// Puts a space, and such a pointer.
pub fn put_spaced_pointer(table: &RegionTable, text: &mut Text, pointer: Ptr, spelling: Spelling)
    ensures { Adds text.old (spaced_pointer spelling table.now pointer) text.new }
{
    text.put(" ");
    put_pointer(table, text, pointer, spelling);
}

/// Puts what comes before so many fields of a kind: in lines a title, unless there are none.
fn put_title(text: &mut Text, count: u32, line: &str, page: &str, spelling: Spelling)
    ensures { Adds text.old (title_text spelling count line.now page.now) text.new }
{
    match spelling {
        Spelling::Lines => {
            if count != 0 {
                text.put(line);
            }
        }
        Spelling::Page => text.put(page),
    }
}

/// Puts an object's pointers, or its weak slots, after their title.
fn put_links(
    core: &Core,
    text: &mut Text,
    object: Addr,
    weak: bool,
    line: &str,
    page: &str,
    spelling: Spelling,
)
    requires { IsSome (object_at core.now.table object) }
    ensures { Adds text.old (links_text spelling line.now page.now core.now.table (links_at weak core.now object)) text.new }
{
    let count = links(core, object, weak);
    put_title(text, count, line, page, spelling);
    for index in 0..count.min(shown(spelling)) {
        put_spaced_pointer(
            core.table(),
            text,
            link_at(core, object, weak, index),
            spelling,
        );
    }
    put_more(text, count, spelling);
}

/// Puts an object's data words after their title.
fn put_values(table: &RegionTable, text: &mut Text, object: Addr, spelling: Spelling)
    requires { IsSome (object_at table.now object) }
    ensures { Adds text.old (values_text spelling (values_at table.now object)) text.new }
{
    let count = table.value_count(object);
    put_title(text, count, ", data", " ;", spelling);
    for field in 0..count.min(shown(spelling)) {
        text.put_number(table.get_value(object, field));
    }
    put_more(text, count, spelling);
}

/// Puts the fields of an object: its pointers, what its weak slots show, and its data.
pub fn put_fields(core: &Core, text: &mut Text, object: Addr, spelling: Spelling)
    requires { IsSome (object_at core.now.table object) }
    ensures { Adds text.old (fields_text spelling core.now object) text.new }
{
    put_links(core, text, object, false, ", pointers", "", spelling);
    put_links(core, text, object, true, ", weak slots", " ;", spelling);
    put_values(core.table(), text, object, spelling);
}
