//! One object: all its fields, and who names it.

ghost use Rattle.std.specs.Prelude.{◌≡◌, ◌<◌, ℕ, IsSome, List, flat_map, length};
ghost use Rattle.regions.specs.Table.{object_at, values_at};
ghost use Rattle.script_text.specs.Texts.{Adds};
ghost use Rattle.heap_walk.specs.Holders.{holders_at, links_at, place_count};
ghost use Rattle.heap_view.specs.Nexts.{IsNext};
ghost use Rattle.heap_view.specs.Objects.{AreObjectLines, counts_text, field_front, field_lines, found_lines, head_line};
ghost use Rattle.heap_view.specs.Objects.{holder_line, holder_lines, holder_text, holders_from, link_kind, link_line, link_lines};
ghost use Rattle.heap_view.specs.Objects.{link_text, others_text, root_text, value_line, value_lines};

use crate::tile_lines::put_progress;
use heap_dump::{Spelling, put_pointer};
use heap_walk::{Holder, link_at, links, object_of, who};
use heap_words::addr::Addr;
use script_text::Text;
use step_core::Core;

/// Puts the front of a field's line.
fn put_front(text: &mut Text, kind: &'static str, number: u32)
    ensures { Adds text.old (field_front kind.now number) text.new }
{
    text.put("  ");
    text.put(kind);
    text.put(" ");
    text.put_digits(u64::from(number));
    text.put(": ");
}

/// What a link is called.
fn link_kind(weak: bool) -> &'static str
    ensures { result.now ≡ link_kind weak }
{
    if weak { "weak slot" } else { "pointer" }
}

/// Puts the line of a pointer, or of a weak slot.
fn put_link(core: &Core, text: &mut Text, object: Addr, weak: bool, index: u32)
    requires { index < length (links_at weak core.now object) }
    ensures { Adds text.old (link_line weak core.now object index) text.new }
{
    let link = link_at(core, object, weak, index);
    put_front(text, link_kind(weak), index);
    put_pointer(core.table(), text, link, Spelling::Lines);
    text.put("\n");
}

/// Puts the lines of an object's pointers, or of its weak slots.
fn put_links(core: &Core, text: &mut Text, object: Addr, weak: bool)
    requires { IsSome (object_at core.now.table object) }
    ensures { Adds text.old (link_lines weak core.now object) text.new }
{
    for index in 0..links(core, object, weak) {
        put_link(core, text, object, weak, index);
    }
}

/// Puts the line of a data word.
fn put_value(core: &Core, text: &mut Text, object: Addr, field: u32)
    requires { field < length (values_at core.now.table object) }
    ensures { Adds text.old (value_line core.now object field) text.new }
{
    let value = core.table().get_value(object, field);
    put_front(text, "data word", field);
    text.put_digits(value);
    text.put("\n");
}

/// Puts the lines of an object's data words.
fn put_values(core: &Core, text: &mut Text, object: Addr)
    requires { IsSome (object_at core.now.table object) }
    ensures { Adds text.old (value_lines core.now object) text.new }
{
    for field in 0..core.table().value_count(object) {
        put_value(core, text, object, field);
    }
}

/// Puts how many fields of each kind an object has.
fn put_counts(core: &Core, text: &mut Text, object: Addr)
    requires { IsSome (object_at core.now.table object) }
    ensures { Adds text.old (counts_text core.now object) text.new }
{
    text.put(": pointers ");
    text.put_digits(u64::from(links(core, object, false)));
    text.put(", weak slots ");
    text.put_digits(u64::from(links(core, object, true)));
    text.put(", data words ");
    text.put_digits(u64::from(core.table().value_count(object)));
}

/// Puts an object's first line.
fn put_head(core: &Core, text: &mut Text, name: u64, object: Addr)
    requires { IsSome (object_at core.now.table object) }
    ensures { Adds text.old (head_line core.now name object) text.new }
{
    text.put("object #");
    text.put_digits(name);
    text.put(" at ");
    text.put_digits(u64::from(object.word()));
    put_counts(core, text, object);
    put_progress(core, text, object);
    text.put("\n");
}

/// Puts the lines of all fields of an object.
fn put_each_field(core: &Core, text: &mut Text, object: Addr)
    requires { IsSome (object_at core.now.table object) }
    ensures { Adds text.old (field_lines core.now object) text.new }
{
    put_links(core, text, object, false);
    put_links(core, text, object, true);
    put_values(core, text, object);
}

/// Puts a root that names an object.
pub(crate) fn put_root_holder(text: &mut Text, holder: &Holder)
    ensures { Adds text.old (root_text holder.now) text.new }
{
    if holder.kind == 0 {
        text.put("global g");
        text.put_digits(u64::from(holder.place));
        return;
    }
    text.put("register r");
    text.put_digits(u64::from(holder.place));
    text.put(" of mutator ");
    text.put_digits(u64::from(holder.mutator));
}

/// Puts how many fields beside the lowest one name an object, if there are some.
fn put_others(text: &mut Text, count: u32)
    ensures { Adds text.old (others_text count) text.new }
{
    if count > 1 {
        text.put(" and ");
        text.put_digits(u64::from(count) - 1);
        text.put(" more");
    }
}

/// Puts an object that names another one, and its lowest field that does.
fn put_link_holder(text: &mut Text, holder: &Holder)
    ensures { Adds text.old (link_text holder.now) text.new }
{
    text.put("#");
    text.put_digits(holder.name);
    text.put(", ");
    text.put(link_kind(holder.kind == 3));
    text.put(" ");
    text.put_digits(u64::from(holder.place));
    put_others(text, holder.fields);
}

/// Puts what names an object.
fn put_either(text: &mut Text, holder: &Holder)
    ensures { Adds text.old (holder_text holder.now) text.new }
{
    if holder.kind < 2 {
        put_root_holder(text, holder);
        return;
    }
    put_link_holder(text, holder);
}

/// Puts the line of what names an object.
pub(crate) fn put_holder(text: &mut Text, holder: &Holder)
    ensures { Adds text.old (holder_line holder.now) text.new }
{
    text.put("  ");
    put_either(text, holder);
    text.put("\n");
}

/// What names the object of a name, from a place on, which goes on.
pub(crate) fn next_holder(core: &Core, name: u64, place: &mut u64) -> Option<Holder>
    ensures { IsNext (holders_at core.now name) (place_count core.now) place.old place.new result }
{
    core.law_shaped();
    let mut holders = [Holder {
        name: 0,
        kind: 0,
        mutator: 0,
        place: 0,
        fields: 0,
    }];
    if who(core, name, place, &mut holders) == 0 {
        return None;
    }
    Some(holders[0])
}

/// Puts the lines of what names an object, from a place on.
fn put_holders_from(core: &Core, text: &mut Text, name: u64, from: u64)
    ensures { Adds text.old (flat_map holder_line (holders_from core.now name from)) text.new }
{
    let mut place = from;
    while let Some(holder) = next_holder(core, name, &mut place) {
        put_holder(text, &holder);
    }
}

/// Puts the lines of what names an object, or that nothing does.
fn put_holders(core: &Core, text: &mut Text, name: u64)
    ensures { Adds text.old (holder_lines (holders_from core.now name 0)) text.new }
{
    let mut place = 0;
    let Some(first) = next_holder(core, name, &mut place) else {
        text.put("named by nothing\n");
        return;
    };
    text.put("named by\n");
    put_holder(text, &first);
    put_holders_from(core, text, name, place);
}

/// Puts an object of a name.
fn put_found(core: &Core, text: &mut Text, name: u64, object: Addr)
    requires { IsSome (object_at core.now.table object) }
    ensures { Adds text.old (found_lines core.now name object) text.new }
{
    put_head(core, text, name, object);
    put_each_field(core, text, object);
    put_holders(core, text, name);
}

/// Puts the kept object of a name, or that there is none.
pub(crate) fn put_object(core: &Core, text: &mut Text, name: u64)
    ensures { (lines : List ℕ) × AreObjectLines core.now name lines × Adds text.old lines text.new }
{
    match object_of(core, name) {
        Some(object) => put_found(core, text, name, object),
        None => {
            text.put("object #");
            text.put_digits(name);
            text.put(": none is kept\n");
        }
    }
}
