//! The lines of a way from a root to an object.

ghost use Rattle.std.specs.Prelude.{◌≡◌, ℕ, IsSome, List, OnOk, flat_map, Some};
ghost use Rattle.step_core.specs.Stands.{kept_of, name_of};
ghost use Rattle.script_text.specs.Texts.{Adds};
ghost use Rattle.heap_view.specs.Objects.{holder_line};
ghost use Rattle.heap_view.specs.Ways.{AreWayLines, IsWayText, last_line, named_text, way_text};

use crate::object_lines::put_holder;
use crate::ways::way_of;
use heap_walk::{Holder, object_of};
use heap_words::addr::Addr;
use script_text::Text;
use std::alloc::{AllocError, Global};
use step_core::Core;

/// Puts which object it is.
fn put_named(text: &mut Text, name: u64)
    ensures { Adds text.old (named_text name) text.new }
{
    text.put("object #");
    text.put_digits(name);
}

/// Puts the lines of entries.
fn put_holders(text: &mut Text, holders: &[Holder])
    ensures { Adds text.old (flat_map holder_line holders.now) text.new }
{
    for holder in holders {
        put_holder(text, holder);
    }
}

/// Puts a way to the object of a name.
fn put_steps(text: &mut Text, name: u64, holders: &[Holder])
    ensures { Adds text.old (way_text name (Some holders.now)) text.new }
{
    put_named(text, name);
    text.put(": from a root\n");
    put_holders(text, holders);
    text.put("  #");
    text.put_digits(name);
    text.put("\n");
}

/// Puts a shortest way to a kept object of a name, or that no root leads there. The error is want of memory.
fn put_way(
    alloc: Global,
    core: &Core,
    text: &mut Text,
    name: u64,
    object: Addr,
) -> Result<(), AllocError>
    requires kept { IsSome (kept_of core.now object) }
    requires named { name_of (kept_of core.now object) ≡ Some name }
    ensures { OnOk result ((lines : List ℕ) × IsWayText core.now name (Some object) lines × Adds text.old lines text.new) }
{
    match way_of(alloc, core, object)? {
        Some(way) => put_steps(text, name, &way),
        None => {
            put_named(text, name);
            text.put(": no root leads there\n");
        }
    }
    Ok(())
}

/// Puts a shortest way from a root to the object of a name, or that there is none. The error is want of memory.
pub(crate) fn put_path(
    alloc: Global,
    core: &Core,
    text: &mut Text,
    name: u64,
) -> Result<(), AllocError>
    ensures { OnOk result ((lines : List ℕ) × AreWayLines core.now name lines × Adds text.old lines text.new) }
{
    match object_of(core, name) {
        Some(object) => put_way(alloc, core, text, name, object),
        None => {
            put_named(text, name);
            text.put(": none is kept\n");
            Ok(())
        }
    }
}
