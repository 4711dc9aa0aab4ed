//! Roots, and what each mutator has: its registers, its buffer and its logs.

ghost use Rattle.std.specs.Prelude.{◌≡◌, ◌<◌, ◌≤◌, ◌||◌, length, codes, is_some, slice_get};
ghost use Rattle.satb_log.specs.Logs.{log_of};
ghost use Rattle.script_text.specs.Texts.{Adds};
ghost use Rattle.heap_view.specs.Lists.{titled_line};
ghost use Rattle.heap_dump.specs.Lists.{text_below};
ghost use Rattle.heap_view.specs.Actors.{none_text, place_text, root_text, roots_text};
ghost use Rattle.heap_view.specs.Actors.{globals_line, registers_line, buffer_line, held_lines, logged_text, mutator_lines, actor_lines};

use crate::card_lines::put_card_log;
use alloc_buffers::AllocBuffers;
use heap_dump::{Spelling, put_pointer, put_spaced_pointer};
use heap_words::addr::{Addr, Ptr};
use regions::RegionTable;
use root_table::Roots;
use satb_log::logs::DeletionLogs;
use script_text::Text;
use step_core::Core;

/// Puts a root by its letter, its number and its object, and where that is.
fn put_root(table: &RegionTable, text: &mut Text, letter: &'static str, number: u64, at: Addr)
    ensures { Adds text.old (root_text table.now letter.now (number, at)) text.new }
{
    text.put(" ");
    text.put(letter);
    text.put_digits(number);
    text.put(" ");
    put_pointer(table, text, Some(at), Spelling::Lines);
    text.put(" at ");
    text.put_digits(at.word() as u64);
}

/// Puts the root of a place, if it isn't nil, after a comma where others come before it. Answers whether some are there now.
fn put_place(
    table: &RegionTable,
    text: &mut Text,
    letter: &'static str,
    number: u64,
    root: Ptr,
    some: bool,
) -> bool
    ensures put { Adds text.old (place_text table.now letter.now some number root) text.new }
    ensures some { result ≡ (some || is_some root) }
{
    let Some(at) = root else {
        return some;
    };
    if some {
        text.put(",");
    }
    put_root(table, text, letter, number, at);
    true
}

/// Puts that all roots are nil, where none come before.
fn put_none(text: &mut Text, some: bool)
    ensures { Adds text.old (none_text some) text.new }
{
    if !some {
        text.put(" all nil");
    }
}

/// Puts the roots from one place up to another that aren't nil, each after its letter and its number.
fn put_roots(
    table: &RegionTable,
    roots: &Roots,
    text: &mut Text,
    letter: &'static str,
    first: usize,
    end: usize,
)
    requires order { first ≤ end }
    requires within { end ≤ length roots.now.words }
    ensures { Adds text.old (roots_text table.now roots.now.words letter.now first end) text.new }
{
    let mut some = false;
    for place in first..end {
        let number = (place - first) as u64;
        some = put_place(table, text, letter, number, roots.get(place), some);
    }
    put_none(text, some);
}

/// Puts what is left of a mutator's buffer, if one is open.
fn put_buffer(buffers: &AllocBuffers, text: &mut Text, mutator: u32)
    requires { mutator < length buffers.now.open_buffers }
    ensures { Adds text.old (buffer_line (slice_get buffers.now.open_buffers mutator)) text.new }
{
    match buffers.open_buffer(mutator) {
        None => {}
        Some(buffer) => {
            text.put("  open buffer at ");
            text.put_digits(buffer.next as u64);
            text.put(", ");
            text.put_digits(buffer.rest as u64);
            text.put(" words left\n");
        }
    }
}

/// Puts a mutator's deletion log, if it isn't empty.
fn put_deletion_log(table: &RegionTable, logs: &DeletionLogs, text: &mut Text, mutator: u32)
    requires { mutator < length logs.now }
    ensures { Adds text.old (titled_line (codes "  deletion log:") (logged_text table.now) (log_of logs.now mutator)) text.new }
{
    let count = logs.len(mutator);
    if count == 0 {
        return;
    }
    text.put("  deletion log:");
    for place in 0..count {
        put_spaced_pointer(
            table,
            text,
            Some(logs.logged(mutator, place)),
            Spelling::Lines,
        );
    }
    text.put("\n");
}

/// Puts a mutator's registers.
fn put_registers(core: &Core, text: &mut Text, mutator: u32)
    requires { mutator < core.now.config.mutators }
    ensures { Adds text.old (registers_line core.now mutator) text.new }
{
    core.law_remembers();
    let places = core.roots().places();
    let first = places.register(mutator, 0);
    let end = places.register(mutator, places.registers());
    put_roots(core.table(), core.roots(), text, "r", first, end);
    text.put("\n");
}

/// Puts the globals.
fn put_globals(core: &Core, text: &mut Text)
    ensures { Adds text.old (globals_line core.now) text.new }
{
    core.law_remembers();
    let end = core.roots().places().globals() as usize;
    put_roots(core.table(), core.roots(), text, "g", 0, end);
    text.put("\n");
}

/// Puts a mutator's buffer and its logs.
fn put_held(core: &Core, text: &mut Text, mutator: u32)
    requires { mutator < core.now.config.mutators }
    ensures { Adds text.old (held_lines core.now mutator) text.new }
{
    core.law_remembers();
    put_buffer(core.buffers(), text, mutator);
    put_card_log(core.cards(), text, mutator);
    put_deletion_log(core.table(), &core.marker().logs, text, mutator);
}

/// Puts a mutator.
fn put_mutator(core: &Core, text: &mut Text, mutator: u32)
    requires { mutator < core.now.config.mutators }
    ensures { Adds text.old (mutator_lines core.now mutator) text.new }
{
    text.put("mutator ");
    text.put_digits(mutator as u64);
    text.put(":");
    put_registers(core, text, mutator);
    put_held(core, text, mutator);
}

/// Puts each mutator.
fn put_mutators(core: &Core, text: &mut Text)
    ensures { Adds text.old (text_below (mutator_lines core.now) core.now.config.mutators) text.new }
{
    for mutator in 0..core.config().mutators {
        put_mutator(core, text, mutator);
    }
}

/// Puts the globals, and each mutator.
pub(crate) fn put_actors(core: &Core, text: &mut Text)
    ensures { Adds text.old (actor_lines core.now) text.new }
{
    text.put("globals:");
    put_globals(core, text);
    put_mutators(core, text);
}
