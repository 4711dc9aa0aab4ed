//! The first lines of a view: the sizes, the next name, and whether marking runs.

ghost use Rattle.script_text.specs.Spelling.{heap_words, line};
ghost use Rattle.script_text.specs.Texts.{Adds};
ghost use Rattle.heap_view.specs.Glances.{marking_line, state_lines};

use script_text::{LINE_ROOM, Text, put_heap};
use step_core::Core;

/// Puts the sizes, as the script's first line has them.
pub(crate) fn put_sizes(core: &Core, text: &mut Text)
    ensures { Adds text.old (line (heap_words core.now.config)) text.new }
{
    let mut buffer = [0; LINE_ROOM];
    let end = put_heap(&mut buffer, 0, &core.config());
    text.put_bytes(&buffer[..end]);
}

/// Puts whether marking runs.
fn put_marking(core: &Core, text: &mut Text)
    ensures { Adds text.old (marking_line core.now) text.new }
{
    if !core.marking() {
        text.put("marking doesn't run\n");
        return;
    }
    text.put("marking runs, objects scanned: ");
    text.put_digits(u64::from(core.scans()));
    text.put("\n");
}

/// Puts the next name, and whether marking runs.
pub(crate) fn put_state(core: &Core, text: &mut Text)
    ensures { Adds text.old (state_lines core.now) text.new }
{
    text.put("next name ");
    text.put_digits(core.next_name());
    text.put("\n");
    put_marking(core, text);
}
