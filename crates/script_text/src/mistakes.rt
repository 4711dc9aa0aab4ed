//! The commonest mistakes in a text, and what is told of them.

ghost use Rattle.std.specs.Prelude.{◌≤◌, ◌+◌, IsTrue, length};
ghost use Rattle.script_text.specs.Faults.{PutsHint};

use crate::expected::TextKind;
use crate::fault::{Kind, LineFault};
use crate::read::events::event;
use crate::read::steps::step;
use crate::read::words::{is_word, number};
use crate::write::bytes::put_text;
use heap_words::config::Config;

/// A mistake.
#[derive(Clone, Copy)]
enum Mistake {
    Utf16,
    Mark,
    Return,
    Tab,
    Empty,
    Blank,
    Comment,
    Spaces,
    Format,
    HeapLine,
    RecordLine,
    ScriptLine,
    None,
}

/// What is told of a mistake.
fn told(mistake: Mistake) -> &'static [u8]
    ensures { length result.now ≤ 150 }
{
    match mistake {
        Mistake::Utf16 => b"the text is in UTF-16: save it as plain ASCII\n",
        Mistake::Mark => b"the text begins with a byte order mark: save it without one\n",
        Mistake::Return => {
            b"a carriage return ends the line, as line ends of another system have it: a line feed alone ends a line\n"
        }
        Mistake::Tab => b"a tab stands in the line: one space parts two words\n",
        Mistake::Empty => b"the text is empty\n",
        Mistake::Blank => b"the line is blank: there are no blank lines\n",
        Mistake::Comment => b"there are no comments\n",
        Mistake::Spaces => b"one space parts two words, and none stands at either end\n",
        Mistake::Format => {
            b"this program reads heap, heap2 and heap3: the text may be of a newer format\n"
        }
        Mistake::HeapLine => {
            b"a heap line is heap REGIONS WORDS BUFFER MUTATORS FIRST, or heap2 and CARD after these, or heap3 and CARD GLOBALS REGISTERS\n"
        }
        Mistake::RecordLine => {
            b"it is a record's line: check judges a record, and view and draw show its heap by --record\n"
        }
        Mistake::ScriptLine => {
            b"it is a script's line: run makes its record, and view and draw take a script without --record\n"
        }
        Mistake::None => b"",
    }
}

/// Whether a byte is in a text.
fn has(text: &[u8], byte: u8) -> bool {
    for other in text {
        if *other == byte {
            return true;
        }
    }
    false
}

/// Whether a text begins so.
fn begins(text: &[u8], front: &[u8]) -> bool
    ensures { IsTrue result → length front.now ≤ length text.now }
{
    text.len() >= front.len() && is_word(&text[..front.len()], front)
}

/// Whether an empty word is among some.
fn has_empty(words: &[&[u8]]) -> bool {
    for word in words {
        if word.is_empty() {
            return true;
        }
    }
    false
}

/// Whether a text is in UTF-16, as far as its first bytes tell.
fn is_utf16(text: &[u8]) -> bool {
    begins(text, &[255, 254])
        || begins(text, &[254, 255])
        || begins(text, b"h\0")
        || begins(text, b"\0h")
}

/// Whether a line begins as comments elsewhere do.
fn is_comment(line: &[u8]) -> bool {
    begins(line, b"#") || begins(line, b"//") || begins(line, b";") || begins(line, b"--")
}

/// A mistake that a line's bytes show, which is the first of the text or a later one.
fn in_bytes(text: &[u8], line: &[u8], first: bool) -> Mistake {
    if is_utf16(text) {
        return Mistake::Utf16;
    }
    if first && begins(text, &[239, 187, 191]) {
        return Mistake::Mark;
    }
    if line.is_empty() {
        return if text.is_empty() {
            Mistake::Empty
        } else {
            Mistake::Blank
        };
    }
    if line[line.len() - 1] == b'\r' {
        return Mistake::Return;
    }
    if has(line, b'\t') {
        return Mistake::Tab;
    }
    if is_comment(line) {
        return Mistake::Comment;
    }
    Mistake::None
}

/// A mistake that the words of a heap line show.
fn in_heap_line(words: &[&[u8]]) -> Mistake {
    if has_empty(words) {
        return Mistake::Spaces;
    }
    let [verb, ..] = words else {
        return Mistake::HeapLine;
    };
    if begins(verb, b"heap") {
        if number(&verb[4..], u64::MAX).is_some()
            && !is_word(verb, b"heap2")
            && !is_word(verb, b"heap3")
        {
            return Mistake::Format;
        }
    }
    Mistake::HeapLine
}

/// Whether words are those of an event of any count.
fn is_event(config: &Config, words: &[&[u8]]) -> bool {
    let [word, ..] = words else {
        return false;
    };
    match number(word, u64::MAX) {
        Some(count) => event(count, config, words).is_ok(),
        None => false,
    }
}

/// A mistake that the words of a step's line show, or of an event's.
fn in_step_line(kind: TextKind, config: &Config, words: &[&[u8]]) -> Mistake {
    if has_empty(words) {
        return Mistake::Spaces;
    }
    match kind {
        TextKind::Script => {
            if is_event(config, words) {
                return Mistake::RecordLine;
            }
        }
        TextKind::Record => {
            if step(config, words).is_ok() {
                return Mistake::ScriptLine;
            }
        }
    }
    Mistake::None
}

/// A mistake that a line with a fault shows, of which the first twelve words are given, and the sizes, if they are known.
fn mistake_in(
    kind: TextKind,
    text: &[u8],
    line: &[u8],
    words: &[&[u8]],
    config: Option<&Config>,
    fault: LineFault,
) -> Mistake {
    let seen = in_bytes(text, line, fault.line == 1);
    if !matches!(seen, Mistake::None) {
        return seen;
    }
    match fault.kind {
        Kind::BadHeap => in_heap_line(words),
        Kind::BadActor | Kind::BadStep | Kind::BadCount | Kind::BadReply => match config {
            Some(config) => in_step_line(kind, config, words),
            None => Mistake::None,
        },
        _ => Mistake::None,
    }
}

/// Puts a line that tells which mistake a line with a fault shows, if it is a common one.
pub(crate) fn put_mistake(
    buffer: &mut [u8],
    at: usize,
    kind: TextKind,
    text: &[u8],
    line: &[u8],
    words: &[&[u8]],
    config: Option<&Config>,
    fault: LineFault,
) -> usize
    requires { at + 150 ≤ length buffer.old }
    ensures put { PutsHint at result buffer.old buffer.new }
    ensures end { result ≤ at + 150 }
{
    put_text(
        buffer,
        at,
        told(mistake_in(kind, text, line, words, config, fault)),
    )
}
