//! What a line with a fault lacks, for a person's eyes: the line, the first word that doesn't fit, and what may be there; and, of the
//! commonest mistakes, what they are.
//!
//! ```text
//!   line 5: 0 drop r9; word 3: a register below r8
//!   line 2: 0 drop r0?; word 3: a register below r8
//!   a carriage return ends the line: end each with a line feed alone
//! ```

ghost use Rattle.std.specs.Prelude.{◌≡◌, ◌≤◌, ◌+◌, ◌-◌, ◌++◌, ℕ, List, Some, Ok, codes, length, map, take, slice_get};
ghost use Rattle.std.specs.Fmt.{decimal};
ghost use Rattle.heap_words.specs.declared.config.Config.{Config};
ghost use Rattle.script_text.specs.Lines.{heap_line_of, pieces_of, words_of};
ghost use Rattle.script_text.specs.Faults.{shown_byte, shown};
ghost use Rattle.script_text.specs.Hints.{operand_text, between, known_words, verbs_text, place_text, expected_words};
ghost use Rattle.script_text.specs.Hints.{limit_text, expected_text, stop_text};
ghost use Rattle.script_text.specs.Hints.{IsLine, NamesMisfit, NamesHeapMisfit};
ghost use Rattle.script_text.specs.Hints.{IsHint, IsFaultReason, IsLineReason};

use crate::expected::{Expected, Stop, TextKind, heap_stop_in, no_sizes, stop_in};
use crate::fault::{Kind, LineFault};
use crate::mistakes::put_mistake;
use crate::read::script::heap_line;
use crate::read::words::split_line;
use crate::write::bytes::{put_byte, put_number, put_text};
use heap_steps::{ActionVerb, CollectionVerb, Operand, Verb, has_row};
use heap_words::config::{Config, Format};

/// The room that the reason of a line's fault needs.
pub const REASON_ROOM: usize = 480;

/// The words that say what an operand may be, before the limit that a heap's sizes set, if they do.
fn operand_text(kind: Operand) -> &'static [u8]
    ensures words { result.now ≡ operand_text kind }
    ensures short { length result.now ≤ 110 }
{
    match kind {
        Operand::Register => b"a register below r",
        Operand::Global => b"a global below g",
        Operand::Value => b"nil or a register below r",
        Operand::Small => b"a number up to 4294967295",
        Operand::Byte => b"a number up to 255",
        Operand::Large => b"a number up to 18446744073709551615",
    }
}

/// The limit that a heap's sizes set to an operand, if they do.
fn put_limit(buffer: &mut [u8], at: usize, config: &Config, kind: Operand) -> usize
    requires { at + 20 ≤ length buffer.old }
    ensures put { take result buffer.new ≡ take at buffer.old ++ limit_text config.now (Expected.Operand kind) }
    ensures end { result ≤ at + 20 }
{
    match kind {
        Operand::Register | Operand::Value => put_number(buffer, at, config.registers() as u64),
        Operand::Global => put_number(buffer, at, config.globals() as u64),
        _ => at,
    }
}

/// The words for a place that is no verb's, before the limit that a heap's sizes set, if they do.
fn place_text(place: Expected) -> &'static [u8]
    ensures words { result.now ≡ place_text place }
    ensures short { length result.now ≤ 110 }
{
    match place {
        Expected::Count(_) => b"the count ",
        Expected::ScriptActor => b"gc, or a mutator below ",
        Expected::RecordActor => b"gc, m0 to m7, f0 to f7, or a mutator below ",
        Expected::Action | Expected::Collection => b"",
        Expected::Marking => b"mark",
        Expected::Refining => b"refine",
        Expected::Operand(kind) => operand_text(kind),
        Expected::Equals => b"= and a reply",
        Expected::Reply => b"a reply, such as ok, nil, #3, 7, 1 2 or refused 1 Nil",
        Expected::End => b"the line's end",
        Expected::Heap => b"heap, heap2 or heap3",
        Expected::Regions => b"REGIONS, a number up to 4294967295",
        Expected::RegionWords => b"WORDS, a number up to 4294967295",
        Expected::Buffer => b"BUFFER, a number up to 4294967295",
        Expected::Mutators => b"MUTATORS, a number up to 4294967295",
        Expected::FirstName => b"FIRST, a number up to 18446744073709551615",
        Expected::Card => b"CARD, a number up to 4294967295",
        Expected::Globals => b"GLOBALS, a number up to 4294967295",
        Expected::Registers => b"REGISTERS, a number up to 4294967295",
    }
}

/// How many of some verbs a format has.
fn known_count<V: Verb>(verbs: &[V], format: Format) -> usize
    ensures { result ≡ length (known_words V.row_of format verbs.now) }
{
    let mut count = 0;
    for verb in verbs {
        if has_row(format, verb.row()) {
            count += 1;
        }
    }
    count
}

/// What is between a word and so many more of a list.
fn between(more: usize) -> &'static [u8]
    ensures { result.now ≡ between more }
{
    match more {
        0 => b"",
        1 => b" or ",
        _ => b", ",
    }
}

/// Those of some verbs that a format has, as a sentence lists them.
fn put_verbs<V: Verb>(buffer: &mut [u8], at: usize, verbs: &[V], format: Format) -> usize
    requires { at + length (verbs_text V.row_of format verbs.now) ≤ length buffer.old }
    ensures put { take result buffer.new ≡ take at buffer.old ++ verbs_text V.row_of format verbs.now }
    ensures end { result ≡ at + length (verbs_text V.row_of format verbs.now) }
{
    let [verb, rest @ ..] = verbs else {
        return at;
    };
    let row = verb.row();
    if !has_row(format, row) {
        return put_verbs(buffer, at, rest, format);
    }
    let at = put_text(buffer, at, row.word);
    let at = put_text(buffer, at, between(known_count(rest, format)));
    put_verbs(buffer, at, rest, format)
}

/// The words that say what may be at a place, before the limit that a heap's sizes set, if they do.
fn put_words(buffer: &mut [u8], at: usize, format: Format, place: Expected) -> usize
    requires { at + 110 ≤ length buffer.old }
    ensures put { take result buffer.new ≡ take at buffer.old ++ expected_words place format }
    ensures end { result ≤ at + 110 }
{
    match place {
        Expected::Action => put_verbs(buffer, at, ActionVerb::all(), format),
        Expected::Collection => put_verbs(buffer, at, CollectionVerb::all(), format),
        _ => put_text(buffer, at, place_text(place)),
    }
}

/// What may be at a place, in sizes.
fn put_expected(buffer: &mut [u8], at: usize, config: &Config, place: Expected) -> usize
    requires { at + 130 ≤ length buffer.old }
    ensures put { take result buffer.new ≡ take at buffer.old ++ expected_text config.now place }
    ensures end { result ≤ at + 130 }
{
    let at = put_words(buffer, at, config.format, place);
    match place {
        Expected::Count(count) => put_number(buffer, at, count),
        Expected::ScriptActor | Expected::RecordActor => {
            put_number(buffer, at, config.mutators as u64)
        }
        Expected::Operand(kind) => put_limit(buffer, at, config, kind),
        _ => at,
    }
}

/// The word at which reading a line stopped, and what may be there.
fn put_stop(buffer: &mut [u8], at: usize, config: &Config, stop: Stop) -> usize
    requires { at + 157 ≤ length buffer.old }
    ensures put { take result buffer.new ≡ take at buffer.old ++ stop_text config.now stop }
    ensures end { result ≤ at + 157 }
{
    let at = put_text(buffer, at, b"word ");
    let at = put_number(buffer, at, stop.word);
    let at = put_text(buffer, at, b": ");
    put_expected(buffer, at, config, stop.place)
}

/// A text's first line and what it is read as: the sizes that it gives.
fn config_of(text: &[u8]) -> Option<Config>
    ensures { (first : List ℕ) → IsLine text.now 1 first → (c : Config) → heap_line_of first ≡ Ok c → result ≡ Some c }
{
    let mut words: [&[u8]; 12] = [&text[..0]; 12];
    let Some(first) = split_line(text, &mut words) else {
        return None;
    };
    heap_line(&text[..first.length], &words[..first.count]).ok()
}

/// What the line of a step lacks, or of an event.
fn put_step_hint(
    buffer: &mut [u8],
    at: usize,
    kind: TextKind,
    text: &[u8],
    line: u64,
    words: &[&[u8]],
) -> usize
    requires { at + 157 ≤ length buffer.old }
    ensures put { (hint : List ℕ)
        × ((all : List ℕ) → map (λ w. w.now) words.now ≡ take 12 (words_of all) → NamesMisfit kind line text.now all hint)
        × (take result buffer.new ≡ take at buffer.old ++ hint) }
    ensures end { result ≤ at + 157 }
{
    let Some(config) = config_of(text) else {
        return put_text(buffer, at, b"a heap line before it");
    };
    match stop_in(kind, &config, line.saturating_sub(1), words) {
        Some(stop) => put_stop(buffer, at, &config, stop),
        None => at,
    }
}

/// What a heap line lacks.
fn put_heap_hint(buffer: &mut [u8], at: usize, words: &[&[u8]]) -> usize
    requires { at + 157 ≤ length buffer.old }
    ensures put { (hint : List ℕ) × ((n : ℕ) (input all : List ℕ) → map (λ w. w.now) words.now ≡ take 12 (words_of all)
        → NamesHeapMisfit n input all hint) × (take result buffer.new ≡ take at buffer.old ++ hint) }
    ensures end { result ≤ at + 157 }
{
    match heap_stop_in(words) {
        Some(stop) => put_stop(buffer, at, &no_sizes(), stop),
        None => at,
    }
}

/// What a line lacks, whose first words these are.
fn put_hint(
    buffer: &mut [u8],
    at: usize,
    kind: TextKind,
    text: &[u8],
    words: &[&[u8]],
    fault: LineFault,
) -> usize
    requires { at + 157 ≤ length buffer.old }
    ensures put { (hint : List ℕ)
        × ((line : List ℕ) → (IsLine text.now fault.line line → map (λ w. w.now) words.now ≡ take 12 (words_of line))
        → IsHint fault.kind kind fault.line text.now line hint)
        × (take result buffer.new ≡ take at buffer.old ++ hint) }
    ensures end { result ≤ at + 157 }
{
    match fault.kind {
        Kind::Cut => put_text(buffer, at, b"a line feed behind it"),
        Kind::LongLine => put_text(buffer, at, b"at most 120 bytes"),
        Kind::NoMemory => put_text(buffer, at, b"memory to read it"),
        Kind::BadHeap => put_heap_hint(buffer, at, words),
        _ => put_step_hint(buffer, at, kind, text, fault.line, words),
    }
}

/// The text from a line on, if it has that line.
fn behind(text: &[u8], line: u64) -> &[u8]
    ensures { (k : ℕ) (l : List ℕ) → slice_get (pieces_of text.now) (line - 1 + k) ≡ Some l → slice_get (pieces_of result.now) k ≡ Some l }
{
    let mut words: [&[u8]; 12] = [&text[..0]; 12];
    let mut rest = text;
    let mut left = line;
    while left > 1 {
        let Some(front) = split_line(rest, &mut words) else {
            return rest;
        };
        rest = &rest[front.length + 1..];
        left -= 1;
    }
    rest
}

/// The first line of a text, without its line feed.
fn first_line(text: &[u8]) -> &[u8]
    ensures { slice_get (pieces_of text.now) 0 ≡ Some result.now }
{
    let mut words: [&[u8]; 12] = [&text[..0]; 12];
    match split_line(text, &mut words) {
        Some(front) => &text[..front.length],
        None => text,
    }
}

/// A byte as a person reads it.
fn shown_byte(byte: u8) -> u8
    ensures { result ≡ shown_byte byte }
{
    if byte < b' ' {
        b'?'
    } else if byte > b'~' {
        b'?'
    } else {
        byte
    }
}

/// Some bytes as a person reads them.
fn put_bytes(buffer: &mut [u8], at: usize, bytes: &[u8]) -> usize
    requires { at + length bytes.now ≤ length buffer.old }
    ensures put { take result buffer.new ≡ take at buffer.old ++ map shown_byte bytes.now }
    ensures end { result ≡ at + length bytes.now }
{
    let mut end = at;
    for byte in bytes {
        end = put_byte(buffer, end, shown_byte(*byte));
    }
    end
}

/// The first 120 bytes of a line.
fn front_of(line: &[u8]) -> &[u8]
    ensures front { result.now ≡ take 120 line.now }
    ensures short { length result.now ≤ 120 }
{
    if line.len() > 120 {
        return &line[..120];
    }
    line
}

/// Puts the first 120 bytes of a line after the first `at` bytes of a buffer, as a person reads them, and answers where they end.
///
/// ```rust
/// let mut buffer = [0; 120];
/// let end = put_shown(&mut buffer, 0, b"0 drop r0\r");
/// assert_eq!(rt; &buffer[..end], b"0 drop r0?".as_slice());
/// ```
pub fn put_shown(buffer: &mut [u8], at: usize, line: &[u8]) -> usize
    requires { at + 120 ≤ length buffer.old }
    ensures put { take result buffer.new ≡ take at buffer.old ++ shown line.now }
    ensures end { result ≤ at + 120 }
{
    put_bytes(buffer, at, front_of(line))
}

/// Puts the front of a line that tells of a line of a text, whose bytes are given: which it is, and the line itself.
fn put_line(buffer: &mut [u8], at: usize, number: u64, line: &[u8]) -> usize
    requires { at + 149 ≤ length buffer.old }
    ensures put { take result buffer.new ≡ take at buffer.old ++ (codes "line " ++ decimal number ++ codes ": " ++ shown line.now
        ++ codes "; ") }
    ensures end { result ≤ at + 149 }
{
    let at = put_text(buffer, at, b"line ");
    let at = put_number(buffer, at, number);
    let at = put_text(buffer, at, b": ");
    let at = put_shown(buffer, at, line);
    put_text(buffer, at, b"; ")
}

/// Parts the first twelve words of the line at a text's front, and answers how many there are: none where no line feed ends it.
fn split_words<'a>(text: &'a [u8], words: &mut [&'a [u8]]) -> usize
    requires { length words.old ≡ 12 }
    ensures words { (line next : List ℕ) → slice_get (pieces_of text.now) 0 ≡ Some line → slice_get (pieces_of text.now) 1 ≡ Some next
        → map (λ w. w.now) (take result words.new) ≡ take 12 (words_of line) }
    ensures within { result ≤ 12 }
    ensures room { length words.new ≡ 12 }
{
    match split_line(text, words) {
        Some(front) => front.count,
        None => 0,
    }
}

/// Puts the lines that tell what a line with a fault lacks after the first `at` bytes of a buffer, and answers where they end: the line
/// with
/// the first word that doesn't fit, and where it is a common mistake, what it is. The text has that line.
///
/// ```rust
/// let mut buffer = [0; REASON_ROOM];
/// let fault = LineFault { line: 1, kind: Kind::BadHeap };
/// let end = put_fault_reason(&mut buffer, 0, TextKind::Script, b"heap4 4\n", fault);
/// assert_eq!(rt; &buffer[..45], b"line 1: heap4 4; word 1: heap, heap2 or heap3".as_slice());
/// assert_eq!(rt; end, 122);
/// ```
pub fn put_fault_reason(
    buffer: &mut [u8],
    at: usize,
    kind: TextKind,
    text: &[u8],
    fault: LineFault,
) -> usize
    requires { at + REASON_ROOM ≤ length buffer.old }
    ensures put { (told : List ℕ) × IsFaultReason kind fault text.now told × (take result buffer.new ≡ take at buffer.old ++ told) }
    ensures end { result ≤ at + REASON_ROOM }
{
    let rest = behind(text, fault.line);
    let line = first_line(rest);
    let mut words: [&[u8]; 12] = [&text[..0]; 12];
    let count = split_words(rest, &mut words);
    let at = put_line(buffer, at, fault.line, line);
    let at = put_hint(buffer, at, kind, text, &words[..count], fault);
    let at = put_text(buffer, at, b"\n");
    let config = config_of(text);
    put_mistake(
        buffer,
        at,
        kind,
        text,
        line,
        &words[..count],
        config.as_ref(),
        fault,
    )
}

/// Puts a line that shows a line of a text and says something of it after the first `at` bytes of a buffer, and answers where it ends. The
/// text has that line.
///
/// ```rust
/// let mut buffer = [0; REASON_ROOM];
/// let end = put_line_reason(&mut buffer, 0, b"heap 1 16 8 1 0\n", 1, b"word 2: 2 to 1024");
/// assert_eq!(rt; &buffer[..end], b"line 1: heap 1 16 8 1 0; word 2: 2 to 1024\n".as_slice());
/// ```
pub fn put_line_reason(buffer: &mut [u8], at: usize, text: &[u8], line: u64, hint: &[u8]) -> usize
    requires room { at + REASON_ROOM ≤ length buffer.old }
    requires short { length hint.now ≤ 150 }
    ensures put { (told : List ℕ) × IsLineReason line text.now hint.now told × (take result buffer.new ≡ take at buffer.old ++ told) }
    ensures end { result ≤ at + REASON_ROOM }
{
    let shown = first_line(behind(text, line));
    let at = put_line(buffer, at, line, shown);
    let at = put_text(buffer, at, hint);
    put_text(buffer, at, b"\n")
}

/// The sizes that the first line of a text gives, if it is a heap line.
///
/// ```rust
/// assert_eq!(rt; sizes_in(script).is_some(), true);
/// ```
pub fn sizes_in(text: &[u8]) -> Option<Config>
    ensures { (first : List ℕ) → IsLine text.now 1 first → (c : Config) → heap_line_of first ≡ Ok c → result ≡ Some c }
{
    config_of(text)
}
