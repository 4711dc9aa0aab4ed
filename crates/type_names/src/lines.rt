//! A line of a text that names types.

ghost use Rattle.std.specs.Prelude.{◌≡◌, ◌==◌, ◌<◌, ◌≤◌, ◌+◌, ◌^◌, ℕ, IfErr, IfNone, IfOk, IfSome, Ok, Err, drop, length};
ghost use Rattle.std.specs.Fmt.{decimal};
ghost use Rattle.std.specs.List.{position_or_len};
ghost use Rattle.std.specs.Str.{bytes_eq};
ghost use Rattle.script_text.specs.Reading.{large, number_of};
ghost use Rattle.type_names.specs.NamedLines.{TypeName, is_control, is_passed, is_plain, is_text, type_in};

use crate::faults::Mistake;
use script_text::put_number;

/// A word and its name.
#[derive(Clone, Copy)]
pub(crate) struct Named<'a> {
    pub(crate) word: u64,
    pub(crate) name: &'a [u8],
}

/// Where a byte is first among these, or how many there are.
pub(crate) fn find(bytes: &[u8], byte: u8) -> usize
    ensures first { result ≡ position_or_len (λ b. b == byte) bytes.now }
    ensures within { result ≤ length bytes.now }
{
    for at in 0..bytes.len() {
        if bytes[at] == byte {
            return at;
        }
    }
    bytes.len()
}

/// Whether a byte ends a control character, after the byte before it.
fn is_control(before: u8, byte: u8) -> bool
    ensures { result ≡ is_control before byte }
{
    byte < 32 || byte == 127 || (before == 194 && byte < 160)
}

/// Whether bytes have no control character.
fn is_plain(bytes: &[u8]) -> bool
    ensures { result ≡ is_plain 0 bytes.now }
{
    let mut before = 0;
    for byte in bytes {
        if is_control(before, *byte) {
            return false;
        }
        before = *byte;
    }
    true
}

/// Whether a line is UTF-8 text without control characters.
fn is_text(line: &[u8]) -> bool
    ensures { result ≡ is_text line.now }
{
    match str::from_utf8(line) {
        Ok(_) => is_plain(line),
        Err(_) => false,
    }
}

/// Whether a word is the decimal spelling of a number.
fn spells(word: &[u8], value: u64) -> bool
    ensures { result ≡ bytes_eq word.now (decimal value) }
{
    let mut digits = [0u8; 20];
    let end = put_number(&mut digits, 0, value);
    word == &digits[..end]
}

/// The number of up to 64 bits that digits give, with zeros or a plus in front of them or without.
fn value_of(word: &[u8]) -> Option<u64>
    ensures some { IfSome result (λ value. (n : ℕ) → n < 2 ^ 64 → word.now ≡ decimal n → value ≡ n) }
    ensures none { IfNone result ((n : ℕ) → n < 2 ^ 64 → word.now ≡ decimal n → ⊥) }
{
    match str::from_utf8(word) {
        Ok(text) => text.parse::<u64>().ok(),
        Err(_) => None,
    }
}

/// The number that a word spells as scripts do.
fn number(word: &[u8]) -> Option<u64>
    ensures { result ≡ number_of large word.now }
{
    let Some(value) = value_of(word) else {
        return None;
    };
    if spells(word, value) {
        Some(value)
    } else {
        None
    }
}

/// What is after the first space of a line, which is here.
fn rest(line: &[u8], space: usize) -> &[u8]
    requires { space ≤ length line.now }
    ensures { result.now ≡ drop (space + 1) line.now }
{
    if space < line.len() {
        return &line[space + 1..];
    }
    &line[space..]
}

/// What a line says.
pub(crate) fn type_in(line: &[u8]) -> Result<Named<'_>, Mistake>
    ensures ok { IfOk result (λ t. type_in line.now ≡ Ok (record { word = t.word; name = t.name.now })) }
    ensures mistake { IfErr result (λ m. type_in line.now ≡ Err m) }
{
    if !is_text(line) {
        return Err(Mistake::BadText);
    }
    let space = find(line, b' ');
    let Some(word) = number(&line[..space]) else {
        return Err(Mistake::BadWord);
    };
    let name = rest(line, space);
    if name.is_empty() {
        return Err(Mistake::NoName);
    }
    Ok(Named { word, name })
}

/// Whether a line is passed over.
pub(crate) fn is_passed(line: &[u8]) -> bool
    ensures { result ≡ is_passed line.now }
{
    match line {
        [] => true,
        [first, ..] => *first == b'#',
    }
}
