//! Bytes, texts and numbers, put one after another into a buffer with room for them.

ghost use Rattle.std.specs.Prelude.{◌≡◌, ◌≤◌, ◌<◌, ◌+◌, ◌++◌, ◌∷◌, [], length, take};
ghost use Rattle.std.specs.Fmt.{decimal};

use itoa::write_digits;

/// Puts a byte after the first `at` bytes, and answers where it ends.
pub(crate) fn put_byte(buffer: &mut [u8], at: usize, byte: u8) -> usize
    requires { at < length buffer.old }
    ensures put { take result buffer.new ≡ take at buffer.old ++ byte ∷ [] }
    ensures end { result ≡ at + 1 }
{
    buffer[at] = byte;
    at + 1
}

/// Puts a text after the first `at` bytes, and answers where it ends.
///
/// ```rust
/// let mut buffer = [0; 40];
/// let end = put_text(&mut buffer, 0, b"yes ");
/// assert_eq!(rt; end, 4);
/// ```
pub fn put_text(buffer: &mut [u8], at: usize, text: &[u8]) -> usize
    requires { at + length text.now ≤ length buffer.old }
    ensures put { take result buffer.new ≡ take at buffer.old ++ text.now }
    ensures end { result ≡ at + length text.now }
{
    let end = at + text.len();
    buffer[at..end].copy_from_slice(text);
    end
}

/// Puts a short text that is in the code, as `put_text`: byte by byte, which becomes a store or two.
#[inline(always)]
pub(crate) fn put_literal(buffer: &mut [u8], at: usize, text: &[u8]) -> usize
    requires { at + length text.now ≤ length buffer.old }
    ensures put { take result buffer.new ≡ take at buffer.old ++ text.now }
    ensures end { result ≡ at + length text.now }
{
    for index in 0..text.len() {
        buffer[at + index] = text[index];
    }
    at + text.len()
}

/// Puts a short text that is in no code, as `put_text`. One of 8 to 16 bytes, as most lines of a script are, is put by its first eight
/// and its last eight, which may overlap: two moves, and no call.
#[inline(always)]
pub(crate) fn put_short(buffer: &mut [u8], at: usize, text: &[u8]) -> usize
    requires { at + length text.now ≤ length buffer.old }
    ensures put { take result buffer.new ≡ take at buffer.old ++ text.now }
    ensures end { result ≡ at + length text.now }
{
    let length = text.len();
    if length < 8 || length > 16 {
        return put_text(buffer, at, text);
    }
    put_text(buffer, at, &text[..8]);
    put_text(buffer, at + length - 8, &text[length - 8..])
}

/// How many digits a number below 10,000 has.
fn short_digit_count(number: u64) -> usize
    requires { number < 10000 }
    ensures { result ≡ length (decimal number) }
{
    if number < 10 {
        1
    } else if number < 100 {
        2
    } else if number < 1_000 {
        3
    } else {
        4
    }
}

/// How many digits a number has. Most names have five or six, which two comparisons tell.
fn digit_count(number: u64) -> usize
    ensures { result ≡ length (decimal number) }
{
    if number < 10_000 {
        return short_digit_count(number);
    }
    if number < 100_000 {
        return 5;
    }
    if number < 1_000_000 {
        return 6;
    }
    let mut count = 0;
    let mut left = number;
    while left >= 10_000 {
        left /= 10_000;
        count += 4;
    }
    count + short_digit_count(left)
}

/// Puts a number after the first `at` bytes, and answers where it ends. A number has at most 20 digits.
///
/// ```rust
/// let mut buffer = [0; 40];
/// let end = put_number(&mut buffer, 0, 120);
/// assert_eq!(rt; &buffer[..end], b"120".as_slice());
/// ```
#[inline(always)]
pub fn put_number(buffer: &mut [u8], at: usize, number: u64) -> usize
    requires { at + 20 ≤ length buffer.old }
    ensures put { take result buffer.new ≡ take at buffer.old ++ decimal number }
    ensures end { result ≤ at + 20 }
{
    if number < 10 {
        return put_byte(buffer, at, b'0' + number as u8);
    }
    put_digits(buffer, at, number)
}

/// Puts a number of any length, as `put_number`.
#[inline(never)]
fn put_digits(buffer: &mut [u8], at: usize, number: u64) -> usize
    requires { at + 20 ≤ length buffer.old }
    ensures put { take result buffer.new ≡ take at buffer.old ++ decimal number }
    ensures end { result ≤ at + 20 }
{
    let end = at + digit_count(number);
    write_digits(number, buffer, end);
    end
}

/// Puts a number of 32 bits after the first `at` bytes, and answers where it ends. It has at most 10 digits.
#[inline(always)]
pub(crate) fn put_small(buffer: &mut [u8], at: usize, number: u32) -> usize
    requires { at + 10 ≤ length buffer.old }
    ensures put { take result buffer.new ≡ take at buffer.old ++ decimal number }
    ensures end { result ≤ at + 10 }
{
    if number < 10 {
        return put_byte(buffer, at, b'0' + number as u8);
    }
    put_small_digits(buffer, at, number)
}

/// Puts a number of 32 bits of any length, as `put_small`.
#[inline(never)]
fn put_small_digits(buffer: &mut [u8], at: usize, number: u32) -> usize
    requires { at + 10 ≤ length buffer.old }
    ensures put { take result buffer.new ≡ take at buffer.old ++ decimal number }
    ensures end { result ≤ at + 10 }
{
    let end = at + digit_count(number as u64);
    write_digits(number as u64, buffer, end);
    end
}
