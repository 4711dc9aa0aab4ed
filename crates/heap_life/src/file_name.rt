//! The name of the file that a page is drawn of, and names for shapes, as the page tells them.
//!
//! ```text
//!   examples/first.heap     file examples/first.heap
//!   <b> & "ü".heap          file %3Cb%3E%20%26%20%22%C3%BC%22.heap
//!
//!   0 0 * * string          names 0%200%20%2A%20%2A%20string%0A
//! ```
//!
//! Each byte but letters, digits and `- . / _ ~` is told as `%` and two digits to the base 16, as addresses of the web have it
//! (Berners-Lee, Fielding and Masinter, Uniform Resource Identifier: Generic Syntax, RFC 3986, section 2.1). So nothing of a name, or of
//! names for shapes, has a meaning in HTML, and none has two lines.

ghost use Rattle.std.specs.Prelude.{◌≡◌, ◌<◌, ℕ, List, All};
ghost use Rattle.script_text.specs.Texts.{Adds};
ghost use Rattle.heap_life.specs.FileNames.{byte_text, digit_text, file_text, is_from_to, is_plain, name_text, names_text, IsByte, IsSafe};

use script_text::Text;

/// Whether a byte is from one to another.
fn is_from_to(first: u8, last: u8, byte: u8) -> bool
    ensures { result ≡ is_from_to first last byte }
{
    first <= byte && byte <= last
}

/// Whether a byte is told as itself.
fn is_plain(byte: u8) -> bool
    ensures { result ≡ is_plain byte }
{
    is_from_to(b'a', b'z', byte)
        || is_from_to(b'A', b'Z', byte)
        || is_from_to(b'-', b'9', byte)
        || byte == b'_'
        || byte == b'~'
}

/// A digit to the base 16.
fn digit(number: u8) -> u8
    requires { number < 16 }
    ensures { result ≡ digit_text number }
{
    if number < 10 {
        b'0' + number
    } else {
        b'A' - 10 + number
    }
}

/// Adds a byte of a name.
fn put_byte(text: &mut Text, byte: u8)
    ensures { Adds text.old (byte_text byte) text.new }
{
    if is_plain(byte) {
        text.put_bytes(&[byte]);
    } else {
        text.put_bytes(&[b'%', digit(byte / 16), digit(byte % 16)]);
    }
}

/// Adds a name.
fn put_name(text: &mut Text, name: &[u8])
    ensures { Adds text.old (name_text name.now) text.new }
{
    for place in 0..name.len() {
        put_byte(text, name[place]);
    }
}

/// Adds what the page says of the file that it is drawn of.
pub(crate) fn put_file(text: &mut Text, name: &str)
    ensures { Adds text.old (file_text name.now) text.new }
{
    text.put("file ");
    put_name(text, name.as_bytes());
    text.put("\n");
}

/// Adds names for shapes, the bytes of a file of them, and nothing where there are none.
pub(crate) fn put_names(text: &mut Text, names: &[u8])
    ensures { Adds text.old (names_text names.now) text.new }
{
    if names.is_empty() {
        return;
    }
    text.put("names ");
    put_name(text, names);
    text.put("\n");
}

/// What a page tells of a name, or of names for shapes, has no byte but letters, digits and
/// `- . / _ ~ %`. What is told alike is the same.
pub fn name_law()
    ensures safe { (name : List ℕ) → All IsByte name → All IsSafe (name_text name) }
    ensures apart { (a b : List ℕ) → All IsByte a → All IsByte b → name_text a ≡ name_text b → a ≡ b }
{}
