//! Texts that are put together piece by piece.
//!
//! A body that puts pieces one after another needs no way out for each: what it adds is the pieces in their order, unless memory was
//! refused. Of a loop that puts pieces the invariant is that what was put so far was added, as `Adds l.initial.text pieces l.text`.

ghost use Rattle.std.specs.Prelude.{◌≡◌, [], Some, None, IfOk, OnErr};
ghost use Rattle.std.specs.Fmt.{decimal};
ghost use Rattle.script_text.specs.Texts.{Adds, AddsText, emptied, text_length, are_same, spaced_number};

use crate::write::bytes::put_number;
use std::alloc::{AllocError, Global};
use std::marker::Model;

/// A text. Once memory is refused nothing is added to it any more, and it can't be had as bytes. So who adds to it needn't ask each time.
///
/// ```rust
/// let mut text = Text::new(alloc);
/// text.put("yes");
/// text.put_number(120);
/// let bytes = text.into_bytes()?;
/// assert_eq!(rt; bytes.as_slice(), b"yes 120".as_slice());
/// ```
#[derive(Drop)]
pub struct Text {
    bytes: Vec<u8>,
    whole: bool,
}

impl Model for Text {
    ghost use Rattle.std.specs.Prelude.{ℕ, List, Option, Some, None, if◌then◌else◌};

    ghost Value = { Option (List ℕ) };

    ghost view = { λ t. if t.whole then Some t.bytes.items else None };
}

impl Text {
    /// The empty text.
    ///
    /// ```rust
    /// assert_eq!(rt; Text::new(alloc).len(), 0);
    /// ```
    pub fn new(alloc: Global) -> Text
        ensures { result ≡ Some [] }
    {
        Text {
            bytes: Vec::new(alloc),
            whole: true,
        }
    }

    /// Adds bytes.
    ///
    /// ```rust
    /// let mut text = Text::new(alloc);
    /// text.put_bytes(b"yes");
    /// assert_eq!(rt; text.into_bytes()?.as_slice(), b"yes".as_slice());
    /// ```
    pub fn put_bytes(&mut self, bytes: &[u8])
        ensures { Adds self.old bytes.now self.new }
    {
        if self.whole {
            self.whole = self.bytes.extend_from_slice(bytes).is_ok();
        }
    }

    /// Adds a text as it is.
    ///
    /// ```rust
    /// let mut text = Text::new(alloc);
    /// text.put("yes");
    /// assert_eq!(rt; text.into_bytes()?.as_slice(), b"yes".as_slice());
    /// ```
    pub fn put(&mut self, text: &str)
        ensures { Adds self.old text.now self.new }
    {
        self.put_bytes(text.as_bytes());
    }

    /// Adds a number.
    ///
    /// ```rust
    /// let mut text = Text::new(alloc);
    /// text.put_digits(120);
    /// assert_eq!(rt; text.into_bytes()?.as_slice(), b"120".as_slice());
    /// ```
    pub fn put_digits(&mut self, number: u64)
        ensures { Adds self.old (decimal number) self.new }
    {
        let mut digits = [0; 20];
        let end = put_number(&mut digits, 0, number);
        self.put_bytes(&digits[..end]);
    }

    /// Adds a space and a number.
    ///
    /// ```rust
    /// let mut text = Text::new(alloc);
    /// text.put_number(120);
    /// assert_eq!(rt; text.into_bytes()?.as_slice(), b" 120".as_slice());
    /// ```
    pub fn put_number(&mut self, number: u64)
        ensures { Adds self.old (spaced_number number) self.new }
    {
        self.put_bytes(b" ");
        self.put_digits(number);
    }

    /// Adds another text. Where memory was refused for that one, this one can't be had either.
    ///
    /// ```rust
    /// let mut text = Text::new(alloc);
    /// text.put("yes");
    /// let mut twice = Text::new(alloc);
    /// twice.put_text(&text);
    /// twice.put_text(&text);
    /// assert_eq!(rt; twice.into_bytes()?.as_slice(), b"yesyes".as_slice());
    /// ```
    pub fn put_text(&mut self, other: &Text)
        ensures { AddsText self.old other.now self.new }
    {
        self.whole = self.whole && other.whole;
        self.put_bytes(other.bytes.as_slice());
    }

    /// Whether memory was refused for neither text, and both have the same bytes.
    ///
    /// ```rust
    /// let mut text = Text::new(alloc);
    /// text.put("yes");
    /// assert!(rt; !text.is(&Text::new(alloc)));
    /// ```
    pub fn is(&self, other: &Text) -> bool
        ensures { result ≡ are_same self.now other.now }
    {
        self.whole && other.whole && self.bytes.as_slice() == other.bytes.as_slice()
    }

    /// How many bytes it has, and 0 once memory was refused.
    ///
    /// ```rust
    /// let mut text = Text::new(alloc);
    /// text.put("yes");
    /// assert_eq!(rt; text.len(), 3);
    /// ```
    pub fn len(&self) -> usize
        ensures { result ≡ text_length self.now }
    {
        if self.whole { self.bytes.len() } else { 0 }
    }

    /// Empties it. That memory was refused isn't forgotten.
    ///
    /// ```rust
    /// let mut text = Text::new(alloc);
    /// text.put("yes");
    /// text.clear();
    /// assert_eq!(rt; text.len(), 0);
    /// ```
    pub fn clear(&mut self)
        ensures { self.new ≡ emptied self.old }
    {
        self.bytes.clear();
    }

    /// Its bytes, unless memory was refused.
    ///
    /// ```rust
    /// let mut text = Text::new(alloc);
    /// text.put("yes");
    /// let bytes = text.into_bytes()?;
    /// assert_eq!(rt; bytes.as_slice(), b"yes".as_slice());
    /// ```
    pub fn into_bytes(self) -> Result<Vec<u8>, AllocError>
        ensures ok { IfOk result (λ bytes. self ≡ Some bytes.items) }
        ensures err { OnErr result (self ≡ None) }
    {
        let Text { bytes, whole } = self;
        if whole { Ok(bytes) } else { Err(AllocError) }
    }
}
