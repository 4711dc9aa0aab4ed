//! The types that a text names.

ghost use Rattle.std.specs.Prelude.{◌≡◌, ◌≢◌, ◌++◌, ◌∷◌, [], ℕ, List, None, Some, IfErr, IfOk, OnOk, option_map};
ghost use Rattle.std.specs.Ordering.{nat_cmp};
ghost use Rattle.std.specs.BTreeMap.{get};
ghost use Rattle.type_names.specs.NamedLines.{TypeName};
ghost use Rattle.type_names.specs.Naming.{NamesTypes, first_for, in_line, name_in, types_of};
ghost use Rattle.type_names.specs.Naming.{with_line};
ghost use Rattle.type_names.specs.Tables.{AreFirsts, AreNames, AreWords, TakesLine, type_of};

use crate::faults::{Mistake, TypesFault};
use crate::lines::{Named, find, is_passed, type_in};
use std::alloc::{AllocError, Global};
use std::collections::BTreeMap;
use std::marker::Model;

/// The names of words, and the first word of each name.
#[derive(Drop)]
struct Names<'a> {
    words: BTreeMap<u64, &'a [u8]>,
    firsts: BTreeMap<&'a [u8], u64>,
}

/// Adds a word's name, which has none yet.
fn add_word<'a>(words: &mut BTreeMap<u64, &'a [u8]>, named: Named<'a>) -> Result<(), AllocError>
    requires { get nat_cmp words.old named.word ≡ None }
    ensures { (ts : List TypeName) → AreWords ts words.old → OnOk result (AreWords (ts ++ type_of named.entry ∷ []) words.new) }
{
    words.insert(named.word, named.name)?;
    Ok(())
}

/// Adds the word of a name, unless the name has one.
fn add_first<'a>(firsts: &mut BTreeMap<&'a [u8], u64>, named: Named<'a>) -> Result<(), AllocError>
    ensures { (ts : List TypeName) → AreFirsts ts firsts.old → OnOk result (AreFirsts (ts ++ type_of named.entry ∷ []) firsts.new) }
{
    if firsts.contains_key(&named.name) {
        return Ok(());
    }
    firsts.insert(named.name, named.word)?;
    Ok(())
}

/// Adds a word and its name. The word has none yet.
fn add<'a>(names: &mut Names<'a>, named: Named<'a>) -> Result<(), AllocError>
    requires { get nat_cmp names.old.words named.word ≡ None }
    ensures { (ts : List TypeName) → AreNames ts names.old → OnOk result (AreNames (ts ++ type_of named.entry ∷ []) names.new) }
{
    add_word(&mut names.words, named)?;
    add_first(&mut names.firsts, named)
}

/// Adds what the line of this number says, unless it is passed over.
fn add_line<'a>(names: &mut Names<'a>, line: &'a [u8], number: u64) -> Result<(), TypesFault>
    ensures { TakesLine number line.now names.old names.new result }
{
    if is_passed(line) {
        return Ok(());
    }
    let named = match type_in(line) {
        Ok(named) => named,
        Err(mistake) => return Err(TypesFault::Line {
            line: number,
            mistake,
        }),
    };
    if names.words.contains_key(&named.word) {
        return Err(TypesFault::Line {
            line: number,
            mistake: Mistake::NamedTwice,
        });
    }
    match add(names, named) {
        Ok(()) => Ok(()),
        Err(_) => Err(TypesFault::NoMemory),
    }
}

/// The types that a text names. Clauses see the text.
#[derive(Drop)]
pub struct Types<'a> {
    text: &'a [u8],
    names: Names<'a>,
}

impl<'a> Model for Types<'a> {
    ghost use Rattle.std.specs.Prelude.{ℕ, List};
    ghost use Rattle.type_names.specs.Naming.{known, types_of};
    ghost use Rattle.type_names.specs.Tables.{AreNames};

    ghost Value = { List ℕ };

    ghost view = { λ t. t.text.now };

    ghost invariant = { λ t. AreNames (known (types_of t.text.now)) t.names };
}

/// No names.
fn no_names<'a>(alloc: Global) -> Names<'a>
    ensures { AreNames [] result }
{
    Names {
        words: BTreeMap::new(alloc),
        firsts: BTreeMap::new(alloc),
    }
}

impl<'a> Types<'a> {
    /// No types.
    ///
    /// ```rust
    /// assert_eq!(rt; Types::new(alloc).name(7), None);
    /// ```
    pub fn new(alloc: Global) -> Types<'a>
        ensures { result ≡ [] }
    {
        Types {
            text: &[],
            names: no_names(alloc),
        }
    }

    /// The name of a word, if it has one.
    ///
    /// ```rust
    /// let types = read_types(alloc, b"7 pair\n")?;
    /// assert_eq!(rt; types.name(7), Some(b"pair".as_slice()));
    /// ```
    pub fn name(&self, word: u64) -> Option<&'a [u8]>
        ensures { option_map (λ name. name.now) result ≡ name_in self.now word }
    {
        self.names.words.get(&word).copied()
    }

    /// The first word of the text that has the name of this one, if that has a name.
    ///
    /// ```rust
    /// let types = read_types(alloc, b"7 pair\n8 pair\n")?;
    /// assert_eq!(rt; types.first(8), Some(7));
    /// ```
    pub fn first(&self, word: u64) -> Option<u64>
        ensures { result ≡ first_for self.now word }
    {
        match self.name(word) {
            Some(name) => self.names.firsts.get(&name).copied(),
            None => None,
        }
    }
}

/// Reads the types that a text names, or tells the first line with a mistake. Where memory is refused, no line that was read has one.
///
/// ```rust
/// let fault = TypesFault::Line { line: 2, mistake: Mistake::NoName };
/// assert_eq!(rt; read_types(alloc, b"7 pair\n8\n").err(), Some(fault));
/// ```
pub fn read_types<'a>(alloc: Global, text: &'a [u8]) -> Result<Types<'a>, TypesFault>
    ensures types { IfOk result (λ types. types ≡ text.now) }
    ensures named { OnOk result (NamesTypes text.now) }
    ensures fault { IfErr result (λ fault. fault ≢ TypesFault.NoMemory → types_of text.now ≡ Err fault) }
{
    let mut names = no_names(alloc);
    let mut rest = text;
    let mut number = 1u64;
    'lines: loop {
        let end = find(rest, b'\n');
        if let Err(fault) = add_line(&mut names, &rest[..end], number) {
            return Err(fault);
        }
        if end == rest.len() {
            return Ok(Types { text, names });
        }
        rest = &rest[end + 1..];
        number += 1;
    }
}

/// The first word of a name has that name.
pub fn types_law()
    ensures { (text : List ℕ) (word first : ℕ) → first_for text word ≡ Some first → name_in text first ≡ name_in text word }
{}
