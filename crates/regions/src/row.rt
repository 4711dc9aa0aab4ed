//! What is known of a region beside its words, and of a tile.
ghost use Rattle.std.specs.Prelude.{◌≡◌, IfOk, replicate};
ghost use Rattle.regions.specs.Rows.{kind_is_free, kind_is_rest, free_row};
ghost use Rattle.regions.specs.Shapes.{size_of_shape};

use heap_words::addr::Addr;
use heap_words::header::Count;
use std::alloc::{AllocError, Global};

/// What a region is.
#[derive(Clone, Copy, Debug, PartialEq, Eq)]
pub enum Kind {
    /// Not taken.
    Free,
    /// Tiles from the bottom to the top.
    Ordinary,
    /// The first region of a run, which holds one humongous object.
    First,
    /// A later region of a run.
    Rest,
}

/// A region's kind, and how many of its words are handed out.
#[derive(Clone, Copy, Debug, PartialEq, Eq)]
pub(crate) struct Row {
    pub(crate) kind: Kind,
    pub(crate) used: u32,
}

/// What a tile is. Sizes are in words.
#[derive(Clone, Copy, Debug, PartialEq, Eq)]
pub enum Shape {
    /// An object, by its counts of pointers, of weak slots and held slots together, and of data words.
    Object {
        pointers: Count,
        slots: Count,
        values: Count,
    },
    /// Words that hold nothing.
    Filler {
        size: u32,
    },
    /// An object that went to an address.
    Forwarded {
        to: Addr,
        size: u32,
    },
}

impl Shape {
    /// How many words the tile has.
    pub fn size(&self) -> u32
        ensures { result ≡ size_of_shape self.now }
    {
        match *self {
            Shape::Object {
                pointers,
                slots,
                values,
            } => 2 + pointers.get() + slots.get() + values.get(),
            Shape::Filler { size } => size,
            Shape::Forwarded { size, .. } => size,
        }
    }
}

pub(crate) fn is_free(row: &Row) -> bool
    ensures { result ≡ kind_is_free row.now.kind }
{
    match row.kind {
        Kind::Free => true,
        Kind::Ordinary | Kind::First | Kind::Rest => false,
    }
}

pub(crate) fn is_rest(row: &Row) -> bool
    ensures { result ≡ kind_is_rest row.now.kind }
{
    match row.kind {
        Kind::Rest => true,
        Kind::Free | Kind::Ordinary | Kind::First => false,
    }
}

/// The rows of so many free regions.
pub(crate) fn free_rows(alloc: Global, regions: usize) -> Result<Vec<Row>, AllocError>
    ensures { IfOk result (λ v. v.items ≡ replicate regions free_row) }
{
    let free = Row {
        kind: Kind::Free,
        used: 0,
    };
    vec![in alloc; free; regions]
}
