//! What the calls of the library for C do with a heap, before `g1heap_c` exports them: all that needs no policy of collection, so it is
//! proved beside `collection`.
//!
//! ```text
//!   g1heap_c       an export for each call that C makes         g1_get(&heap, m, to, obj, i)
//!   heap_calls     Heap: nothing, or a core in a box            take(heap, step) -> Core::step -> Reply -> Answer
//! ```
//!
//! `named` has what a call's numbers name, `answer` the numbers that a call answers, `heap` a heap as C keeps it, `handle` its pointer,
//! `loose` the box that this points to, `making` how it begins, `filled` a new object with its fields, `words` several data words, `loads`
//! a pointer with a data word of the object that it leads to, `rows` several fields, `readers` what is looked for in a heap, `walks` its
//! objects one after another, `paths` a shortest way to one, and `giving` memory that is given back to the system.
#![tactic(auto)]

pub mod answer;
pub mod filled;
pub mod giving;
pub mod handle;
pub mod heap;
pub mod loads;
pub mod loose;
pub mod making;
pub mod named;
pub mod paths;
pub mod readers;
pub mod rows;
pub mod walks;
pub mod words;
