//! The words of a heap: addresses, headers, pointers, the sizes that a heap can have, all access to words, and short lists.
//!
//! A word is a `u64`, and addresses count words from 0. What is at an address begins with a header word: an
//! object's header says how many pointers, weak slots and data words it has, a filler's how many words it takes, and one
//! of a forwarded object where its copy is. Every other word is ill-formed, and reading it gives none. Each header and
//! each pointer is read back from the word that it is written as, and each access changes the words that it names and
//! no others.
#![tactic(auto)]

pub mod addr;
pub mod config;
pub mod header;
pub mod powers;
pub mod room;
pub mod short_list;
pub mod words;
