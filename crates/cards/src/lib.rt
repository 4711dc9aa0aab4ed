//! Dirty cards: those whose words were written since their fields, pointers and weak slots, were last looked at.
//!
//! A store into a field that then leads into another region makes the field's card dirty, and enters it in the log of its mutator. A
//! log that holds four cards is appended to the queue. Refinement takes a card from the queue's front, which becomes clean, and looks at
//! its fields. A pause first sends all logs to the queue, and in the end appends cards of fields that it wrote.
//!
//! ```text
//!   dirty(0, 7)  logs | 3 9 1 7 |      queue 5 2             log 0 holds four cards: it goes to the queue
//!                     | 6       |
//!   then         logs |         |      queue 5 2 3 9 1 7
//!                     | 6       |
//!   dequeue      logs |         |      queue 2 3 9 1 7       5 is clean
//!                     | 6       |
//!   append(5)    logs |         |      queue 2 3 9 1 7 5     5 is dirty again, after all others
//!                     | 6       |
//!   flush_all    logs |         |      queue 2 3 9 1 7 5 6
//!                     |         |
//! ```
//!
//! A card that is dirty is in the logs and the queue together exactly once, and a clean one not at all. So the
//! queue never holds more cards than there are: its room is made once, and no call but the making and `give_back` takes
//! memory or fails.
#![tactic(auto)]

mod flags;
mod log;
mod queue;
pub mod table;

pub use table::CardTable;
