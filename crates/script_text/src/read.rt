//! Texts to values.

/// What is there; where nothing is, the function returns None. It is `?` without the two functions that `?` calls, which make a proof about
/// a fourth longer.
macro_rules! some {
    ($found:expr) => {
        match $found {
            Some(value) => value,
            None => return None,
        }
    };
}

pub(crate) mod awaited;
pub(crate) mod callers;
pub(crate) mod events;
pub(crate) mod input;
pub(crate) mod line_words;
pub(crate) mod record_events;
pub(crate) mod records;
pub(crate) mod replies;
pub(crate) mod script;
pub(crate) mod script_steps;
pub(crate) mod steps;
pub(crate) mod usual;
pub(crate) mod usual_collections;
pub(crate) mod usual_events;
pub(crate) mod words;
