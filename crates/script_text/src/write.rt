//! Values to texts.

pub(crate) mod bytes;
pub(crate) mod counts;
pub(crate) mod lines;
pub(crate) mod record_lines;
pub(crate) mod text;
pub(crate) mod writing;
pub(crate) mod written;
