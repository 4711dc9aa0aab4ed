//! What is between the life's text and the scripts.
//!
//! Made by `tools/embed_page` of the files of `page/`: change those.

/// The text.
pub const BEHIND: &str = "\
</script>\n\
<script>\n";
