//! What is between the record's text and the life's.
//!
//! Made by `tools/embed_page` of the files of `page/`: change those.

/// The text.
pub const BETWEEN: &str = "\
</script>\n\
<script type=\"text/plain\" id=\"life\">\n";
