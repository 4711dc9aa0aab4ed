//! The end of the page.
//!
//! Made by `tools/embed_page` of the files of `page/`: change those.

/// The text.
pub const END: &str = "\
</script>\n\
</body>\n\
</html>\n";
