//! The memory above the regions in use, given back to the system.
//!
//! ```text
//!   region     0        1        2      3        4      5
//!              ordinary ordinary free   ordinary free   free
//!   words      written                        | no longer written: the system has their memory, their room stays
//!   entries    written                        | the same
//! ```
//!
//! A free region below one in use keeps its memory, since its words are between others. In the third format compactions bring free regions
//! to the top, but for those between objects of more than half a region.

ghost use Rattle.std.specs.Prelude.{◌≡◌, ◌≤◌, length};
ghost use Rattle.regions.specs.Rows.{AreFreeFrom};

use crate::row::{Row, is_free};
use crate::table::RegionTable;
use std::alloc::{AllocError, Global};

/// The number after that of the highest row which isn't free.
fn used_end(rows: &[Row]) -> usize
    ensures free { AreFreeFrom result rows.now }
    ensures within { result ≤ length rows.now }
{
    let mut end = 0;
    for i in 0..rows.len() {
        if !is_free(&rows[i]) {
            end = i + 1;
        }
    }
    end
}

impl RegionTable {
    /// The words above the highest region in use are no longer written, and their memory goes back.
    fn give_words(&mut self, alloc: Global) -> Result<(), AllocError>
        ensures { self.new ≡ self.old }
    {
        let end = used_end(&self.rows) * self.words_per_region as usize;
        self.words.give_back(alloc, end)
    }

    /// The entries of the cards above it are no longer written, and their memory goes back.
    fn give_entries(&mut self, alloc: Global) -> Result<(), AllocError>
        ensures { self.new ≡ self.old }
    {
        let end = used_end(&self.rows) * self.words_per_region as usize;
        self.first_tiles.give_back(alloc, end as u32)
    }

    /// The memory that was taken for words above the highest region in use goes back to the system, and so does that of their cards'
    /// entries, and of more objects with weak slots than there are. The table stays, and so does its room. Where the memory that this asks
    /// for meanwhile is refused, less goes back.
    pub fn give_back(&mut self, alloc: Global) -> Result<(), AllocError>
        ensures { self.new ≡ self.old }
    {
        self.give_words(alloc)?;
        self.give_entries(alloc)?;
        self.weak_starts.give_back(alloc)
    }
}
