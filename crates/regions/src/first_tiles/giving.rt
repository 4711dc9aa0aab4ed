//! The memory of entries that no tile needs, given back to the system.

ghost use Rattle.std.specs.Prelude.{◌≡◌, ◌*◌, ◌<◌, ◌≤◌, ℕ, length, slice_index};
ghost use Rattle.heap_words.specs.Configs.{max_words};

use super::{FirstTiles, card_from};
use heap_words::room::give_back;
use std::alloc::{AllocError, Global};

impl FirstTiles {
    /// The entries of the cards that begin at an end or after it are no longer written, and their memory goes back to the system. There is
    /// room for all entries still. Where the memory that this asks for meanwhile is refused, none goes back.
    pub(crate) fn give_back(&mut self, alloc: Global, end: u32) -> Result<(), AllocError>
        requires { end ≤ max_words }
        ensures card_words { self.new.card_words ≡ self.old.card_words }
        ensures len { length self.new.starts ≡ length self.old.starts }
        ensures below { (c : ℕ) → c * self.old.card_words < end
            → slice_index self.new.starts c ≡ slice_index self.old.starts c }
    {
        let past = card_from(self.shift, end);
        self.starts.truncate(past as usize);
        give_back(alloc, &mut self.starts, self.cards as usize)
    }
}
