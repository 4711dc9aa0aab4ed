//! The counts of events, one after another: the digits before the last are ready, so most counts take the change of one digit.

ghost use Rattle.std.specs.Prelude.{◌≡◌, ◌≤◌, ◌<◌, ◌+◌, ◌^◌, ◌++◌, ℕ, length, take};
ghost use Rattle.std.specs.Fmt.{decimal};
ghost use Rattle.script_text.specs.Counts.{Spells};

use crate::write::bytes::{put_byte, put_number, put_text};

/// The digits of a count: of the front the first so many, and the last digit.
#[derive(Clone, Copy)]
pub(crate) struct Count {
    front: [u8; 20],
    width: usize,
    last: u8,
}

impl Count {
    /// The digits of 0.
    pub(crate) fn zero() -> Count
        ensures { Spells result 0 }
    {
        Count {
            front: [0; 20],
            width: 0,
            last: b'0',
        }
    }

    /// From the digits of a number those of the next.
    #[inline(always)]
    pub(crate) fn count_on(&mut self, number: u64)
        requires before { Spells self.old number }
        requires more { number + 1 < 2 ^ 64 }
        ensures { Spells self.new (number + 1) }
    {
        if self.last < b'9' {
            self.last += 1;
        } else {
            self.width = put_number(&mut self.front, 0, (number + 1) / 10);
            self.last = b'0';
        }
    }

    /// Puts the count after the first `at` bytes, and answers where it ends. What is after that may change too.
    #[inline(always)]
    pub(crate) fn put(&self, buffer: &mut [u8], at: usize) -> usize
        requires room { at + 21 ≤ length buffer.old }
        requires spells { (number : ℕ) × (number < 2 ^ 64) × Spells self.now number }
        ensures put { (number : ℕ) → number < 2 ^ 64 → Spells self.now number
            → take result buffer.new ≡ take at buffer.old ++ decimal number }
        ensures end { result ≤ at + 21 }
    {
        put_text(buffer, at, &self.front);
        put_byte(buffer, at + self.width, self.last)
    }
}
