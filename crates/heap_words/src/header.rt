//! Headers and the words that they are written as.
ghost use Rattle.std.specs.Prelude.{◌≡◌, ◌+◌, ◌<◌, ◌^◌, IfSome, IfNone, ◌≢◌, Some};
ghost use Rattle.heap_words.specs.Sizes.{size_of};
ghost use Rattle.heap_words.specs.Headers.{header_word, IsHeader, header_of, pointer_of, pointer_word};
ghost use Rattle.heap_words.specs.Contents.{counts_of};
ghost use Rattle.heap_words.specs.declared.header.Header.TheVariants as headers;

use crate::addr::{Addr, Ptr};
use std::marker::Model;

/// A count of words that a header has room for.
#[derive(Clone, Copy, Debug, PartialEq, Eq)]
pub struct Count(u32);

impl Model for Count {
    ghost use Rattle.std.specs.Prelude.{ℕ, ◌<◌, ◌^◌};

    ghost Value = { ℕ };

    ghost view = { λ a. a.0 };

    ghost invariant = { λ a. a.0 < 2 ^ 24 };

    ghost inverse = { λ n. record { 0 = n } };
}

impl Count {
    /// A count below 2^24.
    pub fn new(count: u32) -> Count
        requires { count < 2 ^ 24 }
        ensures { result ≡ count }
    {
        Count(count)
    }

    /// The count as a number.
    pub fn get(self) -> u32
        ensures value { result ≡ self }
        ensures small { result < 2 ^ 24 }
    {
        self.0
    }
}

/// A filler's size in words, which is at least 1.
#[derive(Clone, Copy, Debug, PartialEq, Eq)]
pub struct FillerSize(u32);

impl Model for FillerSize {
    ghost use Rattle.std.specs.Prelude.{ℕ, ◌<◌, ◌^◌};

    ghost Value = { ℕ };

    ghost view = { λ a. a.0 };

    ghost invariant = { λ a. (0 < a.0) × (a.0 < 2 ^ 24) };

    ghost inverse = { λ n. record { 0 = n } };
}

impl FillerSize {
    /// A size below 2^24, of words.
    pub fn new(size: u32) -> FillerSize
        requires positive { 0 < size }
        requires small { size < 2 ^ 24 }
        ensures { result ≡ size }
    {
        FillerSize(size)
    }

    /// The size as a number.
    pub fn get(self) -> u32
        ensures value { result ≡ self }
        ensures positive { 0 < result }
        ensures small { result < 2 ^ 24 }
    {
        self.0
    }
}

/// A count of pairs, each of a key and what it holds: no object has room for more.
#[derive(Clone, Copy, Debug, PartialEq, Eq)]
pub struct PairCount(u32);

impl Model for PairCount {
    ghost use Rattle.std.specs.Prelude.{ℕ, ◌<◌, ◌^◌};

    ghost Value = { ℕ };

    ghost view = { λ a. a.0 };

    ghost invariant = { λ a. a.0 < 2 ^ 23 };

    ghost inverse = { λ n. record { 0 = n } };
}

impl PairCount {
    /// A count below 2^23.
    pub fn new(count: u32) -> PairCount
        requires { count < 2 ^ 23 }
        ensures { result ≡ count }
    {
        PairCount(count)
    }

    /// The count as a number.
    pub fn get(self) -> u32
        ensures value { result ≡ self }
        ensures small { result < 2 ^ 23 }
    {
        self.0
    }

    /// The same count, as one of words.
    pub fn words(self) -> Count
        ensures { result ≡ self }
    {
        Count::new(self.0)
    }
}

/// How many pointers, weak slots and data words the header of an object without pairs tells.
#[derive(Clone, Copy, Debug, PartialEq, Eq)]
pub struct HeaderCounts {
    /// How many pointers.
    pub pointers: Count,
    /// How many weak slots.
    pub weaks: u8,
    /// How many data words.
    pub values: Count,
}

/// How many pointers, pairs and data words the header of an object of pairs tells.
#[derive(Clone, Copy, Debug, PartialEq, Eq)]
pub struct PairCounts {
    /// How many pointers.
    pub pointers: u8,
    /// How many pairs.
    pub pairs: PairCount,
    /// How many data words.
    pub values: Count,
}

/// How many pointers, weak slots, held slots and data words an object has. One of n pairs has n weak slots, its keys, and n held slots; any
/// other has no held slots.
#[derive(Clone, Copy, Debug, PartialEq, Eq)]
pub struct ObjectCounts {
    /// How many pointers.
    pub pointers: Count,
    /// How many weak slots.
    pub weaks: Count,
    /// How many held slots.
    pub held: Count,
    /// How many data words.
    pub values: Count,
}

/// How many words an object of so many pointers, weak slots and data words has, with its header and its name.
#[inline(always)]
pub fn object_size(pointers: u32, weaks: u8, values: u32) -> u64
    ensures { result ≡ size_of pointers weaks values }
{
    2 + u64::from(pointers) + u64::from(weaks) + u64::from(values)
}

impl HeaderCounts {
    /// How many words such an object has.
    #[inline(always)]
    pub fn size(&self) -> u32
        ensures { result ≡ size_of self.now.pointers self.now.weaks self.now.values }
    {
        object_size(self.pointers.get(), self.weaks, self.values.get()) as u32
    }

    /// The same counts, with those of held slots, of which there are none.
    pub fn counts(&self) -> ObjectCounts
        ensures { Some result ≡ counts_of (Some (headers.Object self.now.pointers self.now.weaks self.now.values)) }
    {
        ObjectCounts {
            pointers: self.pointers,
            weaks: Count::new(u32::from(self.weaks)),
            held: Count::new(0),
            values: self.values,
        }
    }
}

impl PairCounts {
    /// How many words such an object has.
    #[inline(always)]
    pub fn size(&self) -> u32
        ensures { result ≡ size_of self.now.pointers (self.now.pairs + self.now.pairs) self.now.values }
    {
        2 + u32::from(self.pointers) + 2 * self.pairs.get() + self.values.get()
    }

    /// The same counts, by what a pair is: a weak slot and a held slot.
    pub fn counts(&self) -> ObjectCounts
        ensures { Some result ≡ counts_of (Some (headers.Pairs self.now.pointers self.now.pairs self.now.values)) }
    {
        ObjectCounts {
            pointers: Count::new(u32::from(self.pointers)),
            weaks: self.pairs.words(),
            held: self.pairs.words(),
            values: self.values,
        }
    }
}

impl ObjectCounts {
    /// How many words such an object has.
    pub fn size(&self) -> u32
        ensures { result ≡ size_of self.now.pointers (self.now.weaks + self.now.held) self.now.values }
    {
        2 + self.pointers.get() + (self.weaks.get() + self.held.get()) + self.values.get()
    }
}

/// The header of a tile, told apart by its two lowest bits.
#[derive(Clone, Copy, Debug, PartialEq, Eq)]
pub enum Header {
    /// 0: the count of pointers in bits 8 to 31, of data words in bits 32 to 55, of weak slots in bits 56 to 63.
    Object {
        pointers: Count,
        weaks: u8,
        data: Count,
    },
    /// 3, and bit 7: an object of pairs, with the count of keys and held slots in bits 8 to 31, which is twice that of pairs, of data words
    /// in bits 32 to 55, of pointers in bits 56 to 63. So the fields and the words of both kinds of objects are counted alike. Bit 7 is the
    /// highest one once bits 8 to 31 are the lowest: one comparison can tell whether there is a pointer, and of which kind the object is.
    Pairs {
        pointers: u8,
        pairs: PairCount,
        data: Count,
    },
    /// 1: the filler's size in bits 8 to 31.
    Filler {
        size: FillerSize,
    },
    /// 2: the new address in bits 8 to 39.
    Forwarded {
        to: Addr,
    },
}

/// The word of a header.
#[inline(always)]
#[tactic(auto, unfolding(crate::specs::Headers::header_of))]
pub fn encode_header(header: Header) -> u64
    ensures word { result ≡ header_word header }
    ensures back { header_of result ≡ Some header }
    ensures fits { IsHeader header }
{
    match header {
        Header::Object {
            pointers,
            weaks,
            data,
        } => {
            (u64::from(pointers.get()) << 8)
                | (u64::from(data.get()) << 32)
                | (u64::from(weaks) << 56)
        }
        Header::Pairs {
            pointers,
            pairs,
            data,
        } => {
            let counts = (u64::from(pairs.get()) << 9)
                | (u64::from(data.get()) << 32)
                | (u64::from(pointers) << 56);
            counts + 0x83
        }
        Header::Filler { size } => (u64::from(size.get()) << 8) | 1,
        Header::Forwarded { to } => (u64::from(to.word()) << 8) | 2,
    }
}

/// The header that a word is, None if it is ill-formed.
#[tactic(auto, unfolding(crate::specs::Headers::header_of))]
pub fn decode_header(word: u64) -> Option<Header>
    ensures value { result ≡ header_of word }
    ensures some { IfSome result (λ h. (header_word h ≡ word) × IsHeader h) }
    ensures none { IfNone result ((h : Header) → IsHeader h → header_word h ≢ word) }
{
    let low = word & 0xff;
    let rest = word >> 8;
    if low == 0 {
        Some(Header::Object {
            pointers: Count::new((rest & 0xff_ffff) as u32),
            weaks: (rest >> 48) as u8,
            data: Count::new(((rest >> 24) & 0xff_ffff) as u32),
        })
    } else if low == 1 && 0 < rest && rest < 1 << 24 {
        Some(Header::Filler {
            size: FillerSize::new(rest as u32),
        })
    } else if low == 2 && rest < 1 << 32 {
        Some(Header::Forwarded {
            to: Addr::new(rest as u32),
        })
    } else if word & 0x1ff == 0x83 {
        Some(Header::Pairs {
            pointers: (rest >> 48) as u8,
            pairs: PairCount::new(((rest >> 1) & 0x7f_ffff) as u32),
            data: Count::new(((rest >> 24) & 0xff_ffff) as u32),
        })
    } else {
        None
    }
}

/// The target that a pointer word names, unless it is nil.
pub fn decode_pointer(word: u64) -> Ptr
    ensures { result ≡ pointer_of word }
{
    if word == 0 {
        None
    } else {
        Some(Addr::new(((word - 1) & 0xffff_ffff) as u32))
    }
}

/// The word of a pointer.
pub fn encode_pointer(target: Ptr) -> u64
    ensures word { result ≡ pointer_word target }
    ensures back { pointer_of result ≡ target }
{
    match target {
        None => 0,
        Some(to) => u64::from(to.word()) + 1,
    }
}
