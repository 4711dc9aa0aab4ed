//! The sizes of a heap, and whether they suit.

ghost use Rattle.std.specs.Prelude.{◌≡◌, ◌↔◌, ◌≤◌, ◌*◌, ◌/◌, IsOk, IsErr, IfErr, IsTrue};
ghost use Rattle.std.specs.Int.{is_power_of_two};
ghost use Rattle.heap_words.specs.Configs.{max_region_words, max_words, max_mutators, region_limit, heap_limit, count_limit, mutator_limit};
ghost use Rattle.heap_words.specs.Configs.{card_length, card_limit, card_words, object_limit, globals_in, registers_in, globals_of};
ghost use Rattle.heap_words.specs.Configs.{registers_of, Suits, HasRegions, HasWords, HasBuffer, HasMutators, HasCard, IsFirstFault};

use thiserror::Error;

/// The most words that an object has, so that its header can say its counts.
const MAX_OBJECT_WORDS: u64 = 1 << 24;

/// The most globals that a heap has.
const MAX_GLOBALS: u32 = 1 << 16;

/// The most registers that a mutator has.
const MAX_REGISTERS: u32 = 1 << 16;

/// The most roots that a heap has, globals and registers together.
const MAX_ROOTS: u64 = 1 << 20;

/// Which of the three heap lines gives the sizes. It sets their limits, the length of a card, and how many roots there are.
#[derive(Clone, Copy, Debug, PartialEq, Eq)]
pub enum Format {
    /// The line `heap`: 4,096 words a region and 1,048,576 in all at most, and cards of 8 words; up to 16 mutators with 8
    /// registers each, and 16 globals.
    V1,
    /// The line `heap2`: 16,384 words a region and 16,777,216 in all at most, and cards of so many words; roots as with `heap`.
    V2 {
        /// How many words a card has.
        card: u32,
    },
    /// The line `heap3`: up to 16,384 regions, 4,194,304 words a region and 2,147,483,648 in all; up to 64 mutators, and as many globals
    /// and registers as it says.
    V3 {
        /// How many words a card has.
        card: u32,
        /// How many globals there are.
        globals: u32,
        /// How many registers each mutator has.
        registers: u32,
    },
}

impl Format {
    /// The most words that a region has.
    fn region_limit(self) -> u32
        ensures { result ≡ region_limit self }
    {
        match self {
            Format::V1 => 1 << 12,
            Format::V2 { .. } => 1 << 14,
            Format::V3 { .. } => 1 << 22,
        }
    }

    /// The most words that a heap has.
    fn heap_limit(self) -> u64
        ensures { result ≡ heap_limit self }
    {
        match self {
            Format::V1 => 1 << 20,
            Format::V2 { .. } => 1 << 24,
            Format::V3 { .. } => 1 << 31,
        }
    }

    /// The most regions that a heap has.
    fn count_limit(self) -> u32
        ensures { result ≡ count_limit self }
    {
        match self {
            Format::V1 | Format::V2 { .. } => 1024,
            Format::V3 { .. } => 16_384,
        }
    }

    /// The most words that a card has.
    fn card_limit(self) -> u32
        ensures { result ≡ card_limit self }
    {
        match self {
            Format::V1 => 8,
            Format::V2 { .. } => 64,
            Format::V3 { .. } => 512,
        }
    }

    /// How many words a card has.
    fn card_length(self) -> u32
        ensures { result ≡ card_length self }
    {
        match self {
            Format::V1 => 8,
            Format::V2 { card } | Format::V3 { card, .. } => card,
        }
    }

    /// The most mutators that a heap has.
    fn mutator_limit(self) -> u32
        ensures { result ≡ mutator_limit self }
    {
        match self {
            Format::V1 | Format::V2 { .. } => 16,
            Format::V3 { .. } => 64,
        }
    }

    /// How many globals there are.
    fn globals(self) -> u32
        ensures { result ≡ globals_in self }
    {
        match self {
            Format::V1 | Format::V2 { .. } => 16,
            Format::V3 { globals, .. } => globals,
        }
    }

    /// How many registers each mutator has.
    fn registers(self) -> u32
        ensures { result ≡ registers_in self }
    {
        match self {
            Format::V1 | Format::V2 { .. } => 8,
            Format::V3 { registers, .. } => registers,
        }
    }
}

/// The sizes of a heap, as a heap line gives them.
#[derive(Clone, Copy, Debug, PartialEq, Eq)]
pub struct Config {
    /// Which heap line gives them.
    pub format: Format,
    /// How many regions there are.
    pub regions: u32,
    /// How many words a region has.
    pub words: u32,
    /// How many words an allocation buffer gets.
    pub buffer: u32,
    /// How many mutators there are.
    pub mutators: u32,
    /// The name of the first object.
    pub first_name: u64,
}

/// Why a heap could not be made.
#[derive(Clone, Copy, Debug, PartialEq, Eq, Error)]
pub enum NewFault {
    /// There are 2 to 1,024 regions, or to 16,384 in the third format.
    #[error("1 BadRegions")]
    BadRegions,
    /// A region has a power of two of words, 16 or more, and the heap at most the words of its format.
    #[error("2 BadWords")]
    BadWords,
    /// A buffer has 4 words or more, and at most half a region.
    #[error("3 BadBuffer")]
    BadBuffer,
    /// There are 1 to 16 mutators, or to 64 in the third format.
    #[error("4 BadMutators")]
    BadMutators,
    /// Memory was refused.
    #[error("5 NoMemory")]
    NoMemory,
    /// A card has 8, 16, 32 or 64 words, in the third format also 128, 256 or 512, and at most a region.
    #[error("6 BadCard")]
    BadCard,
    /// There are at most 65,536 globals.
    #[error("7 BadGlobals")]
    BadGlobals,
    /// A mutator has 1 to 65,536 registers.
    #[error("8 BadRegisters")]
    BadRegisters,
    /// There are at most 1,048,576 roots, globals and registers together.
    #[error("9 BadRoots")]
    BadRoots,
}

impl Config {
    /// Whether a heap can have these sizes. The fault is the first that holds, in the order of its type, and never
    /// `NoMemory`.
    pub fn check(&self) -> Result<(), NewFault>
        ensures suits { IsOk result ↔ Suits self.now }
        ensures first { IfErr result (IsFirstFault self.now) }
    {
        self.check_words()?;
        self.check_roots()
    }

    /// The same of regions, words, buffers, mutators and cards.
    fn check_words(&self) -> Result<(), NewFault>
        ensures regions { IsOk result → HasRegions self.now }
        ensures words { IsOk result → HasWords self.now }
        ensures buffer { IsOk result → HasBuffer self.now }
        ensures mutators { IsOk result → HasMutators self.now }
        ensures card { IsOk result → HasCard self.now }
        ensures first { IfErr result (IsFirstFault self.now) }
        ensures not { IsErr result → Suits self.now → ⊥ }
    {
        if self.regions < 2 || self.format.count_limit() < self.regions {
            return Err(NewFault::BadRegions);
        }
        if !self.words.is_power_of_two()
            || self.words < 16
            || self.format.region_limit() < self.words
        {
            return Err(NewFault::BadWords);
        }
        if self.format.heap_limit() < u64::from(self.regions) * u64::from(self.words) {
            return Err(NewFault::BadWords);
        }
        if self.buffer < 4 || self.words / 2 < self.buffer {
            return Err(NewFault::BadBuffer);
        }
        if self.mutators < 1 || self.format.mutator_limit() < self.mutators {
            return Err(NewFault::BadMutators);
        }
        let card = self.card_words();
        if !card.is_power_of_two()
            || card < 8
            || self.format.card_limit() < card
            || self.words < card
        {
            return Err(NewFault::BadCard);
        }
        Ok(())
    }

    /// The same of roots, where the other sizes suit.
    fn check_roots(&self) -> Result<(), NewFault>
        requires regions { HasRegions self.now }
        requires words { HasWords self.now }
        requires buffer { HasBuffer self.now }
        requires mutators { HasMutators self.now }
        requires card { HasCard self.now }
        ensures suits { IsOk result ↔ Suits self.now }
        ensures first { IfErr result (IsFirstFault self.now) }
    {
        let globals = self.globals();
        if MAX_GLOBALS < globals {
            return Err(NewFault::BadGlobals);
        }
        let registers = self.registers();
        if registers < 1 || MAX_REGISTERS < registers {
            return Err(NewFault::BadRegisters);
        }
        let all = u64::from(globals) + u64::from(registers) * u64::from(self.mutators);
        if MAX_ROOTS < all {
            return Err(NewFault::BadRoots);
        }
        Ok(())
    }

    /// How many words a card has: a region is a whole number of cards.
    pub fn card_words(&self) -> u32
        ensures { result ≡ card_words self.now }
    {
        self.format.card_length()
    }

    /// The most words that an object has: those of the heap, and no more than a header can say.
    pub fn object_limit(&self) -> u64
        ensures { result ≡ object_limit self.now }
    {
        let words = u64::from(self.regions) * u64::from(self.words);
        words.min(MAX_OBJECT_WORDS)
    }

    /// How many globals there are.
    pub fn globals(&self) -> u32
        ensures { result ≡ globals_of self.now }
    {
        self.format.globals()
    }

    /// How many registers each mutator has.
    pub fn registers(&self) -> u32
        ensures { result ≡ registers_of self.now }
    {
        self.format.registers()
    }
}

/// What is known of sizes that suit: the limits of all formats, that a card's length is a power of two, and that a region
/// is a whole number of cards.
pub fn config_law()
    ensures region { (c : Config) → Suits c → c.words ≤ max_region_words }
    ensures heap { (c : Config) → Suits c → c.regions * c.words ≤ max_words }
    ensures mutators { (c : Config) → Suits c → c.mutators ≤ max_mutators }
    ensures power { (c : Config) → Suits c → IsTrue (is_power_of_two (card_words c)) }
    ensures cards { (c : Config) → Suits c → c.words ≡ c.words / card_words c * card_words c }
{}
