//! How steps are spelled: a verb each, and what may be after it; and which replies the collector's have. The table of verbs is here and in
//! `specs/Forms.antt`.

ghost use Rattle.std.specs.Prelude.{◌≡◌, ◌↔◌, ◌≤◌, ◌%◌, ◌^◌, IsTrue, List, true, false, length, get_or};
ghost use Rattle.heap_steps.specs.Forms as forms;
ghost use Rattle.heap_steps.specs.Forms.{action_verbs, action_row, action_by, collection_verbs, collection_row, collection_by};
ghost use Rattle.heap_steps.specs.Forms.{collection_verb, collection_numbers, collection_place, collection_replies, refusal_number};
ghost use Rattle.heap_steps.specs.Forms.{IsDone, IsAmong, low, numbered_value, numbers_in};

use crate::step::{Action, CollectorStep, Counts, GlobalRoot, Limits, Refusal, Register, Reply};

/// What a word after a verb is.
#[derive(Clone, Copy)]
pub enum Operand {
    /// A register.
    Register,
    /// A global.
    Global,
    /// Nil or a register.
    Value,
    /// A number of 32 bits.
    Small,
    /// A number of 8 bits.
    Byte,
    /// A number of 64 bits.
    Large,
}

/// The verb of a mutator's action.
#[derive(Clone, Copy)]
pub enum ActionVerb {
    New,
    NewWeak,
    Get,
    GetWeak,
    Put,
    PutWeak,
    Read,
    Write,
    Move,
    Drop,
    Load,
    Save,
    Scope,
    Shape,
    Weaks,
}

/// The verb of a step of the collector.
#[derive(Clone, Copy)]
pub enum CollectionVerb {
    Begin,
    Mark,
    Remark,
    Cleanup,
    Refine,
    Pause,
    Compact,
    PauseWithin,
    Young,
    Clear,
}

/// What a step of the collector replies where it is done.
#[derive(Clone, Copy, Debug, PartialEq, Eq)]
pub enum DoneReply {
    /// Nothing but that.
    Ok,
    /// How many objects it marked.
    Marked,
    /// How many regions it reclaimed.
    Reclaimed,
    /// How many cards it refined.
    Refined,
    /// How many regions it reclaimed, and how many words it copied.
    Moved,
}

/// The replies that a step of the collector may have.
#[derive(Clone, Copy)]
pub struct Replies {
    /// What it replies where it is done.
    pub done: DoneReply,
    /// What it may be refused for.
    pub refused: Option<Refusal>,
}

/// A verb's row of the table.
#[derive(Clone, Copy)]
pub struct Row {
    /// The verb as a word.
    pub word: &'static [u8],
    /// What the words after it are, at most four.
    pub operands: &'static [Operand],
    /// Whether the third format alone has it.
    pub third: bool,
}

/// A verb of the table: a mutator's or the collector's.
pub trait Verb: Copy + 'static {
    /// All of its kind, in the order in which hints list them.
    ghost verbs: { List Self };

    /// The row of each.
    ghost row_of: { Self → forms.Row };

    /// All of its kind, in the order in which hints list them.
    ///
    /// ```rust
    /// assert_eq!(rt; CollectionVerb::all().len(), 10);
    /// ```
    fn all() -> &'static [Self]
        ensures { result.now ≡ verbs };

    /// Its row of the table.
    ///
    /// ```rust
    /// assert_eq!(rt; CollectionVerb::Pause.row().word, b"pause".as_slice());
    /// ```
    fn row(self) -> Row
        ensures word { result.word.now ≡ (row_of self).word }
        ensures operands { result.operands.now ≡ (row_of self).operands }
        ensures third { result.third ≡ (row_of self).third }
        ensures few { length result.operands.now ≤ 4 }
        ensures short { length result.word.now ≤ 21 };
}

/// A row of every format.
#[inline(always)]
fn every(word: &'static [u8], operands: &'static [Operand]) -> Row
    ensures word { result.word.now ≡ word.now }
    ensures operands { result.operands.now ≡ operands.now }
    ensures third { result.third ≡ false }
{
    Row {
        word,
        operands,
        third: false,
    }
}

/// A row of the third format alone.
#[inline(always)]
fn third(word: &'static [u8], operands: &'static [Operand]) -> Row
    ensures word { result.word.now ≡ word.now }
    ensures operands { result.operands.now ≡ operands.now }
    ensures third { result.third ≡ true }
{
    Row {
        word,
        operands,
        third: true,
    }
}

/// The replies of this form.
fn replies_by(done: DoneReply, refused: Option<Refusal>) -> Replies
    ensures { result ≡ record { done = done; refused = refused } }
{
    Replies { done, refused }
}

impl Refusal {
    /// Its number, which replies tell.
    ///
    /// ```rust
    /// assert_eq!(rt; Refusal::Full.number(), 3);
    /// ```
    pub fn number(self) -> u32
        ensures number { result ≡ refusal_number self }
        ensures few { result ≤ 7 }
    {
        self as u32 + 1
    }
}

impl DoneReply {
    /// Whether a reply tells so what was done.
    fn is(self, reply: Reply) -> bool
        ensures { IsTrue result ↔ IsDone self reply }
    {
        match reply {
            Reply::Done => self == DoneReply::Ok,
            Reply::Marked(_) => self == DoneReply::Marked,
            Reply::Reclaimed(_) => self == DoneReply::Reclaimed,
            Reply::Refined(_) => self == DoneReply::Refined,
            Reply::Moved { .. } => self == DoneReply::Moved,
            _ => false,
        }
    }
}

impl Replies {
    /// Whether a reply is one of these.
    ///
    /// ```rust
    /// assert!(rt; CollectionVerb::Begin.replies().has(Reply::Refused(Refusal::MarkRunning)));
    /// assert!(rt; !CollectionVerb::Pause.replies().has(Reply::Done));
    /// ```
    pub fn has(self, reply: Reply) -> bool
        ensures { IsTrue result ↔ IsAmong self reply }
    {
        let Reply::Refused(why) = reply else {
            return self.done.is(reply);
        };
        self.refused == Some(why)
    }
}

/// A number of those that a verb has, in 32 bits.
fn small(numbers: &[u64; 4], index: usize) -> u32
    ensures { result ≡ get_or numbers.now index 0 % 2 ^ 32 }
{
    match numbers.get(index) {
        Some(number) => (*number % 0x1_0000_0000) as u32,
        None => 0,
    }
}

/// The register of this place among the numbers.
fn register(numbers: &[u64; 4], index: usize) -> Register
    ensures { result.number ≡ get_or numbers.now index 0 % 2 ^ 32 }
{
    Register {
        number: small(numbers, index),
    }
}

/// The global of this place among the numbers.
fn global(numbers: &[u64; 4], index: usize) -> GlobalRoot
    ensures { result.number ≡ get_or numbers.now index 0 % 2 ^ 32 }
{
    GlobalRoot {
        number: small(numbers, index),
    }
}

/// The limits that the first two numbers are.
fn limits(numbers: &[u64; 4]) -> Limits
    ensures words { result.words ≡ get_or numbers.now 0 0 % 2 ^ 32 }
    ensures cards { result.cards ≡ get_or numbers.now 1 0 % 2 ^ 32 }
{
    Limits {
        words: small(numbers, 0),
        cards: small(numbers, 1),
    }
}

/// The value of a number: 0 is nil, and registers count from 1.
fn value(number: u64) -> Option<Register>
    ensures { result ≡ numbered_value (low Operand.Value number) }
{
    if number == 0 {
        return None;
    }
    Some(Register {
        number: ((number - 1) % 0x1_0000_0000) as u32,
    })
}

impl Verb for ActionVerb {
    ghost verbs = { action_verbs };

    ghost row_of = { action_row };

    fn all() -> &'static [ActionVerb] {
        &[
            ActionVerb::New,
            ActionVerb::NewWeak,
            ActionVerb::Get,
            ActionVerb::GetWeak,
            ActionVerb::Put,
            ActionVerb::PutWeak,
            ActionVerb::Read,
            ActionVerb::Write,
            ActionVerb::Move,
            ActionVerb::Drop,
            ActionVerb::Load,
            ActionVerb::Save,
            ActionVerb::Scope,
            ActionVerb::Shape,
            ActionVerb::Weaks,
        ]
    }

    fn row(self) -> Row {
        match self {
            ActionVerb::New => every(b"new", &[Operand::Register, Operand::Small, Operand::Small]),
            ActionVerb::NewWeak => every(
                b"newweak",
                &[
                    Operand::Register,
                    Operand::Small,
                    Operand::Byte,
                    Operand::Small,
                ],
            ),
            ActionVerb::Get => every(
                b"get",
                &[Operand::Register, Operand::Register, Operand::Small],
            ),
            ActionVerb::GetWeak => every(
                b"getweak",
                &[Operand::Register, Operand::Register, Operand::Small],
            ),
            ActionVerb::Put => every(b"put", &[Operand::Register, Operand::Small, Operand::Value]),
            ActionVerb::PutWeak => every(
                b"putweak",
                &[Operand::Register, Operand::Small, Operand::Value],
            ),
            ActionVerb::Read => every(b"read", &[Operand::Register, Operand::Small]),
            ActionVerb::Write => every(
                b"write",
                &[Operand::Register, Operand::Small, Operand::Large],
            ),
            ActionVerb::Move => every(b"move", &[Operand::Register, Operand::Register]),
            ActionVerb::Drop => every(b"drop", &[Operand::Register]),
            ActionVerb::Load => every(b"load", &[Operand::Register, Operand::Global]),
            ActionVerb::Save => every(b"save", &[Operand::Global, Operand::Register]),
            ActionVerb::Scope => third(b"scope", &[Operand::Register]),
            ActionVerb::Shape => every(b"shape", &[Operand::Register]),
            ActionVerb::Weaks => every(b"weaks", &[Operand::Register]),
        }
    }
}

impl ActionVerb {
    /// The action of the verb and these numbers, of which more than it has don't count.
    ///
    /// ```rust
    /// assert_eq!(rt; ActionVerb::Drop.action(&[7, 0, 0, 0]), Action::Drop { register: Register { number: 7 } });
    /// ```
    pub fn action(self, numbers: &[u64; 4]) -> Action
        ensures { result ≡ action_by self (numbers_in (action_row self).operands numbers.now) }
    {
        let first = register(numbers, 0);
        let second = register(numbers, 1);
        match self {
            ActionVerb::New => Action::New {
                to: first,
                counts: Counts {
                    pointers: small(numbers, 1),
                    values: small(numbers, 2),
                },
            },
            ActionVerb::NewWeak => Action::NewWeak {
                to: first,
                counts: Counts {
                    pointers: small(numbers, 1),
                    values: small(numbers, 3),
                },
                weaks: (numbers[2] % 0x100) as u8,
            },
            ActionVerb::Get => Action::Get {
                to: first,
                object: second,
                field: small(numbers, 2),
            },
            ActionVerb::GetWeak => Action::GetWeak {
                to: first,
                object: second,
                slot: small(numbers, 2),
            },
            ActionVerb::Put => Action::Put {
                object: first,
                field: small(numbers, 1),
                value: value(numbers[2]),
            },
            ActionVerb::PutWeak => Action::PutWeak {
                object: first,
                slot: small(numbers, 1),
                value: value(numbers[2]),
            },
            ActionVerb::Read => Action::Read {
                object: first,
                field: small(numbers, 1),
            },
            ActionVerb::Write => Action::Write {
                object: first,
                field: small(numbers, 1),
                value: numbers[2],
            },
            ActionVerb::Move => Action::Move {
                to: first,
                from: second,
            },
            ActionVerb::Drop => Action::Drop { register: first },
            ActionVerb::Load => Action::Load {
                to: first,
                from: global(numbers, 1),
            },
            ActionVerb::Save => Action::Save {
                to: global(numbers, 0),
                from: second,
            },
            ActionVerb::Scope => Action::Scope { from: first },
            ActionVerb::Shape => Action::Shape { object: first },
            ActionVerb::Weaks => Action::Weaks { object: first },
        }
    }
}

impl Verb for CollectionVerb {
    ghost verbs = { collection_verbs };

    ghost row_of = { collection_row };

    fn all() -> &'static [CollectionVerb] {
        &[
            CollectionVerb::Begin,
            CollectionVerb::Mark,
            CollectionVerb::Remark,
            CollectionVerb::Cleanup,
            CollectionVerb::Refine,
            CollectionVerb::Pause,
            CollectionVerb::Compact,
            CollectionVerb::PauseWithin,
            CollectionVerb::Young,
            CollectionVerb::Clear,
        ]
    }

    fn row(self) -> Row {
        match self {
            CollectionVerb::Begin => every(b"begin", &[]),
            CollectionVerb::Mark => every(b"mark", &[Operand::Small]),
            CollectionVerb::Remark => every(b"remark", &[]),
            CollectionVerb::Cleanup => every(b"cleanup", &[]),
            CollectionVerb::Refine => every(b"refine", &[Operand::Small]),
            CollectionVerb::Pause => every(b"pause", &[Operand::Small]),
            CollectionVerb::Compact => third(b"compact", &[Operand::Small]),
            CollectionVerb::PauseWithin => {
                third(b"pausewithin", &[Operand::Small, Operand::Small])
            }
            CollectionVerb::Young => third(b"young", &[Operand::Small, Operand::Small]),
            CollectionVerb::Clear => third(b"clear", &[Operand::Small]),
        }
    }
}

impl CollectionVerb {
    /// Its place among those of the collector, from 0.
    ///
    /// ```rust
    /// assert_eq!(rt; CollectionVerb::Mark.place(), 1);
    /// ```
    pub fn place(self) -> u32
        ensures { result ≡ collection_place self }
    {
        self as u32
    }

    /// The replies that its steps may have.
    ///
    /// ```rust
    /// assert_eq!(rt; CollectionVerb::Pause.replies().done, DoneReply::Moved);
    /// ```
    pub fn replies(self) -> Replies
        ensures { result ≡ collection_replies self }
    {
        match self {
            CollectionVerb::Begin => replies_by(DoneReply::Ok, Some(Refusal::MarkRunning)),
            CollectionVerb::Mark => replies_by(DoneReply::Ok, Some(Refusal::NotMarking)),
            CollectionVerb::Remark => replies_by(DoneReply::Marked, Some(Refusal::NotMarking)),
            CollectionVerb::Cleanup => replies_by(DoneReply::Reclaimed, Some(Refusal::MarkRunning)),
            CollectionVerb::Refine => replies_by(DoneReply::Refined, None),
            CollectionVerb::Pause => replies_by(DoneReply::Moved, None),
            CollectionVerb::Compact => replies_by(DoneReply::Moved, None),
            CollectionVerb::PauseWithin => replies_by(DoneReply::Moved, None),
            CollectionVerb::Young => replies_by(DoneReply::Moved, None),
            CollectionVerb::Clear => replies_by(DoneReply::Ok, None),
        }
    }

    /// The step of the verb and these numbers, of which more than it has don't count.
    ///
    /// ```rust
    /// assert_eq!(rt; CollectionVerb::Mark.step(&[7, 0, 0, 0]), CollectorStep::Mark(7));
    /// ```
    pub fn step(self, numbers: &[u64; 4]) -> CollectorStep
        ensures { result ≡ collection_by self (numbers_in (collection_row self).operands numbers.now) }
    {
        match self {
            CollectionVerb::Begin => CollectorStep::Begin,
            CollectionVerb::Mark => CollectorStep::Mark(small(numbers, 0)),
            CollectionVerb::Remark => CollectorStep::Remark,
            CollectionVerb::Cleanup => CollectorStep::Cleanup,
            CollectionVerb::Refine => CollectorStep::Refine(small(numbers, 0)),
            CollectionVerb::Pause => CollectorStep::Pause(small(numbers, 0)),
            CollectionVerb::Compact => CollectorStep::Compact(small(numbers, 0)),
            CollectionVerb::PauseWithin => CollectorStep::PauseWithin(limits(numbers)),
            CollectionVerb::Young => CollectorStep::Young(limits(numbers)),
            CollectionVerb::Clear => CollectorStep::Clear(small(numbers, 0)),
        }
    }
}

impl CollectorStep {
    /// Its verb.
    ///
    /// ```rust
    /// assert_eq!(rt; CollectorStep::Pause(8).verb().row().word, b"pause".as_slice());
    /// ```
    #[inline(always)]
    pub fn verb(self) -> CollectionVerb
        ensures { result ≡ collection_verb self }
    {
        match self {
            CollectorStep::Begin => CollectionVerb::Begin,
            CollectorStep::Mark(_) => CollectionVerb::Mark,
            CollectorStep::Remark => CollectionVerb::Remark,
            CollectorStep::Cleanup => CollectionVerb::Cleanup,
            CollectorStep::Refine(_) => CollectionVerb::Refine,
            CollectorStep::Pause(_) => CollectionVerb::Pause,
            CollectorStep::Compact(_) => CollectionVerb::Compact,
            CollectorStep::PauseWithin(_) => CollectionVerb::PauseWithin,
            CollectorStep::Young(_) => CollectionVerb::Young,
            CollectorStep::Clear(_) => CollectionVerb::Clear,
        }
    }

    /// Its numbers, two at most, and 0 for those that it hasn't.
    ///
    /// ```rust
    /// assert_eq!(rt; CollectorStep::Pause(8).numbers(), (8, 0));
    /// ```
    #[inline(always)]
    pub fn numbers(self) -> (u32, u32)
        ensures first { result.0 ≡ get_or (collection_numbers self) 0 0 }
        ensures second { result.1 ≡ get_or (collection_numbers self) 1 0 }
    {
        match self {
            CollectorStep::Mark(number)
            | CollectorStep::Refine(number)
            | CollectorStep::Pause(number)
            | CollectorStep::Compact(number)
            | CollectorStep::Clear(number) => (number, 0),
            CollectorStep::PauseWithin(limits) | CollectorStep::Young(limits) => {
                (limits.words, limits.cards)
            }
            _ => (0, 0),
        }
    }
}
