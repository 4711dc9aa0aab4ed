//! The steps of mutators and of the collector, their replies, and events.

ghost use Rattle.std.specs.Prelude.{◌≡◌};
ghost use Rattle.heap_words.specs.Sizes.{size_of};

use heap_words::header::object_size;

/// One of a mutator's registers, from `r0` on. A register holds nil or an object's name.
#[derive(Clone, Copy, Debug, PartialEq, Eq)]
pub struct Register {
    /// 0 or more, and in a step of a heap below `Config::registers`.
    pub number: u32,
}

/// One of the globals, from `g0` on. A global holds nil or an object's name.
#[derive(Clone, Copy, Debug, PartialEq, Eq)]
pub struct GlobalRoot {
    /// 0 or more, and in a step of a heap below `Config::globals`.
    pub number: u32,
}

/// How many pointers and data words a new object is to have, which may be more than any header has room for.
#[derive(Clone, Copy, Debug, PartialEq, Eq)]
pub struct Counts {
    pub pointers: u32,
    pub values: u32,
}

impl Counts {
    /// How many words such an object with so many weak slots has, with its header and its name.
    ///
    /// ```rust
    /// assert_eq!(rt; Counts { pointers: 1, values: 1 }.size(0), 4);
    /// ```
    pub fn size(&self, weaks: u8) -> u64
        ensures { result ≡ size_of self.now.pointers weaks self.now.values }
    {
        object_size(self.pointers, weaks, self.values)
    }
}

/// What a mutator does. Where an object is needed, the register may be nil, and the step is refused; fields
/// count from 0, pointers, weak slots and data words apart.
#[derive(Clone, Copy, Debug, PartialEq, Eq)]
pub enum Action {
    /// An object of so many pointers and data words is made, the ones nil, the others 0, and `to` holds its name.
    New {
        to: Register,
        counts: Counts,
    },
    /// `to` takes the pointer in a field of the object.
    Get {
        to: Register,
        object: Register,
        field: u32,
    },
    /// A pointer field of the object takes what a register holds, or nil where there is none.
    Put {
        object: Register,
        field: u32,
        value: Option<Register>,
    },
    /// Tells a data word of the object.
    Read {
        object: Register,
        field: u32,
    },
    /// A data word of the object takes a value.
    Write {
        object: Register,
        field: u32,
        value: u64,
    },
    /// `to` takes what `from` holds.
    Move {
        to: Register,
        from: Register,
    },
    /// The register becomes nil.
    Drop {
        register: Register,
    },
    /// `to` takes what the global holds.
    Load {
        to: Register,
        from: GlobalRoot,
    },
    /// The global takes what `from` holds.
    Save {
        to: GlobalRoot,
        from: Register,
    },
    /// Tells how many pointers and data words the object has.
    Shape {
        object: Register,
    },
    /// An object that has so many weak slots too is made, all nil.
    NewWeak {
        to: Register,
        counts: Counts,
        weaks: u8,
    },
    /// `to` takes what a weak slot of the object holds.
    GetWeak {
        to: Register,
        object: Register,
        slot: u32,
    },
    /// A weak slot of the object takes what a register holds, or nil where there is none.
    PutWeak {
        object: Register,
        slot: u32,
        value: Option<Register>,
    },
    /// Tells how many weak slots the object has.
    Weaks {
        object: Register,
    },
    /// Each of the mutator's registers from `from` on becomes nil: a frame is left.
    Scope {
        from: Register,
    },
}

/// A step of a mutator.
#[derive(Clone, Copy, Debug, PartialEq, Eq)]
pub struct Op {
    /// The mutator's number, from 0.
    pub mutator: u32,
    /// What it does.
    pub action: Action,
}

/// What a pause may cost at most.
#[derive(Clone, Copy, Debug, PartialEq, Eq)]
pub struct Limits {
    /// The words that it copies.
    pub words: u32,
    /// The cards that may lead into its regions.
    pub cards: u32,
}

/// What the collector does.
#[derive(Clone, Copy, Debug, PartialEq, Eq)]
pub enum CollectorStep {
    /// Marking begins, with the present graph as its snapshot.
    Begin,
    /// At most so many units of marking.
    Mark(u32),
    /// Marking is brought to its end.
    Remark,
    /// Regions with nothing live are reclaimed.
    Cleanup,
    /// At most so many queued cards are refined.
    Refine(u32),
    /// Live objects are copied out of some regions, at most so many words, and these regions are reclaimed.
    Pause(u32),
    /// Live objects of the highest ordinary regions are copied down into the lowest free ones, at most so many words, and these regions
    /// are reclaimed, so that free regions are side by side. If there are none, an object of more than half a region, of at most so many
    /// words, moves down.
    Compact(u32),
    /// A pause that takes only as many of its regions as few cards lead into.
    PauseWithin(Limits),
    /// Live objects are copied out of the regions that objects were made in last, the oldest of these first, within limits, and these
    /// regions are reclaimed.
    Young(Limits),
    /// At most so many objects with weak slots are looked at, and those of their slots that the last marking found dead are cleared.
    Clear(u32),
}

/// A step of a mutator or of the collector.
#[derive(Clone, Copy, Debug, PartialEq, Eq)]
pub enum Step {
    /// One of a mutator's steps.
    Mutator(Op),
    /// One of the collector's.
    Collector(CollectorStep),
}

/// Why a step is refused.
#[derive(Clone, Copy, Debug, PartialEq, Eq)]
pub enum Refusal {
    /// The register that should name an object is nil.
    Nil,
    /// The object has no such field.
    NoField,
    /// There is no room for the new object now.
    Full,
    /// The new object is larger than the heap, or than an object may be.
    TooBig,
    /// No names are left.
    NamesSpent,
    /// Marking is running.
    MarkRunning,
    /// Marking is not running.
    NotMarking,
}

/// The reply to a step.
#[derive(Clone, Copy, Debug, PartialEq, Eq)]
pub enum Reply {
    /// The step was done, and there is nothing to tell.
    Done,
    /// An object's name, or nil.
    Named(Option<u64>),
    /// A data word, or how many weak slots an object has.
    Word(u64),
    /// How many pointers and data words an object has.
    Shape { pointers: u32, values: u32 },
    /// How many objects were marked in this cycle.
    Marked(u32),
    /// How many regions were reclaimed.
    Reclaimed(u32),
    /// How many cards were refined.
    Refined(u32),
    /// How many words a pause or a compaction copied, and out of how many regions.
    Moved { regions: u32, words: u32 },
    /// The step changed nothing.
    Refused(Refusal),
}

/// Who takes a step.
#[derive(Clone, Copy, Debug, PartialEq, Eq)]
pub enum Actor {
    /// The mutator of this number.
    Mutator(u32),
    /// The scripted collector, which takes any of the collector's steps.
    Collector,
    /// A background marker, 0 to 7, which only marks.
    Marker(u8),
    /// A background refiner, 0 to 7, which only refines.
    Refiner(u8),
}

/// A step that took effect, who took it, and the reply.
#[derive(Clone, Copy, Debug, PartialEq, Eq)]
pub struct Event {
    /// Who took the step.
    pub actor: Actor,
    /// What was done.
    pub step: Step,
    /// What came of it.
    pub reply: Reply,
}
