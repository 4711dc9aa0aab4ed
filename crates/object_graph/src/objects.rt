//! The objects of the graph, all in one list of words.
//!
//! ```text
//!   objects   0: [nil, 1] 7     1: [] 5 6    2: [0] weak [1, nil]
//!   entries   0, 2, 0, 1        3, 0, 0, 2   5, 1, 2, 0              where its words start; pointers, weak slots, data words
//!   words     0 2 7             5 6          1 2 0                   a pointer or weak slot is 0 for nil, else its name plus 1
//! ```

ghost use Rattle.std.specs.Prelude.{◌≡◌, ◌<◌, ◌^◌, ◌++◌, ◌∷◌, [], None, length, replicate, slice_get, slice_set, IfOk, OnOk, OnErr};
ghost use Rattle.object_graph.specs.Fields.{object_in};
ghost use Rattle.object_graph.specs.InWords.{start_of, weaks_of};
ghost use Rattle.graph_runs.specs.Sparing.{have_weaks};

use crate::pointer::Pointer;
use heap_steps::Counts;
use std::alloc::{AllocError, Global};
use std::marker::Model;

/// No object's words start at or after this place.
const LIMIT: u64 = 1 << 56;

/// Where an object's words start, and how many pointers, weak slots and data words they are.
#[derive(Clone, Copy)]
pub(crate) struct Entry {
    /// The place in the low 56 bits, above it the count of weak slots, so that an entry takes two words.
    packed: u64,
    pointers: u32,
    values: u32,
}

impl Entry {
    #[tactic(auto, unfolding(crate::specs::InWords::start_of, crate::specs::InWords::weaks_of))]
    fn new(start: u64, counts: Counts, weaks: u8) -> Entry
        requires { start < 2 ^ 56 }
        ensures start { start_of result ≡ start }
        ensures weaks { weaks_of result ≡ weaks }
        ensures pointers { result.pointers ≡ counts.pointers }
        ensures values { result.values ≡ counts.values }
    {
        Entry {
            packed: start + u64::from(weaks) * LIMIT,
            pointers: counts.pointers,
            values: counts.values,
        }
    }

    #[tactic(auto, unfolding(crate::specs::InWords::start_of))]
    fn start(&self) -> usize
        ensures { result ≡ start_of self.now }
    {
        (self.packed % LIMIT) as usize
    }

    #[tactic(auto, unfolding(crate::specs::InWords::weaks_of))]
    fn weaks(&self) -> u8
        ensures { result ≡ weaks_of self.now }
    {
        (self.packed / LIMIT) as u8
    }
}

/// Objects, each with its pointers, its weak slots and its data words. None is ever taken away.
pub(crate) struct Objects {
    words: Vec<u64>,
    entries: Vec<Entry>,
    has_weaks: bool,
}

impl Model for Objects {
    ghost use Rattle.std.specs.Prelude.{◌≡◌, List, length};
    ghost use Rattle.heap_model.specs.Graph as model;
    ghost use Rattle.object_graph.specs.InWords.{objects_in, AreInTurn, some_weaks};

    ghost Value = { List model.Object };

    ghost view = { λ o. objects_in o.words.items o.entries.items };

    ghost invariant = { λ o. AreInTurn o.entries.items 0 (length o.words.items) × (o.has_weaks ≡ some_weaks o.entries.items) };
}

/// Where it is dropped there is one call, and not a drop for each of its parts.
impl Drop for Objects {
    fn drop(self) {
        let Objects {
            words: _,
            entries: _,
            has_weaks: _,
        } = self;
    }
}

impl Objects {
    /// No objects.
    pub(crate) fn new(alloc: Global) -> Objects
        ensures { result ≡ [] }
    {
        Objects {
            words: Vec::new(alloc),
            entries: Vec::new(alloc),
            has_weaks: false,
        }
    }

    /// How many objects there are.
    pub(crate) fn len(&self) -> usize
        ensures { result ≡ length self.now }
    {
        self.entries.len()
    }

    /// Whether some object has a weak slot.
    pub(crate) fn has_weaks(&self) -> bool
        ensures { result ≡ have_weaks self.now }
    {
        self.has_weaks
    }

    /// How many pointers the object in the place has.
    pub(crate) fn pointer_count(&self, place: usize) -> u32
        requires { place < length self.now }
        ensures { result ≡ length (object_in self.now place).pointers }
    {
        self.entries[place].pointers
    }

    /// How many weak slots the object in the place has. It has no held slots.
    pub(crate) fn weak_count(&self, place: usize) -> u8
        requires { place < length self.now }
        ensures weaks { result ≡ length (object_in self.now place).weaks }
        ensures held { (object_in self.now place).held ≡ [] }
    {
        self.entries[place].weaks()
    }

    /// How many data words the object in the place has.
    pub(crate) fn value_count(&self, place: usize) -> u32
        requires { place < length self.now }
        ensures { result ≡ length (object_in self.now place).values }
    {
        self.entries[place].values
    }

    /// A pointer of the object in the place, if it has that field.
    pub(crate) fn get_pointer(&self, place: usize, field: u32) -> Option<Pointer>
        requires { place < length self.now }
        ensures { result ≡ slice_get (object_in self.now place).pointers field }
    {
        let entry = self.entries[place];
        if field < entry.pointers {
            let word = self.words[entry.start() + field as usize];
            Some(Pointer::of_word(word))
        } else {
            None
        }
    }

    /// What a weak slot of the object in the place holds, if it has that slot.
    pub(crate) fn get_weak(&self, place: usize, slot: u32) -> Option<Pointer>
        requires { place < length self.now }
        ensures { result ≡ slice_get (object_in self.now place).weaks slot }
    {
        let entry = self.entries[place];
        if slot < u32::from(entry.weaks()) {
            let word = self.words[entry.start() + entry.pointers as usize + slot as usize];
            Some(Pointer::of_word(word))
        } else {
            None
        }
    }

    /// A data word of the object in the place, if it has that field.
    pub(crate) fn get_value(&self, place: usize, field: u32) -> Option<u64>
        requires { place < length self.now }
        ensures { result ≡ slice_get (object_in self.now place).values field }
    {
        let entry = self.entries[place];
        if field < entry.values {
            let start = entry.start() + entry.pointers as usize + usize::from(entry.weaks());
            Some(self.words[start + field as usize])
        } else {
            None
        }
    }

    /// A pointer of the object in the place becomes another one.
    pub(crate) fn set_pointer(&mut self, place: usize, field: u32, value: Pointer)
        requires place { place < length self.old }
        requires field { field < length (object_in self.old place).pointers }
        ensures { self.new ≡ slice_set self.old place
            (record (object_in self.old place) { pointers = slice_set (object_in self.old place).pointers field value }) }
    {
        let entry = self.entries[place];
        self.words[entry.start() + field as usize] = value.word();
    }

    /// A weak slot of the object in the place takes another value.
    pub(crate) fn set_weak(&mut self, place: usize, slot: u32, value: Pointer)
        requires place { place < length self.old }
        requires slot { slot < length (object_in self.old place).weaks }
        ensures { self.new ≡ slice_set self.old place
            (record (object_in self.old place) { weaks = slice_set (object_in self.old place).weaks slot value }) }
    {
        let entry = self.entries[place];
        self.words[entry.start() + entry.pointers as usize + slot as usize] = value.word();
    }

    /// A data word of the object in the place becomes another one.
    pub(crate) fn set_value(&mut self, place: usize, field: u32, value: u64)
        requires place { place < length self.old }
        requires field { field < length (object_in self.old place).values }
        ensures { self.new ≡ slice_set self.old place
            (record (object_in self.old place) { values = slice_set (object_in self.old place).values field value }) }
    {
        let entry = self.entries[place];
        let start = entry.start() + entry.pointers as usize + usize::from(entry.weaks());
        self.words[start + field as usize] = value;
    }

    /// One more object, its pointers and weak slots nil and its data words 0. Refused for memory, nothing changes.
    pub(crate) fn push(&mut self, counts: Counts, weaks: u8) -> Result<(), AllocError>
        ensures ok { OnOk result (self.new
            ≡ self.old ++ record {
              pointers = replicate counts.pointers None;
              weaks = replicate weaks None;
              held = [];
              values = replicate counts.values 0;
            } ∷ []) }
        ensures err { OnErr result (self.new ≡ self.old) }
    {
        let start = self.words.len();
        if start as u64 >= LIMIT {
            return Err(AllocError);
        }
        let entry = Entry::new(start as u64, counts, weaks);
        let fields = counts.pointers as usize + usize::from(weaks);
        self.entries.reserve(1)?;
        self.words
            .resize(start + fields + counts.values as usize, 0)?;
        self.entries.push_reserved(entry);
        if weaks > 0 {
            self.has_weaks = true;
        }
        Ok(())
    }

    /// The same objects once more.
    pub(crate) fn copy(&self) -> Result<Objects, AllocError>
        ensures { IfOk result (λ objects. objects ≡ self.now) }
    {
        Ok(Objects {
            words: self.words.clone()?,
            entries: self.entries.clone()?,
            has_weaks: self.has_weaks,
        })
    }
}
