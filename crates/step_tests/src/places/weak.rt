//! The steps on weak slots, and a cycle of marking, over a heap as it is seen. It knows no logs: what is marked in the end is
//! what the pointers reached when marking began, from the roots or from what was read from a weak slot since.

use super::sight::{Seen, Sight, Space};
use heap_steps::{Action, Refusal, Register, Reply};
use std::alloc::{AllocError, Global};

/// Where a mutator's register is among the roots.
pub(crate) fn place_of(mutator: u32, register: Register) -> usize {
    16 + 8 * mutator as usize + register.number as usize
}

impl Sight {
    /// What a mutator's register holds.
    fn register(&self, mutator: u32, register: Register) -> Option<u32> {
        self.root(place_of(mutator, register))
    }

    fn set_register(&mut self, mutator: u32, register: Register, word: Option<u32>) {
        let place = place_of(mutator, register);
        if place < self.roots.len() {
            self.roots[place] = word;
        }
    }

    /// The name of the object that a word names.
    fn name_of(&self, word: Option<u32>) -> Option<u64> {
        match self.object(word) {
            Some(object) => Some(object.name),
            None => None,
        }
    }

    /// A field of the object at an address takes what it is to name.
    fn set_field(&mut self, at: u32, number: u32, word: Option<u32>) {
        for object in &mut self.objects {
            if object.at == at {
                object.set_field(number, word);
            }
        }
    }

    /// Whether an address is below its region's next top at mark start.
    fn is_old(&self, at: u32) -> bool {
        let region = super::plain::part_of(self.words, at);
        self.spaces
            .iter()
            .any(|space| space.number == region && at < space.next)
    }

    fn get_weak(&mut self, mutator: u32, to: Register, object: Register, slot: u32) -> Reply {
        let Some(seen) = self.object(self.register(mutator, object)) else {
            return Reply::Refused(Refusal::Nil);
        };
        if slot >= seen.weaks {
            return Reply::Refused(Refusal::NoField);
        }
        let word = seen.field(seen.pointers.saturating_add(slot));
        self.set_register(mutator, to, word);
        Reply::Named(self.name_of(word))
    }

    fn put_weak(
        &mut self,
        mutator: u32,
        object: Register,
        slot: u32,
        value: Option<Register>,
    ) -> Reply {
        let Some(seen) = self.object(self.register(mutator, object)) else {
            return Reply::Refused(Refusal::Nil);
        };
        if slot >= seen.weaks {
            return Reply::Refused(Refusal::NoField);
        }
        let word = match value {
            Some(register) => self.register(mutator, register),
            None => None,
        };
        self.set_field(seen.at, seen.pointers.saturating_add(slot), word);
        Reply::Done
    }

    fn weaks(&self, mutator: u32, object: Register) -> Reply {
        match self.object(self.register(mutator, object)) {
            Some(seen) => Reply::Word(u64::from(seen.weaks)),
            None => Reply::Refused(Refusal::Nil),
        }
    }

    /// A step on a weak slot, and its reply. None for another step.
    pub(crate) fn weak_step(&mut self, mutator: u32, action: Action) -> Option<Reply> {
        match action {
            Action::GetWeak { to, object, slot } => Some(self.get_weak(mutator, to, object, slot)),
            Action::PutWeak {
                object,
                slot,
                value,
            } => Some(self.put_weak(mutator, object, slot, value)),
            Action::Weaks { object } => Some(self.weaks(mutator, object)),
            _ => None,
        }
    }
}

/// The heap as it was when marking began, and where the objects are that were read from weak slots since.
#[derive(Drop)]
pub(crate) struct PlainCycle {
    pub(crate) began: Sight,
    pub(crate) touched: Vec<u32>,
}

impl PlainCycle {
    /// Adds the object that a word names, if it was there when marking began and isn't among these yet.
    fn reach(&self, found: &mut Vec<u32>, word: Option<u32>) -> Result<(), AllocError> {
        let Some(object) = self.began.object(word) else {
            return Ok(());
        };
        if !is_among(found, object.at) {
            found.push(object.at)?;
        }
        Ok(())
    }

    /// Adds what an object's pointers lead to, which doesn't count its weak slots.
    fn reach_pointers(&self, found: &mut Vec<u32>, object: &Seen) -> Result<(), AllocError> {
        for number in 0..object.pointers {
            self.reach(found, object.field(number))?;
        }
        Ok(())
    }

    /// What a weak slot replied with is touched.
    pub(crate) fn touch(&mut self, word: Option<u32>, reply: Reply) -> Result<(), AllocError> {
        if let (Some(at), Reply::Named(_)) = (word, reply) {
            self.touched.push(at)?;
        }
        Ok(())
    }

    /// Where the objects are that the roots and these others reached when marking began.
    pub(crate) fn reached(&self, alloc: Global, touched: &[u32]) -> Result<Vec<u32>, AllocError> {
        let mut found = Vec::new(alloc);
        for root in &self.began.roots {
            self.reach(&mut found, *root)?;
        }
        for at in touched {
            self.reach(&mut found, Some(*at))?;
        }
        for turn in 0..self.began.objects.len() {
            let Some(at) = found.get(turn) else {
                break;
            };
            let at = *at;
            if let Some(object) = self.began.object(Some(at)) {
                self.reach_pointers(&mut found, &object)?;
            }
        }
        Ok(found)
    }
}

/// Whether an address is one of these.
fn is_among(found: &[u32], at: u32) -> bool {
    found.iter().any(|other| *other == at)
}

/// An object when marking is over, where these are marked. It is kept if it is new or marked; its weak slots are cleared then
/// that lead to what is neither.
fn object_marked(heap: &Sight, marked: &[u32], object: &Seen) -> Seen {
    let mut after = *object;
    after.kept = !heap.is_old(object.at) || is_among(marked, object.at);
    if !after.kept {
        return after;
    }
    for slot in 0..object.weaks {
        let number = object.pointers.saturating_add(slot);
        if let Some(at) = object.field(number) {
            if heap.is_old(at) && !is_among(marked, at) {
                after.set_field(number, None);
            }
        }
    }
    after
}

/// The heap when marking is over, where these are marked.
pub(crate) fn heap_marked(
    alloc: Global,
    heap: &Sight,
    marked: &[u32],
) -> Result<Sight, AllocError> {
    let mut spaces = Vec::new(alloc);
    for space in &heap.spaces {
        let exchanged = Space {
            previous: space.next,
            next: space.previous,
            ..*space
        };
        spaces.push(exchanged)?;
    }
    let mut objects = Vec::new(alloc);
    for object in &heap.objects {
        objects.push(object_marked(heap, marked, object))?;
    }
    let mut roots = Vec::new(alloc);
    for root in &heap.roots {
        roots.push(*root)?;
    }
    Ok(Sight {
        words: heap.words,
        card_words: heap.card_words,
        spaces,
        objects,
        roots,
    })
}

/// How many objects have other fields afterwards.
pub(crate) fn changed(before: &Sight, after: &Sight) -> u64 {
    let mut count = 0u64;
    for (old, new) in before.objects.iter().zip(&after.objects) {
        if old.fields != new.fields {
            count = count.saturating_add(1);
        }
    }
    count
}
