//! A pause over a heap as it is seen: a list of candidates that is sorted, and a list of copies that grows while it is gone
//! through. It knows no remembered sets.

use super::sight::{FIELDS, Seen, Sight, Space};
use regions::Kind;
use std::alloc::{AllocError, Global};
use std::test::Fail;

/// The number of an address's region or card, where one has so many words.
pub(crate) fn part_of(words: u32, at: u32) -> u32 {
    if words == 0 { 0 } else { at / words }
}

/// A region that may be chosen.
#[derive(Clone, Copy)]
struct Candidate {
    live: u32,
    region: u32,
}

/// The words of a region's kept objects below its previous top at mark start, and all words above it.
fn live_words(heap: &Sight, space: &Space) -> u32 {
    let mut live = space.top.saturating_sub(space.previous);
    for object in &heap.objects {
        let below = part_of(heap.words, object.at) == space.number && object.at < space.previous;
        if object.kept && below {
            live = live.saturating_add(object.size);
        }
    }
    live
}

/// The candidates, those with the least live words first.
fn candidates(alloc: Global, heap: &Sight, marking: bool) -> Result<Vec<Candidate>, AllocError> {
    let mut found = Vec::new(alloc);
    for space in &heap.spaces {
        let live = live_words(heap, space);
        let region = space.number;
        let new = space.next == region.saturating_mul(heap.words);
        if space.kind == Kind::Ordinary && live < heap.words && (new || !marking) {
            found.push(Candidate { live, region })?;
        }
    }
    found.sort_unstable_by_key(|row| (row.live, row.region));
    Ok(found)
}

/// The most words that a pause of this budget copies.
fn limit_of(heap: &Sight, budget: u32) -> u64 {
    let mut free = 0u64;
    for space in &heap.spaces {
        if space.kind == Kind::Free {
            free = free.saturating_add(u64::from(heap.words));
        }
    }
    u64::from(budget).min(free / 2)
}

/// The regions that a pause of this budget reclaims.
fn choice(alloc: Global, heap: &Sight, marking: bool, budget: u32) -> Result<Vec<u32>, AllocError> {
    let limit = limit_of(heap, budget);
    let mut sum = 0u64;
    let mut chosen = Vec::new(alloc);
    for row in &candidates(alloc, heap, marking)? {
        sum = sum.saturating_add(u64::from(row.live));
        if sum > limit {
            break;
        }
        chosen.push(row.region)?;
    }
    Ok(chosen)
}

/// An object as it was, and where its copy is.
#[derive(Clone, Copy)]
pub(crate) struct Copied {
    pub(crate) object: Seen,
    pub(crate) to: u32,
}

/// A pause as a list of copies, in their order.
#[derive(Drop)]
pub(crate) struct PlainPause {
    /// The words of a region.
    words: u32,
    /// The words of a card.
    card_words: u32,
    /// The regions that are evacuated.
    pub(crate) chosen: Vec<u32>,
    pub(crate) copies: Vec<Copied>,
    /// Where the next copy goes, if it ends at `end` or before.
    place: u32,
    end: u32,
    /// The next free region that is opened has this number or a higher one.
    region: u32,
    /// How many copies there were when the roots were done, and when the fields outside were.
    pub(crate) by_roots: usize,
    pub(crate) by_fields: usize,
}

impl PlainPause {
    /// Whether an address is in a region that is evacuated.
    fn leaves(&self, at: u32) -> bool {
        let region = part_of(self.words, at);
        self.chosen.iter().any(|chosen| *chosen == region)
    }

    /// What a word names afterwards.
    fn after(&self, word: Option<u32>) -> Option<u32> {
        let at = word?;
        for copied in &self.copies {
            if copied.object.at == at {
                return Some(copied.to);
            }
        }
        word
    }

    /// What an object's fields name afterwards.
    fn fields_after(&self, fields: &[Option<u32>; FIELDS]) -> [Option<u32>; FIELDS] {
        let mut after = *fields;
        for word in &mut after {
            *word = self.after(*word);
        }
        after
    }

    /// A place for so many words. What doesn't fit into the open region closes it, and the next free one is opened.
    fn place_for(&mut self, heap: &Sight, size: u32) -> Option<u32> {
        if self.end.saturating_sub(self.place) < size {
            let from = self.region;
            let mut free = heap.spaces.iter();
            let space = free.find(|space| space.number >= from && space.kind == Kind::Free)?;
            self.region = space.number.saturating_add(1);
            self.place = space.number.saturating_mul(self.words);
            self.end = self.place.saturating_add(self.words);
        }
        let place = self.place;
        self.place = place.saturating_add(size);
        Some(place)
    }

    /// The object that a word names is copied, if its region is evacuated and it wasn't copied before.
    fn reach(&mut self, heap: &Sight, word: Option<u32>) -> Result<(), Fail> {
        let Some(at) = word else {
            return Ok(());
        };
        if !self.leaves(at) || self.after(word) != word {
            return Ok(());
        }
        let Some(object) = heap.objects.iter().find(|object| object.at == at) else {
            return Err(Fail::from("an object where a pointer leads"));
        };
        let Some(to) = self.place_for(heap, object.size) else {
            return Err(Fail::from("a free region for a copy"));
        };
        let object = *object;
        self.copies.push(Copied { object, to })?;
        Ok(())
    }

    /// What an object's fields name is copied.
    fn reach_fields(&mut self, heap: &Sight, object: &Seen) -> Result<(), Fail> {
        for word in &object.fields {
            self.reach(heap, *word)?;
        }
        Ok(())
    }

    /// All copies: what the roots name, what the fields outside name, and then what the copies name in turn.
    fn reach_all(&mut self, heap: &Sight) -> Result<(), Fail> {
        for root in &heap.roots {
            self.reach(heap, *root)?;
        }
        self.by_roots = self.copies.len();
        for object in &heap.objects {
            if object.kept && !self.leaves(object.at) {
                self.reach_fields(heap, object)?;
            }
        }
        self.by_fields = self.copies.len();
        for turn in 0..heap.objects.len() {
            let Some(copied) = self.copies.get(turn) else {
                break;
            };
            let object = copied.object;
            self.reach_fields(heap, &object)?;
        }
        Ok(())
    }

    /// How many words are copied.
    pub(crate) fn copied_words(&self) -> u32 {
        let mut sum = 0u32;
        for copied in &self.copies {
            sum = sum.saturating_add(copied.object.size);
        }
        sum
    }

    /// Whether the copies are in more than one region.
    pub(crate) fn is_wide(&self) -> bool {
        let mut regions = self
            .copies
            .iter()
            .map(|copied| part_of(self.words, copied.to));
        match regions.next() {
            Some(first) => regions.any(|region| region != first),
            None => false,
        }
    }

    /// Whether a field of an object changes that is in a later region of a run.
    fn updates_behind(&self, object: &Seen) -> bool {
        let mut word = object.at.saturating_add(1);
        for field in &object.fields {
            word = word.saturating_add(1);
            let behind = part_of(self.words, word) != part_of(self.words, object.at);
            if behind && object.kept && self.after(*field) != *field {
                return true;
            }
        }
        false
    }

    /// Whether a field in a later region of a run changes.
    pub(crate) fn updates_later_region(&self, heap: &Sight) -> bool {
        heap.objects
            .iter()
            .any(|object| self.updates_behind(object))
    }

    /// What a region is afterwards.
    fn space_after(&self, space: &Space) -> Space {
        let bottom = space.number.saturating_mul(self.words);
        let mut after = *space;
        if self.leaves(bottom) {
            after.kind = Kind::Free;
            after.top = bottom;
            after.previous = bottom;
            after.next = bottom;
        }
        for copied in &self.copies {
            if part_of(self.words, copied.to) == space.number {
                after.kind = Kind::Ordinary;
                after.top = copied.to.saturating_add(copied.object.size);
            }
        }
        after
    }

    /// The objects afterwards, by rising address. What isn't kept stays as it is outside the regions that are evacuated.
    fn objects_after(&self, alloc: Global, heap: &Sight) -> Result<Vec<Seen>, AllocError> {
        let mut objects = Vec::new(alloc);
        for object in &heap.objects {
            let mut after = *object;
            if object.kept {
                after.fields = self.fields_after(&object.fields);
            }
            if !self.leaves(object.at) {
                objects.push(after)?;
            }
        }
        for copied in &self.copies {
            let mut after = copied.object;
            after.at = copied.to;
            after.kept = true;
            after.fields = self.fields_after(&copied.object.fields);
            objects.push(after)?;
        }
        objects.sort_unstable_by_key(|object| object.at);
        Ok(objects)
    }

    /// The heap afterwards.
    pub(crate) fn sight_after(&self, alloc: Global, heap: &Sight) -> Result<Sight, AllocError> {
        let mut spaces = Vec::new(alloc);
        for space in &heap.spaces {
            spaces.push(self.space_after(space))?;
        }
        let mut roots = Vec::new(alloc);
        for root in &heap.roots {
            roots.push(self.after(*root))?;
        }
        Ok(Sight {
            words: heap.words,
            card_words: heap.card_words,
            spaces,
            objects: self.objects_after(alloc, heap)?,
            roots,
        })
    }

    /// Adds the cards of an object's fields that lead into other regions afterwards, where it is at `to` then. If it
    /// wasn't copied, only fields that named a copied object count.
    fn add_cards(&self, cards: &mut Vec<u32>, object: &Seen, to: u32) -> Result<(), AllocError> {
        let mut word = to.saturating_add(1);
        for field in &object.fields {
            word = word.saturating_add(1);
            let after = self.after(*field);
            let Some(target) = after else {
                continue;
            };
            let updated = to != object.at || after != *field;
            if updated && part_of(self.words, target) != part_of(self.words, word) {
                cards.push(part_of(self.card_words, word))?;
            }
        }
        Ok(())
    }

    /// The cards that wait afterwards, by rising number.
    pub(crate) fn cards(&self, alloc: Global, heap: &Sight) -> Result<Vec<u32>, AllocError> {
        let mut cards = Vec::new(alloc);
        for object in &heap.objects {
            if object.kept && !self.leaves(object.at) {
                self.add_cards(&mut cards, object, object.at)?;
            }
        }
        for copied in &self.copies {
            self.add_cards(&mut cards, &copied.object, copied.to)?;
        }
        cards.sort_unstable();
        cards.dedup();
        Ok(cards)
    }
}

/// The pause of this budget, all its copies made.
pub(crate) fn plain_pause(
    alloc: Global,
    heap: &Sight,
    marking: bool,
    budget: u32,
) -> Result<PlainPause, Fail> {
    let mut pause = PlainPause {
        words: heap.words,
        card_words: heap.card_words,
        chosen: choice(alloc, heap, marking, budget)?,
        copies: Vec::new(alloc),
        place: 0,
        end: 0,
        region: 0,
        by_roots: 0,
        by_fields: 0,
    };
    pause.reach_all(heap)?;
    Ok(pause)
}
