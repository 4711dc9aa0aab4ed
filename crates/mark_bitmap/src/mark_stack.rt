//! The mark stack: grey objects that have no finger.
//!
//! ```text
//!   hold 90     held 90   stack | . . . . |        the object that is held is scanned next
//!   hold 16     held 16   stack | 90 . . . |       it is the one that was found last
//!   16 scanned  held 90   stack | . . . . |        the last one of the stack
//! ```
//!
//! So marking goes down from an object before it comes to the next one. Which is scanned next hangs on no comparison of addresses, so a
//! processor can go ahead. An object that doesn't fit gets a finger. Where objects are scanned by rising address the stack has no room.

ghost use Rattle.std.specs.Prelude.{◌≡◌, [], false, true, None, IfSome};
ghost use Rattle.mark_bitmap.specs.Stack.{empty_stack, has_room, with_object};

use arrayvec::ArrayVec;
use heap_words::addr::Addr;
use std::marker::Model;

/// How many objects a stack has room for.
const ROOM: usize = 64;

/// Objects in the order in which they were put on it. Clauses see the list of them, and how many there is room for.
#[derive(Drop)]
pub struct MarkStack {
    objects: ArrayVec<u32, ROOM>,
    room: usize,
}

impl Model for MarkStack {
    ghost use Rattle.std.specs.Prelude.{◌≤◌, length};
    ghost use Rattle.mark_bitmap.specs.Stack.{Stack};

    ghost Value = { Stack };

    ghost view = { λ s. record { objects = s.objects.items; room = s.room } };

    ghost invariant = { λ s. (length s.objects.items ≤ s.room) × (s.room ≤ 64) };
}

impl MarkStack {
    /// An empty stack, which has no room where objects are scanned by rising address.
    #[tactic(auto, unfolding(crate::specs::Stack::empty_stack))]
    pub fn new(by_address: bool) -> MarkStack
        ensures { result ≡ empty_stack by_address }
    {
        MarkStack {
            objects: ArrayVec::new(),
            room: if by_address { 0 } else { ROOM },
        }
    }

    /// An object is put on the stack, if there is room for it. Whether there is.
    #[inline(always)]
    pub fn push(&mut self, object: Addr) -> bool
        ensures told { result ≡ has_room self.old }
        ensures pushed { result ≡ true → self.new ≡ with_object self.old object }
        ensures full { result ≡ false → self.new ≡ self.old }
    {
        if self.objects.len() >= self.room {
            return false;
        }
        self.objects.push(object.word());
        true
    }

    /// Takes the last object off, if there is one.
    #[inline(always)]
    pub fn pop(&mut self) -> Option<Addr>
        ensures none { result ≡ None → (self.old.objects ≡ []) × (self.new ≡ self.old) }
        ensures last { IfSome result (λ object. self.old ≡ with_object self.new object) }
    {
        let word = self.objects.pop()?;
        Some(Addr::new(word))
    }

    /// Nothing is on it.
    pub fn clear(&mut self)
        ensures { self.new ≡ record { objects = []; room = self.old.room } }
    {
        self.objects.clear();
    }
}
