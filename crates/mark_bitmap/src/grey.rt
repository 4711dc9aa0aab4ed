//! The grey objects: marked, and not scanned yet.
//!
//! They are the difference of two bitmaps. One of them is held, to be scanned next. The others are on a stack (`mark_stack`), or have a
//! finger: there is one for each 64 addresses, which is set where a grey object starts at one of them. The fingers have levels above them
//! (`summary`), so the lowest one that is set is found in a few steps, wherever it is.
//!
//! ```text
//!   address   0 ..          64 ..         128 ..        192 ..
//!   marked    . x . . x     x . . . .     . . . . .     . . x . x        add        the object is held; the one that was goes on
//!   scanned   . x . . x     . . . . .     . . . . .     . . x . .                   the stack, or gets a finger if that is full
//!   grey      . . . . .     x . . . .     . . . . .     . . . . x        any        the one that is held
//!   finger    no            yes           no            yes              remove     the object is scanned; its finger falls where
//!                                                                                   no other one is left, and the next one is held
//! ```
//!
//! The stack has no room where objects are scanned by rising address, as in the first two formats. The lower of two objects is held then,
//! and the other one gets a finger:
//!
//! ```text
//!   by the stack      add 90: held 90   add 5: held 5, on the stack 90      remove 5: held 90     no finger is set
//!   by address        add 5: held 5     add 90: held 5, finger 1 is set     remove 5: held 90, and finger 1 stays
//!   a list            add 5: held 5     remove 5: none held                 add 90: held 90 ..    in either order
//! ```
//!
//! A large object is scanned in several turns. It stays held between them, and how many of its words were looked at is kept beside it: the
//! object itself is the first one, and then come its pointers. What is found meanwhile is put aside.
//!
//! ```text
//!   an object of 5 pointers at 90     look 3: itself and two pointers      add 5: held 90, on the stack 5      remove 90: held 5, looked 0
//! ```
//!
//! Over a marking cycle: `begin` clears the scanned set and the fingers; each object that is marked is added; `any` and
//! `remove` take one grey object after another, until none is left. Each of the three costs a few words, however many
//! objects there are and wherever they lie. Nothing but the held object is scanned, so the stack needs no search.

ghost use Rattle.std.specs.Prelude.{◌≡◌, ◌≢◌, ℕ, ◌<◌, List, Bool, true, false, Some, None, IfOk, IfSome, length, MatchOption, replicate};
ghost use Rattle.std.specs.Prelude.{slice_set, [], IsSome};
ghost use Rattle.std.specs.Int.{div_ceil};
ghost use Rattle.bit_sets.specs.Bits.{has};
ghost use Rattle.mark_bitmap.specs.Marks.{is_marked, HasNone, IsLowest};
ghost use Rattle.mark_bitmap.specs.Summary.{HasMember, HasNoMember};
ghost use Rattle.mark_bitmap.specs.Grey.{finger_of, is_grey, nothing_scanned, put_aside, with_grey};
ghost use Rattle.mark_bitmap.specs.Grey.{HasFingers, HasNoFinger, HoldsNext, IsLowestBeside, KeepsPlace, Scans};
ghost use Rattle.mark_bitmap.specs.Stack.{IsOn};

use crate::finger_set::Fingers;
use crate::mark_stack::MarkStack;
use crate::marks::Marks;
use bit_sets::bits::Bits;
use heap_words::addr::{Addr, Ptr};
use std::alloc::{AllocError, Global};
use std::marker::Model;

/// Which objects are scanned, the fingers, the object that is held beside them, how many of its words were looked at, and the stack.
/// Clauses see the five.
pub struct Grey {
    scanned: Bits,
    fingers: Fingers,
    held: Ptr,
    looked: u32,
    stack: MarkStack,
}

impl Model for Grey {
    ghost use Rattle.mark_bitmap.specs.Grey.{HasPlaces, Scans};

    ghost Value = { Scans };

    ghost view = { λ g. record { scanned = g.scanned; fingers = g.fingers; held = g.held; looked = g.looked; stack = g.stack } };

    ghost invariant = { λ g. HasPlaces g.scanned g.fingers g.held g.looked g.stack };
}

/// Where it is let go there is one call, and not a drop for each of its parts.
impl Drop for Grey {
    fn drop(self) {
        let Grey {
            scanned: _,
            fingers: _,
            held: _,
            looked: _,
            stack: _,
        } = self;
    }
}

/// The lowest grey object at or after the addresses of the lowest finger that is set.
#[inline(always)]
#[tactic(auto, unfolding(crate::specs::Grey::finger_of))]
fn lowest_beside(marks: &Bits, scanned: &Bits, fingers: &Fingers) -> Option<Addr>
    requires even { length marks.now ≡ length scanned.now }
    requires count { length fingers.now ≡ div_ceil (length scanned.now) 64 }
    ensures lowest { MatchOption result (HasNoFinger marks.now scanned.now fingers.now)
        (IsLowestBeside marks.now scanned.now fingers.now) }
    ensures within { IfSome result (λ found. found < length marks.now) }
{
    let finger = fingers.lowest()?;
    // Mostly it is among the finger's own addresses.
    if let Some(found) = marks.lowest_without(scanned, finger) {
        return Some(Addr::new(found));
    }
    let end = marks.len();
    marks.next_without(scanned, 64 * finger, end).map(Addr::new)
}

impl Grey {
    /// Nothing is scanned of the addresses below `count`, no finger is set, nothing is held, and the stack is empty. Objects are scanned by
    /// rising address, or the one that was found last comes next. No call takes memory afterwards.
    #[tactic(auto, unfolding(crate::specs::Grey::nothing_scanned, crate::specs::Stack::empty_stack))]
    pub fn new(alloc: Global, count: u32, by_address: bool) -> Result<Grey, AllocError>
        ensures none { IfOk result (λ grey. grey ≡ nothing_scanned count by_address) }
        ensures fingers { IfOk result (λ grey. (marks : List Bool) → ((a : ℕ) → is_marked marks a ≡ false) → HasFingers marks grey) }
    {
        Ok(Grey {
            scanned: Bits::new(alloc, count)?,
            fingers: Fingers::new(alloc, count.div_ceil(64))?,
            held: None,
            looked: 0,
            stack: MarkStack::new(by_address),
        })
    }

    /// Marking begins with no marks: nothing is scanned, no finger is set, nothing is held, and the stack is empty.
    pub fn clear(&mut self)
        ensures none { self.new ≡ record {
          scanned = replicate (length self.old.scanned) false;
          fingers = replicate (length self.old.fingers) false;
          held = None;
          looked = 0;
          stack = record { objects = []; room = self.old.stack.room };
        } }
        ensures fingers { (marks : List Bool) → ((a : ℕ) → is_marked marks a ≡ false) → HasFingers marks self.new }
    {
        self.scanned.clear();
        self.fingers.clear();
        self.stack.clear();
        self.held = None;
        self.looked = 0;
    }

    /// An object is put on the stack, or where that has no room, its finger is set.
    #[inline(never)]
    #[tactic(auto, unfolding(crate::specs::Grey::finger_of))]
    fn put_aside(&mut self, object: Addr)
        requires known { object < length self.old.scanned }
        ensures { self.new ≡ put_aside self.old object }
    {
        if self.stack.push(object) {
            return;
        }
        self.fingers.set(object.word() / 64);
    }

    /// The memory of pages of flags that the scanned objects no longer have goes back to the system. Nothing changes, and the room stays.
    /// Where the memory that this asks for meanwhile is refused, none goes back.
    pub fn give_back(&mut self, alloc: Global) -> Result<(), AllocError>
        ensures { self.new ≡ self.old }
    {
        self.scanned.give_back(alloc)
    }

    /// An object is marked that was neither marked nor scanned, which makes it grey. It is held, and the one that was held is put on the
    /// stack. Where that has no room, the lower of the two is held, and the finger of the other is set. Where the scan of the held object
    /// has begun, it stays held, and the other one is put aside.
    #[inline(always)]
    #[tactic(auto, unfolding(crate::specs::Grey::finger_of))]
    pub fn add(&mut self, object: Addr)
        requires known { object < length self.old.scanned }
        requires unscanned { is_marked self.old.scanned object ≡ false }
        ensures added { self.new ≡ with_grey self.old.held self.old object }
        ensures scanned { self.new.scanned ≡ self.old.scanned }
        ensures place { KeepsPlace self.old self.new }
        ensures fingers { (marks : List Bool) → length marks ≡ length self.old.scanned → is_marked marks object ≡ false
            → HasFingers marks self.old → HasFingers (slice_set marks object true) self.new }
    {
        let Some(held) = self.held else {
            self.held = Some(object);
            return;
        };
        if self.looked != 0 {
            self.put_aside(object);
            return;
        }
        if self.stack.push(held) {
            self.held = Some(object);
            return;
        }
        self.held = Some(Addr::new(held.word().min(object.word())));
        self.fingers.set(held.word().max(object.word()) / 64);
    }

    /// A grey object, if there is one: the lowest where objects are scanned by rising address, so that the stack has no room, and its scan
    /// hasn't begun.
    #[inline(always)]
    pub fn any(&self, marks: &Marks) -> Option<Addr>
        requires even { length marks.now ≡ length self.now.scanned }
        requires fingers { HasFingers marks.now self.now }
        ensures held { result ≡ self.now.held }
        ensures grey { MatchOption result (HasNone (is_grey marks.now self.now) 0) (λ found. is_grey marks.now self.now found ≡ true) }
        ensures lowest { self.now.stack.room ≡ 0 → self.now.looked ≡ 0
            → MatchOption result (HasNone (is_grey marks.now self.now) 0) (IsLowest (is_grey marks.now self.now) 0) }
        ensures within { IfSome result (λ found. found < length marks.now) }
    {
        self.held
    }

    /// How many words of the held object were looked at: 0 where its scan hasn't begun, then itself and its first pointers.
    #[inline(always)]
    pub fn looked(&self) -> u32
        ensures { result ≡ self.now.looked }
    {
        self.looked
    }

    /// So many words of the held object are looked at now: it stays held until it is scanned.
    pub fn look(&mut self, words: u32)
        requires held { IsSome self.old.held }
        ensures looked { self.new ≡ record self.old { looked = words } }
        ensures fingers { (marks : List Bool) → words ≢ 0 → HasFingers marks self.old → HasFingers marks self.new }
    {
        self.looked = words;
    }

    /// The finger of an object that is scanned now falls, if no grey object is left at one of its addresses.
    #[inline(always)]
    #[tactic(auto, unfolding(crate::specs::Grey::finger_of))]
    fn drop_finger(&mut self, marks: &Marks, object: Addr)
        requires even { length marks.now ≡ length self.old.scanned }
        requires known { object < length self.old.scanned }
        requires scanned { is_marked self.old.scanned object ≡ true }
        ensures left { has self.new.fingers (finger_of object) ≡ true → HasMember (is_grey marks.now self.new) (finger_of object) }
        ensures others { (i : ℕ) → i ≢ finger_of object → has self.new.fingers i ≡ has self.old.fingers i }
        ensures set { (i : ℕ) → has self.new.fingers i ≡ false → has self.old.fingers i ≡ true
            → HasNoMember (is_grey marks.now self.new) i }
        ensures scanned { self.new.scanned ≡ self.old.scanned }
        ensures held { self.new.held ≡ self.old.held }
        ensures looked { self.new.looked ≡ self.old.looked }
        ensures stack { self.new.stack ≡ self.old.stack }
    {
        if self.fingers.is_empty() {
            return;
        }
        if marks
            .bits()
            .lowest_left(&self.scanned, object.word())
            .is_none()
        {
            self.fingers.remove(object.word() / 64);
        }
    }

    /// The last object of the stack is held, or where that is empty the lowest of those with a finger.
    #[inline(always)]
    #[tactic(auto, unfolding(crate::specs::Grey::finger_of))]
    fn hold_next(&mut self, marks: &Marks)
        requires even { length marks.now ≡ length self.old.scanned }
        requires unlooked { self.old.looked ≡ 0 }
        ensures next { HoldsNext marks.now self.old self.new }
        ensures scanned { self.new.scanned ≡ self.old.scanned }
        ensures fingers { self.new.fingers ≡ self.old.fingers }
        ensures looked { self.new.looked ≡ 0 }
    {
        if let Some(found) = self.stack.pop() {
            self.held = Some(found);
            return;
        }
        self.held = lowest_beside(marks.bits(), &self.scanned, &self.fingers);
    }

    /// The object that is held is scanned: it is no longer grey, and the next one is held. Its finger is still set only if a grey object is
    /// left at one of the finger's addresses.
    #[inline(always)]
    #[tactic(auto, unfolding(crate::specs::Grey::finger_of))]
    pub fn remove(&mut self, marks: &Marks, object: Addr)
        requires even { length marks.now ≡ length self.old.scanned }
        requires held { self.old.held ≡ Some object }
        ensures scanned { self.new.scanned ≡ slice_set self.old.scanned object true }
        ensures left { has self.new.fingers (finger_of object) ≡ true → HasMember (is_grey marks.now self.new) (finger_of object) }
        ensures others { (i : ℕ) → i ≢ finger_of object → has self.new.fingers i ≡ has self.old.fingers i }
        ensures next { HoldsNext marks.now self.old self.new }
        ensures looked { self.new.looked ≡ 0 }
        ensures fingers { HasFingers marks.now self.old → HasFingers marks.now self.new }
    {
        self.scanned.set(object.word());
        self.looked = 0;
        self.drop_finger(marks, object);
        self.hold_next(marks);
    }

    /// Whether an object is scanned.
    pub fn is_scanned(&self, object: Addr) -> bool
        requires { object < length self.now.scanned }
        ensures { result ≡ is_marked self.now.scanned object }
    {
        self.scanned.get(object.word())
    }
}

/// What grey is: marked, and not scanned. With fewer marks, of which the held object and those on the stack keep their own, the fingers are
/// right still. Where none is left, each marked object is scanned.
pub fn grey_law()
    ensures grey { (marks : List Bool) (scans : Scans) (a : ℕ) → is_marked marks a ≡ true → is_marked scans.scanned a ≡ false
        → is_grey marks scans a ≡ true }
    ensures marked { (marks : List Bool) (scans : Scans) (a : ℕ) → is_grey marks scans a ≡ true → is_marked marks a ≡ true }
    ensures unscanned { (marks : List Bool) (scans : Scans) (a : ℕ) → is_grey marks scans a ≡ true → is_marked scans.scanned a ≡ false }
    ensures fewer { (marks marks' : List Bool) (scans : Scans) → ((a : ℕ) → is_marked marks' a ≡ true → is_marked marks a ≡ true)
        → ((a : ℕ) → scans.held ≡ Some a → is_marked marks' a ≡ true) → ((a : ℕ) → IsOn scans.stack a → is_marked marks' a ≡ true)
        → HasFingers marks scans → HasFingers marks' scans }
    ensures done { (marks : List Bool) (scans : Scans) → HasNone (is_grey marks scans) 0 → (a : ℕ) → is_marked marks a ≡ true
        → is_marked scans.scanned a ≡ true }
{}
