//! A pointer that is loaded, and a data word of the object that it leads to: two steps, of which the second looks at no register.
//!
//! ```text
//!   r0 holds 16, an object whose pointer 1 leads to 40: object #3, with 2 data words, of which word 0 is 7
//!
//!   get_word(0, r1, r0, 1, 0) = 7       get r1 r0 1 = #3, read r1 0 = 7
//!   get_word(0, r1, r0, 1, 2) = #3      get r1 r0 1 = #3, read r1 2 = nofield
//!   get_word(0, r1, r0, 9, 0)           get r1 r0 9 = nofield, and no step after it
//! ```

ghost use Rattle.std.specs.Prelude.{◌≡◌, ◌<◌, Some, None, length, slice_get};
ghost use Rattle.graph_runs.specs.State.{root_counts_of};
ghost use Rattle.heap_steps.specs.Roots.{IsRegister};
ghost use Rattle.heap_steps.specs.declared.step.Reply.TheVariants as replies;
ghost use Rattle.regions.specs.Table.{pointers_at};
ghost use Rattle.step_core.specs.Loads.{LoadsHeld, LoadsWord, ReadsLoaded, word_or_name};
ghost use Rattle.step_core.specs.Mutators.{register_of};
ghost use Rattle.step_core.specs.Stands.{IsWordOf, heap_of, name_in};
ghost use Rattle.step_core.specs.Words.{Takes, reading};

use crate::heap::Core;
use heap_steps::{Refusal, Register, Reply};
use heap_words::addr::Addr;

impl Core {
    /// Does the step `get` for a pointer that the object at an address has, which the register holds. The pointer is nil.
    #[inline(always)]
    fn load_nil(&mut self, mutator: u32, to: Register, object: Register, at: Addr, field: u32)
        requires mutator { mutator < self.old.config.mutators }
        requires to { IsRegister (root_counts_of self.old.config) to }
        requires object { IsRegister (root_counts_of self.old.config) object }
        requires held { register_of self.old mutator object ≡ Some at }
        requires there { slice_get (pointers_at self.old.table at) field ≡ Some None }
        ensures { LoadsHeld self.old mutator to object field None self.new }
    {
        self.law_remembers();
        self.set_register(mutator, to, None);
    }

    /// The same of a pointer that leads to an object, whose name isn't looked at.
    #[inline(always)]
    fn load_at(
        &mut self,
        mutator: u32,
        to: Register,
        object: Register,
        at: Addr,
        field: u32,
        target: Addr,
    )
        requires mutator { mutator < self.old.config.mutators }
        requires to { IsRegister (root_counts_of self.old.config) to }
        requires object { IsRegister (root_counts_of self.old.config) object }
        requires held { register_of self.old mutator object ≡ Some at }
        requires there { slice_get (pointers_at self.old.table at) field ≡ Some (Some target) }
        ensures { LoadsHeld self.old mutator to object field (Some target) self.new }
    {
        self.law_remembers();
        self.set_register(mutator, to, Some(target));
    }

    /// Does the step `read` of the object at an address, which the register holds.
    #[inline(always)]
    fn read_at(&self, mutator: u32, object: Register, at: Addr, field: u32) -> Reply
        requires mutator { mutator < self.now.config.mutators }
        requires object { IsRegister (root_counts_of self.now.config) object }
        requires held { register_of self.now mutator object ≡ Some at }
        ensures { Takes self.now (reading mutator object field) result self.now }
    {
        self.law_remembers();
        if field >= self.table.value_count(at) {
            return Reply::Refused(Refusal::NoField);
        }
        Reply::Word(self.table.get_value(at, field))
    }

    /// The data word that was read, or else the name of the object at an address.
    #[inline(always)]
    fn word_or_name(&self, at: Addr, read: Reply) -> Reply
        requires { IsWordOf (heap_of self.now) (Some at) }
        ensures { result ≡ word_or_name (name_in self.now.table (Some at)) read }
    {
        match read {
            Reply::Word(value) => Reply::Word(value),
            _ => Reply::Named(self.name_of(&Some(at))),
        }
    }

    /// The data word of the object at an address, which the register took, or else the object's name.
    #[inline(always)]
    fn read_loaded(&self, mutator: u32, to: Register, at: Addr, word: u32) -> Reply
        requires mutator { mutator < self.now.config.mutators }
        requires to { IsRegister (root_counts_of self.now.config) to }
        requires held { register_of self.now mutator to ≡ Some at }
        ensures { ReadsLoaded (replies.Named (name_in self.now.table (Some at))) self.now mutator to word result }
    {
        self.law_remembers();
        let read = self.read_at(mutator, to, at, word);
        self.word_or_name(at, read)
    }

    /// The pointer is loaded, and the word read, of an object that has the pointer.
    #[inline(always)]
    fn load_word(
        &mut self,
        mutator: u32,
        to: Register,
        object: Register,
        at: Addr,
        field: u32,
        word: u32,
    ) -> Reply
        requires mutator { mutator < self.old.config.mutators }
        requires to { IsRegister (root_counts_of self.old.config) to }
        requires object { IsRegister (root_counts_of self.old.config) object }
        requires held { register_of self.old mutator object ≡ Some at }
        requires field { field < length (pointers_at self.old.table at) }
        ensures { LoadsWord self.old mutator to object field word result self.new }
    {
        match self.table.get_ptr(at, field) {
            None => {
                self.load_nil(mutator, to, object, at, field);
                Reply::Named(None)
            }
            Some(target) => {
                self.load_at(mutator, to, object, at, field, target);
                self.read_loaded(mutator, to, target, word)
            }
        }
    }

    /// Does the step `get`, and if that loaded an object the step `read` of a data word of it. The reply is the word; where there is none,
    /// the object's name, nil, or why the load was refused.
    ///
    /// ```rust
    /// core.step(new);
    /// assert_eq!(rt; core.get_word(0, r0, r0, 0, 0), Reply::Named(None));
    /// ```
    #[inline(always)]
    pub fn get_word(
        &mut self,
        mutator: u32,
        to: Register,
        object: Register,
        field: u32,
        word: u32,
    ) -> Reply
        requires mutator { mutator < self.old.config.mutators }
        requires to { IsRegister (root_counts_of self.old.config) to }
        requires object { IsRegister (root_counts_of self.old.config) object }
        ensures { LoadsWord self.old mutator to object field word result self.new }
    {
        let Some(at) = self.register(mutator, object) else {
            return Reply::Refused(Refusal::Nil);
        };
        if field >= self.table.plain_pointer_count(at) {
            return Reply::Refused(Refusal::NoField);
        }
        self.load_word(mutator, to, object, at, field, word)
    }
}
