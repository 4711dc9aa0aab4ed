//! The graph of objects by name, and what each step of a mutator does to it.

ghost use Rattle.std.specs.Prelude.{◌≡◌, ◌<◌, ◌↔◌, ◌≢◌, length, IsTrue, IsOk, IfOk, OnErr};

use crate::clear::clear_all;
use crate::objects::Objects;
use crate::pointer::Pointer;
use crate::roots::fill_nil;
use crate::search::Search;
use heap_steps::{Action, Counts, GlobalRoot, Op, Refusal, Register, Reply};
use heap_words::config::Config;
use root_table::RootCounts;
use std::alloc::{AllocError, Global};
use std::marker::Model;

/// The graph of objects by name, as a heap would be from which nothing is ever freed or moved.
pub struct Graph {
    room: u64,
    first_name: u64,
    places: RootCounts,
    objects: Objects,
    roots: Vec<Pointer>,
    /// For the globals and for each mutator's registers a number from which on they are nil.
    used: Vec<u32>,
}

impl Model for Graph {
    ghost use Rattle.heap_model.specs.Graph as model;
    ghost use Rattle.graph_runs.specs.State.{IsGraph};

    ghost Value = { model.Graph };

    ghost view = { λ g. record {
      room = g.room;
      first_name = g.first_name;
      places = g.places;
      objects = g.objects;
      roots = g.roots.items;
    } };

    ghost invariant = { λ g. IsGraph
        (record { room = g.room; first_name = g.first_name; places = g.places; objects = g.objects; roots = g.roots.items })
        g.used.items };
}

/// Where it is dropped there is one call, and not a drop for each of its parts.
impl Drop for Graph {
    fn drop(self) {
        let Graph {
            room: _,
            first_name: _,
            places: _,
            objects: _,
            roots: _,
            used: _,
        } = self;
    }
}

impl Graph {
    ghost use Rattle.graph_runs.specs.State.{root_at, register_place, index_of, first_graph};
    ghost use Rattle.heap_model.specs.Graph.{next_name, with_root};
    ghost use Rattle.heap_model.specs.Weak.{cleared_graph};
    ghost use Rattle.graph_runs.specs.Run.{Creates};
    ghost use Rattle.object_graph.specs.Reached.{flag_of, started, all_found, searched};
    ghost use Rattle.graph_runs.specs.Sparing.{have_weaks};
    ghost use Rattle.graph_runs.specs.Machine.{made, act, outcome_of, stored};
    ghost use Rattle.heap_steps.specs.Roots.{IsRegister, IsGlobal, IsValue, IsOpAt};

    /// What a mutator's register holds.
    fn register(&self, mutator: u32, register: Register) -> Pointer
        requires mutator { mutator < self.now.places.mutators }
        requires register { IsRegister self.now.places register }
        ensures { result ≡ root_at self.now (register_place self.now.places mutator register.number) }
    {
        self.roots[self.places.register(mutator, register.number)]
    }

    fn set_register(&mut self, mutator: u32, register: Register, value: Pointer)
        requires mutator { mutator < self.old.places.mutators }
        requires register { IsRegister self.old.places register }
        ensures { self.new ≡ with_root self.old (register_place self.old.places mutator register.number) value }
    {
        let place = self.places.register(mutator, register.number);
        self.roots[place] = value;
        let row = mutator as usize + 1;
        if self.used[row] <= register.number {
            self.used[row] = register.number + 1;
        }
    }

    fn set_global(&mut self, global: GlobalRoot, value: Pointer)
        requires { IsGlobal self.old.places global }
        ensures { self.new ≡ with_root self.old global.number value }
    {
        self.roots[global.number as usize] = value;
        if self.used[0] <= global.number {
            self.used[0] = global.number + 1;
        }
    }

    /// Where the object is that a register names, if it names one.
    fn place(&self, mutator: u32, register: Register) -> Option<usize>
        requires mutator { mutator < self.now.places.mutators }
        requires register { IsRegister self.now.places register }
        ensures { result ≡ index_of self.now (root_at self.now (register_place self.now.places mutator register.number)) }
    {
        let name = self.register(mutator, register).name()?;
        let place = (name.saturating_sub(self.first_name)) as usize;
        if place < self.objects.len() {
            Some(place)
        } else {
            None
        }
    }

    fn new_object(
        &mut self,
        mutator: u32,
        to: Register,
        counts: Counts,
        weaks: u8,
    ) -> Result<Reply, AllocError>
        requires mutator { mutator < self.old.places.mutators }
        requires to { IsRegister self.old.places to }
        ensures ok { IfOk result (λ reply. (reply, self.new) ≡ made self.old mutator to counts weaks) }
        ensures err { OnErr result (self.new ≡ self.old) }
        ensures memory { ((made self.old mutator to counts weaks).0 ≢ Reply.Named (Some (next_name self.old))) → IsOk result }
    {
        if self.room < counts.size(weaks) {
            return Ok(Reply::Refused(Refusal::TooBig));
        }
        let name = self.next_name();
        if name == u64::MAX {
            return Ok(Reply::Refused(Refusal::NamesSpent));
        }
        self.objects.push(counts, weaks)?;
        self.set_register(mutator, to, Pointer::to(name));
        Ok(Reply::Named(Some(name)))
    }

    fn get(&mut self, mutator: u32, to: Register, object: Register, field: u32) -> Reply
        requires mutator { mutator < self.old.places.mutators }
        requires to { IsRegister self.old.places to }
        requires object { IsRegister self.old.places object }
        ensures { (result, self.new) ≡ act self.old mutator (Action.Get to object field) }
    {
        let Some(place) = self.place(mutator, object) else {
            return Reply::Refused(Refusal::Nil);
        };
        let Some(value) = self.objects.get_pointer(place, field) else {
            return Reply::Refused(Refusal::NoField);
        };
        self.set_register(mutator, to, value);
        Reply::Named(value.name())
    }

    fn get_weak(&mut self, mutator: u32, to: Register, object: Register, slot: u32) -> Reply
        requires mutator { mutator < self.old.places.mutators }
        requires to { IsRegister self.old.places to }
        requires object { IsRegister self.old.places object }
        ensures { (result, self.new) ≡ act self.old mutator (Action.GetWeak to object slot) }
    {
        let Some(place) = self.place(mutator, object) else {
            return Reply::Refused(Refusal::Nil);
        };
        let Some(value) = self.objects.get_weak(place, slot) else {
            return Reply::Refused(Refusal::NoField);
        };
        self.set_register(mutator, to, value);
        Reply::Named(value.name())
    }

    fn move_register(&mut self, mutator: u32, to: Register, from: Register) -> Reply
        requires mutator { mutator < self.old.places.mutators }
        requires to { IsRegister self.old.places to }
        requires from { IsRegister self.old.places from }
        ensures { (result, self.new) ≡ act self.old mutator (Action.Move to from) }
    {
        let value = self.register(mutator, from);
        self.set_register(mutator, to, value);
        Reply::Done
    }

    /// What `put` and `put_weak` store: nil, or what a register holds.
    fn stored(&self, mutator: u32, value: Option<Register>) -> Pointer
        requires mutator { mutator < self.now.places.mutators }
        requires value { IsValue self.now.places value }
        ensures { result ≡ stored self.now mutator value }
    {
        match value {
            None => Pointer::nil(),
            Some(register) => self.register(mutator, register),
        }
    }

    fn put(&mut self, mutator: u32, object: Register, field: u32, value: Option<Register>) -> Reply
        requires mutator { mutator < self.old.places.mutators }
        requires object { IsRegister self.old.places object }
        requires value { IsValue self.old.places value }
        ensures { (result, self.new) ≡ act self.old mutator (Action.Put object field value) }
    {
        let Some(place) = self.place(mutator, object) else {
            return Reply::Refused(Refusal::Nil);
        };
        let value = self.stored(mutator, value);
        if field >= self.objects.pointer_count(place) {
            return Reply::Refused(Refusal::NoField);
        }
        self.objects.set_pointer(place, field, value);
        Reply::Done
    }

    fn put_weak(
        &mut self,
        mutator: u32,
        object: Register,
        slot: u32,
        value: Option<Register>,
    ) -> Reply
        requires mutator { mutator < self.old.places.mutators }
        requires object { IsRegister self.old.places object }
        requires value { IsValue self.old.places value }
        ensures { (result, self.new) ≡ act self.old mutator (Action.PutWeak object slot value) }
    {
        let Some(place) = self.place(mutator, object) else {
            return Reply::Refused(Refusal::Nil);
        };
        let value = self.stored(mutator, value);
        if slot >= u32::from(self.objects.weak_count(place)) {
            return Reply::Refused(Refusal::NoField);
        }
        self.objects.set_weak(place, slot, value);
        Reply::Done
    }

    fn read(&self, mutator: u32, object: Register, field: u32) -> Reply
        requires mutator { mutator < self.now.places.mutators }
        requires object { IsRegister self.now.places object }
        ensures { (result, self.now) ≡ act self.now mutator (Action.Read object field) }
    {
        let Some(place) = self.place(mutator, object) else {
            return Reply::Refused(Refusal::Nil);
        };
        match self.objects.get_value(place, field) {
            None => Reply::Refused(Refusal::NoField),
            Some(word) => Reply::Word(word),
        }
    }

    fn write(&mut self, mutator: u32, object: Register, field: u32, value: u64) -> Reply
        requires mutator { mutator < self.old.places.mutators }
        requires object { IsRegister self.old.places object }
        ensures { (result, self.new) ≡ act self.old mutator (Action.Write object field value) }
    {
        let Some(place) = self.place(mutator, object) else {
            return Reply::Refused(Refusal::Nil);
        };
        if field >= self.objects.value_count(place) {
            return Reply::Refused(Refusal::NoField);
        }
        self.objects.set_value(place, field, value);
        Reply::Done
    }

    fn load(&mut self, mutator: u32, to: Register, from: GlobalRoot) -> Reply
        requires mutator { mutator < self.old.places.mutators }
        requires to { IsRegister self.old.places to }
        requires from { IsGlobal self.old.places from }
        ensures { (result, self.new) ≡ act self.old mutator (Action.Load to from) }
    {
        let value = self.roots[from.number as usize];
        self.set_register(mutator, to, value);
        Reply::Named(value.name())
    }

    fn save(&mut self, mutator: u32, to: GlobalRoot, from: Register) -> Reply
        requires mutator { mutator < self.old.places.mutators }
        requires to { IsGlobal self.old.places to }
        requires from { IsRegister self.old.places from }
        ensures { (result, self.new) ≡ act self.old mutator (Action.Save to from) }
    {
        let value = self.register(mutator, from);
        self.set_global(to, value);
        Reply::Done
    }

    fn shape(&self, mutator: u32, object: Register) -> Reply
        requires mutator { mutator < self.now.places.mutators }
        requires object { IsRegister self.now.places object }
        ensures { (result, self.now) ≡ act self.now mutator (Action.Shape object) }
    {
        let Some(place) = self.place(mutator, object) else {
            return Reply::Refused(Refusal::Nil);
        };
        Reply::Shape {
            pointers: self.objects.pointer_count(place),
            values: self.objects.value_count(place),
        }
    }

    fn weaks(&self, mutator: u32, object: Register) -> Reply
        requires mutator { mutator < self.now.places.mutators }
        requires object { IsRegister self.now.places object }
        ensures { (result, self.now) ≡ act self.now mutator (Action.Weaks object) }
    {
        let Some(place) = self.place(mutator, object) else {
            return Reply::Refused(Refusal::Nil);
        };
        Reply::Word(u64::from(self.objects.weak_count(place)))
    }

    /// A mutator's registers from one on become nil. It costs those below their bound.
    fn scope(&mut self, mutator: u32, from: Register) -> Reply
        requires mutator { mutator < self.old.places.mutators }
        requires from { IsRegister self.old.places from }
        ensures { (result, self.new) ≡ act self.old mutator (Action.Scope from) }
    {
        let row = mutator as usize + 1;
        let used = self.used[row];
        if used <= from.number {
            return Reply::Done;
        }
        let first = self.places.register(mutator, from.number);
        fill_nil(&mut self.roots, first, (used - from.number) as usize);
        self.used[row] = from.number;
        Reply::Done
    }

    /// The reply to a mutator's step, which the graph takes. Refused for memory, the graph is unchanged.
    ///
    /// ```rust
    /// let mut graph = Graph::new(alloc, &config)?;
    /// assert_eq!(rt; graph.apply(op)?, Reply::Named(Some(0)));
    /// ```
    pub fn apply(&mut self, op: Op) -> Result<Reply, AllocError>
        requires { IsOpAt self.old.places op }
        ensures ok { IfOk result (λ reply. (reply, self.new) ≡ outcome_of self.old op) }
        ensures err { OnErr result (self.new ≡ self.old) }
        ensures places { self.new.places ≡ self.old.places }
        // Only a step that would create an object takes memory.
        ensures memory { (Creates self.old op → ⊥) → IsOk result }
    {
        self.serve(op)
    }

    fn serve(&mut self, op: Op) -> Result<Reply, AllocError>
        requires { IsOpAt self.old.places op }
        ensures ok { IfOk result (λ reply. (reply, self.new) ≡ outcome_of self.old op) }
        ensures err { OnErr result (self.new ≡ self.old) }
        ensures memory { (Creates self.old op → ⊥) → IsOk result }
    {
        let mutator = op.mutator;
        match op.action {
            Action::New { to, counts } => self.new_object(mutator, to, counts, 0),
            Action::Get { to, object, field } => Ok(self.get(mutator, to, object, field)),
            Action::Put {
                object,
                field,
                value,
            } => Ok(self.put(mutator, object, field, value)),
            Action::Read { object, field } => Ok(self.read(mutator, object, field)),
            Action::Write {
                object,
                field,
                value,
            } => Ok(self.write(mutator, object, field, value)),
            Action::Move { to, from } => Ok(self.move_register(mutator, to, from)),
            Action::Drop { register } => {
                self.set_register(mutator, register, Pointer::nil());
                Ok(Reply::Done)
            }
            Action::Load { to, from } => Ok(self.load(mutator, to, from)),
            Action::Save { to, from } => Ok(self.save(mutator, to, from)),
            Action::Shape { object } => Ok(self.shape(mutator, object)),
            Action::NewWeak { to, counts, weaks } => self.new_object(mutator, to, counts, weaks),
            Action::GetWeak { to, object, slot } => Ok(self.get_weak(mutator, to, object, slot)),
            Action::PutWeak {
                object,
                slot,
                value,
            } => Ok(self.put_weak(mutator, object, slot, value)),
            Action::Weaks { object } => Ok(self.weaks(mutator, object)),
            Action::Scope { from } => Ok(self.scope(mutator, from)),
        }
    }

    /// Whether a step would create an object.
    pub(crate) fn creates(&self, op: Op) -> bool
        ensures { IsTrue result ↔ Creates self.now op }
    {
        match op.action {
            Action::New { counts, .. } => {
                self.room >= counts.size(0) && self.next_name() != u64::MAX
            }
            Action::NewWeak { counts, weaks, .. } => {
                self.room >= counts.size(weaks) && self.next_name() != u64::MAX
            }
            _ => false,
        }
    }

    /// How many globals, mutators and registers there are.
    ///
    /// ```rust
    /// let graph = Graph::new(alloc, &config)?;
    /// assert_eq!(rt; graph.places().globals(), 16);
    /// ```
    pub fn places(&self) -> RootCounts
        ensures { result ≡ self.now.places }
    {
        self.places
    }

    /// The name of the next object.
    pub(crate) fn next_name(&self) -> u64
        ensures { result ≡ next_name self.now }
    {
        self.first_name + self.objects.len() as u64
    }

    /// Whether some object has a weak slot.
    pub(crate) fn has_weaks(&self) -> bool
        ensures { result ≡ have_weaks self.now.objects }
    {
        self.objects.has_weaks()
    }

    /// The same graph once more.
    pub(crate) fn copy(&self) -> Result<Graph, AllocError>
        ensures { IfOk result (λ g. g ≡ self.now) }
    {
        Ok(Graph {
            room: self.room,
            first_name: self.first_name,
            places: self.places,
            objects: self.objects.copy()?,
            roots: self.roots.clone()?,
            used: self.used.clone()?,
        })
    }

    /// Every weak slot becomes nil that holds a name below a limit which isn't flagged.
    pub(crate) fn clear(&mut self, limit: u64, flags: &[bool])
        ensures { self.new ≡ cleared_graph (flag_of self.old.first_name flags.now) limit self.old }
    {
        clear_all(&mut self.objects, self.first_name, limit, flags);
    }

    /// The search for what is reachable from the graph's roots and from some other names: a flag for each object.
    pub(crate) fn search(&self, alloc: Global, others: &[Pointer]) -> Result<Vec<bool>, AllocError>
        ensures { IfOk result (λ flags. flags.items
            ≡ (searched (all_found (all_found (started self.now) others.now) self.now.roots) self.now.objects
            (length self.now.objects)).flags) }
    {
        let mut search = Search::new(alloc, self.first_name, self.objects.len())?;
        search.find_all(others)?;
        search.find_all(self.roots.as_slice())?;
        search.look_at_all(&self.objects)?;
        Ok(search.into_flags())
    }

    /// The graph of a new heap: no objects, and each root nil.
    ///
    /// ```rust
    /// let graph = Graph::new(alloc, &config)?;
    /// assert_eq!(rt; graph.places().count(), 24);
    /// ```
    pub fn new(alloc: Global, config: &Config) -> Result<Graph, AllocError>
        ensures { IfOk result (λ g. g ≡ first_graph config.now) }
    {
        let places = RootCounts::of(config);
        let first_name = config.first_name;
        Ok(Graph {
            room: config.object_limit(),
            first_name,
            places,
            objects: Objects::new(alloc),
            roots: vec![in alloc; Pointer::nil(); places.count()]?,
            used: vec![in alloc; 0; places.mutators() as usize + 1]?,
        })
    }
}
