//! The core: the heap's layers in one value, and its root places.

ghost use Rattle.std.specs.Prelude.{◌≡◌, ℕ, ◌<◌, ◌-◌, length, Option, IfOk, IfErr, OnOk};
ghost use Rattle.heap_words.specs.Configs.{Suits, IsNewFault};
ghost use Rattle.heap_model.specs.Graph.{Graph};
ghost use Rattle.heap_model.specs.Heap.{IsShown, IsHeld};
ghost use Rattle.graph_runs.specs.State.{State, root_places, register_place, root_counts_of, with_root, with_nil_roots, root_at};
ghost use Rattle.graph_runs.specs.State.{first_state};
ghost use Rattle.heap_words.specs.Configs.{registers_of};
ghost use Rattle.heap_steps.specs.Roots.{IsRegister, IsGlobal};
ghost use Rattle.step_core.specs.Stands.{ShowsGraph, KeepsFrom, Stands, IsCore, IsWhole, heap_of};
ghost use Rattle.step_core.specs.Stands.{IsWordOf, name_in, RemembersFields};
ghost use Rattle.cards.specs.Cards.{ListsDirtyOnce};
ghost use Rattle.regions.specs.Shaped.{IsShaped};
ghost use Rattle.step_core.specs.Fresh.{fresh_core};
ghost use Rattle.step_core.specs.Mutators.{register_of, with_nil_words};
ghost use Rattle.step_core.specs.Parts.{HoldsRegister, HoldsRoot, SetsRoot};
ghost use Rattle.step_core.specs.Cycle.{LeavesRegions};

use crate::layers::{Collecting, Mutating, Pausing, Remembering, new_collecting, new_mutating};
use alloc_buffers::AllocBuffers;
use cards::CardTable;
use evacuation::PauseRoom;
use heap_steps::{GlobalRoot, Register};
use heap_words::addr::Ptr;
use heap_words::config::{Config, NewFault};
use marker::Marker;
use region_choice::{LiveRow, RegionAges};
use regions::RegionTable;
use remembered_sets::RememberedSets;
use root_table::Roots;
use std::alloc::{AllocError, Global};
use std::marker::Model;

/// A heap: its table of regions, its allocation buffers, its marker, its dirty cards and remembered sets, the room that a pause
/// uses, its roots, the name of its next object, and how old its regions are.
pub struct Core {
    pub(crate) config: Config,
    pub(crate) table: RegionTable,
    pub(crate) buffers: AllocBuffers,
    pub(crate) marker: Marker,
    pub(crate) cards: CardTable,
    pub(crate) sets: RememberedSets,
    pub(crate) room: PauseRoom,
    pub(crate) rows: Vec<LiveRow>,
    pub(crate) roots: Roots,
    pub(crate) next: u64,
    pub(crate) ages: RegionAges,
    /// While weak slots are still to be cleared, the address from which on objects are to be looked at.
    pub(crate) clearing: Ptr,
}

impl Model for Core {
    ghost use Rattle.std.specs.Vec.{vec_capacity};
    ghost use Rattle.step_core.specs.Stands.{CoreState, IsCore};

    ghost Value = { CoreState };

    ghost view = { λ c. record {
      config = c.config;
      table = c.table;
      buffers = c.buffers;
      marker = c.marker;
      cards = c.cards;
      sets = c.sets;
      room = c.room;
      row_room = vec_capacity c.rows;
      ages = c.ages;
      places = c.roots.places;
      roots = c.roots.words;
      next = c.next;
      clearing = c.clearing;
    } };

    ghost invariant = { λ c. IsCore (record {
      config = c.config;
      table = c.table;
      buffers = c.buffers;
      marker = c.marker;
      cards = c.cards;
      sets = c.sets;
      room = c.room;
      row_room = vec_capacity c.rows;
      ages = c.ages;
      places = c.roots.places;
      roots = c.roots.words;
      next = c.next;
      clearing = c.clearing;
    }) };
}

/// Where a core is let go there is one call, and not a drop for each part of each layer.
impl Drop for Core {
    fn drop(self) {
        let Core {
            config: _,
            table: _,
            buffers: _,
            marker: _,
            cards: _,
            sets: _,
            room: _,
            rows: _,
            roots: _,
            next: _,
            ages: _,
            clearing: _,
        } = self;
    }
}

impl Core {
    /// A heap of these sizes with no objects, whose roots are nil. It takes all memory that its steps need. Where there is none, the fault
    /// is the first of the sizes, or want of memory.
    ///
    /// ```rust
    /// let other = Core::new(alloc, &config)?;
    /// assert_eq!(rt; other.next_name(), 0);
    /// ```
    pub fn new(alloc: Global, config: &Config) -> Result<Core, NewFault>
        ensures fresh { IfOk result (λ c. c ≡ fresh_core config.now) }
        ensures core { IfOk result IsCore }
        ensures stands { IfOk result (Stands (first_state config.now)) }
        ensures config { IfOk result (λ c. c.config ≡ config.now) }
        ensures suits { OnOk result (Suits config.now) }
        ensures fault { IfErr result (IsNewFault config.now) }
    {
        let table = match RegionTable::new(alloc, config) {
            Ok(table) => table,
            Err(fault) => return Err(fault),
        };
        let Ok(mutating) = new_mutating(alloc, config) else {
            return Err(NewFault::NoMemory);
        };
        let Ok(collecting) = new_collecting(alloc, config) else {
            return Err(NewFault::NoMemory);
        };
        let Mutating {
            buffers,
            roots,
            next,
        } = mutating;
        let Collecting {
            marker,
            remembering,
            pausing,
        } = collecting;
        let Remembering { cards, sets } = remembering;
        let Pausing { room, rows, ages } = pausing;
        Ok(Core {
            config: *config,
            table,
            buffers,
            marker,
            cards,
            sets,
            room,
            rows,
            roots,
            next,
            ages,
            clearing: None,
        })
    }

    /// The memory that was taken for words above the highest region in use goes back to the system, and so does what was taken for more
    /// marks, dirty cards and queued cards than there are. The heap stays as it is, and so does its room: no step takes memory afterwards.
    /// Meanwhile this asks for as much memory as the words may take, and touches none of it. Where that is refused, less goes back.
    ///
    /// ```rust
    /// core.give_back(alloc)?;
    /// ```
    pub fn give_back(&mut self, alloc: Global) -> Result<(), AllocError>
        ensures { self.new ≡ self.old }
    {
        self.table.give_back(alloc)?;
        self.marker.give_back(alloc)?;
        self.cards.give_back(alloc)
    }

    /// The heap's sizes.
    ///
    /// ```rust
    /// assert_eq!(rt; core.config().words, 16);
    /// ```
    pub fn config(&self) -> Config
        ensures config { result ≡ self.now.config }
        ensures suits { Suits result }
    {
        self.config
    }

    /// Whether marking runs.
    ///
    /// ```rust
    /// core.step(begin);
    /// assert!(rt; core.marking());
    /// ```
    pub fn marking(&self) -> bool
        ensures { result ≡ self.now.marker.running }
    {
        self.marker.running
    }

    /// How many objects were scanned since marking began.
    ///
    /// ```rust
    /// core.step(new);
    /// core.step(begin);
    /// core.step(Step::Collector(CollectorStep::Mark(4)));
    /// assert_eq!(rt; core.scans(), 1);
    /// ```
    pub fn scans(&self) -> u32
        ensures { result ≡ self.now.marker.scans.since }
    {
        self.marker.scans()
    }

    /// How many cards wait for refinement.
    ///
    /// ```rust
    /// assert_eq!(rt; core.queued(), 0);
    /// ```
    pub fn queued(&self) -> u32
        ensures { result ≡ length self.now.cards.queue }
    {
        self.cards.queued()
    }

    /// Tells a proof what every core keeps, that cross-region pointers are remembered among it, and that a card is dirty exactly
    /// when it is listed, once. It does nothing.
    pub fn law_remembers(&self)
        ensures core { IsCore self.now }
        ensures fields { RemembersFields self.now }
        ensures cards { ListsDirtyOnce self.now.cards }
    {
        self.cards.law();
    }

    /// Tells a proof what every table of regions is: its regions have words, and not too many of them. It does nothing.
    pub fn law_shaped(&self)
        ensures { IsShaped self.now.table }
    {
        self.table.law();
    }

    /// Tells a proof that each object that a root reaches stands, whole and once, in regions in use. It
    /// does nothing.
    pub fn law_whole(&self)
        ensures { (s : State) → Stands s self.now → IsWhole s.graph self.now }
    {
        self.table.law();
    }

    /// What a root place holds.
    pub(crate) fn root(&self, place: usize) -> Ptr
        requires { place < root_places (root_counts_of self.now.config) }
        ensures { HoldsRoot self.now place result }
    {
        self.roots.get(place)
    }

    /// What a mutator's register holds.
    pub(crate) fn register(&self, mutator: u32, register: Register) -> Ptr
        requires mutator { mutator < self.now.config.mutators }
        requires register { IsRegister (root_counts_of self.now.config) register }
        ensures { HoldsRegister self.now mutator register result }
    {
        self.roots.register(mutator, register.number)
    }

    pub(crate) fn set_register(&mut self, mutator: u32, register: Register, value: Ptr)
        requires mutator { mutator < self.old.config.mutators }
        requires register { IsRegister (root_counts_of self.old.config) register }
        requires word { IsWordOf (heap_of self.old) value }
        requires held { IsHeld (heap_of self.old) value }
        ensures shows { (g : Graph) (v : Option ℕ) → ShowsGraph g self.old → IsShown (heap_of self.old) value v
            → ShowsGraph (with_root g (register_place g.places mutator register.number) v) self.new }
        ensures sets { SetsRoot (register_place (root_counts_of self.old.config) mutator register.number) value self.old self.new }
    {
        self.roots.set_register(mutator, register.number, value);
    }

    /// A mutator's register takes what another one of its holds, which isn't looked at.
    #[inline(always)]
    pub(crate) fn copy_register(&mut self, mutator: u32, to: Register, from: Register)
        requires mutator { mutator < self.old.config.mutators }
        requires to { IsRegister (root_counts_of self.old.config) to }
        requires from { IsRegister (root_counts_of self.old.config) from }
        ensures shows { (g : Graph) → ShowsGraph g self.old
            → ShowsGraph (with_root g (register_place g.places mutator to.number) (root_at g (register_place g.places mutator from.number)))
            self.new }
        ensures sets { SetsRoot (register_place (root_counts_of self.old.config) mutator to.number) (register_of self.old mutator from)
            self.old self.new }
    {
        self.roots.copy_register(mutator, to.number, from.number);
    }

    /// A global takes what a mutator's register holds, which isn't looked at.
    #[inline(always)]
    pub(crate) fn copy_to_global(&mut self, to: GlobalRoot, mutator: u32, from: Register)
        requires to { IsGlobal (root_counts_of self.old.config) to }
        requires mutator { mutator < self.old.config.mutators }
        requires from { IsRegister (root_counts_of self.old.config) from }
        ensures shows { (g : Graph) → ShowsGraph g self.old
            → ShowsGraph (with_root g to.number (root_at g (register_place g.places mutator from.number))) self.new }
        ensures sets { SetsRoot to.number (register_of self.old mutator from) self.old self.new }
    {
        self.roots.copy_to_global(to.number, mutator, from.number);
    }

    /// A mutator's registers from one on are nil.
    pub(crate) fn leave(&mut self, mutator: u32, from: Register)
        requires mutator { mutator < self.old.config.mutators }
        requires from { IsRegister (root_counts_of self.old.config) from }
        ensures shows { (g : Graph) → ShowsGraph g self.old
            → ShowsGraph (with_nil_roots g (register_place g.places mutator from.number) (g.places.registers - from.number)) self.new }
        ensures keeps { (s : Graph) → KeepsFrom s self.old → KeepsFrom s self.new }
        ensures after { self.new ≡ with_nil_words self.old (register_place (root_counts_of self.old.config) mutator from.number)
            (registers_of self.old.config - from.number) }
        ensures leaves { LeavesRegions self.old self.new }
    {
        self.roots.leave(mutator, from.number);
    }

    /// The name of the object that a word names.
    pub(crate) fn name_of(&self, target: &Ptr) -> Option<u64>
        requires { IsWordOf (heap_of self.now) target.now }
        ensures { result ≡ name_in self.now.table target.now }
    {
        match target {
            None => None,
            Some(at) => Some(self.table.name(*at)),
        }
    }

    /// A register takes a value, and its name is answered. What follows a test of the value stands in both arms, so that each knows it.
    #[inline(always)]
    pub(crate) fn take_named(&mut self, mutator: u32, register: Register, value: Ptr) -> Option<u64>
        requires mutator { mutator < self.old.config.mutators }
        requires register { IsRegister (root_counts_of self.old.config) register }
        requires word { IsWordOf (heap_of self.old) value }
        requires held { IsHeld (heap_of self.old) value }
        ensures name { result ≡ name_in self.old.table value }
        ensures shows { (g : Graph) (v : Option ℕ) → ShowsGraph g self.old → IsShown (heap_of self.old) value v
            → ShowsGraph (with_root g (register_place g.places mutator register.number) v) self.new }
        ensures sets { SetsRoot (register_place (root_counts_of self.old.config) mutator register.number) value self.old self.new }
    {
        match value {
            None => {
                self.set_register(mutator, register, value);
                None
            }
            Some(_) => {
                let name = self.name_of(&value);
                self.set_register(mutator, register, value);
                name
            }
        }
    }
}
