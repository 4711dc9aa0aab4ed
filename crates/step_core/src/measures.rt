//! What a policy of collection steers by: how full the heap is, how much of it lives, how far marking is, and what a register names.
//!
//! ```text
//!   region        0          1          2        3         4          5
//!                 ordinary   ordinary   free     a run of one object  ordinary
//!   handed out    16         12         0        16        9          3             used_words: 56
//!   live          5          0          0        25, if it's kept     3             live_words: 33
//! ```
//!
//! A count of words looks at each region: it is for when a policy asks, and no step asks it.

ghost use Rattle.std.specs.Prelude.{◌≡◌, ◌↔◌, ◌<◌, ◌*◌, IsTrue, length};
ghost use Rattle.heap_words.specs.Configs.{globals_of, registers_of};
ghost use Rattle.heap_model.specs.Graph.{Graph};
ghost use Rattle.regions.specs.Table.{free_count, kind_of, stored_size, used_of};
ghost use Rattle.regions.specs.declared.row.Kind.TheVariants as kinds;
ghost use Rattle.graph_runs.specs.State.{register_place, root_at};
ghost use Rattle.heap_steps.specs.Roots.{IsRegister};
ghost use Rattle.step_core.specs.Stands.{root_counts_of, kept_of, name_in, ShowsGraph};
ghost use Rattle.step_core.specs.Mutators.{register_of};
ghost use Rattle.step_core.specs.Measures.{used_words, live_in, live_words, HasGrey, HasSlotsLeft};

use crate::heap::Core;
use heap_steps::Register;
use heap_words::addr::{Addr, RegionNo};
use regions::Kind;

impl Core {
    /// How many regions are free.
    ///
    /// ```rust
    /// core.step(new);
    /// assert_eq!(rt; core.free_regions(), 3);
    /// ```
    pub fn free_regions(&self) -> u32
        ensures { result ≡ free_count self.now.table }
    {
        self.table.free_count()
    }

    /// How many words of a region are handed out.
    ///
    /// ```rust
    /// use heap_words::addr::RegionNo;
    ///
    /// core.step(new);
    /// assert_eq!(rt; core.used_in(RegionNo::new(0)), 8); // an allocation buffer, from which the object was cut
    /// ```
    pub fn used_in(&self, region: RegionNo) -> u32
        requires { region < length self.now.table.regions }
        ensures { result ≡ used_of self.now.table region }
    {
        self.table.law();
        self.table.top(region).word() - region.number() * self.table.words_per_region()
    }

    /// How many words of all regions are handed out, to objects and to allocation buffers.
    ///
    /// ```rust
    /// core.step(new);
    /// assert_eq!(rt; core.used_words(), 8); // an allocation buffer, from which the object was cut
    /// ```
    pub fn used_words(&self) -> u64
        ensures { result ≡ used_words self.now }
    {
        let mut sum = 0;
        for number in 0..self.table.region_count() {
            sum += u64::from(self.used_in(RegionNo::new(number)));
        }
        sum
    }

    /// The words of the humongous object that begins in a region, if it is kept.
    fn live_in_run(&self, region: RegionNo) -> u32
        requires known { region < length self.now.table.regions }
        requires first { kind_of self.now.table region ≡ kinds.First }
        ensures { result ≡ stored_size (kept_of self.now (region * self.now.table.words_per_region)) }
    {
        if self.is_dead_run(region) {
            return 0;
        }
        self.table.law();
        let words = self.table.words_per_region();
        self.table.object_size(Addr::new(region.number() * words))
    }

    /// The live words of a region: of an ordinary one its live bound, of a run's first the words of its object, if that is kept.
    ///
    /// ```rust
    /// use heap_words::addr::RegionNo;
    ///
    /// core.step(new);
    /// assert_eq!(rt; core.live_in(RegionNo::new(0)), 8); // no marking is complete: all that was handed out counts
    /// ```
    pub fn live_in(&self, region: RegionNo) -> u32
        requires { region < length self.now.table.regions }
        ensures { result ≡ live_in self.now region }
    {
        match self.table.kind(region) {
            Kind::Ordinary => self.marker.live_bound(&self.table, region),
            Kind::First => self.live_in_run(region),
            Kind::Free | Kind::Rest => 0,
        }
    }

    /// How many words are live: those of the objects that the last complete marking marked, and all that were handed out since it began.
    ///
    /// ```rust
    /// core.step(new);
    /// assert_eq!(rt; core.live_words(), 8); // no marking is complete: all that was handed out counts
    /// ```
    pub fn live_words(&self) -> u64
        ensures { result ≡ live_words self.now }
    {
        let mut sum = 0;
        for number in 0..self.table.region_count() {
            sum += u64::from(self.live_in(RegionNo::new(number)));
        }
        sum
    }

    /// Whether marking runs and something is left to be marked: a root waits, or a marked object isn't scanned yet.
    ///
    /// ```rust
    /// core.step(new);
    /// core.step(begin);
    /// assert!(rt; core.grey());
    /// ```
    pub fn grey(&self) -> bool
        ensures { IsTrue result ↔ HasGrey self.now }
    {
        if !self.marker.running {
            return false;
        }
        if !self.marker.waiting.is_empty() {
            return true;
        }
        self.marker.grey.any(&self.marker.bitmaps.next).is_some()
    }

    /// Whether weak slots that read nil wait to be cleared.
    ///
    /// ```rust
    /// assert!(rt; !core.clearing());
    /// ```
    pub fn clearing(&self) -> bool
        ensures { IsTrue result ↔ HasSlotsLeft self.now }
    {
        self.clearing.is_some()
    }

    /// How many globals there are.
    ///
    /// ```rust
    /// assert_eq!(rt; core.globals(), 16);
    /// ```
    pub fn globals(&self) -> u32
        ensures { result ≡ globals_of self.now.config }
    {
        self.config.globals()
    }

    /// How many registers each mutator has.
    ///
    /// ```rust
    /// assert_eq!(rt; core.registers(), 8);
    /// ```
    pub fn registers(&self) -> u32
        ensures { result ≡ registers_of self.now.config }
    {
        self.config.registers()
    }

    /// The name of the object that a mutator's register holds, which is the one that the graph's register holds.
    ///
    /// ```rust
    /// core.step(new);
    /// assert_eq!(rt; core.name_at(0, r0), Some(0));
    /// ```
    pub fn name_at(&self, mutator: u32, register: Register) -> Option<u64>
        requires mutator { mutator < self.now.config.mutators }
        requires register { IsRegister (root_counts_of self.now.config) register }
        ensures name { result ≡ name_in self.now.table (register_of self.now mutator register) }
        ensures shows { (g : Graph) → ShowsGraph g self.now → result ≡ root_at g (register_place g.places mutator register.number) }
    {
        let value = self.register(mutator, register);
        self.name_of(&value)
    }
}
