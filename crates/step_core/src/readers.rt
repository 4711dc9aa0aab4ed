//! The layers of a core, to read.
//!
//! ```text
//!   core   | config | table | buffers | marker | cards | sets | roots | next |
//!             ^        ^       ^         ^        ^       ^      ^       ^
//!             each has a call of its name; what holds of them together is told by `remembers`
//! ```

ghost use Rattle.std.specs.Prelude.{◌≡◌};
ghost use Rattle.step_core.specs.Stands.{root_counts_of};

use crate::heap::Core;
use alloc_buffers::AllocBuffers;
use cards::CardTable;
use marker::Marker;
use regions::RegionTable;
use remembered_sets::RememberedSets;
use root_table::Roots;

impl Core {
    /// The regions with their tiles.
    ///
    /// ```rust
    /// core.step(new);
    /// assert_eq!(rt; core.table().free_count(), 3);
    /// ```
    pub fn table(&self) -> &RegionTable
        ensures { result.now ≡ self.now.table }
    {
        &self.table
    }

    /// The current region, and what is left of each mutator's buffer.
    ///
    /// ```rust
    /// core.step(new);
    /// assert!(rt; core.buffers().open_buffer(0).is_some());
    /// ```
    pub fn buffers(&self) -> &AllocBuffers
        ensures { result.now ≡ self.now.buffers }
    {
        &self.buffers
    }

    /// Marks, tops at mark start, scanned objects and deletion logs.
    ///
    /// ```rust
    /// core.step(begin);
    /// assert_eq!(rt; core.marker().scans(), 0);
    /// ```
    pub fn marker(&self) -> &Marker
        ensures { result.now ≡ self.now.marker }
    {
        &self.marker
    }

    /// Dirty cards, card logs and the queue of refinement.
    ///
    /// ```rust
    /// assert_eq!(rt; core.cards().logged(0), 0);
    /// ```
    pub fn cards(&self) -> &CardTable
        ensures { result.now ≡ self.now.cards }
    {
        &self.cards
    }

    /// The remembered set of each region.
    ///
    /// ```rust
    /// use heap_words::addr::RegionNo;
    ///
    /// let region = RegionNo::new(0);
    /// assert_eq!(rt; core.sets().card_count(region), 0);
    /// ```
    pub fn sets(&self) -> &RememberedSets
        ensures { result.now ≡ self.now.sets }
    {
        &self.sets
    }

    /// What the root places hold: the globals, then the registers of each mutator.
    ///
    /// ```rust
    /// core.step(new);
    /// assert_eq!(rt; core.roots().next_named(0), Some(16));
    /// ```
    pub fn roots(&self) -> &Roots
        ensures places { result.now.places ≡ root_counts_of self.now.config }
        ensures words { result.now.words ≡ self.now.roots }
    {
        &self.roots
    }

    /// The name of the next object.
    ///
    /// ```rust
    /// core.step(new);
    /// assert_eq!(rt; core.next_name(), 1);
    /// ```
    pub fn next_name(&self) -> u64
        ensures { result ≡ self.now.next }
    {
        self.next
    }
}
