//! The marker: what marking knows, and how it is made.

ghost use Rattle.std.specs.Prelude.{◌≡◌, ℕ, [], false, IfOk, length, replicate};
ghost use Rattle.heap_words.specs.Configs.{Suits};
ghost use Rattle.regions.specs.Table.{Table};
ghost use Rattle.mark_bitmap.specs.Tops.{below_previous};
ghost use Rattle.marker.specs.Stands.{MarkerStands};
ghost use Rattle.marker.specs.Views.{fresh_marker, is_by_address, waiting_room};

use crate::counts::ScanCount;
use crate::live::LiveWords;
use crate::waiting::WaitingRoots;
use heap_words::config::{Config, Format};
use mark_bitmap::bitmaps::Bitmaps;
use mark_bitmap::grey::Grey;
use mark_bitmap::tams::Tams;
use root_table::RootCounts;
use satb_log::logs::DeletionLogs;
use std::alloc::{AllocError, Global};

/// What marking knows beside the table and the root words. `MarkerStands` says what it has to do with the table.
pub struct Marker {
    /// The marks of the marking that is over, and of the one that runs or comes.
    pub bitmaps: Bitmaps,
    /// The tops at mark start that belong to them.
    pub tams: Tams,
    /// Which objects are scanned, while marking runs.
    pub grey: Grey,
    /// A deletion log for each mutator. Nothing is logged while marking doesn't run.
    pub logs: DeletionLogs,
    /// Whether marking runs.
    pub running: bool,
    /// How many objects were scanned since marking began.
    pub scans: ScanCount,
    /// How many words of each region are marked.
    pub live: LiveWords,
    /// The roots that marking has still to take. None waits while marking doesn't run.
    pub waiting: WaitingRoots,
}

/// Where it is dropped there is one call, and not a drop for each of its parts.
impl Drop for Marker {
    fn drop(self) {
        let Marker {
            bitmaps: _,
            tams: _,
            grey: _,
            logs: _,
            running: _,
            scans: _,
            live: _,
            waiting: _,
        } = self;
    }
}

/// Whether grey objects are scanned by rising address. Else the one that was found last comes next, which a processor fetches sooner.
pub(crate) fn is_by_address(format: Format) -> bool
    ensures { result ≡ is_by_address format }
{
    match format {
        Format::V1 | Format::V2 { .. } => true,
        Format::V3 { .. } => false,
    }
}

/// For how many roots there is room to wait: for all, or for none where they are marked at once.
fn waiting_room(config: &Config) -> usize
    ensures { result ≡ waiting_room config.now }
{
    if is_by_address(config.format) {
        return 0;
    }
    RootCounts::of(config).count()
}

impl Marker {
    /// A marker for a heap of these sizes: it doesn't run, nothing is marked, and every object is kept. No call takes
    /// memory afterwards.
    #[tactic(auto, unfolding(crate::specs::Views::fresh_marker))]
    pub fn new(alloc: Global, config: &Config) -> Result<Marker, AllocError>
        requires { Suits config.now }
        ensures fresh { IfOk result (λ marker. marker ≡ fresh_marker config.now) }
        ensures stands { IfOk result (λ marker. (t : Table) → length t.regions ≡ config.now.regions → t.words_per_region ≡ config.now.words
            → MarkerStands t marker) }
        ensures all_kept { IfOk result (λ marker. (t : Table) (a : ℕ) → t.words_per_region ≡ config.now.words
            → below_previous t marker.tams a ≡ false) }
        ensures idle { IfOk result (λ marker. marker.running ≡ false) }
        ensures logs { IfOk result (λ marker. marker.logs ≡ replicate config.now.mutators []) }
        ensures room { IfOk result (λ marker. marker.waiting.room ≡ waiting_room config.now) }
    {
        let count = config.regions * config.words;
        Ok(Marker {
            bitmaps: Bitmaps::new(alloc, count)?,
            tams: Tams::new(alloc, config.regions, config.words)?,
            grey: Grey::new(alloc, count, is_by_address(config.format))?,
            logs: DeletionLogs::new(alloc, config.mutators)?,
            running: false,
            scans: ScanCount::new(),
            live: LiveWords::new(alloc, config.regions)?,
            waiting: WaitingRoots::new(alloc, waiting_room(config))?,
        })
    }

    /// The memory of pages of marks that are no longer needed goes back to the system. What marking knows stays, and so does its room.
    /// Where the memory that this asks for meanwhile is refused, less goes back.
    pub fn give_back(&mut self, alloc: Global) -> Result<(), AllocError>
        ensures { self.new ≡ self.old }
    {
        self.bitmaps.give_back(alloc)?;
        self.grey.give_back(alloc)
    }

    /// How many objects were scanned since marking began.
    pub fn scans(&self) -> u32
        ensures { result ≡ self.now.scans.since }
    {
        self.scans.since()
    }
}
