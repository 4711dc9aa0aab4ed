//! The layers of a new core, made in groups.
//!
//! Making one may be refused for memory, and then those that were made before it are dropped. Each function here makes two or three, and
//! `Core::new` three: the proof of one that makes all eight grows with each way out, past any useful time.

ghost use Rattle.std.specs.Prelude.{◌≡◌, ◌==◌, ◌<◌, ◌≤◌, ◌*◌, ◌/◌, ◌%◌, ◌^◌, if◌then◌else◌, length, not, None, [], false, replicate, IfOk};
ghost use Rattle.std.specs.Vec.{vec_capacity};
ghost use Rattle.heap_words.specs.Configs.{Suits, card_words, heap_limit};
ghost use Rattle.regions.specs.Table.{Table};
ghost use Rattle.alloc_buffers.specs.Placement.{BuffersStand, closed};
ghost use Rattle.marker.specs.Stands.{MarkerStands};
ghost use Rattle.marker.specs.Views.{fresh_marker, waiting_room};
ghost use Rattle.cards.specs.Cards.{clean_cards};
ghost use Rattle.remembered_sets.specs.Sets.{empty_sets};
ghost use Rattle.region_choice.specs.Ages.{fresh_ages};
ghost use Rattle.graph_runs.specs.State.{root_places};
ghost use Rattle.step_core.specs.Stands.{root_counts_of};
ghost use Rattle.step_core.specs.Fresh.{filter_rows};

use alloc_buffers::AllocBuffers;
use cards::CardTable;
use evacuation::PauseRoom;
use heap_words::config::{Config, Format};
use marker::Marker;
use region_choice::{LiveRow, RegionAges};
use remembered_sets::RememberedSets;
use root_table::{RootCounts, Roots};
use std::alloc::{AllocError, Global};

/// What the mutators' steps work on, beside the table of regions.
#[derive(Drop)]
pub(crate) struct Mutating {
    pub(crate) buffers: AllocBuffers,
    pub(crate) roots: Roots,
    pub(crate) next: u64,
}

/// What remembers cross-region pointers.
#[derive(Drop)]
pub(crate) struct Remembering {
    pub(crate) cards: CardTable,
    pub(crate) sets: RememberedSets,
}

/// What a pause works in.
#[derive(Drop)]
pub(crate) struct Pausing {
    pub(crate) room: PauseRoom,
    pub(crate) rows: Vec<LiveRow>,
    pub(crate) ages: RegionAges,
}

/// What the collector works on, beside the table of regions.
#[derive(Drop)]
pub(crate) struct Collecting {
    pub(crate) marker: Marker,
    pub(crate) remembering: Remembering,
    pub(crate) pausing: Pausing,
}

fn first_name(config: &Config) -> u64
    ensures { result ≡ config.now.first_name }
{
    config.first_name
}

/// No open buffer, each root nil, and the first name the next.
pub(crate) fn new_mutating(alloc: Global, config: &Config) -> Result<Mutating, AllocError>
    requires { Suits config.now }
    ensures closed { IfOk result (λ m. m.buffers ≡ closed config.now.buffer config.now.mutators) }
    ensures stand { IfOk result (λ m. (t : Table) → BuffersStand t m.buffers) }
    ensures roots { IfOk result (λ m. m.roots
        ≡ record { places = root_counts_of config.now; words = replicate (root_places (root_counts_of config.now)) None }) }
    ensures next { IfOk result (λ m. m.next ≡ config.now.first_name) }
    ensures names { IfOk result (λ m. m.next < 2 ^ 64) }
{
    let buffers = AllocBuffers::new(alloc, config)?;
    let places = RootCounts::of(config);
    let roots = Roots::new(alloc, places)?;
    let next = first_name(config);
    Ok(Mutating {
        buffers,
        roots,
        next,
    })
}

/// 21 rows for 32 words of a card, if a region's cards are whole groups of 64, else none.
fn rows_of_cards(card_words: u32, cards_per_region: u32) -> u32
    requires { card_words ≤ 512 }
    ensures rows { result ≡ (if not (cards_per_region % 64 == 0) then 0 else 21 * card_words / 32) }
    ensures whole { 0 < result → cards_per_region % 64 ≡ 0 }
{
    if cards_per_region % 64 != 0 {
        return 0;
    }
    21 * card_words / 32
}

/// How many rows of the second kind a remembered set's filter has: none where a filter would gain little, in the first two formats, whose
/// heaps are small, or with few cards a region. Else a filter takes 63 bits for 32 words of its region, 3 percent of the heap's words: a
/// pause of some regions then passes over nearly all cards that lead into others alone.
fn rows_of_filter(config: &Config, cards_per_region: u32) -> u32
    requires suits { Suits config.now }
    requires cards { cards_per_region ≡ config.now.words / card_words config.now }
    ensures rows { result ≡ filter_rows config.now }
    ensures whole { 0 < result → cards_per_region % 64 ≡ 0 }
    ensures formats { heap_limit config.now.format ≤ 2 ^ 24 → result ≡ 0 }
{
    match config.format {
        Format::V1 | Format::V2 { .. } => 0,
        Format::V3 { .. } => rows_of_cards(config.card_words(), cards_per_region),
    }
}

/// Each card clean, and each remembered set empty.
fn new_remembering(alloc: Global, config: &Config) -> Result<Remembering, AllocError>
    requires { Suits config.now }
    ensures cards { IfOk result (λ r. r.cards
        ≡ clean_cards (config.now.regions * (config.now.words / card_words config.now)) config.now.mutators) }
    ensures sets { IfOk result (λ r. r.sets ≡ empty_sets config.now.regions (config.now.words / card_words config.now)
        (filter_rows config.now)) }
{
    let cards_per_region = config.words / config.card_words();
    let cards = CardTable::new(alloc, config.regions * cards_per_region, config.mutators)?;
    let rows = rows_of_filter(config, cards_per_region);
    let sets = RememberedSets::new(alloc, config.regions, cards_per_region, rows)?;
    Ok(Remembering { cards, sets })
}

/// Room for a pause over every region and every card, and no region young.
fn new_pausing(alloc: Global, config: &Config) -> Result<Pausing, AllocError>
    requires { Suits config.now }
    ensures room { IfOk result (λ p. p.room
        ≡ record { regions = config.now.regions; cards = config.now.regions * (config.now.words / card_words config.now) }) }
    ensures rows { IfOk result (λ p. vec_capacity p.rows ≡ config.now.regions) }
    ensures ages { IfOk result (λ p. p.ages ≡ fresh_ages config.now.regions) }
{
    let cards_per_region = config.words / config.card_words();
    let room = PauseRoom::new(alloc, config.regions, config.regions * cards_per_region)?;
    let rows = Vec::with_capacity(alloc, config.regions as usize)?;
    let ages = RegionAges::new(alloc, config.regions)?;
    Ok(Pausing { room, rows, ages })
}

/// Marking doesn't run and nothing is marked, nothing is remembered, a pause has room, and no region is young.
pub(crate) fn new_collecting(alloc: Global, config: &Config) -> Result<Collecting, AllocError>
    requires { Suits config.now }
    ensures marker { IfOk result (λ c. c.marker ≡ fresh_marker config.now) }
    ensures stands { IfOk result (λ c. (t : Table) → length t.regions ≡ config.now.regions → t.words_per_region ≡ config.now.words
        → MarkerStands t c.marker) }
    ensures idle { IfOk result (λ c. c.marker.running ≡ false) }
    ensures logs { IfOk result (λ c. c.marker.logs ≡ replicate config.now.mutators []) }
    ensures spare { IfOk result (λ c. c.marker.waiting.room ≡ waiting_room config.now) }
    ensures cards { IfOk result (λ c. c.remembering.cards
        ≡ clean_cards (config.now.regions * (config.now.words / card_words config.now)) config.now.mutators) }
    ensures sets { IfOk result (λ c. c.remembering.sets ≡ empty_sets config.now.regions (config.now.words / card_words config.now)
        (filter_rows config.now)) }
    ensures room { IfOk result (λ c. c.pausing.room
        ≡ record { regions = config.now.regions; cards = config.now.regions * (config.now.words / card_words config.now) }) }
    ensures rows { IfOk result (λ c. vec_capacity c.pausing.rows ≡ config.now.regions) }
    ensures ages { IfOk result (λ c. c.pausing.ages ≡ fresh_ages config.now.regions) }
{
    let marker = Marker::new(alloc, config)?;
    let remembering = new_remembering(alloc, config)?;
    let pausing = new_pausing(alloc, config)?;
    Ok(Collecting {
        marker,
        remembering,
        pausing,
    })
}
