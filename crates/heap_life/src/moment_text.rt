//! Moments as lines. A region is told of a moment only where it isn't as it was told last.
//!
//! ```text
//!   m EVENT HANDED_OUT LIVE FREE QUEUED DIRTY COPIED MARKING SCANNED NEXT_NAME CURRENT      the heap's numbers; CURRENT a region, or -
//!   b MUTATOR ADDRESS LEFT                                                                  an open buffer
//!   q CARDS                                                                                 the queue of refinement, from its front
//!   l MUTATOR CARDS                                                                         a card log
//!   d MUTATOR ADDRESSES                                                                     a deletion log
//!   n PLACE ADDRESS ..                                                                      roots that aren't nil
//!   r ..                                                                                    regions, as `region_text` has them
//! ```

ghost use Rattle.std.specs.Prelude.{◌≡◌, ◌<◌, ◌&&◌, [], None, Some, All, IfOk};
ghost use Rattle.std.specs.Prelude.{length, take, flat_map, slice_index_or, nat_le};
ghost use Rattle.script_text.specs.Texts.{Adds, spaced_number};
ghost use Rattle.satb_log.specs.Logs as deletion_logs;
ghost use Rattle.heap_life.specs.Telling.{buffer_of, current_text, deletions_of, heap_text, log_of, queue_text, roots_text, state_text};
ghost use Rattle.heap_life.specs.RegionTexts.{region_text};
ghost use Rattle.heap_life.specs.Tolds.{TellsRegion, TellsRegions, end_text};
ghost use Rattle.heap_dump.specs.Lists.{named, text_below};
ghost use Rattle.heap_life.specs.Telling.{root_at, root_text, totals_text};

use crate::life::Moment;
use crate::region_text::put_region;
use alloc_buffers::AllocBuffers;
use heap_dump::{put_logged, put_queued};
use heap_words::addr::RegionNo;
use root_table::Roots;
use satb_log::logs::DeletionLogs;
use script_text::Text;
use std::alloc::{AllocError, Global};
use step_core::Core;

/// How many cards of a queue are told.
const MOST_CARDS: u32 = 512;

/// How many roots are told.
const MOST_ROOTS: u32 = 64;

/// The current region's number, or a dash.
fn put_current(buffers: &AllocBuffers, text: &mut Text)
    ensures { Adds text.old (current_text buffers.now.current) text.new }
{
    match buffers.current() {
        Some(number) => text.put_number(u64::from(number)),
        None => text.put(" -"),
    }
}

/// Begins a moment's line: how many events are done, and the heap's numbers.
fn put_totals(text: &mut Text, moment: &Moment)
    ensures { Adds text.old (totals_text moment.now) text.new }
{
    let numbers = moment.numbers;
    text.put("m");
    text.put_number(moment.event);
    text.put_number(numbers.handed_out);
    text.put_number(numbers.live);
    text.put_number(u64::from(numbers.free));
    text.put_number(u64::from(numbers.queued));
    text.put_number(numbers.dirty);
    text.put_number(moment.copied);
}

/// Ends a moment's line: how marking goes, the next name, and the current region.
fn put_state(core: &Core, text: &mut Text)
    ensures { Adds text.old (state_text core.now) text.new }
{
    text.put_number(if core.marking() { 1 } else { 0 });
    text.put_number(u64::from(core.scans()));
    text.put_number(core.next_name());
    put_current(core.buffers(), text);
    text.put("\n");
}

/// Adds a mutator's open buffer, if it has one.
fn put_buffer(core: &Core, text: &mut Text, mutator: u32)
    requires { mutator < core.now.config.mutators }
    ensures { Adds text.old (buffer_of core.now mutator) text.new }
{
    core.law_remembers();
    if let Some(buffer) = core.buffers().open_buffer(mutator) {
        text.put("b");
        text.put_number(u64::from(mutator));
        text.put_number(u64::from(buffer.next));
        text.put_number(u64::from(buffer.rest));
        text.put("\n");
    }
}

/// Adds the open buffers.
fn put_buffers(core: &Core, text: &mut Text)
    ensures { Adds text.old (text_below (buffer_of core.now) core.now.config.mutators) text.new }
{
    for mutator in 0..core.config().mutators {
        put_buffer(core, text, mutator);
    }
}

/// Adds the queue of refinement.
fn put_queue(core: &Core, text: &mut Text)
    ensures { Adds text.old (queue_text core.now.cards.queue) text.new }
{
    let cards = core.cards();
    let count = cards.queued();
    if count == 0 {
        return;
    }
    text.put("q");
    put_queued(cards, text, count.min(MOST_CARDS));
    text.put("\n");
}

/// Adds a mutator's card log.
fn put_log(core: &Core, text: &mut Text, mutator: u32)
    requires { mutator < core.now.config.mutators }
    ensures { Adds text.old (log_of core.now mutator) text.new }
{
    core.law_remembers();
    let cards = core.cards();
    if cards.logged(mutator) == 0 {
        return;
    }
    text.put("l");
    text.put_number(u64::from(mutator));
    put_logged(cards, text, mutator);
    text.put("\n");
}

/// Adds the card logs.
fn put_logs(core: &Core, text: &mut Text)
    ensures { Adds text.old (text_below (log_of core.now) core.now.config.mutators) text.new }
{
    for mutator in 0..core.config().mutators {
        put_log(core, text, mutator);
    }
}

/// Adds the addresses of a mutator's deletion log.
fn put_deleted(logs: &DeletionLogs, text: &mut Text, mutator: u32)
    requires { mutator < length logs.now }
    ensures { Adds text.old (flat_map spaced_number (deletion_logs.log_of logs.now mutator)) text.new }
{
    for place in 0..logs.len(mutator) {
        text.put_number(u64::from(logs.logged(mutator, place).word()));
    }
}

/// Adds a mutator's deletion log, if it isn't empty.
fn put_deletion_log(core: &Core, text: &mut Text, mutator: u32)
    requires { mutator < core.now.config.mutators }
    ensures { Adds text.old (deletions_of core.now mutator) text.new }
{
    core.law_remembers();
    let logs = &core.marker().logs;
    if logs.len(mutator) == 0 {
        return;
    }
    text.put("d");
    text.put_number(u64::from(mutator));
    put_deleted(logs, text, mutator);
    text.put("\n");
}

/// Adds the deletion logs.
fn put_deletion_logs(core: &Core, text: &mut Text)
    ensures { Adds text.old (text_below (deletions_of core.now) core.now.config.mutators) text.new }
{
    for mutator in 0..core.config().mutators {
        put_deletion_log(core, text, mutator);
    }
}

/// Adds a root, unless it is nil, by its place and where it leads.
fn put_root(roots: &Roots, text: &mut Text, place: usize)
    requires { place < length roots.now.words }
    ensures { Adds text.old (root_at place (slice_index_or roots.now.words place None)) text.new }
{
    if let Some(at) = roots.get(place) {
        text.put_number(place as u64);
        text.put_number(u64::from(at.word()));
    }
}

/// Adds the first roots that aren't nil.
fn put_named(roots: &Roots, text: &mut Text)
    ensures { Adds text.old (flat_map root_text (take 64 (named 0 roots.now.words))) text.new }
{
    let mut from = 0;
    let mut count = 0u32;
    while let Some(place) = roots.next_named(from) {
        if count >= MOST_ROOTS {
            return;
        }
        put_root(roots, text, place);
        count += 1;
        from = place + 1;
    }
}

/// Adds the roots that aren't nil.
fn put_roots(core: &Core, text: &mut Text)
    ensures { Adds text.old (roots_text core.now.roots) text.new }
{
    text.put("n");
    put_named(core.roots(), text);
    text.put("\n");
}

/// Adds what a moment has beside its regions.
fn put_heap(core: &Core, text: &mut Text, moment: &Moment)
    ensures { Adds text.old (heap_text core.now moment.now) text.new }
{
    put_totals(text, moment);
    put_state(core, text);
    put_buffers(core, text);
    put_queue(core, text);
    put_logs(core, text);
    put_deletion_logs(core, text);
    put_roots(core, text);
}

/// Tells a region, unless its lines are those that were told of it last. `block` has room for them.
fn tell_region(
    core: &Core,
    region: RegionNo,
    tiles: bool,
    block: &mut Text,
    last: &mut Text,
    text: &mut Text,
)
    requires { region < length core.now.table.regions }
    ensures { TellsRegion (region_text tiles core.now region) last.old last.new text.old text.new }
{
    block.clear();
    put_region(core, block, region, tiles);
    if block.is(last) {
        return;
    }
    last.clear();
    last.put_text(block);
    text.put_text(last);
}

/// Tells the regions that aren't as they were told last.
fn tell_regions(core: &Core, tiles: bool, block: &mut Text, last: &mut Vec<Text>, text: &mut Text)
    requires { length last.old.items ≡ length core.now.table.regions }
    ensures told { TellsRegions (region_text tiles core.now) (length core.now.table.regions) last.old.items last.new.items text.old
        text.new }
    ensures size { length last.new.items ≡ length last.old.items }
{
    let count = core.table().region_count();
    for number in 0..count {
        let region = RegionNo::new(number);
        tell_region(core, region, tiles, block, &mut last[number as usize], text);
    }
}

/// Adds that tiles are told no more, where they were.
fn put_end(text: &mut Text, before: bool, tiles: bool)
    ensures { Adds text.old (end_text before tiles) text.new }
{
    if before && !tiles {
        text.put("z\n");
    }
}

/// Whether tiles are told with a text of so many bytes, where they were told before.
fn tells_on(before: bool, length: usize, most: usize) -> bool
    ensures { result ≡ (before && nat_le length most) }
{
    before && length <= most
}

/// So many empty texts.
fn empty_texts(alloc: Global, count: u32) -> Result<Vec<Text>, AllocError>
    ensures size { IfOk result (λ texts. length texts.items ≡ count) }
    ensures empty { IfOk result (λ texts. All (λ text. text ≡ Some []) texts.items) }
{
    let mut texts = Vec::new(alloc);
    for _number in 0..count {
        texts.push(Text::new(alloc))?;
    }
    Ok(texts)
}

/// What is told of moments, and what was told last of each region.
#[derive(Drop)]
pub struct Teller {
    /// What was told.
    pub text: Text,
    /// Room for the lines of a region.
    pub block: Text,
    /// What was told last of each region.
    pub last: Vec<Text>,
    /// Whether tiles are told.
    pub tiles: bool,
    /// With how many bytes told tiles aren't any more.
    pub most: usize,
}

impl Teller {
    ghost use Rattle.heap_life.specs.Tolds.{nothing_told};
    ghost use Rattle.heap_life.specs.Tellers.{HasTold, TellsMoment};

    /// Nothing is told yet, of so many regions. Tiles are told until so many bytes are.
    pub fn new(alloc: Global, regions: u32, tiles: bool, most: usize) -> Result<Teller, AllocError>
        ensures told { IfOk result (HasTold (nothing_told tiles)) }
        ensures limit { IfOk result (λ x. x.most ≡ most) }
        ensures tiles { IfOk result (λ x. x.tiles ≡ tiles) }
        ensures size { IfOk result (λ x. length x.last.items ≡ regions) }
    {
        let last = empty_texts(alloc, regions)?;
        let text = Text::new(alloc);
        Ok(Teller {
            text,
            block: Text::new(alloc),
            last,
            tiles,
            most,
        })
    }

    /// What was told, unless memory was refused.
    pub fn into_text(self) -> Result<Vec<u8>, AllocError>
        ensures { IfOk result (λ bytes. self.text ≡ Some bytes.items) }
    {
        self.text.into_bytes()
    }

    /// Tells a moment.
    pub fn tell(&mut self, core: &Core, moment: &Moment)
        requires { length self.old.last.items ≡ length core.now.table.regions }
        ensures { TellsMoment core.now moment.now self.old self.new }
    {
        put_heap(core, &mut self.text, moment);
        let tiles = tells_on(self.tiles, self.text.len(), self.most);
        put_end(&mut self.text, self.tiles, tiles);
        self.tiles = tiles;
        tell_regions(core, tiles, &mut self.block, &mut self.last, &mut self.text);
    }
}
