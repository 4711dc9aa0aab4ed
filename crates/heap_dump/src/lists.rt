//! Rows of numbers, each after a space; a region's remembered set.

ghost use Rattle.std.specs.Prelude.{◌<◌, ◌≤◌, [], length, take, flat_map, slice_index_or};
ghost use Rattle.remembered_sets.specs.Sets.{set_of};
ghost use Rattle.script_text.specs.Texts.{Adds, spaced_number};
ghost use Rattle.heap_dump.specs.Lists.{set_text, source_text, text_below};

use cards::CardTable;
use heap_words::addr::RegionNo;
use remembered_sets::RememberedSets;
use script_text::Text;
use step_core::Core;

/// Adds the cards that are one by one in a region's remembered set.
fn put_cards(sets: &RememberedSets, text: &mut Text, region: RegionNo)
    requires { region < length sets.now.sets }
    ensures { Adds text.old (flat_map spaced_number (set_of sets.now region).inline) text.new }
{
    for place in 0..sets.card_count(region) {
        text.put_number(u64::from(sets.card(region, place).number()));
    }
}

/// Adds a region after a text, if all its cards are in a region's set.
fn put_source(core: &Core, text: &mut Text, region: RegionNo, source: u32, before: &str)
    requires region { region < length core.now.table.regions }
    requires source { source < length core.now.table.regions }
    ensures { Adds text.old (source_text (set_of core.now.sets region) before.now source) text.new }
{
    core.law_remembers();
    if core.sets().is_whole(region, RegionNo::new(source)) {
        text.put(before);
        text.put_digits(u64::from(source));
    }
}

/// Adds each region after a text, if all its cards are in a region's set.
fn put_sources(core: &Core, text: &mut Text, region: RegionNo, before: &str)
    requires { region < length core.now.table.regions }
    ensures { Adds text.old (text_below (source_text (set_of core.now.sets region) before.now) (length core.now.table.regions)) text.new }
{
    for source in 0..core.table().region_count() {
        put_source(core, text, region, source, before);
    }
}

/// Adds a region's remembered set as a line, if it isn't empty: a title, its cards, what is between, and each region all of whose cards are
/// in it after a text. Regions are in it only beside cards.
pub fn put_set(
    core: &Core,
    text: &mut Text,
    region: RegionNo,
    title: &str,
    between: &str,
    before: &str,
)
    requires { region < length core.now.table.regions }
    ensures { Adds text.old (set_text core.now title.now between.now before.now region) text.new }
{
    core.law_remembers();
    let sets = core.sets();
    if sets.card_count(region) == 0 {
        return;
    }
    text.put(title);
    put_cards(sets, text, region);
    text.put(between);
    put_sources(core, text, region, before);
    text.put("\n");
}

/// Adds so many cards of the queue of refinement, from its front on.
pub fn put_queued(cards: &CardTable, text: &mut Text, count: u32)
    requires { count ≤ length cards.now.queue }
    ensures { Adds text.old (flat_map spaced_number (take count cards.now.queue)) text.new }
{
    for place in 0..count {
        text.put_number(u64::from(cards.queued_card(place).number()));
    }
}

/// Adds the cards of a mutator's log.
pub fn put_logged(cards: &CardTable, text: &mut Text, mutator: u32)
    requires { mutator < length cards.now.logs }
    ensures { Adds text.old (flat_map spaced_number (slice_index_or cards.now.logs mutator [])) text.new }
{
    for place in 0..cards.logged(mutator) {
        text.put_number(u64::from(cards.logged_card(mutator, place).number()));
    }
}
