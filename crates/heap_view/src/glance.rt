//! What of a heap is viewed, and the text of that.

ghost use Rattle.std.specs.Prelude.{◌≡◌, ◌<◌, ◌&&◌, ℕ, List, length, IfOk, OnOk};
ghost use Rattle.script_text.specs.Texts.{Adds};
ghost use Rattle.heap_dump.specs.Lists.{text_below};
ghost use Rattle.heap_view.specs.Glances.{one_region, numbered_region, is_folded, listed_region};
ghost use Rattle.heap_view.specs.Glances.{AreViewed, IsViewText, total_words, total_regions, below_regions, viewed_regions};
ghost use Rattle.heap_view.specs.Glances.{has_head, head_lines};

use crate::card_lines::put_queue;
use crate::census_lines::put_census;
use crate::folds::put_folded;
use crate::heads::{put_sizes, put_state};
use crate::object_lines::put_object;
use crate::region_lines::{put_region, put_region_line};
use crate::root_lines::put_actors;
use crate::snapshot_lines::put_snapshot;
use crate::way_lines::put_path;
use heap_steps::is_third;
use heap_words::addr::RegionNo;
use script_text::Text;
use std::alloc::{AllocError, Global};
use step_core::Core;
use type_names::Types;

/// What of a heap is viewed.
#[derive(Clone, Copy, Debug, PartialEq, Eq)]
pub enum Viewed {
    /// Its regions.
    Regions {
        /// This region alone. `None`: each region, and what is beside them.
        region: Option<u32>,
        /// A line a region, and what they add up to, in place of tiles, sets and roots. Of the third format free regions side by side are
        /// one line.
        summary: bool,
    },
    /// The kept object of a name: all its fields, and who names it.
    Object(u64),
    /// A shortest way from a root to the kept object of a name, by pointers.
    Path(u64),
    /// How many kept objects there are of each class, and how many words they have.
    Census,
    /// The kept objects and who names whom, in JSON that other tools read, and nothing before it.
    Snapshot,
}

/// What of a heap is viewed, and when.
#[derive(Clone, Copy, Debug, PartialEq, Eq)]
pub struct Glance {
    /// After so many steps, or where there are fewer after the last one. `None`: after the last one.
    pub at: Option<u32>,
    pub viewed: Viewed,
}

/// Puts a region's lines, or its one line.
fn put_one(core: &Core, text: &mut Text, region: RegionNo, summary: bool)
    requires { region < length core.now.table.regions }
    ensures { Adds text.old (one_region summary core.now region) text.new }
{
    if summary {
        put_region_line(core, text, region);
        return;
    }
    put_region(core, text, region);
}

/// Puts the region of a number, if there is one.
fn put_numbered(core: &Core, text: &mut Text, number: u32, summary: bool)
    ensures { Adds text.old (numbered_region summary core.now number) text.new }
{
    core.table().law();
    if number < core.table().region_count() {
        put_one(core, text, RegionNo::new(number), summary);
        return;
    }
    text.put("region ");
    text.put_digits(number as u64);
    text.put(": there is none\n");
}

/// Whether free regions side by side are one line: in a summary of a heap of the third format.
fn is_folded(core: &Core, summary: bool) -> bool
    ensures { result ≡ is_folded summary core.now }
{
    summary && is_third(core.config().format)
}

/// Puts a region where all are viewed.
fn put_listed(core: &Core, text: &mut Text, region: RegionNo, summary: bool)
    requires { region < length core.now.table.regions }
    ensures { Adds text.old (listed_region summary core.now region) text.new }
{
    if is_folded(core, summary) {
        put_folded(core, text, region);
        return;
    }
    put_one(core, text, region, summary);
}

/// Puts each region.
fn put_each(core: &Core, text: &mut Text, summary: bool)
    ensures { Adds text.old (text_below (listed_region summary core.now) (length core.now.table.regions)) text.new }
{
    for number in 0..core.table().region_count() {
        put_listed(core, text, RegionNo::new(number), summary);
    }
}

/// Puts how many words are handed out and live in all regions.
fn put_total_words(core: &Core, text: &mut Text)
    ensures { Adds text.old (total_words core.now) text.new }
{
    let config = core.config();
    text.put("in all: ");
    text.put_digits(core.used_words());
    text.put(" of ");
    text.put_digits(config.regions as u64 * config.words as u64);
    text.put(" words handed out, ");
    text.put_digits(core.live_words());
    text.put(" live, ");
}

/// Puts how many regions are free, and how many cards wait.
fn put_total_regions(core: &Core, text: &mut Text)
    ensures { Adds text.old (total_regions core.now) text.new }
{
    text.put_digits(u64::from(core.free_regions()));
    text.put(" of ");
    text.put_digits(u64::from(core.config().regions));
    text.put(" regions free, ");
    text.put_digits(u64::from(core.queued()));
    text.put(" cards queued\n");
}

/// Puts what is below the regions.
fn put_below(core: &Core, text: &mut Text, summary: bool)
    ensures { Adds text.old (below_regions summary core.now) text.new }
{
    if summary {
        put_total_words(core, text);
        put_total_regions(core, text);
        return;
    }
    put_queue(core.cards(), text);
    put_actors(core, text);
}

/// Puts the region that is asked for, or each and what is below them.
fn put_regions(core: &Core, text: &mut Text, region: Option<u32>, summary: bool)
    ensures { Adds text.old (viewed_regions region summary core.now) text.new }
{
    match region {
        Some(number) => put_numbered(core, text, number, summary),
        None => {
            put_each(core, text, summary);
            put_below(core, text, summary);
        }
    }
}

/// Puts what of a heap is viewed. The error is want of memory.
fn put_viewed(
    alloc: Global,
    core: &Core,
    types: &Types,
    text: &mut Text,
    viewed: Viewed,
) -> Result<(), AllocError>
    ensures { OnOk result ((lines : List ℕ) × AreViewed types.now viewed core.now lines × Adds text.old lines text.new) }
{
    match viewed {
        Viewed::Regions { region, summary } => {
            put_regions(core, text, region, summary);
            Ok(())
        }
        Viewed::Object(name) => {
            put_object(core, text, name);
            Ok(())
        }
        Viewed::Path(name) => put_path(alloc, core, text, name),
        Viewed::Census => put_census(alloc, core, types, text),
        Viewed::Snapshot => put_snapshot(alloc, core, types, text),
    }
}

/// Whether lines of the heap as a whole come before what is viewed: but for a snapshot.
fn has_head(viewed: Viewed) -> bool
    ensures { result ≡ has_head viewed }
{
    match viewed {
        Viewed::Snapshot => false,
        _ => true,
    }
}

/// Puts the sizes and the state, where they come before what is viewed.
fn put_head(core: &Core, text: &mut Text, viewed: Viewed)
    ensures { Adds text.old (head_lines viewed core.now) text.new }
{
    if !has_head(viewed) {
        return;
    }
    put_sizes(core, text);
    put_state(core, text);
}

/// The text of what of a heap is viewed, with the names of these types in a census and in a snapshot. The error is want of memory.
pub fn view_text(
    alloc: Global,
    core: &Core,
    glance: &Glance,
    types: &Types,
) -> Result<Vec<u8>, AllocError>
    ensures { IfOk result (λ text. IsViewText glance.now types.now core.now text.items) }
{
    let mut text = Text::new(alloc);
    put_head(core, &mut text, glance.viewed);
    put_viewed(alloc, core, types, &mut text, glance.viewed)?;
    text.into_bytes()
}
