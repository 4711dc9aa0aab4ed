//! A folded summary: free regions side by side are one line.

ghost use Rattle.std.specs.Prelude.{◌≡◌, ◌<◌, ◌≤◌, length};
ghost use Rattle.script_text.specs.Texts.{Adds};
ghost use Rattle.heap_view.specs.Folds.{is_free_at, is_below_free, free_run, run_line, free_line, folded_line};

use crate::region_lines::put_region_line;
use heap_words::addr::RegionNo;
use regions::{Kind, RegionTable};
use script_text::Text;
use step_core::Core;

/// Whether a region is free.
fn is_free(table: &RegionTable, region: RegionNo) -> bool
    requires { region < length table.now.regions }
    ensures { result ≡ is_free_at table.now region }
{
    match table.kind(region) {
        Kind::Free => true,
        _ => false,
    }
}

/// Whether the region below one is free.
fn is_below_free(table: &RegionTable, region: RegionNo) -> bool
    requires { region < length table.now.regions }
    ensures { result ≡ is_below_free table.now region }
{
    let number = region.number();
    if number == 0 {
        return false;
    }
    is_free(table, RegionNo::new(number - 1))
}

/// How many free regions are side by side from one on.
fn free_run(table: &RegionTable, from: u32) -> u32
    requires { from ≤ length table.now.regions }
    ensures { result ≡ free_run table.now from }
{
    let count = table.region_count();
    for number in from..count {
        if !is_free(table, RegionNo::new(number)) {
            return number - from;
        }
    }
    count - from
}

/// Puts free regions side by side, so many from one on, as one line.
fn put_run(core: &Core, text: &mut Text, region: RegionNo, count: u32)
    requires { region < length core.now.table.regions }
    ensures { Adds text.old (run_line core.now region count) text.new }
{
    if count < 2 {
        put_region_line(core, text, region);
        return;
    }
    let first = region.number() as u64;
    text.put("regions ");
    text.put_digits(first);
    text.put(" to ");
    text.put_digits(first + count as u64 - 1);
    text.put(": free\n");
}

/// Puts the line of a free region and of those side by side with it, if it is the lowest of them.
fn put_free(core: &Core, text: &mut Text, region: RegionNo)
    requires { region < length core.now.table.regions }
    ensures { Adds text.old (free_line core.now region) text.new }
{
    if is_below_free(core.table(), region) {
        return;
    }
    let count = free_run(core.table(), region.number());
    put_run(core, text, region, count);
}

/// Puts a region of a folded summary.
pub(crate) fn put_folded(core: &Core, text: &mut Text, region: RegionNo)
    requires { region < length core.now.table.regions }
    ensures { Adds text.old (folded_line core.now region) text.new }
{
    if is_free(core.table(), region) {
        put_free(core, text, region);
        return;
    }
    put_region_line(core, text, region);
}
