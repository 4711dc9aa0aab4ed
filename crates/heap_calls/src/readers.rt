//! What a call looks for in a heap that it doesn't change.

ghost use Rattle.std.specs.Prelude.{◌≡◌, ◌↔◌, ◌<◌, IsTrue, length};
ghost use Rattle.regions.specs.Table.{kind_of};
ghost use Rattle.regions.specs.declared.row.Kind.TheVariants as kinds;
ghost use Rattle.heap_calls.specs.Steps.{IsName};
ghost use Rattle.heap_calls.specs.FreeRuns.{IsLongestRun};

use crate::answer::{Answer, answer_of};
use crate::heap::{is_known, no_step_of};
use heap_steps::{Register, Reply};
use heap_words::addr::RegionNo;
use regions::{Kind, RegionTable};
use step_core::Core;

/// Whether a region is free.
#[inline(always)]
fn is_free(table: &RegionTable, region: RegionNo) -> bool
    requires { region < length table.now.regions }
    ensures { IsTrue result ↔ (kind_of table.now region ≡ kinds.Free) }
{
    matches!(table.kind(region), Kind::Free)
}

/// How many free regions lie side by side, at most.
pub fn longest_run(table: &RegionTable) -> u32
    ensures { IsLongestRun table.now result }
{
    let mut longest = 0u32;
    let mut last = 0u32;
    for number in 0..table.region_count() {
        if is_free(table, RegionNo::new(number)) {
            last += 1;
            longest = longest.max(last);
        } else {
            last = 0;
        }
    }
    longest
}

/// The name that a register holds, if there is such a register.
#[inline(always)]
pub fn name_at(core: &Core, mutator: u32, which: u32) -> Answer
    ensures { IsName mutator which core.now result }
{
    if !is_known(core, mutator, which) {
        return no_step_of(core, true);
    }
    answer_of(Reply::Named(core.name_at(mutator, Register { number: which })))
}
