//! How full ordinary regions are. Pauses can free none where they lack fewer words together than one has: so a whole collection needn't
//! try then.
//!
//! ```text
//!   region              0          1          2       3
//!                       ordinary   ordinary   free    ordinary    of 16 words each
//!   counts as live      15         12                 13          40 of 48 words: they lack 8
//! ```

ghost use Rattle.std.specs.Prelude.{◌≡◌, ◌<◌, ◌≤◌, ◌*◌, length, true};
ghost use Rattle.regions.specs.Table.{kind_of};
ghost use Rattle.collection.specs.Space.{IsDense, bound_by_kind, bound_sum, is_ordinary, ordinary_count};

use crate::numbers::Policy;
use heap_words::addr::RegionNo;
use regions::Kind;
use step_core::Core;

/// The live bound of a region, if it is ordinary.
fn bound_in(core: &Core, region: RegionNo) -> u32
    requires { region < length core.now.table.regions }
    ensures { result ≡ bound_by_kind (kind_of core.now.table region) core.now region }
{
    core.law_remembers();
    match core.table().kind(region) {
        Kind::Ordinary => core.marker().live_bound(core.table(), region),
        Kind::Free | Kind::First | Kind::Rest => 0,
    }
}

/// Whether a region is ordinary.
fn is_ordinary(core: &Core, region: RegionNo) -> bool
    requires { region < length core.now.table.regions }
    ensures { result ≡ is_ordinary (kind_of core.now.table region) }
{
    matches!(core.table().kind(region), Kind::Ordinary)
}

/// How many regions are ordinary.
fn count_ordinary(core: &Core) -> u32
    ensures { result ≡ ordinary_count core.now.table }
{
    let mut count = 0;
    for number in 0..core.table().region_count() {
        if is_ordinary(core, RegionNo::new(number)) {
            count += 1;
        }
    }
    count
}

/// The live bounds of all ordinary regions together, in words.
fn sum_bounds(core: &Core) -> u64
    ensures { result ≡ bound_sum core.now }
{
    let mut sum = 0;
    for number in 0..core.table().region_count() {
        sum += u64::from(bound_in(core, RegionNo::new(number)));
    }
    sum
}

/// Whether pauses have nothing to gain: ordinary regions lack fewer words than one has, or the heap is as the last whole collection left
/// it. In any case they are more than half live, if they are two or more, whatever the policy's numbers.
pub(crate) fn is_packed(core: &Core, policy: &Policy) -> bool
    ensures { result ≡ true → IsDense core.now }
{
    core.law_shaped();
    let regions = count_ordinary(core);
    let words = u64::from(regions) * u64::from(core.table().words_per_region());
    let bounds = sum_bounds(core);
    if words >= bounds.saturating_mul(2) && regions >= 2 {
        return false;
    }
    let more = bounds.saturating_add(u64::from(core.config().words));
    words < more || policy.left_so(core)
}
