//! The fields of an object that aren't nil, and those that lead elsewhere.

ghost use Rattle.std.specs.Prelude.{◌≡◌, ◌+◌, ◌-◌, ◌<◌, ◌≤◌, ℕ, false, IfSome, MatchOption, Some, None, length, slice_get};
ghost use Rattle.regions.specs.Table.{fields_at};
ghost use Rattle.refinement.specs.Refining.{LeadInto};

use heap_words::addr::Addr;
use regions::RegionTable;
use work_counter::Work;

/// The first field of an object that isn't nil, from `start` on and below `end`, with what it names; none where there is none. Each
/// field's word is read once.
#[inline(always)]
pub fn next_link(table: &RegionTable, object: Addr, start: u32, end: u32) -> Option<(u32, Addr)>
    requires { end ≤ length (fields_at table.now object) }
    ensures low { IfSome result (λ link. start ≤ link.0) }
    ensures high { IfSome result (λ link. link.0 < end) }
    ensures link { IfSome result (λ link. slice_get (fields_at table.now object) link.0 ≡ Some (Some link.1)) }
    ensures nil { (field : ℕ) → start ≤ field → field < end → IfSome result (λ link. field < link.0)
        → slice_get (fields_at table.now object) field ≡ Some None }
{
    next_link_counted(table, object, start, end, &mut Work::new())
}

/// The same, for one who counts: a turn for each field that it reads.
#[inline(always)]
pub fn next_link_counted(
    table: &RegionTable,
    object: Addr,
    start: u32,
    end: u32,
    work: &mut Work,
) -> Option<(u32, Addr)>
    requires { end ≤ length (fields_at table.now object) }
    ensures low { IfSome result (λ link. start ≤ link.0) }
    ensures high { IfSome result (λ link. link.0 < end) }
    ensures link { IfSome result (λ link. slice_get (fields_at table.now object) link.0 ≡ Some (Some link.1)) }
    ensures nil { (field : ℕ) → start ≤ field → field < end → IfSome result (λ link. field < link.0)
        → slice_get (fields_at table.now object) field ≡ Some None }
    ensures work { MatchOption result (work.new ≤ work.old + (end - start)) (λ link. work.new + start ≤ work.old + link.0 + 1) }
{
    if start >= end {
        return None;
    }
    let mut field = start;
    // The end is looked for after each field: so what the table keeps is read once for all of them.
    'fields: loop {
        work.tick();
        if let Some(target) = table.get_field(object, field) {
            return Some((field, target));
        }
        field += 1;
        if field >= end {
            return None;
        }
    }
}

/// Whether one of an object's fields from `start` on, below `end`, leads into a region that is neither of two. A turn for each field that
/// it reads.
#[inline(always)]
pub(crate) fn leads_elsewhere(
    table: &RegionTable,
    object: Addr,
    start: u32,
    end: u32,
    home: u32,
    last: u32,
    work: &mut Work,
) -> bool
    requires { end ≤ length (fields_at table.now object) }
    ensures near { result ≡ false → LeadInto table.now object start end home last }
    ensures work { work.new ≤ work.old + (end - start) }
{
    if start >= end {
        return false;
    }
    let mut field = start;
    // The end is looked for after each field: so what the table keeps is read once for all of them.
    'fields: loop {
        work.tick();
        if let Some(target) = table.get_field(object, field) {
            let region = table.region_of(target).number();
            if region != home && region != last {
                return true;
            }
        }
        field += 1;
        if field >= end {
            return false;
        }
    }
}
