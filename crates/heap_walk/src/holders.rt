//! Who names an object.

ghost use Rattle.std.specs.Prelude.{◌≡◌, ◌<◌, IsSome, IfSome, None, Some, length, slice_get, slice_index_or};
ghost use Rattle.heap_model.specs.Graph.{root_places};
ghost use Rattle.regions.specs.Table.{object_at};
ghost use Rattle.step_core.specs.Stands.{kept_of};
ghost use Rattle.step_core.specs.Mutators.{root_of};
ghost use Rattle.heap_walk.specs.Holders.{root_holder, both_counts, field_holder, first_link, holder_if};
ghost use Rattle.heap_walk.specs.Holders.{leads_to, link_count, links_at, list_of, root_holders};

use heap_words::addr::{Addr, Ptr};
use root_table::RootCounts;
use step_core::Core;

/// What names an object: a global, kind 0; a register of a mutator, kind 1; or an object by its name, by its lowest pointer that does,
/// kind 2,
/// or if none does by its lowest weak slot, kind 3, and by how many of both do.
#[repr(C)]
#[derive(Clone, Copy, Debug, PartialEq, Eq, Drop)]
pub struct Holder {
    pub name: u64,
    pub kind: u32,
    pub mutator: u32,
    pub place: u32,
    pub fields: u32,
}

/// How many pointers, or weak slots, an object has.
///
/// ```rust
/// core.step(new);
/// assert_eq!(rt; links(&core, Addr::new(0), false), 1);
/// ```
pub fn links(core: &Core, object: Addr, weak: bool) -> u32
    requires { IsSome (object_at core.now.table object) }
    ensures { result ≡ length (links_at weak core.now object) }
{
    if weak {
        core.table().weak_count(object)
    } else {
        core.table().pointer_count(object)
    }
}

/// A pointer of an object, or what a weak slot shows.
///
/// ```rust
/// core.step(new);
/// assert_eq!(rt; link_at(&core, Addr::new(0), false, 0), None);
/// ```
pub fn link_at(core: &Core, object: Addr, weak: bool, index: u32) -> Ptr
    requires { index < length (links_at weak core.now object) }
    ensures { slice_get (links_at weak core.now object) index ≡ Some result }
{
    if weak {
        core.weak_shown(object, index)
    } else {
        core.table().get_ptr(object, index)
    }
}

/// Whether a link of a kept object leads to the object of a name.
fn leads_to(core: &Core, object: Addr, weak: bool, index: u32, name: u64) -> bool
    requires kept { IsSome (kept_of core.now object) }
    requires index { index < length (links_at weak core.now object) }
    ensures { result ≡ leads_to core.now.table name (slice_index_or (links_at weak core.now object) index None) }
{
    core.law_remembers();
    match link_at(core, object, weak, index) {
        None => false,
        Some(at) => core.table().name(at) == name,
    }
}

/// The lowest link of a kept object that leads to the object of a name.
fn first_link(core: &Core, object: Addr, weak: bool, name: u64) -> Option<u32>
    requires { IsSome (kept_of core.now object) }
    ensures { result ≡ first_link core.now name object weak }
{
    for index in 0..links(core, object, weak) {
        if leads_to(core, object, weak, index, name) {
            return Some(index);
        }
    }
    None
}

/// How many links of a kept object lead to the object of a name.
fn link_count(core: &Core, object: Addr, weak: bool, name: u64) -> u32
    requires { IsSome (kept_of core.now object) }
    ensures { result ≡ link_count core.now name object weak }
{
    let mut count = 0;
    for index in 0..links(core, object, weak) {
        if leads_to(core, object, weak, index, name) {
            count += 1;
        }
    }
    count
}

/// A kept object, by a link of its, and by how many lead to the object of a name.
fn holder_by(core: &Core, object: Addr, kind: u32, place: u32, name: u64) -> Holder
    requires { IsSome (kept_of core.now object) }
    ensures { IfSome (kept_of core.now object) (λ s. result ≡ field_holder s.name kind place (both_counts core.now name object)) }
{
    core.law_shaped();
    let fields = link_count(core, object, false, name) + link_count(core, object, true, name);
    Holder {
        name: core.table().name(object),
        kind,
        mutator: 0,
        place,
        fields,
    }
}

/// A kept object, if it names the object of a name.
pub(crate) fn holder_in(core: &Core, object: Addr, name: u64) -> Option<Holder>
    requires { IsSome (kept_of core.now object) }
    ensures { holder_if core.now name object (kept_of core.now object) ≡ list_of result }
{
    match first_link(core, object, false, name) {
        Some(index) => Some(holder_by(core, object, 2, index, name)),
        None => match first_link(core, object, true, name) {
            Some(index) => Some(holder_by(core, object, 3, index, name)),
            None => None,
        },
    }
}

/// A root place: a global, or a register of a mutator.
///
/// ```rust
/// assert_eq!(rt; root_holder(core.roots().places(), 0).kind, 0);
/// ```
pub fn root_holder(places: RootCounts, place: u32) -> Holder
    requires { place < root_places places }
    ensures { result ≡ root_holder places place }
{
    let globals = places.globals();
    if place < globals {
        return Holder {
            name: 0,
            kind: 0,
            mutator: 0,
            place,
            fields: 1,
        };
    }
    let behind = place - globals;
    let registers = places.registers();
    Holder {
        name: 0,
        kind: 1,
        mutator: behind / registers,
        place: behind % registers,
        fields: 1,
    }
}

/// Whether a root place holds the object of a name.
fn root_leads_to(core: &Core, place: u32, name: u64) -> bool
    requires { place < length core.now.roots }
    ensures { result ≡ leads_to core.now.table name (root_of core.now place) }
{
    core.law_remembers();
    match core.roots().get(place as usize) {
        None => false,
        Some(at) => core.table().name(at) == name,
    }
}

/// A root place, if it names the object of a name.
pub(crate) fn root_holder_at(core: &Core, place: u32, name: u64) -> Option<Holder>
    requires { place < length core.now.roots }
    ensures { root_holders core.now name place ≡ list_of result }
{
    if root_leads_to(core, place, name) {
        Some(root_holder(core.roots().places(), place))
    } else {
        None
    }
}
