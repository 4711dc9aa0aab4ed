//! The numbers of a snapshot: which node a kept object is, and where its class is in a table.
//!
//! Both are found by halving a list in order, so a snapshot's cost grows with the objects and their links, times the logarithm of how many
//! objects there are.

ghost use Rattle.std.specs.Prelude.{◌≡◌, ◌+◌, ◌≤◌, ◌<◌, IfOk, IsSome, None, is_some, length, slice_index_or, sum_by};
ghost use Rattle.std.specs.List.Sorted.{IsStrictlySortedBy};
ghost use Rattle.std.specs.Ordering.{nat_cmp};
ghost use Rattle.heap_words.specs.Configs.{max_words};
ghost use Rattle.step_core.specs.Stands.{kept_of};
ghost use Rattle.step_core.specs.Mutators.{root_of};
ghost use Rattle.heap_walk.specs.Holders.{links_at};
ghost use Rattle.heap_view.specs.Census.{class_cmp, kept_classes};
ghost use Rattle.heap_view.specs.Snapshot.{IsClassTable, IsNumbering, edge_count, edges_from, links_set, node_of, place_by, root_edges};
ghost use Rattle.heap_view.specs.Snapshot.{listed_classes, starts, widest};

use crate::classes::{Class, class_order, is_same, kept_classes, list_classes};
use heap_walk::{kept_above, link_at, links};
use heap_words::addr::{Addr, Ptr};
use std::alloc::{AllocError, Global};
use step_core::Core;
use type_names::Types;

/// Where the kept objects start, by rising address; the classes under which they are listed, in order and each once; and the most weak
/// slots that one of them has.
#[derive(Drop)]
pub(crate) struct Numbering {
    pub(crate) starts: Vec<u32>,
    pub(crate) classes: Vec<Class>,
    pub(crate) weaks: u32,
}

/// Where the kept objects start, by rising address.
fn kept_starts(alloc: Global, core: &Core) -> Result<Vec<u32>, AllocError>
    ensures { IfOk result (λ items. items.items ≡ starts core.now) }
{
    core.law_shaped();
    let mut items = Vec::new(alloc);
    let mut last = None;
    while let Some(object) = kept_above(core, last) {
        items.push(object.word())?;
        last = Some(object);
    }
    Ok(items)
}

/// Leaves one of each class, in order.
fn to_table(classes: &mut Vec<Class>)
    ensures table { IsClassTable classes.old.items classes.new.items }
    ensures few { length classes.new.items ≤ length classes.old.items }
{
    classes.sort_unstable_by(|a, b| class_order(a, b));
    classes.dedup_by(|a, b| is_same(a, b));
}

/// The numbers of the kept objects and of the classes under which they are listed.
pub(crate) fn numbering_of(
    alloc: Global,
    core: &Core,
    types: &Types,
) -> Result<Numbering, AllocError>
    ensures numbering { IfOk result (IsNumbering core.now) }
    ensures classes { IfOk result (λ n. IsClassTable (listed_classes types.now core.now) n.classes.items) }
    ensures weaks { IfOk result (λ n. n.weaks ≡ widest (kept_classes core.now)) }
{
    core.law_shaped();
    core.law_remembers();
    let mut classes = kept_classes(alloc, core)?;
    let weaks = widest(&classes);
    list_classes(types, &mut classes);
    to_table(&mut classes);
    let starts = kept_starts(alloc, core)?;
    Ok(Numbering {
        starts,
        classes,
        weaks,
    })
}

/// How many of these addresses come before one.
fn place_in(starts: &[u32], at: u32) -> usize
    requires { IsStrictlySortedBy nat_cmp starts.now }
    ensures place { result ≡ place_by nat_cmp starts.now at }
    ensures within { result ≤ length starts.now }
{
    starts.partition_point(|start| start.cmp(&at).is_lt())
}

/// How many classes of a table come before one.
pub(crate) fn class_place(table: &[Class], class: &Class) -> usize
    requires { IsStrictlySortedBy class_cmp table.now }
    ensures place { result ≡ place_by class_cmp table.now class.now }
    ensures within { result ≤ length table.now }
{
    table.partition_point(|other| class_order(other, class).is_lt())
}

/// The node of the object that starts at an address.
pub(crate) fn node_of(core: &Core, numbering: &Numbering, at: Addr) -> u64
    requires { IsNumbering core.now numbering.now }
    ensures node { result ≡ node_of core.now at }
    ensures small { result ≤ max_words + 2 }
{
    2 + place_in(&numbering.starts, at.word()) as u64
}

/// Whether a pointer, or a weak slot, isn't nil.
fn is_set(core: &Core, object: Addr, weak: bool, index: u32) -> bool
    requires { index < length (links_at weak core.now object) }
    ensures { result ≡ is_some (slice_index_or (links_at weak core.now object) index None) }
{
    link_at(core, object, weak, index).is_some()
}

/// How many pointers, or weak slots, of a kept object aren't nil.
fn links_set(core: &Core, object: Addr, weak: bool) -> u32
    requires { IsSome (kept_of core.now object) }
    ensures { result ≡ links_set weak core.now object }
{
    let mut count = 0;
    for index in 0..links(core, object, weak) {
        if is_set(core, object, weak, index) {
            count += 1;
        }
    }
    count
}

/// How many edges lead from a kept object.
pub(crate) fn edges_from(core: &Core, object: Addr) -> u64
    requires { IsSome (kept_of core.now object) }
    ensures value { result ≡ edges_from core.now object }
    ensures small { result < 8589934592 }
{
    u64::from(links_set(core, object, false)) + u64::from(links_set(core, object, true))
}

/// How many root places there are.
pub(crate) fn root_count(core: &Core) -> u32
    ensures { result ≡ length core.now.roots }
{
    core.law_remembers();
    core.roots().len() as u32
}

/// What a root place holds.
pub(crate) fn root_at(core: &Core, place: u32) -> Ptr
    requires { place < length core.now.roots }
    ensures { result ≡ root_of core.now place }
{
    core.roots().get(place as usize)
}

/// How many roots aren't nil.
pub(crate) fn root_edges(core: &Core) -> u32
    ensures { result ≡ root_edges core.now }
{
    let mut count = 0;
    for place in 0..root_count(core) {
        if root_at(core, place).is_some() {
            count += 1;
        }
    }
    count
}

/// How many edges lead from the kept objects, which start at these addresses.
fn edge_sum(core: &Core, items: &[u32]) -> u64
    requires { items.now ≡ starts core.now }
    ensures value { result ≡ sum_by (edges_from core.now) items.now }
    ensures small { result ≤ 9223372036854775808 }
{
    core.law_shaped();
    core.law_remembers();
    let mut sum = 0;
    for start in items {
        sum += edges_from(core, Addr::new(*start));
    }
    sum
}

/// How many edges there are.
pub(crate) fn edge_count(core: &Core, numbering: &Numbering) -> u64
    requires { IsNumbering core.now numbering.now }
    ensures { result ≡ edge_count core.now }
{
    1 + u64::from(root_edges(core)) + edge_sum(core, &numbering.starts)
}

/// The most weak slots that an object of these classes has.
fn widest(classes: &[Class]) -> u32
    ensures { result ≡ widest classes.now }
{
    let mut most = 0;
    for class in classes {
        most = most.max(class.weaks);
    }
    most
}
