//! A snapshot of the kept objects, as the JSON that Chrome and Node write of their heaps and that their tools read.
//!
//! ```text
//!   {"snapshot":{"meta":{..},"node_count":3,"edge_count":3,"trace_function_count":0},
//!   "nodes":[9,0,1,0,1,0                             the root of all: a type, a name, an id, bytes, its edges, 0
//!   ,9,1,3,0,1,0                                     the node of the heap's roots
//!   ,3,34,5,32,1,0],                                 #0, of 4 words
//!   "edges":[1,1,6                                   from the root of all: a type, an index, where the node begins
//!   ,2,2,12                                          from the roots, the name's number in place of an index
//!   ,1,0,12],                                        from #0: pointer 0 leads to itself
//!   ..
//!   "strings":["",
//!   "(roots)",
//!   "global g0",
//!   ..
//!   "pointers 1, weak slots 0, data words 1, first word 7"]}
//! ```

ghost use Rattle.std.specs.Prelude.{◌≡◌, ◌<◌, ◌^◌, ℕ, IsSome, List, OnOk, flat_map, length};
ghost use Rattle.step_core.specs.Stands.{kept_of};
ghost use Rattle.script_text.specs.Texts.{Adds};
ghost use Rattle.heap_dump.specs.Lists.{text_below};
ghost use Rattle.heap_walk.specs.Holders.{links_at};
ghost use Rattle.heap_view.specs.Types.{escaped, escaped_byte};
ghost use Rattle.heap_view.specs.Census.{kept_classes};
ghost use Rattle.heap_view.specs.Snapshot.{IsNumbering, first_weak, starts, widest};
ghost use Rattle.heap_view.specs.SnapshotTexts.{IsSnapshot, class_name, counts_text, edge_kind, edge_name, edge_text, label_text};
ghost use Rattle.heap_view.specs.SnapshotTexts.{edge_types, edges_text};
ghost use Rattle.heap_view.specs.SnapshotTexts.{empty_lists, head_text, link_edge, link_edges, node_fields, node_types, nodes_text};
ghost use Rattle.heap_view.specs.SnapshotTexts.{object_edges, object_node, other_fields, root_edge, root_name, root_nodes, shape_text};
ghost use Rattle.heap_view.specs.SnapshotTexts.{slot_text, snapshot_text, strings_text, weak_name};

use crate::census_lines::put_first;
use crate::classes::{Class, class_of, class_size, listed_class, type_of};
use crate::object_lines::put_root_holder;
use crate::snapshot::{
    Numbering, class_place, edge_count, edges_from, node_of, numbering_of, root_at, root_count,
    root_edges,
};
use heap_walk::{entry_of, link_at, links, root_holder};
use heap_words::addr::{Addr, Ptr};
use script_text::Text;
use std::alloc::{AllocError, Global};
use step_core::Core;
use type_names::Types;

/// Puts which numbers a node is.
fn put_node_fields(text: &mut Text)
    ensures { Adds text.old node_fields text.new }
{
    text.put(
        "{\"snapshot\":{\"meta\":{\"node_fields\":[\"type\",\"name\",\"id\",\"self_size\",\"edge_count\",\"detachedness\"],",
    );
}

/// Puts which kinds of nodes there are.
fn put_node_types(text: &mut Text)
    ensures { Adds text.old node_types text.new }
{
    text.put(
        "\"node_types\":[[\"hidden\",\"array\",\"string\",\"object\",\"code\",\"closure\",\"regexp\",\"number\",\"native\",",
    );
    text.put("\"synthetic\"],\"string\",\"number\",\"number\",\"number\",\"number\"],");
}

/// Puts which numbers an edge is, and which kinds of edges there are.
fn put_edge_types(text: &mut Text)
    ensures { Adds text.old edge_types text.new }
{
    text.put(
        "\"edge_fields\":[\"type\",\"name_or_index\",\"to_node\"],\"edge_types\":[[\"context\",\"element\",\"property\",",
    );
    text.put("\"internal\",\"hidden\",\"shortcut\",\"weak\"],\"string_or_number\",\"node\"],");
}

/// Puts what else such files have.
fn put_other_fields(text: &mut Text)
    ensures { Adds text.old other_fields text.new }
{
    text.put(
        "\"trace_function_info_fields\":[\"function_id\",\"name\",\"script_name\",\"script_id\",\"line\",\"column\"],",
    );
    text.put(
        "\"trace_node_fields\":[\"id\",\"function_info_index\",\"count\",\"size\",\"children\"],",
    );
    text.put("\"sample_fields\":[\"timestamp_us\",\"last_assigned_id\"],");
    text.put("\"location_fields\":[\"object_index\",\"script_id\",\"line\",\"column\"]},");
}

/// Puts how many nodes and edges there are.
fn put_counts(text: &mut Text, nodes: u64, edges: u64)
    ensures { Adds text.old (counts_text nodes edges) text.new }
{
    text.put("\"node_count\":");
    text.put_digits(nodes);
    text.put(",\"edge_count\":");
    text.put_digits(edges);
    text.put(",\"trace_function_count\":0},\n");
}

/// Puts what comes before the nodes.
fn put_head(core: &Core, numbering: &Numbering, text: &mut Text)
    requires { IsNumbering core.now numbering.now }
    ensures { Adds text.old (head_text core.now) text.new }
{
    put_node_fields(text);
    put_node_types(text);
    put_edge_types(text);
    put_other_fields(text);
    put_counts(
        text,
        2 + numbering.starts.as_slice().len() as u64,
        edge_count(core, numbering),
    );
}

/// Puts the nodes of roots.
fn put_root_nodes(core: &Core, text: &mut Text)
    ensures { Adds text.old (root_nodes core.now) text.new }
{
    text.put("\"nodes\":[9,0,1,0,1,0\n,9,1,3,0,");
    text.put_digits(u64::from(root_edges(core)));
    text.put(",0");
}

/// Puts a node of a kept object.
fn put_node(core: &Core, types: &Types, numbering: &Numbering, text: &mut Text, object: Addr)
    requires numbering { IsNumbering core.now numbering.now }
    requires kept { IsSome (kept_of core.now object) }
    ensures { Adds text.old (object_node types.now core.now numbering.now.classes.items object) text.new }
{
    let entry = entry_of(core, object);
    let class = class_of(&entry);
    let listed = listed_class(types, &class);
    let place = class_place(&numbering.classes, &listed) as u64;
    text.put("\n,3,");
    text.put_digits(2 + u64::from(root_count(core)) + place);
    text.put(",");
    text.put_digits(entry.name % 4_611_686_018_427_387_904 * 2 + 5);
    text.put(",");
    text.put_digits(class_size(&class) * 8);
    text.put(",");
    text.put_digits(edges_from(core, object));
    text.put(",0");
}

/// Puts the nodes.
fn put_nodes(core: &Core, types: &Types, numbering: &Numbering, text: &mut Text)
    requires { IsNumbering core.now numbering.now }
    ensures { Adds text.old (nodes_text types.now core.now numbering.now.classes.items) text.new }
{
    put_root_nodes(core, text);
    put_object_nodes(core, types, numbering, text, &numbering.starts);
    text.put("],\n");
}

/// Puts the nodes of the kept objects, which start at these addresses.
fn put_object_nodes(
    core: &Core,
    types: &Types,
    numbering: &Numbering,
    text: &mut Text,
    items: &[u32],
)
    requires numbering { IsNumbering core.now numbering.now }
    requires items { items.now ≡ starts core.now }
    ensures { Adds text.old (flat_map (object_node types.now core.now numbering.now.classes.items) items.now) text.new }
{
    for start in items {
        put_node(core, types, numbering, text, Addr::new(*start));
    }
}

/// Puts an edge to where a root or a link leads, unless that is nil.
fn put_edge(
    core: &Core,
    numbering: &Numbering,
    text: &mut Text,
    kind: &'static str,
    name: u64,
    link: Ptr,
)
    requires { IsNumbering core.now numbering.now }
    ensures { Adds text.old (edge_text kind.now name core.now link) text.new }
{
    let Some(at) = link else {
        return;
    };
    text.put("\n,");
    text.put(kind);
    text.put(",");
    text.put_digits(name);
    text.put(",");
    text.put_digits(node_of(core, numbering, at) * 6);
}

/// Puts the edge of a root.
fn put_root_edge(core: &Core, numbering: &Numbering, text: &mut Text, place: u32)
    requires numbering { IsNumbering core.now numbering.now }
    requires place { place < length core.now.roots }
    ensures { Adds text.old (root_edge core.now place) text.new }
{
    let name = 2 + u64::from(place);
    put_edge(core, numbering, text, "2", name, root_at(core, place));
}

/// Puts the edges of the heap's roots.
fn put_root_edges(core: &Core, numbering: &Numbering, text: &mut Text)
    requires { IsNumbering core.now numbering.now }
    ensures { Adds text.old (text_below (root_edge core.now) (length core.now.roots)) text.new }
{
    for place in 0..root_count(core) {
        put_root_edge(core, numbering, text, place);
    }
}

/// The type of an edge.
fn edge_kind(weak: bool) -> &'static str
    ensures { result.now ≡ edge_kind weak }
{
    if weak { "6" } else { "1" }
}

/// The number of an edge's name, or its index.
fn edge_name(weak: bool, first: u64, index: u32) -> u64
    requires { first < 2 ^ 33 }
    ensures { result ≡ edge_name weak first index }
{
    if weak {
        first + u64::from(index)
    } else {
        u64::from(index)
    }
}

/// The number of the first weak slot's name.
fn first_weak(core: &Core, numbering: &Numbering) -> u64
    requires { IsNumbering core.now numbering.now }
    ensures value { result ≡ first_weak core.now numbering.now.classes.items }
    ensures small { result < 2 ^ 33 }
{
    2 + u64::from(root_count(core)) + numbering.classes.len() as u64
}

/// Puts the edge of a pointer, or of a weak slot.
fn put_link_edge(
    core: &Core,
    numbering: &Numbering,
    text: &mut Text,
    object: Addr,
    weak: bool,
    index: u32,
)
    requires numbering { IsNumbering core.now numbering.now }
    requires index { index < length (links_at weak core.now object) }
    ensures { Adds text.old (link_edge weak core.now numbering.now.classes.items object index) text.new }
{
    let name = edge_name(weak, first_weak(core, numbering), index);
    let link = link_at(core, object, weak, index);
    put_edge(core, numbering, text, edge_kind(weak), name, link);
}

/// Puts the edges of an object's pointers, or of its weak slots.
fn put_link_edges(core: &Core, numbering: &Numbering, text: &mut Text, object: Addr, weak: bool)
    requires numbering { IsNumbering core.now numbering.now }
    requires kept { IsSome (kept_of core.now object) }
    ensures { Adds text.old (link_edges weak core.now numbering.now.classes.items object) text.new }
{
    for index in 0..links(core, object, weak) {
        put_link_edge(core, numbering, text, object, weak, index);
    }
}

/// Puts the edges of a kept object.
fn put_object_edges(core: &Core, numbering: &Numbering, text: &mut Text, object: Addr)
    requires numbering { IsNumbering core.now numbering.now }
    requires kept { IsSome (kept_of core.now object) }
    ensures { Adds text.old (object_edges core.now numbering.now.classes.items object) text.new }
{
    put_link_edges(core, numbering, text, object, false);
    put_link_edges(core, numbering, text, object, true);
}

/// Puts the edges of the kept objects, which start at these addresses.
fn put_each_edges(core: &Core, numbering: &Numbering, text: &mut Text, items: &[u32])
    requires numbering { IsNumbering core.now numbering.now }
    requires items { items.now ≡ starts core.now }
    ensures { Adds text.old (flat_map (object_edges core.now numbering.now.classes.items) items.now) text.new }
{
    for start in items {
        put_object_edges(core, numbering, text, Addr::new(*start));
    }
}

/// Puts the edges.
fn put_edges(core: &Core, numbering: &Numbering, text: &mut Text)
    requires { IsNumbering core.now numbering.now }
    ensures { Adds text.old (edges_text core.now numbering.now.classes.items) text.new }
{
    text.put("\"edges\":[1,1,6");
    put_root_edges(core, numbering, text);
    put_each_edges(core, numbering, text, &numbering.starts);
    text.put("],\n");
}

/// Puts the name of a root.
fn put_root_name(core: &Core, text: &mut Text, place: u32)
    requires { place < length core.now.roots }
    ensures { Adds text.old (root_name core.now place) text.new }
{
    core.law_remembers();
    text.put(",\n\"");
    put_root_holder(text, &root_holder(core.roots().places(), place));
    text.put("\"");
}

/// Puts the names of the roots.
fn put_root_names(core: &Core, text: &mut Text)
    ensures { Adds text.old (text_below (root_name core.now) (length core.now.roots)) text.new }
{
    for place in 0..root_count(core) {
        put_root_name(core, text, place);
    }
}

/// Puts how many fields of each kind the objects of a class have, and their first data word.
fn put_shape(text: &mut Text, class: &Class)
    ensures { Adds text.old (shape_text class.now) text.new }
{
    text.put("pointers ");
    text.put_digits(u64::from(class.pointers));
    text.put(", weak slots ");
    text.put_digits(u64::from(class.weaks));
    text.put(", data words ");
    text.put_digits(u64::from(class.values));
    text.put(", first word ");
    put_first(text, class);
}

/// Puts a byte of a text of JSON.
fn put_escaped_byte(text: &mut Text, byte: u8)
    ensures { Adds text.old (escaped_byte byte) text.new }
{
    if byte == b'"' || byte == b'\\' {
        text.put_bytes(&[b'\\', byte]);
        return;
    }
    text.put_bytes(&[byte]);
}

/// Puts a name as a text of JSON.
fn put_escaped(text: &mut Text, name: &[u8])
    ensures { Adds text.old (escaped name.now) text.new }
{
    for byte in name {
        put_escaped_byte(text, *byte);
    }
}

/// Puts the name of a class's type, or its shape.
fn put_label(text: &mut Text, types: &Types, class: &Class)
    ensures { Adds text.old (label_text types.now class.now) text.new }
{
    match type_of(types, class) {
        Some(name) => put_escaped(text, name),
        None => put_shape(text, class),
    }
}

/// Puts the name of a class.
fn put_class_name(text: &mut Text, types: &Types, class: &Class)
    ensures { Adds text.old (class_name types.now class.now) text.new }
{
    text.put(",\n\"");
    put_label(text, types, class);
    text.put("\"");
}

/// Puts the names of classes.
fn put_class_names(text: &mut Text, types: &Types, classes: &[Class])
    ensures { Adds text.old (flat_map (class_name types.now) classes.now) text.new }
{
    for class in classes {
        put_class_name(text, types, class);
    }
}

/// Puts which weak slot it is.
fn put_slot(text: &mut Text, index: u32)
    ensures { Adds text.old (slot_text index) text.new }
{
    text.put("weak slot ");
    text.put_digits(u64::from(index));
}

/// Puts the name of a weak slot.
fn put_weak_name(text: &mut Text, index: u32)
    ensures { Adds text.old (weak_name index) text.new }
{
    text.put(",\n\"");
    put_slot(text, index);
    text.put("\"");
}

/// Puts the names of so many weak slots.
fn put_weak_names(text: &mut Text, count: u32)
    ensures { Adds text.old (text_below weak_name count) text.new }
{
    for index in 0..count {
        put_weak_name(text, index);
    }
}

/// Puts the strings.
fn put_strings(core: &Core, types: &Types, text: &mut Text, classes: &[Class], weaks: u32)
    requires { weaks ≡ widest (kept_classes core.now) }
    ensures { Adds text.old (strings_text types.now core.now classes.now) text.new }
{
    text.put("\"strings\":[\"\",\n\"(roots)\"");
    put_root_names(core, text);
    put_class_names(text, types, classes);
    put_weak_names(text, weaks);
    text.put("]}\n");
}

/// Puts lists of which nothing is told.
fn put_empty_lists(text: &mut Text)
    ensures { Adds text.old empty_lists text.new }
{
    text.put(
        "\"trace_function_infos\":[],\n\"trace_tree\":[],\n\"samples\":[],\n\"locations\":[],\n",
    );
}

/// Puts a snapshot by its numbers.
fn put_numbered(core: &Core, types: &Types, numbering: &Numbering, text: &mut Text)
    requires numbering { IsNumbering core.now numbering.now }
    requires weaks { numbering.now.weaks ≡ widest (kept_classes core.now) }
    ensures { Adds text.old (snapshot_text types.now core.now numbering.now.classes.items) text.new }
{
    put_head(core, numbering, text);
    put_nodes(core, types, numbering, text);
    put_edges(core, numbering, text);
    put_empty_lists(text);
    put_strings(core, types, text, &numbering.classes, numbering.weaks);
}

/// Puts the snapshot of the kept objects. The error is want of memory.
pub(crate) fn put_snapshot(
    alloc: Global,
    core: &Core,
    types: &Types,
    text: &mut Text,
) -> Result<(), AllocError>
    ensures { OnOk result ((lines : List ℕ) × IsSnapshot types.now core.now lines × Adds text.old lines text.new) }
{
    let numbering = numbering_of(alloc, core, types)?;
    put_numbered(core, types, &numbering, text);
    Ok(())
}
