//! The heap as a whole: its steps one by one, and a run of a list of them.
//!
//! A `Core` is the table of regions, the allocation buffers, the marker, the dirty cards, the remembered sets, the roots and the name of
//! the next object. It stands for a state: a graph of objects by name, and while marking runs a snapshot, the graph when marking began, in
//! which each name that a mutator read from a weak slot since then counts as a root. Its heap shows the graph: each root word is nil or the
//! start of the object that the graph's root names, and each object has the graph's contents. And whatever is reachable in the snapshot is
//! marked or will be. A new core stands for the first state, and after each step it stands for a state.
//!
//! ```text
//!   snapshot  -                     -                   g1                      g1
//!   graph     g0 --- new r0 1 1 --> g1 --- gc begin --> g1 --- put r0 0 nil --> g2
//!             :        = #0         :        = ok       :         = ok          :
//!   core      c0 -----------------> c1 ---------------> c2 -------------------> c3     each core stands for its state
//! ```
//!
//! What is promised, for every state that the core stands for: a step's reply is one that the graph gives, and the core stands for the
//! state after it; or the reply is Full and nothing changed, exactly where the graph creates an object and the heap has no place for it. A
//! `remark` clears the weak slots that hold what neither the snapshot reaches nor was made since, and no such name is reachable then. What
//! each step does to each part of the core is said too (`Does`), of a mutator's step exactly, and a refused step leaves it as it was:
//! regions are reclaimed by `cleanup`, those that hold nothing live, and by `pause`, those that it evacuates. Cross-region fields are
//! remembered at every moment: the card of each field that leads into another region is dirty, or that region's set covers it, it has
//! entered a set, and the set's filter lets it through. No step takes memory. `run` does a list of steps in a new heap; after each of them
//! every object that a root reaches stands, whole and once, in regions in use.
//!
//! `mutator` has the mutator's steps, `barrier` what a store and a weak read do beside, `cycle` the steps of marking, `cleanup` the
//! reclaiming, `refine` refinement, `candidates` the choice of what a pause evacuates, `highest` of what a compaction does, `youngest` of
//! what a young pause does, `pause` all three, `step` any step, `runs` a list of them, `words` several data words at once, `filling` fields
//! of an object whose address is known, `near` its pointers one after another, `rows` several fields of any object, `loads` a pointer with
//! a data word of the object that it leads to, `readers` what is read of a core from outside, `names` which object starts at an address and
//! what weak slots show, `measures` what a policy of collection asks of it, `layers` the parts that a new core is made of, `laws` that what
//! a core came to is a run of the graph.
//!
//! A field is read or written in constant time: no step tests or walks its region to see that an address is an object.
//!
//! Examples of calls go on from this one, in which `rt` is a test's `HostRuntime` and `alloc` its allocator:
//!
//! ```rust
//! use heap_words::addr::Addr;
//! use heap_words::config::{Config, Format};
//! use heap_steps::{Action, Actor, CollectorStep, Counts, Event, Op, Refusal, Register, Reply, Step};
//! use step_core::{Core, new_reply, object_name, run, run_to_core};
//!
//! let config = Config { format: Format::V1, regions: 4, words: 16, buffer: 8, mutators: 1, first_name: 0 };
//! let r0 = Register { number: 0 };
//! let counts = Counts { pointers: 1, values: 1 };
//! let new = Step::Mutator(Op { mutator: 0, action: Action::New { to: r0, counts } });
//! let begin = Step::Collector(CollectorStep::Begin);
//! let mut core = Core::new(alloc, &config)?;
//! ```
#![tactic(auto)]

mod barrier;
mod candidates;
mod cleanup;
mod cycle;
mod filling;
mod heap;
mod highest;
mod laws;
mod layers;
mod loads;
mod measures;
mod mutator;
mod names;
mod near;
mod pause;
mod readers;
mod refine;
mod rows;
mod runs;
mod slide;
mod step;
mod within;
mod words;
mod youngest;

pub use candidates::Choice;
pub use heap::Core;
pub use laws::passage_law;
pub use mutator::{NewObject, new_reply};
pub use names::object_name;
pub use rows::Source;
pub use runs::{run, run_to_core};
