//! How a heap begins: its sizes, and its core in a box.

ghost use Rattle.std.specs.Prelude.{◌≡◌, OnOk, IfOk, IfErr};
ghost use Rattle.heap_words.specs.Configs.{Suits, IsNewFault};
ghost use Rattle.graph_runs.specs.State.{first_state};
ghost use Rattle.step_core.specs.Stands.{Stands};
ghost use Rattle.step_core.specs.Fresh.{fresh_core};
ghost use Rattle.heap_calls.specs.Numbers.{config_of};

use heap_words::config::{Config, Format, NewFault};
use std::alloc::Global;
use step_core::Core;

/// The sizes of a heap, all those of the third format.
#[repr(C)]
#[derive(Clone, Copy, Debug, PartialEq, Eq, Drop)]
pub struct Sizes {
    pub regions: u32,
    pub words: u32,
    pub buffer: u32,
    pub mutators: u32,
    pub first_name: u64,
    pub card: u32,
    pub globals: u32,
    pub registers: u32,
}

/// The sizes as the core takes them.
pub fn config_of(sizes: &Sizes) -> Config
    ensures { result ≡ config_of sizes.now }
{
    Config {
        format: Format::V3 {
            card: sizes.card,
            globals: sizes.globals,
            registers: sizes.registers,
        },
        regions: sizes.regions,
        words: sizes.words,
        buffer: sizes.buffer,
        mutators: sizes.mutators,
        first_name: sizes.first_name,
    }
}

/// A new core in a box.
pub fn boxed(alloc: Global, config: &Config) -> Result<Box<Core>, NewFault>
    ensures fresh { IfOk result (λ core. core.value ≡ fresh_core config.now) }
    ensures stands { IfOk result (λ core. Stands (first_state config.now) core.value) }
    ensures suits { OnOk result (Suits config.now) }
    ensures fault { IfErr result (IsNewFault config.now) }
{
    let core = match Core::new(alloc, config) {
        Ok(core) => core,
        Err(fault) => return Err(fault),
    };
    let Ok(core) = Box::new(alloc, core) else {
        return Err(NewFault::NoMemory);
    };
    Ok(core)
}
