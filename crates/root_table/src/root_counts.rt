//! Where roots stand.

ghost use Rattle.std.specs.Prelude.{◌≡◌, ◌<◌, ◌≤◌};
ghost use Rattle.heap_model.specs.Graph as model;
ghost use Rattle.root_table.specs.Roots.{root_counts_of, row_start};

use heap_words::config::Config;
use std::marker::Model;

/// How many globals a heap has, how many mutators, and how many registers each of them.
#[derive(Clone, Copy, Debug, PartialEq, Eq)]
pub struct RootCounts {
    globals: u32,
    mutators: u32,
    registers: u32,
}

impl Model for RootCounts {
    ghost use Rattle.heap_model.specs.Graph as model;

    ghost Value = { model.RootCounts };

    ghost view = { λ p. record { globals = p.globals; mutators = p.mutators; registers = p.registers } };

    ghost inverse = { λ p. record { globals = p.globals; mutators = p.mutators; registers = p.registers } };
}

impl RootCounts {
    /// So many globals, and so many registers for each of so many mutators.
    pub fn new(globals: u32, mutators: u32, registers: u32) -> RootCounts
        ensures { result ≡ record { globals = globals; mutators = mutators; registers = registers } }
    {
        RootCounts {
            globals,
            mutators,
            registers,
        }
    }

    /// As many as the sizes of a heap ask for.
    pub fn of(config: &Config) -> RootCounts
        ensures { result ≡ root_counts_of config.now }
    {
        RootCounts::new(config.globals(), config.mutators, config.registers())
    }

    /// How many globals there are.
    pub fn globals(&self) -> u32
        ensures { result ≡ self.now.globals }
    {
        self.globals
    }

    /// How many mutators there are.
    pub fn mutators(&self) -> u32
        ensures { result ≡ self.now.mutators }
    {
        self.mutators
    }

    /// How many registers each mutator has.
    pub fn registers(&self) -> u32
        ensures { result ≡ self.now.registers }
    {
        self.registers
    }

    /// How many root places there are.
    pub fn count(&self) -> usize
        ensures { result ≡ model.root_places self.now }
    {
        self.globals as usize + self.registers as usize * self.mutators as usize
    }

    /// The place of a mutator's register.
    pub fn register(&self, mutator: u32, register: u32) -> usize
        ensures { result ≡ model.register_place self.now mutator register }
    {
        self.globals as usize + self.registers as usize * mutator as usize + register as usize
    }

    /// The row in which a place lies, 0 for the globals, else a mutator's number and one.
    pub(crate) fn row_of(&self, place: usize) -> usize
        requires { place < model.root_places self.now }
        ensures row { result ≤ self.now.mutators }
        ensures starts { row_start self.now result ≤ place }
    {
        if place < self.globals as usize {
            return 0;
        }
        (place - self.globals as usize) / self.registers as usize + 1
    }

    /// Where a row starts.
    pub(crate) fn start_of(&self, row: usize) -> usize
        requires { row ≤ self.now.mutators }
        ensures { result ≡ row_start self.now row }
    {
        if row == 0 {
            return 0;
        }
        self.globals as usize + self.registers as usize * (row - 1)
    }
}
