//! Several data words of an object in one go, by one copy of memory.

ghost use Rattle.std.specs.Prelude.{◌≡◌, ◌↔◌, ℕ, ◌<◌, length, IsOk, IfErr};
ghost use Rattle.graph_runs.specs.State.{root_counts_of};
ghost use Rattle.heap_steps.specs.Roots.{IsRegister};
ghost use Rattle.step_core.specs.Words.{HasDataWords, AreRead, AreWritten, IsUnread, IsUnwritten};

use crate::heap::Core;
use heap_steps::{Refusal, Register};

impl Core {
    /// Reads data words of an object, from one on, as many as there is room for: all of them or none. Each is what a step of its own
    /// would read. Where the object has fewer, or the register is nil, they are refused as a step for the last of them would be.
    ///
    /// ```rust
    /// let mut words = [0; 1];
    /// core.step(new);
    /// assert!(rt; core.read_words(0, r0, 0, &mut words).is_ok());
    /// assert!(rt; core.read_words(0, r0, 1, &mut words) == Err(Refusal::NoField));
    /// ```
    pub fn read_words(
        &self,
        mutator: u32,
        object: Register,
        from: u32,
        out: &mut [u64],
    ) -> Result<(), Refusal>
        requires mutator { mutator < self.now.config.mutators }
        requires object { IsRegister (root_counts_of self.now.config) object }
        ensures all { IsOk result ↔ HasDataWords self.now mutator object from (length out.old) }
        ensures read { IsOk result → AreRead self.now mutator object from out.new }
        ensures room { length out.new ≡ length out.old }
        ensures refused { IfErr result (IsUnread self.now mutator object from (length out.old)) }
        ensures same { IfErr result (λ why. out.new ≡ out.old) }
    {
        let Some(at) = self.register(mutator, object) else {
            return Err(Refusal::Nil);
        };
        if u64::from(self.table.value_count(at)) < u64::from(from) + out.len() as u64 {
            return Err(Refusal::NoField);
        }
        self.table.get_values(at, from, out);
        Ok(())
    }

    /// Writes data words of an object, from one on: all of them or none. Each is what a step of its own would write. Where the object has
    /// fewer, or the register is nil, they are refused as a step for the last of them would be.
    ///
    /// ```rust
    /// core.step(new);
    /// assert!(rt; core.write_words(0, r0, 0, &[7]).is_ok());
    /// assert!(rt; core.write_words(0, r0, 0, &[7, 8]) == Err(Refusal::NoField));
    /// ```
    pub fn write_words(
        &mut self,
        mutator: u32,
        object: Register,
        from: u32,
        words: &[u64],
    ) -> Result<(), Refusal>
        requires mutator { mutator < self.old.config.mutators }
        requires object { IsRegister (root_counts_of self.old.config) object }
        ensures all { IsOk result ↔ HasDataWords self.old mutator object from (length words.now) }
        ensures written { IsOk result → AreWritten self.old mutator object from words.now self.new }
        ensures refused { IfErr result (IsUnwritten self.old mutator object from words.now) }
        ensures same { IfErr result (λ why. self.new ≡ self.old) }
        ensures config { self.new.config ≡ self.old.config }
    {
        let Some(at) = self.register(mutator, object) else {
            return Err(Refusal::Nil);
        };
        if u64::from(self.table.value_count(at)) < u64::from(from) + words.len() as u64 {
            return Err(Refusal::NoField);
        }
        self.table.set_values(at, from, words);
        Ok(())
    }
}
