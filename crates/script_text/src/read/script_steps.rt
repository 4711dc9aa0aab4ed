//! A script's steps, read from its text one by one, so that no list of them is kept.
//!
//! ```text
//!   heap 4 16 8 1 0
//!   0 new r0 1 1        new reads all lines once, for their faults
//!   0 get r1 r0 0   <-- the lines that are left: next_line reads the first of them again
//!   gc pause 100
//! ```

ghost use Rattle.std.specs.Prelude.{◌≡◌, ◌≢◌, ◌≤◌, ◌<◌, ◌^◌, ◌∷◌, [], length, OnOk, IfOk, IfErr, IfSome, IfNone};
ghost use Rattle.heap_steps.specs.Actors.{IsStep};
ghost use Rattle.script_text.specs.Lines.{pieces_of, steps_of, script_of};
ghost use Rattle.script_text.specs.StepsLeft.{IsFaultless};
ghost use Rattle.script_text.specs.Spelling.{step_words, spaced};

use crate::fault::{Kind, LineFault};
use crate::read::callers::{CHECKED_STEPS, NEXT_STEP};
use crate::read::script::{HeapLine, StepLine, first_line, front_step};
use crate::read::words::has_feed;
use heap_steps::Step;
use heap_words::config::Config;
use std::marker::Model;

/// Reads the lines after a heap line to their end, for the first fault.
fn check_lines(config: &Config, lines: &[u8]) -> Result<(), LineFault>
    ensures ok { OnOk result (IsFaultless config.now lines.now) }
    ensures fault { IfErr result (λ f. steps_of 2 config.now (pieces_of lines.now) ≡ Err f) }
    ensures memory { IfErr result (λ f. f.kind ≢ Kind.NoMemory) }
{
    let mut rest = lines;
    let mut number = 2u64;
    'lines: while has_feed(rest) {
        let StepLine { step: _, length } = match front_step::<CHECKED_STEPS>(config, rest) {
            Ok(line) => line,
            Err(kind) => return Err(LineFault { line: number, kind }),
        };
        rest = &rest[length + 1..];
        number += 1;
    }
    if rest.is_empty() {
        Ok(())
    } else {
        Err(LineFault {
            line: number,
            kind: Kind::Cut,
        })
    }
}

/// A step of a script, and its line without the line feed.
#[derive(Clone, Copy)]
pub struct ScriptLine<'a> {
    pub step: Step,
    pub line: &'a [u8],
}

/// A script's text without a fault. Clauses see its heap line and the steps that are left, which are taken one by one.
#[derive(Drop)]
pub struct ScriptSteps<'a> {
    config: Config,
    lines: &'a [u8],
}

impl<'a> Model for ScriptSteps<'a> {
    ghost use Rattle.heap_steps.specs.Actors.{StepList};
    ghost use Rattle.script_text.specs.StepsLeft.{steps_in, IsFaultless};

    ghost Value = { StepList };

    ghost view = { λ s. record { config = s.config; steps = steps_in s.config s.lines.now } };

    ghost invariant = { λ s. IsFaultless s.config s.lines.now };
}

impl<'a> ScriptSteps<'a> {
    /// The script that a text spells, or the first fault of the text. All lines are read, and no memory is taken.
    ///
    /// ```rust
    /// let steps = ScriptSteps::new(script)?;
    /// let fault = LineFault { line: 2, kind: Kind::BadActor };
    /// assert_eq!(rt; ScriptSteps::new(b"heap 4 16 8 1 0\n\n").err(), Some(fault));
    /// ```
    pub fn new(text: &'a [u8]) -> Result<ScriptSteps<'a>, LineFault>
        ensures script { result ≡ script_of text.now }
        ensures memory { IfErr result (λ fault. fault.kind ≢ Kind.NoMemory) }
        ensures few { IfOk result (λ script. length script.steps < 2 ^ 64) }
    {
        let HeapLine { config, length } = match first_line(text) {
            Ok(line) => line,
            Err(fault) => return Err(fault),
        };
        let lines = &text[length + 1..];
        match check_lines(&config, lines) {
            Ok(()) => Ok(ScriptSteps { config, lines }),
            Err(fault) => Err(fault),
        }
    }

    /// The script's heap line.
    ///
    /// ```rust
    /// assert_eq!(rt; ScriptSteps::new(script)?.config().regions, 4);
    /// ```
    pub fn config(&self) -> Config
        ensures { result ≡ self.now.config }
    {
        self.config
    }

    /// Takes the next step with its line, from which it is read. None where no step is left, and then nothing changes.
    ///
    /// ```rust
    /// let plan = parse(alloc, script)?;
    /// let mut steps = ScriptSteps::new(script)?;
    /// if let Some(next) = steps.next_line() {
    ///     assert_eq!(rt; next.step, plan.steps()[0]);
    ///     assert_eq!(rt; next.line, b"0 new r0 1 1".as_slice());
    /// }
    /// assert!(rt; steps.next_line().is_none());
    /// ```
    #[inline(always)]
    pub fn next_line(&mut self) -> Option<ScriptLine<'a>>
        ensures config { self.new.config ≡ self.old.config }
        ensures some { IfSome result (λ next. self.old.steps ≡ next.step ∷ self.new.steps) }
        ensures known { IfSome result (λ next. IsStep self.old.config next.step) }
        ensures line { IfSome result (λ next. next.line.now ≡ spaced (step_words next.step)) }
        ensures short { IfSome result (λ next. length next.line.now ≤ 120) }
        ensures none { IfNone result (self.old.steps ≡ []) }
        ensures same { IfNone result (self.new ≡ self.old) }
    {
        let lines = self.lines;
        if !has_feed(lines) {
            return None;
        }
        let Ok(line) = front_step::<NEXT_STEP>(&self.config, lines) else {
            return None;
        };
        self.lines = &lines[line.length + 1..];
        Some(ScriptLine {
            step: line.step,
            line: &lines[..line.length],
        })
    }
}
