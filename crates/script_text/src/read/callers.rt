//! A number for each caller of a function that is to be a part of its callers.
//!
//! Such a function has a const parameter `CALLER`, which it hands on and never reads. It is built once for each number, so each copy has
//! one caller, and becomes a part of it. Were two numbers alike, both callers would call one copy, and each line would cost 30 to 45
//! instructions more. So no two are alike, and nothing else hangs on which they are.

/// `parse`, which reads a script's steps into a plan.
pub(crate) const PLAN: usize = 0;

/// `check_lines`, which reads a script's steps for their faults.
pub(crate) const CHECKED_STEPS: usize = 2;

/// `ScriptSteps::next_line`.
pub(crate) const NEXT_STEP: usize = 3;

/// `parse_record`, which reads a record's events into a list.
pub(crate) const RECORD: usize = 4;

/// `check_events`, which reads a record's events for their faults.
pub(crate) const CHECKED_EVENTS: usize = 5;

/// `RecordEvents::next_usual`.
pub(crate) const USUAL_EVENT: usize = 6;

/// `LineBuffer::next_event`.
pub(crate) const AWAITED_EVENT: usize = 7;

/// `RecordEvents::next_event`.
pub(crate) const NEXT_EVENT: usize = 8;
