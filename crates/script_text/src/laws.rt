//! Laws of the texts of scripts and records.

ghost use Rattle.std.specs.Prelude.{◌≡◌, ◌↔◌, ℕ, List, None, Some, Ok};
ghost use Rattle.heap_words.specs.declared.config.Config.{Config};
ghost use Rattle.heap_steps.specs.Actors.{StepList, EventList};
ghost use Rattle.heap_steps.specs.declared.step.Action.{Action};
ghost use Rattle.heap_steps.specs.declared.step.Reply.{Reply};
ghost use Rattle.heap_steps.specs.declared.step.Step.{Step};
ghost use Rattle.script_text.specs.EventWords.{reply_of};
ghost use Rattle.script_text.specs.Events.{record_of};
ghost use Rattle.script_text.specs.Records.{reply_words, record_text};
ghost use Rattle.script_text.specs.Fits.{Fits, ReplyFits, IsScript, IsRecord};
ghost use Rattle.script_text.specs.Reading.{action_of};
ghost use Rattle.script_text.specs.Spelling.{action_words, script_text};
ghost use Rattle.script_text.specs.Lines.{script_of, step_of};
ghost use Rattle.script_text.specs.Expected.{first_misfit, expected_in_line};
ghost use Rattle.script_text.specs.declared.expected.TextKind.TheVariants.{Script};

/// What is read of a text is spelled so, in the whole text.
pub fn read_is_spelled()
    ensures { (text : List ℕ) (p : StepList) → script_of text ≡ Ok p → (text ≡ script_text p) × IsScript p }
{}

/// What is spelled so is read.
pub fn spelled_is_read()
    ensures { (p : StepList) → IsScript p → script_of (script_text p) ≡ Ok p }
{}

/// Of any mutator's step: its words are read as that step, and no others are.
pub fn action_is_read()
    ensures again { (a : Action) → Fits a → action_of (action_words a) ≡ Some a }
    ensures only { (ws : List (List ℕ)) (a : Action) → action_of ws ≡ Some a → (ws ≡ action_words a) × Fits a }
{}

/// Of any reply: its words are read as that reply, and no others are.
pub fn reply_is_read()
    ensures again { (r : Reply) → ReplyFits r → reply_of (reply_words r) ≡ Some r }
    ensures only { (ws : List (List ℕ)) (r : Reply) → reply_of ws ≡ Some r → (ws ≡ reply_words r) × ReplyFits r }
{}

/// What is read of a record's text is spelled so, in the whole text.
pub fn read_record_is_spelled()
    ensures { (text : List ℕ) (r : EventList) → record_of text ≡ Ok r → (text ≡ record_text r) × IsRecord r }
{}

/// A record that is spelled so is read.
pub fn spelled_record_is_read()
    ensures { (r : EventList) → IsRecord r → record_of (record_text r) ≡ Ok r }
{}

/// The words of a script's line are read as a step if and only if none of them is the first that doesn't fit its place.
pub fn fitting_words_are_read()
    ensures { (c : Config) (n : ℕ) (words : List (List ℕ)) → ((s : Step) × (step_of c words ≡ Ok s))
        ↔ (first_misfit c 1 (expected_in_line Script c n words) words ≡ None) }
{}
