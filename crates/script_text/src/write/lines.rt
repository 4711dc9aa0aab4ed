//! Lines of a record, put into a buffer with room for them. Each call puts its text after the first `at`
//! bytes and answers where it ends.

ghost use Rattle.std.specs.Prelude.{◌≡◌, ◌≤◌, ◌<◌, ◌+◌, ◌^◌, ◌++◌, ◌∷◌, ℕ, length, take, codes};
ghost use Rattle.std.specs.Fmt.{decimal};
ghost use Rattle.heap_steps.specs.declared.step.Event as events;
ghost use Rattle.script_text.specs.Spelling.{register_word, global_word, value_word, action_words, collection_words};
ghost use Rattle.script_text.specs.Spelling.{verb_of, format_words, heap_words, spaced, line};
ghost use Rattle.script_text.specs.Counts.{Spells};
ghost use Rattle.script_text.specs.Records.{actor_word, reply_words, event_text, event_line, IsToldBy};

use crate::write::bytes::{put_byte, put_literal, put_number, put_short, put_small, put_text};
use crate::write::counts::Count;
use heap_steps::{
    Action, Actor, CollectorStep, Counts, Event, GlobalRoot, Refusal, Register, Reply, Step, Verb,
};
use heap_words::config::{Config, Format};

/// The room that a line needs: no line of a record is longer, nor one that a script's line of 120 bytes would tell.
pub const LINE_ROOM: usize = 192;

/// A text that ends in a space, and a number.
#[inline(always)]
fn put_count(buffer: &mut [u8], at: usize, word: &[u8], count: u32) -> usize
    requires { at + length word.now + 10 ≤ length buffer.old }
    ensures put { take result buffer.new ≡ take at buffer.old ++ word.now ++ decimal count }
    ensures end { result ≤ at + length word.now + 10 }
{
    let at = put_literal(buffer, at, word);
    put_small(buffer, at, count)
}

/// The verb of a heap line, and a space.
fn verb_text(format: Format) -> &'static [u8]
    ensures text { result.now ≡ verb_of format ++ codes " " }
    ensures short { length result.now ≤ 6 }
{
    match format {
        Format::V1 => b"heap ",
        Format::V2 { .. } => b"heap2 ",
        Format::V3 { .. } => b"heap3 ",
    }
}

/// The first name, and what is after it in the format's line.
fn put_ending(buffer: &mut [u8], at: usize, first_name: u64, format: Format) -> usize
    requires { at + 53 ≤ length buffer.old }
    ensures put { take result buffer.new ≡ take at buffer.old ++ spaced (decimal first_name ∷ format_words format) }
    ensures end { result ≤ at + 53 }
{
    let at = put_number(buffer, at, first_name);
    match format {
        Format::V1 => at,
        Format::V2 { card } => put_count(buffer, at, b" ", card),
        Format::V3 {
            card,
            globals,
            registers,
        } => {
            let at = put_count(buffer, at, b" ", card);
            let at = put_count(buffer, at, b" ", globals);
            put_count(buffer, at, b" ", registers)
        }
    }
}

/// The heap line.
///
/// ```rust
/// let mut buffer = [0; LINE_ROOM];
/// let end = put_heap(&mut buffer, 0, &parse(alloc, script)?.config());
/// assert_eq!(rt; &buffer[..end], b"heap 4 16 8 1 0\n".as_slice());
/// ```
pub fn put_heap(buffer: &mut [u8], at: usize, config: &Config) -> usize
    requires { at + LINE_ROOM ≤ length buffer.old }
    ensures put { take result buffer.new ≡ take at buffer.old ++ line (heap_words config.now) }
    ensures end { result ≤ at + LINE_ROOM }
{
    let at = put_count(buffer, at, verb_text(config.format), config.regions);
    let at = put_count(buffer, at, b" ", config.words);
    let at = put_count(buffer, at, b" ", config.buffer);
    let at = put_count(buffer, at, b" ", config.mutators);
    let at = put_byte(buffer, at, b' ');
    let at = put_ending(buffer, at, config.first_name, config.format);
    put_byte(buffer, at, b'\n')
}

#[inline(always)]
fn put_actor(buffer: &mut [u8], at: usize, actor: Actor) -> usize
    requires { at + 11 ≤ length buffer.old }
    ensures put { take result buffer.new ≡ take at buffer.old ++ actor_word actor }
    ensures end { result ≤ at + 11 }
{
    match actor {
        Actor::Mutator(mutator) => put_small(buffer, at, mutator),
        Actor::Collector => put_literal(buffer, at, b"gc"),
        Actor::Marker(number) => {
            let at = put_byte(buffer, at, b'm');
            put_small(buffer, at, number as u32)
        }
        Actor::Refiner(number) => {
            let at = put_byte(buffer, at, b'f');
            put_small(buffer, at, number as u32)
        }
    }
}

#[inline(always)]
fn put_register(buffer: &mut [u8], at: usize, register: Register) -> usize
    requires { at + 11 ≤ length buffer.old }
    ensures put { take result buffer.new ≡ take at buffer.old ++ register_word register }
    ensures end { result ≤ at + 11 }
{
    let at = put_byte(buffer, at, b'r');
    put_small(buffer, at, register.number)
}

fn put_global(buffer: &mut [u8], at: usize, root: GlobalRoot) -> usize
    requires { at + 11 ≤ length buffer.old }
    ensures put { take result buffer.new ≡ take at buffer.old ++ global_word root }
    ensures end { result ≤ at + 11 }
{
    let at = put_byte(buffer, at, b'g');
    put_small(buffer, at, root.number)
}

/// A text that ends in a space, and a register.
#[inline(always)]
fn put_named(buffer: &mut [u8], at: usize, word: &[u8], register: Register) -> usize
    requires { at + length word.now + 11 ≤ length buffer.old }
    ensures put { take result buffer.new ≡ take at buffer.old ++ word.now ++ register_word register }
    ensures end { result ≤ at + length word.now + 11 }
{
    let at = put_literal(buffer, at, word);
    put_register(buffer, at, register)
}

/// A text that ends in a space, a register and a number.
#[inline(always)]
fn put_field(buffer: &mut [u8], at: usize, word: &[u8], object: Register, field: u32) -> usize
    requires { at + length word.now + 22 ≤ length buffer.old }
    ensures put { take result buffer.new ≡ take at buffer.old ++ word.now ++ register_word object ++ codes " " ++ decimal field }
    ensures end { result ≤ at + length word.now + 22 }
{
    let at = put_named(buffer, at, word, object);
    put_count(buffer, at, b" ", field)
}

/// A space, and nil or a register.
fn put_value(buffer: &mut [u8], at: usize, value: Option<Register>) -> usize
    requires { at + 12 ≤ length buffer.old }
    ensures put { take result buffer.new ≡ take at buffer.old ++ codes " " ++ value_word value }
    ensures end { result ≤ at + 12 }
{
    match value {
        None => put_literal(buffer, at, b" nil"),
        Some(register) => put_named(buffer, at, b" ", register),
    }
}

/// A verb and a space, the register that takes a field, and the object with its field.
#[inline(always)]
fn put_taken(
    buffer: &mut [u8],
    at: usize,
    word: &[u8],
    to: Register,
    object: Register,
    field: u32,
) -> usize
    requires { at + length word.now + 34 ≤ length buffer.old }
    ensures put { take result buffer.new ≡
        take at buffer.old ++ word.now ++ register_word to ++ codes " " ++ register_word object ++ codes " " ++ decimal field }
    ensures end { result ≤ at + length word.now + 34 }
{
    let at = put_named(buffer, at, word, to);
    put_field(buffer, at, b" ", object, field)
}

/// A verb and a space, the object with its field, and what the field takes.
#[inline(always)]
fn put_stored(
    buffer: &mut [u8],
    at: usize,
    word: &[u8],
    object: Register,
    field: u32,
    value: Option<Register>,
) -> usize
    requires { at + length word.now + 34 ≤ length buffer.old }
    ensures put { take result buffer.new ≡
        take at buffer.old ++ word.now ++ register_word object ++ codes " " ++ decimal field ++ codes " " ++ value_word value }
    ensures end { result ≤ at + length word.now + 34 }
{
    let at = put_field(buffer, at, word, object, field);
    put_value(buffer, at, value)
}

/// The step that makes an object.
#[inline(always)]
fn put_new(buffer: &mut [u8], at: usize, to: Register, counts: Counts) -> usize
    requires { at + 52 ≤ length buffer.old }
    ensures put { take result buffer.new ≡ take at buffer.old ++ spaced (action_words (Action.New to counts)) }
    ensures end { result ≤ at + 52 }
{
    let at = put_field(buffer, at, b"new ", to, counts.pointers);
    put_count(buffer, at, b" ", counts.values)
}

/// The step that makes an object with weak slots.
fn put_new_weak(buffer: &mut [u8], at: usize, to: Register, counts: Counts, weaks: u8) -> usize
    requires { at + 52 ≤ length buffer.old }
    ensures put { take result buffer.new ≡ take at buffer.old ++ spaced (action_words (Action.NewWeak to counts weaks)) }
    ensures end { result ≤ at + 52 }
{
    let at = put_field(buffer, at, b"newweak ", to, counts.pointers);
    let at = put_count(buffer, at, b" ", weaks as u32);
    put_count(buffer, at, b" ", counts.values)
}

/// The step that writes a data word.
#[inline(always)]
fn put_write(buffer: &mut [u8], at: usize, object: Register, field: u32, value: u64) -> usize
    requires { at + 52 ≤ length buffer.old }
    ensures put { take result buffer.new ≡ take at buffer.old ++ spaced (action_words (Action.Write object field value)) }
    ensures end { result ≤ at + 52 }
{
    let at = put_field(buffer, at, b"write ", object, field);
    let at = put_byte(buffer, at, b' ');
    put_number(buffer, at, value)
}

/// The step that copies a register.
#[inline(always)]
fn put_move(buffer: &mut [u8], at: usize, to: Register, from: Register) -> usize
    requires { at + 52 ≤ length buffer.old }
    ensures put { take result buffer.new ≡ take at buffer.old ++ spaced (action_words (Action.Move to from)) }
    ensures end { result ≤ at + 52 }
{
    let at = put_named(buffer, at, b"move ", to);
    put_named(buffer, at, b" ", from)
}

/// The step that copies a global to a register.
#[inline(always)]
fn put_load(buffer: &mut [u8], at: usize, to: Register, from: GlobalRoot) -> usize
    requires { at + 52 ≤ length buffer.old }
    ensures put { take result buffer.new ≡ take at buffer.old ++ spaced (action_words (Action.Load to from)) }
    ensures end { result ≤ at + 52 }
{
    let at = put_named(buffer, at, b"load ", to);
    let at = put_byte(buffer, at, b' ');
    put_global(buffer, at, from)
}

/// The step that copies a register to a global.
#[inline(always)]
fn put_save(buffer: &mut [u8], at: usize, to: GlobalRoot, from: Register) -> usize
    requires { at + 52 ≤ length buffer.old }
    ensures put { take result buffer.new ≡ take at buffer.old ++ spaced (action_words (Action.Save to from)) }
    ensures end { result ≤ at + 52 }
{
    let at = put_literal(buffer, at, b"save ");
    let at = put_global(buffer, at, to);
    put_named(buffer, at, b" ", from)
}

fn put_action(buffer: &mut [u8], at: usize, action: Action) -> usize
    requires { at + 52 ≤ length buffer.old }
    ensures put { take result buffer.new ≡ take at buffer.old ++ spaced (action_words action) }
    ensures end { result ≤ at + 52 }
{
    match action {
        Action::New { to, counts } => put_new(buffer, at, to, counts),
        Action::Get { to, object, field } => put_taken(buffer, at, b"get ", to, object, field),
        Action::Put {
            object,
            field,
            value,
        } => put_stored(buffer, at, b"put ", object, field, value),
        Action::Read { object, field } => put_field(buffer, at, b"read ", object, field),
        Action::Write {
            object,
            field,
            value,
        } => put_write(buffer, at, object, field, value),
        Action::Move { to, from } => put_move(buffer, at, to, from),
        Action::Drop { register } => put_named(buffer, at, b"drop ", register),
        Action::Load { to, from } => put_load(buffer, at, to, from),
        Action::Save { to, from } => put_save(buffer, at, to, from),
        Action::Shape { object } => put_named(buffer, at, b"shape ", object),
        Action::NewWeak { to, counts, weaks } => put_new_weak(buffer, at, to, counts, weaks),
        Action::GetWeak { to, object, slot } => {
            put_taken(buffer, at, b"getweak ", to, object, slot)
        }
        Action::PutWeak {
            object,
            slot,
            value,
        } => put_stored(buffer, at, b"putweak ", object, slot, value),
        Action::Weaks { object } => put_named(buffer, at, b"weaks ", object),
        Action::Scope { from } => put_named(buffer, at, b"scope ", from),
    }
}

#[inline(never)]
fn put_collection(buffer: &mut [u8], at: usize, collection: CollectorStep) -> usize
    requires { at + 52 ≤ length buffer.old }
    ensures put { take result buffer.new ≡ take at buffer.old ++ spaced (collection_words collection) }
    ensures end { result ≤ at + 52 }
{
    let row = collection.verb().row();
    let at = put_text(buffer, at, row.word);
    if row.operands.is_empty() {
        return at;
    }
    let (first, second) = collection.numbers();
    let end = put_count(buffer, at, b" ", first);
    if row.operands.len() < 2 {
        return end;
    }
    put_count(buffer, end, b" ", second)
}

fn refusal_text(refusal: Refusal) -> &'static [u8]
    ensures text { result.now ≡ spaced (reply_words (Reply.Refused refusal)) }
    ensures short { length result.now ≤ 32 }
{
    match refusal {
        Refusal::Nil => b"refused 1 Nil",
        Refusal::NoField => b"refused 2 NoField",
        Refusal::Full => b"refused 3 Full",
        Refusal::TooBig => b"refused 4 TooBig",
        Refusal::NamesSpent => b"refused 5 NamesSpent",
        Refusal::MarkRunning => b"refused 6 MarkRunning",
        Refusal::NotMarking => b"refused 7 NotMarking",
    }
}

/// A reply as its line has it. It has at most 32 bytes.
///
/// ```rust
/// let mut buffer = [0; 40];
/// let end = put_reply(&mut buffer, 0, Reply::Named(Some(7)));
/// assert_eq!(rt; &buffer[..end], b"#7".as_slice());
/// ```
pub fn put_reply(buffer: &mut [u8], at: usize, reply: Reply) -> usize
    requires { at + 32 ≤ length buffer.old }
    ensures put { take result buffer.new ≡ take at buffer.old ++ spaced (reply_words reply) }
    ensures end { result ≤ at + 32 }
{
    put_reply_words(buffer, at, reply)
}

/// As `put_reply`, within its caller.
#[inline(always)]
fn put_reply_words(buffer: &mut [u8], at: usize, reply: Reply) -> usize
    requires { at + 32 ≤ length buffer.old }
    ensures put { take result buffer.new ≡ take at buffer.old ++ spaced (reply_words reply) }
    ensures end { result ≤ at + 32 }
{
    match reply {
        Reply::Done => put_literal(buffer, at, b"ok"),
        Reply::Named(None) => put_literal(buffer, at, b"nil"),
        Reply::Named(Some(name)) => {
            let at = put_byte(buffer, at, b'#');
            put_number(buffer, at, name)
        }
        Reply::Word(word) => put_number(buffer, at, word),
        Reply::Shape { pointers, values } => {
            let at = put_small(buffer, at, pointers);
            put_count(buffer, at, b" ", values)
        }
        Reply::Marked(count) => put_count(buffer, at, b"marked ", count),
        Reply::Reclaimed(count) => put_count(buffer, at, b"reclaimed ", count),
        Reply::Refined(count) => put_count(buffer, at, b"refined ", count),
        Reply::Moved { regions, words } => {
            let at = put_count(buffer, at, b"moved ", regions);
            put_count(buffer, at, b" ", words)
        }
        Reply::Refused(refusal) => put_text(buffer, at, refusal_text(refusal)),
    }
}

/// An event as its line has it after the count. It has at most 99 bytes.
///
/// ```rust
/// let history = parse_record(alloc, record)?;
/// let mut buffer = [0; 100];
/// let end = put_event_text(&mut buffer, 0, &history.events()[0]);
/// assert_eq!(rt; &buffer[..end], b"0 new r0 1 1 = #0".as_slice());
/// ```
pub fn put_event_text(buffer: &mut [u8], at: usize, event: &Event) -> usize
    requires { at + 99 ≤ length buffer.old }
    ensures put { take result buffer.new ≡ take at buffer.old ++ event_text event.now }
    ensures end { result ≤ at + 99 }
{
    let at = put_actor(buffer, at, event.actor);
    let at = put_byte(buffer, at, b' ');
    let at = match event.step {
        Step::Mutator(op) => put_action(buffer, at, op.action),
        Step::Collector(collection) => put_collection(buffer, at, collection),
    };
    let at = put_literal(buffer, at, b" = ");
    put_reply_words(buffer, at, event.reply)
}

/// The line of an event of this count, where a script's line tells its actor and its step.
#[inline(always)]
pub(crate) fn put_told(
    buffer: &mut [u8],
    at: usize,
    count: &Count,
    told: &[u8],
    reply: Reply,
) -> usize
    requires room { at + LINE_ROOM ≤ length buffer.old }
    requires short { length told.now ≤ 120 }
    requires spells { (number : ℕ) × (number < 2 ^ 64) × Spells count.now number }
    ensures put { (number : ℕ) (e : events.Event) → number < 2 ^ 64 → Spells count.now number → IsToldBy told.now reply e →
        take result buffer.new ≡ take at buffer.old ++ event_line number e }
    ensures end { result ≤ at + LINE_ROOM }
{
    let at = count.put(buffer, at);
    let at = put_byte(buffer, at, b' ');
    let at = put_short(buffer, at, told);
    let at = put_literal(buffer, at, b" = ");
    let at = put_reply_words(buffer, at, reply);
    put_byte(buffer, at, b'\n')
}

/// The line of an event of this count.
#[inline(always)]
pub(crate) fn put_event(buffer: &mut [u8], at: usize, count: &Count, event: &Event) -> usize
    requires room { at + LINE_ROOM ≤ length buffer.old }
    requires spells { (number : ℕ) × (number < 2 ^ 64) × Spells count.now number }
    ensures put { (number : ℕ) → number < 2 ^ 64 → Spells count.now number →
        take result buffer.new ≡ take at buffer.old ++ event_line number event.now }
    ensures end { result ≤ at + LINE_ROOM }
{
    let at = count.put(buffer, at);
    let at = put_byte(buffer, at, b' ');
    let at = put_event_text(buffer, at, event);
    put_byte(buffer, at, b'\n')
}
