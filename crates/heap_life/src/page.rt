//! The page: one file of HTML, with the record, the moments and what draws them.

ghost use Rattle.std.specs.Prelude.{◌≡◌, ◌≤◌, ◌++◌, ℕ, List, IfOk, length};
ghost use Rattle.script_text.specs.Records.{record_text};
ghost use Rattle.script_text.specs.Texts.{Adds};
ghost use Rattle.heap_life.specs.Pages.{IsPageOf, facts_text, pace_text, sizes_text};

use crate::file_name::{put_file, put_names};
use crate::life::{Life, Moment};
use crate::pace::Pace;
use heap_steps::{Record, is_third};
use heap_words::config::{Config, Format};
use page_parts::{
    BEFORE, BEHIND, BETWEEN, END, SCRIPT_CURVES, SCRIPT_FIND, SCRIPT_FOLD, SCRIPT_LANES,
    SCRIPT_LIFE, SCRIPT_OBJECTS, SCRIPT_OVER, SCRIPT_PAGE, SCRIPT_PANELS, SCRIPT_REACH,
    SCRIPT_RUNS,
};
use script_text::{Text, WatchedWriter, write_record};
use std::alloc::{AllocError, Global};

/// Up to how many events all lines of the record are in the page.
const MOST_EVENTS: usize = 100_000;

/// The text of a record.
fn record_text(alloc: Global, history: &Record) -> Result<Vec<u8>, AllocError>
    ensures { IfOk result (λ text. text.items ≡ record_text history.now) }
{
    let mut writer = WatchedWriter::new(Vec::new(alloc));
    match write_record(alloc, history, &mut writer) {
        Ok(()) => Ok(writer.into_inner()),
        Err(_) => Err(AllocError),
    }
}

/// Whether an event led to the moment at a place of the list, or follows it.
fn is_near(moments: &[Moment], place: usize, event: u64) -> bool {
    match moments.get(place) {
        Some(moment) => { moment.event == event || (0 < event && moment.event == event - 1) }
        None => false,
    }
}

/// The first place from one on whose moment isn't far before an event.
fn skip(moments: &[Moment], from: usize, event: u64) -> usize {
    for place in from..moments.len() {
        if event <= moments[place].event.saturating_add(1) {
            return place;
        }
    }
    moments.len()
}

/// Of the lines of a record's text the first, and those of the events next to a moment.
fn near_lines(alloc: Global, text: &[u8], moments: &[Moment]) -> Result<Vec<u8>, AllocError> {
    let mut lines = Vec::new(alloc);
    let mut event = 0u64;
    let mut place = 0;
    for line in text.split_inclusive(|byte| *byte == b'\n') {
        place = skip(moments, place, event);
        if event == 0 || is_near(moments, place, event) {
            lines.extend_from_slice(line)?;
        }
        event = event.saturating_add(1);
    }
    Ok(lines)
}

/// The lines of the record that are in the page: all of them, or where they are too many some.
fn lines_of(alloc: Global, life: &Life) -> Result<Vec<u8>, AllocError>
    ensures { IfOk result (λ lines. length life.now.history.events ≤ 100000 → lines.items ≡ record_text life.now.history) }
{
    let text = record_text(alloc, &life.history)?;
    if life.history.events().len() <= MOST_EVENTS {
        return Ok(text);
    }
    near_lines(alloc, text.as_slice(), life.moments.as_slice())
}

/// Adds the words of a card, and how many roots there are.
fn put_sizes(text: &mut Text, config: &Config)
    ensures { Adds text.old (sizes_text config.now) text.new }
{
    text.put("card");
    text.put_number(u64::from(config.card_words()));
    text.put("\nroots");
    text.put_number(u64::from(config.globals()));
    text.put_number(u64::from(config.registers()));
}

/// Adds the pace, and how many events there are.
fn put_pace(text: &mut Text, pace: &Pace, events: u64)
    ensures { Adds text.old (pace_text pace.now events) text.new }
{
    text.put("\npace");
    text.put_number(pace.every);
    text.put_number(pace.stride);
    text.put_number(if pace.small { 1 } else { 0 });
    text.put("\nevents");
    text.put_number(events);
    text.put("\n");
}

/// Adds what the page says of itself first: the name of its script's file, names for shapes, the words of a card, the roots, the pace, how
/// many events there are.
fn put_facts(text: &mut Text, name: &str, names: &[u8], life: &Life)
    ensures { Adds text.old (facts_text name.now names.now life.now) text.new }
{
    let config = life.history.config();
    let events = life.history.events();
    put_file(text, name);
    put_names(text, names);
    put_sizes(text, &config);
    put_pace(text, &life.pace, events.len() as u64);
}

/// What is between the record's lines and the moments'.
fn text_between(alloc: Global, name: &str, names: &[u8], life: &Life) -> Result<Vec<u8>, AllocError>
    ensures { IfOk result (λ text. (front : List ℕ) × (text.items ≡ front ++ facts_text name.now names.now life.now)) }
{
    let mut text = Text::new(alloc);
    text.put(BETWEEN);
    put_facts(&mut text, name, names, life);
    text.into_bytes()
}

/// Adds what pages of the third format alone have: what folds free regions, and what shows runs that moved.
fn put_third(text: &mut Text, format: Format) {
    if is_third(format) {
        text.put(SCRIPT_FOLD);
        text.put(SCRIPT_RUNS);
    }
}

/// What is after the moments' lines: what draws a life.
fn text_behind(alloc: Global, format: Format) -> Result<Vec<u8>, AllocError> {
    let mut text = Text::new(alloc);
    text.put(BEHIND);
    text.put(SCRIPT_LIFE);
    text.put(SCRIPT_CURVES);
    text.put(SCRIPT_LANES);
    text.put(SCRIPT_OVER);
    text.put(SCRIPT_REACH);
    text.put(SCRIPT_PANELS);
    text.put(SCRIPT_OBJECTS);
    text.put(SCRIPT_FIND);
    put_third(&mut text, format);
    text.put(SCRIPT_PAGE);
    text.put(END);
    text.into_bytes()
}

/// What comes before the record's lines.
fn text_before() -> &'static [u8] {
    BEFORE.as_bytes()
}

/// Puts the parts of a page in their order after one another.
fn joined(
    alloc: Global,
    lines: &[u8],
    between: &[u8],
    told: &[u8],
    behind: &[u8],
) -> Result<Vec<u8>, AllocError>
    ensures { IfOk result (λ page. (before : List ℕ) × (page.items ≡ before ++ lines.now ++ between.now ++ told.now ++ behind.now)) }
{
    let mut page = Vec::new(alloc);
    page.extend_from_slice(text_before())?;
    page.extend_from_slice(lines)?;
    page.extend_from_slice(between)?;
    page.extend_from_slice(told)?;
    page.extend_from_slice(behind)?;
    Ok(page)
}

/// The page of a life, drawn of a file of this name, with these names for shapes, none where they are empty. Both may be any.
pub fn page_of(alloc: Global, name: &str, names: &[u8], life: &Life) -> Result<Vec<u8>, AllocError>
    ensures { IfOk result (λ page. IsPageOf name.now names.now life.now page.items) }
{
    let lines = lines_of(alloc, life)?;
    let between = text_between(alloc, name, names, life)?;
    let behind = text_behind(alloc, life.history.config().format)?;
    joined(
        alloc,
        lines.as_slice(),
        between.as_slice(),
        life.told.as_slice(),
        behind.as_slice(),
    )
}
