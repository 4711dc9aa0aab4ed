//! The command line of the program: its words, and what they ask for.
//!
//! ```text
//!   g1heap run FILE                   Task::Script(Order::File)
//!   g1heap sim FILE --schedule 7      Task::Script(Order::Drawn { seed: 7, refiners: 0, markers: 0 })
//!   g1heap threads FILE --workers 2   Task::Script(Order::Concurrent { workers: 2, refiners: 0, markers: 0 })
//!   g1heap check FILE                 Task::Check { followed: false }
//!   g1heap check FILE --follow        Task::Check { followed: true }
//!   g1heap view FILE --at 9           Task::View { recorded: false, at: Some(9), viewed: Regions { region: None, summary: false } }
//!   g1heap view FILE --object 7       Task::View { recorded: false, at: None, viewed: Object(7) }
//!   g1heap view FILE --path 7         Task::View { recorded: false, at: None, viewed: Path(7) }
//!   g1heap view FILE --census         Task::View { recorded: false, at: None, viewed: Census }
//!   g1heap view FILE --heapsnapshot   Task::View { recorded: false, at: None, viewed: Snapshot }
//!   g1heap draw FILE --every 10       Task::Draw { every: 10, recorded: false }
//!   g1heap help, and every mistake    an `Error`, whose text is for the user
//! ```
//!
//! A `Job` is such a task, FILE, and whether `--explain` is there too, which each of these takes; of `draw` the path after `--names`,
//! and of `view` the path after `--types`.
//!
//! Whether a count is in range, the run itself says.
#![tactic(auto)]

ghost use Rattle.std.specs.Prelude.{◌≡◌, ◌∷◌, IfSome};
ghost use Rattle.std.specs.Prelude.{[], ℕ, List, None, Some, IfOk, true, false, codes, map, option_and_then, option_map, string_bytes};
ghost use Rattle.clap.specs.Words.{App, FailsBy, HasKind, first_of, found_of, kind_of, rows_of, rule_of};
ghost use Rattle.clap.specs.Words.{subcommand_rows_of, with_rule, with_subcommand};
ghost use Rattle.clap.specs.declared.error.kind.ErrorKind.TheVariants.{InvalidValue};
ghost use Rattle.command_line.specs.Asked.{Asks, asked_by, asked_in, asked_of, drawn_in, faults_of, flag_in, is_path, number_in, task_in};
ghost use Rattle.command_line.specs.Asked.{names_by, names_in, names_of, pathed_in, threads_in, types_by, types_in, types_of};
ghost use Rattle.command_line.specs.Asked.{viewed_in, wide_in};
ghost use Rattle.command_line.specs.declared.Order.TheVariants.{Concurrent, Drawn, File};
ghost use Rattle.command_line.specs.declared.Task.TheVariants.{Check, Draw, Script, View};
ghost use Rattle.command_line.specs.declared.Viewed.TheVariants.{Census, Object, Path, Regions, Snapshot};
ghost use Rattle.command_line.specs.Program.{IsReadAs, background, bare, by_actors, checked, count, drawn, every, file, flag, g1heap};
ghost use Rattle.command_line.specs.Program.{large, names, number, plain, schedule, types, viewed, with_path, workers};

use clap::builder::ValueParser;
use clap::error::ErrorKind;
use clap::{Arg, ArgAction, ArgMatches, Command, Error, value_parser};
use std::alloc::{AllocError, Global};

/// In which order the steps of a script are done.
#[derive(Clone, Copy)]
pub enum Order {
    /// That of the file.
    File,
    /// Each actor's lines in their order, the actors in turns that a seed draws.
    Drawn {
        seed: u64,
        refiners: u32,
        markers: u32,
    },
    /// Each actor's lines in their order, the actors in turns that threads come to.
    Concurrent {
        workers: u32,
        refiners: u32,
        markers: u32,
    },
}

/// What of a heap is viewed.
#[derive(Clone, Copy)]
pub enum Viewed {
    /// A region alone, or all; and whether it is a short view.
    Regions { region: Option<u32>, summary: bool },
    /// The object of a name alone.
    Object(u64),
    /// A shortest way from a root to the object of a name.
    Path(u64),
    /// Its kept objects, by classes.
    Census,
    /// Its kept objects and who names whom, for other tools.
    Snapshot,
}

/// What is done with the file.
#[derive(Clone, Copy)]
pub enum Task {
    /// A script is run, and its record written.
    Script(Order),
    /// The events of a record are judged; or the record is read as it is written, where that is asked for.
    Check {
        followed: bool,
    },
    /// A script is run, or a record's steps are done again, and a view of its heap written: after so many steps, or the last one.
    View {
        recorded: bool,
        at: Option<u32>,
        viewed: Viewed,
    },
    /// A script is run, or a record's steps are done again, and the page of its heap's life written, with a moment each so many events.
    Draw {
        every: u32,
        recorded: bool,
    },
}

/// What a command line asks for.
#[derive(Drop)]
pub struct Job<'a> {
    file: &'a str,
    names: Option<&'a str>,
    types: Option<&'a str>,
    task: Task,
    explained: bool,
}

impl<'a> Job<'a> {
    /// The path of the script or record.
    pub fn file(&self) -> &'a str
        ensures { result.now ≡ self.now.file.now }
    {
        self.file
    }

    /// The path of a file of names for shapes, where one was given.
    pub fn names(&self) -> Option<&'a str>
        ensures { option_map (λ path. path.now) result ≡ names_by self.now }
    {
        self.names
    }

    /// The path of a file of names for types, where one was given.
    pub fn types(&self) -> Option<&'a str>
        ensures { option_map (λ path. path.now) result ≡ types_by self.now }
    {
        self.types
    }

    /// What is done with it.
    pub fn task(&self) -> Task
        ensures { result ≡ self.now.task }
    {
        self.task
    }

    /// Whether a fault is to be explained, and a no of `check`.
    pub fn explained(&self) -> bool
        ensures { result ≡ self.now.explained }
    {
        self.explained
    }
}

/// What is after the list of subcommands.
const FORMATS: &str = "\
FILE has a line for each step. A script's first line is `heap REGIONS WORDS BUFFER MUTATORS FIRST`, the
heap's sizes and the first object's name. `heap2` has the words of a card after these, for a larger heap,
and `heap3` also how many globals there are and how many registers each mutator has. Each other line is a
step of a mutator, as `0 new r0 1 1`, or of the collector, as `gc begin`. A record's lines have a count
before the step and ` = REPLY` after it.

Status: 0, done; 1, a fault, told on standard error; 2, a command line that isn't understood; 3, `check` says no.
With --explain a fault is followed by the line that has it, what may stand there, and what the mistake may be.

docs/TEXTS.md has the formats, the steps and their replies; docs/FAULTS.md what a fault most often means.";

/// What help says of a script's path.
const SCRIPT: &str = "A script, or - for standard input";

/// The path of a script or record.
fn path<'a>(alloc: Global, help: &'a str) -> Arg<'a>
    ensures rule { rule_of result ≡ file }
    ensures own { result.global ≡ false }
{
    Arg::new(alloc, "FILE")
        .required(true)
        .help(help)
        .action(ArgAction::Set)
}

/// An option that takes a number.
fn number<'a>(alloc: Global, name: &'a str, help: &'a str, parser: ValueParser<'a>) -> Arg<'a>
    ensures rule { rule_of result ≡ number name.entry.now parser.entry }
    ensures own { result.global ≡ false }
{
    Arg::new(alloc, name)
        .long(name)
        .value_name("N")
        .value_parser(parser)
        .help(help)
        .action(ArgAction::Set)
}

/// An option that takes a number up to 4294967295.
fn count<'a>(alloc: Global, name: &'a str, help: &'a str) -> Arg<'a>
    ensures rule { rule_of result ≡ count name.entry.now }
    ensures own { result.global ≡ false }
{
    number(alloc, name, help, value_parser!(u32))
}

/// An option that takes a number up to 18446744073709551615.
fn large<'a>(alloc: Global, name: &'a str, help: &'a str) -> Arg<'a>
    ensures rule { rule_of result ≡ large name.entry.now }
    ensures own { result.global ≡ false }
{
    number(alloc, name, help, value_parser!(u64))
}

/// A count of background actors, none unless it is given.
fn background<'a>(alloc: Global, name: &'a str, help: &'a str) -> Arg<'a>
    ensures rule { rule_of result ≡ background name.entry.now }
    ensures own { result.global ≡ false }
{
    count(alloc, name, help).default_value("0")
}

/// An option that takes no value.
fn flag<'a>(alloc: Global, name: &'a str, help: &'a str) -> Arg<'a>
    ensures rule { rule_of result ≡ flag name.entry.now }
    ensures own { result.global ≡ false }
{
    Arg::new(alloc, name)
        .long(name)
        .help(help)
        .action(ArgAction::SetTrue)
}

/// The option that says what FILE is.
fn recorded<'a>(alloc: Global) -> Arg<'a>
    ensures rule { rule_of result ≡ flag (codes "record") }
    ensures own { result.global ≡ false }
{
    let help = "FILE is a record, whose replies have to be this heap's";
    flag(alloc, "record", help)
}

/// The option that takes the seed.
fn schedule<'a>(alloc: Global) -> Arg<'a>
    ensures rule { rule_of result ≡ schedule }
    ensures own { result.global ≡ false }
{
    let help = "The seed, 0 to 18446744073709551615";
    large(alloc, "schedule", help).required(true)
}

/// The option that takes the number of worker threads.
fn workers<'a>(alloc: Global) -> Arg<'a>
    ensures rule { rule_of result ≡ workers }
    ensures own { result.global ≡ false }
{
    count(alloc, "workers", "Worker threads, 1 to 32").required(true)
}

/// The option that takes how many events there are to a moment of a page, one unless it is given.
fn every<'a>(alloc: Global) -> Arg<'a>
    ensures rule { rule_of result ≡ every }
    ensures own { result.global ≡ false }
{
    let help = "Shows a moment each N events, 1 to 1000000";
    number(alloc, "every", help, ValueParser::signed(1, 1_000_000)).default_value("1")
}

/// The option that takes the path of a file of names for shapes.
fn names<'a>(alloc: Global) -> Arg<'a>
    ensures rule { rule_of result ≡ names }
    ensures own { result.global ≡ false }
{
    let help = "Shows the names for shapes that the lines of a file give";
    Arg::new(alloc, "names")
        .long("names")
        .value_name("FILE")
        .help(help)
        .action(ArgAction::Set)
}

/// The option that takes the path of a file of names for types.
fn types<'a>(alloc: Global) -> Arg<'a>
    ensures rule { rule_of result ≡ types }
    ensures own { result.global ≡ false }
{
    let help =
        "Names types by first data words in a census or a snapshot: the lines of a file, as `7 pair`";
    Arg::new(alloc, "types")
        .long("types")
        .value_name("FILE")
        .help(help)
        .action(ArgAction::Set)
}

/// The option that asks for more lines after a fault's own.
fn explain<'a>(alloc: Global) -> Arg<'a>
    ensures rule { rule_of result ≡ flag (codes "explain") }
    ensures own { result.global ≡ false }
{
    let help =
        "Explains a fault: which line has it, what may stand there, what the mistake may be; and a no of check";
    flag(alloc, "explain", help)
}

// What holds a command is dropped by `drop`, one call: a drop that isn't written writes each of its fields out.

/// Adds an argument, unless memory was refused before.
fn with_arg<'a>(
    command: Result<Command<'a>, AllocError>,
    arg: Arg<'a>,
) -> Result<Command<'a>, AllocError>
    requires { arg.global ≡ false }
    ensures { (app : App) → IfOk command.entry (IsReadAs app) → IfOk result (IsReadAs (with_rule app (rule_of arg.entry))) }
{
    match command {
        Ok(command) => command.arg(arg),
        Err(error) => {
            drop(arg);
            Err(error)
        }
    }
}

/// Adds a subcommand, unless memory was refused for it or before.
fn with_subcommand<'a>(
    command: Result<Command<'a>, AllocError>,
    subcommand: Result<Command<'a>, AllocError>,
) -> Result<Command<'a>, AllocError>
    ensures { (app sub : App) → sub.top.is_plain ≡ true → IfOk command.entry (IsReadAs app) → IfOk subcommand.entry (IsReadAs sub)
        → IfOk result (IsReadAs (with_subcommand app sub.top)) }
{
    match command {
        Ok(command) => match subcommand {
            Ok(subcommand) => command.subcommand(subcommand),
            Err(error) => {
                drop(command);
                Err(error)
            }
        },
        Err(error) => {
            drop(subcommand);
            Err(error)
        }
    }
}

/// A subcommand that takes a path alone.
fn with_path<'a>(
    alloc: Global,
    name: &'a str,
    about: &'a str,
    help: &'a str,
) -> Result<Command<'a>, AllocError>
    ensures { IfOk result (IsReadAs (with_path name.entry.now)) }
{
    Command::new(alloc, name)
        .about(about)
        .arg(path(alloc, help))
}

/// A subcommand that takes a path, and whether a fault is to be explained.
fn plain<'a>(
    alloc: Global,
    name: &'a str,
    about: &'a str,
    help: &'a str,
) -> Result<Command<'a>, AllocError>
    ensures { IfOk result (IsReadAs (plain name.entry.now)) }
{
    let command = with_path(alloc, name, about, help);
    with_arg(command, explain(alloc))
}

/// A subcommand that runs a script by actors, in an order that takes one number.
fn by_actors<'a>(
    alloc: Global,
    name: &'a str,
    about: &'a str,
    order: Arg<'a>,
) -> Result<Command<'a>, AllocError>
    requires { order.global ≡ false }
    ensures { IfOk result (IsReadAs (by_actors name.entry.now (rule_of order.entry))) }
{
    let command = plain(alloc, name, about, SCRIPT);
    let command = with_arg(command, order);
    let command = with_arg(
        command,
        background(alloc, "refiners", "Background refiners, 0 to 8"),
    );
    with_arg(
        command,
        background(alloc, "markers", "Background markers, 0 to 8"),
    )
}

fn run_command<'a>(alloc: Global) -> Result<Command<'a>, AllocError>
    ensures { IfOk result (IsReadAs (plain (codes "run"))) }
{
    plain(
        alloc,
        "run",
        "Does the steps of a script, and prints the record",
        SCRIPT,
    )
}

fn sim_command<'a>(alloc: Global) -> Result<Command<'a>, AllocError>
    ensures { IfOk result (IsReadAs (by_actors (codes "sim") schedule)) }
{
    by_actors(
        alloc,
        "sim",
        "Does each actor's steps of a script, the actors in turns that a seed draws, and prints the record",
        schedule(alloc),
    )
}

fn threads_command<'a>(alloc: Global) -> Result<Command<'a>, AllocError>
    ensures { IfOk result (IsReadAs (by_actors (codes "threads") workers)) }
{
    by_actors(
        alloc,
        "threads",
        "Does each actor's steps of a script, the actors in turns of threads, and prints the record",
        workers(alloc),
    )
}

fn check_command<'a>(alloc: Global) -> Result<Command<'a>, AllocError>
    ensures { IfOk result (IsReadAs checked) }
{
    let command = plain(
        alloc,
        "check",
        "Judges a record by the graph alone",
        "A record, or - for standard input",
    );
    let help = "Judges each event as soon as its line is written, and says no at once";
    with_arg(command, flag(alloc, "follow", help))
}

fn view_command<'a>(alloc: Global) -> Result<Command<'a>, AllocError>
    ensures { IfOk result (IsReadAs viewed) }
{
    let command = plain(
        alloc,
        "view",
        "Does the steps of a script, and prints the heap as it stands then",
        SCRIPT,
    );
    let command = with_arg(command, recorded(alloc));
    let command = with_arg(
        command,
        count(
            alloc,
            "at",
            "Views the heap after N steps, and not the last one",
        ),
    );
    let command = with_arg(command, count(alloc, "region", "Views region N alone"));
    let help = "Prints a line a region, and what they add up to";
    let command = with_arg(command, flag(alloc, "summary", help));
    let help = "Views object #N alone: all its fields, and who names it";
    let command = with_arg(command, large(alloc, "object", help));
    let help = "Prints a shortest way from a root to object #N, by pointers";
    let command = with_arg(command, large(alloc, "path", help));
    let help = "Counts objects and words by shape and first data word, most words first";
    let command = with_arg(command, flag(alloc, "census", help));
    let help = "Prints a snapshot for the tools of Chrome and Node: a .heapsnapshot file";
    let command = with_arg(command, flag(alloc, "heapsnapshot", help));
    with_arg(command, types(alloc))
}

fn draw_command<'a>(alloc: Global) -> Result<Command<'a>, AllocError>
    ensures { IfOk result (IsReadAs drawn) }
{
    let command = plain(
        alloc,
        "draw",
        "Does the steps of a script, and prints the life of its heap as a page of HTML",
        SCRIPT,
    );
    let command = with_arg(command, every(alloc));
    let command = with_arg(command, recorded(alloc));
    with_arg(command, names(alloc))
}

/// The program, without its subcommands.
fn bare<'a>(alloc: Global) -> Command<'a>
    ensures { IsReadAs bare result }
{
    Command::new(alloc, "g1heap")
        .about("A Garbage-First heap by steps")
        .version("0.1.0")
        .after_help(FORMATS)
        .subcommand_required(true)
}

fn command<'a>(alloc: Global) -> Result<Command<'a>, AllocError>
    ensures { IfOk result (IsReadAs g1heap) }
{
    let command = with_subcommand(Ok(bare(alloc)), run_command(alloc));
    let command = with_subcommand(command, sim_command(alloc));
    let command = with_subcommand(command, threads_command(alloc));
    let command = with_subcommand(command, check_command(alloc));
    let command = with_subcommand(command, view_command(alloc));
    with_subcommand(command, draw_command(alloc))
}

/// The count that was given for an option, or its default.
fn count_in(found: &ArgMatches, name: &str) -> Option<u32>
    ensures { result ≡ number_in 32 name.now (rows_of (found_of found.now)) }
{
    found.get_one::<u32>(name)
}

/// The number of up to 64 bits that was given for an option.
fn large_in(found: &ArgMatches, name: &str) -> Option<u64>
    ensures { result ≡ number_in 64 name.now (rows_of (found_of found.now)) }
{
    found.get_one::<u64>(name)
}

fn drawn_order(found: &ArgMatches) -> Option<Order>
    ensures { result ≡ drawn_in (rows_of (found_of found.now)) }
{
    Some(Order::Drawn {
        seed: large_in(found, "schedule")?,
        refiners: count_in(found, "refiners")?,
        markers: count_in(found, "markers")?,
    })
}

fn threads_order(found: &ArgMatches) -> Option<Order>
    ensures { result ≡ threads_in (rows_of (found_of found.now)) }
{
    Some(Order::Concurrent {
        workers: count_in(found, "workers")?,
        refiners: count_in(found, "refiners")?,
        markers: count_in(found, "markers")?,
    })
}

/// Whether an option that takes no value was given.
fn flag_in(found: &ArgMatches, name: &str) -> bool
    ensures { result ≡ flag_in name.now (rows_of (found_of found.now)) }
{
    match found.get_str(name) {
        Some(text) => text == "true",
        None => false,
    }
}

/// What of a heap is viewed where no object was named: its census or its snapshot, where that was asked for.
fn wide_in(found: &ArgMatches) -> Viewed
    ensures { result ≡ wide_in (rows_of (found_of found.now)) }
{
    if flag_in(found, "census") {
        return Viewed::Census;
    }
    if flag_in(found, "heapsnapshot") {
        return Viewed::Snapshot;
    }
    Viewed::Regions {
        region: count_in(found, "region"),
        summary: flag_in(found, "summary"),
    }
}

/// What of a heap is viewed where no object is viewed by itself: a way to one where that was asked for.
fn pathed_in(found: &ArgMatches) -> Viewed
    ensures { result ≡ pathed_in (rows_of (found_of found.now)) }
{
    match large_in(found, "path") {
        Some(name) => Viewed::Path(name),
        None => wide_in(found),
    }
}

/// What of a heap is viewed: an object where its name was given.
fn viewed_in(found: &ArgMatches) -> Viewed
    ensures { result ≡ viewed_in (rows_of (found_of found.now)) }
{
    match large_in(found, "object") {
        Some(name) => Viewed::Object(name),
        None => pathed_in(found),
    }
}

/// What a subcommand does with the file. `None`: the subcommand is unknown, or a value isn't there.
fn task_of(name: &str, found: &ArgMatches) -> Option<Task>
    ensures { result ≡ task_in name.now (rows_of (found_of found.now)) }
{
    match name {
        "run" => Some(Task::Script(Order::File)),
        "sim" => Some(Task::Script(drawn_order(found)?)),
        "threads" => Some(Task::Script(threads_order(found)?)),
        "check" => Some(Task::Check {
            followed: flag_in(found, "follow"),
        }),
        "view" => Some(Task::View {
            recorded: flag_in(found, "record"),
            at: count_in(found, "at"),
            viewed: viewed_in(found),
        }),
        "draw" => Some(Task::Draw {
            every: count_in(found, "every")?,
            recorded: flag_in(found, "record"),
        }),
        _ => None,
    }
}

/// The text that was given for an option, or the path for `FILE`.
fn text_in<'a>(found: &ArgMatches<'a>, name: &str) -> Option<&'a str>
    ensures { option_map (λ text. text.now) result ≡ first_of name.now (rows_of (found_of found.now)) }
{
    found.get_str(name)
}

/// What a subcommand's words ask for. `None`: the subcommand is unknown, or a value isn't there.
fn job_of<'a>(name: &str, found: &ArgMatches<'a>) -> Option<Job<'a>>
    ensures asked { option_map asked_by result ≡ asked_in name.now (rows_of (found_of found.now)) }
    ensures names { IfSome result (λ job. names_by job ≡ names_in (rows_of (found_of found.now))) }
    ensures types { IfSome result (λ job. types_by job ≡ types_in (rows_of (found_of found.now))) }
{
    let task = task_of(name, found)?;
    let file = text_in(found, "FILE")?;
    Some(Job {
        file,
        names: text_in(found, "names"),
        types: text_in(found, "types"),
        task,
        explained: flag_in(found, "explain"),
    })
}

/// What a parse's matches ask for. `None`: there is no subcommand, or it asks for nothing.
fn job_found<'a>(matches: &ArgMatches<'a>) -> Option<Job<'a>>
    ensures asked { option_map asked_by result
        ≡ option_and_then (λ found. asked_in found.0 found.1) (subcommand_rows_of matches.now) }
    ensures names { IfSome result (λ job. names_by job
        ≡ option_and_then (λ found. names_in found.1) (subcommand_rows_of matches.now)) }
    ensures types { IfSome result (λ job. types_by job
        ≡ option_and_then (λ found. types_in found.1) (subcommand_rows_of matches.now)) }
{
    let (name, found) = matches.subcommand()?;
    job_of(name, found)
}

/// What a command line's words ask for, by the commands that there are.
fn job_among<'a>(command: &mut Command<'a>, words: &'a [String]) -> Result<Job<'a>, Error>
    requires { IsReadAs g1heap command.old }
    ensures job { IfOk result (λ job. asked_of (map string_bytes words.entry.now) ≡ Some (asked_by job)) }
    ensures names { IfOk result (λ job. names_of (map string_bytes words.entry.now) ≡ names_by job) }
    ensures types { IfOk result (λ job. types_of (map string_bytes words.entry.now) ≡ types_by job) }
    ensures faults { FailsBy (faults_of (map string_bytes words.entry.now)) result }
{
    let matches = command.try_get_matches_from_mut(words)?;
    let job = job_found(&matches);
    drop(matches);
    match job {
        Some(job) => Ok(job),
        None => Err(command.error(ErrorKind::MissingRequiredArgument, "an argument is missing")?),
    }
}

/// What the words of a command line ask for, or the text for the user.
pub fn read_words<'a>(alloc: Global, words: &'a [String]) -> Result<Job<'a>, Error>
    ensures job { IfOk result (λ job. asked_of (map string_bytes words.entry.now) ≡ Some (asked_by job)) }
    ensures names { IfOk result (λ job. names_of (map string_bytes words.entry.now) ≡ names_by job) }
    ensures types { IfOk result (λ job. types_of (map string_bytes words.entry.now) ≡ types_by job) }
    ensures faults { FailsBy (faults_of (map string_bytes words.entry.now)) result }
{
    let mut command = command(alloc)?;
    let job = job_among(&mut command, words);
    drop(command);
    job
}

/// What the plainest words ask for, and that only want of memory refuses them. So each line of the picture above is proved.
pub fn words_law()
    ensures run { (program path : List ℕ) → is_path path ≡ true
        → Asks (program ∷ codes "run" ∷ path ∷ []) (path, Script File, false) }
    ensures sim { (program path : List ℕ) → is_path path ≡ true
        → Asks (program ∷ codes "sim" ∷ path ∷ codes "--schedule" ∷ codes "7" ∷ []) (path, Script (Drawn 7 0 0), false) }
    ensures threads { (program path : List ℕ) → is_path path ≡ true
        → Asks (program ∷ codes "threads" ∷ path ∷ codes "--workers" ∷ codes "2" ∷ []) (path, Script (Concurrent 2 0 0), false) }
    ensures check { (program path : List ℕ) → is_path path ≡ true
        → Asks (program ∷ codes "check" ∷ path ∷ []) (path, Check false, false) }
    ensures follow { (program path : List ℕ) → is_path path ≡ true
        → Asks (program ∷ codes "check" ∷ path ∷ codes "--follow" ∷ []) (path, Check true, false) }
    ensures view { (program path : List ℕ) → is_path path ≡ true
        → Asks (program ∷ codes "view" ∷ path ∷ []) (path, View false None (Regions None false), false) }
    ensures draw { (program path : List ℕ) → is_path path ≡ true
        → Asks (program ∷ codes "draw" ∷ path ∷ []) (path, Draw 1 false, false) }
    ensures every { (program path : List ℕ) → is_path path ≡ true
        → Asks (program ∷ codes "draw" ∷ path ∷ codes "--every" ∷ codes "10" ∷ []) (path, Draw 10 false, false) }
    ensures redraw { (program path : List ℕ) → is_path path ≡ true
        → Asks (program ∷ codes "draw" ∷ path ∷ codes "--record" ∷ []) (path, Draw 1 true, false) }
    ensures names { (program path file : List ℕ) → is_path path ≡ true → is_path file ≡ true
        → Asks (program ∷ codes "draw" ∷ path ∷ codes "--names" ∷ file ∷ []) (path, Draw 1 false, false)
        × (names_of (program ∷ codes "draw" ∷ path ∷ codes "--names" ∷ file ∷ []) ≡ Some file) }
    ensures no_names { (program path : List ℕ) → is_path path ≡ true → names_of (program ∷ codes "draw" ∷ path ∷ []) ≡ None }
    ensures at { (program path : List ℕ) → is_path path ≡ true
        → Asks (program ∷ codes "view" ∷ path ∷ codes "--at" ∷ codes "9" ∷ [])
        (path, View false (Some 9) (Regions None false), false) }
    ensures object { (program path : List ℕ) → is_path path ≡ true
        → Asks (program ∷ codes "view" ∷ path ∷ codes "--object" ∷ codes "7" ∷ []) (path, View false None (Object 7), false) }
    ensures way { (program path : List ℕ) → is_path path ≡ true
        → Asks (program ∷ codes "view" ∷ path ∷ codes "--path" ∷ codes "7" ∷ []) (path, View false None (Path 7), false) }
    ensures census { (program path : List ℕ) → is_path path ≡ true
        → Asks (program ∷ codes "view" ∷ path ∷ codes "--census" ∷ []) (path, View false None Census, false) }
    ensures heapsnapshot { (program path : List ℕ) → is_path path ≡ true
        → Asks (program ∷ codes "view" ∷ path ∷ codes "--heapsnapshot" ∷ []) (path, View false None Snapshot, false) }
    ensures types { (program path file : List ℕ) → is_path path ≡ true → is_path file ≡ true
        → Asks (program ∷ codes "view" ∷ path ∷ codes "--heapsnapshot" ∷ codes "--types" ∷ file ∷ [])
        (path, View false None Snapshot, false)
        × (types_of (program ∷ codes "view" ∷ path ∷ codes "--heapsnapshot" ∷ codes "--types" ∷ file ∷ []) ≡ Some file) }
    ensures no_types { (program path : List ℕ) → is_path path ≡ true → types_of (program ∷ codes "view" ∷ path ∷ []) ≡ None }
    ensures run_explained { (program path : List ℕ) → is_path path ≡ true
        → Asks (program ∷ codes "run" ∷ path ∷ codes "--explain" ∷ []) (path, Script File, true) }
    ensures check_explained { (program path : List ℕ) → is_path path ≡ true
        → Asks (program ∷ codes "check" ∷ path ∷ codes "--explain" ∷ []) (path, Check false, true) }
    ensures view_explained { (program path : List ℕ) → is_path path ≡ true
        → Asks (program ∷ codes "view" ∷ path ∷ codes "--explain" ∷ []) (path, View false None (Regions None false), true) }
    ensures draw_explained { (program path : List ℕ) → is_path path ≡ true
        → Asks (program ∷ codes "draw" ∷ path ∷ codes "--explain" ∷ []) (path, Draw 1 false, true) }
{}

/// The text for the user where a word isn't UTF-8.
pub fn misspelt(alloc: Global) -> Error
    ensures { HasKind (InvalidValue ∷ []) result }
{
    match misspelt_words(alloc) {
        Ok(error) => error,
        Err(error) => Error::from(error),
    }
}

fn misspelt_words(alloc: Global) -> Result<Error, AllocError>
    ensures { IfOk result (λ e. kind_of e ≡ InvalidValue) }
{
    let mut command = command(alloc)?;
    let error = command.error(ErrorKind::InvalidValue, "a word isn't UTF-8");
    drop(command);
    error
}
