//! The whole program: its words, the script that they name, and the status.

ghost use Rattle.std.specs.Prelude.{◌≡◌, ◌≤◌, ℕ, List, IfNone, IfSome, false, map, string_bytes, true};
ghost use Rattle.heap_steps.specs.Faults.{IsRunFault};
ghost use Rattle.job_ends.specs.Runs.{Performs};
ghost use Rattle.script_text.specs.Watched.{Reader};
ghost use Rattle.step_core.specs.Passages.{IsRunInOrder};
ghost use Rattle.g1heap_run.specs.Alone.{AskForRun, IsPathWord, RefusesWords, RunsScript, TellsWords};

use heap_steps::RunFault;
use job_ends::{JobFault, conclude};
use script_runs::run_script;
use script_text::{ReadFault, WatchedReader, WatchedWriter, write_bytes};
use std::alloc::Global;
use std::env::Env;
use std::fs::Files;
use std::io::{ErrorKind, Read, Write};
use std::{env, fs, io};

/// The line for words that ask for no run.
const WORDS_LINE: &[u8] =
    b"g1heap_run: it takes the words 'run FILE' alone, with - for standard input; ./g1heap has the rest\n";

/// Whether a word is a path, and no option.
fn is_path(word: &str) -> bool
    ensures yes { result ≡ true → IsPathWord word.now }
    ensures no { result ≡ false → IsPathWord word.now → ⊥ }
{
    word == "-" || word.as_bytes().first() != Some(&b'-')
}

/// The path of the script that the words ask to run, the program's name first.
fn path_in(words: &[String]) -> Option<&str>
    ensures some { IfSome result (λ path. AskForRun (map string_bytes words.now) path.now) }
    ensures none { IfNone result ((path : List ℕ) → AskForRun (map string_bytes words.now) path → ⊥) }
{
    let [_, verb, path] = words else {
        return None;
    };
    if verb.as_str() == "run" && is_path(path.as_str()) {
        Some(path.as_str())
    } else {
        None
    }
}

/// Runs a script, and answers the program's status.
fn run_and_conclude<R: Read, W: Write, E: Write>(
    alloc: Global,
    reader: &mut WatchedReader<R>,
    out: &mut WatchedWriter<W>,
    err: &mut WatchedWriter<E>,
) -> u8
    ensures { Performs IsRunInOrder IsRunFault reader.old reader.new out.old out.new err.old err.new result }
{
    let outcome = run_script(alloc, reader, out);
    conclude(outcome, err)
}

/// Opens a file and runs the script in it, and answers the program's status. A file that can't be opened is told as a reader that refused.
fn run_file<H: Files, W: Write, E: Write>(
    rt: &H,
    alloc: Global,
    path: &str,
    out: &mut WatchedWriter<W>,
    err: &mut WatchedWriter<E>,
) -> u8
    ensures { (given left : Reader) × Performs IsRunInOrder IsRunFault given left out.old out.new err.old err.new result }
{
    match fs::open(rt, path) {
        Ok(file) => run_and_conclude(alloc, &mut WatchedReader::new(file), out, err),
        Err(_) => conclude(Err(JobFault::Read(ReadFault::CannotRead)), err),
    }
}

/// Runs the script at a path, or on `input` where that is `-`, and answers the program's status.
fn run_at<H: Files, I: Read, W: Write, E: Write>(
    rt: &H,
    alloc: Global,
    path: &str,
    input: &mut WatchedReader<I>,
    out: &mut WatchedWriter<W>,
    err: &mut WatchedWriter<E>,
) -> u8
    ensures { RunsScript path.now input.old input.new out.old out.new err.old err.new result }
{
    if path == "-" {
        return run_and_conclude(alloc, input, out, err);
    }
    run_file(rt, alloc, path, out, err)
}

/// Tells which words the program takes, and answers the program's status. That a write of this line fails changes nothing.
fn refuse_words<E: Write>(err: &mut WatchedWriter<E>) -> u8
    ensures status { result ≡ 2 }
    ensures tells { TellsWords err.old err.new }
{
    let _ = write_bytes(err, WORDS_LINE);
    2
}

/// Does what words ask for, the program's name first, and answers the status.
pub fn do_words<H: Files, I: Read, W: Write, E: Write>(
    rt: &H,
    alloc: Global,
    words: &[String],
    input: &mut WatchedReader<I>,
    out: &mut WatchedWriter<W>,
    err: &mut WatchedWriter<E>,
) -> u8
    ensures asked { (path : List ℕ) → AskForRun (map string_bytes words.now) path
        → RunsScript path input.old input.new out.old out.new err.old err.new result }
    ensures other { ((path : List ℕ) → AskForRun (map string_bytes words.now) path → ⊥)
        → RefusesWords input.old input.new out.old out.new err.old err.new result }
    ensures most { result ≤ 2 }
{
    match path_in(words) {
        Some(path) => run_at(rt, alloc, path, input, out, err),
        None => refuse_words(err),
    }
}

/// The words of the command line, the program's name first. A fault is want of memory, or a word that isn't text.
fn words<R: Env + AllocGlobal>(rt: &R) -> io::Result<Vec<String>> {
    let args = env::args(rt)?;
    Ok(args.collect(rt.alloc())?)
}

/// Does what the command line asks for, and answers the program's status.
pub fn program<R: Env + Files + AllocGlobal, I: Read, W: Write, E: Write>(
    rt: &R,
    input: &mut WatchedReader<I>,
    out: &mut WatchedWriter<W>,
    err: &mut WatchedWriter<E>,
) -> u8
    ensures { result ≤ 2 }
{
    match words(rt) {
        Ok(words) => do_words(rt, rt.alloc(), words.as_slice(), input, out, err),
        Err(error) => {
            if error.kind() == ErrorKind::OutOfMemory {
                return conclude(Err(JobFault::Run(RunFault::NoMemory)), err);
            }
            refuse_words(err)
        }
    }
}
