// The subcommands of the command line.
ghost use Rattle.std.specs.Prelude.{◌≡◌, ℕ, true, List, [], ◌∷◌, IfOk, IfErr, codes, map, option_and_then, string_bytes};
ghost use Rattle.clap.specs.Words.{kind_of};
ghost use Rattle.pnscript.specs.Words.{is_word, task_asked, task_named};

use clap::error::ErrorKind;
use clap::{Command, Error};
use script_runner::RunFault;
use std::alloc::Global;

/// A task of the program.
#[derive(Clone, Copy)]
pub(crate) enum Task {
    /// Runs the script on standard input.
    Run,
    /// Makes the plan of the catalogue on standard input.
    Plan,
}

/// The task of a command line, which begins with the program's name: `run` or `plan` with nothing after it, else `None`.
pub(crate) fn task_of(alloc: Global, words: &[String]) -> Result<Option<Task>, RunFault>
    ensures answer { IfOk result (λ task. task ≡ task_asked (map string_bytes words.now)) }
    ensures fault { IfErr result (λ fault. fault ≡ RunFault.OutOfMemory) }
{
    if words.len() != 2 {
        return Ok(None);
    }
    match command_in(alloc, words) {
        Ok(task) => Ok(task),
        Err(error) if error.kind() == ErrorKind::OutOfMemory => Err(RunFault::OutOfMemory),
        Err(_) => Ok(None),
    }
}

// The task of the subcommand that is the only word after the program's name. If it is a subcommand, the call fails only
// if there is no memory.
fn command_in(alloc: Global, words: &[String]) -> Result<Option<Task>, Error>
    ensures met { IfOk result (λ task. (program word : List ℕ) → map string_bytes words.now ≡ program ∷ word ∷ [] →
        task ≡ task_named word) }
    ensures passes { IfErr result (λ error. (program word : List ℕ) → is_word word ≡ true →
        map string_bytes words.now ≡ program ∷ word ∷ [] → kind_of error ≡ ErrorKind.OutOfMemory) }
{
    let alone = Command::new(alloc, "pnscript").subcommand(Command::new(alloc, "run"))?;
    let command = alone.subcommand(Command::new(alloc, "plan"))?;
    let matches = command.try_get_matches_from(words)?;
    Ok(task_in(matches.subcommand_name()))
}

// The task of a subcommand, or `None` if there was none.
fn task_in(name: Option<&str>) -> Option<Task>
    ensures { result ≡ option_and_then (λ word. task_named word.now) name.entry }
{
    match name {
        Some("run") => Some(Task::Run),
        Some("plan") => Some(Task::Plan),
        _ => None,
    }
}
