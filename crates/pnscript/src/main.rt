//! The program `pnscript`. `pnscript run` runs the script on standard input on a demo device, and writes to standard
//! output what it prints. `pnscript plan` makes the plan of the catalogue on standard input, and writes the layouts of
//! its cyclic frames.
#![tactic(auto)]

mod words;

use script_runner::{RunFault, plan_text, run};
use std::env;
use std::io::{self, BufWriter, ErrorKind, Input, Write};
use std::process::ExitCode;
use words::{Task, task_of};

/// The exit status for an invalid command line.
const USAGE: u8 = 64;

/// The most bytes of one write.
const BUFFER: usize = 65_536;

fn main(rt: HostRuntime) -> ExitCode {
    match obey(&rt) {
        Ok(true) => ExitCode::SUCCESS,
        Ok(false) => {
            let _ = eprintln!(rt; "pnscript: usage");
            ExitCode::from(USAGE)
        }
        Err(fault) => {
            let _ = eprintln!(rt; "pnscript: {fault}");
            ExitCode::from(fault.number())
        }
    }
}

/// Does what the command line asks for. Returns whether it is valid.
fn obey(rt: &HostRuntime) -> Result<bool, RunFault> {
    let words = match env::args(rt) {
        Ok(words) => words,
        Err(error) if error.kind() == ErrorKind::OutOfMemory => return Err(RunFault::OutOfMemory),
        Err(_) => return Ok(false),
    };
    let words: Vec<String> = words
        .collect(rt.alloc())
        .map_err(|_| RunFault::OutOfMemory)?;
    let Some(task) = task_of(rt.alloc(), words.as_slice())? else {
        return Ok(false);
    };
    work(rt, task)?;
    Ok(true)
}

/// Does a task. What the lines of a script printed is written even if a later line is refused.
fn work(rt: &HostRuntime, task: Task) -> Result<(), RunFault> {
    let mut reader = rt.reader();
    let Ok(mut writer) = BufWriter::with_capacity(rt.alloc(), BUFFER, io::writer(rt)) else {
        return Err(RunFault::OutOfMemory);
    };
    let done = match task {
        Task::Run => run(rt.alloc(), &mut reader, &mut writer),
        Task::Plan => plan_text(rt.alloc(), &mut reader, &mut writer),
    };
    writer.flush().map_err(|_| RunFault::Write)?;
    done
}
