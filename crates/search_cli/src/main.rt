//! The program: one command over the files of the process, its line on standard error, its exit status.
#![tactic(auto)]

mod progress;

use io_ports::HostShelf;
use progress::{Progress, is_asked};
use search_top::{Status, command, search};
use std::io::ErrorKind;
use std::process::ExitCode;
use std::{env, io};

/// The exit status where the words of the command line cannot be read.
const UNREADABLE_WORDS: u8 = 18;

fn main(rt: HostRuntime) -> ExitCode {
    let words = match words_of(&rt) {
        Ok(words) => words,
        Err(error) if error.kind() == ErrorKind::OutOfMemory => {
            return end(&rt, &Status::OutOfMemory);
        }
        Err(_) => {
            let _ = rt.eprintln("cannot read the words");
            return ExitCode::from(UNREADABLE_WORDS);
        }
    };
    let mut shelf = HostShelf::new(&rt);
    let status = match words.first() {
        Some(word) if word.as_str() == "search" => {
            let progress = Progress::new(&rt, is_asked(&rt));
            let status = search(&rt, rt.alloc(), words.as_slice(), &mut shelf, &progress);
            progress.clear();
            status
        }
        _ => command(rt.alloc(), words.as_slice(), &mut shelf),
    };
    end(&rt, &status)
}

/// The words of the command line without the program's own name.
fn words_of(rt: &HostRuntime) -> io::Result<Vec<String>> {
    let words = env::args(rt)?.skip(1).collect(rt.alloc())?;
    Ok(words)
}

/// Prints the line of a status, and gives its exit status.
fn end(rt: &HostRuntime, status: &Status) -> ExitCode {
    match search_top::line_of(rt.alloc(), status) {
        Ok(line) => {
            if !line.as_str().is_empty() {
                let _ = rt.eprintln(line.as_str());
            }
        }
        Err(_) => {
            let _ = rt.eprintln("out of memory");
        }
    }
    ExitCode::from(search_top::exit_of(status))
}
