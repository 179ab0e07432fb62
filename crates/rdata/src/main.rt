//! Reads the data of one record from a message, and prints it.
#![tactic(auto)]

use rdata_command::{explain, is_longer, run, say, visible};
use std::alloc::{AllocError, Global};
use std::env::Args;
use std::io::{ErrorKind, IsTerminal};
use std::process::ExitCode;
use std::{env, io};

// The words after the program's name. Each allocation that fails is reported: `collect` would try again with less.
fn command_words(alloc: Global, args: Args<Global>) -> Result<Vec<String>, AllocError> {
    let mut words = Vec::new(alloc);
    for word in args.skip(1) {
        words.push(word)?;
    }
    Ok(words)
}

// Runs the command with its control characters made visible.
fn run_visibly<W: io::Write>(alloc: Global, words: &[String], out: &mut W) -> u8 {
    let mut written: Vec<u8> = Vec::new(alloc);
    let status = run(alloc, words, &mut written);
    let text = match String::from_utf8(written) {
        Ok(text) => text,
        Err(_) => return 4,
    };
    // Writing to a vector fails only for memory.
    if status == 4 {
        return say(out, "memory\n", 3);
    }
    match visible(alloc, text.as_str()) {
        Ok(shown) => say(out, shown.as_str(), status),
        Err(_) => say(out, "memory\n", 3),
    }
}

// Writes what is told to people beside the result: why it is rejected, that a word was left out, that writing failed.
fn tell<W: io::Write>(alloc: Global, words: &[String], status: u8, err: &mut W) {
    match status {
        0 => {
            if is_longer(alloc, words) {
                let _ = writeln!(err, "rdata: the last word of the text changes nothing");
            }
        }
        1 => explain(alloc, words, err),
        4 => {
            let _ = writeln!(err, "rdata: the result cannot be written");
        }
        _ => (),
    }
}

fn main(rt: HostRuntime) -> ExitCode {
    let mut out = io::writer(&rt);
    let words = match env::args(&rt) {
        Ok(args) => command_words(rt.alloc(), args),
        Err(e) if e.kind() == ErrorKind::OutOfMemory => {
            return ExitCode::from(say(&mut out, "memory\n", 3));
        }
        Err(_) => return ExitCode::from(4),
    };
    let words = match words {
        Ok(words) => words,
        Err(_) => return ExitCode::from(say(&mut out, "memory\n", 3)),
    };
    let status = if rt.stdout().is_terminal() {
        run_visibly(rt.alloc(), words.as_slice(), &mut out)
    } else {
        run(rt.alloc(), words.as_slice(), &mut out)
    };
    let standard_error = rt.stderr();
    tell(
        rt.alloc(),
        words.as_slice(),
        status,
        &mut io::writer(&standard_error),
    );
    ExitCode::from(status)
}
