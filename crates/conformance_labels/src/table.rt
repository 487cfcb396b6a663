//! A program that answers a table: each line of standard input by a line on standard output.

use crate::answer::Answer;
use crate::fields::is_heading;
use std::alloc::{AllocError, Global};
use std::io::{Read, Write};
use std::process::ExitCode;

/// What a program answers to the lines of its table.
pub trait Table {
    /// Answers a line that is neither empty nor a heading.
    fn respond(line: &[u8], out: &Answer);
}

/// Answers each line of the input. A line that begins with `#` is a heading, and its own answer.
fn answer_all<T: Table>(alloc: Global, input: &[u8], out: &mut Vec<u8>) -> Result<(), AllocError> {
    let answer = Answer::new(alloc);
    for line in input.split(|octet| *octet == b'\n') {
        if line.is_empty() {
            continue;
        }
        answer.clear();
        if is_heading(line) {
            answer.put(line);
        } else {
            T::respond(line, &answer);
        }
        answer.end_line(out)?;
    }
    Ok(())
}

/// Answers the table on standard input. The status is 3 where reading, writing or an allocation failed.
pub fn answer_table<T: Table>(rt: &HostRuntime) -> ExitCode {
    let alloc = rt.alloc();
    let mut input = Vec::new(alloc);
    if rt.stdin().read_to_end(&mut input).is_err() {
        return ExitCode::from(3);
    }
    let mut out = Vec::new(alloc);
    if answer_all::<T>(alloc, input.as_slice(), &mut out).is_err() {
        return ExitCode::from(3);
    }
    match rt.stdout().write_all(out.as_slice()) {
        Ok(()) => ExitCode::from(0),
        Err(_) => ExitCode::from(3),
    }
}
