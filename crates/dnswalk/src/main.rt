//! Shows what a message from standard input says. `dnswalk OFFSET` prints a line for each label and pointer that
//! reading the name at the offset comes to. A last line has the name or why there is none. `dnswalk message` prints
//! the header, and a line for each question and record. `dnswalk make` reads such lines, and writes their message.
//! With `--hex` after any of them the message is in hexadecimal digits.
#![tactic(auto)]

mod engine;
mod follow;
mod hexadecimal;
mod step;

use crate::engine::run as walk;
use domain_make::engine::run as make;
use domain_tool::start::{Program, start};
use std::alloc::Global;
use std::io::{Read, Write};
use std::process::ExitCode;

struct Walk;

impl Program for Walk {
    fn run<R: Read, W: Write, E: Write>(
        alloc: Global,
        words: &[&str],
        input: &mut R,
        output: &mut W,
        errors: &mut E,
    ) -> u8 {
        match words.first() {
            Some(&"make") => make(alloc, words, input, output, errors),
            _ => walk(alloc, words, input, output, errors),
        }
    }
}

fn main(rt: HostRuntime) -> ExitCode {
    start::<Walk>(&rt)
}
