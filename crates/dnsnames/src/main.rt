//! Shows domain names: `dnsnames at PLACE` reads a message from standard input and prints the name that
//! stands at PLACE, with `--pointers N` after it through at most N pointers. `dnsnames list` prints a line
//! for each question and record of the message, and `dnsnames text NAME` the wire format of a name.
#![tactic(auto)]

use domain_tool::start::{Program, start};
use domain_tool::tool;
use std::alloc::Global;
use std::io::{Read, Write};
use std::process::ExitCode;

struct Names;

impl Program for Names {
    fn run<R: Read, W: Write, E: Write>(
        alloc: Global,
        words: &[&str],
        input: &mut R,
        output: &mut W,
        errors: &mut E,
    ) -> u8 {
        tool::run(alloc, words, input, output, errors)
    }
}

fn main(rt: HostRuntime) -> ExitCode {
    start::<Names>(&rt)
}
