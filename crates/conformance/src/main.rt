//! The conformance table's program: reads calls from standard input, one a line, makes them, and prints one
//! line of answer for each.
//!
//! README.md lists the lines and the answers.
#![tactic(auto)]

mod command;
mod compress;
mod everywhere;
mod message;
mod names;
mod onto;
mod program;
mod records;
mod slow_reader;

use crate::command::answer_parsed;
use crate::program::put_run;
use conformance_labels::{Answer, Fail, Fields, Table, answer_labels, answer_table};
use conformance_names::{answer_names, answer_texts};
use std::process::ExitCode;

struct CallTable;

impl Table for CallTable {
    fn respond(line: &[u8], out: &Answer) {
        let fields = &Fields::new(line);
        let is_answered = answer_parsed(fields, out)
            || answer_texts(fields, out)
            || answer_names(fields, out)
            || answer_labels(fields, out)
            || answer_run(fields, out);
        if !is_answered {
            out.fail(Fail::Bad);
        }
    }
}

/// `run WORDS INPUT`
fn answer_run(fields: &Fields<'_>, out: &Answer) -> bool {
    if fields.at(0) != b"run".as_slice() {
        return false;
    }
    fields.expect(3, out);
    put_run(out, fields.at(1), fields.at(2));
    true
}

fn main(rt: HostRuntime) -> ExitCode {
    answer_table::<CallTable>(&rt)
}
