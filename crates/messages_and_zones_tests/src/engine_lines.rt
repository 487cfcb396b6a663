//! The engines that list a message and show a name's wire format, over readers and writers that fail, and with
//! memory refused.

use crate::engine_errors::ANSWER;
use crate::engines::{CountingWriter, FailingReader, FailingWriter, KINDS};
use crate::memory::MOST_REFUSED;
use arrayvec::ArrayVec;
use domain_tool::tool::{ToolError, list, name_text, run};
use std::alloc::AllocError;
use std::io;
use std::io::{ErrorKind, Write};

const LINES: &[u8] = b"question a. 1 1\nanswer a. 1 1 3600 \\# 4 c0 00 02 01\n";

const WIRE: &[u8] = b"03777777076578616d706c6503636f6d00\n";

/// A writer that takes all octets, and fails where they are to be flushed.
#[derive(Drop)]
struct KeepingWriter {
    octets: usize,
}

impl Write for KeepingWriter {
    fn write(&mut self, buf: &[u8]) -> io::Result<usize> {
        self.octets = self.octets.saturating_add(buf.len());
        Ok(buf.len())
    }

    fn flush(&mut self) -> io::Result<()> {
        Err(io::Error::from(ErrorKind::BrokenPipe))
    }
}

#[test]
fn a_reader_that_fails_lists_nothing(rt: HostRuntime) {
    for (kind, error, _) in KINDS {
        for fails_after in 0..ANSWER.len() + 1 {
            let mut input = FailingReader {
                octets: ANSWER,
                given: 0,
                fails_after,
                kind,
            };
            let mut output = ArrayVec::<u8, 64>::new();
            let answer = list(rt.alloc(), &mut input, &mut output);
            assert!(rt; answer == Err(error) && output.is_empty());
        }
    }
}

#[test]
fn a_writer_of_lines_that_fails_is_told(rt: HostRuntime) {
    for (kind, _, error) in KINDS {
        for left in 0..LINES.len() + 1 {
            let mut input = ANSWER;
            let mut output = FailingWriter { left, kind };
            let answer = list(rt.alloc(), &mut input, &mut output);
            let wanted = if left < LINES.len() {
                Err(error)
            } else {
                Ok(())
            };
            assert!(rt; answer == wanted);
        }
    }
}

#[test]
fn a_writer_of_a_wire_form_that_fails_is_told(rt: HostRuntime) {
    for (kind, _, _) in KINDS {
        for left in 0..WIRE.len() + 1 {
            let mut output = FailingWriter { left, kind };
            let answer = name_text(rt.alloc(), "www.example.com", &mut output);
            let wanted = if left < WIRE.len() {
                Err(ToolError::Write)
            } else {
                Ok(())
            };
            assert!(rt; answer == wanted);
        }
    }
}

#[test]
fn many_lines_are_written_at_once(rt: HostRuntime) -> Result<(), AllocError> {
    // A header that counts 2,000 questions, and so many for the root. Each has a line of 15 octets.
    let mut message = vec![in rt.alloc(); 0u8; 10_012]?;
    message[4] = 0x07;
    message[5] = 0xd0;
    let mut input = message.as_slice();
    let mut output = CountingWriter {
        calls: 0,
        octets: 0,
    };
    assert!(rt; list(rt.alloc(), &mut input, &mut output) == Ok(()));
    assert!(rt; (output.calls, output.octets) == (4, 30_000));
    Ok(())
}

#[test]
fn lines_that_are_not_flushed_are_told(rt: HostRuntime) {
    for words in [["list"].as_slice(), &["at", "12"], &["text", "a"]] {
        let mut input = ANSWER;
        let mut output = KeepingWriter { octets: 0 };
        let mut told = ArrayVec::<u8, 32>::new();
        let status = run(rt.alloc(), words, &mut input, &mut output, &mut told);
        assert!(rt; status == 3 && told.as_slice() == b"writing failed\n".as_slice());
        assert!(rt; output.octets != 0);
    }
}

#[test]
fn a_message_is_listed_or_memory_was_refused(rt: HostRuntime) {
    let mut input = ANSWER;
    let mut output = ArrayVec::<u8, 64>::new();
    match list(rt.alloc(), &mut input, &mut output) {
        Ok(()) => assert!(rt; output.as_slice() == LINES),
        Err(e) => {
            assert!(rt; e == ToolError::Memory);
            assert!(rt; MOST_REFUSED == 1);
        }
    }
}

/// No request of the engine that shows a wire format is refused: it makes none.
#[test]
fn a_wire_form_is_refused_no_memory(rt: HostRuntime) {
    let mut output = ArrayVec::<u8, 64>::new();
    assert!(rt; name_text(rt.alloc(), "www.example.com", &mut output) == Ok(()));
    assert!(rt; output.as_slice() == WIRE);
}
