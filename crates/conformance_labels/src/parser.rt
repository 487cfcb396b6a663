//! The calls of a parser, one after another.

use crate::answer::{Answer, Fail};
use crate::fields::{decimal, is, split_once};
use octseq::{Parser, ShortInput};
use std::fmt::Display;

/// A parser of octets at an offset, with an end.
pub fn parser_at(octets: &[u8], begin: usize, end: usize) -> Option<Parser<'_>> {
    if begin > end || end > octets.len() {
        return None;
    }
    Some(Parser::with_range(octets, begin..end))
}

/// A call that reads a number.
#[derive(Clone, Copy)]
enum Number {
    U8,
    I8,
    U16,
    I16,
    U32,
    I32,
    U64,
    I64,
}

/// A call, all but those that read a number and `Rest` with a number of its own.
#[derive(Clone, Copy)]
enum Step {
    Number(Number),
    Rest,
    Peek,
    Octets,
    Buffer,
    Seek,
    Advance,
    Parser,
}

/// The word of a call.
#[derive(Clone, Copy)]
struct Word {
    word: &'static str,
    step: Step,
}

macro_rules! word {
    ($word:literal, $step:expr) => {
        Word {
            word: $word,
            step: $step,
        }
    };
}

/// The calls without a number.
const PLAIN: [Word; 9] = [
    word!("u8", Step::Number(Number::U8)),
    word!("i8", Step::Number(Number::I8)),
    word!("u16", Step::Number(Number::U16)),
    word!("i16", Step::Number(Number::I16)),
    word!("u32", Step::Number(Number::U32)),
    word!("i32", Step::Number(Number::I32)),
    word!("u64", Step::Number(Number::U64)),
    word!("i64", Step::Number(Number::I64)),
    word!("rest", Step::Rest),
];

/// The calls with a number.
const NUMBERED: [Word; 6] = [
    word!("peek", Step::Peek),
    word!("octets", Step::Octets),
    word!("buf", Step::Buffer),
    word!("seek", Step::Seek),
    word!("advance", Step::Advance),
    word!("parser", Step::Parser),
];

fn step_of(words: &[Word], word: &[u8]) -> Option<Step> {
    for known in words {
        if is(word, known.word.as_bytes()) {
            return Some(known.step);
        }
    }
    None
}

/// A call and its number, 0 where it has none.
fn call_of(field: &[u8]) -> Option<(Step, usize)> {
    let (word, number) = split_once(field, b':');
    match number {
        None => Some((step_of(&PLAIN, word)?, 0)),
        Some(digits) => Some((step_of(&NUMBERED, word)?, decimal(digits).ok()?)),
    }
}

/// `parser OCTETS BEGIN END CALLS`: what each call answers, and where the parser stands then.
pub fn put_calls(out: &Answer, octets: &[u8], begin: usize, end: usize, calls: &[u8]) {
    let Some(mut parser) = parser_at(octets, begin, end) else {
        return out.fail(Fail::Bad);
    };
    out.put_hex(parser.octets_ref());
    out.put_hex_after(b" ", parser.as_slice());
    for field in calls.split(|octet| *octet == b';') {
        let Some((step, number)) = call_of(field) else {
            return out.fail(Fail::Bad);
        };
        out.put(b" ");
        put_call(out, &mut parser, step, number);
        out.put_number_after(b"@", parser.pos());
    }
}

fn put_call(out: &Answer, parser: &mut Parser<'_>, step: Step, n: usize) {
    match step {
        Step::Number(number) => put_number(out, parser, number),
        Step::Rest => out.put_hex(parser.peek_all()),
        Step::Peek => put_octets(out, parser.peek(n)),
        Step::Octets => put_octets(out, parser.parse_octets(n)),
        Step::Buffer => put_buffer(out, parser, n),
        Step::Seek => put_done(out, parser.seek(n)),
        Step::Advance => put_done(out, parser.advance(n)),
        Step::Parser => put_parser(out, parser.parse_parser(n)),
    }
}

fn put_number(out: &Answer, parser: &mut Parser<'_>, number: Number) {
    match number {
        Number::U8 => put_value(out, parser.parse_u8()),
        Number::I8 => put_value(out, parser.parse_i8()),
        Number::U16 => put_value(out, parser.parse_u16_be()),
        Number::I16 => put_value(out, parser.parse_i16_be()),
        Number::U32 => put_value(out, parser.parse_u32_be()),
        Number::I32 => put_value(out, parser.parse_i32_be()),
        Number::U64 => put_value(out, parser.parse_u64_be()),
        Number::I64 => put_value(out, parser.parse_i64_be()),
    }
}

fn put_value<T: Display + Drop>(out: &Answer, value: Result<T, ShortInput>) {
    match value {
        Ok(value) => out.put_text(value),
        Err(error) => out.put_text(error),
    }
}

fn put_octets(out: &Answer, octets: Result<&[u8], ShortInput>) {
    match octets {
        Ok(octets) => out.put_hex(octets),
        Err(error) => out.put_text(error),
    }
}

fn put_done(out: &Answer, done: Result<(), ShortInput>) {
    match done {
        Ok(()) => out.put(b"ok"),
        Err(error) => out.put_text(error),
    }
}

/// A parser's offset, and its remaining octets.
fn put_parser(out: &Answer, parser: Result<Parser<'_>, ShortInput>) {
    match parser {
        Ok(parser) => {
            out.put_number(parser.pos());
            out.put_hex_after(b":", parser.peek_all());
        }
        Err(error) => out.put_text(error),
    }
}

/// Fills a buffer that held octets of 238, of which a refused call leaves each.
fn put_buffer(out: &Answer, parser: &mut Parser<'_>, len: usize) {
    let mut buffer = [238u8; 32];
    match buffer.get_mut(..len) {
        Some(octets) => {
            let done = parser.parse_buf(octets);
            put_done(out, done);
        }
        None => return out.fail(Fail::Bad),
    }
    out.put(b":");
    if let Some(octets) = buffer.get(..len) {
        out.put_hex(octets);
    }
}
