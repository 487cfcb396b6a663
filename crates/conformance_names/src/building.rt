//! Builders: calls one after another, and what they make.
ghost use Rattle.std.specs.Prelude.{◌≤◌};

use crate::text::{put_text_error, symbols_of};
use arrayvec::ArrayVec;
use conformance_labels::{Answer, Fail, is, octets_of, put_relative_kind, split_once};
use domain_builder::{FromStrError, PushError, PushNameError};
use domain_label::scan::Symbol;
use domain_name::{BuilderCall, Name, NameBuilder, RelativeName};
use octseq::{EmptyBuilder, FreezeBuilder, Octets, OctetsBuilder, OctetsMut};

/// What ends the calls.
#[derive(Clone, Copy)]
enum Last<'a> {
    Nothing,
    Finish,
    IntoName,
    Origin(Name<&'a [u8]>),
}

/// What is built: the octets that a builder begins with, the calls on it, and what ends them.
#[derive(Clone, Copy)]
struct Plan<'a> {
    front: &'a [u8],
    calls: &'a [BuilderCall<'a>],
    last: Last<'a>,
}

/// The octets after the word of each call, none where there is no argument.
fn arguments_of(out: &Answer, line: &[u8]) -> Vec<Vec<u8>> {
    let mut arguments = Vec::new(out.alloc());
    for field in line.split(|octet| *octet == b';') {
        let (_word, digits) = split_once(field, b':');
        match octets_of(digits.unwrap_or(b"-"), out.alloc()) {
            Ok(octets) => {
                let is_taken = arguments.push(octets).is_ok();
                out.took(is_taken);
            }
            Err(fail) => out.fail(fail),
        }
    }
    arguments
}

/// A call with one octet.
fn octet_call<'a>(word: &[u8], octet: u8) -> Option<BuilderCall<'a>> {
    if is(word, b"push") {
        return Some(BuilderCall::Push(octet));
    }
    if is(word, b"dec") {
        return Some(BuilderCall::AppendDecU8Label(octet));
    }
    if is(word, b"hex") {
        return Some(BuilderCall::AppendHexDigitLabel(octet));
    }
    if is(word, b"simple") {
        return Some(BuilderCall::PushSymbol(Symbol::SimpleEscape(octet)));
    }
    if is(word, b"decimal") {
        return Some(BuilderCall::PushSymbol(Symbol::DecimalEscape(octet)));
    }
    None
}

/// A call with a text.
fn text_call<'a>(word: &[u8], text: &'a str) -> Option<BuilderCall<'a>> {
    if is(word, b"chars") {
        return Some(BuilderCall::AppendChars(text));
    }
    let mut chars = text.chars();
    match (chars.next(), chars.next()) {
        (Some(char), None) if is(word, b"char") => {
            Some(BuilderCall::PushSymbol(Symbol::Char(char)))
        }
        _ => None,
    }
}

/// A call with octets.
fn octets_call<'a>(word: &[u8], octets: &'a [u8]) -> Option<BuilderCall<'a>> {
    if is(word, b"slice") {
        return Some(BuilderCall::AppendSlice(octets));
    }
    if is(word, b"label") {
        return Some(BuilderCall::AppendLabel(octets));
    }
    if is(word, b"name") {
        return Some(BuilderCall::AppendName(RelativeName::from_slice(octets).ok()?));
    }
    None
}

fn call_of<'a>(word: &[u8], octets: &'a [u8]) -> Option<BuilderCall<'a>> {
    if is(word, b"end") {
        return Some(BuilderCall::EndLabel);
    }
    if let Some(call) = octets_call(word, octets) {
        return Some(call);
    }
    if let [octet] = octets {
        if let Some(call) = octet_call(word, *octet) {
            return Some(call);
        }
    }
    text_call(word, str::from_utf8(octets).ok()?)
}

fn last_of<'a>(word: &[u8], octets: &'a [u8]) -> Option<Last<'a>> {
    if is(word, b"finish") {
        return Some(Last::Finish);
    }
    if is(word, b"into_name") {
        return Some(Last::IntoName);
    }
    if is(word, b"origin") {
        return Some(Last::Origin(Name::from_slice(octets).ok()?));
    }
    None
}

/// The argument of a call, no octets where it has none.
fn argument_at(arguments: &[Vec<u8>], at: usize) -> &[u8] {
    match arguments.get(at) {
        Some(argument) => argument.as_slice(),
        None => b"",
    }
}

/// Adds a call to those of a line, or what ends them.
fn add_call<'a>(
    out: &Answer,
    word: &[u8],
    octets: &'a [u8],
    calls: &mut Vec<BuilderCall<'a>>,
    last: &mut Last<'a>,
) {
    if let Some(call) = call_of(word, octets) {
        let is_taken = calls.push(call).is_ok();
        return out.took(is_taken);
    }
    match last_of(word, octets) {
        Some(end) => *last = end,
        None => out.fail(Fail::Bad),
    }
}

/// The calls that stand in a line, whose octets are given, and what ends them.
fn plan_of<'a>(
    out: &Answer,
    line: &[u8],
    arguments: &'a [Vec<u8>],
    calls: &mut Vec<BuilderCall<'a>>,
) -> (&'a [u8], Last<'a>) {
    let mut front: &'a [u8] = b"";
    let mut last = Last::Nothing;
    for (at, field) in line.split(|octet| *octet == b';').enumerate() {
        if !matches!(last, Last::Nothing) {
            // The builder is gone: no call stands after one that takes it.
            out.fail(Fail::Bad);
        }
        let (word, _digits) = split_once(field, b':');
        let octets = argument_at(arguments, at);
        if at == 0 && is(word, b"from") {
            front = octets;
        } else {
            add_call(out, word, octets, calls, &mut last);
        }
    }
    (front, last)
}

/// `build CALLS`: over a `Vec`.
pub fn put_build(out: &Answer, line: &[u8]) {
    put_line(out, None, line);
}

/// `buildcap OCTETS CALLS`: over an array of OCTETS octets.
pub fn put_buildcap(out: &Answer, room: usize, line: &[u8]) {
    put_line(out, Some(room), line);
}

/// `buildaside CALLS ASIDE CALLS`: calls over a `Vec`, then those of ASIDE on a copy of the builder, and then more on
/// the builder itself.
pub fn put_buildaside(out: &Answer, before: &[u8], aside: &[u8], after: &[u8]) {
    let mut builder = NameBuilder::new_vec(out.alloc());
    put_more(out, &mut builder, before);
    out.put(b" / ");
    match builder.clone(out.alloc()) {
        Ok(mut copy) => put_more(out, &mut copy, aside),
        Err(_) => out.fail(Fail::Memory),
    }
    out.put(b" / ");
    put_more(out, &mut builder, after);
}

/// Makes the calls of a line, which neither begin nor end a builder, and puts what each answers and what the builder
/// is left with.
fn put_more(out: &Answer, builder: &mut NameBuilder<Vec<u8>>, line: &[u8]) {
    let arguments = arguments_of(out, line);
    let mut calls = Vec::new(out.alloc());
    let (front, last) = plan_of(out, line, arguments.as_slice(), &mut calls);
    if !front.is_empty() || !matches!(last, Last::Nothing) {
        out.fail(Fail::Bad);
    }
    let _accepted = put_calls(out, builder, calls.as_slice());
    put_left(out, builder);
}

/// Calls over an array with this capacity, or over a `Vec`.
fn put_line(out: &Answer, room: Option<usize>, line: &[u8]) {
    let arguments = arguments_of(out, line);
    let mut calls = Vec::new(out.alloc());
    let (front, last) = plan_of(out, line, arguments.as_slice(), &mut calls);
    let plan = Plan {
        front,
        calls: calls.as_slice(),
        last,
    };
    if let Some(room) = room {
        if put_built_in_room(out, plan, room) {
            is_copied_in_an_array(out, plan);
        }
    } else if put_built::<Vec<u8>>(out, plan) {
        takes_symbols(out, plan);
    }
}

fn put_built_in_room(out: &Answer, plan: Plan<'_>, room: usize) -> bool {
    match room {
        0 => put_built_in_array::<0>(out, plan),
        1 => put_built_in_array::<1>(out, plan),
        2 => put_built_in_array::<2>(out, plan),
        3 => put_built_in_array::<3>(out, plan),
        4 => put_built_in_array::<4>(out, plan),
        5 => put_built_in_array::<5>(out, plan),
        8 => put_built_in_array::<8>(out, plan),
        255 => put_built_in_array::<255>(out, plan),
        _ => {
            out.fail(Fail::Bad);
            false
        }
    }
}

/// The calls over an array with this capacity.
fn put_built_in_array<const N: usize>(out: &Answer, plan: Plan<'_>) -> bool
    requires { N ≤ 255 }
{
    put_built::<ArrayVec<u8, N>>(out, plan)
}

/// A builder that begins with these octets, or the reason why there is none.
fn begun<B: EmptyBuilder + OctetsMut + Drop>(out: &Answer, front: &[u8]) -> Option<NameBuilder<B>> {
    if front.is_empty() {
        return Some(NameBuilder::new(out.alloc()));
    }
    let mut octets = B::empty(out.alloc());
    if OctetsBuilder::append_slice(&mut octets, front).is_err() {
        out.fail(Fail::Bad);
        return None;
    }
    match NameBuilder::from_builder(octets) {
        Ok(builder) => Some(builder),
        Err(error) => {
            out.put(b"err ");
            put_relative_kind(out, error.kind());
            None
        }
    }
}

/// Makes the calls of a plan, and puts what each answers and what is built. Tells whether there was a builder.
fn put_built<B: EmptyBuilder + OctetsMut + FreezeBuilder + Drop>(
    out: &Answer,
    plan: Plan<'_>,
) -> bool
where
    B::Octets: Drop,
{
    let Some(mut builder) = begun::<B>(out, plan.front) else {
        return false;
    };
    let accepted = put_calls(out, &mut builder, plan.calls);
    is_measured(out, &builder);
    is_applied_alike(out, &builder, plan, accepted);
    put_last(out, builder, plan);
    true
}

/// Makes each call, puts what it answers, and counts those that were accepted.
fn put_calls<B: OctetsBuilder + OctetsMut>(
    out: &Answer,
    builder: &mut NameBuilder<B>,
    calls: &[BuilderCall<'_>],
) -> usize {
    let mut accepted: usize = 0;
    for (at, call) in calls.iter().enumerate() {
        if at > 0 {
            out.put(b";");
        }
        if put_call(out, builder, *call) {
            accepted = accepted.saturating_add(1);
        }
    }
    accepted
}

fn put_call<B: OctetsBuilder + OctetsMut>(
    out: &Answer,
    builder: &mut NameBuilder<B>,
    call: BuilderCall<'_>,
) -> bool {
    match call {
        BuilderCall::Push(octet) => put_done(out, builder.push(octet)),
        BuilderCall::PushSymbol(symbol) => put_done(out, builder.push_symbol(symbol)),
        BuilderCall::AppendSlice(octets) => put_done(out, builder.append_slice(octets)),
        BuilderCall::EndLabel => {
            builder.end_label();
            put_done(out, Ok::<(), PushError>(()))
        }
        BuilderCall::AppendLabel(octets) => put_done(out, builder.append_label(octets)),
        BuilderCall::AppendDecU8Label(octet) => {
            put_done(out, builder.append_dec_u8_label(octet))
        }
        BuilderCall::AppendHexDigitLabel(octet) => {
            put_done(out, builder.append_hex_digit_label(octet))
        }
        BuilderCall::AppendName(name) => put_done(out, builder.append_name(&name)),
        BuilderCall::AppendChars(text) => put_done(out, builder.append_chars(text.chars())),
    }
}

/// A refusal by its kind.
trait Kind {
    fn put(&self, out: &Answer);
}

impl Kind for PushError {
    fn put(&self, out: &Answer) {
        match self {
            PushError::LongLabel => out.put(b"LongLabel"),
            PushError::LongName => out.put(b"LongName"),
            PushError::ShortBuf => out.put(b"ShortBuf"),
        }
    }
}

impl Kind for PushNameError {
    fn put(&self, out: &Answer) {
        match self {
            PushNameError::LongName => out.put(b"LongName"),
            PushNameError::ShortBuf => out.put(b"ShortBuf"),
        }
    }
}

impl Kind for FromStrError {
    fn put(&self, out: &Answer) {
        put_text_error(out, *self);
    }
}

/// Puts whether a call was accepted, or why not, and returns it.
fn put_done<E: Kind + Copy>(out: &Answer, done: Result<(), E>) -> bool {
    match done {
        Ok(()) => {
            out.put(b"ok");
            true
        }
        Err(error) => {
            error.put(out);
            false
        }
    }
}

fn is_measured<B: OctetsBuilder + OctetsMut>(out: &Answer, builder: &NameBuilder<B>) {
    let octets = builder.as_slice();
    out.agree_all(
        b"len;is_empty;as_slice",
        &[
            builder.len() == octets.len(),
            builder.is_empty() == octets.is_empty(),
            Octets::as_slice(builder) == octets,
        ],
    );
}

/// All calls at once do the same.
fn is_applied_alike<B: EmptyBuilder + OctetsMut + Drop>(
    out: &Answer,
    builder: &NameBuilder<B>,
    plan: Plan<'_>,
    accepted: usize,
) {
    let Some(mut twin) = begun::<B>(out, plan.front) else {
        return;
    };
    let applied = twin.apply_all(plan.calls);
    out.agree_all(
        b"apply_all;apply_all;apply_all",
        &[
            applied == accepted,
            twin.as_slice() == builder.as_slice(),
            twin.in_label() == builder.in_label(),
        ],
    );
}

/// Puts the name that was made, or why there is none.
fn put_name<Octs: Octets + Drop, E: Kind + Drop>(out: &Answer, made: Result<Name<Octs>, E>) {
    match made {
        Ok(name) => out.put_hex_after(b"ok ", name.as_slice()),
        Err(error) => error.put(out),
    }
}

/// Puts what a builder is left with.
fn put_left<B: OctetsBuilder + OctetsMut>(out: &Answer, builder: &NameBuilder<B>) {
    out.put_hex_after(b" ", builder.as_slice());
    out.put_bit(b" ", builder.in_label());
}

/// Puts the name that the calls end in, or what the builder is left with.
fn put_last<B: OctetsBuilder + OctetsMut + FreezeBuilder + Drop>(
    out: &Answer,
    builder: NameBuilder<B>,
    plan: Plan<'_>,
)
where
    B::Octets: Drop,
{
    if !plan.calls.is_empty() && !matches!(plan.last, Last::Nothing) {
        out.put(b";");
    }
    match plan.last {
        Last::Nothing => put_left(out, &builder),
        Last::Finish => out.put_hex_after(b"ok ", builder.finish().as_slice()),
        Last::IntoName => put_name(out, builder.into_name()),
        Last::Origin(origin) => put_name(out, builder.append_origin(&origin)),
    }
}

/// The symbols of each text do what its characters do, and a copy of the builder goes on as the builder does.
fn takes_symbols(out: &Answer, plan: Plan<'_>) {
    let Some(mut builder) = begun::<Vec<u8>>(out, plan.front) else {
        return;
    };
    for call in plan.calls {
        if let BuilderCall::AppendChars(text) = *call {
            if let Some(symbols) = symbols_of(out, text) {
                takes_symbols_alike(out, &builder, text, symbols.as_slice());
            }
        }
        goes_on_as_its_copy(out, &mut builder, *call);
    }
}

/// A copy that was made before a call takes it as the builder does.
fn goes_on_as_its_copy(out: &Answer, builder: &mut NameBuilder<Vec<u8>>, call: BuilderCall<'_>) {
    let Ok(mut copy) = builder.clone(out.alloc()) else {
        return out.fail(Fail::Memory);
    };
    let is_copy = copy.as_slice() == builder.as_slice();
    let accepted = copy.apply_all(&[call]);
    out.agree_all(
        b"clone;clone;clone;clone",
        &[
            is_copy,
            builder.apply_all(&[call]) == accepted,
            copy.as_slice() == builder.as_slice(),
            copy.in_label() == builder.in_label(),
        ],
    );
}

/// A builder over an array of 255 octets that took all calls, and a copy of it.
fn is_copied_in_an_array(out: &Answer, plan: Plan<'_>) {
    let Some(mut builder) = begun::<ArrayVec<u8, 255>>(out, plan.front) else {
        return;
    };
    let _accepted = builder.apply_all(plan.calls);
    match builder.clone(out.alloc()) {
        Ok(copy) => {
            out.agree_all(
                b"clone;clone",
                &[
                    copy.as_slice() == builder.as_slice(),
                    copy.in_label() == builder.in_label(),
                ],
            );
        }
        Err(_) => out.wrong(b"clone"),
    }
}

fn takes_symbols_alike(
    out: &Answer,
    builder: &NameBuilder<Vec<u8>>,
    text: &str,
    symbols: &[Symbol],
) {
    match builder.clone(out.alloc()) {
        Ok(copy) => takes_symbols_as(out, copy, builder, text, symbols),
        Err(_) => out.fail(Fail::Memory),
    }
}

/// The symbols are appended to one copy of the builder, and the text's characters to another.
fn takes_symbols_as(
    out: &Answer,
    copy: NameBuilder<Vec<u8>>,
    builder: &NameBuilder<Vec<u8>>,
    text: &str,
    symbols: &[Symbol],
) {
    let mut one = copy;
    let Ok(mut other) = builder.clone(out.alloc()) else {
        return out.fail(Fail::Memory);
    };
    let by_symbols = one.append_symbols(symbols.iter().copied());
    let by_chars = other.append_chars(text.chars());
    out.agree_all(
        b"append_symbols;append_symbols;append_symbols",
        &[
            by_symbols == by_chars,
            one.as_slice() == other.as_slice(),
            one.in_label() == other.in_label(),
        ],
    );
}

/// `absolute NAME`: the root after a relative name, over a `Vec` and over an array of 17 octets.
pub fn put_absolute(out: &Answer, octets: &[u8]) {
    let owned = out.copy_of(octets);
    match RelativeName::from_octets(owned) {
        Ok(name) => put_made_absolute(out, name),
        Err(_) => out.fail(Fail::Bad),
    }
    out.put(b" ");
    put_absolute_in_an_array(out, octets);
}

fn put_made_absolute(out: &Answer, name: RelativeName<Vec<u8>>) {
    match name.into_absolute() {
        Ok(made) => out.put_hex(made.as_slice()),
        Err(_) => out.fail(Fail::Memory),
    }
}

fn put_absolute_in_an_array(out: &Answer, octets: &[u8]) {
    let Ok(held) = ArrayVec::<u8, 17>::try_from(octets) else {
        return out.put(b"none");
    };
    let Ok(name) = RelativeName::from_octets(held) else {
        return out.fail(Fail::Bad);
    };
    let builder = name.into_builder();
    out.agree_all(
        b"into_builder;into_builder",
        &[builder.as_slice() == octets, !builder.in_label()],
    );
    match builder.finish().into_absolute() {
        Ok(made) => out.put_hex(made.as_slice()),
        Err(error) => error.put(out),
    }
}
