//! A buffer in which a name is put together.
ghost use Rattle.std.specs.Prelude.{◌≡◌, ◌++◌, ◌+◌, ◌<◌, ◌≤◌, nat_lt, length, take, drop, Some, None, IfOk, IfErr, OnOk, OnErr};
ghost use Rattle.std.specs.Iterator.{IsFinite};
ghost use Rattle.domain_label.specs.Wire.{wire, IsAbsoluteName, IsRelativeName};
ghost use Rattle.domain_text.specs.Plain.{IsPlainText};
ghost use Rattle.domain_text.specs.BuilderState.{empty_state, closed, rooted, size, with_octet, ended, too_long, symbol_fault, after};
ghost use Rattle.domain_text.specs.BuilderState.{TakesParts, ReadsParts};
ghost use Rattle.domain_text.specs.Buffer.{buffer_state, IsHeld};
ghost use Rattle.domain_text.specs.NameSymbols.{IfParts, IfYieldsParts};

use crate::name_symbol::{NameSymbol, TextFault, name_symbol_of};
use domain_label::scan::{Symbol, SymbolCharsError};
use octseq::OctetsBuilder;
use std::marker::Model;

/// Where the labels of a buffer end.
///
/// While a text is read this is kept apart from the octets: those lie in memory, and these two numbers can
/// then stay in registers.
#[derive(Clone, Copy)]
struct Ends {
    /// The offset of the length octet of the next label, or of the root.
    head: usize,
    open_len: usize,
}

/// Finished labels, and octets of an open one. They never are more than a name may have.
#[derive(Drop)]
pub(crate) struct NameBuffer {
    octets: [u8; 255],
    ends: Ends,
}

impl Model for NameBuffer {
    ghost use Rattle.domain_text.specs.BuilderState.{BuilderState};
    ghost use Rattle.domain_text.specs.Buffer.{buffer_state, IsHeld};

    ghost Value = { BuilderState };

    ghost view = { λ s. buffer_state s.octets s.ends };

    ghost invariant = { λ s. IsHeld s.octets s.ends };
}

/// Adds an octet to the open label, or opens one.
#[inline(always)]
fn push(octets: &mut [u8; 255], ends: &mut Ends, c: u8) -> Result<(), TextFault>
    requires inside { IsHeld octets.old ends.old }
    ensures inside { IsHeld octets.new ends.new }
    ensures taken { OnOk result
        (too_long (with_octet (buffer_state octets.old ends.old) c) ≡ None) }
    ensures made { OnOk result
        (buffer_state octets.new ends.new ≡ with_octet (buffer_state octets.old ends.old) c) }
    ensures err { IfErr result
        (λ f. too_long (with_octet (buffer_state octets.old ends.old) c) ≡ Some f) }
    ensures unchanged { OnErr result
        (buffer_state octets.new ends.new ≡ buffer_state octets.old ends.old) }
{
    if ends.head + ends.open_len > 252 {
        return Err(TextFault::LongName);
    }
    if ends.open_len >= 63 {
        return Err(TextFault::LongLabel);
    }
    octets[ends.head + 1 + ends.open_len] = c;
    ends.open_len += 1;
    Ok(())
}

/// Finishes the open label, if any.
#[inline(always)]
fn end_open(octets: &mut [u8; 255], ends: &mut Ends)
    requires inside { IsHeld octets.old ends.old }
    ensures inside { IsHeld octets.new ends.new }
    ensures made { buffer_state octets.new ends.new ≡ ended (buffer_state octets.old ends.old) }
{
    if ends.open_len > 0 {
        octets[ends.head] = ends.open_len as u8;
        ends.head = ends.head + 1 + ends.open_len;
        ends.open_len = 0;
    }
}

/// Adds a part of a text: a dot ends the open label.
#[inline(always)]
fn add_symbol(octets: &mut [u8; 255], ends: &mut Ends, part: NameSymbol) -> Result<(), TextFault>
    requires inside { IsHeld octets.old ends.old }
    ensures inside { IsHeld octets.new ends.new }
    ensures taken { OnOk result (symbol_fault (buffer_state octets.old ends.old) part ≡ None) }
    ensures made { OnOk result
        (buffer_state octets.new ends.new ≡ after (buffer_state octets.old ends.old) part) }
    ensures err { IfErr result
        (λ f. symbol_fault (buffer_state octets.old ends.old) part ≡ Some f) }
    ensures unchanged { OnErr result
        (buffer_state octets.new ends.new ≡ buffer_state octets.old ends.old) }
{
    match part {
        NameSymbol::Octet(c) => push(octets, ends, c),
        NameSymbol::Dot => {
            if ends.open_len == 0 {
                return Err(TextFault::EmptyLabel);
            }
            end_open(octets, ends);
            Ok(())
        }
        NameSymbol::Bracket => {
            if ends.open_len == 0 {
                return Err(TextFault::BinaryLabel);
            }
            push(octets, ends, b'[')
        }
        NameSymbol::Nothing(fault) => Err(fault),
    }
}

/// Ends the labels of a plain text that lies after the offset of the first length octet. A label's length takes
/// the offset of the dot before it.
#[inline(always)]
fn end_plain(octets: &mut [u8; 255], text: &[u8]) -> Result<Ends, TextFault>
    requires plain { IsPlainText text.now }
    requires there { take (length text.now) (drop 1 octets.old) ≡ text.now }
    ensures inside { IfOk result (IsHeld octets.new) }
    ensures read { IfParts text.now (λ ps. ReadsParts (buffer_state octets.new) ps result) }
{
    let mut head = 0;
    for i in 0..text.len() {
        if text[i] == b'.' {
            if i == head {
                return Err(TextFault::EmptyLabel); // No label stands before this dot.
            }
            if i - head > 63 {
                return Err(TextFault::LongLabel);
            }
            octets[head] = (i - head) as u8;
            head = i + 1;
        }
    }
    let open_len = text.len() - head;
    if open_len > 63 {
        return Err(TextFault::LongLabel);
    }
    Ok(Ends { head, open_len })
}

/// Adds what is read of a text, up to the first part that is refused.
#[inline(always)]
fn add_symbols<I: Iterator<Item = Result<Symbol, SymbolCharsError>> + Drop>(
    octets: &mut [u8; 255],
    ends: &mut Ends,
    items: I,
) -> Result<(), TextFault>
    requires inside { IsHeld octets.old ends.old }
    requires can { I.can_next items }
    requires ends { IsFinite (I.remaining items) }
    ensures inside { IsHeld octets.new ends.new }
    ensures read { IfYieldsParts I.next_gives items
        (λ ps. TakesParts (buffer_state octets.old ends.old) ps result
        (buffer_state octets.new ends.new)) }
{
    for item in items {
        add_symbol(octets, ends, name_symbol_of(item))?;
    }
    Ok(())
}

impl NameBuffer {
    /// A buffer without labels.
    #[inline(always)]
    pub(crate) fn new() -> Self
        ensures { result ≡ empty_state }
    {
        NameBuffer {
            octets: [0; 255],
            ends: Ends {
                head: 0,
                open_len: 0,
            },
        }
    }

    /// Whether a label is open.
    #[inline(always)]
    pub(crate) fn in_label(&self) -> bool
        ensures { result ≡ nat_lt 0 (length self.now.open_label) }
    {
        self.ends.open_len > 0
    }

    /// Whether there is a finished label.
    pub(crate) fn has_label(&self) -> bool
        ensures { result ≡ nat_lt 0 (length self.now.labels) }
    {
        self.ends.head > 0
    }

    /// Finishes the open label, if any.
    #[inline(always)]
    pub(crate) fn end_label(&mut self)
        ensures { self.new ≡ ended self.old }
    {
        end_open(&mut self.octets, &mut self.ends);
    }

    /// Adds a part of a text: a dot ends the open label.
    #[inline(always)]
    pub(crate) fn push_name_symbol(&mut self, part: NameSymbol) -> Result<(), TextFault>
        ensures taken { OnOk result (symbol_fault self.old part ≡ None) }
        ensures made { OnOk result (self.new ≡ after self.old part) }
        ensures err { IfErr result (λ f. symbol_fault self.old part ≡ Some f) }
        ensures unchanged { OnErr result (self.new ≡ self.old) }
    {
        add_symbol(&mut self.octets, &mut self.ends, part)
    }

    /// Adds what is read of a text, up to the first part that is refused.
    #[inline(always)]
    pub(crate) fn push_name_symbols<I: Iterator<Item = Result<Symbol, SymbolCharsError>> + Drop>(
        &mut self,
        items: I,
    ) -> Result<(), TextFault>
        requires can { I.can_next items }
        requires ends { IsFinite (I.remaining items) }
        ensures { IfYieldsParts I.next_gives items
            (λ ps. TakesParts self.old ps result self.new) }
    {
        let mut ends = self.ends;
        let read = add_symbols(&mut self.octets, &mut ends, items);
        self.ends = ends;
        read
    }

    /// Reads a plain text. What the buffer held before is gone.
    #[inline(always)]
    pub(crate) fn read_plain(&mut self, text: &[u8]) -> Result<(), TextFault>
        requires plain { IsPlainText text.now }
        ensures { IfParts text.now (λ ps. ReadsParts (λ _. self.new) ps result) }
    {
        self.ends = Ends {
            head: 0,
            open_len: 0,
        };
        self.octets[1..text.len() + 1].copy_from_slice(text);
        self.ends = end_plain(&mut self.octets, text)?;
        Ok(())
    }

    /// The number of octets of the labels, the open one among them.
    #[inline(always)]
    pub(crate) fn len(&self) -> usize
        ensures size { result ≡ size self.now }
        ensures short { result ≤ 254 }
    {
        if self.ends.open_len > 0 {
            self.ends.head + 1 + self.ends.open_len
        } else {
            self.ends.head
        }
    }

    /// Appends the wire format of the labels and the root, in one piece.
    #[inline(always)]
    pub(crate) fn append_name<B: OctetsBuilder>(
        &mut self,
        target: &mut B,
    ) -> Result<(), B::AppendError>
        ensures name { IsAbsoluteName (rooted self.old) }
        ensures ok { OnOk result
            (B.octets target.new ≡ B.octets target.old ++ wire (rooted self.old)) }
        ensures full { OnErr result
            (B.capacity target.old < length (B.octets target.old) + (size self.old + 1)) }
    {
        self.end_label();
        self.octets[self.ends.head] = 0;
        target.append_slice(&self.octets[..self.ends.head + 1])
    }

    /// Appends the wire format of the labels, in one piece.
    #[inline(always)]
    pub(crate) fn append_relative<B: OctetsBuilder>(
        &mut self,
        target: &mut B,
    ) -> Result<(), B::AppendError>
        ensures name { IsRelativeName (closed self.old) }
        ensures ok { OnOk result
            (B.octets target.new ≡ B.octets target.old ++ wire (closed self.old)) }
        ensures full { OnErr result
            (B.capacity target.old < length (B.octets target.old) + size self.old) }
    {
        self.end_label();
        target.append_slice(&self.octets[..self.ends.head])
    }
}
