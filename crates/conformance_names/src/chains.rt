//! Chains of two names.
//!
//! A call that is generic over names is expensive to check at a chain. So each kind of chain is given to one generic
//! function, which takes the call as an argument.

use crate::compare::{put_both_related, put_both_relative_related, put_ends_of, put_related};
use crate::flat::put_stripped;
use crate::made::{put_forms, put_relative_forms};
use crate::octets::{absolute_of, relative_of};
use crate::orders::{put_orders, put_turned, wire_of};
use conformance_labels::{Answer, Fail};
use domain_list::{AbsoluteLabels, Chain, LongChainError, NameLabels, RelativeLabels, ToLabelIter};
use domain_name::{Name, RelativeName};
use domain_traits::{ToName, ToRelativeName};

pub type Absolutely<'a> = Chain<RelativeName<&'a [u8]>, Name<&'a [u8]>>;

type Relatively<'a> = Chain<RelativeName<&'a [u8]>, RelativeName<&'a [u8]>>;

/// A chain of two relative names, and the root after it.
type Rooted<'a> = Chain<Relatively<'a>, Name<&'a [u8]>>;

/// What is asked of a chain that ends in an absolute name.
#[derive(Clone, Copy)]
pub enum AbsoluteCall<'a, N> {
    Labels,
    Dotted,
    Forms,
    /// It beside a name, and the name beside it.
    Beside(&'a N),
    /// A name beside it.
    After(&'a N),
    /// A name without it at its end.
    Strip(Name<&'a [u8]>),
}

/// What is asked of a chain of two relative names.
#[derive(Clone, Copy)]
enum RelativeCall<'a> {
    Labels,
    Walk,
    Forms,
    /// It beside a name, and the name beside it.
    Beside(RelativeName<&'a [u8]>),
    /// The ends of a name.
    Ends(Name<&'a [u8]>),
}

/// The chain of a relative and an absolute name, where it isn't too long.
pub fn absolute_chain<'a>(left: &'a [u8], right: &'a [u8]) -> Option<Absolutely<'a>> {
    let left = RelativeName::from_slice(left).ok()?;
    let right = Name::from_slice(right).ok()?;
    left.chain(right).ok()
}

/// The chain of two relative names, where it isn't too long.
fn relative_chain<'a>(left: &'a [u8], right: &'a [u8]) -> Option<Relatively<'a>> {
    let left = RelativeName::from_slice(left).ok()?;
    let right = RelativeName::from_slice(right).ok()?;
    left.chain(right).ok()
}

/// A chain's wire format, its length and its labels from the back.
fn put_chain_of<'a, N: ToLabelIter<'a>>(out: &Answer, chain: &'a N) {
    let labels = chain.iter_labels();
    let wire = wire_of(out, labels);
    out.put_hex_after(b"ok ", wire.as_slice());
    out.put_text_after(b" ", chain.compose_len());
    out.put(b" ");
    put_turned(out, labels);
}

fn put_absolute_call<'a, N: AbsoluteLabels<'a>, M: AbsoluteLabels<'a>>(
    out: &Answer,
    chain: &'a N,
    call: &'a AbsoluteCall<'a, M>,
) {
    match call {
        AbsoluteCall::Labels => put_chain_of(out, chain),
        AbsoluteCall::Dotted => {
            put_chain_of(out, chain);
            out.put_shown_after(b" ", chain.fmt_with_dot());
        }
        AbsoluteCall::Forms => put_forms(out, chain),
        AbsoluteCall::Beside(name) => put_both_related(out, chain, *name),
        AbsoluteCall::After(name) => put_related(out, *name, chain),
        AbsoluteCall::Strip(name) => put_stripped(out, name.strip_suffix(chain)),
    }
}

fn put_relative_call<'a, N: RelativeLabels<'a>>(
    out: &Answer,
    chain: &'a N,
    call: &'a RelativeCall<'a>,
) {
    match call {
        RelativeCall::Labels => put_chain_of(out, chain),
        RelativeCall::Walk => put_orders(out, chain.iter_labels()),
        RelativeCall::Forms => put_relative_forms(out, chain),
        RelativeCall::Beside(name) => put_both_relative_related(out, chain, name),
        RelativeCall::Ends(name) => put_ends_of(out, name, chain),
    }
}

/// The one call that is made at a chain which ends in an absolute name.
pub fn put_absolute<'a, M: AbsoluteLabels<'a>>(
    out: &Answer,
    chain: &'a Absolutely<'a>,
    call: &'a AbsoluteCall<'a, M>,
) {
    put_absolute_call(out, chain, call);
}

fn put_asked(out: &Answer, chain: Absolutely<'_>, call: AbsoluteCall<'_, Name<&[u8]>>) {
    put_absolute(out, &chain, &call);
}

fn put_relative(out: &Answer, chain: Relatively<'_>, call: RelativeCall<'_>) {
    put_relative_call(out, &chain, &call);
}

fn put_refusal(out: &Answer, error: LongChainError) {
    out.put_text_after(b"err ", error);
}

/// `chain L R`
pub fn put_chain(out: &Answer, left: &[u8], right: &[u8]) {
    let left = relative_of(out, left);
    match Name::from_slice(right) {
        Ok(right) => put_absolute_chain(out, left, right),
        Err(_) => match RelativeName::from_slice(right) {
            Ok(right) => put_relative_chain(out, left, right),
            Err(_) => out.fail(Fail::Bad),
        },
    }
}

fn put_absolute_chain(out: &Answer, left: RelativeName<&[u8]>, right: Name<&[u8]>) {
    match left.chain(right) {
        Ok(chain) => {
            put_asked(out, chain, AbsoluteCall::Labels);
            let (one, other) = chain.unwrap();
            out.agree_all(
                b"is_absolute;unwrap;unwrap",
                &[
                    chain.is_absolute(),
                    one.as_slice() == left.as_slice(),
                    other.as_slice() == right.as_slice(),
                ],
            );
        }
        Err(error) => put_refusal(out, error),
    }
}

fn put_relative_chain(out: &Answer, left: RelativeName<&[u8]>, right: RelativeName<&[u8]>) {
    is_made_by_new(out, left, right);
    match left.chain(right) {
        Ok(chain) => {
            put_relative(out, chain, RelativeCall::Labels);
            let (one, other) = chain.unwrap();
            out.agree_all(
                b"is_absolute;unwrap;unwrap",
                &[
                    !chain.is_absolute(),
                    one.as_slice() == left.as_slice(),
                    other.as_slice() == right.as_slice(),
                ],
            );
        }
        Err(error) => put_refusal(out, error),
    }
}

/// `new` makes the chain that `chain` makes of two relative names, or refuses them as that does.
fn is_made_by_new(out: &Answer, left: RelativeName<&[u8]>, right: RelativeName<&[u8]>) {
    match (Chain::new(left, right), left.chain(right)) {
        (Ok(made), Ok(chain)) => {
            let (one, other) = made.unwrap();
            out.agree_all(
                b"new;new;new",
                &[
                    made.compose_len() == chain.compose_len(),
                    one.as_slice() == left.as_slice(),
                    other.as_slice() == right.as_slice(),
                ],
            );
        }
        (Err(made), Err(chain)) => out.agree(made == chain, b"new"),
        _ => out.wrong(b"new"),
    }
}

/// `chainforms L R`
pub fn put_chainforms(out: &Answer, left: &[u8], right: &[u8]) {
    let left = relative_of(out, left);
    match Name::from_slice(right) {
        Ok(right) => match left.chain(right) {
            Ok(chain) => put_asked(out, chain, AbsoluteCall::Forms),
            Err(error) => put_refusal(out, error),
        },
        Err(_) => put_relative_chainforms(out, left, right),
    }
}

fn put_relative_chainforms(out: &Answer, left: RelativeName<&[u8]>, right: &[u8]) {
    match RelativeName::from_slice(right) {
        Ok(right) => match left.chain(right) {
            Ok(chain) => put_relative(out, chain, RelativeCall::Forms),
            Err(error) => put_refusal(out, error),
        },
        Err(_) => out.fail(Fail::Bad),
    }
}

/// `chainwalk L R`: the labels of a chain of relative names.
pub fn put_chainwalk(out: &Answer, left: &[u8], right: &[u8]) {
    match relative_chain(left, right) {
        Some(chain) => put_relative(out, chain, RelativeCall::Walk),
        None => out.fail(Fail::Bad),
    }
}

/// `rooted NAME`: the name with the root after it, and its text.
pub fn put_rooted(out: &Answer, octets: &[u8]) {
    let name = relative_of(out, octets);
    put_asked(out, name.chain_root(), AbsoluteCall::Dotted);
}

/// A name of any kind with the root after it.
fn with_root<'a, L: RelativeLabels<'a> + Drop>(name: L) -> Chain<L, Name<&'a [u8]>> {
    name.chain_root()
}

/// `rootedchain L R`: the chain of two relative names with the root after it, and its text.
pub fn put_rootedchain(out: &Answer, left: &[u8], right: &[u8]) {
    let left = relative_of(out, left);
    let right = relative_of(out, right);
    match left.chain(right) {
        Ok(chain) => put_rooted_chain(out, with_root(chain)),
        Err(error) => put_refusal(out, error),
    }
}

fn put_rooted_chain(out: &Answer, chain: Rooted<'_>) {
    out.agree(chain.is_absolute(), b"is_absolute");
    put_chain_of(out, &chain);
    out.put_shown_after(b" ", chain.fmt_with_dot());
}

/// `chaincmp L R NAME`
pub fn put_chaincmp(out: &Answer, left: &[u8], right: &[u8], octets: &[u8]) {
    let Some(chain) = absolute_chain(left, right) else {
        return out.fail(Fail::Bad);
    };
    let name = absolute_of(out, octets);
    put_asked(out, chain, AbsoluteCall::Beside(&name));
}

/// `chainrel L R RELATIVE`
pub fn put_chainrel(out: &Answer, left: &[u8], right: &[u8], octets: &[u8]) {
    let Some(chain) = relative_chain(left, right) else {
        return out.fail(Fail::Bad);
    };
    let name = relative_of(out, octets);
    put_relative(out, chain, RelativeCall::Beside(name));
}

/// `chainends L R NAME`
pub fn put_chainends(out: &Answer, left: &[u8], right: &[u8], octets: &[u8]) {
    let Some(chain) = relative_chain(left, right) else {
        return out.fail(Fail::Bad);
    };
    let name = absolute_of(out, octets);
    put_relative(out, chain, RelativeCall::Ends(name));
}

/// `chainstrip L R NAME`: the name without the chain at its end.
pub fn put_chainstrip(out: &Answer, left: &[u8], right: &[u8], octets: &[u8]) {
    let Some(chain) = absolute_chain(left, right) else {
        return out.fail(Fail::Bad);
    };
    let name = absolute_of(out, octets);
    put_asked(out, chain, AbsoluteCall::Strip(name));
}
