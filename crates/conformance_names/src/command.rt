//! The words of these calls, by what comes after them.

use crate::canonical::put_canonical;
use crate::chains::{
    put_chain, put_chaincmp, put_chainends, put_chainforms, put_chainrel, put_chainstrip,
    put_chainwalk, put_rooted, put_rootedchain,
};
use crate::compare::{put_cmp, put_ends, put_relcmp};
use crate::flat::{
    put_flatwalk, put_name, put_nameerrors, put_part, put_show, put_split, put_strip,
};
use crate::kept::{put_empty, put_keep, put_relkeep, put_root, put_wildcard};
use crate::made::{put_flat_forms, put_lent_forms, put_lentrelforms, put_relative_flat_forms};
use crate::relative::{
    put_parents, put_rel, put_relpart, put_relshow, put_relsplit, put_relstrip, put_relwalk,
};
use conformance_labels::{Answer, Fields, is};

/// Answers a line whose word is one of these; else it is false.
pub fn answer_names(fields: &Fields<'_>, out: &Answer) -> bool {
    answer_octets(fields, out)
        || answer_pair(fields, out)
        || answer_part(fields, out)
        || answer_range(fields, out)
        || answer_three(fields, out)
        || answer_nothing(fields, out)
}

/// `WORD OCTETS`
fn answer_octets(fields: &Fields<'_>, out: &Answer) -> bool {
    fields.expect(2, out);
    let octets = fields.octets(1, out);
    call_on_octets(fields.at(0), octets.as_slice(), out)
        || call_on_relative(fields.at(0), octets.as_slice(), out)
        || out.is_other_word()
}

/// The calls of `answer_octets`, by the word: false where it names none of them.
fn call_on_octets(word: &[u8], octets: &[u8], out: &Answer) -> bool {
    if is(word, b"name") {
        put_name(out, octets);
    } else if is(word, b"show") {
        put_show(out, octets);
    } else if is(word, b"flatwalk") {
        put_flatwalk(out, octets);
    } else if is(word, b"nameerrors") {
        put_nameerrors(out, octets);
    } else if is(word, b"keep") {
        put_keep(out, octets);
    } else if is(word, b"forms") {
        put_flat_forms(out, octets);
    } else if is(word, b"lentforms") {
        put_lent_forms(out, octets);
    } else {
        return false;
    }
    true
}

/// The calls of `answer_octets` on relative names, by the word: false where it names none of them.
fn call_on_relative(word: &[u8], octets: &[u8], out: &Answer) -> bool {
    if is(word, b"rel") {
        put_rel(out, octets);
    } else if is(word, b"relshow") {
        put_relshow(out, octets);
    } else if is(word, b"relwalk") {
        put_relwalk(out, octets);
    } else if is(word, b"parents") {
        put_parents(out, octets);
    } else if is(word, b"relkeep") {
        put_relkeep(out, octets);
    } else if is(word, b"relforms") {
        put_relative_flat_forms(out, octets);
    } else if is(word, b"lentrelforms") {
        put_lentrelforms(out, octets);
    } else if is(word, b"rooted") {
        put_rooted(out, octets);
    } else {
        return false;
    }
    true
}

/// `WORD OCTETS OCTETS`
fn answer_pair(fields: &Fields<'_>, out: &Answer) -> bool {
    fields.expect(3, out);
    let first = fields.octets(1, out);
    let second = fields.octets(2, out);
    call_on_pair(fields.at(0), first.as_slice(), second.as_slice(), out) || out.is_other_word()
}

/// The calls of `answer_pair`, by the word: false where it names none of them.
fn call_on_pair(word: &[u8], first: &[u8], second: &[u8], out: &Answer) -> bool {
    if is(word, b"cmp") {
        put_cmp(out, first, second);
    } else if is(word, b"relcmp") {
        put_relcmp(out, first, second);
    } else if is(word, b"strip") {
        put_strip(out, first, second);
    } else if is(word, b"relstrip") {
        put_relstrip(out, first, second);
    } else if is(word, b"ends") {
        put_ends(out, first, second);
    } else if is(word, b"canonical") {
        put_canonical(out, first, second);
    } else if is(word, b"chain") {
        put_chain(out, first, second);
    } else if is(word, b"chainwalk") {
        put_chainwalk(out, first, second);
    } else if is(word, b"chainforms") {
        put_chainforms(out, first, second);
    } else if is(word, b"rootedchain") {
        put_rootedchain(out, first, second);
    } else {
        return false;
    }
    true
}

/// `WORD OCTETS NUMBER`
fn answer_part(fields: &Fields<'_>, out: &Answer) -> bool {
    fields.expect(3, out);
    let octets = fields.octets(1, out);
    let number = fields.number(2, out);
    call_on_part(fields.at(0), octets.as_slice(), number, out) || out.is_other_word()
}

/// The calls of `answer_part`, by the word: false where it names none of them.
fn call_on_part(word: &[u8], octets: &[u8], number: usize, out: &Answer) -> bool {
    if is(word, b"split") {
        put_split(out, octets, number);
    } else if is(word, b"relsplit") {
        put_relsplit(out, octets, number);
    } else {
        return false;
    }
    true
}

/// `WORD OCTETS NUMBER NUMBER`
fn answer_range(fields: &Fields<'_>, out: &Answer) -> bool {
    fields.expect(4, out);
    let octets = fields.octets(1, out);
    let begin = fields.number(2, out);
    let end = fields.number(3, out);
    call_on_range(fields.at(0), octets.as_slice(), begin, end, out) || out.is_other_word()
}

/// The calls of `answer_range`, by the word: false where it names none of them.
fn call_on_range(word: &[u8], octets: &[u8], begin: usize, end: usize, out: &Answer) -> bool {
    if is(word, b"part") {
        put_part(out, octets, begin, end);
    } else if is(word, b"relpart") {
        put_relpart(out, octets, begin, end);
    } else {
        return false;
    }
    true
}

/// `WORD OCTETS OCTETS OCTETS`
fn answer_three(fields: &Fields<'_>, out: &Answer) -> bool {
    fields.expect(4, out);
    let first = fields.octets(1, out);
    let second = fields.octets(2, out);
    let third = fields.octets(3, out);
    call_on_three(
        fields.at(0),
        first.as_slice(),
        second.as_slice(),
        third.as_slice(),
        out,
    ) || out.is_other_word()
}

/// The calls of `answer_three`, by the word: false where it names none of them.
fn call_on_three(word: &[u8], first: &[u8], second: &[u8], third: &[u8], out: &Answer) -> bool {
    if is(word, b"chaincmp") {
        put_chaincmp(out, first, second, third);
    } else if is(word, b"chainrel") {
        put_chainrel(out, first, second, third);
    } else if is(word, b"chainends") {
        put_chainends(out, first, second, third);
    } else if is(word, b"chainstrip") {
        put_chainstrip(out, first, second, third);
    } else {
        return false;
    }
    true
}

/// `WORD`
fn answer_nothing(fields: &Fields<'_>, out: &Answer) -> bool {
    fields.expect(1, out);
    let word = fields.at(0);
    if is(word, b"root") {
        put_root(out);
    } else if is(word, b"empty") {
        put_empty(out);
    } else if is(word, b"wildcard") {
        put_wildcard(out);
    } else {
        return out.is_other_word();
    }
    true
}
