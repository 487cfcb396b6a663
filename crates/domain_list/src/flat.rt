//! How many octets at the ends of two wire formats are the same, found without iterating over their labels.
ghost use Rattle.domain_list.specs.EqualSuffixes.{OctetSuffixesEqual, KnownSuffixesEqual};

use domain_label::ignoring_case::same_octets;

/// How many octets are compared at a time.
const PART: usize = 8;

/// How many of the last octets of two wire formats were found to be the same ignoring ASCII case. They are compared
/// part by part from the end on, so up to seven more may be the same.
fn equal_suffix_len(a: &[u8], b: &[u8]) -> usize
    ensures { OctetSuffixesEqual a.now b.now result }
{
    let mut a_end = a.len();
    let mut b_end = b.len();
    let mut alike = 0;
    'parts: while a_end >= PART && b_end >= PART {
        if !same_octets(&a[a_end - PART..a_end], &b[b_end - PART..b_end]) {
            return alike;
        }
        a_end -= PART;
        b_end -= PART;
        alike += PART;
    }
    alike
}

/// The same of two names, where both are in contiguous octets.
pub(crate) fn known_equal_suffix_len(a: Option<&[u8]>, b: Option<&[u8]>) -> usize
    ensures { KnownSuffixesEqual a.entry b.entry result }
{
    match (a, b) {
        (Some(a), Some(b)) => equal_suffix_len(a, b),
        _ => 0,
    }
}
