//! What the words after the program's name ask for.
ghost use Rattle.std.specs.Prelude.{◌≡◌, ℕ, slice_index, ◌↔◌, IsTrue, IsNone, IfSome};
ghost use Rattle.domain_tool.specs.WordParts.{texts, AsksWithin, LimitsNoPointers};
ghost use Rattle.domain_tool.specs.Numerals.{IsOffsetWord, IsLimitWord};

/// What words ask for.
#[derive(Clone, Copy)]
pub(crate) enum Asked<'a> {
    /// The name at an offset of the message, of at most this many pointers.
    At(u32, u8),
    /// The wire format of the name that a text is.
    Text(&'a str),
    /// The lines of the message.
    List,
}

impl<'a> Asked<'a> {
    ghost use Rattle.domain_tool.specs.Words.{Asks, AsksPlainly, AsksSomething};
    ghost use Rattle.domain_tool.specs.declared.asked.Asked.{Asked};

    /// What the words ask for, if it is one of these.
    pub(crate) fn by(words: &[&'a str]) -> Option<Asked<'a>>
        ensures some { IfSome result (λ asked. Asks (texts words.now) asked) }
        ensures none { IsNone result → AsksSomething (texts words.now) → ⊥ }
    {
        match limited(words) {
            Some((offset, pointers)) => Some(Asked::At(offset, pointers)),
            None => Asked::plainly(words),
        }
    }

    /// The same of words that limit no pointers.
    fn plainly(words: &[&'a str]) -> Option<Asked<'a>>
        ensures some { IfSome result (λ asked. AsksPlainly (texts words.now) asked) }
        ensures none { IsNone result → (asked : Asked) → AsksPlainly (texts words.now) asked → ⊥ }
    {
        match words {
            ["at", word] => match offset_of_word(word) {
                Some(offset) => Some(Asked::At(offset, u8::MAX)),
                None => None,
            },
            ["text", text] => Some(Asked::Text(text)),
            ["list"] => Some(Asked::List),
            _ => None,
        }
    }
}

/// The offset of the name that words ask for, and how many pointers it may have at most, where they say
/// both.
fn limited(words: &[&str]) -> Option<(u32, u8)>
    ensures some { IfSome result (λ asked. AsksWithin (texts words.now) asked.0 asked.1) }
    ensures none { IsNone result → LimitsNoPointers (texts words.now) }
{
    match words {
        ["at", word, "--pointers", limit] => match offset_of_word(word) {
            Some(offset) => match pointers_of(limit) {
                Some(pointers) => Some((offset, pointers)),
                None => None,
            },
            None => None,
        },
        _ => None,
    }
}

/// The offset that a word is: one to ten decimal digits, at most 4,294,967,295.
pub fn offset_of_word(word: &str) -> Option<u32>
    ensures some { IfSome result (λ offset. IsOffsetWord word.now offset) }
    ensures none { IsNone result → (offset : ℕ) → IsOffsetWord word.now offset → ⊥ }
{
    let word_octets = word.as_bytes();
    if word_octets.len() > 10 || begins_with_plus(word_octets) {
        return None;
    }
    word.parse().ok()
}

/// The number of pointers that a word is: one to three decimal digits, at most 255.
fn pointers_of(word: &str) -> Option<u8>
    ensures some { IfSome result (λ pointers. IsLimitWord word.now pointers) }
    ensures none { IsNone result → (pointers : ℕ) → IsLimitWord word.now pointers → ⊥ }
{
    let word_octets = word.as_bytes();
    if word_octets.len() > 3 || begins_with_plus(word_octets) {
        return None;
    }
    word.parse().ok()
}

/// Whether the first octet is a plus sign, which a number may have before it elsewhere.
fn begins_with_plus(octets: &[u8]) -> bool
    ensures { IsTrue result ↔ (slice_index octets.now 0 ≡ 43) }
{
    match octets {
        [first, ..] => *first == b'+',
        [] => false,
    }
}
