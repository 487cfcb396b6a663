//! Flags that are shown where they are set.
ghost use Rattle.std.specs.Prelude.{◌≡◌, [], cond};

/// The word, where the flag is set.
pub(crate) fn word_if(set: bool, word: &'static str) -> &'static str
    ensures { result.now ≡ cond set word.now [] }
{
    if set { word } else { "" }
}
