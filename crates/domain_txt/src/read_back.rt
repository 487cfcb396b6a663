//! What is composed for text is read back.
ghost use Rattle.std.specs.Prelude.{◌≡◌, ℕ, List};
ghost use Rattle.domain_txt.specs.TxtReading.{TextAt};

use crate::txt::Txt;
use domain_fields::ReadBackData;
use octseq::Octets;

/// The same strings.
impl<Octs: Octets> ReadBackData for Txt<Octs> {
    ghost use Rattle.domain_txt.specs.Txts.{txt_strings};

    ghost Seen = { List (List ℕ) };

    ghost seen_at = { λ _. TextAt };

    ghost like = { λ it seen. seen ≡ txt_strings it };

    ghost moves = { λ _ _ _ _ _ _ same. same };

    fn reads_back(&self) {}
}
