//! The sections of records, as types.
ghost use Rattle.domain_message.specs.declared.section.Section.{Section};
ghost use Rattle.domain_message.specs.declared.section.Section.TheVariants.{Answer, Authority, Additional};

use domain_message::Section;

/// A section of records, as a type.
pub trait RecordSection {
    /// Which section it is.
    ghost SECTION: { Section };

    /// Which section it is.
    const SECTION: Section;
}

/// The answer section.
pub struct AnswerSection;

impl RecordSection for AnswerSection {
    ghost SECTION = { Answer };

    const SECTION: Section = Section::Answer;
}

/// The authority section.
pub struct AuthoritySection;

impl RecordSection for AuthoritySection {
    ghost SECTION = { Authority };

    const SECTION: Section = Section::Authority;
}

/// The additional section.
pub struct AdditionalSection;

impl RecordSection for AdditionalSection {
    ghost SECTION = { Additional };

    const SECTION: Section = Section::Additional;
}
