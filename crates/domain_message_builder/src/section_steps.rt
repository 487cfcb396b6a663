//! The steps from one section to another.
ghost use Rattle.std.specs.Prelude.{◌≡◌};
ghost use Rattle.domain_message.specs.declared.section.Section.TheVariants.{Answer, Authority, Additional};
ghost use Rattle.domain_message_builder.specs.Builders.{target_room, CutsToSection, RewindsTo};
ghost use Rattle.domain_message_builder.specs.SectionViews.{question_builder, question_room, record_builder, record_room};

use crate::builder::MessageBuilder;
use crate::question_builder::QuestionBuilder;
use crate::record_builder::{AdditionalBuilder, AnswerBuilder, AuthorityBuilder, RecordBuilder};
use crate::section::{AdditionalSection, AnswerSection, AuthoritySection, RecordSection};
use domain_message::Section;
use domain_rdata::Composer;

impl<Target: Composer> QuestionBuilder<Target> {
    /// The same builder.
    pub fn question(self) -> QuestionBuilder<Target>
        ensures { result ≡ self }
    {
        self
    }

    /// Goes on to the answers.
    pub fn answer(self) -> AnswerBuilder<Target>
        ensures { record_builder result ≡ question_builder self }
    {
        AnswerBuilder::at(self.builder)
    }

    /// Goes on to the authority section.
    pub fn authority(self) -> AuthorityBuilder<Target>
        ensures { record_builder result ≡ question_builder self }
    {
        self.answer().authority()
    }

    /// Goes on to the additional section.
    pub fn additional(self) -> AdditionalBuilder<Target>
        ensures { record_builder result ≡ question_builder self }
    {
        self.answer().additional()
    }
}

impl<Target: Composer, S: RecordSection> RecordBuilder<Target, S> {
    /// Goes back to the questions: all records are taken away again.
    pub fn question(self) -> QuestionBuilder<Target>
        ensures rewinds { RewindsTo Answer (record_builder self) (question_builder result) }
        ensures cut { CutsToSection Answer (record_builder self) (question_builder result) }
        ensures capacity { question_room result ≡ record_room self }
    {
        let mut builder = self.into_builder();
        builder.rewind(Section::Answer);
        QuestionBuilder { builder }
    }
}

impl<Target: Composer> RecordBuilder<Target, AnswerSection> {
    /// The same builder.
    pub fn answer(self) -> AnswerBuilder<Target>
        ensures { result ≡ self }
    {
        self
    }

    /// Goes on to the authority section.
    pub fn authority(self) -> AuthorityBuilder<Target>
        ensures { record_builder result ≡ record_builder self }
    {
        AuthorityBuilder::at(self.builder)
    }

    /// Goes on to the additional section.
    pub fn additional(self) -> AdditionalBuilder<Target>
        ensures { record_builder result ≡ record_builder self }
    {
        self.authority().additional()
    }
}

impl<Target: Composer> RecordBuilder<Target, AuthoritySection> {
    /// Goes back to the answers: the records of the authority section are taken away again.
    pub fn answer(self) -> AnswerBuilder<Target>
        ensures rewinds { RewindsTo Authority (record_builder self) (record_builder result) }
        ensures cut { CutsToSection Authority (record_builder self) (record_builder result) }
        ensures capacity { record_room result ≡ record_room self }
    {
        back_to_answers(self.into_builder())
    }

    /// The same builder.
    pub fn authority(self) -> AuthorityBuilder<Target>
        ensures { result ≡ self }
    {
        self
    }

    /// Goes on to the additional section.
    pub fn additional(self) -> AdditionalBuilder<Target>
        ensures { record_builder result ≡ record_builder self }
    {
        AdditionalBuilder::at(self.builder)
    }
}

impl<Target: Composer> RecordBuilder<Target, AdditionalSection> {
    /// Goes back to the answers: the records of the authority section and the additional ones are taken away again.
    pub fn answer(self) -> AnswerBuilder<Target>
        ensures rewinds { RewindsTo Authority (record_builder self) (record_builder result) }
        ensures cut { CutsToSection Authority (record_builder self) (record_builder result) }
        ensures capacity { record_room result ≡ record_room self }
    {
        back_to_answers(self.into_builder())
    }

    /// Goes back to the authority section: the additional records are taken away again.
    pub fn authority(self) -> AuthorityBuilder<Target>
        ensures rewinds { RewindsTo Additional (record_builder self) (record_builder result) }
        ensures cut { CutsToSection Additional (record_builder self) (record_builder result) }
        ensures capacity { record_room result ≡ record_room self }
    {
        let mut builder = self.into_builder();
        builder.rewind(Section::Additional);
        AuthorityBuilder::at(builder)
    }

    /// The same builder.
    pub fn additional(self) -> AdditionalBuilder<Target>
        ensures { result ≡ self }
    {
        self
    }
}

/// The answers, without what comes after them.
fn back_to_answers<Target: Composer>(builder: MessageBuilder<Target>) -> AnswerBuilder<Target>
    ensures rewinds { RewindsTo Authority builder (record_builder result) }
    ensures cut { CutsToSection Authority builder (record_builder result) }
    ensures capacity { record_room result ≡ target_room builder }
{
    let mut builder = builder;
    builder.rewind(Section::Authority);
    AnswerBuilder::at(builder)
}
