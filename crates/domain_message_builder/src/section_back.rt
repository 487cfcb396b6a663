//! Messages of which records are taken away, if there are any.
ghost use Rattle.std.specs.Prelude.{◌≡◌};
ghost use Rattle.domain_message.specs.declared.section.Section.TheVariants.{Answer};
ghost use Rattle.domain_message_builder.specs.Builders.{target_room, HasRecords, HasNoRecords, HasLater, HasNoLater};
ghost use Rattle.domain_message_builder.specs.Builders.{CutsToSection, CutsToNext, RewindsTo, RewindsToNext};

use crate::builder::MessageBuilder;
use crate::counting::{has_later, has_records};
use domain_message::Section;
use domain_rdata::Composer;

/// The message without records.
pub(crate) fn without_records<Target: Composer>(
    builder: MessageBuilder<Target>,
) -> MessageBuilder<Target>
    ensures none { HasNoRecords result }
    ensures same { HasNoRecords builder → result ≡ builder }
    ensures rewinds { HasRecords builder → RewindsTo Answer builder result }
    ensures cut { HasRecords builder → CutsToSection Answer builder result }
    ensures capacity { target_room result ≡ target_room builder }
{
    if !has_records(builder.counts()) {
        return builder;
    }
    let mut builder = builder;
    builder.rewind(Section::Answer);
    builder
}

/// The message without records of the sections after this one.
pub(crate) fn without_later<Target: Composer>(
    section: Section,
    builder: MessageBuilder<Target>,
) -> MessageBuilder<Target>
    ensures none { HasNoLater section result }
    ensures same { HasNoLater section builder → result ≡ builder }
    ensures rewinds { HasLater section builder → RewindsToNext section builder result }
    ensures cut { HasLater section builder → CutsToNext section builder result }
    ensures capacity { target_room result ≡ target_room builder }
{
    let Some(next) = section.next_section() else {
        return builder;
    };
    if !has_later(section, builder.counts()) {
        return builder;
    }
    let mut builder = builder;
    builder.rewind(next);
    builder
}
