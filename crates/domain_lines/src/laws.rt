//! Laws of the lines of questions and records, for callers.
ghost use Rattle.std.specs.Prelude.{◌≡◌, ℕ, List};
ghost use Rattle.domain_message.specs.Entries.{QuestionFields, QuestionAt, RecordFields, RecordAt};
ghost use Rattle.domain_tool.specs.Lines.{IsQuestion, IsRecord};
ghost use Rattle.domain_lines.specs.Listed.{asked_line, listed_line};

/// A question or record that is there is shown with its fields by `dnsnames list`, and what that shows are the fields
/// of one that is there.
pub fn listed_laws()
    ensures question_listed { (m : List ℕ) (p e : ℕ) (it : QuestionFields) →
        QuestionAt m p it e → IsQuestion m p (asked_line it) e }
    ensures listed_question { (m : List ℕ) (p e : ℕ) (line : List ℕ) →
        IsQuestion m p line e →
        (it : QuestionFields) × QuestionAt m p it e × (line ≡ asked_line it) }
    ensures record_listed { (m : List ℕ) (p e : ℕ) (it : RecordFields) →
        RecordAt m p it e → IsRecord m p (listed_line it) e }
    ensures listed_record { (m : List ℕ) (p e : ℕ) (line : List ℕ) →
        IsRecord m p line e →
        (it : RecordFields) × RecordAt m p it e × (line ≡ listed_line it) }
{}
