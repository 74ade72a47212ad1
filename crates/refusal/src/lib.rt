// Why a call stopped: one error for all calls, since the paper numbers their refusals in one list.
#![tactic(auto)]

ghost use Rattle.std.specs.Prelude.{◌≡◌, ◌<◌};
ghost use Rattle.refusal.specs.Number.{number_of};

use std::error::Error;
use std::fmt;

// Each with its number and the paper's sentence in short. Number 3 no longer occurs.
#[derive(Clone, Copy, Debug, PartialEq, Eq)]
pub enum Refusal {
    // 1. The rule is shorter than 8 bytes or lacks its mark.
    RuleMark,
    // 2. The rule's version is not 1 or 2.
    RuleVersion,
    // 4. The count is above 128, a spare byte is not zero, or the length is not 8 + 10 × count.
    RuleLength,
    // 5. Some kind is above 6, some letter above 31, or some unused field not zero.
    EntryField,
    // 6. Some low or finite high is above 3,600, some low is above its high, or until has no upper end.
    Interval,
    // 7. Some entry lacks an operand, or the whole leaves another number of formulas than the version allows.
    Shape,
    // 8. The need is above 8,192 words.
    TooManyWords,
    // 9. The lent checkpoint is shorter than the need.
    ShortPoint,
    // 10. The checkpoint does not begin as one of this library with a copy of this rule.
    ForeignPoint,
    // 11. A word of the checkpoint is outside its range.
    PointRange,
    // 12. The log is too short, its mark, version or spare bytes are wrong, or it has half a record or too many.
    LogFormat,
    // 13. The log has fewer records than the checkpoint has seen.
    FewerRecords,
    // 14. Some record's time is below that of the record before it.
    TimeFalls,
    // 15. A sheet to count has a bit beyond the number of formulas, or that number is outside 1 to 8.
    SheetByte,
    // 16. A word, sign or form of number is unknown, or the text is too long.
    UnknownWord,
    // 17. The grammar does not derive the text.
    NotDerived,
    // 18. The lent rule buffer is short.
    ShortRule,
    // 19. More than 1,000,000 records are asked for, or the lent log buffer is short.
    LogRoom,
    // 20. A closed checkpoint is to be carried on.
    PointClosed,
    // 21. A closing is repeated with more records than at the first.
    MoreRecords,
    // 22. The log's version is not that which was noted.
    OtherVersion,
    // 23. A version 1 log is to be trimmed.
    TrimVersion,
    // 24. The log has dropped a record that is wanted.
    RecordDropped,
    // 25. The lent buffer for the trimmed log is short.
    ShortLog,
    // 26. A setting, the seconds or the seed is outside its range, or the lent log buffer is short.
    Settings,
    // 27. The formula does not exist, the position has no verdict yet, or the lent text buffer is short.
    NoReason,
}

impl Refusal {
    // The paper's number, which C gets.
    pub fn number(self) -> u32
        ensures { (result ≡ number_of self) × (0 < result) }
    {
        match self {
            Refusal::RuleMark => 1,
            Refusal::RuleVersion => 2,
            Refusal::RuleLength => 4,
            Refusal::EntryField => 5,
            Refusal::Interval => 6,
            Refusal::Shape => 7,
            Refusal::TooManyWords => 8,
            Refusal::ShortPoint => 9,
            Refusal::ForeignPoint => 10,
            Refusal::PointRange => 11,
            Refusal::LogFormat => 12,
            Refusal::FewerRecords => 13,
            Refusal::TimeFalls => 14,
            Refusal::SheetByte => 15,
            Refusal::UnknownWord => 16,
            Refusal::NotDerived => 17,
            Refusal::ShortRule => 18,
            Refusal::LogRoom => 19,
            Refusal::PointClosed => 20,
            Refusal::MoreRecords => 21,
            Refusal::OtherVersion => 22,
            Refusal::TrimVersion => 23,
            Refusal::RecordDropped => 24,
            Refusal::ShortLog => 25,
            Refusal::Settings => 26,
            Refusal::NoReason => 27,
        }
    }
}

impl fmt::Display for Refusal {
    ghost use Rattle.std.specs.Prelude.{Some, ◌++◌, codes, decimal};
    ghost use Rattle.refusal.specs.Number.{number_of};

    ghost output = { λ refusal. Some (codes "refused " ++ decimal (number_of refusal)) };

    fn fmt<W: fmt::Write>(&self, f: &mut fmt::Formatter<W>) -> fmt::Result {
        write!(f, "refused {}", self.number())
    }
}

impl Error for Refusal {}
