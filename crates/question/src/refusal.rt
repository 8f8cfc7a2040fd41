// What a record, a question or a sheet is refused for.

ghost use Rattle.std.specs.Prelude.{◌≡◌};
ghost use Rattle.question.specs.RefusalNumbers.{refusal_number, code_refusal};

use advisory::CodeError;

// Each with its number, which answers carry.
#[derive(Clone, Copy, PartialEq, Eq)]
pub enum Refusal {
    // An encounter field is outside its limits.
    EncounterOutside = 1,
    // The puck's radius or half height is.
    PuckOutside = 2,
    // e is.
    DelayAccelerationOutside = 3,
    // The sides are not 1 or 2, or the sense is not 0 or 1.
    SidesOrSenseUnknown = 4,
    // The target, or two-sided the upper target, is outside its limits.
    TargetOutside = 5,
    // The delay, the limit or the second is.
    TimesOutside = 6,
    // No encounter was accepted before the question.
    NoEncounter = 7,
    // The code is not one of 1 to 18.
    CodeUnknown = 8,
    // Codes 17 and 18 have a name, and are not judged.
    CodeNotJudged = 9,
    // A sheet is longer than 8,192 bytes.
    SheetTooLong = 10,
    // A record's kind is unknown.
    KindUnknown = 11,
    // A record is cut short.
    RecordCutShort = 12,
    // The area is shorter than the answer.
    AreaTooShort = 13,
    // A strength is outside its limits, or the upper strength is below the strength.
    StrengthOutside = 14,
    // The upper target falls short of the target in the sense.
    UpperTargetBelow = 15,
    // The question is one-sided, and an upper field is not 0.
    UpperFieldsUsed = 16,
    // Code 10 is not issued to an aircraft going down, nor code 9 to one going up.
    NeverIssued = 17,
    // A flight's numbers are outside their limits.
    FlightOutside = 18,
}

impl Refusal {
    pub fn number(self) -> u8
        ensures { result ≡ refusal_number self }
    {
        self as u8
    }
}

impl From<CodeError> for Refusal {
    ghost from_gives = { λ why refusal. refusal ≡ code_refusal why };

    fn from(why: CodeError) -> Refusal {
        match why {
            CodeError::NotJudged => Refusal::CodeNotJudged,
            CodeError::Unknown => Refusal::CodeUnknown,
        }
    }
}
