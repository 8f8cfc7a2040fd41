// The article's advisories by code: the catalogue gives sense and target, the reaction table strength and delay.
#![tactic(auto)]

ghost use Rattle.std.specs.Prelude.{◌≡◌};
ghost use Rattle.advisory.specs.Catalogue.{sense_of_code, target_of, catalogue_of};
ghost use Rattle.advisory.specs.ReactionTable.{reaction_table, row_at, row_of};
ghost use Rattle.advisory.specs.Advised.{advised_of};

// The way an advisory sends the ownship, with the number that a question has for it.
#[derive(Clone, Copy)]
pub enum Sense {
    Descend = 0,
    Climb = 1,
}

// The vertical speed to reach. Upward speeds are positive in both senses; a grain per second is a foot per minute.
#[derive(Clone, Copy)]
pub enum Target {
    Rate(i64),
    // The ownship's own speed: MDES and MCL.
    Current,
}

// What the catalogue gives an article code.
#[derive(Clone, Copy)]
pub struct Advice {
    pub sense: Sense,
    pub target: Target,
}

// Why a code is not judged.
#[derive(Clone, Copy, PartialEq, Eq)]
pub enum CodeError {
    // Named, and never judged: COC and MTLO.
    NotJudged,
    Unknown,
}

// A row of the reaction table: strength in grains/s², delay in seconds. (The code is a byte, as a question has it: which bytes are codes is what the catalogue
// and this table say, and a type of codes would say it a third time.)
#[derive(Clone, Copy)]
pub struct Reaction {
    pub code: u8,
    pub strength: u64,
    pub delay: u64,
}

// All that a judged code tells the pilot. (Flat, as a line of Table 1 is: with the advice as a field, each definition and contract would say `instruction.advice.sense`.)
#[derive(Clone, Copy)]
pub struct Instruction {
    pub sense: Sense,
    pub target: Target,
    pub strength: u64,
    pub delay: u64,
}

// Odd codes descend, even codes climb.
fn sense_of_code(code: u8) -> Sense
    ensures { result ≡ sense_of_code code }
{
    if code % 2 == 0 {
        Sense::Climb
    } else {
        Sense::Descend
    }
}

// The catalogue asks for article codes only; for others the current speed stands in.
#[tactic(auto, unfolding(crate::specs::Catalogue::article_entries))]
fn target_of(code: u8) -> Target
    ensures { result ≡ target_of code }
{
    match code {
        1 => Target::Rate(2000),
        2 => Target::Rate(-2000),
        3 => Target::Rate(1000),
        4 => Target::Rate(-1000),
        5 => Target::Rate(500),
        6 => Target::Rate(-500),
        7 => Target::Rate(0),
        8 => Target::Rate(0),
        9 => Target::Current,
        10 => Target::Current,
        11 => Target::Rate(-1500),
        12 => Target::Rate(1500),
        13 => Target::Rate(-1500),
        14 => Target::Rate(1500),
        15 => Target::Rate(-2500),
        16 => Target::Rate(2500),
        _ => Target::Current,
    }
}

// The article's codes, the codes that are named but not judged, and the unknown ones.
#[tactic(auto, using(crate::proofs::CodeRanges::article_range, crate::proofs::CodeRanges::not_judged_range, crate::proofs::CodeRanges::listing_past_16), unfolding(crate::specs::Catalogue::catalogue_of))]
pub fn catalogue(code: u8) -> Result<Advice, CodeError>
    ensures { result ≡ catalogue_of code }
{
    match code {
        1..=16 => {
            let sense = sense_of_code(code);
            let target = target_of(code);
            Ok(Advice { sense, target })
        }
        17..=18 => Err(CodeError::NotJudged),
        _ => Err(CodeError::Unknown),
    }
}

const ROWS: usize = 16;

// One row for each code of the catalogue, looked up by the code that the row holds.
const REACTION_TABLE: [Reaction; ROWS] = [
    Reaction {
        code: 1,
        strength: 483,
        delay: 5,
    },
    Reaction {
        code: 2,
        strength: 483,
        delay: 5,
    },
    Reaction {
        code: 3,
        strength: 483,
        delay: 5,
    },
    Reaction {
        code: 4,
        strength: 483,
        delay: 5,
    },
    Reaction {
        code: 5,
        strength: 483,
        delay: 5,
    },
    Reaction {
        code: 6,
        strength: 483,
        delay: 5,
    },
    Reaction {
        code: 7,
        strength: 483,
        delay: 5,
    },
    Reaction {
        code: 8,
        strength: 483,
        delay: 5,
    },
    Reaction {
        code: 9,
        strength: 483,
        delay: 5,
    },
    Reaction {
        code: 10,
        strength: 483,
        delay: 5,
    },
    Reaction {
        code: 11,
        strength: 483,
        delay: 5,
    },
    Reaction {
        code: 12,
        strength: 483,
        delay: 5,
    },
    Reaction {
        code: 13,
        strength: 644,
        delay: 3,
    },
    Reaction {
        code: 14,
        strength: 644,
        delay: 3,
    },
    Reaction {
        code: 15,
        strength: 644,
        delay: 3,
    },
    Reaction {
        code: 16,
        strength: 644,
        delay: 3,
    },
];

// The row at a place, counted from 0; no row from the table's end on.
#[tactic(auto, unfolding(crate::specs::ReactionTable::reaction_table))]
pub fn reaction_row(place: usize) -> Option<Reaction>
    ensures { result ≡ row_at reaction_table place }
{
    REACTION_TABLE.get(place).copied()
}

// The first row with this code.
#[tactic(auto, unfolding(crate::specs::ReactionTable::reaction_table))]
pub fn reaction_to(code: u8) -> Option<Reaction>
    ensures { result ≡ row_of reaction_table code }
{
    REACTION_TABLE.iter().find(|row| row.code == code).copied()
}

// Sense, target, strength and delay of a judged code. Each article code has its row, so a row is never missing here.
#[tactic(auto, unfolding(crate::specs::Advised::advised_of))]
pub fn advise(code: u8) -> Result<Instruction, CodeError>
    ensures { result ≡ advised_of code }
{
    let advice = catalogue(code)?;
    let row = reaction_to(code).ok_or(CodeError::Unknown)?;
    Ok(Instruction {
        sense: advice.sense,
        target: advice.target,
        strength: row.strength,
        delay: row.delay,
    })
}
