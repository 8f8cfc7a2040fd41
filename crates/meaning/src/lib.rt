// What a verdict means: of each side in conflict what kind of moment is shown, and where the intruder is then; of a clear question whether the intruder comes near
// at all. `specs/` says what each is.
#![tactic(auto)]

ghost use Rattle.std.specs.Prelude.{◌≡◌, true, Some};
ghost use Rattle.std.specs.Option.{option_map};
ghost use Rattle.path.specs.declared.Side.TheVariants.{Lower, Upper};
ghost use Rattle.path.specs.Window.{window_start};
ghost use Rattle.path.specs.inner.Sizes.{Compared, UpperSizes};
ghost use Rattle.path.specs.inner.Tests.{opening};
ghost use Rattle.question.specs.Refusals.{two_sided};
ghost use Rattle.sensed.specs.Sensed.{sensed_question};
ghost use Rattle.shown.specs.TimeShown.{time_shown};
ghost use Rattle.meaning.specs.Meanings.{explained_at, one_sided_finding, two_sided_finding, shown_finding, explained_on, finding_on, meaning_of, meaning_answer};

use advisory::Sense;
use instant::{Instant, Time, lowest_terms};
use path::{Side, SideQuestion, SizedQuestion};
use question::{AcceptedQuestion, Encounter, Question, Refusal, Settings, sense_of, two_sided};
use refusals::accept;
use sensed::sensed_question;
use shown::time_shown;
use verdict::ClearSides;
use window::opening;

mod gaps;
mod moments;

use gaps::gap_at;
pub use gaps::{Direction, Gap, Nearness, clear_direction};
pub use moments::Moment;
use moments::moment_at;

// A time shown, the kind of moment that it is, and where the intruder is then.
#[derive(Clone, Copy)]
pub struct Explained {
    pub time: Time,
    pub moment: Moment,
    pub gap: Gap,
}

// What is found: that the intruder never comes near, or which sides are clear, or the conflict of each side asked, the lower one first.
#[derive(Clone, Copy)]
pub enum Finding {
    NeverNear,
    Clear(ClearSides),
    Conflict(Explained),
    Conflicts(Explained, Explained),
}

// A finding, with the numbers of the question that it speaks of.
#[derive(Clone, Copy)]
pub struct Meaning {
    pub sense: Sense,
    pub two_sided: bool,
    pub radius: u64,
    pub half_height: u64,
    pub limit: Option<u64>,
    pub finding: Finding,
}

// Why a time is shown on a side; `start` is the window's.
#[tactic(auto, unfolding(crate::specs::Meanings::explained_at))]
fn explained_at(sense: Sense, asked: SideQuestion, start: Instant, t: Instant) -> Explained
    requires starts { start ≡ window_start asked.question.sensed }
    requires compared { Compared Lower t.n t.m }
    ensures { result ≡ explained_at sense asked.side asked.question.sensed t }
{
    Explained {
        time: lowest_terms(t.n, t.m),
        moment: moment_at(asked.side, asked.question, start, t),
        gap: gap_at(sense, asked, t),
    }
}

// The time shown on a side, explained, where the window opens at a start.
fn explained_on(sense: Sense, asked: SideQuestion, start: Instant) -> Option<Explained>
    requires { opening asked.question.sensed ≡ Some start }
    ensures { result ≡ option_map (explained_at sense asked.side asked.question.sensed) (time_shown asked.side asked.question.sensed) }
{
    match time_shown(asked, start) {
        Some(t) => Some(explained_at(sense, asked, start, t)),
        None => None,
    }
}

fn one_sided_finding(lower: Option<Explained>) -> Finding
    ensures { result ≡ one_sided_finding lower }
{
    match lower {
        Some(f) => Finding::Conflict(f),
        None => Finding::Clear(ClearSides::Lower),
    }
}

fn two_sided_finding(lower: Option<Explained>, upper: Option<Explained>) -> Finding
    ensures { result ≡ two_sided_finding lower upper }
{
    match (lower, upper) {
        (Some(f), Some(j)) => Finding::Conflicts(f, j),
        (Some(_), None) => Finding::Clear(ClearSides::Upper),
        (None, Some(_)) => Finding::Clear(ClearSides::Lower),
        (None, None) => Finding::Clear(ClearSides::Both),
    }
}

// What is found where the window opens at a start.
fn open_finding(question: Question, s: SizedQuestion, start: Instant) -> Finding
    requires upper_sizes { two_sided question ≡ true → UpperSizes s.sensed }
    requires opens { opening s.sensed ≡ Some start }
    ensures { result ≡ shown_finding question (explained_on question Lower s.sensed) (explained_on question Upper s.sensed) }
{
    let sense = sense_of(question);
    let lower = explained_on(
        sense,
        SideQuestion {
            side: Side::Lower,
            question: s,
        },
        start,
    );
    if two_sided(question) {
        let upper = explained_on(
            sense,
            SideQuestion {
                side: Side::Upper,
                question: s,
            },
            start,
        );
        return two_sided_finding(lower, upper);
    }
    one_sided_finding(lower)
}

#[tactic(auto, unfolding(crate::specs::Meanings::finding_on))]
fn finding_on(question: Question, s: SizedQuestion) -> Finding
    requires { two_sided question ≡ true → UpperSizes s.sensed }
    ensures { result ≡ finding_on question s.sensed }
{
    match opening(s) {
        None => Finding::NeverNear,
        Some(start) => open_finding(question, s, start),
    }
}

// What the verdict on an accepted question means.
#[tactic(auto, unfolding(crate::specs::Meanings::meaning_of))]
fn meaning_of(asked: AcceptedQuestion) -> Meaning
    ensures { result ≡ meaning_of asked.question (sensed_question asked.encounter asked.settings asked.question) }
{
    let s = sensed_question(asked);
    Meaning {
        sense: sense_of(asked.question),
        two_sided: two_sided(asked.question),
        radius: s.sensed.radius,
        half_height: s.sensed.half_height,
        limit: s.sensed.limit,
        finding: finding_on(asked.question, s),
    }
}

// The entry: any 64-bit values.
#[tactic(auto, unfolding(crate::specs::Meanings::meaning_answer))]
pub fn explain(
    encounter: Encounter,
    settings: Settings,
    question: Question,
) -> Result<Meaning, Refusal>
    ensures { result ≡ meaning_answer encounter settings question }
{
    let asked = accept(encounter, settings, question)?;
    Ok(meaning_of(asked))
}
