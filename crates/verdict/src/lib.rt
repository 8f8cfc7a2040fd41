// The verdict on an accepted question. `specs/` says what it is.
#![tactic(auto)]

ghost use Rattle.std.specs.Prelude.{◌≡◌, true, None, Ok, Some};
ghost use Rattle.path.specs.inner.Sizes.{UpperSizes};
ghost use Rattle.path.specs.inner.Tests.{opening};
ghost use Rattle.question.specs.Refusals.{two_sided};
ghost use Rattle.sensed.specs.Sensed.{sensed_question};
ghost use Rattle.verdict.specs.Verdicts.{one_sided_verdict, two_sided_verdict, verdict_of, verdict};

use instant::{Instant, Time, lowest_terms};
use path::{Side, SideQuestion, SizedQuestion};
use question::{AcceptedQuestion, Question, two_sided};
use sensed::sensed_question;
use shown::time_shown;
use window::opening;

// The sides without a conflict time, with their number, which answers carry.
#[derive(Clone, Copy)]
pub enum ClearSides {
    Lower = 1,
    Upper = 2,
    Both = 3,
}

// Clear, or a conflict that carries its time; a two-sided conflict carries two, the lower one first.
#[derive(Clone, Copy)]
pub enum Verdict {
    Clear(ClearSides),
    Conflict(Time),
    Conflicts(Time, Time),
}

fn one_sided_verdict(lower: Option<Instant>) -> Verdict
    ensures { result ≡ one_sided_verdict lower }
{
    match lower {
        Some(t) => Verdict::Conflict(lowest_terms(t.n, t.m)),
        None => Verdict::Clear(ClearSides::Lower),
    }
}

fn two_sided_verdict(lower: Option<Instant>, upper: Option<Instant>) -> Verdict
    ensures { result ≡ two_sided_verdict lower upper }
{
    match (lower, upper) {
        (Some(t), Some(u)) => Verdict::Conflicts(lowest_terms(t.n, t.m), lowest_terms(u.n, u.m)),
        (Some(_), None) => Verdict::Clear(ClearSides::Upper),
        (None, Some(_)) => Verdict::Clear(ClearSides::Lower),
        (None, None) => Verdict::Clear(ClearSides::Both),
    }
}

// The verdict where the window is empty. (One function of the two times, for an empty window and an open one, takes some 50 instructions more a verdict, which may
// take 380: docs/PERFORMANCE.md.)
fn empty_verdict(question: Question) -> Verdict
    ensures { result ≡ verdict_of question None None }
{
    if two_sided(question) {
        return Verdict::Clear(ClearSides::Both);
    }
    Verdict::Clear(ClearSides::Lower)
}

// The verdict where the window opens at a start.
fn open_verdict(question: Question, s: SizedQuestion, start: Instant) -> Verdict
    requires upper_sizes { two_sided question ≡ true → UpperSizes s.sensed }
    requires opens { opening s.sensed ≡ Some start }
    ensures { result ≡ verdict question s.sensed }
{
    let lower = time_shown(
        SideQuestion {
            side: Side::Lower,
            question: s,
        },
        start,
    );
    if two_sided(question) {
        let upper = time_shown(
            SideQuestion {
                side: Side::Upper,
                question: s,
            },
            start,
        );
        return two_sided_verdict(lower, upper);
    }
    one_sided_verdict(lower)
}

// The verdict on an accepted question.
pub fn verdict_on(asked: AcceptedQuestion) -> Verdict
    ensures { result ≡ verdict asked.question (sensed_question asked.encounter asked.settings asked.question) }
{
    let s = sensed_question(asked);
    match opening(s) {
        None => empty_verdict(asked.question),
        Some(start) => open_verdict(asked.question, s, start),
    }
}
