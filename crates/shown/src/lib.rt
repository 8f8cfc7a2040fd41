// The time shown on a side: the first of the rule's instants with a conflict, or, where the window has no end, the first whole second with one.
//
// Where an instant is asked, the function is inlined: so each side gets code of its own, and a verdict takes a third fewer instructions (`compare/bench`).
#![tactic(auto)]

ghost use Rattle.std.specs.Prelude.{◌≡◌, ◌++◌, None, Some};
ghost use Rattle.std.specs.Option.{option_to_list};
ghost use Rattle.instant.specs.Order.{◌÷◌};
ghost use Rattle.path.specs.declared.Side.TheVariants.{Lower};
ghost use Rattle.path.specs.Letters.{d};
ghost use Rattle.path.specs.Window.{window_start, window_end};
ghost use Rattle.path.specs.inner.Tests.{opening, in_conflict};
ghost use Rattle.path.specs.Instants.{path_instants};
ghost use Rattle.path.specs.inner.Sizes.{InReach, search_start, search_end};
ghost use Rattle.shown.specs.TimeShown.{approaches, searched, shown_from, time_shown};
ghost use Rattle.shown.specs.inner.Steps.{Opened, StartTried, InstantsTried, shown_at, turning_of, lowest_point, Searchable, first_reached};

use conflict::{not_beyond, rule_target, speed_after_delay};
use instant::{Instant, no_later};
use path::{Side, SideQuestion, SizedQuestion};
use window::{in_window, positive_part, window_end};

// The lower path's lowest point after the delay, if it has one.
fn turning_instant(question: SizedQuestion) -> Option<Instant>
    ensures { result ≡ turning_of question.sensed }
{
    if question.sensed.target < 0 {
        return None;
    }
    let a = question.sensed.strength;
    let d = question.sensed.delay;
    let speed = speed_after_delay(Side::Lower, question);
    Some(Instant {
        n: d * a + positive_part(-speed),
        m: a,
    })
}

// Does the path go towards the intruder for ever?
fn approaching(asked: SideQuestion) -> bool
    ensures { result ≡ approaches asked.side asked.question.sensed }
{
    let target = rule_target(asked);
    match asked.side {
        Side::Lower => target < 0,
        Side::Upper => 0 < target,
    }
}

fn search_start(asked: SideQuestion) -> u64
    ensures { result ≡ search_start asked.side asked.question.sensed }
{
    match asked.side {
        Side::Lower => asked.question.sensed.delay,
        Side::Upper => 0,
    }
}

fn search_end(asked: SideQuestion) -> u64
    ensures { result ≡ search_end asked.side asked.question.sensed }
{
    let d = asked.question.sensed.delay;
    match asked.side {
        Side::Lower => d + 1_680_000,
        Side::Upper => d + 201_680_000,
    }
}

// The first whole second at which the path is not beyond the intruder: all seconds that follow one such are such, so the search halves. (A range of
// seconds: there is no list for the library to search.)
#[inline(always)]
fn first_second(asked: SideQuestion) -> u64
    requires { Searchable asked.side asked.question.sensed }
    ensures { first_reached asked.side asked.question.sensed ≡ Some (result ÷ 1) }
{
    let mut lo = search_start(asked);
    let mut hi = search_end(asked);
    while hi - lo > 1 {
        let mid = lo + (hi - lo) / 2;
        if not_beyond(asked, Instant { n: mid, m: 1 }) {
            hi = mid;
        } else {
            lo = mid;
        }
    }
    hi
}

// What is left where the window has no end and no instant has a conflict. (What has been tried is a clause here and below: it is no property of the question,
// and a type for each step would have to be built anew where the next instant has been tried.)
#[inline(always)]
fn from_search(asked: SideQuestion) -> Option<Instant>
    requires opened { Opened asked.question.sensed }
    requires tried { InstantsTried asked.side asked.question.sensed }
    requires endless { window_end asked.question.sensed ≡ None }
    ensures { result ≡ searched asked.side asked.question.sensed }
{
    if !approaching(asked) {
        return None;
    }
    Some(Instant {
        n: first_second(asked),
        m: 1,
    })
}

// An instant of the window, shown if the path is not beyond the intruder there.
#[tactic(auto, unfolding(crate::specs::inner::Steps::shown_at))]
#[inline(always)]
fn shown_at(asked: SideQuestion, t: Instant) -> Option<Instant>
    requires { InReach asked.side t.n t.m }
    ensures { result ≡ shown_at asked.side asked.question.sensed t }
{
    not_beyond(asked, t).then_some(t)
}

// The window's end is in the window where its start is; without an end the search is left. (That the window is open is a clause
// here: `OpenQuestion`, below, names no side, and with one it would be a second `SideQuestion`.)
#[inline(always)]
fn from_end(asked: SideQuestion) -> Option<Instant>
    requires opened { Opened asked.question.sensed }
    requires tried { InstantsTried asked.side asked.question.sensed }
    ensures { result ≡ shown_from asked.side asked.question.sensed (option_to_list (window_end asked.question.sensed)) }
{
    match window_end(asked.question) {
        None => from_search(asked),
        Some(t) => shown_at(asked, t),
    }
}

// Where the path's lowest point after the delay lies.
#[derive(Clone, Copy)]
enum LowestPoint {
    // Not after the window's start: the path rises from there on.
    Passed,
    Inside(Instant),
    // After the window, or nowhere: the path falls throughout it.
    Beyond,
}

// A question whose window is not empty, and the window's start.
#[derive(Clone, Copy)]
struct OpenQuestion {
    question: SizedQuestion,
    start: Instant,
    ghost starts: { start ≡ window_start question.sensed },
    ghost opened: { Opened question.sensed },
}

impl OpenQuestion {
    #[tactic(auto, unfolding(crate::specs::inner::Steps::lowest_point))]
    #[inline(always)]
    fn lowest_point(self) -> LowestPoint
        ensures { result ≡ lowest_point self.question.sensed }
    {
        let start = self.start;
        match turning_instant(self.question) {
            Some(t) if no_later(t, start) => LowestPoint::Passed,
            Some(t) if in_window(self.question, t) => LowestPoint::Inside(t),
            _ => LowestPoint::Beyond,
        }
    }

    // After d has been tried. Where the path has no conflict at its lowest, no later time has one.
    #[inline(always)]
    fn from_lowest(self) -> Option<Instant>
        requires { InstantsTried Lower self.question.sensed }
        ensures { result ≡ shown_from Lower self.question.sensed (option_to_list (turning_of self.question.sensed) ++ option_to_list (window_end self.question.sensed)) }
    {
        let lower = SideQuestion {
            side: Side::Lower,
            question: self.question,
        };
        match self.lowest_point() {
            LowestPoint::Passed => None,
            LowestPoint::Inside(t) => shown_at(lower, t),
            LowestPoint::Beyond => from_end(lower),
        }
    }

    // Is d in conflict? A window that starts no earlier has nothing to show there.
    #[tactic(auto, using(crate::proofs::OpenWindow::late_start), unfolding(path::specs::inner::Tests::in_conflict))]
    #[inline(always)]
    fn conflict_at_delay(self) -> bool
        requires { StartTried Lower self.question.sensed }
        ensures { result ≡ in_conflict Lower self.question.sensed (d self.question.sensed) 1 }
    {
        let question = self.question;
        let start = self.start;
        let d = question.sensed.delay;
        let end = Instant { n: d, m: 1 };
        let lower = SideQuestion {
            side: Side::Lower,
            question,
        };
        start.n < d * start.m && in_window(question, end) && not_beyond(lower, end)
    }

    #[inline(always)]
    fn from_delay(self) -> Option<Instant>
        requires { StartTried Lower self.question.sensed }
        ensures { result ≡ shown_from Lower self.question.sensed (path_instants Lower self.question.sensed ++ option_to_list (window_end self.question.sensed)) }
    {
        if self.conflict_at_delay() {
            return Some(Instant {
                n: self.question.sensed.delay,
                m: 1,
            });
        }
        self.from_lowest()
    }
}

// The time shown on a side of a window that opens at a start. Between the start and the end only the lower path has instants; an upper path that does not
// approach falls throughout. (The start is an argument beside the question, as `window::opening` gives it: a caller needs no type of this crate.)
#[inline(always)]
pub fn time_shown(asked: SideQuestion, start: Instant) -> Option<Instant>
    requires { opening asked.question.sensed ≡ Some start }
    ensures { result ≡ time_shown asked.side asked.question.sensed }
{
    if not_beyond(asked, start) {
        return Some(start);
    }
    match asked.side {
        Side::Lower => OpenQuestion {
            question: asked.question,
            start,
        }
        .from_delay(),
        Side::Upper if approaching(asked) => from_end(asked),
        Side::Upper => None,
    }
}
