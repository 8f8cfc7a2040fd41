// How it is said what holds at an instant that is named; `specs/` says it too.

ghost use Rattle.std.specs.Prelude.{Some};
ghost use Rattle.words.specs.Texts.{instant_text, standing_text, shown_after, named_text};

use crate::phrases::Words;
use instant::{Instant, lowest_terms};
use named_instant::{InstantAnswer, Standing};
use std::fmt;
use verdict::Verdict;

// An instant, what holds there, and the verdict on the same question.
#[derive(Clone, Copy)]
pub struct Named {
    pub instant: Instant,
    pub answer: InstantAnswer,
    pub verdict: Verdict,
}

// "17 1/2 s", as a time that is shown; n/0, which is no time, as it is.
impl fmt::Display for Words<Instant> {
    ghost output = { λ words. Some (instant_text words.0) };

    fn fmt<W: fmt::Write>(&self, f: &mut fmt::Formatter<W>) -> fmt::Result {
        let Instant { n, m } = self.0;
        if m == 0 {
            write!(f, "{n}/0 s")
        } else {
            write!(f, "{}", Words(lowest_terms(n, m)))
        }
    }
}

// What an instant is. A conflict time is in the window.
impl fmt::Display for Words<Standing> {
    ghost output = { λ words. Some (standing_text words.0) };

    fn fmt<W: fmt::Write>(&self, f: &mut fmt::Formatter<W>) -> fmt::Result {
        let Standing {
            in_window,
            lower,
            upper,
        } = self.0;
        if !in_window {
            return write!(f, "outside the window");
        }
        match (lower, upper) {
            (true, None) => write!(f, "a conflict time"),
            (false, None) => write!(f, "in the window and no conflict time"),
            (true, Some(true)) => write!(f, "a conflict time on both sides"),
            (true, Some(false)) => write!(
                f,
                "a conflict time on the lower side and not on the upper"
            ),
            (false, Some(true)) => write!(
                f,
                "a conflict time on the upper side and not on the lower"
            ),
            (false, Some(false)) => write!(f, "in the window and no conflict time on either side"),
        }
    }
}

// Of a conflict time it is said besides what the judge shows. Two-sided, the verdict may still be clear, on the other side, and then it shows no time.
#[derive(Clone, Copy)]
struct Shown {
    standing: Standing,
    verdict: Verdict,
}

impl fmt::Display for Shown {
    ghost output = { λ shown. Some (shown_after shown.standing shown.verdict) };

    fn fmt<W: fmt::Write>(&self, f: &mut fmt::Formatter<W>) -> fmt::Result {
        let Shown { standing, verdict } = *self;
        let found = standing.lower || standing.upper == Some(true);
        match verdict {
            Verdict::Conflict(time) if found => write!(f, "; the judge shows {}", Words(time)),
            Verdict::Conflicts(lower, upper) if found => write!(
                f,
                "; the judge shows {} on the lower side and {} on the upper",
                Words(lower),
                Words(upper)
            ),
            _ => Ok(()),
        }
    }
}

// "17 1/2 s is a conflict time; the judge shows 27 s", "20 s is outside the window"
impl fmt::Display for Named {
    ghost output = { λ named. Some (named_text named.instant named.answer named.verdict) };

    fn fmt<W: fmt::Write>(&self, f: &mut fmt::Formatter<W>) -> fmt::Result {
        let Named {
            instant,
            answer,
            verdict,
        } = *self;
        let instant = Words(instant);
        match answer {
            InstantAnswer::OutOfReach => write!(f, "{instant} is out of the judge's reach"),
            InstantAnswer::Judged(standing) => write!(
                f,
                "{instant} is {}{}",
                Words(standing),
                Shown { standing, verdict }
            ),
        }
    }
}
