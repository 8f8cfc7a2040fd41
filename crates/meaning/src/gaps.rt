// How far the intruder is above or below a side's path at an instant: exact 64-bit code for the heights of `path`.
//
// `path` has heights times 2·a·m², which 64 bits don't hold. So they are fractions here: in the delay and on an arc over 2·m², on a straight over 2·a·m. Locals bear
// document 01's letters (`path`, specs/Letters.antt).

ghost use Rattle.std.specs.Prelude.{◌≡◌, ◌*◌, ◌^◌, ◌≤◌, pos, nat_abs, ◌*ℤ◌};
ghost use Rattle.limits.specs.Limits.{max_half_height};
ghost use Rattle.path.specs.declared.Side.TheVariants.{Lower};
ghost use Rattle.path.specs.Letters.{wh, u};
ghost use Rattle.path.specs.inner.Sizes.{InReach, Compared, max_speed_after_delay};
ghost use Rattle.conflict.specs.inner.Divided.{bend, strength_of, speed_after_delay, rule_of, missing};
ghost use Rattle.conflict.specs.inner.RuleSizes.{most_bend};
ghost use Rattle.meaning.specs.Gaps.{direction_of, nearness_of, tenths_of, gap_of, gap_at, clear_direction};
ghost use Rattle.meaning.specs.inner.Fractions.{IsAbove, SizedFraction, curve, straight, rule_above, level_left, most_level};

use advisory::Sense;
use conflict::{positive_difference, rule_target, speed_after_delay};
use instant::Instant;
use path::{Side, SideQuestion};
use sensed::sign_of;

// Where the intruder is, seen from the ownship.
#[derive(Clone, Copy)]
pub enum Direction {
    Above,
    Below,
}

// How far it is, by the puck's half height.
#[derive(Clone, Copy)]
pub enum Nearness {
    Closer,
    Edge,
    Farther,
}

// In tenths of a foot. There is no direction where the intruder is level with the ownship.
#[derive(Clone, Copy)]
pub struct Gap {
    pub direction: Option<Direction>,
    pub tenths: u64,
    pub nearness: Nearness,
}

// n/d grains
#[derive(Clone, Copy)]
struct Fraction {
    n: i64,
    d: u64,
}

fn delay_bend(asked: SideQuestion) -> i64
    ensures { result ≡ bend asked.side asked.question.sensed }
{
    let e = asked.question.sensed.delay_acceleration as i64;
    match asked.side {
        Side::Lower => -e,
        Side::Upper => e,
    }
}

fn rule_strength(asked: SideQuestion) -> u64
    ensures { result ≡ strength_of asked.side asked.question.sensed }
{
    match asked.side {
        Side::Lower => asked.question.sensed.strength,
        Side::Upper => asked.question.sensed.upper_strength,
    }
}

// Twice the intruder's height above the path's at the delay's end.
fn level_left(asked: SideQuestion) -> i64
    ensures { result ≡ level_left asked.side asked.question.sensed }
{
    let speed = speed_after_delay(asked.side, asked.question);
    let u = asked.question.sensed.speed;
    let d = asked.question.sensed.delay as i64;
    2 * asked.question.sensed.level - (u + speed) * d
}

// Above a path that begins at a speed, half of `level` below the intruder, and gains `gained`/(2·m²) besides by an instant.
fn curve(level: i64, speed: i64, gained: i64, t: Instant) -> Fraction
    requires level_size { nat_abs level ≤ most_level }
    requires speed_size { nat_abs speed ≤ max_speed_after_delay }
    requires gained_size { nat_abs gained ≤ most_bend }
    requires compared { Compared Lower t.n t.m }
    ensures is { result ≡ curve level speed gained t.n t.m }
    ensures sized { SizedFraction result }
{
    let square = t.m * t.m;
    let product = (t.n * t.m) as i64;
    Fraction {
        n: level * (square as i64) - (2 * speed * product + gained),
        d: 2 * square,
    }
}

// In the delay.
fn delay_above(asked: SideQuestion, t: Instant) -> Fraction
    requires { InReach Lower t.n t.m }
    ensures is { result ≡ curve (pos 2 *ℤ wh asked.question.sensed) (u asked.question.sensed) (bend asked.side asked.question.sensed *ℤ pos t.n *ℤ pos t.n) t.n t.m }
    ensures sized { SizedFraction result }
{
    let bend = delay_bend(asked);
    let u = asked.question.sensed.speed;
    let n = t.n as i64;
    curve(2 * asked.question.sensed.level, u, bend * n * n, t)
}

// A time after the advice rule begins, while the speed still changes.
fn arc_above(asked: SideQuestion, since: Instant) -> Fraction
    requires compared { Compared Lower since.n since.m }
    requires before_straight { strength_of asked.side asked.question.sensed * since.n * since.n ≤ most_bend }
    ensures is { result ≡ curve (level_left asked.side asked.question.sensed) (speed_after_delay asked.side asked.question.sensed) (pos (strength_of asked.side asked.question.sensed * since.n * since.n)) since.n since.m }
    ensures sized { SizedFraction result }
{
    let level = level_left(asked);
    let speed = speed_after_delay(asked.side, asked.question);
    let a = rule_strength(asked);
    curve(level, speed, (a * since.n * since.n) as i64, since)
}

// Once the speed is the target; `gap` is what the speed lacked.
fn straight_above(asked: SideQuestion, gap: u64, since: Instant) -> Fraction
    requires compared { Compared Lower since.n since.m }
    requires gap_missing { gap ≡ missing (rule_of asked.side asked.question.sensed) }
    ensures is { result ≡ straight asked.side asked.question.sensed since.n since.m }
    ensures sized { SizedFraction result }
{
    let level = level_left(asked);
    let q = rule_target(asked);
    let a = rule_strength(asked);
    let run = (a * since.n) as i64;
    let step = a * since.m;
    let g = gap as i64;
    let m = since.m as i64;
    Fraction {
        n: level * (step as i64) - (2 * q * run - g * g * m),
        d: 2 * step,
    }
}

// The intruder's sensed height above the path under the advice rule, a time after it begins.
fn rule_above(asked: SideQuestion, since: Instant) -> Fraction
    requires { Compared Lower since.n since.m }
    ensures is { result ≡ rule_above asked.side asked.question.sensed since.n since.m }
    ensures sized { SizedFraction result }
{
    let speed = speed_after_delay(asked.side, asked.question);
    let gap = positive_difference(rule_target(asked), speed);
    if rule_strength(asked) * since.n < gap * since.m {
        return arc_above(asked, since);
    }
    straight_above(asked, gap, since)
}

// The intruder's sensed height above a side's path.
fn height_above(asked: SideQuestion, t: Instant) -> Fraction
    requires { Compared Lower t.n t.m }
    ensures above { IsAbove asked.side asked.question.sensed t.n t.m result }
    ensures sized { SizedFraction result }
{
    let end = asked.question.sensed.delay * t.m;
    if t.n <= end {
        return delay_above(asked, t);
    }
    rule_above(asked, Instant { n: t.n - end, ..t })
}

fn direction_of(height: i64) -> Option<Direction>
    ensures { result ≡ direction_of height }
{
    if 0 < height {
        return Some(Direction::Above);
    }
    if height < 0 {
        return Some(Direction::Below);
    }
    None
}

fn nearness_of(size: u64, half: u64) -> Nearness
    ensures { result ≡ nearness_of size half }
{
    if size < half {
        return Nearness::Closer;
    }
    if size == half {
        return Nearness::Edge;
    }
    Nearness::Farther
}

// The nearest number of tenths of a foot; but what is closer than the half height is cut where it would be shown as that or more.
fn tenths_of(size: u64, divisor: u64, half: u64) -> u64
    requires size_hi { size ≤ 2 ^ 62 }
    requires divisor_lo { 1 ≤ divisor }
    requires divisor_hi { divisor ≤ 2 ^ 36 }
    requires half_size { half ≤ max_half_height }
    ensures { result ≡ tenths_of size divisor half }
{
    let nearest = (size + 3 * divisor) / (6 * divisor);
    if (size < half * divisor) & (half <= 6 * nearest) {
        return size / (6 * divisor);
    }
    nearest
}

fn gap_of(height: Fraction, half_height: u64) -> Gap
    requires sized { SizedFraction height }
    requires half_height_size { half_height ≤ max_half_height }
    ensures { result ≡ gap_of height.n height.d half_height }
{
    let size = height.n.unsigned_abs();
    Gap {
        direction: direction_of(height.n),
        tenths: tenths_of(size, height.d, half_height),
        nearness: nearness_of(size, half_height * height.d),
    }
}

// How far the intruder is above or below the ownship, whose sense the question has.
pub fn gap_at(sense: Sense, asked: SideQuestion, t: Instant) -> Gap
    requires { Compared Lower t.n t.m }
    ensures { result ≡ gap_at sense asked.side asked.question.sensed t }
{
    let Fraction { n, d } = height_above(asked, t);
    gap_of(
        Fraction {
            n: sign_of(sense) * n,
            d,
        },
        asked.question.sensed.half_height,
    )
}

// The direction in which a side is clear.
pub fn clear_direction(side: Side, sense: Sense) -> Direction
    ensures { result ≡ clear_direction side sense }
{
    match (side, sense) {
        (Side::Lower, Sense::Climb) | (Side::Upper, Sense::Descend) => Direction::Below,
        (Side::Lower, Sense::Descend) | (Side::Upper, Sense::Climb) => Direction::Above,
    }
}
