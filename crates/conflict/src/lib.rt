// Whether an instant is in conflict on a side: exact 64-bit code for the tests of `path`.
//
// `path` compares heights times 2·a·m², up to 4.4e19, which 64 bits don't hold. So each comparison here has a factor that its two sides share divided out:
// an arc stands times 2·m², a straight times 2·a·m. Locals bear document 01's letters (`path`, specs/Letters.antt).
//
// That an instant is in reach is a clause: a type for it would be built at each call, and proved there all the same. Nor are question and instant one argument:
// a question is asked at several instants, so a pair of them would be taken apart to keep the question.
#![tactic(auto)]

ghost use Rattle.std.specs.Prelude.{◌≡◌, ◌*◌, ◌≤◌, ◌-ℤ◌, nat_abs};
ghost use Rattle.integers.specs.Extremes.{max0};
ghost use Rattle.path.specs.declared.Side.TheVariants.{Lower, Upper};
ghost use Rattle.path.specs.Letters.{u};
ghost use Rattle.path.specs.Paths.{delay_height};
ghost use Rattle.path.specs.inner.Tests.{not_beyond};
ghost use Rattle.path.specs.inner.Sizes.{Compared, InReach};
ghost use Rattle.conflict.specs.inner.Divided.{bend, speed_after_delay, edge_height, height_not_beyond, delay_not_beyond, strength_of, target_of, rule_of, rule_not_beyond, missing, arc_not_beyond, straight_not_beyond};
ghost use Rattle.conflict.specs.inner.RuleSizes.{RuleSizes, most_missing, most_bend};
ghost use Rattle.conflict.specs.inner.DifferenceRange.{max_operand};

use instant::Instant;
use path::{Side, SideQuestion, SizedQuestion};

// The acceleration during the delay: against the advice on the lower path, towards it on the upper.
fn delay_bend(side: Side, question: SizedQuestion) -> i64
    ensures { result ≡ bend side question.sensed }
{
    let e = question.sensed.delay_acceleration as i64;
    match side {
        Side::Lower => -e,
        Side::Upper => e,
    }
}

// The speed at the delay's end: u_d, or on the upper path the speed reached.
pub fn speed_after_delay(side: Side, question: SizedQuestion) -> i64
    ensures { result ≡ speed_after_delay side question.sensed }
{
    let bend = delay_bend(side, question);
    let u = question.sensed.speed;
    let d = question.sensed.delay as i64;
    u + bend * d
}

// The advice's strength.
fn rule_strength(asked: SideQuestion) -> u64
    ensures { result ≡ strength_of asked.side asked.question.sensed }
{
    let s = asked.question.sensed;
    match asked.side {
        Side::Lower => s.strength,
        Side::Upper => s.upper_strength,
    }
}

// The advice's target. On the upper side an ownship that is faster already keeps its speed.
pub fn rule_target(asked: SideQuestion) -> i64
    ensures { result ≡ target_of asked.side asked.question.sensed }
{
    let s = asked.question.sensed;
    match asked.side {
        Side::Lower => s.target,
        Side::Upper => s
            .upper_target
            .max(speed_after_delay(asked.side, asked.question)),
    }
}

// The height during the delay, times 2·m².
fn delay_height(asked: SideQuestion, t: Instant) -> i64
    requires { InReach Lower t.n t.m }
    ensures { result ≡ delay_height (bend asked.side asked.question.sensed) (u asked.question.sensed) t.n t.m }
{
    let bend = delay_bend(asked.side, asked.question);
    let u = asked.question.sensed.speed;
    let n = t.n as i64;
    let m = t.m as i64;
    2 * u * n * m + bend * n * n
}

// The height of the puck's edge: w·h + k, or on the upper side w·h − k.
fn edge_height(asked: SideQuestion) -> i64
    ensures { result ≡ edge_height asked.side asked.question.sensed }
{
    let level = asked.question.sensed.level;
    let k = asked.question.sensed.half_height as i64;
    match asked.side {
        Side::Lower => level + k,
        Side::Upper => level - k,
    }
}

// Is a height not strictly beyond the puck's edge? Lower, it is at the edge or below; upper, at it or above.
#[inline(always)]
fn height_not_beyond(side: Side, height: i64, edge: i64) -> bool
    ensures { result ≡ height_not_beyond side height edge }
{
    match side {
        Side::Lower => height <= edge,
        Side::Upper => edge <= height,
    }
}

// The delay against the puck's edge.
fn delay_not_beyond(asked: SideQuestion, t: Instant) -> bool
    requires { InReach Lower t.n t.m }
    ensures { result ≡ delay_not_beyond asked.side asked.question.sensed t.n t.m }
{
    let edge = edge_height(asked);
    let height = delay_height(asked, t);
    let m = t.m as i64;
    let edge = 2 * m * m * edge;
    height_not_beyond(asked.side, height, edge)
}

// An advice rule from any height and speed on, and the side that it is asked for. (Its sizes are a clause: `rule_of` makes rules of any question.)
#[derive(Clone, Copy)]
struct AdviceRule {
    side: Side,
    strength: u64,
    target: i64,
    // The speed where the rule begins.
    speed: i64,
    // Twice the height of the puck's edge above the height where the rule begins.
    edge: i64,
}

// A side's rule, from the delay's end on. Twice the height there is whole, the sum of the two speeds times d: halving e·d² could lose half a grain.
fn advice_rule(asked: SideQuestion) -> AdviceRule
    ensures { result ≡ rule_of asked.side asked.question.sensed }
{
    let edge = edge_height(asked);
    let speed = speed_after_delay(asked.side, asked.question);
    let u = asked.question.sensed.speed;
    let d = asked.question.sensed.delay as i64;
    AdviceRule {
        side: asked.side,
        strength: rule_strength(asked),
        target: rule_target(asked),
        speed,
        edge: 2 * edge - (u + speed) * d,
    }
}

// max(0, q − u) without a branch: the difference times 1 where it is above 0, and times 0 where it is not. (docs/LESSON-LARGER.md)
pub fn positive_difference(q: i64, u: i64) -> u64
    requires q_in_range { nat_abs q ≤ max_operand }
    requires u_in_range { nat_abs u ≤ max_operand }
    ensures { result ≡ max0 (q -ℤ u) }
{
    ((q - u) * ((0 < q - u) as i64)) as u64
}

impl AdviceRule {
    // G, the speed that is missing; none where the speed exceeds the target, as the path then takes the target at once. (`pieces` says why it has its own.)
    #[inline(always)]
    fn missing_speed(self) -> u64
        requires { RuleSizes self }
        ensures { result ≡ missing self }
    {
        positive_difference(self.target, self.speed)
    }

    // While the speed still changes: a·n is below G·m then, which keeps a·n² small. (The instants of both sides are in the upper one's reach.)
    #[inline(always)]
    fn arc_not_beyond(self, since: Instant) -> bool
        requires rule_sizes { RuleSizes self }
        requires in_reach { InReach Upper since.n since.m }
        requires before_straight { self.strength * since.n * since.n ≤ most_bend }
        ensures { result ≡ arc_not_beyond self since.n since.m }
    {
        let a = self.strength;
        let u = self.speed;
        let bend = (a * since.n * since.n) as i64;
        let n = since.n as i64;
        let m = since.m as i64;
        let arc = 2 * u * n * m + bend;
        let edge = m * m * self.edge;
        height_not_beyond(self.side, arc, edge)
    }

    // Once the speed is the target.
    #[inline(always)]
    fn straight_not_beyond(self, gap: u64, since: Instant) -> bool
        requires rule_sizes { RuleSizes self }
        requires in_reach { InReach Upper since.n since.m }
        requires gap_missing { gap ≡ missing self }
        ensures { result ≡ straight_not_beyond self since.n since.m }
    {
        let q = self.target;
        let run = (self.strength * since.n) as i64;
        let a = self.strength as i64;
        let g = gap as i64;
        let m = since.m as i64;
        let straight = 2 * q * run - g * g * m;
        let edge = a * m * self.edge;
        height_not_beyond(self.side, straight, edge)
    }

    // Is the path not beyond the edge, a time after the rule begins?
    #[inline(always)]
    fn not_beyond(self, since: Instant) -> bool
        requires rule_sizes { RuleSizes self }
        requires missing_within { missing self ≤ most_missing self.side }
        requires in_reach { Compared self.side since.n since.m }
        ensures { result ≡ rule_not_beyond self since.n since.m }
    {
        let gap = self.missing_speed();
        if self.strength * since.n < gap * since.m {
            return self.arc_not_beyond(since);
        }
        self.straight_not_beyond(gap, since)
    }
}

// Is a side's path "not strictly beyond" the puck's edge at an instant? Up to d the delay says, then the rule.
pub fn not_beyond(asked: SideQuestion, t: Instant) -> bool
    requires { Compared asked.side t.n t.m }
    ensures { result ≡ not_beyond asked.side asked.question.sensed t.n t.m }
{
    let end = asked.question.sensed.delay * t.m;
    if t.n <= end {
        return delay_not_beyond(asked, t);
    }
    advice_rule(asked).not_beyond(Instant { n: t.n - end, ..t })
}
