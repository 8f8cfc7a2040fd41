// Rational times: their order, and their lowest terms.
#![tactic(auto)]

ghost use Rattle.std.specs.Prelude.{◌≡◌, min};
ghost use Rattle.std.specs.Int.Count.{count_trailing_zeros};
ghost use Rattle.instant.specs.Order.{no_later, earlier};
ghost use Rattle.instant.specs.inner.Sizes.{SizedInstant};
ghost use Rattle.instant.specs.Lowest.{gcd, lowest};

// The rational time n/m, in seconds; a time has m ≥ 1. (No Ord: where m is 0 its laws fail, as 0/0 would equal every time; and no Eq: 1/2 and 2/4 are one time.
// A whole second s is s/1, written out where one is meant.)
#[derive(Clone, Copy)]
pub struct Instant {
    pub n: u64,
    pub m: u64,
}

// A time as it is shown: whole seconds, and remainder/divisor of a second in lowest terms.
#[derive(Clone, Copy, Default)]
pub struct Time {
    pub seconds: u64,
    pub remainder: u64,
    pub divisor: u64,
}

// Is a no later than b?
pub fn no_later(a: Instant, b: Instant) -> bool
    requires { SizedInstant a × SizedInstant b }
    ensures { result ≡ no_later a b }
{
    a.n * b.m <= b.n * a.m
}

// The earlier of a and b; a where they are the same rational time.
pub fn earlier(a: Instant, b: Instant) -> Instant
    requires { SizedInstant a × SizedInstant b }
    ensures { result ≡ earlier a b }
{
    if no_later(a, b) { a } else { b }
}

// The greatest common divisor, by Euclid's algorithm in 32 bits, where a division costs half as much. A division by 1, most often the last step, is left out.
#[tactic(auto, using(crate::proofs::Euclid::gcd_step))]
fn short_gcd(a: u32, b: u32) -> u32
    ensures { result ≡ gcd a b }
{
    let mut x = a;
    let mut y = b;
    while y > 1 {
        let rest = x % y;
        x = y;
        y = rest;
    }
    if y == 1 { 1 } else { x }
}

// By steps in 64 bits until both numbers have no more than 32.
#[tactic(auto, using(crate::proofs::Euclid::gcd_step))]
fn common_divisor(a: u64, b: u64) -> u64
    ensures { result ≡ gcd a b }
{
    match (u32::try_from(a), u32::try_from(b)) {
        (Ok(short_a), Ok(short_b)) => u64::from(short_gcd(short_a, short_b)),
        _ if b == 0 => a,
        _ => common_divisor(b, a % b),
    }
}

// How many factors of two a and b share; a 0 counts as 64 of them.
fn shared_twos(a: u64, b: u64) -> u32
    ensures { result ≡ min (count_trailing_zeros 64 a) (count_trailing_zeros 64 b) }
{
    a.trailing_zeros().min(b.trailing_zeros())
}

// The time n/m in lowest terms. Where m is 0 it is three zeros, which are no time: no caller has such an m, and each would take an Option apart in vain.
// (It is no `From<Instant>`: that could not say what becomes of n/0.)
// Shared factors of two are shifted out; Euclid's algorithm finds what else is shared.
pub fn lowest_terms(n: u64, m: u64) -> Time
    ensures { result ≡ lowest n m }
{
    if m == 0 {
        return Time::default();
    }
    let seconds = n / m;
    let left = n % m;
    let twos = shared_twos(left, m);
    let numerator = left >> twos;
    let denominator = m >> twos;
    let common = common_divisor(denominator, numerator);
    // Nothing is divided by 1: a division is slow.
    if common == 1 {
        return Time {
            seconds,
            remainder: numerator,
            divisor: denominator,
        };
    }
    Time {
        seconds,
        remainder: numerator / common,
        divisor: denominator / common,
    }
}
