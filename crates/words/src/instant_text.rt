// The instant that a text names. `specs/` says which texts name one.

ghost use Rattle.std.specs.Prelude.{◌≡◌, ◌<◌, ◌^◌};
ghost use Rattle.std.specs.Option.{option_map};
ghost use Rattle.words.specs.InstantTexts.{fitting, number, parts, mixed_value, mixed, fraction, decimal, whole_number, instant_in};

use instant::Instant;

// "17 1/2", "17.5", "35/2" or "17".
#[tactic(auto, unfolding(crate::specs::InstantTexts::instant_in))]
pub fn instant_in(text: &str) -> Option<Instant>
    ensures { result ≡ instant_in text.now }
{
    if let Some((above, below)) = parts(text, '/') {
        return match parts(above, ' ') {
            Some((whole, above)) => mixed(whole, above, below),
            None => fraction(above, below),
        };
    }
    match parts(text, '.') {
        Some((whole, places)) => decimal(whole, places),
        None => whole_number(text),
    }
}

// The text before the first mark, and the text behind it.
#[tactic(auto, unfolding(crate::specs::InstantTexts::parts))]
fn parts(text: &str, mark: char) -> Option<(&str, &str)>
    requires { mark < 128 }
    ensures { option_map (λ split. (split.0.now, split.1.now)) result ≡ parts mark text.now }
{
    text.split_once(mark)
}

// "17 1/2": the whole number and the fraction.
#[tactic(auto, unfolding(crate::specs::InstantTexts::mixed))]
fn mixed(whole: &str, above: &str, below: &str) -> Option<Instant>
    ensures { result ≡ mixed whole.now above.now below.now }
{
    mixed_value(number(whole)?, number(above)?, number(below)?)
}

// "35/2"
#[tactic(auto, unfolding(crate::specs::InstantTexts::fraction))]
fn fraction(above: &str, below: &str) -> Option<Instant>
    ensures { result ≡ fraction above.now below.now }
{
    let n = number(above)?;
    let m = number(below)?;
    Some(Instant { n, m })
}

// "17.5": 17 and 5/10.
#[tactic(auto, unfolding(crate::specs::InstantTexts::decimal))]
fn decimal(whole: &str, places: &str) -> Option<Instant>
    ensures { result ≡ decimal whole.now places.now }
{
    mixed_value(number(whole)?, number(places)?, power_of_ten(places.len())?)
}

// "17"
#[tactic(auto, unfolding(crate::specs::InstantTexts::whole_number))]
fn whole_number(text: &str) -> Option<Instant>
    ensures { result ≡ whole_number text.now }
{
    Some(Instant {
        n: number(text)?,
        m: 1,
    })
}

// The whole seconds and n/m of a second, as one fraction.
#[tactic(auto, unfolding(crate::specs::InstantTexts::mixed_value))]
fn mixed_value(whole: u64, n: u64, m: u64) -> Option<Instant>
    ensures { result ≡ mixed_value whole n m }
{
    let n = whole.checked_mul(m)?.checked_add(n)?;
    Some(Instant { n, m })
}

fn power_of_ten(exponent: usize) -> Option<u64>
    ensures { result ≡ fitting (10 ^ exponent) }
{
    10u64.checked_pow(u32::try_from(exponent).ok()?)
}

// Digits, one or more.
#[tactic(auto, unfolding(crate::specs::InstantTexts::number))]
fn number(text: &str) -> Option<u64>
    ensures { result ≡ number text.now }
{
    // `parse` takes a plus too.
    if text.starts_with('+') {
        return None;
    }
    text.parse().ok()
}
