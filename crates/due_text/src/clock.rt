// Seconds of the clock, in decimal, with a minus sign before zero.
ghost use Rattle.std.specs.Prelude.{◌≡◌, true, false};
ghost use Rattle.due_text.specs.Clock.{clock_at, clock_of};

use crate::decimal;
use crate::decimal::NumberError;

#[tactic(auto, using(crate::proofs::Clocks::signs))]
pub fn read(word: &[u8]) -> Result<i64, NumberError>
    ensures { result ≡ clock_of word.now }
{
    match word.strip_prefix(b"-") {
        Some(digits) => before_zero(decimal::read(digits)?),
        None => after_zero(decimal::read(word)?),
    }
}

fn after_zero(seconds: u64) -> Result<i64, NumberError>
    ensures { result ≡ clock_at false (Ok seconds) }
{
    i64::try_from(seconds).map_err(|_| NumberError::TooLarge)
}

// Taken from zero, and not negated: the first second of all, -2^63, has no counterpart after zero.
fn before_zero(seconds: u64) -> Result<i64, NumberError>
    ensures { result ≡ clock_at true (Ok seconds) }
{
    0i64.checked_sub_unsigned(seconds)
        .ok_or(NumberError::TooLarge)
}
