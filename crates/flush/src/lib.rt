// The key under which a flush is filed: which unit, which valve, and in which hour of the clock, from zero on or below it.
#![tactic(auto)]

ghost use Rattle.std.specs.Prelude.{◌≡◌, ◌<◌};
ghost use Rattle.flush.specs.Floor.{modulo};
ghost use Rattle.answers.specs.Paper.{paper};
ghost use Rattle.flush.specs.FlushKey.{hour_of, hours_held, key_of, flush_key_of};

use answers::Refusal;

const SECONDS_PER_HOUR: i64 = 3600;

const FIRST_HOUR: i64 = -0x80_0000_0000;

const LAST_HOUR: i64 = 0x7f_ffff_ffff;

const HOURS_HELD: i64 = 0x100_0000_0000;

// The key, or the refusal of an hour that 40 bits do not hold.
#[tactic(auto, unfolding(crate::specs::FlushKey::flush_key_of, crate::specs::FlushKey::key_at_hour))]
pub fn flush_key(unit: u16, valve: u8, seconds: i64) -> Result<u64, Refusal>
    ensures { paper result ≡ flush_key_of unit valve seconds }
{
    let hour = hour_of(seconds);
    if !(FIRST_HOUR..=LAST_HOUR).contains(&hour) {
        return Err(Refusal::Clock);
    }
    Ok(key(unit, valve, held(hour)))
}

// The floor of seconds / 3,600. Division drops the remainder, so below zero it rounds up where there is one.
// Not `div_euclid`: signed `/` and `%` are among the forms that docs/SPECIFICATION.md asks for.
fn hour_of(seconds: i64) -> i64
    ensures { result ≡ hour_of seconds }
{
    let quotient = seconds / SECONDS_PER_HOUR;
    let remainder = seconds % SECONDS_PER_HOUR;
    if remainder < 0 {
        return quotient - 1;
    }
    quotient
}

// The hour modulo 2^40, as the key holds it.
fn held(hour: i64) -> u64
    ensures { result ≡ modulo hour hours_held }
{
    hour.rem_euclid(HOURS_HELD) as u64
}

// The three numbers side by side.
fn key(unit: u16, valve: u8, held: u64) -> u64
    requires { held < hours_held }
    ensures { result ≡ key_of unit valve held }
{
    (unit as u64) * 0x1_0000_0000_0000 + (valve as u64) * 0x100_0000_0000 + held
}
