// A number in decimal.
ghost use Rattle.std.specs.Prelude.{◌≡◌, ◌+◌, ◌-◌, ◌*◌, ◌^◌, ◌<◌};
ghost use Rattle.std.specs.Option.{SomeIff};
ghost use Rattle.due_text.specs.Decimal.{all_digits, value_from, fitting, number_of};

// Why a word is no number that 64 bits hold.
#[derive(Clone, Copy, Debug, PartialEq, Eq)]
pub enum NumberError {
    NotDigits,
    TooLarge,
}

// What a word says.
#[tactic(auto, unfolding(crate::specs::Decimal::number_of))]
pub fn read(word: &[u8]) -> Result<u64, NumberError>
    ensures { result ≡ number_of word.now }
{
    if word.is_empty() || !all_digits(word) {
        return Err(NumberError::NotDigits);
    }
    value(word)
}

fn all_digits(word: &[u8]) -> bool
    ensures { result ≡ all_digits word.now }
{
    word.iter().all(|byte| byte.is_ascii_digit())
}

// The number that digits write.
#[tactic(auto, using(crate::proofs::Digits::steps))]
fn value(digits: &[u8]) -> Result<u64, NumberError>
    ensures { result ≡ fitting (value_from 0 digits.now) }
{
    let mut value = 0;
    for byte in digits {
        value = with_digit(value, *byte).ok_or(NumberError::TooLarge)?;
    }
    Ok(value)
}

// A number with one digit more, where 64 bits hold it. A byte below `0` counts 0.
fn with_digit(value: u64, byte: u8) -> Option<u64>
    ensures { let next = value * 10 + (byte - 48) in SomeIff result (next < 2 ^ 64) next }
{
    let digit = byte.saturating_sub(b'0');
    value.checked_mul(10)?.checked_add(u64::from(digit))
}
