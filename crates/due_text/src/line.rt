// One line of the text.
ghost use Rattle.std.specs.Prelude.{◌≡◌, [], ◌∷◌, MatchOption};
ghost use Rattle.due_text.specs.Decimal.{number_of};
ghost use Rattle.due_text.specs.Cut.{blank?, before_comment, words_of};
ghost use Rattle.due_text.specs.Line.{line_of, said_by, plain_of, due_of, up_to, fault_of};

use crate::decimal::NumberError;
use crate::{clock, decimal};
use answers::Refusal;

const LAST_UNIT: u64 = 65535;

const LAST_VALVE: u64 = 255;

#[derive(Clone, Copy, Debug, PartialEq, Eq)]
pub enum Fault {
    NotNumber,
    WordCount,
    UnitAbove,
    ValveAbove,
    ClockBeyond,
    KeyAbove,
    Refused(Refusal),
    TooManyKeys,
}

// The key that a line says, if it says one, up to its comment.
pub fn read(text: &[u8]) -> Result<Option<u64>, Fault>
    ensures { result ≡ line_of text.now }
{
    let comment = text.iter().position(|byte| *byte == b'#');
    let end = comment.unwrap_or(text.len());
    said(&text[..end])
}

// What the words of a line say.
fn said(text: &[u8]) -> Result<Option<u64>, Fault>
    ensures { result ≡ said_by (words_of text.now) }
{
    let Some((first, rest)) = first_word(text) else {
        return Ok(None);
    };
    let Some((second, rest)) = first_word(rest) else {
        return plain(first).map(Some);
    };
    let Some((third, rest)) = first_word(rest) else {
        return Err(Fault::WordCount);
    };
    match first_word(rest) {
        None => due(first, second, third).map(Some),
        Some(_) => Err(Fault::WordCount),
    }
}

// The first word, and what stands behind it. Not by `split`, which makes an empty piece of each blank byte in a run.
fn first_word(text: &[u8]) -> Option<(&[u8], &[u8])>
    ensures { MatchOption result (words_of text.now ≡ []) (λ cut. words_of text.now ≡ cut.0.now ∷ words_of cut.1.now) }
{
    let start = text.iter().position(|byte| !is_blank(*byte))?;
    let rest = &text[start..];
    let blank = rest.iter().position(|byte| is_blank(*byte));
    Some(rest.split_at(blank.unwrap_or(rest.len())))
}

// Not `is_ascii_whitespace`, which takes a form feed too: by the definition `blank?` it is none.
fn is_blank(byte: u8) -> bool
    ensures { result ≡ blank? byte }
{
    matches!(byte, b' ' | b'\t' | b'\r' | b'\n')
}

// A plain key.
#[tactic(auto, unfolding(crate::specs::Line::plain_of))]
pub fn plain(key: &[u8]) -> Result<u64, Fault>
    ensures { result ≡ plain_of key.now }
{
    decimal::read(key).map_err(|why| fault_of(why, Fault::KeyAbove))
}

// A flush: its unit first, then its valve, then its seconds.
#[tactic(auto, using(crate::proofs::Bounds::in_turn), unfolding(crate::specs::Line::due_of, crate::specs::Line::due_at_unit))]
pub fn due(unit: &[u8], valve: &[u8], seconds: &[u8]) -> Result<u64, Fault>
    ensures { result ≡ due_of unit.now valve.now seconds.now }
{
    let unit = up_to(unit, LAST_UNIT, Fault::UnitAbove)?;
    let valve = up_to(valve, LAST_VALVE, Fault::ValveAbove)?;
    let seconds = clock::read(seconds).map_err(|why| fault_of(why, Fault::ClockBeyond))?;
    flush::flush_key(unit as u16, valve as u8, seconds).map_err(Fault::Refused)
}

// A number that is not above the last one allowed.
fn up_to(word: &[u8], last: u64, above: Fault) -> Result<u64, Fault>
    ensures { result ≡ up_to last above (number_of word.now) Ok }
{
    let number = decimal::read(word).map_err(|why| fault_of(why, above))?;
    if last < number {
        return Err(above);
    }
    Ok(number)
}

// What is wrong with a word that is no number, or one that is too large.
fn fault_of(why: NumberError, above: Fault) -> Fault
    ensures { result ≡ fault_of above why }
{
    match why {
        NumberError::NotDigits => Fault::NotNumber,
        NumberError::TooLarge => above,
    }
}
