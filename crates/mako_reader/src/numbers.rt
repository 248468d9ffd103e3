//! Numbers in decimal.

ghost use Rattle.std.specs.Prelude.{◌≡◌, ◌<◌, ◌≤◌, ◌^◌, IfErr, IfOk};
ghost use Rattle.mako_reader.specs.Finds.{Finds};
ghost use Rattle.mako_reader.specs.Words.{IsNumber, IsWithin};

use crate::refusal::Refusal;

const MAX_DIGITS: usize = 10;

/// The number that a word spells: `0`, or a digit 1 to 9 and further digits, at most ten in all.
pub fn number(word: &[u8]) -> Result<u64, Refusal>
    ensures read { Finds (IsNumber word.now) (λ n. n) result }
    ensures kind { IfErr result (λ e. e ≡ Refusal.Bad) }
{
    if word.is_empty() || word.len() > MAX_DIGITS || (word[0] == b'0' && word.len() > 1) {
        return Err(Refusal::Bad);
    }
    let mut value = 0u64;
    for digit in word {
        if !digit.is_ascii_digit() {
            return Err(Refusal::Bad);
        }
        value = value * 10 + u64::from(*digit - b'0');
    }
    Ok(value)
}

/// The number that a word spells, if it lies between the two.
pub fn number_within(low: u32, high: u32, word: &[u8]) -> Result<u32, Refusal>
    ensures { Finds (IsWithin low high word.now) (λ n. n) result }
{
    let value = number(word)?;
    if value < u64::from(low) || value > u64::from(high) {
        return Err(Refusal::Bad);
    }
    Ok(value as u32)
}
