//! The first eleven lines of a script, each a key and a number.

ghost use Rattle.std.specs.Prelude.{◌≡◌, ◌≤◌, length, map, IfOk};
ghost use Rattle.mako_text.specs.Keys.{keys, key_view};
ghost use Rattle.mako_reader.specs.Finds.{Finds, ReadsEach};
ghost use Rattle.mako_reader.specs.Parts.{AreValues, IsSetting, numbers_in};
ghost use Rattle.mako_reader.specs.Words.{lines_of};

use crate::lines::{next_line, next_word, split_word};
use crate::numbers::number_within;
use crate::refusal::Refusal;
use arrayvec::ArrayVec;
use mako_shape::Numbers;
use mako_text::keys::{KEYS, Key, SETTINGS};

/// The number of a key's line, and the text behind the line.
fn setting<'a>(key: &Key, text: &'a [u8]) -> Result<(u32, &'a [u8]), Refusal>
    ensures { Finds (IsSetting (key_view key.now) (lines_of text.now)) (λ x. (x.0, lines_of x.1.now)) result }
{
    let (line, after) = next_line(text)?;
    let (word, rest) = split_word(line);
    let (number, rest) = next_word(rest)?;
    if word != key.word || !rest.is_empty() {
        return Err(Refusal::Bad);
    }
    Ok((number_within(key.low, key.high, number)?, after))
}

/// The numbers of a line for each key, and the text behind them.
fn numbers<'a>(
    table: &[Key],
    text: &'a [u8],
) -> Result<(ArrayVec<u32, SETTINGS>, &'a [u8]), Refusal>
    requires { length table.now ≤ 11 }
    ensures { Finds (ReadsEach IsSetting (map key_view table.now) (lines_of text.now))
        (λ x. (x.0.items, lines_of x.1.now)) result }
{
    let mut values = ArrayVec::new();
    let mut rest = text;
    for key in table {
        let (value, after) = setting(key, rest)?;
        values.push(value);
        rest = after;
    }
    Ok((values, rest))
}

/// The numbers of the first eleven lines, and the text behind them.
pub fn settings(text: &[u8]) -> Result<(ArrayVec<u32, SETTINGS>, &[u8]), Refusal>
    ensures values { IfOk result (λ x. AreValues x.0.items) }
    ensures read { Finds (ReadsEach IsSetting keys (lines_of text.now)) (λ x. (x.0.items, lines_of x.1.now)) result }
{
    numbers(&KEYS, text)
}

/// The numbers of the geometry, among those of the settings.
pub fn numbers_of(values: &[u32], mutators: u32) -> Numbers
    requires { length values.now ≡ 11 }
    ensures { result ≡ numbers_in values.now mutators }
{
    Numbers {
        mutators,
        servers: values[1],
        tablets: values[2],
        entries: values[3],
        words: values[4],
        spare: values[5],
        ring: values[6],
        roots: values[7],
        cycles: values[8],
        generations: values[9],
    }
}
