//! The arguments of a command line.

ghost use Rattle.std.specs.Prelude.{◌≡◌, ◌<◌, ◌≤◌, ◌^◌, length, IfOk};
ghost use Rattle.mako_text.specs.Names.{texts};
ghost use Rattle.mako_reader.specs.Commands.{AreValuesOf, DefinesFirst, IsCommandLine, IsValueOf, ReadsWord};
ghost use Rattle.mako_reader.specs.Finds.{Finds};
ghost use Rattle.mako_reader.specs.Words.{words_behind, words_of};

use crate::lines::{next_word, split_word};
use crate::names::{define, name, root_of, root_or_next};
use crate::numbers::number_within;
use crate::refusal::Refusal;
use indexmap::IndexSet;
use mako_model::Call;
use mako_text::command::{Argument, Command, Values};
use std::alloc::Global;

/// The value of an argument: the root of a name, or a number. A name that is yet to be defined has the next root.
fn argument(names: &IndexSet<String>, kind: Argument, word: &[u8]) -> Result<u32, Refusal>
    requires { length (texts names.now) < 2 ^ 32 }
    ensures { Finds (IsValueOf (texts names.now) kind word.now) (λ n. n) result }
{
    match kind {
        Argument::Defined => {
            let name = name(word)?;
            Ok(root_or_next(names, name) as u32)
        }
        Argument::Read => {
            let name = name(word)?;
            Ok(root_of(names, name).ok_or(Refusal::Bad)? as u32)
        }
        Argument::Number(greatest) => number_within(0, greatest, word),
    }
}

/// The value of the next argument, and what stands behind it.
fn next_value<'a>(
    names: &IndexSet<String>,
    kind: Argument,
    rest: &'a [u8],
) -> Result<(u32, &'a [u8]), Refusal>
    requires { length (texts names.now) < 2 ^ 32 }
    ensures { Finds (ReadsWord (texts names.now) kind (words_behind rest.now))
        (λ x. (x.0, words_behind x.1.now)) result }
{
    let (word, rest) = next_word(rest)?;
    Ok((argument(names, kind, word)?, rest))
}

/// The values of as many arguments as there are kinds, with nothing behind them.
fn arguments(names: &IndexSet<String>, kinds: &[Argument], text: &[u8]) -> Result<Values, Refusal>
    requires few { length (texts names.now) < 2 ^ 32 }
    requires short { length kinds.now ≤ 3 }
    ensures { Finds (AreValuesOf (texts names.now) kinds.now (words_behind text.now)) (λ v. v.items) result }
{
    let mut values = Values::new();
    let mut rest = text;
    for kind in kinds {
        let (value, after) = next_value(names, *kind, rest)?;
        values.push(value);
        rest = after;
    }
    if rest.is_empty() {
        Ok(values)
    } else {
        Err(Refusal::Bad)
    }
}

/// Adds the name of the first argument, if the command defines it.
fn define_first(
    alloc: Global,
    defines: bool,
    roots: usize,
    names: &mut IndexSet<String>,
    text: &[u8],
) -> Result<(), Refusal>
    ensures { Finds (DefinesFirst defines roots (texts names.old) (words_behind text.now))
        (λ _. texts names.new) result }
{
    if !defines {
        return Ok(());
    }
    let (word, _) = next_word(text)?;
    define(alloc, roots, names, name(word)?)
}

/// The call of a command line. A name that it defines is added to the names.
pub fn command(
    alloc: Global,
    roots: usize,
    names: &mut IndexSet<String>,
    line: &[u8],
) -> Result<Call, Refusal>
    requires { length (texts names.old) < 2 ^ 8 }
    ensures { Finds (IsCommandLine roots (texts names.old) (words_of line.now))
        (λ call. (call, texts names.new)) result }
{
    let (word, rest) = split_word(line);
    let Some(command) = Command::named(word) else {
        return Err(Refusal::Bad);
    };
    let values = arguments(names, command.arguments(), rest)?;
    define_first(alloc, command.defines(), roots, names, rest)?;
    Ok(command.call(&values))
}
