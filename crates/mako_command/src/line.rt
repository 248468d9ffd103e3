//! What the words of the command line say.

ghost use Rattle.std.specs.Prelude.{◌≡◌, IfOk, List, ℕ, Some, false, map, string_bytes};
ghost use Rattle.std.specs.List.{list_all};
ghost use Rattle.clap.specs.Words.{app_of, found_of, rows_of, shape_of};
ghost use Rattle.clap.specs.declared.builder.command.Command.TheViews.{out-Command};
ghost use Rattle.clap.specs.Walk.{texts};
ghost use Rattle.mako_command.specs.CommandLines.{Finds, IsCount, IsGen, IsLoad, IsNumber, IsOrder, IsReplay, Says};
ghost use Rattle.mako_command.specs.Tables as tables;
ghost use Rattle.mako_command.specs.Tables.{IsMatched, IsTaken};

use clap::error::ErrorKind;
use clap::{Arg, ArgMatches, Command};
use itoa::Buffer;
use mako_replay::Order;
use mako_words::Memory;
use std::alloc::{AllocError, Global};

/// A command with its arguments.
#[derive(Clone, Copy, Debug, PartialEq, Eq)]
pub enum CommandLine {
    /// Reads a script and replays it in this order, with at most so many steps.
    Replay { order: Order, steps: u64 },
    /// Prints the workload of a seed.
    Gen { seed: u64, size: u32 },
    /// Counts the pieces of a ring of so many workers on threads.
    Count { workers: u32 },
    /// Replays the workload of a number in the order of the same number, and prints a summary.
    Load { number: u64 },
}

/// The most bytes of a word.
const MAX_WORD: usize = 20;

/// The most steps of a replay.
const MAX_STEPS: u64 = 1_000_000_000;

/// The most commands that are drawn for a mutator.
const MAX_SIZE: u64 = 4096;

/// The most workers of a count.
const MAX_WORKERS: u64 = 64;

/// Whether the bytes are all characters a to z or 0 to 9.
fn are_plain(bytes: &[u8]) -> bool
    ensures { result ≡ list_all tables.is_plain bytes.now }
{
    bytes
        .iter()
        .all(|byte| byte.is_ascii_lowercase() || byte.is_ascii_digit())
}

/// Whether the word consists of 1 to 20 such characters.
fn is_word(word: &str) -> bool
    ensures { result ≡ tables.is_word word.now }
{
    let bytes = word.as_bytes();
    !bytes.is_empty() && bytes.len() <= MAX_WORD && are_plain(bytes)
}

/// Whether all are such words.
fn are_words(words: &[String]) -> bool
    ensures { result ≡ list_all (λ word. tables.is_word (string_bytes word)) words.now }
{
    words.iter().all(|word| is_word(word))
}

/// A command with arguments that have to be there, in this order.
fn command<'a>(alloc: Global, name: &'a str, ids: &[&'a str]) -> Result<Command<'a>, AllocError>
    ensures shape { IfOk result (λ c. shape_of c ≡ tables.command name.entry.now (texts ids.now)) }
    ensures local { IfOk result (λ c. (out-Command c).has_globals ≡ false) }
{
    let mut command = Command::new(alloc, name);
    for id in ids {
        command = command.arg(Arg::new(alloc, id).required(true))?;
    }
    Ok(command)
}

/// The table of the commands.
fn table<'a>(alloc: Global) -> Result<Command<'a>, AllocError>
    ensures { IfOk result (λ c. app_of c ≡ tables.table) }
{
    Command::new(alloc, "mako")
        .no_binary_name(true)
        .disable_help_flag(true)
        .disable_help_subcommand(true)
        .subcommand_required(true)
        .subcommand(command(alloc, "replay", &["order", "steps"])?)?
        .subcommand(command(alloc, "gen", &["seed", "size"])?)?
        .subcommand(command(alloc, "count", &["workers"])?)?
        .subcommand(command(alloc, "load", &["number"])?)
}

/// The words as the table takes them, if they are those of one of its commands.
fn matches<'a>(alloc: Global, words: &'a [String]) -> Result<Option<ArgMatches<'a>>, Memory>
    ensures { IfOk result (IsMatched (map string_bytes words.now)) }
{
    if !are_words(words) {
        return Ok(None);
    }
    let Ok(table) = table(alloc) else {
        return Err(Memory);
    };
    match table.try_get_matches_from(words) {
        Ok(matches) => Ok(Some(matches)),
        Err(error) => match error.kind() {
            ErrorKind::OutOfMemory => Err(Memory),
            _ => Ok(None),
        },
    }
}

/// The number that a word spells without a sign or leading zeros, if it is in this range.
fn number(low: u64, high: u64, word: &str) -> Option<u64>
    ensures { Finds (IsNumber low high word.now) result }
{
    let Ok(number) = word.parse::<u64>() else {
        return None;
    };
    let mut digits = Buffer::new();
    if digits.format(number) != word {
        return None;
    }
    if number < low || number > high {
        return None;
    }
    Some(number)
}

/// The order that a word names.
fn order(word: &str) -> Option<Order>
    ensures { Finds (IsOrder word.now) result }
{
    if word == "turns" {
        return Some(Order::Turns);
    }
    match number(0, u64::MAX, word) {
        Some(seed) => Some(Order::Seed(seed)),
        None => None,
    }
}

/// The replay with these arguments.
fn replay(first: &str, second: &str) -> Option<CommandLine>
    ensures { Finds (IsReplay first.now second.now) result }
{
    match (order(first), number(0, MAX_STEPS, second)) {
        (Some(order), Some(steps)) => Some(CommandLine::Replay { order, steps }),
        _ => None,
    }
}

/// The generation with these arguments.
fn generation(first: &str, second: &str) -> Option<CommandLine>
    ensures { Finds (IsGen first.now second.now) result }
{
    match (number(0, u64::MAX, first), number(1, MAX_SIZE, second)) {
        (Some(seed), Some(size)) => Some(CommandLine::Gen {
            seed,
            size: size as u32,
        }),
        _ => None,
    }
}

/// The count with this argument.
fn count(first: &str) -> Option<CommandLine>
    ensures { Finds (IsCount first.now) result }
{
    match number(1, MAX_WORKERS, first) {
        Some(workers) => Some(CommandLine::Count {
            workers: workers as u32,
        }),
        None => None,
    }
}

/// The load with this argument.
fn load(first: &str) -> Option<CommandLine>
    ensures { Finds (IsLoad first.now) result }
{
    match number(0, u64::MAX, first) {
        Some(number) => Some(CommandLine::Load { number }),
        None => None,
    }
}

/// The command of this name with these arguments.
fn named(name: &str, matches: &ArgMatches) -> Option<CommandLine>
    ensures { (words : List (List ℕ)) → IsTaken words (Some (name.now, rows_of (found_of matches.now)))
        → Finds (Says words) result }
{
    if name == "replay" {
        return replay(matches.get_str("order")?, matches.get_str("steps")?);
    }
    if name == "gen" {
        return generation(matches.get_str("seed")?, matches.get_str("size")?);
    }
    if name == "count" {
        return count(matches.get_str("workers")?);
    }
    load(matches.get_str("number")?)
}

/// The command that the words say, if they say one.
pub fn command_line(alloc: Global, words: &[String]) -> Result<Option<CommandLine>, Memory>
    ensures { IfOk result (Finds (Says (map string_bytes words.now))) }
{
    let Some(matches) = matches(alloc, words)? else {
        return Ok(None);
    };
    let Some((name, arguments)) = matches.subcommand() else {
        return Ok(None);
    };
    Ok(named(name, arguments))
}
