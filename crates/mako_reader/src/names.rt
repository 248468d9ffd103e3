//! The names of a section.

ghost use Rattle.std.specs.Prelude.{◌≡◌, ◌<◌, ◌≤◌, length, unwrap_or, IfSome};
ghost use Rattle.std.specs.List.{list_all};
ghost use Rattle.mako_text.specs.Names.{is_name, is_letter_or_digit, texts};
ghost use Rattle.mako_reader.specs.Commands.{Defines, IsName, place_at};
ghost use Rattle.mako_reader.specs.Finds.{Finds};

use crate::refusal::Refusal;
use indexmap::IndexSet;
use std::alloc::Global;
use std::str;

const MAX_NAME_LEN: usize = 16;

fn has_letters_and_digits_only(word: &[u8]) -> bool
    ensures { result ≡ list_all is_letter_or_digit word.now }
{
    word.iter()
        .all(|byte| byte.is_ascii_lowercase() || byte.is_ascii_digit())
}

/// Whether a word is a letter followed by at most 15 letters or digits.
#[tactic(auto, unfolding(mako_text::specs::Names::is_name))]
pub fn is_spelled_as_name(word: &[u8]) -> bool
    ensures { result ≡ is_name word.now }
{
    !word.is_empty()
        && word[0].is_ascii_lowercase()
        && word.len() <= MAX_NAME_LEN
        && has_letters_and_digits_only(word)
}

/// The word, as a name.
#[tactic(auto, using(crate::proofs::NameLists::is_text))]
pub fn name(word: &[u8]) -> Result<&str, Refusal>
    ensures { Finds (IsName word.now) (λ text. text.now) result }
{
    if !is_spelled_as_name(word) {
        return Err(Refusal::Bad);
    }
    match str::from_utf8(word) {
        Ok(text) => Ok(text),
        Err(_) => unreachable!(),
    }
}

/// The root of a name, if it is defined.
#[tactic(auto, using(crate::proofs::NameLists::place_in_texts, crate::proofs::NameLists::length_texts), unfolding(crate::specs::Commands::place_at))]
pub fn root_of(names: &IndexSet<String>, name: &str) -> Option<usize>
    ensures value { result ≡ place_at (texts names.now) name.now }
    ensures within { IfSome result (λ root. root < length (texts names.now)) }
{
    names.get_index_of(name)
}

/// The root of a name, or the next root if it is not defined.
#[tactic(auto, using(crate::proofs::NameLists::length_texts, crate::proofs::NameLists::place_below))]
pub fn root_or_next(names: &IndexSet<String>, name: &str) -> usize
    ensures value { result ≡ unwrap_or (place_at (texts names.now) name.now) (length (texts names.now)) }
    ensures within { result ≤ length (texts names.now) }
{
    root_of(names, name).unwrap_or(names.len())
}

/// Adds a name that is not there yet, if there is a root left for it.
pub fn define(
    alloc: Global,
    roots: usize,
    names: &mut IndexSet<String>,
    name: &str,
) -> Result<(), Refusal>
    ensures { Finds (Defines roots (texts names.old) name.now) (λ _. texts names.new) result }
{
    if root_of(names, name).is_some() {
        return Ok(());
    }
    if names.len() >= roots {
        return Err(Refusal::Bad);
    }
    names.insert(String::from_str(alloc, name)?)?;
    Ok(())
}
