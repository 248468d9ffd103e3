//! The printer of scripts.

ghost use Rattle.std.specs.Prelude.{◌≡◌, ◌≤◌, ◌∷◌, ◌++◌, length, map, zip, OnOk, IfOk};
ghost use Rattle.std.specs.Fmt.{decimal};
ghost use Rattle.std.specs.List.{flat_map};
ghost use Rattle.mako_text.specs.Names.{name_of, texts};
ghost use Rattle.mako_text.specs.Programs.{ProgramView};
ghost use Rattle.mako_text.specs.Texts.{IsScript, argument_word, command_words, line_text};
ghost use Rattle.mako_text.specs.Texts.{section_lines, setting_values, setting_words};

use crate::command::{Argument, Command, values_of};
use crate::keys::{KEYS, Key, SETTINGS};
use crate::program::Program;
use crate::script::Script;
use indexmap::IndexSet;
use itoa::Buffer;
use mako_model::Call;
use mako_words::Memory;
use std::alloc::{AllocError, Global};

/// Adds the name of a root.
fn add_name(text: &mut Vec<u8>, names: &IndexSet<String>, root: u32) -> Result<(), AllocError>
    ensures { OnOk result (text.new.items ≡ text.old.items ++ name_of (texts names.now) root) }
{
    match names.get_index(root as usize) {
        Some(name) => text.extend_from_slice(name.as_bytes()),
        None => Ok(()),
    }
}

/// Adds a number.
fn add_number(text: &mut Vec<u8>, number: u32) -> Result<(), AllocError>
    ensures { OnOk result (text.new.items ≡ text.old.items ++ decimal number) }
{
    let mut digits = Buffer::new();
    text.extend_from_slice(digits.format(number).as_bytes())
}

/// Adds an argument behind a space.
fn add_argument(
    text: &mut Vec<u8>,
    names: &IndexSet<String>,
    kind: Argument,
    value: u32,
) -> Result<(), AllocError>
    ensures { OnOk result (text.new.items ≡ text.old.items ++ 32 ∷ argument_word (texts names.now) (kind, value)) }
{
    text.push(b' ')?;
    match kind {
        Argument::Defined | Argument::Read => add_name(text, names, value),
        Argument::Number(_) => add_number(text, value),
    }
}

/// Adds arguments of these kinds with these values, each behind a space.
fn add_arguments(
    text: &mut Vec<u8>,
    names: &IndexSet<String>,
    kinds: &[Argument],
    values: &[u32],
) -> Result<(), AllocError>
    requires { length kinds.now ≡ length values.now }
    ensures { OnOk result (text.new.items ≡ text.old.items
        ++ flat_map (λ a. 32 ∷ argument_word (texts names.now) a) (zip kinds.now values.now)) }
{
    for i in 0..kinds.len() {
        add_argument(text, names, kinds[i], values[i])?;
    }
    Ok(())
}

/// Adds the line of a call.
#[tactic(auto, using(crate::proofs::PrintedTexts::line_of_words))]
fn add_call(text: &mut Vec<u8>, names: &IndexSet<String>, call: &Call) -> Result<(), AllocError>
    ensures { OnOk result (text.new.items ≡ text.old.items ++ line_text (command_words (texts names.now) call.now)) }
{
    let command = Command::of(call);
    text.extend_from_slice(command.word())?;
    add_arguments(text, names, command.arguments(), &values_of(call))?;
    text.push(b'\n')?;
    Ok(())
}

/// Adds the lines of calls.
fn add_calls(text: &mut Vec<u8>, names: &IndexSet<String>, calls: &[Call]) -> Result<(), AllocError>
    ensures { OnOk result
        (text.new.items ≡ text.old.items ++ flat_map (λ c. line_text (command_words (texts names.now) c)) calls.now) }
{
    for call in calls {
        add_call(text, names, call)?;
    }
    Ok(())
}

/// Adds the section of a program.
fn add_section(text: &mut Vec<u8>, program: &Program) -> Result<(), AllocError>
    ensures { OnOk result (text.new.items ≡ text.old.items ++ flat_map line_text (section_lines program.now)) }
{
    text.extend_from_slice(b"mutator\n")?;
    add_calls(text, &program.names, &program.calls)?;
    text.extend_from_slice(b"end\n")?;
    Ok(())
}

/// Adds the sections of all programs.
fn add_sections(text: &mut Vec<u8>, programs: &[Program]) -> Result<(), AllocError>
    ensures { OnOk result
        (text.new.items ≡ text.old.items ++ flat_map (λ p. flat_map line_text (section_lines p)) programs.now) }
{
    for program in programs {
        add_section(text, program)?;
    }
    Ok(())
}

/// The numbers of the settings, in the order of their lines.
fn values_in(script: &Script) -> [u32; SETTINGS]
    ensures { result ≡ setting_values script.now }
{
    let numbers = script.shape.numbers();
    [
        1,
        numbers.servers,
        numbers.tablets,
        numbers.entries,
        numbers.words,
        numbers.spare,
        numbers.ring,
        numbers.roots,
        numbers.cycles,
        numbers.generations,
        u32::from(script.board),
    ]
}

/// Adds the line of a setting.
fn add_setting(text: &mut Vec<u8>, key: &[u8], value: u32) -> Result<(), AllocError>
    ensures { OnOk result (text.new.items ≡ text.old.items ++ line_text (setting_words (key.now, value))) }
{
    text.extend_from_slice(key)?;
    text.push(b' ')?;
    add_number(text, value)?;
    text.push(b'\n')?;
    Ok(())
}

/// Adds the lines of the settings.
fn add_settings(text: &mut Vec<u8>, table: &[Key], values: &[u32]) -> Result<(), AllocError>
    requires { length table.now ≡ length values.now }
    ensures { OnOk result
        (text.new.items ≡ text.old.items
        ++ flat_map (λ s. line_text (setting_words s)) (zip (map (λ key. key.word.now) table.now) values.now)) }
{
    for i in 0..table.len() {
        add_setting(text, table[i].word, values[i])?;
    }
    Ok(())
}

/// The text of a script.
fn script_bytes(alloc: Global, script: &Script) -> Result<Vec<u8>, AllocError>
    ensures { IfOk result (λ text. IsScript text.items script.now) }
{
    let mut text = Vec::new(alloc);
    add_settings(&mut text, &KEYS, &values_in(script))?;
    add_sections(&mut text, &script.programs)?;
    Ok(text)
}

/// The text of which `parse` gives this script.
pub fn print(alloc: Global, script: &Script) -> Result<Vec<u8>, Memory>
    ensures { IfOk result (λ text. IsScript text.items script.now) }
{
    script_bytes(alloc, script).map_err(|_| Memory)
}
