//! The sections of a script, one for each mutator.

ghost use Rattle.std.specs.Prelude.{◌≡◌, ◌<◌, ◌≤◌, ◌+◌, ◌^◌, ◌∷◌, [], length, IfErr, IfOk};
ghost use Rattle.mako_text.specs.Names.{board_word, texts};
ghost use Rattle.mako_reader.specs.Commands.{IsStep};
ghost use Rattle.mako_reader.specs.Finds.{Finds};
ghost use Rattle.mako_reader.specs.Parts.{AreSections, IsBody, IsSection};
ghost use Rattle.mako_reader.specs.Words.{lines_of};

use crate::arguments::command;
use crate::lines::next_line;
use crate::refusal::Refusal;
use indexmap::IndexSet;
use mako_model::Call;
use mako_text::Program;
use std::alloc::Global;

/// The most commands of a script.
pub const MAX_COMMANDS: usize = 1_048_576;

/// The most sections of a script.
pub const MAX_SECTIONS: usize = 16;

/// The names at the start of a section.
fn first_names(alloc: Global) -> Result<IndexSet<String>, Refusal>
    ensures names { IfOk result (λ names. texts names ≡ board_word ∷ []) }
    ensures memory { IfErr result (λ e. e ≡ Refusal.Memory) }
{
    let mut names = IndexSet::new(alloc);
    names.insert(String::from_str(alloc, "board")?)?;
    Ok(names)
}

/// The call of the next line, or `None` at the end of the section, and the text behind the line.
fn next_command<'a>(
    alloc: Global,
    roots: usize,
    names: &mut IndexSet<String>,
    text: &'a [u8],
) -> Result<(Option<Call>, &'a [u8]), Refusal>
    requires { length (texts names.old) < 2 ^ 8 }
    ensures read { Finds (IsStep roots (texts names.old) (lines_of text.now))
        (λ x. (x.0, texts names.new, lines_of x.1.now)) result }
    ensures shorter { IfOk result (λ x. length x.1.now < length text.now) }
{
    let (line, rest) = next_line(text)?;
    if line == b"end".as_slice() {
        return Ok((None, rest));
    }
    Ok((Some(command(alloc, roots, names, line)?), rest))
}

/// The program of a section, from its second line on, and the text behind it. So many commands stand
/// in the sections before it.
fn program<'a>(
    alloc: Global,
    roots: usize,
    count: usize,
    text: &'a [u8],
) -> Result<(Program, &'a [u8]), Refusal>
    requires roots { (1 ≤ roots) × (roots ≤ 32) }
    requires count { count ≤ 1048576 }
    ensures read { Finds (IsBody roots count (lines_of text.now)) (λ x. (x.0, lines_of x.1.now)) result }
    ensures shorter { IfOk result (λ x. length x.1.now < length text.now) }
{
    let mut names = first_names(alloc)?;
    let mut calls = Vec::new(alloc);
    let mut rest = text;
    'commands: loop {
        let (call, after) = next_command(alloc, roots, &mut names, rest)?;
        rest = after;
        let Some(call) = call else {
            return Ok((Program { names, calls }, rest));
        };
        if count + calls.len() >= MAX_COMMANDS {
            return Err(Refusal::Bad);
        }
        calls.push(call)?;
    }
}

/// The program of the next section, and the text behind it.
fn section<'a>(
    alloc: Global,
    roots: usize,
    count: usize,
    text: &'a [u8],
) -> Result<(Program, &'a [u8]), Refusal>
    requires roots { (1 ≤ roots) × (roots ≤ 32) }
    requires count { count ≤ 1048576 }
    ensures read { Finds (IsSection roots count (lines_of text.now)) (λ x. (x.0, lines_of x.1.now)) result }
    ensures shorter { IfOk result (λ x. length x.1.now < length text.now) }
{
    let (line, rest) = next_line(text)?;
    if line != b"mutator".as_slice() {
        return Err(Refusal::Bad);
    }
    program(alloc, roots, count, rest)
}

/// The programs of all sections, up to the end of the text.
pub fn sections(alloc: Global, roots: usize, text: &[u8]) -> Result<Vec<Program>, Refusal>
    requires { (1 ≤ roots) × (roots ≤ 32) }
    ensures { Finds (AreSections roots (lines_of text.now)) (λ v. v.items) result }
{
    let mut programs = Vec::new(alloc);
    let mut count = 0;
    let mut rest = text;
    while !rest.is_empty() {
        if programs.len() == MAX_SECTIONS {
            return Err(Refusal::Bad);
        }
        let (program, after) = section(alloc, roots, count, rest)?;
        count += program.calls.len();
        programs.push(program)?;
        rest = after;
    }
    Ok(programs)
}
