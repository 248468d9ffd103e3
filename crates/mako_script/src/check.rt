//! The first fault of a text that is no script.

ghost use Rattle.std.specs.Prelude.{◌≡◌, ◌≢◌, List, Some, ◌≤◌, ◌<◌, ◌+◌, ◌∷◌, [], drop, length, map, min, option_map};
ghost use Rattle.std.specs.Prelude.{IfErr, IfNone, IfOk, IfSome, IsSome, OnErr, OnOk, ℕ};
ghost use Rattle.std.specs.Bool.{Decides};
ghost use Rattle.std.specs.List.{list_all};
ghost use Rattle.mako_script.specs.declared.fault.Kind.{Kind};
ghost use Rattle.mako_script.specs.Checks.{HaveSettings, IsCut, IsLine, IsSettingLine, IsValue};
ghost use Rattle.mako_script.specs.CommandLines.{AreArguments, ArgumentFault, CommandFault, IsArgument};
ghost use Rattle.mako_script.specs.CommandLines.{IsFirstOfCommand, IsLeastFault, IsRead, is_among, told_first};
ghost use Rattle.mako_script.specs.CommandLines.{with_name};
ghost use Rattle.mako_script.specs.Faults.{IsFirstFault, is_printable};
ghost use Rattle.mako_text.specs.Names.{board_word};
ghost use Rattle.mako_text.specs.Programs.{ProgramView};
ghost use Rattle.mako_text.specs.Keys.{key_view, keys};
ghost use Rattle.mako_reader.specs.Parts.{AreSections, IsBody, numbers_in};
ghost use Rattle.mako_reader.specs.Words.{lines_of, words_behind, words_of};
ghost use Rattle.mako_text.specs.Scripts.{ScriptView};
ghost use Rattle.mako_text.specs.Texts.{IsScript};
ghost use Rattle.mako_script.specs.States.{Between, Ends, Inside};
ghost use Rattle.mako_shape.specs.Limits.{AllInRange, all_entries, max_entries};

use crate::fault::Kind;
use arrayvec::ArrayVec;
use mako_reader::lines::{next_line, next_word, split_word};
use mako_reader::names::is_spelled_as_name;
use mako_reader::numbers::number;
use mako_reader::section::{MAX_COMMANDS, MAX_SECTIONS};
use mako_reader::settings::numbers_of;
use mako_shape::{Shape, ShapeFault};
use mako_text::command::{Argument, Command, MAX_ARGUMENTS};
use mako_text::keys::{KEYS, Key, SETTINGS};

/// A fault, and the line that is told, counted from 1.
#[derive(Clone, Copy, Debug, PartialEq, Eq)]
pub struct Fault {
    pub kind: Kind,
    pub line: u32,
}

/// The most roots of a mutator.
const MAX_ROOTS: usize = 32;

/// The line of the last setting, at which faults of all settings together are told.
const LAST_SETTING: u32 = 11;

/// The names of a section, the board's first.
type Names<'a> = ArrayVec<&'a [u8], MAX_ROOTS>;

/// The arguments of a command line.
type Words<'a> = ArrayVec<&'a [u8], MAX_ARGUMENTS>;

/// What is left of a text, and the number of the line that was read last.
#[derive(Drop)]
struct Lines<'a> {
    rest: &'a [u8],
    line: u32,
}

impl<'a> Lines<'a> {
    /// The next line without its line feed, or `None` at the end of the text.
    fn next(&mut self) -> Result<Option<&'a [u8]>, Fault>
        ensures line { self.new.line ≡ min (self.old.line + 1) 4294967295 }
        ensures end { IfOk result (λ line. IfNone line (lines_of self.old.rest.now ≡ [] ∷ [])) }
        ensures read { IfOk result
            (λ line. IfSome line (λ l. IsLine (lines_of self.old.rest.now) l.now (lines_of self.new.rest.now))) }
        ensures fault { IfErr result (λ f. (f.line ≡ self.new.line) × IsCut (lines_of self.old.rest.now) f.kind) }
        ensures some { OnErr result (lines_of self.old.rest.now ≢ [] ∷ []) }
        ensures shorter { IfOk result (λ line. IsSome line → length self.new.rest.now < length self.old.rest.now) }
    {
        self.line = self.line.saturating_add(1);
        if self.rest.is_empty() {
            return Ok(None);
        }
        match next_line(self.rest) {
            Ok((line, rest)) if is_printable(line) => {
                self.rest = rest;
                Ok(Some(line))
            }
            Err(_) if is_printable(self.rest) => Err(self.fault(Kind::Unclosed)),
            _ => Err(self.fault(Kind::NotAscii)),
        }
    }

    /// The next line of settings or of a section, which the end of the text leaves unclosed.
    fn expect(&mut self) -> Result<&'a [u8], Fault>
        ensures line { self.new.line ≡ min (self.old.line + 1) 4294967295 }
        ensures read { IfOk result (λ l. IsLine (lines_of self.old.rest.now) l.now (lines_of self.new.rest.now)) }
        ensures fault { IfErr result (λ f. (f.line ≡ self.new.line) × IsCut (lines_of self.old.rest.now) f.kind) }
        ensures shorter { IfOk result (λ _. length self.new.rest.now < length self.old.rest.now) }
    {
        match self.next()? {
            Some(line) => Ok(line),
            None => Err(self.fault(Kind::Unclosed)),
        }
    }

    /// A fault of the line that was read last.
    fn fault(&self, kind: Kind) -> Fault
        ensures { (result.kind ≡ kind) × (result.line ≡ self.now.line) }
    {
        Fault {
            kind,
            line: self.line,
        }
    }
}

/// Whether all bytes are in 32 to 126.
fn is_printable(line: &[u8]) -> bool
    ensures { result ≡ list_all is_printable line.now }
{
    line.iter().all(|byte| *byte >= 32 && *byte <= 126)
}

/// The number of a word, if it is spelled as one and in its range.
fn value(low: u32, high: u32, word: &[u8]) -> Result<u32, Kind>
    ensures { IsValue low high word.now result }
{
    let Ok(value) = number(word) else {
        return Err(Kind::Number);
    };
    if value < u64::from(low) || value > u64::from(high) {
        return Err(Kind::Range);
    }
    Ok(value as u32)
}

/// The number of a setting's line.
fn setting(key: &Key, line: &[u8]) -> Result<u32, Kind>
    ensures { IsSettingLine (key_view key.now) (words_of line.now) result }
{
    let (word, rest) = split_word(line);
    let Ok((number, rest)) = next_word(rest) else {
        return Err(Kind::Header);
    };
    if word != key.word || !rest.is_empty() {
        return Err(Kind::Header);
    }
    value(key.low, key.high, number)
}

/// The numbers of the settings.
fn settings(lines: &mut Lines, table: &[Key]) -> Result<ArrayVec<u32, SETTINGS>, Fault>
    requires table { map key_view table.now ≡ keys }
    requires start { lines.old.line ≡ 0 }
    ensures count { IfOk result (λ v. length v.items ≡ 11) }
    ensures read { IfOk result (λ v. HaveSettings (lines_of lines.old.rest.now) v.items) }
    ensures line { OnOk result (lines.new.line ≡ 11) }
    ensures left { OnOk result (lines_of lines.new.rest.now ≡ drop 11 (lines_of lines.old.rest.now)) }
    ensures fault { IfErr result (λ f. IsFirstFault lines.old.rest.now f.kind f.line) }
{
    let mut values = ArrayVec::new();
    for key in table {
        let line = lines.expect()?;
        match setting(key, line) {
            Ok(value) => values.push(value),
            Err(kind) => return Err(lines.fault(kind)),
        }
    }
    Ok(values)
}

/// Whether a word is one of these names.
fn is_among(names: &[&[u8]], word: &[u8]) -> bool
    ensures { result ≡ is_among (map (λ name. name.now) names.now) word.now }
{
    names.contains(&word)
}

/// The fault of an argument, if it has one.
fn argument_fault(names: &[&[u8]], roots: usize, kind: Argument, word: &[u8]) -> Option<Kind>
    ensures none { IfNone result (IsArgument (map (λ name. name.now) names.now) roots kind word.now) }
    ensures some { IfSome result (ArgumentFault (map (λ name. name.now) names.now) roots kind word.now) }
{
    let number = match kind {
        Argument::Defined | Argument::Read if !is_spelled_as_name(word) => return Some(Kind::Word),
        Argument::Defined if !is_among(names, word) && names.len() >= roots => {
            return Some(Kind::Names);
        }
        Argument::Read if !is_among(names, word) => return Some(Kind::Undefined),
        Argument::Defined | Argument::Read => return None,
        Argument::Number(greatest) => value(0, greatest, word),
    };
    match number {
        Ok(_) => None,
        Err(kind) => Some(kind),
    }
}

/// The words behind the first of a line, if they are as many as this.
fn arguments(count: usize, text: &[u8]) -> Option<Words>
    requires { count ≤ 3 }
    ensures count { IfSome result (λ words. length words.items ≡ count) }
    ensures other { IfNone result (length (words_behind text.now) ≢ count) }
    ensures words { IfSome result (λ words. map (λ word. word.now) words.items ≡ words_behind text.now) }
{
    let mut words = Words::new();
    let mut rest = text;
    for _word in 0..count {
        let Ok((word, after)) = next_word(rest) else {
            return None;
        };
        words.push(word);
        rest = after;
    }
    if rest.is_empty() { Some(words) } else { None }
}

/// Of two faults of one line that which is told: the first in the order of the kinds.
fn earlier(first: Option<Kind>, found: Option<Kind>) -> Option<Kind>
    ensures { result ≡ told_first first found }
{
    match (first, found) {
        (Some(kind), Some(other)) if other.rank() < kind.rank() => Some(other),
        (Some(kind), _) => Some(kind),
        (None, found) => found,
    }
}

/// The first of the faults that the arguments have.
fn arguments_fault(
    names: &[&[u8]],
    roots: usize,
    kinds: &[Argument],
    words: &[&[u8]],
) -> Option<Kind>
    requires { length kinds.now ≡ length words.now }
    ensures none { IfNone result
        (AreArguments (map (λ name. name.now) names.now) roots kinds.now (map (λ word. word.now) words.now)) }
    ensures some { IfSome result
        (IsLeastFault (map (λ name. name.now) names.now) roots kinds.now (map (λ word. word.now) words.now)) }
{
    let mut first: Option<Kind> = None;
    for i in 0..kinds.len() {
        first = earlier(first, argument_fault(names, roots, kinds[i], words[i]));
    }
    first
}

/// The name that a command line defines, if it defines a new one.
fn command<'a>(names: &[&[u8]], roots: usize, line: &'a [u8]) -> Result<Option<&'a [u8]>, Kind>
    ensures room { IfOk result (λ new. IsSome new → length names.now < roots) }
    ensures fault { IfErr result (IsFirstOfCommand (map (λ name. name.now) names.now) roots (words_of line.now)) }
    ensures none { IfOk result (λ _. (fault : Kind)
        → ¬ CommandFault (map (λ name. name.now) names.now) roots (words_of line.now) fault) }
    ensures read { IfOk result (λ new. IsRead roots (map (λ name. name.now) names.now) (words_of line.now)
        (with_name (map (λ name. name.now) names.now) (option_map (λ name. name.now) new))) }
{
    let (word, rest) = split_word(line);
    let Some(command) = Command::named(word) else {
        return Err(Kind::Word);
    };
    let kinds = command.arguments();
    let Some(words) = arguments(kinds.len(), rest) else {
        return Err(Kind::Word);
    };
    if let Some(kind) = arguments_fault(names, roots, kinds, &words) {
        return Err(kind);
    }
    if command.defines() && !is_among(names, words[0]) && names.len() < roots {
        return Ok(Some(words[0]));
    }
    Ok(None)
}

/// Checks a section from its second line on, behind so many commands, and counts its commands to them.
fn section(lines: &mut Lines, roots: usize, before: usize) -> Result<usize, Fault>
    requires { roots ≤ 32 }
    ensures shorter { IfOk result (λ _. length lines.new.rest.now < length lines.old.rest.now) }
    ensures read { IfOk result (λ count. 1 ≤ roots → before ≤ 1048576 → (p : ProgramView)
        × IsBody roots before (lines_of lines.old.rest.now) (p, lines_of lines.new.rest.now)
        × (count ≡ before + length p.calls)) }
    ensures ended { (text : List ℕ) (sections : ℕ)
        → Inside text roots sections before (board_word ∷ []) lines.old.line (lines_of lines.old.rest.now)
        → IfOk result (λ count. Between text roots sections count lines.new.line (lines_of lines.new.rest.now)) }
    ensures fault { (text : List ℕ) (sections : ℕ)
        → Inside text roots sections before (board_word ∷ []) lines.old.line (lines_of lines.old.rest.now)
        → IfErr result (λ f. IsFirstFault text f.kind f.line) }
{
    let mut names = Names::new();
    names.push(b"board".as_slice());
    let mut commands = before;
    'commands: loop {
        let line = lines.expect()?;
        if line == b"end".as_slice() {
            return Ok(commands);
        }
        let new = match command(&names, roots, line) {
            Ok(new) => new,
            Err(kind) => return Err(lines.fault(kind)),
        };
        if commands >= MAX_COMMANDS {
            return Err(lines.fault(Kind::Many));
        }
        commands += 1;
        if let Some(name) = new {
            names.push(name);
        }
    }
}

/// Checks all sections, and counts them.
fn sections(lines: &mut Lines, roots: usize) -> Result<usize, Fault>
    requires { (1 ≤ roots) × (roots ≤ 32) }
    ensures count { IfOk result (λ count. count ≤ 16) }
    ensures read { IfOk result (λ count. (ps : List ProgramView) × AreSections roots (lines_of lines.old.rest.now) ps
        × (count ≡ length ps)) }
    ensures ended { (text : List ℕ) → Between text roots 0 0 lines.old.line (lines_of lines.old.rest.now)
        → IfOk result (λ count. Ends text roots count lines.new.line) }
    ensures fault { (text : List ℕ) → Between text roots 0 0 lines.old.line (lines_of lines.old.rest.now)
        → IfErr result (λ f. IsFirstFault text f.kind f.line) }
{
    let mut sections = 0;
    let mut commands = 0;
    'sections: loop {
        let Some(line) = lines.next()? else {
            return Ok(sections);
        };
        if line != b"mutator".as_slice() {
            return Err(lines.fault(Kind::Word));
        }
        if sections >= MAX_SECTIONS {
            return Err(lines.fault(Kind::Many));
        }
        commands = section(lines, roots, commands)?;
        sections += 1;
    }
}

/// The fault of all settings together, in a geometry with one mutator.
fn too_many_entries(values: &[u32]) -> bool
    requires count { length values.now ≡ 11 }
    requires ranges { AllInRange (numbers_in values.now 1) }
    ensures { Decides result (max_entries < all_entries (numbers_in values.now 0)) }
{
    match Shape::new(numbers_of(values, 1)) {
        Err(ShapeFault::OutOfRange(_)) => false,
        Err(ShapeFault::TooManyEntries) => true,
        Err(ShapeFault::TooManyWords) => false,
        Ok(_) => false,
    }
}

/// Checks a text up to its first fault.
fn check(text: &[u8]) -> Result<(), Fault>
    ensures script { OnOk result ((s : ScriptView) × IsScript text.now s) }
    ensures first { IfErr result (λ f. IsFirstFault text.now f.kind f.line) }
{
    let mut lines = Lines {
        rest: text,
        line: 0,
    };
    let values = settings(&mut lines, &KEYS)?;
    if too_many_entries(&values) {
        return Err(Fault {
            kind: Kind::Entries,
            line: LAST_SETTING,
        });
    }
    let mutators = sections(&mut lines, values[7] as usize)?;
    if mutators == 0 {
        return Err(lines.fault(Kind::NoMutator));
    }
    if Shape::new(numbers_of(&values, mutators as u32)).is_err() {
        return Err(Fault {
            kind: Kind::Words,
            line: LAST_SETTING,
        });
    }
    Ok(())
}

/// The first fault of a text that is no script, and none of one that is. It takes no memory.
pub fn first_fault(text: &[u8]) -> Option<Fault>
    ensures script { IfNone result ((s : ScriptView) × IsScript text.now s) }
    ensures none { IfSome result (λ _. (s : ScriptView) → ¬ IsScript text.now s) }
    ensures first { IfSome result (λ f. IsFirstFault text.now f.kind f.line) }
{
    match check(text) {
        Ok(()) => None,
        Err(fault) => Some(fault),
    }
}
