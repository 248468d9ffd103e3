//! The lines of an output.

ghost use Rattle.std.specs.Prelude.{◌≡◌, ◌≤◌, ◌++◌, length, codes};
ghost use Rattle.std.specs.Fmt.{decimal};
ghost use Rattle.mako_words.specs.Names.{name_text};
ghost use Rattle.mako_words.specs.Values.{value_text};
ghost use Rattle.mako_text.specs.Outputs.{point_text, reply_text, mutator_line, freed_text, last_line};

use crate::command::Command;
use crate::line::{Line, add, add_number};
use mako_model::{Call, Reply};
use mako_words::{Name, Value};

/// Adds a name, in at most 41 bytes.
fn add_name(line: &mut Line, name: Name)
    requires { length line.old.items ≤ 20 }
    ensures text { line.new.items ≡ line.old.items ++ name_text name }
    ensures short { length (name_text name) ≤ 41 }
{
    add_number(line, u64::from(name.entry));
    add(line, b"#");
    add_number(line, u64::from(name.generation));
}

/// Adds a value, in at most 41 bytes.
fn add_value(line: &mut Line, value: Value)
    requires { length line.old.items ≤ 20 }
    ensures text { line.new.items ≡ line.old.items ++ value_text value }
    ensures short { length (value_text value) ≤ 41 }
{
    match value {
        Value::Null => add(line, b"null"),
        Value::Num(number) => add_number(line, u64::from(number)),
        Value::Ref(name) => add_name(line, name),
    }
}

/// Adds a reply behind a space, in at most 42 bytes.
fn add_reply(line: &mut Line, reply: &Reply)
    requires { length line.old.items ≤ 7 }
    ensures text { line.new.items ≡ line.old.items ++ reply_text reply.now }
    ensures short { length (reply_text reply.now) ≤ 42 }
{
    match reply {
        Reply::Made(name) => {
            add(line, b" ");
            add_name(line, *name);
        }
        Reply::Full => add(line, b" full"),
        Reply::Value(value) => {
            add(line, b" ");
            add_value(line, *value);
        }
        Reply::Done => {}
        Reply::NoRef => add(line, b" noref"),
        Reply::NoField => add(line, b" nofield"),
        Reply::Cycle(cycle) => {
            add(line, b" ");
            add_number(line, u64::from(*cycle));
        }
        Reply::Spent => add(line, b" spent"),
    }
}

/// The line of a call and its reply.
pub fn point_line(call: &Call, reply: &Reply) -> Line
    ensures { result.items ≡ point_text (call.now, reply.now) }
{
    let mut line = Line::new();
    add(&mut line, Command::of(call).word());
    add_reply(&mut line, reply);
    add(&mut line, b"\n");
    line
}

/// The line that begins the section of a mutator.
pub fn mutator_bytes(mutator: usize) -> Line
    ensures { result.items ≡ mutator_line mutator }
{
    let mut line = Line::new();
    add(&mut line, b"mutator ");
    add_number(&mut line, mutator as u64);
    add(&mut line, b"\n");
    line
}

/// The line of a cycle up to its names.
pub fn cycle_head(cycle: usize) -> Line
    ensures { result.items ≡ codes "cycle " ++ decimal cycle ++ codes " freed" }
{
    let mut line = Line::new();
    add(&mut line, b"cycle ");
    add_number(&mut line, cycle as u64);
    add(&mut line, b" freed");
    line
}

/// A freed name, behind a space.
pub fn freed_bytes(name: Name) -> Line
    ensures { result.items ≡ freed_text name }
{
    let mut piece = Line::new();
    add(&mut piece, b" ");
    add_name(&mut piece, name);
    piece
}

/// The last line: whether the run went to the end.
pub fn last_bytes(finished: bool) -> &'static [u8]
    ensures { result.now ≡ last_line finished }
{
    if finished { b"end\n" } else { b"unfinished\n" }
}
