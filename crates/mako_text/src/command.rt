//! The commands of scripts: their words, their arguments, and the calls that they stand for.

ghost use Rattle.std.specs.Prelude.{◌≡◌, ◌≢◌, ◌≤◌, length, IfNone, IfSome};
ghost use Rattle.mako_text.specs.declared.command.Command.{Command};
ghost use Rattle.mako_text.specs.Commands.{FitCall, call_of, command_of, defines, kinds_of, values_of, word_of};

use arrayvec::ArrayVec;
use mako_model::Call;

/// A command of a script: its line stands for one call of a mutator.
#[derive(Clone, Copy)]
pub enum Command {
    New,
    Num,
    Copy,
    Drop,
    Get,
    Put,
    Show,
    Collect,
}

/// What an argument of a command is.
#[derive(Clone, Copy)]
pub enum Argument {
    /// A name, which the command defines.
    Defined,
    /// A name that an earlier line defined.
    Read,
    /// A number, at most this.
    Number(u32),
}

/// No command has more arguments.
pub const MAX_ARGUMENTS: usize = 3;

/// The values of a command's arguments: the roots of names, and numbers.
pub type Values = ArrayVec<u32, MAX_ARGUMENTS>;

const COMMANDS: [Command; 8] = [
    Command::New,
    Command::Num,
    Command::Copy,
    Command::Drop,
    Command::Get,
    Command::Put,
    Command::Show,
    Command::Collect,
];

impl Command {
    /// The command of a word.
    pub fn named(word: &[u8]) -> Option<Command>
        ensures some { IfSome result (λ command. word.now ≡ word_of command) }
        ensures none { IfNone result ((command : Command) → word.now ≢ word_of command) }
    {
        for command in &COMMANDS {
            if command.word() == word {
                return Some(*command);
            }
        }
        None
    }

    /// The command of a call.
    pub fn of(call: &Call) -> Command
        ensures { result ≡ command_of call.now }
    {
        match call {
            Call::New { .. } => Command::New,
            Call::Num { .. } => Command::Num,
            Call::CopyRoot { .. } => Command::Copy,
            Call::DropRoot { .. } => Command::Drop,
            Call::Get { .. } => Command::Get,
            Call::Put { .. } => Command::Put,
            Call::Show { .. } => Command::Show,
            Call::Collect => Command::Collect,
        }
    }

    /// The word that begins its line.
    pub fn word(self) -> &'static [u8]
        ensures word { result.now ≡ word_of self }
        ensures short { length result.now ≤ 7 }
    {
        match self {
            Command::New => b"new",
            Command::Num => b"num",
            Command::Copy => b"copy",
            Command::Drop => b"drop",
            Command::Get => b"get",
            Command::Put => b"put",
            Command::Show => b"show",
            Command::Collect => b"collect",
        }
    }

    /// Its arguments, in order.
    pub fn arguments(self) -> &'static [Argument]
        ensures { result.now ≡ kinds_of self }
    {
        match self {
            Command::New => &[Argument::Defined, Argument::Number(14)],
            Command::Num => &[Argument::Defined, Argument::Number(u32::MAX)],
            Command::Copy => &[Argument::Defined, Argument::Read],
            Command::Drop => &[Argument::Read],
            Command::Get => &[Argument::Defined, Argument::Read, Argument::Number(13)],
            Command::Put => &[Argument::Read, Argument::Number(13), Argument::Read],
            Command::Show => &[Argument::Read],
            Command::Collect => &[],
        }
    }

    /// Whether its first argument is a name that it defines.
    pub fn defines(self) -> bool
        ensures { result ≡ defines self }
    {
        matches!(self.arguments(), [Argument::Defined, ..])
    }

    /// The call with these values of its arguments.
    pub fn call(self, values: &[u32]) -> Call
        requires { FitCall self values.now }
        ensures { result ≡ call_of self values.now }
    {
        match self {
            Command::New => Call::New {
                root: values[0] as u8,
                fields: values[1] as u8,
            },
            Command::Num => Call::Num {
                root: values[0] as u8,
                value: values[1],
            },
            Command::Copy => Call::CopyRoot {
                to: values[0] as u8,
                from: values[1] as u8,
            },
            Command::Drop => Call::DropRoot {
                root: values[0] as u8,
            },
            Command::Get => Call::Get {
                to: values[0] as u8,
                from: values[1] as u8,
                field: values[2] as u8,
            },
            Command::Put => Call::Put {
                to: values[0] as u8,
                field: values[1] as u8,
                from: values[2] as u8,
            },
            Command::Show => Call::Show {
                root: values[0] as u8,
            },
            Command::Collect => Call::Collect,
        }
    }
}

/// The values of a call's arguments, from which its command makes it again.
#[tactic(auto, using(crate::proofs::Calls::made_again))]
pub fn values_of(call: &Call) -> Values
    ensures values { result.items ≡ values_of call.now }
    ensures again { call_of (command_of call.now) result.items ≡ call.now }
{
    match *call {
        Call::New { root, fields } => listed(&[u32::from(root), u32::from(fields)]),
        Call::Num { root, value } => listed(&[u32::from(root), value]),
        Call::CopyRoot { to, from } => listed(&[u32::from(to), u32::from(from)]),
        Call::DropRoot { root } | Call::Show { root } => listed(&[u32::from(root)]),
        Call::Get { to, from, field } => {
            listed(&[u32::from(to), u32::from(from), u32::from(field)])
        }
        Call::Put { to, field, from } => {
            listed(&[u32::from(to), u32::from(field), u32::from(from)])
        }
        Call::Collect => listed(&[]),
    }
}

fn listed(values: &[u32]) -> Values
    requires { length values.now ≤ 3 }
    ensures { result.items ≡ values.now }
{
    let mut list = Values::new();
    if list.try_extend_from_slice(values).is_err() {
        unreachable!()
    }
    list
}
