//! The reader of scripts.

ghost use Rattle.std.specs.Prelude.{◌≡◌, ℕ, IfOk, Err};
ghost use Rattle.mako_text.specs.Scripts.{ScriptView};
ghost use Rattle.mako_text.specs.Texts.{IsScript};
ghost use Rattle.mako_script.specs.Answers.{IsFaultOrMemory, IsRefused, IsScriptOrMemory, TellsFault};

use crate::check::{Fault, first_fault};
use crate::fault::{Kind, ScriptFault};
use mako_reader::read_script;
use mako_reader::refusal::Refusal;
use mako_text::Script;
use std::alloc::Global;

/// The first fault of bytes that are no script.
fn fault(bytes: &[u8]) -> ScriptFault
    requires { (s : ScriptView) → ¬ IsScript bytes.now s }
    ensures { TellsFault bytes.now result }
{
    match first_fault(bytes) {
        None => unreachable!(),
        Some(Fault { kind, line }) => ScriptFault::Bad { kind, line },
    }
}

/// Reads a script. `Bad` comes where the bytes are no script, with their first fault.
pub fn parse(alloc: Global, bytes: &[u8]) -> Result<Script, ScriptFault>
    ensures ok { IfOk result (IsScript bytes.now) }
    ensures only { (s : ScriptView) → IsScript bytes.now s → IsScriptOrMemory s result }
    ensures refused { (kind : Kind) (line : ℕ) → result ≡ Err (ScriptFault.Bad kind line) →
        IsRefused bytes.now kind line }
    ensures first { ((s : ScriptView) → ¬ IsScript bytes.now s) → IsFaultOrMemory bytes.now result }
{
    match read_script(alloc, bytes) {
        Ok(script) => Ok(script),
        Err(Refusal::Bad) => Err(fault(bytes)),
        Err(Refusal::Memory) => Err(ScriptFault::Memory),
    }
}
