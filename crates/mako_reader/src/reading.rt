//! Scripts, as their bytes spell them.

ghost use Rattle.std.specs.Prelude.{◌≡◌, List, ℕ, length, slice_index, IfOk, OnErr, IfErr, IsErrOf, Some};
ghost use Rattle.mako_text.specs.Programs.{ProgramView};
ghost use Rattle.mako_text.specs.Scripts.{IsProper};
ghost use Rattle.mako_text.specs.Texts.{IsScript};
ghost use Rattle.mako_reader.specs.Finds.{Finds};
ghost use Rattle.mako_reader.specs.Parts.{AreProper, AreValues, script_of};

use crate::refusal::Refusal;
use crate::section::sections;
use crate::settings::{numbers_of, settings};
use mako_shape::Shape;
use mako_text::{Program, Script};
use std::alloc::Global;

/// The script of these settings and programs, if its geometry is one.
fn assembled(values: &[u32], programs: Vec<Program>) -> Result<Script, Refusal>
    requires values { AreValues values.now }
    requires programs { AreProper (slice_index values.now 7) programs.items }
    ensures ok { IfOk result (λ s. (s ≡ script_of values.now programs.items) × IsProper s) }
    ensures err { OnErr result (¬ IsProper (script_of values.now programs.items)) }
    ensures kind { IfErr result (λ e. e ≡ Refusal.Bad) }
{
    let numbers = numbers_of(values, programs.len() as u32);
    let board = values[10] as u8;
    let Ok(shape) = Shape::new(numbers) else {
        return Err(Refusal::Bad);
    };
    Ok(Script {
        shape,
        board,
        programs,
    })
}

/// The script that the bytes spell.
pub fn read_script(alloc: Global, bytes: &[u8]) -> Result<Script, Refusal>
    ensures { Finds (IsScript bytes.now) (λ script. script) result }
{
    let (values, text) = settings(bytes)?;
    let programs = sections(alloc, values[7] as usize, text)?;
    assembled(&values, programs)
}
