//! The section of one mutator.

ghost use Rattle.std.specs.Prelude.{IfOk, OnOk};
ghost use Rattle.mako_gen.specs.Workloads.{Adds, IsSection};

use crate::draws::command;
use crate::names::names;
use mako_model::Call;
use mako_script::Program;
use rand_pcg::Lcg64Xsh32;
use std::alloc::{AllocError, Global};

/// The fields of the objects that the variables are given at the start.
const FIELDS: u8 = 2;

/// An object for each variable.
const FIRST_CALLS: [Call; 6] = [
    Call::New {
        root: 1,
        fields: FIELDS,
    },
    Call::New {
        root: 2,
        fields: FIELDS,
    },
    Call::New {
        root: 3,
        fields: FIELDS,
    },
    Call::New {
        root: 4,
        fields: FIELDS,
    },
    Call::New {
        root: 5,
        fields: FIELDS,
    },
    Call::New {
        root: 6,
        fields: FIELDS,
    },
];

/// Adds so many commands that are drawn.
fn add_drawn(calls: &mut Vec<Call>, generator: &mut Lcg64Xsh32, size: u32) -> Result<(), AllocError>
    ensures { OnOk result (Adds calls.old.items generator.old size calls.new.items generator.new) }
{
    for _drawn in 0..size {
        let call = command(generator);
        calls.push(call)?;
    }
    Ok(())
}

/// A section: an object for each variable, and so many commands that are drawn.
pub fn section(alloc: Global, generator: &mut Lcg64Xsh32, size: u32) -> Result<Program, AllocError>
    ensures { IfOk result (λ p. IsSection size generator.old p generator.new) }
{
    let mut calls = Vec::from_slice(alloc, &FIRST_CALLS)?;
    add_drawn(&mut calls, generator, size)?;
    Ok(Program {
        names: names(alloc)?,
        calls,
    })
}
