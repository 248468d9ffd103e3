//! The program of one mutator.

use indexmap::IndexSet;
use mako_model::Call;
use std::marker::Model;

/// The names of a mutator's roots, by the numbers of the roots, and its calls in order.
#[derive(Drop)]
pub struct Program {
    pub names: IndexSet<String>,
    pub calls: Vec<Call>,
}

impl Model for Program {
    ghost use Rattle.std.specs.Prelude.{map, string_bytes};
    ghost use Rattle.mako_text.specs.Programs.{ProgramView};

    ghost Value = { ProgramView };

    ghost view = { λ p. record { names = map string_bytes p.names.keys; calls = p.calls.items } };
}
