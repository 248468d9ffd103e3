//! A script that was read.

use crate::program::Program;
use mako_shape::Shape;
use std::marker::Model;

/// A script of the grammar.
#[derive(Drop)]
pub struct Script {
    pub shape: Shape,
    /// The fields of the board, the record that root 0 of each mutator names at the start.
    pub board: u8,
    /// One for each mutator.
    pub programs: Vec<Program>,
}

impl Model for Script {
    ghost use Rattle.mako_text.specs.Scripts.{ScriptView, IsProper};

    ghost Value = { ScriptView };

    ghost view = { λ s. record { numbers = s.shape; board = s.board; programs = s.programs.items } };

    ghost invariant = { λ s. IsProper (record { numbers = s.shape; board = s.board; programs = s.programs.items }) };
}
