//! The roots of an immortal heap.

ghost use Rattle.std.specs.Prelude.{◌≡◌, ◌<◌, ◌-◌, [], length, replicate, slice_get, slice_index_or, slice_set, IfOk};
ghost use Rattle.std.specs.Prelude.{Some};
ghost use Rattle.mako_model.specs.Heaps.{opening_roots};

use mako_words::{Memory, Name, Value};
use std::alloc::Global;
use std::marker::Model;

/// The roots of each mutator.
#[derive(Drop)]
pub struct Roots {
    rows: Vec<Vec<Value>>,
}

impl Model for Roots {
    ghost use Rattle.mako_model.specs.Immortals.{RootTable, roots_in};

    ghost Value = { RootTable };

    ghost view = { λ r. roots_in r.rows };
}

impl Roots {
    /// The roots at the start: the board, and nulls.
    pub fn opening(alloc: Global, mutators: usize, roots: u32) -> Result<Roots, Memory>
        ensures { IfOk result (λ r. r ≡ replicate mutators (opening_roots roots)) }
    {
        let mut rows = Vec::new(alloc);
        for _ in 0..mutators {
            let row = opening_row(alloc, roots)?;
            rows.push(row).map_err(|_| Memory)?;
        }
        Ok(Roots { rows })
    }

    /// The number of mutators.
    pub fn len(&self) -> usize
        ensures { result ≡ length self.now }
    {
        self.rows.len()
    }

    /// One root of a mutator, where there is one.
    pub fn get(&self, mutator: u8, root: u8) -> Option<Value>
        ensures { result ≡ slice_get (slice_index_or self.now mutator []) root }
    {
        if (mutator as usize) < self.rows.len() {
            self.rows[mutator as usize].get(root as usize).copied()
        } else {
            None
        }
    }

    /// The roots of a mutator.
    pub fn row(&self, mutator: usize) -> &[Value]
        requires { mutator < length self.now }
        ensures { result.now ≡ slice_index_or self.now mutator [] }
    {
        &self.rows[mutator]
    }

    /// The root of the mutator becomes the value.
    pub fn set(&mut self, mutator: u8, root: u8, value: Value)
        requires mutator { mutator < length self.old }
        requires root { root < length (slice_index_or self.old mutator []) }
        ensures { self.new ≡ slice_set self.old mutator (slice_set (slice_index_or self.old mutator []) root value) }
    {
        self.rows[mutator as usize][root as usize] = value;
    }
}

/// The roots of one mutator at the start.
fn opening_row(alloc: Global, roots: u32) -> Result<Vec<Value>, Memory>
    ensures { IfOk result (λ row. row.items ≡ opening_roots roots) }
{
    let board = Name {
        entry: 0,
        generation: 0,
    };
    let mut row = Vec::new(alloc);
    row.push(Value::Ref(board)).map_err(|_| Memory)?;
    for _ in 0..roots.saturating_sub(1) {
        row.push(Value::Null).map_err(|_| Memory)?;
    }
    Ok(row)
}
