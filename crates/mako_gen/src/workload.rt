//! Workloads.

ghost use Rattle.std.specs.Prelude.{◌≡◌, ◌≤◌, length, IfOk};
ghost use Rattle.mako_shape.specs.Limits.{IsShape};
ghost use Rattle.mako_gen.specs.Workloads.{AreSections, IsWorkload, numbers, seeded};

use crate::section::section;
use mako_script::{Program, Script};
use mako_shape::{Numbers, Shape};
use mako_words::Memory;
use rand_core::SeedableRng;
use rand_pcg::Lcg64Xsh32;
use std::alloc::{AllocError, Global};

/// How many mutators a workload has.
const MUTATORS: u32 = 4;

/// The fields of the board.
const BOARD: u8 = 8;

/// The geometry of each workload.
const NUMBERS: Numbers = Numbers {
    mutators: MUTATORS,
    servers: 4,
    tablets: 2,
    entries: 32,
    words: 128,
    spare: 1,
    ring: 4,
    roots: 8,
    cycles: 1000,
    generations: 1_000_000,
};

fn shape() -> Shape
    ensures { result ≡ numbers }
{
    match Shape::new(NUMBERS) {
        Ok(shape) => shape,
        Err(_) => unreachable!(),
    }
}

/// The sections of all mutators.
fn sections(
    alloc: Global,
    generator: &mut Lcg64Xsh32,
    size: u32,
) -> Result<Vec<Program>, AllocError>
    ensures count { IfOk result (λ ps. length ps.items ≡ 4) }
    ensures drawn { IfOk result (λ ps. AreSections size generator.old ps.items generator.new) }
{
    let mut programs = Vec::new(alloc);
    for _mutator in 0..MUTATORS {
        let program = section(alloc, generator, size)?;
        programs.push(program)?;
    }
    Ok(programs)
}

/// The workload of a seed: a script of four mutators, each with six commands that give its variables objects, and
/// behind them so many that are drawn by PCG XSH RR 64/32 from the seed.
pub fn make(alloc: Global, seed: u64, size: u32) -> Result<Script, Memory>
    requires { (1 ≤ size) × (size ≤ 4096) }
    ensures { IfOk result (IsWorkload seed size) }
{
    let mut generator = Lcg64Xsh32::seed_from_u64(seed);
    let Ok(programs) = sections(alloc, &mut generator, size) else {
        return Err(Memory);
    };
    Ok(Script {
        shape: shape(),
        board: BOARD,
        programs,
    })
}
