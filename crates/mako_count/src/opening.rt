//! The words of a count at its start.

ghost use Rattle.std.specs.Prelude.{◌≡◌, ◌++◌, ◌≤◌, IfOk, length, replicate};

use crate::setup::Setup;
use std::alloc::{AllocError, Global};

/// Appends the numbers to the words.
fn push_all(words: &mut Vec<u64>, numbers: &[u32]) -> Result<(), AllocError>
    ensures { IfOk result (λ _. words.new.items ≡ words.old.items ++ numbers.now) }
{
    for number in numbers {
        words.push(u64::from(*number))?;
    }
    Ok(())
}

/// Appends so many zeros to the words.
fn push_zeros(words: &mut Vec<u64>, count: usize) -> Result<(), AllocError>
    ensures { IfOk result (λ _. words.new.items ≡ words.old.items ++ replicate count 0) }
{
    for _i in 0..count {
        words.push(0)?;
    }
    Ok(())
}

/// The words at the start, in three columns of a word for each worker: the seeds count as sent, none is handled, and
/// all wait in their boxes.
pub fn opening_words(alloc: Global, seeds: &[u32]) -> Result<Vec<u64>, AllocError>
    ensures { IfOk result (λ v. v.items ≡ seeds.now ++ (replicate (length seeds.now) 0 ++ seeds.now)) }
{
    let mut words = Vec::new(alloc);
    push_all(&mut words, seeds)?;
    push_zeros(&mut words, seeds.len())?;
    push_all(&mut words, seeds)?;
    Ok(words)
}

/// The seeds, from which the first seat knows the words at the start.
pub fn setup_of(alloc: Global, seeds: &[u32]) -> Result<Setup, AllocError>
    ensures { IfOk result (λ k. k.seeds.items ≡ seeds.now) }
{
    Ok(Setup {
        seeds: Vec::from_slice(alloc, seeds)?,
    })
}
