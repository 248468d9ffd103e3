//! The replay of a history in the heap in which nothing moves or is freed.

ghost use Rattle.std.specs.Prelude.{◌≡◌, ◌++◌, ◌∷◌, [], IfOk, OnOk};
ghost use Rattle.mako_model.specs.Lawful.{IsLawful};
ghost use Rattle.mako_model.specs.Legal.{Facts, state_of};
ghost use Rattle.mako_judge.specs.Setups.{script_of};
ghost use Rattle.mako_judge.specs.Deaths.{lists_in, AreDeaths};
ghost use Rattle.mako_judge.specs.Replays.{IsReplayOf};

use crate::deaths::Deaths;
use crate::names::unreached;
use crate::setup::Setup;
use mako_model::{Immortal, Point};
use mako_words::Memory;
use std::alloc::Global;

/// What a replay comes to.
#[derive(Drop)]
pub enum Replayed {
    /// Each point is lawful where it stands, and these names are dead.
    Legal(Deaths),
    /// The point with this index is the first that is not lawful.
    Unlawful(usize),
}

/// Replays the points of a history.
pub fn replay(alloc: Global, setup: &Setup, points: &[Point]) -> Result<Replayed, Memory>
    ensures { IfOk result (IsReplayOf (script_of setup.now) points.now) }
{
    let mut heap = Immortal::opening(
        alloc,
        setup.programs.len(),
        setup.roots,
        setup.board,
        setup.cycles,
    )?;
    let mut deaths = Deaths::new(alloc);
    for place in 0..points.len() {
        note(alloc, &mut deaths, &points[..place], points[place], &heap)?;
        if !heap.apply(points[place])? {
            return Ok(Replayed::Unlawful(place));
        }
    }
    Ok(Replayed::Legal(deaths))
}

/// Adds what is dead in the cycle whose snapshot the point is, where it is one.
fn note(
    alloc: Global,
    deaths: &mut Deaths,
    before: &[Point],
    point: Point,
    heap: &Immortal,
) -> Result<(), Memory>
    ensures { OnOk result ((w : Facts) → heap.now ≡ state_of w before.now → AreDeaths w before.now (lists_in deaths.old)
        → IsLawful heap.now point → AreDeaths w (before.now ++ point ∷ []) (lists_in deaths.new)) }
{
    match point {
        Point::Snap { .. } => deaths.push(unreached(alloc, before, heap)?),
        Point::Did { .. } => Ok(()),
    }
}
