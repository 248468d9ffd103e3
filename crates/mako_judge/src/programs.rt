//! Calls against programs.

ghost use Rattle.std.specs.Prelude.{◌≡◌, ◌≤◌, ◌↔◌, ◌∷◌, [], length, take, slice_get, Some, MatchOption, option_to_list};
ghost use Rattle.std.specs.Prelude.{IsTrue};
ghost use mathlib.Core.List.{IsPrefix};
ghost use Rattle.mako_model.specs.Fronts.{calls_by};

use mako_model::{Call, Point};

/// How many calls of its program the mutator made, or `None` where it made another call than the next.
pub fn calls_made(program: &[Call], mutator: usize, points: &[Point]) -> Option<usize>
    ensures { MatchOption result (¬ IsPrefix (calls_by mutator points.now) program.now)
        (λ made. (calls_by mutator points.now ≡ take made program.now) × (made ≤ length program.now)) }
{
    let mut made = 0;
    for point in points {
        if let Some(call) = call_by(mutator, *point) {
            if !is_at(program, made, call) {
                return None;
            }
            made += 1;
        }
    }
    Some(made)
}

/// The call of the point, where it is one of the mutator.
fn call_by(mutator: usize, point: Point) -> Option<Call>
    ensures { option_to_list result ≡ calls_by mutator (point ∷ []) }
{
    match point {
        Point::Did {
            mutator: by,
            call,
            ..
        } if by as usize == mutator => Some(call),
        _ => None,
    }
}

/// Whether the program has this call at that place.
fn is_at(program: &[Call], place: usize, call: Call) -> bool
    ensures { IsTrue result ↔ (slice_get program.now place ≡ Some call) }
{
    place < program.len() && program[place] == call
}
