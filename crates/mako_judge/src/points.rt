//! What the points before a place tell.

ghost use Rattle.std.specs.Prelude.{◌≡◌, ◌≤◌, ◌+◌, ◌↔◌, length, drop, min, ◌-◌, ◌^◌, IsTrue, ℕ};
ghost use Rattle.std.specs.List.{Contains, sum_by};
ghost use Rattle.mako_model.specs.declared.point.Point.TheVariants.{Snap};
ghost use Rattle.mako_model.specs.Legal.{Facts, state_of};
ghost use Rattle.mako_model.specs.LawfulFronts.{since};
ghost use Rattle.mako_model.specs.Starved.{first_snap};

use mako_model::Point;

/// The points since the last one of the mutator.
pub fn since(points: &[Point], mutator: u8) -> &[Point]
    ensures { result.now ≡ since mutator points.now }
{
    let mut start = 0;
    for place in 0..points.len() {
        if let Point::Did { mutator: by, .. } = points[place]
            && by == mutator
        {
            start = place + 1;
        }
    }
    &points[start..]
}

/// Whether the snapshot of the cycle is among the points.
pub fn has_snap(points: &[Point], cycle: u32) -> bool
    ensures { IsTrue result ↔ Contains points.now (Snap cycle) }
{
    points.contains(&Point::Snap { cycle })
}

/// The cycle of the first snapshot among the points.
pub fn first_snap(points: &[Point]) -> Option<u32>
    ensures { result ≡ first_snap points.now }
{
    for point in points {
        if let Point::Snap { cycle } = point {
            return Some(*cycle);
        }
    }
    None
}

/// The number of snapshots among the points.
pub fn snaps(points: &[Point]) -> usize
    ensures { (w : Facts) → result ≡ (state_of w points.now).snaps }
{
    let mut count = 0;
    for point in points {
        if let Point::Snap { .. } = point {
            count += 1;
        }
    }
    count
}
