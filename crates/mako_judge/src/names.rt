//! Names made and names listed.

ghost use Rattle.std.specs.Prelude.{◌≡◌, ◌↔◌, IfOk, IsTrue, not, option_to_list};
ghost use Rattle.std.specs.List.{Contains, filter};
ghost use Rattle.std.specs.BTreeSet.{contains};
ghost use Rattle.std.specs.List.Sorted.{IsStrictlySortedBy};
ghost use Rattle.mako_words.specs.declared.name.Name.{Name};
ghost use Rattle.mako_words.specs.Names.{name_cmp};
ghost use Rattle.mako_model.specs.Dead.{made_by, names_made};
ghost use Rattle.mako_model.specs.Reachable.{IsReachable};

use mako_model::{Immortal, Point, Reply, reach};
use mako_words::{Memory, Name};
use std::alloc::Global;
use std::cmp::Ordering;
use std::collections::BTreeSet;

/// The board's name, and those that the points made, in order.
pub fn names_made(alloc: Global, points: &[Point]) -> Result<Vec<Name>, Memory>
    ensures { IfOk result (λ names. names.items ≡ names_made points.now) }
{
    let board = Name {
        entry: 0,
        generation: 0,
    };
    let mut names = Vec::new(alloc);
    names.push(board).map_err(|_| Memory)?;
    for point in points {
        if let Some(name) = name_made(*point) {
            names.push(name).map_err(|_| Memory)?;
        }
    }
    Ok(names)
}

/// The name that the point made, where it made one.
pub fn name_made(point: Point) -> Option<Name>
    ensures { option_to_list result ≡ made_by point }
{
    match point {
        Point::Did {
            reply: Reply::Made(name),
            ..
        } => Some(name),
        _ => None,
    }
}

/// The names that the points made and that are not reachable in the heap.
pub fn unreached(alloc: Global, points: &[Point], heap: &Immortal) -> Result<Vec<Name>, Memory>
    ensures { IfOk result (λ names. (name : Name)
        → Contains names.items name ↔ (Contains (names_made points.now) name × ¬ IsReachable heap.now name)) }
{
    let reached = reach(alloc, heap)?;
    let made = names_made(alloc, points)?;
    outside(alloc, &made, &reached)
}

/// The names of the list that are not in the set.
fn outside(alloc: Global, names: &[Name], set: &BTreeSet<Name>) -> Result<Vec<Name>, Memory>
    ensures { IfOk result (λ left. left.items ≡ filter (λ name. not (contains name_cmp set.now name)) names.now) }
{
    names
        .iter()
        .copied()
        .filter(|name| !set.contains(name))
        .collect(alloc)
        .map_err(|_| Memory)
}

/// Whether the list has the name.
pub fn has(names: &[Name], name: Name) -> bool
    ensures { IsTrue result ↔ Contains names.now name }
{
    names.contains(&name)
}

/// Whether each name is below those after it.
pub fn is_rising(names: &[Name]) -> bool
    ensures { IsTrue result ↔ IsStrictlySortedBy name_cmp names.now }
{
    for place in 1..names.len() {
        if names[place - 1].cmp(&names[place]) != Ordering::Less {
            return false;
        }
    }
    true
}
