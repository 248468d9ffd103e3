//! The search for the reachable names.

ghost use Rattle.std.specs.Prelude.{◌≡◌, ◌↔◌, [], length, IfOk, OnOk, IsTrue};
ghost use Rattle.std.specs.List.{fold};
ghost use Rattle.std.specs.BTreeSet.{contains};
ghost use Rattle.mako_words.specs.declared.name.Name.{Name};
ghost use Rattle.mako_words.specs.Names.{name_cmp};
ghost use Rattle.mako_model.specs.Reachable.{IsReachable};
ghost use Rattle.mako_model.specs.Searches.{AreSame, added, expanded, AreRootsFound, AreFieldsFound, AreReachable};

use crate::immortal::Immortal;
use mako_words::{Memory, Name, Value};
use std::alloc::Global;
use std::collections::BTreeSet;

/// The names found so far, as a set and in the order in which they were found.
#[derive(Drop)]
struct Search {
    found: BTreeSet<Name>,
    order: Vec<Name>,
}

/// The names that are reachable from the roots, by paths through the fields of objects. It looks at
/// each object once, breadth first. `Memory` means that there was not enough.
pub fn reach(alloc: Global, state: &Immortal) -> Result<BTreeSet<Name>, Memory>
    ensures { IfOk result (λ found. (name : Name)
        → IsTrue (contains name_cmp found name) ↔ IsReachable state.now name) }
{
    let search = from_roots(alloc, state)?;
    let search = follow(state, search)?;
    Ok(found_by(search))
}

fn found_by(search: Search) -> BTreeSet<Name>
    ensures { result ≡ search.found }
{
    let Search { found, order: _ } = search;
    found
}

/// The search with the names in all roots.
fn from_roots(alloc: Global, state: &Immortal) -> Result<Search, Memory>
    ensures same { IfOk result (λ s. AreSame s.found s.order.items) }
    ensures roots { IfOk result (λ s. AreRootsFound state.now (length state.now.roots) s.order.items) }
    ensures reachable { IfOk result (λ s. AreReachable state.now s.order.items) }
{
    let mut search = Search {
        found: BTreeSet::new(alloc),
        order: Vec::new(alloc),
    };
    for mutator in 0..state.mutators() {
        add_all(&mut search, state.roots_of(mutator))?;
    }
    Ok(search)
}

/// The search with the names in the fields of all that it found, and of all that it finds.
fn follow(state: &Immortal, search: Search) -> Result<Search, Memory>
    requires same { AreSame search.found search.order.items }
    requires roots { AreRootsFound state.now (length state.now.roots) search.order.items }
    requires reachable { AreReachable state.now search.order.items }
    ensures same { IfOk result (λ s. AreSame s.found s.order.items) }
    ensures roots { IfOk result (λ s. AreRootsFound state.now (length state.now.roots) s.order.items) }
    ensures fields { IfOk result (λ s. AreFieldsFound state.now (length s.order.items) s.order.items) }
    ensures reachable { IfOk result (λ s. AreReachable state.now s.order.items) }
{
    let mut search = search;
    let mut done = 0;
    while done < search.order.len() {
        let name = search.order[done];
        expand(state, &mut search, name)?;
        done += 1;
    }
    Ok(search)
}

/// Adds the names in the fields of the object.
fn expand(state: &Immortal, search: &mut Search, name: Name) -> Result<(), Memory>
    requires { AreSame search.old.found search.old.order.items }
    ensures same { OnOk result (AreSame search.new.found search.new.order.items) }
    ensures order { OnOk result (search.new.order.items ≡ expanded state.now search.old.order.items name) }
{
    match state.fields_of(name) {
        Some(fields) => add_all(search, fields),
        None => Ok(()),
    }
}

/// Adds the names among the values that were not found yet.
fn add_all(search: &mut Search, values: &[Value]) -> Result<(), Memory>
    requires { AreSame search.old.found search.old.order.items }
    ensures same { OnOk result (AreSame search.new.found search.new.order.items) }
    ensures order { OnOk result (search.new.order.items ≡ fold added search.old.order.items values.now) }
{
    for value in values {
        add(search, *value)?;
    }
    Ok(())
}

/// Adds the name of the value, where it is one that was not found yet.
fn add(search: &mut Search, value: Value) -> Result<(), Memory>
    requires { AreSame search.old.found search.old.order.items }
    ensures same { OnOk result (AreSame search.new.found search.new.order.items) }
    ensures order { OnOk result (search.new.order.items ≡ added search.old.order.items value) }
{
    if let Value::Ref(name) = value {
        match search.found.insert(name) {
            Ok(true) => return search.order.push(name).map_err(|_| Memory),
            Ok(false) => {}
            Err(_) => return Err(Memory),
        }
    }
    Ok(())
}
