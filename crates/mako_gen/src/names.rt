//! The names of a workload's variables.

ghost use Rattle.std.specs.Prelude.{◌≡◌, map, string_bytes, IfOk};
ghost use Rattle.mako_gen.specs.Workloads.{names};

use indexmap::IndexSet;
use std::alloc::{AllocError, Global};

/// The board, and six variables.
const NAMES: [&str; 7] = ["board", "va", "vb", "vc", "vd", "ve", "vf"];

/// The set of these names.
fn set_of(alloc: Global, texts: &[&str]) -> Result<IndexSet<String>, AllocError>
    requires { map (λ t. t.now) texts.now ≡ names }
    ensures { IfOk result (λ set. map string_bytes set.keys ≡ names) }
{
    let mut set = IndexSet::new(alloc);
    for text in texts {
        set.insert(String::from_str(alloc, text)?)?;
    }
    Ok(set)
}

/// The names of a section.
pub fn names(alloc: Global) -> Result<IndexSet<String>, AllocError>
    ensures { IfOk result (λ set. map string_bytes set.keys ≡ names) }
{
    set_of(alloc, &NAMES)
}
