//! The objects of an immortal heap.

ghost use Rattle.std.specs.Prelude.{◌≡◌, ◌<◌, ℕ, List, [], length, slice_set, OnOk, OnErr, Some};
ghost use Rattle.std.specs.Option.{option_map, unwrap_or};
ghost use Rattle.std.specs.FinMap as finite;

use mako_words::{Memory, Name, Value};
use std::alloc::Global;
use std::collections::BTreeMap;
use std::marker::Model;

/// The fields of each object.
#[derive(Drop)]
pub struct Objects {
    fields: BTreeMap<Name, Vec<Value>>,
}

impl Model for Objects {
    ghost use Rattle.mako_model.specs.Immortals.{FieldMap, objects_in};

    ghost Value = { FieldMap };

    ghost use Rattle.std.specs.FinMap as finite;
    ghost use Rattle.std.specs.Coded.{coded_list};
    ghost use Rattle.mako_words.specs.Names.{coded_name};
    ghost use Rattle.mako_words.specs.contracts.value.Value as stored;

    ghost coded = { finite.code coded_name (coded_list stored.the_row.coded) };

    ghost view = { λ o. objects_in o.fields.entries };
}

impl Objects {
    /// No objects.
    pub fn new(alloc: Global) -> Objects
        ensures { result ≡ finite.empty }
    {
        Objects {
            fields: BTreeMap::new(alloc),
        }
    }

    /// The fields of an object.
    pub fn get(&self, name: Name) -> Option<&[Value]>
        ensures { option_map (λ fields. fields.now) result ≡ finite.get self.now name }
    {
        match self.fields.get(&name) {
            Some(fields) => Some(fields.as_slice()),
            None => None,
        }
    }

    /// The object has these fields from now on. After `Memory` nothing has changed.
    pub fn insert(&mut self, name: Name, fields: Vec<Value>) -> Result<(), Memory>
        ensures ok { OnOk result (self.new ≡ finite.insert self.old name fields.items) }
        ensures err { OnErr result (self.new ≡ self.old) }
    {
        match self.fields.insert(name, fields) {
            Ok(_) => Ok(()),
            Err(_) => Err(Memory),
        }
    }

    /// The field of the object becomes the value.
    pub fn write(&mut self, name: Name, field: usize, value: Value)
        requires { (fields : List Value) × (finite.get self.old name ≡ Some fields) × (field < length fields) }
        ensures { self.new ≡ finite.insert self.old name
            (slice_set (unwrap_or (finite.get self.old name) []) field value) }
    {
        if let Some(fields) = self.fields.get_mut(&name) {
            fields[field] = value;
        }
    }
}
