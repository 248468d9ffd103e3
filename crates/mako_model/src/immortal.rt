//! The heap in which nothing moves or is freed.

ghost use Rattle.std.specs.Prelude.{◌≡◌, ◌<◌, ◌↔◌, ℕ, List, length, replicate, slice_get, slice_set, if◌then◌else◌};
ghost use Rattle.std.specs.Prelude.{IfOk, OnOk, OnErr, IsTrue, Some, is_some};
ghost use Rattle.std.specs.Option.{option_map};
ghost use Rattle.mako_words.specs.declared.value.Value.TheVariants.{Null, Ref};
ghost use Rattle.mako_model.specs.Heaps.{Heap, fields_of, roots_of, root_of, with_root, with_fields, opening};
ghost use Rattle.mako_model.specs.Lawful.{HasRoot, IsAtHand, HoldsNoRef, HasField, HasMoreFields, HasNoMoreFields};
ghost use Rattle.mako_model.specs.Lawful.{IsLawful, IsLawfulReply, heap_after, heap_replied, with_field};
ghost use Rattle.mako_model.specs.Immortals.{fields_named};

use crate::call::Call;
use crate::objects::Objects;
use crate::point::Point;
use crate::reply::Reply;
use crate::roots::Roots;
use mako_words::{Memory, Name, Value};
use std::alloc::Global;
use std::marker::Model;

/// A heap that keeps each object for good, under its name: no object moves, and none is freed.
#[derive(Drop)]
pub struct Immortal {
    alloc: Global,
    objects: Objects,
    roots: Roots,
    snaps: u32,
    cycles: u32,
}

impl Model for Immortal {
    ghost use Rattle.std.specs.Coded.{coded_list};
    ghost use Rattle.std.specs.FinMap as finite;
    ghost use Rattle.mako_words.specs.Names.{coded_name};
    ghost use Rattle.mako_words.specs.contracts.value.Value as stored;
    ghost use Rattle.mako_model.specs.Heaps.{Heap};
    ghost use Rattle.mako_model.specs.Immortals.{coded_heap};
    ghost use Rattle.mako_model.specs.Laws.{IsClosed};

    ghost Value = { Heap };

    ghost coded = { coded_heap (finite.code coded_name (coded_list stored.the_row.coded))
        (coded_list (coded_list stored.the_row.coded)) };

    ghost view = { λ i. record { objects = i.objects; roots = i.roots; snaps = i.snaps; cycles = i.cycles } };

    ghost invariant = { λ i. IsClosed (record {
      objects = i.objects;
      roots = i.roots;
      snaps = i.snaps;
      cycles = i.cycles;
    }) };
}

impl Immortal {
    /// The heap at its opening: the board with that many null fields, which root 0 of each mutator
    /// names, and no other root that holds anything. There may be that many cycles.
    pub fn start(
        alloc: Global,
        mutators: u32,
        roots: u32,
        board: u8,
        cycles: u32,
    ) -> Result<Immortal, Memory>
        ensures { IfOk result (λ h. h ≡ opening mutators roots board cycles) }
    {
        Immortal::opening(alloc, mutators as usize, roots, board, cycles)
    }

    /// The same, for any number of mutators.
    pub fn opening(
        alloc: Global,
        mutators: usize,
        roots: u32,
        board: u8,
        cycles: u32,
    ) -> Result<Immortal, Memory>
        ensures { IfOk result (λ h. h ≡ opening mutators roots board cycles) }
    {
        let name = Name {
            entry: 0,
            generation: 0,
        };
        let mut objects = Objects::new(alloc);
        objects.insert(name, nulls(alloc, board)?)?;
        let roots = Roots::opening(alloc, mutators, roots)?;
        Ok(Immortal {
            alloc,
            objects,
            roots,
            snaps: 0,
            cycles,
        })
    }

    /// Makes the change of the point where it is lawful next, and says whether it is. Where it is not,
    /// and where there is not memory enough, nothing changes.
    pub fn apply(&mut self, point: Point) -> Result<bool, Memory>
        ensures lawful { IfOk result (λ lawful. IsTrue lawful ↔ IsLawful self.old point) }
        ensures change { IfOk result (λ lawful. self.new ≡ (if lawful then heap_after self.old point else self.old)) }
        ensures memory { OnErr result (self.new ≡ self.old) }
    {
        let lawful = self.allows(point);
        if lawful {
            self.change(point)?;
        }
        Ok(lawful)
    }

    /// The number of mutators.
    pub(crate) fn mutators(&self) -> usize
        ensures { result ≡ length self.now.roots }
    {
        self.roots.len()
    }

    /// The roots of a mutator.
    pub(crate) fn roots_of(&self, mutator: usize) -> &[Value]
        requires { mutator < length self.now.roots }
        ensures { result.now ≡ roots_of self.now mutator }
    {
        self.roots.row(mutator)
    }

    /// The fields of an object.
    pub(crate) fn fields_of(&self, name: Name) -> Option<&[Value]>
        ensures { option_map (λ fields. fields.now) result ≡ fields_of self.now name }
    {
        self.objects.get(name)
    }

    /// Whether the point is lawful next.
    fn allows(&self, point: Point) -> bool
        ensures { IsTrue result ↔ IsLawful self.now point }
    {
        match point {
            Point::Did {
                mutator,
                call,
                reply,
            } => self.allows_reply(mutator, call, reply),
            Point::Snap { cycle } => 0 < cycle && cycle - 1 == self.snaps && cycle <= self.cycles,
        }
    }

    fn allows_reply(&self, mutator: u8, call: Call, reply: Reply) -> bool
        ensures { IsTrue result ↔ IsLawfulReply self.now mutator call reply }
    {
        match (call, reply) {
            (Call::New { root, .. }, Reply::Made(name)) => {
                self.has_root(mutator, root) && !self.has_object(name)
            }
            (Call::New { root, .. }, Reply::Full) => self.has_root(mutator, root),
            (Call::Num { root, value }, Reply::Value(set)) => {
                self.has_root(mutator, root) && set == Value::Num(value)
            }
            (Call::CopyRoot { to, from }, Reply::Value(value)) => {
                self.has_root(mutator, to) && self.holds(mutator, from, value)
            }
            (Call::DropRoot { root }, Reply::Done) => self.has_root(mutator, root),
            (Call::Show { root }, Reply::Value(value)) => self.holds(mutator, root, value),
            (Call::Get { to, from, field }, Reply::Value(value)) => {
                self.has_root(mutator, to) && self.field_holds(mutator, from, field, value)
            }
            (Call::Put { to, field, from }, Reply::Done) => {
                self.has_root(mutator, from) && self.has_more_fields(mutator, to, field)
            }
            (Call::Get { to, from, .. }, Reply::NoRef) => {
                self.has_root(mutator, to) && self.holds_no_ref(mutator, from)
            }
            (Call::Put { to, from, .. }, Reply::NoRef) => {
                self.has_root(mutator, from) && self.holds_no_ref(mutator, to)
            }
            (Call::Get { to, from, field }, Reply::NoField) => {
                self.has_root(mutator, to) && self.has_no_more_fields(mutator, from, field)
            }
            (Call::Put { to, field, from }, Reply::NoField) => {
                self.has_root(mutator, from) && self.has_no_more_fields(mutator, to, field)
            }
            (Call::Collect, Reply::Cycle(cycle)) => {
                self.has_mutator(mutator) && 1 <= cycle && cycle <= self.snaps
            }
            (Call::Collect, Reply::Spent) => {
                self.has_mutator(mutator) && self.snaps == self.cycles
            }
            _ => false,
        }
    }

    fn has_mutator(&self, mutator: u8) -> bool
        ensures { IsTrue result ↔ (mutator < length self.now.roots) }
    {
        (mutator as usize) < self.roots.len()
    }

    fn has_root(&self, mutator: u8, root: u8) -> bool
        ensures { IsTrue result ↔ HasRoot self.now mutator root }
    {
        self.roots.get(mutator, root).is_some()
    }

    fn has_object(&self, name: Name) -> bool
        ensures { result ≡ is_some (fields_of self.now name) }
    {
        self.objects.get(name).is_some()
    }

    fn holds(&self, mutator: u8, root: u8, value: Value) -> bool
        ensures { IsTrue result ↔ (root_of self.now mutator root ≡ Some value) }
    {
        self.roots.get(mutator, root) == Some(value)
    }

    fn holds_no_ref(&self, mutator: u8, root: u8) -> bool
        ensures { IsTrue result ↔ HoldsNoRef self.now mutator root }
    {
        match self.roots.get(mutator, root) {
            Some(Value::Null) => true,
            Some(Value::Num(_)) => true,
            _ => false,
        }
    }

    fn field_holds(&self, mutator: u8, root: u8, field: u8, value: Value) -> bool
        ensures { IsTrue result ↔ HasField self.now mutator root field value }
    {
        match self.fields(mutator, root) {
            Some(fields) => (field as usize) < fields.len() && fields[field as usize] == value,
            None => false,
        }
    }

    fn has_more_fields(&self, mutator: u8, root: u8, field: u8) -> bool
        ensures { IsTrue result ↔ HasMoreFields self.now mutator root field }
    {
        match self.fields(mutator, root) {
            Some(fields) => (field as usize) < fields.len(),
            None => false,
        }
    }

    fn has_no_more_fields(&self, mutator: u8, root: u8, field: u8) -> bool
        ensures { IsTrue result ↔ HasNoMoreFields self.now mutator root field }
    {
        match self.fields(mutator, root) {
            Some(fields) => fields.len() <= field as usize,
            None => false,
        }
    }

    /// The fields of the object that the root names.
    fn fields(&self, mutator: u8, root: u8) -> Option<&[Value]>
        ensures { option_map (λ fields. fields.now) result ≡ fields_named self.now (root_of self.now mutator root) }
    {
        match self.roots.get(mutator, root) {
            Some(Value::Ref(name)) => self.objects.get(name),
            _ => None,
        }
    }

    fn change(&mut self, point: Point) -> Result<(), Memory>
        requires { IsLawful self.old point }
        ensures ok { OnOk result (self.new ≡ heap_after self.old point) }
        ensures err { OnErr result (self.new ≡ self.old) }
    {
        match point {
            Point::Did {
                mutator,
                call,
                reply,
            } => self.change_replied(mutator, call, reply),
            Point::Snap { cycle } => {
                self.snaps = cycle;
                Ok(())
            }
        }
    }

    fn change_replied(&mut self, mutator: u8, call: Call, reply: Reply) -> Result<(), Memory>
        requires { IsLawfulReply self.old mutator call reply }
        ensures ok { OnOk result (self.new ≡ heap_replied self.old mutator call reply) }
        ensures err { OnErr result (self.new ≡ self.old) }
    {
        match (call, reply) {
            (Call::New { root, fields }, Reply::Made(name)) => {
                self.make(mutator, root, fields, name)
            }
            (Call::Num { root, .. }, Reply::Value(value)) => {
                self.set_root(mutator, root, value);
                Ok(())
            }
            (Call::CopyRoot { to, .. }, Reply::Value(value)) => {
                self.set_root(mutator, to, value);
                Ok(())
            }
            (Call::DropRoot { root }, Reply::Done) => {
                self.set_root(mutator, root, Value::Null);
                Ok(())
            }
            (Call::Get { to, .. }, Reply::Value(value)) => {
                self.set_root(mutator, to, value);
                Ok(())
            }
            (Call::Put { to, field, from }, Reply::Done) => {
                self.put(mutator, to, field, from);
                Ok(())
            }
            _ => Ok(()),
        }
    }

    fn make(&mut self, mutator: u8, root: u8, fields: u8, name: Name) -> Result<(), Memory>
        requires { HasRoot self.old mutator root }
        ensures ok { OnOk result
            (self.new ≡ with_root (with_fields self.old name (replicate fields Null)) mutator root (Ref name)) }
        ensures err { OnErr result (self.new ≡ self.old) }
    {
        let fields = nulls(self.alloc, fields)?;
        self.objects.insert(name, fields)?;
        self.roots.set(mutator, root, Value::Ref(name));
        Ok(())
    }

    fn set_root(&mut self, mutator: u8, root: u8, value: Value)
        requires root { HasRoot self.old mutator root }
        requires value { IsAtHand self.old value }
        ensures { self.new ≡ with_root self.old mutator root value }
    {
        self.roots.set(mutator, root, value);
    }

    /// The field of the object that one root names becomes the value of another.
    fn put(&mut self, mutator: u8, to: u8, field: u8, from: u8)
        requires object { HasMoreFields self.old mutator to field }
        requires value { HasRoot self.old mutator from }
        ensures { self.new ≡ with_field self.old (root_of self.old mutator to) field (root_of self.old mutator from) }
    {
        if let (Some(Value::Ref(name)), Some(value)) = (
            self.roots.get(mutator, to),
            self.roots.get(mutator, from),
        ) {
            self.objects.write(name, field as usize, value);
        }
    }
}

/// That many nulls.
fn nulls(alloc: Global, count: u8) -> Result<Vec<Value>, Memory>
    ensures { IfOk result (λ v. v.items ≡ replicate count Null) }
{
    let mut values = Vec::new(alloc);
    for _ in 0..count {
        values.push(Value::Null).map_err(|_| Memory)?;
    }
    Ok(values)
}
