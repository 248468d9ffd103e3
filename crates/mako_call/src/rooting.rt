//! The stages of an attempt at the mutator's own roots.

ghost use Rattle.std.specs.Prelude.{◌≡◌, None};
ghost use Rattle.mako_shape.specs.Places.{total};
ghost use Rattle.mako_step.specs.Acts.{IsWithin};
ghost use Rattle.mako_call.specs.Callers.{IsCaller};
ghost use Rattle.mako_call.specs.Rooting.{root_next, root_fed, source_fed, target_fed, RootFits, RootIsKnown};
ghost use Rattle.mako_call.specs.Calls.{decided, newly};
ghost use Rattle.mako_call.specs.Leaving.{answered};
ghost use Rattle.mako_call.specs.Standings.{stage_at};

use crate::caller::Caller;
use crate::leaving::answered;
use crate::object::{Access, Get, Put};
use crate::standing::Standing;
use crate::words::{phase_of, value_of};
use mako_model::Reply;
use mako_step::Step;
use mako_words::{Name, Value};

/// Where an attempt stands that works on the mutator's own roots, which are given by their numbers.
#[derive(Clone, Copy)]
pub enum RootStage {
    /// A `num` stores its number.
    StoringNumber {
        root: u8,
        number: u32,
    },
    /// A `drop` stores null.
    StoringNull {
        root: u8,
    },
    LoadingCopied {
        to: u8,
        from: u8,
    },
    /// A `copy` stores what it loaded.
    StoringCopied {
        to: u8,
        value: Value,
    },
    LoadingShown {
        root: u8,
    },
    /// A `get` loads the root that names its object.
    LoadingSource {
        to: u8,
        from: u8,
        field: u8,
    },
    /// A `put` loads the root that names its object, then the one of the value, then the phase.
    LoadingTarget {
        to: u8,
        field: u8,
        from: u8,
    },
    LoadingValue {
        object: Name,
        field: u8,
        from: u8,
    },
    LoadingPhase {
        object: Name,
        field: u8,
        value: Value,
    },
}

impl RootStage {
    #[inline(always)]
    pub(crate) fn next(self, caller: &Caller) -> Step
        requires caller { IsCaller caller.now }
        requires known { RootIsKnown caller.now.shape self }
        ensures next { result ≡ root_next caller.now self }
        ensures within { IsWithin (total caller.now.shape) result }
    {
        match self {
            RootStage::StoringNumber { root, number } => {
                Step::store(caller.root(root), Value::Num(number).pack())
            }
            RootStage::StoringNull { root } => Step::store(caller.root(root), Value::Null.pack()),
            RootStage::StoringCopied { to, value } => Step::store(caller.root(to), value.pack()),
            RootStage::LoadingShown { root } => Step::load(caller.root(root)),
            RootStage::LoadingTarget { to, .. } => Step::load(caller.root(to)),
            RootStage::LoadingCopied { from, .. }
            | RootStage::LoadingSource { from, .. }
            | RootStage::LoadingValue { from, .. } => Step::load(caller.root(from)),
            RootStage::LoadingPhase { .. } => Step::load(caller.shape.phase()),
        }
    }
}

impl Standing {
    /// Goes where this stage leads that found this word.
    #[inline(always)]
    pub(crate) fn feed_rooting(&mut self, caller: &Caller, stage: RootStage, before: u64) -> bool
        requires fits { RootFits caller.now.shape stage before }
        ensures fed { stage_at self.new ≡ root_fed stage before }
        ensures told { result ≡ newly None (decided (stage_at self.new)) }
    {
        match stage {
            RootStage::StoringNumber { number, .. } => self.answer(Reply::Value(Value::Num(
                number,
            ))),
            RootStage::StoringNull { .. } => self.answer(Reply::Done),
            RootStage::StoringCopied { value, .. } => self.answer(Reply::Value(value)),
            RootStage::LoadingShown { .. } => self.answer(Reply::Value(value_of(before))),
            RootStage::LoadingCopied { to, .. } => {
                let value = value_of(before);
                *self = Standing::StoringCopied { to, value };
                false
            }
            RootStage::LoadingSource { to, field, .. } => self.source(to, field, value_of(before)),
            RootStage::LoadingTarget { field, from, .. } => {
                self.target(field, from, value_of(before))
            }
            RootStage::LoadingValue { object, field, .. } => {
                let value = value_of(before);
                *self = Standing::LoadingPhase {
                    object,
                    field,
                    value,
                };
                false
            }
            RootStage::LoadingPhase {
                object,
                field,
                value,
            } => {
                let put = Put {
                    field,
                    value,
                    phase: phase_of(before),
                };
                self.go_to(object, Access::Put(put))
            }
        }
    }

    /// A `get` goes to its object, if its root names one.
    fn source(&mut self, to: u8, field: u8, held: Value) -> bool
        ensures fed { stage_at self.new ≡ source_fed to field held }
        ensures told { result ≡ newly None (decided (stage_at self.new)) }
    {
        match held {
            Value::Ref(object) => self.go_to(object, Access::Get(Get { to, field })),
            _ => self.answer(Reply::NoRef),
        }
    }

    /// A `put` loads its value, if its root names an object.
    fn target(&mut self, field: u8, from: u8, held: Value) -> bool
        ensures fed { stage_at self.new ≡ target_fed field from held }
        ensures told { result ≡ newly None (decided (stage_at self.new)) }
    {
        match held {
            Value::Ref(object) => {
                *self = Standing::LoadingValue {
                    object,
                    field,
                    from,
                };
                false
            }
            _ => self.answer(Reply::NoRef),
        }
    }

    /// It is answered at its own gate alone, and leaves.
    fn answer(&mut self, reply: Reply) -> bool
        ensures fed { stage_at self.new ≡ answered reply }
        ensures told { result ≡ newly None (decided (stage_at self.new)) }
    {
        *self = answered(reply);
        true
    }
}
