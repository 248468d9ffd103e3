//! What a call is to do at an object.

ghost use Rattle.std.specs.Prelude.{◌≡◌, None};
ghost use Rattle.mako_call.specs.Calls.{decided, newly};
ghost use Rattle.mako_call.specs.Objects.{at_object, begun_at};
ghost use Rattle.mako_call.specs.Standings.{stage_at};

use crate::entering::EnterStage;
use crate::getting::GetStage;
use crate::putting::PutStage;
use crate::standing::Standing;
use mako_words::{Name, PhaseWord, Value};

/// A `get`: the field that it reads, and the root into which it puts what it read.
#[derive(Clone, Copy)]
pub struct Get {
    pub to: u8,
    pub field: u8,
}

/// A `put`: the field into which it puts the value, and the phase that it found before it went to the object.
#[derive(Clone, Copy)]
pub struct Put {
    pub field: u8,
    pub value: Value,
    pub phase: PhaseWord,
}

/// What a call is to do at an object.
#[derive(Clone, Copy)]
pub enum Access {
    Get(Get),
    Put(Put),
}

/// An object, and what a call is to do there.
#[derive(Clone, Copy)]
pub struct Errand {
    pub object: Name,
    pub access: Access,
}

/// An object, and the address of its record, an index among all words.
#[derive(Clone, Copy)]
pub struct Located {
    pub object: Name,
    pub address: u32,
}

impl Standing {
    /// It goes to the object.
    pub(crate) fn go_to(&mut self, object: Name, access: Access) -> bool
        ensures fed { stage_at self.new ≡ begun_at object access }
        ensures told { result ≡ newly None (decided (stage_at self.new)) }
    {
        *self = Standing::ArrivingAtTablet(Errand { object, access });
        false
    }

    /// It is at the object's record, which has this address.
    pub(crate) fn reach(&mut self, errand: Errand, address: u32)
        ensures fed { stage_at self.new ≡ at_object errand address }
        ensures open { decided (stage_at self.new) ≡ None }
    {
        let object = errand.object;
        let located = Located { object, address };
        match errand.access {
            Access::Get(get) => *self = Standing::LoadingHeader(located, get),
            Access::Put(put) => *self = Standing::Putting(located, put, PutStage::LoadingHeader),
        }
    }
}
