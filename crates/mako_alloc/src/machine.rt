//! The machine of `new`.

ghost use Rattle.std.specs.Prelude.{◌≡◌, ◌<◌, ◌≤◌, false, ◌↔◌, IsTrue};

use crate::found::Found;
use crate::job::Job;
use crate::progress::{NewStage, Progress};
use mako_shape::Shape;
use mako_step::{Machine, Step};
use std::marker::Model;

/// Makes an object of null fields in the first tablet, from the mutator's own on, that has room and a
/// free entry. It ends with the store of the entry, where it holds the tablet's turn, or once it has
/// left the last tablet.
#[derive(Clone, Copy)]
pub struct NewMachine {
    pub(crate) job: Job,
    pub(crate) progress: Progress,
}

impl Model for NewMachine {
    ghost use Rattle.mako_alloc.specs.Allocating.{Allocation, IsKnown};

    ghost Value = { Allocation };

    ghost view = { λ m. record { job = m.job; progress = m.progress } };

    ghost invariant = { λ m. IsKnown m.job m.progress };

    ghost inverse = { λ v. record { job = v.job; progress = v.progress } };
}

impl NewMachine {
    ghost use Rattle.mako_alloc.specs.Allocating as allocating;
    ghost use Rattle.mako_step.specs.declared.step.Step.TheVariants.{Ended};
    ghost use Rattle.mako_alloc.specs.Allocating.{opening, next_of, IsFoundKnown};
    ghost use Rattle.mako_alloc.specs.declared.progress.NewStage.TheVariants as stages;

    /// A `new` of this mutator for so many fields. Its object is of this cycle.
    pub fn new(shape: Shape, mutator: u32, fields: u8, cycle: u32) -> NewMachine
        requires mutator { mutator < shape.mutators }
        requires fields { fields ≤ 14 }
        requires cycle { cycle ≤ shape.cycles }
        ensures { result ≡ opening (record { shape = shape; mutator = mutator; fields = fields; cycle = cycle }) }
    {
        let _numbers = shape.numbers();
        NewMachine {
            job: Job {
                shape,
                mutator,
                fields,
                cycle,
            },
            progress: Progress {
                passed: 0,
                note: None,
                stage: NewStage::Arriving,
            },
        }
    }

    /// Whether it can go on with this word. A word that is not read may be any.
    pub fn can_go_on(&self, before: u64) -> bool
        ensures { IsTrue result ↔ allocating.Fits self.now before }
    {
        self.job.can_go_on(&self.progress, before)
    }

    /// What it came to.
    pub fn result(&self) -> Found
        requires { next_of self.now ≡ Ended }
        ensures stage { self.now.progress.stage ≡ stages.Ended result }
        ensures found { IsFoundKnown self.now.job result }
    {
        match self.progress.stage {
            NewStage::Ended(found) => found,
            _ => unreachable!(),
        }
    }
}

impl Machine for NewMachine {
    type Event = ();

    ghost use Rattle.mako_alloc.specs.Allocating as allocating;
    ghost use Rattle.mako_shape.specs.Places.{total};
    ghost use Rattle.mako_step.specs.Acts.{IsWithin};

    ghost next_of = { allocating.next_of };

    ghost Fits = { allocating.Fits };

    ghost fed = { allocating.fed };

    ghost event_of = { λ _ _. tt };

    ghost is_waiting = { λ _ _. false };

    ghost is_renewed = { λ _ _. false };

    ghost rank = { allocating.rank };

    fn next(&self) -> Step
        ensures next { result ≡ allocating.next_of self.now }
        ensures within { IsWithin (total self.now.job.shape) result }
    {
        self.job.next(&self.progress)
    }

    fn waits(&self, _before: u64) -> bool {
        false
    }

    fn feed(&mut self, before: u64) {
        self.progress = self.job.after(&self.progress, before);
    }
}
