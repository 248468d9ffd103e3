//! The clauses, one by one.

ghost use Rattle.std.specs.Prelude.{ℕ, ◌≡◌, ◌<◌, ◌↔◌, List, length, slice_get, Some, MatchOption, IfOk, IsTrue};
ghost use Rattle.mako_model.specs.declared.call.Call.{Call};
ghost use Rattle.mako_model.specs.Fronts.{calls_by};
ghost use Rattle.mako_model.specs.Answering.{Answers};
ghost use Rattle.mako_judge.specs.Clauses.{Holds, HoldsApart};
ghost use Rattle.mako_judge.specs.Verdicts.{IsFault, IsFirstFault, IsTrueOf};
ghost use Rattle.mako_judge.specs.Trials.{script, front, IsFair, IsToEnd};

use crate::programs::calls_made;
use crate::trial::Trial;
use crate::verdict::{Clause, Fault, Verdict};
use mako_words::{Memory, Name};
use std::alloc::Global;

/// The clauses in their order.
const CLAUSES: [Clause; 9] = [
    Clause::Legal,
    Clause::Finished,
    Clause::Unfinished,
    Clause::Freed,
    Clause::Waits,
    Clause::Names,
    Clause::Reuses,
    Clause::Starved,
    Clause::Programs,
];

impl<'a> Trial<'a> {
    /// How far the front answers the script, or the first fault.
    pub fn verdict(&self, alloc: Global) -> Result<Verdict, Memory>
        requires { IsFair self.now }
        ensures { IfOk result (IsTrueOf (script self.now) (front self.now)) }
    {
        match self.first_fault(alloc)? {
            Some(fault) => Ok(Verdict::No(fault)),
            None if self.is_whole() => Ok(Verdict::ToTheEnd),
            None => Ok(Verdict::SoFar),
        }
    }

    fn first_fault(&self, alloc: Global) -> Result<Option<Fault>, Memory>
        requires { IsFair self.now }
        ensures { IfOk result
            (λ fault. MatchOption fault (Answers (script self.now) (front self.now))
            (IsFirstFault (script self.now) (front self.now))) }
    {
        for clause in &CLAUSES {
            if let Some(fault) = self.fault(alloc, *clause)? {
                return Ok(Some(fault));
            }
        }
        Ok(None)
    }

    fn fault(&self, alloc: Global, clause: Clause) -> Result<Option<Fault>, Memory>
        requires { IsFair self.now }
        ensures { IfOk result
            (λ fault. MatchOption fault (Holds (script self.now) (front self.now) clause) (λ f. (f.clause ≡ clause)
            × IsFault (script self.now) (front self.now) clause f.place)) }
    {
        match self.first_breach(alloc, clause)? {
            Some(place) => Ok(Some(Fault {
                clause,
                place: Some(place),
            })),
            None if self.holds_apart(clause) => Ok(None),
            None => Ok(Some(Fault {
                clause,
                place: None,
            })),
        }
    }

    fn holds_apart(&self, clause: Clause) -> bool
        requires { IsFair self.now }
        ensures { IsTrue result ↔ HoldsApart (script self.now) (front self.now) clause }
    {
        match clause {
            Clause::Finished => self.cycles.len() <= self.deaths.len(),
            Clause::Unfinished => self.deaths.len().saturating_sub(1) <= self.cycles.len(),
            Clause::Freed => self.are_lists_freed(),
            Clause::Names => self.is_in_range(Name {
                entry: 0,
                generation: 0,
            }),
            _ => true,
        }
    }

    /// Whether each program is done.
    fn is_whole(&self) -> bool
        ensures { IsTrue result ↔ IsToEnd (script self.now) self.now.points.now }
    {
        for mutator in 0..self.setup.programs.len() {
            if !self.is_done(mutator) {
                return false;
            }
        }
        true
    }

    fn is_done(&self, mutator: usize) -> bool
        requires { mutator < length self.now.setup.now.programs.items }
        ensures { (program : List Call) → slice_get (script self.now).programs mutator ≡ Some program
            → IsTrue result ↔ (calls_by mutator self.now.points.now ≡ program) }
    {
        let program = &self.setup.programs[mutator];
        match calls_made(program, mutator, self.points) {
            Some(made) => made == program.len(),
            None => false,
        }
    }
}
