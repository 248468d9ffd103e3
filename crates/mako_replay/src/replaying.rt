//! A script carried out in the order of a schedule.

ghost use Rattle.std.specs.Prelude.{◌≡◌, ◌≤◌, ◌⊎◌, ◌↔◌, length, IfOk, IsTrue};
ghost use Rattle.mako_model.specs.Answering.{Answers, AnswersToEnd};
ghost use Rattle.mako_model.specs.Outcomes.{IsWhole, AreCyclesOfFront, reply_lists};
ghost use Rattle.mako_script.specs.ScriptFacts.{facts_of};
ghost use Rattle.mako_whole.specs.AllStanding.{SeatsStand};
ghost use Rattle.mako_core.specs.Endings.{AllAtEnd};
ghost use Rattle.mako_replay.specs.Runs.{after, AreAllAtEnd};

use crate::order::Order;
use crate::running::Running;
use mako_model::Outcome;
use mako_script::Script;
use mako_words::Memory;
use std::alloc::Global;

/// What a replay came to.
#[derive(Drop)]
pub struct Replayed {
    pub outcome: Outcome,
    /// Whether every mutator is at its end.
    pub finished: bool,
    pub steps_made: u64,
}

/// Carries out the script in this order, until every seat is at its end or so many steps were made. All memory is taken
/// before the first step, and `Memory` means that there was not enough.
pub fn replay(alloc: Global, script: &Script, order: Order, steps: u64) -> Result<Replayed, Memory>
    requires { steps ≤ 1000000000 }
    ensures run { IfOk result (λ r. r.outcome.front ≡ (after script.now order steps).state.front) }
    ensures made { IfOk result (λ r. r.steps_made ≡ (after script.now order steps).made) }
    ensures most { IfOk result (λ r. r.steps_made ≤ steps) }
    ensures ends { IfOk result (λ r. (r.steps_made ≡ steps) ⊎ AreAllAtEnd (after script.now order steps).state.seats) }
    ensures finished { IfOk result (λ r.
        IsTrue r.finished ↔ AllAtEnd script.now.numbers (after script.now order steps).state.seats) }
    ensures whole { IfOk result (λ r. IsWhole r.outcome) }
    ensures freed { IfOk result (λ r. AreCyclesOfFront r.outcome) }
    ensures lists { IfOk result (λ r. length (reply_lists r.outcome) ≡ length script.now.programs) }
    ensures answers { IfOk result (λ r. Answers (facts_of script.now) r.outcome.front) }
    ensures end { IfOk result (λ r. IsTrue r.finished → AnswersToEnd (facts_of script.now) r.outcome.front) }
    ensures holds { IfOk result (λ r.
        SeatsStand script.now.numbers (facts_of script.now) (after script.now order steps).state) }
{
    let mut running = Running::start(alloc, script, order)?;
    while running.steps_made < steps && !running.live.is_empty() {
        running.step();
    }
    let finished = running.is_finished();
    Ok(Replayed {
        outcome: running.core.finish(),
        finished,
        steps_made: running.steps_made,
    })
}
