//! The judge.

ghost use Rattle.std.specs.Prelude.{◌≡◌, ◌↔◌, IfOk};
ghost use Rattle.mako_model.specs.Answering.{Answers, AnswersToEnd};
ghost use Rattle.mako_judge.specs.declared.verdict.Fault.{Fault};
ghost use Rattle.mako_judge.specs.Setups.{script_of, front_of};
ghost use Rattle.mako_judge.specs.Verdicts.{IsNo, IsFirstFault, IsTrueOf};

use crate::replay::{Replayed, replay};
use crate::setup::Setup;
use crate::trial::Trial;
use crate::verdict::{Clause, Fault, Verdict};
use mako_model::{Cycles, Journal, Point};
use mako_words::Memory;
use std::alloc::Global;

/// Whether the history and its finished cycles answer the script to the end, so far, or not, and
/// which clause they do not meet first. `Memory` means that there was not enough, and says nothing of them.
pub fn judge(
    alloc: Global,
    setup: &Setup,
    journal: &Journal,
    cycles: &Cycles,
) -> Result<Verdict, Memory>
    ensures to_the_end { IfOk result
        (λ verdict. (verdict ≡ Verdict.ToTheEnd) ↔ AnswersToEnd (script_of setup.now)
        (front_of journal.now.points cycles.now.lists)) }
    ensures so_far { IfOk result
        (λ verdict. (verdict ≡ Verdict.SoFar) ↔
        (Answers (script_of setup.now) (front_of journal.now.points cycles.now.lists)
        × ¬ AnswersToEnd (script_of setup.now) (front_of journal.now.points cycles.now.lists))) }
    ensures no { IfOk result
        (λ verdict. IsNo verdict ↔ ¬ Answers (script_of setup.now) (front_of journal.now.points cycles.now.lists)) }
    ensures first { IfOk result (λ verdict. (fault : Fault) → verdict ≡ Verdict.No fault
        → IsFirstFault (script_of setup.now) (front_of journal.now.points cycles.now.lists) fault) }
{
    let points = points_of(alloc, journal)?;
    verdict_of(alloc, setup, &points, cycles)
}

fn verdict_of(
    alloc: Global,
    setup: &Setup,
    points: &[Point],
    cycles: &Cycles,
) -> Result<Verdict, Memory>
    ensures { IfOk result (IsTrueOf (script_of setup.now) (front_of points.now cycles.now.lists)) }
{
    match replay(alloc, setup, points)? {
        Replayed::Legal(deaths) => {
            let trial = Trial {
                setup,
                points,
                cycles,
                deaths: &deaths,
            };
            trial.verdict(alloc)
        }
        Replayed::Unlawful(place) => Ok(Verdict::No(Fault {
            clause: Clause::Legal,
            place: Some(place),
        })),
    }
}

fn points_of(alloc: Global, journal: &Journal) -> Result<Vec<Point>, Memory>
    ensures { IfOk result (λ points. points.items ≡ journal.now.points) }
{
    let mut points = Vec::new(alloc);
    for index in 0..journal.len() {
        points.push(journal.get(index)).map_err(|_| Memory)?;
    }
    Ok(points)
}
