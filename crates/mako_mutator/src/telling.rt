//! What a step tells, as a point of the history.

ghost use Rattle.std.specs.Prelude.{◌≡◌, ◌≤◌, length};
ghost use Rattle.mako_mutator.specs.Telling.{history_after, told_by, untold};

use mako_model::{Event, Journal, Point};
use mako_step::Stepped;

/// What a step told goes behind the points before it.
#[inline(always)]
pub(crate) fn keep_point(journal: &mut Journal, event: Event)
    requires { length (history_after journal.old.points event) ≤ journal.old.room }
    ensures points { journal.new.points ≡ history_after journal.old.points event }
    ensures room { journal.new.room ≡ journal.old.room }
{
    match event {
        Event::Answered(point) => journal.push(point),
        Event::Snapped(cycle) => journal.push(Point::Snap { cycle }),
        Event::Nothing | Event::Finished(_) => {}
    }
}

/// What a step came to, once what it tells is kept.
#[inline(always)]
pub fn tell(stepped: Stepped<Event>, journal: &mut Journal) -> Stepped<()>
    requires { length (history_after journal.old.points (told_by stepped)) ≤ journal.old.room }
    ensures points { journal.new.points ≡ history_after journal.old.points (told_by stepped) }
    ensures room { journal.new.room ≡ journal.old.room }
    ensures result { result ≡ untold stepped }
{
    match stepped {
        Stepped::Moved(event) => {
            keep_point(journal, event);
            Stepped::Moved(())
        }
        Stepped::Waiting(word) => Stepped::Waiting(word),
        Stepped::Ended => Stepped::Ended,
    }
}
