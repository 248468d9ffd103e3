//! What a step of a seat was.

ghost use Rattle.std.specs.Prelude.{◌≡◌};
ghost use Rattle.mako_core.specs.Turns as turns;

use mako_step::Stepped;

/// What a step of a seat was.
#[derive(Clone, Copy, Debug, PartialEq, Eq)]
pub enum Turn {
    Moved,
    /// It was a look that found this word, and waits for another.
    Waiting(u64),
    /// The seat was at its end before, and nothing changed.
    Ended,
}

impl Turn {
    /// What a step was that came to this.
    pub(crate) fn of(stepped: Stepped<()>) -> Turn
        ensures { result ≡ turns.turn_by stepped }
    {
        match stepped {
            Stepped::Moved(_) => Turn::Moved,
            Stepped::Waiting(word) => Turn::Waiting(word),
            Stepped::Ended => Turn::Ended,
        }
    }
}
