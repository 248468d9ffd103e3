//! Tables of fronts with their verdicts.

use mako_judge::{Clause, Fault, Setup, Verdict, judge};
use mako_model::{Call, Cycles, Journal, Point, Reply};
use mako_words::{Name, Value};
use std::alloc::Global;
use std::test::Fail;

const ONE: Name = Name {
    entry: 1,
    generation: 0,
};

const TWO: Name = Name {
    entry: 2,
    generation: 0,
};

const ONE_AGAIN: Name = Name {
    entry: 1,
    generation: 1,
};

/// The program of a front's only mutator.
#[derive(Clone, Copy)]
enum Program {
    /// The calls of the points.
    OfPoints,
    /// These and one more.
    WithOneMore,
    Only(&'static [Call]),
}

/// A front of one mutator in a heap of this size, and what the judge says of it.
#[derive(Clone, Copy)]
struct Row {
    tablets: u32,
    entries: u32,
    cycles: u32,
    generations: u32,
    program: Program,
    points: &'static [Point],
    /// The names freed in each finished cycle, at most two cycles of at most two names.
    freed: &'static [&'static [Name]],
    verdict: Verdict,
}

const MADE: Point = Point::Did {
    mutator: 0,
    call: Call::New { root: 1, fields: 0 },
    reply: Reply::Made(ONE),
};

const MADE_AT_ROOT_TWO: Point = Point::Did {
    mutator: 0,
    call: Call::New { root: 2, fields: 0 },
    reply: Reply::Made(ONE),
};

const MADE_AGAIN: Point = Point::Did {
    mutator: 0,
    call: Call::New { root: 1, fields: 0 },
    reply: Reply::Made(ONE_AGAIN),
};

const MADE_OF_ONE: Point = Point::Did {
    mutator: 0,
    call: Call::New { root: 1, fields: 1 },
    reply: Reply::Made(ONE),
};

const SECOND_OF_ONE: Point = Point::Did {
    mutator: 0,
    call: Call::New { root: 2, fields: 1 },
    reply: Reply::Made(TWO),
};

const MADE_OF_SIX: Point = Point::Did {
    mutator: 0,
    call: Call::New { root: 1, fields: 6 },
    reply: Reply::Made(ONE),
};

const SECOND_OF_FIVE: Point = Point::Did {
    mutator: 0,
    call: Call::New { root: 2, fields: 5 },
    reply: Reply::Made(TWO),
};

const AGAIN_OF_SIX: Point = Point::Did {
    mutator: 0,
    call: Call::New { root: 3, fields: 6 },
    reply: Reply::Made(ONE_AGAIN),
};

const MADE_OF_TWELVE: Point = Point::Did {
    mutator: 0,
    call: Call::New {
        root: 1,
        fields: 12,
    },
    reply: Reply::Made(ONE),
};

const MADE_OF_THIRTEEN: Point = Point::Did {
    mutator: 0,
    call: Call::New {
        root: 1,
        fields: 13,
    },
    reply: Reply::Made(ONE),
};

const FULL: Point = Point::Did {
    mutator: 0,
    call: Call::New { root: 1, fields: 0 },
    reply: Reply::Full,
};

const FULL_AT_ROOT_TWO: Point = Point::Did {
    mutator: 0,
    call: Call::New { root: 2, fields: 0 },
    reply: Reply::Full,
};

const FULL_OF_ONE: Point = Point::Did {
    mutator: 0,
    call: Call::New { root: 2, fields: 1 },
    reply: Reply::Full,
};

const DROPPED: Point = Point::Did {
    mutator: 0,
    call: Call::DropRoot { root: 1 },
    reply: Reply::Done,
};

const SECOND_DROPPED: Point = Point::Did {
    mutator: 0,
    call: Call::DropRoot { root: 2 },
    reply: Reply::Done,
};

const FIRST_NAMES_SECOND: Point = Point::Did {
    mutator: 0,
    call: Call::Put {
        to: 1,
        field: 0,
        from: 2,
    },
    reply: Reply::Done,
};

const SECOND_NAMES_FIRST: Point = Point::Did {
    mutator: 0,
    call: Call::Put {
        to: 2,
        field: 0,
        from: 1,
    },
    reply: Reply::Done,
};

const FIRST_NAMES_ITSELF: Point = Point::Did {
    mutator: 0,
    call: Call::Put {
        to: 1,
        field: 0,
        from: 1,
    },
    reply: Reply::Done,
};

const NUMBER: Point = Point::Did {
    mutator: 0,
    call: Call::Num { root: 1, value: 7 },
    reply: Reply::Value(Value::Num(7)),
};

const WAITED: Point = Point::Did {
    mutator: 0,
    call: Call::Collect,
    reply: Reply::Cycle(1),
};

const WAITED_AGAIN: Point = Point::Did {
    mutator: 0,
    call: Call::Collect,
    reply: Reply::Cycle(2),
};

const SHOWN: Point = Point::Did {
    mutator: 0,
    call: Call::Show { root: 2 },
    reply: Reply::Value(Value::Ref(TWO)),
};

const SNAP: Point = Point::Snap { cycle: 1 };

const SNAP_AGAIN: Point = Point::Snap { cycle: 2 };

/// Fronts with a `new` that found no room.
const NO_ROOM: [Row; 7] = [
    Row {
        tablets: 1,
        entries: 2,
        cycles: 1,
        generations: 8,
        program: Program::WithOneMore,
        points: &[MADE, DROPPED, SNAP, FULL],
        freed: &[&[ONE]],
        verdict: Verdict::SoFar,
    },
    Row {
        tablets: 1,
        entries: 2,
        cycles: 10,
        generations: 8,
        program: Program::WithOneMore,
        points: &[MADE, DROPPED, SNAP, FULL],
        freed: &[&[ONE]],
        verdict: Verdict::No(Fault {
            clause: Clause::Starved,
            place: Some(3),
        }),
    },
    Row {
        tablets: 1,
        entries: 4,
        cycles: 10,
        generations: 8,
        program: Program::WithOneMore,
        points: &[MADE_OF_THIRTEEN, SNAP, FULL_AT_ROOT_TWO],
        freed: &[&[]],
        verdict: Verdict::SoFar,
    },
    Row {
        tablets: 1,
        entries: 4,
        cycles: 10,
        generations: 8,
        program: Program::WithOneMore,
        points: &[MADE_OF_TWELVE, SNAP, FULL_AT_ROOT_TWO],
        freed: &[&[]],
        verdict: Verdict::No(Fault {
            clause: Clause::Starved,
            place: Some(2),
        }),
    },
    Row {
        tablets: 2,
        entries: 1,
        cycles: 10,
        generations: 8,
        program: Program::WithOneMore,
        points: &[SNAP, FULL],
        freed: &[&[]],
        verdict: Verdict::No(Fault {
            clause: Clause::Starved,
            place: Some(1),
        }),
    },
    Row {
        tablets: 1,
        entries: 3,
        cycles: 10,
        generations: 8,
        program: Program::WithOneMore,
        points: &[MADE, SNAP, FULL_AT_ROOT_TWO],
        freed: &[&[]],
        verdict: Verdict::No(Fault {
            clause: Clause::Starved,
            place: Some(2),
        }),
    },
    Row {
        tablets: 1,
        entries: 2,
        cycles: 10,
        generations: 8,
        program: Program::WithOneMore,
        points: &[MADE, SNAP, WAITED, DROPPED, SNAP_AGAIN, FULL],
        freed: &[&[], &[ONE]],
        verdict: Verdict::No(Fault {
            clause: Clause::Starved,
            place: Some(5),
        }),
    },
];

/// Fronts with calls that waited for a cycle, and with cycles.
const WAITS_AND_CYCLES: [Row; 5] = [
    Row {
        tablets: 1,
        entries: 4,
        cycles: 10,
        generations: 8,
        program: Program::WithOneMore,
        points: &[SNAP, NUMBER, WAITED],
        freed: &[&[]],
        verdict: Verdict::No(Fault {
            clause: Clause::Waits,
            place: Some(2),
        }),
    },
    Row {
        tablets: 1,
        entries: 4,
        cycles: 10,
        generations: 8,
        program: Program::WithOneMore,
        points: &[SNAP, WAITED],
        freed: &[],
        verdict: Verdict::No(Fault {
            clause: Clause::Waits,
            place: Some(1),
        }),
    },
    Row {
        tablets: 1,
        entries: 4,
        cycles: 10,
        generations: 8,
        program: Program::WithOneMore,
        points: &[SNAP, NUMBER],
        freed: &[],
        verdict: Verdict::SoFar,
    },
    Row {
        tablets: 1,
        entries: 4,
        cycles: 10,
        generations: 8,
        program: Program::WithOneMore,
        points: &[SNAP, SNAP_AGAIN],
        freed: &[],
        verdict: Verdict::No(Fault {
            clause: Clause::Unfinished,
            place: None,
        }),
    },
    Row {
        tablets: 1,
        entries: 4,
        cycles: 10,
        generations: 8,
        program: Program::WithOneMore,
        points: &[],
        freed: &[&[]],
        verdict: Verdict::No(Fault {
            clause: Clause::Finished,
            place: None,
        }),
    },
];

/// Fronts with names out of range or made twice, and with other programs.
const NAMES_AND_PROGRAMS: [Row; 6] = [
    Row {
        tablets: 1,
        entries: 1,
        cycles: 10,
        generations: 8,
        program: Program::WithOneMore,
        points: &[MADE],
        freed: &[],
        verdict: Verdict::No(Fault {
            clause: Clause::Names,
            place: Some(0),
        }),
    },
    Row {
        tablets: 1,
        entries: 0,
        cycles: 10,
        generations: 8,
        program: Program::WithOneMore,
        points: &[],
        freed: &[],
        verdict: Verdict::No(Fault {
            clause: Clause::Names,
            place: None,
        }),
    },
    Row {
        tablets: 1,
        entries: 2,
        cycles: 10,
        generations: 1,
        program: Program::WithOneMore,
        points: &[MADE, DROPPED, SNAP, MADE_AGAIN],
        freed: &[&[ONE]],
        verdict: Verdict::No(Fault {
            clause: Clause::Names,
            place: Some(3),
        }),
    },
    Row {
        tablets: 1,
        entries: 4,
        cycles: 10,
        generations: 8,
        program: Program::WithOneMore,
        points: &[MADE, MADE_AT_ROOT_TWO],
        freed: &[],
        verdict: Verdict::No(Fault {
            clause: Clause::Legal,
            place: Some(1),
        }),
    },
    Row {
        tablets: 1,
        entries: 4,
        cycles: 10,
        generations: 8,
        program: Program::Only(&[]),
        points: &[NUMBER],
        freed: &[],
        verdict: Verdict::No(Fault {
            clause: Clause::Programs,
            place: Some(0),
        }),
    },
    Row {
        tablets: 1,
        entries: 4,
        cycles: 10,
        generations: 8,
        program: Program::Only(&[
            Call::New { root: 1, fields: 0 },
            Call::Collect,
            Call::DropRoot { root: 1 },
        ]),
        points: &[MADE, SNAP, WAITED, DROPPED],
        freed: &[&[]],
        verdict: Verdict::ToTheEnd,
    },
];

/// The worked examples of the model, each with its wrong variant.
const WORKED_EXAMPLES: [Row; 10] = [
    Row {
        tablets: 2,
        entries: 2,
        cycles: 10,
        generations: 8,
        program: Program::OfPoints,
        points: &[
            MADE_OF_ONE,
            SECOND_OF_ONE,
            FIRST_NAMES_SECOND,
            SECOND_NAMES_FIRST,
            DROPPED,
            SECOND_DROPPED,
            SNAP,
            WAITED,
        ],
        freed: &[&[ONE, TWO]],
        verdict: Verdict::ToTheEnd,
    },
    Row {
        tablets: 2,
        entries: 2,
        cycles: 10,
        generations: 8,
        program: Program::OfPoints,
        points: &[
            MADE_OF_ONE,
            SECOND_OF_ONE,
            FIRST_NAMES_SECOND,
            SECOND_NAMES_FIRST,
            DROPPED,
            SECOND_DROPPED,
            SNAP,
            WAITED,
        ],
        freed: &[&[ONE]],
        verdict: Verdict::No(Fault {
            clause: Clause::Freed,
            place: None,
        }),
    },
    Row {
        tablets: 1,
        entries: 2,
        cycles: 10,
        generations: 1,
        program: Program::OfPoints,
        points: &[MADE, DROPPED, SNAP, FULL_AT_ROOT_TWO],
        freed: &[&[ONE]],
        verdict: Verdict::ToTheEnd,
    },
    Row {
        tablets: 1,
        entries: 2,
        cycles: 10,
        generations: 1,
        program: Program::OfPoints,
        points: &[MADE, DROPPED, SNAP, FULL_AT_ROOT_TWO],
        freed: &[],
        verdict: Verdict::No(Fault {
            clause: Clause::Starved,
            place: Some(3),
        }),
    },
    Row {
        tablets: 1,
        entries: 2,
        cycles: 10,
        generations: 8,
        program: Program::OfPoints,
        points: &[MADE_OF_ONE, SNAP, FULL_OF_ONE],
        freed: &[&[]],
        verdict: Verdict::ToTheEnd,
    },
    Row {
        tablets: 1,
        entries: 2,
        cycles: 10,
        generations: 8,
        program: Program::OfPoints,
        points: &[MADE_OF_ONE, SNAP, FULL_OF_ONE],
        freed: &[&[ONE]],
        verdict: Verdict::No(Fault {
            clause: Clause::Freed,
            place: None,
        }),
    },
    Row {
        tablets: 1,
        entries: 4,
        cycles: 10,
        generations: 8,
        program: Program::OfPoints,
        points: &[
            MADE_OF_ONE,
            FIRST_NAMES_ITSELF,
            DROPPED,
            SNAP,
            WAITED,
            SNAP_AGAIN,
            WAITED_AGAIN,
        ],
        freed: &[&[ONE], &[]],
        verdict: Verdict::ToTheEnd,
    },
    Row {
        tablets: 1,
        entries: 4,
        cycles: 10,
        generations: 8,
        program: Program::OfPoints,
        points: &[
            MADE_OF_ONE,
            FIRST_NAMES_ITSELF,
            DROPPED,
            SNAP,
            WAITED,
            SNAP_AGAIN,
            WAITED_AGAIN,
        ],
        freed: &[&[ONE], &[ONE]],
        verdict: Verdict::No(Fault {
            clause: Clause::Freed,
            place: None,
        }),
    },
    Row {
        tablets: 1,
        entries: 4,
        cycles: 10,
        generations: 8,
        program: Program::OfPoints,
        points: &[
            MADE_OF_SIX,
            SECOND_OF_FIVE,
            DROPPED,
            SNAP,
            AGAIN_OF_SIX,
            SHOWN,
        ],
        freed: &[&[ONE]],
        verdict: Verdict::ToTheEnd,
    },
    Row {
        tablets: 1,
        entries: 4,
        cycles: 10,
        generations: 8,
        program: Program::OfPoints,
        points: &[MADE_OF_SIX, SECOND_OF_FIVE, DROPPED, AGAIN_OF_SIX],
        freed: &[],
        verdict: Verdict::No(Fault {
            clause: Clause::Reuses,
            place: Some(3),
        }),
    },
];

/// The program that is the calls of the points.
fn calls_of(alloc: Global, points: &[Point]) -> Result<Vec<Call>, Fail> {
    let mut calls = Vec::new(alloc);
    for point in points {
        if let Point::Did { call, .. } = point {
            calls.push(*call)?;
        }
    }
    Ok(calls)
}

fn program_of(alloc: Global, row: &Row) -> Result<Vec<Call>, Fail> {
    match row.program {
        Program::OfPoints => calls_of(alloc, row.points),
        Program::WithOneMore => {
            let mut calls = calls_of(alloc, row.points)?;
            calls.push(Call::Show { root: 1 })?;
            Ok(calls)
        }
        Program::Only(calls) => Ok(Vec::from_slice(alloc, calls)?),
    }
}

fn journal_of(alloc: Global, points: &[Point]) -> Result<Journal, Fail> {
    let mut journal = Journal::with_room(alloc, points.len())?;
    for point in points {
        journal.push(*point);
    }
    Ok(journal)
}

/// The cycles that freed these names, at most two each.
fn cycles_of(alloc: Global, freed: &[&[Name]]) -> Result<Cycles, Fail> {
    let mut cycles = Cycles::with_room(alloc, 4, 2)?;
    if let Some(names) = freed.first()
        && names.len() <= 2
    {
        cycles.push(names);
    }
    if let Some(names) = freed.get(1)
        && names.len() <= 2
        && cycles.len() == 1
    {
        cycles.push(names);
    }
    Ok(cycles)
}

/// What the judge says of the front.
fn judged(alloc: Global, row: &Row) -> Result<Verdict, Fail> {
    let mut programs = Vec::new(alloc);
    programs.push(program_of(alloc, row)?)?;
    let setup = Setup {
        roots: 4,
        board: 1,
        tablets: row.tablets,
        entries: row.entries,
        words: 16,
        cycles: row.cycles,
        generations: row.generations,
        programs,
    };
    let journal = journal_of(alloc, row.points)?;
    let cycles = cycles_of(alloc, row.freed)?;
    Ok(judge(alloc, &setup, &journal, &cycles)?)
}

#[test]
fn no_room(rt: HostRuntime) -> Result<(), Fail> {
    for row in &NO_ROOM {
        assert_eq!(rt; judged(rt.alloc(), row)?, row.verdict);
    }
    Ok(())
}

#[test]
fn waits_and_cycles(rt: HostRuntime) -> Result<(), Fail> {
    for row in &WAITS_AND_CYCLES {
        assert_eq!(rt; judged(rt.alloc(), row)?, row.verdict);
    }
    Ok(())
}

#[test]
fn names_and_programs(rt: HostRuntime) -> Result<(), Fail> {
    for row in &NAMES_AND_PROGRAMS {
        assert_eq!(rt; judged(rt.alloc(), row)?, row.verdict);
    }
    Ok(())
}

#[test]
fn worked_examples(rt: HostRuntime) -> Result<(), Fail> {
    for row in &WORKED_EXAMPLES {
        assert_eq!(rt; judged(rt.alloc(), row)?, row.verdict);
    }
    Ok(())
}
