//! Attempts of single calls.

ghost use Rattle.std.specs.Prelude.{◌≡◌, ◌<◌, ◌≤◌, length, IfSome};
ghost use Rattle.mako_call.specs.Agreeing.{AskedFits};
ghost use Rattle.mako_call.specs.Callers.{CallFits};

use super::{BOARD, COUNT, ENTRY_ONE, NUMBERS, carry_out, heap, store};
use crate::{CallMachine, Keep};
use mako_model::{Attempt, Call, Event, Pause, Point, Reply};
use mako_shape::Shape;
use mako_step::{FlatWords, Machine, Step, Words};
use mako_words::{Name, Value};
use std::alloc::Global;

/// Nothing was asked, and the next name goes into the first slot.
const FRESH: Keep = Keep {
    asked: None,
    barrier_at: 0,
};

/// The first cycle was asked for.
const ASKED: Keep = Keep {
    asked: Some(1),
    barrier_at: 0,
};

/// The next name goes into the second slot.
const SECOND: Keep = Keep {
    asked: None,
    barrier_at: 1,
};

/// A shut gate that counts nobody.
const SHUT: u64 = 0x1_0000;

/// The word of the number 7.
const SEVEN: u64 = 0x4000_0000_0000_0007;

/// The word of the name of entry 1.
const FIRST: u64 = 0x8000_0000_0000_0001;

/// The entry of a record at the third word of region 0.
const OLD: u64 = 0x8000_0000_0000_001d;

/// The entry of a record at the third word of region 1.
const NEW: u64 = 0x8000_0000_0000_002d;

/// The phase in which the servers trace in cycle 1.
const TRACE: u64 = 0x1_0000_0001;

/// The mutator's first two roots, of which one holds a name.
const ROOTS: [(u32, u64); 2] = [(4, FIRST), (5, SEVEN)];

/// The record of that name at the tablet's home: two fields, the number 7 and the name itself.
const RECORD: [(u32, u64); 5] = [(19, 1), (24, NEW), (45, 2), (46, SEVEN), (47, FIRST)];

/// The same record, where the first field holds the name and the second nothing.
const SELF_RECORD: [(u32, u64); 4] = [(19, 1), (24, NEW), (45, 2), (46, FIRST)];

/// The first of these records, where the tablet has left it: it is to be moved.
const LEFT_RECORD: [(u32, u64); 6] = [
    (19, 1),
    (20, 2),
    (24, OLD),
    (29, 2),
    (30, SEVEN),
    (31, FIRST),
];

const GET_SECOND: Call = Call::Get {
    to: 1,
    from: 0,
    field: 1,
};

const GET_THIRD: Call = Call::Get {
    to: 1,
    from: 0,
    field: 2,
};

const PUT_FIRST: Call = Call::Put {
    to: 0,
    field: 0,
    from: 1,
};

const PUT_THIRD: Call = Call::Put {
    to: 0,
    field: 2,
    from: 1,
};

const NEW_ONE: Call = Call::New { root: 3, fields: 1 };

/// What an attempt told, with the number of the step, what it came to and kept, and the words that it left.
#[derive(Drop)]
struct Ran {
    told: Option<(u32, Event)>,
    came: (Attempt, Keep),
    words: FlatWords,
}

/// An attempt of a call that has so many steps, on words that are 0 but for those given in parts. `None` where it
/// ends before or later, or finds a word that it cannot go on with.
fn attempt(
    alloc: Global,
    call: Call,
    keep: Keep,
    last: bool,
    given: &[&[(u32, u64)]],
    steps: u32,
) -> Option<Ran>
    requires call { CallFits NUMBERS call }
    requires asked { AskedFits NUMBERS keep.asked }
    requires barrier { keep.barrier_at < 2 }
    ensures { IfSome result (λ ran. length ran.words ≡ COUNT) }
{
    let shape = Shape::new(NUMBERS).ok()?;
    let mut words = heap(alloc, &[])?;
    for &part in given {
        if !store(&mut words, part) {
            return None;
        }
    }
    let mut machine = CallMachine::new(shape, 0, call, last, keep);
    let mut told = None;
    for step in 1..=steps {
        let Step::Do(act) = machine.next() else {
            return None;
        };
        let found = carry_out(&mut words, act)?;
        if !machine.can_go_on(found) {
            return None;
        }
        let event = machine.feed(found);
        if event != Event::Nothing {
            told = Some((step, event));
        }
    }
    let Step::Ended = machine.next() else {
        return None;
    };
    let came = machine.result();
    Some(Ran { told, came, words })
}

/// Whether it was decided with this reply in the step with this number, and keeps this.
fn decided(ran: &Option<Ran>, step: u32, call: Call, reply: Reply, keep: Keep) -> bool {
    let point = Point::Did {
        mutator: 0,
        call,
        reply,
    };
    match ran {
        Some(ran) => {
            ran.told == Some((step, Event::Answered(point)))
                && ran.came == (Attempt::Answer(reply), keep)
        }
        None => false,
    }
}

/// Whether it came to this without a reply, and keeps this.
fn undecided(ran: &Option<Ran>, outcome: Attempt, keep: Keep) -> bool {
    match ran {
        Some(ran) => ran.told.is_none() && ran.came == (outcome, keep),
        None => false,
    }
}

/// Whether it left these words, each with its index.
fn left(ran: &Option<Ran>, wants: &[(u32, u64)]) -> bool
    requires { IfSome ran.now (λ r. length r.words ≡ COUNT) }
{
    match ran {
        Some(ran) => wants.iter().all(|&(word, want)| word < COUNT && ran.words.word(word) == want),
        None => false,
    }
}

#[test]
fn works_on_its_own_roots(rt: HostRuntime) {
    let call = Call::Num { root: 1, value: 7 };
    let ran = attempt(rt.alloc(), call, FRESH, false, &[], 3);
    assert!(rt; decided(&ran, 2, call, Reply::Value(Value::Num(7)), FRESH));
    assert!(rt; left(&ran, &[(5, SEVEN), (3, 0)]));
    let call = Call::DropRoot { root: 1 };
    let ran = attempt(rt.alloc(), call, FRESH, false, &[&[(5, SEVEN)]], 3);
    assert!(rt; decided(&ran, 2, call, Reply::Done, FRESH));
    assert!(rt; left(&ran, &[(5, 0), (3, 0)]));
    let call = Call::Show { root: 1 };
    let ran = attempt(rt.alloc(), call, FRESH, false, &[&[(5, SEVEN)]], 3);
    assert!(rt; decided(&ran, 2, call, Reply::Value(Value::Num(7)), FRESH));
    assert!(rt; left(&ran, &[(5, SEVEN), (3, 0)]));
    let call = Call::CopyRoot { to: 2, from: 1 };
    let ran = attempt(rt.alloc(), call, FRESH, false, &[&[(5, SEVEN)]], 4);
    assert!(rt; decided(&ran, 3, call, Reply::Value(Value::Num(7)), FRESH));
    assert!(rt; left(&ran, &[(5, SEVEN), (6, SEVEN), (3, 0)]));
}

#[test]
fn gets_a_field(rt: HostRuntime) {
    let ran = attempt(rt.alloc(), GET_SECOND, FRESH, false, &[&ROOTS, &RECORD], 10);
    assert!(rt;
        decided(
            &ran,
            7,
            GET_SECOND,
            Reply::Value(Value::Ref(ENTRY_ONE)),
            FRESH
        )
    );
    assert!(rt; left(&ran, &[(5, FIRST), (3, 0), (17, 0)]));
}

#[test]
fn puts_a_field(rt: HostRuntime) {
    let ran = attempt(
        rt.alloc(),
        PUT_FIRST,
        FRESH,
        false,
        &[&ROOTS, &SELF_RECORD],
        11,
    );
    assert!(rt; decided(&ran, 9, PUT_FIRST, Reply::Done, FRESH));
    assert!(rt; left(&ran, &[(46, SEVEN), (47, 0), (8, 0), (3, 0), (17, 0)]));
}

#[test]
fn has_no_object_or_no_field(rt: HostRuntime) {
    let ran = attempt(rt.alloc(), GET_SECOND, FRESH, false, &[&[(4, SEVEN)]], 3);
    assert!(rt; decided(&ran, 2, GET_SECOND, Reply::NoRef, FRESH));
    assert!(rt; left(&ran, &[(3, 0)]));
    let ran = attempt(rt.alloc(), PUT_FIRST, FRESH, false, &[], 3);
    assert!(rt; decided(&ran, 2, PUT_FIRST, Reply::NoRef, FRESH));
    let ran = attempt(rt.alloc(), GET_THIRD, FRESH, false, &[&ROOTS, &RECORD], 8);
    assert!(rt; decided(&ran, 6, GET_THIRD, Reply::NoField, FRESH));
    assert!(rt; left(&ran, &[(5, SEVEN), (17, 0)]));
    let ran = attempt(rt.alloc(), PUT_THIRD, FRESH, false, &[&ROOTS, &RECORD], 10);
    assert!(rt; decided(&ran, 8, PUT_THIRD, Reply::NoField, FRESH));
    assert!(rt; left(&ran, &[(48, 0)]));
}

#[test]
fn pauses_at_gates_and_turns(rt: HostRuntime) {
    let call = Call::Num { root: 1, value: 7 };
    let ran = attempt(rt.alloc(), call, ASKED, false, &[&[(3, SHUT)]], 2);
    assert!(rt; undecided(&ran, Attempt::Pause(Pause::Stopped(SHUT)), FRESH));
    assert!(rt; left(&ran, &[(3, SHUT), (5, 0)]));
    let ran = attempt(
        rt.alloc(),
        GET_SECOND,
        FRESH,
        false,
        &[&[(4, FIRST), (17, SHUT)]],
        5,
    );
    assert!(rt;
        undecided(
            &ran,
            Attempt::Pause(Pause::Shut {
                tablet: 0,
                word: SHUT
            }),
            FRESH
        )
    );
    assert!(rt; left(&ran, &[(3, 0), (17, SHUT)]));
    let ran = attempt(
        rt.alloc(),
        GET_SECOND,
        FRESH,
        false,
        &[&[(4, FIRST), (18, 9), (19, 1), (24, OLD)]],
        8,
    );
    assert!(rt;
        undecided(
            &ran,
            Attempt::Pause(Pause::Busy { tablet: 0, word: 9 }),
            FRESH
        )
    );
    assert!(rt; left(&ran, &[(3, 0), (17, 0), (18, 9)]));
    let ran = attempt(rt.alloc(), NEW_ONE, FRESH, false, &[&[(21, 1)]], 8);
    assert!(rt;
        undecided(
            &ran,
            Attempt::Pause(Pause::Moving { tablet: 0, word: 1 }),
            FRESH
        )
    );
    assert!(rt; left(&ran, &[(3, 0), (17, 0), (18, 0)]));
}

#[test]
fn asks_for_a_cycle_and_waits_for_it(rt: HostRuntime) {
    let call = Call::Collect;
    let ran = attempt(rt.alloc(), call, FRESH, false, &[], 3);
    assert!(rt;
        undecided(
            &ran,
            Attempt::Pause(Pause::Cycle { wanted: 1, word: 0 }),
            ASKED
        )
    );
    assert!(rt; left(&ran, &[(1, 1)]));
    let call = Call::Collect;
    let ran = attempt(rt.alloc(), call, ASKED, false, &[&[(0, TRACE)]], 1);
    assert!(rt;
        undecided(
            &ran,
            Attempt::Pause(Pause::Cycle {
                wanted: 1,
                word: TRACE
            }),
            ASKED
        )
    );
    let call = Call::Collect;
    let ran = attempt(rt.alloc(), call, ASKED, false, &[&[(0, 1)]], 1);
    assert!(rt; decided(&ran, 1, call, Reply::Cycle(1), FRESH));
    assert!(rt; left(&ran, &[(1, 0)]));
    let call = Call::Collect;
    let ran = attempt(rt.alloc(), call, FRESH, false, &[&[(0, 5)]], 1);
    assert!(rt; decided(&ran, 1, call, Reply::Spent, FRESH));
    assert!(rt; left(&ran, &[(1, 0)]));
}

#[test]
fn finds_no_room(rt: HostRuntime) {
    let ran = attempt(rt.alloc(), NEW_ONE, FRESH, false, &[&[(20, 16)]], 9);
    assert!(rt; undecided(&ran, Attempt::Full, FRESH));
    assert!(rt; left(&ran, &[(7, 0), (3, 0)]));
    let ran = attempt(rt.alloc(), NEW_ONE, FRESH, true, &[&[(20, 16)]], 9);
    assert!(rt; decided(&ran, 9, NEW_ONE, Reply::Full, FRESH));
    assert!(rt; left(&ran, &[(7, 0), (3, 0)]));
}

#[test]
fn gets_a_field_of_a_record_that_it_moves(rt: HostRuntime) {
    let ran = attempt(
        rt.alloc(),
        GET_SECOND,
        FRESH,
        false,
        &[&[(4, FIRST)], &LEFT_RECORD],
        22,
    );
    assert!(rt;
        decided(
            &ran,
            19,
            GET_SECOND,
            Reply::Value(Value::Ref(ENTRY_ONE)),
            FRESH
        )
    );
    assert!(rt;
        left(
            &ran,
            &[
                (5, FIRST),
                (18, 0),
                (20, 5),
                (24, NEW),
                (45, 2),
                (46, SEVEN),
                (47, FIRST)
            ]
        )
    );
}

#[test]
fn makes_an_object(rt: HostRuntime) {
    let ran = attempt(
        rt.alloc(),
        NEW_ONE,
        FRESH,
        false,
        &[&[(0, TRACE), (23, BOARD), (20, 2)]],
        17,
    );
    assert!(rt; decided(&ran, 13, NEW_ONE, Reply::Made(ENTRY_ONE), FRESH));
    assert!(rt;
        left(
            &ran,
            &[
                (7, FIRST),
                (20, 4),
                (24, 0x8000_0000_0080_001d),
                (29, 1),
                (18, 0),
                (17, 0),
                (3, 0)
            ]
        )
    );
}

#[test]
fn pauses_at_a_barrier_slot_that_is_filled(rt: HostRuntime) {
    let ran = attempt(
        rt.alloc(),
        PUT_FIRST,
        FRESH,
        false,
        &[&[(0, TRACE), (4, FIRST), (8, FIRST)], &SELF_RECORD],
        12,
    );
    assert!(rt;
        undecided(
            &ran,
            Attempt::Pause(Pause::Barrier {
                slot: 0,
                word: FIRST
            }),
            FRESH
        )
    );
    assert!(rt; left(&ran, &[(46, FIRST), (8, FIRST), (3, 0), (17, 0)]));
}

#[test]
fn records_an_overwritten_name_while_the_servers_trace(rt: HostRuntime) {
    let ran = attempt(
        rt.alloc(),
        PUT_FIRST,
        SECOND,
        false,
        &[&[(0, TRACE), (4, FIRST), (5, SEVEN)], &SELF_RECORD],
        14,
    );
    assert!(rt; decided(&ran, 12, PUT_FIRST, Reply::Done, FRESH));
    assert!(rt; left(&ran, &[(9, FIRST), (8, 0), (46, SEVEN)]));
    let ran = attempt(
        rt.alloc(),
        PUT_FIRST,
        FRESH,
        false,
        &[&[
            (0, TRACE),
            (4, FIRST),
            (5, SEVEN),
            (19, 1),
            (24, NEW),
            (45, 2),
            (46, SEVEN),
        ]],
        12,
    );
    assert!(rt; decided(&ran, 10, PUT_FIRST, Reply::Done, FRESH));
    assert!(rt; left(&ran, &[(8, 0), (46, SEVEN)]));
}

/// Whether a new object gets the first free entry behind so many taken ones, in the steps that are its due.
fn makes(alloc: Global, entry: u32, fields: u8) -> bool
    requires entry { entry < 4 }
    requires fields { fields ≤ 14 }
{
    let call = Call::New { root: 3, fields };
    let taken = [(23, BOARD), (24, BOARD), (25, BOARD)];
    let given = [&[(0, TRACE), (20, 1)], &taken[..entry as usize]];
    let more = u32::from(fields) + entry;
    let ran = attempt(alloc, call, FRESH, false, &given, 15 + more);
    let name = Name {
        entry,
        generation: 0,
    };
    decided(&ran, 11 + more, call, Reply::Made(name), FRESH)
        && left(
            &ran,
            &[
                (7, Value::Ref(name).pack()),
                (20, u64::from(fields) + 2),
                (28, u64::from(fields)),
                (18, 0),
                (17, 0),
                (3, 0),
            ],
        )
}

#[test]
fn makes_objects_of_each_size_at_each_entry(rt: HostRuntime) {
    for entry in 0..4 {
        for fields in 0..15 {
            assert!(rt; makes(rt.alloc(), entry, fields));
        }
    }
}
