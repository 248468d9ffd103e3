//! The calls that may find no memory, on heaps and journals that have it.

use crate::call::Call;
use crate::cycles::Cycles;
use crate::immortal::Immortal;
use crate::journal::Journal;
use crate::point::Point;
use crate::reply::Reply;
use crate::search::reach;
use mako_words::{Name, Value};
use std::test::Fail;

fn name(entry: u32) -> Name {
    Name {
        entry,
        generation: 0,
    }
}

fn did(call: Call, reply: Reply) -> Point {
    Point::Did {
        mutator: 0,
        call,
        reply,
    }
}

fn new_object(root: u8, entry: u32) -> Point {
    did(Call::New { root, fields: 1 }, Reply::Made(name(entry)))
}

#[test]
fn objects_that_name_each_other_alone_are_not_reached(rt: HostRuntime) -> Result<(), Fail> {
    let mut heap = Immortal::start(rt.alloc(), 1, 4, 1, 10)?;
    let points = [
        new_object(1, 1),
        new_object(2, 2),
        did(
            Call::Put {
                to: 1,
                field: 0,
                from: 2,
            },
            Reply::Done,
        ),
        did(
            Call::Put {
                to: 2,
                field: 0,
                from: 1,
            },
            Reply::Done,
        ),
        did(Call::DropRoot { root: 1 }, Reply::Done),
        did(Call::DropRoot { root: 2 }, Reply::Done),
    ];
    for point in &points {
        assert!(rt; heap.apply(*point)?);
    }
    let reached = reach(rt.alloc(), &heap)?;
    assert_eq!(rt; reached.len(), 1);
    assert!(rt; reached.contains(&name(0)));
    assert!(rt; heap.apply(Point::Snap { cycle: 1 })?);
    assert!(rt; heap.apply(did(Call::Collect, Reply::Cycle(1)))?);
    Ok(())
}

#[test]
fn unlawful_points_change_nothing(rt: HostRuntime) -> Result<(), Fail> {
    let mut heap = Immortal::start(rt.alloc(), 1, 3, 1, 1)?;
    assert!(rt; heap.apply(new_object(1, 1))?);
    assert!(rt; heap.apply(did(Call::Num { root: 2, value: 7 }, Reply::Value(Value::Num(7))))?);
    let unlawful = [
        new_object(2, 1),
        did(Call::New { root: 3, fields: 1 }, Reply::Full),
        did(Call::Num { root: 0, value: 8 }, Reply::Value(Value::Num(9))),
        did(Call::CopyRoot { to: 0, from: 2 }, Reply::Value(Value::Null)),
        did(Call::DropRoot { root: 3 }, Reply::Done),
        did(Call::Show { root: 2 }, Reply::Value(Value::Null)),
        did(
            Call::Get {
                to: 0,
                from: 1,
                field: 0,
            },
            Reply::Value(Value::Num(7)),
        ),
        did(
            Call::Put {
                to: 1,
                field: 1,
                from: 2,
            },
            Reply::Done,
        ),
        did(
            Call::Get {
                to: 0,
                from: 1,
                field: 0,
            },
            Reply::NoRef,
        ),
        did(
            Call::Put {
                to: 1,
                field: 0,
                from: 2,
            },
            Reply::NoRef,
        ),
        did(
            Call::Get {
                to: 0,
                from: 1,
                field: 0,
            },
            Reply::NoField,
        ),
        did(
            Call::Put {
                to: 2,
                field: 0,
                from: 1,
            },
            Reply::NoField,
        ),
        did(Call::Collect, Reply::Cycle(1)),
        did(Call::Collect, Reply::Spent),
        Point::Snap { cycle: 2 },
    ];
    for point in &unlawful {
        assert!(rt; !heap.apply(*point)?);
    }
    let lawful = [
        did(Call::Show { root: 0 }, Reply::Value(Value::Ref(name(0)))),
        did(
            Call::Get {
                to: 2,
                from: 1,
                field: 0,
            },
            Reply::Value(Value::Null),
        ),
        Point::Snap { cycle: 1 },
        did(Call::Collect, Reply::Spent),
    ];
    for point in &lawful {
        assert!(rt; heap.apply(*point)?);
    }
    Ok(())
}

#[test]
fn a_journal_keeps_its_points(rt: HostRuntime) -> Result<(), Fail> {
    let mut journal = Journal::with_room(rt.alloc(), 2)?;
    journal.push(Point::Snap { cycle: 1 });
    journal.push(new_object(1, 1));
    assert_eq!(rt; journal.len(), 2);
    assert_eq!(rt; journal.get(1), new_object(1, 1));
    Ok(())
}

#[test]
fn finished_cycles_keep_their_names(rt: HostRuntime) -> Result<(), Fail> {
    let mut cycles = Cycles::with_room(rt.alloc(), 3, 2)?;
    cycles.push(&[name(1), name(4)]);
    cycles.push(&[name(2)]);
    assert_eq!(rt; cycles.len(), 2);
    assert_eq!(rt; cycles.freed(1), [name(1), name(4)].as_slice());
    assert_eq!(rt; cycles.freed(2), [name(2)].as_slice());
    Ok(())
}
