//! Worked scripts by the core alone: a word of the table, and journals in the plain heap and before the judge.

ghost use Rattle.std.specs.Prelude.{◌≡◌};

use mako_core::Core;
use mako_judge::{Setup, Verdict, judge};
use mako_model::{Immortal, Point, reach};
use mako_script::{Script, parse};
use mako_step::FlatWords;
use mako_words::{Memory, Name};
use std::alloc::Global;
use std::test::Fail;

/// More rounds of steps than any script here takes.
const ROUNDS: u32 = 1000;

/// The third object finds no room until a cycle has freed the first and moved the second.
const USED_AGAIN: &[u8] =
    b"mako 1\nservers 1\ntablets 1\nentries 4\nwords 16\nspare 1\nring 2\nroots 4\ncycles 10\ngens 8\nboard 1\nmutator\nnew a 6\nnew b 5\ndrop a\nnew c 6\nshow b\nend\n";

/// Two dropped objects on two servers name each other.
const CIRCLE: &[u8] =
    b"mako 1\nservers 2\ntablets 1\nentries 2\nwords 16\nspare 1\nring 2\nroots 4\ncycles 10\ngens 8\nboard 1\nmutator\nnew a 1\nnew b 1\nput a 0 b\nput b 0 a\ndrop a\ndrop b\ncollect\nend\n";

/// Scripts with one tablet: a number that is read back and no calls at all, null and a field that is not there, two
/// mutators at the board, a retired entry and a starved `new` among them.
const OF_ONE_TABLET: [&[u8]; 12] = [
    b"mako 1\nservers 1\ntablets 1\nentries 4\nwords 16\nspare 1\nring 2\nroots 4\ncycles 10\ngens 8\nboard 1\nmutator\nnew a 1\nnum n 7\nput a 0 n\nget b a 0\nend\n",
    b"mako 1\nservers 1\ntablets 1\nentries 4\nwords 16\nspare 1\nring 2\nroots 4\ncycles 10\ngens 8\nboard 1\nmutator\nend\n",
    b"mako 1\nservers 1\ntablets 1\nentries 4\nwords 16\nspare 1\nring 2\nroots 4\ncycles 10\ngens 8\nboard 1\nmutator\nnew a 1\nget b a 0\nget c b 0\nend\n",
    b"mako 1\nservers 1\ntablets 1\nentries 4\nwords 16\nspare 1\nring 2\nroots 4\ncycles 10\ngens 8\nboard 1\nmutator\nnew a 1\nget b a 1\nget b a 0\nput a 1 a\nshow a\nend\n",
    b"mako 1\nservers 1\ntablets 1\nentries 4\nwords 16\nspare 1\nring 2\nroots 4\ncycles 10\ngens 8\nboard 1\nmutator\nnum n 7\nput board 0 n\nend\nmutator\nget b board 0\nend\n",
    b"mako 1\nservers 1\ntablets 1\nentries 4\nwords 16\nspare 1\nring 2\nroots 4\ncycles 10\ngens 8\nboard 1\nmutator\nnum n 7\nput board 0 n\nend\nmutator\nshow board\nshow board\nshow board\nget b board 0\nend\n",
    USED_AGAIN,
    b"mako 1\nservers 1\ntablets 1\nentries 2\nwords 16\nspare 1\nring 2\nroots 4\ncycles 10\ngens 8\nboard 1\nmutator\nnew a 1\nnew b 1\nend\n",
    b"mako 1\nservers 1\ntablets 1\nentries 2\nwords 16\nspare 1\nring 2\nroots 4\ncycles 10\ngens 1\nboard 1\nmutator\nnew a 0\ndrop a\nnew b 0\nend\n",
    b"mako 1\nservers 1\ntablets 1\nentries 4\nwords 16\nspare 1\nring 2\nroots 4\ncycles 10\ngens 8\nboard 1\nmutator\nnew a 1\nput a 0 a\ndrop a\ncollect\ncollect\nend\n",
    b"mako 1\nservers 1\ntablets 1\nentries 1\nwords 16\nspare 1\nring 2\nroots 4\ncycles 0\ngens 8\nboard 1\nmutator\nnew a 0\nshow board\nend\n",
    b"mako 1\nservers 1\ntablets 1\nentries 4\nwords 16\nspare 1\nring 2\nroots 4\ncycles 0\ngens 8\nboard 1\nmutator\ncollect\nend\n",
];

/// Scripts with two servers of one tablet each, a chain that crosses over between them among these.
const OF_TWO_TABLETS: [&[u8]; 3] = [
    CIRCLE,
    b"mako 1\nservers 2\ntablets 1\nentries 2\nwords 16\nspare 1\nring 2\nroots 4\ncycles 10\ngens 8\nboard 1\nmutator\nnew a 1\nnew b 1\nput a 0 b\ndrop b\ncollect\nget c a 0\nend\n",
    b"mako 1\nservers 2\ntablets 1\nentries 6\nwords 16\nspare 1\nring 1\nroots 11\ncycles 10\ngens 8\nboard 1\nmutator\nnew a 1\nnew b 1\nnew c 1\nnew d 1\nnew e 1\nnew f 1\nnew g 1\nnew h 1\nnew i 1\nnew j 1\nput a 0 f\nput f 0 b\nput b 0 g\nput g 0 c\nput c 0 h\nput h 0 d\nput d 0 i\nput i 0 e\nput e 0 j\ndrop b\ndrop c\ndrop d\ndrop e\ndrop f\ndrop g\ndrop h\ndrop i\ndrop j\ncollect\nend\n",
];

/// Two mutators share a list while a third waits for a cycle, on two servers of two tablets each.
const SHARED_LIST: &[u8] =
    b"mako 1\nservers 2\ntablets 2\nentries 16\nwords 64\nspare 1\nring 4\nroots 8\ncycles 10\ngens 100\nboard 4\nmutator\nnew a 2\nnum x 10\nput a 0 x\nnew b 2\nnum x 20\nput b 0 x\nput a 1 b\nput board 0 a\ndrop a\ndrop b\nend\nmutator\nget h board 0\nget v h 0\nget t h 1\nget w t 0\nend\nmutator\nnew g 3\ndrop g\ncollect\nend\n";

fn script_of(alloc: Global, text: &[u8]) -> Result<Script, Memory> {
    parse(alloc, text).map_err(|_| Memory)
}

/// Steps all seats in rounds.
fn run(core: &mut Core<FlatWords>) {
    let seats = core.seats();
    for _round in 0..ROUNDS {
        for seat in 0..seats {
            let _turn = core.step(seat);
        }
    }
}

fn setup_of(alloc: Global, script: &Script, tablets: u32) -> Result<Setup, Fail> {
    let numbers = script.shape.numbers();
    let mut programs = Vec::new(alloc);
    for program in &script.programs {
        programs.push(Vec::from_slice(alloc, &program.calls)?)?;
    }
    Ok(Setup {
        roots: numbers.roots,
        board: script.board,
        tablets,
        entries: numbers.entries,
        words: numbers.words,
        cycles: numbers.cycles,
        generations: numbers.generations,
        programs,
    })
}

/// What the judge says of the history and the finished cycles of the script, carried out in rounds.
fn judged(alloc: Global, text: &[u8], tablets: u32) -> Result<Verdict, Fail> {
    let script = script_of(alloc, text)?;
    let setup = setup_of(alloc, &script, tablets)?;
    let mut core = Core::<FlatWords>::start(alloc, &script)?;
    run(&mut core);
    Ok(judge(alloc, &setup, core.journal(), core.cycles())?)
}

#[test]
fn histories_answer_to_the_end(rt: HostRuntime) -> Result<(), Fail> {
    for text in OF_ONE_TABLET {
        assert_eq!(rt; judged(rt.alloc(), text, 1)?, Verdict::ToTheEnd);
    }
    for text in OF_TWO_TABLETS {
        assert_eq!(rt; judged(rt.alloc(), text, 2)?, Verdict::ToTheEnd);
    }
    assert_eq!(rt; judged(rt.alloc(), SHARED_LIST, 4)?, Verdict::ToTheEnd);
    Ok(())
}

#[test]
fn an_entry_is_used_again(rt: HostRuntime) -> Result<(), Fail> {
    let script = script_of(rt.alloc(), USED_AGAIN)?;
    let mut core = Core::<FlatWords>::start(rt.alloc(), &script)?;
    run(&mut core);
    assert_eq!(rt; core.shape().words(), 59);
    // the entry of 1#1: taken, of generation 1 and epoch 1, at word 51
    assert_eq!(rt; core.word(24), 0x8000_0800_0080_0033);
    Ok(())
}

#[test]
fn dropped_objects_are_unreachable_at_the_snapshot(rt: HostRuntime) -> Result<(), Fail> {
    let script = script_of(rt.alloc(), CIRCLE)?;
    let mut core = Core::<FlatWords>::start(rt.alloc(), &script)?;
    run(&mut core);
    let mut heap = Immortal::start(rt.alloc(), 1, 4, 1, 10)?;
    for index in 0..core.journal().len() {
        let point = core.journal().get(index);
        if let Point::Snap { cycle: _ } = point {
            let board = Name {
                entry: 0,
                generation: 0,
            };
            let found = reach(rt.alloc(), &heap)?;
            assert_eq!(rt; found.len(), 1);
            assert!(rt; found.contains(&board));
        }
        assert!(rt; heap.apply(point)?);
    }
    Ok(())
}
