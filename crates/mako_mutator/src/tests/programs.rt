//! Whole programs.

ghost use Rattle.std.specs.Prelude.{◌≡◌, length, IfSome};

use super::{BOARD, COUNT, ENTRY_ONE, carry_out, heap, store};
use crate::{Driver, Place};
use mako_model::Reply;
use mako_script::parse;
use mako_step::{FlatWords, Machine, Step, Words};
use mako_words::Value;
use std::alloc::Global;

/// How far a driver came with its program, what it had replied then, and the words that it left.
#[derive(Drop)]
struct Driven {
    place: Place,
    replies: Vec<Reply>,
    words: FlatWords,
}

/// Makes so many steps. Whether the driver had them, and could go on with each word that they found.
fn advance(driver: &mut Driver, words: &mut FlatWords, steps: u32) -> bool
    requires { length words.old ≡ COUNT }
    ensures { length words.new ≡ COUNT }
{
    for _ in 0..steps {
        let Step::Do(act) = driver.next() else {
            return false;
        };
        let Some(found) = carry_out(words, act) else {
            return false;
        };
        if !driver.can_go_on(found) {
            return false;
        }
        let _event = driver.feed(found);
    }
    true
}

/// What others store while a driver waits, and the steps that it makes after that.
#[derive(Clone, Copy)]
struct Later<'a> {
    stored: &'a [(u32, u64)],
    steps: u32,
}

/// Nothing is stored, and no step is made.
const NOTHING: Later<'static> = Later {
    stored: &[],
    steps: 0,
};

/// Drives the one program of this text so many steps on words that are 0 but for those given, and then on.
/// `None` where the text is no script with this program, or where the driver cannot make the steps.
fn drive(
    alloc: Global,
    text: &[u8],
    given: &[(u32, u64)],
    steps: u32,
    later: Later,
) -> Option<Driven>
    ensures { IfSome result (λ driven. length driven.words ≡ COUNT) }
{
    let script = parse(alloc, text).ok()?;
    if script.programs.len() != 1 {
        return None;
    }
    let mut driver = Driver::new(alloc, &script, 0).ok()?;
    let mut words = heap(alloc, given)?;
    if !advance(&mut driver, &mut words, steps) || !store(&mut words, later.stored) {
        return None;
    }
    if !advance(&mut driver, &mut words, later.steps) {
        return None;
    }
    let place = driver.place();
    let replies = driver.into_replies();
    Some(Driven {
        place,
        replies,
        words,
    })
}

/// The usual geometry, and a program that sets its first root to 7.
const NUM: &[u8] =
    b"mako 1\nservers 1\ntablets 1\nentries 4\nwords 16\nspare 1\nring 2\nroots 4\ncycles 5\ngens 3\nboard 1\nmutator\nnum n 7\nend\n";

/// The usual geometry, and a program that makes an object of one field.
const MAKE: &[u8] =
    b"mako 1\nservers 1\ntablets 1\nentries 4\nwords 16\nspare 1\nring 2\nroots 4\ncycles 5\ngens 3\nboard 1\nmutator\nnew a 1\nend\n";

/// Whether it came so far with these replies, and the words 1 and 2, the demand and the number of
/// finished programs, are these.
fn came(driven: Option<Driven>, place: Place, replies: &[Reply], demand: u64, finished: u64) -> bool
    requires { IfSome driven (λ d. length d.words ≡ COUNT) }
{
    match driven {
        Some(driven) => {
            driven.place == place
                && driven.replies.as_slice() == replies
                && driven.words.word(1) == demand
                && driven.words.word(2) == finished
        }
        None => false,
    }
}

#[test]
fn drives_a_program_to_its_end(rt: HostRuntime) {
    let seven = [Reply::Value(Value::Num(7))];
    let begun = drive(rt.alloc(), NUM, &[], 0, NOTHING);
    assert!(rt; came(begun, Place::Before(0), &[], 0, 0));
    let arrived = drive(rt.alloc(), NUM, &[], 1, NOTHING);
    assert!(rt; came(arrived, Place::Within(0), &[], 0, 0));
    let decided = drive(rt.alloc(), NUM, &[], 2, NOTHING);
    assert!(rt; came(decided, Place::Within(0), &seven, 0, 0));
    let answered = drive(rt.alloc(), NUM, &[], 3, NOTHING);
    assert!(rt; came(answered, Place::Before(1), &seven, 0, 0));
    let ended = drive(rt.alloc(), NUM, &[], 4, NOTHING);
    assert!(rt; came(ended, Place::Ended, &seven, 0, 1));
}

#[test]
fn waits_for_a_cycle_where_there_is_no_room(rt: HostRuntime) {
    let waits = drive(rt.alloc(), MAKE, &[(20, 16)], 13, NOTHING);
    assert!(rt; came(waits, Place::Within(0), &[], 1, 0));
}

#[test]
fn makes_its_last_attempt_at_once_where_no_cycle_is_left(rt: HostRuntime) {
    let full = drive(rt.alloc(), MAKE, &[(0, 5), (20, 16)], 20, NOTHING);
    assert!(rt; came(full, Place::Ended, &[Reply::Full], 0, 1));
}

#[test]
fn makes_its_last_attempt_once_the_cycle_has_ended(rt: HostRuntime) {
    let later = Later {
        stored: &[(0, 1), (20, 2), (23, BOARD)],
        steps: 19,
    };
    let made = drive(rt.alloc(), MAKE, &[(20, 16)], 13, later);
    assert!(rt; came(made, Place::Ended, &[Reply::Made(ENTRY_ONE)], 1, 1));
}
