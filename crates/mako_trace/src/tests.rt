//! Turns of two servers, each with two tablets of four entries, and rings of one slot. Words are written
//! by their indexes: flags from 6 on, work rings from 8, ghost rings from 10, live counts from 36,
//! entries from 40 and regions from 56.

ghost use Rattle.std.specs.Prelude.{◌≡◌, ◌<◌, true, length};
ghost use Rattle.mako_shape.specs.Belongings.{IsAddress};
ghost use Rattle.mako_step.specs.Acts.{FitsOp, found};
ghost use Rattle.mako_ring.specs.Tracing as tracing;
ghost use Rattle.mako_trace.specs.Held.{tracer_in};

use crate::Tracer;
use crate::holdings::Holdings;
use crate::words::entry_of;
use mako_ring::{MarkStage, ReceiveStage, ScanStage, TraceStage};
use mako_shape::{Numbers, Shape};
use mako_step::{Act, FlatWords, Machine, Op, Step, Words, make_step};
use mako_words::{EntryWord, LiveWord, Name, Value};
use std::test::Fail;

const NUMBERS: Numbers = Numbers {
    mutators: 1,
    servers: 2,
    tablets: 2,
    entries: 4,
    words: 16,
    spare: 1,
    ring: 1,
    roots: 1,
    cycles: 5,
    generations: 1,
};

/// The words of all areas.
const COUNT: u32 = 152;

/// The cycle of the turns.
const CYCLE: u32 = 3;

/// The word of entry 0's name, and that of a taken entry.
const TAKEN: u64 = 0x8000_0000_0000_0000;

/// The epoch of the cycle in an entry's word.
const EPOCH: u64 = 3 * 0x80_0000;

/// A count of no words, of the cycle.
const COUNTED: u64 = 3 * 0x1_0000_0000;

/// Whether the name is one of an entry in range.
fn is_named(holdings: &Holdings, name: Name) -> bool
    ensures { result ≡ true → tracing.IsNamed holdings.now.shape name }
{
    let numbers = holdings.shape.numbers();
    name.entry < numbers.servers * numbers.tablets * numbers.entries
}

/// Whether this is the index of a word of the regions.
fn is_address(holdings: &Holdings, address: u32) -> bool
    ensures { result ≡ true → IsAddress holdings.now.shape address }
{
    let _numbers = holdings.shape.numbers();
    holdings.shape.region(0) <= address && address < holdings.shape.words()
}

/// Whether the record at this address, with so many fields, lies within the words.
fn record_fits(holdings: &Holdings, address: u32, fields: u64) -> bool
    ensures { result ≡ true → tracing.RecordFits holdings.now.shape address fields }
{
    fields <= 14 && u64::from(address) + fields < u64::from(holdings.shape.words())
}

/// Whether a server can go on with this word at a stage.
fn fits(holdings: &Holdings, stage: TraceStage, word: u64) -> bool
    ensures { result ≡ true → tracing.Fits (tracer_in holdings.now stage) word }
{
    match stage {
        TraceStage::Scanning(ScanStage::FieldLoad(_)) => match Value::unpack(word) {
            Some(Value::Ref(name)) => is_named(holdings, name),
            Some(_) => true,
            None => false,
        },
        TraceStage::Scanning(ScanStage::EntryLoad(_))
        | TraceStage::Marking(MarkStage::Considering(_)) => {
            is_address(holdings, entry_of(word).address)
        }
        TraceStage::Scanning(ScanStage::HeaderLoad { address, .. }) => {
            record_fits(holdings, address, word)
        }
        TraceStage::Receiving(ReceiveStage::SlotLook(_)) => match Value::unpack(word) {
            Some(Value::Null) => true,
            Some(Value::Ref(name)) => {
                is_named(holdings, name) && holdings.owner(name) == holdings.server
            }
            _ => false,
        },
        TraceStage::Marking(MarkStage::Measuring { name, entry }) => {
            record_fits(holdings, entry.address, word)
                && is_named(holdings, name)
                && match holdings.lives.get(holdings.own_tablet(name)) {
                    Some(live) => u64::from(*live) + (word + 1) < 0x1_0000_0000,
                    None => false,
                }
        }
        TraceStage::Marking(MarkStage::Counting { .. }) => {
            let numbers = holdings.shape.numbers();
            holdings.stack.len() < (numbers.tablets * numbers.entries) as usize
        }
        _ => true,
    }
}

/// Whether the tracer can go on with this operation on a word that is `before`.
fn can_go_on(tracer: &Tracer, op: Op, before: u64) -> bool
    ensures op { result ≡ true → FitsOp op before }
    ensures fits { result ≡ true → tracing.Fits tracer.now (found op before) }
{
    match op {
        Op::Load | Op::Or(_) | Op::And(_) => fits(&tracer.holdings, tracer.stage, before),
        Op::Store(_) => fits(&tracer.holdings, tracer.stage, 0),
        _ => false,
    }
}

fn put(words: &mut FlatWords, word: u32, new: u64)
    requires { length words.old ≡ COUNT }
    ensures { length words.new ≡ COUNT }
{
    if word < COUNT {
        words.act(Act {
            word,
            op: Op::Store(new),
        });
    }
}

/// Makes a step, and begins a turn where one has ended. Answers what it did, or `None` where it comes to
/// a word that it cannot go on with.
fn step(tracer: &mut Tracer, words: &mut FlatWords) -> Option<Step>
    requires { length words.old ≡ COUNT }
    ensures { length words.new ≡ COUNT }
{
    let next = tracer.next();
    let Step::Do(act) = next else {
        return if begin(tracer, CYCLE) {
            Some(next)
        } else {
            None
        };
    };
    if act.word >= COUNT || !can_go_on(tracer, act.op, words.word(act.word)) {
        return None;
    }
    make_step(tracer, words);
    Some(next)
}

/// Makes so many steps, or fewer where it comes to a word that it cannot go on with.
fn run(tracer: &mut Tracer, words: &mut FlatWords, steps: u32)
    requires { length words.old ≡ COUNT }
    ensures { length words.new ≡ COUNT }
{
    for _ in 0..steps {
        step(tracer, words);
    }
}

/// Begins a turn of a cycle, where the turn before has ended.
fn begin(tracer: &mut Tracer, cycle: u32) -> bool {
    let can = 1 <= cycle && cycle <= tracer.holdings.shape.numbers().cycles;
    if tracer.next() == Step::Ended && can {
        tracer.begin(cycle);
        return true;
    }
    false
}

/// Whether the tracer makes these acts, one after the other.
fn makes(tracer: &mut Tracer, words: &mut FlatWords, acts: &[(u32, Op)]) -> bool
    requires { length words.old ≡ COUNT }
    ensures { length words.new ≡ COUNT }
{
    for &(word, op) in acts {
        if step(tracer, words) != Some(Step::Do(Act { word, op })) {
            return false;
        }
    }
    true
}

/// The entry of the list's object with this number: every other object is one of server 1.
fn entry_at(number: u32) -> u32
    requires { number < 10 }
    ensures { result < 16 }
{
    number % 2 * 8 + number / 2
}

/// A list of ten objects, each with the next in its last field. Their records have 1, 2, 3, 1, 2, 3, ..
/// fields.
fn put_list(words: &mut FlatWords)
    requires { length words.old ≡ COUNT }
    ensures { length words.new ≡ COUNT }
{
    for number in 0..10 {
        let address = 56 + 4 * number;
        let fields = 1 + number % 3;
        put(words, 40 + entry_at(number), TAKEN + u64::from(address));
        put(words, address, u64::from(fields));
        if number < 9 {
            let next = TAKEN + u64::from(entry_at(number + 1));
            put(words, address + fields, next);
        }
    }
}

/// Whether this is a store to an entry.
fn marks(step: Step) -> bool {
    match step {
        Step::Do(
            Act {
                word,
                op: Op::Store(_),
            },
        ) => 40 <= word && word < 56,
        _ => false,
    }
}

/// Two servers make so many steps each, in turn. Answers how often they stored an entry.
fn trace(first: &mut Tracer, second: &mut Tracer, words: &mut FlatWords, steps: u32) -> Option<u32>
    requires { length words.old ≡ COUNT }
    ensures { length words.new ≡ COUNT }
{
    let mut marked = 0u32;
    for _ in 0..steps {
        let done = [step(first, words)?, step(second, words)?];
        marked = marked.saturating_add(u32::from(marks(done[0])));
        marked = marked.saturating_add(u32::from(marks(done[1])));
    }
    Some(marked)
}

#[test]
fn makes_each_part_of_a_turn(rt: HostRuntime) -> Result<(), Fail> {
    let mut words = FlatWords::zeros(rt.alloc(), COUNT)?;
    let mut tracer = Tracer::new(rt.alloc(), Shape::new(NUMBERS)?, 0)?;
    put_list(&mut words);
    // its work ring holds the name of entry 0, the first of the list, and the next is one of server 1
    put(&mut words, 8, TAKEN);
    assert!(rt; begin(&mut tracer, CYCLE));
    let receives = [(8, Op::Load), (6, Op::Or(5)), (8, Op::Store(0))];
    assert!(rt; makes(&mut tracer, &mut words, &receives));
    let considers = [
        (40, Op::Load),
        (56, Op::Load),
        (40, Op::Store(TAKEN + EPOCH + 56)),
        (36, Op::Store(COUNTED + 2)),
    ];
    assert!(rt; makes(&mut tracer, &mut words, &considers));
    let scans = [(40, Op::Load), (56, Op::Load), (57, Op::Load)];
    assert!(rt; makes(&mut tracer, &mut words, &scans));
    let sends = [(11, Op::Load), (6, Op::Or(6)), (11, Op::Store(TAKEN + 8))];
    assert!(rt; makes(&mut tracer, &mut words, &sends));
    // with nothing in hand busy is lowered, and ghost stays up until the other server has taken the name
    let rests = [
        (8, Op::Load),
        (12, Op::Load),
        (6, Op::And(!1)),
        (11, Op::Load),
    ];
    assert!(rt; makes(&mut tracer, &mut words, &rests));
    assert_eq!(rt; tracer.next(), Step::Ended);
    assert_eq!(rt; words.word(6), 6);
    put(&mut words, 11, 0);
    assert!(rt; begin(&mut tracer, CYCLE));
    let lowers = [
        (8, Op::Load),
        (12, Op::Load),
        (11, Op::Load),
        (6, Op::And(!2)),
    ];
    assert!(rt; makes(&mut tracer, &mut words, &lowers));
    assert_eq!(rt; tracer.next(), Step::Ended);
    assert_eq!(rt; words.word(6), 4);
    Ok(())
}

#[test]
fn keeps_a_name_whose_slot_is_filled(rt: HostRuntime) -> Result<(), Fail> {
    let mut words = FlatWords::zeros(rt.alloc(), COUNT)?;
    let mut tracer = Tracer::new(rt.alloc(), Shape::new(NUMBERS)?, 0)?;
    put_list(&mut words);
    put(&mut words, 8, TAKEN);
    put(&mut words, 11, TAKEN + 9);
    assert!(rt; begin(&mut tracer, CYCLE));
    run(&mut tracer, &mut words, 10);
    // the slot is filled, so it looks at the incoming rings, and then at the slot again
    let looks = [
        (11, Op::Load),
        (8, Op::Load),
        (12, Op::Load),
        (11, Op::Load),
    ];
    assert!(rt; makes(&mut tracer, &mut words, &looks));
    put(&mut words, 11, 0);
    let sends = [
        (8, Op::Load),
        (12, Op::Load),
        (11, Op::Load),
        (6, Op::Or(6)),
        (11, Op::Store(TAKEN + 8)),
    ];
    assert!(rt; makes(&mut tracer, &mut words, &sends));
    Ok(())
}

#[test]
fn two_servers_mark_a_list_once(rt: HostRuntime) -> Result<(), Fail> {
    let mut words = FlatWords::zeros(rt.alloc(), COUNT)?;
    let shape = Shape::new(NUMBERS)?;
    let mut first = Tracer::new(rt.alloc(), shape, 0)?;
    let mut second = Tracer::new(rt.alloc(), shape, 1)?;
    put_list(&mut words);
    put(&mut words, 8, TAKEN);
    assert_eq!(rt; trace(&mut first, &mut second, &mut words, 400), Some(10));
    for number in 0..10 {
        let marked = TAKEN + EPOCH + u64::from(56 + 4 * number);
        assert_eq!(rt; words.word(40 + entry_at(number)), marked);
    }
    // tablet by tablet: records of 2, 4, 3, 2 words; 4; 3, 2, 4, 3; and 2
    let lives = [11, 4, 12, 2];
    for (tablet, live) in lives.iter().enumerate() {
        assert_eq!(rt; words.word(36 + tablet as u32), COUNTED + live);
    }
    // neither busy nor ghost is up, and all rings are empty
    assert_eq!(rt; words.word(6), 4);
    assert_eq!(rt; words.word(7), 4);
    for slot in 8..14 {
        assert_eq!(rt; words.word(slot), 0);
    }
    Ok(())
}

#[test]
fn counts_anew_in_another_cycle(rt: HostRuntime) -> Result<(), Fail> {
    let mut words = FlatWords::zeros(rt.alloc(), COUNT)?;
    let mut tracer = Tracer::new(rt.alloc(), Shape::new(NUMBERS)?, 1)?;
    put_list(&mut words);
    // the last of the list, in server 1's second tablet
    put(&mut words, 9, TAKEN + 12);
    run(&mut tracer, &mut words, 14);
    assert_eq!(rt; tracer.holdings.lives.as_slice(), [0u32, 2].as_slice());
    assert!(rt; begin(&mut tracer, CYCLE));
    assert_eq!(rt; tracer.holdings.lives.as_slice(), [0u32, 2].as_slice());
    run(&mut tracer, &mut words, 2);
    assert!(rt; begin(&mut tracer, CYCLE + 1));
    assert_eq!(rt; tracer.holdings.lives.as_slice(), [0u32, 0].as_slice());
    Ok(())
}
