//! The words of a heap at the start.

ghost use Rattle.std.specs.Prelude.{◌≡◌, ◌+◌, ◌*◌, ◌<◌, ◌≤◌, length, slice_set, IfOk};
ghost use Rattle.mako_shape.specs.Belongings.{opening_home};
ghost use Rattle.mako_shape.specs.Places.{total};
ghost use Rattle.mako_state.specs.Openings.{board_roots, first_homes, board_places, written, words_at_start};

use mako_script::Script;
use mako_shape::Shape;
use mako_step::{Act, Op, Words};
use mako_words::{EntryWord, Memory, Name, Value};
use std::alloc::Global;

/// The board's name.
const BOARD: Name = Name {
    entry: 0,
    generation: 0,
};

/// Changes the word with this index.
fn store<W: Words>(words: &mut W, index: u32, word: u64)
    requires { index < length (W.words words.old) }
    ensures { W.words words.new ≡ slice_set (W.words words.old) index word }
{
    let _found = words.act(Act {
        word: index,
        op: Op::Store(word),
    });
}

/// Root 0 of each mutator names the board.
fn name_board<W: Words>(shape: &Shape, words: &mut W)
    requires { length (W.words words.old) ≡ total shape.now }
    ensures { W.words words.new ≡ written shape.now (W.words words.old) (board_roots shape.now.mutators) }
{
    let numbers = shape.numbers();
    let name = Value::Ref(BOARD).pack();
    for mutator in (0..numbers.mutators).rev() {
        store(words, shape.root(mutator, 0), name);
    }
}

/// The home of a tablet at the start.
fn opening_home(shape: &Shape, tablet: u32) -> u32
    requires { tablet < shape.now.servers * shape.now.tablets }
    ensures { result ≡ opening_home shape.now tablet }
{
    let numbers = shape.numbers();
    tablet / numbers.tablets * (numbers.tablets + numbers.spare) + tablet % numbers.tablets
}

/// Each tablet has its first home.
fn settle_tablets<W: Words>(shape: &Shape, words: &mut W)
    requires { length (W.words words.old) ≡ total shape.now }
    ensures { W.words words.new ≡ written shape.now (W.words words.old)
        (first_homes shape.now (shape.now.servers * shape.now.tablets)) }
{
    let numbers = shape.numbers();
    let tablets = numbers.servers * numbers.tablets;
    for tablet in (0..tablets).rev() {
        let home = u64::from(opening_home(shape, tablet));
        store(words, shape.home(tablet), home);
    }
}

/// The board's record begins region 0.
fn lay_board<W: Words>(shape: &Shape, words: &mut W, fields: u8)
    requires { length (W.words words.old) ≡ total shape.now }
    ensures { W.words words.new ≡ written shape.now (W.words words.old) (board_places shape.now fields) }
{
    let _numbers = shape.numbers();
    let address = shape.region(0);
    let entry = EntryWord {
        taken: true,
        generation: BOARD.generation,
        epoch: 0,
        address,
    };
    store(words, shape.top(0), u64::from(fields) + 1);
    store(words, shape.entry(BOARD.entry), entry.pack());
    store(words, address, u64::from(fields));
}

/// The words of a heap before the first step. `Memory` where there is not memory enough.
pub(crate) fn opening_words<W: Words>(alloc: Global, script: &Script) -> Result<W, Memory>
    ensures { IfOk result (λ w. W.words w ≡ words_at_start script.now.numbers script.now.board) }
{
    let shape = script.shape;
    let mut words = W::zeros(alloc, shape.words())?;
    name_board(&shape, &mut words);
    settle_tablets(&shape, &mut words);
    lay_board(&shape, &mut words, script.board);
    Ok(words)
}
