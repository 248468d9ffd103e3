//! A line of printed text, which takes no memory.

ghost use Rattle.std.specs.Prelude.{◌≡◌, ◌≤◌, ◌+◌, ◌++◌, length};
ghost use Rattle.std.specs.Fmt.{decimal};

use arrayvec::ArrayVec;
use itoa::Buffer;

/// Room for a printed line; none but that of a cycle is longer.
const LINE_LEN: usize = 64;

pub type Line = ArrayVec<u8, LINE_LEN>;

/// Adds bytes to a line that has room for them.
pub fn add(line: &mut Line, bytes: &[u8])
    requires { length line.old.items + length bytes.now ≤ 64 }
    ensures { line.new.items ≡ line.old.items ++ bytes.now }
{
    if line.try_extend_from_slice(bytes).is_err() {
        unreachable!()
    }
}

/// Adds a number in decimal, in at most 20 digits.
pub fn add_number(line: &mut Line, number: u64)
    requires { length line.old.items ≤ 44 }
    ensures text { line.new.items ≡ line.old.items ++ decimal number }
    ensures short { length (decimal number) ≤ 20 }
{
    let mut digits = Buffer::new();
    add(line, digits.format(number).as_bytes());
}
