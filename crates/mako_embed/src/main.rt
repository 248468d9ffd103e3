//! A program that holds a script in memory and runs it through the library, with a source and a sink of its own.
#![tactic(auto)]

mod held;
mod kept;

use crate::held::Held;
use crate::kept::Kept;
use mako_cli::replay_top;
use mako_replay::Order;
use std::io;

const SCRIPT: &[u8] =
    b"mako 1\nservers 1\ntablets 1\nentries 4\nwords 16\nspare 1\nring 2\nroots 4\ncycles 0\ngens 8\nboard 1\nmutator\nnew a 1\nnum n 7\nput a 0 n\nget b a 0\nend\n";

fn main(rt: HostRuntime) -> io::Result<()> {
    let alloc = rt.alloc();
    let mut source = Held { rest: SCRIPT };
    let mut sink = Kept {
        text: Vec::new(alloc),
        faults: 0,
    };
    let ended = replay_top(alloc, Order::Turns, 1000, &mut source, &mut sink);
    println!(rt; "status {}", ended.status)?;
    if let Ok(text) = str::from_utf8(&sink.text) {
        print!(rt; "{text}")?;
    }
    Ok(())
}
