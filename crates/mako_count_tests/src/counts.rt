//! The counts of pieces, over a sink in memory.

ghost use Rattle.std.specs.Prelude.{◌≤◌};

use mako_cli::count_top;
use mako_io::{MemSink, SoundSink};
use std::alloc::Global;
use std::sync::Wait;
use std::test::Fail;
use std::thread::Threads;

/// Whether a count of so many workers is done, and tells this.
fn counts<R: Threads + Wait + Sync>(
    rt: &R,
    alloc: Global,
    workers: u32,
    output: &[u8],
) -> Result<bool, Fail>
    requires { (1 ≤ workers) × (workers ≤ 64) }
{
    let mut sink = SoundSink::new(alloc, 100)?;
    let ended = count_top(rt, alloc, workers, &mut sink);
    Ok(ended.status == 0 && sink.bytes() == output)
}

#[test]
fn counts_rings(rt: HostRuntime) -> Result<(), Fail> {
    assert!(rt; counts(&rt, rt.alloc(), 1, b"handled 16\n")?);
    assert!(rt; counts(&rt, rt.alloc(), 3, b"handled 48\n")?);
    assert!(rt; counts(&rt, rt.alloc(), 64, b"handled 1024\n")?);
    Ok(())
}

#[test]
fn reports_a_write_fault_of_a_count(rt: HostRuntime) -> Result<(), Fail> {
    let alloc = rt.alloc();
    let mut sink = MemSink::new(alloc, 8, Vec::new(alloc))?;
    let ended = count_top(&rt, alloc, 2, &mut sink);
    assert_eq!(rt; ended.status, 4);
    assert_eq!(rt; sink.bytes(), b"handled ".as_slice());
    Ok(())
}
