//! The commands `gen` and `load`, over streams in memory.

use mako_cli::{gen_top, load_top, top};
use mako_io::{MemSink, SoundSink, SoundSource};
use std::alloc::{AllocError, Global};
use std::test::Fail;

/// A command of two or three words.
fn words(alloc: Global, texts: &[&str]) -> Result<Vec<String>, AllocError> {
    let mut words = Vec::new(alloc);
    for text in texts {
        words.push(String::from_str(alloc, text)?)?;
    }
    Ok(words)
}

#[test]
fn prints_a_workload(rt: HostRuntime) -> Result<(), Fail> {
    let alloc = rt.alloc();
    let command = words(alloc, &["gen", "1", "1"])?;
    let mut source = SoundSource::new(Vec::new(alloc));
    let mut sink = SoundSink::new(alloc, 1000)?;
    let ended = top(&rt, alloc, &command, &mut source, &mut sink);
    assert_eq!(rt; ended.status, 0);
    assert!(rt; sink.bytes().starts_with(b"mako 1\nservers 4\n"));
    Ok(())
}

#[test]
fn reports_a_write_fault_of_a_workload(rt: HostRuntime) -> Result<(), Fail> {
    let alloc = rt.alloc();
    let fails = Vec::from_slice(alloc, &[2])?;
    let mut sink = MemSink::new(alloc, 1000, fails)?;
    let ended = gen_top(alloc, 1, 1, &mut sink);
    assert_eq!(rt; ended.status, 4);
    assert_eq!(rt; sink.bytes(), b"mako 1\n".as_slice());
    Ok(())
}

#[test]
fn sums_up_a_workload(rt: HostRuntime) -> Result<(), Fail> {
    let alloc = rt.alloc();
    let command = words(alloc, &["load", "1"])?;
    let mut source = SoundSource::new(Vec::new(alloc));
    let mut sink = SoundSink::new(alloc, 100)?;
    let ended = top(&rt, alloc, &command, &mut source, &mut sink);
    assert_eq!(rt; ended.status, 0);
    assert_eq!(rt;
        sink.bytes(),
        b"load 1\ncommands 2024\ncycles 11\nfreed 469\nend\n".as_slice()
    );
    Ok(())
}

#[test]
fn reports_a_write_fault_of_a_summary(rt: HostRuntime) -> Result<(), Fail> {
    let alloc = rt.alloc();
    let fails = Vec::from_slice(alloc, &[3])?;
    let mut sink = MemSink::new(alloc, 100, fails)?;
    let ended = load_top(alloc, 1, &mut sink);
    assert_eq!(rt; ended.status, 4);
    assert_eq!(rt; sink.bytes(), b"load 1\ncommands 2024\n".as_slice());
    Ok(())
}
