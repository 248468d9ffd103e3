//! Replays of scripts, over streams in memory.

use mako_cli::top;
use mako_io::{MemSink, MemSource, SoundSink, SoundSource};
use std::alloc::{AllocError, Global};
use std::test::Fail;

const HEADER: &[u8] =
    b"mako 1\nservers 1\ntablets 1\nentries 4\nwords 16\nspare 1\nring 2\nroots 4\ncycles 10\ngens 8\nboard 1\n";

const READS_BACK: &[u8] = b"mutator\nnew a 1\nnum n 7\nput a 0 n\nget b a 0\nend\n";

/// One text behind the other.
fn joined(alloc: Global, first: &[u8], second: &[u8]) -> Result<Vec<u8>, AllocError> {
    let mut text = Vec::from_slice(alloc, first)?;
    text.extend_from_slice(second)?;
    Ok(text)
}

fn words(alloc: Global, texts: &[&str]) -> Result<Vec<String>, AllocError> {
    let mut words = Vec::new(alloc);
    for text in texts {
        words.push(String::from_str(alloc, text)?)?;
    }
    Ok(words)
}

#[test]
fn replays_scripts(rt: HostRuntime) -> Result<(), Fail> {
    let alloc = rt.alloc();
    let cases: [(&str, &[u8], u8, &[u8]); 9] = [
        ("36", READS_BACK, 6, b"mutator 0\nunfinished\n"),
        ("37", READS_BACK, 6, b"mutator 0\nnew 1#0\nunfinished\n"),
        (
            "123",
            READS_BACK,
            6,
            b"mutator 0\nnew 1#0\nnum 7\nput\nget 7\nunfinished\n",
        ),
        (
            "124",
            READS_BACK,
            0,
            b"mutator 0\nnew 1#0\nnum 7\nput\nget 7\nend\n",
        ),
        ("1000", b"mutator\nend\n", 0, b"mutator 0\nend\n"),
        (
            "1000",
            b"mutator\nnew a 1\nget b a 0\nget c b 0\nend\n",
            0,
            b"mutator 0\nnew 1#0\nget null\nget noref\nend\n",
        ),
        (
            "1000",
            b"mutator\nnum n 7\nput board 0 n\nend\nmutator\nget b board 0\nend\n",
            0,
            b"mutator 0\nnum 7\nput\nmutator 1\nget null\nend\n",
        ),
        (
            "1000",
            b"mutator\nnum n 7\nput board 0 n\nend\nmutator\nshow board\nshow board\nshow board\nget b board 0\nend\n",
            0,
            b"mutator 0\nnum 7\nput\nmutator 1\nshow 0#0\nshow 0#0\nshow 0#0\nget 7\nend\n",
        ),
        ("1000", b"mutator\n", 2, b"script unclosed 13\n"),
    ];
    for (steps, section, status, output) in &cases {
        let command = words(alloc, &["replay", "turns", *steps])?;
        let mut source = SoundSource::new(joined(alloc, HEADER, section)?);
        let mut sink = SoundSink::new(alloc, 100)?;
        let ended = top(&rt, alloc, &command, &mut source, &mut sink);
        assert_eq!(rt; ended.status, *status);
        assert_eq!(rt; sink.bytes(), *output);
    }
    Ok(())
}

#[test]
fn reports_a_read_fault(rt: HostRuntime) -> Result<(), Fail> {
    let alloc = rt.alloc();
    let fails = Vec::from_slice(alloc, &[2])?;
    let mut source = MemSource::new(joined(alloc, HEADER, READS_BACK)?, fails);
    let mut sink = SoundSink::new(alloc, 100)?;
    let command = words(alloc, &["replay", "turns", "1000"])?;
    let ended = top(&rt, alloc, &command, &mut source, &mut sink);
    assert_eq!(rt; ended.status, 3);
    assert_eq!(rt; sink.bytes(), b"read fault\n".as_slice());
    Ok(())
}

#[test]
fn reports_a_write_fault(rt: HostRuntime) -> Result<(), Fail> {
    let alloc = rt.alloc();
    let fails = Vec::from_slice(alloc, &[3])?;
    let mut source = SoundSource::new(joined(alloc, HEADER, READS_BACK)?);
    let mut sink = MemSink::new(alloc, 100, fails)?;
    let command = words(alloc, &["replay", "7", "1000"])?;
    let ended = top(&rt, alloc, &command, &mut source, &mut sink);
    assert_eq!(rt; ended.status, 4);
    assert_eq!(rt; sink.bytes(), b"mutator 0\nnew 1#0\n".as_slice());
    Ok(())
}
