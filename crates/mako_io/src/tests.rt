use super::*;
use std::alloc::{AllocError, Global};
use std::test::Fail;

fn letters(alloc: Global, count: u32) -> Result<Vec<u8>, AllocError> {
    let mut bytes = Vec::new(alloc);
    for i in 0..count {
        bytes.push((i % 251) as u8)?;
    }
    Ok(bytes)
}

#[test]
fn reads_all_of_a_long_source_where_the_limit_allows(rt: HostRuntime) -> Result<(), Fail> {
    let whole = letters(rt.alloc(), 10_000)?;
    for (limit, want) in [
        (20_000, Ok(())),
        (10_000, Ok(())),
        (9_999, Err(ReadRefusal::TooLong)),
        (0, Err(ReadRefusal::TooLong)),
    ] {
        let mut source = SoundSource::new(letters(rt.alloc(), 10_000)?);
        match read_all(rt.alloc(), &mut source, limit) {
            Ok(bytes) => {
                assert_eq!(rt; want, Ok(()), "with the limit {limit}");
                assert_eq!(rt; bytes.as_slice(), whole.as_slice());
            }
            Err(refusal) => assert_eq!(rt; want, Err(refusal), "with the limit {limit}"),
        }
    }
    Ok(())
}

#[test]
fn a_read_that_fails_is_a_fault(rt: HostRuntime) -> Result<(), Fail> {
    let fails = vec![in rt.alloc(); 2]?;
    let mut source = MemSource::new(letters(rt.alloc(), 5_000)?, fails);
    let mut part = [9; 3];
    assert_eq!(rt; source.read(&mut part), Ok(3));
    assert_eq!(rt; part, [0, 1, 2]);
    assert_eq!(rt;
        read_all(rt.alloc(), &mut source, 10_000).err(),
        Some(ReadRefusal::Fault)
    );
    let rest = read_all(rt.alloc(), &mut source, 10_000).ok();
    assert_eq!(rt; rest.map(|bytes| bytes.len()), Some(4_997));
    Ok(())
}

#[test]
fn a_write_that_fails_tells_how_much_went_out(rt: HostRuntime) -> Result<(), Fail> {
    let fails = vec![in rt.alloc(); 3]?;
    let Ok(mut sink) = MemSink::new(rt.alloc(), 7, fails) else {
        panic!(rt; "want of memory");
    };
    assert_eq!(rt; write_all(&mut sink, b"one"), Ok(()));
    assert_eq!(rt; write_all(&mut sink, b"two"), Ok(()));
    assert_eq!(rt; write_all(&mut sink, b"six"), Err(WriteFault { went: 0 }));
    assert_eq!(rt; write_all(&mut sink, b"six"), Err(WriteFault { went: 1 }));
    assert_eq!(rt; sink.bytes(), b"onetwos".as_slice());
    Ok(())
}

#[test]
fn a_sound_sink_takes_what_fits(rt: HostRuntime) {
    let Ok(mut sink) = SoundSink::new(rt.alloc(), 5) else {
        panic!(rt; "want of memory");
    };
    assert_eq!(rt; write_all(&mut sink, b"one"), Ok(()));
    assert_eq!(rt; write_all(&mut sink, b""), Ok(()));
    assert_eq!(rt; write_all(&mut sink, b"two"), Err(WriteFault { went: 2 }));
    assert_eq!(rt; write_all(&mut sink, b""), Ok(()));
    assert_eq!(rt; sink.bytes(), b"onetw".as_slice());
}

#[test]
fn standard_input_ends_and_standard_output_takes(rt: HostRuntime) {
    let mut source = StdSource::new(&rt);
    let bytes = read_all(rt.alloc(), &mut source, 10).ok();
    assert_eq!(rt; bytes.map(|bytes| bytes.len()), Some(0));
    let mut sink = StdSink::new(&rt);
    assert_eq!(rt; write_all(&mut sink, b"one line\n"), Ok(()));
}
