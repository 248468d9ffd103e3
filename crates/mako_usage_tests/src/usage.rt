//! Words of the command line, those of one command and those of none.

use mako_cli::top;
use mako_io::{SoundSink, SoundSource};
use std::alloc::{AllocError, Global};
use std::test::Fail;

fn words(alloc: Global, texts: &[&str]) -> Result<Vec<String>, AllocError> {
    let mut words = Vec::new(alloc);
    for text in texts {
        words.push(String::from_str(alloc, text)?)?;
    }
    Ok(words)
}

#[test]
fn counts_by_words(rt: HostRuntime) -> Result<(), Fail> {
    let alloc = rt.alloc();
    let command = words(alloc, &["count", "3"])?;
    let mut source = SoundSource::new(Vec::new(alloc));
    let mut sink = SoundSink::new(alloc, 100)?;
    let ended = top(&rt, alloc, &command, &mut source, &mut sink);
    assert_eq!(rt; ended.status, 0);
    assert_eq!(rt; sink.bytes(), b"handled 48\n".as_slice());
    Ok(())
}

#[test]
fn refuses_words(rt: HostRuntime) -> Result<(), Fail> {
    let alloc = rt.alloc();
    let cases: [&[&str]; 19] = [
        &["replay", "turns", "1000000001"],
        &["replay", "18446744073709551616", "5"],
        &["replay", "turns", "+5"],
        &["gen", "1", "0"],
        &["gen", "1", "4097"],
        &["gen", "01", "1"],
        &["count", "0"],
        &["count", "65"],
        &["count", "3", "4"],
        &["load"],
        &["load", "01"],
        &["load", "1", "2"],
        &["load", "18446744073709551616"],
        &["replay", "fast", "5"],
        &["replay", "turns"],
        &["replay", "turns", "05"],
        &["help"],
        &["run", "--"],
        &[],
    ];
    for texts in &cases {
        let given = words(alloc, texts)?;
        let mut source = SoundSource::new(Vec::new(alloc));
        let mut sink = SoundSink::new(alloc, 100)?;
        let ended = top(&rt, alloc, &given, &mut source, &mut sink);
        assert_eq!(rt; ended.status, 1);
        assert_eq!(rt; sink.bytes(), b"usage\n".as_slice());
    }
    Ok(())
}
