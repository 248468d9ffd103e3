use super::*;
use mako_model::Call;
use std::test::*;

const HEADER: &[u8] =
    b"mako 1\nservers 1\ntablets 1\nentries 4\nwords 16\nspare 1\nring 2\nroots 4\ncycles 10\ngens 8\nboard 1\n";

/// The script with the usual header and this section.
fn with_header(rt: &HostRuntime, section: &[u8]) -> Result<Vec<u8>, Fail> {
    let mut text = Vec::from_slice(rt.alloc(), HEADER)?;
    text.extend_from_slice(section)?;
    Ok(text)
}

#[test]
fn reads_calls(rt: HostRuntime) -> Result<(), Fail> {
    let cases: [(&[u8], &[Call]); 3] = [
        (b"mutator\nend\n", &[]),
        (
            b"mutator\nnew a 1\nnum n 7\nput a 0 n\nget b a 0\nend\n",
            &[
                Call::New { root: 1, fields: 1 },
                Call::Num { root: 2, value: 7 },
                Call::Put {
                    to: 1,
                    field: 0,
                    from: 2,
                },
                Call::Get {
                    to: 3,
                    from: 1,
                    field: 0,
                },
            ],
        ),
        (
            b"mutator\nnew a 1\nget b a 0\nget c b 0\nend\n",
            &[
                Call::New { root: 1, fields: 1 },
                Call::Get {
                    to: 2,
                    from: 1,
                    field: 0,
                },
                Call::Get {
                    to: 3,
                    from: 2,
                    field: 0,
                },
            ],
        ),
    ];
    for (section, calls) in &cases {
        let text = with_header(&rt, section)?;
        match parse(rt.alloc(), &text) {
            Ok(script) => {
                assert_eq!(rt; script.programs.len(), 1);
                for program in &script.programs {
                    assert_eq!(rt; program.calls.as_slice(), *calls);
                }
            }
            Err(_) => return Err("a script was refused".into()),
        }
    }
    Ok(())
}

/// The fault of a text that is no script.
fn fault_of(rt: &HostRuntime, text: &[u8]) -> Option<(Kind, u32)> {
    match parse(rt.alloc(), text) {
        Err(ScriptFault::Bad { kind, line }) => Some((kind, line)),
        _ => None,
    }
}

#[test]
fn tells_the_first_fault(rt: HostRuntime) -> Result<(), Fail> {
    let sections: [(&[u8], Kind, u32); 21] = [
        (b"", Kind::NoMutator, 12),
        (b"mutator", Kind::Unclosed, 12),
        (b"mutator\n", Kind::Unclosed, 13),
        (b"mutator\nend", Kind::Unclosed, 13),
        (b"mutator\nend\nx", Kind::Unclosed, 14),
        (b"mutator\nend\nx\n", Kind::Word, 14),
        (b"end\n", Kind::Word, 12),
        (b"mutator\nnum \x80 7\nend\n", Kind::NotAscii, 13),
        (b"mutator\nend\n\x80", Kind::NotAscii, 14),
        (b"mutator\nmake a 1\nend\n", Kind::Word, 13),
        (b"mutator\nnew abcdefghijklmnopq 1\nend\n", Kind::Word, 13),
        (b"mutator\nnum n  7\nend\n", Kind::Word, 13),
        (b"mutator\nput X 07 y\nend\n", Kind::Word, 13),
        (b"mutator\nput x 07 y\nend\n", Kind::Number, 13),
        (b"mutator\nput x 14 y\nend\n", Kind::Range, 13),
        (b"mutator\nnum n 4294967296\nend\n", Kind::Range, 13),
        (b"mutator\nput x 0 board\nend\n", Kind::Undefined, 13),
        (b"mutator\nget a a 0\nend\n", Kind::Undefined, 13),
        (
            b"mutator\nnum a 1\nnum b 1\nnum c 1\nnum d 1\nend\n",
            Kind::Names,
            16,
        ),
        (
            b"mutator\nnum a 1\nnum b 1\nnum c 1\nget d e 0\nend\n",
            Kind::Undefined,
            16,
        ),
        (b"mutator\nnum a 1\ndrop a\nmutator\nend\n", Kind::Word, 15),
    ];
    for (section, kind, line) in &sections {
        let text = with_header(&rt, section)?;
        assert_eq!(rt; fault_of(&rt, &text), Some((*kind, *line)));
    }
    Ok(())
}

#[test]
fn tells_faults_of_settings(rt: HostRuntime) -> Result<(), Fail> {
    let texts: [(&[u8], Kind, u32); 8] = [
        (b"", Kind::Unclosed, 1),
        (b"mako 1", Kind::Unclosed, 1),
        (b"mako 1\n", Kind::Unclosed, 2),
        (b"mako\n", Kind::Header, 1),
        (b"mako 1 \n", Kind::Header, 1),
        (b"mako one\n", Kind::Number, 1),
        (b"mako 2\n", Kind::Range, 1),
        (b"mako 1\nservers 9\n", Kind::Range, 2),
    ];
    for (text, kind, line) in &texts {
        assert_eq!(rt; fault_of(&rt, text), Some((*kind, *line)));
    }
    let large: [(&[u8], Kind); 2] = [
        (
            b"mako 1\nservers 8\ntablets 256\nentries 513\nwords 16\nspare 1\nring 2\nroots 4\ncycles 10\ngens 8\nboard 1\n",
            Kind::Entries,
        ),
        (
            b"mako 1\nservers 8\ntablets 7\nentries 9\nwords 65520\nspare 1\nring 2\nroots 11\ncycles 10\ngens 8\nboard 1\nmutator\nend\n",
            Kind::Words,
        ),
    ];
    for (text, kind) in &large {
        assert_eq!(rt; fault_of(&rt, text), Some((*kind, 11)));
    }
    Ok(())
}

#[test]
fn counts_sections(rt: HostRuntime) -> Result<(), Fail> {
    let mut text = with_header(&rt, b"")?;
    for _ in 0..17 {
        text.extend_from_slice(b"mutator\nend\n")?;
    }
    assert_eq!(rt; fault_of(&rt, &text), Some((Kind::Many, 44)));
    Ok(())
}

#[test]
fn prints_what_it_read(rt: HostRuntime) -> Result<(), Fail> {
    let sections: [&[u8]; 3] = [
        b"mutator\nnew a 1\nput a 0 a\nget b a 0\nend\n",
        b"mutator\nend\nmutator\ncollect\nend\n",
        b"mutator\nnew a 1\nnew a 1\nend\nmutator\nnew b 1\nnew b 1\nend\n",
    ];
    for section in &sections {
        let text = with_header(&rt, section)?;
        let Ok(script) = parse(rt.alloc(), &text) else {
            return Err("a script was refused".into());
        };
        let Ok(printed) = print(rt.alloc(), &script) else {
            return Err("no memory".into());
        };
        assert_eq!(rt; printed.as_slice(), text.as_slice());
    }
    Ok(())
}

#[test]
fn counts_commands(rt: HostRuntime) -> Result<(), Fail> {
    for count in 63..66 {
        let mut text = with_header(&rt, b"mutator\n")?;
        for _ in 0..count {
            text.extend_from_slice(b"num n 1\n")?;
        }
        text.extend_from_slice(b"end\n")?;
        match parse(rt.alloc(), &text) {
            Ok(script) => {
                for program in &script.programs {
                    assert_eq!(rt; program.calls.len(), count);
                }
            }
            Err(_) => return Err("a script was refused".into()),
        }
    }
    Ok(())
}
