use crate::{EntryWord, FlagWord, GateWord, LiveWord, Name, NoticeWord, PhaseWord, Value};
use std::test::Fail;

const BOARD: Name = Name {
    entry: 0,
    generation: 0,
};

const OLD: Name = Name {
    entry: 1,
    generation: 0,
};

const NEW: Name = Name {
    entry: 1,
    generation: 1,
};

#[test]
fn packs_the_worked_words(rt: HostRuntime) {
    let shut = GateWord {
        count: 1,
        shut: true,
    };
    let waiting = FlagWord {
        busy: false,
        ghost_: true,
        changed: true,
    };
    let first = EntryWord {
        taken: true,
        generation: 0,
        epoch: 0,
        address: 27,
    };
    let second = EntryWord {
        taken: true,
        generation: 1,
        epoch: 1,
        address: 51,
    };
    let words = [
        (Value::Num(7).pack(), 0x4000000000000007),
        (Value::Ref(BOARD).pack(), 0x8000000000000000),
        (Value::Ref(OLD).pack(), 0x8000000000000001),
        (Value::Ref(NEW).pack(), 0x8000000000100001),
        (PhaseWord::Trace(1).pack(), 0x0000000100000001),
        (PhaseWord::Evac(1).pack(), 0x0000000200000001),
        (shut.pack(), 0x0000000000010001),
        (waiting.pack(), 0x0000000000000006),
        (LiveWord { cycle: 1, words: 8 }.pack(), 0x0000000100000008),
        (first.pack(), 0x800000000000001b),
        (second.pack(), 0x8000080000800033),
        (NoticeWord::Freed(NEW).pack(), 0x8000000000100001),
        (NoticeWord::Done.pack(), 1),
    ];
    for (word, want) in words {
        assert_eq!(rt; word, want);
    }
}

#[test]
fn refuses_stray_bits(rt: HostRuntime) {
    for word in [
        1,
        0x4000000100000007,
        0x8000010000000001,
        0xc000000000000007,
    ] {
        assert!(rt; Value::unpack(word).is_none(), "{word:x}");
    }
    for word in [0x0000000100100001, 0x0000000400000001] {
        assert!(rt; PhaseWord::unpack(word).is_none(), "{word:x}");
    }
    assert!(rt; GateWord::unpack(0x20001).is_none());
    assert!(rt; FlagWord::unpack(8).is_none());
    assert!(rt; LiveWord::unpack(0x0010000100000008).is_none());
    assert!(rt; NoticeWord::unpack(0).is_none());
    assert!(rt; NoticeWord::unpack(0x4000000000000007).is_none());
}

#[test]
fn prints_names_and_values(rt: HostRuntime) -> Result<(), Fail> {
    assert_eq!(rt; NEW.to_string(rt.alloc())?.as_str(), "1#1");
    assert_eq!(rt; Value::Null.to_string(rt.alloc())?.as_str(), "null");
    assert_eq!(rt;
        Value::Num(u32::MAX).to_string(rt.alloc())?.as_str(),
        "4294967295"
    );
    assert_eq!(rt; Value::Ref(NEW).to_string(rt.alloc())?.as_str(), "1#1");
    Ok(())
}
