use crate::{Act, FlatWords, Op, Words};
use std::test::Fail;

#[test]
fn makes_each_operation_once(rt: HostRuntime) -> Result<(), Fail> {
    let mut words = FlatWords::zeros(rt.alloc(), 2)?;
    assert_eq!(rt;
        words.act(Act {
            word: 1,
            op: Op::Store(12)
        }),
        0
    );
    assert_eq!(rt;
        words.act(Act {
            word: 1,
            op: Op::Load
        }),
        12
    );
    assert_eq!(rt;
        words.act(Act {
            word: 1,
            op: Op::Add(3)
        }),
        12
    );
    assert_eq!(rt;
        words.act(Act {
            word: 1,
            op: Op::Sub(5)
        }),
        15
    );
    assert_eq!(rt;
        words.act(Act {
            word: 1,
            op: Op::Or(5)
        }),
        10
    );
    assert_eq!(rt;
        words.act(Act {
            word: 1,
            op: Op::And(6)
        }),
        15
    );
    assert_eq!(rt;
        words.act(Act {
            word: 1,
            op: Op::Max(4)
        }),
        6
    );
    assert_eq!(rt;
        words.act(Act {
            word: 1,
            op: Op::Max(9)
        }),
        6
    );
    assert_eq!(rt; words.word(1), 9);
    assert_eq!(rt; words.word(0), 0);
    Ok(())
}

#[test]
fn exchanges_only_the_word_that_is_expected(rt: HostRuntime) -> Result<(), Fail> {
    let mut words = FlatWords::zeros(rt.alloc(), 1)?;
    assert_eq!(rt;
        words.act(Act {
            word: 0,
            op: Op::Exchange { expect: 1, new: 7 }
        }),
        0
    );
    assert_eq!(rt; words.word(0), 0);
    assert_eq!(rt;
        words.act(Act {
            word: 0,
            op: Op::Exchange { expect: 0, new: 7 }
        }),
        0
    );
    assert_eq!(rt; words.word(0), 7);
    Ok(())
}
