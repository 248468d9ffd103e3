use crate::{Arrive, Arrived, Leave, Reopen, Shutter};
use mako_step::{FlatWords, Stepped, Words, make_step};
use std::test::Fail;

#[test]
fn arrives_at_an_open_gate_and_leaves(rt: HostRuntime) -> Result<(), Fail> {
    let mut words = FlatWords::zeros(rt.alloc(), 1)?;
    let mut arrive = Arrive::new(0);
    assert_eq!(rt; make_step(&mut arrive, &mut words), Stepped::Moved(()));
    assert_eq!(rt; make_step(&mut arrive, &mut words), Stepped::Ended);
    assert_eq!(rt; arrive.result(), Arrived::Inside);
    assert_eq!(rt; words.word(0), 1);
    let mut leave = Leave::new(0);
    assert_eq!(rt; make_step(&mut leave, &mut words), Stepped::Moved(()));
    assert_eq!(rt; make_step(&mut leave, &mut words), Stepped::Ended);
    leave.result();
    assert_eq!(rt; words.word(0), 0);
    Ok(())
}

#[test]
fn is_refused_at_a_shut_gate_until_it_reopens(rt: HostRuntime) -> Result<(), Fail> {
    let mut words = FlatWords::zeros(rt.alloc(), 1)?;
    let mut shutter = Shutter::new(0);
    assert_eq!(rt; make_step(&mut shutter, &mut words), Stepped::Moved(()));
    assert_eq!(rt; make_step(&mut shutter, &mut words), Stepped::Moved(()));
    shutter.result();
    let mut arrive = Arrive::new(0);
    assert_eq!(rt; make_step(&mut arrive, &mut words), Stepped::Moved(()));
    assert_eq!(rt; words.word(0), 0x1_0001);
    assert_eq!(rt; make_step(&mut arrive, &mut words), Stepped::Moved(()));
    assert_eq!(rt; arrive.result(), Arrived::Refused(0x1_0000));
    let mut reopen = Reopen::new(0);
    assert_eq!(rt; make_step(&mut reopen, &mut words), Stepped::Moved(()));
    reopen.result();
    assert_eq!(rt; words.word(0), 0);
    Ok(())
}

#[test]
fn waits_until_a_gate_that_is_shut_counts_nobody(rt: HostRuntime) -> Result<(), Fail> {
    let mut words = FlatWords::zeros(rt.alloc(), 1)?;
    let mut arrive = Arrive::new(0);
    let mut shutter = Shutter::new(0);
    let mut leave = Leave::new(0);
    assert_eq!(rt; make_step(&mut arrive, &mut words), Stepped::Moved(()));
    assert_eq!(rt; make_step(&mut shutter, &mut words), Stepped::Moved(()));
    assert_eq!(rt;
        make_step(&mut shutter, &mut words),
        Stepped::Waiting(0x1_0001)
    );
    assert_eq!(rt; make_step(&mut leave, &mut words), Stepped::Moved(()));
    assert_eq!(rt; make_step(&mut shutter, &mut words), Stepped::Moved(()));
    assert_eq!(rt; make_step(&mut shutter, &mut words), Stepped::Ended);
    assert_eq!(rt; words.word(0), 0x1_0000);
    Ok(())
}
