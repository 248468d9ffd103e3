//! A small count, turn by turn, and whole counts on threads.

use mako_count::{Count, Counted, Counting, Sent, Taken, count_pieces};
use std::test::Fail;

#[test]
fn tells_a_small_count(rt: HostRuntime) -> Result<(), Fail> {
    let Counted {
        count,
        mut workers,
        mut poller,
    } = Count::start(rt.alloc(), &[1, 0], 1)?;
    let (Some(mut second), Some(mut first)) = (workers.pop(), workers.pop()) else {
        return Err(Fail::from("no workers"));
    };
    assert_eq!(rt; second.take(&count), Taken::Empty);
    assert_eq!(rt; first.take(&count), Taken::Got);
    let sums = Counting::NotYet {
        sent: 1,
        handled: 0,
        later_sent: 1,
        later_handled: 0,
    };
    assert_eq!(rt; poller.poll(&count), sums);
    assert_eq!(rt; first.send(&count, 1), Sent::Sent);
    assert_eq!(rt; first.send(&count, 1), Sent::Spent);
    first.rest(&count);
    let sums = Counting::NotYet {
        sent: 2,
        handled: 1,
        later_sent: 2,
        later_handled: 1,
    };
    assert_eq!(rt; poller.poll(&count), sums);
    assert_eq!(rt; second.take(&count), Taken::Got);
    second.rest(&count);
    assert_eq!(rt; poller.poll(&count), Counting::Told { pieces: 2 });
    Ok(())
}

#[test]
fn meets_a_worker(rt: HostRuntime) -> Result<(), Fail> {
    let Counted {
        count,
        mut workers,
        mut poller,
    } = Count::start(rt.alloc(), &[0], 0)?;
    let Some(worker) = workers.pop() else {
        return Err(Fail::from("no worker"));
    };
    poller.meet(&count, worker);
    assert_eq!(rt; poller.poll(&count), Counting::Told { pieces: 0 });
    Ok(())
}

#[test]
fn tells_each_of_a_hundred_runs(rt: HostRuntime) -> Result<(), Fail> {
    for _ in 0..100 {
        assert_eq!(rt; count_pieces(&rt, rt.alloc(), 8)?, 128);
    }
    Ok(())
}
