//! What the seats leave at the end of a run.

ghost use Rattle.std.specs.Prelude.{◌≡◌, ◌+◌, ◌-◌, ◌≤◌, ◌++◌, length, map, take, slice_get, Some, vec_len};
ghost use Rattle.std.specs.Prelude.{vec_capacity};
ghost use Rattle.mako_seat.specs.declared.seat.Seat.TheVariants as seats_of;
ghost use Rattle.mako_core.specs.Endings.{replies_kept, replies_in, EndsWithCollector};

use mako_model::Reply;
use mako_pause::Collector;
use mako_seat::Seat;

/// Takes the collector, which is the last seat.
pub(crate) fn take_collector(seats: &mut Vec<Seat>) -> Collector
    requires { EndsWithCollector seats.old.items }
    ensures collector { slice_get seats.old.items (length seats.old.items - 1) ≡ Some (seats_of.Collector result) }
    ensures rest { seats.new.items ≡ take (length seats.old.items - 1) seats.old.items }
{
    let Some(last) = seats.pop() else {
        unreachable!()
    };
    match last {
        Seat::Collector(collector) => collector,
        _ => unreachable!(),
    }
}

/// The seat's list of replies, if it is a mutator's, goes behind those that are there.
fn keep_replies(lists: &mut Vec<Vec<Reply>>, seat: Seat)
    requires { vec_len lists.old + length (replies_kept seat) ≤ vec_capacity lists.old }
    ensures items { map (λ v. v.items) lists.new.items ≡ map (λ v. v.items) lists.old.items ++ replies_kept seat }
    ensures len { vec_len lists.new ≡ vec_len lists.old + length (replies_kept seat) }
    ensures capacity { vec_capacity lists.new ≡ vec_capacity lists.old }
{
    match seat {
        Seat::Mutator(driver) => lists.push_reserved(driver.into_replies()),
        Seat::Server(_) => {}
        Seat::Collector(_) => {}
    }
}

/// The mutators' lists of replies, behind those that are there. No memory is taken.
pub(crate) fn with_replies(mut lists: Vec<Vec<Reply>>, seats: Vec<Seat>) -> Vec<Vec<Reply>>
    requires { vec_len lists + length (replies_in seats.items) ≤ vec_capacity lists }
    ensures { map (λ v. v.items) result.items ≡ map (λ v. v.items) lists.items ++ replies_in seats.items }
{
    for seat in seats {
        keep_replies(&mut lists, seat);
    }
    lists
}
