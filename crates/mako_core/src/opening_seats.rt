//! The machines of all seats before their first steps.

ghost use Rattle.std.specs.Prelude.{◌≡◌, ◌<◌, ◌+◌, ◌^◌, ◌++◌, length, IfOk};
ghost use Rattle.mako_script.specs.Scripts.{command_count};
ghost use Rattle.mako_state.specs.Openings.{mutators_from, servers_from, opening_seats};

use mako_mutator::Driver;
use mako_pause::Collector;
use mako_script::{Program, Script};
use mako_seat::Seat;
use mako_server::Server;
use mako_shape::Shape;
use mako_words::Memory;
use std::alloc::Global;

/// The machines of the mutators.
fn mutators(alloc: Global, script: &Script) -> Result<Vec<Seat>, Memory>
    ensures { IfOk result (λ seats. seats.items ≡ mutators_from script.now.numbers 0 script.now.programs) }
{
    let numbers = script.shape.numbers();
    let mut seats = Vec::new(alloc);
    for mutator in 0..numbers.mutators {
        let driver = Driver::new(alloc, script, mutator)?;
        let Ok(_) = seats.push(Seat::Mutator(driver)) else {
            return Err(Memory);
        };
    }
    Ok(seats)
}

/// The machines of the servers behind these.
fn with_servers(alloc: Global, shape: Shape, mut seats: Vec<Seat>) -> Result<Vec<Seat>, Memory>
    ensures { IfOk result (λ all. all.items ≡ seats.items ++ servers_from shape 0 shape.servers) }
{
    let numbers = shape.numbers();
    for server in 0..numbers.servers {
        let machine = Server::new(alloc, shape, server)?;
        let Ok(_) = seats.push(Seat::Server(machine)) else {
            return Err(Memory);
        };
    }
    Ok(seats)
}

/// The machines of all seats: the mutators, then the servers, then the collector.
pub(crate) fn opening_seats(alloc: Global, script: &Script) -> Result<Vec<Seat>, Memory>
    ensures { IfOk result (λ seats. seats.items ≡ opening_seats script.now) }
{
    let mutators = mutators(alloc, script)?;
    let mut seats = with_servers(alloc, script.shape, mutators)?;
    let collector = Collector::new(alloc, script)?;
    let Ok(_) = seats.push(Seat::Collector(collector)) else {
        return Err(Memory);
    };
    Ok(seats)
}

/// The commands of a program.
fn count_calls(program: &Program) -> usize
    ensures { result ≡ length program.now.calls }
{
    program.calls.len()
}

/// The most points that a history has: one for each command, and one for each cycle.
pub(crate) fn count_points(programs: &[Program], cycles: u32) -> usize
    requires { command_count programs.now < 2 ^ 32 }
    ensures { result ≡ command_count programs.now + cycles }
{
    let commands: usize = programs.iter().map(|program| count_calls(program)).sum();
    commands + cycles as usize
}
