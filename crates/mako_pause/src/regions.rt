//! What the collector keeps of the regions.

ghost use Rattle.std.specs.Prelude.{◌≡◌, ◌<◌, ◌≤◌, ◌+◌, ◌*◌, ◌^◌, IfOk, IfSome, length, position};
ghost use Rattle.mako_pause.specs.Opening.{opening_role, opening_roles};
ghost use Rattle.mako_pause.specs.Regions.{is_spare, spare_between};

use mako_shape::Shape;
use mako_words::Memory;
use std::alloc::Global;

/// What a region is for.
#[derive(Clone, Copy)]
pub enum Role {
    /// The home of a tablet.
    Home,
    /// It may become the home of a tablet, from this cycle on.
    Spare(u32),
}

impl Role {
    /// Whether the region may be given out in this cycle.
    pub(crate) fn is_spare(self, cycle: u32) -> bool
        ensures { result ≡ is_spare cycle self }
    {
        match self {
            Role::Home => false,
            Role::Spare(since) => since <= cycle,
        }
    }
}

/// The first place of a region that may be given out in this cycle.
fn first_spare(roles: &[Role], cycle: u32) -> Option<usize>
    ensures place { result ≡ position (is_spare cycle) roles.now }
    ensures below { IfSome result (λ place. place < length roles.now) }
{
    roles.iter().position(|role| role.is_spare(cycle))
}

/// The first of `count` regions that may be given out in this cycle.
pub(crate) fn spare_between(roles: &[Role], cycle: u32, first: u32, count: u32) -> Option<u32>
    requires within { first + count ≤ length roles.now }
    requires few { length roles.now < 2 ^ 32 }
    ensures { result ≡ spare_between roles.now cycle first count }
{
    match first_spare(&roles[first as usize..(first + count) as usize], cycle) {
        Some(place) => Some(first + place as u32),
        None => None,
    }
}

/// The role of a region at the start.
fn opening_role(shape: &Shape, region: u32) -> Role
    ensures { result ≡ opening_role shape.now region }
{
    let numbers = shape.numbers();
    if region % (numbers.tablets + numbers.spare) < numbers.tablets {
        Role::Home
    } else {
        Role::Spare(0)
    }
}

/// The roles of the regions at the start: of a server's regions the first are homes, one for each tablet.
pub(crate) fn opening_roles(alloc: Global, shape: &Shape) -> Result<Vec<Role>, Memory>
    ensures { IfOk result
        (λ roles. roles.items ≡ opening_roles shape.now (shape.now.servers * (shape.now.tablets + shape.now.spare))) }
{
    let numbers = shape.numbers();
    let count = numbers.servers * (numbers.tablets + numbers.spare);
    let Ok(mut roles) = Vec::with_capacity(alloc, count as usize) else {
        return Err(Memory);
    };
    for region in 0..count {
        roles.push_reserved(opening_role(shape, region));
    }
    Ok(roles)
}
