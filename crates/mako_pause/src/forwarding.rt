//! The collector while it forwards a name.

ghost use Rattle.std.specs.Prelude.{◌≡◌, ◌<◌};
ghost use Rattle.mako_shape.specs.Places.{index, total};
ghost use Rattle.mako_ring.specs.Tracing.{IsNamed};
ghost use Rattle.mako_step.specs.Acts.{IsWithin};
ghost use Rattle.mako_pause.specs.Collecting as collecting;
ghost use Rattle.mako_pause.specs.Collecting.{at};
ghost use Rattle.mako_pause.specs.Keeping.{ForwardIsKnown};

use crate::kept::Kept;
use crate::stage::{CollectStage, ForwardStage};
use mako_step::Step;
use mako_words::{Name, Value};

/// The index of the slot at the head of the work ring of a name's server.
fn head_slot(kept: &Kept, name: Name) -> u32
    requires { IsNamed kept.now.shape name }
    ensures slot { result ≡ index kept.now.shape (collecting.head_slot kept.now name) }
    ensures below { result < total kept.now.shape }
{
    let server = kept.owner(name);
    let place = kept.window(server).head % u64::from(kept.numbers().ring);
    kept.shape().work(server, place as u32)
}

impl ForwardStage {
    pub(crate) fn next(self, kept: &Kept) -> Step
        requires { ForwardIsKnown kept.now self }
        ensures next { result ≡ collecting.forward_next kept.now self }
        ensures within { IsWithin (total kept.now.shape) result }
    {
        match self {
            ForwardStage::Looking(name) => Step::load(head_slot(kept, name)),
            ForwardStage::Storing(name) => {
                Step::store(head_slot(kept, name), Value::Ref(name).pack())
            }
        }
    }

    pub(crate) fn fed(self, kept: &mut Kept, before: u64) -> CollectStage
        requires { ForwardIsKnown kept.old self }
        ensures { at kept.new result ≡ collecting.forward_fed kept.old self before }
    {
        match self {
            ForwardStage::Looking(name) if before == 0 => {
                kept.found_room(kept.owner(name));
                CollectStage::Forwarding(ForwardStage::Storing(name))
            }
            ForwardStage::Looking(_) => CollectStage::Forwarding(self),
            ForwardStage::Storing(name) => {
                kept.head_up(kept.owner(name));
                kept.forward()
            }
        }
    }
}
