//! The collector while it takes the notices of the servers.

ghost use Rattle.std.specs.Prelude.{◌≡◌, ◌<◌};
ghost use Rattle.mako_shape.specs.Places.{total};
ghost use Rattle.mako_step.specs.Acts.{IsWithin};
ghost use Rattle.mako_pause.specs.Collecting as collecting;
ghost use Rattle.mako_pause.specs.Collecting.{at, NoticeFits};
ghost use Rattle.mako_pause.specs.Keeping.{Runs, NoticeIsKnown};
ghost use Rattle.mako_words.specs.Notices.{IsPackedNotice, notice_at};

use crate::kept::Kept;
use crate::stage::{CollectStage, IdleStage, NoticeStage};
use mako_step::Step;
use mako_words::{NoticeWord, PhaseWord};

/// The notice of a word that is a notice's.
fn notice_of(word: u64) -> NoticeWord
    requires { IsPackedNotice word }
    ensures { result ≡ notice_at word }
{
    match NoticeWord::unpack(word) {
        Some(notice) => notice,
        None => unreachable!(),
    }
}

impl NoticeStage {
    pub(crate) fn next(self, kept: &Kept) -> Step
        requires runs { Runs kept.now }
        requires known { NoticeIsKnown kept.now self }
        ensures next { result ≡ collecting.notice_next kept.now self }
        ensures within { IsWithin (total kept.now.shape) result }
    {
        let shape = kept.shape();
        match self {
            NoticeStage::Looking(server) => {
                Step::load(shape.notice(server, kept.notice_at(server)))
            }
            NoticeStage::Clearing(server, _) => {
                Step::store(shape.notice(server, kept.notice_at(server)), 0)
            }
            NoticeStage::StoringIdle => {
                Step::store(shape.phase(), PhaseWord::Idle(kept.running()).pack())
            }
        }
    }

    pub(crate) fn fed(self, kept: &mut Kept, before: u64) -> CollectStage
        requires runs { Runs kept.old }
        requires known { NoticeIsKnown kept.old self }
        requires fits { NoticeFits kept.old self before }
        ensures { at kept.new result ≡ collecting.notice_fed kept.old self before }
    {
        match self {
            NoticeStage::Looking(_) if before == 0 => CollectStage::Noticing(self),
            NoticeStage::Looking(server) => {
                CollectStage::Noticing(NoticeStage::Clearing(server, notice_of(before)))
            }
            NoticeStage::Clearing(server, notice) => {
                kept.notice_up(server);
                noticed(kept, server, notice)
            }
            NoticeStage::StoringIdle => {
                kept.finish();
                CollectStage::Idle(IdleStage::LoadingDemand)
            }
        }
    }
}

/// Keeps a freed name. With `Done` the next server has its turn.
fn noticed(kept: &mut Kept, server: u32, notice: NoticeWord) -> CollectStage
    requires server { server < kept.old.shape.servers }
    requires fits { collecting.NoticedFits kept.old notice }
    ensures { at kept.new result ≡ collecting.noticed kept.old server notice }
{
    let servers = kept.numbers().servers;
    match notice {
        NoticeWord::Freed(name) => {
            kept.keep_freed(name);
            CollectStage::Noticing(NoticeStage::Looking(server))
        }
        NoticeWord::Done if server + 1 == servers => {
            CollectStage::Noticing(NoticeStage::StoringIdle)
        }
        NoticeWord::Done => CollectStage::Noticing(NoticeStage::Looking(server + 1)),
    }
}
