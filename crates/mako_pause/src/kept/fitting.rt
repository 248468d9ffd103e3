//! Whether the collector can go on with a word, in a heap without garbage: other words are not found to fit.

ghost use Rattle.std.specs.Prelude.{◌≡◌, true, ◌<◌, ◌*◌, length};
ghost use Rattle.mako_words.specs.Values.{IsPacked, value_at};
ghost use Rattle.mako_ring.specs.Tracing.{FieldFits};
ghost use Rattle.mako_poll.specs.Polls as polls;
ghost use Rattle.mako_pause.specs.Collecting.{StageFits, IdleFits, PauseFits, ChoiceFits, NoticeFits, BarrierFits};

use crate::kept::Kept;
use crate::stage::{BarrierStage, ChoiceStage, CollectStage, IdleStage, NoticeStage, PauseStage};
use mako_words::{GateWord, LiveWord, NoticeWord, Value};

impl Kept {
    /// Whether the word is that of a value, and if it is a name, of an entry that there is, and there is room for it.
    pub(crate) fn can_keep_root(&self, word: u64) -> bool
        ensures packed { result ≡ true → IsPacked word }
        ensures fits { result ≡ true → FieldFits self.now.shape (value_at word) }
        ensures room { result ≡ true → length self.now.pending < self.now.shape.mutators * self.now.shape.roots }
    {
        let numbers = self.numbers();
        let known = match Value::unpack(word) {
            Some(Value::Ref(name)) => name.entry
                < numbers.servers * numbers.tablets * numbers.entries,
            Some(_) => true,
            None => false,
        };
        known && self.pending.len() < (numbers.mutators * numbers.roots) as usize
    }

    /// Whether the word is one of flags.
    pub(crate) fn can_poll(&self, word: u64) -> bool
        ensures { result ≡ true → polls.Fits self.now.poll word }
    {
        word < 8
    }
}

impl IdleStage {
    fn can_go_on(self, kept: &Kept, before: u64) -> bool
        ensures { result ≡ true → IdleFits kept.now self before }
    {
        let numbers = kept.numbers();
        match self {
            IdleStage::LoadingDemand => before <= u64::from(numbers.cycles),
            IdleStage::LookingFinished => before <= u64::from(numbers.mutators),
            IdleStage::StoringStop => true,
        }
    }
}

impl PauseStage {
    fn can_go_on(self, kept: &Kept, before: u64) -> bool
        ensures { result ≡ true → PauseFits kept.now self before }
    {
        match self {
            PauseStage::Draining(..) => GateWord::unpack(before).is_some(),
            PauseStage::LoadingRoot { .. } => kept.can_keep_root(before),
            _ => true,
        }
    }
}

impl BarrierStage {
    fn can_go_on(self, kept: &Kept, before: u64) -> bool
        ensures { result ≡ true → BarrierFits kept.now self before }
    {
        let _kept = kept;
        match self {
            BarrierStage::Loading(_) => before == 0,
            BarrierStage::Clearing(..) => true,
        }
    }
}

impl ChoiceStage {
    fn can_go_on(self, kept: &Kept, before: u64) -> bool
        ensures { result ≡ true → ChoiceFits kept.now self before }
    {
        let numbers = kept.numbers();
        match self {
            ChoiceStage::LoadingLive { .. } => LiveWord::unpack(before).is_some(),
            ChoiceStage::LoadingTop { .. } => before <= u64::from(numbers.words),
            ChoiceStage::LoadingHome(_) => {
                before < u64::from(numbers.servers * (numbers.tablets + numbers.spare))
            }
            _ => true,
        }
    }
}

impl NoticeStage {
    fn can_go_on(self, kept: &Kept, before: u64) -> bool
        ensures { result ≡ true → NoticeFits kept.now self before }
    {
        let _kept = kept;
        match self {
            NoticeStage::Looking(_) => before == 0 || NoticeWord::unpack(before).is_some(),
            NoticeStage::Clearing(_, NoticeWord::Done) => true,
            NoticeStage::Clearing(_, NoticeWord::Freed(_)) => false,
            NoticeStage::StoringIdle => true,
        }
    }
}

impl CollectStage {
    pub(crate) fn can_go_on(self, kept: &Kept, before: u64) -> bool
        ensures { result ≡ true → StageFits kept.now self before }
    {
        match self {
            CollectStage::Idle(stage) => stage.can_go_on(kept, before),
            CollectStage::Pausing(stage) => stage.can_go_on(kept, before),
            CollectStage::Barriers(stage) => stage.can_go_on(kept, before),
            CollectStage::Polling => kept.can_poll(before),
            CollectStage::Choosing(stage) => stage.can_go_on(kept, before),
            CollectStage::Noticing(stage) => stage.can_go_on(kept, before),
            _ => true,
        }
    }
}
