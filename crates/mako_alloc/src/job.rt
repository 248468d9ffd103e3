//! What a `new` is to make, and how it goes about it.

ghost use Rattle.std.specs.Prelude.{◌≡◌, ◌<◌, ◌≤◌, ◌*◌, ◌%◌, ◌+◌, ◌↔◌, IsTrue};
ghost use Rattle.mako_shape.specs.Limits.{all_entries};
ghost use Rattle.mako_shape.specs.Places.{total};
ghost use Rattle.mako_step.specs.Acts.{IsWithin};
ghost use Rattle.mako_alloc.specs.Allocating as allocating;
ghost use Rattle.mako_alloc.specs.Allocating.{IsJob, IsKnown, IsPartKnown, IsRecord, FitsBy, all_tablets, tablet_at};

use crate::found::Found;
use crate::progress::{NewRecord, NewStage, Part, Progress};
use mako_model::Pause;
use mako_shape::Shape;
use mako_step::Step;
use mako_words::{EntryWord, GateWord, Name};

/// What a `new` is to make: an object of so many null fields, in this cycle, for this mutator.
#[derive(Clone, Copy)]
pub struct Job {
    pub shape: Shape,
    pub mutator: u32,
    pub fields: u8,
    pub cycle: u32,
}

/// The generation of the entry with this word, if the entry is free and has a generation left.
#[tactic(auto, unfolding(crate::specs::Allocating::free_generation))]
fn free_generation(word: u64, generations: u32) -> Option<u32>
    ensures { result ≡ allocating.free_generation generations word }
{
    match EntryWord::unpack(word) {
        Some(entry) if !entry.taken && entry.generation < generations => Some(entry.generation),
        _ => None,
    }
}

impl Job {
    /// The tablets of all servers.
    fn tablets(&self) -> u32
        requires { IsJob self.now }
        ensures tablets { result ≡ all_tablets self.now.shape }
        ensures some { 0 < result }
        ensures few { result ≤ 2048 }
    {
        let numbers = self.shape.numbers();
        numbers.servers * numbers.tablets
    }

    /// The tablet that it is at after so many others.
    fn tablet(&self, passed: u32) -> u32
        requires job { IsJob self.now }
        requires passed { passed < all_tablets self.now.shape }
        ensures tablet { result ≡ tablet_at self.now passed }
        ensures below { result < all_tablets self.now.shape }
    {
        (self.mutator + passed) % self.tablets()
    }

    /// The number of an entry among those of all tablets, by its place in its tablet.
    fn entry(&self, tablet: u32, place: u32) -> u32
        requires job { IsJob self.now }
        requires tablet { tablet < all_tablets self.now.shape }
        requires place { place < self.now.shape.entries }
        ensures entry { result ≡ tablet * self.now.shape.entries + place }
        ensures below { result < all_entries self.now.shape }
    {
        tablet * self.shape.numbers().entries + place
    }

    /// The index of a word of the record, by its place behind the header.
    #[tactic(auto, using(crate::proofs::Bounds::record_word_index))]
    fn record_word(&self, made: NewRecord, place: u8) -> u32
        requires job { IsJob self.now }
        requires made { IsRecord self.now made }
        requires place { place ≤ self.now.fields }
        ensures index { result ≡ allocating.record_word self.now.shape made place }
        ensures below { result < total self.now.shape }
    {
        self.shape.region(made.home) + made.top + u32::from(place)
    }

    /// The entry's word once the object is published.
    fn published(&self, made: NewRecord) -> u64
        requires job { IsJob self.now }
        requires made { IsRecord self.now made }
        ensures { result ≡ allocating.published self.now made }
    {
        let entry = EntryWord {
            taken: true,
            generation: made.name.generation,
            epoch: self.cycle,
            address: self.record_word(made, 0),
        };
        entry.pack()
    }

    /// What it does next.
    pub(crate) fn next(&self, progress: &Progress) -> Step
        requires { IsKnown self.now progress.now }
        ensures next { result ≡ allocating.next_by self.now progress.now }
        ensures within { IsWithin (total self.now.shape) result }
    {
        let tablet = self.tablet(progress.passed);
        match progress.stage {
            NewStage::Arriving => Step::add(self.shape.tablet_gate(tablet), 1),
            NewStage::TakingTurn => {
                Step::exchange(self.shape.turn(tablet), 0, u64::from(self.mutator) + 1)
            }
            NewStage::LoadingLeaving => Step::load(self.shape.leaving(tablet)),
            NewStage::LoadingTop => Step::load(self.shape.top(tablet)),
            NewStage::LoadingEntry { place, .. } => {
                Step::load(self.shape.entry(self.entry(tablet, place)))
            }
            NewStage::LoadingHome { .. } => Step::load(self.shape.home(tablet)),
            NewStage::Making(made, part) => self.next_part(tablet, made, part),
            NewStage::GivingTurn => Step::store(self.shape.turn(tablet), 0),
            NewStage::TurnedAway | NewStage::Leaving => Step::sub(
                self.shape.tablet_gate(tablet),
                1,
            ),
            NewStage::Ended(_) => Step::Ended,
        }
    }

    fn next_part(&self, tablet: u32, made: NewRecord, part: Part) -> Step
        requires job { IsJob self.now }
        requires tablet { tablet < all_tablets self.now.shape }
        requires made { IsRecord self.now made }
        requires part { IsPartKnown self.now part }
        ensures next { result ≡ allocating.part_next self.now tablet made part }
        ensures within { IsWithin (total self.now.shape) result }
    {
        let fields = u64::from(self.fields);
        match part {
            Part::Header => Step::store(self.record_word(made, 0), fields),
            Part::Field(field) => Step::store(self.record_word(made, field + 1), 0),
            Part::Top => Step::store(self.shape.top(tablet), u64::from(made.top) + fields + 1),
            Part::Entry => Step::store(self.shape.entry(made.name.entry), self.published(made)),
        }
    }

    /// Whether it can go on with this word.
    #[tactic(auto, using(crate::proofs::Bounds::small_is_gate, crate::proofs::Bounds::gate_is_small))]
    pub(crate) fn can_go_on(&self, progress: &Progress, before: u64) -> bool
        ensures { IsTrue result ↔ FitsBy self.now.shape progress.now.stage before }
    {
        let numbers = self.shape.numbers();
        match progress.stage {
            NewStage::Arriving => before < 2 * GateWord::SHUT,
            NewStage::LoadingTop => before <= u64::from(numbers.words),
            NewStage::LoadingHome { .. } => {
                before < u64::from(numbers.servers * (numbers.tablets + numbers.spare))
            }
            _ => true,
        }
    }

    /// How far it has come after the word that its act found.
    pub(crate) fn after(&self, progress: &Progress, before: u64) -> Progress
        requires known { IsKnown self.now progress.now }
        requires fits { FitsBy self.now.shape progress.now.stage before }
        ensures { result ≡ allocating.progress_fed self.now progress.now before }
    {
        let tablet = self.tablet(progress.passed);
        match progress.stage {
            NewStage::Arriving if before >= GateWord::SHUT => {
                let word = before;
                progress.noted(Pause::Shut { tablet, word }, NewStage::TurnedAway)
            }
            NewStage::Arriving => progress.at(NewStage::TakingTurn),
            NewStage::TakingTurn if before != 0 => {
                let word = before;
                progress.noted(Pause::Busy { tablet, word }, NewStage::Leaving)
            }
            NewStage::TakingTurn => progress.at(NewStage::LoadingLeaving),
            NewStage::LoadingLeaving if before != 0 => {
                let word = before;
                progress.noted(Pause::Moving { tablet, word }, NewStage::GivingTurn)
            }
            NewStage::LoadingLeaving => progress.at(NewStage::LoadingTop),
            NewStage::LoadingTop => progress.at(self.after_top(before)),
            NewStage::LoadingEntry { top, place } => {
                progress.at(self.after_entry(tablet, top, place, before))
            }
            NewStage::LoadingHome { top, name } => {
                let home = before as u32;
                progress.at(NewStage::Making(NewRecord { name, home, top }, Part::Header))
            }
            NewStage::Making(made, part) => progress.at(self.after_part(tablet, made, part)),
            NewStage::GivingTurn => progress.at(NewStage::Leaving),
            NewStage::TurnedAway | NewStage::Leaving => self.passed_on(progress),
            NewStage::Ended(_) => *progress,
        }
    }

    fn after_top(&self, top: u64) -> NewStage
        requires job { IsJob self.now }
        requires top { top ≤ self.now.shape.words }
        ensures { result ≡ allocating.top_fed self.now top }
    {
        if top + u64::from(self.fields) + 1 <= u64::from(self.shape.numbers().words) {
            self.seeking(top as u32, 0)
        } else {
            NewStage::GivingTurn
        }
    }

    fn after_entry(&self, tablet: u32, top: u32, place: u32, word: u64) -> NewStage
        requires job { IsJob self.now }
        requires tablet { tablet < all_tablets self.now.shape }
        requires place { place < self.now.shape.entries }
        ensures { let generation = allocating.free_generation self.now.shape.generations word in
            result ≡ allocating.entry_fed self.now tablet top place generation }
    {
        match free_generation(word, self.shape.numbers().generations) {
            Some(generation) => {
                let entry = self.entry(tablet, place);
                let name = Name { entry, generation };
                NewStage::LoadingHome { top, name }
            }
            None => self.seeking(top, place + 1),
        }
    }

    /// The entry at this place, or past the last one the way out.
    fn seeking(&self, top: u32, place: u32) -> NewStage
        requires { IsJob self.now }
        ensures { result ≡ allocating.seeking self.now top place }
    {
        if place < self.shape.numbers().entries {
            NewStage::LoadingEntry { top, place }
        } else {
            NewStage::GivingTurn
        }
    }

    fn after_part(&self, tablet: u32, made: NewRecord, part: Part) -> NewStage
        requires job { IsJob self.now }
        requires part { IsPartKnown self.now part }
        ensures { result ≡ allocating.part_fed self.now tablet made part }
    {
        match part {
            Part::Header => NewStage::Making(made, self.field_or_top(0)),
            Part::Field(field) => NewStage::Making(made, self.field_or_top(field + 1)),
            Part::Top => NewStage::Making(made, Part::Entry),
            Part::Entry => {
                let name = made.name;
                NewStage::Ended(Found::Made { name, tablet })
            }
        }
    }

    /// The field with this number, or past the last one the top.
    fn field_or_top(&self, field: u8) -> Part
        ensures { result ≡ allocating.field_or_top self.now field }
    {
        if field < self.fields {
            Part::Field(field)
        } else {
            Part::Top
        }
    }

    /// On to the next tablet, or to the end.
    fn passed_on(&self, progress: &Progress) -> Progress
        requires { IsKnown self.now progress.now }
        ensures { result ≡ allocating.passed_on self.now progress.now }
    {
        let passed = progress.passed + 1;
        if passed == self.tablets() {
            return progress.at(NewStage::Ended(progress.outcome()));
        }
        Progress {
            passed,
            note: progress.note,
            stage: NewStage::Arriving,
        }
    }
}
