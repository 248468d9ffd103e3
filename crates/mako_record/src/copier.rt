//! The copy of a record.

ghost use Rattle.std.specs.Prelude.{◌≡◌, ◌<◌, ◌+◌, ◌*◌, ◌↔◌, IsTrue, false};
ghost use Rattle.mako_words.specs.Entries.{FitsEntry};
ghost use Rattle.mako_shape.specs.Limits.{all_entries};
ghost use Rattle.mako_shape.specs.Places.{total};
ghost use Rattle.mako_shape.specs.Belongings.{IsAddress};
ghost use Rattle.mako_step.specs.Acts.{IsWithin};
ghost use Rattle.mako_step.specs.declared.step.Step.TheVariants as steps;
ghost use Rattle.mako_record.specs.Copying as copying;

use mako_shape::Shape;
use mako_step::{Machine, Step};
use mako_words::EntryWord;
use std::marker::Model;

/// Where a copy stands. An offset is the number of words of the home region that are used before the
/// copy, fields are those of the record, and a field is the number of the next one.
#[derive(Clone, Copy)]
pub enum CopyStage {
    LoadingTop,
    LoadingHeader {
        offset: u32,
    },
    StoringHeader {
        offset: u32,
        fields: u32,
    },
    LoadingField {
        offset: u32,
        fields: u32,
        field: u32,
    },
    /// It holds the word of the field.
    StoringField {
        offset: u32,
        fields: u32,
        field: u32,
        word: u64,
    },
    StoringEntry {
        offset: u32,
        fields: u32,
    },
    RaisingTop {
        offset: u32,
        fields: u32,
    },
    /// The address of the copy.
    Ended {
        address: u32,
    },
}

/// Copies the record of a table entry to the top of its tablet's home region, and gives the entry the
/// new address. Only who holds the tablet's turn, or has drained its gate, may copy.
#[derive(Clone, Copy)]
pub struct Copier {
    shape: Shape,
    number: u32,
    entry: EntryWord,
    home: u32,
    stage: CopyStage,
}

impl Model for Copier {
    ghost use Rattle.mako_record.specs.Copying.{Copying};

    ghost Value = { Copying };

    ghost use Rattle.mako_record.specs.Copying.{IsKnown};

    ghost view = { λ c. record {
      shape = c.shape;
      number = c.number;
      entry = c.entry;
      home = c.home;
      stage = c.stage;
    } };

    ghost invariant = { λ c. IsKnown (record {
      shape = c.shape;
      number = c.number;
      entry = c.entry;
      home = c.home;
      stage = c.stage;
    }) };

    ghost inverse = { λ v. record {
      shape = v.shape;
      number = v.number;
      entry = v.entry;
      home = v.home;
      stage = v.stage;
    } };
}

impl Copier {
    ghost use Rattle.mako_record.specs.declared.copier.CopyStage.TheVariants as stages;

    /// A copy of the record of the entry with this number, of which `entry` was loaded, into the region
    /// that is the home of the entry's tablet.
    pub fn new(shape: Shape, number: u32, entry: EntryWord, home: u32) -> Copier
        requires number { number < all_entries shape }
        requires fits { FitsEntry entry }
        requires address { IsAddress shape entry.address }
        requires home { home < shape.servers * (shape.tablets + shape.spare) }
        ensures { result ≡ copying.opening_copy shape number entry home }
    {
        Copier {
            shape,
            number,
            entry,
            home,
            stage: CopyStage::LoadingTop,
        }
    }

    /// The address of the copy, an index among all words.
    pub fn result(&self) -> u32
        requires { copying.next_of self.now ≡ steps.Ended }
        ensures stage { self.now.stage ≡ stages.Ended result }
        ensures address { IsAddress self.now.shape result }
    {
        match self.stage {
            CopyStage::Ended { address } => address,
            _ => unreachable!(),
        }
    }

    /// Whether the copy can go on with this word. A word that is not read may be any.
    pub fn can_go_on(&self, before: u64) -> bool
        ensures { IsTrue result ↔ copying.Fits self.now before }
    {
        let words = u64::from(self.shape.numbers().words);
        match self.stage {
            CopyStage::LoadingTop => before <= words,
            CopyStage::LoadingHeader { offset } => {
                before <= 14
                    && u64::from(self.entry.address) + before < u64::from(self.shape.words())
                    && u64::from(offset) + before < words
            }
            _ => true,
        }
    }

    /// The index of the top of the entry's tablet.
    fn top(&self) -> u32
        ensures index { result ≡ copying.top_index self.now }
        ensures below { result < total self.now.shape }
    {
        self.shape.top(self.number / self.shape.numbers().entries)
    }

    /// The index of the word of the home region that has this many words before it there.
    fn target(&self, offset: u32) -> u32
        requires { offset < self.now.shape.words }
        ensures target { result ≡ copying.copied_to self.now.shape self.now.home offset }
        ensures address { IsAddress self.now.shape result }
    {
        self.shape.region(self.home) + offset
    }
}

impl Machine for Copier {
    type Event = ();

    ghost next_of = { copying.next_of };

    ghost Fits = { copying.Fits };

    ghost fed = { copying.fed };

    ghost event_of = { λ _ _. tt };

    ghost is_waiting = { λ _ _. false };

    ghost is_renewed = { λ _ _. false };

    ghost rank = { copying.rank };

    fn next(&self) -> Step
        ensures next { result ≡ copying.next_of self.now }
        ensures within { IsWithin (total self.now.shape) result }
    {
        match self.stage {
            CopyStage::LoadingTop => Step::load(self.top()),
            CopyStage::LoadingHeader { .. } => Step::load(self.entry.address),
            CopyStage::StoringHeader { offset, fields } => {
                Step::store(self.target(offset), u64::from(fields))
            }
            CopyStage::LoadingField { field, .. } => Step::load(self.entry.address + 1 + field),
            CopyStage::StoringField {
                offset,
                field,
                word,
                ..
            } => Step::store(self.target(offset + 1 + field), word),
            CopyStage::StoringEntry { offset, .. } => {
                let moved = EntryWord {
                    address: self.target(offset),
                    ..self.entry
                };
                Step::store(self.shape.entry(self.number), moved.pack())
            }
            CopyStage::RaisingTop { offset, fields } => {
                Step::store(self.top(), u64::from(offset + fields + 1))
            }
            CopyStage::Ended { .. } => Step::Ended,
        }
    }

    fn waits(&self, _before: u64) -> bool {
        false
    }

    fn feed(&mut self, before: u64) {
        self.stage = match self.stage {
            CopyStage::LoadingTop => CopyStage::LoadingHeader {
                offset: before as u32,
            },
            CopyStage::LoadingHeader { offset } => CopyStage::StoringHeader {
                offset,
                fields: before as u32,
            },
            CopyStage::StoringHeader { offset, fields } => before_field(offset, fields, 0),
            CopyStage::LoadingField {
                offset,
                fields,
                field,
            } => CopyStage::StoringField {
                offset,
                fields,
                field,
                word: before,
            },
            CopyStage::StoringField {
                offset,
                fields,
                field,
                ..
            } => before_field(offset, fields, field + 1),
            CopyStage::StoringEntry { offset, fields } => CopyStage::RaisingTop { offset, fields },
            CopyStage::RaisingTop { offset, .. } => CopyStage::Ended {
                address: self.target(offset),
            },
            CopyStage::Ended { address } => CopyStage::Ended { address },
        };
    }
}

/// The stage before the field with this number, or before the entry where there are no more.
fn before_field(offset: u32, fields: u32, field: u32) -> CopyStage
    ensures { result ≡ copying.before_field offset fields field }
{
    if field < fields {
        CopyStage::LoadingField {
            offset,
            fields,
            field,
        }
    } else {
        CopyStage::StoringEntry { offset, fields }
    }
}
