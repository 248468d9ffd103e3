//! Whether a machine can go on with a word. A word that is not read may be any.

ghost use Rattle.std.specs.Prelude.{◌↔◌, ◌<◌, ◌≤◌, ◌+◌, ◌*◌, IsTrue};
ghost use Rattle.mako_call.specs.Asking.{AskFits, CountsFrom};
ghost use Rattle.mako_call.specs.Entering.{EnterFits};
ghost use Rattle.mako_call.specs.Getting.{GetFits};
ghost use Rattle.mako_call.specs.Moving.{MoveFits};
ghost use Rattle.mako_call.specs.Allocating.{NewFits};
ghost use Rattle.mako_call.specs.Putting.{PutFits};
ghost use Rattle.mako_call.specs.Rooting.{RootFits};
ghost use Rattle.mako_call.specs.Objects.{ValueIsKnown};
ghost use Rattle.mako_shape.specs.Belongings.{IsAddress};
ghost use Rattle.mako_shape.specs.Places.{total};
ghost use Rattle.mako_words.specs.Entries.{entry_at};
ghost use Rattle.mako_words.specs.Gates.{IsPackedGate};
ghost use Rattle.mako_words.specs.Phases.{IsPackedPhase, phase_at, cycle_of};
ghost use Rattle.mako_words.specs.Values.{IsPacked, value_at};

use crate::allocating::AllocStage;
use crate::asking::{self, AskStage};
use crate::entering::EnterStage;
use crate::getting::GetStage;
use crate::moving::MoveStage;
use crate::object::Located;
use crate::putting::PutStage;
use crate::rooting::RootStage;
use crate::words::entry_of;
use mako_shape::Shape;
use mako_words::{GateWord, PhaseWord, Value};

/// Whether the word is that of a value.
fn is_value(word: u64) -> bool
    ensures { IsTrue result ↔ IsPacked word }
{
    Value::unpack(word).is_some()
}

/// Whether the word is that of a phase.
fn is_phase(word: u64) -> bool
    ensures { IsTrue result ↔ IsPackedPhase word }
{
    PhaseWord::unpack(word).is_some()
}

/// Whether the word is that of a value, which if it is a name is one of an entry that there is.
fn is_known_value(shape: &Shape, word: u64) -> bool
    ensures { IsTrue result ↔ (IsPacked word × ValueIsKnown shape.now (value_at word)) }
{
    let numbers = shape.numbers();
    match Value::unpack(word) {
        Some(Value::Ref(name)) => {
            name.entry < numbers.servers * numbers.tablets * numbers.entries
        }
        Some(_) => true,
        None => false,
    }
}

/// Whether the entry of this word has an address in the regions.
#[tactic(auto, using(crate::proofs::ReadWords::some_regions, crate::proofs::ReadWords::some_region_words))]
fn has_address(shape: &Shape, word: u64) -> bool
    ensures { IsTrue result ↔ IsAddress shape.now (entry_at word).address }
{
    let numbers = shape.numbers();
    let regions = numbers.servers * (numbers.tablets + numbers.spare);
    let address = entry_of(word).address;
    regions > 0 && shape.region(0) <= address && address < shape.words()
}

impl RootStage {
    pub(crate) fn can_go_on(self, shape: &Shape, before: u64) -> bool
        ensures { IsTrue result ↔ RootFits shape.now self before }
    {
        match self {
            RootStage::LoadingCopied { .. }
            | RootStage::LoadingShown { .. }
            | RootStage::LoadingValue { .. } => is_value(before),
            RootStage::LoadingSource { .. } | RootStage::LoadingTarget { .. } => {
                is_known_value(shape, before)
            }
            RootStage::LoadingPhase { .. } => is_phase(before),
            _ => true,
        }
    }
}

impl EnterStage {
    pub(crate) fn can_go_on(self, shape: &Shape, before: u64) -> bool
        ensures { IsTrue result ↔ EnterFits shape.now self before }
    {
        match self {
            EnterStage::Arriving => is_gate(before),
            EnterStage::LoadingEntry => has_address(shape, before),
            EnterStage::LoadingHome(_) => is_region(shape, before),
        }
    }
}

impl MoveStage {
    pub(crate) fn can_go_on(self, shape: &Shape, before: u64) -> bool
        ensures { IsTrue result ↔ MoveFits shape.now self before }
    {
        match self {
            MoveStage::LoadingEntry { .. } => has_address(shape, before),
            MoveStage::Copying(copier) => copier.can_go_on(before),
            _ => true,
        }
    }
}

impl GetStage {
    pub(crate) fn can_go_on(self, shape: &Shape, located: Located, before: u64) -> bool
        ensures { IsTrue result ↔ GetFits shape.now located self before }
    {
        match self {
            GetStage::LoadingHeader => is_record(shape, located, before),
            GetStage::LoadingField => is_value(before),
            GetStage::StoringRoot(_) => true,
        }
    }
}

impl PutStage {
    pub(crate) fn can_go_on(self, shape: &Shape, located: Located, before: u64) -> bool
        ensures { IsTrue result ↔ PutFits shape.now located self before }
    {
        match self {
            PutStage::LoadingHeader => is_record(shape, located, before),
            PutStage::LoadingOld => is_value(before),
            _ => true,
        }
    }
}

impl AllocStage {
    pub(crate) fn can_go_on(self, shape: &Shape, before: u64) -> bool
        ensures { IsTrue result ↔ NewFits shape.now self before }
    {
        match self {
            AllocStage::LoadingPhase { .. } => is_phase_within(shape, before),
            AllocStage::Searching { search, .. } => search.can_go_on(before),
            _ => true,
        }
    }
}

impl AskStage {
    pub(crate) fn can_go_on(self, shape: &Shape, before: u64) -> bool
        ensures { IsTrue result ↔ AskFits shape.now self before }
    {
        match self {
            AskStage::LoadingPhase => is_phase_within(shape, before),
            AskStage::RaisingDemand { .. } => true,
            AskStage::Awaiting { .. } => is_phase_counted(before),
        }
    }
}

/// Whether the word is that of a gate.
#[tactic(auto, using(crate::proofs::ReadWords::small_is_gate, crate::proofs::ReadWords::gate_is_small))]
pub(crate) fn is_gate(word: u64) -> bool
    ensures { IsTrue result ↔ IsPackedGate word }
{
    word < 2 * GateWord::SHUT
}

/// Whether the word is the number of a region.
fn is_region(shape: &Shape, word: u64) -> bool
    ensures { IsTrue result ↔ (word < shape.now.servers * (shape.now.tablets + shape.now.spare)) }
{
    let numbers = shape.numbers();
    word < u64::from(numbers.servers * (numbers.tablets + numbers.spare))
}

/// Whether a record with this header lies within all words.
fn is_record(shape: &Shape, located: Located, header: u64) -> bool
    ensures { IsTrue result ↔ (located.address + header < total shape.now) }
{
    let words = u64::from(shape.words());
    let address = u64::from(located.address);
    address < words && header < words - address
}

/// Whether the word is that of a phase, whose cycle is one of the geometry.
fn is_phase_within(shape: &Shape, word: u64) -> bool
    ensures { IsTrue result ↔ (IsPackedPhase word × (cycle_of (phase_at word) ≤ shape.now.cycles)) }
{
    let cycles = shape.numbers().cycles;
    match PhaseWord::unpack(word) {
        Some(phase) => asking::cycle_of(phase) <= cycles,
        None => false,
    }
}

/// Whether the word is that of a phase, in which a cycle that runs has a number from 1 on.
fn is_phase_counted(word: u64) -> bool
    ensures { IsTrue result ↔ (IsPackedPhase word × CountsFrom (phase_at word)) }
{
    match PhaseWord::unpack(word) {
        Some(PhaseWord::Trace(cycle) | PhaseWord::Evac(cycle)) => cycle >= 1,
        Some(_) => true,
        None => false,
    }
}
