//! Part 2: scanning records.

ghost use Rattle.std.specs.Prelude.{◌≡◌, ◌<◌};
ghost use Rattle.mako_shape.specs.Places.{total};
ghost use Rattle.mako_step.specs.Acts.{IsWithin};
ghost use Rattle.mako_ring.specs.Tracing as tracing;
ghost use Rattle.mako_ring.specs.declared.tracing.TraceStage.TheVariants as stages;
ghost use Rattle.mako_trace.specs.Held.{tracer_in, IsHeld, SameRoom, ScanStageKnown};

use crate::holdings::Holdings;
use crate::words::{entry_of, value_of};
use mako_ring::{MarkStage, Scan, ScanStage, TraceStage};
use mako_step::Step;
use mako_words::Value;

/// The scan behind the next field, if there are fields left.
fn behind_field(scan: Scan) -> Option<Scan>
    requires { scan.next < scan.fields }
    ensures { result ≡ tracing.behind_field scan }
{
    if scan.next + 1 == scan.fields {
        return None;
    }
    Some(Scan {
        address: scan.address,
        fields: scan.fields,
        next: scan.next + 1,
    })
}

/// The scan of a record, if it has fields.
fn scan_of(address: u32, fields: u8) -> Option<Scan>
    ensures { result ≡ tracing.scan_of address fields }
{
    if fields == 0 {
        return None;
    }
    Some(Scan {
        address,
        fields,
        next: 0,
    })
}

impl Holdings {
    pub(crate) fn scan_next(&self, stage: ScanStage) -> Step
        requires held { IsHeld (tracer_in self.now stages.Ended) }
        requires stage { ScanStageKnown (tracer_in self.now stages.Ended) stage }
        ensures next { result ≡ tracing.scan_next (tracer_in self.now stages.Ended) stage }
        ensures within { IsWithin (total self.now.shape) result }
    {
        match stage {
            ScanStage::FieldLoad(scan) => Step::load(scan.address + 1 + u32::from(scan.next)),
            ScanStage::EntryLoad(entry) => Step::load(self.shape.entry(entry)),
            ScanStage::HeaderLoad { address, .. } => Step::load(address),
        }
    }

    pub(crate) fn scan_fed(&mut self, stage: ScanStage, before: u64) -> TraceStage
        requires stage { ScanStageKnown (tracer_in self.old stages.Ended) stage }
        requires fits { tracing.ScanFits (tracer_in self.old stages.Ended) stage before }
        ensures fed { tracer_in self.new result ≡ tracing.scan_fed (tracer_in self.old stages.Ended) stage before }
        ensures room { SameRoom self.old self.new }
    {
        match stage {
            ScanStage::FieldLoad(scan) => {
                self.scan = behind_field(scan);
                self.field_found(value_of(before))
            }
            ScanStage::EntryLoad(entry) => {
                let address = entry_of(before).address;
                TraceStage::Scanning(ScanStage::HeaderLoad { entry, address })
            }
            ScanStage::HeaderLoad { address, .. } => {
                self.scan = scan_of(address, before as u8);
                self.next_work()
            }
        }
    }

    /// With a value that was found in a field: an own name is considered, and one of another server
    /// becomes outgoing.
    fn field_found(&mut self, value: Value) -> TraceStage
        requires { tracing.FieldFits self.old.shape value }
        ensures fed { tracer_in self.new result ≡ tracing.field_found (tracer_in self.old stages.Ended) value }
        ensures room { SameRoom self.old self.new }
    {
        let Value::Ref(name) = value else {
            return self.next_work();
        };
        if self.owner(name) == self.server {
            return TraceStage::Marking(MarkStage::Considering(name));
        }
        self.outgoing = Some(name);
        self.next_work()
    }
}
