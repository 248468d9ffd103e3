//! What a server's tracing keeps: its scan, and where its machine stands. The machine itself stands
//! above this crate; polls speak of its steps.

use mako_words::{EntryWord, Name};

/// A scan of a record: the address of its header, its number of fields, and the next field.
#[derive(Clone, Copy)]
pub struct Scan {
    pub address: u32,
    pub fields: u8,
    pub next: u8,
}

/// A ring out of which a server takes names.
#[derive(Clone, Copy)]
pub enum Source {
    /// Its work ring.
    Collector,
    /// The ring from this server.
    Server(u32),
}

/// Sending the outgoing name to its server.
#[derive(Clone, Copy)]
pub enum SendStage {
    /// Next it loads the slot at the window's head.
    HeadLook(Name),
    /// The slot is empty, and it raises its flags ghost and changed.
    GhostRaise(Name),
    /// And then it stores the name.
    HeadStore(Name),
}

/// Scanning records.
#[derive(Clone, Copy)]
pub enum ScanStage {
    /// Next it loads the scan's next field.
    FieldLoad(Scan),
    /// It has taken this entry off its stack, and loads it.
    EntryLoad(u32),
    /// It has loaded the address of the entry's record, and loads the header there.
    HeaderLoad { entry: u32, address: u32 },
}

/// Taking names out of the incoming rings.
#[derive(Clone, Copy)]
pub enum ReceiveStage {
    /// Next it loads the slot at its position.
    SlotLook(Source),
    /// The slot holds the name, and it raises its flags busy and changed.
    BusyRaise { source: Source, name: Name },
    /// And then it stores 0 there.
    SlotClear { source: Source, name: Name },
}

/// Considering the name in its hand.
#[derive(Clone, Copy)]
pub enum MarkStage {
    /// Next it loads the name's entry.
    Considering(Name),
    /// The entry has another epoch, and it loads the header of the record.
    Measuring {
        name: Name,
        entry: EntryWord,
    },
    /// It stores the entry with the cycle's epoch.
    Marking {
        name: Name,
        entry: EntryWord,
        fields: u8,
    },
    /// It stores the tablet's live count, with the record's words added, and pushes the entry.
    Counting {
        name: Name,
        fields: u8,
    },
}

/// The end of a turn, with nothing in hand.
#[derive(Clone, Copy)]
pub enum RestStage {
    /// Next it lowers its flag busy.
    BusyLower,
    /// It loads the slot at the tail of its window to this server.
    TailLook(u32),
    /// All windows are empty, and it lowers its flag ghost.
    GhostLower,
}

/// Where a server's tracing stands.
#[derive(Clone, Copy)]
pub enum TraceStage {
    Sending(SendStage),
    Scanning(ScanStage),
    Receiving(ReceiveStage),
    Marking(MarkStage),
    Resting(RestStage),
    /// The turn has ended.
    Ended,
}
