// Documents 01 and 02 as definitions, in specs/, and the types that they share with code.
// This file only declares what they speak of: units, a parsed message, a session and its end, a refusal.
#![tactic(auto)]

// A wire time counts microseconds.
#[derive(Clone, Copy, PartialEq, Eq, PartialOrd, Ord)]
pub struct Micros(pub u64);

// A Duration counts 90 kHz ticks.
#[derive(Clone, Copy, PartialEq, Eq, PartialOrd, Ord)]
pub struct Ticks(pub u32);

// The clock and all instants are kept in ninths of a microsecond.
#[derive(Clone, Copy, PartialEq, Eq, PartialOrd, Ord, Default)]
pub struct Ninths(pub u64);

// A Splice_Request's start is either timed or linked (by the PriorSession).
#[derive(Clone, Copy)]
pub enum Start {
    Timed(Micros),
    Linked(u32),
}

// What is read of a Splice_Request.
#[derive(Clone, Copy)]
pub struct Request {
    pub id: u32,
    pub start: Start,
    pub duration: Ticks,
    pub event: u32,
    pub access: u8,
    pub overrides: u8,
    pub mux: u8,
}

// A parsed message is one of its kinds. Init holds the Revision_Num; its names and its Hardware_Config stay in the message's data.
#[derive(Clone, Copy)]
pub enum Message {
    Init(u16),
    Alive,
    Splice(Request),
    Abort(u32),
    Extended(u32),
    Config,
}

// A session that is held: its connection, SessionID and PriorSession (0xFFFFFFFF if timed), start and end,
// AccessType, OverridePlaying, what it asks of the multiplexer (MuxPriorityValue), its SpliceEventID, and its time on air.
#[derive(Clone, Copy, Default)]
pub struct Session {
    pub conn: u64,
    pub id: u64,
    pub prior: u64,
    pub start: Ninths,
    pub end: Ninths,
    pub access: u64,
    pub overrides: u64,
    pub mux: u64,
    pub event: u64,
    pub played: Ninths,
}

// What is kept of a session that has ended (02, CR 8): its connection, SessionID and SpliceEventID, the result of its end, and its time on
// air in ticks. All 0 where none is kept.
#[derive(Clone, Copy, Default)]
pub struct Past {
    pub conn: u64,
    pub id: u64,
    pub event: u64,
    pub result: u64,
    pub played: u64,
}

// How a session ends: by a SpliceComplete with flag 1 and a result, by a SpliceComplete with flag 0 and 109 (its start
// failed), or by a Splice_Response with a result.
#[derive(Clone, Copy)]
pub enum Ending {
    Complete(u16),
    Failed,
    Response(u16),
}

// What a connection is.
#[derive(Clone, Copy, PartialEq, Eq)]
pub enum Link {
    Closed,
    Opened,
    Initialised,
}

// The refusals of document 01's table and of 02's requests; `house_number` of specs/Calls gives each its number.
#[derive(Clone, Copy)]
pub enum Refusal {
    NoConnection,
    NoRoom,
    ClockBack,
    Oversize,
    Short,
    AlreadyOpen,
    NotOpen,
    BadMicros,
    BadName,
    Counter,
    BadSection,
    LongSection,
    NotSixteen,
}

// Of the first message of what was read: its MessageID and MessageSize.
#[derive(Clone, Copy)]
pub struct Header {
    pub id: u16,
    pub size: u16,
}

// What comes of a section of cues: it is passed on, with the 33-bit PTS of its cue or without a time; nothing comes of it; or it is bad.
#[derive(Clone, Copy)]
pub enum Cue {
    At(u64),
    Timeless,
    Silent,
    Bad,
}

// A time as it stands on the wire.
#[derive(Clone, Copy)]
pub struct WireTime {
    pub seconds: u32,
    pub micros: u32,
}
