// The lent log of the engine that only remembers: its records, when it is full, a call put behind the last.
#![tactic(auto)]

mod keeping;
mod records;

ghost use Rattle.std.specs.Prelude.{◌≡◌};
ghost use Rattle.recall_log.specs.declared.Refused.TheVariants.{Rule};
ghost use Rattle.recall_log.specs.Kept.{Counts, space_in};

pub use keeping::{clear, keep_close, keep_message, keep_open, keep_tick};
pub use records::{
    CLOSE_MARK, HEADER_END, MARK_END, MESSAGE_MARK, OPEN_MARK, TICK_MARK, record_at, span_of,
};
use reply::Did;
use rules::Refusal;

// "a lent log of 65,536 bytes"
pub const LOG: usize = 65536;

// "the good calls, up to 256"
const MOST: usize = 256;

// "under 4,098 of its bytes are free"
const LONGEST_RECORD: usize = 4098;

// What stands in the log at a place: a connection, the MessageSize, Seconds and MicroSeconds.
#[derive(Clone, Copy)]
pub enum Record {
    Open(u8),
    Close(u8),
    Message(u8, u16),
    Tick(u32, u32),
}

// What is in a log: how many calls, and the bytes that they take.
#[derive(Clone, Copy)]
pub struct Held {
    pub calls: usize,
    pub taken: usize,
}

// Why this engine refuses: 13, or the rules' refusal.
#[derive(Clone, Copy)]
pub enum Refused {
    Full,
    Rule(Refusal),
}

impl From<Refusal> for Refused {
    ghost from_gives = { λ n r. r ≡ Rule n };

    fn from(n: Refusal) -> Refused {
        Refused::Rule(n)
    }
}

// What this engine answers.
pub type Reply = Result<Did, Refused>;

// From call to call, up to the first byte that begins none.
fn count(l: &[u8]) -> Held
    ensures { Counts l.now result }
{
    let mut at = 0;
    let mut n = 0;
    while let Some(r) = record_at(&l[at..]) {
        at += span_of(Some(r));
        n += 1;
    }
    Held {
        calls: n,
        taken: at,
    }
}

// 13, "exactly when the log isn't 65,536 bytes, 256 calls are kept or under 4,098 of its bytes are free".
pub fn next_place(l: &[u8]) -> Option<usize>
    ensures { result ≡ space_in l.now }
{
    if l.len() != LOG {
        return None;
    }
    let h = count(l);
    if MOST <= h.calls {
        return None;
    }
    if LOG - h.taken < LONGEST_RECORD {
        return None;
    }
    Some(h.taken)
}
