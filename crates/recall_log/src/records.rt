// One record of the log, as the card program reads it: its kind, and how many bytes it takes.
// feed reads the same marks; the second engine has rules of its own (02, CR 12).
ghost use Rattle.std.specs.Prelude.{◌≡◌};
ghost use Rattle.rules.specs.Card.{next_message, next_tick};
ghost use Rattle.recall_log.specs.Kept.{record_of, record_in, span_of};

use super::Record;
use reading::LONGEST;
use reading::numbers::{number2, number4};

// What a record begins with.
pub const OPEN_MARK: u8 = 0x4F;

pub const CLOSE_MARK: u8 = 0x43;

pub const MESSAGE_MARK: u8 = 0x4D;

pub const TICK_MARK: u8 = 0x54;

// Where a record ends: an open or a close, a tick, and a message's header, behind which its data stands.
pub const MARK_END: usize = 2;

pub const TICK_END: usize = 10;

pub const HEADER_END: usize = 10;

fn message_at(l: &[u8]) -> Option<Record>
    ensures { result ≡ record_of (next_message l.now) }
{
    if l.len() < HEADER_END {
        return None;
    }
    let size = number2(l, 4);
    if LONGEST < size {
        return None;
    }
    if l.len() < HEADER_END + size as usize {
        return None;
    }
    Some(Record::Message(l[1], size))
}

fn tick_at(l: &[u8]) -> Option<Record>
    ensures { result ≡ record_of (next_tick l.now) }
{
    if l.len() < TICK_END {
        return None;
    }
    Some(Record::Tick(number4(l, 2), number4(l, 6)))
}

// "4F c", "43 c", "4D c" and a message, "54 00" and the time; a byte that is no mark begins no call.
pub fn record_at(l: &[u8]) -> Option<Record>
    ensures { result ≡ record_in l.now }
{
    match l {
        [OPEN_MARK, conn, ..] => Some(Record::Open(*conn)),
        [CLOSE_MARK, conn, ..] => Some(Record::Close(*conn)),
        [MESSAGE_MARK, _, ..] => message_at(l),
        [TICK_MARK, _, ..] => tick_at(l),
        _ => None,
    }
}

// The bytes that a record takes; none takes none.
pub fn span_of(r: Option<Record>) -> usize
    ensures { result ≡ span_of r }
{
    let Some(r) = r else {
        return 0;
    };
    match r {
        Record::Open(_) | Record::Close(_) => MARK_END,
        Record::Message(_, size) => HEADER_END + size as usize,
        Record::Tick(_, _) => TICK_END,
    }
}
