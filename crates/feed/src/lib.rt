// The card program's input, record by record, and its ChannelName.
#![tactic(auto)]

mod playing;

ghost use Rattle.std.specs.Prelude.{◌≡◌};
ghost use Rattle.rules.specs.Bytes.{padded};
ghost use Rattle.rules.specs.Card.{card_name};
ghost use Rattle.feed.specs.Feed.{record_in, message_in, tick_in};

pub use playing::play;
use reading::LONGEST;
use reading::numbers::{number2, number4};

// The marks that a record begins with. recall_log has its own: the second engine has rules of its own (02, CR 12).
pub const OPEN_MARK: u8 = 0x4F;

pub const CLOSE_MARK: u8 = 0x43;

pub const MESSAGE_MARK: u8 = 0x4D;

pub const TICK_MARK: u8 = 0x54;

// Where a record ends: an open or a close, a tick, and a message's header, behind which its data stands.
pub const MARK_END: usize = 2;

pub const TICK_END: usize = 10;

pub const HEADER_END: usize = 10;

// The record that some bytes begin with: a connection, the MessageSize, Seconds and MicroSeconds.
#[derive(Clone, Copy)]
pub enum Record {
    Open(u8),
    Close(u8),
    Message(u8, u16),
    Oversize(u8),
    Tick(u32, u32),
    Cut,
    Unknown,
}

// A record played: the bytes that it took, how much was written, and whether to go on. The flag stands beside both numbers: what took bytes
// may end the run, as an oversize header does, and what took none may wait, as a cut record does.
#[derive(Clone, Copy)]
pub struct Played {
    pub used: usize,
    pub len: usize,
    pub more: bool,
}

fn take_message(l: &[u8]) -> Record
    ensures { result ≡ message_in l.now }
{
    if l.len() < HEADER_END {
        return Record::Cut;
    }
    let size = number2(l, 4);
    if LONGEST < size {
        return Record::Oversize(l[1]);
    }
    if l.len() < HEADER_END + size as usize {
        return Record::Cut;
    }
    Record::Message(l[1], size)
}

fn take_tick(l: &[u8]) -> Record
    ensures { result ≡ tick_in l.now }
{
    if l.len() < TICK_END {
        return Record::Cut;
    }
    Record::Tick(number4(l, 2), number4(l, 6))
}

// "0x4F connection (open), 0x43 connection (close), 0x4D connection and one message, 0x54 0x00 and Seconds 4, MicroSeconds 4".
#[tactic(auto, using(crate::proofs::Laws::cut_at, crate::proofs::Laws::record_at))]
pub fn take(l: &[u8]) -> Record
    ensures { result ≡ record_in l.now }
{
    let [mark, conn, ..] = l else {
        return Record::Cut;
    };
    match *mark {
        OPEN_MARK => Record::Open(*conn),
        CLOSE_MARK => Record::Close(*conn),
        MESSAGE_MARK => take_message(l),
        TICK_MARK => take_tick(l),
        _ => Record::Unknown,
    }
}

// ChannelName is "CH1".
#[tactic(auto, unfolding(rules::specs::Card::card_name))]
pub fn channel() -> [u8; 32]
    ensures { result ≡ padded card_name }
{
    let mut r = [0; 32];
    r[..3].copy_from_slice(b"CH1");
    r
}
