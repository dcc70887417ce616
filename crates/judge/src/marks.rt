// The entry that some bytes begin with: its mark first, then the bytes that it asks for.
ghost use Rattle.std.specs.Prelude.{◌≡◌, ◌<◌, cond, ltb, length, get_or};
ghost use Rattle.recording.specs.declared.Entry.TheVariants.{Cut};
ghost use Rattle.recording.specs.Recording.{marks_call, marks_record, marks_message, message_span, span, entry_in};

use feed::{HEADER_END, MARK_END, TICK_END};
use reading::LONGEST;
use reading::numbers::number2;
use recording::Entry;

// The marks of calls.
const OPEN: u8 = 0x4F;

const CLOSE: u8 = 0x43;

const MESSAGE: u8 = 0x4D;

const TICK: u8 = 0x54;

// The marks of what is written after a call.
const REFUSAL: u8 = 0x45;

const RECORD: u8 = 0x52;

// Three, as specs/Recording has three; a set of marks as a parameter would be no plainer.
fn marks_call(mark: u8) -> bool
    ensures { result ≡ marks_call mark }
{
    matches!(mark, OPEN | CLOSE | MESSAGE | TICK)
}

fn marks_record(mark: u8) -> bool
    ensures { result ≡ marks_record mark }
{
    matches!(mark, REFUSAL | RECORD)
}

fn marks_message(mark: u8) -> bool
    ensures { result ≡ marks_message mark }
{
    matches!(mark, MESSAGE | RECORD)
}

// "A message header with MessageSize above 4,088 ends its record."
fn message_span(l: &[u8]) -> usize
    ensures { result ≡ message_span l.now }
{
    if l.len() < HEADER_END {
        return HEADER_END;
    }
    let size = number2(l, 4);
    if LONGEST < size {
        return HEADER_END;
    }
    HEADER_END + size as usize
}

// The bytes that the mark and the header of an entry ask for.
fn span_of(l: &[u8], mark: u8) -> usize
    requires l_nonzero { 0 < length l.now }
    requires mark_value { mark ≡ get_or l.now 0 0 }
    ensures { result ≡ span l.now }
{
    if marks_message(mark) {
        return message_span(l);
    }
    if mark == TICK { TICK_END } else { MARK_END }
}

// The entry, if its n bytes are there.
fn whole(l: &[u8], n: usize, entry: Entry) -> Entry
    ensures { result ≡ cond (ltb (length l.now) n) Cut entry }
{
    if l.len() < n {
        return Entry::Cut;
    }
    entry
}

pub fn entry_at(l: &[u8]) -> Entry
    ensures { result ≡ entry_in l.now }
{
    if l.is_empty() {
        return Entry::End;
    }
    let mark = l[0];
    let n = span_of(l, mark);
    if marks_call(mark) {
        return whole(l, n, Entry::Made(n));
    }
    if marks_record(mark) {
        return whole(l, n, Entry::Wrote(n));
    }
    Entry::Another
}
