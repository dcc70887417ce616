// A good call put behind the last one: its mark, its bytes, and a zero behind them if there is room. And a log cleared.
ghost use Rattle.std.specs.Prelude.{◌≡◌, [], ◌∷◌, ◌++◌, ◌+◌, ◌≤◌, length};
ghost use Rattle.rules.specs.Bytes.{part, largest_size, written};
ghost use Rattle.rules.specs.Calls.{opens, closes, messages, ticks};
ghost use Rattle.rules.specs.Card.{card_room, card_loans};
ghost use Rattle.recall_log.specs.Kept.{zero_behind, appended, cleared, Behind};

use super::records::{CLOSE_MARK, MARK_END, MESSAGE_MARK, OPEN_MARK, TICK_END, TICK_MARK};

fn put_mark(l: &mut [u8], at: usize, mark: u8, second: u8)
    requires { at + 2 ≤ length l.old }
    ensures { l.new ≡ written l.old at (mark ∷ second ∷ []) }
{
    l[at] = mark;
    l[at + 1] = second;
}

// A zero is no mark: behind it no call is read.
fn put_zero(l: &mut [u8], end: usize)
    requires { end ≤ length l.old }
    ensures { l.new ≡ written l.old end (zero_behind end l.old) }
{
    if end < l.len() {
        l[end] = 0;
    }
}

// A record of two bytes, and the zero: an open's and a close's, which are two calls, differ in the mark alone.
fn keep_pair(l: &mut [u8], at: usize, mark: u8, conn: u8)
    requires { Behind l.old at }
    ensures { l.new ≡ written l.old at (mark ∷ conn ∷ zero_behind (at + 2) l.old) }
{
    put_mark(&mut *l, at, mark, conn);
    put_zero(&mut *l, at + MARK_END);
}

pub fn keep_open(l: &mut [u8], at: usize, conn: u8)
    requires { Behind l.old at }
    ensures { l.new ≡ appended (opens conn) l.old }
{
    keep_pair(&mut *l, at, OPEN_MARK, conn);
}

pub fn keep_close(l: &mut [u8], at: usize, conn: u8)
    requires { Behind l.old at }
    ensures { l.new ≡ appended (closes conn card_room) l.old }
{
    keep_pair(&mut *l, at, CLOSE_MARK, conn);
}

// Of what was read the first message, its 8 + MessageSize bytes and no more.
pub fn keep_message(l: &mut [u8], at: usize, conn: u8, read: &[u8], size: u16)
    requires behind { Behind l.old at }
    requires size_le_largest_size { size ≤ largest_size }
    requires size_in_bounds { 8 + size ≤ length read.now }
    ensures { l.new ≡ appended (messages conn (part 0 (8 + size) read.now) card_loans) l.old }
{
    let n = 8 + size as usize;
    let from = at + MARK_END;
    put_mark(&mut *l, at, MESSAGE_MARK, conn);
    writing::copy(&mut l[from..], &read[..n]);
    put_zero(&mut *l, from + n);
}

pub fn keep_tick(l: &mut [u8], at: usize, seconds: u32, micros: u32)
    requires { Behind l.old at }
    ensures { l.new ≡ appended (ticks seconds micros card_room) l.old }
{
    let from = at + MARK_END;
    let then = from + 4;
    put_mark(&mut *l, at, TICK_MARK, 0x00);
    writing::put4(&mut l[from..], seconds as u64);
    writing::put4(&mut l[then..], micros as u64);
    put_zero(&mut *l, at + TICK_END);
}

// Fresh clears the log.
pub fn clear(l: &mut [u8])
    ensures { l.new ≡ cleared l.old }
{
    l.fill(0);
}
