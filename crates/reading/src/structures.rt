// 02, CR 1: where the structures of a request end that names its PIDs itself. The walk that judges them; crate streams reads them.
ghost use Rattle.std.specs.Prelude.{◌≡◌, ◌≤◌, length};
ghost use Rattle.rules.specs.Streams.{bad_stream, pid_count, most_streams};
ghost use Rattle.reading.specs.Structures.{streams_end, end_from};

use super::numbers::{byte_at, number2, number4};

// "PIDs are at most 0x1FFF".
pub const HIGHEST_PID: u16 = 0x1FFF;

// "At most 16 streams."
pub const MOST: u32 = 16;

// Whether a structure is bad: "Length counts the whole structure and is at least 21". l: from its Length on.
pub fn is_bad(l: &[u8]) -> bool
    ensures { result ≡ bad_stream l.now }
{
    let size = usize::from(byte_at(l, 0));
    size < 21 || l.len() < size || HIGHEST_PID < number2(l, 1) || number2(l, 3) == 0xFFFF
}

// The place behind n structures from the place 6 on, if none of them is bad.
fn end_from(p: &[u8], n: u32) -> Option<usize>
    requires in_bounds { 6 ≤ length p.now }
    requires n_le_most_streams { n ≤ most_streams }
    ensures { result ≡ end_from n 6 p.now }
{
    let mut at = 6;
    for _ in 0..n {
        if is_bad(&p[at..]) {
            return None;
        }
        at += usize::from(p[at]);
    }
    Some(at)
}

// p: PcrPID, PIDCount, structures. PIDCount is compared as it stands, before anything is added to it.
pub fn end_of(p: &[u8]) -> Option<usize>
    ensures { result ≡ streams_end p.now }
{
    if p.len() < 6 || HIGHEST_PID < number2(p, 0) {
        return None;
    }
    let n = number4(p, 2);
    if MOST < n {
        return None;
    }
    end_from(p, n)
}
