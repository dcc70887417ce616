// The referee as a program: it follows a bench recording of any length from standard input to its end.
// The first line is "none", "call 17" or "refused 14 at 812", as the checker's; a call or a mark is told as soon as its bytes have come.
// Behind a call: what was wanted of it and what was found there, in hex. What is told is follow's promise; what is read and written no
// contract can say.
#![tactic(auto)]

mod hex;

ghost use Rattle.std.specs.Prelude.{◌≤◌, length};
ghost use Rattle.follow.specs.Following.{Holds};

use follow::{A_CALL, A_MARK, IN_ORDER, KEPT, Stage, Verdict};
use hex::Line;
use judge::ROOM;
use memory::{BYTES, WORDS};
use recording::{Entry, Finding, Said};
use standard_streams::{large_buffer, read_once};
use std::io;
use std::io::{Stdin, Stdout};
use std::num::wrapping_add_usize;

// The checker's line: a cut last entry is none.
fn said(v: Verdict) -> Said {
    Said(match v.kind {
        A_CALL => Some(Finding::Differs(v.number)),
        A_MARK => Some(Finding::Unknown(v.place)),
        _ => None,
    })
}

// The record that l begins with; a call or a mark there is none.
fn found(stdout: Stdout, l: &[u8]) -> io::Result<()> {
    let bytes = if let Entry::Wrote(n) = judge::entry_at(l) {
        &l[..n]
    } else {
        &l[..0]
    };
    let line = Line {
        word: "found",
        bytes,
    };
    println!(stdout; "{line}")
}

fn wanted(stdout: Stdout, t: Stage, due: &[u8]) -> io::Result<()>
    requires from_le_end { t.from ≤ t.end }
    requires end_in_bounds { t.end ≤ length due.now }
{
    let bytes = &due[t.from..t.end];
    let line = Line {
        word: "wanted",
        bytes,
    };
    println!(stdout; "{line}")
}

// Told while the piece was handed in, which begins at the place `before`: its entry lies there, or was kept.
fn tell(
    stdout: Stdout,
    t: Stage,
    due: &[u8],
    kept: &[u8],
    piece: &[u8],
    before: usize,
) -> io::Result<()>
    requires from_le_end { t.from ≤ t.end }
    requires end_in_bounds { t.end ≤ length due.now }
{
    println!(stdout; "{}", said(follow::told(t)))?;
    if t.told != A_CALL {
        return Ok(());
    }
    wanted(stdout, t, due)?;
    if before <= t.at {
        let off = t.at - before;
        if off < piece.len() {
            return found(stdout, &piece[off..]);
        }
    }
    found(stdout, kept)
}

// The recording ended, and nothing was told before.
fn close(stdout: Stdout, t: Stage, due: &[u8]) -> io::Result<()>
    requires from_le_end { t.from ≤ t.end }
    requires end_in_bounds { t.end ≤ length due.now }
{
    let v = follow::end(t);
    println!(stdout; "{}", said(v))?;
    if v.kind == A_CALL {
        wanted(stdout, t, due)?;
        found(stdout, b"")?;
    }
    Ok(())
}

// Piece by piece, as it comes, and on to the end when something was told: who writes into a pipe is not stopped. A proved loop has to end,
// and nothing says that the input does: it counts its turns, up to a number that no run reaches.
fn turns(
    stdin: Stdin,
    stdout: Stdout,
    s: Stage,
    m: &mut [u64; WORDS],
    b: &mut [u8; BYTES],
    due: &mut [u8; ROOM],
    kept: &mut [u8; KEPT],
    input: &mut [u8],
) -> io::Result<()>
    requires { Holds s m.old b.old due.old kept.old }
{
    let mut t = s;
    let mut told = None;
    let mut before: usize = 0;
    for _ in 0..usize::MAX {
        let n = read_once(stdin, &mut *input);
        if n == 0 {
            return told.unwrap_or_else(|| close(stdout, t, &*due));
        }
        t = follow::feed(&input[..n], t, &mut *m, &mut *b, &mut *due, &mut *kept);
        if told.is_none() && t.told != IN_ORDER {
            told = Some(tell(stdout, t, &*due, &*kept, &input[..n], before));
        }
        before = wrapping_add_usize(before, n);
    }
    told.unwrap_or(Ok(()))
}

fn main(rt: HostRuntime) -> io::Result<()> {
    let mut m = [0; WORDS];
    let mut b = [0; BYTES];
    let mut due = [0; ROOM];
    let mut kept = [0; KEPT];
    let mut input = large_buffer();
    let _ = follow::fresh(&feed::channel(), &mut m, &mut b);
    turns(
        rt.stdin(),
        rt.stdout(),
        follow::first(),
        &mut m,
        &mut b,
        &mut due,
        &mut kept,
        &mut input,
    )
}
