// The card program: it reads calls from standard input and writes what they give to standard output.
#![tactic(auto)]

mod stdio;

ghost use Rattle.std.specs.Prelude.{◌≡◌, ◌+◌, ◌≤◌, length, take};
ghost use Rattle.rules.specs.Bytes.{largest_size, padded};
ghost use Rattle.rules.specs.Calls.{fresh};
ghost use Rattle.rules.specs.Card.{message_end, card_room, card_name};
ghost use Rattle.memory.specs.Memory.{shown};
ghost use Rattle.engine.specs.Lent.{Lent};
ghost use Rattle.card.specs.Ran.{Ran, moved, again, Turned, Stopped};

use feed::Played;
use memory::{BYTES, WORDS};
use standard_streams::{Written, is_whole, large_buffer, write};
use std::io::{Stdin, Stdout};

// After a turn: the bytes that are still to be played, whether there may be more to play, and the answer of the write.
#[derive(Clone, Copy)]
struct Left {
    have: usize,
    more: bool,
    written: Written,
}

// Why the program ends: there is nothing more to play; its output is not taken; or it has counted its turns out.
// Of its own: what is over says something else in each program.
#[derive(Clone, Copy)]
enum Stop {
    Over,
    Unwritten(Written),
    Counted,
}

// Plays the whole records of l, one behind the other, for as long as out has room for one more call.
fn run(m: &mut [u64; WORDS], b: &mut [u8], l: &[u8], out: &mut [u8]) -> Played
    requires lent { Lent m.old b.old }
    requires card_room_in_bounds { card_room ≤ length out.old }
    ensures { Ran (shown m.old b.old) l.now result m.new b.new out.new }
{
    // No iterator: each call takes and writes as many bytes as it does.
    let mut used = 0;
    let mut len = 0;
    while 4096 <= out.len() - len {
        let r = feed::take(&l[used..]);
        let to = len + 4096;
        let p = feed::play(r, &mut *m, &mut *b, &l[used..], &mut out[len..to]);
        used += p.used;
        len += p.len;
        if p.used == 0 || !p.more {
            return Played {
                used,
                len,
                more: p.more,
            };
        }
    }
    Played {
        used,
        len,
        more: true,
    }
}

// The bytes from used to end go to the front.
fn keep(input: &mut [u8], used: usize, end: usize)
    requires { (used ≤ end) × (end ≤ length input.old) }
    ensures { input.new ≡ moved used end input.old }
{
    input.copy_within(used..end, 0);
}

// At the end of the input nothing is read, and then nothing is played.
fn goes_on(more: bool, read: usize, used: usize) -> bool
    ensures { result ≡ again more read used }
{
    more && (0 < read || 0 < used)
}

// Reads once, plays what is there, writes what that gives, and keeps the bytes of a cut record.
fn turn(
    stdin: Stdin,
    stdout: Stdout,
    m: &mut [u64; WORDS],
    b: &mut [u8],
    input: &mut [u8],
    have: usize,
    out: &mut [u8],
) -> Left
    requires lent { Lent m.old b.old }
    requires have_in_bounds { (have ≤ length input.old) × (message_end largest_size ≤ length input.old) }
    requires card_room_in_bounds { card_room ≤ length out.old }
    ensures { Turned (shown m.old b.old) (take have input.old) result
        m.new b.new input.new out.new }
{
    let n = stdio::refill(stdin, &mut *input, have);
    let end = have + n;
    let p = run(&mut *m, &mut *b, &input[..end], &mut *out);
    let written = write(stdout, &out[..p.len]);
    keep(&mut *input, p.used, end);
    Left {
        have: end - p.used,
        more: goes_on(p.more, n, p.used),
        written,
    }
}

// A proved loop has to end, and nothing says that the input does. So it counts its turns, up to a number that no run reaches.
fn turns(
    stdin: Stdin,
    stdout: Stdout,
    m: &mut [u64; WORDS],
    b: &mut [u8],
    input: &mut [u8],
    out: &mut [u8],
) -> Stop
    requires lent { Lent m.old b.old }
    requires largest_size_in_bounds { (message_end largest_size ≤ length input.old) × (card_room ≤ length out.old) }
    ensures { Stopped (shown m.old b.old) result }
{
    let mut have = 0;
    for _ in 0..u64::MAX {
        let t = turn(
            stdin,
            stdout,
            &mut *m,
            &mut *b,
            &mut *input,
            have,
            &mut *out,
        );
        if !is_whole(t.written) {
            return Stop::Unwritten(t.written);
        }
        if !t.more {
            return Stop::Over;
        }
        have = t.have;
    }
    Stop::Counted
}

// The whole program.
fn play(stdin: Stdin, stdout: Stdout) -> Stop
    ensures { Stopped (fresh (padded card_name)).splicer result }
{
    let mut m = [0; WORDS];
    let mut b = [0; BYTES];
    let _ = engine::fresh(&feed::channel(), &mut m, &mut b);
    let mut input = large_buffer();
    let mut out = large_buffer();
    turns(stdin, stdout, &mut m, &mut b, &mut input, &mut out)
}

fn main(rt: HostRuntime) {
    play(rt.stdin(), rt.stdout());
}
