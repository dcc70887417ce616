// The checker as a program: a recording from standard input, one line to standard output (02, CR 14).
// The line is "none", "call 17", "refused 14 at 812" or "refused 15".
#![tactic(auto)]

mod stdio;

ghost use Rattle.std.specs.Prelude.{◌≡◌};
ghost use Rattle.checker.specs.Input.{found_in, is_longer, Asks, Judges};

use recording::{Finding, Said};
use standard_streams::large_buffer;
use std::io;
use std::io::Stdin;
use stdio::Came;

// What was found in the bytes that came, and what stands behind them: a short read is the whole input, and behind a full one a byte more
// is tried.
#[derive(Clone, Copy)]
struct Judged {
    read: Came,
    behind: Option<Came>,
    finding: Option<Finding>,
}

fn look_behind(stdin: Stdin, read: usize) -> Option<Came>
    ensures { Asks read result }
{
    if read < judge::LONGEST {
        return None;
    }
    Some(stdio::read(stdin, &mut [0; 1]))
}

fn is_longer(behind: Option<Came>) -> bool
    ensures { result ≡ is_longer behind }
{
    behind.is_some_and(|c| 0 < c.count())
}

fn found(l: &[u8], is_longer: bool) -> Option<Finding>
    ensures { result ≡ found_in is_longer l.now }
{
    if is_longer {
        return Some(Finding::Longer);
    }
    judge::check(l)
}

// The whole program, but for the line that it writes.
fn read_and_judge(stdin: Stdin) -> Judged
    ensures { Judges result }
{
    let mut input = large_buffer();
    let read = stdio::read(stdin, &mut input);
    let n = read.count();
    let behind = look_behind(stdin, n);
    let finding = found(&input[..n], is_longer(behind));
    Judged {
        read,
        behind,
        finding,
    }
}

fn main(rt: HostRuntime) -> io::Result<()> {
    let j = read_and_judge(rt.stdin());
    println!(rt.stdout(); "{}", Said(j.finding))
}
