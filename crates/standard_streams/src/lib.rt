// The programs' reads of standard input and writes to standard output.
// No contract can say which bytes a stream gives or takes, so what is trusted of the streams is this file, and the programs' own few lines
// over it; what is made of the answers is promised by the functions that call these.
#![tactic(auto)]

ghost use Rattle.std.specs.Prelude.{◌≡◌, ◌≤◌, length};

use std::io::{Read, Stdin, Stdout};

// Whether a write took all that it was handed, and how much that was: only `write` makes one, so that nobody else can say that it failed.
// So no Result, which anybody can make.
#[derive(Clone, Copy)]
pub struct Written {
    whole: bool,
    handed: usize,
}

// 65,536 zeros.
pub fn large_buffer() -> [u8; 65536]
    ensures { 65536 ≡ length result }
{
    [0; 65536]
}

// One read: how many bytes stand at the front of part, none at the end of the input or where the read fails.
pub fn read_once(mut stdin: Stdin, part: &mut [u8]) -> usize
    ensures { result ≤ length part.new }
{
    stdin.read(&mut *part).unwrap_or(0)
}

// Reads until part is full, the input ends or a read fails: how many bytes stand at its front.
pub fn read_full(stdin: Stdin, part: &mut [u8]) -> usize
    ensures { result ≤ length part.new }
{
    let mut done = 0;
    while done < part.len() {
        let n = read_once(stdin, &mut part[done..]);
        if n == 0 {
            return done;
        }
        done += n;
    }
    done
}

pub fn write(stdout: Stdout, out: &[u8]) -> Written
    ensures { result.handed ≡ length out.now }
{
    Written {
        whole: stdout.write_all(out).is_ok(),
        handed: out.len(),
    }
}

pub fn is_whole(w: Written) -> bool
    ensures { result ≡ w.whole }
{
    w.whole
}
