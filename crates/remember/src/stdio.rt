// The program's reads. No contract can say which bytes a stream gives, so what is trusted of them is this file and standard_streams; what
// is made of their answers is promised by the functions that call these.
ghost use Rattle.std.specs.Prelude.{◌≡◌, ◌≤◌, length};
ghost use Rattle.remember.specs.Remembered.{Filled};

use standard_streams::read_full;
use std::io::Stdin;

// What came of a record: how many bytes, and whether its last read gave all that it was asked for. Only `none` and `fill` make one, so
// that nobody can say so who has not read them. No Result: `program-remembers` speaks of the count, whole or not.
#[derive(Clone, Copy)]
pub struct Came {
    count: usize,
    whole: bool,
}

// Before the first read.
// No Default, which is public: whole is true before the first read.
pub fn none() -> Came
    ensures { result.count ≡ 0 }
{
    Came {
        count: 0,
        whole: true,
    }
}

// Reads behind what came before, until there are `to` bytes or the input ends.
pub fn fill(stdin: Stdin, l: &mut [u8], before: Came, to: usize) -> Came
    requires { (before.count ≤ to) × (to ≤ length l.old) }
    ensures { Filled before.count to result l.old l.new }
{
    let from = before.count;
    let n = read_full(stdin, &mut l[from..to]);
    let count = from + n;
    Came {
        count,
        whole: count == to,
    }
}

pub fn is_whole(c: Came) -> bool
    ensures { result ≡ c.whole }
{
    c.whole
}
