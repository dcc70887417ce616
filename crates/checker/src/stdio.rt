// The program's reads. No contract can say which bytes a stream gives, so what is trusted of them is this file and standard_streams.
ghost use Rattle.std.specs.Prelude.{◌≡◌, ◌≤◌, length, take};

use standard_streams::read_full;
use std::io::Stdin;

// How many bytes came: only `read` makes one, so that nobody can say so who has not tried.
#[derive(Clone, Copy)]
pub struct Came {
    count: usize,
}

impl Came {
    pub fn count(self) -> usize
        ensures { result ≡ self.count }
    {
        self.count
    }
}

// Reads until part is full or the input ends.
pub fn read(stdin: Stdin, part: &mut [u8]) -> Came
    ensures within { result.count ≤ length part.new }
    ensures front { result.count ≡ length (take result.count part.new) }
{
    Came {
        count: read_full(stdin, &mut *part),
    }
}
