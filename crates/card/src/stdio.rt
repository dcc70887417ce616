// The program's reads. No contract can say which bytes a stream gives, so what is trusted of them is this file and standard_streams; what
// is made of the answers is promised by the functions that call this one.
ghost use Rattle.std.specs.Prelude.{◌≡◌, ◌+◌, ◌≤◌, length, take};

use standard_streams::read_once;
use std::io::Stdin;

// One read behind the bytes that are still to be played: how many came.
pub fn refill(stdin: Stdin, input: &mut [u8], have: usize) -> usize
    requires { have ≤ length input.old }
    ensures result_in_bounds { have + result ≤ length input.new }
    ensures input_unchanged { take have input.new ≡ take have input.old }
{
    read_once(stdin, &mut input[have..])
}
