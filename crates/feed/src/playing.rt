// One record of the card program's input played: its call made, and what the program writes for it.
ghost use Rattle.std.specs.Prelude.{◌≡◌, ◌≤◌, length};
ghost use Rattle.memory.specs.Memory.{see, shown};
ghost use Rattle.rules.specs.Calls.{message_call};
ghost use Rattle.rules.specs.HouseNumbers.{lending};
ghost use Rattle.engine.specs.Lent.{Lent, Makes};
ghost use Rattle.feed.specs.Feed.{record_in};
ghost use Rattle.feed.specs.Play.{step_of, Plays, Tells, Ended};

use super::{HEADER_END, MARK_END, Played, Record, TICK_END};
use engine::Answer;
use memory::WORDS;

// "It writes each call's output; a refusal is 0x45 and the number." The output stands there already.
fn tell(a: Answer, out: &mut [u8]) -> usize
    requires { 2 ≤ length out.old }
    ensures { Tells a out.old result out.new }
{
    match a {
        Err(n) => {
            out[..2].copy_from_slice(&[0x45, reply::house_number(n)]);
            2
        }
        Ok(did) => did.written,
    }
}

// Behind a call: the bytes that its record took, and whether to go on.
fn ended(a: Answer, used: usize, more: bool, out: &mut [u8]) -> Played
    requires { 2 ≤ length out.old }
    ensures { Ended a used more out.old result out.new }
{
    let len = tell(a, &mut *out);
    Played { used, len, more }
}

// No call is made: a cut record waits for more bytes, and behind another mark nothing follows.
fn stopped(more: bool) -> Played
    ensures { result ≡ record { used = 0; len = 0; more = more } }
{
    Played {
        used: 0,
        len: 0,
        more,
    }
}

// A message call: "The card program lends empty sections." So the one on air is empty.
fn message(m: &mut [u64; WORDS], b: &mut [u8], conn: u32, l: &[u8], out: &mut [u8]) -> Answer
    requires { Lent m.old b.old }
    ensures { Makes (λ room. message_call conn l.now (lending room)) m.old b.old out.old result
        m.new b.new out.new }
{
    engine::message(&mut *m, &mut *b, conn, l, &[], &mut *out)
}

// The call of a record that l begins with, and what the card program writes for it: more says whether the program goes on.
pub fn play(r: Record, m: &mut [u64; WORDS], b: &mut [u8], l: &[u8], out: &mut [u8]) -> Played
    requires lent { Lent m.old b.old }
    requires r_value { r ≡ record_in l.now }
    requires out_len { length out.old ≡ 4096 }
    ensures { Plays (see m.old).ring_end out.old (step_of l.now (shown m.old b.old)) result
        m.new b.new out.new }
{
    match r {
        Record::Open(c) => {
            let a = engine::open(&mut *m, &mut *b, c as u32);
            ended(a, MARK_END, true, &mut *out)
        }
        Record::Close(c) => {
            let a = engine::close(&mut *m, &mut *b, c as u32, &mut *out);
            ended(a, MARK_END, true, &mut *out)
        }
        Record::Message(c, size) => {
            let end = HEADER_END + size as usize;
            let a = message(&mut *m, &mut *b, c as u32, &l[MARK_END..end], &mut *out);
            ended(a, end, true, &mut *out)
        }
        Record::Oversize(c) => {
            let a = message(
                &mut *m,
                &mut *b,
                c as u32,
                &l[MARK_END..HEADER_END],
                &mut *out,
            );
            ended(a, HEADER_END, false, &mut *out)
        }
        Record::Tick(seconds, micros) => {
            let a = engine::tick(&mut *m, &mut *b, seconds, micros, &mut *out);
            ended(a, TICK_END, true, &mut *out)
        }
        Record::Cut => stopped(true),
        Record::Unknown => stopped(false),
    }
}
