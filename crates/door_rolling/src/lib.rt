// The rolling card's own calls for C, beside those of `door`: librolldoor.a (02, CR 9).
// Lent words, bytes and numbers only; the reply goes into lent words. include/splicer.h declares them. An archive of its own, so that
// the tick of the other cards is compiled as it was.
#![tactic(auto)]

ghost use Rattle.std.specs.Prelude.{◌≡◌, []};
ghost use Rattle.rules.specs.Follows.Sequences.{rolling_fresh};
ghost use Rattle.rules.specs.Rolling.{reading_call};
ghost use Rattle.rolling.specs.LentRolling.{LentRolling, ReadsStep};
ghost use Rattle.engine.specs.Lent.{Lent};
ghost use Rattle.door_rolling.specs.RollDoor.{RollReplies, RollHears, instant_of};

use memory::{BYTES, WORDS};
use rolling::Given;

// Whatever stood in the words before. The words and bytes go to the door's open, close, message and read; the counter's words stand beside
// them.
pub fn splicer_7_rolling_fresh(
    name: &[u8; 32],
    words: &mut [u64; WORDS],
    bytes: &mut [u8; BYTES],
    counter: &mut [u64; 2],
    reply: &mut [u64; 4],
)
    ensures { RollReplies (rolling_fresh name.now) 0 [] reply.new words.new bytes.new
        counter.new [] }
{
    let a = rolling::fresh(name, &mut *words, &mut *bytes, &mut *counter);
    *reply = engine::reply_of(a);
}

// given: Seconds, MicroSeconds and the counter's reading.
pub fn splicer_7_instant(
    words: &mut [u64; WORDS],
    bytes: &mut [u8; BYTES],
    counter: &mut [u64; 2],
    given: &[u32; 3],
    out: &mut [u8],
    reply: &mut [u64; 4],
)
    requires { LentRolling words.old bytes.old counter.old }
    ensures { RollHears (instant_of given.now) words.old bytes.old counter.old out.old
        reply.new words.new bytes.new counter.new out.new }
{
    let instant = Given {
        seconds: given[0],
        micros: given[1],
        reading: given[2],
    };
    let a = rolling::instant(&mut *words, &mut *bytes, &mut *counter, instant, &mut *out);
    *reply = engine::reply_of(a);
}

pub fn splicer_7_reading(
    words: &mut [u64; WORDS],
    bytes: &mut [u8; BYTES],
    counter: &mut [u64; 2],
    reading: u32,
    out: &mut [u8],
    reply: &mut [u64; 4],
)
    requires { LentRolling words.old bytes.old counter.old }
    ensures { RollHears (reading_call reading) words.old bytes.old counter.old out.old
        reply.new words.new bytes.new counter.new out.new }
{
    let a = rolling::reading(&mut *words, &mut *bytes, &mut *counter, reading, &mut *out);
    *reply = engine::reply_of(a);
}

// After how many ticks of the counter, from the last good reading on, a reading would do anything: 1 and the ticks; or 0 and the longest
// step, if none that is good does, as before the instant is given. It only reads, and nothing is refused.
pub fn splicer_7_rolling_due(
    words: &[u64; WORDS],
    bytes: &[u8; BYTES],
    counter: &[u64; 2],
    due: &mut [u64; 2],
)
    requires { Lent words.now bytes.now }
    ensures { ReadsStep words.now bytes.now counter.now due.new }
{
    *due = rolling::due(words, bytes, counter);
}
