// The calls of door_rolling, exported for C: librolldoor.a.
#![tactic(auto)]

ghost use Rattle.std.specs.Prelude.{◌≡◌, []};
ghost use Rattle.rules.specs.Follows.Sequences.{rolling_fresh};
ghost use Rattle.rules.specs.Rolling.{reading_call};
ghost use Rattle.rolling.specs.LentRolling.{LentRolling, ReadsStep};
ghost use Rattle.engine.specs.Lent.{Lent};
ghost use Rattle.door_rolling.specs.RollDoor.{RollReplies, RollHears, instant_of};

use memory::{BYTES, WORDS};

#[unsafe(no_mangle)]
pub extern "C" fn splicer_7_rolling_fresh(
    name: &[u8; 32],
    words: &mut [u64; WORDS],
    bytes: &mut [u8; BYTES],
    counter: &mut [u64; 2],
    reply: &mut [u64; 4],
)
    ensures { RollReplies (rolling_fresh name.now) 0 [] reply.new words.new bytes.new
        counter.new [] }
{
    door_rolling::splicer_7_rolling_fresh(
        name,
        &mut *words,
        &mut *bytes,
        &mut *counter,
        &mut *reply,
    )
}

#[unsafe(no_mangle)]
pub extern "C" fn splicer_7_instant(
    words: &mut [u64; WORDS],
    bytes: &mut [u8; BYTES],
    counter: &mut [u64; 2],
    given: &[u32; 3],
    out: &mut [u8],
    reply: &mut [u64; 4],
)
    requires { LentRolling words.old bytes.old counter.old }
    ensures { RollHears (instant_of given.now) words.old bytes.old counter.old out.old
        reply.new words.new bytes.new counter.new out.new }
{
    door_rolling::splicer_7_instant(
        &mut *words,
        &mut *bytes,
        &mut *counter,
        given,
        &mut *out,
        &mut *reply,
    )
}

#[unsafe(no_mangle)]
pub extern "C" fn splicer_7_reading(
    words: &mut [u64; WORDS],
    bytes: &mut [u8; BYTES],
    counter: &mut [u64; 2],
    reading: u32,
    out: &mut [u8],
    reply: &mut [u64; 4],
)
    requires { LentRolling words.old bytes.old counter.old }
    ensures { RollHears (reading_call reading) words.old bytes.old counter.old out.old
        reply.new words.new bytes.new counter.new out.new }
{
    door_rolling::splicer_7_reading(
        &mut *words,
        &mut *bytes,
        &mut *counter,
        reading,
        &mut *out,
        &mut *reply,
    )
}

#[unsafe(no_mangle)]
pub extern "C" fn splicer_7_rolling_due(
    words: &[u64; WORDS],
    bytes: &[u8; BYTES],
    counter: &[u64; 2],
    due: &mut [u64; 2],
)
    requires { Lent words.now bytes.now }
    ensures { ReadsStep words.now bytes.now counter.now due.new }
{
    door_rolling::splicer_7_rolling_due(words, bytes, counter, &mut *due)
}
