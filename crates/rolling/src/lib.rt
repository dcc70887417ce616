// The card with a rolling counter: an instant and readings in place of ticks (02, CR 9).
// Beside the splicer's memory the caller lends two words: whether the instant was given, and the last reading. Open, close and
// message are the engine's. The words stay words, and `due` answers in two: C lends and reads them, and LentRolling and ReadsStep say them.
#![tactic(auto)]

ghost use Rattle.std.specs.Prelude.{◌≡◌, ◌<◌, []};
ghost use Rattle.rules.specs.Lists.{All};
ghost use Rattle.rules.specs.Follows.Wires.{Byte};
ghost use Rattle.rules.specs.Bytes.{has_zero};
ghost use Rattle.rules.specs.Units.{horizon};
ghost use Rattle.rules.specs.Rolling.{at, step_of, step_course, instant_call, reading_call};
ghost use Rattle.rules.specs.Follows.Sequences.{rolling_fresh};
ghost use Rattle.engine.specs.Lent.{Lent};
ghost use Rattle.rolling.specs.LentRolling.{LentRolling, when_of, Rolls, Turns, ReadsStep};

use engine::Answer;
use memory::{BYTES, WORDS};
use rules::{Ninths, Refusal, Ticks};

// "none more than 8,100,000 after the one before".
const LONGEST_STEP: u32 = 8100000;

// The first instant behind the time field's last second.
const HORIZON: u64 = 38654705664000000;

// What `due` answers where no reading that is good does anything.
const NOTHING_DUE: [u64; 2] = [0, LONGEST_STEP as u64];

// What is given once: a UTC instant, and the counter's reading at it.
#[derive(Clone, Copy)]
pub struct Given {
    pub seconds: u32,
    pub micros: u32,
    pub reading: u32,
}

// The engine's fresh; no instant was given.
pub fn fresh(
    name: &[u8; 32],
    m: &mut [u64; WORDS],
    b: &mut [u8; BYTES],
    counter: &mut [u64; 2],
) -> Answer
    ensures { Rolls (rolling_fresh name.now) 0 [] result m.new b.new counter.new [] }
{
    let a = engine::fresh(name, &mut *m, &mut *b);
    *counter = [0, 0];
    a
}

// 01's form: "wrapping subtract on the u32 counter gives the step".
#[tactic(auto, unfolding(rules::specs::Rolling::step_of))]
fn step(last: u32, reading: u32) -> u32
    ensures { result ≡ step_of last reading }
{
    reading.wrapping_sub(last)
}

// Where a reading brings the clock; never, if the step is over 8,100,000 ticks or past the time field's last second.
#[tactic(auto, using(crate::proofs::Calls::step_over))]
fn reached(clock: Ninths, last: u32, reading: u32) -> Option<Ninths>
    requires { clock.0 < horizon }
    ensures { result ≡ when_of (step_course clock.0 reading (at last)) }
{
    let d = step(last, reading);
    if LONGEST_STEP < d {
        return None;
    }
    let until = clock.0 + units::from_ticks(Ticks(d)).0;
    if HORIZON <= until {
        return None;
    }
    Some(Ninths(until))
}

// The instant: 2, 8, 12.
pub fn instant(
    m: &mut [u64; WORDS],
    b: &mut [u8],
    counter: &mut [u64; 2],
    given: Given,
    out: &mut [u8],
) -> Answer
    requires { LentRolling m.old b.old counter.old }
    ensures { Turns (instant_call given.seconds given.micros given.reading) m.old b.old counter.old
        out.old result m.new b.new counter.new out.new }
{
    engine::test_room(out.len())?;
    engine::test_micros(given.micros)?;
    if counter[0] != 0 {
        return Err(Refusal::Counter);
    }
    // the words after it, made first: with them the proof knows how wide what was given is
    let told = [1, given.reading as u64];
    let until = units::from_micros(units::time_of(given.seconds, given.micros));
    let a = engine::bring_to(&mut *m, &mut *b, until, &mut *out);
    *counter = told;
    a
}

// A reading: 2, 12.
pub fn reading(
    m: &mut [u64; WORDS],
    b: &mut [u8],
    counter: &mut [u64; 2],
    reading: u32,
    out: &mut [u8],
) -> Answer
    requires { LentRolling m.old b.old counter.old }
    ensures { Turns (reading_call reading) m.old b.old counter.old out.old result
        m.new b.new counter.new out.new }
{
    engine::test_room(out.len())?;
    if counter[0] == 0 {
        return Err(Refusal::Counter);
    }
    let clock = memory::clock(&*m);
    let until = reached(clock, counter[1] as u32, reading).ok_or(Refusal::Counter)?;
    let a = engine::bring_to(&mut *m, &mut *b, until, &mut *out);
    *counter = [1, reading as u64];
    a
}

// After how many ticks of the counter, from the last good reading on, a reading would do anything: 1 and the ticks; or 0 and the longest
// step, if none that is good does, as before the instant is given. It only reads.
pub fn due(m: &[u64; WORDS], b: &[u8], counter: &[u64; 2]) -> [u64; 2]
    requires { Lent m.now b.now }
    ensures { ReadsStep m.now b.now counter.now result }
{
    let given = counter[0];
    if given == 0 {
        return NOTHING_DUE;
    }
    let next = engine::due(m, b);
    if next[0] == 0 {
        return NOTHING_DUE;
    }
    let clock = memory::clock(m);
    let n = units::up_ticks(Ninths(next[1] - clock.0));
    if (LONGEST_STEP as u64) < n || HORIZON <= clock.0 + n * 100 {
        return NOTHING_DUE;
    }
    [1, n]
}
