// Microseconds, ticks and ninths, converted in one place.
// 01, Bytes: "A wire time counts microseconds and a Duration counts 90 kHz ticks, and one becomes the other only here".
#![tactic(auto)]

ghost use Rattle.std.specs.Prelude.{◌≡◌, ◌*◌, ◌^◌, ◌<◌};
ghost use Rattle.rules.specs.Units.{time_of, from_micros, from_ticks, to_micros, to_ticks, up_micros, up_ticks};
ghost use Rattle.rules.specs.State.{sooner, not_after};

use rules::{Micros, Ninths, Ticks};

// "a microsecond 9, a tick 100"
const MICRO: u64 = 9;

const TICK: u64 = 100;

// The time that Seconds and MicroSeconds of the wire give. MicroSeconds above 999,999 is for callers to refuse.
pub fn time_of(seconds: u32, micros: u32) -> Micros
    ensures { result ≡ time_of seconds micros }
{
    Micros(seconds as u64 * 1000000 + micros as u64)
}

// Every wire time is below 2^60, as is every instant that a tick can bring the clock to.
// No From, here and below: the types are of rules, which only declares what the documents speak of.
pub fn from_micros(m: Micros) -> Ninths
    requires { m.0 < 2 ^ 60 }
    ensures { result ≡ from_micros m }
{
    Ninths(m.0 * MICRO)
}

pub fn from_ticks(d: Ticks) -> Ninths
    ensures { result ≡ from_ticks d }
{
    from_long_ticks(u64::from(d.0))
}

// Ticks that 33 bits count, as those of a PTS (02, CR 7).
pub fn from_long_ticks(d: u64) -> Ninths
    requires { d < 2 ^ 33 }
    ensures { result ≡ from_ticks (record { 0 = d }) }
{
    Ninths(d * TICK)
}

// Rounded down.
pub fn to_micros(n: Ninths) -> Micros
    ensures { result ≡ to_micros n }
{
    Micros(n.0 / MICRO)
}

// Rounded down. A PlayedDuration is at most its session's Duration, so it fits.
pub fn to_ticks(n: Ninths) -> Ticks
    requires { n.0 < 100 * 2 ^ 32 }
    ensures { result ≡ to_ticks n }
{
    Ticks(to_long_ticks(n) as u32)
}

// The same in 64 bits: whatever it is, it fits.
pub fn to_long_ticks(n: Ninths) -> u64
    ensures { result ≡ (to_ticks n).0 }
{
    n.0 / TICK
}

// Rounded up: the first microsecond that is not before an instant. A sum of the instant and 8 could pass 64 bits.
// Two, as `up_micros` and `up_ticks` of rules' Units are two; div_ceil is all that they share.
pub fn up_micros(n: Ninths) -> u64
    ensures { result ≡ up_micros n.0 }
{
    n.0.div_ceil(MICRO)
}

// Rounded up: the first tick that is not before so many ninths.
pub fn up_ticks(n: Ninths) -> u64
    ensures { result ≡ up_ticks n.0 }
{
    n.0.div_ceil(TICK)
}

// The sooner of two instants, of which either may never come.
pub fn sooner(a: Option<Ninths>, b: Option<Ninths>) -> Option<Ninths>
    ensures { result ≡ sooner a b }
{
    match (a, b) {
        (Some(x), Some(y)) => { if y.0 < x.0 { b } else { a } }
        (None, _) => b,
        (_, None) => a,
    }
}

// The instant, if it is not later than a time.
pub fn not_after(until: Ninths, t: Option<Ninths>) -> Option<Ninths>
    ensures { result ≡ not_after until.0 t }
{
    t.filter(|x| x.0 <= until.0)
}
