// The calls of door, exported for C: libdoor.a.
#![tactic(auto)]

ghost use Rattle.std.specs.Prelude.{◌≡◌, [], length};
ghost use Rattle.rules.specs.Calls.{fresh, open_call, close_call, message_call, tick_call};
ghost use Rattle.rules.specs.HouseNumbers.{lending_maps};
ghost use Rattle.engine.specs.Lent.{Lent, Counts, Primary, ReadsMux, ReadsFeed, ReadsAir, ReadsDue, ReadsSessions};
ghost use Rattle.streams.specs.Rows.{ReadsList, WritesList};
ghost use Rattle.door.specs.Door.{Replies, Hears, anchor_of, cue_of, version};
ghost use Rattle.rows.specs.Rows.{Pages};

use memory::{BYTES, WORDS};
use rows::Row;
use streams::{KEPT, LIST};

#[unsafe(no_mangle)]
pub extern "C" fn splicer_7_fresh(
    name: &[u8; 32],
    words: &mut [u64; WORDS],
    bytes: &mut [u8; BYTES],
    reply: &mut [u64; 4],
)
    ensures { Replies (fresh name.now) 0 [] reply.new words.new bytes.new [] }
{
    door::splicer_7_fresh(name, &mut *words, &mut *bytes, &mut *reply)
}

#[unsafe(no_mangle)]
pub extern "C" fn splicer_7_open(
    words: &mut [u64; WORDS],
    bytes: &mut [u8; BYTES],
    conn: u32,
    reply: &mut [u64; 4],
)
    requires { Lent words.old bytes.old }
    ensures { Hears (λ _. open_call conn) words.old bytes.old [] reply.new
        words.new bytes.new [] }
{
    door::splicer_7_open(&mut *words, &mut *bytes, conn, &mut *reply)
}

#[unsafe(no_mangle)]
pub extern "C" fn splicer_7_close(
    words: &mut [u64; WORDS],
    bytes: &mut [u8; BYTES],
    conn: u32,
    out: &mut [u8],
    reply: &mut [u64; 4],
)
    requires { Lent words.old bytes.old }
    ensures { Hears (close_call conn) words.old bytes.old out.old reply.new
        words.new bytes.new out.new }
{
    door::splicer_7_close(&mut *words, &mut *bytes, conn, &mut *out, &mut *reply)
}

#[unsafe(no_mangle)]
pub extern "C" fn splicer_7_message<'a>(
    words: &mut [u64; WORDS],
    bytes: &mut [u8; BYTES],
    conn: u32,
    l: &[u8],
    primary: &'a [u8],
    insertion: &'a [u8],
    out: &mut [u8],
    reply: &mut [u64; 4],
)
    requires { Lent words.old bytes.old }
    ensures { Hears (λ room. message_call conn l.now (lending_maps primary.now insertion.now room))
        words.old bytes.old out.old
        reply.new words.new bytes.new out.new }
{
    door::splicer_7_message(
        &mut *words,
        &mut *bytes,
        conn,
        l,
        primary,
        insertion,
        &mut *out,
        &mut *reply,
    )
}

#[unsafe(no_mangle)]
pub extern "C" fn splicer_7_tick(
    words: &mut [u64; WORDS],
    bytes: &mut [u8; BYTES],
    seconds: u32,
    micros: u32,
    out: &mut [u8],
    reply: &mut [u64; 4],
)
    requires { Lent words.old bytes.old }
    ensures { Hears (tick_call seconds micros) words.old bytes.old out.old reply.new
        words.new bytes.new out.new }
{
    door::splicer_7_tick(
        &mut *words,
        &mut *bytes,
        seconds,
        micros,
        &mut *out,
        &mut *reply,
    )
}

#[unsafe(no_mangle)]
pub extern "C" fn splicer_7_waiting(
    words: &[u64; WORDS],
    bytes: &[u8; BYTES],
    counts: &mut [u64; 4],
)
    requires { Lent words.now bytes.now }
    ensures { Counts words.now bytes.now counts.new }
{
    door::splicer_7_waiting(words, bytes, &mut *counts)
}

#[unsafe(no_mangle)]
pub extern "C" fn splicer_7_primary(words: &[u64; WORDS], bytes: &[u8; BYTES]) -> u64
    requires { Lent words.now bytes.now }
    ensures { Primary words.now bytes.now result }
{
    door::splicer_7_primary(words, bytes)
}

#[unsafe(no_mangle)]
pub extern "C" fn splicer_7_read_streams(
    l: &[u8],
    words: &mut [u64; LIST],
    kept: &mut [u8; KEPT],
) -> usize
    ensures { ReadsList l.now words.old kept.old result words.new kept.new }
{
    door::splicer_7_read_streams(l, &mut *words, &mut *kept)
}

#[unsafe(no_mangle)]
pub extern "C" fn splicer_7_write_streams(
    words: &[u64; LIST],
    kept: &[u8; KEPT],
    out: &mut [u8],
) -> usize
    ensures { WritesList words.now kept.now out.old result out.new }
{
    door::splicer_7_write_streams(words, kept, &mut *out)
}

#[unsafe(no_mangle)]
pub extern "C" fn splicer_7_mux(words: &[u64; WORDS], bytes: &[u8; BYTES]) -> u64
    requires { Lent words.now bytes.now }
    ensures { ReadsMux words.now bytes.now result }
{
    door::splicer_7_mux(words, bytes)
}

#[unsafe(no_mangle)]
pub extern "C" fn splicer_7_cue(
    words: &[u64; WORDS],
    bytes: &[u8; BYTES],
    section: &[u8],
    given: &[u32; 4],
    out: &mut [u8],
    reply: &mut [u64; 4],
)
    requires { Lent words.now bytes.now }
    ensures { Hears (cue_of section.now given.now) words.now bytes.now out.old
        reply.new words.now bytes.now out.new }
{
    door::splicer_7_cue(words, bytes, section, given, &mut *out, &mut *reply)
}

#[unsafe(no_mangle)]
pub extern "C" fn splicer_7_ended(ended: &[u64], page: &mut [Row]) -> u64
    ensures { Pages ended.now page.old result page.new }
{
    door::splicer_7_ended(ended, &mut *page)
}

#[unsafe(no_mangle)]
pub extern "C" fn splicer_7_map(words: &[u64; WORDS], bytes: &[u8; BYTES]) -> u64
    requires { Lent words.now bytes.now }
    ensures { ReadsFeed words.now bytes.now result }
{
    door::splicer_7_map(words, bytes)
}

#[unsafe(no_mangle)]
pub extern "C" fn splicer_7_sessions(
    words: &[u64; WORDS],
    bytes: &[u8; BYTES],
    rows: &mut [u64],
) -> usize
    requires { Lent words.now bytes.now }
    ensures { ReadsSessions words.now bytes.now rows.old result rows.new }
{
    door::splicer_7_sessions(words, bytes, &mut *rows)
}

#[unsafe(no_mangle)]
pub extern "C" fn splicer_7_version() -> u64
    ensures { result ≡ version }
{
    door::splicer_7_version()
}

#[unsafe(no_mangle)]
pub extern "C" fn splicer_7_air(words: &[u64; WORDS], bytes: &[u8; BYTES], air: &mut [u64; 9])
    requires { Lent words.now bytes.now }
    ensures { ReadsAir words.now bytes.now air.new }
{
    door::splicer_7_air(words, bytes, &mut *air)
}

#[unsafe(no_mangle)]
pub extern "C" fn splicer_7_due(words: &[u64; WORDS], bytes: &[u8; BYTES], due: &mut [u64; 4])
    requires { Lent words.now bytes.now }
    ensures { ReadsDue words.now bytes.now due.new }
{
    door::splicer_7_due(words, bytes, &mut *due)
}
