// The calls of document 01 for C, what a card reads, and lists of streams: libdoor.a.
// Lent words, bytes and numbers only; a reply is lent words too. include/splicer.h declares them. The names carry the header's
// version, so that a header of another version does not link.
#![tactic(auto)]

ghost use Rattle.std.specs.Prelude.{◌≡◌, [], length};
ghost use Rattle.rules.specs.Calls.{fresh, open_call, close_call, message_call, tick_call};
ghost use Rattle.rules.specs.HouseNumbers.{lending_maps};
ghost use Rattle.engine.specs.Lent.{Lent, Counts, Primary, ReadsMux, ReadsFeed, ReadsAir, ReadsDue, ReadsSessions};
ghost use Rattle.streams.specs.Rows.{ReadsList, WritesList};
ghost use Rattle.door.specs.Door.{Replies, Hears, anchor_of, cue_of, version};
ghost use Rattle.rows.specs.Rows.{Pages};

use memory::{BYTES, WORDS};
use relay::Anchor;
use rows::Row;
use streams::{KEPT, LIST};

// Whatever stood in the words before.
pub fn splicer_7_fresh(
    name: &[u8; 32],
    words: &mut [u64; WORDS],
    bytes: &mut [u8; BYTES],
    reply: &mut [u64; 4],
)
    ensures { Replies (fresh name.now) 0 [] reply.new words.new bytes.new [] }
{
    let a = engine::fresh(name, &mut *words, &mut *bytes);
    *reply = engine::reply_of(a);
}

pub fn splicer_7_open(
    words: &mut [u64; WORDS],
    bytes: &mut [u8; BYTES],
    conn: u32,
    reply: &mut [u64; 4],
)
    requires { Lent words.old bytes.old }
    ensures { Hears (λ _. open_call conn) words.old bytes.old [] reply.new
        words.new bytes.new [] }
{
    let a = engine::open(&mut *words, &mut *bytes, conn);
    *reply = engine::reply_of(a);
}

pub fn splicer_7_close(
    words: &mut [u64; WORDS],
    bytes: &mut [u8; BYTES],
    conn: u32,
    out: &mut [u8],
    reply: &mut [u64; 4],
)
    requires { Lent words.old bytes.old }
    ensures { Hears (close_call conn) words.old bytes.old out.old reply.new
        words.new bytes.new out.new }
{
    let a = engine::close(&mut *words, &mut *bytes, conn, &mut *out);
    *reply = engine::reply_of(a);
}

// l: the bytes read so far. 02, CR 6: the lent sections have one lifetime, as the function has that returns one of them.
pub fn splicer_7_message<'a>(
    words: &mut [u64; WORDS],
    bytes: &mut [u8; BYTES],
    conn: u32,
    l: &[u8],
    primary: &'a [u8],
    insertion: &'a [u8],
    out: &mut [u8],
    reply: &mut [u64; 4],
)
    requires { Lent words.old bytes.old }
    ensures { Hears (λ room. message_call conn l.now (lending_maps primary.now insertion.now room))
        words.old bytes.old out.old
        reply.new words.new bytes.new out.new }
{
    let section = engine::map_on_air(&*words, primary, insertion);
    let a = engine::message(&mut *words, &mut *bytes, conn, l, section, &mut *out);
    *reply = engine::reply_of(a);
}

pub fn splicer_7_tick(
    words: &mut [u64; WORDS],
    bytes: &mut [u8; BYTES],
    seconds: u32,
    micros: u32,
    out: &mut [u8],
    reply: &mut [u64; 4],
)
    requires { Lent words.old bytes.old }
    ensures { Hears (tick_call seconds micros) words.old bytes.old out.old reply.new
        words.new bytes.new out.new }
{
    let a = engine::tick(&mut *words, &mut *bytes, seconds, micros, &mut *out);
    *reply = engine::reply_of(a);
}

// 02, CR 2: how many wait of each connection. It only reads, and nothing is refused.
pub fn splicer_7_waiting(words: &[u64; WORDS], bytes: &[u8; BYTES], counts: &mut [u64; 4])
    requires { Lent words.now bytes.now }
    ensures { Counts words.now bytes.now counts.new }
{
    *counts = engine::waiting(words, bytes);
}

// 02, CR 13: the ninths of a microsecond, since clock 0, in which nothing was on air. It only reads, and nothing is refused.
pub fn splicer_7_primary(words: &[u64; WORDS], bytes: &[u8; BYTES]) -> u64
    requires { Lent words.now bytes.now }
    ensures { Primary words.now bytes.now result }
{
    engine::primary(words, bytes).0
}

// 02, CR 1: the list of a request that names its PIDs itself, from PcrPID on, into lent words and bytes. The bytes taken, or 0: then all
// that is lent stays as it was.
pub fn splicer_7_read_streams(l: &[u8], words: &mut [u64; LIST], kept: &mut [u8; KEPT]) -> usize
    ensures { ReadsList l.now words.old kept.old result words.new kept.new }
{
    streams::read(l, &mut *words, &mut *kept)
}

// The bytes written of it, from PcrPID on, or 0: then out stays as it was.
pub fn splicer_7_write_streams(words: &[u64; LIST], kept: &[u8; KEPT], out: &mut [u8]) -> usize
    ensures { WritesList words.now kept.now out.old result out.new }
{
    streams::write(words, kept, &mut *out)
}

// 02, CR 5: what the one on air asks of the multiplexer. It only reads, and nothing is refused.
pub fn splicer_7_mux(words: &[u64; WORDS], bytes: &[u8; BYTES]) -> u64
    requires { Lent words.now bytes.now }
    ensures { ReadsMux words.now bytes.now result }
{
    engine::mux(words, bytes)
}

// What is given with a section.
// No From: Anchor is of relay, and an array is nobody's.
fn anchor_of(given: &[u32; 4]) -> Anchor
    ensures { result ≡ anchor_of given.now }
{
    Anchor {
        pts: given[0] as u64 * 4294967296 + given[1] as u64,
        seconds: given[2],
        micros: given[3],
    }
}

// 02, CR 7: a section of cues. given: the PTS, its high 32 bits first, then Seconds and MicroSeconds of the instant that belongs to it. The
// words and bytes are only read.
pub fn splicer_7_cue(
    words: &[u64; WORDS],
    bytes: &[u8; BYTES],
    section: &[u8],
    given: &[u32; 4],
    out: &mut [u8],
    reply: &mut [u64; 4],
)
    requires { Lent words.now bytes.now }
    ensures { Hears (cue_of section.now given.now) words.now bytes.now out.old
        reply.new words.now bytes.now out.new }
{
    let a = engine::cue(words, bytes, section, anchor_of(given), &mut *out);
    *reply = engine::reply_of(a);
}

// 02, CR 8: the driver's page: the last 16 that ended, from the newest down, into sixteen rows that the caller lends. 0, or house number 16
// for other than sixteen rows: then every row stays as it was. Lent are the last words of the memory, in which what ended is kept. It only
// reads them.
pub fn splicer_7_ended(ended: &[u64], page: &mut [Row]) -> u64
    ensures { Pages ended.now page.old result page.new }
{
    for i in 0..rows::to_fill(page.len()) {
        page[i] = rows::row_at(ended, i);
    }
    rows::page_number(page.len())
}

// 02, CR 6: whose section is on air: 0 the primary's, 1 the insertion's. It only reads, and nothing is refused. C then takes its own
// pointer: an exported function returns no reference.
pub fn splicer_7_map(words: &[u64; WORDS], bytes: &[u8; BYTES]) -> u64
    requires { Lent words.now bytes.now }
    ensures { ReadsFeed words.now bytes.now result }
{
    engine::on_air(words, bytes)
}

// The sessions that are held, as rows of seven words in lent words: two 32-bit numbers of a row share a word, the first in its low half, so
// that on a little-endian machine a row is C's struct. How many there are. It only reads, and nothing is refused.
pub fn splicer_7_sessions(words: &[u64; WORDS], bytes: &[u8; BYTES], rows: &mut [u64]) -> usize
    requires { Lent words.now bytes.now }
    ensures { ReadsSessions words.now bytes.now rows.old result rows.new }
{
    engine::sessions(words, bytes, &mut *rows)
}

// What the archive is: so that a driver that was linked can say it.
pub fn splicer_7_version() -> u64
    ensures { result ≡ version }
{
    7000
}

// The one on air: 1, connection, SessionID, start, end and time on air so far in ninths, SpliceEventID, AccessType, MuxPriorityValue; with
// none all 0. It only reads, and nothing is refused.
pub fn splicer_7_air(words: &[u64; WORDS], bytes: &[u8; BYTES], air: &mut [u64; 9])
    requires { Lent words.now bytes.now }
    ensures { ReadsAir words.now bytes.now air.new }
{
    // zeros first: with nobody on air that is all. One assignment for both cases takes 21 instructions then, where 20 are allowed
    *air = [0; 9];
    if engine::on_air(words, bytes) == 0 {
        return;
    }
    *air = engine::air(words, bytes);
}

// When a tick would do anything: 2, the instant in ninths, Seconds and MicroSeconds of the first tick that reaches it; 1 and the instant,
// if no tick does; 0 with nothing due. It only reads, and nothing is refused.
pub fn splicer_7_due(words: &[u64; WORDS], bytes: &[u8; BYTES], due: &mut [u64; 4])
    requires { Lent words.now bytes.now }
    ensures { ReadsDue words.now bytes.now due.new }
{
    *due = engine::due(words, bytes);
}
