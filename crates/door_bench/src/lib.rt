// The checker, the referee and the engine that only remembers, for C: libbench.a (02, CR 14, CR 12).
// include/splicer_bench.h declares them; the names carry that header's version, and a finding or a reply goes into lent words.
#![tactic(auto)]

ghost use Rattle.std.specs.Prelude.{◌≡◌, [], length};
ghost use Rattle.rules.specs.HouseNumbers.{lending_maps};
ghost use Rattle.rules.specs.Calls.{opens, closes, messages, ticks};
ghost use Rattle.recording.specs.Recording.{checked};
ghost use Rattle.follow.specs.Following.{Holds, end_by};
ghost use Rattle.door_bench.specs.Bench.{words_of, reply_words, Tells, TellsFresh};
ghost use Rattle.door_bench.specs.Referee.{stage_in, stage_words, verdict_words, part_of, TellsBegun, TellsFed};

use follow::{KEPT, Stage, Verdict};
use judge::ROOM;
use memory::{BYTES, WORDS};
use recall_log::{Refused, Reply};
use recording::Finding;

// The house number of a refusal or 0, whether a call differs, and its number, or the place of an unknown mark.
// No From: both types are other crates'. 13, 14 and 15 stand once, where they become C's words.
#[tactic(auto, unfolding(crate::specs::Bench::words_of))]
fn words_of(found: Option<Finding>) -> [u64; 3]
    ensures { result ≡ words_of found }
{
    match found {
        Some(Finding::Longer) => [15, 0, 0],
        Some(Finding::Unknown(at)) => [14, 0, at as u64],
        Some(Finding::Differs(n)) => [0, 1, n as u64],
        None => [0, 0, 0],
    }
}

// The recording is only read.
pub fn splicer_bench_2_check(recording: &[u8], reply: &mut [u64; 3])
    ensures { reply.new ≡ words_of (checked recording.now) }
{
    *reply = words_of(judge::check(recording));
}

// ---- The referee: the same judgement of a recording that comes in pieces. Its stage is lent words.

pub const STAGE: usize = 7;

// Functions and no From: Stage, Verdict and arrays are of other crates, and the words' order is this one's (specs/Referee).
#[tactic(auto, unfolding(crate::specs::Referee::stage_in))]
fn stage_of(w: &[u64; STAGE]) -> Stage
    ensures { result ≡ stage_in w.now }
{
    Stage {
        told: w[0] as usize,
        number: w[1] as usize,
        mark: w[2] as usize,
        at: w[3] as usize,
        from: w[4] as usize,
        end: w[5] as usize,
        have: w[6] as usize,
    }
}

#[tactic(auto, unfolding(crate::specs::Referee::stage_words))]
fn stage_words(s: Stage) -> [u64; STAGE]
    ensures { result ≡ stage_words s }
{
    [
        s.told as u64,
        s.number as u64,
        s.mark as u64,
        s.at as u64,
        s.from as u64,
        s.end as u64,
        s.have as u64,
    ]
}

#[tactic(auto, unfolding(crate::specs::Referee::verdict_words))]
fn verdict_words(v: Verdict) -> [u64; 4]
    ensures { result ≡ verdict_words v }
{
    [
        v.kind as u64,
        v.number as u64,
        v.place as u64,
        v.good as u64,
    ]
}

// Nothing, where the words are none of a stage.
fn part_of(s: Stage) -> [u64; 2]
    ensures { result ≡ part_of s }
{
    if s.from < s.end {
        return [s.from as u64, (s.end - s.from) as u64];
    }
    [s.from as u64, 0]
}

// Whatever stood in the lent memory before; what is due and what is kept need not be cleared. The reply is that of fresh.
pub fn splicer_bench_2_referee_fresh(
    name: &[u8; 32],
    words: &mut [u64; WORDS],
    bytes: &mut [u8; BYTES],
    stage: &mut [u64; STAGE],
    reply: &mut [u64; 4],
)
    ensures { TellsBegun name.now words.new bytes.new stage.new reply.new }
{
    let a = follow::fresh(name, &mut *words, &mut *bytes);
    *stage = stage_words(follow::first());
    *reply = engine::reply_of(a);
}

// A piece of any length; the reply: what is told so far.
pub fn splicer_bench_2_referee_feed(
    words: &mut [u64; WORDS],
    bytes: &mut [u8; BYTES],
    due: &mut [u8; ROOM],
    kept: &mut [u8; KEPT],
    stage: &mut [u64; STAGE],
    piece: &[u8],
    reply: &mut [u64; 4],
)
    requires { Holds (stage_in stage.old) words.old bytes.old due.old kept.old }
    ensures { TellsFed piece.now stage.old words.old bytes.old due.old
        kept.old stage.new words.new bytes.new due.new kept.new
        reply.new }
{
    let s = stage_of(&*stage);
    let t = follow::feed(piece, s, &mut *words, &mut *bytes, &mut *due, &mut *kept);
    *stage = stage_words(t);
    *reply = verdict_words(follow::told(t));
}

// What is found if the recording ends here. It only reads.
pub fn splicer_bench_2_referee_end(stage: &[u64; STAGE], reply: &mut [u64; 4])
    ensures { reply.new ≡ verdict_words (end_by (stage_in stage.now)) }
{
    let s = stage_of(stage);
    *reply = verdict_words(follow::end(s));
}

// Where in the buffer what is still due stands, and how long it is. It only reads.
pub fn splicer_bench_2_referee_due(stage: &[u64; STAGE], part: &mut [u64; 2])
    ensures { part.new ≡ part_of (stage_in stage.now) }
{
    *part = part_of(stage_of(stage));
}

// ---- 02, CR 12: the engine that only remembers. The log is any bytes, of any length.

// The house number or 0, the bytes consumed, the bytes written, and the places that an acceptance shifted.
#[tactic(auto, unfolding(crate::specs::Bench::reply_words, recall_log::specs::Kept::number_of))]
fn reply_words(r: Reply) -> [u64; 4]
    ensures { result ≡ reply_words r }
{
    match r {
        Err(Refused::Full) => [13, 0, 0, 0],
        Err(Refused::Rule(n)) => [reply::house_number(n) as u64, 0, 0, 0],
        Ok(did) => [0, did.consumed as u64, did.written as u64, did.moved as u64],
    }
}

pub fn splicer_bench_2_recall_fresh(log: &mut [u8], reply: &mut [u64; 4])
    ensures { TellsFresh log.old reply.new log.new }
{
    *reply = reply_words(recall::fresh(&mut *log));
}

pub fn splicer_bench_2_recall_open(log: &mut [u8], conn: u32, reply: &mut [u64; 4])
    ensures { Tells (opens conn) log.old [] reply.new log.new [] }
{
    let r = recall::open(&mut *log, conn);
    *reply = reply_words(r);
}

pub fn splicer_bench_2_recall_close(log: &mut [u8], conn: u32, out: &mut [u8], reply: &mut [u64; 4])
    ensures { Tells (closes conn (length out.old)) log.old out.old reply.new
        log.new out.new }
{
    let r = recall::close(&mut *log, conn, &mut *out);
    *reply = reply_words(r);
}

// l: the bytes read so far. 02, CR 6: the lent sections have one lifetime, as the function has that returns one of them.
pub fn splicer_bench_2_recall_message<'a>(
    log: &mut [u8],
    conn: u32,
    l: &[u8],
    primary: &'a [u8],
    insertion: &'a [u8],
    out: &mut [u8],
    reply: &mut [u64; 4],
)
    ensures { Tells
        (messages conn l.now (lending_maps primary.now insertion.now (length out.old)))
        log.old out.old reply.new log.new out.new }
{
    let r = recall::message(&mut *log, conn, l, primary, insertion, &mut *out);
    *reply = reply_words(r);
}

pub fn splicer_bench_2_recall_tick(
    log: &mut [u8],
    seconds: u32,
    micros: u32,
    out: &mut [u8],
    reply: &mut [u64; 4],
)
    ensures { Tells (ticks seconds micros (length out.old)) log.old out.old reply.new
        log.new out.new }
{
    let r = recall::tick(&mut *log, seconds, micros, &mut *out);
    *reply = reply_words(r);
}
