// The calls of door_bench, exported for C: libbench.a.
#![tactic(auto)]

ghost use Rattle.std.specs.Prelude.{◌≡◌, [], length};
ghost use Rattle.rules.specs.HouseNumbers.{lending_maps};
ghost use Rattle.rules.specs.Calls.{opens, closes, messages, ticks};
ghost use Rattle.recording.specs.Recording.{checked};
ghost use Rattle.follow.specs.Following.{Holds, end_by};
ghost use Rattle.door_bench.specs.Bench.{words_of, reply_words, Tells, TellsFresh};
ghost use Rattle.door_bench.specs.Referee.{stage_in, stage_words, verdict_words, part_of, TellsBegun, TellsFed};

use door_bench::STAGE;
use follow::KEPT;
use judge::ROOM;
use memory::{BYTES, WORDS};

#[unsafe(no_mangle)]
pub extern "C" fn splicer_bench_2_check(recording: &[u8], reply: &mut [u64; 3])
    ensures { reply.new ≡ words_of (checked recording.now) }
{
    door_bench::splicer_bench_2_check(recording, &mut *reply)
}

#[unsafe(no_mangle)]
pub extern "C" fn splicer_bench_2_referee_fresh(
    name: &[u8; 32],
    words: &mut [u64; WORDS],
    bytes: &mut [u8; BYTES],
    stage: &mut [u64; STAGE],
    reply: &mut [u64; 4],
)
    ensures { TellsBegun name.now words.new bytes.new stage.new reply.new }
{
    door_bench::splicer_bench_2_referee_fresh(
        name,
        &mut *words,
        &mut *bytes,
        &mut *stage,
        &mut *reply,
    )
}

#[unsafe(no_mangle)]
pub extern "C" fn splicer_bench_2_referee_feed(
    words: &mut [u64; WORDS],
    bytes: &mut [u8; BYTES],
    due: &mut [u8; ROOM],
    kept: &mut [u8; KEPT],
    stage: &mut [u64; STAGE],
    piece: &[u8],
    reply: &mut [u64; 4],
)
    requires { Holds (stage_in stage.old) words.old bytes.old due.old kept.old }
    ensures { TellsFed piece.now stage.old words.old bytes.old due.old
        kept.old stage.new words.new bytes.new due.new kept.new
        reply.new }
{
    door_bench::splicer_bench_2_referee_feed(
        &mut *words,
        &mut *bytes,
        &mut *due,
        &mut *kept,
        &mut *stage,
        piece,
        &mut *reply,
    )
}

#[unsafe(no_mangle)]
pub extern "C" fn splicer_bench_2_referee_end(stage: &[u64; STAGE], reply: &mut [u64; 4])
    ensures { reply.new ≡ verdict_words (end_by (stage_in stage.now)) }
{
    door_bench::splicer_bench_2_referee_end(stage, &mut *reply)
}

#[unsafe(no_mangle)]
pub extern "C" fn splicer_bench_2_referee_due(stage: &[u64; STAGE], part: &mut [u64; 2])
    ensures { part.new ≡ part_of (stage_in stage.now) }
{
    door_bench::splicer_bench_2_referee_due(stage, &mut *part)
}

#[unsafe(no_mangle)]
pub extern "C" fn splicer_bench_2_recall_fresh(log: &mut [u8], reply: &mut [u64; 4])
    ensures { TellsFresh log.old reply.new log.new }
{
    door_bench::splicer_bench_2_recall_fresh(&mut *log, &mut *reply)
}

#[unsafe(no_mangle)]
pub extern "C" fn splicer_bench_2_recall_open(log: &mut [u8], conn: u32, reply: &mut [u64; 4])
    ensures { Tells (opens conn) log.old [] reply.new log.new [] }
{
    door_bench::splicer_bench_2_recall_open(&mut *log, conn, &mut *reply)
}

#[unsafe(no_mangle)]
pub extern "C" fn splicer_bench_2_recall_close(
    log: &mut [u8],
    conn: u32,
    out: &mut [u8],
    reply: &mut [u64; 4],
)
    ensures { Tells (closes conn (length out.old)) log.old out.old reply.new
        log.new out.new }
{
    door_bench::splicer_bench_2_recall_close(&mut *log, conn, &mut *out, &mut *reply)
}

#[unsafe(no_mangle)]
pub extern "C" fn splicer_bench_2_recall_message<'a>(
    log: &mut [u8],
    conn: u32,
    l: &[u8],
    primary: &'a [u8],
    insertion: &'a [u8],
    out: &mut [u8],
    reply: &mut [u64; 4],
)
    ensures { Tells
        (messages conn l.now (lending_maps primary.now insertion.now (length out.old)))
        log.old out.old reply.new log.new out.new }
{
    door_bench::splicer_bench_2_recall_message(
        &mut *log,
        conn,
        l,
        primary,
        insertion,
        &mut *out,
        &mut *reply,
    )
}

#[unsafe(no_mangle)]
pub extern "C" fn splicer_bench_2_recall_tick(
    log: &mut [u8],
    seconds: u32,
    micros: u32,
    out: &mut [u8],
    reply: &mut [u64; 4],
)
    ensures { Tells (ticks seconds micros (length out.old)) log.old out.old reply.new
        log.new out.new }
{
    door_bench::splicer_bench_2_recall_tick(&mut *log, seconds, micros, &mut *out, &mut *reply)
}
