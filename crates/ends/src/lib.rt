// How sessions end: each end written by one function, followers link by link, the list closed up.
#![tactic(auto)]

ghost use Rattle.std.specs.Prelude.{◌≡◌, ◌+◌, ◌≤◌, ◌<◌, length, take, drop, get_or, true, [], ◌∷◌, ◌++◌};
ghost use Rattle.rules.specs.Lists.{All, keep};
ghost use Rattle.rules.specs.declared.Ending.TheVariants.{Response};
ghost use Rattle.rules.specs.State.{empty, of, follows};
ghost use Rattle.rules.specs.Follows.Wires.{Sorted};
ghost use Rattle.rules.specs.Records.{result_of};
ghost use Rattle.rules.specs.Ends.{ended, past, ending, one_end, dismissed, closed_by};
ghost use Rattle.rules.specs.Instants.{failed, end_at};
ghost use Rattle.memory.specs.declared.Which.TheVariants.{Waiting, Started};
ghost use Rattle.memory.specs.Memory.{Form, Now, see, recalling};
ghost use Rattle.ends.specs.Does.{Writable, Playable, Completing, room_for, Tells, Does, ending_at, one_ended, chain_ended};
ghost use Rattle.ends.specs.Does.{air_ended, those_ended, theirs_ended, Ordered, flagging, behind_last};
ghost use Rattle.places.specs.Places.{flagged, Unflagged};

use memory::{WORDS, Which};
use places::Key;
use rules::{Ending, Ninths, Past, Session, Ticks};

// Followers of one number: whose they are, and the place behind the last of them.
#[derive(Clone, Copy)]
struct Chain {
    conn: u64,
    end: usize,
}

// `out` and `len` stay two here and in instants: tried as a struct behind a reference, whose slice is not known to keep its length, so that
// each promise had to say so as well; and `run` and `end_all_of` give the count back to callers that lend a slice.

// A SpliceComplete that is an end: flag 1 with the time on air, or flag 0 and 109 of a start that failed.
fn write_complete(how: Ending, x: Session, out: &mut [u8], len: usize) -> usize
    requires writable { Writable how x }
    requires completing { Completing how }
    requires room_for_in_bounds { len + room_for 1 ≤ length out.old }
    ensures { Tells out.old len (ended how x ∷ []) result out.new }
{
    let (result, flag, played) = match how {
        Ending::Complete(n) => (n, 1, units::to_ticks(x.played)),
        Ending::Failed | Ending::Response(_) => (109, 0, Ticks(0)),
    };
    len + writing::splice_complete(&mut out[len..], x.conn, result, x.id, flag, played)
}

// The result of an end, whoever ends.
// A number, as the wire has it; no From: Ending is of rules.
fn result_of(how: Ending) -> u16
    ensures { result ≡ result_of (ended how empty) }
{
    match how {
        Ending::Complete(n) | Ending::Response(n) => n,
        Ending::Failed => 109,
    }
}

// 02, CR 8: what is kept of the end of x.
fn keep_end(m: &mut [u64; WORDS], how: Ending, x: Session)
    requires { Form m.old }
    ensures { Now m.new (recalling (past how x) (see m.old)) }
{
    let e = Past {
        conn: x.conn,
        id: x.id,
        event: x.event,
        result: result_of(how) as u64,
        played: units::to_long_ticks(x.played),
    };
    memory::remember(&mut *m, e)
}

// The end of x, kept, and written behind the last record: the one place where that is done.
fn write_end(m: &mut [u64; WORDS], how: Ending, x: Session, out: &mut [u8], len: usize) -> usize
    requires form { Form m.old }
    requires writable { Writable how x }
    requires room_for_in_bounds { len + room_for 1 ≤ length out.old }
    ensures { Does (ending (one_end how x)) len m.old out.old result m.new out.new }
{
    keep_end(&mut *m, how, x);
    let Ending::Response(result) = how else {
        return write_complete(how, x, &mut *out, len);
    };
    len + writing::splice_response(&mut out[len..], x.conn, result, x.id)
}

// The start of x fails, and those that follow it end.
pub fn fail(m: &mut [u64; WORDS], x: Session, out: &mut [u8], len: usize) -> usize
    requires form { Form m.old }
    requires ordered { Ordered (see m.old).queue.waiting }
    requires m_in_bounds { len + room_for (1 + length (see m.old).queue.waiting) ≤ length out.old }
    ensures { Does (failed x) len m.old out.old result m.new out.new }
{
    let to = write_end(&mut *m, Ending::Failed, x, &mut *out, len);
    dismiss(&mut *m, 109, x.conn, x.id, &mut *out, to)
}

// The started session `at` ends, and the others close up.
fn end_one_started(
    m: &mut [u64; WORDS],
    at: usize,
    how: Ending,
    out: &mut [u8],
    len: usize,
) -> usize
    requires form { Form m.old }
    requires at_in_bounds { at < length (see m.old).queue.started }
    requires writable { Writable how (get_or (see m.old).queue.started at empty) }
    requires room_for_in_bounds { len + room_for 1 ≤ length out.old }
    ensures { Does (one_ended Started at how) len m.old out.old result m.new out.new }
{
    let x = memory::load(&*m, Which::Started, at);
    memory::remove(&mut *m, Which::Started, at);
    write_end(&mut *m, how, x, &mut *out, len)
}

// The waiting session `at` ends with the result, and then the ones that follow it.
pub fn end_waiting(m: &mut [u64; WORDS], at: usize, res: u16, out: &mut [u8], len: usize) -> usize
    requires form { Form m.old }
    requires at_in_bounds { at < length (see m.old).queue.waiting }
    requires ordered { Ordered (see m.old).queue.waiting }
    requires m_in_bounds { len + room_for (length (see m.old).queue.waiting) ≤ length out.old }
    ensures { Does (chain_ended Waiting at (Response res) res)
        len m.old out.old result m.new out.new }
{
    let x = memory::load(&*m, Which::Waiting, at);
    memory::remove(&mut *m, Which::Waiting, at);
    let to = write_end(&mut *m, Ending::Response(res), x, &mut *out, len);
    dismiss(&mut *m, res, x.conn, x.id, &mut *out, to)
}

// How the started session `at` ends with a result: the first is on air, any other is covered.
fn ending_at(at: usize, res: u16) -> Ending
    ensures { result ≡ ending_at at res }
{
    if at == 0 {
        return Ending::Complete(res);
    }
    Ending::Response(res)
}

// The started session `at` ends with the result, and then the waiting ones that follow it.
pub fn end_started(m: &mut [u64; WORDS], at: usize, res: u16, out: &mut [u8], len: usize) -> usize
    requires form { Form m.old }
    requires at_in_bounds { at < length (see m.old).queue.started }
    requires all { All Playable (see m.old).queue.started }
    requires ordered { Ordered (see m.old).queue.waiting }
    requires m_in_bounds { len + room_for (1 + length (see m.old).queue.waiting) ≤ length out.old }
    ensures { Does (chain_ended Started at (ending_at at res) res)
        len m.old out.old result m.new out.new }
{
    let conn = memory::conn_at(&*m, Which::Started, at);
    let id = memory::id_at(&*m, Which::Started, at);
    let how = ending_at(at, res);
    let to = end_one_started(&mut *m, at, how, &mut *out, len);
    dismiss(&mut *m, res, conn, id, &mut *out, to)
}

// The one on air ends, if it is the connection's.
fn end_on_air_of(m: &mut [u64; WORDS], conn: u64, out: &mut [u8]) -> usize
    requires form { Form m.old }
    requires all { All Playable (see m.old).queue.started }
    requires m_in_bounds { room_for (length (see m.old).queue.started) ≤ length out.old }
    ensures { Does (air_ended conn) 0 m.old out.old result m.new out.new }
{
    if memory::is_quiet(&*m) {
        return 0;
    }
    if conn != memory::conn_at(&*m, Which::Started, 0) {
        return 0;
    }
    end_one_started(&mut *m, 0, Ending::Complete(116), &mut *out, 0)
}

// The connection's started sessions end, none of which is on air; the others close up.
fn end_covered_of(m: &mut [u64; WORDS], conn: u64, out: &mut [u8], len: usize) -> usize
    requires form { Form m.old }
    requires all { All Playable (see m.old).queue.started }
    requires m_in_bounds { len + room_for (length (see m.old).queue.started) ≤ length out.old }
    ensures { Does (theirs_ended Started conn) len m.old out.old result m.new out.new }
{
    let mut to = len;
    // not a `for`: one that ends leaves the list, and the next stands at its place
    let mut i = 0;
    while i < memory::count(&*m, Which::Started) {
        let whose = memory::conn_at(&*m, Which::Started, i);
        if conn == whose {
            to = end_one_started(&mut *m, i, Ending::Response(116), &mut *out, to);
        } else {
            i += 1;
        }
    }
    to
}

// The connection's waiting sessions end; the others close up.
fn end_waiting_of(m: &mut [u64; WORDS], conn: u64, out: &mut [u8], len: usize) -> usize
    requires form { Form m.old }
    requires conn_bound { conn ≤ 3 }
    requires m_in_bounds { len + room_for (length (see m.old).queue.waiting) ≤ length out.old }
    ensures { Does (theirs_ended Waiting conn) len m.old out.old result m.new out.new }
{
    let n = memory::count(&*m, Which::Waiting);
    let mut to = len;
    let mut left = 0;
    for i in 0..n {
        let x = memory::load(&*m, Which::Waiting, i);
        if conn == x.conn {
            to = write_end(&mut *m, Ending::Response(116), x, &mut *out, to);
        } else {
            left += 1;
        }
    }
    if left < n {
        memory::omit_of(&mut *m, Which::Waiting, conn, left);
    }
    to
}

// Those of the started whose end has come end: 100 for the one on air, 125 for the covered ones.
pub fn end_due(m: &mut [u64; WORDS], t: Ninths, out: &mut [u8], len: usize) -> usize
    requires form { Form m.old }
    requires all { All Playable (see m.old).queue.started }
    requires m_in_bounds { len + room_for (length (see m.old).queue.started) ≤ length out.old }
    ensures { Does (end_at t.0) len m.old out.old result m.new out.new }
{
    let mut how = Ending::Complete(100);
    let mut to = len;
    // not a `for`, as in `end_covered_of`
    let mut i = 0;
    while i < memory::count(&*m, Which::Started) {
        let end = memory::end_at(&*m, i);
        if t.0 == end.0 {
            to = end_one_started(&mut *m, i, how, &mut *out, to);
        } else {
            i += 1;
        }
        how = Ending::Complete(125);
    }
    to
}

// x was requested behind the connection's number.
// No ==: a session is compared with two numbers.
fn is_behind(x: Session, conn: u64, id: u64) -> bool
    ensures { result ≡ follows conn id x }
{
    conn == x.conn && id == x.prior
}

// The waiting sessions from the place i on that reach the number link by link: each that does gets the flag 1, and from there the walk goes
// on behind its number. The place behind the last of them, or `end` where there is none. A recursion and no `for`: document 01 names it.
// The flags are numbers, as `flagged` and `Unflagged` of places read them; no Option: `behind_last` is a number.
fn walk(m: &[u64; WORDS], conn: u64, id: u64, i: usize, end: usize, flags: &mut [u8; 64]) -> usize
    requires form { Form m.now }
    requires flags_len { length flags.old ≡ 64 }
    requires i_in_bounds { i ≤ length (see m.now).queue.waiting }
    ensures marks { flags.new ≡ take i flags.old
        ++ flagging conn id (drop i (see m.now).queue.waiting) (drop i flags.old) }
    ensures last { result ≡ behind_last conn id i (drop i (see m.now).queue.waiting) end }
{
    if i < memory::count(m, Which::Waiting) {
        let x = memory::load(m, Which::Waiting, i);
        let next = x.id;
        if is_behind(x, conn, id) {
            flags[i] = 1;
            walk(m, conn, next, i + 1, i + 1, flags)
        } else {
            walk(m, conn, id, i + 1, end, flags)
        }
    } else {
        end
    }
}

// The waiting sessions whose flag is 1, all of them the chain's, end with the result; the others close up.
fn end_flagged(
    m: &mut [u64; WORDS],
    res: u16,
    chain: Chain,
    flags: &[u8; 64],
    out: &mut [u8],
    len: usize,
) -> usize
    requires form { Form m.old }
    requires conn_bound { chain.conn ≤ 3 }
    requires sorted { Sorted (see m.old).queue.waiting }
    requires unflagged { Unflagged flags.now chain.end (see m.old).queue.waiting }
    requires all { All (λ s. of chain.conn s ≡ true)
        (keep (flagged flags.now (see m.old).queue.waiting) (see m.old).queue.waiting) }
    requires m_in_bounds { len + room_for (length (see m.old).queue.waiting) ≤ length out.old }
    ensures { Does (those_ended Waiting (flagged flags.now (see m.old).queue.waiting) res)
        len m.old out.old result m.new out.new }
{
    let n = memory::count(&*m, Which::Waiting);
    let end = chain.end;
    let mut to = len;
    let mut left = n - end;
    for i in 0..end {
        if flags[i] == 1 {
            let x = memory::load(&*m, Which::Waiting, i);
            to = write_end(&mut *m, Ending::Response(res), x, &mut *out, to);
        } else {
            left += 1;
        }
    }
    memory::omit_flagged(&mut *m, flags, chain.conn, end, left);
    to
}

// The waiting sessions that reach the number link by link end with the result.
fn dismiss(m: &mut [u64; WORDS], res: u16, conn: u64, id: u64, out: &mut [u8], len: usize) -> usize
    requires form { Form m.old }
    requires ordered { Ordered (see m.old).queue.waiting }
    requires m_in_bounds { len + room_for (length (see m.old).queue.waiting) ≤ length out.old }
    ensures { Does (dismissed res conn id) len m.old out.old result m.new out.new }
{
    let i = memory::find(&*m, Which::Waiting, Key::Follows(conn, id));
    if i < memory::count(&*m, Which::Waiting) {
        let mut flags = [0; 64];
        let end = walk(&*m, conn, id, 0, 0, &mut flags);
        let chain = Chain { conn, end };
        end_flagged(&mut *m, res, chain, &flags, &mut *out, len)
    } else {
        len
    }
}

// All of a connection end, as by abort: the started from the highest AccessType down, then the waiting by start.
pub fn end_all_of(m: &mut [u64; WORDS], conn: u64, out: &mut [u8]) -> usize
    requires form { Form m.old }
    requires all { All Playable (see m.old).queue.started }
    requires conn_bound { conn ≤ 3 }
    requires m_in_bounds { room_for (length (see m.old).queue.waiting + length (see m.old).queue.started) ≤ length out.old }
    ensures { Does (closed_by conn) 0 m.old out.old result m.new out.new }
{
    let aired = end_on_air_of(&mut *m, conn, &mut *out);
    let to = end_covered_of(&mut *m, conn, &mut *out, aired);
    end_waiting_of(&mut *m, conn, &mut *out, to)
}
