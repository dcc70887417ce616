// The engine that only remembers as a program: the card program's input, its own output (02, CR 12).
// It goes on after 13.
#![tactic(auto)]

mod stdio;

ghost use Rattle.std.specs.Prelude.{Err, ◌≡◌, ◌≤◌, length};
ghost use Rattle.rules.specs.Calls.{messages};
ghost use Rattle.rules.specs.Card.{card_loans, card_room};
ghost use Rattle.recall_log.specs.Kept.{number_of};
ghost use Rattle.recall.specs.Recall.{Remembers};
ghost use Rattle.remember.specs.Said.{call_for, Says, Plays, head_of, ends_with};
ghost use Rattle.remember.specs.Remembered.{Reads, Answers, Stopped, fresh_log};

use reading::LONGEST;
use reading::numbers::number2;
use recall_log::{
    CLOSE_MARK, HEADER_END, MARK_END, MESSAGE_MARK, OPEN_MARK, Record, Refused, Reply, TICK_MARK,
};
use standard_streams::Written;
use std::io::{Stdin, Stdout};
use stdio::Came;

// A mark, a connection, and the longest message: 4,088 bytes behind a header of 8.
const RECORD: usize = 4098;

// "house number 13" or a rule's.
fn number_of(n: Refused) -> u8
    ensures { result ≡ number_of (Err n) }
{
    match n {
        Refused::Full => 13,
        Refused::Rule(n) => reply::house_number(n),
    }
}

// "a refusal is 0x45 and the number". The output of a good call stands there already.
fn say(r: Reply, out: &mut [u8]) -> usize
    requires { 2 ≤ length out.old }
    ensures { Says r out.old result out.new }
{
    match r {
        Ok(did) => did.written,
        Err(n) => {
            out[0] = 0x45;
            out[1] = number_of(n);
            2
        }
    }
}

// A message: "The card program lends empty sections."
fn message(log: &mut [u8], conn: u32, l: &[u8], out: &mut [u8]) -> Reply
    requires { length out.old ≡ card_room }
    ensures { Remembers (messages conn l.now card_loans) log.old out.old result
        log.new out.new }
{
    let none = [0u8; 1];
    let e = &none[..0];
    recall::message(&mut *log, conn, l, e, e, &mut *out)
}

// The call of the record l.
fn call(log: &mut [u8], l: &[u8], out: &mut [u8]) -> Reply
    requires in_bounds { 2 ≤ length l.now }
    requires out_len { length out.old ≡ card_room }
    ensures { Remembers (call_for l.now) log.old out.old result log.new out.new }
{
    match recall_log::record_at(l) {
        Some(Record::Open(c)) => recall::open(&mut *log, c as u32),
        Some(Record::Close(c)) => recall::close(&mut *log, c as u32, &mut *out),
        Some(Record::Message(c, size)) => {
            let end = HEADER_END + size as usize;
            message(&mut *log, c as u32, &l[MARK_END..end], &mut *out)
        }
        Some(Record::Tick(seconds, micros)) => recall::tick(&mut *log, seconds, micros, &mut *out),
        None => message(&mut *log, l[1] as u32, &l[MARK_END..], &mut *out),
    }
}

// One record played: how many bytes of out are to be written.
fn play_record(log: &mut [u8], l: &[u8], out: &mut [u8]) -> usize
    requires in_bounds { 2 ≤ length l.now }
    requires out_len { length out.old ≡ card_room }
    ensures { Plays log.old l.now result log.new out.new }
{
    let r = call(&mut *log, l, &mut *out);
    say(r, &mut *out)
}

// How many bytes a record has, as far as its mark tells: of a message the header; 0 behind another mark.
// 0 and no Option: `head_of` of specs/Said is a number.
fn head_of(mark: u8) -> usize
    ensures { result ≡ head_of mark }
{
    match mark {
        OPEN_MARK | CLOSE_MARK => MARK_END,
        MESSAGE_MARK | TICK_MARK => HEADER_END,
        _ => 0,
    }
}

// A record that was read: how many bytes it has, 0 at the end, at a cut record or at another mark; and what came of it.
// No Option: what came is counted where there is no record too, and `head_of` says 0 of another mark.
#[derive(Clone, Copy)]
struct Read {
    len: usize,
    last: Came,
}

// Why the program ends: there is nothing more to play; its output is not taken; or it has counted its turns out.
// Of its own: what is over says something else in each program.
#[derive(Clone, Copy)]
enum Stop {
    Over(Came),
    Unwritten(Written),
    Counted,
}

// One record of the input, which is read from its front on. Of a message with MessageSize above 4,088 the header.
fn read_record(stdin: Stdin, l: &mut [u8]) -> Read
    requires { length l.old ≡ 4098 }
    ensures { Reads result l.new }
{
    let mark = stdio::fill(stdin, &mut *l, stdio::none(), MARK_END);
    if !stdio::is_whole(mark) {
        return Read { len: 0, last: mark };
    }
    let kind = l[0];
    let head = head_of(kind);
    if head < HEADER_END {
        return Read {
            len: head,
            last: mark,
        };
    }
    let header = stdio::fill(stdin, &mut *l, mark, HEADER_END);
    if !stdio::is_whole(header) {
        return Read {
            len: 0,
            last: header,
        };
    }
    let size = number2(&*l, 4);
    if kind == TICK_MARK || LONGEST < size {
        return Read {
            len: HEADER_END,
            last: header,
        };
    }
    let end = HEADER_END + size as usize;
    let data = stdio::fill(stdin, &mut *l, header, end);
    let len = if stdio::is_whole(data) { end } else { 0 };
    Read { len, last: data }
}

// Whether the record is the header of a message that is too long: "writes the refusal and stops".
fn is_last(l: &[u8]) -> bool
    ensures { result ≡ ends_with l.now }
{
    HEADER_END <= l.len() && l[0] == MESSAGE_MARK && LONGEST < number2(l, 4)
}

// One record played, and what that gives handed to be written.
fn answer(stdout: Stdout, log: &mut [u8], l: &[u8], out: &mut [u8]) -> Written
    requires in_bounds { 2 ≤ length l.now }
    requires out_len { length out.old ≡ card_room }
    ensures { Answers log.old l.now result log.new }
{
    let len = play_record(&mut *log, l, &mut *out);
    standard_streams::write(stdout, &out[..len])
}

// It goes on after 13. A proved loop has to end, and nothing says that the input does. So it counts its turns, up to a number that no
// run reaches.
fn turns(stdin: Stdin, stdout: Stdout, log: &mut [u8], l: &mut [u8], out: &mut [u8]) -> Stop
    requires l_len { length l.old ≡ 4098 }
    requires out_len { length out.old ≡ card_room }
    ensures { Stopped log.old result }
{
    for _turn in 0..u64::MAX {
        let r = read_record(stdin, &mut *l);
        let came = r.last;
        let n = r.len;
        if n < MARK_END {
            return Stop::Over(came);
        }
        let written = answer(stdout, &mut *log, &l[..n], &mut *out);
        if !standard_streams::is_whole(written) {
            return Stop::Unwritten(written);
        }
        if is_last(&l[..n]) {
            return Stop::Over(came);
        }
    }
    Stop::Counted
}

// The whole program.
fn play(stdin: Stdin, stdout: Stdout) -> Stop
    ensures { Stopped fresh_log result }
{
    let mut log = standard_streams::large_buffer();
    // No refusal: it is as long as a log.
    let _ = recall::fresh(&mut log);
    let mut l = [0; RECORD];
    let mut out = [0; 4096];
    turns(stdin, stdout, &mut log, &mut l, &mut out)
}

fn main(rt: HostRuntime) {
    play(rt.stdin(), rt.stdout());
}
