// 01's five steps of answering over verdicts, Init, Alive, ExtendedData, and GetConfig from the log.
// What stands in the first engine too stays twice: the second engine has rules of its own (02, CR 12).
#![tactic(auto)]

ghost use Rattle.std.specs.Prelude.{IfSome, ◌≡◌, false, ◌/◌, ◌≤◌, ◌<◌, length, get_or};
ghost use Rattle.rules.specs.Lists.{All, place};
ghost use Rattle.rules.specs.Bytes.{padded, name_in};
ghost use Rattle.rules.specs.Card.{card_name};
ghost use Rattle.rules.specs.Reading.{bad_init, «read»};
ghost use Rattle.rules.specs.Records.{General, AliveResponse, ConfigResponse};
ghost use Rattle.rules.specs.State.{no_hardware};
ghost use Rattle.rules.specs.Units.{to_micros};
ghost use Rattle.rules.specs.Answers.{init_result, is_past, latest};
ghost use Rattle.rules.specs.Follows.Asked.{Asked};
ghost use Rattle.rules.specs.HouseNumbers.{longest_section};
ghost use Rattle.rules.specs.Units.{horizon};
ghost use Rattle.recall_rules.specs.Verdicts.{is_end, ended_as, result_in, nth_end, recent};
ghost use Rattle.recall_rules.specs.Work.{air_state, air_id, extended_response};
ghost use Rattle.recall_rows.specs.Rows.{width, all};
ghost use Rattle.recall_rows.specs.Scans.{place_in};
ghost use Rattle.recall_instants.specs.Moments.{Keeps};
ghost use Rattle.recall_answers.specs.Replies.{link_for, hardwares, Placed, barred, Replies, Reads, Inits, Splices, Says, done};

use reading::numbers::number2;
use recall_rows::{Stand, Test};
use recall_rules::Phase;
use rules::{Link, Message, Ninths, Past, Request, Session};

// What a pass over the log carries beside the verdicts: the clock; of each connection what it is (1 open, 2 initialised, any other closed),
// and where in the log the message stands whose Hardware_Config is kept; and how many verdicts there are.
#[derive(Clone, Copy)]
pub struct Carried {
    pub clock: Ninths,
    pub links: [u64; 4],
    pub places: [Option<usize>; 4],
    pub rows: usize,
}

// What is left to do of an answer: nothing; the session waits from now on; the connection is initialised; the configuration is to be
// written.
#[derive(Clone, Copy)]
pub enum Effect {
    Nothing,
    Joins(Session),
    Enters,
    Configures,
}

// How far the output is written, 02's CR 11, and what is left to do.
#[derive(Clone, Copy)]
pub struct Given {
    pub len: usize,
    pub moved: usize,
    pub effect: Effect,
}

// ChannelName is "CH1".
fn channel() -> [u8; 32]
    ensures { result ≡ padded card_name }
{
    let mut r = [0; 32];
    r[..3].copy_from_slice(b"CH1");
    r
}

// What a connection is.
pub fn link_of(h: Carried, conn: u32) -> Link
    requires { conn ≤ 3 }
    ensures { result ≡ link_for (get_or h.links conn 0) }
{
    match h.links[conn as usize] {
        1 => Link::Opened,
        2 => Link::Initialised,
        _ => Link::Closed,
    }
}

// Init: "Revision not 2 gives 102, another name 104, else 100".
// A number, as the documents name it and `init_result` of rules gives it.
fn init_result(revision: u16, asked: &[u8], name: &[u8]) -> u16
    ensures { result ≡ init_result revision asked.now (name_in name.now) }
{
    if revision != 2 {
        return 102;
    }
    if !reading::names::same_name(asked, name) {
        return 104;
    }
    100
}

// Init: "else 100 and initialised. A failed later Init leaves the connection initialised."
fn answer_init(conn: u32, revision: u16, d: &[u8], out: &mut [u8]) -> Given
    requires d_value { bad_init d.now ≡ false }
    requires in_bounds { 44 ≤ length out.old }
    ensures { Inits conn revision d.now out.old result out.new }
{
    let name = channel();
    let r = init_result(revision, reading::channel_name(d), &name);
    let len = writing::init_response(&mut *out, conn as u64, r, &name);
    if r == 100 {
        return Given {
            effect: Effect::Enters,
            ..said(len)
        };
    }
    said(len)
}

// Alive: "State 2 and the SessionID on air, or State 1 and 0xFFFFFFFF; the present clock".
fn answer_alive(m: &[u64], clock: Ninths, conn: u32, out: &mut [u8]) -> usize
    requires { 26 ≤ length out.old }
    ensures { Says (AliveResponse conn 100 (air_state (all m.now)) (air_id (all m.now)) (to_micros clock).0)
        out.old result out.new }
{
    let time = units::to_micros(clock);
    if let Some(i) = recall_instants::on_air(m) {
        let v = recall_rows::load(m, i);
        return writing::alive_response(&mut *out, conn as u64, 2, v.session.id, time);
    }
    writing::alive_response(&mut *out, conn as u64, 1, 0xFFFFFFFF, time)
}

// The result of an end; 0 of what has not ended.
// 0 and no Option: `result_in` of recall_rules' Verdicts is a number.
fn result_in(phase: Phase) -> u64
    ensures { result ≡ result_in phase }
{
    match phase {
        Phase::Ended(_, result) => result,
        Phase::Out | Phase::Waits | Phase::Started => 0,
    }
}

// Whether it is the end of that number.
fn is_end(phase: Phase, number: u64) -> bool
    ensures { result ≡ is_end number phase }
{
    matches!(phase, Phase::Ended(nth, _) if number == nth)
}

// The verdict whose end has that number.
fn find_end(m: &[u64], number: u64) -> Option<usize>
    ensures first { result ≡ place_in (all m.now) (place (ended_as number) (all m.now)) }
    ensures in_bounds { IfSome result (λ i. i < length m.now / width) }
{
    for i in 0..recall_rows::rows_in(m) {
        let v = recall_rows::load(m, i);
        if is_end(v.phase, number) {
            return Some(i);
        }
    }
    None
}

// 02, CR 8: what is told of the end of that number; all 0 where none has it.
// No Option: that the result 0 says none is the definition's (`nth_end` of recall_rules' Verdicts, `latest` of rules).
fn nth_end(m: &[u64], number: u64) -> Past
    ensures { result ≡ nth_end number (all m.now) }
{
    let Some(i) = find_end(m, number) else {
        return Past::default();
    };
    let v = recall_rows::load(m, i);
    let x = v.session;
    Past {
        conn: x.conn,
        id: x.id,
        event: x.event,
        result: result_in(v.phase),
        played: units::to_long_ticks(x.played),
    }
}

// Whether something is kept, of the connection's number.
// No ==: it is compared with two numbers.
fn is_past(e: Past, conn: u64, id: u64) -> bool
    ensures { result ≡ is_past conn id e }
{
    e.result != 0 && conn == e.conn && id == e.id
}

// "the asking connection's latest ended session of that number": of the 16 ends with the highest numbers, from the highest down.
// No Option, as `nth_end`.
fn latest_end(m: &[u64], conn: u64, id: u64) -> Past
    ensures { result ≡ latest conn id (recent (all m.now)) }
{
    let ended = recall_rows::count(m, Stand::Ended, Test::Any);
    for number in (ended.saturating_sub(16)..ended).rev() {
        let e = nth_end(m, number as u64);
        if is_past(e, conn, id) {
            return e;
        }
    }
    Past::default()
}

// 02, CR 8: "121 with the SessionID alone where none is kept".
fn answer_extended(m: &[u64], conn: u32, x: u32, out: &mut [u8]) -> usize
    requires { 30 ≤ length out.old }
    ensures { Says (extended_response conn x (all m.now)) out.old result out.new }
{
    let e = latest_end(m, conn as u64, x as u64);
    if e.result == 0 {
        return writing::extended_none(&mut *out, conn as u64, x as u64);
    }
    writing::extended_found(
        &mut *out,
        conn as u64,
        x as u64,
        e.event,
        e.result,
        e.played,
    )
}

// An answer that leaves nothing to do, and shifted no place.
fn said(len: usize) -> Given
    ensures { result ≡ done len }
{
    Given {
        len: len,
        moved: 0,
        effect: Effect::Nothing,
    }
}

fn general(conn: u32, res: u16, out: &mut [u8]) -> Given
    requires { 10 ≤ length out.old }
    ensures { (result ≡ done result.len) × Says (General conn res) out.old result.len out.new }
{
    said(writing::general_response(&mut *out, conn as u64, res))
}

// The answer to a Splice_Request: a session that is accepted waits from now on.
fn answer_splice(m: &mut [u64], h: Carried, conn: u32, r: Request, out: &mut [u8]) -> Given
    requires keeps { Keeps h.clock.0 (all m.old) }
    requires clock_lt_horizon { h.clock.0 < horizon }
    requires asked { Asked r }
    requires in_bounds { 4096 ≤ length out.old }
    ensures { Splices conn r h m.old out.old result m.new out.new }
{
    let clock = h.clock;
    let a = recall_requests::answer_splice(&mut *m, clock, conn as u64, r, &mut *out);
    match a.accepted {
        Some(new) => Given {
            len: a.len,
            moved: a.moved,
            effect: Effect::Joins(new),
        },
        None => said(a.len),
    }
}

// A message of that list; "5. Not readable: General_Response 123."
fn answer_read(m: &mut [u64], h: Carried, conn: u32, id: u16, d: &[u8], out: &mut [u8]) -> Given
    requires keeps { Keeps h.clock.0 (all m.old) }
    requires clock_lt_horizon { h.clock.0 < horizon }
    requires in_bounds { 4096 ≤ length out.old }
    ensures { Reads conn («read» id d.now) d.now h m.old out.old result
        m.new out.new }
{
    match reading::read(id, d) {
        Some(Message::Init(revision)) => answer_init(conn, revision, d, &mut *out),
        Some(Message::Alive) => said(answer_alive(&*m, h.clock, conn, &mut *out)),
        Some(Message::Splice(r)) => answer_splice(&mut *m, h, conn, r, &mut *out),
        Some(Message::Abort(x)) => said(recall_requests::answer_abort(
            &mut *m,
            conn as u64,
            x as u64,
            &mut *out,
        )),
        Some(Message::Extended(x)) => said(answer_extended(&*m, conn, x, &mut *out)),
        Some(Message::Config) => Given {
            effect: Effect::Configures,
            ..said(0)
        },
        None => general(conn, 123, &mut *out),
    }
}

// 2. Not initialised, and not Init_Request.
fn is_barred(link: Link, id: u16) -> bool
    ensures { result ≡ barred link id }
{
    match link {
        Link::Initialised => false,
        Link::Opened | Link::Closed => id != reading::INIT_REQUEST,
    }
}

// "1. ID 0x0000: no answer. 2. Not initialised and not Init_Request: General_Response 103. 3. ID 0x000D: no answer.
// 4. ID not in the list of four: General_Response 120." 02: of six.
pub fn answer(m: &mut [u64], h: Carried, conn: u32, id: u16, d: &[u8], out: &mut [u8]) -> Given
    requires keeps { Keeps h.clock.0 (all m.old) }
    requires clock_lt_horizon { h.clock.0 < horizon }
    requires conn_bound { conn ≤ 3 }
    requires in_bounds { 4096 ≤ length out.old }
    ensures { Replies conn id d.now h m.old out.old result m.new out.new }
{
    if id == 0x0000 {
        return said(0);
    }
    let link = link_of(h, conn);
    if is_barred(link, id) {
        return general(conn, 103, &mut *out);
    }
    if id == 0x000D {
        return said(0);
    }
    if !reading::is_read(id) {
        return general(conn, 120, &mut *out);
    }
    answer_read(&mut *m, h, conn, id, d, &mut *out)
}

// 02, CR 6: the name, the Hardware_Config that the connection's latest Init_Request with 100 has in the log, and the section on air.
pub fn answer_config(log: &[u8], h: Carried, conn: u32, section: &[u8], out: &mut [u8]) -> usize
    requires conn_bound { conn ≤ 3 }
    requires all { All (Placed log.now) h.places }
    requires section_len_bound { length section.now ≤ longest_section }
    requires in_bounds { 4096 ≤ length out.old }
    ensures { Says (ConfigResponse conn 100 card_name (get_or (hardwares log.now h) conn no_hardware) section.now)
        out.old result out.new }
{
    let name = channel();
    let Some(p) = h.places[conn as usize] else {
        return writing::config_response(&mut *out, conn as u64, &name, &[0u8; 2], section);
    };
    let message = &log[p..];
    let size = number2(message, 2);
    let hardware = reading::hardware(reading::data_of(message, size as usize));
    writing::config_response(&mut *out, conn as u64, &name, hardware, section)
}
