// Answering a message: 01's five steps, Init, Alive, GetConfig, ExtendedData, and what requests answer.
#![tactic(auto)]

ghost use Rattle.std.specs.Prelude.{◌≡◌, false, ◌≤◌, length};
ghost use Rattle.rules.specs.Bytes.{name_in};
ghost use Rattle.rules.specs.Reading.{bad_init, «read»};
ghost use Rattle.rules.specs.Records.{General};
ghost use Rattle.rules.specs.Answers.{init_result, answer_init, alive_response, config_response, extended_response, answer_read, answer};
ghost use Rattle.rules.specs.HouseNumbers.{longest_section};
ghost use Rattle.rules.specs.Follows.Sound.{Sound};
ghost use Rattle.memory.specs.Memory.{Form, Whole, see, shown};
ghost use Rattle.answers.specs.Gives.{Gives, Says, unmoved, barred, mute};

use memory::{WORDS, Which};
use reply::Did;
use rules::{Link, Message};

// What came: the connection that sent it, and its MessageID.
#[derive(Clone, Copy)]
pub struct Sent {
    pub conn: u32,
    pub id: u16,
}

// Init: "Revision not 2 gives 102, another name 104, else 100": numbers, as the documents name them and `init_result` of rules gives them.
fn init_result(revision: u16, asked: &[u8], name: &[u8]) -> u16
    ensures { result ≡ init_result revision asked.now (name_in name.now) }
{
    if revision != 2 {
        return 102;
    }
    if !reading::names::same_name(asked, name) {
        return 104;
    }
    100
}

// Init: "else 100 and initialised. A failed later Init leaves the connection initialised." 02, CR 6: with 100 its Hardware_Config is kept.
fn answer_init(
    m: &mut [u64; WORDS],
    b: &mut [u8],
    conn: u32,
    revision: u16,
    d: &[u8],
    out: &mut [u8],
) -> usize
    requires whole { Whole m.old b.old }
    requires conn_bound { conn ≤ 3 }
    requires d_value { bad_init d.now ≡ false }
    requires in_bounds { 44 ≤ length out.old }
    ensures { Gives (answer_init conn revision d.now (shown m.old b.old)) (see m.old).ring_end
        out.old (unmoved result) m.new b.new out.new }
{
    let r = init_result(revision, reading::channel_name(d), memory::name(&*b));
    let len = writing::init_response(&mut *out, conn as u64, r, memory::name(&*b));
    if r == 100 {
        memory::set_link(&mut *m, conn, Link::Initialised);
        memory::keep(&mut *b, conn, reading::hardware(d));
    }
    len
}

// Alive: State 2 and the SessionID on air, or State 1 and 0xFFFFFFFF; the present clock.
fn answer_alive(m: &[u64], b: &[u8], conn: u32, out: &mut [u8]) -> usize
    requires whole { Whole m.now b.now }
    requires in_bounds { 26 ≤ length out.old }
    ensures { Says (alive_response conn (shown m.now b.now)) out.old result out.new }
{
    let time = units::to_micros(memory::clock(m));
    if memory::is_quiet(m) {
        return writing::alive_response(&mut *out, conn as u64, 1, 0xFFFFFFFF, time);
    }
    let air = memory::load(m, Which::Started, 0);
    writing::alive_response(&mut *out, conn as u64, 2, air.id, time)
}

// 02, CR 8: the latest end of the number that is kept, "121 with the SessionID alone where none is kept": a result 0 in the lent words.
fn answer_extended(m: &[u64], conn: u32, x: u32, out: &mut [u8]) -> usize
    requires form { Form m.now }
    requires in_bounds { 30 ≤ length out.old }
    ensures { Says (extended_response conn x (see m.now).queue) out.old result out.new }
{
    let e = memory::recall(m, conn as u64, x as u64);
    if e.result == 0 {
        return writing::extended_none(&mut *out, conn as u64, x as u64);
    }
    writing::extended_found(
        &mut *out,
        conn as u64,
        x as u64,
        e.event,
        e.result,
        e.played,
    )
}

// GetConfig: the ChannelName, what the connection keeps and the section on air.
fn answer_config(m: &[u64], b: &[u8], conn: u32, section: &[u8], out: &mut [u8]) -> usize
    requires whole { Whole m.now b.now }
    requires conn_bound { conn ≤ 3 }
    requires section_len_bound { length section.now ≤ longest_section }
    requires in_bounds { 4096 ≤ length out.old }
    ensures { Says (config_response conn section.now (shown m.now b.now))
        out.old result out.new }
{
    let hardware = reading::structure(memory::kept(b, conn));
    writing::config_response(&mut *out, conn as u64, memory::name(b), hardware, section)
}

fn general(conn: u32, res: u16, out: &mut [u8]) -> usize
    requires { 10 ≤ length out.old }
    ensures { Says (General conn res) out.old result out.new }
{
    writing::general_response(&mut *out, conn as u64, res)
}

// A message of that list; "5. Not readable: General_Response 123." section: the map on air.
fn answer_read(
    m: &mut [u64; WORDS],
    b: &mut [u8],
    sent: Sent,
    d: &[u8],
    section: &[u8],
    out: &mut [u8],
) -> Did
    requires whole { Whole m.old b.old }
    requires sound { Sound (shown m.old b.old) }
    requires conn_bound { sent.conn ≤ 3 }
    requires section_len_bound { length section.now ≤ longest_section }
    requires in_bounds { 4096 ≤ length out.old }
    ensures { Gives (answer_read sent.conn («read» sent.id d.now) d.now section.now
        (shown m.old b.old))
        (see m.old).ring_end out.old result m.new b.new out.new }
{
    match reading::read(sent.id, d) {
        Some(Message::Init(revision)) => Did::unmoved(answer_init(
            &mut *m, &mut *b, sent.conn, revision, d, &mut *out,
        )),
        Some(Message::Alive) => Did::unmoved(answer_alive(&*m, &*b, sent.conn, &mut *out)),
        Some(Message::Splice(r)) => requests::answer_splice(
            &mut *m,
            sent.conn as u64,
            r,
            &mut *out,
        ),
        Some(Message::Abort(x)) => Did::unmoved(requests::answer_abort(
            &mut *m,
            sent.conn as u64,
            x as u64,
            &mut *out,
        )),
        Some(Message::Extended(x)) => Did::unmoved(answer_extended(&*m, sent.conn, x, &mut *out)),
        Some(Message::Config) => Did::unmoved(answer_config(
            &*m, &*b, sent.conn, section, &mut *out,
        )),
        None => Did::unmoved(general(sent.conn, 123, &mut *out)),
    }
}

// 2. Not initialised, and not Init_Request; nor 0x0000, which has no answer whoever sends it.
fn is_barred(link: Link, id: u16) -> bool
    ensures { result ≡ barred link id }
{
    link != Link::Initialised && id != 0x0000 && id != reading::INIT_REQUEST
}

// 1 and 3: no answer.
fn is_mute(id: u16) -> bool
    ensures { result ≡ mute id }
{
    id == 0x0000 || id == 0x000D
}

// "1. ID 0x0000: no answer. 2. Not initialised and not Init_Request: General_Response 103. 3. ID 0x000D: no answer.
// 4. ID not in the list of four: General_Response 120." 02, CR 8 and CR 6: of six. section: the map on air.
pub fn answer(
    m: &mut [u64; WORDS],
    b: &mut [u8],
    sent: Sent,
    d: &[u8],
    section: &[u8],
    out: &mut [u8],
) -> Did
    requires whole { Whole m.old b.old }
    requires sound { Sound (shown m.old b.old) }
    requires conn_bound { sent.conn ≤ 3 }
    requires section_len_bound { length section.now ≤ longest_section }
    requires in_bounds { 4096 ≤ length out.old }
    ensures { Gives (answer sent.conn sent.id d.now section.now (shown m.old b.old))
        (see m.old).ring_end out.old result m.new b.new out.new }
{
    let link = memory::link(&*m, sent.conn);
    if is_barred(link, sent.id) {
        return Did::unmoved(general(sent.conn, 103, &mut *out));
    }
    if is_mute(sent.id) {
        return Did::unmoved(0);
    }
    if !reading::is_read(sent.id) {
        return Did::unmoved(general(sent.conn, 120, &mut *out));
    }
    answer_read(&mut *m, &mut *b, sent, d, section, &mut *out)
}
