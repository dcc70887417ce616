// Reading what a connection sent: framing, messages, names, descriptors, where streams end.
// 01, Bytes and "Not readable": one function for each definition of rules' specs/Reading.
#![tactic(auto)]

ghost use Rattle.std.specs.Prelude.{◌≡◌, ◌+◌, ◌≤◌, length, false};
ghost use Rattle.rules.specs.Bytes.{data_of};
ghost use Rattle.rules.specs.Calls.{framing};
ghost use Rattle.rules.specs.Reading.{read_extended, read_config};
ghost use Rattle.rules.specs.Hardware.{length_in, structure_in, hardware_length, hardware_in};
ghost use Rattle.rules.specs.Reading.{channel_name, splicer_name, read_init, read_alive, read_abort};
ghost use Rattle.rules.specs.Request.{read_start, bad_splice, descriptors_of};
ghost use Rattle.rules.specs.Descriptors.{mux_of};
ghost use Rattle.rules.specs.Descriptors.{is_bad};
ghost use Rattle.rules.specs.Request.{whole_request, read_whole, read_splice};
ghost use Rattle.rules.specs.Reading.{is_read, «read»};
ghost use Rattle.reading.specs.Structures.{tail_place};

pub mod descriptors;
pub mod names;
pub mod numbers;
pub mod structures;

use descriptors::priority;
use names::has_zero;
use numbers::{number2, number4};
use rules::{Header, Message, Refusal, Request, Start, Ticks};
use structures::end_of;

// "Read: Init_Request, Alive_Request, Splice_Request, Abort_Request."
pub const INIT_REQUEST: u16 = 0x0001;

const ALIVE_REQUEST: u16 = 0x0005;

const SPLICE_REQUEST: u16 = 0x0007;

const ABORT_REQUEST: u16 = 0x000E;

// 02, CR 8: and ExtendedData_Request, "for the default type".
const EXTENDED_REQUEST: u16 = 0x0003;

const DEFAULT_TYPE: u32 = 0xFFFFFFFF;

// 02, CR 6: "GetConfig_Request (0x000A, no data)".
const CONFIG_REQUEST: u16 = 0x000A;

// "Keep Hardware_Config per connection, up to 256 bytes with its Length."
const HARDWARE: usize = 256;

// "4: MessageSize above 4,088".
pub const LONGEST: u16 = 4088;

// As a PriorSession: the request is timed.
const NOBODY: u32 = 0xFFFFFFFF;

// "5 (header), 4, 5 (body)": the first message of the bytes read so far.
#[tactic(auto, unfolding(rules::specs::Calls::framing))]
pub fn frame(l: &[u8]) -> Result<Header, Refusal>
    ensures { result ≡ framing l.now }
{
    if l.len() < 8 {
        return Err(Refusal::Short);
    }
    let size = number2(l, 2);
    if LONGEST < size {
        return Err(Refusal::Oversize);
    }
    if l.len() < 8 + usize::from(size) {
        return Err(Refusal::Short);
    }
    Ok(Header {
        id: number2(l, 0),
        size,
    })
}

// "each is handed on as its own part of what was read": the data behind the 8 bytes of the header.
pub fn data_of(l: &[u8], size: usize) -> &[u8]
    requires { 8 + size ≤ length l.now }
    ensures { result.now ≡ data_of size l.now }
{
    &l[8..8 + size]
}

// Of Init_Request's data: "Revision_Num 2, ChannelName 32, SplicerName 32", then Hardware_Config, the rest unread.
pub fn channel_name(d: &[u8]) -> &[u8]
    requires { 34 ≤ length d.now }
    ensures { result.now ≡ channel_name d.now }
{
    &d[2..34]
}

fn splicer_name(d: &[u8]) -> &[u8]
    requires { 66 ≤ length d.now }
    ensures { result.now ≡ splicer_name d.now }
{
    &d[34..66]
}

// 02, CR 6: the structure that l begins with: its Length and the bytes that this counts.
pub fn structure(l: &[u8]) -> &[u8]
    requires { 2 + length_in l.now ≤ length l.now }
    ensures { result.now ≡ structure_in l.now }
{
    &l[..2 + usize::from(number2(l, 0))]
}

// The Hardware_Config of Init_Request's data.
pub fn hardware(d: &[u8]) -> &[u8]
    requires { 68 + hardware_length d.now ≤ length d.now }
    ensures { result.now ≡ hardware_in d.now }
{
    structure(&d[66..])
}

// The Hardware_Config is not over 256 bytes and not past the message's end; each name has its zero.
#[tactic(auto, unfolding(rules::specs::Reading::read_init))]
fn read_init(d: &[u8]) -> Option<Message>
    ensures { result ≡ read_init d.now }
{
    if d.len() < 68 {
        return None;
    }
    let n = usize::from(number2(d, 66));
    if HARDWARE < 2 + n || d.len() < 68 + n {
        return None;
    }
    if !has_zero(channel_name(d)) || !has_zero(splicer_name(d)) {
        return None;
    }
    Some(Message::Init(number2(d, 0)))
}

// "An Alive time is not checked."
#[tactic(auto, unfolding(rules::specs::Reading::read_alive))]
fn read_alive(d: &[u8]) -> Option<Message>
    ensures { result ≡ read_alive d.now }
{
    if d.len() == 8 {
        Some(Message::Alive)
    } else {
        None
    }
}

#[tactic(auto, unfolding(rules::specs::Reading::read_abort))]
fn read_abort(d: &[u8]) -> Option<Message>
    ensures { result ≡ read_abort d.now }
{
    if d.len() == 4 {
        Some(Message::Abort(number4(d, 0)))
    } else {
        None
    }
}

// 02, CR 8: "123 for another type or a size not 8".
#[tactic(auto, unfolding(rules::specs::Reading::read_extended))]
fn read_extended(d: &[u8]) -> Option<Message>
    ensures { result ≡ read_extended d.now }
{
    if d.len() != 8 || number4(d, 4) != DEFAULT_TYPE {
        return None;
    }
    Some(Message::Extended(number4(d, 0)))
}

// 02, CR 6: "123 for data present".
#[tactic(auto, unfolding(rules::specs::Reading::read_config))]
fn read_config(d: &[u8]) -> Option<Message>
    ensures { result ≡ read_config d.now }
{
    if d.is_empty() {
        Some(Message::Config)
    } else {
        None
    }
}

// "a Splice_Request's start is in turn either timed or linked"
#[tactic(auto, unfolding(rules::specs::Request::read_start))]
fn start_in(d: &[u8]) -> Start
    requires { 16 ≤ length d.now }
    ensures { result ≡ read_start d.now }
{
    match number4(d, 4) {
        NOBODY => Start::Timed(units::time_of(number4(d, 8), number4(d, 12))),
        prior => Start::Linked(prior),
    }
}

// What makes a request r with good descriptors unreadable whose data is d with the tail t. Only a timed one's MicroSeconds count.
fn bad_splice(d: &[u8], t: &[u8], r: Request) -> bool
    requires in_bounds { 16 ≤ length d.now }
    requires in_bounds_2 { 15 ≤ length t.now }
    requires r_value { r ≡ whole_request d.now t.now }
    requires t_value { is_bad (mux_of (descriptors_of t.now)) ≡ false }
    ensures { result ≡ bad_splice d.now t.now }
{
    (999999 < number4(d, 12) && number4(d, 4) == NOBODY)
        || r.duration.0 == 0
        || 9 < r.access
        || 1 < r.overrides
        || 1 < t[14]
}

fn whole_request(d: &[u8], t: &[u8], start: Start, mux: u8) -> Request
    requires in_bounds { 16 ≤ length d.now }
    requires in_bounds_2 { 15 ≤ length t.now }
    requires start_value { start ≡ read_start d.now }
    requires t_value { mux_of (descriptors_of t.now) ≡ Some mux }
    ensures { result ≡ whole_request d.now t.now }
{
    Request {
        id: number4(d, 0),
        start,
        duration: Ticks(number4(t, 0)),
        event: number4(t, 4),
        access: t[12],
        overrides: t[13],
        mux,
    }
}

// Of the data d with the tail t.
#[tactic(auto, unfolding(rules::specs::Request::read_whole))]
fn read_whole(d: &[u8], t: &[u8], start: Start) -> Option<Message>
    requires in_bounds { 16 ≤ length d.now }
    requires start_value { start ≡ read_start d.now }
    ensures { result ≡ read_whole d.now t.now }
{
    if t.len() < 15 {
        return None;
    }
    let mux = priority(&t[15..])?;
    let r = whole_request(d, t, start, mux);
    if bad_splice(d, t, r) {
        return None;
    }
    Some(Message::Splice(r))
}

// Where the tail stands; 02, CR 1: with ServiceID 0xFFFF behind the structures.
fn tail_place(d: &[u8]) -> Option<usize>
    requires { 18 ≤ length d.now }
    ensures { result ≡ tail_place d.now }
{
    if number2(d, 16) == 0xFFFF {
        let n = end_of(&d[18..])?;
        return Some(18 + n);
    }
    Some(18)
}

// Each field is read before the tests on it, the start before the ServiceID parts the ways: its bytes are then one load.
fn read_splice(d: &[u8]) -> Option<Message>
    ensures { result ≡ read_splice d.now }
{
    if d.len() < 18 {
        return None;
    }
    let start = start_in(d);
    let at = tail_place(d)?;
    read_whole(d, &d[at..], start)
}

// The list of four; 02: and ExtendedData_Request (CR 8), GetConfig_Request (CR 6).
pub fn is_read(id: u16) -> bool
    ensures { result ≡ is_read id }
{
    matches!(
        id,
        INIT_REQUEST
            | ALIVE_REQUEST
            | SPLICE_REQUEST
            | ABORT_REQUEST
            | EXTENDED_REQUEST
            | CONFIG_REQUEST
    )
}

// A message of that list, by its MessageID and its data; any other is unreadable, as the definition has it.
#[tactic(auto, unfolding(rules::specs::Reading::read))]
pub fn read(id: u16, d: &[u8]) -> Option<Message>
    ensures { result ≡ «read» id d.now }
{
    match id {
        INIT_REQUEST => read_init(d),
        ALIVE_REQUEST => read_alive(d),
        SPLICE_REQUEST => read_splice(d),
        ABORT_REQUEST => read_abort(d),
        EXTENDED_REQUEST => read_extended(d),
        CONFIG_REQUEST => read_config(d),
        _ => None,
    }
}
