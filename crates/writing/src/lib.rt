// One writer for each kind of record.
// "Every outgoing message goes directly behind the last one in the output buffer". Each is lent the rest of that buffer from the
// current length on, writes its record at the start and says how many bytes it took; every other byte stays as it was.
#![tactic(auto)]

ghost use Rattle.std.specs.Prelude.{◌≡◌, ◌+◌, ◌≤◌, length};
ghost use Rattle.rules.specs.Bytes.{bytes, written, name_in, padded};
ghost use Rattle.rules.specs.Records.{framed, time_bytes, end_descriptor};
ghost use Rattle.rules.specs.Records.{General, InitResponse, AliveResponse, SpliceResponse, SpliceComplete, AbortResponse, ConfigResponse};
ghost use Rattle.rules.specs.Records.{ExtendedFound, ExtendedNone, CueRequest};
ghost use Rattle.writing.specs.Header.{header_of};
ghost use Rattle.writing.specs.Puts.{Wrote, Puts};

use rules::{Micros, Ticks, WireTime};

// ---- parts of a record. "All numbers are big-endian." One for each width, as the library has `to_be_bytes` for each.

pub fn put1(out: &mut [u8], x: u64)
    requires { 1 ≤ length out.old }
    ensures { out.new ≡ written out.old 0 (bytes 1 x) }
{
    out[0] = (x % 256) as u8;
}

pub fn put2(out: &mut [u8], x: u16)
    requires { 2 ≤ length out.old }
    ensures { out.new ≡ written out.old 0 (bytes 2 x) }
{
    out[..2].copy_from_slice(&x.to_be_bytes());
}

// The four low bytes of x.
pub fn put4(out: &mut [u8], x: u64)
    requires { 4 ≤ length out.old }
    ensures { out.new ≡ written out.old 0 (bytes 4 x) }
{
    let low = (x % (1 << 32)) as u32;
    out[..4].copy_from_slice(&low.to_be_bytes());
}

// Seconds 4, MicroSeconds 4.
fn put_time(out: &mut [u8], time: Micros)
    requires { 8 ≤ length out.old }
    ensures { out.new ≡ written out.old 0 (time_bytes time.0) }
{
    put4(&mut *out, time.0 / 1000000);
    put4(&mut out[4..], time.0 % 1000000);
}

// l at the start of out. By `copy_from_slice` a length that is not known calls memcpy, and an archive needs nothing but memset.
pub fn copy(out: &mut [u8], name: &[u8])
    requires { length name.now ≤ length out.old }
    ensures { out.new ≡ written out.old 0 name.now }
{
    for (i, byte) in name.iter().enumerate() {
        out[i] = *byte;
    }
}

// A name at the start of out, by way of an array of its own: what is read is then nothing that is written, so that its 32 bytes are moved
// in two pieces. Bytes that may be out's are moved one by one.
fn copy_name(out: &mut [u8], name: &[u8])
    requires name_len { length name.now ≡ 32 }
    requires in_bounds { 32 ≤ length out.old }
    ensures { out.new ≡ written out.old 0 name.now }
{
    let mut own = [0; 32];
    own.copy_from_slice(&name[..32]);
    out[..32].copy_from_slice(&own);
}

// The mark and the header of a record with `size` bytes of data; "in answers Result_Extension is 0xFFFF". How many bytes the record has.
// What it takes is no struct: each record would fill one in once, for this call alone.
fn header(out: &mut [u8], conn: u64, id: u16, size: u16, res: u16) -> usize
    requires { 10 ≤ length out.old }
    ensures out_after { out.new ≡ written out.old 0 (header_of conn id size res) }
    ensures length { result ≡ 10 + size }
{
    put1(&mut *out, 0x52);
    put1(&mut out[1..], conn);
    put2(&mut out[2..], id);
    put2(&mut out[4..], size);
    put2(&mut out[6..], res);
    put2(&mut out[8..], 0xFFFF);
    10 + size as usize
}

// A record whose data is a SessionID.
fn session_response(out: &mut [u8], conn: u64, id: u16, res: u16, session: u64) -> usize
    requires { 14 ≤ length out.old }
    ensures { Wrote (framed conn id res (bytes 4 session)) out.old result out.new }
{
    let len = header(&mut *out, conn, id, 4, res);
    put4(&mut out[10..], session);
    len
}

// ---- the records

pub fn general_response(out: &mut [u8], conn: u64, res: u16) -> usize
    requires { 10 ≤ length out.old }
    ensures { Puts (General conn res) out.old result out.new }
{
    header(out, conn, 0x0000, 0, res)
}

// The name is the splicer's own 32 bytes, "with zeros behind the end"; Revision_Num is 2 whatever was asked.
pub fn init_response(out: &mut [u8], conn: u64, res: u16, name: &[u8]) -> usize
    requires in_bounds { 44 ≤ length out.old }
    requires name_len { length name.now ≡ 32 }
    requires name_value { name.now ≡ padded (name_in name.now) }
    ensures { Puts (InitResponse conn res (name_in name.now)) out.old result out.new }
{
    let len = header(&mut *out, conn, 0x0002, 34, res);
    put2(&mut out[10..], 2);
    copy_name(&mut out[12..], name);
    len
}

// An Alive_Request is always answered 100.
pub fn alive_response(out: &mut [u8], conn: u64, state: u32, id: u64, time: Micros) -> usize
    requires { 26 ≤ length out.old }
    ensures { Puts (AliveResponse conn 100 state id time.0) out.old result out.new }
{
    let len = header(&mut *out, conn, 0x0006, 16, 100);
    put4(&mut out[10..], state as u64);
    put4(&mut out[14..], id);
    put_time(&mut out[18..], time);
    len
}

#[tactic(auto, unfolding(rules::specs::Records::record_bytes))]
pub fn splice_response(out: &mut [u8], conn: u64, res: u16, id: u64) -> usize
    requires { 14 ≤ length out.old }
    ensures { Puts (SpliceResponse conn res id) out.old result out.new }
{
    session_response(out, conn, 0x0008, res, id)
}

// SpliceTypeFlag is 0 for a start and 1 for an end; Bitrate is "always 0 here".
pub fn splice_complete(
    out: &mut [u8],
    conn: u64,
    res: u16,
    id: u64,
    flag: u8,
    played: Ticks,
) -> usize
    requires { 23 ≤ length out.old }
    ensures { Puts (SpliceComplete conn res id flag played.0) out.old result out.new }
{
    let len = header(&mut *out, conn, 0x0009, 13, res);
    put4(&mut out[10..], id);
    put1(&mut out[14..], flag as u64);
    put4(&mut out[15..], 0);
    put4(&mut out[19..], played.0 as u64);
    len
}

#[tactic(auto, unfolding(rules::specs::Records::record_bytes))]
pub fn abort_response(out: &mut [u8], conn: u64, res: u16, id: u64) -> usize
    requires { 14 ≤ length out.old }
    ensures { Puts (AbortResponse conn res id) out.old result out.new }
{
    session_response(out, conn, 0x000F, res, id)
}

// 02, CR 7: a Cue_Request is no answer, so that its Result is 0xFFFF as Result_Extension is; the time's two numbers, and the section as it
// came.
pub fn cue_request(out: &mut [u8], conn: u64, time: WireTime, section: &[u8]) -> usize
    requires section_len_bound { length section.now ≤ 512 }
    requires section_in_bounds { 18 + length section.now ≤ length out.old }
    ensures { Puts (CueRequest conn time.seconds time.micros section.now) out.old result out.new }
{
    let len = header(&mut *out, conn, 0x000C, 8 + section.len() as u16, 0xFFFF);
    put4(&mut out[10..], time.seconds as u64);
    put4(&mut out[14..], time.micros as u64);
    copy(&mut out[18..], section);
    len
}

// 02, CR 8: the descriptor: tag 0x01 and length 14, the identifier, and what is kept of the end.
fn put_end(out: &mut [u8], event: u64, ended: u64, played: u64)
    requires { 16 ≤ length out.old }
    ensures { out.new ≡ written out.old 0 (end_descriptor event ended played) }
{
    put2(&mut *out, 0x010E);
    put4(&mut out[2..], 0x43415244);
    put4(&mut out[6..], event);
    put1(&mut out[10..], ended / 256);
    put1(&mut out[11..], ended);
    put4(&mut out[12..], played);
}

pub fn extended_found(
    out: &mut [u8],
    conn: u64,
    id: u64,
    event: u64,
    ended: u64,
    played: u64,
) -> usize
    requires { 30 ≤ length out.old }
    ensures { Puts (ExtendedFound conn id event ended played) out.old result out.new }
{
    let len = header(&mut *out, conn, 0x0004, 20, 100);
    put4(&mut out[10..], id);
    put_end(&mut out[14..], event, ended, played);
    len
}

#[tactic(auto, unfolding(rules::specs::Records::record_bytes))]
pub fn extended_none(out: &mut [u8], conn: u64, id: u64) -> usize
    requires { 14 ≤ length out.old }
    ensures { Puts (ExtendedNone conn id) out.old result out.new }
{
    session_response(out, conn, 0x0004, 121, id)
}

// 02, CR 6: the name, the Hardware_Config with its Length and the section, each directly behind the other. A GetConfig_Request is always
// answered 100.
pub fn config_response(
    out: &mut [u8],
    conn: u64,
    name: &[u8],
    hardware: &[u8],
    section: &[u8],
) -> usize
    requires section_in_bounds { 42 + (length hardware.now + length section.now) ≤ length out.old }
    requires hardware_len_bound { (length hardware.now ≤ 256) × (length section.now ≤ 1024) }
    requires name_len { length name.now ≡ 32 }
    requires name_value { name.now ≡ padded (name_in name.now) }
    ensures { Puts (ConfigResponse conn 100 (name_in name.now) hardware.now section.now)
        out.old result out.new }
{
    let at = 42 + hardware.len();
    let size = at + section.len() - 10;
    let len = header(&mut *out, conn, 0x000B, size as u16, 100);
    copy(&mut out[10..], name);
    copy(&mut out[42..], hardware);
    copy(&mut out[at..], section);
    len
}
