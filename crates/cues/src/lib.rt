// Sections of cues: what is read of one, its CRC_32, what comes of it, the time of its cue (02, CR 7).
// One function for each definition of rules' specs/Cues.
#![tactic(auto)]

ghost use Rattle.std.specs.Prelude.{◌≡◌, ◌+◌, ◌≤◌, ◌<◌, length};
ghost use Rattle.rules.specs.Cues.{bad_section, flag_at, pts_turn, pts_at, bad_lengths, time_size, time_in, read_signal, program_size};
ghost use Rattle.rules.specs.Cues.{read_program};
ghost use Rattle.rules.specs.Cues.{read_insert, read_command, read_cue, ticks_after, wire_time_of, cue_time};

pub mod crc;

use reading::numbers::{byte_at, number2, number4};
use rules::{Cue, Micros, Ninths, WireTime};

// "33-bit PTS"
const PTS_TURN: u64 = 8589934592;

// "No pts_time gives all ones; so does an instant past the time field's range."
const ONES: WireTime = WireTime {
    seconds: 0xFFFFFFFF,
    micros: 0xFFFFFFFF,
};

// House number 11.
pub fn bad_section(l: &[u8]) -> bool
    ensures { result ≡ bad_section l.now }
{
    l.len() < 20 || l.len() != 3 + (number2(l, 1) % 4096) as usize || 512 < l.len()
}

// The bit of that weight in the byte there.
fn flag_at(l: &[u8], weight: u8, at: usize) -> bool
    requires { 0 < weight }
    ensures { result ≡ flag_at weight at l.now }
{
    byte_at(l, at) / weight % 2 == 1
}

fn pts_at(l: &[u8], at: usize) -> u64
    requires { at + 5 ≤ length l.now }
    ensures { (result ≡ pts_at at l.now) × (result < pts_turn) }
{
    let high = byte_at(l, at) % 2;
    let low = number4(l, 1 + at);
    high as u64 * 4294967296 + low as u64
}

// The lengths that a section gives, beside a command of c bytes.
fn bad_lengths(l: &[u8], c: usize) -> bool
    requires { 20 ≤ length l.now }
    ensures { result ≡ bad_lengths c l.now }
{
    let room = l.len() - 20;
    let given = number2(l, 11) % 4096;
    room < c || (given != 0xFFF && given as usize != c) || room < c + number2(l, 14 + c) as usize
}

fn time_size(l: &[u8], at: usize) -> usize
    ensures { result ≡ time_size at l.now }
{
    if flag_at(l, 128, at) { 5 } else { 1 }
}

// The PTS that stands in a splice_time, with pts_adjustment added.
fn time_in(l: &[u8], at: usize) -> Cue
    requires in_bounds { 20 ≤ length l.now }
    requires l_in_bounds { at + time_size at l.now ≤ length l.now }
    ensures { result ≡ time_in at l.now }
{
    if flag_at(l, 128, at) {
        let p = pts_at(l, at) + pts_at(l, 4);
        return Cue::At(p % PTS_TURN);
    }
    Cue::Timeless
}

#[tactic(auto, unfolding(rules::specs::Cues::read_signal))]
fn read_signal(l: &[u8]) -> Cue
    requires { 20 ≤ length l.now }
    ensures { result ≡ read_signal l.now }
{
    if bad_lengths(l, time_size(l, 14)) {
        return Cue::Bad;
    }
    time_in(l, 14)
}

fn program_size(l: &[u8]) -> usize
    ensures { result ≡ program_size l.now }
{
    let mut size = 6;
    if !flag_at(l, 16, 19) {
        size += time_size(l, 20);
    }
    if flag_at(l, 32, 19) {
        size += 5;
    }
    size + 4
}

#[tactic(auto, unfolding(rules::specs::Cues::read_program))]
fn read_program(l: &[u8]) -> Cue
    requires { 20 ≤ length l.now }
    ensures { result ≡ read_program l.now }
{
    if bad_lengths(l, program_size(l)) {
        return Cue::Bad;
    }
    if flag_at(l, 16, 19) {
        return Cue::Timeless;
    }
    time_in(l, 20)
}

// A section too short for the byte that tells what it is has a command that does not fit.
#[tactic(auto, unfolding(rules::specs::Cues::read_insert))]
fn read_insert(l: &[u8]) -> Cue
    requires { 20 ≤ length l.now }
    ensures { result ≡ read_insert l.now }
{
    if l.len() < 25 {
        return Cue::Bad;
    }
    if flag_at(l, 128, 18) {
        if bad_lengths(l, 5) {
            return Cue::Bad;
        }
        return Cue::Timeless;
    }
    if l.len() < 26 {
        return Cue::Bad;
    }
    if flag_at(l, 64, 19) {
        return read_program(l);
    }
    Cue::Silent
}

#[tactic(auto, unfolding(rules::specs::Cues::read_command))]
fn read_command(l: &[u8]) -> Cue
    requires { 20 ≤ length l.now }
    ensures { result ≡ read_command l.now }
{
    match byte_at(l, 13) {
        0x00 => {
            if bad_lengths(l, 0) {
                return Cue::Bad;
            }
            Cue::Timeless
        }
        0x05 => read_insert(l),
        0x06 => read_signal(l),
        _ => Cue::Silent,
    }
}

// What comes of a section: a wrong CRC_32 first, then what writes nothing, then lengths.
#[tactic(auto, unfolding(rules::specs::Cues::read_cue))]
pub fn read_cue(l: &[u8]) -> Cue
    requires { 20 ≤ length l.now }
    ensures { result ≡ read_cue l.now }
{
    if crc::crc_of(l) != 0 {
        return Cue::Bad;
    }
    if l[0] != 0xFC || flag_at(l, 128, 4) {
        return Cue::Silent;
    }
    read_command(l)
}

// "the first one at or after that PTS": so many ticks later.
#[tactic(auto, unfolding(rules::specs::Cues::ticks_after))]
fn ticks_after(pts: u64, p: u64) -> u64
    ensures { result ≡ ticks_after pts p }
{
    (p % PTS_TURN + (PTS_TURN - pts % PTS_TURN)) % PTS_TURN
}

// No From: Micros and WireTime are of rules.
#[tactic(auto, unfolding(rules::specs::Cues::wire_time_of))]
fn wire_time_of(t: Micros) -> WireTime
    ensures { result ≡ wire_time_of t.0 }
{
    let Ok(seconds) = u32::try_from(t.0 / 1000000) else {
        return ONES;
    };
    WireTime {
        seconds,
        micros: (t.0 % 1000000) as u32,
    }
}

// The time that is written for a cue, if that PTS belongs to that instant; all ones without a time.
#[tactic(auto, unfolding(rules::specs::Cues::cue_time, rules::specs::Cues::exact_time, rules::specs::Cues::ticks_after))]
pub fn time_of_cue(cue: Cue, pts: u64, seconds: u32, micros: u32) -> WireTime
    ensures { result ≡ cue_time pts seconds micros cue }
{
    let Cue::At(p) = cue else {
        return ONES;
    };
    let given = units::from_micros(units::time_of(seconds, micros));
    let later = units::from_long_ticks(ticks_after(pts, p));
    wire_time_of(units::to_micros(Ninths(given.0 + later.0)))
}
