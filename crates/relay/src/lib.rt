// A section of cues passed on: the records, connection by connection (02, CR 7).
// To every initialised connection, from 0 upward, a Cue_Request with its time, or General_Response 117 for a bad one; each record
// behind the last. The connections' states are read, and nothing is changed.
#![tactic(auto)]

ghost use Rattle.std.specs.Prelude.{◌∷◌, [], ◌+◌, ◌≤◌, length};
ghost use Rattle.rules.specs.Cues.{read_cue, cue_time, initialised_ones, cue_records};
ghost use Rattle.memory.specs.Memory.{Form, see};
ghost use Rattle.ends.specs.Does.{Tells};
ghost use Rattle.relay.specs.Room.{cue_room};

use memory::WORDS;
use rules::{Cue, Link, WireTime};

// A PTS, and the UTC instant that belongs to it.
#[derive(Clone, Copy)]
pub struct Anchor {
    pub pts: u64,
    pub seconds: u32,
    pub micros: u32,
}

// What a connection gets, behind what is written up to len.
// `out` and `len` stay two, as in ends.
fn write_cue(
    cue: Cue,
    time: WireTime,
    section: &[u8],
    conn: u32,
    out: &mut [u8],
    len: usize,
) -> usize
    requires section_len_bound { length section.now ≤ 512 }
    requires cue_room_in_bounds { len + cue_room 1 ≤ length out.old }
    ensures { Tells out.old len (cue_records cue time section.now (conn ∷ [])) result out.new }
{
    match cue {
        Cue::Silent => len,
        Cue::Bad => len + writing::general_response(&mut out[len..], conn as u64, 117),
        _ => len + writing::cue_request(&mut out[len..], conn as u64, time, section),
    }
}

// Connection by connection.
fn tell(m: &[u64; WORDS], cue: Cue, time: WireTime, section: &[u8], out: &mut [u8]) -> usize
    requires form { Form m.now }
    requires section_len_bound { length section.now ≤ 512 }
    requires cue_room_in_bounds { cue_room 4 ≤ length out.old }
    ensures { Tells out.old 0 (cue_records cue time section.now (initialised_ones (see m.now).links))
        result out.new }
{
    let mut len = 0;
    for conn in 0..4 {
        if memory::link(m, conn) == Link::Initialised {
            len = write_cue(cue, time, section, conn, &mut *out, len);
        }
    }
    len
}

// What comes of a section, and the time of its cue.
pub fn pass_on(m: &[u64; WORDS], section: &[u8], at: Anchor, out: &mut [u8]) -> usize
    requires form { Form m.now }
    requires in_bounds { 20 ≤ length section.now }
    requires section_len_bound { length section.now ≤ 512 }
    requires cue_room_in_bounds { cue_room 4 ≤ length out.old }
    ensures { Tells out.old 0 (cue_records (read_cue section.now)
        (cue_time at.pts at.seconds at.micros (read_cue section.now)) section.now
        (initialised_ones (see m.now).links)) result out.new }
{
    let cue = cues::read_cue(section);
    let time = cues::time_of_cue(cue, at.pts, at.seconds, at.micros);
    tell(m, cue, time, section, &mut *out)
}
