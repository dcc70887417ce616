// The engine that only remembers: its five calls over a lent log, any bytes (02, CR 12).
// specs/ says what each answers; proofs/ shows that it answers like the card.
#![tactic(auto)]

ghost use Rattle.std.specs.Prelude.{◌≡◌, cond, [], ◌≤◌, eqb, length};
ghost use Rattle.rules.specs.Lists.{All};
ghost use Rattle.rules.specs.HouseNumbers.{lending_maps, longest_section, long_section};
ghost use Rattle.rules.specs.Calls.{opens, closes, messages, ticks};
ghost use Rattle.rules.specs.Card.{card_room};
ghost use Rattle.recall_answers.specs.Replies.{Placed};
ghost use Rattle.recall.specs.Recall.{Remembers, Forgets};
ghost use Rattle.recall.specs.Finish.{FindsPlace, Finishes};

use recall_answers::{Carried, Effect};
use recall_log::{Refused, Reply};
use recall_pass::{Heard, WORDS};
use reply::Did;

// 02, CR 6, 10: "a lent section over 1,024 bytes".
const SECTION: usize = 1024;

// Fresh: no name, it is "CH1". It forgets what is kept, so the length alone counts.
pub fn fresh(log: &mut [u8]) -> Reply
    ensures { Forgets log.old result log.new }
{
    if log.len() != recall_log::LOG {
        return Err(Refused::Full);
    }
    recall_log::clear(&mut *log);
    Ok(Did::unmoved(0))
}

// 13 before all others; else where the next record goes.
fn begin(log: &[u8]) -> Result<usize, Refused>
    ensures { FindsPlace log.now result }
{
    recall_log::next_place(log).ok_or(Refused::Full)
}

// Open: 13, 1, 6.
pub fn open(log: &mut [u8], conn: u32) -> Reply
    ensures { Remembers (opens conn) log.old [] result log.new [] }
{
    let at = begin(&*log)?;
    let mut m = [0; WORDS];
    let h = recall_pass::pass(&*log, &mut m);
    let p = recall_pass::open(h, conn)?;
    recall_log::keep_open(&mut *log, at, conn as u8);
    Ok(p.did)
}

// Close: 13, 1, 2, 7.
pub fn close(log: &mut [u8], conn: u32, out: &mut [u8]) -> Reply
    ensures { Remembers (closes conn (length out.old)) log.old out.old result
        log.new out.new }
{
    let at = begin(&*log)?;
    let mut m = [0; WORDS];
    let h = recall_pass::pass(&*log, &mut m);
    let p = recall_pass::close(&mut m, h, conn, &mut *out)?;
    recall_log::keep_close(&mut *log, at, conn as u8);
    Ok(p.did)
}

// Tick: 13, 2, 8, 3.
pub fn tick(log: &mut [u8], seconds: u32, micros: u32, out: &mut [u8]) -> Reply
    ensures { Remembers (ticks seconds micros (length out.old)) log.old out.old result
        log.new out.new }
{
    let at = begin(&*log)?;
    let mut m = [0; WORDS];
    let h = recall_pass::pass(&*log, &mut m);
    let p = recall_pass::tick(&mut m, h, seconds, micros, &mut *out)?;
    recall_log::keep_tick(&mut *log, at, seconds, micros);
    Ok(p.did)
}

// 02, CR 6: "gets back the one on air, as part of what was lent".
fn map_on_air<'a>(primary: &'a [u8], insertion: &'a [u8], feed: usize) -> &'a [u8]
    ensures { result ≡ cond (eqb feed 0) primary.entry insertion.entry }
{
    if feed == 0 { primary } else { insertion }
}

// 10: "a lent section over 1,024 bytes".
fn is_long(primary: &[u8], insertion: &[u8]) -> bool
    ensures { result ≡ long_section (lending_maps primary.now insertion.now 0) }
{
    SECTION < primary.len() || SECTION < insertion.len()
}

// GetConfig's record is still to be written: its Hardware_Config stands in the log.
fn finish(log: &[u8], h: Carried, conn: u32, section: &[u8], g: Heard, out: &mut [u8]) -> usize
    requires conn_bound { conn ≤ 3 }
    requires all { All (Placed log.now) h.places }
    requires section_len_bound { length section.now ≤ longest_section }
    requires card_room_in_bounds { card_room ≤ length out.old }
    ensures { Finishes log.now h conn section.now g out.old result out.new }
{
    let Effect::Configures = g.effect else {
        return g.len;
    };
    recall_answers::answer_config(log, h, conn, section, &mut *out)
}

// Message: 13, 1, 2, 7, 10, then 5 (header), 4, 5 (body); then the answer. l: the bytes read so far; primary, insertion: the lent sections.
pub fn message<'a>(
    log: &mut [u8],
    conn: u32,
    l: &[u8],
    primary: &'a [u8],
    insertion: &'a [u8],
    out: &mut [u8],
) -> Reply
    ensures { Remembers
        (messages conn l.now (lending_maps primary.now insertion.now (length out.old)))
        log.old out.old result log.new out.new }
{
    let at = begin(&*log)?;
    let mut m = [0; WORDS];
    let h = recall_pass::pass(&*log, &mut m);
    let head = recall_pass::framed(h, conn, l, out.len(), is_long(primary, insertion))?;
    let section = map_on_air(primary, insertion, recall_pass::feed(&m, h));
    let d = reading::data_of(l, head.size as usize);
    let g = recall_pass::hear(&mut m, h, conn, head.id, d, &mut *out);
    let len = finish(&*log, h, conn, section, g, &mut *out);
    recall_log::keep_message(&mut *log, at, conn as u8, l, head.size);
    Ok(Did {
        consumed: 8 + head.size as usize,
        written: len,
        moved: g.moved,
    })
}
