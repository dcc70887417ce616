// A request's list of streams in lent memory: read from its bytes, and written (02, CR 1).
// Both begin with PcrPID. Words: how many, the PcrPID, and 16 rows of eight words. Bytes: what the structures keep, all streams' in a
// row.
// The two arrays, the count in the first and numbers of 64 bits are as splicer_7_read_streams and splicer_7_write_streams lend them.
#![tactic(auto)]

ghost use Rattle.std.specs.Prelude.{◌≡◌, false, ◌++◌, ◌≤◌, length, drop};
ghost use Rattle.rules.specs.Bytes.{bytes, written};
ghost use Rattle.rules.specs.Streams.{bad_stream, stream_at, stream_bytes, streams_bytes};
ghost use Rattle.streams.specs.Rows.{row_of, Fillable, Filled, ReadsList};
ghost use Rattle.streams.specs.Rows.{bad_row, judged, row_stream, list_in, Puttable, Writing, Judged, WritesList};

use reading::numbers::{number2, number4};
use reading::structures::{HIGHEST_PID, MOST, end_of};

// "At most 16 streams."
pub const ROWS: usize = MOST as usize;

// PID, StreamType, AvgBitrate, MaxBitrate, MinBitrate, HResolution, VResolution, how many bytes are kept.
pub const ROW: usize = 8;

// How many, the PcrPID, and the rows.
pub const LIST: usize = 2 + ROWS * ROW;

// A structure has at most 255 bytes.
const MOST_KEPT: u64 = 234;

pub const KEPT: usize = 3744;

// ---- reading

// The structure that p begins with, as a row.
fn fill_row(p: &[u8], row: &mut [u64])
    requires p_value { bad_stream p.now ≡ false }
    requires in_bounds { 8 ≤ length row.old }
    ensures { row.new ≡ written row.old 0 (row_of (stream_at p.now)) }
{
    row[0] = number2(p, 1) as u64;
    row[1] = number2(p, 3) as u64;
    row[2] = number4(p, 5) as u64;
    row[3] = number4(p, 9) as u64;
    row[4] = number4(p, 13) as u64;
    row[5] = number2(p, 17) as u64;
    row[6] = number2(p, 19) as u64;
    row[7] = (p[0] - 21) as u64;
}

// n structures, which are good, into rows and kept bytes.
fn fill(p: &[u8], n: usize, words: &mut [u64], kept: &mut [u8])
    requires { Fillable n p.now words.old kept.old }
    ensures { Filled n p.now words.old kept.old words.new kept.new }
{
    let mut at = 0;
    let mut to = 0;
    for i in 0..n {
        let end = at + p[at] as usize;
        let from = at + 21;
        let row = 2 + i * ROW;
        fill_row(&p[at..], &mut words[row..]);
        writing::copy(&mut kept[to..], &p[from..end]);
        to += end - from;
        at = end;
    }
}

// The bytes taken, or 0: then all that is lent stays as it was. Rows behind the last are zeroed; kept bytes behind the last stay.
// 0 and not None: it is what C gets of splicer_7_read_streams.
pub fn read(p: &[u8], words: &mut [u64; LIST], kept: &mut [u8; KEPT]) -> usize
    ensures { ReadsList p.now words.old kept.old result words.new kept.new }
{
    let Some(end) = end_of(p) else {
        return 0;
    };
    let n = number4(p, 2);
    *words = [0; LIST];
    words[0] = n as u64;
    words[1] = number2(p, 0) as u64;
    fill(&p[6..], n as usize, &mut *words, &mut *kept);
    end
}

// ---- writing

// Whether a row could not be read back.
fn is_bad(w: &[u64]) -> bool
    requires { 8 ≤ length w.now }
    ensures { result ≡ bad_row w.now }
{
    u64::from(HIGHEST_PID) < w[0]
        || 0xFFFF <= w[1]
        || 4294967296 <= w[2]
        || 4294967296 <= w[3]
        || 4294967296 <= w[4]
        || 65536 <= w[5]
        || 65536 <= w[6]
        || MOST_KEPT < w[7]
}

// The bytes that n rows take, if none of them is bad.
fn size_of(words: &[u64], n: usize) -> Option<usize>
    requires n_bound { n ≤ 16 }
    requires in_bounds { 130 ≤ length words.now }
    ensures { result ≡ judged n (drop 2 words.now) }
{
    let mut size = 0;
    for i in 0..n {
        let row = 2 + i * ROW;
        if is_bad(&words[row..]) {
            return None;
        }
        size += 21 + words[row + 7] as usize;
    }
    Some(size)
}

// Length, PID, StreamType.
fn put_ids(out: &mut [u8], size: u64, pid: u16, kind: u16)
    requires { 5 ≤ length out.old }
    ensures { out.new ≡ written out.old 0 (bytes 1 size ++ bytes 2 pid ++ bytes 2 kind) }
{
    writing::put1(&mut *out, size);
    writing::put2(&mut out[1..], pid);
    writing::put2(&mut out[3..], kind);
}

// AvgBitrate, MaxBitrate, MinBitrate.
fn put_rates(out: &mut [u8], avg: u64, max: u64, min: u64)
    requires { 12 ≤ length out.old }
    ensures { out.new ≡ written out.old 0 (bytes 4 avg ++ bytes 4 max ++ bytes 4 min) }
{
    writing::put4(&mut *out, avg);
    writing::put4(&mut out[4..], max);
    writing::put4(&mut out[8..], min);
}

// HResolution, VResolution.
fn put_picture(out: &mut [u8], width: u16, height: u16)
    requires { 4 ≤ length out.old }
    ensures { out.new ≡ written out.old 0 (bytes 2 width ++ bytes 2 height) }
{
    writing::put2(&mut *out, width);
    writing::put2(&mut out[2..], height);
}

// The structure of a row, whose kept bytes are the first of k. "Length counts the whole structure".
fn put_row(w: &[u64], k: &[u8], out: &mut [u8])
    requires { Puttable w.now k.now out.old }
    ensures { out.new ≡ written out.old 0 (stream_bytes (row_stream w.now k.now)) }
{
    let n = w[7] as usize;
    put_ids(&mut *out, 21 + w[7], w[0] as u16, w[1] as u16);
    put_rates(&mut out[5..], w[2], w[3], w[4]);
    put_picture(&mut out[17..], w[5] as u16, w[6] as u16);
    writing::copy(&mut out[21..], &k[0..n]);
}

// n rows, which are good, one structure directly behind the other.
fn put_rows(words: &[u64], kept: &[u8], n: usize, out: &mut [u8])
    requires { Writing n words.now kept.now out.old }
    ensures { out.new ≡ written out.old 6 (streams_bytes (list_in n (drop 2 words.now) kept.now)) }
{
    let mut at = 0;
    let mut to = 6;
    for i in 0..n {
        let row = 2 + i * ROW;
        let k = words[row + 7] as usize;
        put_row(&words[row..], &kept[at..], &mut out[to..]);
        at += k;
        to += 21 + k;
    }
}

// A good list whose structures take `size` bytes: the bytes written, or 0 where out is too short.
// 0 and not None, for splicer_7_write_streams, as `write`.
fn put_list(words: &[u64], kept: &[u8], size: usize, out: &mut [u8]) -> usize
    requires { Judged words.now kept.now size }
    ensures { WritesList words.now kept.now out.old result out.new }
{
    if out.len() < 6 + size {
        return 0;
    }
    let n = words[0] as usize;
    writing::put2(&mut *out, words[1] as u16);
    writing::put4(&mut out[2..], words[0]);
    put_rows(words, kept, n, &mut *out);
    6 + size
}

// The bytes written, or 0: then out stays as it was. Bytes behind those written stay. 0 and not None, for splicer_7_write_streams.
pub fn write(words: &[u64; LIST], kept: &[u8; KEPT], out: &mut [u8]) -> usize
    ensures { WritesList words.now kept.now out.old result out.new }
{
    if u64::from(MOST) < words[0] || u64::from(HIGHEST_PID) < words[1] {
        return 0;
    }
    let Some(size) = size_of(words, words[0] as usize) else {
        return 0;
    };
    put_list(words, kept, size, &mut *out)
}
