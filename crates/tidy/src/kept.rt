// The new file: the lines that are not named, as they were.
//   write_kept(out, text, marks) == the lines without the mark 2, written to the front of out
ghost use Rattle.std.specs.Prelude.{◌≡◌, ◌+◌, ◌≤◌, ◌<◌, length};
ghost use Rattle.text.specs.Scan.{put_at, after};
ghost use Rattle.section.specs.Refusal.{written_of, within_room, lent_after};
ghost use Rattle.lines.specs.Line.{lines};
ghost use Rattle.tidy.specs.Code.{size_here, kept_here, kept_bytes, Sound};

use lines::line;
use section::{Fault, Refusal};

// How many bytes of a line of so many stay.
fn kept_size(marks: &[u8; 16385], n: usize, size: usize) -> usize
    requires { n < 16385 }
    ensures { result ≡ size_here marks.now n size }
{
    if marks[n] == 2 {
        return 0;
    }
    size
}

// How many bytes the lines have that are not named.
fn kept_len(text: &[u8], marks: &[u8; 16385]) -> usize
    requires { (length text.now ≤ 16384) × Sound text.now }
    ensures { result ≡ length (kept_bytes marks.now (lines text.now)) }
{
    let mut len = 0;
    let mut i = 0;
    let mut n = 1;
    while i < text.len() {
        let span = line::scan_line(text, i);
        let next = span.end + 1;
        len += kept_size(marks, n, next - i);
        n += span.joins + 1;
        i = next;
    }
    len
}

// Writes a line from at on, unless it is named, and answers the place after it.
fn put_line(out: &mut [u8], at: usize, marks: &[u8; 16385], n: usize, s: &[u8]) -> usize
    requires n_bound { n < 16385 }
    requires s_in_bounds { at + length (kept_here marks.now n s.now) ≤ length out.old }
    ensures next { result ≡ at + length (kept_here marks.now n s.now) }
    ensures written { out.new ≡ put_at out.old at (kept_here marks.now n s.now) }
{
    if marks[n] == 2 {
        return at;
    }
    text::put(out, at, s)
}

// Writes the lines that are not named at the front of out.
fn put_kept(out: &mut [u8], text: &[u8], marks: &[u8; 16385])
    requires text_len_bound { (length text.now ≤ 16384) × Sound text.now }
    requires text_in_bounds { length (kept_bytes marks.now (lines text.now)) ≤ length out.old }
    ensures { out.new ≡ after (kept_bytes marks.now (lines text.now)) out.old }
{
    let mut at = 0;
    let mut i = 0;
    let mut n = 1;
    while i < text.len() {
        let span = line::scan_line(text, i);
        let next = span.end + 1;
        let place = put_line(out, at, marks, n, &text[i..next]);
        at = place;
        n += span.joins + 1;
        i = next;
    }
}

// Writes the lines that are not named, where there is room.
pub(crate) fn write_kept(out: &mut [u8], text: &[u8], marks: &[u8; 16385]) -> Result<usize, Refusal>
    requires { (length text.now ≤ 16384) × Sound text.now }
    ensures answer { result ≡ written_of (within_room (length out.old) (kept_bytes marks.now (lines text.now))) }
    ensures holds { out.new
        ≡ lent_after out.old (within_room (length out.old) (kept_bytes marks.now (lines text.now))) }
{
    let n = kept_len(text, marks);
    if out.len() < n {
        return Err(section::placeless(Fault::NoRoom));
    }
    put_kept(out, text, marks);
    Ok(n)
}
