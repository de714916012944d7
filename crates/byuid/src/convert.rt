// Conversion: a byuid text with its lines of the retired form in their new one.
//   convert(out, text) == the converted text, written to the front of out
ghost use Rattle.std.specs.Prelude.{◌≡◌, ◌+◌, ◌≤◌, length};
ghost use Rattle.text.specs.Scan.{put_at, after};
ghost use Rattle.section.specs.Refusal.{written_of, lent_after};
ghost use Rattle.byuid.specs.Convert.{convert_line, convert_text};
ghost use Rattle.byuid.specs.Convert.{convert as convert_of};

use crate::line::is_retired;
use section::{Byuid, Fault, Refusal};

// Writes l from at on. Up to three bytes are written one by one, as lines that are empty or nearly so are many: a call that copies takes longer.
fn put_bytes(out: &mut [u8], at: usize, l: &[u8])
    requires { at + length l.now ≤ length out.old }
    ensures { out.new ≡ put_at out.old at l.now }
{
    if 3 < l.len() {
        text::put(out, at, l);
        return;
    }
    for j in 0..l.len() {
        out[at + j] = l[j];
    }
}

// Writes a line from at on, the two marks exchanged where it is of the retired form.
pub fn put_line(out: &mut [u8], at: usize, l: &[u8])
    requires { at + length l.now ≤ length out.old }
    ensures { out.new ≡ put_at out.old at (convert_line l.now) }
{
    if l.len() == 0 {
        return;
    }
    put_bytes(out, at, l);
    if is_retired(l) {
        let colon = text::index_of(l, b':');
        let low = colon + 1;
        let comma = low + text::index_of(&l[low..], b',');
        out[at + colon] = b',';
        out[at + comma] = b'-';
    }
}

// Writes the lines of a text, converted, at the front of out.
fn put_lines(out: &mut [u8], text: &[u8])
    requires { length text.now ≤ length out.old }
    ensures { out.new ≡ after (convert_text text.now) out.old }
{
    let mut at = 0;
    while at < text.len() {
        let end = at + text::index_of(&text[at..], b'\n');
        put_line(out, at, &text[at..end]);
        if end == text.len() {
            return;
        }
        out[end] = b'\n';
        at = end + 1;
    }
}

// Converts a text into the front of out; a refusal leaves out as it was.
pub fn convert(out: &mut [u8], text: &[u8]) -> Result<usize, Refusal>
    ensures answer { result ≡ written_of (convert_of text.now (length out.old)) }
    ensures holds { out.new ≡ lent_after out.old (convert_of text.now (length out.old)) }
{
    if Byuid::over(text.len()) {
        return Err(Byuid::refusal(Fault::OverLimit, 0));
    }
    if out.len() < text.len() {
        return Err(section::placeless(Fault::NoRoom));
    }
    put_lines(out, text);
    Ok(text.len())
}
