// Writing what a joined and trimmed command expands to, where there is room.
//   expansion_length(t, ..)      == how many bytes t writes
//   put_expansion(out, t, ..)    == writes them at the front of out
//   write_expansion(out, t, ..)  == measures first, and writes where the room suffices
ghost use Rattle.std.specs.Prelude.{◌≡◌, ◌≤◌, length, get_or};
ghost use Rattle.text.specs.Scan.{put_at};
ghost use Rattle.section.specs.Refusal.{within_room, written_of, lent_after};
ghost use Rattle.expansion.specs.Code.{texts_at, Short, expansion_by};

use crate::directive::{Given, inserted_length, put_inserted};
use section::{Fault, Refusal};

// The byte at k, 0 past the end, which no directive is.
fn byte_at(s: &[u8], k: usize) -> u8
    ensures { result ≡ get_or s.now k 0 }
{
    if k < s.len() {
        return s[k];
    }
    0
}

// How many bytes a command of at most 2,047 writes.
fn expansion_length<'a>(t: &'a [u8], names: &'a [u8], texts: &'a [u8], g: Given) -> usize
    requires { (length t.now ≤ 2047) × Short (texts_at names.now texts.now g) }
    ensures { result ≡ length (expansion_by (texts_at names.now texts.now g) t.now) }
{
    let mut n = 0;
    let mut i = 0;
    while i < t.len() {
        if t[i] == b'%' {
            n += inserted_length(byte_at(t, i + 1), names, texts, g);
            i += 2;
        } else {
            n += 1;
            i += 1;
        }
    }
    n
}

// Writes them, and answers how many there are.
fn put_expansion<'a>(
    out: &mut [u8],
    t: &'a [u8],
    names: &'a [u8],
    texts: &'a [u8],
    g: Given,
) -> usize
    requires { length (expansion_by (texts_at names.now texts.now g) t.now) ≤ length out.old }
    ensures count { result ≡ length (expansion_by (texts_at names.now texts.now g) t.now) }
    ensures written { out.new
        ≡ put_at out.old 0 (expansion_by (texts_at names.now texts.now g) t.now) }
{
    let mut n = 0;
    let mut j = 0;
    while j < t.len() {
        if t[j] == b'%' {
            n = put_inserted(out, n, byte_at(t, j + 1), names, texts, g);
            j += 2;
        } else {
            out[n] = t[j];
            n += 1;
            j += 1;
        }
    }
    n
}

// Writes them where they fit; else that is refused, and out is as it was.
pub fn write_expansion<'a>(
    out: &mut [u8],
    t: &'a [u8],
    names: &'a [u8],
    texts: &'a [u8],
    g: Given,
) -> Result<usize, Refusal>
    requires { (length t.now ≤ 2047) × Short (texts_at names.now texts.now g) }
    ensures answer { result
        ≡ written_of (within_room (length out.old) (expansion_by (texts_at names.now texts.now g) t.now)) }
    ensures holds { out.new
        ≡ lent_after out.old
        (within_room (length out.old) (expansion_by (texts_at names.now texts.now g) t.now)) }
{
    let n = expansion_length(t, names, texts, g);
    if out.len() < n {
        return Err(section::placeless(Fault::NoRoom));
    }
    let count = put_expansion(out, t, names, texts, g);
    Ok(count)
}
