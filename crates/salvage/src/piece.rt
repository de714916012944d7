// A text by its pieces: the logical lines of allow and deny, the lines of byuid, the entries of portacl.
//   piece_at(kind, .., text, at, number) == the piece that starts at a place, and whether it is bad
//   piece_len(kind, listing, ..)         == how many bytes are written of it, into the list or into the new text
//   put_piece(out, at, kind, listing, ..) == those bytes, written
ghost use Rattle.std.specs.Prelude.{◌≡◌, false, [], ◌+◌, ◌*◌, ◌≤◌, ◌<◌, length};
ghost use Rattle.text.specs.Scan.{put_at};
ghost use Rattle.classes.specs.Class.{Classes};
ghost use Rattle.elements.specs.Code.{view_of};
ghost use Rattle.salvage.specs.Code.{stop_of, Found, section_of, rule_bytes, bind_bytes, entry_bytes, text_bytes, listed_bytes, written_for};
ghost use Rattle.salvage.specs.declared.piece.Kind.TheVariants as K;

use byuid::convert;
use byuid::line::is_retired;
use lines::line::scan_line;
use rules::hosts_file::is_faulty;
use section::{Allow, Byuid, Deny, Portacl};
use sheet::pack::put_count;

// The texts that may have bad pieces.
#[derive(Clone, Copy)]
pub enum Kind {
    Allow,
    Deny,
    Byuid,
    Portacl,
}

// A piece: its end, whether its mark stands there, the number of the piece after it, and whether it is bad.
#[derive(Clone, Copy)]
pub struct Piece {
    pub end: usize,
    pub ended: bool,
    pub number: usize,
    pub bad: bool,
}

// Where the pieces of a text of so many bytes stop: after the last mark of byuid and portacl there is one more, but none in an empty list.
pub(crate) fn stop_of(kind: Kind, len: usize) -> usize
    requires { len ≤ 16384 }
    ensures { result ≡ stop_of kind len }
{
    match kind {
        Kind::Allow => len,
        Kind::Deny => len,
        Kind::Byuid => len + 1,
        Kind::Portacl => { if len == 0 { 0 } else { len + 1 } }
    }
}

// The logical line of allow or deny at a place.
fn rule_at(
    class: &[u8; 256],
    tables: &[u8],
    notes: &[u64],
    text: &[u8],
    at: usize,
    number: usize,
) -> Piece
    requires classes { Classes class.now }
    requires at_in_bounds { (at < length text.now) × (number ≤ at + 1) }
    ensures allow { Found K.Allow (view_of tables.now notes.now) text.now at number result }
    ensures deny { Found K.Deny (view_of tables.now notes.now) text.now at number result }
{
    let span = scan_line(text, at);
    let end = span.end;
    Piece {
        end,
        ended: span.ended,
        number: number + span.joins + 1,
        bad: is_faulty(class, tables, notes, &text[at..end], span),
    }
}

// The line of byuid at a place.
fn bind_at(tables: &[u8], notes: &[u64], text: &[u8], at: usize, number: usize) -> Piece
    requires text_len_bound { length text.now ≤ 16384 }
    requires at_in_bounds { (at ≤ length text.now) × (number ≤ at + 1) }
    ensures { Found K.Byuid (view_of tables.now notes.now) text.now at number result }
{
    let end = at + text::index_of(&text[at..], b'\n');
    Piece {
        end,
        ended: end < text.len(),
        number: number + 1,
        bad: is_retired(&text[at..end]),
    }
}

// The entry of portacl at a place.
fn entry_at(tables: &[u8], notes: &[u64], text: &[u8], at: usize, number: usize) -> Piece
    requires text_nonzero { (0 < length text.now) × (length text.now ≤ 16384) }
    requires at_in_bounds { (at ≤ length text.now) × (number ≤ at + 1) }
    ensures { Found K.Portacl (view_of tables.now notes.now) text.now at number result }
{
    let end = at + text::index_of(&text[at..], b',');
    Piece {
        end,
        ended: end < text.len(),
        number: number + 1,
        bad: !portacl::is_entry(&text[at..end]),
    }
}

// The piece of a text at a place, which has that number; the notes say which tables may be named.
pub(crate) fn piece_at(
    kind: Kind,
    class: &[u8; 256],
    tables: &[u8],
    notes: &[u64],
    text: &[u8],
    at: usize,
    number: usize,
) -> Piece
    requires classes { Classes class.now }
    requires text_len_bound { length text.now ≤ 16384 }
    requires at_bound { (at < stop_of kind (length text.now)) × (number ≤ at + 1) }
    ensures { Found kind (view_of tables.now notes.now) text.now at number result }
{
    match kind {
        Kind::Allow => rule_at(class, tables, notes, text, at, number),
        Kind::Deny => rule_at(class, tables, notes, text, at, number),
        Kind::Byuid => bind_at(tables, notes, text, at, number),
        Kind::Portacl => entry_at(tables, notes, text, at, number),
    }
}

// How many bytes of the new text are written of a piece; alone: no entry was kept so far.
fn text_len(kind: Kind, raw: &[u8], ended: bool, bad: bool, alone: bool) -> usize
    requires { length raw.now ≤ 16384 }
    ensures count { result ≡ length (text_bytes kind bad alone raw.now ended) }
    ensures few { result ≤ 9 * (length raw.now + 1) }
{
    match kind {
        Kind::Allow => { if bad { 1 } else { raw.len() + 1 } }
        Kind::Deny => { if bad { 9 } else { raw.len() + 1 } }
        Kind::Byuid => { if ended { raw.len() + 1 } else { raw.len() } }
        Kind::Portacl => {
            if bad {
                return 0;
            }
            if alone { raw.len() } else { raw.len() + 1 }
        }
    }
}

// How many bytes are written of a piece.
pub(crate) fn piece_len(
    kind: Kind,
    listing: bool,
    raw: &[u8],
    ended: bool,
    number: usize,
    bad: bool,
    alone: bool,
) -> usize
    requires { length raw.now ≤ 16384 }
    ensures count { result ≡ length (written_for kind listing bad alone number raw.now ended) }
    ensures few { result ≤ 9 * (length raw.now + 1) }
{
    if !listing {
        return text_len(kind, raw, ended, bad, alone);
    }
    if bad { 8 } else { 0 }
}

// Writes a line and a newline.
fn put_ended(out: &mut [u8], at: usize, s: &[u8]) -> usize
    requires { at + length (rule_bytes [] false s.now) ≤ length out.old }
    ensures next { result ≡ at + length (rule_bytes [] false s.now) }
    ensures written { out.new ≡ put_at out.old at (rule_bytes [] false s.now) }
{
    let end = text::put(out, at, s);
    text::put(out, end, b"\n")
}

// Writes a line of allow or deny, or what stands instead of a bad one.
fn put_rule(out: &mut [u8], at: usize, instead: &[u8], raw: &[u8], bad: bool) -> usize
    requires { at + length (rule_bytes instead.now bad raw.now) ≤ length out.old }
    ensures next { result ≡ at + length (rule_bytes instead.now bad raw.now) }
    ensures written { out.new ≡ put_at out.old at (rule_bytes instead.now bad raw.now) }
{
    if bad {
        return put_ended(out, at, instead);
    }
    put_ended(out, at, raw)
}

// Writes a line of byuid, in its new form where it is of the retired one.
fn put_bind(out: &mut [u8], at: usize, raw: &[u8], ended: bool) -> usize
    requires { at + length (bind_bytes raw.now ended) ≤ length out.old }
    ensures next { result ≡ at + length (bind_bytes raw.now ended) }
    ensures written { out.new ≡ put_at out.old at (bind_bytes raw.now ended) }
{
    convert::put_line(out, at, raw);
    let end = at + raw.len();
    if ended {
        return text::put(out, end, b"\n");
    }
    end
}

// Writes a good entry of portacl, after a comma unless it is the first that is kept.
fn put_entry(out: &mut [u8], at: usize, raw: &[u8], bad: bool, alone: bool) -> usize
    requires { at + length (entry_bytes bad alone raw.now) ≤ length out.old }
    ensures next { result ≡ at + length (entry_bytes bad alone raw.now) }
    ensures written { out.new ≡ put_at out.old at (entry_bytes bad alone raw.now) }
{
    if bad {
        return at;
    }
    if alone {
        return text::put(out, at, raw);
    }
    let start = text::put(out, at, b",");
    text::put(out, start, raw)
}

// Writes what the new text has of a piece.
fn put_kept(
    out: &mut [u8],
    at: usize,
    kind: Kind,
    raw: &[u8],
    ended: bool,
    bad: bool,
    alone: bool,
) -> usize
    requires { at + length (text_bytes kind bad alone raw.now ended) ≤ length out.old }
    ensures next { result ≡ at + length (text_bytes kind bad alone raw.now ended) }
    ensures written { out.new ≡ put_at out.old at (text_bytes kind bad alone raw.now ended) }
{
    match kind {
        Kind::Allow => put_rule(out, at, b"", raw, bad),
        Kind::Deny => put_rule(out, at, b"ALL: ALL", raw, bad),
        Kind::Byuid => put_bind(out, at, raw, ended),
        Kind::Portacl => put_entry(out, at, raw, bad, alone),
    }
}

// The number of a text's section.
fn order_of(kind: Kind) -> usize
    ensures { result ≡ (section_of kind).order }
{
    match kind {
        Kind::Allow => Allow::ORDER as usize,
        Kind::Deny => Deny::ORDER as usize,
        Kind::Byuid => Byuid::ORDER as usize,
        Kind::Portacl => Portacl::ORDER as usize,
    }
}

// Writes what the list has of a piece: the section and number of a bad one.
fn put_change(out: &mut [u8], at: usize, kind: Kind, number: usize, bad: bool) -> usize
    requires { at + length (listed_bytes kind bad number) ≤ length out.old }
    ensures next { result ≡ at + length (listed_bytes kind bad number) }
    ensures written { out.new ≡ put_at out.old at (listed_bytes kind bad number) }
{
    if !bad {
        return at;
    }
    let second = put_count(out, at, order_of(kind));
    put_count(out, second, number)
}

// Writes what is to be written of a piece.
pub(crate) fn put_piece(
    out: &mut [u8],
    at: usize,
    kind: Kind,
    listing: bool,
    raw: &[u8],
    ended: bool,
    number: usize,
    bad: bool,
    alone: bool,
) -> usize
    requires { at + length (written_for kind listing bad alone number raw.now ended) ≤ length out.old }
    ensures next { result ≡ at + length (written_for kind listing bad alone number raw.now ended) }
    ensures written { out.new
        ≡ put_at out.old at (written_for kind listing bad alone number raw.now ended) }
{
    if listing {
        return put_change(out, at, kind, number, bad);
    }
    put_kept(out, at, kind, raw, ended, bad, alone)
}
