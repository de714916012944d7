// The new texts and the list of changes: measured, and written where there is room. Nothing here stores into both outputs.
//   measure(kind, listing, ..)   == how many bytes are written of a text
//   measure_texts, measure_list  == how long the new texts and the list are
//   put_sheet, put_list          == the new sheet and the list, written to the front of an output
ghost use Rattle.std.specs.Prelude.{◌≡◌, true, false, ◌+◌, ◌*◌, ◌≤◌, length};
ghost use Rattle.text.specs.Scan.{put_at, after};
ghost use Rattle.elements.specs.Code.{view_of};
ghost use Rattle.sheet.specs.Sheet.{texts, counted, sheet_of};
ghost use Rattle.salvage.specs.Code.{made_of, made_texts, made_list, sizes_of, Small};

use crate::piece::{Kind, piece_at, piece_len, put_piece, stop_of};
use sheet::pack::put_count;

// How long the new texts are.
#[derive(Clone, Copy)]
pub struct Sizes {
    pub allow: usize,
    pub deny: usize,
    pub byuid: usize,
    pub portacl: usize,
}

// How many bytes are written of a text: into the list where listing holds, else into the new text.
pub(crate) fn measure(kind: Kind, listing: bool, tables: &[u8], notes: &[u64], text: &[u8]) -> usize
    requires { length text.now ≤ 16384 }
    ensures count { result ≡ length (made_of kind (view_of tables.now notes.now) listing text.now) }
    ensures few { result ≤ 147465 }
{
    let class = classes::classes();
    let stop = stop_of(kind, text.len());
    let mut bytes = 0;
    let mut alone = true;
    let mut number = 1;
    let mut at = 0;
    while at < stop {
        let piece = piece_at(kind, &class, tables, notes, text, at, number);
        let end = piece.end;
        bytes += piece_len(
            kind,
            listing,
            &text[at..end],
            piece.ended,
            number,
            piece.bad,
            alone,
        );
        alone = alone & piece.bad;
        number = piece.number;
        at = end + 1;
    }
    bytes
}

// Writes what is to be written of a text, from start on, and answers the place after it.
fn put_made(
    out: &mut [u8],
    start: usize,
    kind: Kind,
    listing: bool,
    tables: &[u8],
    notes: &[u64],
    text: &[u8],
) -> usize
    requires text_len_bound { length text.now ≤ 16384 }
    requires text_in_bounds { start + length (made_of kind (view_of tables.now notes.now) listing text.now) ≤ length out.old }
    ensures next { result ≡ start + length (made_of kind (view_of tables.now notes.now) listing text.now) }
    ensures written { out.new
        ≡ put_at out.old start (made_of kind (view_of tables.now notes.now) listing text.now) }
{
    let class = classes::classes();
    let stop = stop_of(kind, text.len());
    let mut place = start;
    let mut alone = true;
    let mut number = 1;
    let mut at = 0;
    while at < stop {
        let found = piece_at(kind, &class, tables, notes, text, at, number);
        let end = found.end;
        let next = put_piece(
            out,
            place,
            kind,
            listing,
            &text[at..end],
            found.ended,
            number,
            found.bad,
            alone,
        );
        place = next;
        alone = alone & found.bad;
        number = found.number;
        at = end + 1;
    }
    place
}

// How long the new texts are.
pub(crate) fn measure_texts(
    allow: &[u8],
    deny: &[u8],
    byuid: &[u8],
    portacl: &[u8],
    tables: &[u8],
    notes: &[u64],
) -> Sizes
    requires { Small (texts allow.now deny.now byuid.now portacl.now tables.now) }
    ensures sizes { result ≡ sizes_of (made_texts (view_of tables.now notes.now) (texts allow.now deny.now byuid.now portacl.now tables.now)) }
    ensures few { (result.allow ≤ 147465) × ((result.deny ≤ 147465) × ((result.byuid ≤ 147465) × (result.portacl ≤ 147465))) }
{
    Sizes {
        allow: measure(Kind::Allow, false, tables, notes, allow),
        deny: measure(Kind::Deny, false, tables, notes, deny),
        byuid: measure(Kind::Byuid, false, tables, notes, byuid),
        portacl: measure(Kind::Portacl, false, tables, notes, portacl),
    }
}

// How long the list is.
pub(crate) fn measure_list(
    allow: &[u8],
    deny: &[u8],
    byuid: &[u8],
    portacl: &[u8],
    tables: &[u8],
    notes: &[u64],
) -> usize
    requires { Small (texts allow.now deny.now byuid.now portacl.now tables.now) }
    ensures { result ≡ length (made_list (view_of tables.now notes.now) (texts allow.now deny.now byuid.now portacl.now tables.now)) }
{
    let of_allow = measure(Kind::Allow, true, tables, notes, allow);
    let of_deny = measure(Kind::Deny, true, tables, notes, deny);
    let of_byuid = measure(Kind::Byuid, true, tables, notes, byuid);
    let of_portacl = measure(Kind::Portacl, true, tables, notes, portacl);
    of_allow + of_deny + of_byuid + of_portacl
}

// Writes a new text after its count, from at on, and answers the place after it.
fn put_counted(
    out: &mut [u8],
    at: usize,
    count: usize,
    kind: Kind,
    tables: &[u8],
    notes: &[u64],
    text: &[u8],
) -> usize
    requires text_len_bound { length text.now ≤ 16384 }
    requires count_value { count ≡ length (made_of kind (view_of tables.now notes.now) false text.now) }
    requires count_in_bounds { at + 4 + count ≤ length out.old }
    ensures next { result ≡ at + 4 + count }
    ensures written { out.new
        ≡ put_at out.old at (counted (made_of kind (view_of tables.now notes.now) false text.now)) }
{
    let start = put_count(out, at, count);
    put_made(out, start, kind, false, tables, notes, text)
}

// Writes the new sheet at the front of out, and answers its length.
pub(crate) fn put_sheet(
    out: &mut [u8],
    allow: &[u8],
    deny: &[u8],
    byuid: &[u8],
    portacl: &[u8],
    tables: &[u8],
    notes: &[u64],
    sizes: Sizes,
) -> usize
    requires small { Small (texts allow.now deny.now byuid.now portacl.now tables.now) }
    requires sizes_value { sizes ≡ sizes_of (made_texts (view_of tables.now notes.now) (texts allow.now deny.now byuid.now portacl.now tables.now)) }
    requires tables_in_bounds { 16 + sizes.allow + sizes.deny + sizes.byuid + sizes.portacl + length tables.now ≤ length out.old }
    ensures count { result ≡ length (sheet_of (made_texts (view_of tables.now notes.now) (texts allow.now deny.now byuid.now portacl.now tables.now))) }
    ensures written { out.new ≡ after (sheet_of (made_texts (view_of tables.now notes.now) (texts allow.now
        deny.now byuid.now portacl.now tables.now))) out.old }
{
    let at_deny = put_counted(out, 0, sizes.allow, Kind::Allow, tables, notes, allow);
    let at_byuid = put_counted(out, at_deny, sizes.deny, Kind::Deny, tables, notes, deny);
    let at_portacl = put_counted(
        out,
        at_byuid,
        sizes.byuid,
        Kind::Byuid,
        tables,
        notes,
        byuid,
    );
    let at_tables = put_counted(
        out,
        at_portacl,
        sizes.portacl,
        Kind::Portacl,
        tables,
        notes,
        portacl,
    );
    text::put(out, at_tables, tables)
}

// Writes the list of changes at the front of out, and answers its length.
pub(crate) fn put_list(
    out: &mut [u8],
    allow: &[u8],
    deny: &[u8],
    byuid: &[u8],
    portacl: &[u8],
    tables: &[u8],
    notes: &[u64],
) -> usize
    requires small { Small (texts allow.now deny.now byuid.now portacl.now tables.now) }
    requires tables_in_bounds { length (made_list (view_of tables.now notes.now) (texts allow.now deny.now byuid.now portacl.now tables.now)) ≤ length
        out.old }
    ensures count { result ≡ length (made_list (view_of tables.now notes.now) (texts allow.now deny.now byuid.now portacl.now tables.now)) }
    ensures written { out.new ≡ after (made_list (view_of tables.now notes.now) (texts allow.now deny.now byuid.now portacl.now tables.now)) out.old }
{
    let of_deny = put_made(out, 0, Kind::Allow, true, tables, notes, allow);
    let of_byuid = put_made(out, of_deny, Kind::Deny, true, tables, notes, deny);
    let of_portacl = put_made(out, of_byuid, Kind::Byuid, true, tables, notes, byuid);
    put_made(out, of_portacl, Kind::Portacl, true, tables, notes, portacl)
}
