// The frame of a sheet: where its texts stand, by the counts alone.
//   section_at(sheet, cursor) == the part of the cursor's section
//   frame(sheet)              == the parts of all sections; the last goes to the sheet's end
ghost use Rattle.std.specs.Prelude.{◌≡◌, ◌≤◌, length, take, drop};
ghost use Rattle.text.specs.Number.{from_digits};
ghost use Rattle.section.specs.Refusal.{refusal};
ghost use Rattle.sheet.specs.Sheet.{section_at, part_end, rest_after, frame as frame_of};
ghost use Rattle.sheet.specs.Code.{section_of, from_deny, from_byuid, from_portacl};

use crate::Parts;
use section::{Allow, Byuid, Cursor, Deny, Fault, Part, Portacl, Refusal};

// What stands from a place on, empty where that is past the end.
fn bytes_from(s: &[u8], at: usize) -> &[u8]
    ensures { result.now ≡ drop at s.now }
{
    if s.len() <= at {
        return &s[..0];
    }
    &s[at..]
}

// The count that s begins with: four bytes, most significant first.
fn read_count(s: &[u8]) -> usize
    requires { 4 ≤ length s.now }
    ensures { result ≡ from_digits 256 0 (take 4 s.now) }
{
    let first = s[0] as usize;
    let second = s[1] as usize;
    let third = s[2] as usize;
    let fourth = s[3] as usize;
    ((first * 256 + second) * 256 + third) * 256 + fourth
}

// The refusal of the cursor's section.
fn refuse(cursor: Cursor, fault: Fault) -> Result<Part, Refusal>
    ensures { result ≡ Err (refusal fault cursor.order 0) }
{
    Err(Refusal {
        fault,
        section: cursor.order,
        line: 0,
    })
}

// The part of the cursor's section: its count present, its limit, its bytes present.
pub fn section_at(sheet: &[u8], cursor: Cursor) -> Result<Part, Refusal>
    ensures { result ≡ section_at (section_of cursor) cursor.at sheet.now }
{
    let rest = bytes_from(sheet, cursor.at);
    if rest.len() < 4 {
        return refuse(cursor, Fault::CutShort);
    }
    let n = read_count(rest);
    if cursor.limit < n {
        return refuse(cursor, Fault::OverLimit);
    }
    if rest.len() - 4 < n {
        return refuse(cursor, Fault::CutShort);
    }
    Ok(Part {
        place: cursor.at + 4,
        len: n,
    })
}

// What follows a part, to the end of the sheet.
fn rest_after(sheet: &[u8], part: Part) -> Part
    requires { part_end part ≤ length sheet.now }
    ensures { result ≡ rest_after sheet.now part }
{
    let end = part.place + part.len;
    Part {
        place: end,
        len: sheet.len() - end,
    }
}

// The frame, read from portacl on.
fn from_portacl(sheet: &[u8], allow: Part, deny: Part, byuid: Part) -> Result<Parts, Refusal>
    requires { part_end byuid ≤ length sheet.now }
    ensures { result ≡ from_portacl sheet.now allow deny byuid }
{
    let portacl = section_at(sheet, Portacl::cursor(byuid.place + byuid.len))?;
    Ok(Parts {
        allow,
        deny,
        byuid,
        portacl,
        tables: rest_after(sheet, portacl),
    })
}

// The frame, read from byuid on.
fn from_byuid(sheet: &[u8], allow: Part, deny: Part) -> Result<Parts, Refusal>
    requires { part_end deny ≤ length sheet.now }
    ensures { result ≡ from_byuid sheet.now allow deny }
{
    let byuid = section_at(sheet, Byuid::cursor(deny.place + deny.len))?;
    from_portacl(sheet, allow, deny, byuid)
}

// The frame, read from deny on.
fn from_deny(sheet: &[u8], allow: Part) -> Result<Parts, Refusal>
    requires { part_end allow ≤ length sheet.now }
    ensures { result ≡ from_deny sheet.now allow }
{
    let deny = section_at(sheet, Deny::cursor(allow.place + allow.len))?;
    from_byuid(sheet, allow, deny)
}

// The parts of all sections; the last goes to the sheet's end.
pub fn frame(sheet: &[u8]) -> Result<Parts, Refusal>
    ensures { result ≡ frame_of sheet.now }
{
    let allow = section_at(sheet, Allow::cursor(0))?;
    from_deny(sheet, allow)
}
