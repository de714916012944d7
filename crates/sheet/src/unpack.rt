// Unpacking a sheet.
//   unpack(sheet) == the place and length of each text of an accepted sheet; every other one is refused
ghost use Rattle.std.specs.Prelude.{◌≡◌};
ghost use Rattle.section.specs.Refusal.{checked_of};
ghost use Rattle.sheet.specs.Sheet.{texts_at, texts_fault, unpack as unpackOf};

use crate::{Parts, frame, texts};
use section::{Refusal, part_of};

// The first refusal of the texts that stand in a sheet, if there is one.
fn check_parts(sheet: &[u8], parts: Parts) -> Result<(), Refusal>
    ensures { result ≡ checked_of (texts_fault (texts_at sheet.now parts)) }
{
    texts::check_texts(
        part_of(sheet, parts.allow),
        part_of(sheet, parts.deny),
        part_of(sheet, parts.byuid),
        part_of(sheet, parts.portacl),
        part_of(sheet, parts.tables),
    )
}

// The place and length of each text of a sheet.
pub fn unpack(sheet: &[u8]) -> Result<Parts, Refusal>
    ensures { result ≡ unpackOf sheet.now }
{
    let parts = frame::frame(sheet)?;
    check_parts(sheet, parts)?;
    Ok(parts)
}
