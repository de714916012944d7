// Salvage: a sheet with bad lines made into one that is accepted. Each text is gone over by its pieces, a bad one is replaced, and a list names each.
//   salvage(out, list, sheet) == the call: every check, then the new sheet and the list of changes
//   piece == a text by its lines or entries, and what is written of each
//   write == the new texts and the list, measured and written
#![tactic(auto)]

ghost use Rattle.std.specs.Prelude.{◌≡◌, true, false, ◌≤◌, length};
ghost use Rattle.elements.specs.Code.{view_of};
ghost use Rattle.sheet.specs.Sheet.{texts, texts_at};
ghost use Rattle.section.specs.Refusal.{first_after, second_after, written_two_of, checked_of};
ghost use Rattle.salvage.specs.Salvage.{five_fault, grown, handed_out, salvage_texts, salvage as salvageOf};
ghost use Rattle.salvage.specs.Code.{made_texts, made_list, sizes_of, grown_by, Small};

use rules::naming::check_section_five;
use rules::search::naming_notes;
use section::{Allow, Byuid, Deny, Fault, Portacl, Refusal, part_of};
use sheet::texts::{check_frame, checked_by};
use sheet::{Parts, frame};
use write::{Sizes, measure_list, measure_texts, put_list, put_sheet};

mod piece;
mod write;

// The refusal of section five by itself: its frame, then 15 and 17.
fn check_five(tables: &[u8]) -> Result<(), Refusal>
    ensures { result ≡ checked_of (five_fault tables.now) }
{
    check_frame(tables)?;
    checked_by(check_section_five(tables))
}

// Whether each new text is within its section's limit.
fn check_sizes(sizes: Sizes) -> Result<(), Refusal>
    ensures { result ≡ checked_of (grown_by sizes) }
{
    if Allow::over(sizes.allow) {
        return Err(Allow::refusal(Fault::OverLimit, 0));
    }
    if Deny::over(sizes.deny) {
        return Err(Deny::refusal(Fault::OverLimit, 0));
    }
    if Byuid::over(sizes.byuid) {
        return Err(Byuid::refusal(Fault::OverLimit, 0));
    }
    if Portacl::over(sizes.portacl) {
        return Err(Portacl::refusal(Fault::OverLimit, 0));
    }
    Ok(())
}

// The new sheet and the list of texts whose section five is sound, written where both have room.
fn write_both(
    out: &mut [u8],
    list: &mut [u8],
    allow: &[u8],
    deny: &[u8],
    byuid: &[u8],
    portacl: &[u8],
    tables: &[u8],
    notes: &[u64],
) -> Result<(usize, usize), Refusal>
    requires small { Small (texts allow.now deny.now byuid.now portacl.now tables.now) }
    requires tables_len_bound { length tables.now ≤ 12288 }
    ensures answer { result
        ≡ written_two_of
        (handed_out (made_texts (view_of tables.now notes.now) (texts allow.now deny.now byuid.now
        portacl.now tables.now)) (made_list (view_of tables.now notes.now) (texts allow.now deny.now byuid.now portacl.now tables.now)) (length out.old) (length list.old)) }
    ensures sheet { out.new
        ≡ first_after out.old
        (handed_out (made_texts (view_of tables.now notes.now) (texts allow.now deny.now byuid.now
        portacl.now tables.now)) (made_list (view_of tables.now notes.now) (texts allow.now deny.now byuid.now portacl.now tables.now)) (length out.old) (length list.old)) }
    ensures changes { list.new
        ≡ second_after list.old
        (handed_out (made_texts (view_of tables.now notes.now) (texts allow.now deny.now byuid.now
        portacl.now tables.now)) (made_list (view_of tables.now notes.now) (texts allow.now deny.now byuid.now portacl.now tables.now)) (length out.old) (length list.old)) }
{
    let sizes = measure_texts(allow, deny, byuid, portacl, tables, notes);
    check_sizes(sizes)?;
    if out.len() < 16 + sizes.allow + sizes.deny + sizes.byuid + sizes.portacl + tables.len() {
        return Err(section::placeless(Fault::NoRoom));
    }
    if list.len() < measure_list(allow, deny, byuid, portacl, tables, notes) {
        return Err(section::placeless(Fault::NoRoom));
    }
    let bytes = put_sheet(out, allow, deny, byuid, portacl, tables, notes, sizes);
    let listed = put_list(list, allow, deny, byuid, portacl, tables, notes);
    Ok((bytes, listed))
}

// The same of texts within their limits: section five is checked first.
fn salvage_texts(
    out: &mut [u8],
    list: &mut [u8],
    allow: &[u8],
    deny: &[u8],
    byuid: &[u8],
    portacl: &[u8],
    tables: &[u8],
) -> Result<(usize, usize), Refusal>
    requires { Small (texts allow.now deny.now byuid.now portacl.now tables.now) }
    ensures answer { result
        ≡ written_two_of
        (salvage_texts (texts allow.now deny.now byuid.now portacl.now tables.now) (length out.old) (length list.old)) }
    ensures sheet { out.new
        ≡ first_after out.old
        (salvage_texts (texts allow.now deny.now byuid.now portacl.now tables.now) (length out.old) (length list.old)) }
    ensures changes { list.new
        ≡ second_after list.old
        (salvage_texts (texts allow.now deny.now byuid.now portacl.now tables.now) (length out.old) (length list.old)) }
{
    check_five(tables)?;
    let notes = naming_notes(tables);
    write_both(out, list, allow, deny, byuid, portacl, tables, &notes)
}

// The same of the texts that stand in a sheet.
fn salvage_parts(
    out: &mut [u8],
    list: &mut [u8],
    sheet: &[u8],
    parts: Parts,
) -> Result<(usize, usize), Refusal>
    requires { Small (texts_at sheet.now parts) }
    ensures answer { result
        ≡ written_two_of
        (salvage_texts (texts_at sheet.now parts) (length out.old) (length list.old)) }
    ensures sheet { out.new
        ≡ first_after out.old
        (salvage_texts (texts_at sheet.now parts) (length out.old) (length list.old)) }
    ensures changes { list.new
        ≡ second_after list.old
        (salvage_texts (texts_at sheet.now parts) (length out.old) (length list.old)) }
{
    salvage_texts(
        out,
        list,
        part_of(sheet, parts.allow),
        part_of(sheet, parts.deny),
        part_of(sheet, parts.byuid),
        part_of(sheet, parts.portacl),
        part_of(sheet, parts.tables),
    )
}

// Makes an accepted sheet of one with bad lines, at the front of out, and the list of changes at the front of list: section and line of each, as numbers
// of four bytes. A refusal leaves both as they were.
pub fn salvage(out: &mut [u8], list: &mut [u8], sheet: &[u8]) -> Result<(usize, usize), Refusal>
    ensures answer { result ≡ written_two_of (salvageOf sheet.now (length out.old) (length list.old)) }
    ensures sheet { out.new
        ≡ first_after out.old (salvageOf sheet.now (length out.old) (length list.old)) }
    ensures changes { list.new
        ≡ second_after list.old (salvageOf sheet.now (length out.old) (length list.old)) }
{
    let parts = frame::frame(sheet)?;
    salvage_parts(out, list, sheet, parts)
}
