// The refusal of texts and tables, in the order of document 02: the lines of both files; then 15, 16 and 17.
//   check_lines(allow, deny)            == the refusal by the lines alone
//   check_section_five(tables)          == the refusal of the tables themselves, by 15 and 17
//   check_naming(allow, deny, tables)   == the refusal by 15, 16 and 17, of texts whose lines are sound
//   check_contents(allow, deny, tables) == one, then the other
ghost use Rattle.std.specs.Prelude.{◌≡◌};
ghost use Rattle.text.specs.Basics.{◌or_else◌};
ghost use Rattle.tables.specs.Table.{tables_of, table_name_fault, bad_table_fault};
ghost use Rattle.tables.specs.Code.{tables_in};
ghost use Rattle.elements.specs.Code.{view_of};
ghost use Rattle.rules.specs.Check.{tables_fault};
ghost use Rattle.rules.specs.FileCode.{pass_of};
ghost use Rattle.rules.specs.Code.{contents_fault, lines_fault, lines_fault_by, bad_table_by, Named, from_depth, from_tables};

use super::combine;
use super::hosts_file::check_file;
use crate::Answer;
use section::{Allow, Deny, Fault, Refusal, Tables};
use tables::check::check_tables;
use tables::entry::count;
use views::deep_notes;

// The refusal of both files, where the notes say which tables may be named.
fn check_both(
    tables: &[u8],
    notes: &[u64],
    allow: &[u8],
    deny: &[u8],
) -> Result<Option<Answer>, Refusal>
    ensures { result ≡ pass_of (lines_fault_by (view_of tables.now notes.now) allow.now deny.now) None }
{
    let first = check_file(tables, notes, allow, Allow::ORDER);
    combine(first, check_file(tables, notes, deny, Deny::ORDER))
}

// The refusal by the lines of both files.
pub fn check_lines(allow: &[u8], deny: &[u8]) -> Result<Option<Answer>, Refusal>
    ensures { result ≡ pass_of (lines_fault allow.now deny.now) None }
{
    let notes = [0u64; 0];
    check_both(&allow[..0], &notes, allow, deny)
}

// 17: the limits, then the first table that is unsound.
fn check_soundness(tables: &[u8], unsound: usize) -> Result<Option<Answer>, Refusal>
    requires { tables_in tables.now ≡ tables_of tables.now }
    ensures { result ≡ pass_of (bad_table_by tables.now unsound) None }
{
    if (64 < count(tables)) | Tables::over(tables.len()) {
        return Err(Tables::refusal(Fault::BadTable, 0));
    }
    if unsound == 0 {
        return Ok(None);
    }
    Err(Tables::refusal(Fault::BadTable, unsound))
}

// 15 and 17 of the tables themselves, whoever names them.
pub fn check_section_five(tables: &[u8]) -> Result<Option<Answer>, Refusal>
    requires { tables_in tables.now ≡ tables_of tables.now }
    ensures { result ≡ pass_of (table_name_fault (tables_of tables.now) or_else bad_table_fault tables.now) None }
{
    let found = check_tables(tables);
    if found.misnamed == 0 {
        return check_soundness(tables, found.unsound);
    }
    Err(Tables::refusal(Fault::TableName, found.misnamed))
}

// From 16 on, of texts that name no table that is missing.
fn check_depth(
    allow: &[u8],
    deny: &[u8],
    tables: &[u8],
    unsound: usize,
) -> Result<Option<Answer>, Refusal>
    requires named { Named allow.now deny.now tables.now }
    requires tables_value { table_name_fault (tables_of tables.now) ≡ None }
    ensures { result ≡ pass_of (from_depth allow.now deny.now tables.now unsound) None }
{
    let notes = deep_notes(tables, 4);
    combine(
        check_both(tables, &notes, allow, deny),
        check_soundness(tables, unsound),
    )
}

// From the 15 of the tables themselves on.
fn check_named(allow: &[u8], deny: &[u8], tables: &[u8]) -> Result<Option<Answer>, Refusal>
    requires { Named allow.now deny.now tables.now }
    ensures { result ≡ pass_of (from_tables allow.now deny.now tables.now) None }
{
    let found = check_tables(tables);
    if found.misnamed == 0 {
        return check_depth(allow, deny, tables, found.unsound);
    }
    Err(Tables::refusal(Fault::TableName, found.misnamed))
}

// 15, 16 and 17, of texts whose lines are sound.
pub fn check_naming(allow: &[u8], deny: &[u8], tables: &[u8]) -> Result<Option<Answer>, Refusal>
    requires deny_value { lines_fault allow.now deny.now ≡ None }
    requires tables_value { tables_in tables.now ≡ tables_of tables.now }
    ensures { result ≡ pass_of (tables_fault allow.now deny.now tables.now) None }
{
    let notes = [0u64; 2];
    match check_both(tables, &notes, allow, deny) {
        Err(f) => Err(f),
        Ok(None) => check_named(allow, deny, tables),
        Ok(Some(_)) => Ok(None),
    }
}

// The lines, then the tables that they name.
pub fn check_contents(allow: &[u8], deny: &[u8], tables: &[u8]) -> Result<Option<Answer>, Refusal>
    requires { tables_in tables.now ≡ tables_of tables.now }
    ensures { result ≡ pass_of (contents_fault allow.now deny.now tables.now) None }
{
    match check_lines(allow, deny) {
        Err(f) => Err(f),
        Ok(None) => check_naming(allow, deny, tables),
        Ok(Some(_)) => Ok(None),
    }
}
