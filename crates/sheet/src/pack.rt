// Packing: five texts into one sheet.
//   pack(out, allow, deny, byuid, portacl, tables) == their sheet, written to the front of out
ghost use Rattle.std.specs.Prelude.{◌≡◌, ◌+◌, ◌≤◌, length};
ghost use Rattle.text.specs.Number.{to_digits};
ghost use Rattle.text.specs.Scan.{put_at, after};
ghost use Rattle.section.specs.Refusal.{written_of, lent_after};
ghost use Rattle.sheet.specs.Sheet.{texts, counted, sheet_of};
ghost use Rattle.sheet.specs.Sheet.{pack as packOf};

use section::{Fault, Refusal};

// Writes the last 32 bits of n as four bytes, most significant first, from at on, and answers the place after them.
pub fn put_count(out: &mut [u8], at: usize, n: usize) -> usize
    requires { at + 4 ≤ length out.old }
    ensures next { result ≡ at + 4 }
    ensures written { out.new ≡ put_at out.old at (to_digits 256 4 n) }
{
    let count = [
        (n / 256 / 256 / 256 % 256) as u8,
        (n / 256 / 256 % 256) as u8,
        (n / 256 % 256) as u8,
        (n % 256) as u8,
    ];
    text::put(out, at, &count)
}

// Writes a text after its count, from at on, and answers the place after it.
fn put_counted(out: &mut [u8], at: usize, text: &[u8]) -> usize
    requires { at + 4 + length text.now ≤ length out.old }
    ensures next { result ≡ at + 4 + length text.now }
    ensures written { out.new ≡ put_at out.old at (counted text.now) }
{
    let start = put_count(out, at, text.len());
    text::put(out, start, text)
}

// Writes the sheet of five texts at the front of out, and answers its length; the tables have no count of bytes before them.
fn put_sheet(
    out: &mut [u8],
    allow: &[u8],
    deny: &[u8],
    byuid: &[u8],
    portacl: &[u8],
    tables: &[u8],
) -> usize
    requires { 16 + length allow.now + length deny.now + length byuid.now + length portacl.now + length tables.now ≤ length out.old }
    ensures count { result
        ≡ length (sheet_of (texts allow.now deny.now byuid.now portacl.now tables.now)) }
    ensures written { out.new
        ≡ after (sheet_of (texts allow.now deny.now byuid.now portacl.now tables.now))
        out.old }
{
    let at_deny = put_counted(out, 0, allow);
    let at_byuid = put_counted(out, at_deny, deny);
    let at_portacl = put_counted(out, at_byuid, byuid);
    let at_tables = put_counted(out, at_portacl, portacl);
    text::put(out, at_tables, tables)
}

// Packs five texts into a sheet at the front of out; a refusal leaves out as it was.
pub fn pack(
    out: &mut [u8],
    allow: &[u8],
    deny: &[u8],
    byuid: &[u8],
    portacl: &[u8],
    tables: &[u8],
) -> Result<usize, Refusal>
    ensures answer { result
        ≡ written_of (packOf
        (texts allow.now deny.now byuid.now portacl.now tables.now) (length out.old)) }
    ensures holds { out.new
        ≡ lent_after out.old
        (packOf (texts allow.now deny.now byuid.now portacl.now tables.now)
        (length out.old)) }
{
    crate::texts::check_texts(allow, deny, byuid, portacl, tables)?;
    if out.len() < 16 + allow.len() + deny.len() + byuid.len() + portacl.len() + tables.len() {
        return Err(section::placeless(Fault::NoRoom));
    }
    Ok(put_sheet(out, allow, deny, byuid, portacl, tables))
}
