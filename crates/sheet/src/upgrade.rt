// Upgrading: a sheet of four sections gets an empty fifth.
//   upgrade(out, sheet) == the sheet and the two zero bytes of an empty count of tables, written to the front of out
ghost use Rattle.std.specs.Prelude.{[], ◌∷◌, ◌++◌, ◌≡◌, ◌+◌, ◌≤◌, length};
ghost use Rattle.text.specs.Scan.{after};
ghost use Rattle.section.specs.Refusal.{written_of, lent_after, checked_of};
ghost use Rattle.sheet.specs.Sheet.{four_frame};
ghost use Rattle.sheet.specs.Sheet.{upgrade as upgradeOf};

use crate::frame;
use section::{Fault, Refusal};

// The check of the frame of a sheet of four sections: no byte follows the fourth.
#[tactic(auto, using(crate::proofs::UpgradeLaws::four_refused, crate::proofs::UpgradeLaws::four_trailing, crate::proofs::UpgradeLaws::four_sound))]
fn check_four(sheet: &[u8]) -> Result<(), Refusal>
    ensures { result ≡ checked_of (four_frame sheet.now) }
{
    let parts = frame::frame(sheet)?;
    let following = parts.tables;
    if 0 < following.len {
        return Err(section::placeless(Fault::TrailingBytes));
    }
    Ok(())
}

// Writes the sheet and an empty count at the front of out, and answers their length.
fn put_upgraded(out: &mut [u8], sheet: &[u8]) -> usize
    requires { length sheet.now + 2 ≤ length out.old }
    ensures count { result ≡ length (sheet.now ++ 0 ∷ 0 ∷ []) }
    ensures written { out.new ≡ after (sheet.now ++ 0 ∷ 0 ∷ []) out.old }
{
    let end = text::put(out, 0, sheet);
    let no_tables = [0u8, 0u8];
    text::put(out, end, &no_tables)
}

// Appends an empty fifth section to a sheet of four; a refusal leaves out as it was.
pub fn upgrade(out: &mut [u8], sheet: &[u8]) -> Result<usize, Refusal>
    ensures answer { result ≡ written_of (upgradeOf sheet.now (length out.old)) }
    ensures holds { out.new ≡ lent_after out.old (upgradeOf sheet.now (length out.old)) }
{
    check_four(sheet)?;
    if out.len() < sheet.len() + 2 {
        return Err(section::placeless(Fault::NoRoom));
    }
    Ok(put_upgraded(out, sheet))
}
