// The checks of the five texts of a sheet.
//   check_texts(allow, deny, byuid, portacl, tables) == their first refusal, if there is one: limits, the frame of the tables, contents
ghost use Rattle.std.specs.Prelude.{◌≡◌};
ghost use Rattle.section.specs.Refusal.{checked_of};
ghost use Rattle.text.specs.Basics.{◌or_else◌};
ghost use Rattle.tables.specs.Table.{tables_frame};
ghost use Rattle.byuid.specs.Byuid.{byuid_fault};
ghost use Rattle.portacl.specs.Portacl.{portacl_fault};
ghost use Rattle.sheet.specs.Sheet.{texts, texts_fault};
ghost use Rattle.sheet.specs.Code.{checked_by, limits_fault, contents_fault};

use rules::search::are_sound;
use rules::{Answer, naming};
use section::{Allow, Byuid, Deny, Fault, Portacl, Refusal, Tables};
use tables::entry;
use tables::entry::FrameFault;

// Whether each counted text is within its section's limit.
fn check_limits(allow: &[u8], deny: &[u8], byuid: &[u8], portacl: &[u8]) -> Result<(), Refusal>
    ensures { result ≡ checked_of (limits_fault allow.now deny.now byuid.now portacl.now) }
{
    if Allow::over(allow.len()) {
        return Err(Allow::refusal(Fault::OverLimit, 0));
    }
    if Deny::over(deny.len()) {
        return Err(Deny::refusal(Fault::OverLimit, 0));
    }
    if Byuid::over(byuid.len()) {
        return Err(Byuid::refusal(Fault::OverLimit, 0));
    }
    if Portacl::over(portacl.len()) {
        return Err(Portacl::refusal(Fault::OverLimit, 0));
    }
    Ok(())
}

// The check of the counts of the tables: cut short is 1, bytes after the last table are 3.
pub fn check_frame(tables: &[u8]) -> Result<(), Refusal>
    ensures { result ≡ checked_of (tables_frame tables.now) }
{
    match entry::frame(tables) {
        Ok(()) => Ok(()),
        Err(FrameFault::Cut) => Err(Tables::refusal(Fault::CutShort, 0)),
        Err(FrameFault::Trailing) => Err(section::placeless(Fault::TrailingBytes)),
    }
}

// A pass that looks for nothing, as a check.
pub fn checked_by(pass: Result<Option<Answer>, Refusal>) -> Result<(), Refusal>
    ensures { result ≡ checked_by pass }
{
    match pass {
        Err(refusal) => Err(refusal),
        Ok(None) => Ok(()),
        Ok(Some(_)) => Ok(()),
    }
}

// The check of the entries of a portacl text.
fn check_portacl(text: &[u8]) -> Result<(), Refusal>
    ensures { result ≡ checked_of (portacl_fault text.now) }
{
    portacl::check(text)?;
    Ok(())
}

// The check of the lines of a byuid text.
fn check_byuid(text: &[u8]) -> Result<(), Refusal>
    ensures { result ≡ checked_of (byuid_fault text.now) }
{
    byuid::check(text)?;
    Ok(())
}

// The check of the texts of the port decisions.
fn check_ports(lines: &[u8], entries: &[u8]) -> Result<(), Refusal>
    ensures { result ≡ checked_of (portacl_fault entries.now or_else byuid_fault lines.now) }
{
    check_portacl(entries)?;
    check_byuid(lines)
}

// The check of the lines and entries of the rules and of portacl, then of the tables and of what names them, then of the lines of byuid.
fn check_in_order(
    allow: &[u8],
    deny: &[u8],
    byuid: &[u8],
    portacl: &[u8],
    tables: &[u8],
) -> Result<(), Refusal>
    requires { tables_frame tables.now ≡ None }
    ensures { result
        ≡ checked_of (contents_fault allow.now deny.now byuid.now portacl.now tables.now) }
{
    checked_by(naming::check_lines(allow, deny))?;
    check_portacl(portacl)?;
    checked_by(naming::check_naming(allow, deny, tables))?;
    check_byuid(byuid)
}

// The same, where rules that are sound are read once.
fn check_contents(
    allow: &[u8],
    deny: &[u8],
    byuid: &[u8],
    portacl: &[u8],
    tables: &[u8],
) -> Result<(), Refusal>
    requires { tables_frame tables.now ≡ None }
    ensures { result
        ≡ checked_of (contents_fault allow.now deny.now byuid.now portacl.now tables.now) }
{
    if are_sound(allow, deny, tables) {
        return check_ports(byuid, portacl);
    }
    check_in_order(allow, deny, byuid, portacl, tables)
}

// The first refusal of five texts, if there is one.
pub fn check_texts(
    allow: &[u8],
    deny: &[u8],
    byuid: &[u8],
    portacl: &[u8],
    tables: &[u8],
) -> Result<(), Refusal>
    ensures { result
        ≡ checked_of (texts_fault (texts allow.now deny.now byuid.now portacl.now tables.now)) }
{
    check_limits(allow, deny, byuid, portacl)?;
    check_frame(tables)?;
    check_contents(allow, deny, byuid, portacl, tables)
}
