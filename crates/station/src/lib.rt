// The decisions by a sheet.
//   decide(sheet, ..)         == the verdict on a request, and how many elements were looked at for it
//   decide_byuid(sheet, ..), decide_portacl(sheet, ..) == the port decisions
//   command(sheet, answer)    == the bytes of the answer's raw command
// For a verdict the frame is read, then all is checked and searched in one pass; where there is a doubt, the sheet is unpacked for its refusal.
#![tactic(auto)]

ghost use Rattle.std.specs.Prelude.{◌≡◌, ◌+◌, ◌<◌};
ghost use Rattle.section.specs.Refusal.{checked_of};
ghost use Rattle.section.specs.Section.{bytes_at};
ghost use Rattle.elements.specs.Places.{request_at};
ghost use Rattle.tables.specs.Table.{tables_of, match_of};
ghost use Rattle.tables.specs.Code.{tables_in};
ghost use Rattle.tables.specs.Tried.{capped};
ghost use Rattle.rules.specs.Search.{search as searchBy};
ghost use Rattle.rules.specs.Looked.{looked, reported};
ghost use Rattle.rules.specs.Code.{searched, finding_of};
ghost use Rattle.byuid.specs.Byuid.{bind as byuid_bind};
ghost use Rattle.portacl.specs.Portacl.{bind as portacl_bind};
ghost use Rattle.sheet.specs.Sheet.{texts_at, texts_fault, frame as frame_of, unpack as unpackOf};
ghost use Rattle.sheet.specs.Code.{contents_fault};
ghost use Rattle.station.specs.Station.{file_place, in_sheet, decide_sheet, looked_sheet, decide_byuid_sheet, decide_portacl_sheet};
ghost use Rattle.station.specs.Code.{framed_fault, refused_by, without_list};

use address::Addr;
use elements::request::Request;
use rules::search::{Searched, find};
use rules::{Answer, File, Reported};
use section::{Fault, Part, Refusal, part_of};
use sheet::texts::check_texts;
use sheet::{Parts, frame, unpack};
use tables::entry::FrameFault;

// The answer by texts whose tables are soundly framed; a bad entry of portacl and a line of byuid of the retired form are doubts too.
fn find_framed(
    allow: &[u8],
    deny: &[u8],
    byuid: &[u8],
    portacl: &[u8],
    tables: &[u8],
    names: &[u8],
    request: Request,
) -> Option<Searched>
    requires { tables_in tables.now ≡ tables_of tables.now }
    ensures { result
        ≡ finding_of (contents_fault allow.now deny.now byuid.now portacl.now tables.now)
        (searched
        (searchBy (match_of (tables_of tables.now)) allow.now deny.now (request_at names.now request))
        (capped (looked (tables_of tables.now) allow.now deny.now (request_at names.now request)))) }
{
    match portacl::check(portacl) {
        Err(_) => None,
        Ok(()) => match byuid::check(byuid) {
            Err(_) => None,
            Ok(()) => find(allow, deny, tables, names, request),
        },
    }
}

// The answer by texts that are within their limits; a section five that is cut short or too long is a doubt too.
fn find_in_texts(
    allow: &[u8],
    deny: &[u8],
    byuid: &[u8],
    portacl: &[u8],
    tables: &[u8],
    names: &[u8],
    request: Request,
) -> Option<Searched>
    ensures { result
        ≡ finding_of (framed_fault allow.now deny.now byuid.now portacl.now tables.now)
        (searched
        (searchBy (match_of (tables_of tables.now)) allow.now deny.now (request_at names.now request))
        (capped (looked (tables_of tables.now) allow.now deny.now (request_at names.now request)))) }
{
    match tables::entry::frame(tables) {
        Err(FrameFault::Cut) => None,
        Err(FrameFault::Trailing) => None,
        Ok(()) => find_framed(allow, deny, byuid, portacl, tables, names, request),
    }
}

// Where the deciding file stands.
fn file_place(parts: Parts, file: File) -> usize
    ensures { result ≡ file_place parts file }
{
    match file {
        File::Neither => 0,
        File::Allow => parts.allow.place,
        File::Deny => parts.deny.place,
    }
}

// The answer, its raw command as a part of the sheet.
fn in_sheet(parts: Parts, answer: Answer) -> Answer
    requires { file_place parts answer.file + answer.command.place < 18446744073709551616 }
    ensures { result ≡ in_sheet parts answer }
{
    let file = answer.file;
    let verdict = answer.verdict;
    let command = answer.command;
    Answer {
        verdict,
        file,
        line: answer.line,
        command: Part {
            place: file_place(parts, file) + command.place,
            len: command.len,
        },
    }
}

// The answer by the texts that stand in a sheet.
fn find_in_parts(sheet: &[u8], parts: Parts, names: &[u8], request: Request) -> Option<Searched>
    ensures { result
        ≡ finding_of
        (framed_fault (bytes_at sheet.now parts.allow) (bytes_at sheet.now parts.deny) (bytes_at sheet.now parts.byuid)
        (bytes_at sheet.now parts.portacl) (bytes_at sheet.now parts.tables))
        (searched
        (searchBy (match_of (tables_of (bytes_at sheet.now parts.tables))) (bytes_at sheet.now parts.allow)
        (bytes_at sheet.now parts.deny) (request_at names.now request))
        (capped (looked (tables_of (bytes_at sheet.now parts.tables)) (bytes_at sheet.now parts.allow)
        (bytes_at sheet.now parts.deny) (request_at names.now request)))) }
{
    find_in_texts(
        part_of(sheet, parts.allow),
        part_of(sheet, parts.deny),
        part_of(sheet, parts.byuid),
        part_of(sheet, parts.portacl),
        part_of(sheet, parts.tables),
        names,
        request,
    )
}

// The refusal of a sheet in which there is a doubt.
fn refuse(sheet: &[u8]) -> Reported
    ensures { result ≡ refused_by (unpackOf sheet.now) }
{
    match unpack::unpack(sheet) {
        Err(refusal) => rules::refused(refusal),
        Ok(_) => rules::refused(section::placeless(Fault::BadRequest)),
    }
}

// The verdict by the parts of a sheet.
fn decide_by_parts(sheet: &[u8], parts: Parts, names: &[u8], request: Request) -> Reported
    requires { frame_of sheet.now ≡ Ok parts }
    ensures { result
        ≡ reported (decide_sheet sheet.now (Some (request_at names.now request)))
        (looked_sheet sheet.now (Some (request_at names.now request))) }
{
    let holding = elements::request::held(request);
    match find_in_parts(sheet, parts, names, holding) {
        None => refuse(sheet),
        Some(found) => {
            let sound = elements::request::fits(names, holding);
            rules::answered(in_sheet(parts, found.answer), found.looked, sound)
        }
    }
}

// The verdict on a request by a sheet, or the refusal of the sheet or of the request.
pub fn decide(sheet: &[u8], names: &[u8], request: Request) -> Reported
    ensures { result
        ≡ reported (decide_sheet sheet.now (Some (request_at names.now request)))
        (looked_sheet sheet.now (Some (request_at names.now request))) }
{
    match frame::frame(sheet) {
        Err(unframed) => rules::refused(unframed),
        Ok(parts) => decide_by_parts(sheet, parts, names, request),
    }
}

// The bytes of the answer's raw command.
pub fn command(sheet: &[u8], answer: Answer) -> &[u8]
    ensures { result.now ≡ bytes_at sheet.now answer.command }
{
    part_of(sheet, answer.command)
}

// Whether a caller may bind a port at an address, by the byuid text of a sheet, which is the plain file.
#[tactic(auto, using(crate::proofs::DecideLaws::byuid_refused, crate::proofs::DecideLaws::byuid_decided))]
pub fn decide_byuid(
    sheet: &[u8],
    port: u16,
    addr: Addr,
    uid: u32,
) -> Result<byuid::Decision, Refusal>
    ensures { result ≡ decide_byuid_sheet sheet.now (Some (byuid_bind port addr uid)) }
{
    let parts = unpack::unpack(sheet)?;
    let text = part_of(sheet, parts.byuid);
    byuid::decide(text, byuid::Mark::Plain, port, addr, uid)
}

// The decision on a bind by the portacl text of a sheet, which is unpacked first.
#[tactic(auto, using(crate::proofs::DecideLaws::portacl_refused, crate::proofs::DecideLaws::portacl_decided), unfolding(crate::specs::Station::decide_portacl_sheet))]
fn decide_unpacked(
    sheet: &[u8],
    settings: portacl::Settings,
    uid: u32,
    groups: &[u32],
    protocol: portacl::Protocol,
    port: u16,
) -> Result<portacl::Decision, Refusal>
    ensures { result ≡ decide_portacl_sheet sheet.now settings (Some (portacl_bind uid groups.now protocol port)) }
{
    let unpacked = unpack::unpack(sheet)?;
    let text = part_of(sheet, unpacked.portacl);
    portacl::decide(text, settings, uid, groups, protocol, port)
}

// The check of the texts of a sheet without its portacl list: an empty list is as sound as one that gave a decision.
fn check_others(sheet: &[u8], parts: Parts) -> Result<(), Refusal>
    ensures { result ≡ checked_of (texts_fault (without_list (texts_at sheet.now parts))) }
{
    let allow = part_of(sheet, parts.allow);
    let deny = part_of(sheet, parts.deny);
    let byuid = part_of(sheet, parts.byuid);
    let tables = part_of(sheet, parts.tables);
    check_texts(allow, deny, byuid, b"", tables)
}

// The decision by the portacl text of a sheet whose frame is sound. A list that gives a decision is not read again; where it is refused, the
// sheet is unpacked for the refusal that comes first.
fn decide_framed(
    sheet: &[u8],
    parts: Parts,
    settings: portacl::Settings,
    uid: u32,
    groups: &[u32],
    protocol: portacl::Protocol,
    port: u16,
) -> Result<portacl::Decision, Refusal>
    requires { frame_of sheet.now ≡ Ok parts }
    ensures { result ≡ decide_portacl_sheet sheet.now settings (Some (portacl_bind uid groups.now protocol port)) }
{
    let list = part_of(sheet, parts.portacl);
    match portacl::decide(list, settings, uid, groups, protocol, port) {
        Err(_) => decide_unpacked(sheet, settings, uid, groups, protocol, port),
        Ok(decision) => {
            check_others(sheet, parts)?;
            Ok(decision)
        }
    }
}

// The decision on a bind, by the portacl text of a sheet.
pub fn decide_portacl(
    sheet: &[u8],
    settings: portacl::Settings,
    uid: u32,
    groups: &[u32],
    protocol: portacl::Protocol,
    port: u16,
) -> Result<portacl::Decision, Refusal>
    ensures { result ≡ decide_portacl_sheet sheet.now settings (Some (portacl_bind uid groups.now protocol port)) }
{
    let parts = frame::frame(sheet)?;
    decide_framed(sheet, parts, settings, uid, groups, protocol, port)
}
