// Whether the user's name can matter to a verdict: it does where two users, unknown or of any name, get different ones.
//   name_matters(allow, deny, ..)         == whether it does; where it does not, the place that all users get
//   name_matters_tables(allow, deny, tables, ..), name_matters_sheet(sheet, ..) == the same over tables, and by a sheet
// The verdict for a user not fetched tells of all users where it does not ask; only where it asks are the rules gone over again.
#![tactic(auto)]

ghost use Rattle.std.specs.Prelude.{true, ◌≡◌};
ghost use Rattle.tables.specs.Table.{tables_of, match_of};
ghost use Rattle.tables.specs.Code.{tables_in};
ghost use Rattle.elements.specs.Request.{well_formed, held as heldRequest};
ghost use Rattle.elements.specs.Places.{request_at};
ghost use Rattle.rules.specs.Code.{contents_fault};
ghost use Rattle.sheet.specs.Sheet.{frame as frame_of};
ghost use Rattle.station.specs.Station.{decide_sheet};
ghost use Rattle.matters.specs.Matters.{place_of, settled, name_matters, name_matters_tables, name_matters_sheet};
ghost use Rattle.matters.specs.Code.{unfetched_at, refused_by, Unasked};

pub mod tell;

use elements::User;
use elements::request::{Request, fits, held};
use rules::{Answer, File, Verdict, decide, decide_tables};
use section::{Fault, Refusal, part_of};
use sheet::Parts;
use tell::settle;

// Verdict, file and line of an answer.
#[derive(Clone, Copy)]
pub struct Place {
    pub verdict: Verdict,
    pub file: File,
    pub line: usize,
}

// What a rule does with all users: it passes them on, it decides, or that depends on the user.
#[derive(Clone, Copy)]
pub enum Told {
    Passes,
    Decides,
    Differs,
}

// What a text tells: nothing, where it passes all users on; the place that all get; or that two get different ones.
#[derive(Clone, Copy)]
pub enum Telling {
    Nothing,
    Settled(Place),
    Matters,
}

// The request with its user not fetched.
fn unfetched(request: Request) -> Request
    ensures { result ≡ unfetched_at request }
{
    let daemon = request.daemon;
    let client = request.client;
    let client_name = request.client_name;
    let server = request.server;
    let server_name = request.server_name;
    let user_name = request.user_name;
    Request {
        daemon,
        client,
        client_name,
        server,
        server_name,
        user: User::NotFetched,
        user_name,
    }
}

// The refusal of a request that does not fit.
fn refuse(ruling: Result<Answer, Refusal>) -> Result<Option<Place>, Refusal>
    ensures { result ≡ refused_by ruling }
{
    ruling?;
    Err(section::placeless(Fault::BadRequest))
}

// What the answer to a request whose user is not fetched tells, by sound texts.
fn settle_by(
    answer: Answer,
    allow: &[u8],
    deny: &[u8],
    tables: &[u8],
    names: &[u8],
    request: Request,
) -> Result<Option<Place>, Refusal>
    requires tables_value { tables_in tables.now ≡ tables_of tables.now }
    requires tables_value_2 { contents_fault allow.now deny.now tables.now ≡ None }
    requires unasked { Unasked (match_of (tables_of tables.now)) allow.now deny.now (heldRequest (request_at names.now request)) (place_of answer) }
    ensures { result
        ≡ Ok
        (settled (match_of (tables_of tables.now)) allow.now deny.now (heldRequest (request_at names.now request))) }
{
    let verdict = answer.verdict;
    let file = answer.file;
    match verdict {
        Verdict::Ask => settle(allow, deny, tables, names, held(request)),
        Verdict::Granted => Ok(Some(Place {
            verdict,
            file,
            line: answer.line,
        })),
        Verdict::Denied => Ok(Some(Place {
            verdict,
            file,
            line: answer.line,
        })),
    }
}

// Whether the name matters, by the allow and deny files. There are no tables.
pub fn name_matters(
    allow: &[u8],
    deny: &[u8],
    names: &[u8],
    request: Request,
) -> Result<Option<Place>, Refusal>
    ensures { result
        ≡ name_matters allow.now deny.now (Some (request_at names.now request)) }
{
    if !fits(names, request) {
        let own = decide(allow, deny, names, request);
        let refused = own.ruling;
        return refuse(refused);
    }
    let asked = decide(allow, deny, names, unfetched(request));
    let answer = asked.ruling?;
    settle_by(answer, allow, deny, &allow[..0], names, request)
}

// The same with the tables of a section five.
pub fn name_matters_tables(
    allow: &[u8],
    deny: &[u8],
    tables: &[u8],
    names: &[u8],
    request: Request,
) -> Result<Option<Place>, Refusal>
    ensures { result
        ≡ name_matters_tables allow.now deny.now tables.now (Some (request_at names.now request)) }
{
    if !fits(names, request) {
        let own = decide_tables(allow, deny, tables, names, request);
        let refused = own.ruling;
        return refuse(refused);
    }
    let asked = decide_tables(allow, deny, tables, names, unfetched(request));
    let answer = asked.ruling?;
    settle_by(answer, allow, deny, tables, names, request)
}

// What the answer tells, by the texts that stand in a sheet.
fn settle_in_parts(
    sheet: &[u8],
    parts: Parts,
    answer: Answer,
    names: &[u8],
    request: Request,
) -> Result<Option<Place>, Refusal>
    requires request_value { well_formed (request_at names.now request) ≡ true }
    requires request_value_2 { decide_sheet sheet.now (Some (request_at names.now (unfetched_at request))) ≡ Ok answer }
    requires sheet_value { frame_of sheet.now ≡ Ok parts }
    ensures { result ≡ name_matters_sheet sheet.now (Some (request_at names.now request)) }
{
    settle_by(
        answer,
        part_of(sheet, parts.allow),
        part_of(sheet, parts.deny),
        part_of(sheet, parts.tables),
        names,
        request,
    )
}

// What the answer tells, by a sheet that gave it.
fn settle_in_sheet(
    sheet: &[u8],
    answer: Answer,
    names: &[u8],
    request: Request,
) -> Result<Option<Place>, Refusal>
    requires request_value { well_formed (request_at names.now request) ≡ true }
    requires request_value_2 { decide_sheet sheet.now (Some (request_at names.now (unfetched_at request))) ≡ Ok answer }
    ensures { result ≡ name_matters_sheet sheet.now (Some (request_at names.now request)) }
{
    let parts = sheet::frame::frame(sheet)?;
    settle_in_parts(sheet, parts, answer, names, request)
}

// Whether the name matters, by a sheet.
pub fn name_matters_sheet(
    sheet: &[u8],
    names: &[u8],
    request: Request,
) -> Result<Option<Place>, Refusal>
    ensures { result ≡ name_matters_sheet sheet.now (Some (request_at names.now request)) }
{
    if !fits(names, request) {
        let own = station::decide(sheet, names, request);
        let refused = own.ruling;
        return refuse(refused);
    }
    let asked = station::decide(sheet, names, unfetched(request));
    let answer = asked.ruling?;
    settle_in_sheet(sheet, answer, names, request)
}
