// The search of both files for what decides, in one pass that also judges their lines and the tables that they name.
//   find(allow, deny, tables, ..) == the answer where nothing is faulty, and how many elements were looked at for it; else that there is a doubt
//   are_sound(allow, deny, tables) == nothing is faulty
ghost use Rattle.std.specs.Prelude.{not, ◌≡◌, ◌≤◌, length};
ghost use Rattle.text.specs.Basics.{is_some};
ghost use Rattle.tables.specs.Table.{tables_of, match_of};
ghost use Rattle.tables.specs.Code.{tables_in, CleanTexts};
ghost use Rattle.elements.specs.Places.{request_at};
ghost use Rattle.rules.specs.Search.{search as searchBy};
ghost use Rattle.rules.specs.FileCode.{pass_both, query_at};
ghost use Rattle.tables.specs.Tried.{capped};
ghost use Rattle.rules.specs.Looked.{looked as lookedBy};
ghost use Rattle.rules.specs.Code.{contents_fault, Noted, NotedBy, NamingNoted, searched, finding_of, finding_by, tables_over, tables_doubtful};

use super::hosts_file::{Tally, nobody};
use super::{Answer, File, Verdict, pass_both};
use elements::request::Request;
use section::{Part, part_of};
use tables::check::check_names;
use tables::entry::count;
use views::Viewing;

// An answer, and how many elements were looked at for it.
#[derive(Clone, Copy)]
pub struct Searched {
    pub answer: Answer,
    pub looked: u64,
}

// Notes on at most 64 tables for a request, and whether all their patterns are known to be sound.
fn view_on(tables: &[u8], names: &[u8], request: Request) -> Viewing
    requires { length (tables_in tables.now) ≤ 64 }
    ensures { NotedBy tables.now (request_at names.now request) result }
{
    let client = request.client;
    let server = request.server;
    views::view(
        tables,
        client,
        part_of(names, request.client_name),
        server,
        part_of(names, request.server_name),
    )
}

// Notes on at most 64 tables for a request.
pub fn notes_on(tables: &[u8], names: &[u8], request: Request) -> [u64; 259]
    requires { length (tables_in tables.now) ≤ 64 }
    ensures { Noted tables.now (request_at names.now request) result }
{
    let viewing = view_on(tables, names, request);
    viewing.notes
}

// Notes that tell which of at most 64 tables may be named.
pub fn naming_notes(tables: &[u8]) -> [u64; 259]
    requires { length (tables_in tables.now) ≤ 64 }
    ensures { NamingNoted tables.now result }
{
    notes_on(tables, &tables[..0], nobody())
}

// What a pass finds.
fn found_by(tally: Tally) -> Option<Searched>
    ensures { result ≡ finding_by tally }
{
    let pass = tally.pass;
    match pass {
        Err(_) => None,
        Ok(None) => Some(Searched {
            answer: Answer {
                verdict: Verdict::Granted,
                file: File::Neither,
                line: 0,
                command: Part { place: 0, len: 0 },
            },
            looked: tally.looked,
        }),
        Ok(Some(a)) => Some(Searched {
            answer: a,
            looked: tally.looked,
        }),
    }
}

// Whether the tables are too many or too long.
fn are_over(tables: &[u8]) -> bool
    ensures { result ≡ tables_over tables.now }
{
    (64 < count(tables)) | section::Tables::over(tables.len())
}

// Whether the tables are faulty by themselves, or too many or too long; clean: whether all their patterns are known to be sound.
fn are_doubtful(tables: &[u8], clean: bool) -> bool
    requires { CleanTexts clean (tables_in tables.now) }
    ensures { result ≡ tables_doubtful tables.now }
{
    if are_over(tables) {
        return true;
    }
    let found = check_names(tables, clean);
    (found.misnamed != 0) | (found.unsound != 0)
}

// The answer by two texts and at most 64 tables. What the tables are to the request is found first: that tells most often that they are sound.
fn find_among(
    allow: &[u8],
    deny: &[u8],
    tables: &[u8],
    names: &[u8],
    request: Request,
) -> Option<Searched>
    requires tables_value { tables_in tables.now ≡ tables_of tables.now }
    requires tables_len_bound { length (tables_in tables.now) ≤ 64 }
    ensures { result
        ≡ finding_of (contents_fault allow.now deny.now tables.now)
        (searched
        (searchBy (match_of (tables_of tables.now)) allow.now deny.now (request_at names.now request))
        (capped (lookedBy (tables_of tables.now) allow.now deny.now (request_at names.now request)))) }
{
    let seen = view_on(tables, names, request);
    if are_doubtful(tables, seen.clean) {
        return None;
    }
    let notes = seen.notes;
    found_by(pass_both(tables, &notes, allow, deny, names, request))
}

// The answer by two texts and the tables of a section five whose frame is sound, or of none.
pub fn find(
    allow: &[u8],
    deny: &[u8],
    tables: &[u8],
    names: &[u8],
    request: Request,
) -> Option<Searched>
    requires { tables_in tables.now ≡ tables_of tables.now }
    ensures { result
        ≡ finding_of (contents_fault allow.now deny.now tables.now)
        (searched
        (searchBy (match_of (tables_of tables.now)) allow.now deny.now (request_at names.now request))
        (capped (lookedBy (tables_of tables.now) allow.now deny.now (request_at names.now request)))) }
{
    if tables.len() <= 2 {
        return found_by(pass_both(tables, &[0u64; 3], allow, deny, names, request));
    }
    if are_over(tables) {
        return None;
    }
    find_among(allow, deny, tables, names, request)
}

// Whether two texts and a section five whose frame is sound are sound, by the same pass. Nobody's request is searched for.
pub fn are_sound(allow: &[u8], deny: &[u8], tables: &[u8]) -> bool
    requires { tables_in tables.now ≡ tables_of tables.now }
    ensures { result ≡ not (is_some (contents_fault allow.now deny.now tables.now)) }
{
    match find(allow, deny, tables, &tables[..0], nobody()) {
        Some(_) => true,
        None => false,
    }
}
