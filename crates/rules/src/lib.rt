// The checks of the allow and deny files, and the verdict on a request.
//   decide(allow, deny, ..)  == the verdict and how many elements were looked at for it, or the refusal of a text or of the request
//   decide_tables(allow, deny, tables, ..) == the same over tables
//   find(allow, deny, tables, ..) == the answer by sound texts; where they are not, that there is a doubt
//   naming::check_contents(..) == the refusal of texts, in the order of document 02
//   combine(found, rest)       == one pass, then another
//   command_part(allow, deny, answer) == the bytes of the answer's raw command
// A search judges the lines and the tables that they name in one pass, and finds the answer where there is no fault. Where there is one, the
// texts are read again, fault by fault, for the one that comes first.
#![tactic(auto)]

pub mod hosts_file;
pub mod naming;
pub mod search;

ghost use Rattle.std.specs.Prelude.{◌≡◌, []};
ghost use Rattle.elements.specs.Places.{request_at};
ghost use Rattle.section.specs.Refusal.{◌before◌};
ghost use Rattle.text.specs.Basics.{◌or_else◌};
ghost use Rattle.tables.specs.Table.{tables_of, tables_frame};
ghost use Rattle.tables.specs.Code.{tables_in};
ghost use Rattle.tables.specs.Tried.{capped};
ghost use Rattle.rules.specs.Search.{decide as decideBy, decide_over, decide_tables, command_bytes};
ghost use Rattle.rules.specs.Looked.{looked_over, reported};
ghost use Rattle.rules.specs.FileCode.{is_unmatched, combined, query_at, pass_both, both_looked, tallied as talliedBy, refused_report, refusing_request};
ghost use Rattle.rules.specs.Code.{contents_fault, refused_by};

use elements::count;
use elements::request::{Request, held};
use hosts_file::{Tally, tallied};
use search::find;
use section::{Fault, Part, Refusal, part_of};
use tables::entry::FrameFault;

// The words of the verdict.
#[derive(Clone, Copy)]
pub enum Verdict {
    Granted,
    Denied,
    Ask,
}

// The deciding file, if any.
#[derive(Clone, Copy)]
pub enum File {
    Neither,
    Allow,
    Deny,
}

// The verdict with its file, its line (0 where none decided) and the raw command, a part of that file.
#[derive(Clone, Copy)]
pub struct Answer {
    pub verdict: Verdict,
    pub file: File,
    pub line: usize,
    pub command: Part,
}

// A ruling, and how many elements were looked at for it: 0 at a refusal.
#[derive(Clone, Copy)]
pub struct Reported {
    pub ruling: Result<Answer, Refusal>,
    pub looked: u64,
}

fn is_unmatched(pass: Result<Option<Answer>, Refusal>) -> bool
    ensures { result ≡ is_unmatched pass }
{
    match pass {
        Err(_) => false,
        Ok(None) => true,
        Ok(Some(_)) => false,
    }
}

// The pass over some lines, then over what follows them.
pub fn combine(
    found: Result<Option<Answer>, Refusal>,
    rest: Result<Option<Answer>, Refusal>,
) -> Result<Option<Answer>, Refusal>
    ensures { result ≡ combined found rest }
{
    match found {
        Err(f) => Err(f),
        Ok(None) => rest,
        Ok(Some(a)) => match rest {
            Err(f) => Err(f),
            Ok(None) => Ok(Some(a)),
            Ok(Some(_)) => Ok(Some(a)),
        },
    }
}

// The pass over both files: the allow file first, and the deny file's rules only if none of the allow file's matches.
pub fn pass_both(
    tables: &[u8],
    notes: &[u64],
    allow: &[u8],
    deny: &[u8],
    names: &[u8],
    request: Request,
) -> Tally
    ensures { result
        ≡ talliedBy
        (pass_both (query_at tables.now notes.now names.now request) allow.now deny.now)
        (capped (both_looked (query_at tables.now notes.now names.now request) allow.now deny.now)) }
{
    let first = hosts_file::pass_file(
        tables,
        notes,
        allow,
        section::Allow::ORDER,
        Verdict::Granted,
        File::Allow,
        true,
        names,
        request,
    );
    let of_allow = first.pass;
    let rest = hosts_file::pass_file(
        tables,
        notes,
        deny,
        section::Deny::ORDER,
        Verdict::Denied,
        File::Deny,
        is_unmatched(of_allow),
        names,
        request,
    );
    let of_deny = rest.pass;
    tallied(
        combine(of_allow, of_deny),
        count::add(first.looked, rest.looked),
    )
}

// A refusal: nothing was looked at for it.
pub fn refused(refusal: Refusal) -> Reported
    ensures { result ≡ refused_report refusal }
{
    Reported {
        ruling: Err(refusal),
        looked: 0,
    }
}

// The answer and its number, on a request that is sound or not.
pub fn answered(answer: Answer, looked: u64, sound: bool) -> Reported
    ensures { result ≡ refusing_request sound answer looked }
{
    if sound {
        Reported {
            ruling: Ok(answer),
            looked,
        }
    } else {
        refused(section::placeless(Fault::BadRequest))
    }
}

// The refusal that a check found.
fn refuse(check: Result<Option<Answer>, Refusal>) -> Reported
    ensures { result ≡ refused_by check }
{
    match check {
        Err(f) => refused(f),
        Ok(None) => refused(section::placeless(Fault::BadRequest)),
        Ok(Some(_)) => refused(section::placeless(Fault::BadRequest)),
    }
}

// The ruling by two texts within their limits, and the tables of a section five whose frame is sound, or of none.
fn rule_texts(allow: &[u8], deny: &[u8], tables: &[u8], names: &[u8], request: Request) -> Reported
    requires { tables_in tables.now ≡ tables_of tables.now }
    ensures { result
        ≡ reported
        (contents_fault allow.now deny.now tables.now
        before decide_over (tables_of tables.now) allow.now deny.now (Some (request_at names.now request)))
        (looked_over (tables_of tables.now) allow.now deny.now (Some (request_at names.now request))) }
{
    let holding = held(request);
    match find(allow, deny, tables, names, holding) {
        Some(found) => answered(
            found.answer,
            found.looked,
            elements::request::fits(names, holding),
        ),
        None => refuse(naming::check_contents(allow, deny, tables)),
    }
}

// The verdict on a request by the allow and deny files, or the refusal of a file or of the request. There are no tables.
pub fn decide(allow: &[u8], deny: &[u8], names: &[u8], request: Request) -> Reported
    ensures { result
        ≡ reported (decideBy allow.now deny.now (Some (request_at names.now request)))
        (looked_over [] allow.now deny.now (Some (request_at names.now request))) }
{
    if section::Allow::over(allow.len()) {
        return refused(section::Allow::refusal(Fault::OverLimit, 0));
    }
    if section::Deny::over(deny.len()) {
        return refused(section::Deny::refusal(Fault::OverLimit, 0));
    }
    rule_texts(allow, deny, &allow[..0], names, request)
}

// The ruling by two texts within their limits and a section five: its frame, then the contents.
fn rule_framed(allow: &[u8], deny: &[u8], tables: &[u8], names: &[u8], request: Request) -> Reported
    ensures { result
        ≡ reported
        ((tables_frame tables.now or_else contents_fault allow.now deny.now tables.now)
        before decide_over (tables_of tables.now) allow.now deny.now (Some (request_at names.now request)))
        (looked_over (tables_of tables.now) allow.now deny.now (Some (request_at names.now request))) }
{
    match tables::entry::frame(tables) {
        Err(FrameFault::Cut) => refused(section::Tables::refusal(Fault::CutShort, 0)),
        Err(FrameFault::Trailing) => refused(section::placeless(Fault::TrailingBytes)),
        Ok(()) => rule_texts(allow, deny, tables, names, request),
    }
}

// The same with the tables of a section five.
pub fn decide_tables(
    allow: &[u8],
    deny: &[u8],
    tables: &[u8],
    names: &[u8],
    request: Request,
) -> Reported
    ensures { result
        ≡ reported (decide_tables allow.now deny.now tables.now (Some (request_at names.now request)))
        (looked_over (tables_of tables.now) allow.now deny.now (Some (request_at names.now request))) }
{
    if section::Allow::over(allow.len()) {
        return refused(section::Allow::refusal(Fault::OverLimit, 0));
    }
    if section::Deny::over(deny.len()) {
        return refused(section::Deny::refusal(Fault::OverLimit, 0));
    }
    rule_framed(allow, deny, tables, names, request)
}

// The raw command of an answer, out of whichever file decided; empty where there is none.
pub fn command_part<'a>(allow: &'a [u8], deny: &'a [u8], answer: Answer) -> &'a [u8]
    ensures { result.now ≡ command_bytes allow.now deny.now answer }
{
    let file = answer.file;
    match file {
        File::Neither => &allow[..0],
        File::Allow => part_of(allow, answer.command),
        File::Deny => part_of(deny, answer.command),
    }
}
