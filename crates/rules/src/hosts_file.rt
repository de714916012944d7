// One pass over an allow or deny text: its lowest fault, and its first matching rule.
//   is_faulty(class, tables, notes, raw, span) == a line is faulty, by itself or by the tables that it names
//   check_file(tables, notes, text, order) == the refusal of a text, if it has one
//   pass_file(tables, notes, text, ..) == the refusal of a text, else its first match, which is looked for only if search holds, and how
//                                         many elements were looked at for it
ghost use Rattle.std.specs.Prelude.{◌≡◌, ◌+◌, ◌≤◌, ◌<◌, length, drop};
ghost use Rattle.lines.specs.Line.{line, join};
ghost use Rattle.lines.specs.Rule.{parse_rule};
ghost use Rattle.lines.specs.Scan.{span_at, scan_line};
ghost use Rattle.elements.specs.Code.{view_of};
ghost use Rattle.classes.specs.Class.{Classes};
ghost use Rattle.lists.specs.Code.{NoNewline};
ghost use Rattle.lines.specs.Line.{lines};
ghost use Rattle.tables.specs.Tried.{capped};
ghost use Rattle.rules.specs.FileCode.{query_at, ScannedLine, line_kind, rule_examined, line_examined, command_part, pass_line, step_of, pass_text};
ghost use Rattle.rules.specs.FileCode.{pass_of, hosts_fault_at};
ghost use Rattle.rules.specs.FileCode.{judged_line, is_refused, tallied, line_looks, lines_looked};
ghost use Rattle.text.specs.Basics.{is_some};

use super::{Answer, File, Verdict};
use address::Addr;
use elements::request::Request;
use elements::{Found, Looked, User, count};
use lines::line::LineSpan;
use lines::{line, rule};
use patterns::{Host, Name};
use section::{Fault, Part, Refusal};

// A pass, and how many elements were looked at for it: none where there is a fault.
#[derive(Clone, Copy)]
pub struct Tally {
    pub pass: Result<Option<Answer>, Refusal>,
    pub looked: u64,
}

// What a line is before its rule is read: faulty, a comment or blank, or a rule.
#[derive(Clone, Copy)]
pub enum LineKind {
    Faulty(Fault),
    Skipped,
    HasRule,
}

// Where the next line starts, its number, and what this one gives.
#[derive(Clone, Copy)]
pub struct Step {
    pub next: usize,
    pub number: usize,
    pub tally: Tally,
}

// A pass with its number.
pub fn tallied(pass: Result<Option<Answer>, Refusal>, looked: u64) -> Tally
    ensures { result ≡ tallied pass looked }
{
    match pass {
        Err(f) => Tally {
            pass: Err(f),
            looked: 0,
        },
        Ok(None) => Tally {
            pass: Ok(None),
            looked,
        },
        Ok(Some(a)) => Tally {
            pass: Ok(Some(a)),
            looked,
        },
    }
}

// The kind of a line that was scanned.
pub fn kind_of_line(raw: &[u8], span: LineSpan) -> LineKind
    requires { ScannedLine raw.now span }
    ensures { result ≡ line_kind (line 0 0 raw.now span.ended) }
{
    if !span.ended {
        return LineKind::Faulty(Fault::Unended);
    }
    let comment = line::is_comment(raw);
    if !comment & !span.clean {
        return LineKind::Faulty(Fault::BadByte);
    }
    if 2047 < raw.len() - 2 * span.joins {
        return LineKind::Faulty(Fault::LongLine);
    }
    if comment {
        return LineKind::Skipped;
    }
    if line::is_blank(raw) {
        LineKind::Skipped
    } else {
        LineKind::HasRule
    }
}

// What the rule in the joined line t tells.
fn examine_rule(
    class: &[u8; 256],
    tables: &[u8],
    notes: &[u64],
    t: &[u8],
    search: bool,
    names: &[u8],
    request: Request,
) -> Result<Looked, Fault>
    requires classes { Classes class.now }
    requires no_newline { NoNewline t.now }
    ensures { result
        ≡ rule_examined search
        (query_at tables.now notes.now names.now request)
        t.now }
{
    let seen = lists::pass::pass_rule(class, tables, notes, t, search, names, request);
    let check = seen.check;
    let found = seen.found;
    check?;
    Ok(Looked {
        found,
        looked: seen.looked,
    })
}

// What the rule in a line with dropped pairs tells.
fn examine_joined(
    class: &[u8; 256],
    tables: &[u8],
    notes: &[u64],
    raw: &[u8],
    search: bool,
    names: &[u8],
    request: Request,
) -> Result<Looked, Fault>
    requires classes { Classes class.now }
    requires no_newline { (NoNewline (join raw.now)) × (length (join raw.now) ≤ 2047) }
    ensures { result
        ≡ rule_examined search
        (query_at tables.now notes.now names.now request)
        raw.now }
{
    let mut joined = [0u8; 2048];
    let n = line::join_into(&mut joined, raw);
    examine_rule(class, tables, notes, &joined[..n], search, names, request)
}

// What a line that was scanned tells.
fn examine_line(
    class: &[u8; 256],
    tables: &[u8],
    notes: &[u64],
    raw: &[u8],
    span: LineSpan,
    search: bool,
    names: &[u8],
    request: Request,
) -> Result<Looked, Fault>
    requires classes { Classes class.now }
    requires scanned_line { ScannedLine raw.now span }
    ensures { result
        ≡ line_examined search
        (query_at tables.now notes.now names.now request)
        (line 0 0 raw.now span.ended) }
{
    match kind_of_line(raw, span) {
        LineKind::Faulty(f) => Err(f),
        LineKind::Skipped => Ok(Looked {
            found: Found::No,
            looked: 0,
        }),
        LineKind::HasRule => {
            if span.joins == 0 {
                examine_rule(class, tables, notes, raw, search, names, request)
            } else {
                examine_joined(class, tables, notes, raw, search, names, request)
            }
        }
    }
}

// The raw command of the line raw that starts at a place.
fn command_of(raw: &[u8], at: usize) -> Part
    requires { at + length raw.now < 18446744073709551616 }
    ensures { result ≡ command_part at raw.now (parse_rule raw.now) }
{
    let a = rule::separator(raw);
    let rest = rule::after_separator(raw, a);
    let b = rule::separator(rest);
    let command = rule::after_separator(rest, b);
    let place = at + (raw.len() - command.len());
    if line::is_blank(command) {
        Part { place, len: 0 }
    } else {
        Part {
            place,
            len: command.len(),
        }
    }
}

// What a line that was scanned gives, which starts at a place and has the number n.
fn pass_line(
    class: &[u8; 256],
    tables: &[u8],
    notes: &[u64],
    raw: &[u8],
    span: LineSpan,
    at: usize,
    n: usize,
    order: u8,
    verdict: Verdict,
    file: File,
    search: bool,
    names: &[u8],
    request: Request,
) -> Tally
    requires classes { Classes class.now }
    requires scanned_line { (ScannedLine raw.now span) × (at + length raw.now < 18446744073709551616) }
    ensures { result
        ≡ tallied
        (pass_line order verdict file search (query_at tables.now notes.now names.now request)
        (line n at raw.now span.ended))
        (capped (line_looks search (query_at tables.now notes.now names.now request)
        (line n at raw.now span.ended))) }
{
    match examine_line(class, tables, notes, raw, span, search, names, request) {
        Err(f) => Tally {
            pass: Err(Refusal {
                fault: f,
                section: order,
                line: n,
            }),
            looked: 0,
        },
        Ok(seen) => {
            let found = seen.found;
            match found {
                Found::No => Tally {
                    pass: Ok(None),
                    looked: seen.looked,
                },
                Found::Ask => Tally {
                    pass: Ok(Some(Answer {
                        verdict: Verdict::Ask,
                        file,
                        line: n,
                        command: Part { place: 0, len: 0 },
                    })),
                    looked: seen.looked,
                },
                Found::Yes => Tally {
                    pass: Ok(Some(Answer {
                        verdict,
                        file,
                        line: n,
                        command: command_of(raw, at),
                    })),
                    looked: seen.looked,
                },
            }
        }
    }
}

// The step over the line of a text that starts at i and has the number n.
fn step_over(
    class: &[u8; 256],
    tables: &[u8],
    notes: &[u64],
    text: &[u8],
    i: usize,
    n: usize,
    order: u8,
    verdict: Verdict,
    file: File,
    search: bool,
    names: &[u8],
    request: Request,
) -> Step
    requires classes { Classes class.now }
    requires i_in_bounds { (i < length text.now) × (n ≤ i + 1) }
    ensures { result
        ≡ step_of order verdict file search
        (query_at tables.now notes.now names.now request)
        text.now i n (span_at i (scan_line (drop i text.now))) }
{
    let span = line::scan_line(text, i);
    let e = span.end;
    let tally = pass_line(
        class,
        tables,
        notes,
        &text[i..e],
        span,
        i,
        n,
        order,
        verdict,
        file,
        search,
        names,
        request,
    );
    Step {
        next: e + 1,
        number: n + span.joins + 1,
        tally,
    }
}

// What the lines of a text give: the refusal at its lowest faulty line, else, if search holds, the answer of its first rule that matches or
// asks.
fn pass_lines(
    class: &[u8; 256],
    tables: &[u8],
    notes: &[u64],
    text: &[u8],
    order: u8,
    verdict: Verdict,
    file: File,
    search: bool,
    names: &[u8],
    request: Request,
) -> Tally
    requires { Classes class.now }
    ensures { result
        ≡ tallied
        (pass_text order verdict file search (query_at tables.now notes.now names.now request) text.now)
        (capped (lines_looked verdict file search (query_at tables.now notes.now names.now request)
        (lines text.now))) }
{
    let mut i = 0;
    let mut n = 1;
    let mut searching = search;
    let mut found = Ok(None);
    let mut looked = 0;
    while i < text.len() {
        let step = step_over(
            class, tables, notes, text, i, n, order, verdict, file, searching, names, request,
        );
        let tally = step.tally;
        let so_far = count::add(looked, tally.looked);
        let pass = tally.pass;
        match pass {
            Err(f) => {
                return Tally {
                    pass: Err(f),
                    looked: 0,
                };
            }
            Ok(answer) => match answer {
                None => {}
                Some(a) => {
                    found = Ok(Some(a));
                    searching = false;
                }
            },
        }
        looked = so_far;
        i = step.next;
        n = step.number;
    }
    Tally {
        pass: found,
        looked,
    }
}

// What a text gives. The classes of bytes are made once for all of its lines.
pub fn pass_file(
    tables: &[u8],
    notes: &[u64],
    text: &[u8],
    order: u8,
    verdict: Verdict,
    file: File,
    search: bool,
    names: &[u8],
    request: Request,
) -> Tally
    ensures { result
        ≡ tallied
        (pass_text order verdict file search (query_at tables.now notes.now names.now request) text.now)
        (capped (lines_looked verdict file search (query_at tables.now notes.now names.now request)
        (lines text.now))) }
{
    if text.len() == 0 {
        return Tally {
            pass: Ok(None),
            looked: 0,
        };
    }
    let class = classes::classes();
    pass_lines(
        &class, tables, notes, text, order, verdict, file, search, names, request,
    )
}

// A request that nothing is known of, for passes that look for nothing.
pub fn nobody() -> Request {
    let host = Host {
        name: Name::Unknown,
        addr: Addr::Unknown,
    };
    let none = Part { place: 0, len: 0 };
    Request {
        daemon: none,
        client: host,
        client_name: none,
        server: host,
        server_name: none,
        user: User::NotFetched,
        user_name: none,
    }
}

// Whether what a rule tells is a fault.
fn is_refused(x: Result<Looked, Fault>) -> bool
    ensures { result ≡ is_refused x }
{
    match x {
        Err(_) => true,
        Ok(_) => false,
    }
}

// Whether a line that was scanned is faulty, by itself or by the tables that its rule names; the notes say which tables may be named. It does
// not call examine_line, which by having one caller becomes a part of the loop over lines.
pub fn is_faulty(
    class: &[u8; 256],
    tables: &[u8],
    notes: &[u64],
    raw: &[u8],
    span: LineSpan,
) -> bool
    requires classes { Classes class.now }
    requires scanned_line { ScannedLine raw.now span }
    ensures { result ≡ is_some (judged_line (view_of tables.now notes.now) (line 0 0 raw.now span.ended)) }
{
    match kind_of_line(raw, span) {
        LineKind::Faulty(_) => true,
        LineKind::Skipped => false,
        LineKind::HasRule => {
            if 0 < span.joins {
                is_refused(examine_joined(class, tables, notes, raw, false, &raw[..0], nobody()))
            } else {
                is_refused(examine_rule(class, tables, notes, raw, false, &raw[..0], nobody()))
            }
        }
    }
}

// The refusal of a text at its lowest faulty line, if it has one; the notes say which tables may be named.
pub fn check_file(
    tables: &[u8],
    notes: &[u64],
    text: &[u8],
    order: u8,
) -> Result<Option<Answer>, Refusal>
    ensures { result ≡ pass_of (hosts_fault_at order (view_of tables.now notes.now) text.now) None }
{
    let tally = pass_file(
        tables,
        notes,
        text,
        order,
        Verdict::Granted,
        File::Neither,
        false,
        &text[..0],
        nobody(),
    );
    let pass = tally.pass;
    pass
}
