// What the rules tell of all users at once, line by line.
//   settle(allow, deny, tables, ..) == the place that all users get, or that two get different ones
// A rule that does not ask a user not fetched finds the same for all. One that asks is looked at again for an unknown user, for a name
// that no half can be, and for each different half whose host matches: the places of those that were tried are noted.
ghost use Rattle.std.specs.Prelude.{◌≡◌, ◌≤◌, length};
ghost use Rattle.text.specs.Basics.{all};
ghost use Rattle.lines.specs.Line.{line, join};
ghost use Rattle.lines.specs.Rule.{parse_rule};
ghost use Rattle.lines.specs.Parts.{words};
ghost use Rattle.tables.specs.Table.{tables_of, match_of};
ghost use Rattle.tables.specs.Code.{tables_in};
ghost use Rattle.elements.specs.Places.{request_at};
ghost use Rattle.classes.specs.Class.{Classes, Describes};
ghost use Rattle.lists.specs.Code.{NoNewline};
ghost use Rattle.rules.specs.FileCode.{ScannedLine};
ghost use Rattle.rules.specs.Code.{contents_fault};
ghost use Rattle.matters.specs.Matters.{same_found, told_of, settled};
ghost use Rattle.matters.specs.Code.{finder_at, name_agrees, half_agrees, asked_list, list_told, parsed_by, kind_told, text_told_by, telling_of, ended_by};
ghost use Rattle.matters.specs.Code.{settled_by};
ghost use Rattle.matters.specs.Code.{asked_half, was_tried, noted_count, noted_places, tried_by, places_by};

use super::{Place, Telling, Told};
use classes::element_at;
use elements::request::Request;
use elements::{Found, User, element};
use lines::line::LineSpan;
use lines::{line, rule};
use lists::walk::{clients_included, daemons_included};
use rules::hosts_file::{LineKind, kind_of_line};
use rules::search::notes_on;
use rules::{File, Verdict};
use section::{Part, Refusal, part_of};

// Whether two findings are the same.
fn same_found(f: Found, g: Found) -> bool
    ensures { result ≡ same_found f g }
{
    match f {
        Found::No => match g {
            Found::No => true,
            Found::Yes => false,
            Found::Ask => false,
        },
        Found::Yes => match g {
            Found::No => false,
            Found::Yes => true,
            Found::Ask => false,
        },
        Found::Ask => match g {
            Found::No => false,
            Found::Yes => false,
            Found::Ask => true,
        },
    }
}

// What the client list s finds for a user.
fn clients_find(
    class: &[u8; 256],
    tables: &[u8],
    notes: &[u64],
    s: &[u8],
    names: &[u8],
    request: Request,
    user: User,
    user_name: &[u8],
) -> Found
    requires { Classes class.now }
    ensures { result
        ≡ (finder_at tables.now notes.now names.now request).clients user user_name.now (words s.now) }
{
    let client = request.client;
    let seen = clients_included(
        class,
        tables,
        notes,
        s,
        client,
        part_of(names, request.client_name),
        user,
        user_name,
    );
    seen.found
}

// Whether a name finds f, or is none that is permitted.
fn name_agrees(
    class: &[u8; 256],
    tables: &[u8],
    notes: &[u64],
    s: &[u8],
    names: &[u8],
    request: Request,
    f: Found,
    name: &[u8],
) -> bool
    requires { Classes class.now }
    ensures { result
        ≡ name_agrees (finder_at tables.now notes.now names.now request) (words s.now) f name.now }
{
    if (name.len() == 0) | (64 < name.len()) {
        return true;
    }
    let g = clients_find(class, tables, notes, s, names, request, User::Known, name);
    same_found(f, g)
}

// Whether the element e asks a user not fetched.
fn asks(e: &[u8], mask: u8, tables: &[u8], notes: &[u64], names: &[u8], request: Request) -> bool
    requires { Describes mask e.now }
    ensures { result ≡ (finder_at tables.now notes.now names.now request).asks e.now }
{
    let client = request.client;
    let seen = element::client_found(
        e,
        mask,
        tables,
        notes,
        client,
        part_of(names, request.client_name),
        User::NotFetched,
        b"",
    );
    let found = seen.found;
    same_found(Found::Ask, found)
}

// The half before the `@` of the element e, where e asks; else an empty one.
fn asked_half<'a>(
    e: &'a [u8],
    mask: u8,
    tables: &[u8],
    notes: &[u64],
    names: &[u8],
    request: Request,
) -> &'a [u8]
    requires { Describes mask e.now }
    ensures { result.now ≡ asked_half (finder_at tables.now notes.now names.now request) e.now }
{
    if !asks(e, mask, tables, notes, names, request) {
        return &e[..0];
    }
    let at = element::sign_place(e, mask);
    if at == e.len() {
        return &e[..0];
    }
    &e[..at]
}

// Whether h is empty, or equal to one of the n halves of the list s that are noted; the last noted is looked at first.
fn was_tried(s: &[u8], places: &[u32], n: usize, h: &[u8]) -> bool
    requires { n ≤ length places.now }
    ensures { result ≡ was_tried s.now places.now n h.now }
{
    if h.len() == 0 {
        return true;
    }
    let mut k = n;
    while 0 < k {
        k -= 1;
        let p = places[k] as usize;
        let noted = Part {
            place: p / 65536,
            len: p % 65536,
        };
        if text::equal_fold(part_of(s, noted), h) {
            return true;
        }
    }
    false
}

// Notes the place of a half, where there is room, and answers how many are noted.
fn note(places: &mut [u32], n: usize, at: usize, len: usize) -> usize
    ensures count { result ≡ noted_count places.old n at len }
    ensures holds { places.new ≡ noted_places places.old n at len }
{
    if places.len() <= n {
        return n;
    }
    if 65536 <= at {
        return n;
    }
    if 65536 <= len {
        return n;
    }
    places[n] = (at * 65536 + len) as u32;
    n + 1
}

// What the half h finds, which stands in the list s from at on, and notes it. One that is equal to a noted one finds what that did.
fn try_half(
    class: &[u8; 256],
    tables: &[u8],
    notes: &[u64],
    s: &[u8],
    names: &[u8],
    request: Request,
    f: Found,
    places: &mut [u32],
    n: usize,
    at: usize,
    h: &[u8],
) -> Option<usize>
    requires classes { Classes class.now }
    requires n_in_bounds { n ≤ length places.old }
    ensures answer { result
        ≡ tried_by (finder_at tables.now notes.now names.now request) f s.now places.old n at
        h.now }
    ensures holds { places.new
        ≡ places_by (finder_at tables.now notes.now names.now request) f s.now places.old n at
        h.now }
{
    if was_tried(s, places, n, h) {
        return Some(n);
    }
    if !name_agrees(class, tables, notes, s, names, request, f, h) {
        return None;
    }
    let count = note(places, n, at, h.len());
    Some(count)
}

// Whether all halves of the list s that ask find f. Equal ones are tried once: a line of 2,047 bytes has at most 511.
fn halves_agree(
    class: &[u8; 256],
    tables: &[u8],
    notes: &[u64],
    s: &[u8],
    names: &[u8],
    request: Request,
    f: Found,
) -> bool
    requires { Classes class.now }
    ensures { result
        ≡ all (half_agrees (finder_at tables.now notes.now names.now request) (words s.now) f)
        (words s.now) }
{
    let mut places = [0u32; 512];
    let mut n = 0;
    let mut rest = s;
    loop {
        let at = element_at(class, rest);
        let e = rule::element(rest, at.span);
        if e.len() == 0 {
            return true;
        }
        let next = rule::after_element(rest, at.span);
        let from = s.len() - rest.len() + at.span.start;
        let h = asked_half(e, at.mask, tables, notes, names, request);
        match try_half(
            class,
            tables,
            notes,
            s,
            names,
            request,
            f,
            &mut places,
            n,
            from,
            h,
        ) {
            None => return false,
            Some(count) => n = count,
        }
        rest = next;
    }
}

// What a rule tells, of which all users find f.
fn told_of(f: Found) -> Told
    ensures { result ≡ told_of f }
{
    match f {
        Found::No => Told::Passes,
        Found::Yes => Told::Decides,
        Found::Ask => Told::Differs,
    }
}

// What the client list s tells, which asks; an unknown user finds f.
fn asked_told(
    class: &[u8; 256],
    tables: &[u8],
    notes: &[u64],
    s: &[u8],
    names: &[u8],
    request: Request,
    f: Found,
) -> Told
    requires { Classes class.now }
    ensures { result ≡ asked_list (finder_at tables.now notes.now names.now request) (words s.now) f }
{
    if !name_agrees(class, tables, notes, s, names, request, f, b"!") {
        return Told::Differs;
    }
    if !halves_agree(class, tables, notes, s, names, request, f) {
        return Told::Differs;
    }
    told_of(f)
}

// What the client list s tells.
fn list_told(
    class: &[u8; 256],
    tables: &[u8],
    notes: &[u64],
    s: &[u8],
    names: &[u8],
    request: Request,
) -> Told
    requires { Classes class.now }
    ensures { result ≡ list_told (finder_at tables.now notes.now names.now request) (words s.now) }
{
    match clients_find(
        class,
        tables,
        notes,
        s,
        names,
        request,
        User::NotFetched,
        b"",
    ) {
        Found::No => Told::Passes,
        Found::Yes => Told::Decides,
        Found::Ask => {
            let f = clients_find(class, tables, notes, s, names, request, User::Unknown, b"");
            asked_told(class, tables, notes, s, names, request, f)
        }
    }
}

// What the rule in the joined line t tells; its client list is looked at only if its daemon list matched.
fn rule_told(
    class: &[u8; 256],
    tables: &[u8],
    notes: &[u64],
    t: &[u8],
    names: &[u8],
    request: Request,
) -> Told
    requires classes { Classes class.now }
    requires no_newline { NoNewline t.now }
    ensures { result ≡ parsed_by (finder_at tables.now notes.now names.now request) (parse_rule t.now) }
{
    let i = rule::separator(t);
    if t.len() <= i {
        return Told::Passes;
    }
    let server = request.server;
    let seen = daemons_included(
        class,
        tables,
        notes,
        &t[..i],
        part_of(names, request.daemon),
        server,
        part_of(names, request.server_name),
    );
    let found = seen.found;
    match found {
        Found::No => Told::Passes,
        Found::Ask => Told::Passes,
        Found::Yes => {
            let rest = rule::after_separator(t, i);
            let j = rule::separator(rest);
            list_told(class, tables, notes, &rest[..j], names, request)
        }
    }
}

// What the rule in a line with dropped pairs tells.
fn joined_told(
    class: &[u8; 256],
    tables: &[u8],
    notes: &[u64],
    raw: &[u8],
    names: &[u8],
    request: Request,
) -> Told
    requires classes { Classes class.now }
    requires no_newline { (NoNewline (join raw.now)) × (length (join raw.now) ≤ 2047) }
    ensures { result ≡ parsed_by (finder_at tables.now notes.now names.now request) (parse_rule raw.now) }
{
    let mut joined = [0u8; 2048];
    let n = line::join_into(&mut joined, raw);
    rule_told(class, tables, notes, &joined[..n], names, request)
}

// What a line that was scanned tells.
fn line_told(
    class: &[u8; 256],
    tables: &[u8],
    notes: &[u64],
    raw: &[u8],
    span: LineSpan,
    names: &[u8],
    request: Request,
) -> Told
    requires classes { Classes class.now }
    requires scanned_line { ScannedLine raw.now span }
    ensures { result
        ≡ kind_told (finder_at tables.now notes.now names.now request) (line 0 0 raw.now span.ended) }
{
    match kind_of_line(raw, span) {
        LineKind::Faulty(_) => Told::Passes,
        LineKind::Skipped => Told::Passes,
        LineKind::HasRule => {
            if span.joins == 0 {
                rule_told(class, tables, notes, raw, names, request)
            } else {
                joined_told(class, tables, notes, raw, names, request)
            }
        }
    }
}

// What the lines of a text tell, whose rules give a verdict.
fn text_told(
    class: &[u8; 256],
    tables: &[u8],
    notes: &[u64],
    text: &[u8],
    verdict: Verdict,
    file: File,
    names: &[u8],
    request: Request,
) -> Telling
    requires { Classes class.now }
    ensures { result ≡ telling_of (text_told_by verdict file (finder_at tables.now notes.now names.now request) text.now) }
{
    let mut i = 0;
    let mut n = 1;
    while i < text.len() {
        let span = line::scan_line(text, i);
        let e = span.end;
        match line_told(class, tables, notes, &text[i..e], span, names, request) {
            Told::Passes => {}
            Told::Decides => {
                return Telling::Settled(Place {
                    verdict,
                    file,
                    line: n,
                });
            }
            Told::Differs => {
                return Telling::Matters;
            }
        }
        i = e + 1;
        n = n + span.joins + 1;
    }
    Telling::Nothing
}

// What both files tell, where the second tells this, and the first nothing.
fn matter_by(t: Telling) -> Result<Option<Place>, Refusal>
    ensures { result ≡ ended_by t }
{
    match t {
        Telling::Nothing => Ok(Some(Place {
            verdict: Verdict::Granted,
            file: File::Neither,
            line: 0,
        })),
        Telling::Settled(place) => Ok(Some(place)),
        Telling::Matters => Ok(None),
    }
}

// What both files tell: the allow file, and the deny file where that passes all users on.
fn tell(
    tables: &[u8],
    notes: &[u64],
    allow: &[u8],
    deny: &[u8],
    names: &[u8],
    request: Request,
) -> Result<Option<Place>, Refusal>
    ensures { result
        ≡ Ok
        (settled_by (finder_at tables.now notes.now names.now request) allow.now deny.now) }
{
    let class = classes::classes();
    match text_told(
        &class,
        tables,
        notes,
        allow,
        Verdict::Granted,
        File::Allow,
        names,
        request,
    ) {
        Telling::Settled(place) => Ok(Some(place)),
        Telling::Matters => Ok(None),
        Telling::Nothing => matter_by(text_told(
            &class,
            tables,
            notes,
            deny,
            Verdict::Denied,
            File::Deny,
            names,
            request,
        )),
    }
}

// Whether the name matters to a request that is held, by sound texts.
pub fn settle(
    allow: &[u8],
    deny: &[u8],
    tables: &[u8],
    names: &[u8],
    request: Request,
) -> Result<Option<Place>, Refusal>
    requires tables_value { tables_in tables.now ≡ tables_of tables.now }
    requires tables_value_2 { contents_fault allow.now deny.now tables.now ≡ None }
    ensures { result
        ≡ Ok
        (settled (match_of (tables_of tables.now)) allow.now deny.now (request_at names.now request)) }
{
    let notes = notes_on(tables, names, request);
    tell(tables, &notes, allow, deny, names, request)
}
