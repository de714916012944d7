// The first rule that decides, found by the entries of an index.
//   seek(.., table, ..)  == what the entries of one text find, and how many elements were looked at for it
//   search(.., index, ..) == the answer to a request by both texts
// A rule's lists are parts of the sheet; where pairs are dropped from the rule, a list is joined into a buffer first.
ghost use Rattle.std.specs.Prelude.{◌≡◌, ◌+◌, ◌-◌, ◌≤◌, ◌<◌, length, take, drop};
ghost use Rattle.lines.specs.Parts.{words};
ghost use Rattle.section.specs.Section.{bytes_at};
ghost use Rattle.tables.specs.Table.{tables_of, match_of};
ghost use Rattle.tables.specs.Tried.{capped};
ghost use Rattle.classes.specs.Class.{Classes};
ghost use Rattle.elements.specs.Places.{request_at};
ghost use Rattle.elements.specs.Code.{view_of, looked_for};
ghost use Rattle.lists.specs.ListCode.{daemon_finds, client_finds, daemon_counts, client_counts, list_looked};
ghost use Rattle.rules.specs.Search.{search as searchBy};
ghost use Rattle.rules.specs.Looked.{looked as lookedBy};
ghost use Rattle.rules.specs.Code.{searched, Noted};
ghost use Rattle.rules.specs.FileCode.{query_at, query_found, query_looked};
ghost use Rattle.tables.specs.Code.{tables_in};
ghost use Rattle.station.specs.Station.{in_sheet};
ghost use Rattle.index.specs.Index.{rules_at};
ghost use Rattle.index.specs.Code.{range_at, entry_at, between, joined_list, list_at, entry_rule, command_start, entry_command, rule_answer_at, is_whole, is_other};
ghost use Rattle.index.specs.Code.{Table, seek_in, ended_by, seek_both, searched_at, Ready};

use crate::requests::four_at;
use crate::{Entry, Range};
use elements::request::Request;
use elements::{Found, Looked, count};
use lines::line;
use lists::walk::{after_others, clients_included, daemons_included};
use rules::search::{Searched, notes_on};
use rules::{Answer, File, Verdict};
use section::{Part, part_of};
use sheet::Parts;
use text::equal_fold;

// The same, and how many elements were looked at for it.
#[derive(Clone, Copy)]
pub struct Seeking {
    pub sought: Option<Answer>,
    pub looked: u64,
}

fn range_at(bytes: &[u8], at: usize) -> Range
    requires { at + 8 ≤ length bytes.now }
    ensures { result ≡ range_at at bytes.now }
{
    Range {
        start: four_at(bytes, at) as usize,
        end: four_at(bytes, at + 4) as usize,
    }
}

// The entry that bytes begin with.
fn entry_at(bytes: &[u8]) -> Entry
    requires { 32 ≤ length bytes.now }
    ensures { result ≡ entry_at bytes.now }
{
    Entry {
        lines: range_at(bytes, 0),
        rule: range_at(bytes, 8),
        daemons: range_at(bytes, 16),
        clients: range_at(bytes, 24),
    }
}

// The bytes of a range, as far as they go.
fn bytes_between(bytes: &[u8], range: Range) -> &[u8]
    ensures { result.now ≡ between range bytes.now }
{
    if range.end < range.start {
        return &bytes[..0];
    }
    part_of(
        bytes,
        Part {
            place: range.start,
            len: range.end - range.start,
        },
    )
}

// Joins a list into a buffer, and answers its length; none is longer.
fn join_list(out: &mut [u8], s: &[u8]) -> usize
    requires { length out.old ≡ 2048 }
    ensures within { result ≤ 2048 }
    ensures joined { take result out.new ≡ joined_list s.now }
{
    let measured = line::joined(s);
    if 2048 < measured.len {
        return 0;
    }
    line::join_into(out, s)
}

// Whether a byte parts neither elements nor the halves of one, and begins no table's name.
fn is_whole(b: u8) -> bool
    ensures { result ≡ is_whole b }
{
    !((b == b' ') | (b == b'\t') | (b == b',')) & !(b == b'@') & !(b == b'/')
}

// Whether s is one name, no word of the lists, and another than the daemon's: most rules are passed over by that.
fn is_other(s: &[u8], daemon: &[u8]) -> bool
    ensures { result ≡ is_other s.now daemon.now }
{
    let mut i = 0;
    while i < s.len() {
        if !is_whole(s[i]) {
            return false;
        }
        i += 1;
    }
    if (s.len() == 0) | (s.len() == 3) | (s.len() == 6) {
        return false;
    }
    !equal_fold(s, daemon)
}

// What a daemon list finds and looks at; joins: whether pairs are dropped from it.
fn daemons_find(
    class: &[u8; 256],
    tables: &[u8],
    notes: &[u64],
    s: &[u8],
    joins: bool,
    names: &[u8],
    request: Request,
) -> Looked
    requires { Classes class.now }
    ensures { result ≡ list_looked (daemon_finds (view_of tables.now notes.now)
        (request_at names.now request).daemon (request_at names.now request).server)
        (daemon_counts (view_of tables.now notes.now)) (list_at joins s.now) }
{
    let server = request.server;
    let daemon = part_of(names, request.daemon);
    let server_name = part_of(names, request.server_name);
    if joins {
        let mut joined = [0u8; 2048];
        let n = join_list(&mut joined, s);
        return daemons_included(
            class,
            tables,
            notes,
            &joined[..n],
            daemon,
            server,
            server_name,
        );
    }
    if is_other(s, daemon) {
        return Looked {
            found: Found::No,
            looked: 1,
        };
    }
    daemons_included(class, tables, notes, s, daemon, server, server_name)
}

// What a client list finds and looks at.
fn clients_find(
    class: &[u8; 256],
    tables: &[u8],
    notes: &[u64],
    s: &[u8],
    joins: bool,
    names: &[u8],
    request: Request,
) -> Looked
    requires { Classes class.now }
    ensures { result ≡ list_looked (client_finds (view_of tables.now notes.now)
        (request_at names.now request).client (request_at names.now request).user (request_at names.now request).user_name)
        (client_counts (view_of tables.now notes.now)) (list_at joins s.now) }
{
    let client = request.client;
    let user = request.user;
    let client_name = part_of(names, request.client_name);
    let user_name = part_of(names, request.user_name);
    if joins {
        let mut joined = [0u8; 2048];
        let n = join_list(&mut joined, s);
        return clients_included(
            class,
            tables,
            notes,
            &joined[..n],
            client,
            client_name,
            user,
            user_name,
        );
    }
    clients_included(
        class,
        tables,
        notes,
        s,
        client,
        client_name,
        user,
        user_name,
    )
}

// What the rule of an entry finds and looks at; its client list is looked at only if its daemon list matched.
fn rule_finds(
    class: &[u8; 256],
    tables: &[u8],
    notes: &[u64],
    sheet: &[u8],
    entry: Entry,
    names: &[u8],
    request: Request,
) -> Looked
    requires { Classes class.now }
    ensures { result
        ≡ looked_for (query_found (query_at tables.now notes.now names.now request) (entry_rule sheet.now entry))
        (capped (query_looked (query_at tables.now notes.now names.now request) (entry_rule sheet.now entry))) }
{
    let joins = entry.lines.start != entry.lines.end;
    let daemons = bytes_between(sheet, entry.daemons);
    let seen = daemons_find(class, tables, notes, daemons, joins, names, request);
    let found = seen.found;
    match found {
        Found::No => seen,
        Found::Ask => seen,
        Found::Yes => {
            let clients = bytes_between(sheet, entry.clients);
            after_others(
                seen.looked,
                clients_find(class, tables, notes, clients, joins, names, request),
            )
        }
    }
}

// Where the command of a rule starts: after the separator that ends its client list, or at its end.
fn command_start(entry: Entry) -> usize
    ensures { result ≡ command_start entry }
{
    if entry.clients.end < entry.rule.end {
        return entry.clients.end + 1;
    }
    entry.rule.end
}

// The raw command of the rule of an entry, as a part of the sheet.
fn command_of(sheet: &[u8], entry: Entry) -> Part
    ensures { result ≡ entry_command sheet.now entry }
{
    let place = command_start(entry);
    let command = bytes_between(
        sheet,
        Range {
            start: place,
            end: entry.rule.end,
        },
    );
    if line::is_blank(command) {
        return Part { place, len: 0 };
    }
    Part {
        place,
        len: command.len(),
    }
}

// What the rule of an entry answers, which finds this; base is the place of its file in the sheet.
fn rule_answer(
    sheet: &[u8],
    base: usize,
    verdict: Verdict,
    file: File,
    entry: Entry,
    found: Found,
) -> Option<Answer>
    ensures { result ≡ rule_answer_at sheet.now base verdict file entry found }
{
    match found {
        Found::No => None,
        Found::Ask => Some(Answer {
            verdict: Verdict::Ask,
            file,
            line: entry.lines.start,
            command: Part {
                place: base,
                len: 0,
            },
        }),
        Found::Yes => Some(Answer {
            verdict,
            file,
            line: entry.lines.start,
            command: command_of(sheet, entry),
        }),
    }
}

// What the entries of a text find: the answer of the first rule that matches or asks.
fn seek(
    class: &[u8; 256],
    tables: &[u8],
    notes: &[u64],
    sheet: &[u8],
    part: Part,
    table: &[u8],
    verdict: Verdict,
    file: File,
    names: &[u8],
    request: Request,
) -> Seeking
    requires classes { Classes class.now }
    requires table { Table table.now (rules_at sheet.now part) }
    ensures { result
        ≡ seek_in sheet.now part.place verdict file (query_at tables.now notes.now names.now request)
        (rules_at sheet.now part) }
{
    let mut rest = table;
    let mut looked = 0;
    while 32 <= rest.len() {
        let entry = entry_at(rest);
        let seen = rule_finds(class, tables, notes, sheet, entry, names, request);
        let so_far = count::add(looked, seen.looked);
        let found = seen.found;
        match rule_answer(sheet, part.place, verdict, file, entry, found) {
            None => {}
            Some(a) => {
                return Seeking {
                    sought: Some(a),
                    looked: so_far,
                };
            }
        }
        looked = so_far;
        let next = &rest[32..];
        rest = next;
    }
    Seeking {
        sought: None,
        looked,
    }
}

// What the second text finds, where the first found nothing and looked at so many elements.
fn ended(looked: u64, last: Seeking) -> Searched
    ensures { result ≡ ended_by looked last }
{
    let sought = last.sought;
    match sought {
        Some(answer) => Searched {
            answer,
            looked: count::add(looked, last.looked),
        },
        None => Searched {
            answer: Answer {
                verdict: Verdict::Granted,
                file: File::Neither,
                line: 0,
                command: Part { place: 0, len: 0 },
            },
            looked: count::add(looked, last.looked),
        },
    }
}

// What both texts find: the rules of allow, and those of deny where none of allow decides.
fn seek_both(
    class: &[u8; 256],
    tables: &[u8],
    notes: &[u64],
    sheet: &[u8],
    parts: Parts,
    allow: &[u8],
    deny: &[u8],
    names: &[u8],
    request: Request,
) -> Searched
    requires classes { Classes class.now }
    requires table { (Table allow.now (rules_at sheet.now parts.allow)) × (Table deny.now (rules_at sheet.now parts.deny)) }
    ensures { result
        ≡ seek_both sheet.now parts (query_at tables.now notes.now names.now request) }
{
    let first = seek(
        class,
        tables,
        notes,
        sheet,
        parts.allow,
        allow,
        Verdict::Granted,
        File::Allow,
        names,
        request,
    );
    let sought = first.sought;
    match sought {
        Some(answer) => Searched {
            answer,
            looked: first.looked,
        },
        None => ended(
            first.looked,
            seek(
                class,
                tables,
                notes,
                sheet,
                parts.deny,
                deny,
                Verdict::Denied,
                File::Deny,
                names,
                request,
            ),
        ),
    }
}

// The answer to a request that is held, by a sheet that is accepted, and the entries of its two texts.
pub fn search(
    class: &[u8; 256],
    sheet: &[u8],
    parts: Parts,
    allow: &[u8],
    deny: &[u8],
    names: &[u8],
    request: Request,
) -> Searched
    requires classes { Classes class.now }
    requires ready { Ready sheet.now parts allow.now deny.now }
    ensures { result ≡ searched_at sheet.now parts (request_at names.now request) }
{
    let tables = part_of(sheet, parts.tables);
    if tables.len() <= 2 {
        return seek_both(
            class, tables, &[0u64; 3], sheet, parts, allow, deny, names, request,
        );
    }
    let notes = notes_on(tables, names, request);
    seek_both(
        class, tables, &notes, sheet, parts, allow, deny, names, request,
    )
}
