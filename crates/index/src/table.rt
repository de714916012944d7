// The rules of a text as entries of an index.
//   count_rules(text, base) == how many there are
//   put_rules(out, at, text, base) == their entries, written
//   is_index(index, sheet, parts)  == the index is the one of this sheet
// base is the place of the text in its sheet. One line after the other is looked at, its elements are not.
ghost use Rattle.std.specs.Prelude.{◌≡◌, ◌+◌, ◌≤◌, ◌<◌, length, drop};
ghost use Rattle.text.specs.Text.{equal as equalTo};
ghost use Rattle.text.specs.Scan.{put_at};
ghost use Rattle.lines.specs.Line.{lines};
ghost use Rattle.lines.specs.Scan.{span_at, scan_line};
ghost use Rattle.sheet.specs.Sheet.{unpack as unpackOf};
ghost use Rattle.index.specs.Index.{rule_table, two_bytes, entry_bytes, table_bytes, index_bytes};
ghost use Rattle.index.specs.Code.{has_rule, entry_by, line_entry, rules_in, line_bytes};

use crate::{Entry, Range};
use lines::{line, rule};
use section::part_of;
use sheet::Parts;
use sheet::pack::put_count;

// A line of a text: where the next one starts, its number, and the entry of the rule in it, if there is one.
#[derive(Clone, Copy)]
pub struct LineEntry {
    pub next: usize,
    pub number: usize,
    pub ruled: bool,
    pub entry: Entry,
}

// Whether a line holds a rule.
fn has_rule(raw: &[u8]) -> bool
    ensures { result ≡ has_rule raw.now }
{
    if line::is_comment(raw) {
        return false;
    }
    if line::is_blank(raw) {
        return false;
    }
    rule::separator(raw) < raw.len()
}

// The entry of the rule raw that stands at a place of the sheet, has the number n, and from which so many pairs are dropped.
fn entry_of(raw: &[u8], at: usize, n: usize, joins: usize) -> Entry
    requires raw_bound { at + length raw.now + 1 < 18446744073709551616 }
    requires joins_bound { n + joins < 18446744073709551616 }
    ensures { result ≡ entry_by raw.now at n joins }
{
    let a = rule::separator(raw);
    let rest = rule::after_separator(raw, a);
    let clients = at + a + 1;
    let end = clients + rule::separator(rest);
    Entry {
        lines: Range {
            start: n,
            end: n + joins,
        },
        rule: Range {
            start: at,
            end: at + raw.len(),
        },
        daemons: Range {
            start: at,
            end: at + a,
        },
        clients: Range {
            start: clients,
            end,
        },
    }
}

// The line of a text that starts at i and has the number n.
fn line_entry(text: &[u8], base: usize, i: usize, n: usize) -> LineEntry
    requires i_in_bounds { (i < length text.now) × (n ≤ i + 1) }
    requires text_bound { base + length text.now ≤ 57360 }
    ensures { result ≡ line_entry base text.now i n (span_at i (scan_line (drop i text.now))) }
{
    let span = line::scan_line(text, i);
    let e = span.end;
    let raw = &text[i..e];
    LineEntry {
        next: e + 1,
        number: n + span.joins + 1,
        ruled: has_rule(raw),
        entry: entry_of(raw, base + i, n, span.joins),
    }
}

// How many rules a line holds: one, or none.
fn rules_in(here: LineEntry) -> usize
    ensures count { result ≡ rules_in here }
    ensures few { result ≤ 1 }
{
    if here.ruled {
        return 1;
    }
    0
}

// How many rules a text has.
pub fn count_rules(text: &[u8], base: usize) -> usize
    requires { base + length text.now ≤ 57360 }
    ensures count { result ≡ length (rule_table base (lines text.now)) }
    ensures few { result ≤ 57361 }
{
    let mut i = 0;
    let mut n = 1;
    let mut count = 0;
    while i < text.len() {
        let here = line_entry(text, base, i, n);
        count += rules_in(here);
        i = here.next;
        n = here.number;
    }
    count
}

// Writes two numbers from at on, and answers the place after them.
pub fn put_two(out: &mut [u8], at: usize, a: usize, b: usize) -> usize
    requires { at + 8 ≤ length out.old }
    ensures next { result ≡ at + 8 }
    ensures written { out.new ≡ put_at out.old at (two_bytes a b) }
{
    let second = put_count(out, at, a);
    put_count(out, second, b)
}

// Writes an entry from at on, and answers the place after it.
fn put_entry(out: &mut [u8], at: usize, entry: Entry) -> usize
    requires { at + 32 ≤ length out.old }
    ensures next { result ≡ at + 32 }
    ensures written { out.new ≡ put_at out.old at (entry_bytes entry) }
{
    let rule = put_two(out, at, entry.lines.start, entry.lines.end);
    let daemons = put_two(out, rule, entry.rule.start, entry.rule.end);
    let clients = put_two(out, daemons, entry.daemons.start, entry.daemons.end);
    put_two(out, clients, entry.clients.start, entry.clients.end)
}

// Writes the entry of a line, if it has one.
fn put_line(out: &mut [u8], at: usize, here: LineEntry) -> usize
    requires { at + length (line_bytes here) ≤ length out.old }
    ensures next { result ≡ at + length (line_bytes here) }
    ensures written { out.new ≡ put_at out.old at (line_bytes here) }
{
    if here.ruled {
        return put_entry(out, at, here.entry);
    }
    at
}

// Writes the entries of a text from at on, and answers the place after them.
pub fn put_rules(out: &mut [u8], at: usize, text: &[u8], base: usize) -> usize
    requires text_bound { base + length text.now ≤ 57360 }
    requires text_in_bounds { at + length (table_bytes (rule_table base (lines text.now))) ≤ length out.old }
    ensures next { result ≡ at + length (table_bytes (rule_table base (lines text.now))) }
    ensures written { out.new ≡ put_at out.old at (table_bytes (rule_table base (lines text.now))) }
{
    let mut i = 0;
    let mut n = 1;
    let mut next = at;
    while i < text.len() {
        let here = line_entry(text, base, i, n);
        let after = put_line(out, next, here);
        next = after;
        i = here.next;
        n = here.number;
    }
    next
}

// Whether bytes are those of an entry.
fn is_entry(bytes: &[u8], entry: Entry) -> bool
    ensures { result ≡ equalTo bytes.now (entry_bytes entry) }
{
    let mut right = [0u8; 32];
    put_entry(&mut right, 0, entry);
    text::equal(bytes, &right)
}

// Whether bytes are those of the entry of a line, none where it has none.
fn is_line(bytes: &[u8], here: LineEntry) -> bool
    ensures { result ≡ equalTo bytes.now (line_bytes here) }
{
    if here.ruled {
        return is_entry(bytes, here.entry);
    }
    bytes.len() == 0
}

// Whether bytes are those of the entries of a text.
fn are_rules(bytes: &[u8], text: &[u8], base: usize) -> bool
    requires { base + length text.now ≤ 57360 }
    ensures { result ≡ equalTo bytes.now (table_bytes (rule_table base (lines text.now))) }
{
    let mut rest = bytes;
    let mut i = 0;
    let mut n = 1;
    while i < text.len() {
        let here = line_entry(text, base, i, n);
        let m = 32 * rules_in(here);
        if rest.len() < m {
            return false;
        }
        if !is_line(&rest[..m], here) {
            return false;
        }
        let next = &rest[m..];
        rest = next;
        i = here.next;
        n = here.number;
    }
    rest.len() == 0
}

// Whether bytes are those of two numbers.
fn are_two(bytes: &[u8], a: usize, b: usize) -> bool
    ensures { result ≡ equalTo bytes.now (two_bytes a b) }
{
    let mut right = [0u8; 8];
    put_two(&mut right, 0, a, b);
    text::equal(bytes, &right)
}

// Whether the index is the one of a sheet that is accepted with these parts.
pub fn is_index(index: &[u8], sheet: &[u8], parts: Parts) -> bool
    requires { unpackOf sheet.now ≡ Ok parts }
    ensures { result ≡ equalTo index.now (index_bytes sheet.now parts) }
{
    let allow = part_of(sheet, parts.allow);
    let deny = part_of(sheet, parts.deny);
    let of_allow = count_rules(allow, parts.allow.place);
    let of_deny = count_rules(deny, parts.deny.place);
    let middle = 8 + 32 * of_allow;
    if index.len() < middle {
        return false;
    }
    are_two(&index[..8], of_allow, of_deny)
        & are_rules(&index[8..middle], allow, parts.allow.place)
        & are_rules(&index[middle..], deny, parts.deny.place)
}
