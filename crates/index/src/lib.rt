// An index of a sheet's rules, and up to 32 requests answered in one call.
//   write_index(out, sheet)                == the index of an accepted sheet
//   verdicts(out, sheet, index, requests)  == the answers to the requests, each the one that it gets alone
// docs/FORMATS.md has the forms of index, requests and answers. The index is compared with the sheet before any place in it is followed.
//   table    == the rules of a text as entries, counted, written and compared
//   search   == the first rule that decides, found by the entries
//   requests == the fields of requests, by their places
//   answers  == the answer to one request, and to all
#![tactic(auto)]

ghost use Rattle.std.specs.Prelude.{◌≡◌, ◌++◌, ◌+◌, ◌≤◌, ◌<◌, length};
ghost use Rattle.text.specs.Scan.{after};
ghost use Rattle.lines.specs.Line.{lines};
ghost use Rattle.section.specs.Refusal.{within_room, written_of, lent_after};
ghost use Rattle.sheet.specs.Sheet.{unpack as unpackOf};
ghost use Rattle.index.specs.Index.{rule_table, two_bytes, table_bytes, index_bytes, write_index, read_requests, answer_all, verdicts as verdictsBy};

use section::{Fault, Refusal, part_of};
use sheet::Parts;
use sheet::unpack::unpack;

pub mod answers;
pub mod requests;
pub mod search;
pub mod table;

// From a place up to another.
#[derive(Clone, Copy)]
pub struct Range {
    pub start: usize,
    pub end: usize,
}

// A rule: its first and last line, and the places of the rule, its daemon list and its client list in the sheet.
#[derive(Clone, Copy)]
pub struct Entry {
    pub lines: Range,
    pub rule: Range,
    pub daemons: Range,
    pub clients: Range,
}

// Writes an index at the front of out, and answers its length: how many rules allow and deny have, and the entries of both texts.
fn put_index(
    out: &mut [u8],
    of_allow: usize,
    of_deny: usize,
    allow: &[u8],
    allow_place: usize,
    deny: &[u8],
    deny_place: usize,
) -> usize
    requires allow_fits { allow_place + length allow.now ≤ 57360 }
    requires deny_fits { deny_place + length deny.now ≤ 57360 }
    requires room { 8 + length (table_bytes (rule_table allow_place (lines allow.now)))
        + length (table_bytes (rule_table deny_place (lines deny.now))) ≤ length out.old }
    ensures count { result ≡ 8 + length (table_bytes (rule_table allow_place (lines allow.now)))
        + length (table_bytes (rule_table deny_place (lines deny.now))) }
    ensures written { out.new
        ≡ after (two_bytes of_allow of_deny ++ table_bytes (rule_table allow_place (lines allow.now))
        ++ table_bytes (rule_table deny_place (lines deny.now))) out.old }
{
    let start = table::put_two(out, 0, of_allow, of_deny);
    let middle = table::put_rules(out, start, allow, allow_place);
    table::put_rules(out, middle, deny, deny_place)
}

// Writes the index of a sheet that is accepted with these parts.
fn write_parts(out: &mut [u8], sheet: &[u8], parts: Parts) -> Result<usize, Refusal>
    requires { unpackOf sheet.now ≡ Ok parts }
    ensures answer { result ≡ written_of (within_room (length out.old) (index_bytes sheet.now parts)) }
    ensures holds { out.new
        ≡ lent_after out.old (within_room (length out.old) (index_bytes sheet.now parts)) }
{
    let allow = part_of(sheet, parts.allow);
    let deny = part_of(sheet, parts.deny);
    let of_allow = table::count_rules(allow, parts.allow.place);
    let of_deny = table::count_rules(deny, parts.deny.place);
    if out.len() < 8 + 32 * (of_allow + of_deny) {
        return Err(section::placeless(Fault::NoRoom));
    }
    Ok(put_index(
        out,
        of_allow,
        of_deny,
        allow,
        parts.allow.place,
        deny,
        parts.deny.place,
    ))
}

// Writes the index of an accepted sheet at the front of out; a refusal leaves out as it was.
pub fn write_index(out: &mut [u8], sheet: &[u8]) -> Result<usize, Refusal>
    ensures answer { result ≡ written_of (write_index sheet.now (length out.old)) }
    ensures holds { out.new ≡ lent_after out.old (write_index sheet.now (length out.old)) }
{
    let parts = unpack(sheet)?;
    write_parts(out, sheet, parts)
}

// Answers the requests by a sheet that is accepted with these parts, and its index.
fn answer_parts(
    out: &mut [u8],
    sheet: &[u8],
    parts: Parts,
    index: &[u8],
    requests: &[u8],
) -> Result<usize, Refusal>
    requires { (unpackOf sheet.now ≡ Ok parts) × (index.now ≡ index_bytes sheet.now parts) }
    ensures answer { result ≡ written_of (answer_all sheet.now (length out.old) (read_requests requests.now)) }
    ensures holds { out.new
        ≡ lent_after out.old (answer_all sheet.now (length out.old) (read_requests requests.now)) }
{
    match requests::count_requests(requests) {
        None => Err(section::placeless(Fault::BadRequest)),
        Some(n) => {
            if out.len() < 36 * n as usize {
                return Err(section::placeless(Fault::NoRoom));
            }
            Ok(answers::put_answers(out, sheet, parts, index, requests))
        }
    }
}

// Writes the answers to up to 32 requests by a sheet and its index at the front of out; a refusal leaves out as it was.
pub fn verdicts(
    out: &mut [u8],
    sheet: &[u8],
    index: &[u8],
    requests: &[u8],
) -> Result<usize, Refusal>
    ensures answer { result
        ≡ written_of (verdictsBy sheet.now index.now requests.now (length out.old)) }
    ensures holds { out.new
        ≡ lent_after out.old
        (verdictsBy sheet.now index.now requests.now (length out.old)) }
{
    let parts = unpack(sheet)?;
    if table::is_index(index, sheet, parts) {
        return answer_parts(out, sheet, parts, index, requests);
    }
    Err(section::placeless(Fault::WrongIndex))
}
