// The lines that an earlier rule covers, found in one pass over a text. Rules that were seen hang in chains, one for each bucket;
// a rule takes four bytes at least, so a quarter of its place tells it from the others.
//   covered_lines(text) == a mark for each line, by its number
ghost use Rattle.std.specs.Prelude.{◌≡◌, ◌≤◌, ◌<◌, length, drop};
ghost use Rattle.lines.specs.Line.{join};
ghost use Rattle.lines.specs.Scan.{span_at, scan_line};
ghost use Rattle.tidy.specs.Tidy.{proposal};
ghost use Rattle.tidy.specs.Code.{same_text, same_at, link_at, repeats, rule_all, rule_marks, rule_links, has_rule, step_all, step_marks, step_links};
ghost use Rattle.tidy.specs.Code.{Sound, Marked};

use crate::same::{bucket, matches_all, same_rule};
use lines::line::LineSpan;
use lines::{line, rule};

// Whether a line holds a rule.
fn has_rule(raw: &[u8]) -> bool
    ensures { result ≡ has_rule raw.now }
{
    if line::is_comment(raw) {
        return false;
    }
    if line::is_blank(raw) {
        return false;
    }
    rule::separator(raw) < raw.len()
}

// Whether the rule of a line with dropped pairs has the lists of the joined line t.
fn same_joined(raw: &[u8], t: &[u8]) -> bool
    requires { length (join raw.now) ≤ 2048 }
    ensures { result ≡ same_text (join raw.now) t.now }
{
    let mut joined = [0u8; 2048];
    let n = line::join_into(&mut joined, raw);
    same_rule(&joined[..n], t)
}

// Whether the rule at a place of the text has the lists of the joined line t.
fn is_same_at(text: &[u8], place: usize, t: &[u8]) -> bool
    requires { place ≤ length text.now }
    ensures { result ≡ same_at text.now place t.now }
{
    let span = line::scan_line(text, place);
    let end = span.end;
    if span.joins == 0 {
        if 2048 < end - place {
            return false;
        }
        return same_rule(&text[place..end], t);
    }
    if 2048 < end - place - 2 * span.joins {
        return false;
    }
    same_joined(&text[place..end], t)
}

// What stands in links at i: a place and 1, or 0.
fn link_at(links: &[u16], i: usize) -> usize
    requires { i < length links.now }
    ensures link { result ≡ link_at links.now i }
    ensures small { result ≤ 16384 }
{
    let link = links[i];
    if 16384 < link {
        return 0;
    }
    link as usize
}

// Whether a rule of a chain has the lists of the joined line t.
fn is_repeated(text: &[u8], links: &[u16], first: usize, t: &[u8]) -> bool
    requires { (length text.now ≤ 16384) × (4096 ≤ length links.now) }
    ensures { result ≡ repeats text.now links.now 16384 first t.now }
{
    let mut at = first;
    let mut left: usize = 16384;
    while 0 < left {
        if at == 0 {
            return false;
        }
        if text.len() < at {
            return false;
        }
        let place = at - 1;
        if is_same_at(text, place, t) {
            return true;
        }
        at = link_at(links, place / 4);
        left -= 1;
    }
    false
}

// The step over a rule at i, of number n, joined: it is marked, or hung into its chain. Whether it is hung and matches all.
fn note_rule(marks: &mut [u8], links: &mut [u16], text: &[u8], i: usize, n: usize, t: &[u8]) -> bool
    requires marks_len { (length marks.old ≡ 16385) × (n < 16385) }
    requires links_len { (length links.old ≡ 6144) × ((length text.now ≤ 16384) × (i < length text.now)) }
    ensures answer { result ≡ rule_all text.now links.old t.now }
    ensures marked { marks.new ≡ rule_marks text.now links.old n t.now marks.old }
    ensures hung { links.new ≡ rule_links text.now links.old i t.now }
{
    let b = 4096 + bucket(t);
    let first = link_at(links, b);
    if is_repeated(text, links, first, t) {
        marks[n] = 1;
        return false;
    }
    links[i / 4] = first as u16;
    links[b] = (i + 1) as u16;
    matches_all(t)
}

// The same of a line with dropped pairs.
fn note_joined(
    marks: &mut [u8],
    links: &mut [u16],
    text: &[u8],
    i: usize,
    n: usize,
    raw: &[u8],
) -> bool
    requires marks_len { (length marks.old ≡ 16385) × (n < 16385) }
    requires links_len { (length links.old ≡ 6144) × ((length text.now ≤ 16384) × (i < length text.now)) }
    requires raw_len_bound { length (join raw.now) ≤ 2048 }
    ensures answer { result ≡ rule_all text.now links.old (join raw.now) }
    ensures marked { marks.new ≡ rule_marks text.now links.old n (join raw.now) marks.old }
    ensures hung { links.new ≡ rule_links text.now links.old i (join raw.now) }
{
    let mut joined = [0u8; 2048];
    let k = line::join_into(&mut joined, raw);
    note_rule(marks, links, text, i, n, &joined[..k])
}

// The step over a line at i, of number n, with so many dropped pairs; all: whether a rule before it matches all. Whether one up to it does.
fn step(
    marks: &mut [u8],
    links: &mut [u16],
    text: &[u8],
    i: usize,
    n: usize,
    all: bool,
    raw: &[u8],
    joins: usize,
) -> bool
    requires marks_len { (length marks.old ≡ 16385) × (n < 16385) }
    requires links_len { (length links.old ≡ 6144) × ((length text.now ≤ 16384) × (i < length text.now)) }
    requires raw_len_bound { (length (join raw.now) ≤ 2048) × (joins ≡ 0 → join raw.now ≡ raw.now) }
    ensures answer { result ≡ step_all text.now links.old all raw.now }
    ensures marked { marks.new ≡ step_marks text.now links.old all n raw.now marks.old }
    ensures hung { links.new ≡ step_links text.now links.old all i raw.now }
{
    if !has_rule(raw) {
        return all;
    }
    if all {
        marks[n] = 1;
        return true;
    }
    if joins == 0 {
        return note_rule(marks, links, text, i, n, raw);
    }
    note_joined(marks, links, text, i, n, raw)
}

// A mark of 1 for each line that an earlier rule covers, by its number.
pub(crate) fn covered_lines(text: &[u8]) -> [u8; 16385]
    requires { (length text.now ≤ 16384) × Sound text.now }
    ensures { Marked result (proposal text.now) }
{
    let mut marks = [0u8; 16385];
    let mut links = [0u16; 6144];
    let mut i = 0;
    let mut n = 1;
    let mut all = false;
    while i < text.len() {
        let span = line::scan_line(text, i);
        let e = span.end;
        all = step(
            &mut marks,
            &mut links,
            text,
            i,
            n,
            all,
            &text[i..e],
            span.joins,
        );
        n += span.joins + 1;
        i = e + 1;
    }
    marks
}
