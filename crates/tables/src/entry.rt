// The tables of a section five: a count, then for each its name and its text, each after its own count.
//   frame(tables)       == whether the counts fit the bytes
//   count(tables)       == how many tables there are
//   find(tables, name)  == the place of the first table of that name
ghost use Rattle.std.specs.Prelude.{◌≡◌, false, ◌≤◌, length, take, drop};
ghost use Rattle.text.specs.Number.{from_digits};
ghost use Rattle.text.specs.Text.{equal_fold};
ghost use Rattle.tables.specs.Table.{read_tables};
ghost use Rattle.tables.specs.Code.{table_count, tables_in, cut_entry, entry_span, entry_table, after_entry, frame_of, place_named};

use text::equal_fold;

// Where the name and the text of an entry end; cut: whether it is not whole.
#[derive(Clone, Copy)]
pub struct EntrySpan {
    pub cut: bool,
    pub name_end: usize,
    pub end: usize,
}

// What the counts of a section five tell: they fit its bytes, run past their end, or leave some.
#[derive(Clone, Copy)]
pub enum FrameFault {
    Cut,
    Trailing,
}

// The count that s begins with: four bytes, most significant first.
fn read_count(s: &[u8]) -> usize
    requires { 4 ≤ length s.now }
    ensures { result ≡ from_digits 256 0 (take 4 s.now) }
{
    let first = s[0] as usize;
    let second = s[1] as usize;
    let third = s[2] as usize;
    let fourth = s[3] as usize;
    ((first * 256 + second) * 256 + third) * 256 + fourth
}

// An entry that is not whole.
fn cut_entry() -> EntrySpan
    ensures { result ≡ cut_entry }
{
    EntrySpan {
        cut: true,
        name_end: 0,
        end: 0,
    }
}

// The entry at the front of s.
pub fn entry_span(s: &[u8]) -> EntrySpan
    ensures { result ≡ entry_span s.now }
{
    if s.len() == 0 {
        return cut_entry();
    }
    let name_end = 1 + s[0] as usize;
    if s.len() < name_end + 4 {
        return cut_entry();
    }
    let n = read_count(&s[name_end..]);
    if s.len() - (name_end + 4) < n {
        return cut_entry();
    }
    EntrySpan {
        cut: false,
        name_end,
        end: name_end + 4 + n,
    }
}

// The name of the entry at the front of s.
pub fn entry_name(s: &[u8], span: EntrySpan) -> &[u8]
    requires { (span ≡ entry_span s.now) × (span.cut ≡ false) }
    ensures { result.now ≡ (entry_table s.now).name }
{
    let e = span.name_end;
    &s[1..e]
}

// Its text.
pub fn entry_text(s: &[u8], span: EntrySpan) -> &[u8]
    requires { (span ≡ entry_span s.now) × (span.cut ≡ false) }
    ensures { result.now ≡ (entry_table s.now).text }
{
    let a = span.name_end + 4;
    let e = span.end;
    &s[a..e]
}

// What follows the entry at the front of s.
pub fn after_entry(s: &[u8], span: EntrySpan) -> &[u8]
    requires { (span ≡ entry_span s.now) × (span.cut ≡ false) }
    ensures { result.now ≡ after_entry s.now }
{
    let e = span.end;
    &s[e..]
}

// The count of tables that a section five begins with, 0 where it is not there.
pub fn table_count(tables: &[u8]) -> usize
    ensures { result ≡ table_count tables.now }
{
    if tables.len() < 2 {
        return 0;
    }
    let first = tables[0] as usize;
    let second = tables[1] as usize;
    first * 256 + second
}

// What follows that count.
pub fn after_count(tables: &[u8]) -> &[u8]
    ensures { result.now ≡ drop 2 tables.now }
{
    if tables.len() < 2 {
        return &tables[..0];
    }
    &tables[2..]
}

// What the counts of a section five tell.
pub fn frame(tables: &[u8]) -> Result<(), FrameFault>
    ensures { result ≡ frame_of (read_tables tables.now) }
{
    if tables.len() < 2 {
        return Err(FrameFault::Cut);
    }
    let mut left = table_count(tables);
    let mut rest = after_count(tables);
    while 0 < left {
        let span = entry_span(rest);
        if span.cut {
            return Err(FrameFault::Cut);
        }
        let next = after_entry(rest, span);
        rest = next;
        left = left - 1;
    }
    if rest.len() == 0 {
        return Ok(());
    }
    Err(FrameFault::Trailing)
}

// How many tables there are, as far as the bytes go.
pub fn count(tables: &[u8]) -> usize
    ensures { result ≡ length (tables_in tables.now) }
{
    let n = table_count(tables);
    let mut rest = after_count(tables);
    let mut i = 0;
    while i < n {
        let span = entry_span(rest);
        if span.cut {
            return i;
        }
        let next = after_entry(rest, span);
        rest = next;
        i += 1;
    }
    i
}

// Whether two names are equal but for case. Those of one length mostly differ in their last byte, of which case changes one bit.
pub fn is_named(name: &[u8], other: &[u8]) -> bool
    ensures { result ≡ equal_fold name.now other.now }
{
    if name.len() != other.len() {
        return false;
    }
    if name.len() == 0 {
        return true;
    }
    let last = name.len() - 1;
    if name[last] % 32 != other[last] % 32 {
        return false;
    }
    equal_fold(name, other)
}

// The place of the first table so named.
pub fn find(tables: &[u8], name: &[u8]) -> Option<usize>
    ensures { result ≡ place_named (tables_in tables.now) name.now }
{
    let n = table_count(tables);
    let mut rest = after_count(tables);
    let mut i = 0;
    while i < n {
        let span = entry_span(rest);
        if span.cut {
            return None;
        }
        if is_named(name, entry_name(rest, span)) {
            return Some(i);
        }
        let next = after_entry(rest, span);
        rest = next;
        i += 1;
    }
    None
}
