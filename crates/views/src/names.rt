// Where a name stands among at most 64 tables, by what is noted once for each request: of each table a number of its name, and the byte it is at.
//   hash(name)                       == that number, the same whatever its case
//   note_names(tables, notes)        == fills in the notes, from the word 131 on
//   find_noted(tables, notes, name)  == the place of the table of that name, by the notes where they tell names
// Names of up to seven bytes that may be names have different numbers, so that few names are compared whole.
ghost use Rattle.std.specs.Prelude.{◌≡◌, ◌+◌, ◌≤◌, ◌<◌, eqb, length, replicate, get_or};
ghost use Rattle.tables.specs.Code.{tables_in, place_named};
ghost use Rattle.views.specs.Names.{hash_of, is_named_at, near_by, Skipped, noted_place, NamesNoted, Told};

use tables::entry::{after_count, after_entry, entry_name, entry_span, find, table_count};
use text::{equal_fold, lower};

// A number of a name, the same whatever its case.
fn hash(name: &[u8]) -> u64
    ensures { result ≡ hash_of name.now }
{
    let mut made = 0u64;
    let mut i = 0;
    while i < name.len() {
        made = (made * 131 + lower(name[i]) as u64) % 72057594037927936;
        i += 1;
    }
    made
}

// Notes for each table the number of its name, and the byte that it stands at.
pub fn note_names(tables: &[u8], notes: &mut [u64; 259])
    requires tables_len_bound { length (tables_in tables.now) ≤ 64 }
    requires notes_value { notes.old ≡ replicate 259 0 }
    ensures { NamesNoted tables.now notes.new }
{
    let n = table_count(tables);
    let mut rest = after_count(tables);
    let mut i = 0;
    while i < n {
        let span = entry_span(rest);
        if span.cut {
            return;
        }
        notes[131 + i] = hash(entry_name(rest, span));
        notes[195 + i] = (tables.len() - rest.len()) as u64;
        let next = after_entry(rest, span);
        rest = next;
        i += 1;
    }
}

// Whether a byte counts so many.
fn is_count(b: u8, n: usize) -> bool
    ensures { result ≡ eqb b n }
{
    b as usize == n
}

// Whether the table that stands at a byte has the name; 0 is none.
fn is_named_at(tables: &[u8], at: usize, name: &[u8]) -> bool
    ensures { result ≡ is_named_at tables.now name.now at }
{
    if at == 0 {
        return false;
    }
    if tables.len() <= at {
        return false;
    }
    let n = name.len();
    if is_count(tables[at], n) {
        let from = at + 1;
        let rest = &tables[from..];
        if rest.len() < n {
            return false;
        }
        return equal_fold(name, &rest[..n]);
    }
    false
}

// Whether one of four places from i on has the number.
fn is_near(notes: &[u64], sought: u64, i: usize) -> bool
    requires { (length notes.now ≡ 259) × (i ≤ 60) }
    ensures { result ≡ near_by notes.now sought i }
{
    (notes[131 + i] == sought)
        | ((notes[132 + i] == sought) | ((notes[133 + i] == sought) | (notes[134 + i] == sought)))
}

// A place before which, from start on, none has the number: found four at a time.
fn skip(notes: &[u64], sought: u64, start: usize) -> usize
    requires { (length notes.now ≡ 259) × (start ≤ 64) }
    ensures { Skipped notes.now sought start result }
{
    let mut i = start;
    while i <= 60 {
        if is_near(notes, sought, i) {
            return i;
        }
        i += 4;
    }
    i
}

// The first place from start on that has the number, or 64.
fn next_place(notes: &[u64], sought: u64, start: usize) -> usize
    requires { (length notes.now ≡ 259) × (start ≤ 64) }
    ensures passed { Skipped notes.now sought start result }
    ensures found { result < 64 → get_or notes.now (131 + result) 0 ≡ sought }
{
    let mut i = skip(notes, sought, start);
    while i < 64 {
        if notes[131 + i] == sought {
            return i;
        }
        i += 1;
    }
    i
}

// The place of the first table so named, by notes that tell the names of tables; else by going over them.
pub fn find_noted(tables: &[u8], notes: &[u64], name: &[u8]) -> Option<usize>
    ensures { result ≡ noted_place tables.now notes.now name.now }
{
    if notes.len() != 259 {
        return find(tables, name);
    }
    let sought = hash(name);
    let mut i = next_place(notes, sought, 0);
    while i < 64 {
        if is_named_at(tables, notes[195 + i] as usize, name) {
            return Some(i);
        }
        i = next_place(notes, sought, i + 1);
    }
    None
}

// The same, by notes that tell the names of all tables.
pub fn find_named(tables: &[u8], notes: &[u64; 259], name: &[u8]) -> Option<usize>
    requires { NamesNoted tables.now notes.now }
    ensures { result ≡ place_named (tables_in tables.now) name.now }
{
    find_noted(tables, notes, name)
}

// Writes what is told of the tables over the front of the notes.
pub fn put_told(notes: &mut [u64; 259], told: &[u64; 131])
    requires { length notes.old ≡ 259 }
    ensures { Told notes.old told.now notes.new }
{
    let mut i = 0;
    while i < 131 {
        notes[i] = told[i];
        i += 1;
    }
}
