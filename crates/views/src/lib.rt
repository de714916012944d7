// What the tables are to one request: which match its hosts, and which lead too deep.
//   view(tables, client, .., server, ..) == which of at most 64 tables match, which lead too deep, and what is tried in each
//   deep_notes(tables, depth)            == notes that tell of any number of tables which lead more than depth deep
//   look_up(tables, notes, k, name)      == what the notes say of a named table
// The patterns of each text are matched once: what it names becomes a word with a bit for each table, and a table is then matched by the words
// of the tables that it names, with the remaining depth falling. Only the texts of tables that lead on are gone over again, to count.
#![tactic(auto)]

ghost use Rattle.std.specs.Prelude.{◌≡◌, ◌&&◌, ◌||◌, [], ◌∷◌, ◌+◌, ◌≤◌, ◌<◌, eqb, length, get_or};
ghost use Rattle.patterns.specs.Host.{endpoint};
ghost use Rattle.tables.specs.Code.{tables_in, words};
ghost use Rattle.text.specs.Basics.{when◌then◌else◌};
ghost use Rattle.views.specs.View.{bit_at, any_below, Marks, is_named, word_names, RowOf, RowsOf, joined_row};
ghost use Rattle.views.specs.View.{is_deep, name_leads, word_leads, text_leads, Above, Deep};
ghost use Rattle.views.specs.Names.{NamesNoted};
ghost use Rattle.views.specs.Level.{ViewedBy};
ghost use Rattle.views.specs.View.{naming_at, marked_at, counted_at, reference_of};

use names::{find_named, find_noted, note_names, put_told};
use patterns::Host;
use patterns::pattern::host_read;
use tables::entry::{after_count, after_entry, entry_span, entry_text, find, table_count};
use tables::word::{after_word, has_slash, names_table, word, word_span};
use text::equal_fold;

pub mod level;
pub mod names;

// Whether a table may be named: it is there and leads no more than four deep.
#[derive(Clone, Copy)]
pub enum NamingFault {
    Missing,
    Deep,
}

// What is found of a named table.
#[derive(Clone, Copy)]
pub struct Reference {
    pub naming: Result<(), NamingFault>,
    pub matches: bool,
    pub tried: u64,
}

// What one text gives: the tables that it names, whether a pattern of its own matches the client, the server, how many patterns stand up to
// the first that does, and whether all are known to be sound.
#[derive(Clone, Copy)]
pub struct Row {
    pub names: u64,
    pub client: bool,
    pub server: bool,
    pub client_tried: u64,
    pub server_tried: u64,
    pub clean: bool,
}

// The rows of all tables: what each names, the rest as notes, and whether all patterns are known to be sound.
#[derive(Clone, Copy)]
pub struct Rows {
    pub names: [u64; 64],
    pub notes: [u64; 131],
    pub clean: bool,
}

// Notes on the tables, and whether all their patterns are known to be sound.
#[derive(Clone, Copy)]
pub struct Viewing {
    pub notes: [u64; 259],
    pub clean: bool,
}

// The word whose only bit is at i; no bit where i is no place in a word.
fn bit(i: usize) -> u64
    ensures { Marks result 64 (λ k. eqb k i) }
{
    if 64 <= i {
        return 0;
    }
    1u64 << i
}

// m, with its bit i set where on says so.
fn mark(m: u64, i: usize, on: bool) -> u64
    ensures { Marks result 64 (λ k. bit_at k m || on && eqb k i) }
{
    if on {
        return m | bit(i);
    }
    m
}

// Whether bit i of m is set.
pub fn has_bit(m: u64, i: usize) -> bool
    requires { i < 64 }
    ensures { result ≡ bit_at i m }
{
    (m >> i) & 1 == 1
}

// The bit of the table of that name, if there is one.
fn named_bit(tables: &[u8], named: &[u64; 259], name: &[u8]) -> u64
    requires { NamesNoted tables.now named.now }
    ensures { Marks result 64 (is_named (tables_in tables.now) name.now) }
{
    match find_named(tables, named, name) {
        None => 0,
        Some(i) => bit(i),
    }
}

// The bit of the table that the pattern w names, if it names one.
fn word_bit(tables: &[u8], named: &[u64; 259], w: &[u8]) -> u64
    requires { NamesNoted tables.now named.now }
    ensures { Marks result 64 (word_names (tables_in tables.now) w.now) }
{
    if names_table(w) {
        return named_bit(tables, named, &w[1..]);
    }
    0
}

// What the pattern w gives.
fn word_row(
    tables: &[u8],
    named: &[u64; 259],
    w: &[u8],
    client: Host,
    client_name: &[u8],
    server: Host,
    server_name: &[u8],
) -> Row
    requires { NamesNoted tables.now named.now }
    ensures { RowOf (tables_in tables.now) (endpoint client client_name.now) (endpoint server server_name.now)
        (w.now ∷ []) result }
{
    if has_slash(w) {
        let named = word_bit(tables, named, w);
        return Row {
            names: named,
            client: false,
            server: false,
            client_tried: 1,
            server_tried: 1,
            clean: named != 0,
        };
    }
    let c = host_read(w, true, client, client_name);
    let s = host_read(w, true, server, server_name);
    Row {
        names: 0,
        client: c.matches,
        server: s.matches,
        client_tried: 1,
        server_tried: 1,
        clean: c.sound & !equal_fold(b"EXCEPT", w),
    }
}

// A count, one more unless it has ended.
fn count_on(count: u64, ended: bool) -> u64
    requires { count < 18446744073709551615 }
    ensures { result ≡ count + (when ended then 0 else 1) }
{
    if ended {
        return count;
    }
    count + 1
}

// What the words of a row and one more give.
fn join_rows(row: Row, seen: Row) -> Row
    requires client_tried_bound { row.client_tried < 18446744073709551615 }
    requires server_tried_bound { row.server_tried < 18446744073709551615 }
    ensures { result ≡ joined_row row seen }
{
    Row {
        names: row.names | seen.names,
        client: row.client | seen.client,
        server: row.server | seen.server,
        client_tried: count_on(row.client_tried, row.client),
        server_tried: count_on(row.server_tried, row.server),
        clean: row.clean & seen.clean,
    }
}

// What a text gives.
fn text_row(
    tables: &[u8],
    named: &[u64; 259],
    text: &[u8],
    client: Host,
    client_name: &[u8],
    server: Host,
    server_name: &[u8],
) -> Row
    requires { NamesNoted tables.now named.now }
    ensures { RowOf (tables_in tables.now) (endpoint client client_name.now) (endpoint server server_name.now)
        (words text.now) result }
{
    let mut row = Row {
        names: 0,
        client: false,
        server: false,
        client_tried: 0,
        server_tried: 0,
        clean: true,
    };
    let mut rest = text;
    loop {
        let at = word_span(rest);
        let w = word(rest, at);
        if w.len() == 0 {
            return row;
        }
        let seen = word_row(tables, named, w, client, client_name, server, server_name);
        let joined = join_rows(row, seen);
        row = joined;
        let next = after_word(rest, at);
        rest = next;
    }
}

// What every text gives.
fn all_rows(
    tables: &[u8],
    named: &[u64; 259],
    client: Host,
    client_name: &[u8],
    server: Host,
    server_name: &[u8],
) -> Rows
    requires tables_len_bound { length (tables_in tables.now) ≤ 64 }
    requires names_noted { NamesNoted tables.now named.now }
    ensures { RowsOf (tables_in tables.now) (endpoint client client_name.now) (endpoint server server_name.now) result }
{
    let n = table_count(tables);
    let mut rest = after_count(tables);
    let mut rows = Rows {
        names: [0u64; 64],
        notes: [0u64; 131],
        clean: true,
    };
    let mut i = 0;
    while i < n {
        let span = entry_span(rest);
        if span.cut {
            return rows;
        }
        let row = text_row(
            tables,
            named,
            entry_text(rest, span),
            client,
            client_name,
            server,
            server_name,
        );
        let client_bits = mark(rows.notes[0], i, row.client);
        let server_bits = mark(rows.notes[1], i, row.server);
        rows.names[i] = row.names;
        rows.notes[0] = client_bits;
        rows.notes[1] = server_bits;
        rows.notes[3 + i] = row.client_tried;
        rows.notes[67 + i] = row.server_tried;
        let clean = rows.clean & row.clean;
        rows.clean = clean;
        let next = after_entry(rest, span);
        rest = next;
        i += 1;
    }
    rows
}

// What own marks, and every table that names one of those below.
pub fn step(names: &[u64; 64], own: u64, below: u64) -> u64
    ensures { Marks result 64 (λ i. bit_at i own || any_below (λ j. bit_at j (get_or names.now i 0) && bit_at j below) 64) }
{
    let mut made = own;
    let mut i = 0;
    while i < 64 {
        made = mark(made, i, names[i] & below != 0);
        i += 1;
    }
    made
}

// Notes on at most 64 tables for the hosts of a request: which match, which lead more than four deep, and what is tried in each. The pass over
// the texts tells too whether they are sound, as most are, so that they need not be gone over once more for that.
pub fn view(
    tables: &[u8],
    client: Host,
    client_name: &[u8],
    server: Host,
    server_name: &[u8],
) -> Viewing
    requires { length (tables_in tables.now) ≤ 64 }
    ensures { ViewedBy tables.now (endpoint client client_name.now) (endpoint server server_name.now) result }
{
    let mut notes = [0u64; 259];
    note_names(tables, &mut notes);
    let rows = all_rows(tables, &notes, client, client_name, server, server_name);
    let names = rows.names;
    let mut first = rows.notes;
    first[2] = step(&names, 0, 18446744073709551615);
    let told = level::raised(tables, &notes, &names, &first, 3);
    put_told(&mut notes, &told);
    Viewing {
        notes,
        clean: rows.clean,
    }
}

// Whether the table at the place i is marked in the notes as too deep.
fn is_deep(notes: &[u64], i: usize) -> bool
    ensures { result ≡ is_deep notes.now i }
{
    let k = i / 64 + 2;
    if notes.len() <= k {
        return false;
    }
    has_bit(notes[k], i % 64)
}

// Whether the table at the place i may be named.
fn naming_at(notes: &[u64], i: usize) -> Result<(), NamingFault>
    ensures { result ≡ naming_at notes.now i }
{
    if is_deep(notes, i) {
        return Err(NamingFault::Deep);
    }
    Ok(())
}

// Whether the word k of the notes marks the table at the place i.
pub fn is_marked(notes: &[u64], k: usize, i: usize) -> bool
    ensures { result ≡ marked_at k notes.now i }
{
    if 64 <= i {
        return false;
    }
    if notes.len() <= k {
        return false;
    }
    has_bit(notes[k], i)
}

// How many patterns the notes say are tried in the table at the place i.
pub fn counted_at(notes: &[u64], k: usize, i: usize) -> u64
    ensures { result ≡ counted_at k notes.now i }
{
    if 64 <= i {
        return 0;
    }
    if notes.len() / 64 < k {
        return 0;
    }
    let at = 3 + 64 * k + i;
    if notes.len() <= at {
        return 0;
    }
    notes[at]
}

// What the notes say of the table of that name; k: 0 for the client, 1 for the server.
pub fn look_up(tables: &[u8], notes: &[u64], k: usize, name: &[u8]) -> Reference
    ensures { result ≡ reference_of k tables.now notes.now name.now }
{
    if notes.len() == 0 {
        return Reference {
            naming: Ok(()),
            matches: false,
            tried: 0,
        };
    }
    match find_noted(tables, notes, name) {
        None => Reference {
            naming: Err(NamingFault::Missing),
            matches: false,
            tried: 0,
        },
        Some(i) => Reference {
            naming: naming_at(notes, i),
            matches: is_marked(notes, k, i),
            tried: counted_at(notes, k, i),
        },
    }
}

// Whether the name is of a table that the notes mark as too deep.
fn name_leads(tables: &[u8], name: &[u8], below: &[u64]) -> bool
    ensures { result ≡ name_leads (tables_in tables.now) (is_deep below.now) name.now }
{
    match find(tables, name) {
        None => false,
        Some(i) => is_deep(below, i),
    }
}

// Whether the pattern w names such a table.
fn word_leads(tables: &[u8], w: &[u8], below: &[u64]) -> bool
    ensures { result ≡ word_leads (tables_in tables.now) (is_deep below.now) w.now }
{
    if names_table(w) {
        return name_leads(tables, &w[1..], below);
    }
    false
}

// Whether a pattern of the text does.
fn leads(tables: &[u8], text: &[u8], below: &[u64]) -> bool
    ensures { result ≡ text_leads (tables_in tables.now) (is_deep below.now) text.now }
{
    let mut rest = text;
    loop {
        let at = word_span(rest);
        let w = word(rest, at);
        if w.len() == 0 {
            return false;
        }
        if word_leads(tables, w, below) {
            return true;
        }
        let next = after_word(rest, at);
        rest = next;
    }
}

// Notes of the tables that name one that the notes below mark.
fn notes_above(tables: &[u8], below: &[u64; 1026]) -> [u64; 1026]
    ensures { Above (tables_in tables.now) (is_deep below.now) (is_deep result) }
{
    let n = table_count(tables);
    let mut rest = after_count(tables);
    let mut notes = [0u64; 1026];
    let mut i = 0;
    while i < n {
        let span = entry_span(rest);
        if span.cut {
            return notes;
        }
        let k = i / 64 + 2;
        notes[k] = mark(
            notes[k],
            i % 64,
            leads(tables, entry_text(rest, span), below),
        );
        let next = after_entry(rest, span);
        rest = next;
        i += 1;
    }
    notes
}

// Notes that mark every table that leads more than depth deep: those of one more depth come from those of one less.
pub fn deep_notes(tables: &[u8], depth: u32) -> [u64; 1026]
    ensures { Deep (tables_in tables.now) depth result }
{
    let mut notes = [18446744073709551615u64; 1026];
    let mut deep = 0;
    while deep < depth {
        notes = notes_above(tables, &notes);
        deep += 1;
    }
    notes
}
