// The notes of tables one depth after the other, with the remaining depth falling.
//   raised(tables, named, names, first, depth) == notes so deep, made from those that the texts by themselves tell
// A table that does not lead on keeps what is told of it. Of the others the texts are gone over in order, no further than to the first pattern
// of their own that matches: a pattern that names a table counts one and what is tried there, and ends the count where that table matches.
ghost use Rattle.std.specs.Prelude.{◌≡◌, ◌&&◌, ◌+◌, ◌≤◌, ◌<◌, eqb, length, get_or};
ghost use Rattle.tables.specs.Code.{tables_in, words};
ghost use Rattle.tables.specs.Tried.{capped};
ghost use Rattle.views.specs.Names.{NamesNoted};
ghost use Rattle.views.specs.View.{NamesOf};
ghost use Rattle.views.specs.Level.{word_place, marked_by, counted_by, tallied, text_tried, counts, tried_above, AllAbove, Lifted, Risen};

use super::names::find_named;
use super::{counted_at, has_bit, is_marked, step};
use tables::entry::{after_count, after_entry, entry_span, entry_text, table_count};
use tables::word::{after_word, names_table, word, word_span};

// How many words of a text are left to try for a host, and what was tried.
#[derive(Clone, Copy)]
pub struct Tally {
    pub left: u64,
    pub tried: u64,
}

// What is tried for the client and for the server.
#[derive(Clone, Copy)]
pub struct Counts {
    pub client: u64,
    pub server: u64,
}

// The sum of two counts, or the largest where it is more.
fn add(a: u64, b: u64) -> u64
    ensures { result ≡ capped (a + b) }
{
    if 18446744073709551615 - a < b {
        return 18446744073709551615;
    }
    a + b
}

// The place of the table that the pattern w names.
fn word_place(tables: &[u8], named: &[u64; 259], w: &[u8]) -> Option<usize>
    requires { NamesNoted tables.now named.now }
    ensures { result ≡ word_place (tables_in tables.now) w.now }
{
    if names_table(w) {
        return find_named(tables, named, &w[1..]);
    }
    None
}

// A tally after one more word; matches, tried: what is told of the table that it names.
fn tally_word(t: Tally, matches: bool, tried: u64) -> Tally
    ensures { result ≡ tallied matches tried t }
{
    if t.left == 0 {
        return t;
    }
    let sum = add(t.tried, add(1, tried));
    if matches {
        return Tally {
            left: 0,
            tried: sum,
        };
    }
    Tally {
        left: t.left - 1,
        tried: sum,
    }
}

// The same, of the table at that place, by the notes.
fn tally_place(t: Tally, notes: &[u64; 131], k: usize, place: Option<usize>) -> Tally
    ensures { result ≡ tallied (marked_by k notes.now place) (counted_by k notes.now place) t }
{
    match place {
        None => tally_word(t, false, 0),
        Some(i) => tally_word(t, is_marked(notes, k, i), counted_at(notes, k, i)),
    }
}

// Whether neither host has a word left.
fn are_done(client: Tally, server: Tally) -> bool
    ensures { result ≡ (eqb client.left 0 && eqb server.left 0) }
{
    (client.left == 0) & (server.left == 0)
}

// What is tried of a text, by notes of the tables that it names; client, server: how many of its words at most.
fn text_tried(
    tables: &[u8],
    named: &[u64; 259],
    text: &[u8],
    notes: &[u64; 131],
    client: u64,
    server: u64,
) -> Counts
    requires { NamesNoted tables.now named.now }
    ensures { result
        ≡ counts (text_tried 0 (tables_in tables.now) notes.now client (words text.now))
        (text_tried 1 (tables_in tables.now) notes.now server (words text.now)) }
{
    let mut c = Tally {
        left: client,
        tried: 0,
    };
    let mut s = Tally {
        left: server,
        tried: 0,
    };
    let mut rest = text;
    loop {
        let at = word_span(rest);
        let w = word(rest, at);
        if w.len() == 0 {
            return Counts {
                client: c.tried,
                server: s.tried,
            };
        }
        if are_done(c, s) {
            return Counts {
                client: c.tried,
                server: s.tried,
            };
        }
        let place = word_place(tables, named, w);
        let c_next = tally_place(c, notes, 0, place);
        let s_next = tally_place(s, notes, 1, place);
        c = c_next;
        s = s_next;
        let next = after_word(rest, at);
        rest = next;
    }
}

// What is tried in the table at the place i, one deeper than the notes below tell.
fn tried_above(
    tables: &[u8],
    named: &[u64; 259],
    text: &[u8],
    first: &[u64; 131],
    below: &[u64; 131],
    i: usize,
) -> Counts
    requires i_bound { i < 64 }
    requires names_noted { NamesNoted tables.now named.now }
    ensures { result
        ≡ counts (tried_above 0 (tables_in tables.now) first.now below.now i text.now)
        (tried_above 1 (tables_in tables.now) first.now below.now i text.now) }
{
    if has_bit(below[2], i) {
        return text_tried(tables, named, text, below, first[3 + i], first[67 + i]);
    }
    Counts {
        client: below[3 + i],
        server: below[67 + i],
    }
}

// The counts of all tables, one deeper than the notes below tell.
fn all_above(
    tables: &[u8],
    named: &[u64; 259],
    first: &[u64; 131],
    below: &[u64; 131],
) -> [u64; 131]
    requires tables_len_bound { length (tables_in tables.now) ≤ 64 }
    requires names_noted { NamesNoted tables.now named.now }
    ensures { AllAbove (tables_in tables.now) first.now below.now result }
{
    let n = table_count(tables);
    let mut rest = after_count(tables);
    let mut notes = [0u64; 131];
    let mut i = 0;
    while i < n {
        let span = entry_span(rest);
        if span.cut {
            return notes;
        }
        let tried = tried_above(tables, named, entry_text(rest, span), first, below, i);
        notes[3 + i] = tried.client;
        notes[67 + i] = tried.server;
        let next = after_entry(rest, span);
        rest = next;
        i += 1;
    }
    notes
}

// Notes one deeper than those below.
fn lifted(
    tables: &[u8],
    named: &[u64; 259],
    names: &[u64; 64],
    first: &[u64; 131],
    below: &[u64; 131],
) -> [u64; 131]
    requires tables_len_bound { length (tables_in tables.now) ≤ 64 }
    requires names_noted { NamesNoted tables.now named.now }
    requires names_of { NamesOf (tables_in tables.now) names.now }
    ensures { Lifted (tables_in tables.now) first.now below.now result }
{
    let mut notes = all_above(tables, named, first, below);
    notes[0] = step(names, first[0], below[0]);
    notes[1] = step(names, first[1], below[1]);
    notes[2] = step(names, 0, below[2]);
    notes
}

// Notes where the tables that tables name may be entered depth deep. Where none leads on, they are those of one less deep.
pub fn raised(
    tables: &[u8],
    named: &[u64; 259],
    names: &[u64; 64],
    first: &[u64; 131],
    depth: u32,
) -> [u64; 131]
    requires tables_len_bound { length (tables_in tables.now) ≤ 64 }
    requires names_noted { NamesNoted tables.now named.now }
    requires names_of { NamesOf (tables_in tables.now) names.now }
    ensures { Risen (tables_in tables.now) first.now depth result }
{
    if depth == 0 {
        return *first;
    }
    let below = raised(tables, named, names, first, depth - 1);
    if below[2] == 0 {
        return below;
    }
    lifted(tables, named, names, first, &below)
}
