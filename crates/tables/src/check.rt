// The faults of the tables themselves: 15, a name given twice or missing, and 17, an unsound name or pattern.
//   check_tables(tables) == the number of the first table of each, 0 where there is none
//   check_names(tables, clean) == the same, where the texts may be known to be sound
ghost use Rattle.std.specs.Prelude.{◌≡◌};
ghost use Rattle.tables.specs.Table.{is_missing, is_bad_pattern};
ghost use Rattle.tables.specs.Code.{tables_in, word_missing, words, plain_bad, words_checked, text_checked, named_before, first_number, tables_checked, Starts};
ghost use Rattle.tables.specs.Code.{CleanWords, CleanTexts};

use super::entry::{after_count, after_entry, entry_name, entry_span, entry_text, table_count};
use super::start::{find_by, note_starts};
use super::word::{after_word, has_slash, is_table_name, word, word_span};
use address::Addr;
use patterns::pattern::host_read;
use patterns::{Host, Name};

// What is found of a table's patterns: one names a table that is missing, one is none.
#[derive(Clone, Copy)]
pub struct TextCheck {
    pub missing: bool,
    pub bad: bool,
}

// The number of the first table that is named like another before it or names one that is missing, and of the first that is unsound.
#[derive(Clone, Copy)]
pub struct TablesCheck {
    pub misnamed: usize,
    pub unsound: usize,
}

// Whether no table has that name.
fn is_missing(tables: &[u8], starts: &[usize; 512], name: &[u8]) -> bool
    requires { Starts tables.now starts.now }
    ensures { result ≡ is_missing (tables_in tables.now) name.now }
{
    match find_by(tables, starts, name) {
        None => true,
        Some(_) => false,
    }
}

// Whether w, no `/name`, is no pattern of a table.
fn is_bad(w: &[u8]) -> bool
    ensures { result ≡ plain_bad w.now }
{
    let nobody = Host {
        name: Name::Unknown,
        addr: Addr::Unknown,
    };
    let seen = host_read(w, false, nobody, &w[..0]);
    text::equal_fold(b"EXCEPT", w) | !seen.sound
}

// What is found of the pattern w.
fn check_word(tables: &[u8], starts: &[usize; 512], w: &[u8]) -> TextCheck
    requires { Starts tables.now starts.now }
    ensures { result ≡ text_checked (word_missing (tables_in tables.now) w.now) (is_bad_pattern w.now) }
{
    if has_slash(w) {
        let name = &w[1..];
        if is_table_name(name) {
            return TextCheck {
                missing: is_missing(tables, starts, name),
                bad: false,
            };
        }
        return TextCheck {
            missing: false,
            bad: true,
        };
    }
    TextCheck {
        missing: false,
        bad: is_bad(w),
    }
}

// What is found of the patterns of a text.
fn check_text(tables: &[u8], starts: &[usize; 512], text: &[u8]) -> TextCheck
    requires { Starts tables.now starts.now }
    ensures { result ≡ words_checked (tables_in tables.now) (words text.now) }
{
    let mut found = TextCheck {
        missing: false,
        bad: false,
    };
    let mut rest = text;
    loop {
        let at = word_span(rest);
        let w = word(rest, at);
        if w.len() == 0 {
            return found;
        }
        let seen = check_word(tables, starts, w);
        found = TextCheck {
            missing: found.missing | seen.missing,
            bad: found.bad | seen.bad,
        };
        let next = after_word(rest, at);
        rest = next;
    }
}

// The same of a text that may be known to be clean.
fn check_unless(tables: &[u8], starts: &[usize; 512], text: &[u8], clean: bool) -> TextCheck
    requires starts { Starts tables.now starts.now }
    requires clean_words { CleanWords clean (tables_in tables.now) (words text.now) }
    ensures { result ≡ words_checked (tables_in tables.now) (words text.now) }
{
    if clean {
        return TextCheck {
            missing: false,
            bad: false,
        };
    }
    check_text(tables, starts, text)
}

// Whether the first table of that name stands before the place i.
fn is_named_before(tables: &[u8], starts: &[usize; 512], name: &[u8], i: usize) -> bool
    requires { Starts tables.now starts.now }
    ensures { result ≡ named_before (tables_in tables.now) name.now i }
{
    match find_by(tables, starts, name) {
        None => false,
        Some(k) => k < i,
    }
}

// The first of two numbers of tables, 0 where there is none.
fn first_number(before: usize, holds: bool, number: usize) -> usize
    ensures { result ≡ first_number before holds number }
{
    if before == 0 {
        if holds {
            return number;
        }
    }
    before
}

// The first faulty tables, where it is known where to begin to look for a name; clean: whether every text is known to be.
fn check_each(tables: &[u8], starts: &[usize; 512], clean: bool) -> TablesCheck
    requires starts { Starts tables.now starts.now }
    requires clean_texts { CleanTexts clean (tables_in tables.now) }
    ensures { result ≡ tables_checked (tables_in tables.now) }
{
    let n = table_count(tables);
    let mut rest = after_count(tables);
    let mut i = 0;
    let mut misnamed = 0;
    let mut unsound = 0;
    while i < n {
        let span = entry_span(rest);
        if span.cut {
            return TablesCheck { misnamed, unsound };
        }
        let name = entry_name(rest, span);
        let text = check_unless(tables, starts, entry_text(rest, span), clean);
        let twice = is_named_before(tables, starts, name, i);
        misnamed = first_number(misnamed, twice | text.missing, i + 1);
        unsound = first_number(unsound, !is_table_name(name) | text.bad, i + 1);
        let next = after_entry(rest, span);
        rest = next;
        i += 1;
    }
    TablesCheck { misnamed, unsound }
}

// The first faulty tables; clean: whether every text is known to be, so that only names are left to judge.
pub fn check_names(tables: &[u8], clean: bool) -> TablesCheck
    requires { CleanTexts clean (tables_in tables.now) }
    ensures { result ≡ tables_checked (tables_in tables.now) }
{
    if table_count(tables) == 0 {
        return TablesCheck {
            misnamed: 0,
            unsound: 0,
        };
    }
    let mut begin = [0usize; 512];
    note_starts(tables, &mut begin);
    check_each(tables, &begin, clean)
}

// The first faulty tables.
pub fn check_tables(tables: &[u8]) -> TablesCheck
    ensures { result ≡ tables_checked (tables_in tables.now) }
{
    check_names(tables, false)
}
