// The words of a table's text, parted by spaces, tabs and newlines, and the name in `/name`.
//   word_span(s), word(s, at), after_word(s, at) == the first word of s, and what follows it
//   names_table(w) == whether w is `/name`
ghost use Rattle.std.specs.Prelude.{◌≡◌, ◌≤◌, length, drop};
ghost use Rattle.text.specs.Basics.{is_some};
ghost use Rattle.text.specs.Scan.{span_len};
ghost use Rattle.text.specs.Text.{first_among};
ghost use Rattle.tables.specs.Table.{is_table_name, table_name};
ghost use Rattle.tables.specs.Code.{is_parting, is_word_byte, word_span, first_word, after_word};

use patterns::pattern::is_name;

// Where a word starts and ends; both are the text's length where there is none.
#[derive(Clone, Copy)]
pub struct WordSpan {
    pub start: usize,
    pub end: usize,
}

// Whether b parts words.
fn is_parting(b: u8) -> bool
    ensures { result ≡ is_parting b }
{
    (b == b' ') | ((b == b'\t') | (b == b'\n'))
}

// How many bytes at the front of s part words.
fn parting_length(s: &[u8]) -> usize
    ensures count { result ≡ span_len is_parting s.now }
    ensures within { result ≤ length s.now }
{
    let mut i = 0;
    while i < s.len() {
        if is_parting(s[i]) {
            i += 1;
        } else {
            return i;
        }
    }
    i
}

// How many bytes at the front of s belong to a word.
fn word_length(s: &[u8]) -> usize
    ensures count { result ≡ span_len is_word_byte s.now }
    ensures within { result ≤ length s.now }
{
    let mut i = 0;
    while i < s.len() {
        if is_parting(s[i]) {
            return i;
        }
        i += 1;
    }
    i
}

// The first word of s.
pub fn word_span(s: &[u8]) -> WordSpan
    ensures { result ≡ word_span s.now }
{
    let a = parting_length(s);
    let n = word_length(&s[a..]);
    WordSpan {
        start: a,
        end: a + n,
    }
}

// The first word of s, empty where there is none.
pub fn word(s: &[u8], at: WordSpan) -> &[u8]
    requires { at ≡ word_span s.now }
    ensures { result.now ≡ first_word s.now }
{
    let a = at.start;
    let e = at.end;
    &s[a..e]
}

// What follows the first word of s.
pub fn after_word(s: &[u8], at: WordSpan) -> &[u8]
    requires { at ≡ word_span s.now }
    ensures { result.now ≡ after_word s.now }
{
    let end = at.end;
    &s[end..]
}

// Whether n may be the name of a table.
pub fn is_table_name(n: &[u8]) -> bool
    ensures { result ≡ is_table_name n.now }
{
    if n.len() == 0 {
        return false;
    }
    if 64 < n.len() {
        return false;
    }
    is_name(n)
}

// Whether w begins with a slash.
pub fn has_slash(w: &[u8]) -> bool
    ensures { result ≡ first_among "/" w.now }
{
    if w.len() == 0 {
        return false;
    }
    w[0] == b'/'
}

// Whether w is `/name`.
pub fn names_table(w: &[u8]) -> bool
    ensures { result ≡ is_some (table_name w.now) }
{
    if has_slash(w) {
        is_table_name(&w[1..])
    } else {
        false
    }
}
