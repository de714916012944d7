// How the programs read a file and write what the gate answers.
#![tactic(auto)]

pub mod file;

use std::io;
use std::io::Print;

// The places of the words that are written; a decision's word is at its own number.
pub const NO_FILE: usize = 9;

pub const REFUSED: usize = 12;

pub const SECTION: usize = 13;

pub const LINE: usize = 14;

pub const SHEET_OK: usize = 15;

pub const COMMAND: usize = 16;

pub const BYTES: usize = 17;

pub const SAME: usize = 18;

pub const OTHERS: usize = 19;

pub const ALLOW_AT: usize = 20;

pub const DENY_AT: usize = 21;

pub const BYUID_AT: usize = 22;

pub const PORTACL_AT: usize = 23;

pub const TABLES_AT: usize = 24;

pub const COMMA: usize = 25;

pub const ARROW: usize = 26;

pub const TOUCHED: usize = 27;

pub const MALFORMED: usize = 28;

pub const LOOKED: usize = 29;

pub fn text(to: &impl Print, s: &[u8]) -> io::Result<()> {
    to.write_all(s)
}

pub fn number(to: &impl Print, n: u64) -> io::Result<()> {
    to.print(n)
}

pub fn end_line(to: &impl Print) -> io::Result<()> {
    text(to, b"\n")
}

// Where the text after the one at a place starts.
fn after_bar(s: &[u8], at: usize) -> usize {
    if s.len() < at {
        return at;
    }
    let n = text::index_of(&s[at..], b'|');
    at + n + 1
}

fn before_bar(s: &[u8], at: usize) -> &[u8] {
    if s.len() < at {
        return &s[..0];
    }
    let left = &s[at..];
    let a = 0;
    let n = text::index_of(left, b'|');
    &left[a..n]
}

// The text at a place among those that are parted by bars.
fn nth(texts: &[u8], place: usize) -> &[u8] {
    let mut at = 0;
    for _ in 0..place {
        at = after_bar(texts, at);
    }
    before_bar(texts, at)
}

// Writes the word at a place. Each costs no more than its number where it is written, as they stand in one text.
pub fn word(to: &impl Print, place: usize) -> io::Result<()> {
    let texts =
        b"|granted|denied|ask|no line|not ruled|exempt|test|read|, no file|, allow line |, deny line |refused | section | line |sheet ok|\
          , command:| bytes|, the same|, others|allow at |deny at |byuid at |portacl at |tables at |, | -> |touched: |malformed: |, looked at ";
    text(to, nth(texts, place))
}

// Writes a refusal as a line, where there is one, and answers whether there is.
pub fn refused(to: &impl Print, n: u32, section: u32, line: u64) -> io::Result<bool> {
    if n == 0 {
        return Ok(false);
    }
    word(to, REFUSED)?;
    number(to, n as u64)?;
    word(to, SECTION)?;
    number(to, section as u64)?;
    word(to, LINE)?;
    number(to, line)?;
    end_line(to)?;
    Ok(true)
}
