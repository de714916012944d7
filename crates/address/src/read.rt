// Reading addresses: IPv4 text in one pass over its fields; the groups of IPv6 text are found by its colons, and each is read once.
//   read_v4(s)      == the number of the IPv4 address that s writes
//   read_v6(s)      == the two words of the IPv6 address that s writes
//   read_address(s) == the address that s writes, of either kind, or the refusal
ghost use Rattle.std.specs.Prelude.{◌≡◌, ◌+◌, ◌-◌, ◌*◌, ◌^◌, ◌<◌, ◌≤◌, ltb, length, take, drop};
ghost use Rattle.text.specs.Basics.{given};
ghost use Rattle.text.specs.Text.{bytes};
ghost use Rattle.address.specs.Address.{read_v4, read_v6, read_groups, read_compressed, read_address};
ghost use Rattle.address.specs.Code.{number_of, words_of, hex_value, group_value, first_group, groups_from, reads_last, read_tail};
ghost use Rattle.address.specs.Code.{side_parts, place_of, of_groups, as_v6};

use crate::Addr;
use crate::fields::{Run, ended_address, run_over};
use section::{Fault, Refusal};

// The group at the front of a text with colons: one that is none, the last one, or one with the place after its colon.
#[derive(Clone, Copy)]
enum Group {
    Nothing,
    Last,
    More(u32, usize),
}

// A number of 128 bits, as its two words.
#[derive(Clone, Copy)]
struct Words {
    high: u64,
    low: u64,
}

// The number of the IPv4 address that s writes: four fields, parted by dots.
pub fn read_v4(s: &[u8]) -> Option<u32>
    ensures { result ≡ read_v4 s.now }
{
    let run = run_over(s, 0);
    match run {
        Run::Failed => None,
        Run::At(j, n, k, v, begun) => {
            if j < s.len() {
                return None;
            }
            ended_address(n, k, v, begun)
        }
    }
}

// The value of a hex digit, 16 where b is none.
fn hex_digit(b: u8) -> u32
    ensures { result ≡ hex_value b }
{
    if text::is_digit(b) {
        return (b - b'0') as u32;
    }
    let l = text::lower(b);
    if l < b'a' {
        return 16;
    }
    if b'f' < l {
        return 16;
    }
    (l - 87) as u32
}

// The number of a group of one to four hex digits.
fn read_group(s: &[u8]) -> Option<u32>
    ensures { result ≡ group_value s.now }
{
    if s.len() == 0 {
        return None;
    }
    if 4 < s.len() {
        return None;
    }
    let mut n: u32 = 0;
    for &b in s {
        let d = hex_digit(b);
        if d == 16 {
            return None;
        }
        n = n * 16 + d;
    }
    Some(n)
}

// w with 16 bits more.
fn push_group(w: Words, g: u32) -> Words
    requires { (number_of w < 2 ^ 112) × (g < 2 ^ 16) }
    ensures { result ≡ words_of (number_of w * 2 ^ 16 + g) }
{
    Words {
        high: (w.high << 16) | (w.low >> 48),
        low: (w.low << 16) | (g as u64),
    }
}

// w with 32 bits more.
fn push_v4(w: Words, n: u32) -> Words
    requires { number_of w < 2 ^ 96 }
    ensures { result ≡ words_of (number_of w * 2 ^ 32 + n) }
{
    Words {
        high: (w.high << 32) | (w.low >> 32),
        low: (w.low << 32) | (n as u64),
    }
}

// The group at the front of s.
fn first_group(s: &[u8]) -> Group
    ensures { result ≡ first_group s.now }
{
    let i = text::index_of(s, b':');
    if i == s.len() {
        return Group::Last;
    }
    let v = read_group(&s[..i]);
    match v {
        None => Group::Nothing,
        Some(n) => Group::More(n, i + 1),
    }
}

// The groups so far, and IPv4 text as the last two.
fn last_v4(s: &[u8], count: u32, w: Words) -> Option<(u32, Words)>
    requires { (count < 8) × (number_of w < 65536 ^ count) }
    ensures { result ≡ groups_from count (number_of w) (read_tail s.now) }
{
    let n = read_v4(s)?;
    if count == 7 {
        None
    } else {
        Some((count + 2, push_v4(w, n)))
    }
}

// The groups so far, and the last one, or where tail holds IPv4 text as the last two.
fn last_group(s: &[u8], tail: bool, count: u32, w: Words) -> Option<(u32, Words)>
    requires { (count < 8) × (number_of w < 65536 ^ count) }
    ensures { result ≡ groups_from count (number_of w) (reads_last tail s.now) }
{
    let v = read_group(s);
    match v {
        None => { if tail { last_v4(s, count, w) } else { None } }
        Some(g) => Some((count + 1, push_group(w, g))),
    }
}

// The groups of s, parted by colons; where tail holds the last two may be IPv4 text.
fn read_groups(s: &[u8], tail: bool) -> Option<(u32, Words)>
    ensures { result ≡ groups_from 0 0 (read_groups (reads_last tail) (side_parts s.now)) }
{
    let mut w = Words { high: 0, low: 0 };
    if s.len() == 0 {
        return Some((0, w));
    }
    let mut at = 0;
    for count in 0..8 {
        let g = first_group(&s[at..]);
        match g {
            Group::Nothing => {
                return None;
            }
            Group::Last => {
                return last_group(&s[at..], tail, count, w);
            }
            Group::More(n, next) => {
                w = push_group(w, n);
                at += next;
            }
        }
    }
    None
}

// The first place of `::` in s, the length where there is none.
fn double_colon(s: &[u8]) -> usize
    ensures { result ≡ place_of (bytes "::") s.now }
{
    for i in 1..s.len() {
        if (s[i - 1] == b':') & (s[i] == b':') {
            return i - 1;
        }
    }
    s.len()
}

// w, of count groups, with zero groups after it up to eight.
fn pad(w: Words, count: u32) -> Words
    requires { (count ≤ 8) × (number_of w < 65536 ^ count) }
    ensures { result ≡ words_of (number_of w * 65536 ^ (8 - count)) }
{
    let mut n = w;
    for _ in count..8 {
        n = push_group(n, 0);
    }
    n
}

// The address of a groups on the left of `::` and b on its right.
fn join(left: Words, a: u32, right: Words, b: u32) -> Option<(u64, u64)>
    requires { (a ≤ 8) × ((number_of left < 65536 ^ a) × ((b ≤ 8) × (number_of right < 65536 ^ b))) }
    ensures { result ≡ as_v6 (given (ltb (a + b) 8) (number_of left * 65536 ^ (8 - a) + number_of right)) }
{
    if a + b < 8 {
        let w = pad(left, a);
        Some((w.high + right.high, w.low + right.low))
    } else {
        None
    }
}

// The address that s writes with `::` at the place i.
fn read_compressed(s: &[u8], i: usize) -> Option<(u64, u64)>
    requires { i + 2 ≤ length s.now }
    ensures { result ≡ as_v6 (of_groups (read_compressed (take i s.now, drop (i + 2) s.now))) }
{
    let left = read_groups(&s[..i], false);
    let j = i + 2;
    let right = read_groups(&s[j..], true);
    let (a, l) = left?;
    let (b, r) = right?;
    join(l, a, r, b)
}

// The two words of the IPv6 address that s writes: eight groups, parted by colons, or fewer about one `::`.
pub fn read_v6(s: &[u8]) -> Option<(u64, u64)>
    ensures { result ≡ as_v6 (read_v6 s.now) }
{
    let i = double_colon(s);
    if i < s.len() {
        return read_compressed(s, i);
    }
    let (count, w) = read_groups(s, true)?;
    if count == 8 {
        Some((w.high, w.low))
    } else {
        None
    }
}

// The address that s writes, of either kind.
pub fn read_address(s: &[u8]) -> Result<Addr, Refusal>
    ensures { result ≡ read_address s.now }
{
    let v = read_v4(s);
    match v {
        None => {
            let w = read_v6(s);
            match w {
                None => Err(section::placeless(Fault::BadRequest)),
                Some((high, low)) => Ok(Addr::V6(high, low)),
            }
        }
        Some(n) => Ok(Addr::V4(n)),
    }
}
