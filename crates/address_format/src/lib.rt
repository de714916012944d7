// Writing addresses into a lent output.
//   write_address(out, a)   == writes the text of a at the front of out, or refuses where out is too short
//   put_address(out, at, a) == writes the text of a from at on, where there is room
//   address_len(a)          == how many bytes that text has
//   put_unabbreviated(out, at, high, low) == writes the eight groups of an IPv6 address from at on, where there is room
//   is_abbreviated(high, low)             == whether the text of an IPv6 address differs from its eight groups
#![tactic(auto)]

ghost use Rattle.std.specs.Prelude.{◌≡◌, not, [], ◌∷◌, ◌++◌, ◌+◌, ◌*◌, ◌^◌, ◌≤◌, ◌<◌, length};
ghost use Rattle.text.specs.Text.{bytes, equal};
ghost use Rattle.text.specs.Number.{to_digits, digit_byte, numeral, decimal};
ghost use Rattle.text.specs.Scan.{put_at};
ghost use Rattle.section.specs.Refusal.{written_of, lent_after};
ghost use Rattle.address.specs.Address.{hex_groups, compress, text_v4, text_v6, addr_text, write_address};
ghost use Rattle.address_format.specs.WriteCode.{colon_groups, longer_zeros, longer_run, longest_run};

use address::Addr;
use section::{Fault, Refusal};

// A run of zeros among the groups of an IPv6 address.
#[derive(Clone, Copy)]
struct Run {
    place: usize,
    len: usize,
}

// Writes a hex digit.
fn put_digit(out: &mut [u8], at: usize, d: u16) -> usize
    requires { (at + 1 ≤ length out.old) × (d < 16) }
    ensures next { result ≡ at + 1 }
    ensures written { out.new ≡ put_at out.old at (digit_byte d ∷ []) }
{
    if d < 10 {
        out[at] = b'0' + d as u8;
        return at + 1;
    }
    out[at] = b'a' + (d - 10) as u8;
    at + 1
}

// Writes a number of at most two hex digits.
fn put_pair(out: &mut [u8], at: usize, n: u16) -> usize
    requires { (at + length (numeral 16 2 n) ≤ length out.old) × (n < 256) }
    ensures next { result ≡ at + length (numeral 16 2 n) }
    ensures written { out.new ≡ put_at out.old at (numeral 16 2 n) }
{
    if n < 16 {
        return put_digit(out, at, n);
    }
    let p = put_digit(out, at, n / 16);
    put_digit(out, p, n % 16)
}

// Writes a group in fewest hex digits.
fn put_group(out: &mut [u8], at: usize, g: u16) -> usize
    requires { at + length (numeral 16 4 g) ≤ length out.old }
    ensures next { result ≡ at + length (numeral 16 4 g) }
    ensures written { out.new ≡ put_at out.old at (numeral 16 4 g) }
{
    if g < 256 {
        return put_pair(out, at, g);
    }
    let p = put_pair(out, at, g / 256);
    let q = put_digit(out, p, g / 16 % 16);
    put_digit(out, q, g % 16)
}

// Writes a colon and a group.
fn put_next_group(out: &mut [u8], at: usize, g: u16) -> usize
    requires { at + length (bytes ":" ++ numeral 16 4 g) ≤ length out.old }
    ensures next { result ≡ at + length (bytes ":" ++ numeral 16 4 g) }
    ensures written { out.new ≡ put_at out.old at (bytes ":" ++ numeral 16 4 g) }
{
    out[at] = b':';
    put_group(out, at + 1, g)
}

// Writes groups, a colon before each.
fn put_colon_groups(out: &mut [u8], at: usize, gs: &[u16]) -> usize
    requires { at + length (colon_groups gs.now) ≤ length out.old }
    ensures next { result ≡ at + length (colon_groups gs.now) }
    ensures written { out.new ≡ put_at out.old at (colon_groups gs.now) }
{
    let mut p = at;
    for i in 0..gs.len() {
        p = put_next_group(out, p, gs[i]);
    }
    p
}

// Writes groups, a colon between each two.
fn put_groups(out: &mut [u8], at: usize, gs: &[u16]) -> usize
    requires { at + length (hex_groups gs.now) ≤ length out.old }
    ensures next { result ≡ at + length (hex_groups gs.now) }
    ensures written { out.new ≡ put_at out.old at (hex_groups gs.now) }
{
    if gs.len() == 0 {
        return at;
    }
    let p = put_group(out, at, gs[0]);
    put_colon_groups(out, p, &gs[1..])
}

// How many zeros stand in a row from a group on, where there are n after it.
fn longer_zeros(n: usize, g: u16) -> usize
    requires { n < 2 ^ 32 }
    ensures { result ≡ longer_zeros n g }
{
    if g == 0 { n + 1 } else { 0 }
}

// The longer of a run and an earlier one, the earlier of equals.
fn longer_run(r: Run, place: usize, len: usize) -> Run
    ensures { result ≡ longer_run r place len }
{
    let l = r.len;
    if l <= len {
        return Run { place, len };
    }
    r
}

// The first of the longest runs of zeros, found from the last group on.
fn longest_run(gs: &[u16]) -> Run
    requires { length gs.now ≡ 8 }
    ensures run { result ≡ longest_run gs.now }
    ensures within { result.place + result.len ≤ length gs.now }
{
    let mut zeros = 0;
    let mut best = Run {
        place: gs.len(),
        len: 0,
    };
    for i in (0..gs.len()).rev() {
        zeros = longer_zeros(zeros, gs[i]);
        best = longer_run(best, i, zeros);
    }
    best
}

// Writes the groups of an IPv6 address, `::` for the first of the longest runs of two or more zeros.
fn put_compressed(out: &mut [u8], at: usize, gs: &[u16]) -> usize
    requires { (at + length (compress 7 gs.now) ≤ length out.old) × (length gs.now ≡ 8) }
    ensures next { result ≡ at + length (compress 7 gs.now) }
    ensures written { out.new ≡ put_at out.old at (compress 7 gs.now) }
{
    let run = longest_run(gs);
    let start = run.place;
    let len = run.len;
    if len < 2 {
        return put_groups(out, at, gs);
    }
    let end = start + len;
    let p = put_groups(out, at, &gs[..start]);
    let q = text::put(out, p, b"::");
    put_groups(out, q, &gs[end..])
}

// The groups of an IPv6 address.
fn groups(high: u64, low: u64) -> [u16; 8]
    ensures { result ≡ to_digits 65536 8 (high * 2 ^ 64 + low) }
{
    [
        (high >> 48) as u16,
        ((high >> 32) % 65536) as u16,
        ((high >> 16) % 65536) as u16,
        (high % 65536) as u16,
        (low >> 48) as u16,
        ((low >> 32) % 65536) as u16,
        ((low >> 16) % 65536) as u16,
        (low % 65536) as u16,
    ]
}

fn put_v6(out: &mut [u8], at: usize, high: u64, low: u64) -> usize
    requires { at + length (text_v6 (high * 2 ^ 64 + low)) ≤ length out.old }
    ensures next { result ≡ at + length (text_v6 (high * 2 ^ 64 + low)) }
    ensures written { out.new ≡ put_at out.old at (text_v6 (high * 2 ^ 64 + low)) }
{
    let gs = groups(high, low);
    put_compressed(out, at, &gs)
}

// Writes the eight groups of an IPv6 address from at on, and answers the place after them.
pub fn put_unabbreviated(out: &mut [u8], at: usize, high: u64, low: u64) -> usize
    requires { at + length (hex_groups (to_digits 65536 8 (high * 2 ^ 64 + low))) ≤ length out.old }
    ensures next { result ≡ at + length (hex_groups (to_digits 65536 8 (high * 2 ^ 64 + low))) }
    ensures written { out.new ≡ put_at out.old at (hex_groups (to_digits 65536 8 (high * 2 ^ 64 + low))) }
{
    let eight = groups(high, low);
    put_groups(out, at, &eight)
}

// Whether the text of an IPv6 address differs from its eight groups: it does where it has `::`.
pub fn is_abbreviated(high: u64, low: u64) -> bool
    ensures { result ≡ not (equal (text_v6 (high * 2 ^ 64 + low)) (hex_groups (to_digits 65536 8 (high * 2 ^ 64 + low)))) }
{
    let each = groups(high, low);
    let longest = longest_run(&each);
    2 <= longest.len
}

// Writes a dot and a field.
fn put_next_field(out: &mut [u8], at: usize, n: u32) -> usize
    requires { at + length (bytes "." ++ decimal n) ≤ length out.old }
    ensures next { result ≡ at + length (bytes "." ++ decimal n) }
    ensures written { out.new ≡ put_at out.old at (bytes "." ++ decimal n) }
{
    out[at] = b'.';
    text::put_decimal(out, at + 1, n)
}

fn put_v4(out: &mut [u8], at: usize, n: u32) -> usize
    requires { at + length (text_v4 n) ≤ length out.old }
    ensures next { result ≡ at + length (text_v4 n) }
    ensures written { out.new ≡ put_at out.old at (text_v4 n) }
{
    let p = text::put_decimal(out, at, n >> 24);
    let q = put_next_field(out, p, (n >> 16) % 256);
    let s = put_next_field(out, q, (n >> 8) % 256);
    put_next_field(out, s, n % 256)
}

// Writes the text of an address from at on, and answers the place after it.
pub fn put_address(out: &mut [u8], at: usize, a: Addr) -> usize
    requires { at + length (addr_text a) ≤ length out.old }
    ensures next { result ≡ at + length (addr_text a) }
    ensures written { out.new ≡ put_at out.old at (addr_text a) }
{
    match a {
        Addr::Unknown => text::put(out, at, b"unknown"),
        Addr::V4(n) => put_v4(out, at, n),
        Addr::V6(high, low) => put_v6(out, at, high, low),
    }
}

// How many bytes the text of an address has.
pub fn address_len(a: Addr) -> usize
    ensures { result ≡ length (addr_text a) }
{
    let mut buffer = [0u8; 39];
    put_address(&mut buffer, 0, a)
}

// Writes the text of an address at the front of out; where it is longer than out, that is refused and out is as it was.
pub fn write_address(out: &mut [u8], a: Addr) -> Result<usize, Refusal>
    ensures answer { result ≡ written_of (write_address a (length out.old)) }
    ensures holds { out.new ≡ lent_after out.old (write_address a (length out.old)) }
{
    let mut buffer = [0u8; 39];
    let n = put_address(&mut buffer, 0, a);
    if out.len() < n {
        return Err(section::placeless(Fault::NoRoom));
    }
    let count = text::put(out, 0, &buffer[..n]);
    Ok(count)
}
