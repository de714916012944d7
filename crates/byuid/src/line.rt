// One line of a byuid file. An IPv6 address is held as its two words, the high one first.
//   look(l, addr, port) == the line l is of the retired form, or else whether it grants the port at the address
//   is_retired(l)       == the line l is one that the form addr4/len:pmin,pmax used to accept
ghost use Rattle.std.specs.Prelude.{◌≡◌, ◌+◌, ◌*◌, ◌^◌, leb};
ghost use Rattle.text.specs.Basics.{◌or_else◌, holds};
ghost use Rattle.address.specs.Address.{read_v4, read_v6};
ghost use Rattle.byuid.specs.Byuid.{read_range, read_net, read_port, read_comma_form, is_retired};
ghost use Rattle.byuid.specs.Code.{inside, inside_both, membership, both_of, between_of, ends_of, net_from, ports_of, in_order};
ghost use Rattle.byuid.specs.Code.{front_v4, form_of, range_from, held_v6, held_of, look_of};

use address::Addr;
use address::fields::{Run, ended_address, run_over};
use address::prefix::{clear_beyond_v4, clear_beyond_v6, same_prefix_v4, same_prefix_v6};
use address::read::{read_v4, read_v6};

// Whether a is at most b.
fn at_most(a_high: u64, a_low: u64, b_high: u64, b_low: u64) -> bool
    ensures { result ≡ leb (a_high * 2 ^ 64 + a_low) (b_high * 2 ^ 64 + b_low) }
{
    if a_high == b_high {
        return a_low <= b_low;
    }
    a_high < b_high
}

// Whether a number is between two that were read, both included.
fn between(min: Option<(u64, u64)>, max: Option<(u64, u64)>, high: u64, low: u64) -> Option<bool>
    ensures { result ≡ between_of min max (high * 2 ^ 64 + low) }
{
    let (a, b) = min?;
    let (c, d) = max?;
    Some(at_most(a, b, high, low) & at_most(high, low, c, d))
}

// Whether the range of IPv6 addresses from x to y holds one.
fn ends_hold_v6(x: &[u8], y: &[u8], high: u64, low: u64) -> Option<bool>
    ensures { result ≡ membership (inside (high * 2 ^ 64 + low)) (ends_of read_v6 x.now y.now) }
{
    let min = read_v6(x);
    let max = read_v6(y);
    between(min, max, high, low)
}

// Whether the range min[-max] of IPv6 addresses in s holds one.
fn range_holds_v6(s: &[u8], high: u64, low: u64) -> Option<bool>
    ensures { result ≡ membership (inside (high * 2 ^ 64 + low)) (read_range read_v6 s.now) }
{
    let i = text::index_of(s, b'-');
    if i < s.len() {
        return ends_hold_v6(&s[..i], &s[i + 1..], high, low);
    }
    let n = read_v6(s);
    between(n, n, high, low)
}

// Whether the range of ports from x to y holds one.
fn port_ends_hold(x: &[u8], y: &[u8], port: u16) -> Option<bool>
    ensures { result ≡ membership (inside port) (ends_of read_port x.now y.now) }
{
    let p = port as u32;
    let min = text::read_decimal(x, 65535)?;
    let max = text::read_decimal(y, 65535)?;
    Some((min <= p) & (p <= max))
}

// Whether the ports pmin[-pmax] in s hold one.
fn ports_hold(s: &[u8], port: u16) -> Option<bool>
    ensures { result ≡ membership (inside port) (read_range read_port s.now) }
{
    let hyphen = text::index_of(s, b'-');
    if hyphen < s.len() {
        return port_ends_hold(&s[..hyphen], &s[hyphen + 1..], port);
    }
    let n = text::read_decimal(s, 65535)?;
    Some(n == port as u32)
}

// Whether the net of an IPv4 address, with its length in t, holds one.
fn len_holds_v4(t: &[u8], net: u32, addr: u32) -> Option<bool>
    ensures { result ≡ membership (inside addr) (net_from 32 net t.now) }
{
    let n = text::read_decimal(t, 32)?;
    if clear_beyond_v4(net, n) {
        Some(same_prefix_v4(net, addr, n))
    } else {
        None
    }
}

// Whether the net of an IPv6 address, with its length in t, holds one.
fn len_holds_v6(t: &[u8], net_high: u64, net_low: u64, high: u64, low: u64) -> Option<bool>
    ensures { result ≡ membership (inside (high * 2 ^ 64 + low)) (net_from 128 (net_high * 2 ^ 64 + net_low) t.now) }
{
    let n = text::read_decimal(t, 128)?;
    if clear_beyond_v6(net_high, net_low, n) {
        Some(same_prefix_v6(net_high, net_low, high, low, n))
    } else {
        None
    }
}

// Whether the net addr/len in s holds an IPv4 address.
fn net_holds_v4(s: &[u8], addr: u32) -> Option<bool>
    ensures { result ≡ membership (inside addr) (read_net 32 read_v4 s.now) }
{
    let i = text::index_of(s, b'/');
    if i < s.len() {
        let v = read_v4(&s[..i]);
        match v {
            None => None,
            Some(n) => len_holds_v4(&s[i + 1..], n, addr),
        }
    } else {
        None
    }
}

// Whether the addresses before a comma hold an IPv6 address: a net where there is a slash, else a range.
fn addresses_hold_v6(s: &[u8], high: u64, low: u64) -> Option<bool>
    ensures { result ≡ membership (inside (high * 2 ^ 64 + low)) (read_range read_v6 s.now or_else read_net 128 read_v6 s.now) }
{
    let i = text::index_of(s, b'/');
    if i < s.len() {
        let v = read_v6(&s[..i]);
        match v {
            None => None,
            Some((a, b)) => len_holds_v6(&s[i + 1..], a, b, high, low),
        }
    } else {
        range_holds_v6(s, high, low)
    }
}

// Whether two parts of a line both hold the request.
fn both(a: Option<bool>, b: Option<bool>) -> Option<bool>
    ensures { result ≡ both_of a b }
{
    let x = a?;
    let y = b?;
    Some(x & y)
}

// The IPv4 address that the digits and dots at the front of s write, and the place after them.
fn front_v4(s: &[u8]) -> Option<(u32, usize)>
    ensures { result ≡ front_v4 s.now }
{
    let run = run_over(s, 0);
    match run {
        Run::Failed => None,
        Run::At(j, n, k, v, begun) => {
            let m = ended_address(n, k, v, begun)?;
            Some((m, j))
        }
    }
}

// Whether the net of an IPv4 address, with len,pmin[-pmax] in t, holds the request.
fn net_form_v4(t: &[u8], net: u32, addr: u32, port: u16) -> Option<bool>
    ensures { result ≡ membership (inside_both addr port) (form_of (net_from 32 net) t.now) }
{
    let i = text::index_of(t, b',');
    if i < t.len() {
        let a = len_holds_v4(&t[..i], net, addr);
        let p = ports_hold(&t[i + 1..], port);
        both(a, p)
    } else {
        None
    }
}

// Whether the range from an IPv4 address on, with max,pmin[-pmax] in t, holds the request.
fn range_form_v4(t: &[u8], min: u32, addr: u32, port: u16) -> Option<bool>
    ensures { result ≡ membership (inside_both addr port) (form_of (range_from read_v4 min) t.now) }
{
    let (max, i) = front_v4(t)?;
    if t.len() <= i {
        return None;
    }
    if t[i] == b',' {
        let p = ports_hold(&t[i + 1..], port);
        both(Some((min <= addr) & (addr <= max)), p)
    } else {
        None
    }
}

// Whether a line min[-max],pmin[-pmax] or addr[/len],pmin[-pmax] holds the request, at an IPv4 address: the byte after the first address
// tells which.
fn comma_form_v4(l: &[u8], addr: u32, port: u16) -> Option<bool>
    ensures { result ≡ membership (inside_both addr port) (read_comma_form 32 read_v4 l.now) }
{
    let (a, i) = front_v4(l)?;
    if l.len() <= i {
        return None;
    }
    let mark = l[i];
    if mark == b'/' {
        return net_form_v4(&l[i + 1..], a, addr, port);
    }
    if mark == b'-' {
        return range_form_v4(&l[i + 1..], a, addr, port);
    }
    if mark == b',' {
        let p = ports_hold(&l[i + 1..], port);
        both(Some(a == addr), p)
    } else {
        None
    }
}

// Whether a line of such a form holds the request, at an IPv6 address.
fn comma_form_v6(l: &[u8], high: u64, low: u64, port: u16) -> Option<bool>
    ensures { result ≡ membership (inside_both (high * 2 ^ 64 + low) port) (read_comma_form 128 read_v6 l.now) }
{
    let i = text::index_of(l, b',');
    if i < l.len() {
        let a = addresses_hold_v6(&l[..i], high, low);
        let p = ports_hold(&l[i + 1..], port);
        both(a, p)
    } else {
        None
    }
}

// Whether s writes ports pmin,pmax, the min not over the max.
fn ports_rise(s: &[u8]) -> bool
    ensures { result ≡ holds in_order (ports_of s.now) }
{
    let i = text::index_of(s, b',');
    if i < s.len() {
        match text::read_decimal(&s[..i], 65535) {
            None => false,
            Some(min) => match text::read_decimal(&s[i + 1..], 65535) {
                None => false,
                Some(max) => min <= max,
            },
        }
    } else {
        false
    }
}

// Whether the line l is one that the form addr4/len:pmin,pmax used to accept.
pub fn is_retired(l: &[u8]) -> bool
    ensures { result ≡ is_retired l.now }
{
    let i = text::index_of(l, b':');
    if i < l.len() {
        match net_holds_v4(&l[..i], 0) {
            None => false,
            Some(_) => ports_rise(&l[i + 1..]),
        }
    } else {
        false
    }
}

// Whether a line of a form that grants holds the request, at an IPv6 address. One without a colon is of no form that matters.
fn held_v6(l: &[u8], high: u64, low: u64, port: u16) -> Option<bool>
    ensures { result ≡ held_v6 (high * 2 ^ 64 + low) port l.now }
{
    if text::index_of(l, b':') < l.len() {
        comma_form_v6(l, high, low, port)
    } else {
        Some(false)
    }
}

// Whether a line of a form that grants holds the request.
fn held(l: &[u8], addr: Addr, port: u16) -> Option<bool>
    ensures { result ≡ held_of addr port l.now }
{
    match addr {
        Addr::Unknown => None,
        Addr::V4(n) => comma_form_v4(l, n, port),
        Addr::V6(a, b) => held_v6(l, a, b, port),
    }
}

// What the line l says of the port at the address. A line of a form that grants is not of the retired one.
pub(crate) fn look(l: &[u8], addr: Addr, port: u16) -> Option<bool>
    ensures { result ≡ look_of addr port l.now }
{
    match held(l, addr, port) {
        Some(b) => Some(b),
        None => { if is_retired(l) { None } else { Some(false) } }
    }
}
