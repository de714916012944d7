// Patterns of addresses: the dotted ones of IPv4 are read as a net and a mask, the bracketed ones of IPv6 as a prefix.
//   dotted_seen(e, look, host), bracket_seen(e, look, host) == whether e is such a pattern and, if it is looked at, matches the host's address
ghost use Rattle.std.specs.Prelude.{◌≡◌, false, ◌&&◌, ◌+◌, ◌*◌, ◌^◌, ◌<◌, ◌≤◌};
ghost use Rattle.text.specs.Basics.{is_some};
ghost use Rattle.patterns.specs.Pattern.{bracket_pattern, read_mask, dotted_pattern};
ghost use Rattle.patterns.specs.Code.{host_seen, leading_net, pair_net, dotted_net, net_sound, net_covers, dotted_covers};
ghost use Rattle.patterns.specs.Dotted.{ended_net};
ghost use Rattle.patterns.specs.Code.{prefix_length, as_prefix, prefix_with, bracket_prefix, prefix_holds, prefix_covers, bracket_covers};

use super::{Host, HostSeen};
use address::Addr;
use address::fields::{Run, ended_address, run_over};
use address::prefix::{in_net, leading_ones_v4, same_prefix_v6};
use address::read::{read_v4, read_v6};

// A mask: as an address, or as the number of its leading ones.
fn read_mask(s: &[u8]) -> Option<u32>
    ensures { result ≡ read_mask s.now }
{
    match read_v4(s) {
        Some(mask) => Some(mask),
        None => {
            let m = text::read_decimal(s, 32)?;
            Some(leading_ones_v4(m))
        }
    }
}

// The net of count leading fields, which write n.
fn leading_net(n: u32, count: u32) -> Option<(u32, u32)>
    requires { (1 ≤ count) × (count ≤ 3) × (n < 256 ^ count) }
    ensures { result ≡ Some (leading_net count n) }
{
    let shift = 32 - 8 * count;
    Some((n << shift, (4294967295 >> shift) << shift))
}

// A net and a mask, where both were read.
fn pair_net(net: Option<u32>, mask: Option<u32>) -> Option<(u32, u32)>
    ensures { result ≡ pair_net net mask }
{
    let n = net?;
    let m = mask?;
    Some((n, m))
}

// The net of a dotted pattern without a slash, by the state of the pass over its fields: an address, as the net of that address alone, or one
// to three fields, each with its dot.
fn ended_net(n: u32, k: u32, v: u32, begun: bool) -> Option<(u32, u32)>
    requires n_bound { n < 16777216 }
    requires v_bound { v ≤ 255 }
    requires k_bound { (k ≤ 3) × (n < 256 ^ k) }
    ensures { result ≡ ended_net n k v begun }
{
    if begun {
        return pair_net(ended_address(n, k, v, begun), Some(4294967295));
    }
    if k == 0 {
        return None;
    }
    leading_net(n, k)
}

// The net of a dotted pattern, read in one pass: where a slash stops it, the mask follows.
fn read_dotted(e: &[u8]) -> Option<(u32, u32)>
    ensures { result ≡ dotted_net e.now }
{
    let run = run_over(e, 0);
    match run {
        Run::Failed => None,
        Run::At(j, n, k, v, begun) => {
            if e.len() <= j {
                return ended_net(n, k, v, begun);
            }
            if e[j] != b'/' {
                return None;
            }
            let after = j + 1;
            pair_net(ended_address(n, k, v, begun), read_mask(&e[after..]))
        }
    }
}

// The prefix length after the bracket: none written is 128.
fn read_length(s: &[u8]) -> Option<u32>
    ensures { result ≡ prefix_length s.now }
{
    if s.len() == 0 {
        return Some(128);
    }
    if s[0] != b'/' {
        return None;
    }
    text::read_decimal(&s[1..], 128)
}

// An address and a prefix length, where both were read.
fn pair_prefix(address: Option<(u64, u64)>, length: Option<u32>) -> Option<(u64, u64, u32)>
    ensures { result ≡ prefix_with address length }
{
    let (high, low) = address?;
    let n = length?;
    Some((high, low, n))
}

// The prefix of a bracketed pattern: what stands between its first byte and the first closing bracket, and after that.
fn read_bracket(e: &[u8]) -> Option<(u64, u64, u32)>
    ensures { result ≡ as_prefix (bracket_prefix e.now) }
{
    if e.len() == 0 {
        return None;
    }
    let s = &e[1..];
    let i = text::index_of(s, b']');
    if i == s.len() {
        return None;
    }
    let after = i + 1;
    pair_prefix(read_v6(&s[..i]), read_length(&s[after..]))
}

// Whether a net was read, where no address is compared with it.
fn net_sound(net: Option<(u32, u32)>) -> HostSeen
    ensures { result ≡ host_seen (net_sound net) false }
{
    match net {
        None => HostSeen {
            sound: false,
            matches: false,
        },
        Some((_, _)) => HostSeen {
            sound: true,
            matches: false,
        },
    }
}

// Whether a net was read and, if it is looked at, an address lies in it.
fn net_seen(net: Option<(u32, u32)>, look: bool, a: u32) -> HostSeen
    ensures { result ≡ host_seen (net_sound net) (look && net_covers net a) }
{
    match net {
        None => HostSeen {
            sound: false,
            matches: false,
        },
        Some((net, mask)) => HostSeen {
            sound: true,
            matches: look & in_net(net, mask, a),
        },
    }
}

// Whether e is a dotted pattern and, if it is looked at, matches.
pub fn dotted_seen(e: &[u8], look: bool, host: Host) -> HostSeen
    ensures { result ≡ host_seen (is_some (dotted_pattern e.now)) (look && dotted_covers e.now host) }
{
    let addr = host.addr;
    match addr {
        Addr::Unknown => net_sound(read_dotted(e)),
        Addr::V4(a) => net_seen(read_dotted(e), look, a),
        Addr::V6(_, _) => net_sound(read_dotted(e)),
    }
}

// Whether an IPv6 address has the first m bits of another.
fn prefix_matches(host: Host, high: u64, low: u64, m: u32) -> bool
    requires { m ≤ 128 }
    ensures { result ≡ prefix_holds (high * 2 ^ 64 + low) m host }
{
    let addr = host.addr;
    match addr {
        Addr::Unknown => false,
        Addr::V4(_) => false,
        Addr::V6(h, l) => same_prefix_v6(high, low, h, l, m),
    }
}

// Whether e is a bracketed pattern and, if it is looked at, matches.
pub fn bracket_seen(e: &[u8], look: bool, host: Host) -> HostSeen
    ensures { result ≡ host_seen (is_some (bracket_pattern e.now)) (look && bracket_covers e.now host) }
{
    let prefix = read_bracket(e);
    match prefix {
        None => HostSeen {
            sound: false,
            matches: false,
        },
        Some((high, low, m)) => HostSeen {
            sound: true,
            matches: look & prefix_matches(host, high, low, m),
        },
    }
}
