// Host patterns: wildcards, domains and names, and which form a pattern has.
//   host_seen(e, names, dotted, look, host, name) == whether e is a host pattern and, if it is looked at, matches, by what is known of its bytes
//   host_read(e, look, host, name)  == the same where nothing is known of them
//   named_seen(e, look, host, name) == the same of what is told to be a domain or a name
ghost use Rattle.std.specs.Prelude.{◌≡◌, true, false, not, ◌&&◌, ◌||◌, []};
ghost use Rattle.text.specs.Basics.{is_some, any, all};
ghost use Rattle.text.specs.Text.{among};
ghost use Rattle.patterns.specs.Host.{endpoint, name_case, name_known, addr_known};
ghost use Rattle.patterns.specs.Pattern.{is_name_byte, domain_pattern, name_pattern, host_pattern};
ghost use Rattle.patterns.specs.Code.{word_size, wildcard_of, form_of, is_dotted_byte, form_pattern, matches_pattern, pattern_seen, domain_covers};
ghost use Rattle.patterns.specs.Code.{plain_covers, Named};

use super::net::{bracket_seen, dotted_seen};
use super::{Host, HostSeen, Name};
use address::Addr;
use text::equal_fold;

// The wildcard that a text is.
#[derive(Clone, Copy)]
pub enum Wildcard {
    Nothing,
    All,
    Local,
    Known,
    Unknown,
    Paranoid,
}

// What a pattern that is no wildcard is read as.
#[derive(Clone, Copy)]
pub enum Form {
    Domain,
    Bracket,
    Dotted,
    Plain,
}

// Whether a wildcard has n bytes.
pub fn is_word_size(n: usize) -> bool
    ensures { result ≡ word_size n }
{
    (n == 3) | ((n == 5) | ((n == 7) | (n == 8)))
}

// The wildcard that e is; by its length most texts are none.
pub fn read_wildcard(e: &[u8]) -> Wildcard
    ensures { result ≡ wildcard_of e.now }
{
    if !is_word_size(e.len()) {
        return Wildcard::Nothing;
    }
    if equal_fold(b"ALL", e) {
        return Wildcard::All;
    }
    if equal_fold(b"LOCAL", e) {
        return Wildcard::Local;
    }
    if equal_fold(b"KNOWN", e) {
        return Wildcard::Known;
    }
    if equal_fold(b"UNKNOWN", e) {
        return Wildcard::Unknown;
    }
    if equal_fold(b"PARANOID", e) {
        return Wildcard::Paranoid;
    }
    Wildcard::Nothing
}

// Whether b may stand in a name.
pub fn is_name_byte(b: u8) -> bool
    ensures { result ≡ is_name_byte b }
{
    text::is_letter(b) | text::is_digit(b) | ((b == b'-') | ((b == b'_') | (b == b'.')))
}

// Whether every byte of s may stand in a name.
pub fn is_name(s: &[u8]) -> bool
    ensures { result ≡ all is_name_byte s.now }
{
    s.iter().all(|b| is_name_byte(*b))
}

// Whether b may stand in a dotted pattern: a digit, a dot or a slash.
fn is_dotted_byte(b: u8) -> bool
    ensures { result ≡ is_dotted_byte b }
{
    text::is_digit(b) | ((b == b'.') | (b == b'/'))
}

// Whether s has only digits, dots and slashes.
fn is_dotted(s: &[u8]) -> bool
    ensures { result ≡ all is_dotted_byte s.now }
{
    s.iter().all(|b| is_dotted_byte(*b))
}

// What e is read as, where it is no wildcard; dotted: whether it has only digits, dots and slashes.
fn read_form(e: &[u8], dotted: bool) -> Form
    requires { dotted ≡ all is_dotted_byte e.now }
    ensures { result ≡ form_of e.now }
{
    if e.len() == 0 {
        return Form::Dotted;
    }
    let b = e[0];
    if b == b'.' {
        return Form::Domain;
    }
    if b == b'[' {
        return Form::Bracket;
    }
    if dotted { Form::Dotted } else { Form::Plain }
}

// Whether a host's name is known.
fn name_known(host: Host) -> bool
    ensures { result ≡ name_known (endpoint host []) }
{
    let state = host.name;
    match state {
        Name::Unknown => false,
        Name::Paranoid => false,
        Name::Known => true,
    }
}

// Whether a host's name is paranoid.
fn name_paranoid(host: Host) -> bool
    ensures { result ≡ name_case (endpoint host []) false true false }
{
    let state = host.name;
    match state {
        Name::Unknown => false,
        Name::Paranoid => true,
        Name::Known => false,
    }
}

// Whether a host's address is known.
fn address_known(host: Host) -> bool
    ensures { result ≡ addr_known (endpoint host []) }
{
    let addr = host.addr;
    match addr {
        Addr::Unknown => false,
        Addr::V4(_) => true,
        Addr::V6(_, _) => true,
    }
}

// KNOWN: a known name and a known address.
fn is_known(host: Host) -> bool
    ensures { result ≡ (name_known (endpoint host []) && addr_known (endpoint host [])) }
{
    let state = host.name;
    match state {
        Name::Unknown => false,
        Name::Paranoid => false,
        Name::Known => address_known(host),
    }
}

// UNKNOWN: an unknown name or an unknown address; a paranoid name is neither known nor unknown.
fn is_unknown(host: Host) -> bool
    ensures { result ≡ (name_case (endpoint host []) true false false || not (addr_known (endpoint host []))) }
{
    let state = host.name;
    match state {
        Name::Unknown => true,
        Name::Paranoid => !address_known(host),
        Name::Known => !address_known(host),
    }
}

// Whether s has no dot.
fn has_no_dot(s: &[u8]) -> bool
    ensures { result ≡ not (any (among ".") s.now) }
{
    text::index_of(s, b'.') == s.len()
}

// LOCAL: a known name without a dot.
fn is_local(host: Host, name: &[u8]) -> bool
    ensures { result ≡ (name_known (endpoint host []) && not (any (among ".") name.now)) }
{
    let state = host.name;
    match state {
        Name::Unknown => false,
        Name::Paranoid => false,
        Name::Known => has_no_dot(name),
    }
}

// Whether e is a domain pattern; names: whether every byte of it may stand in a name.
fn domain_sound(e: &[u8], names: bool) -> bool
    requires { names ≡ all is_name_byte e.now }
    ensures { result ≡ is_some (domain_pattern e.now) }
{
    if e.len() < 2 {
        return false;
    }
    if 255 < e.len() {
        return false;
    }
    names
}

// Whether the domain pattern e matches a known name: a longer one that ends in it.
fn domain_covers(e: &[u8], name: &[u8]) -> bool
    ensures { result ≡ domain_covers e.now name.now }
{
    if text::ends_with_fold(name, e) {
        domain_sound(e, is_name(e))
    } else {
        false
    }
}

// Whether e is a name that a pattern may be; names: whether every byte of it may stand in a name.
fn plain_sound(e: &[u8], names: bool) -> bool
    requires { names ≡ all is_name_byte e.now }
    ensures { result ≡ is_some (name_pattern e.now) }
{
    if e.len() == 0 {
        return false;
    }
    if 255 < e.len() {
        return false;
    }
    let last = e.len() - 1;
    if e[last] == b'.' {
        return false;
    }
    names
}

// Whether the name pattern e matches a known name: an equal one.
fn plain_covers(e: &[u8], name: &[u8]) -> bool
    ensures { result ≡ plain_covers e.now name.now }
{
    if equal_fold(e, name) {
        plain_sound(e, is_name(e))
    } else {
        false
    }
}

// Whether the domain pattern e matches, if it is looked at. A name that is not known is not read.
fn domain_matches(e: &[u8], look: bool, host: Host, name: &[u8]) -> bool
    ensures { result ≡ (look && matches_pattern (domain_pattern e.now) (endpoint host name.now)) }
{
    if look & name_known(host) {
        domain_covers(e, name)
    } else {
        false
    }
}

// Whether the name pattern e matches, if it is looked at. A name that is not known is not read.
fn plain_matches(e: &[u8], look: bool, host: Host, name: &[u8]) -> bool
    ensures { result ≡ (look && matches_pattern (name_pattern e.now) (endpoint host name.now)) }
{
    if look & name_known(host) {
        plain_covers(e, name)
    } else {
        false
    }
}

// Whether e, no wildcard, is a pattern and, if it is looked at, matches.
fn form_seen(e: &[u8], names: bool, dotted: bool, look: bool, host: Host, name: &[u8]) -> HostSeen
    requires names_value { names ≡ all is_name_byte e.now }
    requires dotted_value { dotted ≡ all is_dotted_byte e.now }
    ensures { result ≡ pattern_seen look (form_pattern (form_of e.now) e.now) (endpoint host name.now) }
{
    let f = read_form(e, dotted);
    match f {
        Form::Domain => HostSeen {
            sound: domain_sound(e, names),
            matches: domain_matches(e, look, host, name),
        },
        Form::Bracket => bracket_seen(e, look, host),
        Form::Dotted => dotted_seen(e, look, host),
        Form::Plain => HostSeen {
            sound: plain_sound(e, names),
            matches: plain_matches(e, look, host, name),
        },
    }
}

// Whether e is a host pattern and, if it is looked at, matches the host: both in one reading, where it is known whether every byte of e may
// stand in a name, and whether every one may stand in a dotted pattern.
pub fn host_seen(
    e: &[u8],
    names: bool,
    dotted: bool,
    look: bool,
    host: Host,
    name: &[u8],
) -> HostSeen
    requires names_value { names ≡ all is_name_byte e.now }
    requires dotted_value { dotted ≡ all is_dotted_byte e.now }
    ensures { result ≡ pattern_seen look (host_pattern e.now) (endpoint host name.now) }
{
    let w = read_wildcard(e);
    match w {
        Wildcard::Nothing => form_seen(e, names, dotted, look, host, name),
        Wildcard::All => HostSeen {
            sound: true,
            matches: look,
        },
        Wildcard::Local => HostSeen {
            sound: true,
            matches: look & is_local(host, name),
        },
        Wildcard::Known => HostSeen {
            sound: true,
            matches: look & is_known(host),
        },
        Wildcard::Unknown => HostSeen {
            sound: true,
            matches: look & is_unknown(host),
        },
        Wildcard::Paranoid => HostSeen {
            sound: true,
            matches: look & name_paranoid(host),
        },
    }
}

// Whether e is a host pattern and, if it is looked at, matches the host, where nothing is known of its bytes.
pub fn host_read(e: &[u8], look: bool, host: Host, name: &[u8]) -> HostSeen
    ensures { result ≡ pattern_seen look (host_pattern e.now) (endpoint host name.now) }
{
    host_seen(e, is_name(e), is_dotted(e), look, host, name)
}

// The same of a text of name bytes that is as long as no wildcard and not only digits and dots: a domain or a name, by its first byte.
pub fn named_seen(e: &[u8], look: bool, host: Host, name: &[u8]) -> HostSeen
    requires { Named e.now }
    ensures { result ≡ pattern_seen look (host_pattern e.now) (endpoint host name.now) }
{
    if e[0] == 46 {
        return HostSeen {
            sound: domain_sound(e, true),
            matches: domain_matches(e, look, host, name),
        };
    }
    HostSeen {
        sound: plain_sound(e, true),
        matches: plain_matches(e, look, host, name),
    }
}
