// The decision by a mac_portacl rule list. The text is walked once: each entry is read and held against the bind at the same time.
//   decide(..)  == the call: every check, then the decision on a bind
//   is_entry(s) == s is of the form of an entry
//   check(text) == the refusal of the first entry that is not of its form
//   note_ports(tcp, udp, text, uid) == the same, and the ports that the entries of a user id grant
#![tactic(auto)]

ghost use Rattle.std.specs.Prelude.{false, [], ◌∷◌, ◌≡◌, eqb};
ghost use Rattle.section.specs.Refusal.{checked_of};
ghost use Rattle.text.specs.Basics.{when◌then◌else◌, is_some, any};
ghost use Rattle.text.specs.Text.{equal};
ghost use Rattle.portacl.specs.Portacl.{bind, protocol_word, read_entry, portacl_fault, decide_portacl};
ghost use Rattle.portacl.specs.declared.Protocol.TheVariants.{Tcp, Udp};
ghost use Rattle.portacl.specs.Code.{entry_data, id_data, protocol_data, port_data, grants_to, entries_data, walk, decision_of};
ghost use Rattle.portacl.specs.Code.{noted, notes};

use section::{Fault, Refusal};

// The words of the decision.
#[derive(Clone, Copy)]
pub enum Decision {
    NotRuled,
    Exempt,
    Granted,
    Denied,
}

#[derive(Clone, Copy)]
pub enum Protocol {
    Tcp,
    Udp,
}

// The four settings of mac_portacl(4).
#[derive(Clone, Copy)]
pub struct Settings {
    pub enabled: u32,
    pub port_high: u32,
    pub suser_exempt: u32,
    pub autoport_exempt: u32,
}

// Who may bind what: the user id, or the group id, a port of a protocol.
#[derive(Clone, Copy)]
struct Entry {
    pub group: bool,
    pub id: u32,
    pub protocol: Protocol,
    pub port: u32,
}

// An entry's port, the last of its parts.
fn read_port(group: bool, id: u32, protocol: Protocol, s: &[u8]) -> Option<Entry>
    ensures { result ≡ port_data group id protocol s.now }
{
    let port = text::read_decimal(s, 65535)?;
    Some(Entry {
        group,
        id,
        protocol,
        port,
    })
}

// An entry from its protocol on.
fn read_protocol(group: bool, id: u32, s: &[u8]) -> Option<Entry>
    ensures { result ≡ protocol_data group id s.now }
{
    let colon = text::index_of(s, b':');
    if colon == s.len() {
        return None;
    }
    let after = colon + 1;
    if text::equal(b"tcp", &s[..colon]) {
        return read_port(group, id, Protocol::Tcp, &s[after..]);
    }
    if text::equal(b"udp", &s[..colon]) {
        return read_port(group, id, Protocol::Udp, &s[after..]);
    }
    None
}

// An entry from its id on.
fn read_id(group: bool, s: &[u8]) -> Option<Entry>
    ensures { result ≡ id_data group s.now }
{
    let colon = text::index_of(s, b':');
    if colon == s.len() {
        return None;
    }
    let after = colon + 1;
    let id = text::read_decimal(&s[..colon], 4294967295)?;
    read_protocol(group, id, &s[after..])
}

// The entry that s writes, idtype:id:protocol:port.
fn read_entry(s: &[u8]) -> Option<Entry>
    ensures { result ≡ entry_data s.now }
{
    let colon = text::index_of(s, b':');
    if colon == s.len() {
        return None;
    }
    let after = colon + 1;
    if text::equal(b"uid", &s[..colon]) {
        return read_id(false, &s[after..]);
    }
    if text::equal(b"gid", &s[..colon]) {
        return read_id(true, &s[after..]);
    }
    None
}

// Whether s is of the form of an entry.
pub fn is_entry(s: &[u8]) -> bool
    ensures { result ≡ is_some (read_entry s.now) }
{
    match read_entry(s) {
        None => false,
        Some(_) => true,
    }
}

// Whether two protocols are the same.
fn same_protocol(a: Protocol, b: Protocol) -> bool
    ensures { result ≡ equal (protocol_word a) (protocol_word b) }
{
    match a {
        Protocol::Tcp => match b {
            Protocol::Tcp => true,
            Protocol::Udp => false,
        },
        Protocol::Udp => match b {
            Protocol::Tcp => false,
            Protocol::Udp => true,
        },
    }
}

// Whether id is one of the ids.
fn is_among(id: u32, ids: &[u32]) -> bool
    ensures { result ≡ any (eqb id) ids.now }
{
    ids.contains(&id)
}

// Whether the id is the uid, or for a group one of the groups.
fn is_own(group: bool, id: u32, uid: u32, groups: &[u32]) -> bool
    ensures { result ≡ any (eqb id) (when group then groups.now else uid ∷ []) }
{
    if group {
        is_among(id, groups)
    } else {
        id == uid
    }
}

// Whether the entry grants the bind.
fn grants(entry: Entry, uid: u32, groups: &[u32], protocol: Protocol, port: u16) -> bool
    ensures { result ≡ grants_to entry (bind uid groups.now protocol port) }
{
    let granted = entry.protocol;
    if same_protocol(granted, protocol) & (entry.port == port as u32) {
        is_own(entry.group, entry.id, uid, groups)
    } else {
        false
    }
}

// Every entry is read, and held against the bind.
fn walk_entries(
    text: &[u8],
    uid: u32,
    groups: &[u32],
    protocol: Protocol,
    port: u16,
) -> Result<bool, usize>
    ensures { result ≡ walk (bind uid groups.now protocol port) 1 false (entries_data text.now) }
{
    if text.len() == 0 {
        return Ok(false);
    }
    let mut granted = false;
    let mut number = 1;
    let mut at = 0;
    while at <= text.len() {
        let end = at + text::index_of(&text[at..], b',');
        match read_entry(&text[at..end]) {
            None => return Err(number),
            Some(entry) => {
                granted = granted | grants(entry, uid, groups, protocol, port);
            }
        }
        number += 1;
        at = end + 1;
    }
    Ok(granted)
}

// Notes the port of an entry of the user id over the protocol: its byte becomes 1.
fn note(ports: &mut [u8], entry: Entry, uid: u32, protocol: Protocol)
    ensures { ports.new ≡ noted uid protocol entry ports.old }
{
    let granted = entry.protocol;
    let port = entry.port as usize;
    if same_protocol(granted, protocol) & !entry.group & (entry.id == uid) {
        if port < ports.len() {
            ports[port] = 1;
        }
    }
}

// The refusal of the first entry that is not of its form. Up to it the ports that the entries of the user id grant are noted, those over tcp and
// those over udp; groups are passed over, and so are ports beyond the lent bytes.
pub fn note_ports(tcp: &mut [u8], udp: &mut [u8], text: &[u8], uid: u32) -> Result<(), Refusal>
    ensures answer { result ≡ checked_of (portacl_fault text.now) }
    ensures over_tcp { tcp.new ≡ notes uid Tcp (entries_data text.now) tcp.old }
    ensures over_udp { udp.new ≡ notes uid Udp (entries_data text.now) udp.old }
{
    if text.len() == 0 {
        return Ok(());
    }
    let mut number = 1;
    let mut at = 0;
    while at <= text.len() {
        let end = at + text::index_of(&text[at..], b',');
        match read_entry(&text[at..end]) {
            None => return Err(section::Portacl::refusal(Fault::BadEntry, number)),
            Some(entry) => {
                note(tcp, entry, uid, Protocol::Tcp);
                note(udp, entry, uid, Protocol::Udp);
            }
        }
        number += 1;
        at = end + 1;
    }
    Ok(())
}

// The decision, where granted says whether an entry grants.
fn by_settings(settings: Settings, uid: u32, port: u16, granted: bool) -> Decision
    ensures { result ≡ decision_of settings uid port granted }
{
    if settings.enabled == 0 {
        return Decision::NotRuled;
    }
    if (settings.autoport_exempt != 0) & (port == 0) {
        return Decision::Exempt;
    }
    if settings.port_high < port as u32 {
        return Decision::NotRuled;
    }
    if (settings.suser_exempt != 0) & (uid == 0) {
        return Decision::Exempt;
    }
    if granted {
        Decision::Granted
    } else {
        Decision::Denied
    }
}

// The refusal of the first entry that is not of its form.
pub fn check(text: &[u8]) -> Result<(), Refusal>
    ensures { result ≡ checked_of (portacl_fault text.now) }
{
    let groups: [u32; 0] = [];
    match walk_entries(text, 0, &groups, Protocol::Tcp, 0) {
        Err(number) => Err(section::Portacl::refusal(Fault::BadEntry, number)),
        Ok(_) => Ok(()),
    }
}

// Every check, then the decision on a bind.
pub fn decide(
    text: &[u8],
    settings: Settings,
    uid: u32,
    groups: &[u32],
    protocol: Protocol,
    port: u16,
) -> Result<Decision, Refusal>
    ensures { result ≡ decide_portacl text.now settings (Some (bind uid groups.now protocol port)) }
{
    if section::Portacl::over(text.len()) {
        return Err(section::Portacl::refusal(Fault::OverLimit, 0));
    }
    if 16 < groups.len() {
        check(text)?;
        return Err(section::placeless(Fault::BadRequest));
    }
    match walk_entries(text, uid, groups, protocol, port) {
        Err(n) => Err(section::Portacl::refusal(Fault::BadEntry, n)),
        Ok(granted) => Ok(by_settings(settings, uid, port, granted)),
    }
}
