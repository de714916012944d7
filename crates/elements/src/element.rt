// The elements of daemon and client lists: whether a text is one, and what it finds of a request, both in one reading.
//   daemon_seen(e, mask, look, ..), client_seen(e, mask, look, ..) == what is wrong with e and, if it is looked at, what it finds
//   daemon_found(e, mask, ..), client_found(e, mask, ..) == what it finds
ghost use Rattle.std.specs.Prelude.{◌≡◌, true, false, ◌&&◌, [], ◌≤◌, ◌<◌, length};
ghost use Rattle.text.specs.Basics.{is_some, all, given};
ghost use Rattle.text.specs.Text.{first_among, in_range};
ghost use Rattle.patterns.specs.Host.{endpoint, name_case};
ghost use Rattle.patterns.specs.Pattern.{is_name_byte, host_pattern};
ghost use Rattle.patterns.specs.Code.{is_dotted_byte, host_seen, pattern_seen};
ghost use Rattle.tables.specs.Table.{is_table_name, table_name, pattern_with};
ghost use Rattle.tables.specs.Tried.{capped};
ghost use Rattle.classes.specs.Class.{Describes};
ghost use Rattle.elements.specs.Request.{request_of, well_formed};
ghost use Rattle.elements.specs.Element.{client_reserved, daemon_reserved, found_if, daemon_name, user_half, daemon_element, client_element, look_at};
ghost use Rattle.elements.specs.Element.{element_looked};
ghost use Rattle.elements.specs.Code.{view_of, no_reference, reference_with, element_reference, saying, table_seen, daemon_kind, client_kind};
ghost use Rattle.elements.specs.Code.{misnamed, looked_for};
ghost use Rattle.elements.specs.Code.{fault_of, kind_seen, element_seen, daemon_seen, daemon_request, client_request};
ghost use Rattle.elements.specs.Code.{at_sign, name_fits, name_equals, ask_if, user_test, user_found, user_fits};

use super::{Found, Looked, User, count};
use patterns::net::dotted_seen;
use patterns::pattern::{
    Wildcard, host_read, host_seen, is_name, is_word_size, named_seen, read_wildcard,
};
use patterns::{Host, HostSeen, Name};
use tables::word::{has_slash, is_table_name};
use text::equal_fold;
use views::{NamingFault, Reference, look_up};

// What is wrong with an element: it begins with a reserved mark, is of no kind, or names a table that is missing or leads too deep.
#[derive(Clone, Copy)]
pub enum ElementFault {
    Reserved,
    Unknown,
    Missing,
    Deep,
}

// What is wrong with an element, and what it finds and counts, if it is looked at.
#[derive(Clone, Copy)]
pub struct ElementSeen {
    pub fault: Result<(), ElementFault>,
    pub found: Found,
    pub looked: u64,
}

// Whether a text is of a kind of element, and what it finds, if it is looked at.
#[derive(Clone, Copy)]
pub struct KindSeen {
    pub sound: bool,
    pub found: Found,
}

// The place of the `@` that parts e, the length where none does.
fn at_sign(e: &[u8]) -> usize
    ensures place { result ≡ at_sign e.now }
    ensures within { result ≤ length e.now }
{
    if e.len() == 0 {
        return 0;
    }
    text::index_of(&e[1..], b'@') + 1
}

// The same, by the classes of the bytes of e: most elements have no `@`.
pub fn sign_place(e: &[u8], mask: u8) -> usize
    requires { Describes mask e.now }
    ensures place { result ≡ at_sign e.now }
    ensures within { result ≤ length e.now }
{
    if mask & 16 == 0 {
        return e.len();
    }
    at_sign(e)
}

// Whether s begins with `@`.
fn starts_with_sign(s: &[u8]) -> bool
    ensures { result ≡ first_among "@" s.now }
{
    if s.len() == 0 {
        return false;
    }
    s[0] == b'@'
}

// Whether e, or the half after the `@` that parts it, begins with `@`.
fn is_client_reserved(e: &[u8], at: usize) -> bool
    requires at_value { at ≡ at_sign e.now }
    requires at_in_bounds { at ≤ length e.now }
    ensures { result ≡ client_reserved e.now }
{
    if starts_with_sign(e) {
        return true;
    }
    if at == e.len() {
        return false;
    }
    let after = at + 1;
    starts_with_sign(&e[after..])
}

// The same, or e begins with a slash.
fn is_daemon_reserved(e: &[u8], at: usize) -> bool
    requires at_value { at ≡ at_sign e.now }
    requires at_in_bounds { at ≤ length e.now }
    ensures { result ≡ daemon_reserved e.now }
{
    if has_slash(e) {
        return true;
    }
    is_client_reserved(e, at)
}

// What is known where no table is named.
fn no_reference() -> Reference
    ensures { result ≡ no_reference }
{
    Reference {
        naming: Ok(()),
        matches: false,
        tried: 0,
    }
}

// What the notes say of a table of that name, if it is a name.
fn reference_of_table(tables: &[u8], notes: &[u64], k: usize, name: &[u8]) -> Reference
    ensures { result ≡ reference_with k tables.now notes.now (given (is_table_name name.now) name.now) }
{
    if is_table_name(name) {
        look_up(tables, notes, k, name)
    } else {
        no_reference()
    }
}

// What they say of the table that t, a host half, names.
fn reference_of_half(tables: &[u8], notes: &[u64], k: usize, t: &[u8]) -> Reference
    ensures { result ≡ reference_with k tables.now notes.now (table_name t.now) }
{
    if has_slash(t) {
        reference_of_table(tables, notes, k, &t[1..])
    } else {
        no_reference()
    }
}

// What they say of the table that the element e, parted at at, names: all that is told of a table is looked up here, once.
fn reference_of(tables: &[u8], notes: &[u64], k: usize, e: &[u8], at: usize) -> Reference
    requires { (at ≡ at_sign e.now) × (at ≤ length e.now) }
    ensures { result ≡ element_reference k tables.now notes.now e.now }
{
    if at == e.len() {
        return reference_of_half(tables, notes, k, e);
    }
    let after = at + 1;
    reference_of_half(tables, notes, k, &e[after..])
}

// Whether e, which begins with a slash, names a table and, if it is looked at, whether that matches; matched: what its table does.
fn table_seen(e: &[u8], look: bool, matched: bool) -> HostSeen
    requires { true ≡ first_among "/" e.now }
    ensures { result ≡ table_seen look matched e.now }
{
    let sound = is_table_name(&e[1..]);
    HostSeen {
        sound,
        matches: look & (sound & matched),
    }
}

// Whether e is a host pattern and, if it is looked at, matches; names, dotted: what its bytes tell, matched: what the table does that it
// names.
fn half_seen(
    e: &[u8],
    names: bool,
    dotted: bool,
    look: bool,
    matched: bool,
    host: Host,
    name: &[u8],
) -> HostSeen
    requires { (names ≡ all is_name_byte e.now) × (dotted ≡ all is_dotted_byte e.now) }
    ensures { result ≡ pattern_seen look (pattern_with (saying matched) e.now) (endpoint host name.now) }
{
    if has_slash(e) {
        table_seen(e, look, matched)
    } else {
        host_seen(e, names, dotted, look, host, name)
    }
}

// The same of a text of which nothing is known.
fn half_read(e: &[u8], look: bool, matched: bool, host: Host, name: &[u8]) -> HostSeen
    ensures { result ≡ pattern_seen look (pattern_with (saying matched) e.now) (endpoint host name.now) }
{
    if has_slash(e) {
        table_seen(e, look, matched)
    } else {
        host_read(e, look, host, name)
    }
}

// Whether t, no wildcard, is a name before `@` or of a daemon.
fn name_fits(t: &[u8]) -> bool
    ensures { result ≡ name_fits t.now }
{
    if t.len() == 0 {
        return false;
    }
    if 64 < t.len() {
        return false;
    }
    is_name(t)
}

// Whether t, no wildcard, is such a name, and equal to n.
fn name_equals(t: &[u8], n: &[u8]) -> bool
    ensures { result ≡ name_equals t.now n.now }
{
    if equal_fold(t, n) {
        name_fits(t)
    } else {
        false
    }
}

// Whether t, no wildcard, is such a name and, if it is looked at, equal to n; names: whether every byte of it may stand in a name.
fn name_seen(t: &[u8], names: bool, look: bool, n: &[u8]) -> HostSeen
    requires { names ≡ all is_name_byte t.now }
    ensures { result ≡ host_seen (name_fits t.now) (look && name_equals t.now n.now) }
{
    let sound = names & ((1 <= t.len()) & (t.len() <= 64));
    if look & sound {
        return HostSeen {
            sound,
            matches: equal_fold(t, n),
        };
    }
    HostSeen {
        sound,
        matches: false,
    }
}

// What is seen of any other wildcard as a daemon name.
fn no_daemon() -> HostSeen
    ensures { result ≡ host_seen false false }
{
    HostSeen {
        sound: false,
        matches: false,
    }
}

// Whether t is a daemon name, or ALL, and, if it is looked at, matches.
fn daemon_name_seen(t: &[u8], names: bool, look: bool, daemon: &[u8]) -> HostSeen
    requires { names ≡ all is_name_byte t.now }
    ensures { result ≡ daemon_seen look (daemon_name t.now) daemon.now }
{
    let w = read_wildcard(t);
    match w {
        Wildcard::Nothing => name_seen(t, names, look, daemon),
        Wildcard::All => HostSeen {
            sound: true,
            matches: look,
        },
        Wildcard::Local => no_daemon(),
        Wildcard::Known => no_daemon(),
        Wildcard::Unknown => no_daemon(),
        Wildcard::Paranoid => no_daemon(),
    }
}

// Whether t is a user half.
fn user_sound(t: &[u8]) -> bool
    ensures { result ≡ is_some (user_half t.now) }
{
    let w = read_wildcard(t);
    match w {
        Wildcard::Nothing => name_fits(t),
        Wildcard::All => true,
        Wildcard::Local => false,
        Wildcard::Known => true,
        Wildcard::Unknown => true,
        Wildcard::Paranoid => false,
    }
}

// Whether t is a user half that matches a known user.
fn known_user_matches(t: &[u8], name: &[u8]) -> bool
    ensures { result ≡ user_test t.now User.Known name.now }
{
    let w = read_wildcard(t);
    match w {
        Wildcard::Nothing => name_equals(t, name),
        Wildcard::All => true,
        Wildcard::Local => false,
        Wildcard::Known => true,
        Wildcard::Unknown => false,
        Wildcard::Paranoid => false,
    }
}

// Whether t is a user half that matches an unknown user.
fn unknown_user_matches(t: &[u8]) -> bool
    ensures { result ≡ user_test t.now User.Unknown [] }
{
    let w = read_wildcard(t);
    match w {
        Wildcard::Nothing => false,
        Wildcard::All => true,
        Wildcard::Local => false,
        Wildcard::Known => false,
        Wildcard::Unknown => true,
        Wildcard::Paranoid => false,
    }
}

// What was found, where a match is all there is to find.
fn found_if(matched: bool) -> Found
    ensures { result ≡ found_if matched }
{
    if matched { Found::Yes } else { Found::No }
}

// A user not fetched is asked for, whatever the user half.
fn ask_if(sound: bool) -> Found
    ensures { result ≡ ask_if sound }
{
    if sound { Found::Ask } else { Found::No }
}

// What the user half t finds, where the host half matches.
fn user_found(t: &[u8], user: User, name: &[u8]) -> Found
    ensures { result ≡ user_found t.now user name.now }
{
    match user {
        User::NotFetched => ask_if(user_sound(t)),
        User::Unknown => found_if(unknown_user_matches(t)),
        User::Known => found_if(known_user_matches(t, name)),
    }
}

// Whether the halves of e, parted at at, make a daemon element and, if it is looked at, what that finds; matched: what the table does that it names.
fn daemon_halves(
    e: &[u8],
    at: usize,
    look: bool,
    matched: bool,
    daemon: &[u8],
    server: Host,
    server_name: &[u8],
) -> KindSeen
    requires { (at ≡ at_sign e.now) × (at < length e.now) }
    ensures { result
        ≡ kind_seen look (daemon_request daemon.now (endpoint server server_name.now))
        (daemon_element (saying matched) e.now) }
{
    let after = at + 1;
    let t = &e[..at];
    let name = daemon_name_seen(t, is_name(t), look, daemon);
    let host = half_read(&e[after..], name.matches, matched, server, server_name);
    KindSeen {
        sound: name.sound & host.sound,
        found: found_if(host.matches),
    }
}

// Whether e, parted at at, is a daemon element and, if it is looked at, what it finds; names: whether every byte of it may stand in a name.
fn daemon_kind(
    e: &[u8],
    at: usize,
    names: bool,
    look: bool,
    matched: bool,
    daemon: &[u8],
    server: Host,
    server_name: &[u8],
) -> KindSeen
    requires at_value { (at ≡ at_sign e.now) × (at ≤ length e.now) }
    requires names_value { names ≡ all is_name_byte e.now }
    ensures { result
        ≡ kind_seen look (daemon_request daemon.now (endpoint server server_name.now))
        (daemon_element (saying matched) e.now) }
{
    if at == e.len() {
        let name = daemon_name_seen(e, names, look, daemon);
        return KindSeen {
            sound: name.sound,
            found: found_if(name.matches),
        };
    }
    daemon_halves(e, at, look, matched, daemon, server, server_name)
}

// Whether the halves of e, parted at at, make a client element and, if it is looked at, what that finds.
fn client_halves(
    e: &[u8],
    at: usize,
    look: bool,
    matched: bool,
    client: Host,
    client_name: &[u8],
    user: User,
    user_name: &[u8],
) -> KindSeen
    requires { (at ≡ at_sign e.now) × (at < length e.now) }
    ensures { result ≡ kind_seen look (client_request (endpoint client client_name.now) user user_name.now)
        (client_element (saying matched) e.now) }
{
    let after = at + 1;
    let host = half_read(&e[after..], look, matched, client, client_name);
    let t = &e[..at];
    let sound = user_sound(t) & host.sound;
    if host.matches {
        return KindSeen {
            sound,
            found: user_found(t, user, user_name),
        };
    }
    KindSeen {
        sound,
        found: Found::No,
    }
}

// Whether e, parted at at, is a client element and, if it is looked at, what it finds; mask: the classes of its bytes.
fn client_kind(
    e: &[u8],
    at: usize,
    mask: u8,
    look: bool,
    matched: bool,
    client: Host,
    client_name: &[u8],
    user: User,
    user_name: &[u8],
) -> KindSeen
    requires at_value { (at ≡ at_sign e.now) × (at ≤ length e.now) }
    requires describes { Describes mask e.now }
    ensures { result ≡ kind_seen look (client_request (endpoint client client_name.now) user user_name.now)
        (client_element (saying matched) e.now) }
{
    if at == e.len() {
        let host = half_seen(
            e,
            mask < 8,
            mask & 241 == 0,
            look,
            matched,
            client,
            client_name,
        );
        return KindSeen {
            sound: host.sound,
            found: found_if(host.matches),
        };
    }
    client_halves(e, at, look, matched, client, client_name, user, user_name)
}

// What the daemon element e finds of a request, and what it counts; mask: the classes of its bytes.
pub fn daemon_found(
    e: &[u8],
    mask: u8,
    tables: &[u8],
    notes: &[u64],
    daemon: &[u8],
    server: Host,
    server_name: &[u8],
) -> Looked
    requires { Describes mask e.now }
    ensures { result ≡ looked_for
        (look_at (daemon_request daemon.now (endpoint server server_name.now))
        (daemon_element (view_of tables.now notes.now).server e.now))
        (capped (element_looked (view_of tables.now notes.now).server_tried e.now)) }
{
    let at = sign_place(e, mask);
    let named = reference_of(tables, notes, 1, e, at);
    let kind = daemon_kind(
        e,
        at,
        mask < 8,
        true,
        named.matches,
        daemon,
        server,
        server_name,
    );
    let found = kind.found;
    Looked {
        found,
        looked: count::if_looked(true, named.tried),
    }
}

// What the client element e finds of a request, and what it counts; mask: the classes of its bytes. One of name bytes names no table.
pub fn client_found(
    e: &[u8],
    mask: u8,
    tables: &[u8],
    notes: &[u64],
    client: Host,
    client_name: &[u8],
    user: User,
    user_name: &[u8],
) -> Looked
    requires { Describes mask e.now }
    ensures { result ≡ looked_for
        (look_at (client_request (endpoint client client_name.now) user user_name.now)
        (client_element (view_of tables.now notes.now).client e.now))
        (capped (element_looked (view_of tables.now notes.now).client_tried e.now)) }
{
    if mask < 8 {
        let host = host_seen(e, true, mask & 241 == 0, true, client, client_name);
        return Looked {
            found: found_if(host.matches),
            looked: count::if_looked(true, 0),
        };
    }
    let at = sign_place(e, mask);
    let named = reference_of(tables, notes, 0, e, at);
    let kind = client_kind(
        e,
        at,
        mask,
        true,
        named.matches,
        client,
        client_name,
        user,
        user_name,
    );
    let found = kind.found;
    Looked {
        found,
        looked: count::if_looked(true, named.tried),
    }
}

// What is wrong with the table that a sound element names.
fn fault_of_naming(naming: Result<(), NamingFault>) -> Result<(), ElementFault>
    ensures { result ≡ misnamed naming }
{
    match naming {
        Ok(()) => Ok(()),
        Err(NamingFault::Missing) => Err(ElementFault::Missing),
        Err(NamingFault::Deep) => Err(ElementFault::Deep),
    }
}

// What is wrong with an element: 9 is answered before 10, and these before what is wrong with the table that it names.
fn fault_of(
    reserved: bool,
    sound: bool,
    naming: Result<(), NamingFault>,
) -> Result<(), ElementFault>
    ensures { result ≡ fault_of reserved sound naming }
{
    if reserved {
        return Err(ElementFault::Reserved);
    }
    if sound {
        fault_of_naming(naming)
    } else {
        Err(ElementFault::Unknown)
    }
}

// What is wrong with any daemon element e and, if it is looked at, what it finds.
fn daemon_any(
    e: &[u8],
    mask: u8,
    look: bool,
    tables: &[u8],
    notes: &[u64],
    daemon: &[u8],
    server: Host,
    server_name: &[u8],
) -> ElementSeen
    requires { Describes mask e.now }
    ensures { result ≡ element_seen look (daemon_request daemon.now (endpoint server server_name.now))
        (daemon_kind (view_of tables.now notes.now)) e.now }
{
    let at = sign_place(e, mask);
    let named = reference_of(tables, notes, 1, e, at);
    let naming = named.naming;
    let kind = daemon_kind(
        e,
        at,
        mask < 8,
        look,
        named.matches,
        daemon,
        server,
        server_name,
    );
    let found = kind.found;
    ElementSeen {
        fault: fault_of(is_daemon_reserved(e, at), kind.sound, naming),
        found,
        looked: count::if_looked(look, named.tried),
    }
}

// What is wrong with the daemon element e and, if it is looked at, what it finds of a request: the daemon's name, and the server's host.
// Most are names, which their bytes and their length tell.
pub fn daemon_seen(
    e: &[u8],
    mask: u8,
    look: bool,
    tables: &[u8],
    notes: &[u64],
    daemon: &[u8],
    server: Host,
    server_name: &[u8],
) -> ElementSeen
    requires { Describes mask e.now }
    ensures { result ≡ element_seen look (daemon_request daemon.now (endpoint server server_name.now))
        (daemon_kind (view_of tables.now notes.now)) e.now }
{
    if !is_word_size(e.len()) & (mask < 8) {
        let name = name_seen(e, true, look, daemon);
        return ElementSeen {
            fault: fault_of(false, name.sound, Ok(())),
            found: found_if(name.matches),
            looked: count::if_looked(look, 0),
        };
    }
    daemon_any(e, mask, look, tables, notes, daemon, server, server_name)
}

// Whether e, a text of name bytes, is a host pattern and, if it is looked at, matches; mask: the classes of its bytes. Most are domains, names
// or dotted, which their bytes, their length and their first byte tell.
fn told_seen(e: &[u8], mask: u8, look: bool, host: Host, name: &[u8]) -> HostSeen
    requires describes { Describes mask e.now }
    requires mask_bound { mask < 8 }
    ensures { result ≡ pattern_seen look (host_pattern e.now) (endpoint host name.now) }
{
    if mask & 241 != 0 {
        if is_word_size(e.len()) {
            return host_seen(e, true, false, look, host, name);
        }
        return named_seen(e, look, host, name);
    }
    if e.len() == 0 {
        return host_seen(e, true, true, look, host, name);
    }
    if e[0] == b'.' {
        return host_seen(e, true, true, look, host, name);
    }
    dotted_seen(e, look, host)
}

// What is wrong with any client element e and, if it is looked at, what it finds.
fn client_any(
    e: &[u8],
    mask: u8,
    look: bool,
    tables: &[u8],
    notes: &[u64],
    client: Host,
    client_name: &[u8],
    user: User,
    user_name: &[u8],
) -> ElementSeen
    requires { Describes mask e.now }
    ensures { result ≡ element_seen look (client_request (endpoint client client_name.now) user user_name.now)
        (client_kind (view_of tables.now notes.now)) e.now }
{
    let at = sign_place(e, mask);
    let named = reference_of(tables, notes, 0, e, at);
    let naming = named.naming;
    let kind = client_kind(
        e,
        at,
        mask,
        look,
        named.matches,
        client,
        client_name,
        user,
        user_name,
    );
    let found = kind.found;
    ElementSeen {
        fault: fault_of(is_client_reserved(e, at), kind.sound, naming),
        found,
        looked: count::if_looked(look, named.tried),
    }
}

// What is wrong with the client element e and, if it is looked at, what it finds of a request: the client's host, and the user before `@`.
// Most are domains and names, which their bytes and their length tell.
pub fn client_seen(
    e: &[u8],
    mask: u8,
    look: bool,
    tables: &[u8],
    notes: &[u64],
    client: Host,
    client_name: &[u8],
    user: User,
    user_name: &[u8],
) -> ElementSeen
    requires { Describes mask e.now }
    ensures { result ≡ element_seen look (client_request (endpoint client client_name.now) user user_name.now)
        (client_kind (view_of tables.now notes.now)) e.now }
{
    if mask < 8 {
        let host = told_seen(e, mask, look, client, client_name);
        return ElementSeen {
            fault: fault_of(false, host.sound, Ok(())),
            found: found_if(host.matches),
            looked: count::if_looked(look, 0),
        };
    }
    client_any(
        e,
        mask,
        look,
        tables,
        notes,
        client,
        client_name,
        user,
        user_name,
    )
}

// Whether s has 1 to max bytes.
fn size_fits(s: &[u8], max: usize) -> bool
    ensures { result ≡ in_range 1 max (length s.now) }
{
    (1 <= s.len()) & (s.len() <= max)
}

// Whether a host's name, where known, is within its size.
fn host_fits(host: Host, name: &[u8]) -> bool
    ensures { result ≡ name_case (endpoint host name.now) true true (in_range 1 255 (length name.now)) }
{
    let state = host.name;
    match state {
        Name::Unknown => true,
        Name::Paranoid => true,
        Name::Known => size_fits(name, 255),
    }
}

// Whether a user's name, where known, is within its size.
fn user_fits(user: User, name: &[u8]) -> bool
    ensures { result ≡ user_fits user name.now }
{
    match user {
        User::NotFetched => true,
        User::Unknown => true,
        User::Known => size_fits(name, 64),
    }
}

// Whether every field of a request is within its size.
pub fn well_formed(
    daemon: &[u8],
    client: Host,
    client_name: &[u8],
    server: Host,
    server_name: &[u8],
    user: User,
    user_name: &[u8],
) -> bool
    ensures { result ≡ well_formed
        (request_of daemon.now (endpoint client client_name.now)
        (endpoint server server_name.now) user user_name.now) }
{
    size_fits(daemon, 64)
        & host_fits(client, client_name)
        & host_fits(server, server_name)
        & user_fits(user, user_name)
}
