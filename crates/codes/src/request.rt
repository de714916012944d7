// What the numbers of a request stand for; a number outside its kinds stands for what is refused by 13.
ghost use Rattle.std.specs.Prelude.{◌≡◌, ◌++◌, ◌≤◌, ◌+◌, length};
ghost use Rattle.text.specs.Basics.{when◌then◌else◌, given, is_some};
ghost use Rattle.text.specs.Scan.{after};
ghost use Rattle.section.specs.Refusal.{fitting};
ghost use Rattle.elements.specs.Request.{well_formed};
ghost use Rattle.elements.specs.Places.{request_at};
ghost use Rattle.codes.specs.Requests.{name_state, user_state, address_of, protocol_of, mark_of, host_numbers, request_numbers, request, known_name, known_user};
ghost use Rattle.codes.specs.Code.{name_by, user_by, addr_by, host_fits, host_taken, numbers_fit, states_of, with_names, placed, unfit};
ghost use Rattle.codes.specs.Code.{protocol_by, mark_by, port_by, address_by, address_from, target_of};

use address::Addr;
use byuid::Mark;
use elements::User;
use elements::element::well_formed;
use elements::request::Request;
use patterns::{Host, Name};
use portacl::Protocol;
use section::Part;

// A host as C hands it over: the state of its name, the kind of its address, and the address.
#[derive(Clone, Copy)]
pub struct HostNumbers {
    pub state: u32,
    pub kind: u32,
    pub high: u64,
    pub low: u64,
}

// The states of a request; fit: every number is of its kinds.
#[derive(Clone, Copy)]
pub struct States {
    pub fit: bool,
    pub client: Host,
    pub server: Host,
    pub user: User,
}

// What is to be bound; fit: both numbers are of their kinds.
#[derive(Clone, Copy)]
pub struct Target {
    pub fit: bool,
    pub protocol: Protocol,
    pub port: u16,
}

// The most bytes that the names of a request have together.
pub const NAMES: usize = 638;

fn is_name_state(n: u32) -> bool
    ensures { result ≡ is_some (name_state n) }
{
    (n == 0) | (n == 1) | (n == 2)
}

fn name_state(n: u32) -> Name
    ensures { result ≡ name_by n }
{
    if n == 1 {
        return Name::Paranoid;
    }
    if n == 2 {
        return Name::Known;
    }
    Name::Unknown
}

fn is_user_state(n: u32) -> bool
    ensures { result ≡ is_some (user_state n) }
{
    (n == 0) | (n == 1) | (n == 2)
}

fn user_state(n: u32) -> User
    ensures { result ≡ user_by n }
{
    if n == 0 {
        return User::NotFetched;
    }
    if n == 2 {
        return User::Known;
    }
    User::Unknown
}

// Whether the numbers stand for an address, an unknown one too.
pub fn is_address(kind: u32, high: u64, low: u64) -> bool
    ensures { result ≡ is_some (address_of kind high low) }
{
    if kind == 4 {
        return low < 4294967296;
    }
    (kind == 0) | (kind == 6)
}

// The address that the numbers stand for; an unknown one where they stand for none.
pub fn address(kind: u32, high: u64, low: u64) -> Addr
    ensures { result ≡ addr_by kind high low }
{
    if kind == 4 {
        if low < 4294967296 {
            return Addr::V4(low as u32);
        }
        return Addr::Unknown;
    }
    if kind == 6 {
        return Addr::V6(high, low);
    }
    Addr::Unknown
}

fn host_fits(h: HostNumbers) -> bool
    ensures { result ≡ host_fits h }
{
    is_name_state(h.state) & is_address(h.kind, h.high, h.low)
}

fn host(h: HostNumbers) -> Host
    ensures { result ≡ host_taken h }
{
    Host {
        name: name_state(h.state),
        addr: address(h.kind, h.high, h.low),
    }
}

fn numbers_fit(client: HostNumbers, server: HostNumbers, user: u32) -> bool
    ensures { result ≡ numbers_fit client server user }
{
    host_fits(client) & host_fits(server) & is_user_state(user)
}

// The states of a request.
pub fn read_states(client: HostNumbers, server: HostNumbers, user: u32) -> States
    ensures { result ≡ states_of client server user }
{
    States {
        fit: numbers_fit(client, server, user),
        client: host(client),
        server: host(server),
        user: user_state(user),
    }
}

// The bytes of a host's name; none where it is not known.
fn known_name(host: Host, name: &[u8]) -> &[u8]
    ensures { result.now ≡ known_name host.name name.now }
{
    let state = host.name;
    match state {
        Name::Unknown => &name[..0],
        Name::Paranoid => &name[..0],
        Name::Known => name,
    }
}

// The bytes of a user's name; none where it is not known.
fn known_user(user: User, name: &[u8]) -> &[u8]
    ensures { result.now ≡ known_user user name.now }
{
    match user {
        User::NotFetched => &name[..0],
        User::Unknown => &name[..0],
        User::Known => name,
    }
}

// Copies four names to the front of a block, one after the other.
fn put_names(names: &mut [u8], daemon: &[u8], client: &[u8], server: &[u8], user: &[u8])
    requires { length daemon.now + length client.now + length server.now + length user.now ≤ length names.old }
    ensures { names.new
        ≡ after (((daemon.now ++ client.now) ++ server.now) ++ user.now) names.old }
{
    let a = text::put(names, 0, daemon);
    let b = text::put(names, a, client);
    let c = text::put(names, b, server);
    text::put(names, c, user);
}

// The request over four names of these lengths that stand at the front of a block.
fn places(
    daemon: usize,
    client: Host,
    client_name: usize,
    server: Host,
    server_name: usize,
    user: User,
    user_name: usize,
) -> Request
    requires { daemon + client_name + server_name + user_name ≤ 638 }
    ensures { result ≡ placed daemon client client_name server server_name user user_name }
{
    Request {
        daemon: Part {
            place: 0,
            len: daemon,
        },
        client,
        client_name: Part {
            place: daemon,
            len: client_name,
        },
        server,
        server_name: Part {
            place: daemon + client_name,
            len: server_name,
        },
        user,
        user_name: Part {
            place: daemon + client_name + server_name,
            len: user_name,
        },
    }
}

// A request that is refused by 13: it has no daemon.
fn unfit_request() -> Request
    ensures { result ≡ unfit }
{
    let nobody = Host {
        name: Name::Unknown,
        addr: Addr::Unknown,
    };
    places(0, nobody, 0, nobody, 0, User::Unknown, 0)
}

// Copies the names that are known into the block, and answers the request over it; one that is refused by 13 is not copied.
fn gather(
    names: &mut [u8],
    states: States,
    daemon: &[u8],
    client_name: &[u8],
    server_name: &[u8],
    user_name: &[u8],
) -> Request
    requires { 638 ≤ length names.old }
    ensures { fitting well_formed (Some (request_at names.new result)) Ok
        ≡ fitting well_formed
        (given states.fit
        (with_names states daemon.now client_name.now server_name.now user_name.now)) Ok }
{
    let client = states.client;
    let server = states.server;
    let user = states.user;
    let c = known_name(client, client_name);
    let s = known_name(server, server_name);
    let u = known_user(user, user_name);
    if states.fit & well_formed(daemon, client, c, server, s, user, u) {
        put_names(names, daemon, c, s, u);
        return places(
            daemon.len(),
            client,
            c.len(),
            server,
            s.len(),
            user,
            u.len(),
        );
    }
    unfit_request()
}

// The request that C hands over, its names copied into a block.
pub fn read(
    names: &mut [u8],
    daemon: &[u8],
    client_state: u32,
    client_kind: u32,
    client_high: u64,
    client_low: u64,
    client_name: &[u8],
    server_state: u32,
    server_kind: u32,
    server_high: u64,
    server_low: u64,
    server_name: &[u8],
    user: u32,
    user_name: &[u8],
) -> Request
    requires { 638 ≤ length names.old }
    ensures { fitting well_formed (Some (request_at names.new result)) Ok
        ≡ fitting well_formed
        (request
        (request_numbers daemon.now (host_numbers client_state client_kind client_high client_low) client_name.now
        (host_numbers server_state server_kind server_high server_low) server_name.now user user_name.now)) Ok }
{
    let client = HostNumbers {
        state: client_state,
        kind: client_kind,
        high: client_high,
        low: client_low,
    };
    let server = HostNumbers {
        state: server_state,
        kind: server_kind,
        high: server_high,
        low: server_low,
    };
    let states = read_states(client, server, user);
    gather(names, states, daemon, client_name, server_name, user_name)
}

// The port of a bind; 0 where it is over 16 bits.
pub fn port_by(port: u32) -> u16
    ensures { result ≡ port_by port }
{
    if port < 65536 {
        return port as u16;
    }
    0
}

fn is_mark(n: u32) -> bool
    ensures { result ≡ is_some (mark_of n) }
{
    (n == 0) | (n == 1)
}

// The file that a byuid text comes from; the plain one where the number stands for neither.
pub fn mark_by(n: u32) -> Mark
    ensures { result ≡ mark_by n }
{
    if n == 1 {
        return Mark::Marked;
    }
    Mark::Plain
}

// The address of a bind for the byuid decision.
pub fn address_by(port: u32, kind: u32, high: u64, low: u64) -> Addr
    ensures { result ≡ address_by port kind high low }
{
    if port < 65536 {
        return address(kind, high, low);
    }
    Addr::Unknown
}

// The same for the decision by a lone text: unknown also where the file is neither.
pub fn address_from(mark: u32, port: u32, kind: u32, high: u64, low: u64) -> Addr
    ensures { result ≡ address_from mark port kind high low }
{
    if is_mark(mark) {
        return address_by(port, kind, high, low);
    }
    Addr::Unknown
}

fn is_protocol(n: u32) -> bool
    ensures { result ≡ is_some (protocol_of n) }
{
    (n == 6) | (n == 17)
}

fn protocol_of(n: u32) -> Protocol
    ensures { result ≡ protocol_by n }
{
    if n == 17 {
        return Protocol::Udp;
    }
    Protocol::Tcp
}

// What is to be bound, for the portacl decision.
pub fn read_target(protocol: u32, port: u32) -> Target
    ensures { result ≡ target_of protocol port }
{
    Target {
        fit: is_protocol(protocol) & (port < 65536),
        protocol: protocol_of(protocol),
        port: port_by(port),
    }
}

// The groups of a bind whose numbers fit; of another too many.
pub fn groups_if<'a>(fit: bool, groups: &'a [u32], too_many: &'a [u32]) -> &'a [u32]
    ensures { result.now ≡ (when fit then groups.now else too_many.now) }
{
    if fit {
        return groups;
    }
    too_many
}
