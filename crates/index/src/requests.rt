// Requests, one after the other: their fields by places.
//   request_at(bytes)     == the fields of the request that bytes begin with
//   count_requests(bytes) == how many there are; none where there are more than 32, or they can't be parted
ghost use Rattle.std.specs.Prelude.{◌≡◌, ◌+◌, ◌≤◌, ◌<◌, length, get_or};
ghost use Rattle.index.specs.Index.{number_at, read_requests};
ghost use Rattle.index.specs.Code.{number_from, text_at, numbers_at, host_at, user_from, hosts_from, fields_at};
ghost use Rattle.index.specs.Code.{counted_of};

use codes::request::HostNumbers;
use section::Part;

// A host: its numbers, and the place of its name.
#[derive(Clone, Copy)]
pub struct HostFields {
    pub numbers: HostNumbers,
    pub name: Part,
}

// A request: its numbers, the places of its texts, and where it ends.
#[derive(Clone, Copy)]
pub struct Fields {
    pub daemon: Part,
    pub client: HostFields,
    pub server: HostFields,
    pub user: u32,
    pub user_name: Part,
    pub end: usize,
}

fn byte_at(bytes: &[u8], at: usize) -> u8
    requires { at < length bytes.now }
    ensures { result ≡ get_or bytes.now at 0 }
{
    bytes[at]
}

// The text after its count at a place.
fn text_at(bytes: &[u8], at: usize) -> Option<Part>
    ensures { result ≡ text_at at bytes.now }
{
    if bytes.len() <= at {
        return None;
    }
    let n = byte_at(bytes, at) as usize;
    if bytes.len() - at <= n {
        return None;
    }
    Some(Part {
        place: at + 1,
        len: n,
    })
}

// The number in the four bytes from a place on.
pub fn four_at(bytes: &[u8], at: usize) -> u32
    requires { at + 4 ≤ length bytes.now }
    ensures { result ≡ number_from at bytes.now }
{
    let first = byte_at(bytes, at) as u32;
    let second = byte_at(bytes, at + 1) as u32;
    let third = byte_at(bytes, at + 2) as u32;
    let fourth = byte_at(bytes, at + 3) as u32;
    ((first * 256 + second) * 256 + third) * 256 + fourth
}

// The number in the eight bytes from a place on.
fn eight_at(bytes: &[u8], at: usize) -> u64
    requires { at + 8 ≤ length bytes.now }
    ensures { result ≡ number_at at 8 bytes.now }
{
    let high = four_at(bytes, at) as u64;
    let low = four_at(bytes, at + 4) as u64;
    high * 4294967296 + low
}

// The numbers of a host at a place.
fn numbers_at(bytes: &[u8], at: usize) -> HostNumbers
    requires { at + 18 ≤ length bytes.now }
    ensures { result ≡ numbers_at at bytes.now }
{
    HostNumbers {
        state: byte_at(bytes, at) as u32,
        kind: byte_at(bytes, at + 1) as u32,
        high: eight_at(bytes, at + 2),
        low: eight_at(bytes, at + 10),
    }
}

// The host at a place.
fn host_at(bytes: &[u8], at: usize) -> Option<HostFields>
    requires { at ≤ length bytes.now }
    ensures { result ≡ host_at at bytes.now }
{
    if bytes.len() - at < 18 {
        return None;
    }
    let name = text_at(bytes, at + 18)?;
    Some(HostFields {
        numbers: numbers_at(bytes, at),
        name,
    })
}

// The fields of a request, read from its user on.
fn user_from(bytes: &[u8], daemon: Part, client: HostFields, server: HostFields) -> Option<Fields>
    requires { server.name.place + server.name.len ≤ length bytes.now }
    ensures { result ≡ user_from daemon client server bytes.now }
{
    let at = server.name.place + server.name.len;
    if bytes.len() <= at {
        return None;
    }
    let name = text_at(bytes, at + 1)?;
    Some(Fields {
        daemon,
        client,
        server,
        user: byte_at(bytes, at) as u32,
        user_name: name,
        end: name.place + name.len,
    })
}

// The fields of a request, read from its client on.
fn client_from(bytes: &[u8], daemon: Part) -> Option<Fields>
    requires { daemon.place + daemon.len ≤ length bytes.now }
    ensures { result ≡ hosts_from daemon bytes.now }
{
    let client = host_at(bytes, daemon.place + daemon.len)?;
    let server = host_at(bytes, client.name.place + client.name.len)?;
    user_from(bytes, daemon, client, server)
}

// The fields of the request that bytes begin with.
pub fn request_at(bytes: &[u8]) -> Option<Fields>
    ensures { result ≡ fields_at bytes.now }
{
    let daemon = text_at(bytes, 0)?;
    client_from(bytes, daemon)
}

// How many requests there are, at most 32.
pub fn count_requests(bytes: &[u8]) -> Option<u8>
    ensures { result ≡ counted_of (read_requests bytes.now) }
{
    let mut rest = bytes;
    let mut count: u8 = 0;
    while 0 < rest.len() {
        if count == 32 {
            return None;
        }
        let fields = match request_at(rest) {
            None => return None,
            Some(fields) => fields,
        };
        let end = fields.end;
        let next = &rest[end..];
        rest = next;
        count += 1;
    }
    Some(count)
}
