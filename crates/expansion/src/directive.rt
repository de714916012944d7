// What a `%` with the byte after it inserts, for a request over the block names and the texts of its numbers in a second block.
//   inserted_length(y, ..)   == how many bytes y inserts
//   put_inserted(out, at, y, ..) == writes them, the unsafe ones as underscores
ghost use Rattle.std.specs.Prelude.{◌≡◌, true, false, ◌||◌, [], ◌++◌, map, ◌+◌, ◌≤◌, length};
ghost use Rattle.text.specs.Text.{bytes};
ghost use Rattle.text.specs.Scan.{put_at};
ghost use Rattle.patterns.specs.Host.{endpoint, name_known, addr_known};
ghost use Rattle.expansion.specs.Expand.{safe_byte};
ghost use Rattle.section.specs.Section.{part, bytes_at};
ghost use Rattle.expansion.specs.Code.{texts_at, Short, name_with, host_with, user_state, has_at, before_at, service_text, after_at, inserted_by};

use crate::safe_byte;
use address::Addr;
use elements::User;
use elements::request::Request;
use patterns::{Host, Name};
use section::{Part, part_of};

// A request, and where the texts of its addresses and of the process number stand.
#[derive(Clone, Copy)]
pub struct Given {
    pub request: Request,
    pub client: Part,
    pub server: Part,
    pub process: Part,
}

// The words at the front of the block of texts.
pub const UNKNOWN: Part = Part { place: 0, len: 7 };

pub const PARANOID: Part = Part { place: 7, len: 8 };

pub const PERCENT: Part = Part { place: 15, len: 1 };

// The name, or the word for its state.
fn name_text<'a>(names: &'a [u8], texts: &'a [u8], host: Host, name: Part) -> &'a [u8]
    ensures { result.now
        ≡ name_with (bytes_at texts.now (part 0 7)) (bytes_at texts.now (part 7 8)) (endpoint host (bytes_at names.now name)) }
{
    let state = host.name;
    match state {
        Name::Unknown => part_of(texts, UNKNOWN),
        Name::Paranoid => part_of(texts, PARANOID),
        Name::Known => part_of(names, name),
    }
}

// The known name, else the text of the address.
fn host_text<'a>(
    names: &'a [u8],
    texts: &'a [u8],
    host: Host,
    name: Part,
    address: Part,
) -> &'a [u8]
    ensures { result.now ≡ host_with (endpoint host (bytes_at names.now name)) (bytes_at texts.now address) }
{
    let state = host.name;
    match state {
        Name::Unknown => part_of(texts, address),
        Name::Paranoid => part_of(texts, address),
        Name::Known => part_of(names, name),
    }
}

fn address_known(host: Host) -> bool
    ensures { result ≡ addr_known (endpoint host []) }
{
    let addr = host.addr;
    match addr {
        Addr::Unknown => false,
        Addr::V4(_) => true,
        Addr::V6(_, _) => true,
    }
}

// Whether a host's name or address is known.
fn host_known(host: Host) -> bool
    ensures { result ≡ (name_known (endpoint host []) || addr_known (endpoint host [])) }
{
    let state = host.name;
    match state {
        Name::Unknown => address_known(host),
        Name::Paranoid => address_known(host),
        Name::Known => true,
    }
}

// The known user, else the word for that.
fn user_text<'a>(names: &'a [u8], texts: &'a [u8], user: User, name: Part) -> &'a [u8]
    ensures { result.now ≡ user_state user (bytes_at texts.now (part 0 7)) (bytes_at names.now name) }
{
    match user {
        User::NotFetched => part_of(texts, UNKNOWN),
        User::Unknown => part_of(texts, UNKNOWN),
        User::Known => part_of(names, name),
    }
}

fn user_known(user: User) -> bool
    ensures { result ≡ user_state user false true }
{
    match user {
        User::NotFetched => false,
        User::Unknown => false,
        User::Known => true,
    }
}

// Whether y inserts a name and an `@` before its text.
fn has_at<'a>(y: u8, names: &'a [u8], texts: &'a [u8], g: Given) -> bool
    ensures { result ≡ has_at (texts_at names.now texts.now g) y }
{
    let q = g.request;
    let user = q.user;
    let server = q.server;
    ((y == b'c') & user_known(user)) | ((y == b's') & host_known(server))
}

// That name.
fn name_before<'a>(y: u8, names: &'a [u8], texts: &'a [u8], g: Given) -> &'a [u8]
    ensures { result.now ≡ before_at (texts_at names.now texts.now g) y }
{
    let q = g.request;
    let user = q.user;
    if y == b'c' {
        return user_text(names, texts, user, q.user_name);
    }
    part_of(names, q.daemon)
}

// The text that %s inserts after the `@`, or alone.
fn service_text<'a>(names: &'a [u8], texts: &'a [u8], g: Given) -> &'a [u8]
    ensures { result.now ≡ service_text (texts_at names.now texts.now g) }
{
    let q = g.request;
    let server = q.server;
    if host_known(server) {
        return host_text(names, texts, server, q.server_name, g.server);
    }
    part_of(names, q.daemon)
}

// The text that y inserts after an `@`, or alone.
fn directive_text<'a>(y: u8, names: &'a [u8], texts: &'a [u8], g: Given) -> &'a [u8]
    ensures { result.now ≡ after_at (texts_at names.now texts.now g) y }
{
    let q = g.request;
    let client = q.client;
    let server = q.server;
    let user = q.user;
    match y {
        b'a' => part_of(texts, g.client),
        b'A' => part_of(texts, g.server),
        b'n' => name_text(names, texts, client, q.client_name),
        b'N' => name_text(names, texts, server, q.server_name),
        b'h' | b'c' => host_text(names, texts, client, q.client_name, g.client),
        b'H' => host_text(names, texts, server, q.server_name, g.server),
        b'u' => user_text(names, texts, user, q.user_name),
        b'd' => part_of(names, q.daemon),
        b's' => service_text(names, texts, g),
        b'p' => part_of(texts, g.process),
        b'%' => part_of(texts, PERCENT),
        _ => &names[..0],
    }
}

// Writes s from at on, its unsafe bytes as underscores, and answers the place after it.
fn put_safe(out: &mut [u8], at: usize, s: &[u8]) -> usize
    requires { at + length (map safe_byte s.now) ≤ length out.old }
    ensures next { result ≡ at + length (map safe_byte s.now) }
    ensures written { out.new ≡ put_at out.old at (map safe_byte s.now) }
{
    for j in 0..s.len() {
        out[at + j] = safe_byte(s[j]);
    }
    at + s.len()
}

// Writes a name, an `@` and a text.
fn put_joined(out: &mut [u8], at: usize, name: &[u8], text: &[u8]) -> usize
    requires { at + length (map safe_byte (name.now ++ (bytes "@" ++ text.now))) ≤ length out.old }
    ensures next { result ≡ at + length (map safe_byte (name.now ++ (bytes "@" ++ text.now))) }
    ensures written { out.new ≡ put_at out.old at (map safe_byte (name.now ++ (bytes "@" ++ text.now))) }
{
    let p = put_safe(out, at, name);
    out[p] = b'@';
    put_safe(out, p + 1, text)
}

// How many bytes y inserts.
pub fn inserted_length<'a>(y: u8, names: &'a [u8], texts: &'a [u8], g: Given) -> usize
    requires { Short (texts_at names.now texts.now g) }
    ensures length { result ≡ length (map safe_byte (inserted_by (texts_at names.now texts.now g) y)) }
    ensures within { result ≤ 320 }
{
    let text = directive_text(y, names, texts, g);
    if has_at(y, names, texts, g) {
        let name = name_before(y, names, texts, g);
        return name.len() + 1 + text.len();
    }
    text.len()
}

// Writes what y inserts from at on, and answers the place after it.
pub fn put_inserted<'a>(
    out: &mut [u8],
    at: usize,
    y: u8,
    names: &'a [u8],
    texts: &'a [u8],
    g: Given,
) -> usize
    requires { at + length (map safe_byte (inserted_by (texts_at names.now texts.now g) y)) ≤ length out.old }
    ensures next { result ≡ at + length (map safe_byte (inserted_by (texts_at names.now texts.now g) y)) }
    ensures written { out.new
        ≡ put_at out.old at (map safe_byte (inserted_by (texts_at names.now texts.now g) y)) }
{
    let text = directive_text(y, names, texts, g);
    if has_at(y, names, texts, g) {
        return put_joined(out, at, name_before(y, names, texts, g), text);
    }
    put_safe(out, at, text)
}
