// The byuid lines that grant a user id what a portacl list grants it. The list is walked once, and the ports of its entries are noted in two sets.
//   carry(plain, marked, text, uid) == the call: every check, then the lines for the plain and for the marked file
#![tactic(auto)]

ghost use Rattle.std.specs.Prelude.{◌≡◌, ◌+◌, ◌≤◌, ◌<◌, length};
ghost use Rattle.text.specs.Scan.{put_at, after};
ghost use Rattle.section.specs.Refusal.{within_rooms, first_after, second_after, written_two_of};
ghost use Rattle.carry.specs.Carry.{port_lines, span_lines, plain_text, marked_text, carry as carryOf};
ghost use Rattle.carry.specs.Code.{in_both, lines_if, address_line};

use section::{Fault, Refusal};

// Whether a port is noted in both sets.
fn is_in_both(tcp: &[u8], udp: &[u8], port: usize) -> bool
    ensures { result ≡ in_both tcp.now udp.now port }
{
    if tcp.len() <= port {
        return false;
    }
    if udp.len() <= port {
        return false;
    }
    (tcp[port] == 1) & (udp[port] == 1)
}

// How many bytes the lines of a port have.
fn port_len(tcp: &[u8], udp: &[u8], port: usize) -> usize
    requires { port < 1024 }
    ensures count { result ≡ length (lines_if (in_both tcp.now udp.now) port) }
    ensures few { result ≤ 37 }
{
    if is_in_both(tcp, udp, port) {
        return 17 + 2 * text::decimal_len(port as u32);
    }
    0
}

// How many bytes the lines have, of so many ports from one on.
fn measure(tcp: &[u8], udp: &[u8], from: usize, count: usize) -> usize
    requires { from + count ≤ 1024 }
    ensures { result ≡ length (span_lines (in_both tcp.now udp.now) count from) }
{
    let mut bytes = 0;
    for k in 0..count {
        bytes += port_len(tcp, udp, from + k);
    }
    bytes
}

// Writes one line of a port: a net with its comma, the port, a newline.
fn put_line(out: &mut [u8], at: usize, net: &[u8], port: u32) -> usize
    requires { at + length (address_line net.now port) ≤ length out.old }
    ensures next { result ≡ at + length (address_line net.now port) }
    ensures written { out.new ≡ put_at out.old at (address_line net.now port) }
{
    let number = text::put(out, at, net);
    let end = text::put_decimal(out, number, port);
    text::put(out, end, b"\n")
}

// Writes both lines of a port.
fn put_lines(out: &mut [u8], at: usize, port: u32) -> usize
    requires { at + length (port_lines port) ≤ length out.old }
    ensures next { result ≡ at + length (port_lines port) }
    ensures written { out.new ≡ put_at out.old at (port_lines port) }
{
    let next = put_line(out, at, b"0.0.0.0/0,", port);
    put_line(out, next, b"::/0,", port)
}

// Writes the lines of a port, where it is noted in both sets.
fn put_port(out: &mut [u8], at: usize, tcp: &[u8], udp: &[u8], port: usize) -> usize
    requires span { port < 1024 }
    requires room { at + length (lines_if (in_both tcp.now udp.now) port) ≤ length out.old }
    ensures next { result ≡ at + length (lines_if (in_both tcp.now udp.now) port) }
    ensures written { out.new ≡ put_at out.old at (lines_if (in_both tcp.now udp.now) port) }
{
    if is_in_both(tcp, udp, port) {
        return put_lines(out, at, port as u32);
    }
    at
}

// Writes the lines of so many ports from one on at the front of out.
fn put_span(out: &mut [u8], tcp: &[u8], udp: &[u8], from: usize, count: usize) -> usize
    requires span { from + count ≤ 1024 }
    requires room { length (span_lines (in_both tcp.now udp.now) count from) ≤ length out.old }
    ensures next { result ≡ length (span_lines (in_both tcp.now udp.now) count from) }
    ensures written { out.new ≡ after (span_lines (in_both tcp.now udp.now) count from) out.old }
{
    let mut at = 0;
    for k in 0..count {
        let next = put_port(out, at, tcp, udp, from + k);
        at = next;
    }
    at
}

// Writes both texts, where both have room.
fn write_texts(
    plain: &mut [u8],
    marked: &mut [u8],
    tcp: &[u8],
    udp: &[u8],
) -> Result<(usize, usize), Refusal>
    ensures answer { result
        ≡ written_two_of
        (within_rooms (length plain.old) (length marked.old)
        (plain_text (in_both tcp.now udp.now), marked_text (in_both tcp.now udp.now))) }
    ensures lower { plain.new
        ≡ first_after plain.old
        (within_rooms (length plain.old) (length marked.old)
        (plain_text (in_both tcp.now udp.now), marked_text (in_both tcp.now udp.now))) }
    ensures upper { marked.new
        ≡ second_after marked.old
        (within_rooms (length plain.old) (length marked.old)
        (plain_text (in_both tcp.now udp.now), marked_text (in_both tcp.now udp.now))) }
{
    if plain.len() < measure(tcp, udp, 1, 511) {
        return Err(section::placeless(Fault::NoRoom));
    }
    if marked.len() < measure(tcp, udp, 512, 512) {
        return Err(section::placeless(Fault::NoRoom));
    }
    let lower = put_span(plain, tcp, udp, 1, 511);
    let upper = put_span(marked, tcp, udp, 512, 512);
    Ok((lower, upper))
}

// Writes the byuid lines for the user id at the front of both outputs: the plain file's and the marked file's. A refusal leaves both as they were.
pub fn carry(
    plain: &mut [u8],
    marked: &mut [u8],
    text: &[u8],
    uid: u32,
) -> Result<(usize, usize), Refusal>
    ensures answer { result
        ≡ written_two_of (carryOf text.now uid (length plain.old) (length marked.old)) }
    ensures lower { plain.new
        ≡ first_after plain.old (carryOf text.now uid (length plain.old) (length marked.old)) }
    ensures upper { marked.new
        ≡ second_after marked.old (carryOf text.now uid (length plain.old) (length marked.old)) }
{
    if section::Portacl::over(text.len()) {
        return Err(section::Portacl::refusal(Fault::OverLimit, 0));
    }
    let mut tcp = [0u8; 1024];
    let mut udp = [0u8; 1024];
    portacl::note_ports(&mut tcp, &mut udp, text, uid)?;
    if uid == 0 {
        return Err(section::placeless(Fault::BadRequest));
    }
    write_texts(plain, marked, &tcp, &udp)
}
