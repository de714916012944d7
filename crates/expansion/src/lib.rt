// Expansion of a rule's command into a lent output.
//   expand(out, command, ..) == writes what the command expands to for a request at the front of out, or refuses
//   is_safe(b)   == b is a letter, a digit or one of the marks of the house set
//   safe_byte(b) == b as it is inserted
#![tactic(auto)]

pub mod directive;
pub mod write;

ghost use Rattle.std.specs.Prelude.{◌≡◌, true, ◌||◌, ◌≤◌, length};
ghost use Rattle.text.specs.Text.{is_letter, is_digit, among};
ghost use Rattle.section.specs.Refusal.{within_room, written_of, lent_after};
ghost use Rattle.lines.specs.Line.{join};
ghost use Rattle.lines.specs.Command.{trimmed};
ghost use Rattle.elements.specs.Request.{well_formed, held as heldAs};
ghost use Rattle.elements.specs.Places.{request_at};
ghost use Rattle.expansion.specs.Expand.{safe_byte, expand as expandBy};
ghost use Rattle.expansion.specs.Code.{texts_of, given_at, expansion_by, expand_trimmed};

use crate::directive::Given;
use crate::write::write_expansion;
use address_format::put_address;
use elements::request::{Request, fits};
use lines::command::{has_bad_percent, trim};
use lines::line::{join_into, joined};
use section::{Fault, Part, Refusal};

// Whether b is one of the marks `@%-_=+:,./`.
fn is_safe_mark(b: u8) -> bool
    ensures { result ≡ among "@%-_=+:,./" b }
{
    (b == b'@')
        | ((b == b'%')
            | ((b == b'-')
                | ((b == b'_')
                    | ((b == b'=')
                        | ((b == b'+')
                            | ((b == b':') | ((b == b',') | ((b == b'.') | (b == b'/')))))))))
}

pub fn is_safe(b: u8) -> bool
    ensures { result ≡ (is_letter b || is_digit b || among "@%-_=+:,./" b) }
{
    text::is_letter(b) | text::is_digit(b) | is_safe_mark(b)
}

pub fn safe_byte(b: u8) -> u8
    ensures { result ≡ safe_byte b }
{
    if is_safe(b) { b } else { b'_' }
}

// The texts of a request's addresses and of the process number, after the words, end at a, b and n.
fn given_at(request: Request, a: usize, b: usize, n: usize) -> Given
    requires { (16 ≤ a) × ((a ≤ b) × (b ≤ n)) }
    ensures { result ≡ given_at request a b n }
{
    Given {
        request,
        client: Part {
            place: 16,
            len: a - 16,
        },
        server: Part {
            place: a,
            len: b - a,
        },
        process: Part {
            place: b,
            len: n - b,
        },
    }
}

// Expands a joined and trimmed command for a request whose fields are within their sizes.
fn expand_request<'a>(
    out: &mut [u8],
    t: &'a [u8],
    names: &'a [u8],
    request: Request,
    process: u32,
) -> Result<usize, Refusal>
    requires { (length t.now ≤ 2047) × (well_formed (request_at names.now request) ≡ true) }
    ensures answer { result
        ≡ written_of (within_room (length out.old) (expansion_by (texts_of (request_at names.now request) process) t.now)) }
    ensures holds { out.new
        ≡ lent_after out.old
        (within_room (length out.old) (expansion_by (texts_of (request_at names.now request) process) t.now)) }
{
    let client = request.client;
    let server = request.server;
    let client_addr = client.addr;
    let server_addr = server.addr;
    let mut texts = [0u8; 104];
    let w = text::put(&mut texts, 0, b"unknownparanoid%");
    let a = put_address(&mut texts, w, client_addr);
    let b = put_address(&mut texts, a, server_addr);
    let n = text::put_decimal(&mut texts, b, process);
    write_expansion(out, t, names, &texts, given_at(request, a, b, n))
}

// Expands a joined and trimmed command of at most 2,047 bytes, after the checks for 11 and 13.
fn expand_trimmed<'a>(
    out: &mut [u8],
    t: &'a [u8],
    names: &'a [u8],
    request: Request,
    process: u32,
) -> Result<usize, Refusal>
    requires { length t.now ≤ 2047 }
    ensures answer { result ≡ written_of (expand_trimmed t.now (request_at names.now request) process (length out.old)) }
    ensures holds { out.new
        ≡ lent_after out.old (expand_trimmed t.now (request_at names.now request) process (length out.old)) }
{
    if has_bad_percent(t) {
        return Err(section::placeless(Fault::BadPercent));
    }
    if fits(names, request) {
        return expand_request(out, t, names, request, process);
    }
    Err(section::placeless(Fault::BadRequest))
}

// Expands a command whose bytes may stand in a line, and which has at most 2,047 of them when joined, for the request as it is held.
fn expand_line<'a>(
    out: &mut [u8],
    command: &'a [u8],
    names: &'a [u8],
    request: Request,
    process: u32,
) -> Result<usize, Refusal>
    requires { length (join command.now) ≤ 2047 }
    ensures answer { result
        ≡ written_of (expand_trimmed (trimmed command.now) (heldAs (request_at names.now request)) process (length out.old)) }
    ensures holds { out.new
        ≡ lent_after out.old
        (expand_trimmed (trimmed command.now) (heldAs (request_at names.now request)) process (length out.old)) }
{
    let held = elements::request::held(request);
    let mut line = [0u8; 2047];
    let n = join_into(&mut line, command);
    let t = trim(&line[..n]);
    expand_trimmed(out, t, names, held, process)
}

// Expands a command for a request at the front of out; a refusal leaves out as it was.
pub fn expand<'a>(
    out: &mut [u8],
    command: &'a [u8],
    names: &'a [u8],
    request: Request,
    process: u32,
) -> Result<usize, Refusal>
    ensures answer { result
        ≡ written_of (expandBy command.now (Some (request_at names.now request)) process (length out.old)) }
    ensures holds { out.new
        ≡ lent_after out.old (expandBy command.now (Some (request_at names.now request)) process (length out.old)) }
{
    let measured = joined(command);
    let len = measured.len;
    let clean = measured.clean;
    if clean {
        if len <= 2047 {
            return expand_line(out, command, names, request, process);
        }
        return Err(section::placeless(Fault::LongLine));
    }
    Err(section::placeless(Fault::BadByte))
}
