// The order in which authbind looks at its files.
//   next_step(out, port, addr, uid, answers) == the call: every check, then the file to test next, the byuid file, or the outcome
#![tactic(auto)]

ghost use Rattle.std.specs.Prelude.{◌≡◌, true, false, ◌+◌, ◌*◌, ◌^◌, ◌≤◌, length};
ghost use Rattle.text.specs.Basics.{all};
ghost use Rattle.text.specs.Scan.{put_at};
ghost use Rattle.section.specs.Refusal.{within_room, written_of, lent_after};
ghost use Rattle.address.specs.Address.{addr_case};
ghost use Rattle.byuid.specs.Byuid.{bind};
ghost use Rattle.authbind.specs.Authbind.{dotted, left_out, asking, next_step, name_written, next_of};
ghost use Rattle.authbind.specs.Code.{is_access, settled_by, turn_at, count_tests, file_of, folder_of, mark_for, third_text, address_in, number_in, name_for};
ghost use Rattle.authbind.specs.Code.{test_of, read_of, step_at};

use address::Addr;
use section::{Fault, Refusal};

// What an access test found; a byte for each, in this order from 0 on.
#[derive(Clone, Copy)]
pub enum Access {
    Absent,
    Allowed,
    Other,
}

// What comes next: a file to test, the byuid file to read, or the outcome; with a name, how many bytes of it were written.
#[derive(Clone, Copy)]
pub enum Next {
    Refused(Refusal),
    NotRuled,
    Granted,
    Denied,
    Test(usize),
    Read(usize),
}

// A file that is looked at: byport, byaddr with a comma, the third test of an address, byuid.
#[derive(Clone, Copy)]
enum File {
    Port,
    Address,
    Third,
    Uid,
}

// Where the answers lead: to a test by its place in the order, to byuid, to an outcome, or to an answer too many.
#[derive(Clone, Copy)]
enum Turn {
    Test(usize),
    Byuid,
    Allowed,
    Other,
    Late,
}

// Whether every answer is of the kinds.
fn all_kinds(answers: &[u8]) -> bool
    ensures { result ≡ all is_access answers.now }
{
    answers.iter().all(|answer| *answer <= 2)
}

// Where an answer leads that is not "absent", and that others follow or not.
fn settled(answer: u8, last: bool) -> Turn
    ensures { result ≡ settled_by answer last }
{
    if last {
        if answer == 1 {
            return Turn::Allowed;
        }
        return Turn::Other;
    }
    Turn::Late
}

// Where the answers lead, of so many tests.
fn turn_after(answers: &[u8], tests: usize) -> Turn
    ensures { result ≡ turn_at 0 answers.now tests }
{
    for (i, answer) in answers.iter().enumerate() {
        if tests <= i {
            return Turn::Late;
        }
        if *answer != 0 {
            return settled(*answer, i + 1 == answers.len());
        }
    }
    if answers.len() < tests {
        return Turn::Test(answers.len());
    }
    Turn::Byuid
}

// Whether an IPv6 address is one that inet_ntop may write with dots.
fn is_dotted(high: u64, low: u64) -> bool
    ensures { result ≡ dotted (high * 2 ^ 64 + low) }
{
    let top = low >> 32;
    (high == 0) & ((top == 65535) | ((top == 0) & (low >> 16 != 0)))
}

fn is_left_out(addr: Addr) -> bool
    ensures { result ≡ left_out addr }
{
    match addr {
        Addr::Unknown => false,
        Addr::V4(_) => false,
        Addr::V6(high, low) => is_dotted(high, low),
    }
}

// How many tests come before byuid.
fn count_tests(addr: Addr) -> usize
    ensures { result ≡ count_tests addr }
{
    match addr {
        Addr::Unknown => 2,
        Addr::V4(_) => 3,
        Addr::V6(high, low) => if address_format::is_abbreviated(high, low) {
            3
        } else {
            2
        },
    }
}

fn file_of(test: usize) -> File
    ensures { result ≡ file_of test }
{
    if test == 0 {
        return File::Port;
    }
    if test == 1 {
        return File::Address;
    }
    File::Third
}

fn put_folder(out: &mut [u8], file: File) -> usize
    requires { 0 + length (folder_of file) ≤ length out.old }
    ensures next { result ≡ 0 + length (folder_of file) }
    ensures written { out.new ≡ put_at out.old 0 (folder_of file) }
{
    match file {
        File::Port => text::put(out, 0, b"/etc/authbind/byport/"),
        File::Address => text::put(out, 0, b"/etc/authbind/byaddr/"),
        File::Third => text::put(out, 0, b"/etc/authbind/byaddr/"),
        File::Uid => text::put(out, 0, b"/etc/authbind/byuid/"),
    }
}

// Writes the mark before the leaf, where the port needs one.
fn put_mark(out: &mut [u8], at: usize, port: u16) -> usize
    requires { at + length (mark_for port) ≤ length out.old }
    ensures next { result ≡ at + length (mark_for port) }
    ensures written { out.new ≡ put_at out.old at (mark_for port) }
{
    if (512 <= port) & (port <= 1023) {
        return text::put(out, at, b"!");
    }
    at
}

// Writes the address that stands in the name of the third test, and its mark.
fn put_third(out: &mut [u8], at: usize, addr: Addr) -> usize
    requires { at + length (third_text addr) ≤ length out.old }
    ensures next { result ≡ at + length (third_text addr) }
    ensures written { out.new ≡ put_at out.old at (third_text addr) }
{
    match addr {
        Addr::Unknown => at,
        Addr::V4(_) => {
            let colon = address_format::put_address(out, at, addr);
            text::put(out, colon, b":")
        }
        Addr::V6(high, low) => {
            let comma = address_format::put_unabbreviated(out, at, high, low);
            text::put(out, comma, b",")
        }
    }
}

// Writes the address that stands in the name of a file, and its mark.
fn put_address_in(out: &mut [u8], at: usize, file: File, addr: Addr) -> usize
    requires { at + length (address_in file addr) ≤ length out.old }
    ensures next { result ≡ at + length (address_in file addr) }
    ensures written { out.new ≡ put_at out.old at (address_in file addr) }
{
    match file {
        File::Port => at,
        File::Address => {
            let comma = address_format::put_address(out, at, addr);
            text::put(out, comma, b",")
        }
        File::Third => put_third(out, at, addr),
        File::Uid => at,
    }
}

// The number at the end of a name.
fn number_in(file: File, port: u16, uid: u32) -> u32
    ensures { result ≡ number_in file port uid }
{
    match file {
        File::Port => port as u32,
        File::Address => port as u32,
        File::Third => port as u32,
        File::Uid => uid,
    }
}

fn put_name(out: &mut [u8], file: File, port: u16, addr: Addr, uid: u32) -> usize
    requires { 0 + length (name_for file port addr uid) ≤ length out.old }
    ensures next { result ≡ 0 + length (name_for file port addr uid) }
    ensures written { out.new ≡ put_at out.old 0 (name_for file port addr uid) }
{
    let mark = put_folder(out, file);
    let leaf = put_mark(out, mark, port);
    let number = put_address_in(out, leaf, file, addr);
    text::put_decimal(out, number, number_in(file, port, uid))
}

// Writes the name of a file at the front of out; where it is longer than out, that is refused and out is as it was.
fn write_name(out: &mut [u8], file: File, port: u16, addr: Addr, uid: u32) -> Result<usize, Refusal>
    ensures answer { result ≡ written_of (within_room (length out.old) (name_for file port addr uid)) }
    ensures holds { out.new
        ≡ lent_after out.old (within_room (length out.old) (name_for file port addr uid)) }
{
    let mut buffer = [0u8; 72];
    let n = put_name(&mut buffer, file, port, addr, uid);
    if out.len() < n {
        return Err(section::placeless(Fault::NoRoom));
    }
    let count = text::put(out, 0, &buffer[..n]);
    Ok(count)
}

fn as_test(name: Result<usize, Refusal>) -> Next
    ensures { result ≡ test_of name }
{
    match name {
        Err(refusal) => Next::Refused(refusal),
        Ok(n) => Next::Test(n),
    }
}

fn as_read(name: Result<usize, Refusal>) -> Next
    ensures { result ≡ read_of name }
{
    match name {
        Err(refusal) => Next::Refused(refusal),
        Ok(n) => Next::Read(n),
    }
}

// What comes next for a bind that is ruled.
fn step(out: &mut [u8], port: u16, addr: Addr, uid: u32, at: Turn) -> Next
    ensures answer { result ≡ next_of (step_at at port addr uid (length out.old)) }
    ensures holds { out.new
        ≡ lent_after out.old (name_written (step_at at port addr uid (length out.old))) }
{
    match at {
        Turn::Test(test) => as_test(write_name(out, file_of(test), port, addr, uid)),
        Turn::Byuid => as_read(write_name(out, File::Uid, port, addr, uid)),
        Turn::Allowed => Next::Granted,
        Turn::Other => Next::Denied,
        Turn::Late => Next::Refused(section::placeless(Fault::LateAnswer)),
    }
}

fn is_known(addr: Addr) -> bool
    ensures { result ≡ addr_case addr false (λ n. true) (λ n. true) }
{
    match addr {
        Addr::Unknown => false,
        Addr::V4(_) => true,
        Addr::V6(_, _) => true,
    }
}

// Which file comes next for a bind of a port at an address by a caller, after the answers of the access tests so far, or the outcome. A name is
// written at the front of out; all else leaves out as it was.
pub fn next_step(out: &mut [u8], port: u16, addr: Addr, uid: u32, answers: &[u8]) -> Next
    ensures answer { result ≡ next_of (next_step (asking answers.now (bind port addr uid)) (length out.old)) }
    ensures holds { out.new
        ≡ lent_after out.old (name_written (next_step (asking answers.now (bind port addr uid)) (length out.old))) }
{
    if !(all_kinds(answers) & is_known(addr)) {
        return Next::Refused(section::placeless(Fault::BadRequest));
    }
    if !byuid::is_ruled(port, uid) {
        return Next::NotRuled;
    }
    if is_left_out(addr) {
        return Next::Refused(section::placeless(Fault::DottedAddress));
    }
    step(out, port, addr, uid, turn_after(answers, count_tests(addr)))
}
