// The decision by an authbind byuid file. The text is walked once: each line is held against the bind, and looked at for the retired form.
//   decide(text, mark, port, addr, uid) == the call: every check, then the decision
//   check(text) == the refusal of the first line of the retired form
//   convert     == a text with such lines in their new form
#![tactic(auto)]

ghost use Rattle.std.specs.Prelude.{false, ◌≡◌};
ghost use Rattle.section.specs.Refusal.{checked_of};
ghost use Rattle.text.specs.Text.{split};
ghost use Rattle.byuid.specs.Byuid.{is_ruled, in_span, byuid_fault, bind, file_bind, decide_byuid};
ghost use Rattle.byuid.specs.Code.{walk, searched_for, decision_by, answer_by};

use address::Addr;
use section::{Fault, Refusal};

// The words of the decision.
#[derive(Clone, Copy)]
pub enum Decision {
    NotRuled,
    Granted,
    NoLine,
}

// The file that a text comes from: the plain one, or the one with a `!` before its leaf name.
#[derive(Clone, Copy)]
pub enum Mark {
    Plain,
    Marked,
}

pub mod convert;
pub mod line;

// Every line is looked at. A last line without a newline counts.
fn walk_lines(text: &[u8], addr: Addr, port: u16) -> Result<bool, usize>
    ensures { result ≡ walk addr port 1 false (split "\n" text.now) }
{
    let mut granted = false;
    let mut number = 1;
    let mut at = 0;
    while at < text.len() {
        let end = at + text::index_of(&text[at..], b'\n');
        match line::look(&text[at..end], addr, port) {
            None => return Err(number),
            Some(b) => {
                granted = granted | b;
            }
        }
        number += 1;
        at = end + 1;
    }
    Ok(granted)
}

// The refusal of the first line of the retired form.
pub fn check(text: &[u8]) -> Result<(), Refusal>
    ensures { result ≡ checked_of (byuid_fault text.now) }
{
    match walk_lines(text, Addr::Unknown, 0) {
        Err(number) => Err(section::Byuid::refusal(Fault::RetiredForm, number)),
        Ok(_) => Ok(()),
    }
}

// Whether the lines rule the bind of a port by a caller.
pub fn is_ruled(port: u16, uid: u32) -> bool
    ensures { result ≡ is_ruled port uid }
{
    (1 <= port) & (port <= 1023) & (uid != 0)
}

// Whether the file may grant the port.
fn in_span(mark: Mark, port: u16) -> bool
    ensures { result ≡ in_span mark port }
{
    match mark {
        Mark::Plain => (1 <= port) & (port <= 511),
        Mark::Marked => (512 <= port) & (port <= 1023),
    }
}

// The address that the lines are held against: none where the file may not grant the bind.
fn searched_for(mark: Mark, port: u16, addr: Addr, uid: u32) -> Addr
    ensures { result ≡ searched_for mark port addr uid }
{
    if is_ruled(port, uid) & in_span(mark, port) {
        addr
    } else {
        Addr::Unknown
    }
}

// The decision, where granted says whether a line grants.
fn decision_by(port: u16, uid: u32, granted: bool) -> Decision
    ensures { result ≡ decision_by port uid granted }
{
    if !is_ruled(port, uid) {
        return Decision::NotRuled;
    }
    if granted {
        Decision::Granted
    } else {
        Decision::NoLine
    }
}

// The same for an address of any kind; an unknown one is refused.
fn answer_by(port: u16, addr: Addr, uid: u32, granted: bool) -> Result<Decision, Refusal>
    ensures { result ≡ answer_by port addr uid granted }
{
    match addr {
        Addr::Unknown => Err(section::placeless(Fault::BadRequest)),
        Addr::V4(_) => Ok(decision_by(port, uid, granted)),
        Addr::V6(_, _) => Ok(decision_by(port, uid, granted)),
    }
}

// Whether a caller may bind a port at an address, by the lines of a text from one of the two files.
pub fn decide(text: &[u8], mark: Mark, port: u16, addr: Addr, uid: u32) -> Result<Decision, Refusal>
    ensures { result ≡ decide_byuid text.now (Some (file_bind mark (bind port addr uid))) }
{
    if section::Byuid::over(text.len()) {
        return Err(section::Byuid::refusal(Fault::OverLimit, 0));
    }
    let held_against = searched_for(mark, port, addr, uid);
    match walk_lines(text, held_against, port) {
        Err(n) => Err(section::Byuid::refusal(Fault::RetiredForm, n)),
        Ok(granted) => answer_by(port, addr, uid, granted),
    }
}
