// Dropping rules that never fire.
//   propose(out, text, tables, section) == the numbers of the lines to drop, written to the front of out
//   drop_rules(out, text, tables, section, proposal) == the text without the lines that an accepted proposal names, written to the front of out
// Both look for the rules that an earlier one covers, in one pass: a proposal is accepted exactly if it names such lines alone.
#![tactic(auto)]

pub mod kept;
pub mod numbers;
pub mod repeats;
pub mod same;

ghost use Rattle.std.specs.Prelude.{◌≡◌, ◌≤◌, length};
ghost use Rattle.section.specs.Refusal.{written_of, lent_after, within_room, checked_of};
ghost use Rattle.text.specs.Basics.{◌or_else◌};
ghost use Rattle.tables.specs.Table.{tables_frame, tables_of};
ghost use Rattle.tables.specs.Code.{tables_in};
ghost use Rattle.rules.specs.Code.{contents_fault};
ghost use Rattle.text.specs.Words.{word_bytes};
ghost use Rattle.tidy.specs.Tidy.{propose as proposeOf, proposal, drop_rules};
ghost use Rattle.tidy.specs.Code.{checked_by, texts_fault, section_fault, Sound, drop_sound};

use crate::kept::write_kept;
use crate::numbers::{name_lines, write_numbers};
use crate::repeats::covered_lines;
use rules::Answer;
use rules::naming::check_contents;
use rules::search::are_sound;
use section::{Fault, Refusal};
use tables::entry::FrameFault;

// A pass that looks for nothing, as a check.
fn check_by(pass: Result<Option<Answer>, Refusal>) -> Result<(), Refusal>
    ensures { result ≡ checked_by pass }
{
    match pass {
        Err(f) => Err(f),
        Ok(None) => Ok(()),
        Ok(Some(_)) => Ok(()),
    }
}

// The checks of the contents of two texts and of a section five whose frame is sound; what is sound is read once.
fn check_whole(allow: &[u8], deny: &[u8], tables: &[u8]) -> Result<(), Refusal>
    requires { tables_in tables.now ≡ tables_of tables.now }
    ensures { result ≡ checked_of (contents_fault allow.now deny.now tables.now) }
{
    if are_sound(allow, deny, tables) {
        return Ok(());
    }
    check_by(check_contents(allow, deny, tables))
}

// The checks of two texts within their limits and a section five: its frame, then the contents.
fn check_framed(allow: &[u8], deny: &[u8], tables: &[u8]) -> Result<(), Refusal>
    ensures { result
        ≡ checked_of (tables_frame tables.now or_else contents_fault allow.now deny.now tables.now) }
{
    match tables::entry::frame(tables) {
        Err(FrameFault::Cut) => Err(section::Tables::refusal(Fault::CutShort, 0)),
        Err(FrameFault::Trailing) => Err(section::placeless(Fault::TrailingBytes)),
        Ok(()) => check_whole(allow, deny, tables),
    }
}

// The checks of two texts and a section five.
fn check_texts(allow: &[u8], deny: &[u8], tables: &[u8]) -> Result<(), Refusal>
    ensures { result ≡ checked_of (texts_fault allow.now deny.now tables.now) }
{
    if section::Allow::over(allow.len()) {
        return Err(section::Allow::refusal(Fault::OverLimit, 0));
    }
    if section::Deny::over(deny.len()) {
        return Err(section::Deny::refusal(Fault::OverLimit, 0));
    }
    check_framed(allow, deny, tables)
}

// The checks of the text of a section, and of a section five.
fn check_file(text: &[u8], tables: &[u8], section: u32) -> Result<(), Refusal>
    ensures { result ≡ checked_of (section_fault section text.now tables.now) }
{
    if section == 1 {
        return check_texts(text, &text[..0], tables);
    }
    if section == 2 {
        return check_texts(&text[..0], text, tables);
    }
    Err(section::placeless(Fault::BadRequest))
}

// The numbers of the lines to drop of a text that passed its checks. The marks are in a frame of its own, so that they do not stand on the
// stack while the text is checked.
#[inline(never)]
fn propose_sound(out: &mut [u8], text: &[u8]) -> Result<usize, Refusal>
    requires { (length text.now ≤ 16384) × Sound text.now }
    ensures answer { result ≡ written_of (within_room (length out.old) (word_bytes (proposal text.now))) }
    ensures holds { out.new
        ≡ lent_after out.old (within_room (length out.old) (word_bytes (proposal text.now))) }
{
    let marks = covered_lines(text);
    write_numbers(out, &marks)
}

// Writes the numbers of the lines to drop, four bytes each, most significant first; a refusal leaves out as it was.
pub fn propose(out: &mut [u8], text: &[u8], tables: &[u8], section: u32) -> Result<usize, Refusal>
    ensures answer { result ≡ written_of (proposeOf section text.now tables.now (length out.old)) }
    ensures holds { out.new
        ≡ lent_after out.old (proposeOf section text.now tables.now (length out.old)) }
{
    check_file(text, tables, section)?;
    propose_sound(out, text)
}

// The same of a text that passed its checks.
#[inline(never)]
fn drop_sound(out: &mut [u8], text: &[u8], proposal: &[u8]) -> Result<usize, Refusal>
    requires { (length text.now ≤ 16384) × Sound text.now }
    ensures answer { result ≡ written_of (drop_sound text.now proposal.now (length out.old)) }
    ensures holds { out.new
        ≡ lent_after out.old (drop_sound text.now proposal.now (length out.old)) }
{
    let mut marks = covered_lines(text);
    if name_lines(&mut marks, proposal) {
        return write_kept(out, text, &marks);
    }
    Err(section::placeless(Fault::BadProposal))
}

// Writes the text without the lines that a proposal names, if it is accepted; a refusal leaves out as it was.
pub fn drop_rules(
    out: &mut [u8],
    text: &[u8],
    tables: &[u8],
    section: u32,
    proposal: &[u8],
) -> Result<usize, Refusal>
    ensures answer { result
        ≡ written_of (drop_rules section text.now tables.now proposal.now (length out.old)) }
    ensures holds { out.new
        ≡ lent_after out.old
        (drop_rules section text.now tables.now proposal.now (length out.old)) }
{
    check_file(text, tables, section)?;
    drop_sound(out, text, proposal)
}
