// What a call answers, as numbers.
ghost use Rattle.std.specs.Prelude.{◌≡◌};
ghost use Rattle.rules.specs.Search.{file_section};
ghost use Rattle.authbind.specs.declared.Next.TheVariants as N;
ghost use Rattle.codes.specs.Answers.{place_numbers, verdict_word, byuid_word, portacl_word, refusal_answer, word_answer, answer_numbers, found_parts};
ghost use Rattle.codes.specs.Answers.{with_count, next_with, address_with, address_numbers};
ghost use Rattle.codes.specs.Code.{matter_numbers, byuid_numbers, portacl_numbers, verdict_numbers, check_numbers, parts_numbers, written_numbers};
ghost use Rattle.codes.specs.Code.{written_two_numbers, command_written, next_numbers, read_numbers};

use crate::{
    GateAddress, GateAnswer, GateCheck, GateCommand, GateNext, GateParts, GateWritten,
    GateWrittenTwo,
};
use address::Addr;
use authbind::Next;
use matters::Place;
use section::Refusal;
use sheet::Parts;

// The kind of an address that was not read: no address has it.
pub const NO_ADDRESS: u32 = 255;

fn refused(r: Refusal) -> GateAnswer
    ensures { result ≡ refusal_answer r }
{
    let fault = r.fault;
    GateAnswer {
        number: section::fault_number(fault) as u32,
        section: r.section as u32,
        line: r.line as u64,
        word: 0,
        file: 0,
        place: 0,
        len: 0,
        looked: 0,
    }
}

fn word(w: u32) -> GateAnswer
    ensures { result ≡ word_answer w }
{
    GateAnswer {
        number: 0,
        section: 0,
        line: 0,
        word: w,
        file: 0,
        place: 0,
        len: 0,
        looked: 0,
    }
}

fn byuid_code(d: byuid::Decision) -> u32
    ensures { result ≡ (byuid_word d).number }
{
    match d {
        byuid::Decision::Granted => 1,
        byuid::Decision::NoLine => 4,
        byuid::Decision::NotRuled => 5,
    }
}

fn portacl_code(d: portacl::Decision) -> u32
    ensures { result ≡ (portacl_word d).number }
{
    match d {
        portacl::Decision::Granted => 1,
        portacl::Decision::Denied => 2,
        portacl::Decision::NotRuled => 5,
        portacl::Decision::Exempt => 6,
    }
}

// A byuid decision as numbers.
pub fn byuid_numbers(r: Result<byuid::Decision, Refusal>) -> GateAnswer
    ensures { result ≡ byuid_numbers r }
{
    match r {
        Err(byuid_refusal) => refused(byuid_refusal),
        Ok(d) => word(byuid_code(d)),
    }
}

// A portacl decision as numbers.
pub fn portacl_numbers(r: Result<portacl::Decision, Refusal>) -> GateAnswer
    ensures { result ≡ portacl_numbers r }
{
    match r {
        Err(portacl_refusal) => refused(portacl_refusal),
        Ok(d) => word(portacl_code(d)),
    }
}

fn verdict_code(v: rules::Verdict) -> u32
    ensures { result ≡ (verdict_word v).number }
{
    match v {
        rules::Verdict::Granted => 1,
        rules::Verdict::Denied => 2,
        rules::Verdict::Ask => 3,
    }
}

fn file_section(f: rules::File) -> u32
    ensures { result ≡ file_section f }
{
    match f {
        rules::File::Neither => 0,
        rules::File::Allow => 1,
        rules::File::Deny => 2,
    }
}

fn verdict_word(a: rules::Answer, looked: u64) -> GateAnswer
    ensures { result ≡ answer_numbers a looked }
{
    let verdict = a.verdict;
    let file = a.file;
    let command = a.command;
    GateAnswer {
        number: 0,
        section: 0,
        line: a.line as u64,
        word: verdict_code(verdict),
        file: file_section(file),
        place: command.place as u64,
        len: command.len as u64,
        looked,
    }
}

// A verdict as numbers.
pub fn verdict_numbers(r: rules::Reported) -> GateAnswer
    ensures { result ≡ verdict_numbers r }
{
    let ruling = r.ruling;
    match ruling {
        Err(verdict_refusal) => refused(verdict_refusal),
        Ok(answer) => verdict_word(answer, r.looked),
    }
}

fn place_word(p: Place) -> GateAnswer
    ensures { result ≡ place_numbers p }
{
    let verdict = p.verdict;
    let file = p.file;
    GateAnswer {
        number: 0,
        section: 0,
        line: p.line as u64,
        word: verdict_code(verdict),
        file: file_section(file),
        place: 0,
        len: 0,
        looked: 0,
    }
}

// Whether the name matters, as numbers.
pub fn matter_numbers(m: Result<Option<Place>, Refusal>) -> GateAnswer
    ensures { result ≡ matter_numbers m }
{
    match m {
        Err(refusal) => refused(refusal),
        Ok(None) => word(9),
        Ok(Some(place)) => place_word(place),
    }
}

fn not_accepted(r: Refusal) -> GateCheck
    ensures { result ≡ check_numbers (Err r) }
{
    let fault = r.fault;
    GateCheck {
        number: section::fault_number(fault) as u32,
        section: r.section as u32,
        line: r.line as u64,
    }
}

// Whether a sheet is accepted, as numbers.
pub fn check_numbers(u: Result<Parts, Refusal>) -> GateCheck
    ensures { result ≡ check_numbers u }
{
    match u {
        Err(refusal) => not_accepted(refusal),
        Ok(_) => GateCheck {
            number: 0,
            section: 0,
            line: 0,
        },
    }
}

fn not_unpacked(r: Refusal) -> GateParts
    ensures { result ≡ parts_numbers (Err r) }
{
    let fault = r.fault;
    GateParts {
        number: section::fault_number(fault) as u32,
        section: r.section as u32,
        line: r.line as u64,
        allow_place: 0,
        allow_len: 0,
        deny_place: 0,
        deny_len: 0,
        byuid_place: 0,
        byuid_len: 0,
        portacl_place: 0,
        portacl_len: 0,
        tables_place: 0,
        tables_len: 0,
    }
}

fn found_parts(p: Parts) -> GateParts
    ensures { result ≡ found_parts p }
{
    let allow = p.allow;
    let deny = p.deny;
    let byuid = p.byuid;
    let portacl = p.portacl;
    let tables = p.tables;
    GateParts {
        number: 0,
        section: 0,
        line: 0,
        allow_place: allow.place as u64,
        allow_len: allow.len as u64,
        deny_place: deny.place as u64,
        deny_len: deny.len as u64,
        byuid_place: byuid.place as u64,
        byuid_len: byuid.len as u64,
        portacl_place: portacl.place as u64,
        portacl_len: portacl.len as u64,
        tables_place: tables.place as u64,
        tables_len: tables.len as u64,
    }
}

// The place and length of each text of a sheet, as numbers.
pub fn parts_numbers(u: Result<Parts, Refusal>) -> GateParts
    ensures { result ≡ parts_numbers u }
{
    match u {
        Err(refusal) => not_unpacked(refusal),
        Ok(parts) => found_parts(parts),
    }
}

fn not_written(r: Refusal) -> GateWritten
    ensures { result ≡ written_numbers (Err r) }
{
    let fault = r.fault;
    GateWritten {
        number: section::fault_number(fault) as u32,
        section: r.section as u32,
        line: r.line as u64,
        count: 0,
    }
}

// What a call that writes answers, as numbers.
pub fn written_numbers(w: Result<usize, Refusal>) -> GateWritten
    ensures { result ≡ written_numbers w }
{
    match w {
        Err(refusal) => not_written(refusal),
        Ok(n) => GateWritten {
            number: 0,
            section: 0,
            line: 0,
            count: n as u64,
        },
    }
}

fn not_written_two(r: Refusal) -> GateWrittenTwo
    ensures { result ≡ written_two_numbers (Err r) }
{
    let fault = r.fault;
    GateWrittenTwo {
        number: section::fault_number(fault) as u32,
        section: r.section as u32,
        line: r.line as u64,
        count: 0u64,
        other_count: 0u64,
    }
}

// What a call that writes into two outputs answers, as numbers.
pub fn written_two_numbers(w: Result<(usize, usize), Refusal>) -> GateWrittenTwo
    ensures { result ≡ written_two_numbers w }
{
    match w {
        Err(refusal) => not_written_two(refusal),
        Ok((first, second)) => GateWrittenTwo {
            number: 0,
            section: 0,
            line: 0,
            count: first as u64,
            other_count: second as u64,
        },
    }
}

// A decision, and how many bytes were written for it.
fn with_count(a: GateAnswer, n: usize) -> GateCommand
    ensures { result ≡ with_count a n }
{
    GateCommand {
        number: a.number,
        section: a.section,
        line: a.line,
        word: a.word,
        file: a.file,
        place: a.place,
        len: a.len,
        count: n as u64,
        looked: a.looked,
    }
}

// A refusal in place of a verdict and its command.
pub fn no_command(r: Refusal) -> GateCommand
    ensures { result ≡ with_count (refusal_answer r) 0 }
{
    with_count(refused(r), 0)
}

// A verdict as numbers, where its command was written; else the refusal to write it.
pub fn command_numbers(a: rules::Answer, looked: u64, w: Result<usize, Refusal>) -> GateCommand
    ensures { result ≡ command_written a looked w }
{
    match w {
        Err(refusal) => no_command(refusal),
        Ok(n) => with_count(verdict_word(a, looked), n),
    }
}

fn no_next(r: Refusal) -> GateNext
    ensures { result ≡ next_numbers (N.Refused r) }
{
    let none = refused(r);
    GateNext {
        number: none.number,
        section: none.section,
        line: none.line,
        word: none.word,
        count: none.len,
    }
}

fn next_with(word: u32, written: usize) -> GateNext
    ensures { result ≡ next_with word written }
{
    GateNext {
        number: 0,
        section: 0,
        line: 0,
        word,
        count: written as u64,
    }
}

// What comes next in authbind's order, as numbers.
pub fn next_numbers(x: Next) -> GateNext
    ensures { result ≡ next_numbers x }
{
    match x {
        Next::Refused(refusal) => no_next(refusal),
        Next::Granted => next_with(1, 0),
        Next::Denied => next_with(2, 0),
        Next::NotRuled => next_with(5, 0),
        Next::Test(n) => next_with(7, n),
        Next::Read(n) => next_with(8, n),
    }
}

fn not_read(r: Refusal) -> GateAddress
    ensures { result ≡ read_numbers (Err r) }
{
    let fault = r.fault;
    GateAddress {
        number: section::fault_number(fault) as u32,
        section: r.section as u32,
        line: r.line as u64,
        kind: NO_ADDRESS,
        high: 0,
        low: 0,
    }
}

fn address_kind(kind: u32, high: u64, low: u64) -> GateAddress
    ensures { result ≡ address_with kind high low }
{
    GateAddress {
        number: 0,
        section: 0,
        line: 0,
        kind,
        high,
        low,
    }
}

fn address_numbers(a: Addr) -> GateAddress
    ensures { result ≡ address_numbers a }
{
    match a {
        Addr::Unknown => address_kind(0, 0, 0),
        Addr::V4(n) => address_kind(4, 0, n as u64),
        Addr::V6(high, low) => address_kind(6, high, low),
    }
}

// An address read, as numbers.
pub fn read_numbers(r: Result<Addr, Refusal>) -> GateAddress
    ensures { result ≡ read_numbers r }
{
    match r {
        Err(refusal) => not_read(refusal),
        Ok(addr) => address_numbers(addr),
    }
}
