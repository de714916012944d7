// What the gate answers with, and the sections of the station sheet.
//   fault_number(f)      == document 01's number of a fault
//   part_of(s, p)        == the bytes of the part p of s
//   Allow, Deny, Byuid, Portacl, Tables == the section types: LIMIT, ORDER, and
//     over(n)            == n bytes are over the section's limit
//     refusal(f, line)   == the refusal by f at a line of the section
//     cursor(at)         == a cursor at the section's count; the tables have none
#![tactic(auto)]

ghost use Rattle.std.specs.Prelude.{◌≡◌, ltb};
ghost use Rattle.section.specs.Refusal.{fault_number, refusal, placeless};
ghost use Rattle.section.specs.Section as S;
ghost use Rattle.section.specs.Section.{bytes_at};
ghost use Rattle.section.specs.Code.{cursor_at};

// Why something is refused; fault_number gives document 01's number.
#[derive(Clone, Copy)]
pub enum Fault {
    CutShort,
    OverLimit,
    TrailingBytes,
    Unended,
    BadByte,
    LongLine,
    NoElement,
    MisplacedExcept,
    ReservedStart,
    UnknownElement,
    BadPercent,
    BadEntry,
    BadRequest,
    NoRoom,
    TableName,
    TooDeep,
    BadTable,
    DottedAddress,
    LateAnswer,
    BadProposal,
    WrongIndex,
    RetiredForm,
}

// A refusal carries number, section and line.
#[derive(Clone, Copy)]
pub struct Refusal {
    pub fault: Fault,
    pub section: u8,
    pub line: usize,
}

// A part of some bytes: its place and length.
#[derive(Clone, Copy)]
pub struct Part {
    pub place: usize,
    pub len: usize,
}

// The bytes of a part of s, as far as s goes.
pub fn part_of(s: &[u8], part: Part) -> &[u8]
    ensures { result.now ≡ bytes_at s.now part }
{
    let at = part.place;
    if s.len() <= at {
        return &s[..0];
    }
    let rest = &s[at..];
    let n = part.len;
    if rest.len() <= n {
        return rest;
    }
    &rest[..n]
}

// A place in a sheet where a section's count stands, with that section's limit and order.
#[derive(Clone, Copy)]
pub struct Cursor {
    pub at: usize,
    pub limit: usize,
    pub order: u8,
}

pub fn fault_number(f: Fault) -> u8
    ensures { result ≡ fault_number f }
{
    match f {
        Fault::CutShort => 1,
        Fault::OverLimit => 2,
        Fault::TrailingBytes => 3,
        Fault::Unended => 4,
        Fault::BadByte => 5,
        Fault::LongLine => 6,
        Fault::NoElement => 7,
        Fault::MisplacedExcept => 8,
        Fault::ReservedStart => 9,
        Fault::UnknownElement => 10,
        Fault::BadPercent => 11,
        Fault::BadEntry => 12,
        Fault::BadRequest => 13,
        Fault::NoRoom => 14,
        Fault::TableName => 15,
        Fault::TooDeep => 16,
        Fault::BadTable => 17,
        Fault::DottedAddress => 18,
        Fault::LateAnswer => 19,
        Fault::BadProposal => 20,
        Fault::WrongIndex => 21,
        Fault::RetiredForm => 22,
    }
}

// A refusal of no section and line.
pub fn placeless(f: Fault) -> Refusal
    ensures { result ≡ placeless f }
{
    Refusal {
        fault: f,
        section: 0,
        line: 0,
    }
}

// The section of the allow text.
#[derive(Clone, Copy)]
pub struct Allow;

impl Allow {
    pub const LIMIT: usize = 16384;

    pub const ORDER: u8 = 1;

    pub fn over(n: usize) -> bool
        ensures { result ≡ ltb (S.allow).limit n }
    {
        Allow::LIMIT < n
    }

    pub fn refusal(fault: Fault, line: usize) -> Refusal
        ensures { result ≡ refusal fault (S.allow).order line }
    {
        Refusal {
            fault,
            section: Allow::ORDER,
            line,
        }
    }

    pub fn cursor(at: usize) -> Cursor
        ensures { result ≡ cursor_at S.allow at }
    {
        Cursor {
            at,
            limit: Allow::LIMIT,
            order: Allow::ORDER,
        }
    }
}

// The section of the deny text.
#[derive(Clone, Copy)]
pub struct Deny;

impl Deny {
    pub const LIMIT: usize = 16384;

    pub const ORDER: u8 = 2;

    pub fn over(n: usize) -> bool
        ensures { result ≡ ltb (S.deny).limit n }
    {
        Deny::LIMIT < n
    }

    pub fn refusal(fault: Fault, line: usize) -> Refusal
        ensures { result ≡ refusal fault (S.deny).order line }
    {
        Refusal {
            fault,
            section: Deny::ORDER,
            line,
        }
    }

    pub fn cursor(at: usize) -> Cursor
        ensures { result ≡ cursor_at S.deny at }
    {
        Cursor {
            at,
            limit: Deny::LIMIT,
            order: Deny::ORDER,
        }
    }
}

// The section of the byuid text.
#[derive(Clone, Copy)]
pub struct Byuid;

impl Byuid {
    pub const LIMIT: usize = 8192;

    pub const ORDER: u8 = 3;

    pub fn over(n: usize) -> bool
        ensures { result ≡ ltb (S.byuid).limit n }
    {
        Byuid::LIMIT < n
    }

    pub fn refusal(fault: Fault, line: usize) -> Refusal
        ensures { result ≡ refusal fault (S.byuid).order line }
    {
        Refusal {
            fault,
            section: Byuid::ORDER,
            line,
        }
    }

    pub fn cursor(at: usize) -> Cursor
        ensures { result ≡ cursor_at S.byuid at }
    {
        Cursor {
            at,
            limit: Byuid::LIMIT,
            order: Byuid::ORDER,
        }
    }
}

// The section of the portacl text.
#[derive(Clone, Copy)]
pub struct Portacl;

impl Portacl {
    pub const LIMIT: usize = 4096;

    pub const ORDER: u8 = 4;

    pub fn over(n: usize) -> bool
        ensures { result ≡ ltb (S.portacl).limit n }
    {
        Portacl::LIMIT < n
    }

    pub fn refusal(fault: Fault, line: usize) -> Refusal
        ensures { result ≡ refusal fault (S.portacl).order line }
    {
        Refusal {
            fault,
            section: Portacl::ORDER,
            line,
        }
    }

    pub fn cursor(at: usize) -> Cursor
        ensures { result ≡ cursor_at S.portacl at }
    {
        Cursor {
            at,
            limit: Portacl::LIMIT,
            order: Portacl::ORDER,
        }
    }
}

// The section of the tables: their counts say where it ends, so it has no count of bytes and no cursor.
#[derive(Clone, Copy)]
pub struct Tables;

impl Tables {
    pub const LIMIT: usize = 12288;

    pub const ORDER: u8 = 5;

    pub fn over(n: usize) -> bool
        ensures { result ≡ ltb (S.tables).limit n }
    {
        Tables::LIMIT < n
    }

    pub fn refusal(fault: Fault, line: usize) -> Refusal
        ensures { result ≡ refusal fault (S.tables).order line }
    {
        Refusal {
            fault,
            section: Tables::ORDER,
            line,
        }
    }
}
