// The numbers that C hands over and gets back; the crate gate exports the calls.
//   request == what the numbers of a request stand for
//   answer  == what a call answers, as numbers
#![tactic(auto)]

pub mod answer;
pub mod request;

// A decision as numbers; looked: how many elements were looked at for a verdict.
#[repr(C)]
#[derive(Clone, Copy)]
pub struct GateAnswer {
    pub number: u32,
    pub section: u32,
    pub line: u64,
    pub word: u32,
    pub file: u32,
    pub place: u64,
    pub len: u64,
    pub looked: u64,
}

// The same of a verdict, and how many bytes of its command were written.
#[repr(C)]
#[derive(Clone, Copy)]
pub struct GateCommand {
    pub number: u32,
    pub section: u32,
    pub line: u64,
    pub word: u32,
    pub file: u32,
    pub place: u64,
    pub len: u64,
    pub count: u64,
    pub looked: u64,
}

// Whether a sheet is accepted.
#[repr(C)]
#[derive(Clone, Copy)]
pub struct GateCheck {
    pub number: u32,
    pub section: u32,
    pub line: u64,
}

// How many bytes were written.
#[repr(C)]
#[derive(Clone, Copy)]
pub struct GateWritten {
    pub number: u32,
    pub section: u32,
    pub line: u64,
    pub count: u64,
}

// The place and length of each text of a sheet.
#[repr(C)]
#[derive(Clone, Copy)]
pub struct GateParts {
    pub number: u32,
    pub section: u32,
    pub line: u64,
    pub allow_place: u64,
    pub allow_len: u64,
    pub deny_place: u64,
    pub deny_len: u64,
    pub byuid_place: u64,
    pub byuid_len: u64,
    pub portacl_place: u64,
    pub portacl_len: u64,
    pub tables_place: u64,
    pub tables_len: u64,
}

// An address as numbers.
#[repr(C)]
#[derive(Clone, Copy)]
pub struct GateAddress {
    pub number: u32,
    pub section: u32,
    pub line: u64,
    pub kind: u32,
    pub high: u64,
    pub low: u64,
}

// How many bytes were written into each of two outputs.
#[repr(C)]
#[derive(Clone, Copy)]
pub struct GateWrittenTwo {
    pub number: u32,
    pub section: u32,
    pub line: u64,
    pub count: u64,
    pub other_count: u64,
}

// What comes next in authbind's order, and how many bytes of a name were written.
#[repr(C)]
#[derive(Clone, Copy)]
pub struct GateNext {
    pub number: u32,
    pub section: u32,
    pub line: u64,
    pub word: u32,
    pub count: u64,
}
