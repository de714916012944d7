// checker FILE: checks a station sheet. Writes one line: `sheet ok`, or the refusal, as `refused 1 section 4 line 0`, or that the file is
// too long. A file that can't be read gets a message on standard error instead.
#![tactic(auto)]

use std::io;
use std::io::Print;

// What is read of a file at most: a sheet has at most 57,360 bytes. A longer file is read on, to 1 MiB, as the number that its tables are
// refused by depends on them all.
const MOST: usize = 1048577;

fn check(rt: &impl Print, sheet: &[u8]) -> io::Result<()> {
    let c = gate::gate_check(sheet);
    if report::refused(rt, c.number, c.section, c.line)? {
        return Ok(());
    }
    report::word(rt, report::SHEET_OK)?;
    report::end_line(rt)
}

fn check_front(rt: &impl Print, front: &[u8]) -> io::Result<()> {
    if front.len() == MOST {
        return report::text(
            rt,
            b"too long: over 1048576 bytes, and the longest sheet has 57360\n",
        );
    }
    check(rt, front)
}

fn main(rt: HostRuntime) {
    let errors = rt.stderr();
    report::file::run(
        &rt,
        &errors,
        "usage: checker FILE",
        MOST as u64,
        |_, front| check_front(&rt, front),
    );
}
