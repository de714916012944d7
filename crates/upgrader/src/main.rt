// upgrader FILE: appends the two zero bytes of no tables to a station sheet of four sections, from before there were tables, and writes
// it to standard output. What is no such sheet, or can't be read, gets a message on standard error, and nothing is written.
#![tactic(auto)]

use std::io;
use std::io::Print;

// Four sections have at most 45,072 bytes: a longer file is refused by its first 45,073, as it would be whole.
const MOST: u64 = 45073;

fn upgrade(rt: &impl Print, errors: &impl Print, name: &[u8], sheet: &[u8]) -> io::Result<()> {
    let mut out = [0u8; 45074];
    let w = gate::gate_upgrade(&mut out, sheet);
    if w.number != 0 {
        let why = ": no sheet of four sections\n";
        return report::file::tell_refusal(errors, name, w.number, w.section, why);
    }
    report::file::write_front(rt, &out, w.count)
}

fn main(rt: HostRuntime) {
    let errors = rt.stderr();
    report::file::run(&rt, &errors, "usage: upgrader FILE", MOST, |name, sheet| {
        upgrade(&rt, &errors, name, sheet)
    });
}
