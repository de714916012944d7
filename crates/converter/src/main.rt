// converter FILE: writes a byuid text to standard output, its lines of the retired form addr4/len:pmin,pmax as addr4/len,pmin-pmax and
// every other byte as it is. What is over its limit, or can't be read, gets a message on standard error, and nothing is written.
#![tactic(auto)]

use std::io;
use std::io::Print;

// A longer file is refused by its first 8,193 bytes, as it would be whole.
const MOST: u64 = 8193;

fn convert(rt: &impl Print, errors: &impl Print, name: &[u8], text: &[u8]) -> io::Result<()> {
    let mut out = [0u8; 8192];
    let w = gate::gate_convert(&mut out, text);
    if w.number != 0 {
        let why = ": a byuid text has at most 8192 bytes\n";
        return report::file::tell_refusal(errors, name, w.number, w.section, why);
    }
    report::file::write_front(rt, &out, w.count)
}

fn main(rt: HostRuntime) {
    let errors = rt.stderr();
    report::file::run(&rt, &errors, "usage: converter FILE", MOST, |name, text| {
        convert(&rt, &errors, name, text)
    });
}
