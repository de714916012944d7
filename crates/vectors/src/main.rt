// Runs the cases of its standard input, and writes what the gate's exports answer. The head of the file stdin says how a case is
// written. A case is handed on as the block that `cases` reads it into.
#![tactic(auto)]

use codes::GateAnswer;
use std::io;
use std::io::{Input, Print, Read};

// ## How an answer is written

fn decision(rt: &impl Print, a: GateAnswer) -> io::Result<()> {
    if report::refused(rt, a.number, a.section, a.line)? {
        return Ok(());
    }
    report::word(rt, a.word as usize)?;
    report::end_line(rt)
}

// A verdict, with the file and line of its rule, how many elements were looked at, and the rule's command out of the text where it stands.
fn ruling(rt: &impl Print, a: GateAnswer, whole: &[u8]) -> io::Result<()> {
    if report::refused(rt, a.number, a.section, a.line)? {
        return Ok(());
    }
    report::word(rt, a.word as usize)?;
    rule(rt, a.file, a.line)?;
    report::word(rt, report::LOOKED)?;
    report::number(rt, a.looked)?;
    command(rt, part(whole, a.place, a.len))?;
    report::end_line(rt)
}

// The word that says that the name matters.
const NAME_MATTERS: u32 = 9;

// Whether the name matters, or the verdict, file and line that every user gets.
fn matter(rt: &impl Print, a: GateAnswer) -> io::Result<()> {
    if report::refused(rt, a.number, a.section, a.line)? {
        return Ok(());
    }
    if a.word == NAME_MATTERS {
        report::text(rt, b"name matters")?;
    } else {
        report::word(rt, a.word as usize)?;
        rule(rt, a.file, a.line)?;
    }
    report::end_line(rt)
}

fn rule(rt: &impl Print, file: u32, line: u64) -> io::Result<()> {
    report::word(rt, report::NO_FILE.wrapping_add(file as usize))?;
    if file != 0 {
        report::number(rt, line)?;
    }
    Ok(())
}

fn command(rt: &impl Print, s: &[u8]) -> io::Result<()> {
    if 0 < s.len() {
        report::word(rt, report::COMMAND)?;
        report::text(rt, s)?;
    }
    Ok(())
}

// The part of n bytes at a place.
fn part(s: &[u8], place: u64, n: u64) -> &[u8] {
    let e = place.wrapping_add(n);
    cases::part(s, place as usize, e as usize)
}

// Says so where a call touched a byte of the block beyond the count that it answers.
fn untouched(rt: &impl Print, out: &[u8], count: u64) -> io::Result<()> {
    let rest = cases::part(out, count as usize, out.len());
    if !cases::all_stops(rest) {
        report::word(rt, report::TOUCHED)?;
    }
    Ok(())
}

fn written(
    rt: &impl Print,
    number: u32,
    section: u32,
    line: u64,
    count: u64,
    out: &[u8],
) -> io::Result<()> {
    untouched(rt, out, count)?;
    if report::refused(rt, number, section, line)? {
        return Ok(());
    }
    report::text(rt, part(out, 0, count))?;
    report::end_line(rt)
}

fn text_at(rt: &impl Print, text: usize, place: u64, n: u64) -> io::Result<()> {
    report::word(rt, text)?;
    report::number(rt, place)?;
    report::word(rt, report::COMMA)?;
    report::number(rt, n)?;
    report::word(rt, report::BYTES)?;
    report::end_line(rt)
}

// ## The calls

// A request as the gate takes it, but for its texts.
#[derive(Clone, Copy)]
struct Request {
    client_state: u32,
    client_kind: u32,
    client_high: u64,
    client_low: u64,
    server_state: u32,
    server_kind: u32,
    server_high: u64,
    server_low: u64,
    user: u32,
}

// The request in the fields 1 to 6: daemon, client and its address, server and its address, user.
fn read_request(case: &[u8]) -> Request {
    let client = gate::gate_read_address(cases::field(case, 3));
    let server = gate::gate_read_address(cases::field(case, 5));
    Request {
        client_state: cases::name_state(case, 2),
        client_kind: cases::kind(client.number, client.kind, cases::field(case, 3)),
        client_high: client.high,
        client_low: client.low,
        server_state: cases::name_state(case, 4),
        server_kind: cases::kind(server.number, server.kind, cases::field(case, 5)),
        server_high: server.high,
        server_low: server.low,
        user: cases::user_state(case, 6),
    }
}

fn verdict(rt: &impl Print, case: &[u8]) -> io::Result<()> {
    let r = read_request(case);
    let allow = cases::field(case, 7);
    let deny = cases::field(case, 8);
    let a = gate::gate_verdict(
        allow,
        deny,
        cases::field(case, 1),
        r.client_state,
        r.client_kind,
        r.client_high,
        r.client_low,
        cases::name(case, 2),
        r.server_state,
        r.server_kind,
        r.server_high,
        r.server_low,
        cases::name(case, 4),
        r.user,
        cases::name(case, 6),
    );
    if a.file == 2 {
        return ruling(rt, a, deny);
    }
    ruling(rt, a, allow)
}

fn tables_verdict(rt: &impl Print, case: &[u8]) -> io::Result<()> {
    let r = read_request(case);
    let allow = cases::field(case, 7);
    let deny = cases::field(case, 8);
    let a = gate::gate_tables_verdict(
        allow,
        deny,
        cases::field(case, 9),
        cases::field(case, 1),
        r.client_state,
        r.client_kind,
        r.client_high,
        r.client_low,
        cases::name(case, 2),
        r.server_state,
        r.server_kind,
        r.server_high,
        r.server_low,
        cases::name(case, 4),
        r.user,
        cases::name(case, 6),
    );
    if a.file == 2 {
        return ruling(rt, a, deny);
    }
    ruling(rt, a, allow)
}

fn sheet_verdict(rt: &impl Print, case: &[u8]) -> io::Result<()> {
    let r = read_request(case);
    let sheet = cases::field(case, 7);
    let a = gate::gate_sheet_verdict(
        sheet,
        cases::field(case, 1),
        r.client_state,
        r.client_kind,
        r.client_high,
        r.client_low,
        cases::name(case, 2),
        r.server_state,
        r.server_kind,
        r.server_high,
        r.server_low,
        cases::name(case, 4),
        r.user,
        cases::name(case, 6),
    );
    ruling(rt, a, sheet)
}

fn name_matters(rt: &impl Print, case: &[u8]) -> io::Result<()> {
    let r = read_request(case);
    matter(
        rt,
        gate::gate_name_matters(
            cases::field(case, 7),
            cases::field(case, 8),
            cases::field(case, 1),
            r.client_state,
            r.client_kind,
            r.client_high,
            r.client_low,
            cases::name(case, 2),
            r.server_state,
            r.server_kind,
            r.server_high,
            r.server_low,
            cases::name(case, 4),
            r.user,
            cases::name(case, 6),
        ),
    )
}

fn tables_name_matters(rt: &impl Print, case: &[u8]) -> io::Result<()> {
    let r = read_request(case);
    matter(
        rt,
        gate::gate_tables_name_matters(
            cases::field(case, 7),
            cases::field(case, 8),
            cases::field(case, 9),
            cases::field(case, 1),
            r.client_state,
            r.client_kind,
            r.client_high,
            r.client_low,
            cases::name(case, 2),
            r.server_state,
            r.server_kind,
            r.server_high,
            r.server_low,
            cases::name(case, 4),
            r.user,
            cases::name(case, 6),
        ),
    )
}

fn sheet_name_matters(rt: &impl Print, case: &[u8]) -> io::Result<()> {
    let r = read_request(case);
    matter(
        rt,
        gate::gate_sheet_name_matters(
            cases::field(case, 7),
            cases::field(case, 1),
            r.client_state,
            r.client_kind,
            r.client_high,
            r.client_low,
            cases::name(case, 2),
            r.server_state,
            r.server_kind,
            r.server_high,
            r.server_low,
            cases::name(case, 4),
            r.user,
            cases::name(case, 6),
        ),
    )
}

// A request for a byuid decision, in the fields 1 to 3: port, address, uid.
#[derive(Clone, Copy)]
struct ByuidRequest {
    port: u32,
    kind: u32,
    high: u64,
    low: u64,
    uid: u32,
}

fn read_byuid(case: &[u8]) -> ByuidRequest {
    let at = gate::gate_read_address(cases::field(case, 2));
    ByuidRequest {
        port: cases::number(case, 1),
        kind: cases::kind(at.number, at.kind, cases::field(case, 2)),
        high: at.high,
        low: at.low,
        uid: cases::number(case, 3),
    }
}

fn byuid(rt: &impl Print, case: &[u8]) -> io::Result<()> {
    let r = read_byuid(case);
    let mark = cases::number(case, 4);
    let text = cases::field(case, 5);
    decision(
        rt,
        gate::gate_byuid(text, mark, r.port, r.kind, r.high, r.low, r.uid),
    )
}

fn sheet_byuid(rt: &impl Print, case: &[u8]) -> io::Result<()> {
    let r = read_byuid(case);
    let sheet = cases::field(case, 4);
    decision(
        rt,
        gate::gate_sheet_byuid(sheet, r.port, r.kind, r.high, r.low, r.uid),
    )
}

// A request for a portacl decision, in the fields 1 to 7: the four settings, uid, protocol, port. Its groups are in the fields from 9 on.
#[derive(Clone, Copy)]
struct PortaclRequest {
    enabled: u32,
    port_high: u32,
    suser_exempt: u32,
    autoport_exempt: u32,
    uid: u32,
    protocol: u32,
    port: u32,
}

fn read_portacl(case: &[u8]) -> PortaclRequest {
    PortaclRequest {
        enabled: cases::number(case, 1),
        port_high: cases::number(case, 2),
        suser_exempt: cases::number(case, 3),
        autoport_exempt: cases::number(case, 4),
        uid: cases::number(case, 5),
        protocol: cases::number(case, 6),
        port: cases::number(case, 7),
    }
}

fn portacl(rt: &impl Print, case: &[u8]) -> io::Result<()> {
    let r = read_portacl(case);
    let list = cases::numbers(case, 9);
    decision(
        rt,
        gate::gate_portacl(
            cases::field(case, 8),
            r.enabled,
            r.port_high,
            r.suser_exempt,
            r.autoport_exempt,
            r.uid,
            cases::front(&list, cases::from(case, 9)),
            r.protocol,
            r.port,
        ),
    )
}

fn sheet_portacl(rt: &impl Print, case: &[u8]) -> io::Result<()> {
    let r = read_portacl(case);
    let list = cases::numbers(case, 9);
    decision(
        rt,
        gate::gate_sheet_portacl(
            cases::field(case, 8),
            r.enabled,
            r.port_high,
            r.suser_exempt,
            r.autoport_exempt,
            r.uid,
            cases::front(&list, cases::from(case, 9)),
            r.protocol,
            r.port,
        ),
    )
}

fn check(rt: &impl Print, case: &[u8]) -> io::Result<()> {
    let c = gate::gate_check(cases::field(case, 1));
    if report::refused(rt, c.number, c.section, c.line)? {
        return Ok(());
    }
    report::word(rt, report::SHEET_OK)?;
    report::end_line(rt)
}

fn unpack(rt: &impl Print, case: &[u8]) -> io::Result<()> {
    let p = gate::gate_unpack(cases::field(case, 1));
    if report::refused(rt, p.number, p.section, p.line)? {
        return Ok(());
    }
    text_at(rt, report::ALLOW_AT, p.allow_place, p.allow_len)?;
    text_at(rt, report::DENY_AT, p.deny_place, p.deny_len)?;
    text_at(rt, report::BYUID_AT, p.byuid_place, p.byuid_len)?;
    text_at(rt, report::PORTACL_AT, p.portacl_place, p.portacl_len)?;
    text_at(rt, report::TABLES_AT, p.tables_place, p.tables_len)
}

// ## The calls that write

fn pack(rt: &impl Print, case: &[u8], out: &mut [u8]) -> io::Result<()> {
    let allow = cases::field(case, 2);
    let deny = cases::field(case, 3);
    let byuid = cases::field(case, 4);
    let portacl = cases::field(case, 5);
    let tables = cases::field(case, 6);
    let w = gate::gate_pack(
        cases::room(out, cases::number(case, 1)),
        allow,
        deny,
        byuid,
        portacl,
        tables,
    );
    untouched(rt, out, w.count)?;
    packed(
        rt,
        w.number,
        w.section,
        w.line,
        part(out, 0, w.count),
        cases::field(case, 7),
    )
}

fn upgrade(rt: &impl Print, case: &[u8], out: &mut [u8]) -> io::Result<()> {
    let sheet = cases::field(case, 2);
    let w = gate::gate_upgrade(cases::room(out, cases::number(case, 1)), sheet);
    untouched(rt, out, w.count)?;
    packed(
        rt,
        w.number,
        w.section,
        w.line,
        part(out, 0, w.count),
        cases::field(case, 3),
    )
}

fn convert(rt: &impl Print, case: &[u8], out: &mut [u8]) -> io::Result<()> {
    let text = cases::field(case, 2);
    let w = gate::gate_convert(cases::room(out, cases::number(case, 1)), text);
    written(rt, w.number, w.section, w.line, w.count, out)
}

// How long a sheet is, and whether it begins with the bytes that are expected.
fn packed(
    rt: &impl Print,
    number: u32,
    section: u32,
    line: u64,
    sheet: &[u8],
    expected: &[u8],
) -> io::Result<()> {
    if report::refused(rt, number, section, line)? {
        return Ok(());
    }
    report::number(rt, sheet.len() as u64)?;
    report::word(rt, report::BYTES)?;
    if text::equal(cases::part(sheet, 0, expected.len()), expected) {
        report::word(rt, report::SAME)?;
    } else {
        report::word(rt, report::OTHERS)?;
    }
    report::end_line(rt)
}

fn expand(rt: &impl Print, case: &[u8], out: &mut [u8]) -> io::Result<()> {
    let r = read_request(case);
    let daemon = cases::field(case, 1);
    let client = cases::name(case, 2);
    let server = cases::name(case, 4);
    let user = cases::name(case, 6);
    let process = cases::number(case, 7);
    let command = cases::field(case, 9);
    let w = gate::gate_expand(
        cases::room(out, cases::number(case, 8)),
        command,
        daemon,
        r.client_state,
        r.client_kind,
        r.client_high,
        r.client_low,
        client,
        r.server_state,
        r.server_kind,
        r.server_high,
        r.server_low,
        server,
        r.user,
        user,
        process,
    );
    written(rt, w.number, w.section, w.line, w.count, out)
}

// The text of a field, and the address that it writes, written again.
fn read_address(rt: &impl Print, case: &[u8], out: &mut [u8]) -> io::Result<()> {
    let s = cases::field(case, 1);
    report::text(rt, s)?;
    report::word(rt, report::ARROW)?;
    let a = gate::gate_read_address(s);
    if report::refused(rt, a.number, a.section, a.line)? {
        return Ok(());
    }
    let w = gate::gate_write_address(cases::room(out, 39), a.kind, a.high, a.low);
    written(rt, w.number, w.section, w.line, w.count, out)
}

fn write_address(rt: &impl Print, case: &[u8], out: &mut [u8]) -> io::Result<()> {
    let a = gate::gate_read_address(cases::field(case, 2));
    let kind = cases::kind(a.number, a.kind, cases::field(case, 2));
    let n = cases::number(case, 1);
    let w = gate::gate_write_address(cases::room(out, n), kind, a.high, a.low);
    written(rt, w.number, w.section, w.line, w.count, out)
}

// What comes next, and the name that was written.
fn next(rt: &impl Print, word: u32, name: &[u8]) -> io::Result<()> {
    report::word(rt, word as usize)?;
    if 0 < name.len() {
        report::text(rt, b" ")?;
        report::text(rt, name)?;
    }
    report::end_line(rt)
}

fn authbind(rt: &impl Print, case: &[u8], out: &mut [u8]) -> io::Result<()> {
    let at = gate::gate_read_address(cases::field(case, 3));
    let kind = cases::kind(at.number, at.kind, cases::field(case, 3));
    let room = cases::number(case, 1);
    let port = cases::number(case, 2);
    let uid = cases::number(case, 4);
    let answers = cases::field(case, 5);
    let n = gate::gate_authbind(
        cases::room(out, room),
        port,
        kind,
        at.high,
        at.low,
        uid,
        answers,
    );
    untouched(rt, out, n.count)?;
    if report::refused(rt, n.number, n.section, n.line)? {
        return Ok(());
    }
    next(rt, n.word, part(out, 0, n.count))
}

fn carry_into(rt: &impl Print, case: &[u8], plain: &mut [u8], marked: &mut [u8]) -> io::Result<()> {
    let list = cases::field(case, 4);
    let w = gate::gate_carry(
        cases::room(plain, cases::number(case, 1)),
        cases::room(marked, cases::number(case, 2)),
        list,
        cases::number(case, 3),
    );
    untouched(rt, plain, w.count)?;
    untouched(rt, marked, w.other_count)?;
    if report::refused(rt, w.number, w.section, w.line)? {
        return Ok(());
    }
    packed(rt, 0, 0, 0, part(plain, 0, w.count), cases::field(case, 5))?;
    packed(
        rt,
        0,
        0,
        0,
        part(marked, 0, w.other_count),
        cases::field(case, 6),
    )
}

fn carry(rt: &impl Print, case: &[u8], out: &mut [u8]) -> io::Result<()> {
    let mut marked = [b'.'; 8192];
    carry_into(rt, case, out, &mut marked)
}

fn salvage_into(rt: &impl Print, case: &[u8], new: &mut [u8], list: &mut [u8]) -> io::Result<()> {
    let sheet = cases::field(case, 3);
    let w = gate::gate_salvage(
        cases::room(new, cases::number(case, 1)),
        cases::room(list, cases::number(case, 2)),
        sheet,
    );
    untouched(rt, new, w.count)?;
    untouched(rt, list, w.other_count)?;
    if report::refused(rt, w.number, w.section, w.line)? {
        return Ok(());
    }
    packed(rt, 0, 0, 0, part(new, 0, w.count), cases::field(case, 4))?;
    packed(
        rt,
        0,
        0,
        0,
        part(list, 0, w.other_count),
        cases::field(case, 5),
    )
}

fn salvage(rt: &impl Print, case: &[u8], out: &mut [u8]) -> io::Result<()> {
    let mut list = [b'.'; 8192];
    salvage_into(rt, case, out, &mut list)
}

fn propose(rt: &impl Print, case: &[u8], out: &mut [u8]) -> io::Result<()> {
    let section = cases::number(case, 2);
    let w = gate::gate_propose(
        cases::room(out, cases::number(case, 1)),
        cases::field(case, 3),
        cases::field(case, 4),
        section,
    );
    untouched(rt, out, w.count)?;
    packed(
        rt,
        w.number,
        w.section,
        w.line,
        part(out, 0, w.count),
        cases::field(case, 5),
    )
}

fn drop(rt: &impl Print, case: &[u8], out: &mut [u8]) -> io::Result<()> {
    let section = cases::number(case, 2);
    let w = gate::gate_drop(
        cases::room(out, cases::number(case, 1)),
        cases::field(case, 3),
        cases::field(case, 4),
        section,
        cases::field(case, 5),
    );
    untouched(rt, out, w.count)?;
    packed(
        rt,
        w.number,
        w.section,
        w.line,
        part(out, 0, w.count),
        cases::field(case, 6),
    )
}

fn index(rt: &impl Print, case: &[u8], out: &mut [u8]) -> io::Result<()> {
    let sheet = cases::field(case, 2);
    let w = gate::gate_index(cases::room(out, cases::number(case, 1)), sheet);
    untouched(rt, out, w.count)?;
    packed(
        rt,
        w.number,
        w.section,
        w.line,
        part(out, 0, w.count),
        cases::field(case, 3),
    )
}

fn verdicts(rt: &impl Print, case: &[u8], out: &mut [u8]) -> io::Result<()> {
    let w = gate::gate_verdicts(
        cases::room(out, cases::number(case, 1)),
        cases::field(case, 2),
        cases::field(case, 3),
        cases::field(case, 4),
    );
    untouched(rt, out, w.count)?;
    packed(
        rt,
        w.number,
        w.section,
        w.line,
        part(out, 0, w.count),
        cases::field(case, 5),
    )
}

fn write(rt: &impl Print, call: usize, case: &[u8], out: &mut [u8]) -> io::Result<()> {
    match call {
        12 => pack(rt, case, out),
        13 => upgrade(rt, case, out),
        14 => expand(rt, case, out),
        15 => read_address(rt, case, out),
        16 => write_address(rt, case, out),
        17 => convert(rt, case, out),
        18 => authbind(rt, case, out),
        19 => carry(rt, case, out),
        20 => salvage(rt, case, out),
        21 => propose(rt, case, out),
        22 => drop(rt, case, out),
        23 => index(rt, case, out),
        _ => verdicts(rt, case, out),
    }
}

// ## The lines

// Calls by their places in the list of `run`. Those that write are lent the front of a block of full stops.
fn answer(rt: &impl Print, call: usize, case: &[u8]) -> io::Result<()> {
    match call {
        0 => verdict(rt, case),
        1 => tables_verdict(rt, case),
        2 => sheet_verdict(rt, case),
        3 => name_matters(rt, case),
        4 => tables_name_matters(rt, case),
        5 => sheet_name_matters(rt, case),
        6 => byuid(rt, case),
        7 => sheet_byuid(rt, case),
        8 => portacl(rt, case),
        9 => sheet_portacl(rt, case),
        10 => check(rt, case),
        11 => unpack(rt, case),
        _ => lend(rt, call, case),
    }
}

fn lend(rt: &impl Print, call: usize, case: &[u8]) -> io::Result<()> {
    let mut out = [b'.'; 65536];
    write(rt, call, case, &mut out)
}

fn malformed(rt: &impl Print, line: &[u8]) -> io::Result<()> {
    report::word(rt, report::MALFORMED)?;
    report::text(rt, line)?;
    report::end_line(rt)
}

// The place of a case's call. A call is written as its name, a colon and the kinds of its fields: t a text, n a number, . no more.
fn call(case: &[u8]) -> usize {
    cases::call(
        b"verdict:tttttttt. tables_verdict:ttttttttt. sheet_verdict:ttttttt. name_matters:tttttttt. tables_name_matters:ttttttttt. \
          sheet_name_matters:ttttttt. byuid:ntnnt. sheet_byuid:ntnt. portacl:nnnnnnntn sheet_portacl:nnnnnnntn check:t. unpack:t. \
          pack:ntttttt. upgrade:ntt. expand:ttttttnnt. read_address:t. write_address:nt. convert:nt. authbind:nntnt. carry:nnnttt. \
          salvage:nnttt. \
          propose:nnttt. drop:nntttt. index:ntt. verdicts:ntttt.",
        case,
    )
}

fn run_case(rt: &impl Print, line: &[u8], case: &[u8]) -> io::Result<()> {
    let place = call(case);
    if 24 < place {
        return malformed(rt, line);
    }
    answer(rt, place, case)
}

// Reads the case of a line into a block, and runs it.
fn run_in(rt: &impl Print, block: &mut [u8], line: &[u8], kept: &[u8]) -> io::Result<()> {
    cases::read_line(block, line, kept);
    run_case(rt, line, block)
}

fn run_with(rt: &impl Print, line: &[u8], kept: &[u8]) -> io::Result<()> {
    let mut block = [0u8; 65536];
    run_in(rt, &mut block, line, kept)
}

// The same after the line of the text that is kept, which is read into a block of its own.
fn keep_in(rt: &impl Print, block: &mut [u8], line: &[u8], kept_line: &[u8]) -> io::Result<()> {
    cases::read_line(block, kept_line, b"");
    run_with(rt, line, cases::field(block, 1))
}

fn run(rt: &impl Print, line: &[u8], kept_line: &[u8]) -> io::Result<()> {
    let mut block = [0u8; 65536];
    keep_in(rt, &mut block, line, kept_line)
}

fn heading(rt: &impl Print, line: &[u8]) -> io::Result<()> {
    report::text(rt, line)?;
    report::end_line(rt)
}

fn run_line(rt: &impl Print, line: &[u8], kept_line: &[u8]) -> io::Result<()> {
    match cases::first(line) {
        0 => Ok(()),
        b'#' => Ok(()),
        b'-' => heading(rt, line),
        _ => run(rt, line, kept_line),
    }
}

fn run_lines(rt: &impl Print, input: &[u8]) -> io::Result<()> {
    let mut kept = &input[..0];
    for line in input.split(|b| *b == b'\n') {
        if cases::first(line) == b'@' {
            kept = line;
        } else {
            run_line(rt, line, kept)?;
        }
    }
    Ok(())
}

// More cases than this holds are to be read in parts.
const MOST: u64 = 393216;

fn run_input<R: Input + Print + AllocGlobal>(rt: &R) -> io::Result<()> {
    let mut input = Vec::new(rt.alloc());
    rt.reader().take(MOST).read_to_end(&mut input)?;
    run_lines(rt, &input)
}

fn main(rt: HostRuntime) -> io::Result<()> {
    run_input(&rt)
}
