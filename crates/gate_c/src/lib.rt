// The archive for C: each export is the call of that name in gate, with its clauses. include/gate.h declares them.
#![tactic(auto)]

ghost use Rattle.std.specs.Prelude.{◌≡◌};
ghost use Rattle.sheet.specs.Sheet.{texts};
ghost use Rattle.codes.specs.Requests.{host_numbers, request_numbers, settings_of};
ghost use Rattle.gate.specs.Calls.{gate_verdict, gate_tables_verdict, gate_sheet_verdict, gate_byuid, gate_sheet_byuid, gate_portacl, gate_sheet_portacl};
ghost use Rattle.gate.specs.Calls.{gate_check, gate_unpack, gate_read_address, gate_pack, gate_upgrade, gate_expand, gate_command, gate_sheet_command};
ghost use Rattle.gate.specs.Calls.{gate_write_address};
ghost use Rattle.gate.specs.Calls.{gate_propose, gate_drop, gate_index, gate_verdicts};
ghost use Rattle.gate.specs.Calls.{gate_authbind, gate_convert, gate_carry, gate_salvage, gate_name_matters, gate_tables_name_matters, gate_sheet_name_matters};

use codes::{
    GateAddress, GateAnswer, GateCheck, GateCommand, GateNext, GateParts, GateWritten,
    GateWrittenTwo,
};

// The verdict by two texts.
#[unsafe(no_mangle)]
pub extern "C" fn gate_verdict(
    allow: &[u8],
    deny: &[u8],
    daemon: &[u8],
    client_state: u32,
    client_kind: u32,
    client_high: u64,
    client_low: u64,
    client_name: &[u8],
    server_state: u32,
    server_kind: u32,
    server_high: u64,
    server_low: u64,
    server_name: &[u8],
    user: u32,
    user_name: &[u8],
) -> GateAnswer
    ensures { result
        ≡ gate_verdict allow.now deny.now
        (request_numbers daemon.now (host_numbers client_state client_kind client_high client_low) client_name.now
        (host_numbers server_state server_kind server_high server_low) server_name.now user user_name.now) }
{
    gate::gate_verdict(
        allow,
        deny,
        daemon,
        client_state,
        client_kind,
        client_high,
        client_low,
        client_name,
        server_state,
        server_kind,
        server_high,
        server_low,
        server_name,
        user,
        user_name,
    )
}

// The verdict by two texts, over the tables of a section five.
#[unsafe(no_mangle)]
pub extern "C" fn gate_tables_verdict(
    allow: &[u8],
    deny: &[u8],
    tables: &[u8],
    daemon: &[u8],
    client_state: u32,
    client_kind: u32,
    client_high: u64,
    client_low: u64,
    client_name: &[u8],
    server_state: u32,
    server_kind: u32,
    server_high: u64,
    server_low: u64,
    server_name: &[u8],
    user: u32,
    user_name: &[u8],
) -> GateAnswer
    ensures { result
        ≡ gate_tables_verdict allow.now deny.now tables.now
        (request_numbers daemon.now (host_numbers client_state client_kind client_high client_low) client_name.now
        (host_numbers server_state server_kind server_high server_low) server_name.now user user_name.now) }
{
    gate::gate_tables_verdict(
        allow,
        deny,
        tables,
        daemon,
        client_state,
        client_kind,
        client_high,
        client_low,
        client_name,
        server_state,
        server_kind,
        server_high,
        server_low,
        server_name,
        user,
        user_name,
    )
}

// The byuid decision by a text from the plain or the marked file.
#[unsafe(no_mangle)]
pub extern "C" fn gate_byuid(
    text: &[u8],
    mark: u32,
    port: u32,
    kind: u32,
    high: u64,
    low: u64,
    uid: u32,
) -> GateAnswer
    ensures { result ≡ gate_byuid text.now mark port kind high low uid }
{
    gate::gate_byuid(text, mark, port, kind, high, low, uid)
}

// The portacl decision by a text.
#[unsafe(no_mangle)]
pub extern "C" fn gate_portacl(
    text: &[u8],
    enabled: u32,
    port_high: u32,
    suser_exempt: u32,
    autoport_exempt: u32,
    uid: u32,
    groups: &[u32],
    protocol: u32,
    port: u32,
) -> GateAnswer
    ensures { result
        ≡ gate_portacl text.now (settings_of enabled port_high suser_exempt autoport_exempt) uid groups.now protocol port }
{
    gate::gate_portacl(
        text,
        enabled,
        port_high,
        suser_exempt,
        autoport_exempt,
        uid,
        groups,
        protocol,
        port,
    )
}

// The verdict by a sheet; the raw command's place is in the sheet.
#[unsafe(no_mangle)]
pub extern "C" fn gate_sheet_verdict(
    sheet: &[u8],
    daemon: &[u8],
    client_state: u32,
    client_kind: u32,
    client_high: u64,
    client_low: u64,
    client_name: &[u8],
    server_state: u32,
    server_kind: u32,
    server_high: u64,
    server_low: u64,
    server_name: &[u8],
    user: u32,
    user_name: &[u8],
) -> GateAnswer
    ensures { result
        ≡ gate_sheet_verdict sheet.now
        (request_numbers daemon.now (host_numbers client_state client_kind client_high client_low) client_name.now
        (host_numbers server_state server_kind server_high server_low) server_name.now user user_name.now) }
{
    gate::gate_sheet_verdict(
        sheet,
        daemon,
        client_state,
        client_kind,
        client_high,
        client_low,
        client_name,
        server_state,
        server_kind,
        server_high,
        server_low,
        server_name,
        user,
        user_name,
    )
}

// The byuid decision by a sheet, whose byuid text is the plain file.
#[unsafe(no_mangle)]
pub extern "C" fn gate_sheet_byuid(
    sheet: &[u8],
    port: u32,
    kind: u32,
    high: u64,
    low: u64,
    uid: u32,
) -> GateAnswer
    ensures { result ≡ gate_sheet_byuid sheet.now port kind high low uid }
{
    gate::gate_sheet_byuid(sheet, port, kind, high, low, uid)
}

// The portacl decision by a sheet.
#[unsafe(no_mangle)]
pub extern "C" fn gate_sheet_portacl(
    sheet: &[u8],
    enabled: u32,
    port_high: u32,
    suser_exempt: u32,
    autoport_exempt: u32,
    uid: u32,
    groups: &[u32],
    protocol: u32,
    port: u32,
) -> GateAnswer
    ensures { result
        ≡ gate_sheet_portacl sheet.now (settings_of enabled port_high suser_exempt autoport_exempt) uid groups.now protocol port }
{
    gate::gate_sheet_portacl(
        sheet,
        enabled,
        port_high,
        suser_exempt,
        autoport_exempt,
        uid,
        groups,
        protocol,
        port,
    )
}

// Whether a sheet is accepted.
#[unsafe(no_mangle)]
pub extern "C" fn gate_check(sheet: &[u8]) -> GateCheck
    ensures { result ≡ gate_check sheet.now }
{
    gate::gate_check(sheet)
}

// The place and length of each text of a sheet.
#[unsafe(no_mangle)]
pub extern "C" fn gate_unpack(sheet: &[u8]) -> GateParts
    ensures { result ≡ gate_unpack sheet.now }
{
    gate::gate_unpack(sheet)
}

// Packs four texts into a sheet at the front of out; a refusal leaves out as it was.
#[unsafe(no_mangle)]
pub extern "C" fn gate_pack(
    out: &mut [u8],
    allow: &[u8],
    deny: &[u8],
    byuid: &[u8],
    portacl: &[u8],
    tables: &[u8],
) -> GateWritten
    ensures answer { result
        ≡ (gate_pack (texts allow.now deny.now byuid.now portacl.now tables.now)
        out.old).answer }
    ensures holds { out.new
        ≡ (gate_pack (texts allow.now deny.now byuid.now portacl.now tables.now)
        out.old).out }
{
    gate::gate_pack(out, allow, deny, byuid, portacl, tables)
}

// Appends an empty count of tables to a sheet of four sections, at the front of out; a refusal leaves out as it was.
#[unsafe(no_mangle)]
pub extern "C" fn gate_upgrade(out: &mut [u8], sheet: &[u8]) -> GateWritten
    ensures answer { result ≡ (gate_upgrade sheet.now out.old).answer }
    ensures holds { out.new ≡ (gate_upgrade sheet.now out.old).out }
{
    gate::gate_upgrade(out, sheet)
}

// Converts a byuid text into the front of out; a refusal leaves out as it was.
#[unsafe(no_mangle)]
pub extern "C" fn gate_convert(out: &mut [u8], text: &[u8]) -> GateWritten
    ensures answer { result ≡ (gate_convert text.now out.old).answer }
    ensures holds { out.new ≡ (gate_convert text.now out.old).out }
{
    gate::gate_convert(out, text)
}

// Expands a command for a request at the front of out; a refusal leaves out as it was.
#[unsafe(no_mangle)]
pub extern "C" fn gate_expand(
    out: &mut [u8],
    command: &[u8],
    daemon: &[u8],
    client_state: u32,
    client_kind: u32,
    client_high: u64,
    client_low: u64,
    client_name: &[u8],
    server_state: u32,
    server_kind: u32,
    server_high: u64,
    server_low: u64,
    server_name: &[u8],
    user: u32,
    user_name: &[u8],
    process: u32,
) -> GateWritten
    ensures answer { result
        ≡ (gate_expand command.now
        (request_numbers daemon.now (host_numbers client_state client_kind client_high client_low) client_name.now
        (host_numbers server_state server_kind server_high server_low) server_name.now user user_name.now)
        process out.old).answer }
    ensures holds { out.new
        ≡ (gate_expand command.now
        (request_numbers daemon.now (host_numbers client_state client_kind client_high client_low) client_name.now
        (host_numbers server_state server_kind server_high server_low) server_name.now user user_name.now)
        process out.old).out }
{
    gate::gate_expand(
        out,
        command,
        daemon,
        client_state,
        client_kind,
        client_high,
        client_low,
        client_name,
        server_state,
        server_kind,
        server_high,
        server_low,
        server_name,
        user,
        user_name,
        process,
    )
}

// The verdict by two texts, and the command of the rule that decided, expanded at the front of out; a refusal leaves out as it was.
#[unsafe(no_mangle)]
pub extern "C" fn gate_command<'a>(
    out: &mut [u8],
    allow: &'a [u8],
    deny: &'a [u8],
    daemon: &[u8],
    client_state: u32,
    client_kind: u32,
    client_high: u64,
    client_low: u64,
    client_name: &[u8],
    server_state: u32,
    server_kind: u32,
    server_high: u64,
    server_low: u64,
    server_name: &[u8],
    user: u32,
    user_name: &[u8],
    process: u32,
) -> GateCommand
    ensures answer { result
        ≡ (gate_command allow.now deny.now
        (request_numbers daemon.now (host_numbers client_state client_kind client_high client_low) client_name.now
        (host_numbers server_state server_kind server_high server_low) server_name.now user user_name.now)
        process out.old).answer }
    ensures holds { out.new
        ≡ (gate_command allow.now deny.now
        (request_numbers daemon.now (host_numbers client_state client_kind client_high client_low) client_name.now
        (host_numbers server_state server_kind server_high server_low) server_name.now user user_name.now)
        process out.old).out }
{
    gate::gate_command(
        out,
        allow,
        deny,
        daemon,
        client_state,
        client_kind,
        client_high,
        client_low,
        client_name,
        server_state,
        server_kind,
        server_high,
        server_low,
        server_name,
        user,
        user_name,
        process,
    )
}

// The same by a sheet.
#[unsafe(no_mangle)]
pub extern "C" fn gate_sheet_command(
    out: &mut [u8],
    sheet: &[u8],
    daemon: &[u8],
    client_state: u32,
    client_kind: u32,
    client_high: u64,
    client_low: u64,
    client_name: &[u8],
    server_state: u32,
    server_kind: u32,
    server_high: u64,
    server_low: u64,
    server_name: &[u8],
    user: u32,
    user_name: &[u8],
    process: u32,
) -> GateCommand
    ensures answer { result
        ≡ (gate_sheet_command sheet.now
        (request_numbers daemon.now (host_numbers client_state client_kind client_high client_low) client_name.now
        (host_numbers server_state server_kind server_high server_low) server_name.now user user_name.now)
        process out.old).answer }
    ensures holds { out.new
        ≡ (gate_sheet_command sheet.now
        (request_numbers daemon.now (host_numbers client_state client_kind client_high client_low) client_name.now
        (host_numbers server_state server_kind server_high server_low) server_name.now user user_name.now)
        process out.old).out }
{
    gate::gate_sheet_command(
        out,
        sheet,
        daemon,
        client_state,
        client_kind,
        client_high,
        client_low,
        client_name,
        server_state,
        server_kind,
        server_high,
        server_low,
        server_name,
        user,
        user_name,
        process,
    )
}

// The address that a text writes.
#[unsafe(no_mangle)]
pub extern "C" fn gate_read_address(text: &[u8]) -> GateAddress
    ensures { result ≡ gate_read_address text.now }
{
    gate::gate_read_address(text)
}

// Writes an address at the front of out; a refusal leaves out as it was.
#[unsafe(no_mangle)]
pub extern "C" fn gate_write_address(out: &mut [u8], kind: u32, high: u64, low: u64) -> GateWritten
    ensures answer { result ≡ (gate_write_address kind high low out.old).answer }
    ensures holds { out.new ≡ (gate_write_address kind high low out.old).out }
{
    gate::gate_write_address(out, kind, high, low)
}

// Which file authbind looks at next for a bind, after the answers of the access tests so far, or the outcome. A name is written at the front of
// out; all else leaves out as it was.
#[unsafe(no_mangle)]
pub extern "C" fn gate_authbind(
    out: &mut [u8],
    port: u32,
    kind: u32,
    high: u64,
    low: u64,
    uid: u32,
    answers: &[u8],
) -> GateNext
    ensures answer { result ≡ (gate_authbind port kind high low uid answers.now out.old).answer }
    ensures holds { out.new ≡ (gate_authbind port kind high low uid answers.now out.old).out }
{
    gate::gate_authbind(out, port, kind, high, low, uid, answers)
}

// Writes the byuid lines that grant a user id what a portacl list grants it: those for the plain file at the front of plain, those for the marked
// one at the front of marked; a refusal leaves both as they were.
#[unsafe(no_mangle)]
pub extern "C" fn gate_carry(
    plain: &mut [u8],
    marked: &mut [u8],
    text: &[u8],
    uid: u32,
) -> GateWrittenTwo
    ensures answer { result ≡ (gate_carry text.now uid plain.old marked.old).answer }
    ensures lower { plain.new ≡ (gate_carry text.now uid plain.old marked.old).out }
    ensures upper { marked.new ≡ (gate_carry text.now uid plain.old marked.old).other }
{
    gate::gate_carry(plain, marked, text, uid)
}

// A sheet that is accepted, made of one with bad lines at the front of out, and at the front of list section and line of each change.
#[unsafe(no_mangle)]
pub extern "C" fn gate_salvage(out: &mut [u8], list: &mut [u8], sheet: &[u8]) -> GateWrittenTwo
    ensures answer { result ≡ (gate_salvage sheet.now out.old list.old).answer }
    ensures made { out.new ≡ (gate_salvage sheet.now out.old list.old).out }
    ensures changes { list.new ≡ (gate_salvage sheet.now out.old list.old).other }
{
    gate::gate_salvage(out, list, sheet)
}

// Whether the user's name can matter to the verdict by two texts.
#[unsafe(no_mangle)]
pub extern "C" fn gate_name_matters(
    allow: &[u8],
    deny: &[u8],
    daemon: &[u8],
    client_state: u32,
    client_kind: u32,
    client_high: u64,
    client_low: u64,
    client_name: &[u8],
    server_state: u32,
    server_kind: u32,
    server_high: u64,
    server_low: u64,
    server_name: &[u8],
    user: u32,
    user_name: &[u8],
) -> GateAnswer
    ensures { result
        ≡ gate_name_matters allow.now deny.now
        (request_numbers daemon.now (host_numbers client_state client_kind client_high client_low) client_name.now
        (host_numbers server_state server_kind server_high server_low) server_name.now user user_name.now) }
{
    gate::gate_name_matters(
        allow,
        deny,
        daemon,
        client_state,
        client_kind,
        client_high,
        client_low,
        client_name,
        server_state,
        server_kind,
        server_high,
        server_low,
        server_name,
        user,
        user_name,
    )
}

// The same over the tables of a section five.
#[unsafe(no_mangle)]
pub extern "C" fn gate_tables_name_matters(
    allow: &[u8],
    deny: &[u8],
    tables: &[u8],
    daemon: &[u8],
    client_state: u32,
    client_kind: u32,
    client_high: u64,
    client_low: u64,
    client_name: &[u8],
    server_state: u32,
    server_kind: u32,
    server_high: u64,
    server_low: u64,
    server_name: &[u8],
    user: u32,
    user_name: &[u8],
) -> GateAnswer
    ensures { result
        ≡ gate_tables_name_matters allow.now deny.now tables.now
        (request_numbers daemon.now (host_numbers client_state client_kind client_high client_low) client_name.now
        (host_numbers server_state server_kind server_high server_low) server_name.now user user_name.now) }
{
    gate::gate_tables_name_matters(
        allow,
        deny,
        tables,
        daemon,
        client_state,
        client_kind,
        client_high,
        client_low,
        client_name,
        server_state,
        server_kind,
        server_high,
        server_low,
        server_name,
        user,
        user_name,
    )
}

// The same by a sheet.
#[unsafe(no_mangle)]
pub extern "C" fn gate_sheet_name_matters(
    sheet: &[u8],
    daemon: &[u8],
    client_state: u32,
    client_kind: u32,
    client_high: u64,
    client_low: u64,
    client_name: &[u8],
    server_state: u32,
    server_kind: u32,
    server_high: u64,
    server_low: u64,
    server_name: &[u8],
    user: u32,
    user_name: &[u8],
) -> GateAnswer
    ensures { result
        ≡ gate_sheet_name_matters sheet.now
        (request_numbers daemon.now (host_numbers client_state client_kind client_high client_low) client_name.now
        (host_numbers server_state server_kind server_high server_low) server_name.now user user_name.now) }
{
    gate::gate_sheet_name_matters(
        sheet,
        daemon,
        client_state,
        client_kind,
        client_high,
        client_low,
        client_name,
        server_state,
        server_kind,
        server_high,
        server_low,
        server_name,
        user,
        user_name,
    )
}

// The lines of a file that can be dropped, as numbers of four bytes at the front of out.
#[unsafe(no_mangle)]
pub extern "C" fn gate_propose(
    out: &mut [u8],
    text: &[u8],
    tables: &[u8],
    section: u32,
) -> GateWritten
    ensures answer { result ≡ (gate_propose text.now tables.now section out.old).answer }
    ensures holds { out.new ≡ (gate_propose text.now tables.now section out.old).out }
{
    gate::gate_propose(out, text, tables, section)
}

// The file without the rules of a proposal that is accepted.
#[unsafe(no_mangle)]
pub extern "C" fn gate_drop(
    out: &mut [u8],
    text: &[u8],
    tables: &[u8],
    section: u32,
    proposal: &[u8],
) -> GateWritten
    ensures answer { result ≡ (gate_drop text.now tables.now section proposal.now out.old).answer }
    ensures holds { out.new ≡ (gate_drop text.now tables.now section proposal.now out.old).out }
{
    gate::gate_drop(out, text, tables, section, proposal)
}

// Writes the index of an accepted sheet at the front of out; a refusal leaves out as it was.
#[unsafe(no_mangle)]
pub extern "C" fn gate_index(out: &mut [u8], sheet: &[u8]) -> GateWritten
    ensures answer { result ≡ (gate_index sheet.now out.old).answer }
    ensures holds { out.new ≡ (gate_index sheet.now out.old).out }
{
    gate::gate_index(out, sheet)
}

// Answers up to 32 requests by a sheet and its index, 36 bytes each, at the front of out; a refusal leaves out as it was.
#[unsafe(no_mangle)]
pub extern "C" fn gate_verdicts(
    out: &mut [u8],
    sheet: &[u8],
    index: &[u8],
    requests: &[u8],
) -> GateWritten
    ensures answer { result ≡ (gate_verdicts sheet.now index.now requests.now out.old).answer }
    ensures holds { out.new ≡ (gate_verdicts sheet.now index.now requests.now out.old).out }
{
    gate::gate_verdicts(out, sheet, index, requests)
}
