// The gate's calls for C: bytes as slices, all else as numbers; include/gate.h declares them, codes says what the numbers mean.
//   gate_verdict, gate_tables_verdict, gate_byuid, gate_portacl == the decisions by texts handed in
//   gate_sheet_verdict, gate_sheet_byuid, gate_sheet_portacl == the decisions by a sheet
//   gate_name_matters, gate_tables_name_matters, gate_sheet_name_matters == whether the user's name can matter to a verdict
//   gate_check, gate_unpack, gate_pack     == sheets checked, unpacked and packed
//   gate_upgrade                           == a sheet of four sections with an empty count of tables
//   gate_salvage                           == a damaged sheet made into an accepted one, and the list of what was changed
//   gate_propose, gate_drop                == which rules of a file never fire, and the file without them
//   gate_index, gate_verdicts              == the index of a sheet's rules, and up to 32 requests answered by sheet and index
//   gate_convert                           == a byuid text with its lines of the retired form in their new one
//   gate_expand                            == a command expanded
//   gate_command, gate_sheet_command       == a verdict, and its command expanded
//   gate_read_address, gate_write_address  == addresses as text
//   gate_authbind                          == the next file in authbind's order, or the outcome
//   gate_carry                             == the byuid lines that grant what a portacl list grants
// A number outside its kinds is refused by 13, after every check of the texts.
#![tactic(auto)]

ghost use Rattle.std.specs.Prelude.{◌≡◌};
ghost use Rattle.sheet.specs.Sheet.{texts};
ghost use Rattle.codes.specs.Requests.{host_numbers, request_numbers, settings_of};
ghost use Rattle.gate.specs.Calls.{gate_verdict, gate_tables_verdict, gate_sheet_verdict, gate_byuid, gate_sheet_byuid, gate_portacl, gate_sheet_portacl};
ghost use Rattle.gate.specs.Calls.{gate_check, gate_unpack, gate_read_address, gate_pack, gate_upgrade, gate_expand, gate_command, gate_sheet_command};
ghost use Rattle.gate.specs.Calls.{gate_write_address};
ghost use Rattle.gate.specs.Calls.{gate_propose, gate_drop, gate_index, gate_verdicts};
ghost use Rattle.gate.specs.Calls.{gate_authbind, gate_convert, gate_carry, gate_salvage, gate_name_matters, gate_tables_name_matters, gate_sheet_name_matters};

use codes::{
    GateAddress, GateAnswer, GateCheck, GateCommand, GateNext, GateParts, GateWritten,
    GateWrittenTwo,
};
use portacl::Settings;
use section::Fault;

// The verdict by two texts.
#[unsafe(no_mangle)]
pub extern "C" fn gate_verdict(
    allow: &[u8],
    deny: &[u8],
    daemon: &[u8],
    client_state: u32,
    client_kind: u32,
    client_high: u64,
    client_low: u64,
    client_name: &[u8],
    server_state: u32,
    server_kind: u32,
    server_high: u64,
    server_low: u64,
    server_name: &[u8],
    user: u32,
    user_name: &[u8],
) -> GateAnswer
    ensures { result
        ≡ gate_verdict allow.now deny.now
        (request_numbers daemon.now (host_numbers client_state client_kind client_high client_low) client_name.now
        (host_numbers server_state server_kind server_high server_low) server_name.now user user_name.now) }
{
    let mut names = [0u8; codes::request::NAMES];
    let request = codes::request::read(
        &mut names,
        daemon,
        client_state,
        client_kind,
        client_high,
        client_low,
        client_name,
        server_state,
        server_kind,
        server_high,
        server_low,
        server_name,
        user,
        user_name,
    );
    codes::answer::verdict_numbers(rules::decide(allow, deny, &names, request))
}

// The verdict by two texts, over the tables of a section five.
#[unsafe(no_mangle)]
pub extern "C" fn gate_tables_verdict(
    allow: &[u8],
    deny: &[u8],
    tables: &[u8],
    daemon: &[u8],
    client_state: u32,
    client_kind: u32,
    client_high: u64,
    client_low: u64,
    client_name: &[u8],
    server_state: u32,
    server_kind: u32,
    server_high: u64,
    server_low: u64,
    server_name: &[u8],
    user: u32,
    user_name: &[u8],
) -> GateAnswer
    ensures { result
        ≡ gate_tables_verdict allow.now deny.now tables.now
        (request_numbers daemon.now (host_numbers client_state client_kind client_high client_low) client_name.now
        (host_numbers server_state server_kind server_high server_low) server_name.now user user_name.now) }
{
    let mut names = [0u8; codes::request::NAMES];
    let request = codes::request::read(
        &mut names,
        daemon,
        client_state,
        client_kind,
        client_high,
        client_low,
        client_name,
        server_state,
        server_kind,
        server_high,
        server_low,
        server_name,
        user,
        user_name,
    );
    codes::answer::verdict_numbers(rules::decide_tables(allow, deny, tables, &names, request))
}

// The byuid decision by a text from the plain or the marked file.
#[unsafe(no_mangle)]
pub extern "C" fn gate_byuid(
    text: &[u8],
    mark: u32,
    port: u32,
    kind: u32,
    high: u64,
    low: u64,
    uid: u32,
) -> GateAnswer
    ensures { result ≡ gate_byuid text.now mark port kind high low uid }
{
    codes::answer::byuid_numbers(byuid::decide(
        text,
        codes::request::mark_by(mark),
        codes::request::port_by(port),
        codes::request::address_from(mark, port, kind, high, low),
        uid,
    ))
}

// The portacl decision by a text.
#[unsafe(no_mangle)]
pub extern "C" fn gate_portacl(
    text: &[u8],
    enabled: u32,
    port_high: u32,
    suser_exempt: u32,
    autoport_exempt: u32,
    uid: u32,
    groups: &[u32],
    protocol: u32,
    port: u32,
) -> GateAnswer
    ensures { result
        ≡ gate_portacl text.now (settings_of enabled port_high suser_exempt autoport_exempt) uid groups.now protocol port }
{
    let settings = Settings {
        enabled,
        port_high,
        suser_exempt,
        autoport_exempt,
    };
    let too_many = [0u32; 17];
    let target = codes::request::read_target(protocol, port);
    let by = target.protocol;
    codes::answer::portacl_numbers(portacl::decide(
        text,
        settings,
        uid,
        codes::request::groups_if(target.fit, groups, &too_many),
        by,
        target.port,
    ))
}

// The verdict by a sheet; the raw command's place is in the sheet.
#[unsafe(no_mangle)]
pub extern "C" fn gate_sheet_verdict(
    sheet: &[u8],
    daemon: &[u8],
    client_state: u32,
    client_kind: u32,
    client_high: u64,
    client_low: u64,
    client_name: &[u8],
    server_state: u32,
    server_kind: u32,
    server_high: u64,
    server_low: u64,
    server_name: &[u8],
    user: u32,
    user_name: &[u8],
) -> GateAnswer
    ensures { result
        ≡ gate_sheet_verdict sheet.now
        (request_numbers daemon.now (host_numbers client_state client_kind client_high client_low) client_name.now
        (host_numbers server_state server_kind server_high server_low) server_name.now user user_name.now) }
{
    let mut names = [0u8; codes::request::NAMES];
    let request = codes::request::read(
        &mut names,
        daemon,
        client_state,
        client_kind,
        client_high,
        client_low,
        client_name,
        server_state,
        server_kind,
        server_high,
        server_low,
        server_name,
        user,
        user_name,
    );
    codes::answer::verdict_numbers(station::decide(sheet, &names, request))
}

// The byuid decision by a sheet, whose byuid text is the plain file.
#[unsafe(no_mangle)]
pub extern "C" fn gate_sheet_byuid(
    sheet: &[u8],
    port: u32,
    kind: u32,
    high: u64,
    low: u64,
    uid: u32,
) -> GateAnswer
    ensures { result ≡ gate_sheet_byuid sheet.now port kind high low uid }
{
    let by = codes::request::port_by(port);
    let at = codes::request::address_by(port, kind, high, low);
    codes::answer::byuid_numbers(station::decide_byuid(sheet, by, at, uid))
}

// The portacl decision by a sheet.
#[unsafe(no_mangle)]
pub extern "C" fn gate_sheet_portacl(
    sheet: &[u8],
    enabled: u32,
    port_high: u32,
    suser_exempt: u32,
    autoport_exempt: u32,
    uid: u32,
    groups: &[u32],
    protocol: u32,
    port: u32,
) -> GateAnswer
    ensures { result
        ≡ gate_sheet_portacl sheet.now (settings_of enabled port_high suser_exempt autoport_exempt) uid groups.now protocol port }
{
    let settings = Settings {
        enabled,
        port_high,
        suser_exempt,
        autoport_exempt,
    };
    let seventeen = [0u32; 17];
    let bind = codes::request::read_target(protocol, port);
    let over = bind.protocol;
    codes::answer::portacl_numbers(station::decide_portacl(
        sheet,
        settings,
        uid,
        codes::request::groups_if(bind.fit, groups, &seventeen),
        over,
        bind.port,
    ))
}

// Whether a sheet is accepted.
#[unsafe(no_mangle)]
pub extern "C" fn gate_check(sheet: &[u8]) -> GateCheck
    ensures { result ≡ gate_check sheet.now }
{
    codes::answer::check_numbers(sheet::unpack::unpack(sheet))
}

// The place and length of each text of a sheet.
#[unsafe(no_mangle)]
pub extern "C" fn gate_unpack(sheet: &[u8]) -> GateParts
    ensures { result ≡ gate_unpack sheet.now }
{
    codes::answer::parts_numbers(sheet::unpack::unpack(sheet))
}

// Packs four texts into a sheet at the front of out; a refusal leaves out as it was.
#[unsafe(no_mangle)]
pub extern "C" fn gate_pack(
    out: &mut [u8],
    allow: &[u8],
    deny: &[u8],
    byuid: &[u8],
    portacl: &[u8],
    tables: &[u8],
) -> GateWritten
    ensures answer { result
        ≡ (gate_pack (texts allow.now deny.now byuid.now portacl.now tables.now)
        out.old).answer }
    ensures holds { out.new
        ≡ (gate_pack (texts allow.now deny.now byuid.now portacl.now tables.now)
        out.old).out }
{
    codes::answer::written_numbers(sheet::pack::pack(out, allow, deny, byuid, portacl, tables))
}

// Appends an empty count of tables to a sheet of four sections, at the front of out; a refusal leaves out as it was.
#[unsafe(no_mangle)]
pub extern "C" fn gate_upgrade(out: &mut [u8], sheet: &[u8]) -> GateWritten
    ensures answer { result ≡ (gate_upgrade sheet.now out.old).answer }
    ensures holds { out.new ≡ (gate_upgrade sheet.now out.old).out }
{
    codes::answer::written_numbers(sheet::upgrade::upgrade(out, sheet))
}

// Converts a byuid text into the front of out; a refusal leaves out as it was.
#[unsafe(no_mangle)]
pub extern "C" fn gate_convert(out: &mut [u8], text: &[u8]) -> GateWritten
    ensures answer { result ≡ (gate_convert text.now out.old).answer }
    ensures holds { out.new ≡ (gate_convert text.now out.old).out }
{
    codes::answer::written_numbers(byuid::convert::convert(out, text))
}

// Expands a command for a request at the front of out; a refusal leaves out as it was.
#[unsafe(no_mangle)]
pub extern "C" fn gate_expand(
    out: &mut [u8],
    command: &[u8],
    daemon: &[u8],
    client_state: u32,
    client_kind: u32,
    client_high: u64,
    client_low: u64,
    client_name: &[u8],
    server_state: u32,
    server_kind: u32,
    server_high: u64,
    server_low: u64,
    server_name: &[u8],
    user: u32,
    user_name: &[u8],
    process: u32,
) -> GateWritten
    ensures answer { result
        ≡ (gate_expand command.now
        (request_numbers daemon.now (host_numbers client_state client_kind client_high client_low) client_name.now
        (host_numbers server_state server_kind server_high server_low) server_name.now user user_name.now)
        process out.old).answer }
    ensures holds { out.new
        ≡ (gate_expand command.now
        (request_numbers daemon.now (host_numbers client_state client_kind client_high client_low) client_name.now
        (host_numbers server_state server_kind server_high server_low) server_name.now user user_name.now)
        process out.old).out }
{
    let mut names = [0u8; codes::request::NAMES];
    let request = codes::request::read(
        &mut names,
        daemon,
        client_state,
        client_kind,
        client_high,
        client_low,
        client_name,
        server_state,
        server_kind,
        server_high,
        server_low,
        server_name,
        user,
        user_name,
    );
    codes::answer::written_numbers(expansion::expand(out, command, &names, request, process))
}

// The verdict by two texts, and the command of the rule that decided, expanded at the front of out; a refusal leaves out as it was.
#[unsafe(no_mangle)]
pub extern "C" fn gate_command<'a>(
    out: &mut [u8],
    allow: &'a [u8],
    deny: &'a [u8],
    daemon: &[u8],
    client_state: u32,
    client_kind: u32,
    client_high: u64,
    client_low: u64,
    client_name: &[u8],
    server_state: u32,
    server_kind: u32,
    server_high: u64,
    server_low: u64,
    server_name: &[u8],
    user: u32,
    user_name: &[u8],
    process: u32,
) -> GateCommand
    ensures answer { result
        ≡ (gate_command allow.now deny.now
        (request_numbers daemon.now (host_numbers client_state client_kind client_high client_low) client_name.now
        (host_numbers server_state server_kind server_high server_low) server_name.now user user_name.now)
        process out.old).answer }
    ensures holds { out.new
        ≡ (gate_command allow.now deny.now
        (request_numbers daemon.now (host_numbers client_state client_kind client_high client_low) client_name.now
        (host_numbers server_state server_kind server_high server_low) server_name.now user user_name.now)
        process out.old).out }
{
    let mut names = [0u8; codes::request::NAMES];
    let request = codes::request::read(
        &mut names,
        daemon,
        client_state,
        client_kind,
        client_high,
        client_low,
        client_name,
        server_state,
        server_kind,
        server_high,
        server_low,
        server_name,
        user,
        user_name,
    );
    let report = rules::decide(allow, deny, &names, request);
    let ruling = report.ruling;
    match ruling {
        Err(refusal) => codes::answer::no_command(refusal),
        Ok(answer) => codes::answer::command_numbers(
            answer,
            report.looked,
            expansion::expand(
                out,
                rules::command_part(allow, deny, answer),
                &names,
                request,
                process,
            ),
        ),
    }
}

// The same by a sheet.
#[unsafe(no_mangle)]
pub extern "C" fn gate_sheet_command(
    out: &mut [u8],
    sheet: &[u8],
    daemon: &[u8],
    client_state: u32,
    client_kind: u32,
    client_high: u64,
    client_low: u64,
    client_name: &[u8],
    server_state: u32,
    server_kind: u32,
    server_high: u64,
    server_low: u64,
    server_name: &[u8],
    user: u32,
    user_name: &[u8],
    process: u32,
) -> GateCommand
    ensures answer { result
        ≡ (gate_sheet_command sheet.now
        (request_numbers daemon.now (host_numbers client_state client_kind client_high client_low) client_name.now
        (host_numbers server_state server_kind server_high server_low) server_name.now user user_name.now)
        process out.old).answer }
    ensures holds { out.new
        ≡ (gate_sheet_command sheet.now
        (request_numbers daemon.now (host_numbers client_state client_kind client_high client_low) client_name.now
        (host_numbers server_state server_kind server_high server_low) server_name.now user user_name.now)
        process out.old).out }
{
    let mut names = [0u8; codes::request::NAMES];
    let request = codes::request::read(
        &mut names,
        daemon,
        client_state,
        client_kind,
        client_high,
        client_low,
        client_name,
        server_state,
        server_kind,
        server_high,
        server_low,
        server_name,
        user,
        user_name,
    );
    let report = station::decide(sheet, &names, request);
    let ruling = report.ruling;
    match ruling {
        Err(refusal) => codes::answer::no_command(refusal),
        Ok(answer) => codes::answer::command_numbers(
            answer,
            report.looked,
            expansion::expand(
                out,
                station::command(sheet, answer),
                &names,
                request,
                process,
            ),
        ),
    }
}

// The address that a text writes.
#[unsafe(no_mangle)]
pub extern "C" fn gate_read_address(text: &[u8]) -> GateAddress
    ensures { result ≡ gate_read_address text.now }
{
    codes::answer::read_numbers(address::read::read_address(text))
}

// Writes an address at the front of out; a refusal leaves out as it was.
#[unsafe(no_mangle)]
pub extern "C" fn gate_write_address(out: &mut [u8], kind: u32, high: u64, low: u64) -> GateWritten
    ensures answer { result ≡ (gate_write_address kind high low out.old).answer }
    ensures holds { out.new ≡ (gate_write_address kind high low out.old).out }
{
    if codes::request::is_address(kind, high, low) {
        let a = codes::request::address(kind, high, low);
        return codes::answer::written_numbers(address_format::write_address(out, a));
    }
    codes::answer::written_numbers(Err(section::placeless(Fault::BadRequest)))
}

// Which file authbind looks at next for a bind, after the answers of the access tests so far, or the outcome. A name is written at the front of
// out; all else leaves out as it was.
#[unsafe(no_mangle)]
pub extern "C" fn gate_authbind(
    out: &mut [u8],
    port: u32,
    kind: u32,
    high: u64,
    low: u64,
    uid: u32,
    answers: &[u8],
) -> GateNext
    ensures answer { result ≡ (gate_authbind port kind high low uid answers.now out.old).answer }
    ensures holds { out.new ≡ (gate_authbind port kind high low uid answers.now out.old).out }
{
    let bound = codes::request::port_by(port);
    let place = codes::request::address_by(port, kind, high, low);
    codes::answer::next_numbers(authbind::next_step(out, bound, place, uid, answers))
}

// Writes the byuid lines that grant a user id what a portacl list grants it: those for the plain file at the front of plain, those for the marked
// one at the front of marked; a refusal leaves both as they were.
#[unsafe(no_mangle)]
pub extern "C" fn gate_carry(
    plain: &mut [u8],
    marked: &mut [u8],
    text: &[u8],
    uid: u32,
) -> GateWrittenTwo
    ensures answer { result ≡ (gate_carry text.now uid plain.old marked.old).answer }
    ensures lower { plain.new ≡ (gate_carry text.now uid plain.old marked.old).out }
    ensures upper { marked.new ≡ (gate_carry text.now uid plain.old marked.old).other }
{
    codes::answer::written_two_numbers(carry::carry(plain, marked, text, uid))
}

// A sheet that is accepted, made of one with bad lines at the front of out, and at the front of list section and line of each change.
#[unsafe(no_mangle)]
pub extern "C" fn gate_salvage(out: &mut [u8], list: &mut [u8], sheet: &[u8]) -> GateWrittenTwo
    ensures answer { result ≡ (gate_salvage sheet.now out.old list.old).answer }
    ensures made { out.new ≡ (gate_salvage sheet.now out.old list.old).out }
    ensures changes { list.new ≡ (gate_salvage sheet.now out.old list.old).other }
{
    codes::answer::written_two_numbers(salvage::salvage(out, list, sheet))
}

// Whether the user's name can matter to the verdict by two texts.
#[unsafe(no_mangle)]
pub extern "C" fn gate_name_matters(
    allow: &[u8],
    deny: &[u8],
    daemon: &[u8],
    client_state: u32,
    client_kind: u32,
    client_high: u64,
    client_low: u64,
    client_name: &[u8],
    server_state: u32,
    server_kind: u32,
    server_high: u64,
    server_low: u64,
    server_name: &[u8],
    user: u32,
    user_name: &[u8],
) -> GateAnswer
    ensures { result
        ≡ gate_name_matters allow.now deny.now
        (request_numbers daemon.now (host_numbers client_state client_kind client_high client_low) client_name.now
        (host_numbers server_state server_kind server_high server_low) server_name.now user user_name.now) }
{
    let mut names = [0u8; codes::request::NAMES];
    let request = codes::request::read(
        &mut names,
        daemon,
        client_state,
        client_kind,
        client_high,
        client_low,
        client_name,
        server_state,
        server_kind,
        server_high,
        server_low,
        server_name,
        user,
        user_name,
    );
    codes::answer::matter_numbers(matters::name_matters(allow, deny, &names, request))
}

// The same over the tables of a section five.
#[unsafe(no_mangle)]
pub extern "C" fn gate_tables_name_matters(
    allow: &[u8],
    deny: &[u8],
    tables: &[u8],
    daemon: &[u8],
    client_state: u32,
    client_kind: u32,
    client_high: u64,
    client_low: u64,
    client_name: &[u8],
    server_state: u32,
    server_kind: u32,
    server_high: u64,
    server_low: u64,
    server_name: &[u8],
    user: u32,
    user_name: &[u8],
) -> GateAnswer
    ensures { result
        ≡ gate_tables_name_matters allow.now deny.now tables.now
        (request_numbers daemon.now (host_numbers client_state client_kind client_high client_low) client_name.now
        (host_numbers server_state server_kind server_high server_low) server_name.now user user_name.now) }
{
    let mut names = [0u8; codes::request::NAMES];
    let request = codes::request::read(
        &mut names,
        daemon,
        client_state,
        client_kind,
        client_high,
        client_low,
        client_name,
        server_state,
        server_kind,
        server_high,
        server_low,
        server_name,
        user,
        user_name,
    );
    codes::answer::matter_numbers(matters::name_matters_tables(
        allow, deny, tables, &names, request,
    ))
}

// The same by a sheet.
#[unsafe(no_mangle)]
pub extern "C" fn gate_sheet_name_matters(
    sheet: &[u8],
    daemon: &[u8],
    client_state: u32,
    client_kind: u32,
    client_high: u64,
    client_low: u64,
    client_name: &[u8],
    server_state: u32,
    server_kind: u32,
    server_high: u64,
    server_low: u64,
    server_name: &[u8],
    user: u32,
    user_name: &[u8],
) -> GateAnswer
    ensures { result
        ≡ gate_sheet_name_matters sheet.now
        (request_numbers daemon.now (host_numbers client_state client_kind client_high client_low) client_name.now
        (host_numbers server_state server_kind server_high server_low) server_name.now user user_name.now) }
{
    let mut names = [0u8; codes::request::NAMES];
    let request = codes::request::read(
        &mut names,
        daemon,
        client_state,
        client_kind,
        client_high,
        client_low,
        client_name,
        server_state,
        server_kind,
        server_high,
        server_low,
        server_name,
        user,
        user_name,
    );
    codes::answer::matter_numbers(matters::name_matters_sheet(sheet, &names, request))
}

// The lines of a file that can be dropped, as numbers of four bytes at the front of out.
#[unsafe(no_mangle)]
pub extern "C" fn gate_propose(
    out: &mut [u8],
    text: &[u8],
    tables: &[u8],
    section: u32,
) -> GateWritten
    ensures answer { result ≡ (gate_propose text.now tables.now section out.old).answer }
    ensures holds { out.new ≡ (gate_propose text.now tables.now section out.old).out }
{
    codes::answer::written_numbers(tidy::propose(out, text, tables, section))
}

// The file without the rules of a proposal that is accepted.
#[unsafe(no_mangle)]
pub extern "C" fn gate_drop(
    out: &mut [u8],
    text: &[u8],
    tables: &[u8],
    section: u32,
    proposal: &[u8],
) -> GateWritten
    ensures answer { result ≡ (gate_drop text.now tables.now section proposal.now out.old).answer }
    ensures holds { out.new ≡ (gate_drop text.now tables.now section proposal.now out.old).out }
{
    codes::answer::written_numbers(tidy::drop_rules(out, text, tables, section, proposal))
}

// Writes the index of an accepted sheet at the front of out; a refusal leaves out as it was.
#[unsafe(no_mangle)]
pub extern "C" fn gate_index(out: &mut [u8], sheet: &[u8]) -> GateWritten
    ensures answer { result ≡ (gate_index sheet.now out.old).answer }
    ensures holds { out.new ≡ (gate_index sheet.now out.old).out }
{
    codes::answer::written_numbers(index::write_index(out, sheet))
}

// Answers up to 32 requests by a sheet and its index, 36 bytes each, at the front of out; a refusal leaves out as it was.
#[unsafe(no_mangle)]
pub extern "C" fn gate_verdicts(
    out: &mut [u8],
    sheet: &[u8],
    index: &[u8],
    requests: &[u8],
) -> GateWritten
    ensures answer { result ≡ (gate_verdicts sheet.now index.now requests.now out.old).answer }
    ensures holds { out.new ≡ (gate_verdicts sheet.now index.now requests.now out.old).out }
{
    codes::answer::written_numbers(index::verdicts(out, sheet, index, requests))
}
