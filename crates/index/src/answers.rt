// The answers to requests, as bytes.
//   answer_to(.., names, fields)      == the answer to the request whose texts stand in names
//   put_answers(out, .., requests)    == the answers to all requests, written
ghost use Rattle.std.specs.Prelude.{◌≡◌, ◌+◌, ◌≤◌, length};
ghost use Rattle.text.specs.Scan.{put_at, after};
ghost use Rattle.classes.specs.Class.{Classes};
ghost use Rattle.elements.specs.Places.{request_at};
ghost use Rattle.sheet.specs.Sheet.{unpack as unpackOf};
ghost use Rattle.index.specs.Index.{index_bytes, read_requests, answer_bytes, answers_to, lone_answer};
ghost use Rattle.index.specs.Code.{searched_at, known_part, user_part, named_at, numbers_in, found_numbers, unfit_numbers, Ready, all_answers, Fitting};

use crate::requests::{Fields, four_at, request_at};
use crate::search::search;
use crate::table::put_two;
use codes::GateAnswer;
use codes::answer::verdict_numbers;
use codes::request::{States, read_states};
use elements::User;
use elements::request::{Request, fits, held};
use patterns::{Host, Name};
use section::{Fault, Part};
use sheet::Parts;
use sheet::pack::put_count;

// Writes an answer from at on, and answers the place after it.
fn put_answer(out: &mut [u8], at: usize, answer: GateAnswer) -> usize
    requires { at + 36 ≤ length out.old }
    ensures next { result ≡ at + 36 }
    ensures written { out.new ≡ put_at out.old at (answer_bytes answer) }
{
    let looked = answer.looked as usize;
    let line = put_two(out, at, answer.number as usize, answer.section as usize);
    let file = put_two(out, line, answer.line as usize, answer.word as usize);
    let len = put_two(out, file, answer.file as usize, answer.place as usize);
    let last = put_two(
        out,
        len,
        answer.len as usize,
        looked / 256 / 256 / 256 / 256,
    );
    put_count(out, last, looked)
}

// The place of a host's name; empty where it is not known.
fn known_part(host: Host, name: Part) -> Part
    ensures { result ≡ known_part host.name name }
{
    let state = host.name;
    match state {
        Name::Unknown => Part { place: 0, len: 0 },
        Name::Paranoid => Part { place: 0, len: 0 },
        Name::Known => name,
    }
}

// The place of a user's name; empty where it is not known.
fn user_part(user: User, name: Part) -> Part
    ensures { result ≡ user_part user name }
{
    match user {
        User::NotFetched => Part { place: 0, len: 0 },
        User::Unknown => Part { place: 0, len: 0 },
        User::Known => name,
    }
}

// The request of these states, whose texts stand at the places of the fields.
fn named(states: States, fields: Fields) -> Request
    ensures { result ≡ named_at states fields }
{
    let client = states.client;
    let server = states.server;
    let user = states.user;
    let daemon = fields.daemon;
    let of_client = fields.client;
    let of_server = fields.server;
    Request {
        daemon,
        client,
        client_name: known_part(client, of_client.name),
        server,
        server_name: known_part(server, of_server.name),
        user,
        user_name: user_part(user, fields.user_name),
    }
}

// The answer to a request that fits and is held.
fn found_answer(
    class: &[u8; 256],
    sheet: &[u8],
    parts: Parts,
    allow: &[u8],
    deny: &[u8],
    names: &[u8],
    request: Request,
) -> GateAnswer
    requires classes { Classes class.now }
    requires ready { Ready sheet.now parts allow.now deny.now }
    ensures { result ≡ found_numbers (searched_at sheet.now parts (request_at names.now request)) }
{
    let found = search(class, sheet, parts, allow, deny, names, request);
    let answer = found.answer;
    verdict_numbers(rules::answered(answer, found.looked, true))
}

// The answer to a request that does not fit.
fn unfit_answer() -> GateAnswer
    ensures { result ≡ unfit_numbers }
{
    verdict_numbers(rules::refused(section::placeless(Fault::BadRequest)))
}

// The answer to the request whose texts stand in names, by a sheet that is accepted and the entries of its two texts.
fn answer_to(
    class: &[u8; 256],
    sheet: &[u8],
    parts: Parts,
    allow: &[u8],
    deny: &[u8],
    names: &[u8],
    fields: Fields,
) -> GateAnswer
    requires classes { Classes class.now }
    requires ready { Ready sheet.now parts allow.now deny.now }
    ensures { result ≡ lone_answer sheet.now (numbers_in names.now fields) }
{
    let client = fields.client;
    let server = fields.server;
    let states = read_states(client.numbers, server.numbers, fields.user);
    let request = held(named(states, fields));
    if states.fit & fits(names, request) {
        return found_answer(class, sheet, parts, allow, deny, names, request);
    }
    unfit_answer()
}

// Writes the answers to all requests at the front of out, and answers their length.
fn put_all(
    out: &mut [u8],
    class: &[u8; 256],
    sheet: &[u8],
    parts: Parts,
    allow: &[u8],
    deny: &[u8],
    requests: &[u8],
) -> usize
    requires classes { Classes class.now }
    requires ready { Ready sheet.now parts allow.now deny.now }
    requires fitting { Fitting sheet.now (read_requests requests.now) (length out.old) }
    ensures count { result ≡ length (all_answers sheet.now (read_requests requests.now)) }
    ensures written { out.new ≡ after (all_answers sheet.now (read_requests requests.now)) out.old }
{
    let mut rest = requests;
    let mut at = 0;
    while 0 < rest.len() {
        match request_at(rest) {
            None => {
                return at;
            }
            Some(fields) => {
                let answer = answer_to(class, sheet, parts, allow, deny, rest, fields);
                let next = put_answer(out, at, answer);
                at = next;
                let end = fields.end;
                let following = &rest[end..];
                rest = following;
            }
        }
    }
    at
}

// The same, the entries found in the index.
pub fn put_answers(
    out: &mut [u8],
    sheet: &[u8],
    parts: Parts,
    index: &[u8],
    requests: &[u8],
) -> usize
    requires sheet_value { (unpackOf sheet.now ≡ Ok parts) × (index.now ≡ index_bytes sheet.now parts) }
    requires fitting { Fitting sheet.now (read_requests requests.now) (length out.old) }
    ensures count { result ≡ length (all_answers sheet.now (read_requests requests.now)) }
    ensures written { out.new ≡ after (all_answers sheet.now (read_requests requests.now)) out.old }
{
    let class = classes::classes();
    let middle = 8 + 32 * four_at(index, 0) as usize;
    put_all(
        out,
        &class,
        sheet,
        parts,
        &index[8..middle],
        &index[middle..],
        requests,
    )
}
