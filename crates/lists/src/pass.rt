// One rule, checked and looked at in one pass: each element of its lists is read once.
//   pass_rule(class, t, search, ..) == the lowest fault of the rule in the joined line t and, if it is searched, what it
//                                      finds and looks at
ghost use Rattle.std.specs.Prelude.{◌≡◌};
ghost use Rattle.lines.specs.Parts.{words};
ghost use Rattle.patterns.specs.Host.{endpoint};
ghost use Rattle.classes.specs.Class.{Classes, Describes};
ghost use Rattle.elements.specs.Code.{view_of, daemon_kind, client_kind};
ghost use Rattle.elements.specs.Places.{request_at};
ghost use Rattle.lists.specs.Code.{NoNewline};
ghost use Rattle.lists.specs.ListCode.{daemon_finds, client_finds, daemon_counts, client_counts};
ghost use Rattle.lists.specs.PassCode.{side_start, is_looking, side_end, side_of, side_found, side_more, side_turned, side_step, turned_looks, step_looks, turn};
ghost use Rattle.lists.specs.PassCode.{pass_start, pass_step, pass_end, list_seen, is_yes, then_found, rest_seen, rule_seen};

use super::check::{ListCheck, bad_command, list_end, list_more, list_start, lowest_fault};
use super::walk::{clients_included, daemons_included, negated_list};
use classes::element_at;
use elements::request::Request;
use elements::{Found, Looked, User, count, element};
use lines::rule;
use patterns::Host;
use section::{Fault, part_of};

// Where a pass over a list is: it looks for an element that matches, has one, or is done, with what the list finds.
#[derive(Clone, Copy)]
pub enum Side {
    Looking,
    Matched,
    No,
    Yes,
    Ask,
}

// The side after a word, and how many elements were looked at for it.
#[derive(Clone, Copy)]
pub struct Turn {
    pub side: Side,
    pub looked: u64,
}

// What a pass carries from element to element: what the check found, whether an element stands directly before, its side, and how many
// elements were looked at.
#[derive(Clone, Copy)]
pub struct ListPass {
    pub check: ListCheck,
    pub after: bool,
    pub side: Side,
    pub looked: u64,
}

// What a list gives: what checking it finds, and what it finds and looks at, if it is searched.
#[derive(Clone, Copy)]
pub struct ListSeen {
    pub check: ListCheck,
    pub found: Found,
    pub looked: u64,
}

// What a rule gives: its lowest fault, and what it finds and looks at, if it is searched.
#[derive(Clone, Copy)]
pub struct RuleSeen {
    pub check: Result<(), Fault>,
    pub found: Found,
    pub looked: u64,
}

// Where a pass starts.
fn side_start(search: bool) -> Side
    ensures { result ≡ side_start search }
{
    if search { Side::Looking } else { Side::No }
}

// Whether the next element is looked at.
fn is_looking(side: Side) -> bool
    ensures { result ≡ is_looking side }
{
    match side {
        Side::Looking => true,
        Side::Matched => false,
        Side::No => false,
        Side::Yes => false,
        Side::Ask => false,
    }
}

// What the list finds where it ends.
fn side_end(side: Side) -> Found
    ensures { result ≡ side_end side }
{
    match side {
        Side::Looking => Found::No,
        Side::Matched => Found::Yes,
        Side::No => Found::No,
        Side::Yes => Found::Yes,
        Side::Ask => Found::Ask,
    }
}

// The side that is done with what the list finds.
fn side_of(f: Found) -> Side
    ensures { result ≡ side_of f }
{
    match f {
        Found::No => Side::No,
        Found::Yes => Side::Yes,
        Found::Ask => Side::Ask,
    }
}

// The side after an element that was looked at, and finds f.
fn side_found(f: Found) -> Side
    ensures { result ≡ side_found f }
{
    match f {
        Found::No => Side::Looking,
        Found::Yes => Side::Matched,
        Found::Ask => Side::Ask,
    }
}

// The side after an element, which finds f if it is looked at.
fn side_more(side: Side, f: Found) -> Side
    ensures { result ≡ side_more side f }
{
    match side {
        Side::Looking => side_found(f),
        Side::Matched => side,
        Side::No => side,
        Side::Yes => side,
        Side::Ask => side,
    }
}

// What a pass carries before the first element.
fn pass_start(search: bool) -> ListPass
    ensures { result ≡ pass_start search }
{
    ListPass {
        check: list_start(),
        after: false,
        side: side_start(search),
        looked: 0,
    }
}

// A side for which nothing was looked at.
fn unlooked(side: Side) -> Turn
    ensures { result ≡ turn side 0 }
{
    Turn { side, looked: 0 }
}

// The side that is done with what the list after EXCEPT finds, negated round.
fn turn_of(l: Looked) -> Turn
    ensures { result ≡ turn (side_of l.found) l.looked }
{
    let found = l.found;
    Turn {
        side: side_of(found),
        looked: l.looked,
    }
}

// The side after EXCEPT in a daemon list; s follows it, and is looked at only if an element before it matched.
fn daemons_negated(
    class: &[u8; 256],
    tables: &[u8],
    notes: &[u64],
    side: Side,
    s: &[u8],
    daemon: &[u8],
    server: Host,
    server_name: &[u8],
) -> Turn
    requires { Classes class.now }
    ensures { result ≡ turn
        (side_turned (daemon_finds (view_of tables.now notes.now) daemon.now (endpoint server server_name.now)) side
        (words s.now))
        (turned_looks (daemon_finds (view_of tables.now notes.now) daemon.now (endpoint server server_name.now))
        (daemon_counts (view_of tables.now notes.now)) side (words s.now)) }
{
    match side {
        Side::Looking => unlooked(Side::No),
        Side::Matched => {
            turn_of(negated_list(daemons_included(
                class,
                tables,
                notes,
                s,
                daemon,
                server,
                server_name,
            )))
        }
        Side::No => unlooked(side),
        Side::Yes => unlooked(side),
        Side::Ask => unlooked(side),
    }
}

// The side after EXCEPT in a client list.
fn clients_negated(
    class: &[u8; 256],
    tables: &[u8],
    notes: &[u64],
    side: Side,
    s: &[u8],
    client: Host,
    client_name: &[u8],
    user: User,
    user_name: &[u8],
) -> Turn
    requires { Classes class.now }
    ensures { result ≡ turn
        (side_turned (client_finds (view_of tables.now notes.now) (endpoint client client_name.now) user
        user_name.now) side
        (words s.now))
        (turned_looks (client_finds (view_of tables.now notes.now) (endpoint client client_name.now) user
        user_name.now)
        (client_counts (view_of tables.now notes.now)) side (words s.now)) }
{
    match side {
        Side::Looking => unlooked(Side::No),
        Side::Matched => turn_of(negated_list(clients_included(
            class,
            tables,
            notes,
            s,
            client,
            client_name,
            user,
            user_name,
        ))),
        Side::No => unlooked(side),
        Side::Yes => unlooked(side),
        Side::Ask => unlooked(side),
    }
}

// The side after a word of a daemon list; x: whether it is EXCEPT, f, looked: what it finds and counts if it is looked at,
// s: what follows it.
fn daemons_side(
    class: &[u8; 256],
    tables: &[u8],
    notes: &[u64],
    side: Side,
    x: bool,
    f: Found,
    looked: u64,
    s: &[u8],
    daemon: &[u8],
    server: Host,
    server_name: &[u8],
) -> Turn
    requires { Classes class.now }
    ensures { result ≡ turn
        (side_step (daemon_finds (view_of tables.now notes.now) daemon.now
        (endpoint server server_name.now)) side x f (words s.now))
        (step_looks (daemon_finds (view_of tables.now notes.now) daemon.now (endpoint server server_name.now))
        (daemon_counts (view_of tables.now notes.now)) side x looked (words s.now)) }
{
    if x {
        daemons_negated(class, tables, notes, side, s, daemon, server, server_name)
    } else {
        Turn {
            side: side_more(side, f),
            looked,
        }
    }
}

// The pass p over the element e of a daemon list; next follows it.
fn daemon_step(
    class: &[u8; 256],
    tables: &[u8],
    notes: &[u64],
    p: ListPass,
    e: &[u8],
    mask: u8,
    next: &[u8],
    daemon: &[u8],
    server: Host,
    server_name: &[u8],
) -> ListPass
    requires classes { Classes class.now }
    requires describes { Describes mask e.now }
    ensures { result
        ≡ pass_step (daemon_kind (view_of tables.now notes.now))
        (daemon_finds (view_of tables.now notes.now) daemon.now (endpoint server server_name.now)) p
        e.now
        (words next.now) }
{
    let side = p.side;
    let x = rule::is_except(e);
    let seen = element::daemon_seen(
        e,
        mask,
        is_looking(side),
        tables,
        notes,
        daemon,
        server,
        server_name,
    );
    let fault = seen.fault;
    let found = seen.found;
    let turn = daemons_side(
        class,
        tables,
        notes,
        side,
        x,
        found,
        seen.looked,
        next,
        daemon,
        server,
        server_name,
    );
    let turned = turn.side;
    ListPass {
        check: list_more(p.check, p.after, x, fault),
        after: !x,
        side: turned,
        looked: count::add(p.looked, turn.looked),
    }
}

// The side after a word of a client list; x: whether it is EXCEPT, f, looked: what it finds and counts if it is looked at,
// s: what follows it.
fn clients_side(
    class: &[u8; 256],
    tables: &[u8],
    notes: &[u64],
    side: Side,
    x: bool,
    f: Found,
    looked: u64,
    s: &[u8],
    client: Host,
    client_name: &[u8],
    user: User,
    user_name: &[u8],
) -> Turn
    requires { Classes class.now }
    ensures { result ≡ turn
        (side_step (client_finds (view_of tables.now notes.now) (endpoint client client_name.now) user
        user_name.now) side x f (words s.now))
        (step_looks (client_finds (view_of tables.now notes.now) (endpoint client client_name.now) user
        user_name.now)
        (client_counts (view_of tables.now notes.now)) side x looked (words s.now)) }
{
    if x {
        clients_negated(
            class,
            tables,
            notes,
            side,
            s,
            client,
            client_name,
            user,
            user_name,
        )
    } else {
        Turn {
            side: side_more(side, f),
            looked,
        }
    }
}

// The pass p over the element e of a client list; next follows it.
fn client_step(
    class: &[u8; 256],
    tables: &[u8],
    notes: &[u64],
    p: ListPass,
    e: &[u8],
    mask: u8,
    next: &[u8],
    client: Host,
    client_name: &[u8],
    user: User,
    user_name: &[u8],
) -> ListPass
    requires classes { Classes class.now }
    requires describes { Describes mask e.now }
    ensures { result
        ≡ pass_step (client_kind (view_of tables.now notes.now))
        (client_finds (view_of tables.now notes.now) (endpoint client client_name.now) user user_name.now) p
        e.now (words next.now) }
{
    let side = p.side;
    let x = rule::is_except(e);
    let seen = element::client_seen(
        e,
        mask,
        is_looking(side),
        tables,
        notes,
        client,
        client_name,
        user,
        user_name,
    );
    let fault = seen.fault;
    let found = seen.found;
    let turn = clients_side(
        class,
        tables,
        notes,
        side,
        x,
        found,
        seen.looked,
        next,
        client,
        client_name,
        user,
        user_name,
    );
    let turned = turn.side;
    ListPass {
        check: list_more(p.check, p.after, x, fault),
        after: !x,
        side: turned,
        looked: count::add(p.looked, turn.looked),
    }
}

// What a pass gives where the list ends.
fn pass_end(p: ListPass) -> ListSeen
    ensures { result ≡ pass_end p }
{
    let side = p.side;
    ListSeen {
        check: list_end(p.check, p.after),
        found: side_end(side),
        looked: p.looked,
    }
}

// What the daemon list s gives.
fn pass_daemons(
    class: &[u8; 256],
    tables: &[u8],
    notes: &[u64],
    s: &[u8],
    search: bool,
    daemon: &[u8],
    server: Host,
    server_name: &[u8],
) -> ListSeen
    requires { Classes class.now }
    ensures { result
        ≡ list_seen (daemon_kind (view_of tables.now notes.now))
        (daemon_finds (view_of tables.now notes.now) daemon.now (endpoint server server_name.now)) search
        (words s.now) }
{
    let mut p = pass_start(search);
    let mut rest = s;
    loop {
        let at = element_at(class, rest);
        let e = rule::element(rest, at.span);
        if e.len() == 0 {
            return pass_end(p);
        }
        let next = rule::after_element(rest, at.span);
        p = daemon_step(
            class,
            tables,
            notes,
            p,
            e,
            at.mask,
            next,
            daemon,
            server,
            server_name,
        );
        rest = next;
    }
}

// What the client list s gives.
fn pass_clients(
    class: &[u8; 256],
    tables: &[u8],
    notes: &[u64],
    s: &[u8],
    search: bool,
    client: Host,
    client_name: &[u8],
    user: User,
    user_name: &[u8],
) -> ListSeen
    requires { Classes class.now }
    ensures { result
        ≡ list_seen (client_kind (view_of tables.now notes.now))
        (client_finds (view_of tables.now notes.now) (endpoint client client_name.now) user user_name.now) search
        (words s.now) }
{
    let mut p = pass_start(search);
    let mut rest = s;
    loop {
        let at = element_at(class, rest);
        let e = rule::element(rest, at.span);
        if e.len() == 0 {
            return pass_end(p);
        }
        let next = rule::after_element(rest, at.span);
        p = client_step(
            class,
            tables,
            notes,
            p,
            e,
            at.mask,
            next,
            client,
            client_name,
            user,
            user_name,
        );
        rest = next;
    }
}

// What the daemon list s gives of a request.
fn daemons_seen(
    class: &[u8; 256],
    tables: &[u8],
    notes: &[u64],
    s: &[u8],
    search: bool,
    names: &[u8],
    request: Request,
) -> ListSeen
    requires { Classes class.now }
    ensures { result ≡ list_seen (daemon_kind (view_of tables.now notes.now))
        (daemon_finds (view_of tables.now notes.now) (request_at names.now request).daemon
        (request_at names.now request).server) search
        (words s.now) }
{
    let server = request.server;
    pass_daemons(
        class,
        tables,
        notes,
        s,
        search,
        part_of(names, request.daemon),
        server,
        part_of(names, request.server_name),
    )
}

// What the client list s gives of a request.
fn clients_seen(
    class: &[u8; 256],
    tables: &[u8],
    notes: &[u64],
    s: &[u8],
    search: bool,
    names: &[u8],
    request: Request,
) -> ListSeen
    requires { Classes class.now }
    ensures { result ≡ list_seen (client_kind (view_of tables.now notes.now))
        (client_finds (view_of tables.now notes.now) (request_at names.now request).client request.user
        (request_at names.now request).user_name)
        search (words s.now) }
{
    let client = request.client;
    let user = request.user;
    pass_clients(
        class,
        tables,
        notes,
        s,
        search,
        client,
        part_of(names, request.client_name),
        user,
        part_of(names, request.user_name),
    )
}

// Whether a list matched.
fn is_yes(f: Found) -> bool
    ensures { result ≡ is_yes f }
{
    match f {
        Found::No => false,
        Found::Yes => true,
        Found::Ask => false,
    }
}

// What a rule finds, of whose daemon list d was found, of whose client list c.
fn then_found(d: Found, c: Found) -> Found
    ensures { result ≡ then_found d c }
{
    match d {
        Found::No => Found::No,
        Found::Yes => c,
        Found::Ask => Found::Ask,
    }
}

// What a rule with the daemon list d and, after the first separator, s gives; its client list is looked at only if its daemon list matched.
fn pass_rest(
    class: &[u8; 256],
    tables: &[u8],
    notes: &[u64],
    d: ListSeen,
    s: &[u8],
    names: &[u8],
    request: Request,
) -> RuleSeen
    requires { Classes class.now }
    ensures { result ≡ rest_seen (view_of tables.now notes.now) (request_at names.now request) d s.now }
{
    let j = rule::separator(s);
    let of_daemons = d.found;
    let c = clients_seen(
        class,
        tables,
        notes,
        &s[..j],
        is_yes(of_daemons),
        names,
        request,
    );
    let of_clients = c.found;
    RuleSeen {
        check: lowest_fault(d.check, c.check, bad_command(s, j)),
        found: then_found(of_daemons, of_clients),
        looked: count::add(d.looked, c.looked),
    }
}

// What the rule in the joined line t gives.
pub fn pass_rule(
    class: &[u8; 256],
    tables: &[u8],
    notes: &[u64],
    t: &[u8],
    search: bool,
    names: &[u8],
    request: Request,
) -> RuleSeen
    requires classes { Classes class.now }
    requires no_newline { NoNewline t.now }
    ensures { result ≡ rule_seen (view_of tables.now notes.now) (request_at names.now request) search t.now }
{
    let i = rule::separator(t);
    if t.len() <= i {
        return RuleSeen {
            check: Err(Fault::NoElement),
            found: Found::No,
            looked: 0,
        };
    }
    let d = daemons_seen(class, tables, notes, &t[..i], search, names, request);
    pass_rest(
        class,
        tables,
        notes,
        d,
        rule::after_separator(t, i),
        names,
        request,
    )
}
