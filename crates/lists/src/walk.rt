// What a list finds of a request, by the sides of EXCEPT, and how many elements are looked at for it.
//   daemons_included(class, tables, notes, s, ..), clients_included(class, tables, notes, s, ..) == what the list s finds and looks at
// Each side of EXCEPT is a function of its own, and calls the other over the rest of the list. That call is the last that a side does, and
// hands on numbers and references alone: so it needs no stack of its own, however many EXCEPTs a list has.
ghost use Rattle.std.specs.Prelude.{◌≡◌, drop};
ghost use Rattle.lines.specs.Parts.{words};
ghost use Rattle.patterns.specs.Host.{endpoint};
ghost use Rattle.classes.specs.Class.{Classes};
ghost use Rattle.elements.specs.Code.{view_of};
ghost use Rattle.elements.specs.Code.{looked_for};
ghost use Rattle.lists.specs.ListCode.{negated, daemon_finds, client_finds, daemon_counts, client_counts};
ghost use Rattle.lists.specs.ListCode.{list_looked, looked_more, negated_looked};
ghost use Rattle.lists.specs.WalkCode.{parts_of, addr_of, host_of, code_of, found_as, turned_found, Follows, group_end, Grouped, Stepped};

use address::Addr;
use classes::element_at;
use elements::{Found, Looked, User, count, element};
use lines::rule;
use patterns::{Host, Name};

// What the list after EXCEPT finds, negated round.
pub fn negated(f: Found) -> Found
    ensures { result ≡ negated f }
{
    match f {
        Found::Yes => Found::No,
        Found::No => Found::Yes,
        Found::Ask => f,
    }
}

// The same, with what was looked at for it.
pub fn negated_list(l: Looked) -> Looked
    ensures { result ≡ negated_looked l }
{
    let found = l.found;
    Looked {
        found: negated(found),
        looked: l.looked,
    }
}

// What was found, with n elements that were looked at before.
pub fn after_others(n: u64, l: Looked) -> Looked
    ensures { result ≡ looked_more n l }
{
    let found = l.found;
    Looked {
        found,
        looked: count::add(n, l.looked),
    }
}

// ## What goes along from side to side

// Which kind of address a host has.
#[derive(Clone, Copy)]
pub enum Family {
    Unknown,
    V4,
    V6,
}

// An address as numbers; those that its kind doesn't have are 0.
#[derive(Clone, Copy)]
pub struct AddrParts {
    pub family: Family,
    pub v4: u32,
    pub high: u64,
    pub low: u64,
}

// The numbers of an address.
fn parts_of(addr: Addr) -> AddrParts
    ensures { result ≡ parts_of addr }
{
    match addr {
        Addr::Unknown => AddrParts {
            family: Family::Unknown,
            v4: 0,
            high: 0,
            low: 0,
        },
        Addr::V4(v4) => AddrParts {
            family: Family::V4,
            v4,
            high: 0,
            low: 0,
        },
        Addr::V6(high, low) => AddrParts {
            family: Family::V6,
            v4: 0,
            high,
            low,
        },
    }
}

// The address of such numbers.
fn addr_of(family: Family, v4: u32, high: u64, low: u64) -> Addr
    ensures { result ≡ addr_of family v4 high low }
{
    match family {
        Family::Unknown => Addr::Unknown,
        Family::V4 => Addr::V4(v4),
        Family::V6 => Addr::V6(high, low),
    }
}

// A host by its name state and the numbers of its address.
fn host_of(name: Name, family: Family, v4: u32, high: u64, low: u64) -> Host
    ensures { result ≡ host_of name family v4 high low }
{
    Host {
        name,
        addr: addr_of(family, v4, high, low),
    }
}

// What a list finds, as a number.
fn code_of(f: Found) -> u8
    ensures { result ≡ code_of f }
{
    match f {
        Found::No => 0,
        Found::Yes => 1,
        Found::Ask => 2,
    }
}

// What such a number says.
fn found_as(code: u8) -> Found
    ensures { result ≡ found_as code }
{
    if code == 0 {
        return Found::No;
    }
    if code == 1 {
        return Found::Yes;
    }
    Found::Ask
}

// What was found, negated round if it is turned.
fn turned_found(turned: bool, f: Found) -> Found
    ensures { result ≡ turned_found turned f }
{
    if turned { negated(f) } else { f }
}

// What stands from a place on, empty where that is past the end.
fn bytes_from(s: &[u8], at: usize) -> &[u8]
    ensures { result.now ≡ drop at s.now }
{
    if s.len() <= at {
        return &s[..0];
    }
    &s[at..]
}

// ## The elements left of an EXCEPT

// What they find, how many were looked at for it and, where one matched, how many bytes follow the EXCEPT.
#[derive(Clone, Copy)]
pub struct Group {
    pub found: Found,
    pub looked: u64,
    pub left: usize,
}

// Elements after which nothing is looked at.
fn group_end(found: Found, looked: u64) -> Group
    ensures { result ≡ group_end found looked }
{
    Group {
        found,
        looked,
        left: 0,
    }
}

// What follows the first EXCEPT of s; nothing where there is none.
fn after_except<'a>(class: &[u8; 256], s: &'a [u8]) -> &'a [u8]
    requires { Classes class.now }
    ensures { Follows s.now result.now }
{
    let mut rest = s;
    loop {
        let at = element_at(class, rest);
        let w = rule::element(rest, at.span);
        if w.len() == 0 {
            return &rest[..0];
        }
        let next = rule::after_element(rest, at.span);
        if rule::is_except(w) {
            return next;
        }
        rest = next;
    }
}

// What the elements of the daemon list s left of its first EXCEPT find.
fn daemons_group(
    class: &[u8; 256],
    tables: &[u8],
    notes: &[u64],
    s: &[u8],
    daemon: &[u8],
    server: Host,
    server_name: &[u8],
) -> Group
    requires { Classes class.now }
    ensures { Grouped
        (daemon_finds (view_of tables.now notes.now) daemon.now (endpoint server server_name.now))
        (daemon_counts (view_of tables.now notes.now)) s.now result }
{
    let mut looked = 0;
    let mut rest = s;
    loop {
        let at = element_at(class, rest);
        let w = rule::element(rest, at.span);
        if w.len() == 0 {
            return group_end(Found::No, looked);
        }
        if rule::is_except(w) {
            return group_end(Found::No, looked);
        }
        let next = rule::after_element(rest, at.span);
        let seen = element::daemon_found(w, at.mask, tables, notes, daemon, server, server_name);
        let found = seen.found;
        let so_far = count::add(looked, seen.looked);
        match found {
            Found::Yes => {
                let left = after_except(class, next);
                return Group {
                    found: Found::Yes,
                    looked: so_far,
                    left: left.len(),
                };
            }
            Found::No => {}
            Found::Ask => {
                return group_end(Found::Ask, so_far);
            }
        }
        looked = so_far;
        rest = next;
    }
}

// What the elements of the client list s left of its first EXCEPT find.
fn clients_group(
    class: &[u8; 256],
    tables: &[u8],
    notes: &[u64],
    s: &[u8],
    client: Host,
    client_name: &[u8],
    user: User,
    user_name: &[u8],
) -> Group
    requires { Classes class.now }
    ensures { Grouped
        (client_finds (view_of tables.now notes.now) (endpoint client client_name.now) user user_name.now)
        (client_counts (view_of tables.now notes.now)) s.now result }
{
    let mut looked = 0;
    let mut rest = s;
    loop {
        let at = element_at(class, rest);
        let w = rule::element(rest, at.span);
        if w.len() == 0 {
            return group_end(Found::No, looked);
        }
        if rule::is_except(w) {
            return group_end(Found::No, looked);
        }
        let next = rule::after_element(rest, at.span);
        let seen = element::client_found(
            w,
            at.mask,
            tables,
            notes,
            client,
            client_name,
            user,
            user_name,
        );
        let found = seen.found;
        let so_far = count::add(looked, seen.looked);
        match found {
            Found::Yes => {
                let left = after_except(class, next);
                return Group {
                    found: Found::Yes,
                    looked: so_far,
                    left: left.len(),
                };
            }
            Found::No => {}
            Found::Ask => {
                return group_end(Found::Ask, so_far);
            }
        }
        looked = so_far;
        rest = next;
    }
}

// ## The sides of EXCEPT

// Looks at the elements of the daemon list that begins at from, left of its first EXCEPT, adds how many they were to looked, and puts what
// they find to found. Answers where the list after that EXCEPT begins, 0 where nothing is left to look at.
fn next_daemons(
    class: &[u8; 256],
    tables: &&[u8],
    notes: &&[u64],
    list: &&[u8],
    from: usize,
    daemon: &&[u8],
    name: Name,
    family: Family,
    v4: u32,
    high: u64,
    low: u64,
    server_name: &&[u8],
    turned: bool,
    looked: &mut u64,
    found: &mut u8,
) -> usize
    requires { Classes class.now }
    ensures { Stepped
        (daemon_finds (view_of tables.now.now notes.now.now) daemon.now.now
        (endpoint (host_of name family v4 high low) server_name.now.now))
        (daemon_counts (view_of tables.now.now notes.now.now))
        list.now.now from turned looked.old result looked.new found.new }
{
    let whole = *list;
    let s = bytes_from(whole, from);
    let host = host_of(name, family, v4, high, low);
    let group = daemons_group(class, *tables, *notes, s, *daemon, host, *server_name);
    let f = group.found;
    *looked = count::add(*looked, group.looked);
    *found = code_of(turned_found(turned, f));
    let left = group.left;
    if left == 0 {
        return 0;
    }
    whole.len() - left
}

// What the daemon list that begins at from finds, beside what was looked at before.
#[cycle(daemons_excluded_from_daemons_included_from)]
fn daemons_included_from(
    class: &[u8; 256],
    tables: &&[u8],
    notes: &&[u64],
    list: &&[u8],
    from: usize,
    daemon: &&[u8],
    name: Name,
    family: Family,
    v4: u32,
    high: u64,
    low: u64,
    server_name: &&[u8],
    looked: &mut u64,
    found: &mut u8,
)
    requires { Classes class.now }
    ensures { looked_for (found_as found.new) looked.new ≡ looked_more looked.old
        (list_looked (daemon_finds (view_of tables.now.now notes.now.now) daemon.now.now
        (endpoint (host_of name family v4 high low) server_name.now.now))
        (daemon_counts (view_of tables.now.now notes.now.now))
        (words (drop from list.now.now))) }
{
    let next = next_daemons(
        class,
        tables,
        notes,
        list,
        from,
        daemon,
        name,
        family,
        v4,
        high,
        low,
        server_name,
        false,
        looked,
        found,
    );
    if next == 0 {
        return;
    }
    daemons_excluded_from(
        class,
        tables,
        notes,
        list,
        next,
        daemon,
        name,
        family,
        v4,
        high,
        low,
        server_name,
        looked,
        found,
    );
}

// The same of one that follows EXCEPT: what it finds is negated round.
#[cycle(daemons_excluded_from_daemons_included_from)]
fn daemons_excluded_from(
    class: &[u8; 256],
    tables: &&[u8],
    notes: &&[u64],
    list: &&[u8],
    from: usize,
    daemon: &&[u8],
    name: Name,
    family: Family,
    v4: u32,
    high: u64,
    low: u64,
    server_name: &&[u8],
    looked: &mut u64,
    found: &mut u8,
)
    requires { Classes class.now }
    ensures { looked_for (found_as found.new) looked.new ≡ looked_more looked.old
        (negated_looked (list_looked (daemon_finds (view_of tables.now.now notes.now.now) daemon.now.now
        (endpoint (host_of name family v4 high low) server_name.now.now))
        (daemon_counts (view_of tables.now.now notes.now.now))
        (words (drop from list.now.now)))) }
{
    let next = next_daemons(
        class,
        tables,
        notes,
        list,
        from,
        daemon,
        name,
        family,
        v4,
        high,
        low,
        server_name,
        true,
        looked,
        found,
    );
    if next == 0 {
        return;
    }
    daemons_included_from(
        class,
        tables,
        notes,
        list,
        next,
        daemon,
        name,
        family,
        v4,
        high,
        low,
        server_name,
        looked,
        found,
    );
}

// Looks at the elements of the client list that begins at from, left of its first EXCEPT, adds how many they were to looked, and puts what
// they find to found. Answers where the list after that EXCEPT begins, 0 where nothing is left to look at.
fn next_clients(
    class: &[u8; 256],
    tables: &&[u8],
    notes: &&[u64],
    list: &&[u8],
    from: usize,
    name: Name,
    family: Family,
    v4: u32,
    high: u64,
    low: u64,
    client_name: &&[u8],
    user: User,
    user_name: &&[u8],
    turned: bool,
    looked: &mut u64,
    found: &mut u8,
) -> usize
    requires { Classes class.now }
    ensures { Stepped
        (client_finds (view_of tables.now.now notes.now.now)
        (endpoint (host_of name family v4 high low) client_name.now.now) user user_name.now.now)
        (client_counts (view_of tables.now.now notes.now.now))
        list.now.now from turned looked.old result looked.new found.new }
{
    let whole = *list;
    let s = bytes_from(whole, from);
    let host = host_of(name, family, v4, high, low);
    let group = clients_group(
        class,
        *tables,
        *notes,
        s,
        host,
        *client_name,
        user,
        *user_name,
    );
    let f = group.found;
    *looked = count::add(*looked, group.looked);
    *found = code_of(turned_found(turned, f));
    let left = group.left;
    if left == 0 {
        return 0;
    }
    whole.len() - left
}

// What the client list that begins at from finds, beside what was looked at before.
#[cycle(clients_excluded_from_clients_included_from)]
fn clients_included_from(
    class: &[u8; 256],
    tables: &&[u8],
    notes: &&[u64],
    list: &&[u8],
    from: usize,
    name: Name,
    family: Family,
    v4: u32,
    high: u64,
    low: u64,
    client_name: &&[u8],
    user: User,
    user_name: &&[u8],
    looked: &mut u64,
    found: &mut u8,
)
    requires { Classes class.now }
    ensures { looked_for (found_as found.new) looked.new ≡ looked_more looked.old
        (list_looked (client_finds (view_of tables.now.now notes.now.now)
        (endpoint (host_of name family v4 high low) client_name.now.now) user user_name.now.now)
        (client_counts (view_of tables.now.now notes.now.now))
        (words (drop from list.now.now))) }
{
    let next = next_clients(
        class,
        tables,
        notes,
        list,
        from,
        name,
        family,
        v4,
        high,
        low,
        client_name,
        user,
        user_name,
        false,
        looked,
        found,
    );
    if next == 0 {
        return;
    }
    clients_excluded_from(
        class,
        tables,
        notes,
        list,
        next,
        name,
        family,
        v4,
        high,
        low,
        client_name,
        user,
        user_name,
        looked,
        found,
    );
}

// The same of one that follows EXCEPT: what it finds is negated round.
#[cycle(clients_excluded_from_clients_included_from)]
fn clients_excluded_from(
    class: &[u8; 256],
    tables: &&[u8],
    notes: &&[u64],
    list: &&[u8],
    from: usize,
    name: Name,
    family: Family,
    v4: u32,
    high: u64,
    low: u64,
    client_name: &&[u8],
    user: User,
    user_name: &&[u8],
    looked: &mut u64,
    found: &mut u8,
)
    requires { Classes class.now }
    ensures { looked_for (found_as found.new) looked.new ≡ looked_more looked.old
        (negated_looked (list_looked (client_finds (view_of tables.now.now notes.now.now)
        (endpoint (host_of name family v4 high low) client_name.now.now) user user_name.now.now)
        (client_counts (view_of tables.now.now notes.now.now))
        (words (drop from list.now.now)))) }
{
    let next = next_clients(
        class,
        tables,
        notes,
        list,
        from,
        name,
        family,
        v4,
        high,
        low,
        client_name,
        user,
        user_name,
        true,
        looked,
        found,
    );
    if next == 0 {
        return;
    }
    clients_included_from(
        class,
        tables,
        notes,
        list,
        next,
        name,
        family,
        v4,
        high,
        low,
        client_name,
        user,
        user_name,
        looked,
        found,
    );
}

// What the daemon list s finds past an EXCEPT, from the place from on, negated round; looked elements were looked at before.
fn daemons_past(
    class: &[u8; 256],
    tables: &[u8],
    notes: &[u64],
    s: &[u8],
    from: usize,
    daemon: &[u8],
    server: Host,
    server_name: &[u8],
    looked: u64,
) -> Looked
    requires { Classes class.now }
    ensures { result
        ≡ looked_more looked (negated_looked
        (list_looked (daemon_finds (view_of tables.now notes.now) daemon.now (endpoint server server_name.now))
        (daemon_counts (view_of tables.now notes.now)) (words (drop from s.now)))) }
{
    let name = server.name;
    let addr = server.addr;
    let parts = parts_of(addr);
    let family = parts.family;
    let mut so_far = looked;
    let mut code = 0;
    daemons_excluded_from(
        class,
        &tables,
        &notes,
        &s,
        from,
        &daemon,
        name,
        family,
        parts.v4,
        parts.high,
        parts.low,
        &server_name,
        &mut so_far,
        &mut code,
    );
    Looked {
        found: found_as(code),
        looked: so_far,
    }
}

// The same of the client list s.
fn clients_past(
    class: &[u8; 256],
    tables: &[u8],
    notes: &[u64],
    s: &[u8],
    from: usize,
    client: Host,
    client_name: &[u8],
    user: User,
    user_name: &[u8],
    looked: u64,
) -> Looked
    requires { Classes class.now }
    ensures { result
        ≡ looked_more looked (negated_looked
        (list_looked (client_finds (view_of tables.now notes.now) (endpoint client client_name.now) user
        user_name.now)
        (client_counts (view_of tables.now notes.now)) (words (drop from s.now)))) }
{
    let name = client.name;
    let addr = client.addr;
    let parts = parts_of(addr);
    let family = parts.family;
    let mut so_far = looked;
    let mut code = 0;
    clients_excluded_from(
        class,
        &tables,
        &notes,
        &s,
        from,
        name,
        family,
        parts.v4,
        parts.high,
        parts.low,
        &client_name,
        user,
        &user_name,
        &mut so_far,
        &mut code,
    );
    Looked {
        found: found_as(code),
        looked: so_far,
    }
}

// What the daemon list s finds, and what is looked at for it.
pub fn daemons_included(
    class: &[u8; 256],
    tables: &[u8],
    notes: &[u64],
    s: &[u8],
    daemon: &[u8],
    server: Host,
    server_name: &[u8],
) -> Looked
    requires { Classes class.now }
    ensures { result
        ≡ list_looked (daemon_finds (view_of tables.now notes.now) daemon.now (endpoint server server_name.now))
        (daemon_counts (view_of tables.now notes.now)) (words s.now) }
{
    let group = daemons_group(class, tables, notes, s, daemon, server, server_name);
    let left = group.left;
    if left == 0 {
        let found = group.found;
        return Looked {
            found,
            looked: group.looked,
        };
    }
    let from = s.len() - left;
    daemons_past(
        class,
        tables,
        notes,
        s,
        from,
        daemon,
        server,
        server_name,
        group.looked,
    )
}

// What the client list s finds, and what is looked at for it.
pub fn clients_included(
    class: &[u8; 256],
    tables: &[u8],
    notes: &[u64],
    s: &[u8],
    client: Host,
    client_name: &[u8],
    user: User,
    user_name: &[u8],
) -> Looked
    requires { Classes class.now }
    ensures { result
        ≡ list_looked (client_finds (view_of tables.now notes.now) (endpoint client client_name.now) user
        user_name.now)
        (client_counts (view_of tables.now notes.now)) (words s.now) }
{
    let group = clients_group(
        class,
        tables,
        notes,
        s,
        client,
        client_name,
        user,
        user_name,
    );
    let left = group.left;
    if left == 0 {
        let found = group.found;
        return Looked {
            found,
            looked: group.looked,
        };
    }
    let past = s.len() - left;
    clients_past(
        class,
        tables,
        notes,
        s,
        past,
        client,
        client_name,
        user,
        user_name,
        group.looked,
    )
}
