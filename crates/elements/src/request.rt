// A request as one value: states, addresses, and the places of its names in one block of bytes that is lent beside it.
//   fits(names, request) == every field of the request is within its size
//   held(request)        == the request with its mapped addresses as IPv4 ones
ghost use Rattle.std.specs.Prelude.{◌≡◌};
ghost use Rattle.elements.specs.Request.{well_formed, held_host};
ghost use Rattle.elements.specs.Code.{held_at};
ghost use Rattle.elements.specs.Places.{request_at};

use super::User;
use super::element::well_formed;
use address::mapped::unmapped;
use patterns::Host;
use section::{Part, part_of};

#[derive(Clone, Copy)]
pub struct Request {
    pub daemon: Part,
    pub client: Host,
    pub client_name: Part,
    pub server: Host,
    pub server_name: Part,
    pub user: User,
    pub user_name: Part,
}

// Whether every field of a request is within its size.
pub fn fits(names: &[u8], request: Request) -> bool
    ensures { result ≡ well_formed (request_at names.now request) }
{
    let client = request.client;
    let server = request.server;
    let user = request.user;
    well_formed(
        part_of(names, request.daemon),
        client,
        part_of(names, request.client_name),
        server,
        part_of(names, request.server_name),
        user,
        part_of(names, request.user_name),
    )
}

fn held_host(host: Host) -> Host
    ensures { result ≡ held_host host }
{
    let name = host.name;
    let addr = host.addr;
    Host {
        name,
        addr: unmapped(addr),
    }
}

// The request that a verdict and an expansion work on.
pub fn held(request: Request) -> Request
    ensures { result ≡ held_at request }
{
    let daemon = request.daemon;
    let client = request.client;
    let client_name = request.client_name;
    let server = request.server;
    let server_name = request.server_name;
    let user = request.user;
    let user_name = request.user_name;
    Request {
        daemon,
        client: held_host(client),
        client_name,
        server: held_host(server),
        server_name,
        user,
        user_name,
    }
}
