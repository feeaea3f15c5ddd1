// Lists of servers, with one more and with one less.
ghost use Rattle.std.specs.Prelude.{◌≡◌, ◌++◌, IfOk, filter, nat_lt};
ghost use Rattle.std.specs.Option.{option_to_list};
ghost use Rattle.roster.specs.Listing.{with_server, without_server};

use std::alloc::{AllocError, Global};

// The servers below this one, the one in between if there is one, and those above it.
fn around(
    heap: Global,
    servers: &[u8],
    server: u8,
    between: Option<u8>,
) -> Result<Vec<u8>, AllocError>
    ensures { IfOk result (λ v. v.items ≡ filter (λ s. nat_lt s server) servers.now ++ (option_to_list between ++ filter (λ s. nat_lt server s) servers.now)) }
{
    let below = servers.iter().copied().filter(|other| *other < server);
    let above = servers.iter().copied().filter(|other| *other > server);
    below.chain(between.into_iter().chain(above)).collect(heap)
}

// The list with the server in its place: those below it stand before it, those above it after it.
pub(crate) fn with_server(heap: Global, servers: &[u8], server: u8) -> Result<Vec<u8>, AllocError>
    ensures { IfOk result (λ v. v.items ≡ with_server server servers.now) }
{
    around(heap, servers, server, Some(server))
}

// The list without the server.
pub(crate) fn without_server(
    heap: Global,
    servers: &[u8],
    server: u8,
) -> Result<Vec<u8>, AllocError>
    ensures { IfOk result (λ v. v.items ≡ without_server server servers.now) }
{
    around(heap, servers, server, None)
}
