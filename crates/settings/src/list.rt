// The servers at the start, listed in rising order.
ghost use Rattle.std.specs.Prelude.{◌≡◌};
ghost use Rattle.settings.specs.Lines.{server_in, servers_listed, servers_in, Listed};

use fault::{Error, Fault};
use std::alloc::Global;
use words::number;

// A server's number that is not below the lowest one that may come.
fn server(digits: &[u8], low: u32) -> Result<u8, Fault>
    ensures { result ≡ server_in digits.now low }
{
    let n = number(digits).ok_or(Fault::Malformed)?;
    if n < low {
        return Err(Fault::NoSuch);
    }
    u8::try_from(n).map_err(|_| Fault::NoSuch)
}

// The servers of a list with a space between them; they rise.
fn servers_listed(heap: Global, list: &[u8]) -> Result<Vec<u8>, Error>
    ensures { Listed (servers_listed list.now) result }
{
    let mut servers = Vec::new(heap);
    let mut low = 0;
    for digits in list.split(|byte| *byte == b' ') {
        let server = server(digits, low)?;
        servers.push(server)?;
        low = u32::from(server) + 1;
    }
    Ok(servers)
}

// All that the line lists behind its first word, with a space before each.
pub fn read_servers(heap: Global, rest: &[u8]) -> Result<Vec<u8>, Error>
    ensures { Listed (servers_in rest.now) result }
{
    let [_, list @ ..] = rest else {
        return Err(Error::Of(Fault::NoServer));
    };
    servers_listed(heap, list)
}
