// The machine that a line names: `client`, `order`, `office`, `door N` or `house N`.
ghost use Rattle.std.specs.Prelude.{◌≡◌};
ghost use Rattle.lines.specs.Lines.{number_in, balancer, server, lone, by_word, shown};

use fault::Fault;
use machine::name::Machine;
use words::{after_space, number, split_word};

// A space, a number, and what is behind it.
fn read_number(rest: &[u8]) -> Result<(u32, &[u8]), Fault>
    ensures { shown result ≡ number_in rest.now }
{
    let rest = after_space(rest).ok_or(Fault::Malformed)?;
    let (digits, rest) = split_word(rest);
    let n = number(digits).ok_or(Fault::Malformed)?;
    Ok((n, rest))
}

// One generic function for this and the next would be longer than both.
fn balancer(n: u32) -> Result<Machine, Fault>
    ensures { result ≡ balancer n }
{
    let number = u16::try_from(n).map_err(|_| Fault::NoSuch)?;
    Ok(Machine::Balancer(number))
}

fn server(n: u32) -> Result<Machine, Fault>
    ensures { result ≡ server n }
{
    let number = u8::try_from(n).map_err(|_| Fault::NoSuch)?;
    Ok(Machine::Server(number))
}

// The machines that have no number.
fn lone(word: &[u8]) -> Result<Machine, Fault>
    ensures { result ≡ lone word.now }
{
    match word {
        b"client" => Ok(Machine::Client),
        b"order" => Ok(Machine::Operator),
        b"office" => Ok(Machine::Controller),
        _ => Err(Fault::Malformed),
    }
}

// By the first word, the machine and what is behind its name.
pub fn read_machine<'a>(word: &[u8], rest: &'a [u8]) -> Result<(Machine, &'a [u8]), Fault>
    ensures { shown result ≡ by_word word.now rest.now }
{
    match word {
        b"door" => {
            let (n, rest) = read_number(rest)?;
            Ok((balancer(n)?, rest))
        }
        b"house" => {
            let (n, rest) = read_number(rest)?;
            Ok((server(n)?, rest))
        }
        _ => Ok((lone(word)?, rest)),
    }
}
