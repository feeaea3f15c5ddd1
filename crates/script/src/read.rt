// A line of the script to its command.
use crate::command::Command;
use crate::word::{number, switch};
use fault::{Error, Fault};
use std::alloc::Global;

// Without numbers of its own, `reset` means these.
const SERVERS: u8 = 3;

const BALANCERS: u8 = 2;

const ROOM: u32 = 65_536;

// An unknown word or too many or too few of them: fault 1. A flow that is none: fault 3.
pub fn read_line(line: &str) -> Result<Command, Fault> {
    let mut words = line.split_whitespace();
    let Some(word) = words.next() else {
        return Ok(Command::Nothing);
    };
    if word.starts_with('#') {
        return Ok(Command::Nothing);
    }
    if word == "title" {
        return Ok(Command::Title);
    }
    if word == "house" {
        return Ok(Command::Servers);
    }
    let rest = (words.next(), words.next(), words.next());
    if words.next().is_some() {
        return Err(Fault::Malformed);
    }
    match rest {
        (None, _, _) => read_bare(word),
        (Some(only), None, _) => read_one(word, only),
        (Some(first), Some(second), third) => read_more(word, first, second, third),
    }
}

// The servers that a line lists after its first word.
pub fn read_servers(heap: Global, line: &str) -> Result<Vec<u8>, Error> {
    let mut servers = Vec::new(heap);
    let mut words = line.split_whitespace();
    words.next();
    for word in words {
        servers.push(number(word)?)?;
    }
    Ok(servers)
}

// A word alone.
fn read_bare(word: &str) -> Result<Command, Fault> {
    match word {
        "reset" => Ok(Command::Reset {
            servers: SERVERS,
            balancers: BALANCERS,
            room: ROOM,
        }),
        "forget" => Ok(Command::Forget),
        "say" => Ok(Command::Say),
        "next" => Ok(Command::Next),
        "all" => Ok(Command::All),
        "show" => Ok(Command::Show),
        _ => Err(Fault::Malformed),
    }
}

// A word and one more.
fn read_one(word: &str, only: &str) -> Result<Command, Fault> {
    match word {
        "change" => Ok(Command::Change {
            server: number(only)?,
        }),
        "ticks" => Ok(Command::Ticks {
            count: number(only)?,
        }),
        "buckets" => Ok(Command::Buckets {
            buckets: number(only)?,
        }),
        "add" => Ok(Command::Add {
            server: number(only)?,
        }),
        "down" => Ok(Command::Remove {
            server: number(only)?,
        }),
        "bytes" => Ok(Command::Bytes {
            shown: switch(only)?,
        }),
        "close" => Ok(Command::Close {
            flow: only.parse()?,
        }),
        "deliver" => Ok(Command::Deliver {
            number: number(only)?,
        }),
        "lose" => Ok(Command::Lose {
            number: number(only)?,
        }),
        "repeat" => Ok(Command::Repeat {
            number: number(only)?,
        }),
        _ => Err(Fault::Malformed),
    }
}

// A word and two or three more.
fn read_more(word: &str, first: &str, second: &str, third: Option<&str>) -> Result<Command, Fault> {
    match (word, third) {
        ("packet", None) => Ok(Command::Packet {
            balancer: number(first)?,
            flow: second.parse()?,
            opens: false,
        }),
        ("packet", Some("open")) => Ok(Command::Packet {
            balancer: number(first)?,
            flow: second.parse()?,
            opens: true,
        }),
        ("reset", None) => Ok(Command::Reset {
            servers: number(first)?,
            balancers: number(second)?,
            room: ROOM,
        }),
        ("reset", Some(room)) => Ok(Command::Reset {
            servers: number(first)?,
            balancers: number(second)?,
            room: number(room)?,
        }),
        _ => Err(Fault::Malformed),
    }
}
