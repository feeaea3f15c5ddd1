// A line of the script to its command.
use crate::command::{Command, Watch};
use fault::Fault;
use machine::name::Machine;
use script::word::{number, switch};

// Without numbers of its own, `reset` means these.
const SERVERS: u8 = 3;

const BALANCERS: u16 = 2;

const BUCKETS: u32 = 16;

// An unknown word or too many or too few of them: fault 1. A flow that is none: fault 3.
// The hall's reader has this form too, but other commands, words and numbers: the two share what reads one word.
pub fn read_line(line: &str) -> Result<Command, Fault> {
    let mut words = line.split_whitespace();
    let Some(word) = words.next() else {
        return Ok(Command::Nothing);
    };
    if word.starts_with('#') {
        return Ok(Command::Nothing);
    }
    if word == "title" {
        return Ok(Command::Title);
    }
    let rest = (words.next(), words.next(), words.next());
    if words.next().is_some() {
        return Err(Fault::Malformed);
    }
    match rest {
        (None, _, _) => read_bare(word),
        (Some(only), None, _) => read_one(word, only),
        (Some(first), Some(second), third) => read_more(word, first, second, third),
    }
}

// A word alone.
fn read_bare(word: &str) -> Result<Command, Fault> {
    match word {
        "reset" => Ok(Command::Reset {
            servers: SERVERS,
            balancers: BALANCERS,
            buckets: BUCKETS,
        }),
        "next" => Ok(Command::Next),
        "latest" => Ok(Command::Latest),
        "all" => Ok(Command::All),
        "way" => Ok(Command::Way),
        "status" => Ok(Command::Status),
        "summary" => Ok(Command::Summary),
        _ => Err(Fault::Malformed),
    }
}

// A word and one more.
fn read_one(word: &str, only: &str) -> Result<Command, Fault> {
    match (word, only) {
        ("all", "latest") => Ok(Command::AllLatest),
        ("all", _) => Ok(Command::AllOf {
            bucket: number(only)?,
        }),
        ("next", _) => Ok(Command::NextOf {
            bucket: number(only)?,
        }),
        ("deaf", "none") => Ok(Command::Deaf { to: None }),
        ("deaf", "office") => Ok(Command::Deaf {
            to: Some(Machine::Controller),
        }),
        ("watch", _) => Ok(Command::Watching(read_watch(only)?)),
        ("bytes", _) => Ok(Command::Bytes {
            shown: switch(only)?,
        }),
        ("close", _) => Ok(Command::Close {
            flow: only.parse()?,
        }),
        ("show", _) => Ok(Command::Show {
            flow: only.parse()?,
        }),
        _ => read_counted(word, number(only)?),
    }
}

// A word and a number.
fn read_counted(word: &str, number: u32) -> Result<Command, Fault> {
    match word {
        "ticks" => Ok(Command::Ticks { count: number }),
        "add" => Ok(Command::Add {
            server: small(number)?,
        }),
        "down" => Ok(Command::Remove {
            server: small(number)?,
        }),
        "deliver" => Ok(Command::Deliver { number }),
        "lose" => Ok(Command::Lose { number }),
        "repeat" => Ok(Command::Repeat { number }),
        "thin" => Ok(Command::Thin { keep: number }),
        _ => Err(Fault::Malformed),
    }
}

// A word and two or three more.
fn read_more(word: &str, first: &str, second: &str, third: Option<&str>) -> Result<Command, Fault> {
    match (word, third) {
        ("packet", None) => Ok(Command::Packet {
            balancer: number(first)?,
            flow: second.parse()?,
            opens: false,
        }),
        ("packet", Some("open")) => Ok(Command::Packet {
            balancer: number(first)?,
            flow: second.parse()?,
            opens: true,
        }),
        ("reset", None) => Ok(Command::Reset {
            servers: small(number(first)?)?,
            balancers: number(second)?,
            buckets: BUCKETS,
        }),
        ("reset", Some(buckets)) => Ok(Command::Reset {
            servers: small(number(first)?)?,
            balancers: number(second)?,
            buckets: number(buckets)?,
        }),
        ("deaf", None) => Ok(Command::Deaf {
            to: Some(read_machine(first, second)?),
        }),
        ("random", None) => Ok(Command::Random {
            seed: number(first)?,
            events: number(second)?,
        }),
        _ => Err(Fault::Malformed),
    }
}

fn read_watch(word: &str) -> Result<Watch, Fault> {
    match word {
        "all" => Ok(Watch::All),
        "none" => Ok(Watch::None),
        _ => Ok(Watch::Bucket(number(word)?)),
    }
}

fn read_machine(word: &str, name: &str) -> Result<Machine, Fault> {
    match word {
        "door" => Ok(Machine::Balancer(number(name)?)),
        "house" => Ok(Machine::Server(small(number(name)?)?)),
        _ => Err(Fault::Malformed),
    }
}

fn small(number: u32) -> Result<u8, Fault> {
    u8::try_from(number).ok().ok_or(Fault::NoSuch)
}
