// The bytes of a script: which machine plays it, and its steps.
use fault::Fault;
use machine::name::Machine;

// A step that asks for a digest of the state.
pub const DIGEST: u8 = 255;

// Which machine plays.
#[derive(Clone, Copy, PartialEq, Eq, Debug)]
pub enum Kind {
    Balancer,
    Server,
    Controller,
}

impl TryFrom<u8> for Kind {
    type Error = Fault;

    fn try_from(number: u8) -> Result<Kind, Fault> {
        match number {
            1 => Ok(Kind::Balancer),
            2 => Ok(Kind::Server),
            3 => Ok(Kind::Controller),
            _ => Err(Fault::NoSuch),
        }
    }
}

#[derive(Clone, Copy, PartialEq, Eq, Debug)]
pub struct Header<'a> {
    pub kind: Kind,
    pub number: u8,
    pub buckets: u32,
    pub balancers: u16,
    pub servers: &'a [u8],
    pub rest: &'a [u8],
}

#[derive(Clone, Copy, PartialEq, Eq, Debug)]
pub struct Step<'a> {
    pub from: Machine,
    pub bytes: &'a [u8],
    pub rest: &'a [u8],
}

// Ten bytes before the servers.
pub fn read_header(script: &[u8]) -> Option<Header<'_>> {
    let [kind, number, b0, b1, b2, b3, d0, d1, c0, c1, behind @ ..] = script else {
        return None;
    };
    let count = usize::from(u16::from_be_bytes([*c0, *c1]));
    let (servers, rest) = behind.split_at_checked(count)?;
    Some(Header {
        kind: Kind::try_from(*kind).ok()?,
        number: *number,
        buckets: u32::from_be_bytes([*b0, *b1, *b2, *b3]),
        balancers: u16::from_be_bytes([*d0, *d1]),
        servers,
        rest,
    })
}

fn machine(kind: u8, number: u16) -> Option<Machine> {
    match kind {
        0 => Some(Machine::Client),
        1 => Some(Machine::Operator),
        2 => Some(Machine::Balancer(number)),
        3 => Some(Machine::Server((number & 0xff) as u8)),
        4 => Some(Machine::Controller),
        _ => None,
    }
}

// Seven bytes before the message.
pub fn read_step(script: &[u8]) -> Option<Step<'_>> {
    let [kind, n0, n1, c0, c1, c2, c3, behind @ ..] = script else {
        return None;
    };
    let from = machine(*kind, u16::from_be_bytes([*n0, *n1]))?;
    let count = u32::from_be_bytes([*c0, *c1, *c2, *c3]) as usize;
    let (bytes, rest) = behind.split_at_checked(count)?;
    Some(Step { from, bytes, rest })
}
