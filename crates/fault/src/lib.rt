// Why a machine refuses: ten numbered faults, the refusal that has number 0, and want of memory, which has no number.
#![tactic(auto)]

ghost use Rattle.std.specs.Prelude.{◌≡◌, ok_or};
ghost use Rattle.fault.specs.Numbers.{fault_number, refusal_number, refusal_of};
ghost use Rattle.fault.specs.declared.Error.TheVariants.{Of, Memory};
ghost use Rattle.fault.specs.declared.Fault.TheVariants.{NoSuch};

use std::alloc::{AllocError, AllocFailed};
use std::fmt;

#[derive(Clone, Copy, PartialEq, Eq, Debug)]
pub enum Fault {
    // An unknown kind, or a length that does not fit.
    Malformed,
    // A bucket, server or way that does not exist.
    NoSuch,
    // The packet inside is not IPv4 with TCP or UDP.
    BadPacket,
    // A place that this server does not know: what came is dropped, as if lost.
    UnknownPlace,
    // The bucket named is not the packet's.
    WrongBucket,
    // Asked, at another place than the one that began to ask, or for a packet that may not open.
    WrongAsker,
    // This server has as many open sessions as it may.
    ServerFull,
    // A message that contradicts an earlier one.
    Contradiction,
    // No server is left.
    NoServer,
    // A ninth place: the handover is put off.
    ChainFull,
}

// The number that stands for the fault in messages and output.
impl From<Fault> for u8 {
    ghost from_gives = { λ f r. r ≡ fault_number f };

    fn from(fault: Fault) -> u8 {
        match fault {
            Fault::Malformed => 1,
            Fault::NoSuch => 2,
            Fault::BadPacket => 3,
            Fault::UnknownPlace => 4,
            Fault::WrongBucket => 5,
            Fault::WrongAsker => 6,
            Fault::ServerFull => 7,
            Fault::Contradiction => 8,
            Fault::NoServer => 9,
            Fault::ChainFull => 10,
        }
    }
}

impl Fault {
    // A few words for people.
    pub fn text(self) -> &'static str {
        match self {
            Fault::Malformed => "unknown kind or bad length",
            Fault::NoSuch => "no such bucket, house or way",
            Fault::BadPacket => "not a packet of IPv4 with TCP or UDP",
            Fault::UnknownPlace => "a place that is not known here",
            Fault::WrongBucket => "the bucket is not the packet's",
            Fault::WrongAsker => "asked elsewhere, or may not open",
            Fault::ServerFull => "the house is full",
            Fault::Contradiction => "contradicts an earlier message",
            Fault::NoServer => "no house is left",
            Fault::ChainFull => "nine places: the change of hands is put off",
        }
    }
}

impl fmt::Display for Fault {
    fn fmt<W: fmt::Write>(&self, f: &mut fmt::Formatter<W>) -> fmt::Result {
        f.write_str(self.text())
    }
}

// Why a packet goes back to its sender.
#[derive(Clone, Copy, PartialEq, Eq, Debug)]
pub enum Refusal {
    // Nobody has the session, and the packet may not open one.
    Nobody,
    // A fault, by its number.
    For(Fault),
}

impl From<Refusal> for u8 {
    ghost from_gives = { λ r n. n ≡ refusal_number r };

    fn from(refusal: Refusal) -> u8 {
        match refusal {
            Refusal::Nobody => 0,
            Refusal::For(fault) => u8::from(fault),
        }
    }
}

// The refusal with this number, if there is one.
impl TryFrom<u8> for Refusal {
    type Error = Fault;

    ghost try_from_gives = { λ n r. r ≡ ok_or (refusal_of n) NoSuch };

    fn try_from(number: u8) -> Result<Refusal, Fault> {
        match number {
            0 => Ok(Refusal::Nobody),
            1 => Ok(Refusal::For(Fault::Malformed)),
            2 => Ok(Refusal::For(Fault::NoSuch)),
            3 => Ok(Refusal::For(Fault::BadPacket)),
            4 => Ok(Refusal::For(Fault::UnknownPlace)),
            5 => Ok(Refusal::For(Fault::WrongBucket)),
            6 => Ok(Refusal::For(Fault::WrongAsker)),
            7 => Ok(Refusal::For(Fault::ServerFull)),
            8 => Ok(Refusal::For(Fault::Contradiction)),
            9 => Ok(Refusal::For(Fault::NoServer)),
            10 => Ok(Refusal::For(Fault::ChainFull)),
            _ => Err(Fault::NoSuch),
        }
    }
}

impl fmt::Display for Refusal {
    fn fmt<W: fmt::Write>(&self, f: &mut fmt::Formatter<W>) -> fmt::Result {
        match self {
            Refusal::Nobody => f.write_str("nobody has the table"),
            Refusal::For(fault) => write!(f, "{fault}"),
        }
    }
}

// What can stop an operation: a fault, or want of memory, which is no fault of the caller's and has no number.
#[derive(Clone, Copy, PartialEq, Eq, Debug)]
pub enum Error {
    Of(Fault),
    Memory,
}

impl From<Fault> for Error {
    ghost from_gives = { λ f r. r ≡ Of f };

    fn from(fault: Fault) -> Error {
        Error::Of(fault)
    }
}

impl From<AllocError> for Error {
    ghost from_gives = { λ _ r. r ≡ Memory };

    fn from(_e: AllocError) -> Error {
        Error::Memory
    }
}

impl<T: Drop> From<AllocFailed<T>> for Error {
    ghost from_gives = { λ _ r. r ≡ Memory };

    fn from(_e: AllocFailed<T>) -> Error {
        Error::Memory
    }
}
