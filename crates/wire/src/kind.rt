// The kinds of messages, and the number that a message begins with.
ghost use Rattle.std.specs.Prelude.{◌≡◌, ok_or};
ghost use Rattle.fault.specs.declared.Fault.TheVariants.{Malformed};
ghost use Rattle.wire.specs.Kinds.{topic_number, kind_number, kind_numbered, topic_of};

use crate::message::Control;
use fault::Fault;

// What a message about the places of a bucket is about.
#[derive(Clone, Copy, PartialEq, Eq, Debug)]
pub enum Topic {
    Stand,
    Behind,
    Door,
    Forgotten,
}

#[derive(Clone, Copy, PartialEq, Eq, Debug)]
pub enum Kind {
    Packet,
    Control(Topic),
    Answer(Topic),
    Refused,
    Closed,
    Added,
    Removed,
    Ticks,
}

// The number of a message about places.
impl From<Topic> for u8 {
    ghost from_gives = { λ t n. n ≡ topic_number t };

    fn from(topic: Topic) -> u8 {
        match topic {
            Topic::Stand => 2,
            Topic::Behind => 3,
            Topic::Door => 4,
            Topic::Forgotten => 5,
        }
    }
}

// How far an answer's number is above that of what it answers.
const ANSWER: u8 = 32;

impl From<Kind> for u8 {
    ghost from_gives = { λ k n. n ≡ kind_number k };

    fn from(kind: Kind) -> u8 {
        match kind {
            Kind::Packet => 1,
            Kind::Control(topic) => u8::from(topic),
            Kind::Answer(topic) => u8::from(topic) + ANSWER,
            Kind::Refused => 6,
            Kind::Closed => 7,
            Kind::Added => 8,
            Kind::Removed => 9,
            Kind::Ticks => 10,
        }
    }
}

// The kind with this number; a message with another number is malformed.
impl TryFrom<u8> for Kind {
    type Error = Fault;

    ghost try_from_gives = { λ n r. r ≡ ok_or (kind_numbered n) Malformed };

    fn try_from(number: u8) -> Result<Kind, Fault> {
        match number {
            1 => Ok(Kind::Packet),
            2 => Ok(Kind::Control(Topic::Stand)),
            3 => Ok(Kind::Control(Topic::Behind)),
            4 => Ok(Kind::Control(Topic::Door)),
            5 => Ok(Kind::Control(Topic::Forgotten)),
            6 => Ok(Kind::Refused),
            7 => Ok(Kind::Closed),
            8 => Ok(Kind::Added),
            9 => Ok(Kind::Removed),
            10 => Ok(Kind::Ticks),
            34 => Ok(Kind::Answer(Topic::Stand)),
            35 => Ok(Kind::Answer(Topic::Behind)),
            36 => Ok(Kind::Answer(Topic::Door)),
            37 => Ok(Kind::Answer(Topic::Forgotten)),
            _ => Err(Fault::Malformed),
        }
    }
}

impl From<Control> for Topic {
    ghost from_gives = { λ c t. t ≡ topic_of c };

    fn from(control: Control) -> Topic {
        match control {
            Control::Stand { .. } => Topic::Stand,
            Control::Behind { .. } => Topic::Behind,
            Control::Door { .. } => Topic::Door,
            Control::Forgotten { .. } => Topic::Forgotten,
        }
    }
}
