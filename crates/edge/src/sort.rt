// What bytes are to the machine that they come to, by who hands them over.
ghost use Rattle.std.specs.Prelude.{◌≡◌};
ghost use Rattle.wire.specs.Seen.{seen};
ghost use Rattle.wire.specs.Kinds.{kind_number};
ghost use Rattle.edge.specs.Admission.{kind_in, takes};
ghost use Rattle.edge.specs.Sorts.{sort_of, read_as, sort};

use fault::Fault;
use flow::buckets::Buckets;
use flow::key::FlowKey;
use machine::name::Machine;
use wire::kind::{Kind, Topic};
use wire::message::{Control, Head, Message, Order, Unread};
use wire_read::read;

// What kind of machine takes the bytes.
#[derive(Clone, Copy, PartialEq, Eq, Debug)]
pub enum Role {
    Balancer,
    Server,
    Controller,
}

#[derive(Clone, Copy, PartialEq, Eq, Debug)]
pub enum Sorted<'a> {
    // A packet from outside, which is all of the bytes.
    Outside,
    // A packet on its way between machines, with the session that it names.
    Packet {
        head: Head,
        flow: FlowKey,
        packet: &'a [u8],
    },
    Told(Control),
    // An answer.
    Heard(Control),
    Order(Order),
    // No message, or none that is for this machine and from there.
    Refuse(Unread),
}

impl Role {
    // Does such a machine take this kind of message from there?
    pub fn takes(self, from: Machine, kind: u8) -> bool
        ensures { result ≡ takes self from kind }
    {
        Kind::try_from(kind).is_ok_and(|kind| self.takes_kind(from, kind))
    }

    fn takes_kind(self, from: Machine, kind: Kind) -> bool
        ensures { result ≡ takes self from (kind_number kind) }
    {
        match (self, from) {
            (_, Machine::Client) => false,
            (Role::Balancer, Machine::Operator) => kind == Kind::Ticks,
            (Role::Balancer, Machine::Balancer(_)) => false,
            (Role::Balancer, Machine::Server(_) | Machine::Controller) => {
                matches!(kind, Kind::Control(Topic::Door))
            }
            (Role::Server, Machine::Operator) => matches!(kind, Kind::Closed | Kind::Ticks),
            (Role::Server, _) => matches!(
                kind,
                Kind::Packet
                    | Kind::Control(Topic::Stand | Topic::Behind | Topic::Forgotten)
                    | Kind::Answer(Topic::Forgotten)
            ),
            (Role::Controller, Machine::Operator) => {
                matches!(kind, Kind::Added | Kind::Removed | Kind::Ticks)
            }
            (Role::Controller, _) => matches!(
                kind,
                Kind::Control(Topic::Forgotten)
                    | Kind::Answer(Topic::Stand | Topic::Behind | Topic::Door)
            ),
        }
    }
}

// The number that came as a kind, which may be none; of nothing at all, one that nobody takes.
pub fn kind(bytes: &[u8]) -> u8
    ensures { result ≡ kind_in bytes.now }
{
    bytes.first().copied().unwrap_or(0)
}

fn read_as(found: Result<Message<'_>, Unread>) -> Sorted<'_>
    ensures { sort_of result ≡ read_as (seen found.entry) }
{
    match found {
        Ok(Message::Packet { head, flow, packet }) => Sorted::Packet { head, flow, packet },
        Ok(Message::Control(control)) => Sorted::Told(control),
        Ok(Message::Answer(control)) => Sorted::Heard(control),
        Ok(Message::Refused { .. }) => Sorted::Refuse(Unread::from(Fault::Malformed)),
        Ok(Message::Order(order)) => Sorted::Order(order),
        Err(unread) => Sorted::Refuse(unread),
    }
}

// Whatever comes is sorted; what this machine does not take from there has its fault at its kind.
pub fn sort(role: Role, from: Machine, bytes: &[u8], buckets: Buckets) -> Sorted<'_>
    ensures { sort_of result ≡ sort role from buckets.count bytes.now }
{
    if let (Role::Balancer, Machine::Client) = (role, from) {
        return Sorted::Outside;
    }
    if !role.takes(from, kind(bytes)) {
        return Sorted::Refuse(Unread::from(Fault::Malformed));
    }
    read_as(read(bytes, buckets))
}
