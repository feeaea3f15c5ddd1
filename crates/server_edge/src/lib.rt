// What a server does with bytes, whoever hands them over.
#![tactic(auto)]

ghost use Rattle.std.specs.Prelude.{◌≡◌, ◌&&◌, [], ◌∷◌};
ghost use Rattle.wire.specs.Forwarding.{forwarded};
ghost use Rattle.wire.specs.Laws.{Bytes};
ghost use Rattle.edge.specs.declared.sort.Role.TheVariants as role;
ghost use Rattle.edge.specs.Sorts.{sort_of, sort};
ghost use Rattle.edge.specs.Posts.{mails_of, Adds, Sends};
ghost use Rattle.server.specs.Kept.{keeping, sessions_of};
ghost use Rattle.server.specs.Rules.{handles, told, closes};
ghost use Rattle.server_edge.specs.Bytes.{hears_bytes, forwarded_to, hint_of, tells, obeys, orderly, passing, is_for_place, is_unknown, refuses, Takes, Hears, CarriesIn};

use chain::place::Outcome;
use chain::way::{Link, Way};
use edge::post::Post;
use edge::refuse::{refuse, refuse_for, send_back};
use edge::send::{send, send_all};
use edge::sort::{Role, Sorted, kind, sort};
use fault::{Error, Fault};
use flow::buckets::Buckets;
use flow::key::FlowKey;
use machine::name::Machine;
use machine::outbox::Outbox;
use machine::sent::Sent;
use server::kept::Server;
use server::passed::Passed;
use std::alloc::Global;
use wire::kind::{Kind, Topic};
use wire::message::{At, Control, Head, Order, Unread};
use wire_write::forward::forward;

// The server and the post go along as two references: of a struct that lends both, each contract would also have to say that it keeps both.

// A packet is handled, and goes back to the client if it is refused.
fn pass(
    server: &mut Server,
    from: Machine,
    head: Head,
    flow: FlowKey,
    packet: &[u8],
    out: &mut Post,
) -> Result<Passed, Error>
    ensures { CarriesIn packet.now (handles from head flow (keeping server.old) (sessions_of server.old)) result (keeping server.old) (keeping server.new) (sessions_of server.old) (sessions_of server.new) (mails_of out.old) (mails_of out.new) }
{
    let passed = server.packet(from, head, flow)?;
    if let Outcome::Refused(refusal) = passed.outcome {
        send_back(Machine::Client, refusal, packet, out)?;
    }
    Ok(passed)
}

// A copy of the bytes.
fn post_copy(to: Machine, bytes: &[u8], out: &mut Post) -> Result<(), Error>
    ensures { Adds to bytes.now result (mails_of out.old) (mails_of out.new) }
{
    let copy = Vec::from_slice(out.heap(), bytes)?;
    out.add(to, copy)
}

fn post_hint(hint: Option<Sent>, out: &mut Post) -> Result<(), Error>
    ensures { Sends (hint_of hint) result (mails_of out.old) (mails_of out.new) }
{
    match hint {
        Some(sent) => send(sent, out),
        None => Ok(()),
    }
}

// A packet goes on: its head is written anew in place, and a copy is posted, with the hint behind it.
fn send_on(
    to: Link,
    way: Way,
    hint: Option<Sent>,
    bytes: &mut [u8],
    out: &mut Post,
) -> Result<(), Error>
    ensures posted { Sends (forwarded_to to way bytes.old ∷ hint_of hint) result (mails_of out.old) (mails_of out.new) }
    ensures lent { bytes.new ≡ (forwarded to.place way bytes.old).1 }
{
    let _ = forward(bytes, to.place, way);
    let start = out.len();
    post_copy(Machine::Server(to.server), bytes, out)?;
    if let Err(short) = post_hint(hint, out) {
        out.truncate(start);
        return Err(short);
    }
    Ok(())
}

// Told by a machine: what it sends is posted, or a refusal.
fn tell(
    server: &mut Server,
    heap: Global,
    from: Machine,
    control: Control,
    bytes: &[u8],
    out: &mut Post,
) -> Result<(), Error>
    ensures { Takes (tells from bytes.now (keeping server.old) (told from control (keeping server.old) (sessions_of server.old))) result (keeping server.old) (keeping server.new) (sessions_of server.old) (sessions_of server.new) (mails_of out.old) (mails_of out.new) }
{
    let mut outbox = Outbox::new(heap);
    match server.told(from, control, &mut outbox) {
        Ok(()) => send_all(outbox.sent(), out),
        Err(error) => refuse_for(from, error, bytes, out),
    }
}

// A session is closed by an order.
fn close(server: &mut Server, heap: Global, flow: FlowKey, out: &mut Post) -> Result<(), Error>
    ensures { Takes (orderly [] (closes flow (keeping server.old) (sessions_of server.old))) result (keeping server.old) (keeping server.new) (sessions_of server.old) (sessions_of server.new) (mails_of out.old) (mails_of out.new) }
{
    let mut outbox = Outbox::new(heap);
    server.close(flow, &mut outbox)?;
    send_all(outbox.sent(), out)
}

// So many ticks pass. What a clock of 64 bits does not hold is refused.
// Tested beforehand: `ticks` promises that what it refuses does not fit, not that it refuses all that does not.
fn tick(
    server: &mut Server,
    heap: Global,
    from: Machine,
    count: u32,
    bytes: &[u8],
    out: &mut Post,
) -> Result<(), Error>
    ensures { Takes (passing from bytes.now count (keeping server.old) (sessions_of server.old)) result (keeping server.old) (keeping server.new) (sessions_of server.old) (sessions_of server.new) (mails_of out.old) (mails_of out.new) }
{
    if u64::from(count) > u64::MAX - server.now() {
        return refuse(from, Fault::NoSuch, bytes, out);
    }
    let mut outbox = Outbox::new(heap);
    match server.ticks(heap, count, &mut outbox) {
        Ok(()) => send_all(outbox.sent(), out),
        Err(error) => refuse_for(from, error, bytes, out),
    }
}

fn obey(
    server: &mut Server,
    heap: Global,
    from: Machine,
    order: Order,
    bytes: &[u8],
    out: &mut Post,
) -> Result<(), Error>
    ensures { Takes (obeys from bytes.now (keeping server.old) (sessions_of server.old) order) result (keeping server.old) (keeping server.new) (sessions_of server.old) (sessions_of server.new) (mails_of out.old) (mails_of out.new) }
{
    match order {
        Order::Closed(flow) => close(server, heap, flow, out),
        Order::Ticks(count) => tick(server, heap, from, count, bytes, out),
        _ => refuse(from, Fault::Malformed, bytes, out),
    }
}

// Is this the kind of what is for a place of this server?
fn is_for_place(kind: u8) -> bool
    ensures { result ≡ is_for_place kind }
{
    matches!(
        Kind::try_from(kind),
        Ok(Kind::Packet | Kind::Control(Topic::Behind))
    )
}

// Is it for a place that this server does not know? Then it is as if lost.
fn is_lost(server: &Server, kind: u8, at: Option<At>) -> bool
    ensures { result ≡ (is_for_place kind && is_unknown at (keeping server.now)) }
{
    is_for_place(kind) && at.is_some_and(|at| !server.knows(at.bucket, at.place))
}

// What is no message is refused.
fn refuse_unread(
    server: &Server,
    from: Machine,
    unread: Unread,
    bytes: &[u8],
    out: &mut Post,
) -> Result<(), Error>
    ensures { Sends (refuses from bytes.now (keeping server.now) unread).posts result (mails_of out.old) (mails_of out.new) }
{
    if is_lost(server, kind(bytes), unread.at) {
        return Ok(());
    }
    refuse(from, unread.fault, bytes, out)
}

// What the bytes are to a server.
fn sorted(from: Machine, bytes: &[u8], buckets: Buckets) -> Sorted<'_>
    ensures sort { sort_of result ≡ sort role.Server from buckets.count bytes.now }
    ensures bytes { Bytes bytes.now }
{
    sort(Role::Server, from, bytes, buckets)
}

// Whatever bytes come: what is posted, what is left of the server, and what became of the packet, if it was one.
pub fn hear(
    server: &mut Server,
    heap: Global,
    from: Machine,
    bytes: &mut [u8],
    out: &mut Post,
) -> Result<Option<Outcome>, Error>
    ensures { Hears (hears_bytes from bytes.old (keeping server.old) (sessions_of server.old)) result (keeping server.old) (keeping server.new) (sessions_of server.old) (sessions_of server.new) (mails_of out.old) (mails_of out.new) bytes.old bytes.new }
{
    match sorted(from, bytes, server.buckets()) {
        Sorted::Packet { head, flow, packet } => {
            let passed = pass(server, from, head, flow, packet, out)?;
            if let Outcome::Forwarded { to, way } = passed.outcome {
                send_on(to, way, passed.hint, bytes, out)?;
            }
            return Ok(Some(passed.outcome));
        }
        Sorted::Told(control) => tell(server, heap, from, control, bytes, out)?,
        Sorted::Heard(control) => server.heard(from, control),
        Sorted::Order(order) => obey(server, heap, from, order, bytes, out)?,
        Sorted::Outside => refuse(from, Fault::Malformed, bytes, out)?,
        Sorted::Refuse(unread) => refuse_unread(server, from, unread, bytes, out)?,
    }
    Ok(None)
}
