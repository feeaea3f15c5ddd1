// What the controller does with bytes, whoever hands them over.
#![tactic(auto)]

ghost use Rattle.std.specs.Prelude.{◌≡◌, length};
ghost use Rattle.machine.specs.Outboxes.{sent_of};
ghost use Rattle.machine.specs.Steps.{Did};
ghost use Rattle.edge.specs.declared.sort.Role.TheVariants as role;
ghost use Rattle.edge.specs.Posts.{mails_of};
ghost use Rattle.edge.specs.Sorts.{sort_of, sort};
ghost use Rattle.controller.specs.Kept.{ruling};
ghost use Rattle.controller_edge.specs.Bytes.{clocked, ordered, stepped, hears_bytes, Hears};

use controller::kept::Controller;
use edge::post::Post;
use edge::refuse::refuse_for;
use edge::send::send_all;
use edge::sort::{Role, Sorted, sort};
use fault::{Error, Fault};
use machine::name::Machine;
use machine::outbox::Outbox;
use std::alloc::Global;
use wire::message::Order;

// So many ticks pass. What a clock of 64 bits does not hold is refused.
// Tested beforehand: `ticks` promises that what it refuses does not fit, not that it refuses all that does not.
fn tick(controller: &mut Controller, count: u32, outbox: &mut Outbox) -> Result<(), Error>
    ensures { Did (clocked count (ruling controller.old)) result (ruling controller.old) (ruling controller.new) (sent_of outbox.old) (sent_of outbox.new) }
{
    if u64::from(count) > u64::MAX - controller.now() {
        return Err(Error::Of(Fault::NoSuch));
    }
    controller.ticks(count, outbox)
}

// What the operator orders; sessions are closed by servers.
fn obey(
    controller: &mut Controller,
    heap: Global,
    order: Order,
    outbox: &mut Outbox,
) -> Result<(), Error>
    ensures { Did (ordered (ruling controller.old) order) result (ruling controller.old) (ruling controller.new) (sent_of outbox.old) (sent_of outbox.new) }
{
    match order {
        Order::Added(server) => controller.add(heap, server, outbox),
        Order::Removed(server) => controller.remove(heap, server, outbox),
        Order::Ticks(count) => tick(controller, count, outbox),
        Order::Closed(_) => Err(Error::Of(Fault::Malformed)),
    }
}

// What it does, by what the bytes are to it. A fault and want of memory change nothing.
fn step(
    controller: &mut Controller,
    heap: Global,
    from: Machine,
    sorted: Sorted<'_>,
    outbox: &mut Outbox,
) -> Result<(), Error>
    ensures { Did (stepped from (ruling controller.old) (sort_of sorted.entry)) result (ruling controller.old) (ruling controller.new) (sent_of outbox.old) (sent_of outbox.new) }
{
    match sorted {
        Sorted::Told(control) => controller.told(from, control, outbox),
        Sorted::Heard(control) => controller.heard(heap, from, control, outbox),
        Sorted::Order(order) => obey(controller, heap, order, outbox),
        Sorted::Outside | Sorted::Packet { .. } => Err(Error::Of(Fault::Malformed)),
        Sorted::Refuse(unread) => Err(Error::Of(unread.fault)),
    }
}

// Whatever bytes come: what is posted, and what is left of the controller.
pub fn hear(
    controller: &mut Controller,
    heap: Global,
    from: Machine,
    bytes: &[u8],
    out: &mut Post,
) -> Result<(), Error>
    ensures { Hears (hears_bytes from bytes.now (ruling controller.old)) result (ruling controller.old) (ruling controller.new) (mails_of out.old) (mails_of out.new) }
{
    let sorted = sort(Role::Controller, from, bytes, controller.buckets());
    let mut outbox = Outbox::new(heap);
    match step(controller, heap, from, sorted, &mut outbox) {
        Ok(()) => send_all(outbox.sent(), out),
        Err(error) => refuse_for(from, error, bytes, out),
    }
}
