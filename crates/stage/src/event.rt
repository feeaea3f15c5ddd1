// What is seen of a command.
use crate::message::Message;
use chain::way::Link;
use fault::{Fault, Refusal};
use flow::key::FlowKey;

#[derive(Clone, Copy, PartialEq, Eq, Debug)]
pub enum Event {
    // On its way now.
    Sent(Message),
    // Handled by this machine, and on its way no more.
    Handled(Message),
    Lost(Message),
    // The packet was given to its session, which is open here; or was opened just now.
    Delivered {
        at: Link,
        flow: FlowKey,
    },
    Opened {
        at: Link,
        flow: FlowKey,
    },
    // The packet goes back to its sender, or is dropped, as if lost.
    Refused {
        at: Link,
        flow: FlowKey,
        refusal: Refusal,
    },
    Dropped,
    // The message was refused, and nothing changed.
    Contradicted(Fault),
    // An answer that nobody waits for, or a message that is left for later.
    Ignored,
    Closed {
        at: Link,
        flow: FlowKey,
    },
    // Closed after an hour without a packet.
    Idle {
        at: Link,
        flow: FlowKey,
    },
    NotOpen,
    Forgotten {
        place: Link,
    },
    NothingForgotten,
    // The newest place has changed: balancers are told now.
    HandedOver {
        newest: Link,
    },
}
