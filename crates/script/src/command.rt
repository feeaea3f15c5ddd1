// What a line of the script asks for.
use flow::key::FlowKey;

#[derive(Clone, Copy)]
pub enum Command {
    // An empty line or a remark.
    Nothing,
    Title,
    // All begins anew, with so many servers and balancers, and room for so many sessions at each server.
    Reset {
        servers: u8,
        balancers: u8,
        room: u32,
    },
    // A packet comes by a balancer.
    Packet {
        balancer: u8,
        flow: FlowKey,
        opens: bool,
    },
    // A handover to a server begins.
    Change {
        server: u8,
    },
    // The session is closed where it is open.
    Close {
        flow: FlowKey,
    },
    // The oldest place forgets itself, if it may.
    Forget,
    // What is not answered is said again.
    Say,
    // Of the message with this number, on its way: it is handled, it is lost, it is on its way once more.
    Deliver {
        number: u32,
    },
    Lose {
        number: u32,
    },
    Repeat {
        number: u32,
    },
    // The oldest message on its way is handled; and the same until nothing is on its way.
    Next,
    All,
    // So many ticks pass.
    Ticks {
        count: u32,
    },
    // So many buckets are assigned.
    Buckets {
        buckets: u32,
    },
    // All buckets are assigned from nothing to the servers that the line lists.
    Servers,
    // A server comes, a server goes.
    Add {
        server: u8,
    },
    Remove {
        server: u8,
    },
    // The bytes of what is sent are printed from now on, or no more.
    Bytes {
        shown: bool,
    },
    Show,
}
