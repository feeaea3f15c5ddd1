// What a line of the script asks for.
use flow::key::FlowKey;
use machine::name::Machine;

// Which buckets' messages are printed.
#[derive(Clone, Copy)]
pub enum Watch {
    All,
    None,
    Bucket(u16),
}

#[derive(Clone, Copy)]
pub enum Command {
    // An empty line or a remark.
    Nothing,
    Title,
    // All begins anew, with so many servers, balancers and buckets.
    Reset {
        servers: u8,
        balancers: u16,
        buckets: u32,
    },
    // A packet comes by a balancer.
    Packet {
        balancer: u16,
        flow: FlowKey,
        opens: bool,
    },
    // Each server is ordered to close the session.
    Close {
        flow: FlowKey,
    },
    // The controller is ordered to add a server, to remove one.
    Add {
        server: u8,
    },
    Remove {
        server: u8,
    },
    // So many ticks pass at every machine.
    Ticks {
        count: u32,
    },
    // Of the message with this number, on its way: it is handled, it is lost, it is on its way once more.
    Deliver {
        number: u32,
    },
    Lose {
        number: u32,
    },
    Repeat {
        number: u32,
    },
    // The oldest message on its way is handled, or the newest one; and the same until nothing is on its way.
    Next,
    Latest,
    All,
    AllLatest,
    // The same of one bucket's messages, oldest first.
    NextOf {
        bucket: u16,
    },
    AllOf {
        bucket: u16,
    },
    // Of what is on its way each so-many-th message stays, the others are lost.
    Thin {
        keep: u32,
    },
    // What comes to this machine is lost from now on, until another is named or none.
    Deaf {
        to: Option<Machine>,
    },
    // What is printed of messages.
    Watching(Watch),
    // The bytes of what is sent are printed from now on, or no more.
    Bytes {
        shown: bool,
    },
    // A bucket: its places, sessions, chain, and what balancers know of it.
    Show {
        flow: FlowKey,
    },
    // What is on its way.
    Way,
    // What operators are told: sessions by place, servers that may be switched off, handovers that are put off.
    Status,
    // So many random events from a seed.
    Random {
        seed: u32,
        events: u32,
    },
    // Sessions opened, packets given, refused and lost, the longest way of a packet, places kept.
    Summary,
}
