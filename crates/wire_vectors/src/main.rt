// Reads the bytes of each line of its input and says what they are, as numbers, or sends the packet on that they are.
#![tactic(auto)]

use anyhow::{Context, anyhow};
use chain::way::{Link, Way};
use flow::buckets::Buckets;
use flow::key::FlowKey;
use std::alloc::{AllocError, Global};
use std::str::SplitWhitespace;
use wire::kind::Kind;
use wire::message::{Control, Message, Order, Unread};
use wire_write::asker;
use wire_write::forward::forward;

// What a line asks for its bytes.
#[derive(Clone, Copy)]
enum Command {
    Read,
    // Send on to that place, on that way.
    Send(u32, Way),
}

fn nibble(digit: u8) -> Option<u8> {
    match digit {
        b'0'..=b'9' => Some(digit - b'0'),
        b'a'..=b'f' => Some(digit - b'a' + 10),
        _ => None,
    }
}

// The bytes of two digits each; what is no digit is left out, so that a lone - stands for none.
fn bytes(heap: Global, hex: &str) -> Result<Vec<u8>, AllocError> {
    let mut out = Vec::new(heap);
    for digits in hex.as_bytes().chunks_exact(2) {
        if let [high, low] = digits
            && let (Some(high), Some(low)) = (nibble(*high), nibble(*low))
        {
            out.push(high << 4 | low)?;
        }
    }
    Ok(out)
}

fn hex(heap: Global, bytes: &[u8]) -> Result<String, AllocError> {
    let mut text = String::new(heap);
    for byte in bytes {
        text.push_str(format!(in heap; "{byte:02x}")?.as_str())?;
    }
    Ok(text)
}

fn flow_text(heap: Global, flow: FlowKey) -> Result<String, AllocError> {
    let protocol = u8::from(flow.protocol);
    format!(in heap;
        "{} {} {} {} {protocol}",
        flow.src, flow.dst, flow.sport, flow.dport
    )
}

fn control_text(heap: Global, kind: Kind, control: Control) -> Result<String, AllocError> {
    let kind = u8::from(kind);
    match control {
        Control::Stand {
            bucket,
            place,
            before: None,
        } => format!(in heap; "{kind} {bucket} {place}"),
        Control::Stand {
            bucket,
            place,
            before: Some(link),
        }
        | Control::Behind {
            bucket,
            place,
            after: link,
        }
        | Control::Forgotten {
            bucket,
            place,
            after: link,
        } => format!(in heap; "{kind} {bucket} {place} {} {}", link.place, link.server),
        Control::Door { bucket, newest } => {
            format!(in heap; "{kind} {bucket} {} {}", newest.place, newest.server)
        }
    }
}

fn order_text(heap: Global, order: Order) -> Result<String, AllocError> {
    match order {
        Order::Closed(flow) => format!(in heap;
            "{} {}",
            u8::from(Kind::Closed),
            flow_text(heap, flow)?
        ),
        Order::Added(server) => format!(in heap; "{} {server}", u8::from(Kind::Added)),
        Order::Removed(server) => format!(in heap; "{} {server}", u8::from(Kind::Removed)),
        Order::Ticks(count) => format!(in heap; "{} {count}", u8::from(Kind::Ticks)),
    }
}

fn message_text(heap: Global, message: Message<'_>) -> Result<String, AllocError> {
    match message {
        Message::Packet { head, flow, packet } => {
            let kind = u8::from(Kind::Packet);
            let way = u8::from(head.way);
            let by = asker(head.way);
            let opens = u8::from(head.opens);
            let flow = flow_text(heap, flow)?;
            format!(in heap;
                "{kind} {} {} {way} {} {} {opens} {flow} {}",
                head.bucket,
                head.place,
                by.place,
                by.server,
                packet.len()
            )
        }
        Message::Control(control) => control_text(heap, Kind::Control(control.into()), control),
        Message::Answer(control) => control_text(heap, Kind::Answer(control.into()), control),
        Message::Refused { refusal, packet } => {
            format!(in heap;
                "{} {} {}",
                u8::from(Kind::Refused),
                u8::from(refusal),
                packet.len()
            )
        }
        Message::Order(order) => order_text(heap, order),
    }
}

// What was read, if it is written again as the same bytes.
fn read_line(heap: Global, message: Message<'_>, given: &[u8]) -> anyhow::Result<String> {
    let mut written = Vec::new(heap);
    if wire_write::write(message, &mut written).is_err() || written.as_slice() != given {
        return Err(anyhow!("written otherwise"));
    }
    Ok(message_text(heap, message)?)
}

fn fault_line(heap: Global, unread: Unread) -> Result<String, AllocError> {
    let number = u8::from(unread.fault);
    match unread.at {
        Some(at) => format!(in heap; "fault {number} {} {}", at.bucket, at.place),
        None => format!(in heap; "fault {number}"),
    }
}

fn number(words: &mut SplitWhitespace<'_>) -> anyhow::Result<u32> {
    Ok(words.next().context("a number is missing")?.parse::<u32>()?)
}

fn link(words: &mut SplitWhitespace<'_>) -> anyhow::Result<Link> {
    let place = number(words)?;
    let server = words.next().context("a server is missing")?.parse::<u8>()?;
    Ok(Link { place, server })
}

fn read_command(words: &mut SplitWhitespace<'_>) -> anyhow::Result<Command> {
    match words.next() {
        Some("read") => Ok(Command::Read),
        Some("up") => Ok(Command::Send(number(words)?, Way::Up)),
        Some("down") => Ok(Command::Send(number(words)?, Way::Down(link(words)?))),
        Some("asked") => Ok(Command::Send(number(words)?, Way::Asked(link(words)?))),
        // Any other word asks for nobody.
        _ => Ok(Command::Send(number(words)?, Way::Asked(Link::default()))),
    }
}

fn answer(heap: Global, line: &str) -> anyhow::Result<String> {
    let mut words = line.split_whitespace();
    let Ok(buckets) = Buckets::new(number(&mut words)?) else {
        return Err(anyhow!("no such number of buckets"));
    };
    let command = read_command(&mut words)?;
    let mut given = bytes(heap, words.next().unwrap_or(""))?;
    match command {
        Command::Read => match wire_read::read(given.as_slice(), buckets) {
            Ok(message) => read_line(heap, message, given.as_slice()),
            Err(unread) => Ok(fault_line(heap, unread)?),
        },
        Command::Send(place, way) => match forward(given.as_mut_slice(), place, way) {
            Ok(()) => Ok(hex(heap, given.as_slice())?),
            Err(fault) => Ok(fault_line(heap, fault.into())?),
        },
    }
}

fn run(rt: &HostRuntime) -> anyhow::Result<()> {
    for line in rt.lines(rt.alloc()) {
        let line = line?;
        let text = answer(rt.alloc(), line.as_str())?;
        println!(rt; "{text}")?;
    }
    Ok(())
}

fn main(rt: HostRuntime) -> anyhow::Result<()> {
    run(&rt)
}
