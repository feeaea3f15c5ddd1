// What is printed of a bucket, of what operators ask for, and of a whole run.
use anyhow::anyhow;
use controller::kept::Controller;
use flow::key::FlowKey;
use server::kept::Server;
use sessions::key::Key;
use shown::text::{ChainText, LinkText, PlaceText};
use simulation::world::Simulation;

// A server's places of a bucket, and the flow's session, if it is open in one of them.
fn show_places(
    rt: &HostRuntime,
    server: &Server,
    bucket: u16,
    flow: FlowKey,
) -> anyhow::Result<()> {
    for place in server.places(bucket) {
        let number = place.link.place;
        let text: PlaceText<LinkText> = PlaceText::from(*place);
        println!(rt;
            "  {text}, tables {}",
            server.sessions().count_at(bucket, number)
        )?;
        let key = Key {
            bucket,
            place: number,
            flow,
        };
        if server.sessions().is_open(&key) {
            println!(rt; "  table {flow} open at {}", LinkText(place.link))?;
        }
    }
    Ok(())
}

pub fn show_bucket(rt: &HostRuntime, simulation: &Simulation, flow: FlowKey) -> anyhow::Result<()> {
    let bucket = flow.bucket(simulation.buckets());
    println!(rt; "  bucket {bucket}")?;
    for server in simulation.servers() {
        show_places(rt, server, bucket, flow)?;
    }
    for (i, balancer) in simulation.balancers().iter().enumerate() {
        if let Some(link) = balancer.links().get(usize::from(bucket)) {
            println!(rt; "  door {i} knows {}", LinkText(*link))?;
        }
    }
    if let Some(kept) = simulation.controller().bucket(bucket) {
        let chain = ChainText {
            links: kept.links(),
            handover: kept.handover(),
        };
        println!(rt; "  {chain}")?;
    }
    Ok(())
}

// A server's open sessions by place, and whether it may be switched off.
fn show_server(rt: &HostRuntime, server: &Server) -> anyhow::Result<()> {
    let number = server.number();
    println!(rt; "  house {number}: {} tables open", server.sessions().len())?;
    let Ok(busy) = server.status(rt.alloc()) else {
        return Err(anyhow!("no memory"));
    };
    for place in busy.as_slice() {
        println!(rt;
            "    {} in place {} of bucket {}",
            place.sessions, place.place, place.bucket
        )?;
    }
    if server.is_free() {
        println!(rt; "  house {number} is free to be switched off")?;
    }
    Ok(())
}

// The controller's part: servers that no chain has had for a day, and handovers that wait, with the old place that holds each up.
fn show_controller(rt: &HostRuntime, controller: &Controller) -> anyhow::Result<()> {
    let (Ok(leaving), Ok(waiting)) = (
        controller.leaving(rt.alloc()),
        controller.waiting(rt.alloc()),
    ) else {
        return Err(anyhow!("no memory"));
    };
    for server in leaving.as_slice() {
        println!(rt; "  no row has had house {server} for a day")?;
    }
    for put_off in waiting.as_slice() {
        println!(rt;
            "  bucket {}: put off, {} holds it up",
            put_off.bucket,
            LinkText(put_off.oldest)
        )?;
    }
    Ok(())
}

pub fn show_status(rt: &HostRuntime, simulation: &Simulation) -> anyhow::Result<()> {
    for server in simulation.servers() {
        show_server(rt, server)?;
    }
    show_controller(rt, simulation.controller())
}

pub fn show_summary(rt: &HostRuntime, simulation: &Simulation) -> anyhow::Result<()> {
    let tally = simulation.tally();
    let places = (0..=u16::MAX)
        .map_while(|bucket| simulation.controller().bucket(bucket))
        .fold(
            0usize,
            |places, kept| places.saturating_add(kept.links().len()),
        );
    println!(rt;
        "  tables opened {}, packets given {}, refused {}, messages lost {}, longest way {}, places kept {places}, on their way {}",
        tally.opened,
        tally.given,
        tally.refused,
        tally.lost,
        tally.longest,
        simulation.letters().len()
    )?;
    Ok(())
}
