// A sum over a machine's state: FNV-1a with 64 bits, numbers with the high byte first.
use balancer::Balancer;
use chain::handover::Handover;
use chain::place::{Place, Standing};
use chain::way::Link;
use controller::kept::Controller;
use controller_bucket::kept::Bucket as Charge;
use fault::Error;
use server::kept::Server;
use server_bucket::farewell::Farewell;
use server_bucket::kept::Bucket;
use sessions::key::Key;
use std::alloc::Global;

const START: u64 = 0xcbf2_9ce4_8422_2325;

const FACTOR: u64 = 0x0000_0100_0000_01b3;

// An hour in ticks: so much later every session is idle.
const HOUR: u64 = 921_600;

#[derive(Drop)]
struct Sum {
    value: u64,
}

impl Sum {
    fn new() -> Sum {
        Sum { value: START }
    }

    fn bytes(&mut self, bytes: &[u8]) {
        for byte in bytes {
            self.value = (self.value ^ u64::from(*byte)).wrapping_mul(FACTOR);
        }
    }

    fn count(&mut self, number: usize) {
        self.bytes(&[(number & 0xff) as u8]);
    }

    // A link, or zeros for none.
    fn link(&mut self, link: Option<Link>) {
        let link = link.unwrap_or_default();
        self.bytes(&link.place.to_be_bytes());
        self.bytes(&[link.server]);
    }

    fn place(&mut self, place: Place) {
        self.bytes(&place.link.place.to_be_bytes());
        match place.standing {
            Standing::Never => {}
            Standing::Stands { before, after } => {
                self.link(before);
                self.link(after);
            }
            Standing::Forgotten { after } => self.link(Some(after)),
        }
    }

    fn places(&mut self, places: &[Place]) {
        self.count(places.len());
        for place in places {
            self.place(*place);
        }
    }

    fn farewells(&mut self, farewells: &[Farewell]) {
        self.count(farewells.len());
        for farewell in farewells {
            self.bytes(&farewell.place.to_be_bytes());
            self.link(Some(farewell.after));
            self.bytes(&[
                u8::from(farewell.awaits_after),
                u8::from(farewell.awaits_controller),
            ]);
            self.bytes(&[farewell.age]);
        }
    }

    fn holding(&mut self, bucket: &Bucket) {
        self.bytes(&bucket.highest().to_be_bytes());
        self.places(bucket.standing());
        self.places(bucket.past());
        self.farewells(bucket.farewells());
    }

    // An age counts only while something waits.
    fn handover(&mut self, handover: Handover, age: u8) {
        match handover {
            Handover::Idle => self.phase(0, None, 0),
            Handover::AwaitStood(link) => self.phase(1, Some(link), age),
            Handover::AwaitTold(link) => self.phase(2, Some(link), age),
        }
    }

    // Called with constants for an idle bucket, as most are: its seven bytes, all zero, are then one multiplication.
    fn phase(&mut self, number: u8, link: Option<Link>, age: u8) {
        self.bytes(&[number]);
        self.link(link);
        self.bytes(&[age]);
    }

    fn untold(&mut self, untold: &[u16], age: u8) {
        self.bytes(&((untold.len() & 0xffff) as u16).to_be_bytes());
        for balancer in untold {
            self.bytes(&balancer.to_be_bytes());
        }
        self.bytes(&[if untold.is_empty() { 0 } else { age }]);
    }

    fn charge(&mut self, assigned: u16, bucket: &Charge) {
        self.bytes(&[(assigned & 0xff) as u8]);
        self.count(bucket.links().len());
        for link in bucket.links() {
            self.link(Some(*link));
        }
        self.handover(bucket.handover(), bucket.age());
        self.untold(bucket.untold(), bucket.untold_age());
        self.bytes(&[u8::from(bucket.is_put_off())]);
    }
}

pub fn of_balancer(balancer: &Balancer) -> u64 {
    let mut sum = Sum::new();
    for link in balancer.links() {
        sum.link(Some(*link));
    }
    sum.value
}

fn of_session(key: Key, last: u64) -> u64 {
    let mut sum = Sum::new();
    sum.bytes(&key.bucket.to_be_bytes());
    sum.bytes(&key.place.to_be_bytes());
    sum.bytes(&<[u8; 13]>::from(key.flow));
    sum.bytes(&last.to_be_bytes());
    sum.value
}

// The sum of those of all sessions, in whichever order.
fn of_sessions(heap: Global, server: &Server) -> Result<u64, Error> {
    let sessions = server.sessions();
    let names = sessions.idle_keys(heap, server.now().saturating_add(HOUR))?;
    let mut sum = 0u64;
    for key in names.as_slice() {
        if let Some(last) = sessions.last_packet(key) {
            sum = sum.wrapping_add(of_session(*key, last));
        }
    }
    Ok(sum)
}

pub fn of_server(heap: Global, server: &Server) -> Result<u64, Error> {
    let mut sum = Sum::new();
    sum.bytes(&[server.number()]);
    for bucket in server.held() {
        sum.holding(bucket);
    }
    sum.bytes(&server.now().to_be_bytes());
    sum.bytes(&server.stood().to_be_bytes());
    sum.bytes(&((server.sessions().len() & 0xffff_ffff) as u32).to_be_bytes());
    sum.bytes(&of_sessions(heap, server)?.to_be_bytes());
    Ok(sum.value)
}

pub fn of_controller(controller: &Controller) -> u64 {
    let mut sum = Sum::new();
    let servers = controller.servers();
    sum.bytes(&((servers.len() & 0xffff) as u16).to_be_bytes());
    sum.bytes(servers);
    for (bucket, assigned) in (0..=65535u16).zip(controller.assignment()) {
        if let Some(charge) = controller.bucket(bucket) {
            sum.charge(*assigned, charge);
        }
    }
    sum.bytes(&controller.now().to_be_bytes());
    sum.value
}
