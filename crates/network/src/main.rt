// Plays all machines by a script from standard input, and prints what is seen.
#![tactic(auto)]

mod show;
mod text;

use crate::show::{show_bucket, show_status, show_summary};
use crate::text::{EventText, MessageText};
use anyhow::anyhow;
use assignment::counts::counts;
use assignment::moves::moves;
use commands::command::{Command, Watch};
use commands::read::read_line;
use fault::{Error, Fault};
use shown::change::Change;
use shown::program::{answer, is_asked, print_title};
use shown::text::HexText;
use simulation::event::Event;
use simulation::letter::Letter;
use simulation::world::Simulation;
use wire_read::read;

const HELP: &str = "network: plays doors, houses and the office by a script on standard input

  reset [HOUSES DOORS [BUCKETS]]  all begins anew: 3 houses, 2 doors, 16 buckets (a power of two from 16 to 65536)
  packet DOOR FLOW [open]      a packet comes by a door; a tcp packet may open a table, or not, a udp packet always may
                               FLOW is written 10.0.0.7:4242>10.1.1.1:80/tcp (or /udp)
  add N | down N               the office is told that a house is added, is taken down: which buckets change hands
  close FLOW                   the table is closed, wherever it is open
  ticks N                      N ticks pass, 256 in a second: what is not answered is said again after 16,
                               tables without a packet for an hour, 921600 ticks, are closed
  deliver K | lose K | repeat K   message K, on its way, is handled, lost, or on its way once more
  next | latest                the oldest on its way is handled; the newest is
  all | all latest             all are, and what comes of them, oldest first; newest first
  next B | all B               the same of the messages of bucket B alone, oldest first
  thin N                       of what is on its way each Nth message stays, the others are lost
  deaf MACHINE | deaf none     what comes to door N, to house N or to the office is lost from now on, until the next such line
  watch all | none | BUCKET    messages of all buckets are printed (as at first), of none, of one
  bytes on | bytes off         what goes over the wire is printed as hex beside each message that is sent, or no more
  way                          what is on its way
  show FLOW                    the flow's bucket: its places, tables and row, and what each door knows of it
  status                       open tables by place, houses that may be switched off, changes of hands put off
  random SEED EVENTS           so many random events of all kinds, from a seed
  summary                      tables opened, packets given, refused, lost, the longest way of a packet
  title TEXT | # REMARK        printed as they stand

A bad line is answered with its number and the fault, and changes nothing.";

// More than what is on its way ever needs, unless servers come and go all the time.
const MOST_HANDLED: usize = 1_000_000;

// The simulation, and what is printed of it.
#[derive(Drop)]
struct Player {
    simulation: Simulation,
    watch: Watch,
    bytes: bool,
}

impl Player {
    fn is_watched(&self, bucket: Option<u16>) -> bool {
        match (self.watch, bucket) {
            (Watch::All, _) | (_, None) => true,
            (Watch::None, _) => false,
            (Watch::Bucket(one), Some(other)) => one == other,
        }
    }

    // What happens to packets is always printed, messages only if they are watched.
    fn is_shown(&self, event: Event) -> bool {
        match event {
            Event::Sent { .. } | Event::Handled { .. } | Event::Lost { .. } => {
                self.is_watched(event.bucket())
            }
            _ => true,
        }
    }

    fn print_letter(&self, rt: &HostRuntime, letter: &Letter) -> anyhow::Result<()> {
        print!(rt;
            "  on its way {}, {} to {}: ",
            letter.number, letter.from, letter.to
        )?;
        match read(letter.bytes.as_slice(), self.simulation.buckets()) {
            Ok(message) => println!(rt; "{}", MessageText(message))?,
            Err(unread) => println!(rt; "fault {}", u8::from(unread.fault))?,
        }
        if self.bytes {
            println!(rt; "    {}", HexText(letter.bytes.as_slice()))?;
        }
        Ok(())
    }

    fn print_event(&self, rt: &HostRuntime, event: Event) -> anyhow::Result<()> {
        if !self.is_shown(event) {
            return Ok(());
        }
        if let Event::Sent { number, .. } = event {
            if let Some(letter) = self.simulation.letter(number) {
                return self.print_letter(rt, letter);
            }
        }
        println!(rt; "  {}", EventText(event))?;
        Ok(())
    }

    fn print_seen(&self, rt: &HostRuntime) -> anyhow::Result<()> {
        for event in self.simulation.seen() {
            self.print_event(rt, *event)?;
        }
        Ok(())
    }

    fn print_way(&self, rt: &HostRuntime) -> anyhow::Result<()> {
        for letter in self.simulation.letters() {
            if self.is_watched(letter.bucket()) {
                self.print_letter(rt, letter)?;
            }
        }
        println!(rt; "  {} on their way", self.simulation.letters().len())?;
        Ok(())
    }

    // The machines' part of a command.
    fn play(&mut self, command: Command) -> Result<(), Error> {
        match command {
            Command::Packet {
                balancer,
                flow,
                opens,
            } => self.simulation.packet(balancer, flow, opens),
            Command::Close { flow } => self.simulation.close(flow),
            Command::Ticks { count } => self.simulation.ticks(count),
            Command::Deliver { number } => self.simulation.deliver(number),
            Command::Lose { number } => self.simulation.lose(number),
            Command::Repeat { number } => self.simulation.repeat(number),
            Command::Next => self.simulation.next(),
            Command::Latest => self.simulation.latest(),
            Command::NextOf { bucket } => self.simulation.next_of(bucket),
            Command::Thin { keep } => self.simulation.thin(keep),
            Command::Random { seed, events } => self.simulation.random(seed, events),
            _ => Err(Error::Of(Fault::Malformed)),
        }
    }

    // One message after the other, until none is left: each is printed before the next is handled.
    fn play_all(&mut self, rt: &HostRuntime, number: u64, one: Command) -> anyhow::Result<()> {
        for _ in 0..MOST_HANDLED {
            match self.play(one) {
                Ok(()) => self.print_seen(rt)?,
                Err(Error::Of(_)) => break,
                Err(error) => return answer(rt, number, error),
            }
        }
        Ok(())
    }

    // A server is added or removed: the buckets that change hands.
    fn order(&mut self, rt: &HostRuntime, command: Command) -> Result<Change, Error> {
        let before = Vec::from_slice(rt.alloc(), self.simulation.controller().assignment())?;
        match command {
            Command::Add { server } => self.simulation.add(server)?,
            Command::Remove { server } => self.simulation.remove(server)?,
            _ => {}
        }
        let now = self.simulation.controller().assignment();
        let had = counts(before.as_slice());
        let has = counts(now);
        let moves = moves(rt.alloc(), before.as_slice(), now)?;
        Ok(Change::new(rt.alloc(), had, has, moves)?)
    }

    fn print_order(
        &mut self,
        rt: &HostRuntime,
        number: u64,
        command: Command,
    ) -> anyhow::Result<()> {
        match self.order(rt, command) {
            Ok(change) => {
                change.print(rt)?;
                self.print_seen(rt)
            }
            Err(error) => answer(rt, number, error),
        }
    }

    fn reset(
        &mut self,
        rt: &HostRuntime,
        number: u64,
        servers: u8,
        balancers: u16,
        buckets: u32,
    ) -> anyhow::Result<()> {
        match Simulation::new(rt.alloc(), servers, balancers, buckets) {
            Ok(simulation) => {
                self.simulation = simulation;
                Ok(())
            }
            Err(error) => answer(rt, number, error),
        }
    }

    fn play_command(
        &mut self,
        rt: &HostRuntime,
        number: u64,
        command: Command,
    ) -> anyhow::Result<()> {
        match command {
            Command::Reset {
                servers,
                balancers,
                buckets,
            } => self.reset(rt, number, servers, balancers, buckets),
            Command::Add { .. } | Command::Remove { .. } => self.print_order(rt, number, command),
            Command::All => self.play_all(rt, number, Command::Next),
            Command::AllLatest => self.play_all(rt, number, Command::Latest),
            Command::AllOf { bucket } => self.play_all(rt, number, Command::NextOf { bucket }),
            Command::Watching(watch) => {
                self.watch = watch;
                Ok(())
            }
            Command::Bytes { shown } => {
                self.bytes = shown;
                Ok(())
            }
            Command::Deaf { to } => {
                self.simulation.set_deaf(to);
                Ok(())
            }
            Command::Way => self.print_way(rt),
            Command::Show { flow } => show_bucket(rt, &self.simulation, flow),
            Command::Status => show_status(rt, &self.simulation),
            Command::Summary => show_summary(rt, &self.simulation),
            _ => match self.play(command) {
                Ok(()) => self.print_seen(rt),
                Err(error) => answer(rt, number, error),
            },
        }
    }

    fn play_line(&mut self, rt: &HostRuntime, number: u64, line: &str) -> anyhow::Result<()> {
        match read_line(line) {
            Ok(Command::Nothing) => {
                println!(rt; "{line}")?;
                Ok(())
            }
            Ok(Command::Title) => print_title(rt, line),
            Ok(command) => {
                println!(rt; "> {line}")?;
                self.play_command(rt, number, command)
            }
            Err(fault) => {
                println!(rt; "> {line}")?;
                answer(rt, number, Error::Of(fault))
            }
        }
    }
}

fn play(rt: &HostRuntime) -> anyhow::Result<()> {
    let Ok(simulation) = Simulation::new(rt.alloc(), 3, 2, 16) else {
        return Err(anyhow!("no memory"));
    };
    let mut player = Player {
        simulation,
        watch: Watch::All,
        bytes: false,
    };
    for (number, line) in (1..u64::MAX).zip(rt.lines(rt.alloc())) {
        player.play_line(rt, number, line?.as_str())?;
    }
    Ok(())
}

fn main(rt: HostRuntime) -> anyhow::Result<()> {
    if is_asked(&rt, HELP)? {
        return Ok(());
    }
    play(&rt)
}
