// Plays one bucket by a script from standard input, and the assignment of all buckets, and prints what is seen.
#![tactic(auto)]

mod bytes;
mod servers;
mod text;

use crate::bytes::Bytes;
use crate::servers::Servers;
use crate::text::{EventText, MessageText};
use anyhow::anyhow;
use fault::Error;
use script::command::Command;
use script::read::read_line;
use shown::program::{answer, is_asked, print_title};
use shown::text::{ChainText, LinkText, NumberText, PlaceText};
use stage::stage::Stage;

const HELP: &str =
    "hall: plays one bucket, and the assignment of all buckets to houses, by a script on standard input

  reset [HOUSES DOORS [ROOM]]  all begins anew: 3 houses, 2 doors, room for 65536 tables in each house
  packet DOOR FLOW [open]      a packet comes by a door; it may open a table, or not
                               FLOW is written 10.0.0.7:4242>10.1.1.1:80/tcp (or /udp)
  change HOUSE                 a change of hands to a house begins
  close FLOW                   the table is closed
  forget                       the oldest place forgets itself, if it may
  say                          what is not answered yet is said again
  deliver K | lose K | repeat K   message K, on its way, is handled, lost, or on its way once more
  next | all                   the oldest on its way is handled; all are, oldest first
  show                         the row, the open tables, what each place and door knows, what is on its way
  ticks N                      N ticks pass, 256 in a second; tables without a packet for an hour, 921600 ticks, are closed
  buckets N                    so many buckets, a power of two from 16 to 65536 (4096 at first), from nothing to the houses listed
  house N ..                   the houses, in rising order: all buckets from nothing
  add N | down N               a house comes, a house goes: who had and has how many, and which buckets change hands
  bytes on | bytes off         what goes over the wire is printed as hex beside each message that is sent, or no more
  title TEXT | # REMARK        printed as they stand

A bad line is answered with its number and the fault, and changes nothing.";

// What the script plays on, and what is printed of it.
#[derive(Drop)]
struct Player {
    stage: Stage,
    servers: Servers,
    bytes: Bytes,
}

impl Player {
    fn show(&self, rt: &HostRuntime) -> anyhow::Result<()> {
        for place in self.stage.places() {
            let text: PlaceText<NumberText> = PlaceText::from(*place);
            println!(rt; "  {text}")?;
        }
        for session in self.stage.sessions().as_slice() {
            println!(rt; "  table {} open at {}", session.flow, LinkText(session.at))?;
        }
        for (i, balancer) in self.stage.balancers().iter().enumerate() {
            println!(rt; "  door {i} knows {}", LinkText(balancer.known))?;
        }
        let chain = ChainText {
            links: self.stage.chain().links(),
            handover: self.stage.chain().handover(),
        };
        println!(rt; "  {chain}")?;
        for message in self.stage.post().on_way() {
            println!(rt; "  on its way {}", MessageText(*message))?;
        }
        Ok(())
    }

    // A command about the assignment of all buckets.
    fn play_servers(
        &mut self,
        rt: &HostRuntime,
        number: u64,
        command: Command,
        line: &str,
    ) -> anyhow::Result<()> {
        match self.servers.play(rt.alloc(), command, line) {
            Ok(change) => change.print(rt),
            Err(error) => answer(rt, number, error),
        }
    }

    // A command about the one bucket.
    fn play_stage(
        &mut self,
        rt: &HostRuntime,
        number: u64,
        command: Command,
    ) -> anyhow::Result<()> {
        if let Err(error) = self.stage.play(command) {
            return answer(rt, number, error);
        }
        for event in self.stage.seen() {
            println!(rt; "  {}", EventText(*event))?;
            self.bytes.print(rt, *event)?;
        }
        match command {
            Command::Show => self.show(rt),
            Command::Bytes { shown } => {
                self.bytes.shown = shown;
                Ok(())
            }
            _ => Ok(()),
        }
    }

    fn play_line(&mut self, rt: &HostRuntime, number: u64, line: &str) -> anyhow::Result<()> {
        match read_line(line) {
            Ok(Command::Nothing) => {
                println!(rt; "{line}")?;
                Ok(())
            }
            Ok(Command::Title) => print_title(rt, line),
            Ok(
                command @ (Command::Buckets { .. }
                | Command::Servers
                | Command::Add { .. }
                | Command::Remove { .. }),
            ) => {
                println!(rt; "> {line}")?;
                self.play_servers(rt, number, command, line)
            }
            Ok(command) => {
                println!(rt; "> {line}")?;
                self.play_stage(rt, number, command)
            }
            Err(fault) => {
                println!(rt; "> {line}")?;
                answer(rt, number, Error::Of(fault))
            }
        }
    }
}

fn play(rt: &HostRuntime) -> anyhow::Result<()> {
    let Ok(stage) = Stage::new(rt.alloc(), 3, 2, 65_536) else {
        return Err(anyhow!("no memory"));
    };
    let mut player = Player {
        stage,
        servers: Servers::new(),
        bytes: Bytes::new(),
    };
    for (number, line) in (1..u64::MAX).zip(rt.lines(rt.alloc())) {
        player.play_line(rt, number, line?.as_str())?;
    }
    Ok(())
}

fn main(rt: HostRuntime) -> anyhow::Result<()> {
    if is_asked(&rt, HELP)? {
        return Ok(());
    }
    play(&rt)
}
