// What the programs share: their arguments, how settings begin a machine, how lines feed it, and what is printed.
#![tactic(auto)]

ghost use Rattle.std.specs.Prelude.{◌≡◌, false, unwrap_or, MatchResult};
ghost use Rattle.fault.specs.declared.Fault.TheVariants.{NoSuch};
ghost use Rattle.flow.specs.Buckets.{is_bucket_count};

use anyhow::anyhow;
use edge::post::Post;
use fault::{Error, Fault};
use flow::buckets::Buckets;
use lines::kept::Line;
use lines::read::read_line;
use lines::write::{line_text, packet_text};
use roster::roster::Roster;
use settings::kept::Settings;
use std::alloc::Global;
use std::io::Write;
use std::{env, fmt};

// The release, and the kit that proves and builds it.
pub const VERSION: &str = "0.1.0 (rattle-kit-13f logic dac8208d650f15bf)";

// Where the settings do not say how many buckets there are.
const BUCKETS: u32 = 4096;

// A fault of a line, for people.
#[derive(Drop)]
pub struct FaultText {
    pub line: u64,
    pub fault: Fault,
}

impl fmt::Display for FaultText {
    fn fmt<W: fmt::Write>(&self, f: &mut fmt::Formatter<W>) -> fmt::Result {
        write!(
            f,
            "line {}: fault {}: {}",
            self.line,
            u8::from(self.fault),
            self.fault
        )
    }
}

// Is the program only asked what it is? Then that is printed.
pub fn is_asked(rt: &HostRuntime, name: &str, help: &str) -> anyhow::Result<bool> {
    for arg in env::args(rt)?.skip(1) {
        match arg.as_str() {
            "--help" => {
                println!(rt; "{help}")?;
                return Ok(true);
            }
            "--version" => {
                println!(rt; "{name} {VERSION}")?;
                return Ok(true);
            }
            _ => return Err(anyhow!("an unknown argument: try --help")),
        }
    }
    Ok(false)
}

// What ends the program.
pub fn stop(heap: Global, line: u64, error: Error) -> anyhow::Error {
    match error {
        Error::Of(fault) => match format!(in heap; "{}", FaultText { line, fault }) {
            Ok(text) => anyhow!(text),
            Err(_) => anyhow!("no memory"),
        },
        Error::Memory => anyhow!("no memory"),
    }
}

// Faults are answered, want of memory ends the program. The programs that play scripts have their own, with blanks in front.
pub fn answer(rt: &HostRuntime, line: u64, error: Error) -> anyhow::Result<()> {
    match error {
        Error::Of(fault) => {
            println!(rt; "{}", FaultText { line, fault })?;
            Ok(())
        }
        Error::Memory => Err(anyhow!("no memory")),
    }
}

// As many as the settings say.
pub fn buckets(settings: &Settings) -> Result<Buckets, Fault>
    ensures { MatchResult result (λ b. b.count ≡ unwrap_or settings.now.buckets 4096) (λ f. (f ≡ NoSuch) × (is_bucket_count (unwrap_or settings.now.buckets 4096) ≡ false)) }
{
    Buckets::new(settings.buckets.unwrap_or(BUCKETS))
}

// The buckets, and which server has each at the start.
pub fn assign(heap: Global, settings: &Settings) -> Result<(Buckets, Roster), Error> {
    let buckets = buckets(settings)?;
    let roster = Roster::new(heap, buckets.count() as usize, settings.servers.as_slice())?;
    Ok((buckets, roster))
}

// A whole line at once, so that nobody waits for the end of it.
fn print_line(rt: &HostRuntime, mut text: Vec<u8>) -> anyhow::Result<()> {
    text.push(b'\n')?;
    rt.stdout().write_all(text.as_slice())?;
    Ok(())
}

// What was posted, one message to a line.
pub fn print(rt: &HostRuntime, post: &Post) -> anyhow::Result<()> {
    for posted in post.posted() {
        let text = line_text(rt.alloc(), posted.to, posted.bytes.as_slice())?;
        print_line(rt, text)?;
    }
    Ok(())
}

// A packet that is given to its session.
pub fn print_packet(rt: &HostRuntime, packet: &[u8]) -> anyhow::Result<()> {
    let text = packet_text(rt.alloc(), packet)?;
    print_line(rt, text)
}

// A machine that is fed by lines: first its settings, then who hands over which bytes.
pub trait Fed: Sized + Drop {
    // The program's name, and what it says of itself.
    const NAME: &'static str;

    const HELP: &'static str;

    fn begin(heap: Global, settings: &Settings) -> Result<Self, Error>;

    // What it sends is posted. The packet that it gives to a session, if it gives one.
    fn hear<'a>(
        &mut self,
        heap: Global,
        line: &'a mut Line,
        post: &mut Post,
    ) -> Result<Option<&'a [u8]>, Error>;
}

// One line of bytes: what comes of it is printed.
fn hear<M: Fed>(rt: &HostRuntime, machine: &mut M, number: u64, text: &[u8]) -> anyhow::Result<()> {
    let mut line = match read_line(rt.alloc(), text) {
        Ok(line) => line,
        Err(error) => return answer(rt, number, error),
    };
    let mut post = Post::new(rt.alloc());
    match machine.hear(rt.alloc(), &mut line, &mut post) {
        Ok(None) => print(rt, &post),
        Ok(Some(packet)) => {
            print_packet(rt, packet)?;
            print(rt, &post)
        }
        Err(error) => answer(rt, number, error),
    }
}

// One line of settings: the machine, once all is written.
fn take<M: Fed>(heap: Global, settings: &mut Settings, line: &[u8]) -> Result<Option<M>, Error> {
    if settings.take(heap, line)? {
        return Ok(Some(M::begin(heap, settings)?));
    }
    Ok(None)
}

fn play<M: Fed>(rt: &HostRuntime) -> anyhow::Result<()> {
    let heap = rt.alloc();
    let mut settings = Settings::new(heap);
    let mut running: Option<M> = None;
    // Counted by hand, since the number behind the last line is told too.
    let mut number = 0u64;
    for line in rt.lines(heap) {
        let line = line?;
        number = number.saturating_add(1);
        match &mut running {
            Some(machine) => hear(rt, machine, number, line.as_bytes())?,
            None => match take(heap, &mut settings, line.as_bytes()) {
                Ok(begun) => running = begun,
                Err(error) => return Err(stop(heap, number, error)),
            },
        }
    }
    if running.is_none() {
        return Err(stop(heap, number.saturating_add(1), Error::Of(Fault::Malformed)));
    }
    Ok(())
}

// A whole program.
pub fn run<M: Fed>(rt: &HostRuntime) -> anyhow::Result<()> {
    if is_asked(rt, M::NAME, M::HELP)? {
        return Ok(());
    }
    play::<M>(rt)
}
