// Settings read line by line, to the end or to the first fault.
ghost use Rattle.std.specs.Prelude.{◌≡◌};
ghost use Rattle.settings.specs.Lines.{written, blank, runs, lists, sets, by_word, next, Takes};

use crate::kept::{Setting, Settings};
use crate::list::read_servers;
use fault::{Error, Fault};
use std::alloc::Global;
use words::split_word;

impl Settings {
    pub fn new(heap: Global) -> Settings
        ensures { written result ≡ blank }
    {
        Settings {
            buckets: None,
            servers: Vec::new(heap),
            server: None,
            balancers: None,
            balancer: None,
        }
    }

    fn run(&self, rest: &[u8]) -> Result<bool, Error>
        ensures { Takes (runs rest.now (written self.now)) result (written self.now) (written self.now) }
    {
        if !rest.is_empty() {
            return Err(Error::Of(Fault::Malformed));
        }
        if self.servers.is_empty() {
            return Err(Error::Of(Fault::NoServer));
        }
        Ok(true)
    }

    fn list(&mut self, heap: Global, rest: &[u8]) -> Result<bool, Error>
        ensures { Takes (lists rest.now (written self.old)) result (written self.old) (written self.new) }
    {
        if !self.servers.is_empty() {
            return Err(Error::Of(Fault::Malformed));
        }
        self.servers = read_servers(heap, rest)?;
        Ok(false)
    }

    fn set(&mut self, setting: Option<Setting>, rest: &[u8]) -> Result<bool, Error>
        ensures { Takes (sets setting rest.now (written self.old)) result (written self.old) (written self.new) }
    {
        let setting = setting.ok_or(Fault::Malformed)?;
        match setting {
            Setting::Buckets => self.buckets = Some(setting.read(self.buckets, rest)?),
            Setting::Server => self.server = Some(setting.read(self.server, rest)?),
            Setting::Balancers => self.balancers = Some(setting.read(self.balancers, rest)?),
            Setting::Balancer => self.balancer = Some(setting.read(self.balancer, rest)?),
        }
        Ok(false)
    }

    fn take_word(&mut self, heap: Global, word: &[u8], rest: &[u8]) -> Result<bool, Error>
        ensures { Takes (by_word word.now rest.now (written self.old)) result (written self.old) (written self.new) }
    {
        match word {
            b"run" => self.run(rest),
            b"houses" => self.list(heap, rest),
            _ => self.set(Setting::named(word), rest),
        }
    }

    // One line more: true where all is written. A fault changes nothing. A bool: an enum of two words would only name it again.
    pub fn take(&mut self, heap: Global, line: &[u8]) -> Result<bool, Error>
        ensures { Takes (next line.now (written self.old)) result (written self.old) (written self.new) }
    {
        let (word, rest) = split_word(line);
        self.take_word(heap, word, rest)
    }
}
