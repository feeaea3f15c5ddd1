// Settings that are one number.
ghost use Rattle.std.specs.Prelude.{◌≡◌};
ghost use Rattle.settings.specs.Lines.{named, fits, number_in, setting};

use crate::kept::Setting;
use fault::Fault;
use flow::buckets::Buckets;
use words::{after_space, number};

impl Setting {
    pub fn named(word: &[u8]) -> Option<Setting>
        ensures { result ≡ named word.now }
    {
        match word {
            b"buckets" => Some(Setting::Buckets),
            b"house" => Some(Setting::Server),
            b"doors" => Some(Setting::Balancers),
            b"door" => Some(Setting::Balancer),
            _ => None,
        }
    }

    // Can there be so many buckets, such a server, so many balancers, such a balancer?
    fn fits(self, n: u32) -> bool
        ensures { result ≡ fits self n }
    {
        match self {
            Setting::Buckets => Buckets::new(n).is_ok(),
            Setting::Server => u8::try_from(n).is_ok(),
            Setting::Balancers | Setting::Balancer => u16::try_from(n).is_ok(),
        }
    }

    // The value behind its name; a setting that is known already is written twice.
    pub fn read(self, known: Option<u32>, rest: &[u8]) -> Result<u32, Fault>
        ensures { result ≡ setting self known rest.now }
    {
        if known.is_some() {
            return Err(Fault::Malformed);
        }
        let n = read_number(rest)?;
        if !self.fits(n) {
            return Err(Fault::NoSuch);
        }
        Ok(n)
    }
}

// A space and a number.
fn read_number(rest: &[u8]) -> Result<u32, Fault>
    ensures { result ≡ number_in rest.now }
{
    after_space(rest)
        .and_then(|digits| number(digits))
        .ok_or(Fault::Malformed)
}
