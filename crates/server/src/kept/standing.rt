// The places of one bucket where a server stands.
ghost use Rattle.std.specs.Prelude.{◌≡◌};
ghost use Rattle.server.specs.Kept.{keeping};
ghost use Rattle.server.specs.Rules.{holding_at};

use super::Server;
use chain::place::Place;

impl Server {
    // The newest first; none of a bucket that is not there.
    pub fn places(&self, bucket: u16) -> &[Place]
        ensures { result.now ≡ (holding_at bucket (keeping self.now)).known.standing }
    {
        let Some(held) = self.held.get(usize::from(bucket)) else {
            return &[];
        };
        held.standing()
    }
}
