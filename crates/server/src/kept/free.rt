// When a server may be switched off, and what it says of itself.
ghost use Rattle.std.specs.Prelude.{◌≡◌};
ghost use Rattle.std.specs.List.{list_all};
ghost use Rattle.server_bucket.specs.Kept.{holding};
ghost use Rattle.server.specs.Kept.{keeping, sessions_of};
ghost use Rattle.server.specs.Rules.{is_free, is_left};
ghost use Rattle.sessions.specs.Model.{entries_of};

use super::Server;
use server_bucket::kept::Bucket;
use sessions::store::Sessions;

// A day in ticks.
const DAY: u64 = 22_118_400;

impl Server {
    pub fn number(&self) -> u8
        ensures { result ≡ (keeping self.now).number }
    {
        self.number
    }

    // Its open sessions.
    pub fn sessions(&self) -> &Sessions
        ensures { entries_of result.now ≡ sessions_of self.now }
    {
        &self.sessions
    }

    // May it be switched off? It stands in no chain, nothing is unanswered, and a day has passed since it last stood.
    #[tactic(auto, using(crate::proofs::Searched::left_all))]
    pub fn is_free(&self) -> bool
        ensures { result ≡ is_free (keeping self.now) }
    {
        all_left(self.held.as_slice()) && self.clock.now().saturating_sub(self.stood) >= DAY
    }
}

fn all_left(held: &[Bucket]) -> bool
    ensures { result ≡ list_all (λ b. is_left (holding b)) held.now }
{
    held.iter().all(|bucket| bucket.is_left())
}
