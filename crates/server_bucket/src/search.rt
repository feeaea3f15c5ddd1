// Farewells in a list.
ghost use Rattle.std.specs.Prelude.{◌≡◌, ◌≤◌, ◌&&◌, ◌||◌, map, position, ◌==◌};
ghost use Rattle.arrayvec.specs.ArrayVec.{array_vec_len};
ghost use Rattle.chain.specs.Ways.{same_link};
ghost use Rattle.server_bucket.specs.Rules.{less_awaited, answered_in, older};

use crate::farewell::Farewell;
use arrayvec::ArrayVec;
use chain::way::Link;
use machine::again::aged;
use machine::name::Machine;

impl Farewell {
    // What is still awaited when this machine has answered.
    fn answered(self, by: Machine) -> Farewell
        ensures { result ≡ less_awaited by self }
    {
        match by {
            Machine::Server(server) if server == self.after.server => Farewell {
                awaits_after: false,
                ..self
            },
            Machine::Controller => Farewell {
                awaits_controller: false,
                ..self
            },
            _ => self,
        }
    }

    // Is it of this place, with this one after it?
    fn is_of(self, place: u32, after: Link) -> bool
        ensures { result ≡ (place == self.place && same_link after self.after) }
    {
        place == self.place && after == self.after
    }

    fn is_awaited(self) -> bool
        ensures { result ≡ (self.awaits_after || self.awaits_controller) }
    {
        self.awaits_after || self.awaits_controller
    }

    // So many ticks later.
    fn later(self, ticks: u32) -> Farewell
        ensures { result ≡ older ticks self }
    {
        Farewell {
            age: aged(self.age, ticks),
            ..self
        }
    }
}

// Where the farewell of this place stands, with this one after it.
fn position_of(farewells: &[Farewell], place: u32, after: Link) -> Option<usize>
    ensures { result ≡ position (λ f. place == f.place && same_link after f.after) farewells.now }
{
    farewells
        .iter()
        .position(|farewell| farewell.is_of(place, after))
}

// The machine answers to the farewell of this place, which goes if that was the last answer.
#[tactic(auto, using(crate::proofs::Settled::answered_none, crate::proofs::Settled::answered_set, crate::proofs::Settled::answered_removed))]
pub fn answered_in<const N: usize>(
    farewells: &mut ArrayVec<Farewell, N>,
    place: u32,
    after: Link,
    by: Machine,
)
    ensures items { farewells.new.items ≡ answered_in place after by farewells.old.items }
    ensures no_more { array_vec_len farewells.new ≤ array_vec_len farewells.old }
{
    let Some(i) = position_of(farewells, place, after) else {
        return;
    };
    let awaited = farewells[i].answered(by);
    if awaited.is_awaited() {
        farewells[i] = awaited;
    } else {
        farewells.remove(i);
    }
}

// So many ticks pass.
pub fn pass(farewells: &mut [Farewell], ticks: u32)
    ensures { farewells.new ≡ map (older ticks) farewells.old }
{
    for farewell in farewells.iter_mut() {
        *farewell = farewell.later(ticks);
    }
}
