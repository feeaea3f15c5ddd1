// Places by their number in a list.
ghost use Rattle.std.specs.Prelude.{◌≡◌, ◌==◌, find, position};
ghost use Rattle.places.specs.Rules.{replace_in, oldest_in};

use chain::place::Place;

pub fn find_in(places: &[Place], number: u32) -> Option<Place>
    ensures { result ≡ find (λ place. place.link.place == number) places.now }
{
    places
        .iter()
        .copied()
        .find(|place| place.link.place == number)
}

// Where this number stands.
fn position_of(places: &[Place], number: u32) -> Option<usize>
    ensures { result ≡ position (λ place. place.link.place == number) places.now }
{
    places.iter().position(|place| place.link.place == number)
}

// The place with this number becomes another; none has it: nothing changes.
#[tactic(auto, using(crate::proofs::Searched::replaced_at, crate::proofs::Searched::replaced_none))]
pub fn replace_in(places: &mut [Place], number: u32, place: Place)
    ensures { places.new ≡ replace_in number place places.old }
{
    if let Some(i) = position_of(places, number) {
        places[i] = place;
    }
}

// The newest stands first.
#[tactic(auto, using(crate::proofs::Searched::oldest))]
pub fn oldest_in(places: &[Place]) -> Option<Place>
    ensures { result ≡ oldest_in places.now }
{
    places.last().copied()
}
