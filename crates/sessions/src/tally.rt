// How many sessions are open in each place of one bucket: a tally for each place that has any. At most eight, so that a list is looked through.
ghost use Rattle.std.specs.Prelude.{◌≡◌, ℕ, ◌+◌, ◌-◌, ◌<◌, ◌≤◌, ◌&&◌, if◌then◌else◌, MatchResult, position, ◌==◌, nat_eq, nat_lt};
ghost use Rattle.sessions.specs.Tallies.{tallied_in};

use std::alloc::AllocError;

#[derive(Clone, Copy)]
pub struct Tally {
    pub place: u32,
    pub count: u32,
}

// How many are open in the place.
pub fn count(tallies: &[Tally], place: u32) -> u32
    requires { tallied_in place tallies.now ≤ 65536 }
    ensures { result ≡ tallied_in place tallies.now }
{
    tallies
        .iter()
        .map(|t| if t.place == place { t.count } else { 0 })
        .sum()
}

// Where a tally of the place stands that is above 0.
fn position(tallies: &[Tally], place: u32) -> Option<usize>
    ensures { result ≡ position (λ t. (t.place == place) && nat_lt 0 t.count) tallies.now }
{
    tallies.iter().position(|t| t.place == place && t.count > 0)
}

// One more is open in the place. Nothing changes where there is no memory.
pub fn raise(tallies: &mut Vec<Tally>, place: u32) -> Result<(), AllocError>
    requires { tallied_in place tallies.old.items < 65536 }
    ensures { MatchResult result (λ _. (q : ℕ) → tallied_in q tallies.new.items ≡ tallied_in q tallies.old.items + (if nat_eq place q then 1 else 0)) (λ _. tallies.new.items ≡ tallies.old.items) }
{
    match position(tallies, place) {
        Some(i) => tallies[i].count += 1,
        None => tallies.push(Tally { place, count: 1 })?,
    }
    Ok(())
}

// One less is open in the place. A tally that comes to 0 is removed, so a bucket's list is no longer than its places.
pub fn lower(tallies: &mut Vec<Tally>, place: u32)
    ensures { (q : ℕ) → tallied_in q tallies.new.items ≡ tallied_in q tallies.old.items - (if nat_eq place q then 1 else 0) }
{
    let Some(i) = position(tallies, place) else {
        return;
    };
    if tallies[i].count > 1 {
        tallies[i].count -= 1;
    } else {
        tallies.remove(i);
    }
}
