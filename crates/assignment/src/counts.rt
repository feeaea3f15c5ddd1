// The servers in an assignment's entries, and how many buckets each server has.
ghost use Rattle.std.specs.Prelude.{◌≡◌, ℕ, ◌<◌, length, slice_index};
ghost use Rattle.assignment.specs.Even.{count};
ghost use Rattle.assignment.specs.Moves.{server_of};

// In an assignment: a bucket that has no server yet. A number, since an entry may be any number and callers lend such slices.
pub const NONE: u16 = 65535;

// Servers are numbered from 0 to 255.
pub const SERVERS: usize = 256;

// The server in a bucket's entry, if it has one.
pub(crate) fn server_of(entry: u16) -> Option<u8>
    ensures { result ≡ server_of entry }
{
    u8::try_from(entry).ok()
}

// By the number of the server.
pub fn counts(assignment: &[u16]) -> [usize; 256]
    ensures long { length result ≡ 256 }
    ensures each { (s : ℕ) → s < 256 → slice_index result s ≡ count s assignment.now }
{
    let mut counts = [0; SERVERS];
    for entry in assignment {
        if let Some(server) = server_of(*entry) {
            counts[usize::from(server)] += 1;
        }
    }
    counts
}
