// One open session, and the sessions of one slot.
ghost use Rattle.std.specs.Prelude.{◌≡◌, is_some, position};
ghost use Rattle.sessions.specs.Entries.{seen_in, noted, without};
ghost use Rattle.sessions.specs.Keys.{same_key};

use super::key::Key;

#[derive(Clone, Copy, PartialEq, Eq, Debug)]
pub struct Entry {
    pub key: Key,
    // The tick of its last packet.
    pub seen: u64,
}

impl Entry {
    // Is it the session with this key?
    fn is_of(&self, key: &Key) -> bool
        ensures { result ≡ same_key self.now.key key.now }
    {
        self.key == *key
    }
}

// Where the session stands.
fn position(entries: &[Entry], key: &Key) -> Option<usize>
    ensures { result ≡ position (λ e. same_key e.key key.now) entries.now }
{
    entries.iter().position(|e| e.is_of(key))
}

// The tick of the session's last packet, if it is among these.
pub fn find(entries: &[Entry], key: &Key) -> Option<u64>
    ensures { result ≡ seen_in key.now entries.now }
{
    entries.iter().find(|e| e.is_of(key)).map(|e| e.seen)
}

// Notes the tick of a packet; false, if the session is not among these.
pub fn note(entries: &mut Vec<Entry>, key: &Key, tick: u64) -> bool
    ensures found { result ≡ is_some (seen_in key.now entries.old.items) }
    ensures after { entries.new.items ≡ noted key.now tick entries.old.items }
{
    let Some(i) = position(entries, key) else {
        return false;
    };
    entries[i].seen = tick;
    true
}

// Takes the session out and keeps the others in their order; false, if it is not among these.
pub fn remove(entries: &mut Vec<Entry>, key: &Key) -> bool
    ensures found { result ≡ is_some (seen_in key.now entries.old.items) }
    ensures after { entries.new.items ≡ without key.now entries.old.items }
{
    let Some(i) = position(entries, key) else {
        return false;
    };
    entries.remove(i);
    true
}
