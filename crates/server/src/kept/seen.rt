// What a server shows to whoever hands bytes to it.
ghost use Rattle.std.specs.Prelude.{◌≡◌, map, length};
ghost use Rattle.server_bucket.specs.Kept.{holding};
ghost use Rattle.server.specs.Kept.{keeping};
ghost use Rattle.server.specs.Shown.{knows};

use super::Server;
use flow::buckets::Buckets;
use server_bucket::kept::Bucket;

impl Server {
    // One for each bucket of which it keeps something.
    pub fn buckets(&self) -> Buckets
        ensures { result.count ≡ length (keeping self.now).holdings }
    {
        self.buckets
    }

    // What it keeps of each bucket.
    pub fn held(&self) -> &[Bucket]
        ensures { map holding result.now ≡ (keeping self.now).holdings }
    {
        self.held.as_slice()
    }

    // Its clock.
    pub fn now(&self) -> u64
        ensures { result ≡ (keeping self.now).tick }
    {
        self.clock.now()
    }

    // When a place of it was last forgotten.
    pub fn stood(&self) -> u64
        ensures { result ≡ (keeping self.now).stood }
    {
        self.stood
    }

    // Does it stand in the place, or remember it as forgotten?
    pub fn knows(&self, bucket: u16, place: u32) -> bool
        ensures { result ≡ knows bucket place (keeping self.now) }
    {
        let Some(held) = self.held.get(usize::from(bucket)) else {
            return false;
        };
        held.find(place).is_some()
    }
}
