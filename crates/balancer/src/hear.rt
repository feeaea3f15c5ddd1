// What a balancer makes of news: it hears of the newest places of buckets.
ghost use Rattle.std.specs.Prelude.{◌≡◌, ℕ, ◌<◌};
ghost use Rattle.balancer.specs.Rules.{links_of, link_at, hears, knows_all, highest, KnownOrTold};

use crate::{Balancer, News};
use chain::way::Link;
use fault::Fault;

impl Balancer {
    // It is told of a bucket's newest place: the highest that it heard of stays.
    pub fn told(&mut self, bucket: u16, newest: Link) -> Result<(), Fault>
        ensures links { (result, links_of self.new) ≡ hears bucket newest (links_of self.old) }
        ensures buckets { self.new.buckets ≡ self.old.buckets }
    {
        let Some(known) = self.links.get_mut(usize::from(bucket)) else {
            return Err(Fault::NoSuch);
        };
        *known = known.heard(newest)?;
        Ok(())
    }

    // It is told many times: what it knows depends on nothing else. What is refused changes nothing.
    pub fn told_all(&mut self, news: &[News])
        ensures links { links_of self.new ≡ knows_all (links_of self.old) news.now }
        ensures buckets { self.new.buckets ≡ self.old.buckets }
        ensures place { (b : ℕ) → b < self.old.buckets.count → (link_at (links_of self.new) b).place ≡ highest b (link_at (links_of self.old) b).place news.now }
        ensures heard { (b : ℕ) → b < self.old.buckets.count → KnownOrTold b (link_at (links_of self.old) b) news.now (link_at (links_of self.new) b) }
    {
        for n in news {
            let _ = self.told(n.bucket, n.newest);
        }
    }
}
