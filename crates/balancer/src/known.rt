// What a balancer knows.
ghost use Rattle.std.specs.Prelude.{◌≡◌};
ghost use Rattle.balancer.specs.Rules.{links_of};

use crate::Balancer;
use chain::way::Link;

impl Balancer {
    // For each bucket the link of the highest place that it heard of.
    pub fn links(&self) -> &[Link]
        ensures { result.now ≡ links_of self.now }
    {
        self.links.as_slice()
    }
}
