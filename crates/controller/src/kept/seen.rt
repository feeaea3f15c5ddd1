// What the controller shows to whoever hands bytes to it.
ghost use Rattle.std.specs.Prelude.{◌≡◌, length};
ghost use Rattle.controller.specs.Kept.{ruling};

use super::Controller;
use flow::buckets::Buckets;

impl Controller {
    // One for each bucket of which it keeps something.
    pub fn buckets(&self) -> Buckets
        ensures { result.count ≡ length (ruling self.now).charges }
    {
        self.buckets
    }

    // Its clock.
    pub fn now(&self) -> u64
        ensures { result ≡ (ruling self.now).tick }
    {
        self.clock.now()
    }
}
