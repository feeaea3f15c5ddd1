// What the operator is shown.
use chain::way::Link;

// A bucket whose handover is put off, and the oldest place of its chain, which holds it up.
#[derive(Clone, Copy, PartialEq, Eq, Debug)]
pub struct Waiting {
    pub bucket: u16,
    pub oldest: Link,
}
