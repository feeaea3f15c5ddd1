// A forgotten place of which the place after it and the controller are told, again and again until each has answered.
use chain::way::Link;

#[derive(Clone, Copy, PartialEq, Eq, Default, Debug)]
pub struct Farewell {
    pub place: u32,
    pub after: Link,
    // The place after it has not answered yet.
    pub awaits_after: bool,
    // The controller has not answered yet.
    pub awaits_controller: bool,
    // Ticks since it was last said.
    pub age: u8,
}
