// A place with open sessions.

#[derive(Clone, Copy, PartialEq, Eq, Debug)]
pub struct Busy {
    pub bucket: u16,
    pub place: u32,
    // How many are open.
    pub sessions: u32,
}
