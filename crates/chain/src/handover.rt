// How far the handover of a bucket to a new place has come.
use crate::way::Link;

// Idle: none is in progress. AwaitStood: the new place was told to stand, and has not answered.
// AwaitTold: it stands; the newest place was told of it, and has not answered.
#[derive(Clone, Copy, PartialEq, Eq, Debug)]
pub enum Handover {
    Idle,
    AwaitStood(Link),
    AwaitTold(Link),
}
