// What a step sends, and to whom.
use crate::name::Machine;
use wire::message::Control;

#[derive(Clone, Copy, PartialEq, Eq, Debug)]
pub enum Note {
    Say(Control),
    // The same message, said back to whoever said it.
    Answer(Control),
    // The controller's report to the operator: a handover of this bucket would make a ninth place, and waits.
    PutOff(u16),
}

#[derive(Clone, Copy, PartialEq, Eq, Debug)]
pub struct Sent {
    pub to: Machine,
    pub note: Note,
}
