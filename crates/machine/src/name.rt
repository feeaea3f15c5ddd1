// Who says something, and who hears it.
ghost use Rattle.std.specs.Prelude.{Some};
ghost use Rattle.machine.specs.Names.{name_text};

use std::fmt;

#[derive(Clone, Copy, PartialEq, Eq, Debug)]
pub enum Machine {
    // Whoever sends packets from outside.
    Client,
    // Whoever gives orders.
    Operator,
    Balancer(u16),
    Server(u8),
    Controller,
}

// As lines of text name it.
impl fmt::Display for Machine {
    ghost output = { λ machine. Some (name_text machine) };

    fn fmt<W: fmt::Write>(&self, f: &mut fmt::Formatter<W>) -> fmt::Result {
        match self {
            Machine::Client => f.write_str("client"),
            Machine::Operator => f.write_str("order"),
            Machine::Balancer(number) => write!(f, "door {number}"),
            Machine::Server(number) => write!(f, "house {number}"),
            Machine::Controller => f.write_str("office"),
        }
    }
}
