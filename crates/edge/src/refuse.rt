// What goes back when a machine refuses what came. The bytes and who handed them over stay apart: a packet goes back to another.
ghost use Rattle.std.specs.Prelude.{◌≡◌, [], ◌∷◌};
ghost use Rattle.fault.specs.declared.Refusal.TheVariants.{For};
ghost use Rattle.edge.specs.Posts.{mails_of, Sends};
ghost use Rattle.edge.specs.Admission.{is_final, is_lost, back_to, sent_back, refusal, Stops};

use crate::post::Post;
use crate::sort::kind;
use fault::{Error, Fault, Refusal};
use machine::name::Machine;
use wire::kind::Kind;
use wire::message::Message;

// As many bytes as a refusal can hold.
const MOST: usize = 65535;

// Bytes go back with the reason, as many as a refusal can hold.
pub fn send_back(to: Machine, refusal: Refusal, bytes: &[u8], out: &mut Post) -> Result<(), Error>
    ensures { Sends (sent_back to refusal bytes.now ∷ []) result (mails_of out.old) (mails_of out.new) }
{
    let packet = &bytes[..bytes.len().min(MOST)];
    out.put(to, Message::Refused { refusal, packet })
}

// Is a message of this kind never answered? Refusals and answers are not, so that no two machines refuse each other for ever.
fn is_final(from: Machine, kind: u8) -> bool
    ensures { result ≡ is_final from kind }
{
    from != Machine::Client && matches!(Kind::try_from(kind), Ok(Kind::Refused | Kind::Answer(_)))
}

// A packet goes back to the client, anything else to whoever handed it over.
fn back_to(from: Machine, kind: u8) -> Machine
    ensures { result ≡ back_to from kind }
{
    if kind == u8::from(Kind::Packet) {
        Machine::Client
    } else {
        from
    }
}

fn is_lost(fault: Fault) -> bool
    ensures { result ≡ is_lost fault }
{
    fault == Fault::UnknownPlace
}

// The bytes go back, but for what is never answered, and what came for an unknown place, which is as if lost.
pub fn refuse(from: Machine, fault: Fault, bytes: &[u8], out: &mut Post) -> Result<(), Error>
    ensures { Sends (refusal from fault bytes.now) result (mails_of out.old) (mails_of out.new) }
{
    let kind = kind(bytes);
    if is_lost(fault) || is_final(from, kind) {
        return Ok(());
    }
    send_back(back_to(from, kind), Refusal::For(fault), bytes, out)
}

// What stopped a step: a fault is answered, want of memory is the caller's to see.
pub fn refuse_for(from: Machine, error: Error, bytes: &[u8], out: &mut Post) -> Result<(), Error>
    ensures { Stops from bytes.now error result (mails_of out.old) (mails_of out.new) }
{
    match error {
        Error::Of(fault) => refuse(from, fault, bytes, out),
        Error::Memory => Err(Error::Memory),
    }
}
