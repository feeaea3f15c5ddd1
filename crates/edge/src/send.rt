// What a step sends, as bytes.
ghost use Rattle.std.specs.Prelude.{◌≡◌, [], ◌∷◌, map};
ghost use Rattle.edge.specs.Posts.{mails_of, Sends};
ghost use Rattle.edge.specs.Admission.{mail_in};

use crate::post::Post;
use fault::{Error, Fault, Refusal};
use machine::sent::{Note, Sent};
use wire::message::Message;

// One message, to whom it is for.
pub fn send(sent: Sent, out: &mut Post) -> Result<(), Error>
    ensures { Sends (mail_in sent ∷ []) result (mails_of out.old) (mails_of out.new) }
{
    match sent.note {
        Note::Say(control) => out.put(sent.to, Message::Control(control)),
        Note::Answer(control) => out.put(sent.to, Message::Answer(control)),
        Note::PutOff(bucket) => out.put(
            sent.to,
            Message::Refused {
                refusal: Refusal::For(Fault::ChainFull),
                packet: &bucket.to_be_bytes(),
            },
        ),
    }
}

// All that a step sends, in order, or nothing of it where memory is short.
pub fn send_all(all: &[Sent], out: &mut Post) -> Result<(), Error>
    ensures { Sends (map mail_in all.now) result (mails_of out.old) (mails_of out.new) }
{
    let start = out.len();
    for &sent in all {
        if let Err(short) = send(sent, out) {
            out.truncate(start);
            return Err(short);
        }
    }
    Ok(())
}
