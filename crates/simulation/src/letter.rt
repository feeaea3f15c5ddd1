// What is on its way: bytes from one machine to another.
use crate::event::Event;
use machine::name::Machine;

#[derive(Drop)]
pub struct Letter {
    pub number: u32,
    pub from: Machine,
    pub to: Machine,
    pub bytes: Vec<u8>,
    // How often a packet was forwarded already.
    pub forwarded: u32,
}

impl Letter {
    // Every message between machines names its bucket behind its kind; whoever shows a letter takes bucket 0 for none.
    pub fn bucket(&self) -> Option<u16> {
        let [_, high, low, ..] = self.bytes.as_slice() else {
            return None;
        };
        Some(u16::from_be_bytes([*high, *low]))
    }

    pub fn is_about(&self, bucket: u16) -> bool {
        self.bucket() == Some(bucket)
    }

    // What is seen where it is lost.
    pub(crate) fn lost(&self) -> Event {
        Event::Lost {
            number: self.number,
            bucket: self.bucket().unwrap_or(0),
        }
    }
}
