// What a machine sends, written while there is room.
use edge::post::Posted;
use machine::name::Machine;

// The room that the C interface lends, and how much of it is written.
#[derive(Drop)]
pub struct Writer<'a> {
    out: &'a mut [u8],
    written: usize,
}

fn receiver(to: Machine) -> [u8; 3] {
    match to {
        Machine::Client => [0, 0, 0],
        Machine::Operator => [1, 0, 0],
        Machine::Balancer(number) => {
            let [high, low] = number.to_be_bytes();
            [2, high, low]
        }
        Machine::Server(number) => [3, 0, number],
        Machine::Controller => [4, 0, 0],
    }
}

impl<'a> Writer<'a> {
    pub fn new(out: &'a mut [u8]) -> Writer<'a> {
        Writer { out, written: 0 }
    }

    pub fn written(&self) -> usize {
        self.written
    }

    // The bytes, if there is room for all of them.
    pub fn put(&mut self, bytes: &[u8]) {
        let at = self.written;
        if at > self.out.len() || bytes.len() > self.out.len() - at {
            return;
        }
        let end = at + bytes.len();
        self.out[at..end].copy_from_slice(bytes);
        self.written = end;
    }

    fn put_one(&mut self, to: [u8; 3], bytes: &[u8]) {
        let length = ((bytes.len() & 0xffff_ffff) as u32).to_be_bytes();
        self.put(&to);
        self.put(&length);
        self.put(bytes);
    }

    // The packet of an open session.
    pub fn put_table(&mut self, packet: &[u8]) {
        self.put(&[0, 1]);
        self.put_one([5, 0, 0], packet);
    }

    // How many messages, and each with whom it is for.
    pub fn put_posted(&mut self, posted: &[Posted]) {
        let count = ((posted.len() & 0xffff) as u16).to_be_bytes();
        self.put(&count);
        for mail in posted {
            self.put_one(receiver(mail.to), mail.bytes.as_slice());
        }
    }
}
