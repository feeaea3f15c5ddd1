// The store of sessions on examples: the hour to the tick, places apart, and the limit.
#![tactic(auto)]

use flow::key::{FlowKey, Protocol};
use sessions::key::Key;

// A session of a client, in a place of a bucket.
pub fn session(bucket: u16, place: u32, client: u32) -> Key {
    Key {
        bucket,
        place,
        flow: FlowKey {
            src: client,
            dst: 0xc0a8_0001,
            sport: 40_000,
            dport: 443,
            protocol: Protocol::Udp,
        },
    }
}

#[cfg(test)]
mod tests {
    use super::*;
    use fault::Error;
    use sessions::store::Sessions;
    use std::test::Fail;

    #[test]
    fn to_the_tick(rt: HostRuntime) -> Result<(), Fail> {
        let mut store = Sessions::new(rt.alloc())?;
        let (here, there) = (session(7, 1, 10), session(7, 2, 10));
        store.open(here, 5)?;
        store.open(there, 5)?;
        assert_eq!(rt; store.touch(&there, 100), true);
        assert_eq!(rt; store.count_at(7, 1), 1);
        assert_eq!(rt; store.idle(rt.alloc(), 921_604)?.len(), 0);
        assert_eq!(rt; store.idle(rt.alloc(), 921_605)?.len(), 1);
        assert_eq!(rt; store.is_open(&here), false);
        assert_eq!(rt; store.last_packet(&there), Some(100));
        assert_eq!(rt; store.count_at(7, 1), 0);
        assert_eq!(rt; store.idle(rt.alloc(), 921_699)?.len(), 0);
        assert_eq!(rt; store.close(&there), true);
        assert_eq!(rt; store.close(&there), false);
        assert_eq!(rt; store.len(), 0);
        Ok(())
    }

    #[test]
    fn full(rt: HostRuntime) -> Result<(), Fail> {
        let mut store = Sessions::new(rt.alloc())?;
        for client in 0..65_536u32 {
            store.open(session(3, 1, client), 1)?;
        }
        match store.open(session(3, 1, 65_536), 1) {
            Err(Error::Of(fault)) => assert_eq!(rt; u8::from(fault), 7),
            _ => return Err(Fail::new("one too many is open")),
        }
        assert_eq!(rt; store.open(session(3, 1, 9), 2).is_ok(), true);
        assert_eq!(rt; store.count_at(3, 1), 65_536);
        Ok(())
    }
}
