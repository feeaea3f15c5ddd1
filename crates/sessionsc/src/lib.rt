// The sessions of a server played from a script of bytes, for measuring from another language.
#![tactic(auto)]

ghost use Rattle.std.specs.Prelude.{◌+◌, ◌≤◌};

use fault::Error;
use flow::key::{FlowKey, Protocol};
use sessions::key::Key;
use sessions::store::Sessions;
use std::alloc::Global;
use std::array;

// A step: what is done (1), bucket (2), place (4), both addresses (8), both ports (4), protocol (1), tick (8).
const STEP: usize = 28;

// What is done. Any other number only finds the slot.
enum Action {
    Open,
    IsOpen,
    Touch,
    Close,
    CountAt,
    Idle,
    Slot,
}

impl From<u8> for Action {
    fn from(number: u8) -> Action {
        match number {
            1 => Action::Open,
            2 => Action::IsOpen,
            3 => Action::Touch,
            4 => Action::Close,
            5 => Action::CountAt,
            6 => Action::Idle,
            _ => Action::Slot,
        }
    }
}

// The bytes of a number that begins at a byte of a step.
fn bytes<const N: usize>(step: &[u8; STEP], at: usize) -> [u8; N]
    requires { at + N ≤ 28 }
{
    array::from_fn(|i| step[at + i])
}

fn key_of(step: &[u8; STEP]) -> Key {
    Key {
        bucket: u16::from_be_bytes(bytes(step, 1)),
        place: u32::from_be_bytes(bytes(step, 3)),
        flow: FlowKey {
            src: u32::from_be_bytes(bytes(step, 7)),
            dst: u32::from_be_bytes(bytes(step, 11)),
            sport: u16::from_be_bytes(bytes(step, 15)),
            dport: u16::from_be_bytes(bytes(step, 17)),
            protocol: Protocol::try_from(step[19]).unwrap_or(Protocol::Udp),
        },
    }
}

fn tick_of(step: &[u8; STEP]) -> u64 {
    u64::from_be_bytes(bytes(step, 20))
}

fn opened(answer: Result<(), Error>) -> u8 {
    match answer {
        Ok(()) => 0,
        Err(Error::Of(fault)) => u8::from(fault),
        Err(Error::Memory) => 255,
    }
}

// One step: its answer in a byte.
fn play(store: &mut Sessions, heap: Global, step: &[u8; STEP]) -> u8 {
    let key = key_of(step);
    match Action::from(step[0]) {
        Action::Open => opened(store.open(key, tick_of(step))),
        Action::IsOpen => u8::from(store.is_open(&key)),
        Action::Touch => u8::from(store.touch(&key, tick_of(step))),
        Action::Close => u8::from(store.close(&key)),
        Action::CountAt => (store.count_at(key.bucket, key.place) & 0xff) as u8,
        Action::Idle => store
            .idle(heap, tick_of(step))
            .map_or(255, |names| (names.len() & 0xff) as u8),
        Action::Slot => (key.slot() & 0xff) as u8,
    }
}

// Plays the script on a new store, and writes an answer for each step while there is room; how many steps were played.
#[unsafe(no_mangle)]
pub extern "C" fn play_sessions(heap: Global, script: &[u8], answers: &mut [u8]) -> usize {
    let Ok(mut store) = Sessions::new(heap) else {
        return 0;
    };
    let (steps, _) = script.as_chunks::<STEP>();
    for (step, answer) in steps.iter().zip(answers.iter_mut()) {
        *answer = play(&mut store, heap, step);
    }
    steps.len().min(answers.len())
}
