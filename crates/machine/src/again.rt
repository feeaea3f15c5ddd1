// What is not answered is said again every sixteen ticks. Its age is the number of ticks since it was last said.
ghost use Rattle.std.specs.Prelude.{◌≡◌};
ghost use Rattle.machine.specs.Again.{is_due, aged, StepsAdd};

// Said again after so many ticks.
const AGAIN: u64 = 16;

// Is something of this age to be said again, after so many ticks more?
pub fn is_due(age: u8, ticks: u32) -> bool
    ensures { result ≡ is_due ticks age }
{
    u64::from(age) + u64::from(ticks) >= AGAIN
}

// Its age after so many ticks more.
pub fn aged(age: u8, ticks: u32) -> u8
    ensures { result ≡ aged ticks age }
{
    ((u64::from(age) + u64::from(ticks)) % AGAIN) as u8
}

// An order of many ticks is as many steps of one tick, but for what is said several times in it, which is said once.
pub fn ticks_add()
    ensures { StepsAdd }
{}
