// The end of a message: nothing may be behind it.
ghost use Rattle.std.specs.Prelude.{◌≡◌, ◌==◌, cond, length, Ok, Err};
ghost use Rattle.fault.specs.declared.Fault.TheVariants.{Malformed};
ghost use Rattle.wire.specs.Format.{number_in};
ghost use Rattle.wire.specs.Messages.{map_ok};
ghost use Rattle.wire_read.specs.Views.{alone};

use fault::Fault;
use wire_packet::number::Number;

// Is this the end?
pub fn ended(rest: &[u8]) -> Result<(), Fault>
    ensures { result ≡ cond (length rest.now == 0) (Ok tt) (Err Malformed) }
{
    if rest.is_empty() {
        Ok(())
    } else {
        Err(Fault::Malformed)
    }
}

// The number in front, and nothing behind it.
pub fn read_last<T: Number<N>, const N: usize>(bytes: &[u8]) -> Result<T, Fault>
    ensures { map_ok T.number result ≡ alone (number_in T.width bytes.now) }
{
    let (number, rest) = T::split(bytes)?;
    ended(rest)?;
    Ok(number)
}
