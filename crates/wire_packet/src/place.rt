// The bucket and the place that messages about a place begin with.
ghost use Rattle.std.specs.Prelude.{◌≡◌, [], ◌∷◌};
ghost use Rattle.wire.specs.Format.{four, read_fields};
ghost use Rattle.wire.specs.Formats.{bucket_f, plain_f, reached};
ghost use Rattle.wire_packet.specs.Views.{shown_at};

use crate::number::Number;
use fault::Fault;
use flow::buckets::Buckets;
use wire::message::At;

// A place, and the bytes behind it. Only a server can say whether there is such a place.
pub fn read_at(bytes: &[u8], buckets: Buckets) -> Result<(At, &[u8]), Fault>
    ensures { shown_at result ≡ read_fields reached buckets.count (bucket_f ∷ plain_f four ∷ []) [] bytes.now }
{
    let (bucket, rest) = u16::split(bytes)?;
    if u32::from(bucket) >= buckets.count() {
        return Err(Fault::NoSuch);
    }
    let (place, rest) = u32::split(rest)?;
    Ok((At { bucket, place }, rest))
}
