// Putting a whole piece.
ghost use Rattle.std.specs.Prelude.{◌≡◌};
ghost use Rattle.k_outside.specs.Outside.{HasCause, PutsAll};

use crate::source::{Failed, Sink};

/// Puts a whole piece, of any length. Where a put takes a part, the rest of the piece is the next one. `Failed` comes only
/// from a put that failed, and then a front of the piece was put. No put that failed is tried again.
pub fn put_all<K: Sink>(sink: &mut K, piece: &[u8]) -> Result<(), Failed>
    ensures bytes { PutsAll (K.held sink.old) (K.held sink.new) result piece.now }
    ensures cause { HasCause (K.faults sink.old) (K.faults sink.new) result }
{
    let mut rest = piece;
    while !rest.is_empty() {
        let count = sink.put(rest)?;
        let (_, after) = rest.split_at(count);
        rest = after;
    }
    Ok(())
}
