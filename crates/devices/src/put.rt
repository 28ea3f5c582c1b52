// A whole text to a sink.
ghost use Rattle.std.specs.Prelude.{◌≡◌, ℕ, ◌-◌, ◌≤◌, length, IsOk, None, OnOk, OnErr, Some};
ghost use Rattle.std.specs.Io.KnownBytes.{append_known};
ghost use Rattle.devices.specs.Calls.{Rose};
ghost use Rattle.devices.specs.Transfers.{HoldsFront, Offers};

use crate::traits::{Failed, Sink};

/// Offers all that is left of the text to the sink, again and again, until the sink has taken it all or fails. Where
/// it fails, it has taken a front of the text.
pub fn put_all<K: Sink>(out: &mut K, text: &[u8]) -> Result<(), Failed>
    ensures all { OnOk result (K.held out.new ≡ append_known (K.held out.old) text.now) }
    ensures front { OnErr result (HoldsFront (K.held out.old) (K.held out.new) text.now) }
    ensures unfailed { OnOk result (K.faults out.new ≡ K.faults out.old) }
    ensures failed { OnErr result (Rose (K.faults out.old) (K.faults out.new)) }
    ensures steady { (n : ℕ) → K.Takes out.old n → length text.now ≤ n →
        IsOk result × K.Takes out.new (n - length text.now) }
    ensures offers_all { OnOk result
        (Offers K.IsPut text.now out.old (Some (length text.now)) out.new) }
    ensures offers_front { OnErr result (Offers K.IsPut text.now out.old None out.new) }
{
    let mut taken = 0;
    while taken < text.len() {
        taken += out.put(&text[taken..])?;
    }
    Ok(())
}
