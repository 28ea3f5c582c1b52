// The group that a CIF file gives.
ghost use Rattle.std.specs.Prelude.{◌≡◌, ◌≢◌, ◌≤◌, ℕ, List, Err, IfErr, IfOk, OnOk, Some, length};
ghost use Rattle.std.specs.Io.KnownBytes.{IsAtEnd};
ghost use Rattle.devices.specs.Transfers.{ReadsWithin};
ghost use Rattle.requests.specs.declared.request.Format.TheVariants.{Cif};
ghost use Rattle.requests.specs.Causes.{IsReadWhole, IsSourceObstacle};
ghost use Rattle.requests.specs.Inputs.{IsGroupOfInput};

use crate::obstacle::Obstacle;
use crate::refusal::Refusal;
use cif_symops::{MOST_BYTES, read_cif};
use closure::Group;
use devices::{Input, Source, read_all};
use std::alloc::Global;

/// Reads a source to its end: the group that its CIF file lists. The file is held whole.
pub(crate) fn group_of_file<S: Source>(alloc: Global, source: &mut S) -> Result<Group, Obstacle>
    ensures group { IfOk result (λ group. (input : List ℕ) →
        S.left source.old ≡ Some input → IsGroupOfInput Cif input group) }
    ensures obstacle { IfErr result
        (IsSourceObstacle Cif (S.left source.old) (S.faults source.old) (S.faults source.new)) }
    ensures unfailed { OnOk result (S.faults source.new ≡ S.faults source.old) }
    ensures steady { S.NeverFails source.old → result ≢ Err Obstacle.ReadFault }
    ensures whole { IsReadWhole result → IsAtEnd (S.left source.new) }
    ensures within { ReadsWithin (S.left source.old) (S.left source.new) 16777217 }
{
    let file = read_file(alloc, source)?;
    let listed = read_cif(alloc, &file)?;
    Ok(Group::make(alloc, listed)?)
}

/// Reads a source to its end: all its bytes, which are no more than a CIF file may have.
fn read_file<S: Source>(alloc: Global, source: &mut S) -> Result<Vec<u8>, Obstacle>
    ensures file { IfOk result (λ file. (input : List ℕ) →
        S.left source.old ≡ Some input → input ≡ file.items) }
    ensures short { IfOk result (λ file. length file.items ≤ 16777216) }
    ensures obstacle { IfErr result
        (IsSourceObstacle Cif (S.left source.old) (S.faults source.old) (S.faults source.new)) }
    ensures unfailed { OnOk result (S.faults source.new ≡ S.faults source.old) }
    ensures steady { S.NeverFails source.old → result ≢ Err Obstacle.ReadFault }
    ensures whole { IsReadWhole result → IsAtEnd (S.left source.new) }
    ensures within { ReadsWithin (S.left source.old) (S.left source.new) 16777217 }
{
    match read_all(alloc, source, MOST_BYTES)? {
        Input::Whole(file) => Ok(file),
        Input::TooLong => Err(Obstacle::Refused(Refusal::TooLong)),
    }
}
