// The space groups of the layer types, in the coordinates x + j z, y, z.
ghost use Rattle.std.specs.Prelude.{◌≡◌, ◌^◌, All, IfOk, map};
ghost use Rattle.integers.specs.Size.{IsWithin};
ghost use Rattle.symmetry.specs.Sizes.{IsVectorWithin};
ghost use Rattle.closure.specs.declared.group_error.GroupError.TheVariants.{NoMemory};
ghost use Rattle.closure.specs.Groups.{IsGroupOf};
ghost use Rattle.layer_types.specs.LayerTypes.{IsLayerType};
ghost use Rattle.motions.specs.ListedSizes.{IsListedSmall, IsSmallWithin};
ghost use Rattle.motions.specs.Layers.{planar_of};
ghost use Rattle.motions.specs.Views.{listing_of, motion_of, parts};
ghost use Rattle.report.specs.TypeTexts.{block_of_layer};
ghost use Rattle.sample.specs.SampleGroups.{centrings, sheared_group};
ghost use Rattle.sample.specs.TypeOperations.{IsTypeOperation};
ghost use Rattle.sample.specs.Shears.{sheared};

use crate::counts::NoMemory;
use crate::shear::sheared;
use closure::{Group, GroupError};
use fractions::{Part, UNIT};
use layer_types::LayerType;
use motions::{LayerMotion, Listed, Motion3};
use std::alloc::{AllocError, Global};

/// The space group of a layer type and the translation 0,0,1, in the coordinates x + j z, y, z.
pub(crate) fn sheared_group(
    alloc: Global,
    layer_type: &LayerType,
    j: i64,
) -> Result<Group, NoMemory>
    requires layer_type { IsLayerType layer_type.now.number layer_type.now }
    requires shear { IsWithin 2 j }
    ensures { IfOk result (IsGroupOf (sheared_group j layer_type.now)) }
{
    match Group::make(alloc, listed(alloc, layer_type, j)?) {
        Ok(group) => Ok(group),
        Err(error) => Err(want_of_memory(error)),
    }
}

/// The error of a group within the limits, which is want of memory.
fn want_of_memory(error: GroupError) -> NoMemory
    requires { error ≡ NoMemory }
{
    match error {
        GroupError::NoMemory => AllocError,
        _ => unreachable!(),
    }
}

/// What is listed of it: the operations, and for a centred type the centring vector.
fn listed(alloc: Global, layer_type: &LayerType, j: i64) -> Result<Listed, NoMemory>
    requires layer_type { IsLayerType layer_type.now.number layer_type.now }
    requires shear { IsWithin 2 j }
    ensures is { IfOk result (λ listed. listing_of listed ≡ sheared_group j layer_type.now) }
    ensures small { IfOk result (IsListedSmall 50) }
{
    let ops = operations(alloc, layer_type.ops, j)?;
    let centrings = centrings(alloc, layer_type.centred)?;
    Ok(Listed {
        ops,
        centrings,
        generated: false,
    })
}

/// The operations of a layer in the block form, in the coordinates x + j z, y, z.
fn operations(alloc: Global, ops: &[LayerMotion], j: i64) -> Result<Vec<Motion3>, NoMemory>
    requires ops { All (λ m. IsTypeOperation (planar_of m)) ops.now }
    requires shear { IsWithin 2 j }
    ensures is { IfOk result (λ motions.
        map motion_of motions.items ≡ map (λ m. sheared j (block_of_layer m)) ops.now) }
    ensures small { IfOk result (λ motions.
        All (λ m. IsSmallWithin 50 (motion_of m)) motions.items) }
{
    let mut motions = Vec::new(alloc);
    for m in ops {
        motions.push(operation(m, j))?;
    }
    Ok(motions)
}

/// An operation of a layer in the block form, in the coordinates x + j z, y, z.
fn operation(m: &LayerMotion, j: i64) -> Motion3
    requires m { IsTypeOperation (planar_of m.now) }
    requires shear { IsWithin 2 j }
    ensures is { motion_of result ≡ sheared j (block_of_layer m.now) }
    ensures small { IsSmallWithin 50 (motion_of result) }
{
    let Some(block) = m.triple() else {
        unreachable!()
    };
    sheared(&block, j)
}

/// The centring vectors of a layer type, centred or not.
fn centrings(alloc: Global, centred: bool) -> Result<Vec<[Part; 3]>, NoMemory>
    ensures is { IfOk result (λ vectors. map parts vectors.items ≡ centrings centred) }
    ensures small { IfOk result (λ vectors.
        All (λ v. IsVectorWithin (2 ^ 40) (parts v)) vectors.items) }
{
    let mut vectors = Vec::new(alloc);
    if centred {
        vectors.push([Part(UNIT / 2), Part(UNIT / 2), Part(0)])?;
    }
    Ok(vectors)
}
