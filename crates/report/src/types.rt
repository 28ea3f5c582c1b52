// The texts of the types.
ghost use Rattle.std.specs.Prelude.{◌≡◌, ◌++◌, All, IfOk, OnOk, map, flat_map, string_bytes};
ghost use Rattle.motions.specs.FriezeMotions.{frieze_of};
ghost use Rattle.motions.specs.Layers.{HasHalfPart, planar_of};
ghost use Rattle.report.specs.Texts.{operation_line};
ghost use Rattle.report.specs.TypeNumbers.{IsTypeNumber};
ghost use Rattle.report.specs.TypeTexts.{block_of_layer, block_of_rod, centring_line, frieze_line, IsTypeText};
ghost use Rattle.report.specs.declared.types.Kind.TheVariants.{Layer, Rod, Frieze};

use crate::at::NoMemory;
use crate::lines::write_operation;
use layer_types::layer;
use line_types::{frieze, rod};
use motions::{FriezeMotion, LayerMotion, RodMotion};
use std::alloc::Global;

/// A kind of types that the program can print: layer, rod and frieze group types (International Tables, Volume E).
#[derive(Clone, Copy, PartialEq, Eq, Debug)]
pub enum Kind {
    Layer,
    Rod,
    Frieze,
}

/// The text of a type: its kind, number and symbol, for a centred layer type the centring vector, a line `op` for each
/// operation in the order of the table, and `end`.
///
/// Operations of layer and rod types are coordinate triplets, and those of frieze types have two parts. The number is
/// from 1 to 80 for layer types, to 75 for rod types, and to 7 for frieze types (International Tables, Volume E).
pub fn type_text(alloc: Global, kind: Kind, n: u8) -> Result<Vec<u8>, NoMemory>
    requires { IsTypeNumber kind n }
    ensures { IfOk result (λ text. IsTypeText kind n text.items) }
{
    match kind {
        Kind::Layer => layer_text(alloc, n),
        Kind::Rod => rod_text(alloc, n),
        Kind::Frieze => frieze_text(alloc, n),
    }
}

fn layer_text(alloc: Global, n: u8) -> Result<Vec<u8>, NoMemory>
    requires { IsTypeNumber Layer n }
    ensures { IfOk result (λ text. IsTypeText Layer n text.items) }
{
    let Some(layer_type) = layer(n) else {
        unreachable!()
    };
    let symbol = layer_type.symbol;
    let mut text = format!(in alloc; "layer {n} {symbol}\n")?;
    write_centring(&mut text, layer_type.centred)?;
    write_layer_operations(&mut text, layer_type.ops)?;
    text.push_str("end\n")?;
    Ok(text.into_bytes())
}

fn rod_text(alloc: Global, n: u8) -> Result<Vec<u8>, NoMemory>
    requires { IsTypeNumber Rod n }
    ensures { IfOk result (λ text. IsTypeText Rod n text.items) }
{
    let Some(rod_type) = rod(n) else {
        unreachable!()
    };
    let symbol = rod_type.symbol;
    let mut text = format!(in alloc; "rod {n} {symbol}\n")?;
    write_rod_operations(&mut text, rod_type.ops)?;
    text.push_str("end\n")?;
    Ok(text.into_bytes())
}

fn frieze_text(alloc: Global, n: u8) -> Result<Vec<u8>, NoMemory>
    requires { IsTypeNumber Frieze n }
    ensures { IfOk result (λ text. IsTypeText Frieze n text.items) }
{
    let Some(frieze_type) = frieze(n) else {
        unreachable!()
    };
    let symbol = frieze_type.symbol;
    let mut text = format!(in alloc; "frieze {n} {symbol}\n")?;
    write_frieze_operations(&mut text, frieze_type.ops)?;
    text.push_str("end\n")?;
    Ok(text.into_bytes())
}

// The line of the centring vector, at a type that is centred.
fn write_centring(text: &mut String, centred: bool) -> Result<(), NoMemory>
    ensures { OnOk result (string_bytes text.new ≡ string_bytes text.old ++ centring_line centred) }
{
    if centred {
        text.push_str("centring 1/2,1/2,0\n")?;
    }
    Ok(())
}

// The lines of operations whose translations are whole numbers of parts.
fn write_layer_operations(text: &mut String, ops: &[LayerMotion]) -> Result<(), NoMemory>
    requires { All (λ m. ¬ HasHalfPart m) (map planar_of ops.now) }
    ensures { OnOk result (string_bytes text.new
        ≡ string_bytes text.old ++ flat_map operation_line (map block_of_layer ops.now)) }
{
    for m in ops {
        write_layer_operation(text, m)?;
    }
    Ok(())
}

fn write_layer_operation(text: &mut String, m: &LayerMotion) -> Result<(), NoMemory>
    requires { ¬ HasHalfPart (planar_of m.now) }
    ensures { OnOk result
        (string_bytes text.new ≡ string_bytes text.old ++ operation_line (block_of_layer m.now)) }
{
    let Some(block) = m.triple() else {
        unreachable!()
    };
    write_operation(text, &block)
}

fn write_rod_operations(text: &mut String, ops: &[RodMotion]) -> Result<(), NoMemory>
    ensures { OnOk result (string_bytes text.new
        ≡ string_bytes text.old ++ flat_map operation_line (map block_of_rod ops.now)) }
{
    for m in ops {
        write_operation(text, &m.triple())?;
    }
    Ok(())
}

fn write_frieze_operations(text: &mut String, ops: &[FriezeMotion]) -> Result<(), NoMemory>
    ensures { OnOk result
        (string_bytes text.new ≡ string_bytes text.old
        ++ flat_map frieze_line (map frieze_of ops.now)) }
{
    for m in ops {
        write_frieze_operation(text, m)?;
    }
    Ok(())
}

fn write_frieze_operation(text: &mut String, m: &FriezeMotion) -> Result<(), NoMemory>
    ensures { OnOk result
        (string_bytes text.new ≡ string_bytes text.old ++ frieze_line (frieze_of m.now)) }
{
    let parts = triplets::Frieze(m);
    write!(text, "op {parts}\n")
}
