// The layer types.
ghost use Rattle.std.specs.Prelude.{◌≡◌, ◌<◌, ◌↔◌, ◌⊎◌, IfSome, IsNone};
ghost use Rattle.layer_types.specs.LayerTypes.{IsLayerType};

use crate::type_table::layer_types;
use motions::LayerMotion;

/// A layer type: its number and symbol, taken after International Tables, Volume E, whether its lattice is centred,
/// and its operations modulo the lattice.
///
/// The identity is the first operation, and the others follow with the lexicographically greatest matrix first, read
/// row by row in the block form. Of the translations from 0 to below an edge that differ by the lattice, each
/// operation has the lexicographically first.
#[derive(Clone, Copy, Debug)]
pub struct LayerType {
    pub number: u8,
    pub symbol: &'static str,
    pub centred: bool,
    pub ops: &'static [LayerMotion],
}

/// The layer type of the number n. None comes exactly outside 1 to 80.
pub fn layer(n: u8) -> Option<&'static LayerType>
    ensures none { IsNone result ↔ ((n ≡ 0) ⊎ (80 < n)) }
    ensures exact { IfSome result (λ t. IsLayerType n t.now) }
{
    if n == 0 || n > 80 {
        return None;
    }
    Some(&layer_types()[n as usize - 1])
}
