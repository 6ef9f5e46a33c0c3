//! What holds of cells in a list.

ghost use Rattle.std.specs.Prelude.{◌≡◌, List, [], ◌∷◌, ◌++◌, length};
ghost use Rattle.oz_replicas.specs.Cells.{AreInOrder, CellView};

use crate::kept::Kept;
use oz_world::Disk;

/// Cells in order stay so where the next one is put behind them.
pub fn cells_stay_in_order<D: Disk, K: Kept<D>>()
    ensures none { AreInOrder {D = D} {K = K} [] }
    ensures pushed { (cells : List (CellView D K)) (cell : CellView D K) → AreInOrder cells
        → cell.node.id ≡ length cells → AreInOrder (cells ++ cell ∷ []) }
{}
