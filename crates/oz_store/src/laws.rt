//! Laws of what the disks of a store stand for.

ghost use Rattle.std.specs.Prelude.{[]};
ghost use Rattle.oz_fields.specs.declared.block.Block.{Block as AnyBlock};
ghost use Rattle.oz_core.specs.Contents.{OpeningBytes};
ghost use Rattle.oz_model.specs.Reach.{IsReached};
ghost use Rattle.oz_namespace.specs.declared.namespace.Namespace.{Namespace as AnyNamespace};
ghost use Rattle.oz_namespace.specs.Namespace.{nothing};
ghost use Rattle.oz_rows.specs.RowMaps.{Rows, row_of};
ghost use Rattle.oz_sound.specs.StandsFor.{StandsFor};
ghost use Rattle.oz_store.specs.Store.{AreWorkedOff, IsInARow, IsStore, empty_store};

/// A row names each block that the namespace reaches for which the rows stand.
pub fn what_is_reached_stands_in_a_row()
    ensures { (all : Rows) (namespace : AnyNamespace) (block : AnyBlock) →
        StandsFor all namespace → IsReached namespace block → IsInARow all block }
{}

/// Where no disk has anything, all of them agree, and nothing is left to be worked off.
pub fn an_empty_store_is_one()
    ensures store { (bytes : OpeningBytes) → IsStore (row_of []) empty_store bytes }
    ensures worked_off { AreWorkedOff (row_of []) nothing }
{
    oz_sound::no_rows_stand_for_nothing();
}
