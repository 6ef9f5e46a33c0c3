//! What the parts of all rows show.

ghost use Rattle.std.specs.Prelude.{◌≡◌, List};
ghost use Rattle.oz_cache.specs.Cache.{CacheView};
ghost use Rattle.oz_namespace.specs.declared.namespace.Namespace.{Namespace as AnyNamespace};
ghost use Rattle.oz_rows.specs.RowMaps.{Rows as AnyRows};
ghost use Rattle.oz_sound.specs.StandsFor.{StandsFor};
ghost use Rattle.oz_loaded.specs.standing.Shown.{namespace_shown};
ghost use Rattle.oz_loaded.specs.standing.Standing.{AreStripesOf};

/// The parts of all rows show the namespace that these stand for.
pub fn parts_show_their_namespace()
    ensures { (all : AnyRows) (parts : List CacheView) (namespace : AnyNamespace) →
        AreStripesOf all parts → StandsFor all namespace → namespace_shown parts ≡ namespace }
{}
