//! Whether two names of volumes and buckets are the same.

ghost use Rattle.std.specs.Prelude.{◌≡◌};
ghost use Rattle.oz_rows.specs.RowMaps.{is_bucket as is_same_bucket};

use oz_fields::Name;

/// Whether the two are the same bucket of the same volume.
pub(crate) fn is_bucket(
    volume: &Name,
    bucket: &Name,
    other_volume: &Name,
    other_bucket: &Name,
) -> bool
    ensures { result ≡ is_same_bucket volume.now bucket.now other_volume.now other_bucket.now }
{
    volume.cmp(other_volume).is_eq() && bucket.cmp(other_bucket).is_eq()
}
