//! A namespace out of sixteen parts.

ghost use Rattle.std.specs.Prelude.{◌≡◌, map, slice_get, IfOk};
ghost use Rattle.oz_namespace.specs.declared.namespace.Namespace.{Namespace as AnyNamespace};
ghost use Rattle.oz_namespace.specs.Namespace.{sixteen};
ghost use Rattle.oz_rows.specs.RowMaps.{Rows as AnyRows};
ghost use Rattle.oz_sound.specs.StandsFor.{StandsFor};
ghost use Rattle.oz_loaded.specs.standing.Standing.{AreStripesOf, VolumesAre, drawn_at};

use crate::standing::volumes::put_volumes;
use oz_cache::Cached;
use oz_fields::OutOfMemory;
use oz_namespace::{Bucket, NameMap, Namespace};
use oz_rows::{Row, RowKey};
use std::alloc::Global;

/// The namespace that rows stand for, of their tables in sixteen parts. Where they stand for none it is some namespace.
/// Names, blocks and pieces are copied. Each row is found once, by a search and steps from key to key, and put into its
/// map by a search; those that are kept for snapshots are passed over once more for each live snapshot of their bucket.
pub fn namespace_of(alloc: Global, parts: &[Cached]) -> Result<Namespace, OutOfMemory>
    ensures { IfOk result (λ made. (all : AnyRows) (namespace : AnyNamespace) →
        AreStripesOf all parts.now → StandsFor all namespace → made ≡ namespace) }
{
    let volumes = volumes_of(alloc, parts)?;
    Ok(Namespace {
        volumes,
        stripes: all_drawn(parts),
    })
}

fn volumes_of(alloc: Global, parts: &[Cached]) -> Result<NameMap<NameMap<Bucket>>, OutOfMemory>
    ensures { IfOk result (λ made. (all : AnyRows) → AreStripesOf all parts.now → VolumesAre all made) }
{
    let mut made = NameMap::new(alloc);
    for part in parts {
        put_volumes(alloc, part.durable(), &mut made)?;
    }
    Ok(made)
}

/// How many numbers were drawn in each stripe.
fn all_drawn(parts: &[Cached]) -> [u64; 16]
    ensures { result ≡ map (λ stripe. drawn_at stripe (slice_get parts.now stripe)) sixteen }
{
    [
        drawn(parts, 0),
        drawn(parts, 1),
        drawn(parts, 2),
        drawn(parts, 3),
        drawn(parts, 4),
        drawn(parts, 5),
        drawn(parts, 6),
        drawn(parts, 7),
        drawn(parts, 8),
        drawn(parts, 9),
        drawn(parts, 10),
        drawn(parts, 11),
        drawn(parts, 12),
        drawn(parts, 13),
        drawn(parts, 14),
        drawn(parts, 15),
    ]
}

fn drawn(parts: &[Cached], stripe: u8) -> u64
    ensures { result ≡ drawn_at stripe (slice_get parts.now stripe) }
{
    let Some(part) = parts.get(usize::from(stripe)) else {
        return 0;
    };
    match part.durable().get(&RowKey::Stripe { stripe }) {
        Some(Row::Stripe { number }) => *number,
        _ => 0,
    }
}
