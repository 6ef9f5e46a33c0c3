//! What one request sees of a namespace.

ghost use Rattle.std.specs.Prelude.{◌≡◌, ◌<◌, IfOk, option_copied};
ghost use Rattle.oz_names.specs.declared.limits.TheConstants.{MOST_NUMBERS};
ghost use Rattle.oz_model.specs.Buckets.{bucket_in, buckets_in, found_in};
ghost use Rattle.oz_model.specs.Buckets.{with_bucket as bucket_put, with_number_drawn as number_drawn};
ghost use Rattle.oz_model.specs.Scope.{scope_of, volumes_with, with_scope};

use oz_fields::{Name, OutOfMemory, TryClone};
use oz_names::stripe_of;
use oz_namespace::{Bucket, NameMap, Namespace};
use std::alloc::Global;

/// What one request sees of a namespace, and all that it may change there.
#[derive(Drop)]
pub struct Scope {
    /// The buckets of its volume, None where there is no such volume.
    pub buckets: Option<NameMap<Bucket>>,
    /// How many numbers were drawn in the volume's stripe.
    pub drawn: u64,
}

impl Scope {
    /// A copy of what a request on this volume sees.
    pub fn of(alloc: Global, namespace: &Namespace, volume: &Name) -> Result<Scope, OutOfMemory>
        ensures { IfOk result (λ scope. scope ≡ scope_of namespace.now volume.now) }
    {
        let buckets = match namespace.volumes.get(volume) {
            Some(buckets) => Some(buckets.try_clone(alloc)?),
            None => None,
        };
        let stripe = stripe_of(volume.bytes());
        Ok(Scope {
            buckets,
            drawn: namespace.stripes[stripe as usize],
        })
    }

    pub(crate) fn bucket(&self, name: &Name) -> Option<&Bucket>
        ensures { option_copied result ≡ found_in self.now name.now }
    {
        match &self.buckets {
            Some(buckets) => buckets.get(name),
            None => None,
        }
    }

    /// A copy of a bucket, an empty one where there is no such bucket.
    pub(crate) fn bucket_copied(&self, alloc: Global, name: &Name) -> Result<Bucket, OutOfMemory>
        ensures { IfOk result (λ bucket. bucket ≡ bucket_in self.now name.now) }
    {
        match self.bucket(name) {
            Some(bucket) => bucket.try_clone(alloc),
            None => Ok(Bucket::new(alloc)),
        }
    }

    /// The scope in which the volume has this bucket under this name.
    pub(crate) fn with_bucket(
        self,
        alloc: Global,
        name: &Name,
        bucket: Bucket,
    ) -> Result<Scope, OutOfMemory>
        ensures { IfOk result (λ scope. scope ≡ bucket_put self name.now bucket) }
    {
        let drawn = self.drawn;
        let mut buckets = buckets_or_none(alloc, self.buckets);
        buckets.insert(alloc, name.try_clone(alloc)?, bucket)?;
        Ok(Scope {
            buckets: Some(buckets),
            drawn,
        })
    }

    pub(crate) fn with_number_drawn(self) -> Scope
        requires { self.drawn < MOST_NUMBERS }
        ensures { result ≡ number_drawn self }
    {
        Scope {
            drawn: self.drawn + 1,
            buckets: self.buckets,
        }
    }
}

/// The buckets of a volume, none where there is no such volume.
pub(crate) fn buckets_or_none(alloc: Global, buckets: Option<NameMap<Bucket>>) -> NameMap<Bucket>
    ensures { result ≡ buckets_in buckets }
{
    match buckets {
        Some(buckets) => buckets,
        None => NameMap::new(alloc),
    }
}

/// A copy of the namespace in which a request on this volume would see this.
pub(crate) fn put_back(
    alloc: Global,
    namespace: &Namespace,
    volume: &Name,
    scope: Scope,
) -> Result<Namespace, OutOfMemory>
    ensures { IfOk result (λ left. left ≡ with_scope namespace.now volume.now scope) }
{
    let volumes = namespace.volumes.try_clone(alloc)?;
    let volumes = volume_put(alloc, volumes, volume, scope.buckets)?;
    let mut stripes = namespace.stripes;
    stripes[stripe_of(volume.bytes()) as usize] = scope.drawn;
    Ok(Namespace { volumes, stripes })
}

fn volume_put(
    alloc: Global,
    volumes: NameMap<NameMap<Bucket>>,
    volume: &Name,
    buckets: Option<NameMap<Bucket>>,
) -> Result<NameMap<NameMap<Bucket>>, OutOfMemory>
    ensures { IfOk result (λ left. left ≡ volumes_with volumes volume.now buckets) }
{
    let mut left = volumes;
    match buckets {
        Some(buckets) => {
            left.insert(alloc, volume.try_clone(alloc)?, buckets)?;
            Ok(left)
        }
        None => {
            left.remove(volume);
            Ok(left)
        }
    }
}
