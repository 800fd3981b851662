//! Which volumes are counted.

use kube_objects::bindings::class_of_volume;
use kube_objects::objects::Volume;

/// Which volumes are counted.
pub(crate) trait Wanted {
    ghost use Rattle.std.specs.Prelude.{◌≡◌, Bool};
    ghost use Rattle.kube_objects.specs.declared.objects.Volume.{Volume as VolumeData};

    ghost test: { Self → VolumeData → Bool };

    /// Whether this volume is one of them.
    fn wants(&self, volume: &Volume) -> bool
        ensures { result ≡ test self.now volume.now };
}

/// Those of a volume mode and a class.
#[derive(Drop)]
pub(crate) struct OfSize<'a> {
    pub block: bool,
    pub class: &'a str,
}

impl<'a> Wanted for OfSize<'a> {
    ghost use Rattle.volume_index.specs.VolumePlaces.{has_size};

    ghost test = { λ s v. has_size s.block s.class.now v };

    fn wants(&self, volume: &Volume) -> bool {
        volume.block == self.block && class_of_volume(volume) == self.class
    }
}

/// Those that refer to a claim.
#[derive(Drop)]
pub(crate) struct OfClaim<'a> {
    pub namespace: &'a str,
    pub name: &'a str,
}

impl<'a> Wanted for OfClaim<'a> {
    ghost use Rattle.volume_index.specs.VolumePlaces.{is_of_claim};

    ghost test = { λ c v. is_of_claim c.namespace.now c.name.now v };

    fn wants(&self, volume: &Volume) -> bool {
        match &volume.claim_ref {
            None => false,
            Some(reference) => {
                reference.namespace.as_str() == self.namespace
                    && reference.name.as_str() == self.name
            }
        }
    }
}
