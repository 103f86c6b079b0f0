ghost use Rattle.std.specs.Prelude.{◌≡◌, List, ℕ, []};
ghost use Rattle.zdisk.specs.Disk.{Held};
ghost use Rattle.zdisk.specs.Images.{IsImage, IsMixture};
ghost use Rattle.zdisk.specs.Seeds.{image_of, last_synced};

/// The file as it reads is one of its images, and where nothing was changed since a sync it is the only one.
pub fn one_image()
    ensures own { (held : Held) → IsImage held held.now }
    ensures only { (held : Held) (image : List ℕ) → held.before ≡ [] → IsImage held image → image ≡ held.now }
{}

/// Each seed names one of the images, of what was last synced and what reads give, and a mixture of any two contents: the
/// seed 0 the old one, and 1 the new one.
pub fn seeds_name_images()
    ensures before { (old new : List ℕ) → image_of 0 old new ≡ old }
    ensures after { (old new : List ℕ) → image_of 1 old new ≡ new }
    ensures image { (seed : ℕ) (held : Held) → IsImage held (image_of seed (last_synced held) held.now) }
    ensures mixture { (seed : ℕ) (old new : List ℕ) → IsMixture old new (image_of seed old new) }
{}
