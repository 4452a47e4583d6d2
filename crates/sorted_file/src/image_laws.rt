//! That images and lists are the same, both ways.
ghost use Rattle.std.specs.Prelude.{◌≡◌, ◌<◌, ℕ, List, All, Ok};
ghost use Rattle.tablet_model.specs.Cell.{Cell};
ghost use Rattle.sorted_file.specs.Contents.{FileContents};
ghost use Rattle.sorted_file.specs.Image.{image_of};
ghost use Rattle.sorted_file.specs.Lists.{IsFileList};
ghost use Rattle.sorted_file.specs.Reading.{image_reading};
ghost use Rattle.sorted_file.specs.declared.version.Version.{Version};

/// The laws of images: each list has exactly one of each version, and what is opened is an image.
pub fn images_are_exact()
    ensures read { (v : Version) (list : List Cell) → IsFileList list →
        image_reading (image_of v list) ≡ Ok (record { version = v; cells = list }) }
    ensures image { (bytes : List ℕ) (file : FileContents) → All (λ b. b < 256) bytes → image_reading bytes ≡ Ok file →
        image_of file.version file.cells ≡ bytes }
    ensures list { (bytes : List ℕ) (file : FileContents) → All (λ b. b < 256) bytes → image_reading bytes ≡ Ok file →
        IsFileList file.cells }
{}
