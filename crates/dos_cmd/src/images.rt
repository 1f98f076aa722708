// The images of a call, read from their files.
ghost use Rattle.std.specs.Prelude.{◌≡◌, ◌≢◌, ◌≤◌, ◌<◌, ◌⊎◌, ℕ, List, map, length, IfOk, IfErr};
ghost use Rattle.std.specs.Prelude.{IfSome, IsErrOf, OnOk, [], ◌∷◌, ◌++◌};
ghost use Rattle.dos_io.specs.FileCalls.{getting};
ghost use Rattle.dos_io.specs.Outside.{Rose};
ghost use Rattle.sha2.specs.Sha256.{sha256};
ghost use Rattle.log_text.specs.Bytes.{AreDigests, FitsDigest};
ghost use Rattle.dos_cmd.specs.Asking.{Asks, IsOfImage, files_named};
ghost use Rattle.dos_cmd.specs.Judging.{verdict, images_from, contents_of, digests_of, OfFiles};
ghost use Rattle.dos_cmd.specs.Judging.{IsNextContent, IsNextImage};
ghost use Rattle.debug_connection.specs.Keeping.{texts_of};

use dos_io::{FileError, Files};
use dos_texts::Refusal;
use dos_words::Names;
use elf_image::{Image, ImageError, read_image};
use log_files::digest_of;
use log_text::Digests;
use std::alloc::Global;

/// The longest file that is read.
const LIMIT: u64 = 4194304;

/// Why a file is refused that isn't read as an image. Want of memory refuses no image.
fn refusal_of(image: u32, error: ImageError) -> Refusal
    ensures { ((error ≡ ImageError.Memory) × (result ≡ Refusal.Memory))
        ⊎ ((error ≢ ImageError.Memory) × (result ≡ Refusal.Image image error)) }
{
    if error == ImageError::Memory {
        Refusal::Memory
    } else {
        Refusal::Image(image, error)
    }
}

/// Reads the file of a name as the image of this number; beside it the file's digest and its bytes.
pub(crate) fn load<F: Files>(
    alloc: Global,
    files: &mut F,
    image: u32,
    name: &str,
) -> Result<(Image, [u8; 32], Vec<u8>), Refusal>
    ensures accepted { IfOk result (λ x. IfSome (F.content files.old name.now)
        (λ file. verdict image file ≡ Ok x.0)) }
    ensures digest { IfOk result (λ x. IfSome (F.content files.old name.now)
        (λ file. x.1 ≡ sha256 file)) }
    ensures fits { IfOk result (λ x. FitsDigest x.1) }
    ensures content { IfOk result (λ x. IfSome (F.content files.old name.now)
        (λ file. x.2.items ≡ file)) }
    ensures refused { IfErr result (λ why. OfFiles why (λ why. IfSome
        (F.content files.old name.now) (λ file. verdict image file ≡ Err why))) }
    ensures numbered { IfErr result (λ why. OfFiles why (IsOfImage image)) }
    ensures fault { IsErrOf result Refusal.Files → Rose (F.faults files.old) (F.faults files.new) }
    ensures asked { F.asked files.new ≡ F.asked files.old ++ getting name.now ∷ [] }
    ensures later { F.faults files.old ≤ F.faults files.new }
    ensures stays { (n : List ℕ) → F.content files.new n ≡ F.content files.old n }
    ensures tells { F.tells files.new ≡ F.tells files.old }
{
    let bytes = match files.get(name, LIMIT) {
        Ok(bytes) => bytes,
        Err(FileError::TooLong) => return Err(Refusal::TooLong(image)),
        Err(FileError::Fault) => return Err(Refusal::Files),
        Err(FileError::Memory) => return Err(Refusal::Memory),
    };
    match read_image(alloc, &bytes) {
        Ok(parsed) => {
            let digest = digest_of(&bytes);
            Ok((parsed, digest, bytes))
        }
        Err(error) => Err(refusal_of(image, error)),
    }
}

// Reads the file of a name as the image of this number. It goes behind the images before it, the
// file's digest behind theirs, and its bytes behind those of the files before it.
fn load_next<F: Files>(
    alloc: Global,
    files: &mut F,
    image: u32,
    name: &str,
    images: &mut Vec<Image>,
    digests: &mut Digests,
    contents: &mut Vec<Vec<u8>>,
) -> Result<(), Refusal>
    requires { length digests.old < 8 }
    ensures accepted { OnOk result (IsNextImage image (F.content files.old name.now)
        images.old.items images.new.items digests.old digests.new) }
    ensures kept { OnOk result (IsNextContent (F.content files.old name.now)
        (texts_of contents.old.items) (texts_of contents.new.items)) }
    ensures refused { IfErr result (λ why. OfFiles why (λ why. IfSome
        (F.content files.old name.now) (λ file. verdict image file ≡ Err why))) }
    ensures numbered { IfErr result (λ why. OfFiles why (IsOfImage image)) }
    ensures fault { IsErrOf result Refusal.Files → Rose (F.faults files.old) (F.faults files.new) }
    ensures asked { F.asked files.new ≡ F.asked files.old ++ getting name.now ∷ [] }
    ensures later { F.faults files.old ≤ F.faults files.new }
    ensures stays { (n : List ℕ) → F.content files.new n ≡ F.content files.old n }
    ensures tells { F.tells files.new ≡ F.tells files.old }
{
    let (parsed, digest, bytes) = load(alloc, files, image, name)?;
    images.push(parsed)?;
    contents.push(bytes)?;
    digests.push(digest);
    Ok(())
}

/// Reads the files of these names as images, one after another; beside them the files' digests and
/// their bytes.
pub fn load_all<F: Files>(
    alloc: Global,
    files: &mut F,
    names: &Names,
) -> Result<(Vec<Image>, Digests, Vec<Vec<u8>>), Refusal>
    requires { length names.now ≤ 8 }
    ensures accepted { IfOk result (λ x. IfSome
        (images_from 1 (map (F.content files.old) names.now)) (λ j. j ≡ Ok x.0.items)) }
    ensures digests { IfOk result (λ x. IfSome
        (digests_of (map (F.content files.old) names.now)) (λ digests. x.1 ≡ digests)) }
    ensures contents { IfOk result (λ x. IfSome
        (contents_of (map (F.content files.old) names.now))
        (λ contents. texts_of x.2.items ≡ contents)) }
    ensures count { IfOk result (λ x. length x.0.items ≡ length names.now) }
    ensures digest_count { IfOk result (λ x. length x.1 ≡ length names.now) }
    ensures are_digests { IfOk result (λ x. AreDigests x.1) }
    ensures refused { IfErr result (λ why. OfFiles why (λ why. IfSome
        (images_from 1 (map (F.content files.old) names.now)) (λ j. j ≡ Err why))) }
    ensures fault { IsErrOf result Refusal.Files → Rose (F.faults files.old) (F.faults files.new) }
    ensures asked { Asks (files_named [] names.now []) result (F.asked files.old)
        (F.asked files.new) }
    ensures later { F.faults files.old ≤ F.faults files.new }
    ensures stays { (n : List ℕ) → F.content files.new n ≡ F.content files.old n }
    ensures tells { F.tells files.new ≡ F.tells files.old }
{
    let mut images = Vec::new(alloc);
    let mut digests = Digests::new();
    let mut contents = Vec::new(alloc);
    for index in 0..names.len() {
        let number = index as u32 + 1;
        load_next(
            alloc,
            files,
            number,
            names.at(index),
            &mut images,
            &mut digests,
            &mut contents,
        )?;
    }
    Ok((images, digests, contents))
}
