// From the words to two kernels.
ghost use Rattle.std.specs.Prelude.{◌≡◌, ◌≤◌, ◌⊎◌, ℕ, List, None, Some, IfOk, IfErr, IsErrOf};
ghost use Rattle.std.specs.Prelude.{false, length, map, string_bytes};
ghost use Rattle.dos_io.specs.Outside.{Rose};
ghost use Rattle.dos_world.specs.Lawful.{IsConfig};
ghost use Rattle.dos_words.specs.Canonical.{names_alone};
ghost use Rattle.flat_machine.specs.Opening.{needed};
ghost use Rattle.elf_image.specs.Image.{Image as Parsed};
ghost use Rattle.logged_runs.specs.Opened.{IsOpenedWith};
ghost use Rattle.dos_cmd.specs.Stops.{IsNotOpened};
ghost use Rattle.dos_twin.specs.TwinImages.{AreBothOpened, IsNotRead, twin_config};

use dos_cmd::{load_all, open};
use dos_io::Files;
use dos_texts::Refusal;
use dos_words::{Names, WordsError, read_names};
use dos_world::{Config, Scheme};
use elf_image::Image;
use group_rounds::Kernel;
use std::alloc::Global;

// what both sides run with
fn config() -> Config
    ensures config { result ≡ twin_config }
    ensures range { IsConfig result }
{
    Config {
        quantum: 1000,
        rounds: 100000,
        frames: 4096,
        scheme: Scheme::Ownership,
    }
}

/// The names that the words are.
pub(crate) fn read(alloc: Global, words: &[String]) -> Result<Names, Refusal>
    ensures names { IfOk result (λ names.
        names_alone (map string_bytes words.now) ≡ Some names) }
    ensures count { IfOk result (λ names. (1 ≤ length names) × (length names ≤ 8)) }
    ensures refused { IsErrOf result Refusal.Words
        → names_alone (map string_bytes words.now) ≡ None }
    ensures only { IfErr result (λ why. (why ≡ Refusal.Words) ⊎ (why ≡ Refusal.Memory)) }
{
    match read_names(alloc, words) {
        Ok(names) => Ok(names),
        Err(WordsError::Refused) => Err(Refusal::Words),
        Err(WordsError::Memory) => Err(Refusal::Memory),
    }
}

// two groups of these images
fn open_both(alloc: Global, images: &[Image]) -> Result<(Kernel, Kernel), Refusal>
    requires some { 1 ≤ length images.now }
    requires few { length images.now ≤ 8 }
    ensures opened { IfOk result (λ k. IsOpenedWith k.0 images.now twin_config) }
    ensures second_opened { IfOk result (λ k. IsOpenedWith k.1 images.now twin_config) }
    ensures running { IfOk result (λ k. k.0.failed ≡ false) }
    ensures fresh { IfOk result (λ k. k.0.state.round ≡ 1) }
    ensures second_running { IfOk result (λ k. k.1.failed ≡ false) }
    ensures second_fresh { IfOk result (λ k. k.1.state.round ≡ 1) }
    ensures room { IfOk result (λ k. needed images.now ≤ twin_config.frames) }
    ensures refused { IfErr result (IsNotOpened images.now twin_config) }
{
    let first = open(alloc, images, config())?;
    match open(alloc, images, config()) {
        Ok(second) => Ok((first, second)),
        Err(why) => {
            drop(first);
            Err(why)
        }
    }
}

/// Reads the images of these names, and opens two groups of them.
pub(crate) fn open_named<F: Files>(
    alloc: Global,
    names: &Names,
    files: &mut F,
) -> Result<(Kernel, Kernel), Refusal>
    requires some { 1 ≤ length names.now }
    requires few { length names.now ≤ 8 }
    ensures opened { IfOk result (λ k. AreBothOpened names.now (F.content files.old) k.0 k.1) }
    ensures running { IfOk result (λ k. k.0.failed ≡ false) }
    ensures fresh { IfOk result (λ k. k.0.state.round ≡ 1) }
    ensures second_running { IfOk result (λ k. k.1.failed ≡ false) }
    ensures second_fresh { IfOk result (λ k. k.1.state.round ≡ 1) }
    ensures refused { IfErr result (IsNotRead names.now (F.content files.old)) }
    ensures fault { IsErrOf result Refusal.Files → Rose (F.faults files.old) (F.faults files.new) }
    ensures later { F.faults files.old ≤ F.faults files.new }
    ensures stays { (n : List ℕ) → F.content files.new n ≡ F.content files.old n }
{
    let (images, _digests, contents) = load_all(alloc, files, names)?;
    drop(contents);
    let opened = open_both(alloc, &images);
    drop(images);
    opened
}
