// The header of a saved group.
ghost use Rattle.std.specs.Prelude.{◌≡◌, ◌≤◌, ℕ, IfOk};
ghost use Rattle.text_fields.specs.Reading.{GivesField, first_bytes};
ghost use Rattle.group_text.specs.GroupText.{config_row, header_row};
ghost use Rattle.group_text.specs.Records.{header_of_record};

use dos_world::{Config, Scheme};
use text_fields::{FieldError, read_bytes, read_u32, read_u32_within};

/// What stands in front of a saved group's parts: the digest of its log's file, how many of its
/// entries were used, what the run was given, the rounds run, and how many numbers of threads and
/// of processes were given.
#[derive(Drop)]
pub(crate) struct HeaderRecord {
    pub digest: [u8; 32],
    pub used: u32,
    pub config: Config,
    pub rounds: u32,
    pub threads: u16,
    pub processes: u32,
}

// 32 bytes
fn read_digest(end: usize, bytes: &[u8]) -> Result<([u8; 32], &[u8]), FieldError>
    ensures { GivesField (λ x. (x.0, x.1.now)) result (first_bytes 32 end bytes.now) }
{
    let (front, rest) = read_bytes(32, end, bytes)?;
    let mut digest = [0; 32];
    digest.copy_from_slice(front);
    Ok((digest, rest))
}

// the quantum, the limit of rounds and the frames
fn read_config(end: usize, bytes: &[u8]) -> Result<(Config, &[u8]), FieldError>
    ensures { GivesField (λ x. (x.0, x.1.now)) result (config_row.read end bytes.now) }
{
    let (quantum, rest) = read_u32_within(16, 65_536, end, bytes)?;
    let (rounds, rest) = read_u32_within(1, 1_000_000, end, rest)?;
    let (frames, rest) = read_u32_within(16, 16_384, end, rest)?;
    let config = Config {
        quantum,
        rounds,
        frames,
        scheme: Scheme::Ownership,
    };
    Ok((config, rest))
}

/// The header behind the version.
pub(crate) fn read_header(end: usize, bytes: &[u8]) -> Result<(HeaderRecord, &[u8]), FieldError>
    ensures { GivesField (λ x. (header_of_record x.0, x.1.now)) result
        (header_row.read end bytes.now) }
{
    let (digest, rest) = read_digest(end, bytes)?;
    let (used, rest) = read_u32(end, rest)?;
    let (config, rest) = read_config(end, rest)?;
    let (rounds, rest) = read_u32_within(0, config.rounds, end, rest)?;
    let (threads, rest) = read_u32_within(1, 65_535, end, rest)?;
    let (processes, rest) = read_u32_within(1, 65_535, end, rest)?;
    let header = HeaderRecord {
        digest,
        used,
        config,
        rounds,
        threads: threads as u16,
        processes,
    };
    Ok((header, rest))
}
