//! What an index is, by bytes.

ghost use Rattle.std.specs.Prelude.{◌≡◌, option_map};
ghost use Rattle.qm_store.specs.Manifest.{back_at, body_at, manifest_read, norms_at, segment_at, segments_at, told};
ghost use Rattle.qm_store.specs.Pieces.{Gives, GivesSome};

use crate::byte_parts::{read_bytes, read_small};
use crate::field_bytes::read_schema;
use crate::kept_segment::KeptSegment;
use crate::manifest::Manifest;
use crate::numbers::read_number;
use crate::sealed::read_body;
use crate::store_error::StoreError;
use crate::weight_bytes::read_weights;
use crate::words::read_word;
use crate::written_manifest::KIND;
use qm_schema::Schema;
use std::alloc::Global;

/// How many length ids there are.
const NORMS: usize = 256;

/// What an index is by the bytes of a file, as [`manifest_bytes`](crate::manifest_bytes) made them. What it says may still
/// be no index, such as norms that fall. Costs a step for each byte, and takes no more memory than what is read needs.
///
/// Refused with [`StoreError::OtherFile`] where the bytes are no manifest, with [`StoreError::OtherVersion`] where they
/// are one of another version, with [`StoreError::Damaged`] where they are one that is not whole, or says what can't be,
/// and else for want of memory.
pub fn read_manifest(alloc: Global, bytes: &[u8]) -> Result<Manifest, StoreError>
    ensures { Gives told result (manifest_read bytes.now) }
{
    let body = read_body(KIND, 0, bytes)?;
    let manifest = read_parts(alloc, body)?;
    Ok(manifest)
}

// What the body of a file tells.
fn read_parts(alloc: Global, body: &[u8]) -> Result<Manifest, StoreError>
    ensures { GivesSome told result (body_at body.now) }
{
    let Some((block_len, rest)) = read_small(body) else {
        return Err(StoreError::Damaged);
    };
    let (schema, rest) = read_schema(alloc, rest)?;
    let Some((default_weight, rest)) = read_word(rest) else {
        return Err(StoreError::Damaged);
    };
    let mut norms = [0; NORMS];
    let Some(rest) = read_norms(&mut norms, rest) else {
        return Err(StoreError::Damaged);
    };
    let manifest = read_back(alloc, block_len, schema, default_weight, norms, rest)?;
    Ok(manifest)
}

// What a body tells behind how terms score.
fn read_back(
    alloc: Global,
    block_len: u32,
    schema: Schema,
    default_weight: u64,
    norms: [u32; 256],
    bytes: &[u8],
) -> Result<Manifest, StoreError>
    ensures { GivesSome told result (back_at block_len schema default_weight norms bytes.now) }
{
    let (weights, rest) = read_weights(alloc, bytes)?;
    let (segments, rest) = read_segments(alloc, rest)?;
    let Some((note, rest)) = read_bytes(rest) else {
        return Err(StoreError::Damaged);
    };
    if !rest.is_empty() {
        return Err(StoreError::Damaged);
    }
    let note = Vec::from_slice(alloc, note)?;
    Ok(Manifest {
        schema,
        block_len,
        default_weight,
        norms,
        weights,
        segments,
        note,
    })
}

// Reads the norm of each length id, and gives the bytes behind them; none where they are not there.
#[tactic(auto, unfolding(crate::specs::Manifest::norms_at))]
fn read_norms<'a>(norms: &mut [u32; 256], bytes: &'a [u8]) -> Option<&'a [u8]>
    ensures { option_map (λ rest. (norms.new, rest.now)) result ≡ norms_at bytes.now }
{
    let mut rest = bytes;
    // what is read and what is left make all
    for place in 0..NORMS {
        let Some((norm, left)) = read_small(rest) else {
            return None;
        };
        norms[place] = norm;
        rest = left;
    }
    Some(rest)
}

// The segments that some bytes tell of, and the bytes behind them.
#[tactic(auto, unfolding(crate::specs::Manifest::segments_at))]
fn read_segments(alloc: Global, bytes: &[u8]) -> Result<(Vec<KeptSegment>, &[u8]), StoreError>
    ensures { GivesSome (λ r. (r.0.items, r.1.now)) result (segments_at bytes.now) }
{
    let Some((count, behind)) = read_number(bytes) else {
        return Err(StoreError::Damaged);
    };
    let mut segments = Vec::new(alloc);
    let mut rest = behind;
    // what is read and what is left make all
    for _ in 0..count {
        let Some((segment, left)) = read_segment(rest) else {
            return Err(StoreError::Damaged);
        };
        segments.push(segment)?;
        rest = left;
    }
    Ok((segments, rest))
}

// The segment that some bytes begin with, and the bytes behind it.
#[tactic(auto, unfolding(crate::specs::Manifest::segment_at))]
fn read_segment(bytes: &[u8]) -> Option<(KeptSegment, &[u8])>
    ensures { option_map (λ r. (r.0, r.1.now)) result ≡ segment_at bytes.now }
{
    let (key, rest) = read_word(bytes)?;
    let (deletions, rest) = read_word(rest)?;
    let (deleted, rest) = read_small(rest)?;
    let segment = KeptSegment {
        key,
        deletions,
        deleted,
    };
    Some((segment, rest))
}
