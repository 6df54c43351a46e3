//! What an index is, as bytes.

ghost use Rattle.std.specs.Prelude.{◌≡◌, ◌<◌, ◌≤◌, ◌^◌, ◌++◌, All, IfOk, IsOkUnless, OnOk, length};
ghost use Rattle.qm_store.specs.Manifest.{IsKeptSegment, IsManifest, facts_of, manifest_spelled, norms_bytes, segment_bytes, segments_bytes};

use crate::byte_parts::{push_bytes, push_small};
use crate::field_bytes::push_schema;
use crate::head::push_head;
use crate::kept_segment::KeptSegment;
use crate::numbers::push_number;
use crate::sealed::push_digest;
use crate::store_error::StoreError;
use crate::weight_bytes::push_weights;
use crate::words::push_word;
use qm_postings::{Bm25StatisticsProvider, Searcher};
use std::alloc::{AllocError, Global};

/// The first bytes of each manifest.
pub(crate) const KIND: &[u8] = b"birchman";

/// What an index is, as the bytes of a file: what a searcher says of terms and lengths, how many postings a block has in a
/// segment that is added, which segments there are, and a note of the application's own. The searcher's own segments are
/// not looked at. Costs a step for each weight, each segment, and each byte of a note, and the bytes themselves.
///
/// Refused for want of memory alone.
pub fn manifest_bytes(
    alloc: Global,
    searcher: &Searcher,
    block_len: u32,
    segments: &[KeptSegment],
    note: &[u8],
) -> Result<Vec<u8>, StoreError>
    ensures spelled { IfOk result (λ v. v.items ≡ manifest_spelled (facts_of searcher.now block_len segments.now note.now)) }
    ensures whole { OnOk result (IsManifest (facts_of searcher.now block_len segments.now note.now)) }
    ensures refused { IsOkUnless result StoreError.Memory }
{
    let mut out = Vec::new(alloc);
    push_head(&mut out, KIND)?;
    push_small(&mut out, block_len)?;
    push_schema(&mut out, searcher.schema())?;
    push_word(&mut out, searcher.default_weight())?;
    push_norms(&mut out, searcher.norms())?;
    push_weights(&mut out, searcher.weights())?;
    push_segments(&mut out, segments)?;
    push_bytes(&mut out, note)?;
    push_digest(&mut out, 0, 0)?;
    Ok(out)
}

// Adds the norm of each length id.
#[tactic(auto, unfolding(crate::specs::Manifest::norms_bytes))]
fn push_norms(out: &mut Vec<u8>, norms: &[u32; 256]) -> Result<(), AllocError>
    ensures added { OnOk result (out.new.items ≡ out.old.items ++ norms_bytes norms.now) }
    ensures norms { All (λ n. n ≤ u32.MAX) norms.now }
    ensures count { length norms.now ≡ 256 }
{
    // those before it are there
    for norm in norms {
        push_small(out, *norm)?;
    }
    Ok(())
}

// Adds how many segments there are, and of each the numbers of its files, and how many documents are deleted.
#[tactic(auto, unfolding(crate::specs::Manifest::segments_bytes))]
fn push_segments(out: &mut Vec<u8>, segments: &[KeptSegment]) -> Result<(), AllocError>
    ensures added { OnOk result (out.new.items ≡ out.old.items ++ segments_bytes segments.now) }
    ensures segments { OnOk result (All IsKeptSegment segments.now) }
    ensures few { length segments.now < 128 ^ 9 }
{
    push_number(out, segments.len() as u64)?;
    // those before it are there
    for segment in segments {
        push_segment(out, segment)?;
    }
    Ok(())
}

fn push_segment(out: &mut Vec<u8>, segment: &KeptSegment) -> Result<(), AllocError>
    ensures added { OnOk result (out.new.items ≡ out.old.items ++ segment_bytes segment.now) }
    ensures kept { OnOk result (IsKeptSegment segment.now) }
{
    push_word(out, segment.key)?;
    push_word(out, segment.deletions)?;
    push_small(out, segment.deleted)?;
    Ok(())
}
