//! Callers of a phrase: what it keeps beside its list is known after any call.

ghost use Rattle.std.specs.Prelude.{◌≡◌, ◌+◌, ◌≤◌, All, IfOk, IfSome, map, min, true, vec_capacity, vec_len};
ghost use Rattle.qm_docset.specs.Entry.{head_document, head_positions};
ghost use Rattle.qm_phrase.specs.Phrase.{count_at, shifts_of};
ghost use Rattle.qm_phrase.specs.PhraseScorer.{IsOnPhrase, IsPhrase, is_weighted, phrase_starts};
ghost use Rattle.qm_phrase.specs.PostingsWithOffset.{offset_of, inner_postings};
ghost use Rattle.qm_postings.specs.FieldNorms.{norm_ids};
ghost use Rattle.qm_postings.specs.Positions.{shifted};
ghost use Rattle.qm_term.specs.TermScorer.{AreCovered};

use qm_combine::Scorer;
use qm_docset::{COLLECT_BLOCK_BUFFER_LEN, DocId, DocSet, Score, TERMINATED};
use qm_phrase::{PhraseScorer, PostingsWithOffset};
use qm_postings::{FieldNormReader, Postings};
use qm_schema::QueryError;
use qm_term::Bm25Weight;
use std::alloc::Global;

/// The first document of a phrase with its score and with the number of times that the phrase stands
/// there, or none where it stands nowhere.
pub fn scored_phrase<'a, P: Postings>(
    alloc: Global,
    terms: Vec<(usize, P)>,
    weight: Bm25Weight,
    length_ids: FieldNormReader<'a>,
    slop: u32,
) -> Result<Option<(DocId, Score, u32)>, QueryError>
    requires two { 2 ≤ vec_len terms }
    requires valid { All (λ pair. P.valid pair.1) terms.items }
    requires offsets { All (λ pair. pair.0 ≤ 4294967295) terms.items }
    requires covered { All (λ pair. AreCovered (norm_ids length_ids) (P.entries pair.1)) terms.items }
    ensures { IfOk result (λ found. IfSome found
        (λ r. r.2 ≡ count_at slop (shifts_of (map (λ p. p.0) terms.items)) (map (λ p. P.entries p.1) terms.items) r.0)) }
{
    let mut scorer = PhraseScorer::new(alloc, terms, Some(weight), length_ids, slop)?;
    let doc = scorer.doc();
    if doc < TERMINATED {
        let score = scorer.score();
        return Ok(Some((doc, score, scorer.phrase_count())));
    }
    Ok(None)
}

/// The document behind the next buffer, with the number of times that the phrase stands there, or none
/// where no document is behind it.
pub fn count_behind_buffer<P: Postings>(
    scorer: &mut PhraseScorer<'_, P>,
    buffer: &mut [DocId; COLLECT_BLOCK_BUFFER_LEN],
) -> Option<(DocId, u32)>
    requires valid { IsPhrase P.DocSet scorer.old }
    requires placed { IsOnPhrase P.DocSet scorer.old }
    requires weighted { is_weighted P.DocSet scorer.old ≡ true }
    ensures { IfSome result (λ r. r.1 ≡ min 4294967295 (phrase_starts P.DocSet scorer.old r.0)) }
{
    scorer.fill_buffer(buffer);
    let doc = scorer.doc();
    if doc < TERMINATED {
        return Some((doc, scorer.phrase_count()));
    }
    None
}

/// The positions of the document behind the next buffer, each plus the offset that the postings were
/// given, or none where no document is behind it. Asks that no position plus the offset is too large,
/// and that there is room for the positions.
pub fn positions_behind_buffer<P: Postings>(
    postings: &mut PostingsWithOffset<P>,
    buffer: &mut [DocId; COLLECT_BLOCK_BUFFER_LEN],
    positions: &mut Vec<u32>,
) -> Option<DocId>
    requires valid { P.valid (inner_postings postings.old) }
    requires placed { P.placed (inner_postings postings.old) }
    requires sums { All (λ e. All (λ p. p + offset_of postings.old ≤ 4294967295) e.positions) (P.entries (inner_postings postings.old)) }
    requires room { (P.limits (inner_postings postings.old)).room ≤ vec_capacity positions.old }
    ensures { let here = head_positions (P.entries (inner_postings postings.new)) in
        IfSome result (λ _. positions.new.items ≡ shifted (offset_of postings.old) here) }
{
    postings.fill_buffer(buffer);
    let doc = postings.doc();
    if doc < TERMINATED {
        postings.positions(positions);
        return Some(doc);
    }
    None
}
