//! A document of an open segment, and what is built of such documents.
//!
//! Whether a document is deleted stands beside its texts, and in its part where there is one. So a deletion outlives
//! every part.

ghost use Rattle.std.specs.Prelude.{[], ◌≡◌, ◌<◌, ◌≤◌, IfErr, IsOkUnless, OnErr, OnOk, length};
ghost use Rattle.qm_docset.specs.declared.numbers.TheConstants.{TERMINATED};
ghost use Rattle.qm_postings.specs.Segment.{IsGood, document_of, with_document, without};
ghost use Rattle.qm_index.specs.OpenDocuments.{IsBadDraft, IsDocumentRefusal, marked};

use crate::given_document::GivenDocument;
use qm_postings::SegmentBuilder;
use qm_schema::QueryError;
use std::alloc::Global;

/// A document of an open segment: what was given, and whether it was deleted.
#[derive(Drop)]
pub(crate) struct OpenDocument {
    pub(crate) given: GivenDocument,
    pub(crate) is_deleted: bool,
}

/// Adds a document to a segment.
pub(crate) fn add_given(
    alloc: Global,
    builder: &mut SegmentBuilder,
    given: &GivenDocument,
) -> Result<(), QueryError>
    requires few { length builder.old.documents < TERMINATED }
    ensures added { OnOk result (builder.new ≡ with_document builder.old (document_of builder.old.schema given.now)) }
    ensures good { OnOk result (IsGood builder.old.schema given.now) }
    ensures unchanged { OnErr result (builder.new ≡ builder.old) }
    ensures refused { IfErr result (IsDocumentRefusal builder.old given.now) }
{
    let document = given.plain_doc(alloc)?;
    builder.add_document(document)?;
    Ok(())
}

/// The same of one that a segment of this schema takes, so that want of memory alone refuses it.
pub(crate) fn add_good(
    alloc: Global,
    builder: &mut SegmentBuilder,
    given: &GivenDocument,
) -> Result<(), QueryError>
    requires few { length builder.old.documents < TERMINATED }
    requires good { ¬ IsBadDraft builder.old.schema given.now }
    ensures added { OnOk result (builder.new ≡ with_document builder.old (document_of builder.old.schema given.now)) }
    ensures refused { IsOkUnless result QueryError.Memory }
{
    add_given(alloc, builder, given)
}

/// Deletes those of a segment's documents that are marked, of which it has none deleted yet.
pub(crate) fn delete_marked(
    builder: &mut SegmentBuilder,
    documents: &[OpenDocument],
) -> Result<(), QueryError>
    requires all { length builder.old.documents ≡ length documents.now }
    requires few { length documents.now ≤ TERMINATED }
    requires none { builder.old.deleted ≡ [] }
    ensures deleted { OnOk result (builder.new ≡ without (marked documents.now) builder.old) }
    ensures refused { IsOkUnless result QueryError.Memory }
{
    let mut doc = 0;
    // of the documents so far those that are marked are deleted
    for document in documents {
        if document.is_deleted {
            builder.delete(doc)?;
        }
        doc += 1;
    }
    Ok(())
}
