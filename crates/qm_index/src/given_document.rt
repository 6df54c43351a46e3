//! A document as it is handed to an index.
//!
//! Texts come first and terms behind them, since a term says its places itself.

ghost use Rattle.std.specs.Prelude.{◌≡◌, ◌∷◌, ◌++◌, [], IfOk, IsOkUnless, OnErr, OnOk};
ghost use Rattle.qm_index.specs.Texts.{texts_draft};

use qm_postings::PlainDoc;
use qm_schema::{Field, QueryError, Term};
use std::alloc::Global;
use std::marker::Model;

/// A term that a document was given, with its positions.
#[derive(Debug, Drop)]
struct GivenTerm {
    term: Term,
    positions: Vec<u32>,
}

impl Model for GivenTerm {
    ghost use Rattle.qm_postings.specs.Document.{Given, given_code};

    ghost Value = { Given };

    ghost coded = { given_code };

    ghost view = { λ g. record { term = g.term; positions = g.positions.items } };
}

/// A document as it is handed to an index: the texts of its fields, and behind them terms with their positions and
/// length ids of fields, as the caller says. So a term may be any bytes, positions may leave gaps, and a length need not
/// be a number of words.
///
/// Contracts see it as they see a [`PlainDoc`]: as what it was given, in order. Whether an index takes it is the
/// index's to say.
#[derive(Debug, Drop)]
pub struct GivenDocument {
    texts: Vec<(Field, String)>,
    terms: Vec<GivenTerm>,
    lengths: Vec<(Field, u8)>,
}

impl Model for GivenDocument {
    ghost use Rattle.qm_postings.specs.Document.{Draft, draft_code};
    ghost use Rattle.qm_index.specs.Texts.{texts_draft, with_given};

    ghost Value = { Draft };

    ghost coded = { draft_code };

    ghost view = { λ d. with_given (texts_draft d.texts.items) d.terms.items d.lengths.items };
}

impl GivenDocument {
    /// A document with nothing in it; what it comes to hold is taken from `alloc`. Takes no memory.
    pub fn new(alloc: Global) -> GivenDocument
        ensures terms { result.terms ≡ [] }
        ensures lengths { result.lengths ≡ [] }
    {
        GivenDocument::of_texts(alloc, Vec::new(alloc))
    }

    /// A document whose fields have these texts: each word is a term with its places among the words, and their number,
    /// held at 255, is the field's length id, as [`PlainDoc::add_text`] has it. Takes no memory.
    pub fn of_texts(alloc: Global, texts: Vec<(Field, String)>) -> GivenDocument
        ensures { result ≡ texts_draft texts.items }
    {
        GivenDocument {
            texts,
            terms: Vec::new(alloc),
            lengths: Vec::new(alloc),
        }
    }

    /// Gives the document a term with its positions, counted in words. Constant time, amortized.
    ///
    /// Refused with [`QueryError::Memory`] alone, and then the document is as before.
    pub fn add_term(&mut self, term: Term, positions: Vec<u32>) -> Result<(), QueryError>
        ensures added { OnOk result (self.new.terms ≡ self.old.terms ++ record { term = term; positions = positions.items } ∷ []) }
        ensures lengths { self.new.lengths ≡ self.old.lengths }
        ensures unchanged { OnErr result (self.new ≡ self.old) }
        ensures refused { IsOkUnless result QueryError.Memory }
    {
        self.terms.push(GivenTerm { term, positions })?;
        Ok(())
    }

    /// Gives the document the length id of a field; the last one that was given counts, also where the field has a
    /// text. Constant time, amortized.
    ///
    /// Refused with [`QueryError::Memory`] alone, and then the document is as before.
    pub fn set_length(&mut self, field: Field, id: u8) -> Result<(), QueryError>
        ensures set { OnOk result (self.new.lengths ≡ self.old.lengths ++ (field, id) ∷ []) }
        ensures terms { self.new.terms ≡ self.old.terms }
        ensures unchanged { OnErr result (self.new ≡ self.old) }
        ensures refused { IsOkUnless result QueryError.Memory }
    {
        self.lengths.push((field, id))?;
        Ok(())
    }

    // The same as a segment takes it. Costs what its texts do, and a copy of its terms and positions.
    pub(crate) fn plain_doc(&self, alloc: Global) -> Result<PlainDoc, QueryError>
        ensures same { IfOk result (λ document. document ≡ self.now) }
        ensures refused { IsOkUnless result QueryError.Memory }
    {
        let mut document = draft(alloc, self.texts.as_slice())?;
        add_terms(alloc, &mut document, self.terms.as_slice())?;
        set_lengths(&mut document, self.lengths.as_slice())?;
        Ok(document)
    }
}

// The document that texts make.
fn draft(alloc: Global, texts: &[(Field, String)]) -> Result<PlainDoc, QueryError>
    ensures draft { IfOk result (λ document. document ≡ texts_draft texts.now) }
    ensures refused { IsOkUnless result QueryError.Memory }
{
    let mut document = PlainDoc::new(alloc);
    // it has what the texts so far give it
    for (field, text) in texts {
        document.add_text(*field, text.as_str())?;
    }
    Ok(document)
}

// Gives a document these terms behind those that it has.
fn add_terms(alloc: Global, document: &mut PlainDoc, terms: &[GivenTerm]) -> Result<(), QueryError>
    ensures added { OnOk result (document.new.terms ≡ document.old.terms ++ terms.now) }
    ensures lengths { document.new.lengths ≡ document.old.lengths }
    ensures refused { IsOkUnless result QueryError.Memory }
{
    // it has the terms so far behind those that it had
    for given in terms {
        let term = given.term.clone(alloc)?;
        let positions = Vec::from_slice(alloc, given.positions.as_slice())?;
        document.add_term(term, positions)?;
    }
    Ok(())
}

// Gives a document these length ids behind those that it has.
fn set_lengths(document: &mut PlainDoc, lengths: &[(Field, u8)]) -> Result<(), QueryError>
    ensures set { OnOk result (document.new.lengths ≡ document.old.lengths ++ lengths.now) }
    ensures terms { document.new.terms ≡ document.old.terms }
    ensures refused { IsOkUnless result QueryError.Memory }
{
    // it has the length ids so far behind those that it had
    for (field, id) in lengths {
        document.set_length(*field, *id)?;
    }
    Ok(())
}
