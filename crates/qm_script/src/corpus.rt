//! The documents of a script, and the weights of its words.
//!
//! The index searches the open segment in parts. What a query lists over these is proved to be what it lists over the
//! one segment.

ghost use Rattle.std.specs.Prelude.{◌≡◌, ◌↔◌, ◌+◌, ◌≤◌, ◌*◌, ◌⊎◌, IfErr, IfOk, IsErrOf, IsOkUnless, OnErr, OnOk, drop, length, map, nat_abs, string_bytes};
ghost use Rattle.std.specs.FinMap.{empty, insert};
ghost use Rattle.std.specs.List.{range_with_len};
ghost use Rattle.qm_docset.specs.declared.numbers.TheConstants.{TERMINATED};
ghost use Rattle.qm_index.specs.Indexed.{statistics};
ghost use Rattle.birchagain.specs.Body.{body_term};
ghost use Rattle.qm_script.specs.Fields.{script_fields};
ghost use Rattle.qm_script.specs.Parts.{document_count};
ghost use Rattle.qm_script.specs.ProgramNumbers.{most_segments, ungiven_weight};
ghost use Rattle.qm_script.specs.TextSegments.{IsTextRefusal};
ghost use Rattle.qm_script.specs.Weights.{IsWeighedBy};

use crate::cut_prefixes::has_cut;
use crate::narrowed::narrowed;
use crate::non_negative_score::NonNegativeScore;
use crate::spelled_query::SpelledQuery;
use crate::terms::{body, word_term};
use birchagain::new_index;
use qm_index::Index;
use qm_postings::Searcher;
use qm_schema::QueryError;
use std::alloc::{AllocError, Global};

/// The documents of a script, in segments, and what words weigh.
#[derive(Drop)]
pub(crate) struct Corpus {
    index: Index,
    ghost fields: { (statistics index).schema ≡ script_fields },
    ghost others: { (statistics index).default_weight ≡ ungiven_weight },
    ghost norms: { (statistics index).norms ≡ range_with_len 0 256 },
}

impl Corpus {
    ghost use Rattle.qm_index.specs.Indexed.{Deletes, all_segments, with_segment_ended};
    ghost use Rattle.qm_script.specs.Answers.{IsLastSegment, IsNotRefused};
    ghost use Rattle.qm_script.specs.Script.{Query};
    ghost use Rattle.qm_script.specs.Served.{IsServed, Serve};
    ghost use Rattle.qm_script.specs.ScriptSegments.{IsBuilt, IsWhole, script, with_document_of};
    ghost use Rattle.qm_script.specs.Spelled.{query_of};
    ghost use Rattle.qm_script.specs.Start.{start_script};

    /// A script at its beginning: one open segment without documents, and no weight.
    pub(crate) fn new(alloc: Global) -> Result<Corpus, QueryError>
        ensures documents { IfOk result (λ corpus. script corpus ≡ start_script) }
        ensures weights { IfOk result (λ corpus. (statistics corpus.index).weights ≡ empty) }
    {
        let index = new_index(alloc)?;
        Ok(Corpus { index })
    }

    /// Adds a document with the words of this text to the open segment. A refused one adds nothing.
    pub(crate) fn add_document(&mut self, alloc: Global, text: String) -> Result<(), QueryError>
        ensures added { OnOk result (script self.new ≡ with_document_of (script self.old) (string_bytes text)) }
        ensures unchanged { OnErr result (script self.new ≡ script self.old) }
        ensures weights { statistics self.new.index ≡ statistics self.old.index }
        ensures taken { OnOk result (IsNotRefused (IsTextRefusal (script self.old).current (string_bytes text))) }
        ensures refused { IfErr result (λ e. (e ≡ QueryError.Memory) ⊎ IsTextRefusal (script self.old).current (string_bytes text) e) }
    {
        let texts = vec![in alloc; (body(), text)]?;
        self.index.add_document(alloc, texts)
    }

    /// Ends the open segment, and opens another. Refused with `TooManySegments` where there are as many
    /// as can be searched at once.
    pub(crate) fn end_segment(&mut self, alloc: Global) -> Result<(), QueryError>
        ensures ended { OnOk result (script self.new ≡ with_segment_ended (script self.old)) }
        ensures unchanged { OnErr result (script self.new ≡ script self.old) }
        ensures weights { statistics self.new.index ≡ statistics self.old.index }
        ensures many { IsErrOf result QueryError.TooManySegments ↔ (length (all_segments (script self.old)) ≡ most_segments) }
        ensures taken { OnOk result (IsNotRefused (IsLastSegment (script self.old))) }
        ensures refused { IfErr result (λ e. (e ≡ QueryError.Memory) ⊎ (e ≡ QueryError.TooManySegments)) }
    {
        self.index.end_segment(alloc)
    }

    /// Deletes the document of this number over all segments, and answers whether there is one. Its only
    /// error is the want of memory.
    pub(crate) fn delete(&mut self, alloc: Global, number: u64) -> Result<bool, AllocError>
        ensures deleted { IfOk result (λ exists. Deletes number (script self.old) exists (script self.new)) }
        ensures weights { statistics self.new.index ≡ statistics self.old.index }
    {
        match self.index.delete(alloc, number) {
            Ok(exists) => Ok(exists),
            Err(_) => Err(AllocError),
        }
    }

    /// Gives a word its weight from now on. Costs the logarithm of the number of words that were given
    /// one.
    pub(crate) fn set_weight(
        &mut self,
        alloc: Global,
        word: &str,
        weight: NonNegativeScore,
    ) -> Result<(), QueryError>
        ensures documents { script self.new ≡ script self.old }
        ensures set { OnOk result ((statistics self.new.index).weights ≡ insert (statistics self.old.index).weights (body_term word.now) (nat_abs weight.score)) }
        ensures kept { OnErr result ((statistics self.new.index).weights ≡ (statistics self.old.index).weights) }
        ensures refused { IsOkUnless result QueryError.Memory }
    {
        let term = word_term(alloc, word)?;
        self.index.set_weight(term, weight.score())
    }

    /// Builds what is to be searched of all documents for a query, for [`Corpus::searcher`]. Costs what the documents do
    /// that came since the last time. Where a prefix in the query begins more terms of the parts of the open segment than
    /// it may be expanded to, it answers what is to be searched in place of that: the terms alone that the query asks for,
    /// which costs what their rows do, and a copy of all length ids. Its only error is the want of memory.
    pub(crate) fn build_segments(
        &mut self,
        alloc: Global,
        query: &SpelledQuery,
    ) -> Result<Option<Box<Searcher>>, AllocError>
        ensures script { script self.new ≡ script self.old }
        ensures weights { statistics self.new.index ≡ statistics self.old.index }
        ensures built { OnOk result (IsBuilt self.new) }
        ensures served { IfOk result (IsServed (query_of query.now) self.new) }
    {
        match self.index.refresh(alloc) {
            Ok(()) => {}
            Err(_) => return Err(AllocError),
        }
        let searcher = self.index.searcher();
        let ended = self.index.ended();
        let parts = &searcher.segment_readers()[ended..];
        if parts.len() < 2 || !has_cut(query, parts) {
            return Ok(None);
        }
        match narrowed(alloc, searcher, ended, query) {
            // apart, since a searcher is more than a kilobyte, and most lines are answered none
            Ok(narrowed) => Ok(Some(Box::new(alloc, narrowed)?)),
            Err(_) => Err(AllocError),
        }
    }

    /// What says how much words weigh, where [`Corpus::build_segments`] was called after the last document. Constant
    /// time.
    pub(crate) fn searcher(&self) -> &Searcher
        requires built { IsBuilt self.now }
        ensures weights { IsWeighedBy (statistics self.now.index).weights result.now }
        ensures fields { result.now.schema ≡ (script self.now).current.schema }
    {
        self.index.searcher()
    }

    /// What is searched for a query, where [`Corpus::build_segments`] answered this for it after the last document.
    /// Constant time.
    pub(crate) fn searched<'a>(&'a self, narrowed: &'a Option<Box<Searcher>>) -> &'a Searcher
        requires built { IsBuilt self.now }
        ensures serve { (q : Query) → IsServed q self.now narrowed.now → Serve q (script self.now) result.now.segments }
        ensures few { (q : Query) → IsServed q self.now narrowed.now → document_count (map (λ r. r.segment) result.now.segments) ≤ most_segments * TERMINATED }
        ensures fields { (q : Query) → IsServed q self.now narrowed.now → result.now.schema ≡ (script self.now).current.schema }
    {
        let searcher = self.index.searcher();
        match narrowed {
            Some(narrowed) => narrowed,
            None => searcher,
        }
    }

    /// How many segments were ended: those of the searcher behind them are the parts of the open one.
    pub(crate) fn ended(&self) -> usize
        ensures { length (all_segments (script self.now)) ≡ result + 1 }
    {
        self.index.ended()
    }
}
