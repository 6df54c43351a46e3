//! The full terms of a phrase prefix, and the places that all of them have.

ghost use Rattle.std.specs.Prelude.{◌≡◌, ◌<◌, IfOk, min};
ghost use Rattle.qm_phrase.specs.Phrase.{sets_at};
ghost use Rattle.qm_phrase.specs.PhrasePrefix.{IsCommonOf, common_count};
ghost use Rattle.qm_phrase.specs.Places.{places_of};
ghost use Rattle.qm_phrase.specs.PrefixTerms.{IsCommonBuffer};
ghost use Rattle.qm_phrase.specs.Terms.{AreHere, AreKept, AreMovedTo, AreTerms, IsLook, sets_here, shifts_in, term_lists};

use crate::common_places::collect_common;
use crate::places::Places;
use crate::terms::TermPlaces;
use qm_combine::seek_each;
use qm_docset::{DocId, SeekDangerResult, TERMINATED};
use qm_postings::Postings;
use std::alloc::{AllocError, Global};

impl<P: Postings> TermPlaces<P> {
    /// A buffer for the places that all terms have, with none yet. Fails where there is no room for it.
    pub(crate) fn common_buffer(&self, alloc: Global) -> Result<Places, AllocError>
        requires { AreTerms P.DocSet self.now }
        ensures { IfOk result (IsCommonBuffer P.DocSet self.now) }
    {
        let first = &self.rows[0];
        let room = self.members[first.member].max_term_freq();
        Places::with_room(alloc, first.row.shift, room)
    }

    /// Leaves in `common` the places that all terms have in the document that they stand on, and answers
    /// how many there are, held at 4294967295.
    fn common_here(&mut self, common: &mut Places) -> u32
        requires valid { AreTerms P.DocSet self.old }
        requires here { AreHere P.DocSet self.old }
        requires common { IsCommonBuffer P.DocSet self.old common.old }
        ensures common { IsCommonOf (sets_here P.DocSet self.old) (places_of common.new) }
        ensures count { result ≡ min 4294967295 (common_count (sets_here P.DocSet self.old)) }
        ensures buffer { IsCommonBuffer P.DocSet self.new common.new }
        ensures kept { AreKept P.DocSet self.old self.new }
    {
        self.read_places();
        collect_common(&mut self.rows, &self.positions, common);
        common.len()
    }

    /// Looks at one document: leaves in `common` the places that all terms have there, and answers how
    /// many there are, held at 4294967295; or, where there is none, a bound past it before which no
    /// document has one. Positions are read only where all terms have the document. Takes no memory.
    pub(crate) fn look_at_full(&mut self, common: &mut Places, doc: DocId) -> Result<u32, DocId>
        requires valid { AreTerms P.DocSet self.old }
        requires common { IsCommonBuffer P.DocSet self.old common.old }
        requires doc { doc < TERMINATED }
        ensures answer { IsLook P.DocSet 0 4294967295 doc self.old result }
        ensures moved { AreMovedTo P.DocSet 0 doc self.old self.new }
        ensures common { IfOk result (λ _. IsCommonOf (sets_at (shifts_in self.old) (term_lists P.DocSet self.old) doc) (places_of common.new)) }
        ensures buffer { IsCommonBuffer P.DocSet self.new common.new }
    {
        if let SeekDangerResult::SeekLowerBound(bound) = seek_each(&mut self.members, doc) {
            return Err(bound);
        }
        match self.common_here(common) {
            0 => Err(doc + 1),
            count => Ok(count),
        }
    }
}
