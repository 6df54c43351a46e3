//! The terms of a phrase: the postings of each, and beside them buffers for positions. They need not
//! stand anywhere between two calls.

ghost use Rattle.std.specs.Prelude.{◌≡◌, ℕ, ◌-◌, ◌<◌, ◌≤◌, All, IfOk, IfSome, length, map, min, take, vec_capacity};
ghost use Rattle.qm_docset.specs.Entry.{head_document, head_positions};
ghost use Rattle.qm_docset.specs.Lists.{bounds, lists};
ghost use Rattle.qm_phrase.specs.PhraseTerms.{lists_given, members_of, offsets_of, terms_given};
ghost use Rattle.qm_phrase.specs.Starts.{starts};
ghost use Rattle.qm_phrase.specs.TermRows.{member_positions, rows_left, terms_of};
ghost use Rattle.qm_phrase.specs.Terms.{AreHere, AreKept, AreMovedTo, AreRoomy, AreTerms, IsFirstStart, IsLook, unpassed, sets_here, shifts_in, term_lists};

use crate::counting::count_starts;
use crate::pair::count_pair;
use crate::phrase_terms::PhraseTerms;
use crate::row::Row;
use crate::term_row::TermRow;
use qm_combine::seek_each;
use qm_docset::{DocId, DocSet, SeekDangerResult, TERMINATED};
use qm_postings::Postings;
use std::alloc::{AllocError, Global};

/// The terms of a phrase, each over the positions of a member, with room for these.
#[derive(Drop)]
pub(crate) struct TermPlaces<P> {
    pub(crate) members: Vec<P>,
    pub(crate) positions: Vec<Vec<u32>>,
    pub(crate) rows: Vec<TermRow>,
}

impl<P: Postings> TermPlaces<P> {
    /// These terms with their buffers: positions are shifted by the greatest offset less the term's own.
    /// Asks for at least one term, and that the greatest offset is at most 4294967295. Fails where there
    /// is no room.
    pub(crate) fn new(
        alloc: Global,
        terms: PhraseTerms<P>,
        greatest: usize,
    ) -> Result<TermPlaces<P>, AllocError>
        requires some { 0 < length (terms_given terms) }
        requires valid { All P.valid (members_of terms) }
        requires greatest { greatest ≤ 4294967295 }
        ensures valid { IfOk result (AreTerms P.DocSet) }
        ensures shifts { IfOk result (λ made. shifts_in made ≡ map (λ offset. greatest - offset) (offsets_of terms)) }
        ensures lists { IfOk result (λ made. term_lists P.DocSet made ≡ lists_given P.DocSet terms) }
    {
        let positions = buffers_of(alloc, &terms.members)?;
        let rows = rows_of(alloc, &terms.terms, greatest)?;
        Ok(TermPlaces {
            members: terms.members,
            positions,
            rows,
        })
    }

    /// Reads the positions of every member in the document that all of them stand on, and begins anew.
    /// Takes no memory.
    pub(crate) fn read_places(&mut self)
        requires valid { AreTerms P.DocSet self.old }
        requires here { AreHere P.DocSet self.old }
        ensures sets { rows_left self.new.positions.items self.new.rows.items ≡ sets_here P.DocSet self.old }
        ensures kept { AreKept P.DocSet self.old self.new }
    {
        read_positions(&mut self.members, &mut self.positions);
        rewind(&mut self.rows);
    }

    /// The number of starts in the document that all terms stand on, or `most` where there are more.
    fn count_here(&mut self, slop: u32, most: u32) -> u32
        requires valid { AreTerms P.DocSet self.old }
        requires here { AreHere P.DocSet self.old }
        ensures count { result ≡ min most (starts slop (sets_here P.DocSet self.old)) }
        ensures kept { AreKept P.DocSet self.old self.new }
    {
        if let Some(count) = self.count_lent(slop, most) {
            return count;
        }
        self.read_places();
        count_starts(&mut self.rows, &self.positions, slop, most)
    }

    // The same, or none, by the first two terms, where their members lend positions: two terms have no more starts,
    // and where the first two have none, all have none.
    fn count_lent(&mut self, slop: u32, most: u32) -> Option<u32>
        requires valid { AreTerms P.DocSet self.old }
        requires here { AreHere P.DocSet self.old }
        ensures count { IfSome result (λ count. count ≡ min most (starts slop (sets_here P.DocSet self.old))) }
        ensures kept { AreKept P.DocSet self.old self.new }
        ensures here { AreHere P.DocSet self.new }
    {
        if self.rows.len() < 2 {
            return None;
        }
        self.find_places();
        if self.rows.len() == 2 {
            return self.count_both(slop, most);
        }
        match self.count_both(slop, 1)? {
            0 => Some(0),
            _ => None,
        }
    }

    // Lets every member find its positions in the document that all of them stand on.
    fn find_places(&mut self)
        requires valid { AreTerms P.DocSet self.old }
        requires here { AreHere P.DocSet self.old }
        ensures kept { AreKept P.DocSet self.old self.new }
        ensures here { AreHere P.DocSet self.new }
    {
        find_each(&mut self.members);
    }

    // The number of starts of the first two terms alone, or `most` where there are more, where both members lend
    // their positions.
    fn count_both(&self, slop: u32, most: u32) -> Option<u32>
        requires valid { AreTerms P.DocSet self.now }
        requires here { AreHere P.DocSet self.now }
        requires two { 2 ≤ length self.now.rows.items }
        ensures { IfSome result (λ count. count ≡ min most (starts slop (take 2 (sets_here P.DocSet self.now)))) }
    {
        let (first, second) = (&self.rows[0], &self.rows[1]);
        let positions = self.members[first.member].lent_positions()?;
        let other_positions = self.members[second.member].lent_positions()?;
        let (shift, other_shift) = (first.row.shift, second.row.shift);
        Some(count_pair(shift, positions, other_shift, other_positions, slop, most))
    }

    /// Looks at one document: answers how many starts it has, or `most` where there are more; or, where it
    /// has none, a bound past it before which no document has. Positions are read only where all terms
    /// have the document. Takes no memory.
    pub(crate) fn look_at(&mut self, slop: u32, doc: DocId, most: u32) -> Result<u32, DocId>
        requires valid { AreTerms P.DocSet self.old }
        requires doc { doc < TERMINATED }
        requires most { 0 < most }
        ensures answer { IsLook P.DocSet slop most doc self.old result }
        ensures moved { AreMovedTo P.DocSet slop doc self.old self.new }
    {
        if let SeekDangerResult::SeekLowerBound(bound) = seek_each(&mut self.members, doc) {
            return Err(bound);
        }
        match self.count_here(slop, most) {
            0 => Err(doc + 1),
            count => Ok(count),
        }
    }

    /// Goes to the first document from a target on that has a start, and answers it with how many it has,
    /// or `most` where there are more; or answers [`TERMINATED`], and sends one term to its end. Takes no
    /// memory.
    pub(crate) fn seek_start(&mut self, slop: u32, target: DocId, most: u32) -> (DocId, u32)
        requires valid { AreTerms P.DocSet self.old }
        requires target { target ≤ TERMINATED }
        requires most { 0 < most }
        ensures found { IsFirstStart P.DocSet slop most target self.old result }
        ensures moved { AreMovedTo P.DocSet slop result.0 self.old self.new }
    {
        let mut doc = target;
        // no document from the target to before this one has the phrase
        while doc < TERMINATED {
            match self.look_at(slop, doc, most) {
                Ok(count) => return (doc, count),
                Err(bound) => doc = bound,
            }
        }
        self.go_to_end();
        (TERMINATED, 0)
    }

    /// Sends one term to its end, so that no document is left.
    pub(crate) fn go_to_end(&mut self)
        requires valid { AreTerms P.DocSet self.old }
        ensures moved { (slop : ℕ) → AreMovedTo P.DocSet slop TERMINATED self.old self.new }
        ensures limits { bounds P.DocSet self.new.members.items ≡ bounds P.DocSet self.old.members.items }
    {
        self.members[0].seek(TERMINATED);
    }

    /// A number of documents near which the list is, which no answer depends on.
    pub(crate) fn size_hint(&self) -> u32
        requires { AreTerms P.DocSet self.now }
    {
        let mut hint = u32::MAX;
        // the least of the hints of the members before this one
        for member in &self.members {
            hint = member.size_hint().min(hint);
        }
        hint
    }

    /// What a pass over all documents of the terms costs.
    pub(crate) fn cost(&self) -> u64
        requires { AreTerms P.DocSet self.now }
    {
        let mut cost = 0u64;
        // the sum of what the members before this one cost, held at the greatest number
        for member in &self.members {
            cost = cost.saturating_add(member.cost());
        }
        cost
    }
}

// A buffer for each member, with room for as many positions as its `max_term_freq` says.
fn buffers_of<P: Postings>(alloc: Global, members: &[P]) -> Result<Vec<Vec<u32>>, AllocError>
    requires { All P.valid members.now }
    ensures { IfOk result (λ made. AreRoomy (bounds P.DocSet members.now) (map vec_capacity made.items)) }
{
    let mut buffers = Vec::with_capacity(alloc, members.len())?;
    // the members so far have theirs
    for member in members {
        buffers.push(Vec::with_capacity(alloc, member.max_term_freq() as usize)?)?;
    }
    Ok(buffers)
}

// The row of each term, shifted by the greatest offset less its own.
fn rows_of(
    alloc: Global,
    terms: &[(usize, usize)],
    greatest: usize,
) -> Result<Vec<TermRow>, AllocError>
    requires { greatest ≤ 4294967295 }
    ensures { IfOk result (λ made. terms_of made.items ≡ map (λ t. (greatest - t.0, t.1)) terms.now) }
{
    let mut rows = Vec::with_capacity(alloc, terms.len())?;
    // the terms so far have theirs
    for (offset, member) in terms {
        let shift = greatest.saturating_sub(*offset) as u32;
        rows.push(TermRow {
            member: *member,
            row: Row { shift, passed: 0 },
        })?;
    }
    Ok(rows)
}

// Reads the positions of every member in the document that it stands on. Takes no memory.
fn read_positions<P: Postings>(members: &mut [P], positions: &mut [Vec<u32>])
    requires valid { All P.valid members.old }
    requires here { All (λ m. P.placed m × (head_document (P.entries m) < TERMINATED)) members.old }
    requires roomy { AreRoomy (bounds P.DocSet members.old) (map vec_capacity positions.old) }
    ensures positions { member_positions positions.new ≡ map head_positions (lists P.DocSet members.old) }
    ensures roomy { AreRoomy (bounds P.DocSet members.new) (map vec_capacity positions.new) }
    ensures entries { lists P.DocSet members.new ≡ lists P.DocSet members.old }
    ensures limits { bounds P.DocSet members.new ≡ bounds P.DocSet members.old }
    ensures valid { All P.valid members.new }
{
    // the buffers before this one have their members' positions
    for (i, buffer) in positions.iter_mut().enumerate() {
        members[i].positions(buffer);
    }
}

// Lets every member find its positions in the document that it stands on.
fn find_each<P: Postings>(members: &mut [P])
    requires valid { All P.valid members.old }
    requires here { All (λ m. P.placed m × (head_document (P.entries m) < TERMINATED)) members.old }
    ensures entries { lists P.DocSet members.new ≡ lists P.DocSet members.old }
    ensures limits { bounds P.DocSet members.new ≡ bounds P.DocSet members.old }
    ensures valid { All P.valid members.new }
    ensures here { All (λ m. P.placed m × (head_document (P.entries m) < TERMINATED)) members.new }
{
    // the members before this one have found their positions
    for member in members.iter_mut() {
        member.find_positions();
    }
}

// Begins anew with the first place of each term.
fn rewind(rows: &mut [TermRow])
    ensures { rows.new ≡ map unpassed rows.old }
{
    // the rows before this one stand at their beginnings
    for row in rows.iter_mut() {
        row.row.passed = 0;
    }
}
