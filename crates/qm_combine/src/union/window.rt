//! A window of documents, each with what a combiner makes of the scores that were added to it.
//!
//! Why it is so:
//! - Members hand their documents and scores over once, into the window. A state counts only where its document's bit
//!   is set.
//! - The first window has 64 documents, and a further one up to 4096, so that rare cursors that seek pay for little.
//! - A state is made when its place is first reached: to make all 4096 costs more than a query over two rare words.

ghost use Rattle.std.specs.Prelude.{◌≡◌, ℕ, ◌+◌, ◌-◌, ◌*◌, ◌<◌, ◌≤◌, ◌≢◌, ◌==◌, ◌||◌, ◌&&◌, ◌++◌, All};
ghost use Rattle.std.specs.Prelude.{length, map, min, nat_le, not, slice_index_or, take, vec_capacity, vec_len};
ghost use Rattle.qm_docset.specs.Entry.{head_document, head_score};
ghost use Rattle.qm_docset.specs.Lists.{IsPlaced, Lists};
ghost use Rattle.qm_docset.specs.TinySet.{tiny_has, tiny_members};
ghost use Rattle.qm_docset.specs.Words.{words_have};
ghost use Rattle.qm_docset.specs.declared.numbers.TheConstants.{TERMINATED};
ghost use Rattle.std.specs.List.{list_any};
ghost use Rattle.qm_combine.specs.WindowStates.{last_or, place_state};

use crate::all_scorer::AllScorer;
use crate::const_scorer::ConstScorer;
use crate::counted::Counted;
use crate::score_combiner::ScoreCombiner;
use crate::scorer::Scorer;
use qm_docset::{COLLECT_BLOCK_BUFFER_LEN, DocId, DocSet, Score, TERMINATED, TinySet};
use qm_schema::QueryError;
use std::alloc::Global;

/// How many documents a [`Window`] spans.
pub const HORIZON: u32 = 4096;

/// Out of how many documents a union fills its first window: it isn't known that more are wanted.
pub const FIRST_SPAN: u32 = 64;

/// The same after a seek past the documents that its members stand on, after which further seeks are
/// likely.
pub const SEEK_SPAN: u32 = 8;

/// The documents that scores were added to, out of the [`HORIZON`] from its start on, each with what a
/// combiner makes of its scores.
///
/// A document is a bit in one of 64 words, beside a state of the combiner. A state counts only where
/// the document's bit is set, and begins cleared when it is, so that to leave no document clears
/// words alone. No call but [`new`](Window::new) takes memory.
#[derive(Drop)]
pub struct Window<C> {
    start: DocId,
    // no document lies past it
    last: DocId,
    buckets: Vec<TinySet>,
    // one for each place up to the greatest that was ever reached
    states: Vec<C>,
    // cleared
    combiner: C,
    ghost sixty_four: { vec_len buckets ≡ 64 },
    ghost room: { 4096 ≤ vec_capacity states },
    ghost within: { start < TERMINATED },
}

impl<C: ScoreCombiner> Window<C> {
    ghost use Rattle.std.specs.Prelude.{◌≤ℤ◌, nat_abs, false, true, pos, slice_get, IfOk, IsOkUnless};
    ghost use Rattle.qm_docset.specs.Entry.{from};
    ghost use Rattle.qm_combine.specs.Added.{IsAdded, IsTakenIn};
    ghost use Rattle.qm_combine.specs.Combiner.{HasRoomFor};
    ghost use Rattle.qm_combine.specs.Windowed.{scores_of};
    ghost use Rattle.qm_combine.specs.Window.{IsUntil, KeepsNoStates, window_combiner, window_end, window_from, window_has};
    ghost use Rattle.qm_combine.specs.Window.{window_last, window_start, window_state};

    /// A window from document 0 on that has no document. The combiner is cleared first.
    ///
    /// Refuses with [`QueryError::Memory`] alone, where there is no room for 64 words and [`HORIZON`]
    /// states. The room is taken, and no state is made: that costs a state when its place is first
    /// reached.
    pub fn new(alloc: Global, combiner: C) -> Result<Window<C>, QueryError>
        ensures only { IsOkUnless result QueryError.Memory }
        ensures start { IfOk result (λ w. window_start w ≡ 0) }
        ensures documents { IfOk result (λ w. (d : ℕ) → window_has w d ≡ false) }
        ensures until { IfOk result IsUntil }
        ensures combiner { IfOk result (λ w. window_combiner w ≡ C.cleared combiner) }
    {
        let mut combiner = combiner;
        combiner.clear();
        let buckets = vec![in alloc; TinySet::empty(); 64]?;
        let states = Vec::with_capacity(alloc, HORIZON as usize)?;
        Ok(Window {
            start: 0,
            last: 0,
            buckets,
            states,
            combiner,
        })
    }

    /// The first document that lies behind the window.
    pub fn end(&self) -> DocId
        ensures { result ≡ window_end self.now }
    {
        self.start + HORIZON
    }

    /// A document that none of its own lies past.
    pub fn last(&self) -> DocId
        ensures { result ≡ window_last self.now }
    {
        self.last
    }

    // How many words there are up to that of its last.
    fn words(&self) -> usize
        ensures within { result ≤ 64 }
        ensures last { min (window_last self.now + 1) (window_end self.now) ≤ window_start self.now + 64 * result }
    {
        let last = self.last.saturating_sub(self.start);
        (last as usize / 64 + 1).min(64)
    }

    /// Leaves no document, and spans those from `start` on, which is below [`TERMINATED`].
    pub fn reset(&mut self, start: DocId)
        requires { start < TERMINATED }
        ensures start { window_start self.new ≡ start }
        ensures documents { (d : ℕ) → window_has self.new d ≡ false }
        ensures until { IsUntil self.new }
        ensures combiner { window_combiner self.new ≡ window_combiner self.old }
    {
        self.start = start;
        self.last = start;
        // the words before are empty
        for bucket in self.buckets.iter_mut() {
            bucket.clear();
        }
    }

    /// The same as [`reset`](Window::reset), and looks at no word behind that of its last.
    pub fn reset_until_last(&mut self, start: DocId)
        requires start { start < TERMINATED }
        requires until { IsUntil self.old }
        ensures start { window_start self.new ≡ start }
        ensures documents { (d : ℕ) → window_has self.new d ≡ false }
        ensures until { IsUntil self.new }
        ensures combiner { window_combiner self.new ≡ window_combiner self.old }
    {
        self.drop_below(self.last.saturating_add(1));
        self.start = start;
        self.last = start;
    }

    /// Adds a score to a document that the window spans; one that it lacked begins cleared. Asks that
    /// the score is not below 0 and that the document's state has room for it. Makes no state where the
    /// window keeps none.
    pub fn add(&mut self, doc: DocId, score: Score)
        requires span { (window_start self.old ≤ doc) × (doc < window_end self.old) }
        requires score { pos 0 ≤ℤ score }
        requires room { C.has_room (window_state self.old doc) (nat_abs score) }
        ensures { IsAdded C.step self.old self.new doc (nat_abs score) }
    {
        if self.keeps_no_states() {
            self.mark(doc);
            return;
        }
        let place = (doc - self.start) as usize;
        self.last = self.last.max(doc);
        let mut scorer = ConstScorer::new(AllScorer::new(1), score);
        put(
            self.buckets.as_mut_slice(),
            &mut self.states,
            self.combiner,
            place,
            &mut scorer,
        );
    }

    /// Whether it keeps no state of any document, since its combiner takes no score: then
    /// [`mark`](Window::mark) does what [`add`](Window::add) does, whatever the score.
    pub fn keeps_no_states(&self) -> bool
        ensures { result ≡ true → KeepsNoStates C.step self.now }
    {
        self.states.is_empty() && !self.combiner.takes_scores()
    }

    /// Adds a document that the window spans, without a score: asks that it keeps no states.
    pub fn mark(&mut self, doc: DocId)
        requires span { (window_start self.old ≤ doc) × (doc < window_end self.old) }
        requires stateless { KeepsNoStates C.step self.old }
        ensures added { (score : ℕ) → IsAdded C.step self.old self.new doc score }
        ensures stateless { KeepsNoStates C.step self.new }
    {
        self.last = self.last.max(doc);
        mark_place(self.buckets.as_mut_slice(), (doc - self.start) as usize);
    }

    /// Adds for each document below `bound` that a scorer has left its score there, and answers the
    /// document at or past `bound` that the scorer then stands on.
    ///
    /// Asks that the scorer is placed, at or past the window's start, that `bound` is at most the
    /// window's end, and that each state has room for the scorer's `max_score`. The combiner asks for
    /// the scores: one that takes none asks for none. Costs a step of the scorer for each document.
    pub fn take_in<S: Scorer>(&mut self, scorer: &mut S, bound: DocId) -> DocId
        requires scorer { IsPlaced S.DocSet scorer.old }
        requires bound { bound ≤ window_end self.old }
        requires first { window_start self.old ≤ head_document (S.entries scorer.old) }
        requires room { (d : ℕ) → HasRoomFor C.step C.cleared (S.limits scorer.old).top (window_state self.old d) }
        ensures head { result ≡ head_document (S.entries scorer.new) }
        ensures left { Lists S.DocSet scorer.new (from bound (S.entries scorer.old)) (S.limits scorer.old) }
        ensures taken { IsTakenIn C.step self.old self.new bound (S.entries scorer.old) }
    {
        if self.keeps_no_states() {
            return self.mark_in(scorer, bound);
        }
        let start = self.start;
        let end = bound.min(TERMINATED);
        let cleared = self.combiner;
        let buckets = self.buckets.as_mut_slice();
        let states = &mut self.states;
        let mut last = start;
        let mut doc = scorer.doc();
        // what the scorer had below the document is added, none of it past the last
        while doc < end {
            put(buckets, states, cleared, (doc - start) as usize, scorer);
            last = doc;
            doc = scorer.advance();
        }
        self.last = self.last.max(last);
        doc
    }

    // Adds each document below `bound` that a cursor has left, without a score, and answers the document
    // at or past `bound` that the cursor then stands on.
    fn mark_in<D: DocSet>(&mut self, docset: &mut D, bound: DocId) -> DocId
        requires docset { IsPlaced D.DocSet docset.old }
        requires bound { bound ≤ window_end self.old }
        requires first { window_start self.old ≤ head_document (D.entries docset.old) }
        ensures head { result ≡ head_document (D.entries docset.new) }
        ensures left { Lists D.DocSet docset.new (from bound (D.entries docset.old)) (D.limits docset.old) }
        ensures documents { (d : ℕ) → d < bound →
            window_has self.new d ≡ (window_has self.old d || nat_le 1 (length (scores_of d (D.entries docset.old)))) }
        ensures beyond { (d : ℕ) → bound ≤ d → window_has self.new d ≡ window_has self.old d }
        ensures states { self.new.states ≡ self.old.states }
        ensures start { window_start self.new ≡ window_start self.old }
        ensures until { IsUntil self.old → IsUntil self.new }
        ensures combiner { window_combiner self.new ≡ window_combiner self.old }
    {
        let start = self.start;
        let buckets = self.buckets.as_mut_slice();
        let mut buffer = [0; COLLECT_BLOCK_BUFFER_LEN];
        let mut last = start;
        let mut taken = COLLECT_BLOCK_BUFFER_LEN;
        // what the cursor had before its document is added, none of it past the last; all below the bound where a
        // buffer was not filled
        while taken == COLLECT_BLOCK_BUFFER_LEN {
            taken = docset.fill_buffer_below(bound, &mut buffer);
            last = mark_row(buckets, start, last, &buffer[..taken]);
        }
        self.last = self.last.max(last);
        docset.doc()
    }

    /// The first of its documents at or past `doc`, or `None` where there is none.
    pub fn next(&self, doc: DocId) -> Option<DocId>
        ensures { result ≡ slice_get (window_from self.now doc) 0 }
    {
        let from = doc.saturating_sub(self.start);
        if from >= HORIZON {
            return None;
        }
        let first = (from / 64) as usize;
        let mut word = self.buckets[first].intersect(TinySet::range_greater_or_equal(from));
        if let Some(lowest) = word.pop_lowest() {
            return Some(self.start + first as u32 * 64 + lowest);
        }
        // no word before the bucket has a document from there on
        for bucket in first + 1..64 {
            let mut word = self.buckets[bucket];
            if let Some(lowest) = word.pop_lowest() {
                return Some(self.start + bucket as u32 * 64 + lowest);
            }
        }
        None
    }

    /// The same as [`next`](Window::next), in a few instructions where `doc` lies past the last.
    pub fn next_until_last(&self, doc: DocId) -> Option<DocId>
        requires { IsUntil self.now }
        ensures { result ≡ slice_get (window_from self.now doc) 0 }
    {
        if self.last < doc {
            return None;
        }
        self.next(doc)
    }

    /// Puts the first of its documents at or past `doc` into the front of the places, as many as there
    /// is room for, and answers how many they are. Looks at no word behind that of its last.
    pub fn fill(&self, doc: DocId, places: &mut [DocId]) -> usize
        requires until { IsUntil self.now }
        ensures count { result ≡ min (length places.old) (length (window_from self.now doc)) }
        ensures documents { take result places.new ≡ take result (window_from self.now doc) }
    {
        let from = doc.saturating_sub(self.start);
        if from >= HORIZON {
            return 0;
        }
        let first = (from / 64) as usize;
        let word = self.buckets[first].intersect(TinySet::range_greater_or_equal(from));
        let mut taken = fill_word(word, self.start + first as u32 * 64, places, 0);
        // what the words before the bucket have from there on was taken, as far as there was room
        for bucket in first + 1..self.words() {
            if taken == places.len() {
                return taken;
            }
            taken = fill_word(
                self.buckets[bucket],
                self.start + bucket as u32 * 64,
                places,
                taken,
            );
        }
        taken
    }

    /// The state of the combiner of a document, which the window has.
    pub fn state(&self, doc: DocId) -> C
        requires { window_has self.now doc ≡ true }
        ensures { result ≡ window_state self.now doc }
    {
        let place = (doc - self.start) as usize;
        if place < self.states.len() {
            self.states[place]
        } else {
            self.combiner
        }
    }

    /// What the combiner makes of the scores of a document, which the window has.
    pub fn score(&self, doc: DocId) -> Score
        requires { window_has self.now doc ≡ true }
        ensures { result ≡ pos (C.value (window_state self.now doc)) }
    {
        self.state(doc).score()
    }

    /// Leaves of its documents those at or past `doc`.
    pub fn drop_below(&mut self, doc: DocId)
        ensures start { window_start self.new ≡ window_start self.old }
        ensures documents { (d : ℕ) → window_has self.new d ≡ (nat_le doc d && window_has self.old d) }
        ensures state { (d : ℕ) → doc ≤ d → window_state self.new d ≡ window_state self.old d }
        ensures last { window_last self.new ≡ window_last self.old }
        ensures until { IsUntil self.old → IsUntil self.new }
        ensures combiner { window_combiner self.new ≡ window_combiner self.old }
    {
        let below = doc.saturating_sub(self.start).min(HORIZON);
        let full = (below / 64) as usize;
        // the words before the bucket are empty, and the others as they were
        for bucket in 0..full {
            self.buckets[bucket].clear();
        }
        if full < 64 {
            self.buckets[full] = self.buckets[full].intersect(TinySet::range_greater_or_equal(
                below,
            ));
        }
    }

    /// How many documents it has at or past `doc`. Looks at no word behind that of its last.
    pub fn len_from(&self, doc: DocId) -> u32
        requires until { IsUntil self.now }
        ensures { result ≡ length (window_from self.now doc) }
    {
        let from = doc.saturating_sub(self.start);
        if from >= HORIZON {
            return 0;
        }
        let first = (from / 64) as usize;
        let word = self.buckets[first].intersect(TinySet::range_greater_or_equal(from));
        let mut count = word.len();
        // so many have the words before the bucket from there on
        for bucket in first + 1..self.words() {
            count += self.buckets[bucket].len();
        }
        count
    }

    /// Out of how many documents a union is to fill its next window, where it filled this one out of
    /// `span`: four times as many, up to [`HORIZON`], where this one has one in sixteen, and else as
    /// many. Where there are few, more would only move the members further than may be wanted.
    pub fn next_span(&self, span: u32) -> u32
        requires until { IsUntil self.now }
        ensures { (1 ≤ result) × (result ≤ 4096) }
    {
        let span = span.max(1).min(HORIZON);
        if span < HORIZON && self.len_from(self.start) >= span / 16 {
            (span * 4).min(HORIZON)
        } else {
            span
        }
    }
}

impl<C: ScoreCombiner> Window<Counted<C>> {
    ghost use Rattle.std.specs.Prelude.{true};
    ghost use Rattle.qm_combine.specs.Window.{IsUntil, window_combiner, window_has, window_start, window_state};

    /// Leaves of its documents those of which it has at least so many scores. Goes through its words, looks at the
    /// state of each document once, and clears none.
    pub fn keep_enough(&mut self, minimum: usize)
        requires until { IsUntil self.old }
        ensures start { window_start self.new ≡ window_start self.old }
        ensures documents { (d : ℕ) → window_has self.new d ≡ (window_has self.old d && nat_le minimum (window_state self.old d).count) }
        ensures states { (d : ℕ) → window_has self.new d ≡ true → window_state self.new d ≡ window_state self.old d }
        ensures until { IsUntil self.new }
        ensures combiner { window_combiner self.new ≡ window_combiner self.old }
    {
        // the words before have the documents with enough scores, and the others what they had
        for bucket in 0..self.words() {
            self.buckets[bucket] = keep_counted(
                self.buckets[bucket],
                &self.states,
                self.combiner,
                bucket * 64,
                minimum,
            );
        }
    }
}

/// Leaves of a word those numbers whose states, from the place `first` on, have at least so many scores.
fn keep_counted<C: ScoreCombiner>(
    word: TinySet,
    states: &[Counted<C>],
    cleared: Counted<C>,
    first: usize,
    minimum: usize,
) -> TinySet
    requires first { first ≤ 4096 }
    ensures { (x : ℕ) → tiny_has result x
        ≡ (tiny_has word x && nat_le minimum (slice_index_or states.now (first + x) cleared).count) }
{
    let mut kept = word;
    let mut left = word;
    // of the numbers that are not left those with enough scores are kept
    while let Some(lowest) = left.pop_lowest() {
        let place = first + lowest as usize;
        let state = if place < states.len() {
            states[place]
        } else {
            cleared
        };
        if state.count() < minimum {
            kept = kept.remove(lowest);
        }
    }
    kept
}

/// Makes the states up to a place that were not made yet, each cleared. Takes no memory.
fn make_states<C: ScoreCombiner>(states: &mut Vec<C>, cleared: C, place: usize)
    requires place { place < 4096 }
    requires room { 4096 ≤ vec_capacity states.old }
    ensures place { place < vec_len states.new }
    ensures same { (x : ℕ) → slice_index_or states.new.items x cleared ≡ slice_index_or states.old.items x cleared }
    ensures room { 4096 ≤ vec_capacity states.new }
{
    if states.len() <= place {
        states.resize(place + 1, cleared).unwrap();
    }
}

/// Adds a place to the words, and says whether it is new.
fn mark_place(buckets: &mut [TinySet], place: usize) -> bool
    requires place { place < 4096 }
    requires buckets { length buckets.old ≡ 64 }
    ensures new { result ≡ not (words_have buckets.old place) }
    ensures documents { (x : ℕ) → words_have buckets.new x ≡ (x == place || words_have buckets.old x) }
{
    buckets[place / 64].insert_mut((place % 64) as u32)
}

/// Adds documents to the words, which begin with `start`, and answers the last of them, or `last` where there
/// are none.
fn mark_row(buckets: &mut [TinySet], start: DocId, last: DocId, documents: &[DocId]) -> DocId
    requires buckets { length buckets.old ≡ 64 }
    requires span { All (λ d. (start ≤ d) × (d < start + 4096)) documents.now }
    ensures last { result ≡ last_or last documents.now }
    ensures documents { (x : ℕ) → words_have buckets.new x
        ≡ (list_any (λ d. x == d - start) documents.now || words_have buckets.old x) }
{
    let mut latest = last;
    // the documents before are added
    for doc in documents {
        mark_place(buckets, (*doc - start) as usize);
        latest = *doc;
    }
    latest
}

/// Adds a scorer's score at a place of a window; a place that is new begins cleared.
fn put<S: Scorer, C: ScoreCombiner>(
    buckets: &mut [TinySet],
    states: &mut Vec<C>,
    cleared: C,
    place: usize,
    scorer: &mut S,
)
    requires place { place < 4096 }
    requires buckets { length buckets.old ≡ 64 }
    requires states { 4096 ≤ vec_capacity states.old }
    requires scorer { IsPlaced S.DocSet scorer.old }
    requires here { head_document (S.entries scorer.old) < TERMINATED }
    requires room { C.has_room (place_state buckets.old states.old.items cleared place) (S.limits scorer.old).top }
    ensures documents { (x : ℕ) → words_have buckets.new x ≡ (x == place || words_have buckets.old x) }
    ensures state { place_state buckets.new states.new.items cleared place
        ≡ C.step (place_state buckets.old states.old.items cleared place) (head_score (S.entries scorer.old)) }
    ensures others { (x : ℕ) → x ≢ place →
        place_state buckets.new states.new.items cleared x ≡ place_state buckets.old states.old.items cleared x }
    ensures room { 4096 ≤ vec_capacity states.new }
    ensures left { Lists S.DocSet scorer.new (S.entries scorer.old) (S.limits scorer.old) }
{
    make_states(states, cleared, place);
    let is_new = mark_place(buckets, place);
    let mut state = if is_new { cleared } else { states[place] };
    state.update(scorer);
    states[place] = state;
}

/// Puts the numbers of a word, from `start` on, behind the places that are taken, as many as there is
/// room for, and answers how many are taken then.
fn fill_word(word: TinySet, start: DocId, places: &mut [DocId], before: usize) -> usize
    requires before { before ≤ length places.old }
    requires span { start + 64 ≤ 4294967295 }
    ensures count { result ≡ min (length places.old) (before + length (tiny_members word)) }
    ensures documents { take result places.new ≡ take result (take before places.old ++ map (λ x. start + x) (tiny_members word)) }
{
    let mut word = word;
    let mut taken = before;
    // what is taken, and what the word has left
    while taken < places.len() {
        let Some(lowest) = word.pop_lowest() else {
            return taken;
        };
        places[taken] = start + lowest;
        taken += 1;
    }
    taken
}
