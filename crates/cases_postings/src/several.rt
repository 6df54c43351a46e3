//! Rows on the run over several terms.

ghost use Rattle.std.specs.Prelude.{◌≤◌, All, IfOk};
ghost use Rattle.qm_docset.specs.declared.numbers.TheConstants.{TERMINATED};
ghost use Rattle.qm_term.specs.TermScorer.{IsTermScorer};
ghost use Rattle.qm_term.specs.WandRun.{IsRun};

use crate::blocks::{ROOM, target_of};
use crate::spelled::{cut, read_number, read_option, read_term, read_weight};
use cases::{
    Asker, Done, Fault, Listing, Memory, Pruning, Reply, behind, end_refusals, number, replies_of,
    threshold_of, word, words_of,
};
use qm_combine::{BoundedBySum, DisjunctionMaxCombiner, SumCombiner};
use qm_docset::{DocId, DocSet, TERMINATED};
use qm_postings::SegmentReader;
use qm_schema::{Field, IndexRecordOption, Term};
use qm_term::{Bm25Weight, TermScorer, WandCount, WandRun, block_wand, block_wand_all};
use std::alloc::Global;

// What a scorer is made of, the document that it is sent to, and the one whose block it then looks at.
#[derive(Drop)]
struct Part {
    term: Term,
    weight: Bm25Weight,
    option: IndexRecordOption,
    at: DocId,
    look: DocId,
    ghost place: { at ≤ TERMINATED },
    ghost looked_at: { look ≤ TERMINATED },
}

// How a run goes: over what any of the scorers has, at once or turn by turn, or over what all of them have.
#[derive(Clone, Copy)]
enum Way {
    AtOnce,
    ByTurns,
    OverAll,
}

/// Rows on a run over the scorers of several terms, which each row makes anew.
#[derive(Drop)]
pub struct SeveralRows<'b> {
    segment: &'b SegmentReader,
    // that of the greatest score, or none where the scores are summed up
    tie_breaker: Option<u32>,
    parts: Vec<Part>,
}

impl<'b> SeveralRows<'b> {
    /// The scorers of the words `COMBINER ; WORD WEIGHT OPTION ; WORD WEIGHT OPTION at DOC look DOC ..`.
    pub fn read(
        alloc: Global,
        segment: &'b SegmentReader,
        words: &[&str],
    ) -> Result<SeveralRows<'b>, Fault> {
        let mut parts = Vec::new(alloc);
        let mut groups = words.split(|word| *word == ";");
        let tie_breaker = read_tie_breaker(groups.next().unwrap_or(&[]))?;
        // the parts that the groups before this one spell are there
        for group in groups {
            parts.push(read_part(alloc, group)?)?;
        }
        Ok(SeveralRows {
            segment,
            tie_breaker,
            parts,
        })
    }

    // The scorers.
    fn scorers(&self, alloc: Global) -> Result<Vec<TermScorer<'b>>, Fault>
        ensures { IfOk result (λ row. All IsTermScorer row.items) }
    {
        let mut row = Vec::new(alloc);
        // all that were made are right
        for part in &self.parts {
            row.push(scorer_of(self.segment, part)?)?;
        }
        Ok(row)
    }

    // The run, this way: what it counted. Its calls are written behind the text.
    fn run(
        &self,
        alloc: Global,
        way: Way,
        call: &str,
        memory: Memory,
        text: &mut Listing,
    ) -> Result<WandCount, Fault> {
        let row = self.scorers(alloc)?;
        match self.tie_breaker {
            None => run_over(alloc, row, SumCombiner::default(), way, call, memory, text),
            Some(tie_breaker) => {
                let greatest = DisjunctionMaxCombiner::with_tie_breaker(tie_breaker)?;
                run_over(alloc, row, greatest, way, call, memory, text)
            }
        }
    }

    // Whether the run of `TICKS TURNS T ..` scores at most so many documents, and at least one for each
    // call, in at most so many turns and at least one for each of these, each of these ways.
    fn is_bounded(&self, alloc: Global, ways: &[Way], bounds: &str) -> Result<bool, Fault> {
        let (ticks, run) = cut(bounds);
        let (turns, _) = cut(run);
        let most = WandCount {
            ticks: u128::from(read_number(ticks)?),
            turns: u128::from(read_number(turns)?),
        };
        let mut is_bounded = true;
        // the run is bounded in each way before this one, where it is said to be
        for way in ways {
            is_bounded = self.is_within(alloc, *way, run, most)? && is_bounded;
        }
        Ok(is_bounded)
    }

    // The same of one way.
    fn is_within(
        &self,
        alloc: Global,
        way: Way,
        run: &str,
        most: WandCount,
    ) -> Result<bool, Fault> {
        let mut calls = Listing::new(alloc);
        // no turn takes memory for what its calls say
        calls.reserve(ROOM);
        let count = self.run(alloc, way, run, Memory::Ample, &mut calls)?;
        let called = words_of(alloc, calls.into_string()?.as_str())?.len() as u128;
        let is_scored = called <= count.ticks && count.ticks <= most.ticks;
        Ok(is_scored && count.ticks <= count.turns && count.turns <= most.turns)
    }
}

impl<'b> Asker for SeveralRows<'b> {
    fn ask(&mut self, alloc: Global, call: &str, memory: Memory, text: &mut Listing) -> Done {
        let (name, rest) = cut(call);
        match name {
            "wand" => {
                self.run(alloc, Way::AtOnce, call, memory, text)?;
            }
            "turns" => {
                self.run(alloc, Way::ByTurns, call, memory, text)?;
            }
            "all" => {
                self.run(alloc, Way::OverAll, call, memory, text)?;
            }
            "bounded" => {
                let is_bounded = self.is_bounded(alloc, &[Way::AtOnce, Way::ByTurns], rest)?;
                write!(text, "{is_bounded}");
            }
            "bounded_all" => {
                let is_bounded = self.is_bounded(alloc, &[Way::OverAll], rest)?;
                write!(text, "{is_bounded}");
            }
            _ => return Err(Fault::NotUnderstood),
        }
        Ok(())
    }
}

// The tie breaker of `max N`; none for `sum`.
fn read_tie_breaker(words: &[&str]) -> Result<Option<u32>, Fault> {
    match word(words, 0) {
        "sum" => Ok(None),
        "max" => {
            let Some(tie_breaker) = number(words, 1) else {
                return Err(Fault::NotUnderstood);
            };
            DisjunctionMaxCombiner::with_tie_breaker(tie_breaker)?;
            Ok(Some(tie_breaker))
        }
        _ => Err(Fault::NotUnderstood),
    }
}

fn read_part(alloc: Global, words: &[&str]) -> Result<Part, Fault> {
    let term = read_term(alloc, Field::from_field_id(0), word(words, 0))?;
    let weight = read_weight(word(words, 1))?;
    let option = read_option(word(words, 2))?;
    let at = read_place("at", words)?;
    let look = read_place("look", words)?;
    Ok(Part {
        term,
        weight,
        option,
        at,
        look,
    })
}

// The document behind a name among words, or 0.
fn read_place(name: &str, words: &[&str]) -> Result<DocId, Fault>
    ensures { IfOk result (λ place. place ≤ TERMINATED) }
{
    // no pair before this one has the name
    for pair in behind(words, 3).chunks(2) {
        if word(pair, 0) == name {
            return target_of(word(pair, 1));
        }
    }
    Ok(0)
}

// The scorer that a part makes.
fn scorer_of<'s>(segment: &'s SegmentReader, part: &Part) -> Result<TermScorer<'s>, Fault>
    ensures { IfOk result IsTermScorer }
{
    let found = TermScorer::for_term(segment, &part.term, part.option, &part.weight);
    let Some(mut scorer) = found else {
        return Err(Fault::NotAllowed);
    };
    scorer.seek(part.at);
    scorer.seek_block(part.look);
    Ok(scorer)
}

// The run over these scorers, this way. What all have is summed up, whatever the combiner.
fn run_over<C: BoundedBySum>(
    alloc: Global,
    row: Vec<TermScorer<'_>>,
    combiner: C,
    way: Way,
    call: &str,
    memory: Memory,
    text: &mut Listing,
) -> Result<WandCount, Fault>
    requires { All IsTermScorer row.items }
{
    match way {
        Way::AtOnce => run_at_once(alloc, row, combiner, call, memory, text),
        Way::ByTurns => run_by_turns(alloc, row, combiner, call, memory, text),
        Way::OverAll => run_over_all(alloc, row, call, memory, text),
    }
}

// The run at once.
fn run_at_once<C: BoundedBySum>(
    alloc: Global,
    row: Vec<TermScorer<'_>>,
    combiner: C,
    call: &str,
    memory: Memory,
    text: &mut Listing,
) -> Result<WandCount, Fault>
    requires { All IsTermScorer row.items }
{
    let threshold = threshold_of(alloc, call)?;
    let replies = replies_of(alloc, call)?;
    let mut pruning = Pruning {
        text,
        replies: replies.as_slice(),
        last: Reply::ItsScore,
        has_scores: true,
    };
    memory.begin(alloc);
    let counted = block_wand(
        alloc,
        row,
        combiner,
        threshold,
        &mut |doc, score| pruning.call(doc, score),
    );
    Ok(counted?)
}

// The run over what all of the scorers have, of which there is one at least. It takes no memory.
fn run_over_all(
    alloc: Global,
    row: Vec<TermScorer<'_>>,
    call: &str,
    memory: Memory,
    text: &mut Listing,
) -> Result<WandCount, Fault>
    requires { All IsTermScorer row.items }
{
    if row.is_empty() {
        return Err(Fault::NotAllowed);
    }
    let threshold = threshold_of(alloc, call)?;
    let replies = replies_of(alloc, call)?;
    let mut pruning = Pruning {
        text,
        replies: replies.as_slice(),
        last: Reply::ItsScore,
        has_scores: true,
    };
    memory.begin(alloc);
    let count = block_wand_all(row, threshold, &mut |doc, score| pruning.call(doc, score));
    Ok(count)
}

// The run turn by turn. No turn takes memory.
fn run_by_turns<C: BoundedBySum>(
    alloc: Global,
    row: Vec<TermScorer<'_>>,
    combiner: C,
    call: &str,
    memory: Memory,
    text: &mut Listing,
) -> Result<WandCount, Fault>
    requires { All IsTermScorer row.items }
{
    let threshold = threshold_of(alloc, call)?;
    let replies = replies_of(alloc, call)?;
    let mut pruning = Pruning {
        text,
        replies: replies.as_slice(),
        last: Reply::ItsScore,
        has_scores: true,
    };
    memory.begin(alloc);
    let made = WandRun::new(alloc, row, combiner, threshold);
    end_refusals(alloc);
    let mut run = made?;
    Memory::None.begin(alloc);
    let is_stepwise = take_turns(&mut run, &mut pruning);
    end_refusals(alloc);
    if !is_stepwise {
        write!(text, " not turn by turn");
    }
    Ok(run.count())
}

// Turns until there is none. Whether each turn was counted, as a tick or not, and behind the last one
// nothing is done any more.
fn take_turns<C: BoundedBySum>(run: &mut WandRun<'_, C>, pruning: &mut Pruning<'_>) -> bool
    requires { IsRun run.old }
    ensures { IsRun run.new }
{
    let mut before = run.count();
    let mut is_stepwise = true;
    // each turn leaves fewer postings
    while run.turn(&mut |doc, score| pruning.call(doc, score)) {
        let count = run.count();
        let is_tick_at_most = count.ticks.wrapping_sub(before.ticks) <= 1;
        is_stepwise = is_stepwise && is_tick_at_most && count.turns.wrapping_sub(before.turns) == 1;
        before = count;
    }
    let is_over = !run.turn(&mut |doc, score| pruning.call(doc, score));
    is_stepwise && is_over && run.count() == before
}
