//! Blocks of a cursor that is made anew for each row.

ghost use Rattle.std.specs.Prelude.{◌≤◌};
ghost use Rattle.qm_docset.specs.Lists.{IsPlaced};

use crate::cursors::{read_ascending, read_bits};
use cases::{
    Asker, Block, Done, Fault, Listing, Memory, Moves, Report, behind, end_refusals, number,
    play_asked, read_document, read_leaf, word,
};
use qm_combine::{AllScorer, ConstScorer, Scorer, scores_left};
use qm_docset::{DocId, DocSet, Score, TERMINATED, VecDocSet, documents_left, seek_by_steps};
use qm_schema::QueryError;
use std::alloc::Global;

/// Plays `from DOC CURSOR`: each row is on the cursor made anew, which was sent to the document.
pub fn play_anew(alloc: Global, block: Block<'_>, report: &mut Report) -> Done {
    let Some(from) = number(block.words, 1) else {
        return Err(Fault::NotUnderstood);
    };
    let mut asked = AskedAnew {
        from,
        words: behind(block.words, 2),
    };
    play_asked(alloc, &mut asked, block.rows, report)
}

#[derive(Drop)]
struct AskedAnew<'a, 'b> {
    from: DocId,
    words: &'a [&'b str],
}

impl<'a, 'b> Asker for AskedAnew<'a, 'b> {
    fn ask(&mut self, alloc: Global, call: &str, memory: Memory, text: &mut Listing) -> Done {
        let request = Request {
            alloc,
            from: self.from,
            call,
            memory,
        };
        match word(self.words, 0) {
            "all" => ask_all(request, self.words, text),
            "vec" => ask_vec(request, self.words, text),
            "bits" => ask_bits(request, self.words, text),
            _ => ask_leaf(request, self.words, text),
        }
    }
}

// A call on a cursor that was sent to a document.
#[derive(Clone, Copy)]
struct Request<'a> {
    alloc: Global,
    from: DocId,
    call: &'a str,
    memory: Memory,
}

fn ask_all(request: Request<'_>, words: &[&str], text: &mut Listing) -> Done {
    let Some(max_doc) = number(words, 1) else {
        return Err(Fault::NotUnderstood);
    };
    if max_doc > TERMINATED {
        return Err(Fault::NotAllowed);
    }
    ask_scorer(request, AllScorer::new(max_doc), text)
}

fn ask_vec(request: Request<'_>, words: &[&str], text: &mut Listing) -> Done {
    let docs = read_ascending(request.alloc, behind(words, 1))?;
    ask_scorer(request, ConstScorer::from(VecDocSet::new(docs)), text)
}

fn ask_bits(request: Request<'_>, words: &[&str], text: &mut Listing) -> Done {
    let bits = read_bits(request.alloc, behind(words, 1), Memory::Ample)?;
    ask_scorer(request, ConstScorer::from(bits), text)
}

fn ask_leaf(request: Request<'_>, words: &[&str], text: &mut Listing) -> Done {
    let moves = Moves::new();
    let leaf = read_leaf(request.alloc, words, true, &moves)?;
    ask_scorer(request, leaf, text)
}

// Makes the call, and writes what it asks for of its answer.
fn ask_scorer<S: Scorer>(request: Request<'_>, scorer: S, text: &mut Listing) -> Done
    requires { S.valid scorer }
{
    let mut scorer = scorer;
    scorer.seek(request.from.min(TERMINATED));
    if let Some(part) = request.call.strip_prefix("documents_left") {
        ask_documents(request, scorer, part, text)
    } else if let Some(part) = request.call.strip_prefix("scores_left") {
        ask_scores(request, scorer, part, text)
    } else {
        ask_seek(request, scorer, text)
    }
}

// Makes a seek of some kind, and writes the document that it leads to, and the one behind.
fn ask_seek<S: Scorer>(request: Request<'_>, scorer: S, text: &mut Listing) -> Done
    requires { IsPlaced S.DocSet scorer }
{
    let Some((name, target)) = request.call.split_once(' ') else {
        return Err(Fault::NotUnderstood);
    };
    let Some(target) = read_document(target) else {
        return Err(Fault::NotUnderstood);
    };
    let mut scorer = scorer;
    request.memory.begin(request.alloc);
    let found = seek_by_name(&mut scorer, name, target.min(TERMINATED));
    end_refusals(request.alloc);
    let Some((doc, next)) = found else {
        return Err(Fault::NotUnderstood);
    };
    text.document(doc);
    text.word(" then ");
    Ok(text.document(next))
}

// The document that a seek leads to, and the next one.
fn seek_by_name<S: Scorer>(scorer: &mut S, name: &str, target: DocId) -> Option<(DocId, DocId)>
    requires placed { IsPlaced S.DocSet scorer.old }
    requires target { target ≤ TERMINATED }
{
    let doc = match name {
        "seek" => scorer.seek(target),
        "seek_by_steps" => seek_by_steps(scorer, target),
        _ => return None,
    };
    Some((doc, scorer.advance()))
}

fn ask_documents<S: Scorer>(request: Request<'_>, scorer: S, part: &str, text: &mut Listing) -> Done
    requires { IsPlaced S.DocSet scorer }
{
    request.memory.begin(request.alloc);
    let left = documents_left(request.alloc, scorer);
    end_refusals(request.alloc);
    match left {
        Ok(left) => write_documents(&left, part, text),
        Err(_) => Err(Fault::Refused(QueryError::Memory)),
    }
}

fn ask_scores<S: Scorer>(request: Request<'_>, scorer: S, part: &str, text: &mut Listing) -> Done
    requires { IsPlaced S.DocSet scorer }
{
    request.memory.begin(request.alloc);
    let left = scores_left(request.alloc, scorer);
    end_refusals(request.alloc);
    match left {
        Ok(left) => write_scores(&left, part, text),
        Err(_) => Err(Fault::Refused(QueryError::Memory)),
    }
}

// What is written of a list.
#[derive(Clone, Copy)]
enum Part {
    All,
    Count,
    At(usize),
}

impl Part {
    // reads what stands behind a call: nothing, `count` or `at N`
    fn read(part: &str) -> Option<Part> {
        match part {
            "" => Some(Part::All),
            " count" => Some(Part::Count),
            _ => {
                let place = part.strip_prefix(" at ")?;
                Some(Part::At(place.parse().ok()?))
            }
        }
    }

    // whether the item at a place is written
    fn has(self, place: usize) -> bool {
        match self {
            Part::All => true,
            Part::Count => false,
            Part::At(wanted) => place == wanted,
        }
    }
}

// Writes the documents that are asked for, or how many there are.
fn write_documents(left: &[DocId], part: &str, text: &mut Listing) -> Done {
    let Some(part) = Part::read(part) else {
        return Err(Fault::NotUnderstood);
    };
    if matches!(part, Part::Count) {
        text.add(left.len());
    }
    // those asked for before this place are written
    for (place, doc) in left.iter().enumerate() {
        if part.has(place) {
            text.next(*doc);
        }
    }
    Ok(())
}

// The same of documents with their scores.
fn write_scores(left: &[(DocId, Score)], part: &str, text: &mut Listing) -> Done {
    let Some(part) = Part::read(part) else {
        return Err(Fault::NotUnderstood);
    };
    if matches!(part, Part::Count) {
        text.add(left.len());
    }
    // as above
    for (place, (doc, score)) in left.iter().enumerate() {
        if part.has(place) {
            text.score(*doc, *score);
        }
    }
    Ok(())
}
