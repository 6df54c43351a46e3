//! Blocks of a list of documents.

use crate::answer::Answer;
use cases::{
    Asker, Block, Done, Listing, Memory, Report, behind, end_refusals, play_asked, read_document,
    read_documents,
};
use qm_docset::{DocId, are_documents, gallop};
use std::alloc::Global;

/// Plays `documents DOC..`.
pub fn play_documents(alloc: Global, block: Block<'_>, report: &mut Report) -> Done {
    let docs = read_documents(alloc, behind(block.words, 1))?;
    let mut asked = AskedDocuments { docs };
    play_asked(alloc, &mut asked, block.rows, report)
}

#[derive(Drop)]
struct AskedDocuments {
    docs: Vec<DocId>,
}

impl Asker for AskedDocuments {
    fn ask(&mut self, alloc: Global, call: &str, memory: Memory, text: &mut Listing) -> Done {
        memory.begin(alloc);
        let answer = answer(&self.docs, call);
        end_refusals(alloc);
        answer.write(text)
    }
}

fn answer(docs: &[DocId], call: &str) -> Answer {
    if call == "are_documents" {
        return Answer::Truth(are_documents(docs));
    }
    let Some((start, target)) = call
        .strip_prefix("gallop ")
        .and_then(|words| words.split_once(' '))
    else {
        return Answer::NotUnderstood;
    };
    let (Ok(start), Some(target)) = (start.parse::<usize>(), read_document(target)) else {
        return Answer::NotUnderstood;
    };
    if are_documents(docs) && start <= docs.len() {
        Answer::Number(gallop(docs, start, target) as u64)
    } else {
        Answer::NotAllowed
    }
}
