//! Rows on an index.

ghost use Rattle.std.specs.Prelude.{IsTrue};
ghost use Rattle.qm_index.specs.Indexed.{IsRefreshed};

use crate::given_documents::{add_part, read_given};
use crate::saved_rows::SavedRows;
use crate::searcher_rows::{weigh, write_norm};
use crate::segment_phrases::write_phrase;
use crate::segment_rows::{postings_of, write_alive, write_postings};
use crate::spelled::{
    cut, read_field, read_norms, read_number, read_option, read_term, read_texts,
};
use crate::term_rows::read_address;
use cases::{Asker, Done, Fault, Listing, Memory, behind, end_refusals, score, word, words_of};
use qm_index::{GivenDocument, Index, address_of, number_of};
use qm_postings::{Searcher, SegmentReader};
use qm_schema::{Field, IndexRecordOption, Schema, Term};
use std::alloc::Global;
use std::mem;

/// Rows on an index.
#[derive(Drop)]
pub struct IndexRows<'s> {
    schema: &'s Schema,
    index: Index,
    // the document that is made part by part
    document: GivenDocument,
    // where it is saved
    saved: SavedRows,
    // whether it was refreshed after the last call that asks for that
    is_refreshed: bool,
    ghost refreshed: { IsTrue is_refreshed → IsRefreshed index },
}

impl<'s> IndexRows<'s> {
    /// The index that the words `DEFAULT NORMS BLOCKS` spell. Some requests for memory are refused as it is
    /// made.
    pub fn make(
        alloc: Global,
        schema: &'s Schema,
        words: &[&str],
        memory: Memory,
    ) -> Result<IndexRows<'s>, Fault> {
        let norms = read_norms(word(words, 1))?;
        let block_len = read_number(word(words, 2))?;
        let copy = schema.clone(alloc)?;
        let Some(weight) = score(words, 0) else {
            return Err(Fault::NotUnderstood);
        };
        memory.begin(alloc);
        let made = Index::new(alloc, copy, weight, norms, block_len);
        end_refusals(alloc);
        Ok(IndexRows {
            schema,
            index: made?,
            document: GivenDocument::new(alloc),
            saved: SavedRows::new(alloc),
            is_refreshed: false,
        })
    }

    // Adds a document of these texts.
    fn add(&mut self, alloc: Global, spelled: &str, memory: Memory) -> Done {
        let texts = read_texts(alloc, self.schema, spelled)?;
        self.is_refreshed = false;
        memory.begin(alloc);
        Ok(self.index.add_document(alloc, texts)?)
    }

    // `add_given PARTS`: adds the document of these parts, or without any the one that was made part by part.
    fn add_given(&mut self, alloc: Global, spelled: &str, memory: Memory) -> Done {
        let document = if spelled.is_empty() {
            mem::replace(&mut self.document, GivenDocument::new(alloc))
        } else {
            read_given(alloc, self.schema, spelled)?
        };
        self.is_refreshed = false;
        memory.begin(alloc);
        Ok(self.index.add_given(alloc, document)?)
    }

    // `each N TEXTS`: adds so many documents of these texts, with a refresh behind each. Writes how many
    // parts the open segment had at most.
    fn add_each(&mut self, alloc: Global, spelled: &str, text: &mut Listing) -> Done {
        let (count, texts) = cut(spelled);
        let mut most = 0;
        // `most` is how many parts the open segment had at most behind the documents so far
        for _ in 0..read_number(count)? {
            self.add(alloc, texts, Memory::Ample)?;
            self.refresh(alloc, Memory::Ample)?;
            most = most.max(self.part_count()?);
        }
        Ok(write!(text, "{most}"))
    }

    // Deletes the document of a number, and writes whether there is one.
    fn delete(&mut self, alloc: Global, spelled: &str, memory: Memory, text: &mut Listing) -> Done {
        let number = read_number_over_all(spelled)?;
        memory.begin(alloc);
        let deleted = self.index.delete(alloc, number);
        end_refusals(alloc);
        Ok(write!(text, "{}", deleted?))
    }

    // `set_weight WORD WEIGHT`: gives a term of the first field its weight.
    fn set_weight(&mut self, alloc: Global, spelled: &str, memory: Memory) -> Done {
        let (name, weight) = cut(spelled);
        let term = read_term(alloc, Field::from_field_id(0), name)?;
        let Some(weight) = score(&[weight], 0) else {
            return Err(Fault::NotUnderstood);
        };
        memory.begin(alloc);
        Ok(self.index.set_weight(term, weight)?)
    }

    // `set_norms NORMS`: gives each length id its norm.
    fn set_norms(&mut self, alloc: Global, spelled: &str, memory: Memory) -> Done {
        let norms = read_norms(spelled)?;
        memory.begin(alloc);
        Ok(self.index.set_norms(&norms)?)
    }

    // Ends the open segment.
    fn end(&mut self, alloc: Global, memory: Memory) -> Done {
        self.is_refreshed = false;
        memory.begin(alloc);
        Ok(self.index.end_segment(alloc)?)
    }

    // `join`: joins the last two ended segments, and writes whether there were two.
    fn join(&mut self, alloc: Global, memory: Memory, text: &mut Listing) -> Done {
        memory.begin(alloc);
        let joined = self.index.join_last_segments(alloc);
        end_refusals(alloc);
        Ok(write!(text, "{}", joined?))
    }

    // `join_small`: joins the last ended segments, as long as they are small.
    fn join_small(&mut self, alloc: Global, memory: Memory) -> Done {
        memory.begin(alloc);
        Ok(self.index.join_small_segments(alloc)?)
    }

    // `leave_out`: leaves out what is deleted of the last ended segment, and writes whether anything was.
    fn leave_out(&mut self, alloc: Global, memory: Memory, text: &mut Listing) -> Done {
        memory.begin(alloc);
        let left = self.index.leave_out_deleted(alloc);
        end_refusals(alloc);
        Ok(write!(text, "{}", left?))
    }

    // Has all documents searched.
    fn refresh(&mut self, alloc: Global, memory: Memory) -> Done {
        self.is_refreshed = false;
        memory.begin(alloc);
        self.index.refresh(alloc)?;
        self.is_refreshed = true;
        Ok(())
    }

    // The same, in one part.
    fn merge(&mut self, alloc: Global, memory: Memory) -> Done {
        self.is_refreshed = false;
        memory.begin(alloc);
        self.index.merge(alloc)?;
        self.is_refreshed = true;
        Ok(())
    }

    // Puts the index that was saved in the place of the one that is there.
    fn open(&mut self, alloc: Global, memory: Memory, text: &mut Listing) -> Done {
        if let Some(index) = self.saved.open(alloc, memory, text)? {
            self.is_refreshed = false;
            self.index = index;
        }
        Ok(())
    }

    // What is searched, where that has all documents.
    fn searcher(&self) -> Result<&Searcher, Fault> {
        if !self.is_refreshed {
            return Err(Fault::NotAllowed);
        }
        Ok(self.index.searcher())
    }

    // How many parts the open segment has.
    fn part_count(&self) -> Result<usize, Fault> {
        let segments = self.searcher()?.segment_readers().len();
        Ok(segments.saturating_sub(self.index.ended()))
    }

    // The rows on what is searched.
    fn ask_searcher(&self, alloc: Global, call: &str, memory: Memory, text: &mut Listing) -> Done {
        let words = words_of(alloc, call)?;
        let searcher = self.searcher()?;
        let readers = searcher.segment_readers();
        match word(&words, 0) {
            "segments" => Ok(write_lengths(readers, text)),
            "alive" => Ok(write_all_alive(readers, text)),
            "postings" => self.ask_postings(alloc, readers, &words, text),
            "address" => write_address(searcher, &words, text),
            "number" => write_number(searcher, &words, text),
            "norm" => write_norm(searcher, &words, text),
            "phrase" => write_all_phrases(alloc, readers, &words, text),
            "length_id" => self.write_length(searcher, &words, text),
            "weight" => {
                let weight = weigh(alloc, searcher, behind(&words, 1), memory)?;
                Ok(write!(text, "{weight}"))
            }
            _ => Err(Fault::NotUnderstood),
        }
    }

    // `length_id FIELD N`: that of the document of this number.
    fn write_length(&self, searcher: &Searcher, words: &[&str], text: &mut Listing) -> Done {
        let field = read_field(self.schema, word(words, 1))?;
        let number = read_number_over_all(word(words, 2))?;
        let readers = searcher.segment_readers();
        let Some(address) = address_of(readers, number) else {
            return Err(Fault::NotAllowed);
        };
        let Some(segment) = readers.get(address.segment_ord as usize) else {
            return Err(Fault::NotAllowed);
        };
        match segment.fieldnorms(field) {
            Some(ids) if address.doc_id < ids.num_docs() => {
                Ok(write!(text, "{}", ids.fieldnorm_id(address.doc_id)))
            }
            _ => Err(Fault::NotAllowed),
        }
    }

    // `postings FIELD WORD OPTION`: what they hold over all segments.
    fn ask_postings(
        &self,
        alloc: Global,
        readers: &[SegmentReader],
        words: &[&str],
        text: &mut Listing,
    ) -> Done {
        let field = read_field(self.schema, word(words, 1))?;
        let term = read_term(alloc, field, word(words, 2))?;
        let option = read_option(word(words, 3))?;
        write_all_postings(alloc, readers, &term, option, text)
    }
}

impl<'s> Asker for IndexRows<'s> {
    fn ask(&mut self, alloc: Global, call: &str, memory: Memory, text: &mut Listing) -> Done {
        let (name, rest) = cut(call);
        match name {
            "add" => self.add(alloc, rest, memory),
            "add_given" => self.add_given(alloc, rest, memory),
            "term" | "length" => { add_part(alloc, self.schema, &mut self.document, call, memory) }
            "each" => self.add_each(alloc, rest, text),
            "delete" => self.delete(alloc, rest, memory, text),
            "set_weight" => self.set_weight(alloc, rest, memory),
            "set_norms" => self.set_norms(alloc, rest, memory),
            "end" => self.end(alloc, memory),
            "join" => self.join(alloc, memory, text),
            "join_small" => self.join_small(alloc, memory),
            "leave_out" => self.leave_out(alloc, memory, text),
            "refresh" => self.refresh(alloc, memory),
            "merge" => self.merge(alloc, memory),
            "save" => self.saved.save(alloc, &mut self.index, rest, memory, text),
            "open" => self.open(alloc, memory, text),
            "files" => self.saved.write_files(alloc, text),
            "fail" => self.saved.fail(rest),
            "remove" => self.saved.remove(alloc, rest),
            "ended_segments" => Ok(write_lengths(self.index.ended_segments(), text)),
            "ended" => Ok(write!(text, "{}", self.index.ended())),
            "document_count" => Ok(write!(text, "{}", self.index.document_count())),
            _ => self.ask_searcher(alloc, call, memory, text),
        }
    }
}

// The number of a document over all segments.
fn read_number_over_all(spelled: &str) -> Result<u64, Fault> {
    spelled.parse::<u64>().map_err(|_| Fault::NotUnderstood)
}

// `address N`: where the document of this number stands, as its segment and its number there.
fn write_address(searcher: &Searcher, words: &[&str], text: &mut Listing) -> Done {
    let number = read_number_over_all(word(words, 1))?;
    match address_of(searcher.segment_readers(), number) {
        Some(address) => Ok(write!(text, "{}/{}", address.segment_ord, address.doc_id)),
        None => Ok(text.word("none")),
    }
}

// `number SEGMENT DOCUMENT`: the number of the document at this address.
fn write_number(searcher: &Searcher, words: &[&str], text: &mut Listing) -> Done {
    let address = read_address(behind(words, 1))?;
    match number_of(searcher.segment_readers(), address) {
        Some(number) => Ok(write!(text, "{number}")),
        None => Ok(text.word("none")),
    }
}

// Writes how many documents each segment has.
fn write_lengths(readers: &[SegmentReader], text: &mut Listing) {
    // how many documents the segments before this one have is written
    for reader in readers {
        text.add(reader.max_doc());
    }
}

// Writes the alive documents of all segments, by their numbers over all of them.
fn write_all_alive(readers: &[SegmentReader], text: &mut Listing) {
    let mut first: u64 = 0;
    // those of the segments before this one are written, and this one's numbers begin at `first`
    for reader in readers {
        write_alive(reader, first, text);
        first = first.saturating_add(u64::from(reader.max_doc()));
    }
}

// Writes the postings of a term in all segments, by the documents' numbers over all of them.
fn write_all_postings(
    alloc: Global,
    readers: &[SegmentReader],
    term: &Term,
    option: IndexRecordOption,
    text: &mut Listing,
) -> Done {
    let mut first: u64 = 0;
    // the postings in the segments before this one are written, and this one's numbers begin at `first`
    for reader in readers {
        if let Some(postings) = postings_of(reader, term, option) {
            write_postings(alloc, postings, first, text)?;
        }
        first = first.saturating_add(u64::from(reader.max_doc()));
    }
    Ok(())
}

// `phrase SLOP WORD ..`: the documents of all segments that hold the words of the first field as a phrase, by
// their numbers over all of them.
fn write_all_phrases(
    alloc: Global,
    readers: &[SegmentReader],
    words: &[&str],
    text: &mut Listing,
) -> Done {
    let slop = read_number(word(words, 1))?;
    let mut first: u64 = 0;
    // the phrase's documents in the segments before this one are written, and this one's begin at `first`
    for reader in readers {
        write_phrase(alloc, reader, behind(words, 2), slop, first, text)?;
        first = first.saturating_add(u64::from(reader.max_doc()));
    }
    Ok(())
}
