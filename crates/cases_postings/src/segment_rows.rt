//! Rows on a segment.

ghost use Rattle.std.specs.Prelude.{IfSome};
ghost use Rattle.qm_postings.specs.SegmentPostings.{IsPostings};

use crate::bench::Bench;
use crate::given::{alive_of, is_alive};
use crate::offered::{can_shift, output_for, read_positions, write_list, write_numbers};
use crate::spelled::{read_bytes, read_field, read_number, read_option, read_term, write_bytes};
use crate::stored_rows::ask_rows;
use cases::{Asker, Done, Fault, Listing, Memory, end_refusals, word, words_of};
use qm_docset::{DocSet, TERMINATED};
use qm_phrase::PostingsWithOffset;
use qm_postings::{FreqReadingOption, SegmentPostings, SegmentReader};
use qm_schema::{IndexRecordOption, Term};
use std::alloc::Global;

// The rows of a block `segment`, on the given one.
impl Asker for Bench {
    fn ask(&mut self, alloc: Global, call: &str, memory: Memory, text: &mut Listing) -> Done {
        let words = words_of(alloc, call)?;
        match word(&words, 0) {
            "delete" => delete(alloc, self, &words, memory),
            "max_doc" | "num_docs" | "has_deletes" | "alive_bitset" | "alive" | "is_alive" => {
                ask_documents(alloc, &self.segment, &words, memory, text)
            }
            "length" | "lengths" | "is_constant" => ask_lengths(alloc, self, &words, memory, text),
            "rows" | "columns" | "shape" | "copies" | "pieces" | "again" | "built" => {
                ask_rows(alloc, self, &words, memory, text)
            }
            "range" => write_range(alloc, self, &words, memory, text),
            "term_info" => write_info(alloc, self, &words, memory, text),
            "postings" | "by_info" | "reading" | "copy" | "shifted" => {
                ask_postings(alloc, self, &words, memory, text)
            }
            _ => Err(Fault::NotUnderstood),
        }
    }
}

// Deletes a document of the given segment, for the blocks behind this one too.
fn delete(alloc: Global, bench: &mut Bench, words: &[&str], memory: Memory) -> Done {
    let doc = read_number(word(words, 1))?;
    if doc >= bench.segment.max_doc() {
        return Err(Fault::NotAllowed);
    }
    memory.begin(alloc);
    let deleted = bench.segment.delete(alloc, doc);
    end_refusals(alloc);
    deleted?;
    bench.alive = alive_of(alloc, &bench.segment)?;
    Ok(())
}

// Which documents there are, and which are alive.
fn ask_documents(
    alloc: Global,
    segment: &SegmentReader,
    words: &[&str],
    memory: Memory,
    text: &mut Listing,
) -> Done {
    memory.begin(alloc);
    let (max_doc, num_docs) = (segment.max_doc(), segment.num_docs());
    let has_deletes = segment.has_deletes();
    let has_bitset = segment.alive_bitset().is_some();
    end_refusals(alloc);
    match word(words, 0) {
        "max_doc" => write!(text, "{max_doc}"),
        "num_docs" => write!(text, "{num_docs}"),
        "has_deletes" => write!(text, "{has_deletes}"),
        "alive_bitset" => text.word(if has_bitset { "some" } else { "none" }),
        "alive" => write_alive(segment, 0, text),
        _ => {
            let doc = read_number(word(words, 1))?;
            memory.begin(alloc);
            let is_alive = is_alive(segment, doc);
            end_refusals(alloc);
            write!(text, "{is_alive}");
        }
    }
    Ok(())
}

/// Writes the documents of a segment that are alive, by their numbers from `first` on.
pub fn write_alive(segment: &SegmentReader, first: u64, text: &mut Listing) {
    // of the documents before this one those that are alive are written
    for doc in 0..segment.max_doc() {
        if is_alive(segment, doc) {
            text.add(first.saturating_add(u64::from(doc)));
        }
    }
}

// `length FIELD DOC`, `lengths FIELD`, of how many documents there are lengths, and `is_constant FIELD`.
fn ask_lengths(
    alloc: Global,
    bench: &Bench,
    words: &[&str],
    memory: Memory,
    text: &mut Listing,
) -> Done {
    let field = read_field(&bench.schema, word(words, 1))?;
    memory.begin(alloc);
    let ids = bench.segment.fieldnorms(field);
    end_refusals(alloc);
    let Some(ids) = ids else {
        return Ok(text.word("none"));
    };
    match word(words, 0) {
        "lengths" => return Ok(write!(text, "{}", ids.num_docs())),
        "is_constant" => return Ok(write!(text, "{}", ids.is_constant())),
        _ => {}
    }
    let doc = read_number(word(words, 2))?;
    if doc >= ids.num_docs() {
        return Err(Fault::NotAllowed);
    }
    Ok(write!(text, "{}", ids.fieldnorm_id(doc)))
}

// `range FIELD FROM TO`: the terms in that range of bytes, each with how many documents hold it; `*` is
// past all terms.
fn write_range(
    alloc: Global,
    bench: &Bench,
    words: &[&str],
    memory: Memory,
    text: &mut Listing,
) -> Done {
    let field = read_field(&bench.schema, word(words, 1))?;
    let from = read_bytes(alloc, word(words, 2))?;
    let to = read_bytes(alloc, word(words, 3))?;
    let end = if word(words, 3) == "*" {
        None
    } else {
        Some(to.as_slice())
    };
    memory.begin(alloc);
    // the terms before this one are written, each with how many documents hold it
    for (term, info) in bench.segment.inverted_index(field).term_range(&from, end) {
        text.space();
        write_bytes(term.serialized_value_bytes(), text);
        write!(text, ":{}", info.doc_freq);
    }
    Ok(())
}

// `term_info FIELD WORD`: how many documents hold the term. Behind `of` stands the field of the term, where
// it is another one.
fn write_info(
    alloc: Global,
    bench: &Bench,
    words: &[&str],
    memory: Memory,
    text: &mut Listing,
) -> Done {
    let field = read_field(&bench.schema, word(words, 1))?;
    let of = if word(words, 3) == "of" {
        read_field(&bench.schema, word(words, 4))?
    } else {
        field
    };
    let term = read_term(alloc, of, word(words, 2))?;
    memory.begin(alloc);
    let info = bench.segment.inverted_index(field).get_term_info(&term);
    end_refusals(alloc);
    match info {
        Some(info) => write!(text, "{}", info.doc_freq),
        None => text.word("none"),
    }
    Ok(())
}

// Calls on the postings of `FIELD WORD OPTION`.
fn ask_postings(
    alloc: Global,
    bench: &Bench,
    words: &[&str],
    memory: Memory,
    text: &mut Listing,
) -> Done {
    let field = read_field(&bench.schema, word(words, 1))?;
    let term = read_term(alloc, field, word(words, 2))?;
    let option = read_option(word(words, 3))?;
    memory.begin(alloc);
    let found = if word(words, 0) == "by_info" {
        postings_by_info(&bench.segment, &term, option)
    } else {
        postings_of(&bench.segment, &term, option)
    };
    end_refusals(alloc);
    let Some(postings) = found else {
        return Ok(text.word("none"));
    };
    match word(words, 0) {
        "reading" => Ok(text.word(reading_name(postings.freq_reading_option()))),
        "copy" => write_copy(postings, text),
        "shifted" => write_shifted(alloc, postings, words, memory, text),
        _ => write_postings(alloc, postings, 0, text),
    }
}

/// The postings of a term of a segment, from the first document on.
pub fn postings_of<'s>(
    segment: &'s SegmentReader,
    term: &Term,
    option: IndexRecordOption,
) -> Option<SegmentPostings<'s>>
    ensures { IfSome result IsPostings }
{
    segment
        .inverted_index(term.field())
        .read_postings(term, option)
}

// The same, by what the index knows of the term.
fn postings_by_info<'s>(
    segment: &'s SegmentReader,
    term: &Term,
    option: IndexRecordOption,
) -> Option<SegmentPostings<'s>>
    ensures { IfSome result IsPostings }
{
    let index = segment.inverted_index(term.field());
    match index.get_term_info(term) {
        Some(info) => Some(index.read_postings_from_terminfo(&info, option)),
        None => None,
    }
}

/// The name of what is read of frequencies.
pub fn reading_name(reading: FreqReadingOption) -> &'static str {
    match reading {
        FreqReadingOption::NoFreq => "no freq",
        FreqReadingOption::SkipFreq => "skip freq",
        FreqReadingOption::ReadFreq => "read freq",
    }
}

// Writes what a copy counts, and where it and the first one stand then.
fn write_copy(postings: SegmentPostings<'_>, text: &mut Listing) -> Done
    requires { IsPostings postings }
{
    let mut copy = postings;
    write!(text, "{} ", copy.count_including_deleted());
    text.document(copy.doc());
    text.word(" ");
    Ok(text.document(postings.doc()))
}

// Writes the positions of a document, by postings with an offset: `shifted FIELD WORD OPTION DOC OFFSET`.
fn write_shifted(
    alloc: Global,
    postings: SegmentPostings<'_>,
    words: &[&str],
    memory: Memory,
    text: &mut Listing,
) -> Done
    requires { IsPostings postings }
{
    let mut postings = postings;
    let doc = read_number(word(words, 4))?;
    let offset = read_number(word(words, 5))?;
    if doc >= TERMINATED || postings.seek(doc) >= TERMINATED {
        return Err(Fault::NotAllowed);
    }
    let plain = read_positions(alloc, &mut postings, Memory::Ample)?;
    if !can_shift(&plain, offset) {
        return Err(Fault::NotAllowed);
    }
    let mut output = output_for(alloc, &postings, 0)?;
    let mut shifted = PostingsWithOffset::new(postings, offset);
    memory.begin(alloc);
    shifted.positions(&mut output);
    end_refusals(alloc);
    Ok(write_numbers(&output, text))
}

/// Writes what postings hold, of documents that are numbered from `first` on.
pub fn write_postings(
    alloc: Global,
    postings: SegmentPostings<'_>,
    first: u64,
    text: &mut Listing,
) -> Done
    requires { IsPostings postings }
{
    let mut postings = postings;
    write_list(alloc, &mut postings, first, 0, text)
}
