//! The answer to one query.

use crate::explain::{Explained, write_explanation};
use crate::listing::{Hit, Listing};
use crate::options::Options;
use crate::searched::{Searched, build};
use crate::shown::{Shown, line_of, shown_part, text_of, write_json, write_plain};
use crate::stats::{Stopwatch, tell_found, tell_scored};
use crate::stop::Stop;
use anyhow::anyhow;
use birch_index::{Index, note};
use birch_text::{Clause, Cleaned, Fault, Marker, QueryFault, QueryTree, Scope, read_query};
use qm_postings::DocAddress;
use qm_query::{Query, TopDocs};
use qm_schema::QueryError;
use qm_store::DocumentPlace;
use std::alloc::AllocError;
use std::io;
use std::io::Write;
use std::time::Duration;

/// What a query asks for; none where it isn't understood, which is told on standard error.
pub fn understand(
    rt: &HostRuntime,
    options: &Options<'_>,
    text: &str,
) -> Result<Option<QueryTree>, Stop> {
    match read_query(
        rt.alloc(),
        options.reading.accents,
        options.reading.form.fields(),
        text,
    ) {
        Ok(tree) => Ok(Some(tree)),
        Err(QueryFault::Memory) => Err(Stop::from(AllocError)),
        Err(QueryFault::NotUnderstood { fault, place }) => {
            explain_fault(rt, text, fault, place);
            Ok(None)
        }
    }
}

// Shows where a query is not understood.
fn explain_fault(rt: &HostRuntime, text: &str, fault: Fault, place: usize) {
    let letters = text.get(..place).unwrap_or("").chars().count();
    let text = Cleaned(text);
    let _ = eprintln!(rt; "birch: {fault}");
    let _ = eprintln!(rt; "  {text}");
    let _ = eprint!(rt; "  ");
    // as many spaces are written as there were turns
    for _ in 0..letters {
        let _ = eprint!(rt; " ");
    }
    let _ = eprintln!(rt; "^");
}

/// Answers a query: writes what it finds, and answers how many results there are.
pub fn answer<W: Write>(
    rt: &HostRuntime,
    options: &Options<'_>,
    index: &mut Index,
    tree: &QueryTree,
    is_coloured: bool,
    out: &mut W,
) -> Result<usize, Stop> {
    let watch = Stopwatch::start(rt)?;
    let clauses = tree.clauses(rt.alloc())?;
    index.want(rt.alloc(), &clauses)?;
    let index: &Index = index;
    let searched = build(rt.alloc(), index, tree)?;
    note_unknown(rt, index, &clauses)?;
    let clauses = tree.wanted(rt.alloc())?;
    let asked = Asked {
        rt,
        options,
        index,
        tree,
        clauses: clauses.as_slice(),
        searched: &searched,
        is_coloured,
    };
    if options.is_count {
        asked.count(out)
    } else {
        asked.search(watch, out)
    }
}

// Tells which fields that are asked for no document has.
fn note_unknown(rt: &HostRuntime, index: &Index, clauses: &[&Clause]) -> Result<(), QueryError> {
    // the fields before this one that no document has are told of
    for clause in clauses {
        if let Scope::Field(name) = &clause.scope {
            let any = index.fields.term(rt.alloc(), clause, "")?;
            if index.held(&any) == 0 {
                let _ = eprintln!(rt; "birch: no document has a field {name}");
            }
        }
    }
    Ok(())
}

// A query of an index, and how it is answered.
#[derive(Clone, Copy)]
struct Asked<'a, 'o> {
    rt: &'a HostRuntime,
    options: &'a Options<'o>,
    index: &'a Index,
    tree: &'a QueryTree,
    clauses: &'a [&'a Clause],
    searched: &'a Searched,
    is_coloured: bool,
}

// What it took to find the results.
#[derive(Clone, Copy, Default)]
struct Effort {
    // how many documents were scored, where they were looked for last
    scored: u64,
    took: Duration,
}

impl<'a, 'o> Asked<'a, 'o> {
    // Writes how many documents match.
    fn count<W: Write>(&self, out: &mut W) -> Result<usize, Stop> {
        let count = self
            .searched
            .query
            .count(self.rt.alloc(), &self.index.searcher)?;
        writeln!(out, "{count}")?;
        Ok(count)
    }

    // Writes the best results.
    fn search<W: Write>(&self, watch: Stopwatch, out: &mut W) -> Result<usize, Stop> {
        let options = self.options;
        let last = options.skipped.saturating_add(options.limit);
        let wanted = last.max(options.explained.unwrap_or(0));
        let mut listing = Listing::new(self.rt.alloc(), options.unit, wanted);
        let effort = self.fill(&mut listing, watch)?;
        let hits = listing.into_hits();
        let listed = match options.explained {
            Some(_) => hits.len(),
            None => hits.len().saturating_sub(options.skipped),
        };
        if options.has_stats {
            self.tell(listed, effort)?;
        }
        match options.explained {
            Some(number) => self.explain(hits, number, out)?,
            None => self.list(hits, out)?,
        }
        Ok(listed)
    }

    // Finds the results. Where several documents are one, more of them are looked for, each time twice as many.
    fn fill(&self, listing: &mut Listing, watch: Stopwatch) -> Result<Effort, Stop> {
        let alloc = self.rt.alloc();
        let Searched { query, statistics } = self.searched;
        let mut most = listing.first_limit();
        let mut taken = 0;
        let mut effort = Effort::default();
        // the first documents, as many as are taken, were entered
        for _ in 0..usize::BITS {
            let best = TopDocs::with_limit(most);
            let found = best.search_counted(alloc, query, &self.index.searcher, statistics)?;
            effort.scored = found.scored;
            effort.took = watch.elapsed(self.rt)?;
            let documents = found.documents.get(taken..).unwrap_or(&[]);
            let is_done = self.enter(listing, documents)?;
            if is_done || found.documents.len() < most {
                break;
            }
            taken = found.documents.len();
            most = most.saturating_mul(2);
        }
        Ok(effort)
    }

    // Enters documents in their order, and answers whether no others are wanted. All is looked for before the first
    // result is written, so that where this can't be told an answer can still be found in another way.
    fn enter(&self, listing: &mut Listing, found: &[(i64, DocAddress)]) -> Result<bool, Stop> {
        // the documents before this one are in the listing, and none was behind its end
        for (score, address) in found {
            if listing.is_behind(*score) {
                return Ok(true);
            }
            if let Some(place) = self.index.place(self.rt.alloc(), *address)? {
                let text = if listing.wants_text() {
                    Some(self.text(place)?)
                } else {
                    None
                };
                listing.add(Hit {
                    score: *score,
                    address: *address,
                    place,
                    text,
                    more: 0,
                })?;
            }
        }
        Ok(listing.is_enough())
    }

    // Tells how many documents match, how long it took to find the best, and how many were scored.
    fn tell(&self, listed: usize, effort: Effort) -> Result<(), Stop> {
        let alloc = self.rt.alloc();
        let matching = self.searched.query.count(alloc, &self.index.searcher)?;
        tell_found(self.rt, listed, matching, effort.took)?;
        tell_scored(self.rt, matching, effort.scored)?;
        Ok(())
    }

    // Writes all results but the first, which are skipped.
    fn list<W: Write>(&self, hits: Vec<Hit>, out: &mut W) -> Result<(), Stop> {
        let mut marker = Marker::new(self.rt.alloc(), self.options.reading.accents, self.clauses)?;
        // the documents before this one are written, but for those to be skipped
        for (before, hit) in hits.into_iter().enumerate() {
            if before >= self.options.skipped {
                self.write(&mut marker, before.saturating_add(1), hit, out)?;
            }
        }
        Ok(())
    }

    // Writes one result.
    fn write<W: Write>(
        &self,
        marker: &mut Marker<'_>,
        number: usize,
        hit: Hit,
        out: &mut W,
    ) -> Result<(), Stop> {
        let Some(shown) = self.shown(marker, hit)? else {
            return Ok(());
        };
        if self.options.is_json {
            write_json(self.rt.alloc(), out, &shown)?;
        } else {
            write_plain(out, number, &shown, self.is_coloured)?;
        }
        Ok(())
    }

    // A result with its text.
    fn shown(&self, marker: &mut Marker<'_>, hit: Hit) -> Result<Option<Shown<'a>>, Stop> {
        let Hit {
            score,
            place,
            text,
            more,
            ..
        } = hit;
        let Some(file) = self.index.files.get(place.file as usize) else {
            return Ok(None);
        };
        let text = self.text_read(text, place)?;
        let marks = marker.marks(self.rt.alloc(), text.as_str())?;
        let snippet = shown_part(text.as_str(), &marks);
        let line = line_of(
            self.options.reading.form,
            place,
            text.as_str(),
            &marks,
            snippet,
        );
        Ok(Some(Shown {
            path: file.path.as_str(),
            line,
            score,
            text,
            marks,
            snippet,
            more,
        }))
    }

    // The text of a document, where it was read, and else read now.
    fn text_read(&self, text: Option<String>, place: DocumentPlace) -> Result<String, Stop> {
        match text {
            Some(text) => Ok(text),
            None => self.text(place),
        }
    }

    // The text of a document; a file that can't be read any more, or has changed, is noted, and gives none.
    fn text(&self, place: DocumentPlace) -> Result<String, Stop> {
        let nothing = String::new(self.rt.alloc());
        let Some(file) = self.index.files.get(place.file as usize) else {
            return Ok(nothing);
        };
        let path = file.path.as_str();
        match text_of(self.rt, &self.options.reading, file, place) {
            Ok(Some(text)) => return Ok(text),
            Ok(None) => note(self.rt, path, "has changed since it was read"),
            Err(error) if error.kind() == io::ErrorKind::OutOfMemory => {
                return Err(Stop::from(error));
            }
            Err(error) => {
                let path = Cleaned(path);
                let _ = eprintln!(self.rt; "birch: {path}: {error}");
            }
        }
        Ok(nothing)
    }

    // Writes one result, and why it scores what it does.
    fn explain<W: Write>(&self, hits: Vec<Hit>, number: usize, out: &mut W) -> Result<(), Stop> {
        let count = hits.len();
        let Some(hit) = hits.into_iter().nth(number.saturating_sub(1)) else {
            if count > 0 {
                let what = anyhow!("there are {count} results, and none has the number {number}");
                return Err(Stop::Failed(what));
            }
            return Ok(());
        };
        let alloc = self.rt.alloc();
        let explained = Explained {
            alloc,
            index: self.index,
            address: hit.address,
        };
        let mut marker = Marker::new(alloc, self.options.reading.accents, self.clauses)?;
        self.write(&mut marker, number, hit, out)?;
        let Searched { query, statistics } = self.searched;
        let explanation = explained.explanation(query, statistics)?;
        explained.write_weights(out, self.tree)?;
        write_explanation(alloc, out, &explanation)?;
        Ok(())
    }
}
