//! The frequencies of postings.

ghost use Rattle.std.specs.Prelude.{◌≡◌, ◌≤◌, ◌<◌, ◌+◌, ◌-◌, ◌++◌, ◌∷◌, ◌↔◌, [], All, IsTrue, List, ℕ, drop, length, slice_index, sum, take, IfOk, IfSome, IsOkUnless, OnErr, OnOk};
ghost use Rattle.qm_postings.specs.Kept.{greatest};
ghost use Rattle.qm_postings.specs.Frequencies.{listed};

use crate::term_arrays::sum_of;
use qm_schema::QueryError;
use std::alloc::{AllocError, Global};
use std::marker::Model;

/// How often terms stand in the documents of a row of postings. Where none of these numbers is over 255, as in
/// most segments, each takes one byte; else some take one, and the others four.
///
/// Contracts see the list of them.
#[derive(Debug, Drop)]
pub(crate) struct Frequencies {
    small: Vec<u8>,
    // those behind the small ones
    large: Vec<u32>,
}

impl Model for Frequencies {
    ghost use Rattle.std.specs.Prelude.{ℕ, List, ◌++◌};
    ghost use Rattle.std.specs.Coded.{coded_list, coded_ℕ};

    ghost Value = { List ℕ };

    ghost coded = { coded_list coded_ℕ };

    ghost view = { λ f. f.small.items ++ f.large.items };
}

impl Frequencies {
    // None yet.
    pub(crate) fn empty(alloc: Global) -> Frequencies
        ensures { result ≡ [] }
    {
        Frequencies {
            small: Vec::new(alloc),
            large: Vec::new(alloc),
        }
    }

    // How many there are.
    pub(crate) fn len(&self) -> usize
        ensures { result ≡ length self.now }
    {
        self.small.len() + self.large.len()
    }

    // Makes room for so many more.
    pub(crate) fn reserve(&mut self, count: usize) -> Result<(), AllocError>
        ensures { self.new ≡ self.old }
    {
        if self.large.is_empty() {
            self.small.reserve(count)
        } else {
            self.large.reserve(count)
        }
    }

    // Adds one behind the others.
    #[inline]
    pub(crate) fn push(&mut self, frequency: u32) -> Result<(), AllocError>
        ensures added { OnOk result (self.new ≡ self.old ++ frequency ∷ []) }
        ensures unchanged { OnErr result (self.new ≡ self.old) }
    {
        if frequency <= 255 && self.large.is_empty() {
            Ok(self.small.push(frequency as u8)?)
        } else {
            Ok(self.large.push(frequency)?)
        }
    }

    // The frequency at a place.
    #[inline]
    pub(crate) fn at(&self, place: usize) -> u32
        requires { place < length self.now }
        ensures { result ≡ slice_index self.now place }
    {
        self.all().at(place)
    }

    // All of them.
    #[inline]
    fn all(&self) -> FrequencyPart<'_>
        ensures { listed result ≡ self.now }
    {
        FrequencyPart {
            small: &self.small,
            large: &self.large,
        }
    }

    // Adds these behind the others.
    pub(crate) fn extend_from_slice(&mut self, frequencies: &[u32]) -> Result<(), AllocError>
        ensures added { OnOk result (self.new ≡ self.old ++ frequencies.now) }
        ensures grown { (more : List ℕ) × (self.new ≡ self.old ++ more) }
    {
        // those before it are there
        for frequency in frequencies {
            self.push(*frequency)?;
        }
        Ok(())
    }

    // Leaves the first so many of them.
    pub(crate) fn truncate(&mut self, count: usize)
        ensures { self.new ≡ take count self.old }
    {
        self.large.truncate(count.saturating_sub(self.small.len()));
        self.small.truncate(count);
    }

    // These frequencies: copied where all are small, and else kept as they are.
    pub(crate) fn new(alloc: Global, frequencies: Vec<u32>) -> Result<Frequencies, QueryError>
        ensures same { IfOk result (λ it. it ≡ frequencies.items) }
        ensures refused { IsOkUnless result QueryError.Memory }
    {
        match small_of(alloc, &frequencies)? {
            Some(small) => Ok(Frequencies {
                small,
                large: Vec::new(alloc),
            }),
            None => Ok(Frequencies {
                small: Vec::new(alloc),
                large: frequencies,
            }),
        }
    }

    // So many of them, from a place on.
    pub(crate) fn part(&self, start: usize, count: usize) -> FrequencyPart<'_>
        requires { start + count ≤ length self.now }
        ensures { listed result ≡ take count (drop start self.now) }
    {
        self.all().part(start, start + count)
    }
}

// These frequencies in a byte each, and none where one of them is over 255.
fn small_of(alloc: Global, frequencies: &[u32]) -> Result<Option<Vec<u8>>, QueryError>
    ensures same { IfOk result (λ small. IfSome small (λ it. it.items ≡ frequencies.now)) }
    ensures refused { IsOkUnless result QueryError.Memory }
{
    let mut small = Vec::with_capacity(alloc, frequencies.len())?;
    // the frequencies before this one are there, and none is above 255
    for frequency in frequencies {
        if *frequency > 255 {
            return Ok(None);
        }
        small.push(*frequency as u8)?;
    }
    Ok(Some(small))
}

/// The frequencies of a range of postings.
#[derive(Clone, Copy, Debug)]
pub(crate) struct FrequencyPart<'a> {
    pub(crate) small: &'a [u8],
    // those behind the small ones
    pub(crate) large: &'a [u32],
}

impl<'a> FrequencyPart<'a> {
    // The frequency at a place.
    #[inline]
    pub(crate) fn at(&self, place: usize) -> u32
        requires { place < length (listed self.now) }
        ensures { result ≡ slice_index (listed self.now) place }
    {
        match self.small.get(place) {
            Some(frequency) => u32::from(*frequency),
            None => self.large[place - self.small.len()],
        }
    }

    // Those of a range of these postings.
    pub(crate) fn part(&self, start: usize, end: usize) -> FrequencyPart<'a>
        requires start { start ≤ end }
        requires end { end ≤ length (listed self.now) }
        ensures { listed result ≡ take (end - start) (drop start (listed self.now)) }
    {
        let count = self.small.len();
        FrequencyPart {
            small: &self.small[start.min(count)..end.min(count)],
            large: &self.large[start.saturating_sub(count)..end.saturating_sub(count)],
        }
    }

    // The sum of those of a range of these postings.
    #[inline]
    pub(crate) fn sum_between(&self, start: usize, end: usize) -> usize
        requires start { start ≤ end }
        requires end { end ≤ length (listed self.now) }
        requires fits { sum (take (end - start) (drop start (listed self.now))) ≤ usize.MAX }
        ensures { result ≡ sum (take (end - start) (drop start (listed self.now))) }
    {
        if end <= self.small.len() {
            // as in most segments
            sum_of_small(&self.small[start..end])
        } else {
            self.part(start, end).sum()
        }
    }

    // The same frequencies in memory of their own.
    pub(crate) fn copy(&self, alloc: Global) -> Result<Vec<u32>, AllocError>
        ensures same { IfOk result (λ it. it.items ≡ listed self.now) }
    {
        let mut frequencies = Vec::with_capacity(alloc, self.small.len() + self.large.len())?;
        // the frequencies before this one are copied
        for frequency in self.small {
            frequencies.push(u32::from(*frequency))?;
        }
        frequencies.extend_from_slice(self.large)?;
        Ok(frequencies)
    }

    // Whether each is above 0.
    pub(crate) fn are_above_0(&self) -> bool
        ensures { IsTrue result ↔ All (λ f. 0 < f) (listed self.now) }
    {
        small_are_above_0(self.small) && large_are_above_0(self.large)
    }

    pub(crate) fn len(&self) -> usize
        ensures { result ≡ length (listed self.now) }
    {
        self.small.len() + self.large.len()
    }

    // The greatest of them, and 0 where there are none.
    pub(crate) fn greatest(&self) -> u32
        ensures { result ≡ greatest (listed self.now) }
    {
        greatest_of_small(self.small).max(greatest_of(self.large))
    }

    pub(crate) fn sum(&self) -> usize
        requires { sum (listed self.now) ≤ usize.MAX }
        ensures { result ≡ sum (listed self.now) }
    {
        sum_of_small(self.small) + sum_of(self.large)
    }
}

fn sum_of_small(frequencies: &[u8]) -> usize
    requires { sum frequencies.now ≤ usize.MAX }
    ensures { result ≡ sum frequencies.now }
{
    let mut total = 0;
    // the sum of the frequencies before this one
    for frequency in frequencies {
        total += *frequency as usize;
    }
    total
}

fn small_are_above_0(frequencies: &[u8]) -> bool
    ensures { IsTrue result ↔ All (λ f. 0 < f) frequencies.now }
{
    frequencies.iter().all(|frequency| *frequency > 0)
}

fn large_are_above_0(frequencies: &[u32]) -> bool
    ensures { IsTrue result ↔ All (λ f. 0 < f) frequencies.now }
{
    frequencies.iter().all(|frequency| *frequency > 0)
}

fn greatest_of_small(frequencies: &[u8]) -> u32
    ensures { result ≡ greatest frequencies.now }
{
    let mut greatest = 0;
    // the greatest of the frequencies before this one
    for frequency in frequencies {
        greatest = greatest.max(*frequency);
    }
    u32::from(greatest)
}

fn greatest_of(frequencies: &[u32]) -> u32
    ensures { result ≡ greatest frequencies.now }
{
    let mut greatest = 0;
    // the greatest of the frequencies before this one
    for frequency in frequencies {
        greatest = greatest.max(*frequency);
    }
    greatest
}
