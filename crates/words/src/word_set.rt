//! Words, none twice.
ghost use Rattle.std.specs.Prelude.{◌≡◌, [], take, length, slice_get, IfOk, OnOk, OnErr};
ghost use Rattle.words.specs.Puts.{IsPut};
ghost use Rattle.words.specs.Words.{AreApart};

use crate::index::put_indexed;
use buckets::{Index, index_all};
use std::alloc::{AllocError, Global};
use std::marker::Model;

// So few words are looked through one by one, without an index.
const FEW: usize = 12;

// So many are looked through one by one too: an index has places of 32 bits, and room for no more.
const MANY: usize = 2147483584;

/// Words, none twice, in the order in which they were put. If there are more than a few, an index finds them. It is made when a word is
/// put.
#[derive(Drop)]
pub struct WordSet {
    words: Vec<u128>,
    index: Index,
}

impl Model for WordSet {
    ghost use Rattle.std.specs.Prelude.{List, ℕ};
    ghost use Rattle.buckets.specs.Index.{Indexes, word_bucket};
    ghost use Rattle.words.specs.Words.{AreApart};

    ghost Value = { List ℕ };

    ghost view = { λ s. s.words.items };

    ghost invariant = { λ s. AreApart s.words.items
        × Indexes word_bucket s.words.items s.index.last.items s.index.before.items };
}

impl WordSet {
    /// No words.
    pub fn new(alloc: Global) -> WordSet
        ensures { result ≡ [] }
    {
        WordSet {
            words: Vec::new(alloc),
            index: Index::new(alloc),
        }
    }

    /// How many words there are.
    pub fn len(&self) -> usize
        ensures len { result ≡ length self.now }
        ensures apart { AreApart self.now }
    {
        self.words.len()
    }

    /// The number of words for which there is room.
    pub fn capacity(&self) -> usize {
        self.words.capacity()
    }

    /// The word at place `at`, or `None` beyond the last word. Takes constant time.
    pub fn get(&self, at: usize) -> Option<u128>
        ensures { result ≡ slice_get self.now at }
    {
        self.words.get(at).copied()
    }

    /// Takes all words out.
    pub fn clear(&mut self)
        ensures { self.new ≡ [] }
    {
        self.words.clear();
        self.index.clear();
    }

    /// Keeps the first `len` words. If it removes indexed words, the next put indexes all again.
    pub fn truncate(&mut self, len: usize)
        ensures { self.new ≡ take len self.old }
    {
        if len < self.index.before.len() {
            self.index.clear();
        }
        self.words.truncate(len);
    }

    /// Adds the word if it is not there. `AllocError` if there is no memory: then the words are as they were. Looks the word up by the
    /// index if there are more than a few words; if some words are not indexed, indexes all of them first.
    #[inline(always)]
    pub fn put(&mut self, word: u128) -> Result<(), AllocError>
        ensures put { OnOk result (IsPut word self.old self.new) }
        ensures err { OnErr result (self.new ≡ self.old) }
    {
        let len = self.words.len();
        if self.index.before.len() == len && len < self.index.last.len() {
            return put_indexed(&mut self.words, &mut self.index, word);
        }
        self.put_anew(word)
    }

    // The same, if not all are indexed, or there are too many or too few for it.
    #[inline(never)]
    fn put_anew(&mut self, word: u128) -> Result<(), AllocError>
        ensures put { OnOk result (IsPut word self.old self.new) }
        ensures err { OnErr result (self.new ≡ self.old) }
    {
        if self.words.len() < FEW || self.words.len() >= MANY {
            return self.put_looked_through(word);
        }
        let wanted = 2 * self.words.len() + 64;
        index_all(&self.words, wanted, &mut self.index)?;
        put_indexed(&mut self.words, &mut self.index, word)
    }

    // The same, if all are looked through.
    #[inline(always)]
    fn put_looked_through(&mut self, word: u128) -> Result<(), AllocError>
        ensures put { OnOk result (IsPut word self.old self.new) }
        ensures err { OnErr result (self.new ≡ self.old) }
    {
        if !self.words.contains(&word) {
            self.words.push(word)?;
        }
        Ok(())
    }

    /// The same words, with memory of their own. They are indexed when one is put. Costs O(words).
    pub fn copied(&self, alloc: Global) -> Result<WordSet, AllocError>
        ensures { IfOk result (λ words. words ≡ self.now) }
    {
        let mut words = Vec::with_capacity(alloc, self.words.len())?;
        words.extend_from_slice(&self.words)?;
        Ok(WordSet {
            words,
            index: Index::new(alloc),
        })
    }
}
