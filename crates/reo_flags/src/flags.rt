//! Truth values as bits of words.
ghost use Rattle.std.specs.Prelude.{◌≡◌, ◌<◌, true, false, IfOk, length, replicate, set, slice_index_or};
ghost use Rattle.reo_flags.specs.Next.{IsNext};
ghost use Rattle.reo_flags.specs.Where.{AreKeptWhere};

use crate::words::{BITS, has_bit, keep_bits, next_bit, with_bit, word_of};
use reo_values::NoMemory;
use std::alloc::Global;
use std::marker::Model;

/// So many truth values. Contracts see the list of them.
#[derive(Drop)]
pub struct Flags {
    count: usize,
    words: Vec<u64>,
}

impl Model for Flags {
    ghost use Rattle.std.specs.Prelude.{List, Bool};
    ghost use Rattle.reo_flags.specs.Bits.{AreEnough, flags_of};

    ghost Value = { List Bool };

    ghost view = { λ f. flags_of f.count f.words.items };

    ghost invariant = { λ f. AreEnough f.count f.words.items };
}

impl Flags {
    /// So many flags, all of this value. `NoMemory` is out of memory, as it always is for more than
    /// 2^64 - 65 flags.
    pub fn new(alloc: Global, count: usize, value: bool) -> Result<Flags, NoMemory>
        ensures { IfOk result (λ made. made ≡ replicate count value) }
    {
        if count > usize::MAX - BITS {
            return Err(NoMemory);
        }
        match vec![in alloc; word_of(value); count / BITS + 1] {
            Ok(words) => Ok(Flags { count, words }),
            Err(_) => Err(NoMemory),
        }
    }

    /// How many flags there are.
    pub fn len(&self) -> usize
        ensures { result ≡ length self.now }
    {
        self.count
    }

    /// Whether the flag at a place is set.
    pub fn at(&self, place: usize) -> bool
        requires { place < length self.now }
        ensures { result ≡ slice_index_or self.now place false }
    {
        has_bit(self.words[place / BITS], place % BITS)
    }

    /// Gives the flag at a place this value. All others stay.
    pub fn put(&mut self, place: usize, value: bool)
        requires { place < length self.old }
        ensures { self.new ≡ set self.old place value }
    {
        let word = self.words[place / BITS];
        self.words[place / BITS] = with_bit(word, place % BITS, value);
    }

    /// Gives all flags this value.
    #[inline(always)]
    fn fill(&mut self, value: bool)
        ensures { self.new ≡ replicate (length self.old) value }
    {
        self.words.fill(word_of(value));
    }

    /// Clears all flags.
    pub fn clear(&mut self)
        ensures { self.new ≡ replicate (length self.old) false }
    {
        self.fill(false);
    }

    /// Sets all flags.
    pub fn set_all(&mut self)
        ensures { self.new ≡ replicate (length self.old) true }
    {
        self.fill(true);
    }

    /// Makes these flags the same as others.
    pub fn copy_from(&mut self, other: &Flags)
        requires { length other.now ≡ length self.old }
        ensures { self.new ≡ other.now }
    {
        self.words.copy_from_slice(&other.words);
    }

    /// Clears each flag at a place where the mark has not this value. All others stay.
    #[inline(always)]
    fn keep(&mut self, marks: &Flags, value: bool)
        requires { length marks.now ≡ length self.old }
        ensures { AreKeptWhere value marks.now self.old self.new }
    {
        keep_bits(&mut self.words, &marks.words, value);
    }

    /// Clears each flag at a place where a mark is set. All others stay.
    pub fn clear_where(&mut self, marks: &Flags)
        requires { length marks.now ≡ length self.old }
        ensures { AreKeptWhere false marks.now self.old self.new }
    {
        self.keep(marks, false);
    }

    /// Clears each flag at a place where no mark is set. All others stay.
    pub fn keep_where(&mut self, marks: &Flags)
        requires { length marks.now ≡ length self.old }
        ensures { AreKeptWhere true marks.now self.old self.new }
    {
        self.keep(marks, true);
    }

    /// The least place from `from` on whose flag has this value, or their number if there is none.
    #[inline(always)]
    fn next(&self, from: usize, value: bool) -> usize
        ensures { IsNext value self.now from result }
    {
        if from < self.count {
            next_bit(&self.words, from, value).min(self.count)
        } else {
            self.count
        }
    }

    /// The least place from `from` on whose flag is set, or the number of flags if there is none.
    pub fn next_set(&self, from: usize) -> usize
        ensures { IsNext true self.now from result }
    {
        self.next(from, true)
    }

    /// The least place from `from` on whose flag is clear, or the number of flags if there is none.
    pub fn next_clear(&self, from: usize) -> usize
        ensures { IsNext false self.now from result }
    {
        self.next(from, false)
    }
}
