//! Words in pages, of which those are written that are reached.
//!
//! ```text
//!   group     0 .. 511   512 .. 1023   1024 .. 1535   1536 .. 1700
//!   page      0          1             2              3, the last one, has what is left
//!   begins    165        not taken     not taken      0
//!                 \__________________________________/
//!                               \   /
//!   pool      words of page 3: 165 | words of page 0: 512 | room for the others, not touched
//! ```
//!
//! Here a word of page 3 was written first, and then one of page 0. A page's words are taken from the end of the pool, as zeros, when one
//! of them is first written. A word of a page that isn't taken is read as 0. There is room in the pool for the words of all pages, so no
//! page asks for memory. To take all pages back touches their places alone, 4 bytes for 512 words.

ghost use Rattle.std.specs.Prelude.{◌≡◌, ◌+◌, ◌-◌, ◌*◌, ◌/◌, ◌%◌, ◌^◌, ◌<◌, ◌≤◌, ◌==◌, if◌then◌else◌, ℕ, bit_and, bit_or, false, true};
ghost use Rattle.std.specs.Prelude.{IfOk, length, not, replicate, slice_index, slice_set, vec_capacity, vec_len};
ghost use Rattle.std.specs.Int.{bit_at};
ghost use Rattle.bit_sets.specs.Bits.{is_between};
ghost use Rattle.bit_sets.specs.BitWords.{AreSame};
ghost use Rattle.bit_sets.specs.Pages.{index_of, paged_word, ArePages};

use heap_words::room::give_back;
use std::alloc::{AllocError, Global};
use std::marker::Model;

/// How many words a page has. The last one may have fewer.
pub(crate) const PAGE: u32 = 512;

/// More than the first group of any page. Of a page that is taken the place is this, and where the page begins in the pool, less its first
/// group: so a word is found by one addition, and no place of such a page is 0.
const ABOVE: u32 = 1 << 26;

/// Words, as many as are given when they are made, each 0 at first.
pub(crate) struct PagedWords {
    /// For each page its place: 0, or the number by which the index of a group's word in the pool is above the group, and `ABOVE` more.
    places: Vec<u32>,
    /// The words of the pages that are taken. There is room for all.
    pool: Vec<u64>,
    len: u32,
}

impl Model for PagedWords {
    ghost use Rattle.std.specs.Prelude.{List, ℕ, ◌≤◌, vec_capacity};
    ghost use Rattle.bit_sets.specs.Pages.{words_of, ArePages};

    ghost Value = { List ℕ };

    ghost view = { λ s. words_of s.places.items s.pool.items s.len };

    ghost invariant = { λ s. ArePages s.places.items s.pool.items s.len × (s.len ≤ vec_capacity s.pool) };
}

/// Where they are let go there is one call, and not a drop for each part.
impl Drop for PagedWords {
    fn drop(self) {
        let PagedWords {
            places: _,
            pool: _,
            len: _,
        } = self;
    }
}

/// The words from one up to another, which is not one of them, hold this value.
fn fill_words(words: &mut [u64], from: usize, to: usize, value: u64)
    requires order { from ≤ to }
    requires within { to ≤ length words.old }
    ensures len { length words.new ≡ length words.old }
    ensures each { (i : ℕ) → slice_index words.new i ≡ (if is_between from to i then value else slice_index words.old i) }
{
    for index in from..to {
        words[index] = value;
    }
}

/// The lowest one of the words that isn't 0, or how many there are.
fn first_written(words: &[u64]) -> usize
    ensures within { result ≤ length words.now }
    ensures none { (i : ℕ) → i < result → slice_index words.now i ≡ 0 }
    ensures found { result < length words.now → 0 < slice_index words.now result }
{
    for index in 0..words.len() {
        if words[index] != 0 {
            return index;
        }
    }
    words.len()
}

/// So many words are written, the new ones as 0.
fn write_zeros(words: &mut Vec<u64>, count: usize)
    requires more { vec_len words.old ≤ count }
    requires room { count ≤ vec_capacity words.old }
    ensures same { AreSame words.new.items words.old.items }
    ensures written { vec_len words.new ≡ count }
    ensures room { vec_capacity words.old ≤ vec_capacity words.new }
{
    words.resize(count, 0).unwrap();
}

/// Where a group's word is in the pool, by its page's place.
#[inline(always)]
fn index_in(place: u32, group: u32) -> usize
    requires { 2 ^ 26 ≤ place + group }
    ensures { result ≡ place + group - 2 ^ 26 }
{
    place as usize + group as usize - ABOVE as usize
}

/// A page is taken, its words as 0. Answers its place.
#[cold]
#[inline(never)]
fn take_page(places: &mut Vec<u32>, pool: &mut Vec<u64>, len: u32, page: u32) -> u32
    requires pages { ArePages places.old.items pool.old.items len }
    requires room { len ≤ vec_capacity pool.old }
    requires known { 512 * page < len }
    requires free { slice_index places.old.items page ≡ 0 }
    ensures pages { ArePages places.new.items pool.new.items len }
    ensures room { len ≤ vec_capacity pool.new }
    ensures same { (g : ℕ) → paged_word places.new.items pool.new.items g ≡ paged_word places.old.items pool.old.items g }
    ensures place { result ≡ slice_index places.new.items page }
    ensures taken { 0 < result }
{
    let size = PAGE.min(len - PAGE * page);
    let begin = pool.len();
    write_zeros(pool, begin + size as usize);
    let place = begin as u32 + ABOVE - PAGE * page;
    places[page as usize] = place;
    place
}

/// Where a group's word is in the pool. Its page is taken if it wasn't.
#[inline(always)]
fn find_or_take(places: &mut Vec<u32>, pool: &mut Vec<u64>, len: u32, group: u32) -> usize
    requires pages { ArePages places.old.items pool.old.items len }
    requires room { len ≤ vec_capacity pool.old }
    requires known { group < len }
    ensures pages { ArePages places.new.items pool.new.items len }
    ensures room { len ≤ vec_capacity pool.new }
    ensures same { (g : ℕ) → paged_word places.new.items pool.new.items g ≡ paged_word places.old.items pool.old.items g }
    ensures taken { 0 < slice_index places.new.items (group / 512) }
    ensures place { result ≡ index_of places.new.items group }
    ensures inside { result < vec_len pool.new }
{
    let page = group / PAGE;
    let mut place = places[page as usize];
    if place == 0 {
        place = take_page(places, pool, len, page);
    }
    index_in(place, group)
}

/// The words of one page, from one up to another, which is not one of them, hold this value. Where that is 0, no page is taken for it.
fn fill_page(places: &mut Vec<u32>, pool: &mut Vec<u64>, len: u32, from: u32, to: u32, value: u64)
    requires pages { ArePages places.old.items pool.old.items len }
    requires room { len ≤ vec_capacity pool.old }
    requires some { from < to }
    requires known { to ≤ len }
    requires page { to ≤ 512 * (from / 512) + 512 }
    ensures pages { ArePages places.new.items pool.new.items len }
    ensures room { len ≤ vec_capacity pool.new }
    ensures each { (g : ℕ) → g < len → paged_word places.new.items pool.new.items g
        ≡ (if is_between from to g then value else paged_word places.old.items pool.old.items g) }
{
    if value == 0 {
        let place = places[from as usize / 512];
        if place == 0 {
            return;
        }
    }
    let start = find_or_take(places, pool, len, from);
    fill_words(pool, start, start + (to - from) as usize, value);
}

/// The words of one page, from one up to another, which is not one of them, are 0. No page is taken for it.
#[inline(always)]
fn clear_in_page(places: &[u32], pool: &mut [u64], len: u32, from: u32, to: u32)
    requires pages { ArePages places.now pool.old len }
    requires some { from < to }
    requires known { to ≤ len }
    requires page { to ≤ 512 * (from / 512) + 512 }
    ensures pages { ArePages places.now pool.new len }
    ensures each { (g : ℕ) → g < len → paged_word places.now pool.new g
        ≡ (if is_between from to g then 0 else paged_word places.now pool.old g) }
    ensures len { length pool.new ≡ length pool.old }
{
    let place = places[from as usize / 512];
    if place != 0 {
        let start = index_in(place, from);
        fill_words(pool, start, start + (to - from) as usize, 0);
    }
}

/// The words from one up to another, which is not one of them, hold this value. Where that is 0, no page is taken for it.
fn fill_pages(
    places: &mut Vec<u32>,
    pool: &mut Vec<u64>,
    len: u32,
    first: u32,
    past: u32,
    value: u64,
)
    requires pages { ArePages places.old.items pool.old.items len }
    requires room { len ≤ vec_capacity pool.old }
    requires order { first < past }
    requires known { past ≤ len }
    ensures pages { ArePages places.new.items pool.new.items len }
    ensures room { len ≤ vec_capacity pool.new }
    ensures each { (g : ℕ) → g < len → paged_word places.new.items pool.new.items g
        ≡ (if is_between first past g then value else paged_word places.old.items pool.old.items g) }
{
    for page in first / PAGE..past.div_ceil(PAGE) {
        let from = first.max(PAGE * page);
        let to = past.min(PAGE * page + PAGE);
        fill_page(places, pool, len, from, to, value);
    }
}

/// The lowest group from one up to another, which is not one of them, whose word isn't 0; that other one if there is none. It looks at the
/// words of the pages that are taken, and at the places of the others.
fn next_written(places: &[u32], pool: &[u64], len: u32, from: u32, past: u32) -> u32
    requires pages { ArePages places.now pool.now len }
    requires known { past ≤ len }
    requires order { from ≤ past }
    ensures within { (from ≤ result) × (result ≤ past) }
    ensures none { (g : ℕ) → from ≤ g → g < result → paged_word places.now pool.now g ≡ 0 }
    ensures found { result < past → 0 < paged_word places.now pool.now result }
{
    for page in from / PAGE..past.div_ceil(PAGE) {
        let place = places[page as usize];
        if place == 0 {
            continue;
        }
        let low = from.max(PAGE * page);
        let high = past.min(PAGE * page + PAGE);
        let begin = index_in(place, low);
        let found = low + first_written(&pool[begin..begin + (high - low) as usize]) as u32;
        if found < high {
            return found;
        }
    }
    past
}

impl PagedWords {
    /// So many words, each 0. No call takes memory afterwards.
    pub(crate) fn new(alloc: Global, count: u32) -> Result<PagedWords, AllocError>
        requires { count ≤ 2 ^ 26 }
        ensures { IfOk result (λ words. words ≡ replicate count 0) }
    {
        let places = vec![in alloc; 0; count.div_ceil(PAGE) as usize]?;
        let pool = Vec::with_capacity(alloc, count as usize)?;
        Ok(PagedWords {
            places,
            pool,
            len: count,
        })
    }

    /// A group's word.
    #[inline(always)]
    pub(crate) fn get(&self, group: u32) -> u64
        requires { group < length self.now }
        ensures { result ≡ slice_index self.now group }
    {
        let place = self.places[group as usize / 512];
        if place == 0 {
            return 0;
        }
        self.pool[index_in(place, group)]
    }

    /// A group's word, where that isn't 0: its page is taken, and nothing is tested.
    #[inline(always)]
    pub(crate) fn get_some(&self, group: u32) -> u64
        requires known { group < length self.now }
        requires some { 0 < slice_index self.now group }
        ensures { result ≡ slice_index self.now group }
    {
        let place = self.places[group as usize / 512];
        self.pool[index_in(place, group)]
    }

    /// A bit of a group's word is 1. Whether it wasn't.
    #[inline(always)]
    pub(crate) fn insert(&mut self, group: u32, bit: u32) -> bool
        requires known { group < length self.old }
        requires bit { bit < 64 }
        ensures came { result ≡ not (bit_at (slice_index self.old group) bit == 1) }
        ensures same { result ≡ false → self.new ≡ self.old }
        ensures set { result ≡ true → self.new ≡ slice_set self.old group (bit_or (slice_index self.old group) (1 * 2 ^ bit % 2 ^ 64)) }
    {
        let place = find_or_take(&mut self.places, &mut self.pool, self.len, group);
        let word = self.pool[place];
        if word >> bit & 1 == 1 {
            return false;
        }
        self.pool[place] = word | 1 << bit;
        true
    }

    /// Bits come into a group's word.
    #[inline(always)]
    pub(crate) fn join(&mut self, group: u32, more: u64)
        requires { group < length self.old }
        ensures { self.new ≡ slice_set self.old group (bit_or (slice_index self.old group) more) }
    {
        let place = find_or_take(&mut self.places, &mut self.pool, self.len, group);
        self.pool[place] |= more;
    }

    /// Of a group's word these bits stay. No page is taken for it.
    #[inline(always)]
    pub(crate) fn keep(&mut self, group: u32, bits: u64)
        requires { group < length self.old }
        ensures { self.new ≡ slice_set self.old group (bit_and (slice_index self.old group) bits) }
    {
        let place = self.places[group as usize / 512];
        if place != 0 {
            self.pool[index_in(place, group)] &= bits;
        }
    }

    /// The words from one up to another, which is not one of them, hold this value. Where that is 0, no page is taken for it.
    pub(crate) fn fill(&mut self, first: u32, past: u32, value: u64)
        requires order { first < past }
        requires known { past ≤ length self.old }
        ensures len { length self.new ≡ length self.old }
        ensures each { (i : ℕ) → slice_index self.new i ≡ (if is_between first past i then value else slice_index self.old i) }
    {
        fill_pages(
            &mut self.places,
            &mut self.pool,
            self.len,
            first,
            past,
            value,
        );
    }

    /// The words of one page, from one up to another, which is not one of them, are 0. It is a look at the page's place, and takes no page.
    #[inline(always)]
    pub(crate) fn clear_between(&mut self, first: u32, past: u32)
        requires order { first < past }
        requires known { past ≤ length self.old }
        requires page { past ≤ 512 * (first / 512) + 512 }
        ensures len { length self.new ≡ length self.old }
        ensures each { (i : ℕ) → slice_index self.new i ≡ (if is_between first past i then 0 else slice_index self.old i) }
    {
        clear_in_page(&self.places, &mut self.pool, self.len, first, past);
    }

    /// Whether no page is taken.
    #[inline(always)]
    pub(crate) fn is_untouched(&self) -> bool
        ensures { result ≡ true → self.now ≡ replicate (length self.now) 0 }
    {
        let taken = self.pool.len();
        if taken == 0 {
            return true;
        }
        false
    }

    /// Each word is 0. It touches the places of the pages, where one is taken, and none of the words.
    pub(crate) fn clear(&mut self)
        ensures { self.new ≡ replicate (length self.old) 0 }
    {
        if self.pool.is_empty() {
            return;
        }
        self.places.fill(0);
        self.pool.clear();
    }

    /// The memory of pages that were taken once, and aren't any more, goes back to the system. The words stay, and so does the room for
    /// all pages. Where the memory that this asks for meanwhile is refused, none goes back.
    pub(crate) fn give_back(&mut self, alloc: Global) -> Result<(), AllocError>
        ensures { self.new ≡ self.old }
    {
        give_back(alloc, &mut self.pool, self.len as usize)
    }

    /// The lowest group from one up to another, which is not one of them, whose word isn't 0; that other one if there is none. It looks at
    /// the words of the pages that are taken, and at the places of the others.
    pub(crate) fn next_written(&self, from: u32, past: u32) -> u32
        requires known { past ≤ length self.now }
        requires order { from ≤ past }
        ensures within { (from ≤ result) × (result ≤ past) }
        ensures none { (g : ℕ) → from ≤ g → g < result → slice_index self.now g ≡ 0 }
        ensures found { result < past → 0 < slice_index self.now result }
    {
        next_written(&self.places, &self.pool, self.len, from, past)
    }
}
