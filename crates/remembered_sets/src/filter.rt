//! Sets' filters: `Filter`, the table of flags that the filters of four neighbouring regions share. By its filter a set that marks a region
//! whole still tells most cards of it that were never added.
//!
//! ```text
//!   one filter, 64 cards a region, rows 2: four rows of the first kind, 0 to 3, and two of the second, 4 and 5
//!
//!   region            0 1 2 3   4 5 6 7   8 9 ..        a card is added:  its place in each of its two rows is taken
//!   first row         0 1 2 3   0 1 2 3   0 1 ..        a card passes:    both its places are taken
//!   second row        4 5 4 5   5 4 5 4   4 5 ..        card 130, place 2 of region 2: rows 2 and 4
//!
//!   a table of four, one request of memory
//!
//!   flags             0 ..  383 | 384 ..  767 | 768 ..  1151 | 1152 ..  1535
//!   the filter of     region 4k | 4k + 1      | 4k + 2       | 4k + 3
//!   used              yes       | no          | yes          | no         the flags of a filter that isn't used count as not set
//! ```
//!
//! A place is shared by the cards of several regions, so the filter may let a card through that wasn't added, and none that was added is
//! held back. Cards in so many rows are compared 64 at once. Where it has no rows it lets each card through, and takes no memory.
//!
//! To empty a filter touches none of its flags. Those that were set are cleared when the next card is added to it.

ghost use Rattle.std.specs.Prelude.{◌≡◌, ◌≢◌, ◌||◌, ◌&&◌, ◌+◌, ◌*◌, ◌/◌, ◌<◌, ◌≤◌, ◌^◌, if◌then◌else◌};
ghost use Rattle.std.specs.Prelude.{ℕ, false, true, IfOk, length, replicate, slice_set};
ghost use Rattle.std.specs.Int.{div_ceil};
ghost use Rattle.bit_sets.specs.Bits.{has, is_between};
ghost use Rattle.remembered_sets.specs.Sets.{IsFilter, empty_filter, emptied_filter, filter_with, lets_through, taking};
ghost use Rattle.remembered_sets.specs.Sets.{first_row, second_row, place_in};
ghost use Rattle.remembered_sets.specs.Sharing.{filter_at, filter_of, is_taken};
ghost use Rattle.remembered_sets.specs.Owed.{owed_by};

use bit_sets::bits::Bits;
use bit_sets::bounded::BoundedBits;
use heap_words::addr::Card;
use std::alloc::{AllocError, Global};
use std::marker::Model;
use work_counter::Work;

/// How many neighbouring regions' filters share a table.
pub(crate) const SHARERS: u32 = 4;

/// The filters of four neighbouring regions. Each has rows of flags, twice as many of the first kind as of the second, of which there are
/// `rows`. Clauses see the list of the four, of each that number and its flags.
pub(crate) struct Filter {
    rows: u32,
    /// How many flags each of the four has.
    size: u32,
    flags: Bits,
    /// Which of the four were used since they were emptied.
    used: [bool; 4],
}

impl Model for Filter {
    ghost use Rattle.std.specs.Prelude.{List};
    ghost use Rattle.remembered_sets.specs.Sets.{CardFilter};

    ghost Value = { List CardFilter };

    ghost use Rattle.remembered_sets.specs.Inside.{four_of, IsSoundFilter};

    ghost view = { four_of };

    ghost invariant = { IsSoundFilter };
}

/// Where it is let go there is one call, and not a drop for each of its parts.
impl Drop for Filter {
    fn drop(self) {
        let Filter {
            rows: _,
            size: _,
            flags: _,
            used: _,
        } = self;
    }
}

/// The row of the first kind that a region's cards have.
#[inline(always)]
fn row_of_first(rows: u32, source: u32) -> u32
    requires some { 0 < rows }
    requires few { 3 * rows < 2 ^ 32 }
    ensures row { result ≡ first_row rows source }
    ensures below { result < 2 * rows }
{
    source % (2 * rows)
}

/// The row of the second kind that a region's cards have.
#[tactic(auto, unfolding(crate::specs::Sets::second_row))]
#[inline(always)]
fn row_of_second(rows: u32, source: u32) -> u32
    requires some { 0 < rows }
    requires few { 3 * rows < 2 ^ 32 }
    ensures row { result ≡ second_row rows source }
    ensures below { result < 3 * rows }
{
    2 * rows + (source % rows + source / (2 * rows)) % rows
}

/// The places of a card of the region `source` in both its rows, from the filter's first flag on.
#[inline(always)]
fn places(rows: u32, card: Card, source: u32, cards_per_region: u32) -> (u32, u32)
    requires some_cards { 0 < cards_per_region }
    requires some_rows { 0 < rows }
    requires few { 3 * rows * cards_per_region < 2 ^ 32 }
    requires source { card / cards_per_region ≡ source }
    ensures first { result.0 ≡ place_in (first_row rows source) cards_per_region card }
    ensures second { result.1 ≡ place_in (second_row rows source) cards_per_region card }
    ensures within { (result.0 < 3 * rows * cards_per_region) × (result.1 < 3 * rows * cards_per_region) }
{
    let place = card.number() - source * cards_per_region;
    let first = row_of_first(rows, source);
    let second = row_of_second(rows, source);
    (
        first * cards_per_region + place,
        second * cards_per_region + place,
    )
}

/// None of the flags of one of the four is set. That is a turn for each word of them.
#[cold]
#[inline(never)]
fn clear_part(flags: &mut Bits, size: u32, part: u32, work: &mut Work)
    requires part { part < 4 }
    requires size { length flags.old ≡ 4 * size }
    ensures len { length flags.new ≡ length flags.old }
    ensures flags { (a : ℕ) → has flags.new a ≡ (if is_between (part * size) (part * size + size) a then false else has flags.old a) }
    ensures work { work.new ≡ work.old + size / 64 }
{
    work.tick_each(size / 64);
    flags.law();
    let from = part * size;
    flags.clear_range(from, from + size);
}

/// The flags of one of the four count from now on. Where they didn't before, none of them is set then.
#[inline(always)]
fn begin(flags: &mut Bits, used: &mut [bool; 4], size: u32, part: u32, work: &mut Work)
    requires part { part < 4 }
    requires size { length flags.old ≡ 4 * size }
    ensures used { used.new ≡ slice_set used.old part true }
    ensures len { length flags.new ≡ length flags.old }
    ensures same { (other place : ℕ) → place < size
        → is_taken used.new flags.new size other place ≡ is_taken used.old flags.old size other place }
    ensures work { work.new ≡ work.old + (if has used.old part then 0 else size / 64) }
{
    if used[part as usize] {
        return;
    }
    clear_part(flags, size, part, work);
    used[part as usize] = true;
}

/// The filters of so many regions, in tables of four.
pub(crate) fn new_filters(
    alloc: Global,
    regions: u32,
    cards_per_region: u32,
    rows: u32,
) -> Result<Vec<Filter>, AllocError>
    ensures { IfOk result (λ tables. tables.items ≡ replicate (div_ceil regions 4) (replicate 4 (empty_filter cards_per_region rows))) }
{
    let count = regions.div_ceil(SHARERS);
    let mut filters = Vec::with_capacity(alloc, count as usize)?;
    for _ in 0..count {
        filters.push(Filter::new(alloc, cards_per_region, rows)?)?;
    }
    Ok(filters)
}

/// The region's filter lets a card of the region `source` through from now on, and the others stay. Where no filter has rows this is a
/// test alone.
#[inline(always)]
pub(crate) fn add_to_filter(
    filters: &mut Vec<Filter>,
    have_rows: bool,
    region: u32,
    card: Card,
    source: u32,
    cards_per_region: u32,
    work: &mut Work,
)
    requires known { region / 4 < length filters.old.items }
    requires some_cards { 0 < cards_per_region }
    requires stands { IsFilter cards_per_region (filter_of filters.old.items region) }
    requires none { have_rows ≡ false → (filter_of filters.old.items region).rows ≡ 0 }
    requires source { card / cards_per_region ≡ source }
    ensures own { filter_of filters.new.items region ≡ filter_with (filter_of filters.old.items region) cards_per_region card }
    ensures others { (other : ℕ) → other ≢ region → filter_of filters.new.items other ≡ filter_of filters.old.items other }
    ensures len { length filters.new.items ≡ length filters.old.items }
    ensures work { work.new ≤ work.old + owed_by (filter_of filters.old.items region) }
{
    if have_rows {
        let filter = &mut filters[(region / SHARERS) as usize];
        filter.add(region % SHARERS, card, source, cards_per_region, work);
    }
}

/// The region's filter is empty, and the others stay.
#[inline(always)]
pub(crate) fn clear_filter(filters: &mut Vec<Filter>, region: u32)
    requires { region / 4 < length filters.old.items }
    ensures own { filter_of filters.new.items region ≡ emptied_filter (filter_of filters.old.items region) }
    ensures others { (other : ℕ) → other ≢ region → filter_of filters.new.items other ≡ filter_of filters.old.items other }
    ensures len { length filters.new.items ≡ length filters.old.items }
{
    let filter = &mut filters[(region / SHARERS) as usize];
    filter.clear(region % SHARERS);
}

impl Filter {
    /// Four filters with so many rows of the second kind, that let no card through; with none they let each through. No call takes
    /// memory afterwards.
    fn new(alloc: Global, cards_per_region: u32, rows: u32) -> Result<Filter, AllocError>
        ensures { IfOk result (λ four. four ≡ replicate 4 (empty_filter cards_per_region rows)) }
    {
        let Some(all) = rows.checked_mul(3) else {
            return Err(AllocError);
        };
        let Some(size) = all.checked_mul(cards_per_region) else {
            return Err(AllocError);
        };
        let Some(count) = size.checked_mul(SHARERS) else {
            return Err(AllocError);
        };
        let flags = Bits::new(alloc, count)?;
        Ok(Filter {
            rows,
            size,
            flags,
            used: [false; 4],
        })
    }

    /// Whether one of the four lets a card of the region `source` through.
    pub(crate) fn lets_through(
        &self,
        part: u32,
        card: Card,
        source: u32,
        cards_per_region: u32,
    ) -> bool
        requires part { part < 4 }
        requires some_cards { 0 < cards_per_region }
        requires stands { IsFilter cards_per_region (filter_at self.now part) }
        requires source { card / cards_per_region ≡ source }
        ensures { result ≡ lets_through (filter_at self.now part) cards_per_region card }
    {
        if self.rows == 0 {
            return true;
        }
        if !self.used[part as usize] {
            return false;
        }
        self.flags.law();
        let (first, second) = places(self.rows, card, source, cards_per_region);
        let from = part * self.size;
        self.flags.get(from + first) && self.flags.get(from + second)
    }

    /// One of the four lets a card of the region `source` through from now on. Where it has no rows this is a test alone.
    #[inline(always)]
    pub(crate) fn add(
        &mut self,
        part: u32,
        card: Card,
        source: u32,
        cards_per_region: u32,
        work: &mut Work,
    )
        requires part { part < 4 }
        requires some_cards { 0 < cards_per_region }
        requires stands { IsFilter cards_per_region (filter_at self.old part) }
        requires source { card / cards_per_region ≡ source }
        ensures added { self.new ≡ slice_set self.old part (filter_with (filter_at self.old part) cards_per_region card) }
        ensures four { length self.old ≡ 4 }
        ensures work { work.new ≤ work.old + owed_by (filter_at self.old part) }
    {
        if self.rows == 0 {
            return;
        }
        self.take_places(part, card, source, cards_per_region, work);
    }

    /// The same where there are rows: the card's places in both its rows are taken.
    #[inline(never)]
    fn take_places(
        &mut self,
        part: u32,
        card: Card,
        source: u32,
        cards_per_region: u32,
        work: &mut Work,
    )
        requires part { part < 4 }
        requires some_cards { 0 < cards_per_region }
        requires some_rows { 0 < (filter_at self.old part).rows }
        requires stands { IsFilter cards_per_region (filter_at self.old part) }
        requires source { card / cards_per_region ≡ source }
        ensures taken { self.new ≡ slice_set self.old part (taking (filter_at self.old part) cards_per_region card) }
        ensures work { work.new ≤ work.old + owed_by (filter_at self.old part) }
    {
        self.flags.law();
        begin(&mut self.flags, &mut self.used, self.size, part, work);
        let (first, second) = places(self.rows, card, source, cards_per_region);
        let from = part * self.size;
        self.flags.set(from + first);
        self.flags.set(from + second);
    }

    /// Flags the cards of the region `source` that are in `entered` and that one of the four lets through, and leaves the other flags.
    pub(crate) fn mark(
        &self,
        part: u32,
        source: u32,
        cards_per_region: u32,
        entered: &Bits,
        flags: &mut BoundedBits,
    )
        requires part { part < 4 }
        requires some_cards { 0 < cards_per_region }
        requires stands { IsFilter cards_per_region (filter_at self.now part) }
        requires within { source * cards_per_region + cards_per_region ≤ length flags.old }
        requires even { length entered.now ≡ length flags.old }
        ensures flags { (c : ℕ) → has flags.new c ≡ (has flags.old c
            || (is_between (source * cards_per_region) (source * cards_per_region + cards_per_region) c
            && (has entered.now c && lets_through (filter_at self.now part) cards_per_region c))) }
        ensures len { length flags.new ≡ length flags.old }
    {
        flags.law();
        if self.rows == 0 {
            let from = source * cards_per_region;
            flags.set_members(entered, from, from + cards_per_region);
        } else {
            self.mark_rows(part, source, cards_per_region, entered, flags);
        }
    }

    /// The same where there are rows, 64 cards at once.
    fn mark_rows(
        &self,
        part: u32,
        source: u32,
        cards_per_region: u32,
        entered: &Bits,
        flags: &mut BoundedBits,
    )
        requires part { part < 4 }
        requires some_cards { 0 < cards_per_region }
        requires some_rows { 0 < (filter_at self.now part).rows }
        requires stands { IsFilter cards_per_region (filter_at self.now part) }
        requires within { source * cards_per_region + cards_per_region ≤ length flags.old }
        requires even { length entered.now ≡ length flags.old }
        ensures flags { (c : ℕ) → has flags.new c ≡ (has flags.old c
            || (is_between (source * cards_per_region) (source * cards_per_region + cards_per_region) c
            && (has entered.now c && lets_through (filter_at self.now part) cards_per_region c))) }
        ensures len { length flags.new ≡ length flags.old }
    {
        if !self.used[part as usize] {
            return;
        }
        flags.law();
        self.flags.law();
        let groups = cards_per_region / 64;
        let from = source * groups;
        let start = part * (self.size / 64);
        let first = start + row_of_first(self.rows, source) * groups;
        let second = start + row_of_second(self.rows, source) * groups;
        for group in 0..groups {
            flags.set_passing(
                entered,
                &self.flags,
                from + group,
                first + group,
                second + group,
            );
        }
    }

    /// One of the four is empty, and the others stay. It touches no flag.
    pub(crate) fn clear(&mut self, part: u32)
        requires { part < 4 }
        ensures emptied { self.new ≡ slice_set self.old part (emptied_filter (filter_at self.old part)) }
        ensures four { length self.old ≡ 4 }
    {
        self.used[part as usize] = false;
    }
}
