//! Cards of small heaps: four regions of sixteen words, and cards of eight. In most tests region 0 has objects at 0, 4 and
//! 9, and regions 1 and 2 have one each, at 16 and 32.
//!
//! ```text
//!            card 0                           card 1
//!   word   | 0   1   2   3   4   5   6   7  | 8   9   10  11  12 ..
//!   object | A               B              |     C
//!   field  |         A0  A1          B0  B1 | B2          C0  C1
//! ```

ghost use Rattle.std.specs.Prelude.{◌≡◌, ◌+◌, ◌<◌, ◌≤◌, ◌^◌, IfOk, length};
ghost use Rattle.regions.specs.Table.{free_table};
ghost use Rattle.remembered_sets.specs.Sets.{card_count};
ghost use Rattle.refinement.specs.Refining.{CanScan};
ghost use Rattle.region_tests.specs.Samples.{IsSample, one_object};

use cards::CardTable;
use heap_words::addr::{Addr, Card, RegionNo};
use heap_words::config::{Config, Format};
use heap_words::header::{Count, FillerSize, HeaderCounts};
use mark_bitmap::marks::Marks;
use mark_bitmap::tams::Tams;
use refinement::{next_link, refine_one, scan_card};
use regions::{Kind, RegionTable, Shape};
use remembered_sets::RememberedSets;
use std::alloc::Global;
use std::test::Fail;

/// Puts an object with nil fields and no data at the top of an ordinary region, if there is room.
pub(crate) fn add(table: &mut RegionTable, region: u32, pointers: u32, weaks: u8)
    requires small { pointers < 2 ^ 16 }
    requires sample { IsSample table.old }
    ensures sample { IsSample table.new }
{
    table.law();
    if region >= table.region_count() {
        return;
    }
    let region = RegionNo::new(region);
    if table.kind(region) != Kind::Ordinary {
        return;
    }
    let words = 2 + pointers + u32::from(weaks);
    if !table.has_room(region, words) {
        return;
    }
    let size = FillerSize::new(words);
    let counts = HeaderCounts {
        pointers: Count::new(pointers),
        weaks,
        values: Count::new(0),
    };
    let at = table.push_filler(region, size);
    table.law();
    table.make_object(at, size, 7, counts);
}

/// Takes the lowest free region.
pub(crate) fn take_free(table: &mut RegionTable)
    requires { IsSample table.old }
    ensures { IsSample table.new }
{
    table.take_free();
}

/// Makes a humongous object with nil pointers and no data in the lowest two free regions that are adjacent, if there are
/// such.
fn take_run(table: &mut RegionTable, pointers: u32)
    requires covers { 2 + pointers ≤ 32 }
    requires tight { 16 < 2 + pointers }
    requires sample { IsSample table.old }
    ensures sample { IsSample table.new }
{
    table.law();
    let counts = HeaderCounts {
        pointers: Count::new(pointers),
        weaks: 0,
        values: Count::new(0),
    };
    table.take_run(2, 7, counts);
}

/// Stores the address of a word in a field of the object that holds another word, if it has the field.
fn link(table: &mut RegionTable, from: u32, field: u32, to: u32)
    requires from { from < 64 }
    requires to { to < 64 }
    requires sample { IsSample table.old }
    ensures sample { IsSample table.new }
{
    table.law();
    let Some(at) = table.first_tile(Addr::new(from)) else {
        return;
    };
    let Shape::Object { .. } = table.tile(at) else {
        return;
    };
    if field < table.field_count(at) {
        table.set_field(at, field, Some(Addr::new(to)));
    }
}

/// The first field that isn't nil of the object that holds a word, from one on and below another, with what it names, if the object
/// has so many.
fn first_link(table: &RegionTable, word: u32, start: u32, end: u32) -> Option<(u32, Addr)>
    requires word { word < 64 }
    requires sample { IsSample table.now }
{
    table.law();
    let Some(at) = table.first_tile(Addr::new(word)) else {
        return None;
    };
    let Shape::Object { .. } = table.tile(at) else {
        return None;
    };
    if end <= table.field_count(at) {
        next_link(table, at, start, end)
    } else {
        None
    }
}

/// Four free regions.
pub(crate) fn free_regions(alloc: Global) -> Result<RegionTable, Fail>
    ensures sample { IfOk result IsSample }
    ensures free { IfOk result (λ table. table ≡ free_table 4 16) }
{
    let sizes = Config {
        format: Format::V1,
        regions: 4,
        words: 16,
        buffer: 8,
        mutators: 1,
        first_name: 0,
    };
    let Ok(table) = RegionTable::new(alloc, &sizes) else {
        return Err(Fail::from("a table is made"));
    };
    Ok(table)
}

/// Region 0 is taken, and has an object of nil fields and zeros at its bottom, made in a filler of so many words.
pub(crate) fn one_object(
    alloc: Global,
    words: u32,
    pointers: u32,
    weaks: u8,
    values: u32,
) -> Result<RegionTable, Fail>
    requires small { words ≤ 16 }
    requires room { 2 + pointers + weaks + values ≤ words }
    ensures { IfOk result (λ table. table ≡ one_object words pointers weaks values) }
{
    let mut table = free_regions(alloc)?;
    let region = RegionNo::new(0);
    let object = Addr::new(0);
    let size = FillerSize::new(words);
    if table.take_free() != Some(region) {
        return Err(Fail::from("region 0 is the lowest free one"));
    }
    if table.push_filler(region, size) != object {
        return Err(Fail::from("a filler is at the bottom"));
    }
    let counts = HeaderCounts {
        pointers: Count::new(pointers),
        weaks,
        values: Count::new(values),
    };
    table.make_object(object, size, 7, counts);
    Ok(table)
}

/// Objects A, B and C in region 0, one in region 1 and one in region 2. A0 and B2 lead to region 1, B1 leads to region 2,
/// A1 and C0 lead to region 0, and the others are nil.
fn five_objects(alloc: Global) -> Result<RegionTable, Fail>
    ensures { IfOk result IsSample }
{
    let mut table = free_regions(alloc)?;
    take_free(&mut table);
    take_free(&mut table);
    take_free(&mut table);
    add(&mut table, 0, 2, 0);
    add(&mut table, 0, 3, 0);
    add(&mut table, 0, 2, 0);
    add(&mut table, 1, 0, 0);
    add(&mut table, 2, 0, 0);
    link(&mut table, 0, 0, 16);
    link(&mut table, 0, 1, 9);
    link(&mut table, 4, 1, 32);
    link(&mut table, 4, 2, 16);
    link(&mut table, 9, 0, 4);
    Ok(table)
}

/// An object at 0 with a pointer and two weak slots, which lead to region 1 and to region 0; and one at 5 with three weak
/// slots, of which the last two are in card 1: they lead to region 2, nowhere and to region 1.
fn weak_objects(alloc: Global) -> Result<RegionTable, Fail>
    ensures { IfOk result IsSample }
{
    let mut table = free_regions(alloc)?;
    take_free(&mut table);
    take_free(&mut table);
    take_free(&mut table);
    add(&mut table, 0, 1, 2);
    add(&mut table, 0, 0, 3);
    add(&mut table, 1, 0, 0);
    add(&mut table, 2, 0, 0);
    link(&mut table, 0, 1, 16);
    link(&mut table, 0, 2, 5);
    link(&mut table, 5, 0, 32);
    link(&mut table, 5, 2, 16);
    Ok(table)
}

/// A humongous object in regions 0 and 1, whose fields at the words 2, 15, 16 and 31 lead to itself, and one at 3 that leads
/// to region 2.
fn one_run(alloc: Global) -> Result<RegionTable, Fail>
    ensures { IfOk result IsSample }
{
    let mut table = free_regions(alloc)?;
    take_run(&mut table, 30);
    take_free(&mut table);
    add(&mut table, 2, 0, 0);
    link(&mut table, 0, 0, 0);
    link(&mut table, 0, 1, 32);
    link(&mut table, 0, 13, 0);
    link(&mut table, 0, 14, 0);
    link(&mut table, 0, 29, 0);
    Ok(table)
}

/// Five objects of two words in region 0, which start at 0, 2, 4, 6 and 8.
fn small_objects(alloc: Global) -> Result<RegionTable, Fail>
    ensures { IfOk result IsSample }
{
    let mut table = free_regions(alloc)?;
    take_free(&mut table);
    add(&mut table, 0, 0, 0);
    add(&mut table, 0, 0, 0);
    add(&mut table, 0, 0, 0);
    add(&mut table, 0, 0, 0);
    add(&mut table, 0, 0, 0);
    Ok(table)
}

/// The table with its marks, and empty sets of two cards a region.
struct Sample {
    table: RegionTable,
    tams: Tams,
    marks: Marks,
    sets: RememberedSets,
}

/// Its drop is one call, and not one for each of its parts.
impl Drop for Sample {
    fn drop(self) {
        let Sample {
            table: _,
            tams: _,
            marks: _,
            sets: _,
        } = self;
    }
}

/// Region 0 had its top at `start` when marking began, and of what starts below it the object at 4 alone is marked.
fn over(alloc: Global, table: RegionTable, start: u32) -> Result<Sample, Fail>
    requires { IsSample table }
    ensures stands { IfOk result (λ s. CanScan s.table s.tams s.marks 8 s.sets) }
    ensures regions { IfOk result (λ s. length s.sets.sets ≡ 4) }
    ensures cards { IfOk result (λ s. card_count s.sets ≡ 8) }
{
    let mut tams = Tams::new(alloc, 4, 16)?;
    tams.set_next(RegionNo::new(0), Addr::new(start));
    tams.swap_roles();
    let mut marks = Marks::new(alloc, 64)?;
    marks.set(Addr::new(4));
    let sets = RememberedSets::new(alloc, 4, 2, 0)?;
    Ok(Sample {
        table,
        tams,
        marks,
        sets,
    })
}

/// Scans a card, and says at how many tiles it looked.
fn look(sample: &mut Sample, card: u32) -> u32
    requires card { card < 8 }
    requires stands { CanScan sample.old.table sample.old.tams sample.old.marks 8 sample.old.sets }
    requires regions { length sample.old.sets.sets ≡ 4 }
    requires cards { card_count sample.old.sets ≡ 8 }
    ensures stands { CanScan sample.new.table sample.new.tams sample.new.marks 8 sample.new.sets }
    ensures regions { length sample.new.sets.sets ≡ 4 }
    ensures cards { card_count sample.new.sets ≡ 8 }
{
    let card = Card::new(card);
    scan_card(
        &sample.table,
        &sample.tams,
        &sample.marks,
        &mut sample.sets,
        8,
        card,
    )
}

/// Scans a card, and says which cards regions 0, 1 and 2 cover then: card c by bit c.
fn scan(sample: &mut Sample, card: u32) -> (u32, u32, u32)
    requires card { card < 8 }
    requires stands { CanScan sample.old.table sample.old.tams sample.old.marks 8 sample.old.sets }
    requires regions { length sample.old.sets.sets ≡ 4 }
    requires cards { card_count sample.old.sets ≡ 8 }
    ensures stands { CanScan sample.new.table sample.new.tams sample.new.marks 8 sample.new.sets }
    ensures regions { length sample.new.sets.sets ≡ 4 }
    ensures cards { card_count sample.new.sets ≡ 8 }
{
    look(sample, card);
    covered(&sample.sets)
}

/// Takes a card from the queue and scans it. The same cards then, where there was one.
fn refine(sample: &mut Sample, cards: &mut CardTable) -> Option<(u32, u32, u32)>
    requires dirty { length cards.old.dirty ≡ 8 }
    requires stands { CanScan sample.old.table sample.old.tams sample.old.marks 8 sample.old.sets }
    requires regions { length sample.old.sets.sets ≡ 4 }
    requires cards { card_count sample.old.sets ≡ 8 }
    ensures dirty { length cards.new.dirty ≡ 8 }
    ensures stands { CanScan sample.new.table sample.new.tams sample.new.marks 8 sample.new.sets }
    ensures regions { length sample.new.sets.sets ≡ 4 }
    ensures cards { card_count sample.new.sets ≡ 8 }
{
    let taken = refine_one(
        &sample.table,
        &sample.tams,
        &sample.marks,
        cards,
        &mut sample.sets,
        8,
    );
    if taken {
        Some(covered(&sample.sets))
    } else {
        None
    }
}

/// Which cards a region covers.
fn covered_by(sets: &RememberedSets, region: u32) -> u32
    requires region { region < length sets.now.sets }
    requires cards { card_count sets.now ≡ 8 }
{
    let mut found = 0;
    for card in 0..8 {
        if sets.covers(RegionNo::new(region), Card::new(card)) {
            found |= 1 << card;
        }
    }
    found
}

fn covered(sets: &RememberedSets) -> (u32, u32, u32)
    requires regions { length sets.now.sets ≡ 4 }
    requires cards { card_count sets.now ≡ 8 }
{
    (
        covered_by(sets, 0),
        covered_by(sets, 1),
        covered_by(sets, 2),
    )
}

/// All is kept. In card 0 A0 leads to region 1, and B1, the last word, to region 2. In card 1 B2 leads to region 1, though B
/// starts in card 0. What leads to region 0 itself, and nil, ask for nothing.
#[test]
fn scans_kept_objects(rt: HostRuntime) -> Result<(), Fail> {
    let mut sample = over(rt.alloc(), five_objects(rt.alloc())?, 0)?;
    assert_eq!(rt; scan(&mut sample, 1), (0, 2, 0));
    assert_eq!(rt; scan(&mut sample, 0), (0, 3, 1));
    assert_eq!(rt; scan(&mut sample, 2), (0, 3, 1));
    assert_eq!(rt; scan(&mut sample, 7), (0, 3, 1));
    Ok(())
}

/// A and C start below the top at mark start and aren't marked: A0 asks for nothing. B is marked. With the top at 9 C is
/// kept, and A isn't.
#[test]
fn skips_dead_objects(rt: HostRuntime) -> Result<(), Fail> {
    for start in [9, 13] {
        let mut sample = over(rt.alloc(), five_objects(rt.alloc())?, start)?;
        assert_eq!(rt; scan(&mut sample, 0), (0, 0, 1));
        assert_eq!(rt; scan(&mut sample, 1), (0, 2, 1));
    }
    Ok(())
}

/// Weak slots are fields after the pointers: in card 0 one leads to region 1 and one, the last word, to region 2, and in card
/// 1 one leads to region 1. Those of the object at 0 ask for nothing once it is dead.
#[test]
fn scans_weak_slots(rt: HostRuntime) -> Result<(), Fail> {
    let mut sample = over(rt.alloc(), weak_objects(rt.alloc())?, 0)?;
    assert_eq!(rt; scan(&mut sample, 1), (0, 2, 0));
    assert_eq!(rt; scan(&mut sample, 0), (0, 3, 1));
    let mut sample = over(rt.alloc(), weak_objects(rt.alloc())?, 5)?;
    assert_eq!(rt; scan(&mut sample, 0), (0, 0, 1));
    Ok(())
}

/// A humongous object names itself from both its regions. From the second one that leads into another region.
#[test]
fn scans_a_run(rt: HostRuntime) -> Result<(), Fail> {
    let mut sample = over(rt.alloc(), one_run(rt.alloc())?, 0)?;
    assert_eq!(rt; scan(&mut sample, 0), (0, 0, 1));
    assert_eq!(rt; scan(&mut sample, 1), (0, 0, 1));
    assert_eq!(rt; scan(&mut sample, 2), (4, 0, 1));
    assert_eq!(rt; scan(&mut sample, 3), (12, 0, 1));
    Ok(())
}

/// B's first field is nil, and the two others lead out. Below the end there may be none, and the end may come first.
#[test]
fn finds_links(rt: HostRuntime) -> Result<(), Fail> {
    let table = five_objects(rt.alloc())?;
    for (start, end, found) in [
        (0, 3, Some((1, Addr::new(32)))),
        (1, 3, Some((1, Addr::new(32)))),
        (2, 3, Some((2, Addr::new(16)))),
        (3, 3, None),
        (0, 1, None),
        (0, 2, Some((1, Addr::new(32)))),
        (2, 1, None),
        (0, 0, None),
    ] {
        assert_eq!(rt; first_link(&table, 4, start, end), found, "{start} {end}");
    }
    Ok(())
}

/// For card 0 it looks at A and B, for card 1 at B and C, and for card 7 at nothing. Of the small objects it looks at four for
/// card 0, and at one for card 1.
#[test]
fn counts_tiles(rt: HostRuntime) -> Result<(), Fail> {
    let mut sample = over(rt.alloc(), five_objects(rt.alloc())?, 0)?;
    assert_eq!(rt; look(&mut sample, 0), 2);
    assert_eq!(rt; look(&mut sample, 1), 2);
    assert_eq!(rt; look(&mut sample, 7), 0);
    let mut sample = over(rt.alloc(), small_objects(rt.alloc())?, 0)?;
    assert_eq!(rt; look(&mut sample, 0), 4);
    assert_eq!(rt; look(&mut sample, 1), 1);
    Ok(())
}

/// The queue holds card 1 and then card 0. Each call takes the front one, which is clean then; the third finds an empty
/// queue, though card 2 is in a log.
#[test]
fn refines_the_front(rt: HostRuntime) -> Result<(), Fail> {
    let mut sample = over(rt.alloc(), five_objects(rt.alloc())?, 0)?;
    let mut cards = CardTable::new(rt.alloc(), 8, 1)?;
    cards.dirty(0, Card::new(1));
    cards.dirty(0, Card::new(0));
    cards.flush_all();
    cards.dirty(0, Card::new(2));
    assert_eq!(rt;
        (refine(&mut sample, &mut cards), cards.queued()),
        (Some((0, 2, 0)), 1)
    );
    assert!(rt; !cards.is_dirty(Card::new(1)) && cards.is_dirty(Card::new(0)));
    assert_eq!(rt;
        (refine(&mut sample, &mut cards), cards.queued()),
        (Some((0, 3, 1)), 0)
    );
    assert_eq!(rt; refine(&mut sample, &mut cards), None);
    assert!(rt; !cards.is_dirty(Card::new(0)) && cards.is_dirty(Card::new(2)));
    Ok(())
}
