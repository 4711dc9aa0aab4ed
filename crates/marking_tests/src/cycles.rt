//! Marking over tables made by hand.

ghost use Rattle.std.specs.Prelude.{◌≡◌, ◌<◌, ◌≤◌, ℕ, true, false, [], Some, length, slice_get, IfOk, IfSome};
ghost use Rattle.heap_words.specs.Configs.{Suits};
ghost use Rattle.regions.specs.Table.{HasObject};
ghost use Rattle.mark_bitmap.specs.Tops.{below_previous};
ghost use Rattle.satb_log.specs.Logs.{logged};
ghost use Rattle.marker.specs.Stands.{MarkerStands, IsKept};
ghost use Rattle.marker.specs.Views.{waiting_room};
ghost use Rattle.marking_tests.specs.Samples.{IsLinked, LeadToObjects, KeepsTable};

use heap_words::addr::{Addr, Ptr, RegionNo};
use heap_words::config::{Config, Format};
use heap_words::header::{Count, FillerSize, HeaderCounts};
use marker::Marker;
use regions::{Kind, RegionTable, Shape};
use root_table::{RootCounts, Roots};
use std::alloc::Global;
use std::test::Fail;

/// Puts an object with nil fields and no data at the top of an ordinary region, if there is room.
fn add(
    table: &mut RegionTable,
    region: RegionNo,
    name: u64,
    pointers: u8,
    weaks: u8,
) -> Option<Addr>
    ensures keeps { KeepsTable table.old table.new }
    ensures object { IfSome result (HasObject table.new) }
{
    table.law();
    if region.number() >= table.region_count() {
        return None;
    }
    if table.kind(region) != Kind::Ordinary {
        return None;
    }
    let words = 2 + u32::from(pointers) + u32::from(weaks);
    if !table.has_room(region, words) {
        return None;
    }
    let size = FillerSize::new(words);
    let counts = HeaderCounts {
        pointers: Count::new(u32::from(pointers)),
        weaks,
        values: Count::new(0),
    };
    let at = table.push_filler(region, size);
    table.law();
    table.make_object(at, size, name, counts);
    Some(at)
}

/// Stores an object's address in a field of another one, if the field is there.
fn link(table: &mut RegionTable, from: Addr, field: u32, to: Addr)
    requires from { HasObject table.old from }
    requires to { HasObject table.old to }
    ensures keeps { KeepsTable table.old table.new }
{
    table.law();
    if field < table.field_count(from) {
        table.set_field(from, field, Some(to));
    }
}

/// Takes the lowest free region.
fn take_free(table: &mut RegionTable) -> Option<RegionNo>
    ensures keeps { KeepsTable table.old table.new }
{
    table.take_free()
}

/// A table of four regions of 16 words, and its objects.
pub(crate) struct Made {
    pub(crate) table: RegionTable,
    pub(crate) objects: Vec<Addr>,
}

/// Its drop is one call, and not one for each of its parts.
impl Drop for Made {
    fn drop(self) {
        let Made {
            table: _,
            objects: _,
        } = self;
    }
}

/// Four regions of 16 words, and two mutators.
fn sizes() -> Config
    ensures suits { Suits result }
    ensures regions { result.regions ≡ 4 }
    ensures words { result.words ≡ 16 }
{
    Config {
        format: Format::V1,
        regions: 4,
        words: 16,
        buffer: 8,
        mutators: 2,
        first_name: 0,
    }
}

/// The same in the third format, with 32 globals.
fn third_sizes() -> Config
    ensures suits { Suits result }
    ensures regions { result.regions ≡ 4 }
    ensures words { result.words ≡ 16 }
    ensures room { 32 ≤ waiting_room result }
{
    Config {
        format: Format::V3 {
            card: 16,
            globals: 32,
            registers: 1,
        },
        regions: 4,
        words: 16,
        buffer: 8,
        mutators: 2,
        first_name: 0,
    }
}

/// Stores an object's address in a field of another one, both by their place in the list, if all are there.
pub(crate) fn link_listed(
    table: &mut RegionTable,
    objects: &[Addr],
    from: usize,
    field: u32,
    to: usize,
)
    requires objects { (i a : ℕ) → slice_get objects.now i ≡ Some a → HasObject table.old a }
    ensures keeps { KeepsTable table.old table.new }
{
    if from >= objects.len() || to >= objects.len() {
        return;
    }
    let holder = objects[from];
    let target = objects[to];
    link(table, holder, field, target);
}

/// Objects of so many pointers and weak slots, the i-th in region i % 3, with links from a field of one to another.
pub(crate) fn build(
    alloc: Global,
    shapes: &[(u8, u8)],
    links: &[(usize, u32, usize)],
) -> Result<Made, Fail>
    ensures count { IfOk result (λ made. length made.table.regions ≡ 4) }
    ensures words { IfOk result (λ made. made.table.words_per_region ≡ 16) }
    ensures linked { IfOk result (λ made. IsLinked made.table) }
    ensures objects { IfOk result (λ made. (i a : ℕ) → slice_get made.objects.items i ≡ Some a → HasObject made.table a) }
{
    let Ok(mut table) = RegionTable::new(alloc, &sizes()) else {
        return Err(Fail::from("a table is made"));
    };
    for _ in 0..3 {
        take_free(&mut table);
    }
    let mut objects = Vec::new(alloc);
    for i in 0..shapes.len() {
        let region = RegionNo::new((i % 3) as u32);
        let (pointers, weaks) = shapes[i];
        let Some(at) = add(&mut table, region, i as u64, pointers, weaks) else {
            return Err(Fail::from("an object is made"));
        };
        objects.push(at)?;
    }
    for (from, field, to) in links {
        link_listed(&mut table, &objects, *from, *field, *to);
    }
    Ok(Made { table, objects })
}

/// Roots of 32 globals. A pair says which object a place holds.
pub(crate) fn roots_of(alloc: Global, made: &Made, held: &[(u32, usize)]) -> Result<Roots, Fail>
    requires { (i a : ℕ) → slice_get made.now.objects.items i ≡ Some a → HasObject made.now.table a }
    ensures { IfOk result (λ roots. LeadToObjects made.now.table roots.words) }
{
    let mut roots = Roots::new(alloc, RootCounts::new(32, 0, 0))?;
    for (place, object) in held {
        if *place < 32 && *object < made.objects.len() {
            roots.set_global(*place, Some(made.objects[*object]));
        }
    }
    Ok(roots)
}

/// A marker that has begun.
pub(crate) fn begun(alloc: Global, table: &RegionTable, roots: &Roots) -> Result<Marker, Fail>
    requires count { length table.now.regions ≡ 4 }
    requires words { table.now.words_per_region ≡ 16 }
    requires linked { IsLinked table.now }
    requires roots { LeadToObjects table.now roots.now.words }
    ensures stands { IfOk result (MarkerStands table.now) }
    ensures running { IfOk result (λ marker. marker.running ≡ true) }
    ensures unlogged { IfOk result (λ marker. logged marker.logs ≡ []) }
    ensures none_wait { IfOk result (λ marker. marker.waiting.addresses ≡ []) }
    ensures kept { IfOk result (λ marker. (a : ℕ) → HasObject table.now a → IsKept table.now marker a) }
    ensures all_kept { IfOk result (λ marker. (a : ℕ) → below_previous table.now marker.tams a ≡ false) }
{
    let mut marker = Marker::new(alloc, &sizes())?;
    marker.begin(table, roots, Format::V1);
    Ok(marker)
}

/// The same in the third format, where the roots wait.
pub(crate) fn begun_third(alloc: Global, table: &RegionTable, roots: &Roots) -> Result<Marker, Fail>
    requires count { length table.now.regions ≡ 4 }
    requires words { table.now.words_per_region ≡ 16 }
    requires linked { IsLinked table.now }
    requires roots { LeadToObjects table.now roots.now.words }
    ensures stands { IfOk result (MarkerStands table.now) }
    ensures running { IfOk result (λ marker. marker.running ≡ true) }
{
    if roots.len() > 32 {
        return Err(Fail::from("there are 32 roots"));
    }
    let config = third_sizes();
    let mut marker = Marker::new(alloc, &config)?;
    marker.begin(table, roots, config.format);
    Ok(marker)
}

/// Saves an object in a mutator's log.
fn save(marker: &mut Marker, made: &Made, mutator: u32, object: usize)
    requires stands { MarkerStands made.now.table marker.old }
    requires running { marker.old.running ≡ true }
    requires objects { (i a : ℕ) → slice_get made.now.objects.items i ≡ Some a → HasObject made.now.table a }
    requires kept { (a : ℕ) → HasObject made.now.table a → IsKept made.now.table marker.old a }
    ensures stands { MarkerStands made.now.table marker.new }
    ensures running { marker.new.running ≡ true }
{
    if object >= made.objects.len() {
        return;
    }
    let at = made.objects[object];
    if mutator < marker.logs.mutators() && !marker.logs.is_full(mutator) {
        marker.save(&made.table, mutator, Some(at));
    }
}

/// How many objects are marked in all, where the roots hold some of them.
fn count_from(
    alloc: Global,
    shapes: &[(u8, u8)],
    links: &[(usize, u32, usize)],
    held: &[(u32, usize)],
) -> Result<u32, Fail> {
    let made = build(alloc, shapes, links)?;
    let roots = roots_of(alloc, &made, held)?;
    let mut marker = begun(alloc, &made.table, &roots)?;
    Ok(marker.finish(&made.table))
}

/// Two objects that name each other, the first in a register: two scans, and no third.
#[test]
fn marks_a_ring(rt: HostRuntime) -> Result<(), Fail> {
    let made = build(rt.alloc(), &[(1, 0), (1, 0)], &[(0, 0, 1), (1, 0, 0)])?;
    let roots = roots_of(rt.alloc(), &made, &[(16, 0)])?;
    let mut marker = begun(rt.alloc(), &made.table, &roots)?;
    assert_eq!(rt;
        (marker.mark(&made.table, Format::V1, 0), marker.scans()),
        (0, 0)
    );
    assert_eq!(rt;
        (marker.mark(&made.table, Format::V1, 1), marker.scans()),
        (1, 1)
    );
    assert_eq!(rt;
        (marker.mark(&made.table, Format::V1, 9), marker.scans()),
        (1, 2)
    );
    assert_eq!(rt;
        (marker.mark(&made.table, Format::V1, 9), marker.scans()),
        (0, 2)
    );
    assert_eq!(rt; (marker.finish(&made.table), marker.scans()), (2, 2));
    Ok(())
}

/// Goes on with marking in the third format, and answers how many words were looked at.
pub(crate) fn mark_third(marker: &mut Marker, table: &RegionTable, words: u32) -> (u32, u32)
    requires stands { MarkerStands table.now marker.old }
    requires running { marker.old.running ≡ true }
    ensures stands { MarkerStands table.now marker.new }
    ensures running { marker.new.running ≡ true }
{
    let looked = marker.mark(table, third_sizes().format, words);
    (looked, marker.scans())
}

/// In the third format two roots that name one object wait, and each is a word; then the object of two pointers is scanned word by word,
/// the one that was found last, of three, is scanned in part, and then the rest of it and the other one. Nothing is left then.
#[test]
fn counts_words(rt: HostRuntime) -> Result<(), Fail> {
    let shapes = [(2, 0), (0, 0), (3, 0)];
    let made = build(rt.alloc(), &shapes, &[(0, 0, 1), (0, 1, 2)])?;
    let roots = roots_of(rt.alloc(), &made, &[(3, 0), (31, 0)])?;
    let mut marker = begun_third(rt.alloc(), &made.table, &roots)?;
    assert_eq!(rt; mark_third(&mut marker, &made.table, 0), (0, 0));
    assert_eq!(rt; mark_third(&mut marker, &made.table, 1), (1, 0));
    assert_eq!(rt; mark_third(&mut marker, &made.table, 1), (1, 0));
    assert_eq!(rt; mark_third(&mut marker, &made.table, 1), (1, 0));
    assert_eq!(rt; mark_third(&mut marker, &made.table, 1), (1, 0));
    assert_eq!(rt; mark_third(&mut marker, &made.table, 2), (2, 1));
    assert_eq!(rt; mark_third(&mut marker, &made.table, 9), (4, 3));
    assert_eq!(rt; mark_third(&mut marker, &made.table, 9), (0, 3));
    assert_eq!(rt; (marker.finish(&made.table), marker.scans()), (3, 3));
    Ok(())
}

/// The same roots, where one call takes them and scans all, where it stops within an object or at its end, and where the end does the rest.
#[test]
fn takes_all_that_waits(rt: HostRuntime) -> Result<(), Fail> {
    let shapes = [(2, 0), (0, 0), (3, 0)];
    for (asked, words, scans) in [(0, 0, 0), (4, 4, 0), (5, 5, 1), (7, 7, 1), (100, 10, 3)] {
        let made = build(rt.alloc(), &shapes, &[(0, 0, 1), (0, 1, 2)])?;
        let roots = roots_of(rt.alloc(), &made, &[(3, 0), (31, 0)])?;
        let mut marker = begun_third(rt.alloc(), &made.table, &roots)?;
        assert_eq!(rt; mark_third(&mut marker, &made.table, asked), (words, scans));
        assert_eq!(rt; (marker.finish(&made.table), marker.scans()), (3, 3));
    }
    Ok(())
}

/// An object of twelve pointers is scanned in three steps. What its first pointers lead to is put aside, and isn't scanned before it.
#[test]
fn scans_in_part(rt: HostRuntime) -> Result<(), Fail> {
    let shapes = [(12, 0), (1, 0), (0, 0)];
    let made = build(rt.alloc(), &shapes, &[(0, 1, 1), (0, 11, 2), (1, 0, 0)])?;
    let roots = roots_of(rt.alloc(), &made, &[(0, 0)])?;
    let mut marker = begun_third(rt.alloc(), &made.table, &roots)?;
    assert_eq!(rt; mark_third(&mut marker, &made.table, 6), (6, 0));
    assert_eq!(rt; mark_third(&mut marker, &made.table, 6), (6, 0));
    assert_eq!(rt; mark_third(&mut marker, &made.table, 2), (2, 1));
    assert_eq!(rt; mark_third(&mut marker, &made.table, 1), (1, 2));
    assert_eq!(rt; mark_third(&mut marker, &made.table, 9), (2, 3));
    assert_eq!(rt; (marker.finish(&made.table), marker.scans()), (3, 3));
    Ok(())
}

/// The same two objects with nil roots: there is no scan.
#[test]
fn marks_nothing(rt: HostRuntime) -> Result<(), Fail> {
    let made = build(rt.alloc(), &[(1, 0), (1, 0)], &[(0, 0, 1), (1, 0, 0)])?;
    let roots = roots_of(rt.alloc(), &made, &[])?;
    let mut marker = begun(rt.alloc(), &made.table, &roots)?;
    assert_eq!(rt; marker.mark(&made.table, Format::V1, 9), 0);
    assert_eq!(rt; (marker.finish(&made.table), marker.scans()), (0, 0));
    Ok(())
}

/// A chain of five from a global; a shared child and an object that names itself, from the last register of the second
/// mutator; a ring that nothing reaches; an object of nil pointers; one that four roots name, with nil and another one between.
#[test]
fn counts_what_roots_reach(rt: HostRuntime) -> Result<(), Fail> {
    let chain = [(0, 0, 1), (1, 0, 2), (2, 0, 3), (3, 0, 4)];
    let shapes = [(1, 0), (1, 0), (1, 0), (1, 0), (1, 0), (2, 0)];
    for (held, count) in [
        (&[(0, 0)][..], 5),
        (&[(15, 2)][..], 3),
        (&[(16, 4), (31, 3)][..], 2),
        (&[(23, 5), (24, 5)][..], 1),
        (&[(0, 4), (24, 0), (31, 5)][..], 6),
        (
            &[(0, 4), (1, 4), (3, 4), (4, 3), (5, 4), (30, 5), (31, 5)][..],
            3,
        ),
        (&[][..], 0),
    ] {
        assert_eq!(rt; count_from(rt.alloc(), &shapes, &chain, held)?, count);
    }
    let links = [
        (0, 0, 2),
        (0, 1, 1),
        (1, 0, 2),
        (2, 0, 2),
        (3, 0, 4),
        (4, 0, 3),
    ];
    let shapes = [(2, 0), (1, 0), (1, 0), (1, 0), (1, 0)];
    for (held, count) in [
        (&[(31, 0)][..], 3),
        (&[(31, 2)][..], 1),
        (&[(15, 1), (16, 3)][..], 4),
    ] {
        assert_eq!(rt; count_from(rt.alloc(), &shapes, &links, held)?, count);
    }
    Ok(())
}

/// Two objects that name each other, and one that a global holds.
fn ring_and_one(alloc: Global) -> Result<Made, Fail>
    ensures count { IfOk result (λ made. length made.table.regions ≡ 4) }
    ensures words { IfOk result (λ made. made.table.words_per_region ≡ 16) }
    ensures linked { IfOk result (λ made. IsLinked made.table) }
    ensures objects { IfOk result (λ made. (i a : ℕ) → slice_get made.objects.items i ≡ Some a → HasObject made.table a) }
{
    build(alloc, &[(1, 0), (1, 0), (0, 0)], &[(0, 0, 1), (1, 0, 0)])
}

/// What no root and no log names isn't marked.
#[test]
fn leaves_what_nothing_names(rt: HostRuntime) -> Result<(), Fail> {
    let made = ring_and_one(rt.alloc())?;
    let roots = roots_of(rt.alloc(), &made, &[(3, 2)])?;
    let mut marker = begun(rt.alloc(), &made.table, &roots)?;
    assert_eq!(rt; marker.mark(&made.table, Format::V1, 9), 1);
    assert_eq!(rt; marker.finish(&made.table), 1);
    Ok(())
}

/// What only a log names is marked in the end, and what it leads to.
#[test]
fn takes_what_was_logged(rt: HostRuntime) -> Result<(), Fail> {
    let made = ring_and_one(rt.alloc())?;
    let roots = roots_of(rt.alloc(), &made, &[(3, 2)])?;
    let mut marker = begun(rt.alloc(), &made.table, &roots)?;
    save(&mut marker, &made, 1, 1);
    assert_eq!(rt; marker.mark(&made.table, Format::V1, 9), 1);
    assert_eq!(rt; (marker.finish(&made.table), marker.scans()), (3, 3));
    Ok(())
}

/// The lowest of the previous marks, and of a region the previous top and the words that are counted of it.
fn previous_of(table: &RegionTable, marker: &Marker, region: RegionNo) -> (Ptr, Addr, u32)
    requires stands { MarkerStands table.now marker.now }
    requires known { region < length table.now.regions }
{
    (
        marker.bitmaps.previous.next(Addr::new(0)),
        marker.tams.previous(region),
        marker.live.previous(region),
    )
}

/// The lowest of the next marks, and of a region the next top.
fn next_of(table: &RegionTable, marker: &Marker, region: RegionNo) -> (Ptr, Addr)
    requires stands { MarkerStands table.now marker.now }
    requires known { region < length table.now.regions }
{
    (
        marker.bitmaps.next.next(Addr::new(0)),
        marker.tams.next(region),
    )
}

/// Two marked objects of three words in two regions. Once the first region is forgotten, its mark is gone, its top is at its bottom and
/// nothing is counted of it; the other region's mark and count stay.
#[test]
fn forgets_a_region(rt: HostRuntime) -> Result<(), Fail> {
    let made = build(rt.alloc(), &[(1, 0), (1, 0)], &[(0, 0, 1)])?;
    let roots = roots_of(rt.alloc(), &made, &[(16, 0)])?;
    let region = RegionNo::new(0);
    let other = RegionNo::new(1);
    let bottom = Addr::new(0);
    let second = Addr::new(16);
    let mut marker = begun(rt.alloc(), &made.table, &roots)?;
    assert_eq!(rt; marker.finish(&made.table), 2);
    let found = previous_of(&made.table, &marker, region);
    assert_eq!(rt; found, (Some(bottom), Addr::new(3), 3));
    marker.forget(&made.table, region);
    let found = previous_of(&made.table, &marker, region);
    assert_eq!(rt; found, (Some(second), bottom, 0));
    let found = previous_of(&made.table, &marker, other);
    assert_eq!(rt; found, (Some(second), Addr::new(19), 3));
    Ok(())
}

/// Gives a marking up that has logged nothing: what it marked stays in the next marks.
fn give_up(marker: &mut Marker, _table: &RegionTable)
    requires stands { MarkerStands _table.now marker.old }
    requires unlogged { logged marker.old.logs ≡ [] }
    requires none_wait { marker.old.waiting.addresses ≡ [] }
    ensures stands { MarkerStands _table.now marker.new }
    ensures idle { marker.new.running ≡ false }
{
    marker.running = false;
}

/// The same where the marks are the next, those of a marking that was given up.
#[test]
fn forgets_the_next_marks(rt: HostRuntime) -> Result<(), Fail> {
    let made = build(rt.alloc(), &[(1, 0), (1, 0)], &[(0, 0, 1)])?;
    let roots = roots_of(rt.alloc(), &made, &[(16, 0), (17, 1)])?;
    let region = RegionNo::new(0);
    let bottom = Addr::new(0);
    let mut marker = begun(rt.alloc(), &made.table, &roots)?;
    give_up(&mut marker, &made.table);
    let found = next_of(&made.table, &marker, region);
    assert_eq!(rt; found, (Some(bottom), Addr::new(3)));
    marker.forget(&made.table, region);
    let found = next_of(&made.table, &marker, region);
    assert_eq!(rt; found, (Some(Addr::new(16)), bottom));
    Ok(())
}

/// Another object comes while marking runs, with two weak slots: the first leads to an object that was there, the second to
/// itself. A field of an object that was there leads to it. Answers where it is.
fn add_new(
    made: &mut Made,
    _marker: &Marker,
    holder: usize,
    field: u32,
    target: usize,
) -> Option<Addr>
    requires stands { MarkerStands made.old.table _marker.now }
    requires linked { IsLinked made.old.table }
    requires all_kept { (a : ℕ) → below_previous made.old.table _marker.now.tams a ≡ false }
    requires objects { (i a : ℕ) → slice_get made.old.objects.items i ≡ Some a → HasObject made.old.table a }
    ensures stands { MarkerStands made.new.table _marker.now }
{
    if holder >= made.objects.len() || target >= made.objects.len() {
        return None;
    }
    let from = made.objects[holder];
    let to = made.objects[target];
    let Some(at) = add(&mut made.table, RegionNo::new(0), 9, 0, 2) else {
        return None;
    };
    link(&mut made.table, at, 0, to);
    link(&mut made.table, at, 1, at);
    link(&mut made.table, from, field, at);
    Some(at)
}

/// The word that a field of the object at another word leads to, or none.
fn read(table: &RegionTable, word: u32, field: u32) -> Option<u32> {
    table.law();
    if word >= table.region_count() * table.words_per_region() {
        return None;
    }
    let Some(at) = table.first_tile(Addr::new(word)) else {
        return None;
    };
    let Shape::Object { .. } = table.tile(at) else {
        return None;
    };
    if field >= table.field_count(at) {
        return None;
    }
    let Some(target) = table.get_field(at, field) else {
        return None;
    };
    Some(target.word())
}

/// Whether fields of the object at a word lead to these words.
pub(crate) fn lead(table: &RegionTable, word: u32, fields: &[(u32, Option<u32>)]) -> bool {
    for (field, target) in fields {
        if read(table, word, *field) != *target {
            return false;
        }
    }
    true
}

/// The object at 0 is marked, and its pointer's target at 16. Of its weak slots those stay that lead to what is marked, and to
/// what is new; the one that leads to the object at 32 is nil. So is the new object's. A dead object's slot stays.
#[test]
fn clears_weak_slots(rt: HostRuntime) -> Result<(), Fail> {
    let shapes = [(1, 4), (0, 0), (0, 0), (0, 1)];
    let links = [(0, 0, 1), (0, 1, 1), (0, 2, 2), (0, 3, 0), (3, 0, 2)];
    let mut made = build(rt.alloc(), &shapes, &links)?;
    let roots = roots_of(rt.alloc(), &made, &[(16, 0)])?;
    let mut marker = begun(rt.alloc(), &made.table, &roots)?;
    add_new(&mut made, &marker, 0, 4, 2);
    let old = &[
        (0, Some(16)),
        (1, Some(16)),
        (2, Some(32)),
        (3, Some(0)),
        (4, Some(10)),
    ];
    assert!(rt; lead(&made.table, 0, old));
    assert!(rt; lead(&made.table, 10, &[(0, Some(32)), (1, Some(10))]));
    assert_eq!(rt; marker.finish(&made.table), 2);
    assert!(rt; lead(&made.table, 0, old));
    marker.clear_rest(&mut made.table, Addr::new(0));
    let cleared = &[
        (0, Some(16)),
        (1, Some(16)),
        (2, None),
        (3, Some(0)),
        (4, Some(10)),
    ];
    assert!(rt; lead(&made.table, 0, cleared));
    assert!(rt; lead(&made.table, 10, &[(0, None), (1, Some(10))]));
    assert!(rt; lead(&made.table, 7, &[(0, Some(32))]));
    Ok(())
}

/// What a weak slot leads to was read while marking ran, so it was saved: it is marked, and the slot stays.
#[test]
fn keeps_what_was_read(rt: HostRuntime) -> Result<(), Fail> {
    let mut made = build(rt.alloc(), &[(0, 1), (0, 0)], &[(0, 0, 1)])?;
    let roots = roots_of(rt.alloc(), &made, &[(16, 0)])?;
    let mut marker = begun(rt.alloc(), &made.table, &roots)?;
    save(&mut marker, &made, 0, 1);
    assert_eq!(rt; marker.finish(&made.table), 2);
    marker.clear_rest(&mut made.table, Addr::new(0));
    assert_eq!(rt; read(&made.table, 0, 0), Some(16));
    Ok(())
}
