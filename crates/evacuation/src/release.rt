//! The regions of the set are released: they have no marks then, their tops at mark start are their bottoms, and their
//! remembered sets are empty.

ghost use Rattle.std.specs.Prelude.{◌≡◌, ◌≢◌, ◌+◌, ◌*◌, ◌/◌, ◌<◌, ℕ, All, false, if◌then◌else◌, length};
ghost use Rattle.regions.specs.declared.row.Kind.TheVariants as kinds;
ghost use Rattle.evacuation.specs.Evacuates.{AreDistinct, MarksAfter, is_chosen};
ghost use Rattle.evacuation.specs.Releasing.{AreCleared, AreOfTable, AreReleased, NoneForwardedInto};
ghost use Rattle.regions.specs.Table.{free_count, kind_of, released, EachForwardedIn};
ghost use Rattle.mark_bitmap.specs.Marks.{is_marked};
ghost use Rattle.mark_bitmap.specs.Tops.{is_in_region, with_bottom};
ghost use Rattle.remembered_sets.specs.Sets.{cleared};

use heap_words::addr::{Addr, RegionNo};
use mark_bitmap::bitmaps::Bitmaps;
use mark_bitmap::tams::Tams;
use region_choice::LiveRow;
use regions::RegionTable;
use remembered_sets::RememberedSets;

/// Releases one region.
fn release_region(
    table: &mut RegionTable,
    tams: &mut Tams,
    bitmaps: &mut Bitmaps,
    sets: &mut RememberedSets,
    region: RegionNo,
)
    requires known { region < length table.old.regions }
    requires ordinary { kind_of table.old region ≡ kinds.Ordinary }
    requires unmoved { EachForwardedIn (λ to. region ≢ to / table.old.words_per_region) table.old.regions }
    requires layers { AreOfTable table.old tams.old bitmaps.old sets.old }
    ensures table { table.new ≡ released table.old region }
    ensures tams { tams.new ≡ with_bottom tams.old region (region * table.old.words_per_region) }
    ensures previous { (a : ℕ) → is_marked bitmaps.new.previous a
        ≡ (if is_in_region table.old.words_per_region region a then false else is_marked bitmaps.old.previous a) }
    ensures next { (a : ℕ) → is_marked bitmaps.new.next a
        ≡ (if is_in_region table.old.words_per_region region a then false else is_marked bitmaps.old.next a) }
    ensures previous_len { length bitmaps.new.previous ≡ length bitmaps.old.previous }
    ensures next_len { length bitmaps.new.next ≡ length bitmaps.old.next }
    ensures sets { sets.new ≡ cleared sets.old region }
{
    table.law();
    let words = table.words_per_region();
    let bottom = region.number() * words;
    let from = Addr::new(bottom);
    let to = Addr::new(bottom + words);
    bitmaps.previous.clear_range(from, to);
    bitmaps.next.clear_range(from, to);
    tams.reset(region, from);
    sets.clear(region);
    table.release(region);
}

/// Releases the rows' regions.
pub(crate) fn release_chosen(
    table: &mut RegionTable,
    tams: &mut Tams,
    bitmaps: &mut Bitmaps,
    sets: &mut RememberedSets,
    rows: &[LiveRow],
)
    requires known { All (λ row. row.region < length table.old.regions) rows.now }
    requires ordinary { All (λ row. kind_of table.old row.region ≡ kinds.Ordinary) rows.now }
    requires distinct { AreDistinct rows.now }
    requires unmoved { NoneForwardedInto rows.now table.old.words_per_region table.old }
    requires layers { AreOfTable table.old tams.old bitmaps.old sets.old }
    ensures table { AreReleased (is_chosen rows.now) table.old table.new }
    ensures count { free_count table.new ≡ free_count table.old + length rows.now }
    ensures unmoved { NoneForwardedInto rows.now table.old.words_per_region table.new }
    ensures previous { MarksAfter table.old.words_per_region (is_chosen rows.now) tams.old.previous tams.new.previous
        bitmaps.old.previous bitmaps.new.previous }
    ensures next { MarksAfter table.old.words_per_region (is_chosen rows.now) tams.old.next tams.new.next bitmaps.old.next
        bitmaps.new.next }
    ensures sets { AreCleared (is_chosen rows.now) sets.old sets.new }
{
    table.law();
    for row in rows {
        release_region(table, tams, bitmaps, sets, row.region);
    }
}
