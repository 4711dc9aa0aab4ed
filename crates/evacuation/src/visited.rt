//! The cards that a pause visits: those in which a field may lead into a chosen region, as the remembered sets tell, but for cards of
//! regions that are free. Copies come there, and a copy's fields are settled where it stands.

ghost use Rattle.std.specs.Prelude.{◌≡◌, ◌≢◌, ◌<◌, ◌*◌, ◌/◌, ℕ, All, true, false, length};
ghost use Rattle.std.specs.List.{list_any};
ghost use Rattle.remembered_sets.specs.Sets.{card_count, may_lead};
ghost use Rattle.regions.specs.Table.{kind_of};
ghost use Rattle.regions.specs.declared.row.Kind.TheVariants as kinds;
ghost use Rattle.refinement.specs.Refining.{SetsFit};
ghost use Rattle.evacuation.specs.Space.{flag};

use bit_sets::bounded::BoundedBits;
use heap_words::addr::RegionNo;
use heap_words::powers::quotient;
use region_choice::LiveRow;
use regions::{Kind, RegionTable};
use remembered_sets::RememberedSets;

/// Flags the cards in which a field may lead into the rows' regions, and no others.
fn flag_covered(visited: &mut BoundedBits, sets: &RememberedSets, rows: &[LiveRow])
    requires rows { All (λ row. row.region < length sets.now.sets) rows.now }
    requires cards { length visited.old ≡ card_count sets.now }
    ensures flags { (card : ℕ) → flag visited.new card ≡ list_any (λ row. may_lead sets.now row.region card) rows.now }
    ensures len { length visited.new ≡ length visited.old }
{
    visited.clear();
    for row in rows {
        sets.mark_cards(row.region, visited);
    }
}

/// Whether a region is free.
fn is_free(table: &RegionTable, region: RegionNo) -> bool
    requires { region < length table.now.regions }
    ensures yes { result ≡ true → kind_of table.now region ≡ kinds.Free }
    ensures no { result ≡ false → kind_of table.now region ≢ kinds.Free }
{
    match table.kind(region) {
        Kind::Free => true,
        Kind::Ordinary | Kind::First | Kind::Rest => false,
    }
}

/// Clears the flags of the cards of free regions: one look for each region that has a flagged card.
fn clear_free(visited: &mut BoundedBits, table: &RegionTable, cards_per_region: u32)
    requires some_cards { 0 < cards_per_region }
    requires each { length visited.old ≡ length table.now.regions * cards_per_region }
    ensures in_use { (card : ℕ) → kind_of table.now (card / cards_per_region) ≢ kinds.Free → flag visited.new card ≡ flag visited.old card }
    ensures free { (card : ℕ) → kind_of table.now (card / cards_per_region) ≡ kinds.Free → flag visited.new card ≡ false }
    ensures len { length visited.new ≡ length visited.old }
{
    table.law();
    visited.law();
    let mut start = 0;
    while let Some(card) = visited.next(start) {
        let region = quotient(card, cards_per_region);
        let end = (region + 1) * cards_per_region;
        if is_free(table, RegionNo::new(region)) {
            visited.clear_range(card, end);
        }
        start = end;
    }
}

/// Flags the cards of regions in use in which a field may lead into the rows' regions, and no others.
pub(crate) fn flag_visited(
    visited: &mut BoundedBits,
    table: &RegionTable,
    sets: &RememberedSets,
    rows: &[LiveRow],
    card_words: u32,
)
    requires rows { All (λ row. row.region < length sets.now.sets) rows.now }
    requires cards { length visited.old ≡ card_count sets.now }
    requires fit { SetsFit table.now card_words sets.now }
    ensures flags { (card : ℕ) → kind_of table.now (card * card_words / table.now.words_per_region) ≢ kinds.Free
        → flag visited.new card ≡ list_any (λ row. may_lead sets.now row.region card) rows.now }
    ensures free { (card : ℕ) → kind_of table.now (card * card_words / table.now.words_per_region) ≡ kinds.Free
        → flag visited.new card ≡ false }
    ensures len { length visited.new ≡ length visited.old }
{
    table.law();
    flag_covered(visited, sets, rows);
    clear_free(visited, table, table.words_per_region() / card_words);
}
