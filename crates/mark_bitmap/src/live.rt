//! The live bound of a region: an upper bound of the words of its kept objects, by marks and tops at mark start. `marker`
//! counts it.
//!
//! ```text
//!   a region   bottom                   previous top at mark start    top       end
//!              | words of marked        | all words: made since       |  none   |
//!              | objects: live, or died | marking began               |         |
//!              | since                  |                             |         |
//! ```

ghost use Rattle.std.specs.Prelude.{◌≡◌, ◌*◌, ◌<◌, ◌≤◌, ℕ, Bool, true, List, None, length, slice_index};
ghost use Rattle.regions.specs.Table.{Table, kind_of, nth_region, top_of};
ghost use Rattle.regions.specs.Shaped.{IsShaped};
ghost use Rattle.regions.specs.declared.row.Kind.TheVariants as kinds;
ghost use Rattle.mark_bitmap.specs.Marks.{is_marked};
ghost use Rattle.mark_bitmap.specs.Tops.{Tops, is_in_region};
ghost use Rattle.mark_bitmap.specs.Kept.{MarksObjects, kept_in};
ghost use Rattle.mark_bitmap.specs.Live.{kept_words, live_bound_of};

/// What the live bound says of a region. The region's kept objects have no more words. At zero nothing of it is kept, and
/// its top is that at mark start. It is told by the region's tiles, its marks and its top at mark start, whatever happens
/// to other regions.
pub fn live_law()
    ensures at_least { (t : Table) (tops : Tops) (previous : List Bool) (k : ℕ)
        → IsShaped t → MarksObjects t tops.previous previous → k < length t.regions → kind_of t k ≡ kinds.Ordinary
        → kept_words t tops previous (k * t.words_per_region) t.words_per_region ≤ live_bound_of t tops.previous previous k }
    ensures dead { (t : Table) (tops : Tops) (previous : List Bool) (k : ℕ)
        → IsShaped t → MarksObjects t tops.previous previous → k < length t.regions → kind_of t k ≡ kinds.Ordinary
        → live_bound_of t tops.previous previous k ≡ 0 → (a : ℕ) → is_in_region t.words_per_region k a ≡ true
        → kept_in t tops previous a ≡ None }
    ensures top { (t : Table) (tops : Tops) (previous : List Bool) (k : ℕ)
        → IsShaped t → MarksObjects t tops.previous previous → k < length t.regions → kind_of t k ≡ kinds.Ordinary
        → live_bound_of t tops.previous previous k ≡ 0 → slice_index tops.previous k ≡ top_of t k }
    ensures same { (t t' : Table) (tops tops' : List ℕ) (marks marks' : List Bool) (k : ℕ)
        → IsShaped t → t'.words_per_region ≡ t.words_per_region → nth_region t' k ≡ nth_region t k
        → slice_index tops' k ≡ slice_index tops k
        → ((a : ℕ) → is_in_region t.words_per_region k a ≡ true → is_marked marks' a ≡ is_marked marks a)
        → MarksObjects t tops marks → live_bound_of t' tops' marks' k ≡ live_bound_of t tops marks k }
{}
