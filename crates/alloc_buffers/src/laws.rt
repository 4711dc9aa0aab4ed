//! What holds of buffers and limits as regions are released and runs are made.

ghost use Rattle.std.specs.Prelude.{◌≡◌, ◌≢◌, ℕ, ◌<◌, ◌*◌, length, Some};
ghost use Rattle.heap_model.specs.Heap.{Stored};
ghost use Rattle.regions.specs.Table.{Table, top_of, kind_of, released, first_run, is_free, with_regions, run_regions};
ghost use Rattle.regions.specs.Shaped.{IsShaped};
ghost use Rattle.regions.specs.declared.row.Kind.TheVariants as kinds;
ghost use Rattle.alloc_buffers.specs.Placement.{Buffers, BuffersStand, AreAbove, IsAbove};

/// A region is released of which nothing is above its limit, and which isn't the current one: no open buffer is in it.
pub fn release_law()
    ensures stand { (t : Table) (b : Buffers) (limit : ℕ → ℕ) (k : ℕ) → IsShaped t → BuffersStand t b → AreAbove t b limit
        → k < length t.regions
        → kind_of t k ≡ kinds.Ordinary → limit k ≡ top_of t k → b.current ≢ Some k → BuffersStand (released t k) b }
    ensures above { (t : Table) (b : Buffers) (limit limit' : ℕ → ℕ) (k : ℕ) → IsShaped t → BuffersStand t b → AreAbove t b limit
        → k < length t.regions
        → kind_of t k ≡ kinds.Ordinary → limit k ≡ top_of t k → ((j : ℕ) → j ≢ k → limit' j ≡ limit j) → limit' k ≡ k * t.words_per_region
        → AreAbove (released t k) b limit' }
{}

/// A humongous object is made in the run of free regions that is its place: buffers stand as before, its address lies at or
/// above its region's limit, and so do all tops.
pub fn run_law()
    ensures stand { (t : Table) (b : Buffers) (k count : ℕ) (s : Stored) → IsShaped t → 0 < count
        → first_run is_free count t.regions ≡ Some k
        → BuffersStand t b → BuffersStand (with_regions t k count (run_regions t.words_per_region s count)) b }
    ensures above { (t : Table) (b : Buffers) (k count : ℕ) (s : Stored) (limit : ℕ → ℕ) → IsShaped t → 0 < count
        → first_run is_free count t.regions ≡ Some k
        → AreAbove t b limit → IsAbove t.words_per_region limit (k * t.words_per_region)
        × AreAbove (with_regions t k count (run_regions t.words_per_region s count)) b limit }
{}
