//! What a pause that frees no region says of the live words.

ghost use Rattle.std.specs.Prelude.{◌≡◌, ℕ, ◌+◌, ◌*◌, ◌<◌, ◌≤◌, List, length};
ghost use Rattle.region_choice.specs.Choice.{live_sum};
ghost use Rattle.region_choice.specs.declared.LiveRow.{LiveRow};
ghost use Rattle.collection.specs.Space.{FreesNone};

/// Where a pause over two free regions or more frees none, the candidates, with what is full beside them, are more than half live.
pub fn choice_law()
    ensures { (words frees taken copied full : ℕ) (chosen rest : List LiveRow) → FreesNone words frees chosen rest taken copied
        → 2 ≤ length chosen + length rest + full
        → (length chosen + length rest + full) * words < 2 * (live_sum chosen + live_sum rest + full * words) }
{}
