//! Which kept object has a name.

ghost use Rattle.heap_walk.specs.Kept.{IsObjectOf};

use crate::kept::kept_from;
use crate::starts::{tile_above, tile_from};
use heap_words::addr::Addr;
use step_core::Core;

/// Where the kept object of a name starts. `None`: no kept object has the name. It looks at each tile up to there.
///
/// ```rust
/// core.step(new);
/// assert_eq!(rt; object_of(&core, 0), Some(Addr::new(0)));
/// assert_eq!(rt; object_of(&core, 1), None);
/// ```
pub fn object_of(core: &Core, name: u64) -> Option<Addr>
    ensures { IsObjectOf core.now name result }
{
    core.law_shaped();
    let table = core.table();
    let mut left = tile_from(table, Addr::new(0));
    while let Some(object) = kept_from(core, left) {
        if table.name(object) == name {
            return Some(object);
        }
        left = tile_above(table, object);
    }
    None
}
