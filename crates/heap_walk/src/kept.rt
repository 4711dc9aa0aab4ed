//! Which tiles are objects that the heap keeps.

ghost use Rattle.std.specs.Prelude.{◌↔◌, IsSome, IsTrue, IfSome};
ghost use Rattle.regions.specs.Table.{tile_in};
ghost use Rattle.step_core.specs.Stands.{kept_of};
ghost use Rattle.heap_walk.specs.Starts.{IsTileFrom, place_of};
ghost use Rattle.heap_walk.specs.Kept.{IsKeptFrom, place_above};

use crate::starts::{tile_above, tile_from};
use heap_words::addr::Addr;
use regions::Shape;
use step_core::Core;

/// Whether a tile is an object that the heap keeps.
fn is_kept(core: &Core, at: Addr) -> bool
    requires { IsSome (tile_in core.now.table at) }
    ensures { IsTrue result ↔ IsSome (kept_of core.now at) }
{
    core.law_remembers();
    match core.table().tile(at) {
        Shape::Object { .. } => core.marker().lasting(core.table(), Some(at)).is_some(),
        Shape::Filler { .. } => false,
        Shape::Forwarded { .. } => false,
    }
}

/// The lowest kept object from a tile on.
pub(crate) fn kept_from(core: &Core, tile: Option<Addr>) -> Option<Addr>
    requires { IfSome tile (λ a. IsSome (tile_in core.now.table a)) }
    ensures { IsKeptFrom core.now (place_of core.now.table tile) result }
{
    core.law_shaped();
    let mut left = tile;
    while let Some(at) = left {
        if is_kept(core, at) {
            return Some(at);
        }
        left = tile_above(core.table(), at);
    }
    None
}

/// The lowest tile above a kept object, or the lowest of all.
fn tile_after(core: &Core, object: Option<Addr>) -> Option<Addr>
    requires { IfSome object (λ a. IsSome (kept_of core.now a)) }
    ensures { IsTileFrom core.now.table (place_above object) result }
{
    match object {
        Some(at) => tile_above(core.table(), at),
        None => tile_from(core.table(), Addr::new(0)),
    }
}

/// Where the lowest kept object above another one starts, or the lowest of all where none is given. `None`: there is none. From object to
/// object it looks at each tile once.
///
/// ```rust
/// core.step(new);
/// assert_eq!(rt; kept_above(&core, None), Some(Addr::new(0)));
/// assert_eq!(rt; kept_above(&core, Some(Addr::new(0))), None);
/// ```
pub fn kept_above(core: &Core, object: Option<Addr>) -> Option<Addr>
    requires { IfSome object (λ a. IsSome (kept_of core.now a)) }
    ensures { IsKeptFrom core.now (place_above object) result }
{
    core.law_shaped();
    kept_from(core, tile_after(core, object))
}
