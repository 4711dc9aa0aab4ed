//! Markings that end, counted whoever ends them.

ghost use Rattle.std.specs.Prelude.{◌≡◌};
ghost use Rattle.collection.specs.Markings.{CountsMarking};

use crate::steps::Watch;
use heap_steps::{CollectorStep, Event, Reply, Step};

/// A number watches: it counts the markings that end, mod 2^64.
///
/// ```rust
/// let mut markings = 0u64;
/// collect(&mut core, &mut policy, &mut markings);
/// assert_eq!(rt; markings, 1);
/// ```
impl Watch for u64 {
    ghost sees = { λ n e n'. CountsMarking n e n' };

    #[inline(always)]
    fn took(&mut self, event: &Event) {
        match event.step {
            Step::Collector(CollectorStep::Remark) => match event.reply {
                Reply::Marked(_) => {
                    *self = self.wrapping_add(1);
                }
                _ => {}
            },
            _ => {}
        }
    }
}
