//! How many bytes of memory a heap asks for when it is made.
//!
//! ```text
//!                      of each word   card   region                                     mutator   root
//!   numbers, flags     8 bytes        9      181, and a bit for each region             72        12
//!   sets, as bits      4 and a bit    3      1
//! ```
//!
//! Filters of remembered sets come to that: 63 bits for 32 words, where a region's cards are whole groups of 64.

ghost use Rattle.std.specs.Prelude.{◌≡◌, ◌+◌, ◌*◌, ◌/◌, ◌^◌, ◌≤◌, true};
ghost use Rattle.heap_steps.specs.Actors.{is_third};
ghost use Rattle.heap_words.specs.Configs.{Suits, card_words};
ghost use Rattle.heap_calls.specs.Numbers.{config_of};
ghost use Rattle.step_core.specs.Fresh.{filter_rows};
ghost use Rattle.g1heap_c.specs.Memory.{card_bytes, filter_bytes, heap_bytes, region_bytes, set_bytes, word_bytes};

use heap_calls::making::{Sizes, config_of};
use heap_words::config::Config;

/// Of a set of numbers below `count`.
fn set_bytes(count: u64) -> u64
    requires few { count ≤ 2 ^ 32 }
    ensures bytes { result ≡ set_bytes count }
    ensures small { result ≤ count + 12 }
{
    8 * count.div_ceil(64) + 4 * count.div_ceil(32768)
}

/// Of so many words.
fn word_bytes(count: u64) -> u64
    requires few { count ≤ 2 ^ 31 }
    ensures bytes { result ≡ word_bytes count }
    ensures small { result ≤ 2 ^ 36 }
{
    let groups = count.div_ceil(4096) + count.div_ceil(262_144) + count.div_ceil(16_777_216);
    8 * count + 4 * set_bytes(count) + 8 * groups
}

/// Of so many cards.
fn card_bytes(count: u64) -> u64
    requires few { count ≤ 2 ^ 31 }
    ensures bytes { result ≡ card_bytes count }
    ensures small { result ≤ 2 ^ 36 }
{
    9 * count + 3 * set_bytes(count)
}

/// How many rows of the second kind a filter has.
fn rows_of(config: &Config, cards: u64) -> u64
    requires suits { Suits config.now }
    requires third { is_third config.now.format ≡ true }
    requires cards { cards ≡ config.now.words / card_words config.now }
    ensures rows { result ≡ filter_rows config.now }
    ensures few { result ≤ 336 }
{
    if cards % 64 != 0 {
        return 0;
    }
    u64::from(21 * config.card_words() / 32)
}

/// Of the filters of so many regions.
fn filter_bytes(regions: u64, rows: u64, cards: u64) -> u64
    requires regions { regions ≤ 16384 }
    requires rows { rows ≤ 336 }
    requires cards { cards ≤ 2 ^ 19 }
    ensures bytes { result ≡ filter_bytes regions rows cards }
    ensures small { result ≤ 2 ^ 44 }
{
    regions.div_ceil(4) * (80 + set_bytes(12 * (rows * cards)))
}

/// Of so many regions.
fn region_bytes(count: u64) -> u64
    requires few { count ≤ 16384 }
    ensures bytes { result ≡ region_bytes count }
    ensures small { result ≤ 2 ^ 36 }
{
    let set = set_bytes(count);
    count * (181 + set) + set
}

/// Of a heap of these sizes.
fn heap_bytes(config: &Config) -> u64
    requires suits { Suits config.now }
    requires third { is_third config.now.format ≡ true }
    ensures { result ≡ heap_bytes config.now }
{
    let regions = u64::from(config.regions);
    let mutators = u64::from(config.mutators);
    let cards = u64::from(config.words / config.card_words());
    let roots = u64::from(config.globals()) + u64::from(config.registers()) * mutators;
    word_bytes(regions * u64::from(config.words))
        + card_bytes(regions * cards)
        + filter_bytes(regions, rows_of(config, cards), cards)
        + region_bytes(regions)
        + 72 * mutators
        + 12 * roots
        + 2072
}

/// How many bytes `g1_new` asks for with these sizes, in all pieces; 0 where they don't suit.
#[unsafe(no_mangle)]
pub extern "C" fn g1_sizes_bytes(sizes: &Sizes) -> u64
    ensures fit { Suits (config_of sizes.now) → result ≡ heap_bytes (config_of sizes.now) }
    ensures unfit { (Suits (config_of sizes.now) → ⊥) → result ≡ 0 }
{
    let config = config_of(sizes);
    let Ok(()) = config.check() else {
        return 0;
    };
    heap_bytes(&config)
}
