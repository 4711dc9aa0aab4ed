//! Which sizes suit a heap, and the division by a size.

use heap_words::config::{Config, Format, NewFault};
use heap_words::powers::quotient;
use std::test::Fail;

fn third(card: u32, globals: u32, registers: u32) -> Format {
    Format::V3 {
        card,
        globals,
        registers,
    }
}

#[test]
fn names_the_first_fault(rt: HostRuntime) {
    use NewFault::{
        BadBuffer, BadCard, BadGlobals, BadMutators, BadRegions, BadRegisters, BadRoots, BadWords,
    };
    let one = Format::V1;
    for (format, sizes, answer) in [
        (one, (2, 16, 4, 1), Ok(())),
        (one, (256, 4096, 2048, 16), Ok(())),
        (one, (1024, 1024, 8, 1), Ok(())),
        (one, (1, 15, 1, 0), Err(BadRegions)),
        (one, (1025, 16, 8, 1), Err(BadRegions)),
        (one, (2, 15, 1, 0), Err(BadWords)),
        (one, (2, 8192, 8, 1), Err(BadWords)),
        (one, (512, 4096, 8, 1), Err(BadWords)),
        (one, (4, 16, 3, 0), Err(BadBuffer)),
        (one, (4, 16, 9, 1), Err(BadBuffer)),
        (one, (4, 16, 8, 0), Err(BadMutators)),
        (one, (4, 16, 8, 17), Err(BadMutators)),
        (Format::V2 { card: 64 }, (1024, 4096, 8, 1), Ok(())),
        (Format::V2 { card: 64 }, (1024, 16384, 8, 1), Ok(())),
        (Format::V2 { card: 64 }, (1024, 32768, 8, 1), Err(BadWords)),
        (Format::V2 { card: 64 }, (2, 64, 8, 1), Ok(())),
        (Format::V2 { card: 16 }, (4, 16, 8, 1), Ok(())),
        (Format::V2 { card: 8 }, (4, 16, 8, 1), Ok(())),
        (Format::V2 { card: 32 }, (4, 16, 8, 1), Err(BadCard)),
        (Format::V2 { card: 12 }, (4, 16, 8, 1), Err(BadCard)),
        (Format::V2 { card: 4 }, (4, 16, 8, 1), Err(BadCard)),
        (Format::V2 { card: 128 }, (4, 256, 8, 1), Err(BadCard)),
        (Format::V2 { card: 12 }, (4, 16, 8, 0), Err(BadMutators)),
        (third(8, 65_536, 1), (4, 16, 8, 64), Ok(())),
        (third(8, 0, 16_384), (4, 16, 8, 64), Ok(())),
        (third(64, 0, 65_536), (1024, 16384, 8, 16), Ok(())),
        (third(512, 0, 1), (4096, 524_288, 8, 16), Ok(())),
        (third(512, 0, 1), (512, 4_194_304, 8, 16), Ok(())),
        (third(512, 0, 1), (16_384, 131_072, 8, 16), Ok(())),
        (third(512, 0, 1), (16_385, 16, 8, 16), Err(BadRegions)),
        (third(512, 0, 1), (513, 4_194_304, 8, 16), Err(BadWords)),
        (third(512, 0, 1), (4096, 4_194_304, 8, 16), Err(BadWords)),
        (third(512, 0, 1), (2, 8_388_608, 8, 16), Err(BadWords)),
        (third(512, 0, 1), (2, 256, 8, 16), Err(BadCard)),
        (third(1024, 0, 1), (2, 4096, 8, 16), Err(BadCard)),
        (third(8, 0, 1), (4, 16, 8, 65), Err(BadMutators)),
        (third(12, 65_537, 0), (4, 16, 8, 1), Err(BadCard)),
        (third(8, 65_537, 0), (4, 16, 8, 1), Err(BadGlobals)),
        (third(8, 65_536, 0), (4, 16, 8, 1), Err(BadRegisters)),
        (third(8, 0, 65_537), (4, 16, 8, 1), Err(BadRegisters)),
        (third(8, 1, 16_384), (4, 16, 8, 64), Err(BadRoots)),
        (third(8, 0, 65_536), (4, 16, 8, 17), Err(BadRoots)),
    ] {
        let (regions, words, buffer, mutators) = sizes;
        let config = Config {
            format,
            regions,
            words,
            buffer,
            mutators,
            first_name: 0,
        };
        assert_eq!(rt;
            config.check(),
            answer,
            "at {regions} {words} {buffer} {mutators}"
        );
    }
}

#[test]
fn prints_faults(rt: HostRuntime) -> Result<(), Fail> {
    for (fault, text) in [
        (NewFault::BadRegions, "1 BadRegions"),
        (NewFault::BadWords, "2 BadWords"),
        (NewFault::BadBuffer, "3 BadBuffer"),
        (NewFault::BadMutators, "4 BadMutators"),
        (NewFault::NoMemory, "5 NoMemory"),
        (NewFault::BadCard, "6 BadCard"),
        (NewFault::BadGlobals, "7 BadGlobals"),
        (NewFault::BadRegisters, "8 BadRegisters"),
        (NewFault::BadRoots, "9 BadRoots"),
    ] {
        assert_eq!(rt; fault.to_string(rt.alloc())?.as_str(), text);
    }
    Ok(())
}

/// By powers of two, the first and the last of them, and by other sizes.
#[test]
fn divides(rt: HostRuntime) -> Result<(), Fail> {
    for (number, size, found) in [
        (0, 1, 0),
        (4_294_967_295, 1, 4_294_967_295),
        (1_000, 16, 62),
        (1_008, 16, 63),
        (4_294_967_295, 2_147_483_648, 1),
        (1_000, 24, 41),
        (4_294_967_295, 4_294_967_295, 1),
    ] {
        assert_eq!(rt; quotient(number, size), found, "{number} by {size}");
    }
    Ok(())
}
