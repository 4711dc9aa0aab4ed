//! Words of headers and pointers.

ghost use Rattle.std.specs.Prelude.{◌<◌, ◌^◌};

use heap_words::addr::{Addr, Ptr};
use heap_words::header::{
    Count, FillerSize, Header, PairCount, decode_header, decode_pointer, encode_header,
    encode_pointer,
};

fn object(pointers: u32, weaks: u8, values: u32) -> Header
    requires pointers { pointers < 2 ^ 24 }
    requires values { values < 2 ^ 24 }
{
    Header::Object {
        pointers: Count::new(pointers),
        weaks,
        data: Count::new(values),
    }
}

fn of_pairs(pointers: u8, pairs: u32, values: u32) -> Header
    requires pairs { pairs < 2 ^ 23 }
    requires values { values < 2 ^ 24 }
{
    Header::Pairs {
        pointers,
        pairs: PairCount::new(pairs),
        data: Count::new(values),
    }
}

fn filler(size: u32) -> Header
    requires positive { 0 < size }
    requires small { size < 2 ^ 24 }
{
    Header::Filler {
        size: FillerSize::new(size),
    }
}

fn forwarded(to: u32) -> Header {
    Header::Forwarded { to: Addr::new(to) }
}

/// Whether a header is written as a word, and read from it.
fn is_word_of(header: Header, word: u64) -> bool {
    let Some(found) = decode_header(word) else {
        return false;
    };
    found == header && encode_header(header) == word
}

/// Whether a word is no header.
fn is_none(word: u64) -> bool {
    decode_header(word).is_none()
}

/// Words that were put together by hand from the layout, and some that are no header.
#[test]
fn writes_and_reads_headers(rt: HostRuntime) {
    assert!(rt; is_word_of(object(0, 0, 0), 0));
    assert!(rt; is_word_of(object(1, 0, 1), 4_294_967_552));
    assert!(rt; is_word_of(object(1, 1, 1), 72_057_598_332_895_488));
    assert!(rt; is_word_of(of_pairs(0, 0, 0), 131));
    assert!(rt; is_word_of(of_pairs(1, 1, 1), 72_057_598_332_895_875));
    assert!(rt; is_word_of(filler(5), 1281));
    assert!(rt; is_word_of(forwarded(16), 4098));
    for word in [1, 3, 4, 128, 387, 1 << 32 | 1, 1 << 40 | 2, 1 << 56 | 3] {
        assert!(rt; is_none(word));
    }
}

/// Whether a pointer is written as a word, and read from it.
fn is_word_of_pointer(pointer: Ptr, word: u64) -> bool {
    encode_pointer(pointer) == word && decode_pointer(word) == pointer
}

#[test]
fn writes_and_reads_pointers(rt: HostRuntime) {
    assert!(rt; is_word_of_pointer(None, 0));
    assert!(rt; is_word_of_pointer(Some(Addr::new(0)), 1));
    assert!(rt; is_word_of_pointer(Some(Addr::new(16)), 17));
}
