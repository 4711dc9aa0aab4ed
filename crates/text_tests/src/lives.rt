//! The lines of a small life, written by hand, and its page.

use heap_life::{live, name_law, page_of, planned};
use script_text::parse;
use std::alloc::Global;
use std::process::Abort;
use std::test::Fail;

/// The page of a script, drawn of a file of this name, with these names for shapes.
fn page_of_script(alloc: Global, name: &str, names: &[u8], script: &str) -> Result<Vec<u8>, Fail> {
    let Ok(plan) = parse(alloc, script.as_bytes()) else {
        return Err(Fail::from("this is a script"));
    };
    let Ok(events) = planned(alloc, &plan) else {
        return Err(Fail::from("events"));
    };
    let Ok(life) = live(alloc, &events, 1) else {
        return Err(Fail::from("a life"));
    };
    Ok(page_of(alloc, name, names, &life)?)
}

/// How often a text is in another one.
fn count_in(text: &[u8], part: &[u8]) -> usize {
    text.windows(part.len().max(1))
        .filter(|window| *window == part)
        .count()
}

/// Two objects, of which one is dead when marking ends; a pause copies the other. A moment is told once, where a region changed alone.
#[test]
fn a_small_life(rt: HostRuntime) -> Result<(), Fail> {
    let script = "\
heap 2 16 8 1 0
0 new r0 1 1
0 new r1 0 1
0 drop r1
gc begin
gc remark
gc pause 8
";
    let lines = "\
file %3C/script%3E%20%22%C3%BC%22.heap
names 1%201%20%2A%20%2A%20%3Cb%3E%0A
card 8
roots 16 8
pace 1 1 1
events 6
m 0 0 0 2 0 0 0 0 0 0 -
n
r 0 f
r 1 f
m 1 8 8 1 0 0 0 0 0 1 0
b 0 4 4
n 16 0
r 0 o 8 0 0 4 4 8 0
o 0 0 n - ; ; 0
x 4 4
m 2 8 8 1 0 0 0 0 0 2 0
b 0 7 1
n 16 0 17 4
r 0 o 8 0 0 7 1 8 0
o 0 0 n - ; ; 0
o 4 1 n ; ; 0
x 7 1
m 3 8 8 1 0 0 0 0 0 2 0
b 0 7 1
n 16 0
m 4 8 8 1 0 0 0 1 0 2 0
n 16 0
r 0 o 8 0 0 7 1 8 0 8 1
o 0 0 ng - ; ; 0
o 4 1 nu ; ; 0
x 7 1
m 5 8 4 1 0 0 0 0 1 2 0
n 16 0
r 0 o 8 4 3 0 1 4 8
o 0 0 m - ; ; 0
o 4 1 d ; ; 0
x 7 1
m 6 4 4 1 0 0 4 0 1 2 -
n 16 16
r 0 f
r 1 o 4 0 0 4 0 4 0
o 0 0 n - ; ; 0
</script>";
    name_law();
    let names = b"1 1 * * <b>\n";
    let page = page_of_script(rt.alloc(), "</script> \"ü\".heap", names, script)?;
    assert_eq!(rt; count_in(page.as_slice(), lines.as_bytes()), 1);
    assert_eq!(rt;
        count_in(page.as_slice(), b"6 gc pause 8 = moved 1 4\n</script>"),
        1
    );
    assert!(rt; page.as_slice().starts_with(b"<!doctype html>"));
    assert!(rt; page.as_slice().ends_with(b"</html>\n"));
    Ok(())
}

/// While marking runs two mutators overwrite the pointers that name the second object: its address is in the log of each.
#[test]
fn deletion_logs(rt: HostRuntime) -> Result<(), Fail> {
    let script = "\
heap 2 16 8 2 0
0 new r0 2 0
0 new r1 0 1
0 put r0 0 r1
0 put r0 1 r1
0 drop r1
0 save g0 r0
1 load r0 g0
gc begin
0 put r0 0 nil
1 put r0 1 nil
";
    let lines = "
m 10 8 8 1 0 0 0 1 0 2 0
d 0 4
d 1 4
n 0 0 16 0 24 0
r 0 o 8 0 0 7 1 8 0 8 1
o 0 0 ng - - ; ;
o 4 1 nu ; ; 0
x 7 1
</script>";
    let page = page_of_script(rt.alloc(), "first.heap", b"", script)?;
    assert_eq!(rt; count_in(page.as_slice(), lines.as_bytes()), 1);
    assert_eq!(rt; count_in(page.as_slice(), b"\nd "), 3);
    Ok(())
}
