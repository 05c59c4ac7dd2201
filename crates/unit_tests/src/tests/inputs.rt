// Lines of an input, whole and cut into pieces.
use lines::Lines;
use std::io::BufReader;
use std::test::Fail;

// A line of 128 bytes is whole, one of 129 is too long, and the last needs no line feed.
#[test]
fn lines_of_an_input(rt: HostRuntime) -> Result<(), Fail> {
    let heap = rt.alloc();
    let mut text = Vec::new(heap);
    text.extend_from_slice(b"first\n\n")?;
    text.resize(7 + 128, b'a')?;
    text.extend_from_slice(b"\n")?;
    text.resize(7 + 129 + 129, b'b')?;
    text.extend_from_slice(b"\nlast")?;
    let mut lengths = Vec::new(heap);
    for line in Lines::of(BufReader::with_capacity(heap, 3, text.as_slice())?) {
        lengths.push(line?.get().map(|bytes| bytes.len()))?;
    }
    assert!(rt; lengths.as_slice() == [Some(5), Some(0), Some(128), None, Some(4)].as_slice());
    Ok(())
}
