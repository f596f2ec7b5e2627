// How long a text may be: one of the greatest length is read, and a longer one is refused at that length.
use crate::refusals::refusal;
use std::test::*;

// A text of the greatest length is read to its last byte.
#[test]
fn greatest(rt: HostRuntime) -> Result<(), Fail> {
    let mut text = b"[(2,2,[])]".to_vec(rt.alloc())?;
    text.resize(65535, b' ')?;
    assert_eq!(rt; refusal(&text), None);
    text.push(b'x')?;
    assert_eq!(rt; refusal(&text), Some((12, 65535)));
    text.resize(10, b' ')?;
    text.resize(65536, b'\n')?;
    assert_eq!(rt; refusal(&text), None);
    Ok(())
}

// A longer text is refused at the greatest length, with a fault before it or not.
#[test]
fn too_long(rt: HostRuntime) -> Result<(), Fail> {
    for start in ["", "[(2,2,[])]", "[(2,2,[])]x", "x"] {
        let mut text = start.as_bytes().to_vec(rt.alloc())?;
        text.resize(65537, b' ')?;
        assert_eq!(rt; (start, refusal(&text)), (start, Some((12, 65536))));
    }
    Ok(())
}

// A text of the greatest length that ends too soon has its fault at that length.
#[test]
fn too_short(rt: HostRuntime) -> Result<(), Fail> {
    for start in ["", "[(2,2,[])", "[(2,2,[]);(0,1,[(E(5"] {
        let mut text = start.as_bytes().to_vec(rt.alloc())?;
        text.resize(65536, b' ')?;
        assert_eq!(rt; (start, refusal(&text)), (start, Some((12, 65536))));
    }
    Ok(())
}
