// Each function that needs memory succeeds where there is some.
use super::*;
use std::fs;
use std::test::Fail;

const NAME: &str = "files_tests.img";

#[test]
fn source_is_taken_whole(rt: HostRuntime) -> Result<(), Fail> {
    let bytes = bytes_of(rt.alloc(), &[1u8, 2, 3][..])?;
    assert_eq!(rt; bytes.as_slice(), &[1u8, 2, 3][..]);
    Ok(())
}

#[test]
fn file_is_read_at_its_path(rt: HostRuntime) -> Result<(), Fail> {
    fs::write(&rt, NAME, "eight bi")?;
    let named = file_at(&rt, NAME)?;
    let given = file_or_input(&rt, Some(NAME))?;
    fs::remove_file(&rt, NAME)?;
    assert_eq!(rt; named.as_slice(), b"eight bi".as_slice());
    assert_eq!(rt; given.as_slice(), b"eight bi".as_slice());
    Ok(())
}
