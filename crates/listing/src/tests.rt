// Listings of whole files, written by hand.
use super::*;
use image::read;
use std::test::Fail;

const SAMPLE: [u8; 30] = [
    0, 0, 0, 1, 0, 0, 0, 3, 0, 0, 0, 20, 0, 0, 0, 1, 0, 0, 0, 26, 0xc7, 0x05, 0x00, 0x08, 0xe0,
    0x01, 1, 0o377, 3, 0,
];

#[test]
fn words_grants_and_count(rt: HostRuntime) -> Result<(), Fail> {
    let Ok(image) = read(&SAMPLE) else {
        return Err(Fail::new("refused"));
    };
    let text = Listing { image }.to_string(rt.alloc())?;
    assert_eq!(rt;
        text.as_str(),
        "format 1\nwords 3 at byte 20\ngrants 1 at byte 26\n00000  143405 c705  XMIT 5,R7\n00001  000010 0008  not permitted\n00002  160001 e001  JMP 1\ngrant right 377 00000011\nimage words 3 grants 1"
    );
    Ok(())
}

#[test]
fn refused_file_is_one_line(rt: HostRuntime) -> Result<(), Fail> {
    match read(&SAMPLE[0..25]) {
        Ok(_) => Err(Fail::new("accepted")),
        Err(fault) => {
            let text = fault.to_string(rt.alloc())?;
            assert_eq!(rt; text.as_str(), "file 4 at 8");
            Ok(())
        }
    }
}
