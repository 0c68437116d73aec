//! The lines of refused files.

use crate::refused::RefusalLine;
use crate::report::report_on;
use image::refusal::Refusal;
use keys::expiry::Expiry;
use std::test::Fail;

#[test]
fn a_refusal_has_its_number_and_place(rt: HostRuntime) -> Result<(), Fail> {
    let line = RefusalLine {
        name: "a.image",
        bytes: 44,
        width: 12,
        refusal: Refusal::Order { place: 1 },
    };
    assert_eq!(rt;
        line.to_string(rt.alloc())?.as_str(),
        "a.image: bytes 44, refused with 10: the key at place 1 does not stand after the key before it\n"
    );
    Ok(())
}

#[test]
fn a_short_file_is_refused(rt: HostRuntime) -> Result<(), Fail> {
    let report = report_on::<Expiry>(rt.alloc(), "a.image", &[0, 12, 0])?;
    let line = report.err().ok_or("an image")?;
    assert_eq!(rt;
        line.as_str(),
        "a.image: bytes 3, refused with 7: the file is cut short or goes on past its end: after 4 bytes of sizes it must have a key of 12 bytes and a value of 8 bytes for each entry that they count\n"
    );
    Ok(())
}
