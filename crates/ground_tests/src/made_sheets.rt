//! Sheets that are made, by the draws of the example `rand` of the C standard.

use std::test::Fail;
use trial_gen::make_sheet;

#[test]
fn makes_the_known_sheets(rt: HostRuntime) -> Result<(), Fail> {
    for (n, want) in [
        (0, ""),
        (1, ".c38{margin:4px}"),
        (
            3,
            ".c38{margin:4px}.c33>.d{margin-left:3px}.c11{margin-left:1px}",
        ),
    ] {
        assert!(rt; n <= 2000);
        let sheet = make_sheet(rt.alloc(), n)?;
        assert_eq!(rt; sheet.as_slice(), want.as_bytes(), "at {n}");
    }
    Ok(())
}
