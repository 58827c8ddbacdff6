//! Which blocks of media are opened, and how a sheet with opened blocks is printed.

ghost use Rattle.std.specs.Prelude.{◌≡◌, map, IfOk};
ghost use Rattle.media_groups.specs.declared.media.Media.{Media as SpecMedia};

use crate::reading::sheet;
use css_model::Sheet;
use media_groups::{Media, open_media, opened_blocks_are_sheets, print_opened, reading_of};
use std::alloc::{AllocError, Global};
use std::process::Abort;
use std::test::Fail;

/// Each source with its opened blocks: the number of the item, and where its head and its body begin and end.
#[test]
fn opens_blocks(rt: HostRuntime) -> Result<(), Fail> {
    for (source, blocks) in [
        (&b""[..], &[][..]),
        (
            b"@media print { a{top:0} b{top:0} }",
            &[(0, 0, 12, 14, 33)][..],
        ),
        (b"@media print{@import \"x\";a{top:0}b{top:0}}", &[]),
        (b"@media print{@charset \"x\";a{top:0}}", &[]),
        (b"@media print{@namespace x;a{top:0}}", &[]),
        (
            b"@media print{@media all{@import \"x\";}}",
            &[(0, 0, 12, 13, 37)],
        ),
        (b"@MEDIA print{}", &[(0, 0, 12, 13, 13)]),
        (b"@\\6d edia print{}", &[(0, 0, 15, 16, 16)]),
        (b"@media print;a{top:0}", &[]),
        (b"@supports (a:b){}", &[]),
        (
            b"a{top:0}@media(a){b{}}p{left:0}@media(b){}",
            &[(1, 8, 17, 18, 21), (3, 31, 40, 41, 41)],
        ),
        (
            b"@media x{}@import \"x\";@media y{}",
            &[(2, 22, 30, 31, 31)],
        ),
        (b"a{}@media x{}", &[(0, 3, 11, 12, 12)]),
        (b"@media ({}) x{a{}}", &[(0, 0, 13, 14, 17)]),
        (b"@media{a{top:0}}", &[(0, 0, 6, 7, 15)]),
        (b"@media x{<!-- a{top:0}}", &[]),
        (b"@media x{a --> b{top:0}}", &[]),
        (b"@media x{a{top:<!--}}", &[(0, 0, 8, 9, 20)]),
        (b"@media x{\xEF\xBB\xBFa{top:0}}", &[]),
        (b"@media x{ \xEF\xBB\xBFa{top:0}}", &[(0, 0, 8, 9, 21)]),
        (b"\xEF\xBB\xBF@media x /**/ {a{}}", &[(0, 3, 11, 18, 21)]),
    ] {
        let sheet = sheet(&rt, rt.alloc(), source);
        let media = open_media(rt.alloc(), &sheet, source)?;
        assert_eq!(rt; media.len(), blocks.len(), "of {source:?}");
        for (block, want) in media.iter().zip(blocks) {
            let Media {
                item,
                head,
                body,
                ..
            } = block;
            let found = (*item, head.start, head.end, body.start, body.end);
            assert_eq!(rt; found, *want, "of {source:?}");
        }
    }
    Ok(())
}

fn bodies(alloc: Global, media: Vec<Media>) -> Result<Vec<Sheet>, AllocError>
    ensures { IfOk result (λ bodies. bodies.items ≡ map (λ (m : SpecMedia). m.sheet) media.items) }
{
    media.into_iter().map(|block| block.sheet).collect(alloc)
}

/// The text of a sheet whose blocks of media are opened, each with its own body.
fn reprinted(rt: &impl Abort, alloc: Global, source: &[u8]) -> Result<Vec<u8>, AllocError> {
    opened_blocks_are_sheets();
    let sheet = sheet(rt, alloc, source);
    let media = open_media(alloc, &sheet, source)?;
    let bodies = bodies(alloc, open_media(alloc, &sheet, source)?)?;
    let reading = reading_of(alloc, &sheet, source)?;
    print_opened(alloc, &sheet, &reading, media.as_slice(), bodies.as_slice())
}

#[test]
fn prints_opened_blocks(rt: HostRuntime) -> Result<(), Fail> {
    for (source, want) in [
        (
            &b"@media print { a{top:0} b{top:0} }"[..],
            &b"@media print{a{top:0}b{top:0}}"[..],
        ),
        (
            b"@media print{.a{top:0}.b{top:1px}.a{top:2px}}",
            b"@media print{.a{top:0}.b{top:1px}.a{top:2px}}",
        ),
        (
            b"@media print{@import \"x\";a{top:0} b{top:0}}",
            b"@media print{@import \"x\";a{top:0} b{top:0}}",
        ),
        (
            b" p { left : 0 } @media  ( a ) { q , r { top:0 ; } } s{}@media x{}t {left:0}",
            b"p{left:0}@media ( a ){q,r{top:0}}@media x{}t{left:0}",
        ),
        (b"@media x \\\n{a{top:0}}", b"@media x \\\n{a{top:0}}"),
        (
            b"@media x{ \xEF\xBB\xBFa{top:0}}",
            b"@media x{ \xEF\xBB\xBFa{top:0}}",
        ),
        (
            b"@media x{@media  y { a { } } }",
            b"@media x{@media y { a { } }}",
        ),
        (b"@media x/**/{a{}}", b"@media x{}"),
    ] {
        let text = reprinted(&rt, rt.alloc(), source)?;
        assert_eq!(rt; text.as_slice(), want, "of {source:?}");
    }
    Ok(())
}
