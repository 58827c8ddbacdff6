//! The families of properties, and which pairs of names are related. The table is this project's own choice: this is
//! what it says of the CSS of today.

use crate::reading::text;
use css_model::Family;
use related_props::{family, related};
use std::test::Fail;

#[test]
fn names_have_their_families(rt: HostRuntime) -> Result<(), Fail> {
    let alloc = rt.alloc();
    for (name, want) in [
        ("-webkit-border-radius", "border"),
        ("line-height", "font"),
        ("left", "inset"),
        ("alignment-baseline", "vertical"),
        ("_all", "all"),
        ("-x-all", "all"),
        ("__-o-_top", "_top"),
        ("-a-b-c", "b"),
        ("_--x", ""),
        ("-moz", ""),
        ("LINE-height", "LINE"),
        ("", ""),
    ] {
        let found = family(alloc, &text(alloc, name)?)?;
        assert!(rt; found == Family::Named(text(alloc, want)?), "at {name}");
    }
    for name in ["--X", "--", "---moz-x"] {
        let found = family(alloc, &text(alloc, name)?)?;
        assert!(rt; found == Family::Custom(text(alloc, name)?), "at {name}");
    }
    assert!(rt; family(alloc, &text(alloc, "all")?)? == Family::All);
    Ok(())
}

/// Shorthands beside properties that they set, also through the directions of a text, and some
/// longhands of one such property.
const SHORTHANDS: [(&str, &str); 90] = [
    ("font", "line-height"),
    ("font", "font-family"),
    ("font", "font-size-adjust"),
    ("font", "font-kerning"),
    ("font", "font-feature-settings"),
    ("font", "font-width"),
    ("font-variant", "font-variant-caps"),
    ("font-synthesis", "font-synthesis-weight"),
    ("border", "border-top-color"),
    ("border", "border-inline-start"),
    ("border", "border-image"),
    ("border-image", "border-image-source"),
    ("border-radius", "border-start-start-radius"),
    ("flex", "flex-basis"),
    ("flex-flow", "flex-direction"),
    ("mask", "mask-image"),
    ("mask", "mask-border"),
    ("mask", "-webkit-mask-box-image"),
    ("inset", "left"),
    ("inset-inline", "right"),
    ("inset-block", "top"),
    ("all", "color"),
    ("all", "--x"),
    ("all", "direction"),
    ("gap", "row-gap"),
    ("gap", "column-gap"),
    ("grid", "grid-template-areas"),
    ("grid", "grid-auto-flow"),
    ("grid-area", "grid-row-start"),
    ("columns", "column-count"),
    ("columns", "column-width"),
    ("column-rule", "column-rule-color"),
    ("rule", "column-rule"),
    ("rule", "row-rule-color"),
    ("text-decoration", "text-decoration-thickness"),
    ("text-decoration-skip", "text-decoration-skip-ink"),
    ("text-emphasis", "text-emphasis-color"),
    ("text-wrap", "text-wrap-style"),
    ("white-space", "text-wrap"),
    ("white-space", "text-wrap-mode"),
    ("white-space", "white-space-collapse"),
    ("text-spacing", "text-autospace"),
    ("text-box", "text-box-edge"),
    ("text-align", "text-align-last"),
    ("-webkit-text-stroke", "-webkit-text-stroke-width"),
    ("margin", "margin-left"),
    ("margin-inline", "margin-left"),
    ("margin-block", "margin-bottom"),
    ("margin-inline-start", "margin-right"),
    ("padding-inline", "padding-left"),
    ("padding", "padding-block-end"),
    ("inline-size", "width"),
    ("block-size", "height"),
    ("min-inline-size", "min-width"),
    ("max-block-size", "max-height"),
    ("overflow", "overflow-x"),
    ("overflow-block", "overflow-y"),
    ("overscroll-behavior", "overscroll-behavior-x"),
    ("overscroll-behavior-inline", "overscroll-behavior-x"),
    ("contain-intrinsic-size", "contain-intrinsic-width"),
    ("contain-intrinsic-block-size", "contain-intrinsic-height"),
    ("place-content", "align-content"),
    ("place-items", "justify-items"),
    ("place-self", "align-self"),
    ("offset", "offset-path"),
    ("vertical-align", "alignment-baseline"),
    ("vertical-align", "baseline-shift"),
    ("vertical-align", "baseline-source"),
    ("background", "background-color"),
    ("background-position", "background-position-x"),
    ("animation", "animation-name"),
    ("animation", "animation-timeline"),
    ("animation-range", "animation-range-start"),
    ("transition", "transition-behavior"),
    ("list-style", "list-style-type"),
    ("outline", "outline-color"),
    ("scroll-margin-inline", "scroll-margin-left"),
    ("scroll-padding", "scroll-padding-top"),
    ("scroll-timeline", "scroll-timeline-name"),
    ("view-timeline", "view-timeline-inset"),
    ("container", "container-type"),
    ("position-try", "position-try-order"),
    ("caret", "caret-color"),
    ("marker", "marker-start"),
    ("corner-shape", "corner-top-left-shape"),
    ("cue", "cue-before"),
    ("pause", "pause-after"),
    ("rest", "rest-before"),
    ("timeline-trigger", "timeline-trigger-name"),
    ("interest-delay", "interest-delay-start"),
];

/// Older names beside newer ones.
const ALIASES: [(&str, &str); 41] = [
    ("grid-gap", "gap"),
    ("grid-row-gap", "row-gap"),
    ("grid-column-gap", "column-gap"),
    ("page-break-after", "break-after"),
    ("page-break-inside", "break-inside"),
    ("-webkit-column-break-before", "break-before"),
    ("-webkit-column-count", "columns"),
    ("word-wrap", "overflow-wrap"),
    ("-ms-word-break", "word-break"),
    ("color-adjust", "print-color-adjust"),
    ("-webkit-print-color-adjust", "print-color-adjust"),
    ("motion", "offset"),
    ("motion-rotation", "offset-rotate"),
    ("offset-rotation", "offset-rotate"),
    ("glyph-orientation-vertical", "text-orientation"),
    ("white-space-collapse", "text-space-collapse"),
    ("font-stretch", "font-width"),
    ("scroll-snap-margin", "scroll-margin"),
    ("position-try-options", "position-try-fallbacks"),
    ("-webkit-logical-width", "inline-size"),
    ("-webkit-min-logical-height", "min-block-size"),
    ("-webkit-margin-start", "margin-inline-start"),
    ("-webkit-padding-end", "padding-inline-end"),
    ("-moz-margin-start", "margin-left"),
    ("-webkit-border-before", "border-block-start"),
    ("-webkit-border-horizontal-spacing", "border-spacing"),
    ("-moz-border-radius-topleft", "border-top-left-radius"),
    ("-webkit-perspective-origin-x", "perspective-origin"),
    ("-webkit-transform-origin-x", "transform-origin"),
    ("-webkit-mask-composite", "mask-composite"),
    ("-webkit-line-clamp", "line-clamp"),
    ("-webkit-text-combine", "text-combine-upright"),
    ("-webkit-font-feature-settings", "font-feature-settings"),
    ("-webkit-align-items", "align-items"),
    ("-webkit-order", "order"),
    ("-epub-word-break", "word-break"),
    ("-epub-text-emphasis", "text-emphasis"),
    ("-ms-grid-columns", "grid-template-columns"),
    ("-ms-flex", "flex"),
    ("-ms-overflow-x", "overflow"),
    ("_height", "height"),
];

/// Properties that set nothing in common, though their names may suggest it.
const INDEPENDENT: [(&str, &str); 20] = [
    ("flex", "order"),
    ("margin-left", "padding-left"),
    ("border-color", "outline-color"),
    ("transform", "rotate"),
    ("transform", "scale"),
    ("position", "top"),
    ("--x", "--y"),
    ("--x", "x"),
    ("min-width", "width"),
    ("column-width", "width"),
    ("background-color", "color"),
    ("text-indent", "line-height"),
    ("float", "clear"),
    ("display", "visibility"),
    ("z-index", "top"),
    ("list-style", "counter-reset"),
    ("-webkit-box-align", "align-items"),
    ("-webkit-box-flex", "flex"),
    ("-ms-flex-pack", "justify-content"),
    ("-moz-outline-radius", "border-radius"),
];

/// Names of drafts, trials and releases of the past that do set properties of another family. The
/// claim does not cover sheets that hold such a pair.
const ACROSS: [(&str, &str); 9] = [
    ("line-clamp", "max-lines"),
    ("line-clamp", "block-ellipsis"),
    ("line-clamp", "continue"),
    ("corners", "border-radius"),
    ("corner-top-left", "border-top-left-radius"),
    ("item-flow", "flex-flow"),
    ("item-flow", "grid-auto-flow"),
    ("inset-area", "position-area"),
    ("leading-trim", "text-box-trim"),
];

#[test]
fn pairs_are_related_or_apart(rt: HostRuntime) -> Result<(), Fail> {
    for (pairs, want) in [
        (&SHORTHANDS[..], true),
        (&ALIASES, true),
        (&INDEPENDENT, false),
        (&ACROSS, false),
    ] {
        for (x, y) in pairs {
            let found = related(&text(rt.alloc(), x)?, &text(rt.alloc(), y)?);
            assert_eq!(rt; found, want, "at {x}, {y}");
        }
    }
    Ok(())
}
