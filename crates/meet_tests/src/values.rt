//! Values of one attribute that pass its tests, worked by hand.

use crate::fits::{fitted, is_answer};
use css_model::Text;
use std::alloc::Global;
use std::process::Abort;

/// The compound of this text is passed by an element with one attribute, of this value.
fn gives(rt: &impl Abort, alloc: Global, text: &str, value: &str) {
    let found = fitted(rt, alloc, text).expect(rt, "an answer");
    let features = found.expect(rt, "features");
    let wanted = Text::new(value.chars().collect(alloc).expect(rt, "memory"));
    match features.attrs.as_slice() {
        [(_, value)] => assert!(rt; *value == wanted, "at {text}"),
        _ => assert!(rt; false, "at {text}"),
    }
}

#[test]
fn which_value_is_asked_for(rt: HostRuntime) {
    let alloc = rt.alloc();
    for (text, value) in [
        // the value of the first `=`
        ("[a=a]", "a"),
        ("[a='']", ""),
        ("[a=b][a=b][a~=b]", "b"),
        ("[a=' a '][a~=a]", " a "),
        ("[a=b][a~=b]:not([a*=' \t\\a \\c \\d '])", "b"),
        ("[a='a b'][a~=b]", "a b"),
        ("[a='a\tb'][a~=b]", "a\tb"),
        ("[a='a\\a b'][a~=b]", "a\nb"),
        ("[a='a\\c b'][a~=b]", "a\u{c}b"),
        ("[a='a\\d b'][a~=b]", "a\rb"),
        // words
        ("[a]", ""),
        ("[a~=x][a]", "x"),
        ("[a~=b][a~=a][a~=b]", "b a"),
        ("[a~=a]:not([a~=b])", "a"),
        // the value of the first `|=` that passes
        ("[a|=en]:not([a^=en-])", "en"),
        ("[a|=en][a|=en-a]", "en-a"),
        ("[a|=en-a][a|=en]", "en-a"),
        ("[a|=''][a]", ""),
        ("[a|=''][a|='']", ""),
    ] {
        gives(&rt, alloc, text, value);
    }
}

#[test]
fn which_value_is_built(rt: HostRuntime) {
    let alloc = rt.alloc();
    for (text, value) in [
        ("[a^=icon-][a~=b]", "icon-a b a"),
        ("[a^=ab][a$=bc]", "abdbc"),
        ("[a*=b]", "aba"),
        ("[a*=a]", "bab"),
        ("[a*=ab][a*=bc]", "dabdbcd"),
        ("[a$=b]", "ab"),
        ("[a^=b]", "ba"),
        ("[a^=a][a^=ab]", "abc"),
        ("[a^=ab][a^=a]", "abc"),
        ("[a$=a][a$=ba]", "cba"),
        ("[a|=en][a^=en-US]", "en-USa"),
        ("[a|=a][a$=b]", "a-cb"),
        ("[a|='']:not([a=''])", "-a"),
        ("[a~=b][a^=a]", "ac b c"),
        ("[a~=b][a$=a]", "c b ca"),
        ("[a~=a]:not([a=a])", "b a b"),
        ("[a^=ab][a$=ab]:not([a=ab])", "abcab"),
        ("[a^=ab][a$=ba]:not([a=aba])", "abcba"),
        ("[a*=ab]:not([a*=ba])", "cabc"),
        ("[a^=a][a*=b]:not([a*=ab])", "acbc"),
        ("[a^=a][a$=b]:not([a*=ab])", "acb"),
        ("[a]:not([a=a])", "b"),
        ("[a]:not([a^='']):not([a*=''])", "a"),
        ("[a*='\u{e9}']", "a\u{e9}a"),
        ("[a*='\u{1f600}']:not([a*='\u{1f601}'])", "a\u{1f600}a"),
        (
            "[a^=abcdefghijklmnopqrstuvwxyz]",
            "abcdefghijklmnopqrstuvwxyz{",
        ),
        // the white space that is left beside words
        ("[a~=a]:not([a*=' '])", "b\ta\tb"),
        ("[a~=a]:not([a*='\t'])", "b a b"),
        ("[a~=a][a~=b]:not([a*=' ']):not([a*='\t'])", "c\na\nb\nc"),
        ("[a~=a]:not([a*=' \t\\a '])", "b\u{c}a\u{c}b"),
        ("[a~=b]:not([a*=' \t\\a \\c '])", "a\rb\ra"),
        ("[a~=a][a~=b]:not([a*='a b'])", "c\ta\tb\tc"),
    ] {
        gives(&rt, alloc, text, value);
    }
}

#[test]
fn what_passes_one_compound(rt: HostRuntime) {
    let alloc = rt.alloc();
    for (text, wanted) in [
        ("p.k", "0 1 * p class=k\n"),
        // no attribute is asked for
        ("*", "0 1 * x\n"),
        (":not([a])", "0 1 * x\n"),
        (":not([a=a]):not([a~=b])", "0 1 * x\n"),
        (":not([a^='']):not([a*=a])", "0 1 * x\n"),
        // no value passes
        ("[a=a]:not([a*=a])", "nothing"),
        ("[a=a][a=b]", "nothing"),
        ("[a=a][a^=b]", "nothing"),
        ("[a=b][a~=c]", "nothing"),
        ("[a|=en][a=fr]", "nothing"),
        ("[a|=a]:not([a^=a])", "nothing"),
        ("[a|=a-b][a|=b]", "nothing"),
        ("[a~='']", "nothing"),
        ("[a~='a b']", "nothing"),
        ("[a^='']", "nothing"),
        ("[a$='']", "nothing"),
        ("[a*='']", "nothing"),
        ("[a^=a][a^=b]", "nothing"),
        ("[a$=a][a$=b]", "nothing"),
        ("[a~=a]:not([a])", "nothing"),
        ("[a~=a]:not([a~=a])", "nothing"),
        ("[a*=a]:not([a*=a])", "nothing"),
        ("[a^=a]:not([a^=a])", "nothing"),
        ("[a~=a]:not([a*=a])", "nothing"),
        ("[a^=ab]:not([a*=b])", "nothing"),
        ("[a]:not([a])", "nothing"),
        ("[a~='a\tb']", "nothing"),
        ("[a|=a]:not([a|=a])", "nothing"),
        ("[a*='\u{1f600}']:not([a*='\u{1f600}'])", "nothing"),
        // no white space is left
        ("[a~=b]:not([a*=' \t\\a \\c \\d '])", "no space"),
        (
            ":not([a*='\\d ']):not([a*='\\c '])[a~=b]:not([a*='\\a ']):not([a*='\t']):not([a*=' '])",
            "no space",
        ),
        ("[a~='']:not([a*='a \tb\\a \\c \\d '])", "no space"),
        ("[a^=a][a^=b][a~=c]:not([a*=' \t\\a \\c \\d '])", "no space"),
    ] {
        let found = fitted(&rt, alloc, text);
        assert!(rt; is_answer(&rt, alloc, &found, wanted), "at {text}");
    }
}
