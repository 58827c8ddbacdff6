//! What an element of a line has.

ghost use Rattle.std.specs.Prelude.{◌≡◌, ◌++◌, ◌<◌, ◌^◌, ◌∷◌, [], map, IfOk, OnOk, codes};
ghost use Rattle.css_model.specs.Documents.Features.{flags_of};
ghost use Rattle.css_model.specs.Lists.{same_text};
ghost use Rattle.css_model.specs.Text.Characters.{space};
ghost use Rattle.doc_text.specs.DocText.{
  attribute_field,
  flag_field,
  flag_fields,
  more_fields,
  one_flag,
  spaced,
  text_fields,
};
ghost use Rattle.doc_text.specs.Elements.{
  attribute_of,
  attributes_of,
  flag_bit,
  flags_with,
  has_text,
};
ghost use Rattle.doc_text.specs.Lines.{fields_of};

use crate::cuts::{cut, next_field};
use crate::escapes::{push_escaped, unescaped_text};
use css_model::{Features, Flag, Text};
use std::alloc::{AllocError, Global};

/// Appends what an element has beside its type, each with a space before it.
pub(crate) fn push_more(
    out: &mut Vec<u8>,
    alloc: Global,
    element: &Features,
) -> Result<(), AllocError>
    ensures { OnOk result (out.new.items ≡ out.old.items ++ spaced (more_fields element.now)) }
{
    push_text(out, element.text)?;
    push_flags(out, element.flags)?;
    push_attributes(out, alloc, element.attrs.as_slice())
}

/// Appends whether there is text.
fn push_text(out: &mut Vec<u8>, text: bool) -> Result<(), AllocError>
    ensures { OnOk result (out.new.items ≡ out.old.items ++ spaced (text_fields text)) }
{
    if text {
        out.extend_from_slice(b" +text")?;
    }
    Ok(())
}

/// Appends flags.
fn push_flags(out: &mut Vec<u8>, bits: u16) -> Result<(), AllocError>
    ensures { OnOk result (out.new.items ≡ out.old.items ++ spaced (flag_fields bits)) }
{
    push_flag(out, bits, Flag::Link)?;
    push_flag(out, bits, Flag::Visited)?;
    push_flag(out, bits, Flag::Hover)?;
    push_flag(out, bits, Flag::Active)?;
    push_flag(out, bits, Flag::Focus)?;
    push_flag(out, bits, Flag::Target)?;
    push_flag(out, bits, Flag::Enabled)?;
    push_flag(out, bits, Flag::Disabled)?;
    push_flag(out, bits, Flag::Checked)
}

/// Appends the field of a flag, if it is set.
fn push_flag(out: &mut Vec<u8>, bits: u16, flag: Flag) -> Result<(), AllocError>
    ensures { OnOk result (out.new.items ≡ out.old.items ++ one_flag bits flag) }
{
    if has_flag(bits, flag) {
        out.push(b' ')?;
        out.extend_from_slice(flag_field(flag))?;
    }
    Ok(())
}

/// Whether a flag is set.
fn has_flag(bits: u16, flag: Flag) -> bool
    ensures { result ≡ flags_of bits flag }
{
    let place = match flag {
        Flag::Link => bits,
        Flag::Visited => bits / 2,
        Flag::Hover => bits / 4,
        Flag::Active => bits / 8,
        Flag::Focus => bits / 16,
        Flag::Target => bits / 32,
        Flag::Enabled => bits / 64,
        Flag::Disabled => bits / 128,
        Flag::Checked => bits / 256,
    };
    place % 2 == 1
}

/// The field of a flag.
fn flag_field(flag: Flag) -> &'static [u8]
    ensures { result.now ≡ flag_field flag }
{
    match flag {
        Flag::Link => b":link",
        Flag::Visited => b":visited",
        Flag::Hover => b":hover",
        Flag::Active => b":active",
        Flag::Focus => b":focus",
        Flag::Target => b":target",
        Flag::Enabled => b":enabled",
        Flag::Disabled => b":disabled",
        Flag::Checked => b":checked",
    }
}

/// Appends attributes.
fn push_attributes(
    out: &mut Vec<u8>,
    alloc: Global,
    attributes: &[(Text, Text)],
) -> Result<(), AllocError>
    ensures { OnOk result (out.new.items ≡ out.old.items ++ spaced (map attribute_field attributes.now)) }
{
    for (name, value) in attributes {
        push_attribute(out, alloc, name, value)?;
    }
    Ok(())
}

/// Appends an attribute.
fn push_attribute(
    out: &mut Vec<u8>,
    alloc: Global,
    name: &Text,
    value: &Text,
) -> Result<(), AllocError>
    ensures { OnOk result (out.new.items ≡ out.old.items ++ space ∷ attribute_field (name.now, value.now)) }
{
    out.push(b' ')?;
    push_escaped(out, alloc, name)?;
    out.push(b'=')?;
    push_escaped(out, alloc, value)
}

/// An element of this type, with what the fields after the type say, whether or not they are as they should be.
pub(crate) fn element(alloc: Global, kind: Text, fields: &[u8]) -> Result<Features, AllocError>
    ensures { IfOk result (λ element. element ≡ record {
      kind = kind;
      attrs = attributes_of (fields_of fields.now);
      flags = flags_with 0 (fields_of fields.now);
      text = has_text (fields_of fields.now);
    }) }
{
    let mut attrs = Vec::new(alloc);
    let mut flags = 0;
    let mut text = false;
    let mut rest = fields;
    'fields: while !rest.is_empty() {
        let (field, more) = next_field(rest);
        text = text || is_text(field);
        flags |= flag_bit(field);
        push_read(&mut attrs, alloc, field)?;
        rest = more;
    }
    Ok(Features {
        kind,
        attrs,
        flags,
        text,
    })
}

/// Whether a field says that there is text.
fn is_text(field: &[u8]) -> bool
    ensures { result ≡ same_text field.now (codes "+text") }
{
    field == b"+text".as_slice()
}

/// The bit of a flag's field, and 0 of any other.
fn flag_bit(field: &[u8]) -> u16
    ensures { result ≡ flag_bit field.now }
{
    if field == b":link".as_slice() {
        1
    } else if field == b":visited".as_slice() {
        2
    } else if field == b":hover".as_slice() {
        4
    } else if field == b":active".as_slice() {
        8
    } else if field == b":focus".as_slice() {
        16
    } else if field == b":target".as_slice() {
        32
    } else if field == b":enabled".as_slice() {
        64
    } else if field == b":disabled".as_slice() {
        128
    } else if field == b":checked".as_slice() {
        256
    } else {
        0
    }
}

/// Appends the attribute of a field, if it is one.
fn push_read(
    attributes: &mut Vec<(Text, Text)>,
    alloc: Global,
    field: &[u8],
) -> Result<(), AllocError>
    ensures { OnOk result (attributes.new.items ≡ attributes.old.items ++ attribute_of field.now) }
{
    match cut(field, b'=') {
        Some((name, value)) => {
            let name = unescaped_text(alloc, name)?;
            let value = unescaped_text(alloc, value)?;
            attributes.push((name, value))?;
            Ok(())
        }
        None => Ok(()),
    }
}
