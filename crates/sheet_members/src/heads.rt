//! The heads of opened blocks.

ghost use Rattle.std.specs.Prelude.{◌≡◌, IfOk, map};
ghost use Rattle.css_model.specs.Sheets.Spelling.{kept_text};
ghost use Rattle.sheet_members.specs.Layers as spec;

use css_model::Bytes;
use media_groups::{Media, Reading, put_piece};
use normal_text::normal_head;
use std::alloc::{AllocError, Global};
use std::marker::Model;

/// The head of an opened block.
#[derive(Drop)]
pub struct BlockHead {
    /// Its kept text.
    pub shell: Bytes,
    /// Its normal text.
    pub head: Bytes,
}

impl Model for BlockHead {
    ghost use Rattle.sheet_members.specs.Layers.{HeadTexts};

    ghost Value = { HeadTexts };

    ghost view = { λ h. record { shell = h.shell; head = h.head } };
}

/// The head of an opened block of this source.
fn head_of(alloc: Global, reading: &Reading<'_>, block: &Media) -> Result<BlockHead, AllocError>
    ensures { IfOk result (λ head. head ≡ spec.head_texts reading.now.source.now block.now) }
{
    let mut shell = Vec::new(alloc);
    put_piece(&mut shell, reading, block.head)?;
    let head = normal_head(alloc, &shell)?;
    Ok(BlockHead {
        shell: Bytes::new(shell),
        head,
    })
}

/// The heads of opened blocks of this source. `AllocError` where memory is short.
pub fn heads_of(
    alloc: Global,
    reading: &Reading<'_>,
    media: &[Media],
) -> Result<Vec<BlockHead>, AllocError>
    ensures { IfOk result (λ heads. heads.items ≡ map (spec.head_texts reading.now.source.now) media.now) }
{
    let mut heads = Vec::new(alloc);
    for block in media {
        heads.push(head_of(alloc, reading, block)?)?;
    }
    Ok(heads)
}
