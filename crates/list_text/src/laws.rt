//! What holds of the lines, as functions that do nothing.

ghost use Rattle.list_text.specs.Laws.{EachInnerItemIsListed, EachItemIsListed};

/// Each item of the sheet has a line with its number: one more than how many items come before it, as the report, `why`
/// and `dead` number it. Each item of an opened body has one with the number of the block, a dot and its number in
/// the body.
pub fn each_item_is_listed()
    ensures outer { EachItemIsListed }
    ensures inner { EachInnerItemIsListed }
{}
