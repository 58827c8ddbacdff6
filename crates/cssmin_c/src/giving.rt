//! Texts that are put into the buffers of a caller.

ghost use Rattle.std.specs.Prelude.{◌≡◌, ◌≢◌, ◌<◌, ◌≤◌, ◌⊎◌, length};
ghost use Rattle.cssmin_c.specs.Calls.{IsPut, with_length, with_lengths};

use crate::statuses::{DONE, NO_ROOM};
use crate::told::Told;

/// Puts a text at the front of a buffer that has room for it.
fn put(text: &[u8], out: &mut [u8])
    requires { length text.now ≤ length out.old }
    ensures { IsPut text.now out.old out.new }
{
    out[..text.len()].copy_from_slice(text);
}

/// Puts a text into a buffer if it has room for it, and tells its length in any case.
pub(crate) fn give(text: &[u8], out: &mut [u8], told: &mut Told) -> u32
    ensures status { (result ≡ DONE) ⊎ (result ≡ NO_ROOM) }
    ensures done { result ≡ DONE → IsPut text.now out.old out.new }
    ensures no_room { result ≡ NO_ROOM → length out.old < length text.now }
    ensures untouched { result ≢ DONE → out.new ≡ out.old }
    ensures told { told.new ≡ with_length told.old text.now }
{
    told.length = text.len();
    if text.len() > out.len() {
        return NO_ROOM;
    }
    put(text, out);
    DONE
}

/// Puts a text and its report into two buffers if both have room, and tells the lengths in any case.
pub(crate) fn give_both(
    text: &[u8],
    out: &mut [u8],
    lines: &[u8],
    report: &mut [u8],
    told: &mut Told,
) -> u32
    ensures status { (result ≡ DONE) ⊎ (result ≡ NO_ROOM) }
    ensures done { result ≡ DONE → IsPut text.now out.old out.new }
    ensures report_done { result ≡ DONE → IsPut lines.now report.old report.new }
    ensures no_room { result ≡ NO_ROOM → (length out.old < length text.now) ⊎ (length report.old < length lines.now) }
    ensures untouched { result ≢ DONE → out.new ≡ out.old }
    ensures report_untouched { result ≢ DONE → report.new ≡ report.old }
    ensures told { told.new ≡ with_lengths told.old text.now lines.now }
{
    told.length = text.len();
    told.report_length = lines.len();
    if text.len() > out.len() || lines.len() > report.len() {
        return NO_ROOM;
    }
    put(text, out);
    put(lines, report);
    DONE
}
