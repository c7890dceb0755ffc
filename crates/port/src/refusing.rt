//! What refuses a request, before anything is sent.
ghost use Rattle.std.specs.Prelude.{◌≡◌, ◌≤◌, ◌+◌, length, not, nat_lt, false};
ghost use Rattle.chip.specs.Meaning.{refreshed, size};
ghost use Rattle.port.specs.Requests.{refusal, requested};
ghost use Rattle.port.specs.Tests.{each_from, is_line, bad_length, bad_fill, bad_mask, longest};

use crate::request::Request;
use chip::Chip;
use fault::Refusal;
use register::{Mr4, readable};

/// The most bytes of a read or a write.
pub const LONGEST: usize = 4_096;

fn bad_length(count: usize) -> bool
    ensures { result ≡ bad_length count }
{
    count == 0 || count > LONGEST
}

fn bad_fill(start: u32, count: usize) -> bool
    ensures { result ≡ bad_fill start count }
{
    !matches!(count, 16 | 32 | 64) || start % 2 == 1
}

fn bad_mask(mask: &[u8], count: usize) -> bool
    ensures { result ≡ bad_mask mask.now count }
{
    mask.len() != mask::size(count) || mask::masks_past(mask, count)
}

// Whether one of so many bytes is not refreshed by the coverage that MR4 holds.
fn not_refreshed<C: Chip>(chip: &C, start: u32, count: usize) -> bool
    requires { count ≤ longest }
    ensures { result ≡ not (each_from (refreshed (C.Chip.meaning chip.now)) start count) }
{
    let coverage = Mr4::from(chip.state().mr4).coverage;
    !chip.refreshed(coverage, start, count as u32)
}

// Whether a range of so many bytes ends past the size.
fn past_size<C: Chip>(chip: &C, start: u32, count: usize) -> bool
    requires { count ≤ longest }
    ensures { result ≡ nat_lt (size (C.Chip.meaning chip.now).config) (start + count) }
{
    start as usize + count > chip.config().size() as usize
}

// The first of 7 to 12 that refuses a request.
#[tactic(auto, unfolding(chip::specs::Refused::first_refusal))]
fn refusal_of<C: Chip>(chip: &C, request: Request<'_>, room: usize) -> Option<Refusal>
    ensures { result ≡ refusal (C.Chip.meaning chip.now) false (requested request.entry room) }
{
    let refusal = match request {
        Request::Read { start } => {
            if bad_length(room) {
                Refusal::BadLength
            } else if past_size(chip, start, room) {
                Refusal::PastSize
            } else if not_refreshed(chip, start, room) {
                Refusal::NotRefreshed
            } else {
                return None;
            }
        }
        Request::Write { start, data, mask } => {
            if bad_length(data.len()) {
                Refusal::BadLength
            } else if past_size(chip, start, data.len()) {
                Refusal::PastSize
            } else if bad_mask(mask, data.len()) {
                Refusal::BadMask
            } else if not_refreshed(chip, start, data.len()) {
                Refusal::NotRefreshed
            } else {
                return None;
            }
        }
        Request::Fill { start } => {
            if bad_fill(start, room) {
                Refusal::BadFill
            } else if start >= chip.config().size() {
                Refusal::PastSize
            } else if not_refreshed(chip, start - start % room as u32, room) {
                Refusal::NotRefreshed
            } else {
                return None;
            }
        }
        Request::LatencyType(code) if code > 1 => Refusal::BadSetting,
        Request::Coverage(code) if code > 7 => Refusal::BadSetting,
        Request::Register(number) if !readable(number) => Refusal::BadSetting,
        Request::LatencyType(_) | Request::Coverage(_) | Request::Register(_) | Request::Reset => {
            return None;
        }
    };
    Some(refusal)
}

// The first of 6 to 12 that refuses a request.
#[tactic(auto, unfolding(chip::specs::Refused::first_refusal))]
pub(crate) fn refusal<C: Chip>(
    chip: &C,
    lost: bool,
    request: Request<'_>,
    room: usize,
) -> Option<Refusal>
    ensures { result ≡ refusal (C.Chip.meaning chip.now) lost (requested request.entry room) }
{
    if lost && !matches!(request, Request::Reset) {
        return Some(Refusal::StrobeStillLost);
    }
    refusal_of(chip, request, room)
}
