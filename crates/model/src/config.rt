//! The configuration of a model over a store.

ghost use Rattle.std.specs.Prelude.{◌≡◌, ◌↔◌, Some, None, IsSome, IsOk, IfSome, IfOk, IfErr};
ghost use Rattle.std.specs.Prelude.{IsTrue, false};
ghost use Rattle.frame.specs.Pages.{row_and_column};
ghost use Rattle.model.specs.Fresh.{is_bad_store, refused, IsConfigFor};

use chip::Config;
use clock::{Clock, TemperatureRange};
use fault::Refusal;
use frame::Make;

/// The largest store: 16 MiB.
const LARGEST_STORE: usize = 16 * 1_024 * 1_024;

// The pages of a store of so many bytes. None where it is above 16 MiB, of none, or of no whole
// number of pages.
fn pages(make: Make, bytes: usize) -> Option<u32>
    ensures fit { IsSome result ↔ (is_bad_store make bytes ≡ false) }
    ensures pages { IfSome result (λ n. n ≡ (row_and_column make bytes).0) }
{
    if bytes > LARGEST_STORE {
        return None;
    }
    match make.row_and_column(bytes as u32) {
        (0, _) => None,
        (pages, 0) => Some(pages),
        _ => None,
    }
}

/// The configuration of a make over a store of so many bytes. Refused by 1 where the store is above
/// 16 MiB, of none, or of no whole number of pages, then by 2 and 3 for the clock.
pub(crate) fn config(
    make: Make,
    bytes: usize,
    khz: u32,
    range: TemperatureRange,
) -> Result<Config, Refusal>
    ensures taken { IsOk result ↔ (refused make bytes khz range ≡ None) }
    ensures config { IfOk result (IsConfigFor make bytes khz range) }
    ensures refused { IfErr result (λ e. refused make bytes khz range ≡ Some e) }
{
    let pages = pages(make, bytes).ok_or(Refusal::BadSetup)?;
    let clock = Clock::new(khz, range)?;
    Ok(Config { make, pages, clock })
}
