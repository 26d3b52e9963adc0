// The check of an image. It stores nothing: what it answers is enough to read the states of an image that passes where they stand.
ghost use Rattle.std.specs.Prelude.{◌≡◌};
ghost use Rattle.ledger_image_check.specs.Checks.{view_checked, checked_of};

use crate::registries::check_registries;
use crate::{Checked, Malformed};
use ledger_image::image::read_count;
use ledger_image_rows_check::rows::check_rows;

pub fn check_image(image: &[u8]) -> Result<Checked, Malformed>
    ensures { view_checked result ≡ checked_of image.now }
{
    let registries = check_registries(image)?;
    let section = read_count(registries.next, image, 256);
    let rows_at = section.next.at;
    let rows = section.value;
    if section.next.ok && check_rows(image, rows_at, rows, &registries.ids) {
        return Ok(Checked {
            registries: registries.ids.size(),
            rows_at,
            rows,
        });
    }
    Err(Malformed)
}
