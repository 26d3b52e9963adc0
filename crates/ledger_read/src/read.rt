// The image is judged whole before a state is stored: of an image that is refused nothing is stored, so what was held is held on.
ghost use Rattle.std.specs.Prelude.{◌≡◌, length};
ghost use Rattle.ledger_row_image.specs.Images.{image_into};
ghost use Rattle.ledger_image_check.specs.Checks.{view_checked};
ghost use Rattle.ledger_read.specs.ImageReads.{plan_of, ReadInto};

use crate::{ImageRead, Malformed};
use ledger_image_check::Checked;
use ledger_image_check::image::check_image;
use ledger_registry_image::registries::store_registries;
use ledger_row_image::row_image::store_rows;
use registry_state::RegistryState;
use registry_state_credential::CredentialState;

// What is to be stored of the image: nothing where it is refused, and nothing in slices of other lengths than 16 and 256.
fn planned(image: &[u8], registry_slots: usize, row_slots: usize) -> Result<Checked, Malformed>
    ensures { view_checked result ≡ plan_of registry_slots row_slots image.now }
{
    if (registry_slots == 16) & (row_slots == 256) {
        return check_image(image);
    }
    Err(Malformed)
}

// The states of an image are stored from the first places on; the others stay. An image that is refused, and one that is read into slices of other lengths than 16 and 256, changes nothing.
pub fn read_image(
    image: &[u8],
    registries: &mut [RegistryState],
    rows: &mut [CredentialState],
) -> Result<ImageRead, Malformed>
    ensures { ReadInto image.now registries.old registries.new rows.old rows.new result }
{
    let plan = planned(image, registries.len(), rows.len())?;
    store_registries(image, plan.registries, registries);
    store_rows(image, plan.rows_at, plan.rows, rows);
    Ok(ImageRead {
        registry_count: plan.registries,
        row_count: plan.rows,
    })
}
