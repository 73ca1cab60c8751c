//! Pages are brought to version 2, in memory.
ghost use Rattle.std.specs.Prelude.{◌≡◌, ◌<◌, ◌+◌};
ghost use Rattle.block_disk.specs.Blocks.{IsBlock};
ghost use Rattle.store_upgrade.specs.OldStores.{HasOldRecord, KeepsOldRules};
ghost use Rattle.store_upgrade.specs.Upgraded.{renewed, with_level, upgraded_page};

use crate::layout::{KIND, LEVELS, MAGIC, MOST_RECORDS, RECORD, RECORDS};
use crate::old_pages::{record_of, slots_of};
use om3_coeff::page_levels;

/// Gives page 0 the magic of version 2.
pub(crate) fn renew_first(page: &mut [u8])
    requires { IsBlock page.old }
    ensures whole { IsBlock page.new }
    ensures page { page.new ≡ renewed page.old }
{
    page[..MAGIC.len()].copy_from_slice(&MAGIC);
}

/// Sets the levels of a record, where it is in use.
fn set_levels(page: &mut [u8], number: u8)
    requires whole { IsBlock page.old }
    requires number { number < 32 }
    requires rules { HasOldRecord page.old number }
    ensures whole { IsBlock page.new }
    ensures page { page.new ≡ with_level page.old number }
{
    let bytes = record_of(page, number);
    if bytes[0] == 0 {
        return;
    }
    let levels = page_levels(slots_of(bytes));
    page[RECORDS + RECORD * usize::from(number) + LEVELS] = levels;
}

/// Brings a page of the catalog to version 2.
pub(crate) fn renew_page(page: &mut [u8])
    requires whole { IsBlock page.old }
    requires rules { KeepsOldRules page.old }
    ensures whole { IsBlock page.new }
    ensures page { page.new ≡ upgraded_page page.old }
{
    for number in 0..MOST_RECORDS {
        set_levels(page, number);
    }
    page[0] = KIND;
}
