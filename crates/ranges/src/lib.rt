// The ranges of the numbers that are neither a kind nor a flag: dwells, masks, waits, alerts (Records).
#![tactic(auto)]

ghost use Rattle.std.specs.Prelude.{◌≡◌};
ghost use Rattle.ranges.specs.Ranges.{dwell_in_range, mask_in_range, wait_in_range, alert_in_range};

pub const DWELL_LEAST: u32 = 1;

pub const DWELL_MOST: u32 = 86_400;

pub const WAIT_SHORT: u32 = 1;

pub const WAIT_LONG: u32 = 5;

pub const ALERT_SHED: u16 = 0x346;

// Whether a target of opportunity may last this many seconds.
pub fn dwell_in_range(seconds: u32) -> bool
    ensures { result ≡ dwell_in_range seconds }
{
    (DWELL_LEAST <= seconds) & (seconds <= DWELL_MOST)
}

// Whether a mask names anything.
pub fn mask_in_range(mask: u32) -> bool
    ensures { result ≡ mask_in_range mask }
{
    mask != 0
}

pub fn wait_in_range(seconds: u32) -> bool
    ensures { result ≡ wait_in_range seconds }
{
    (seconds == WAIT_SHORT) | (seconds == WAIT_LONG)
}

pub fn alert_in_range(number: u16) -> bool
    ensures { result ≡ alert_in_range number }
{
    number == ALERT_SHED
}
