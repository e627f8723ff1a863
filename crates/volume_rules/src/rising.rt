ghost use Rattle.volume_rules.specs.Rising.{RisingGoesOn};

/// A row behind all others, at an address above all of its data set, keeps the addresses rising.
pub fn rising_goes_on()
    ensures { RisingGoesOn }
{}
