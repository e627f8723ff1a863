ghost use Rattle.volume_rules.specs.EventLaws.{DeletionsAreLawful, InsertionsAreLawful, ReorganizationsTurn, ReplacementsAreLawful};
ghost use Rattle.volume_rules.specs.EventLaws.{SwitchesAreLawful, TurnsAreLawful, UnitsAreLawful};

/// ISRT and a load row: a new segment at a home where no cell stood.
pub fn insertions_are_lawful()
    ensures { InsertionsAreLawful }
{}

/// REPL: other content.
pub fn replacements_are_lawful()
    ensures { ReplacementsAreLawful }
{}

/// DLET: a span goes, with its rows of the indirect list.
pub fn deletions_are_lawful()
    ensures { DeletionsAreLawful }
{}

/// START, PAUSE, RESUME and a heal: no segment is touched, and no root changes its generation.
pub fn turns_are_lawful()
    ensures { TurnsAreLawful }
{}

/// START, PAUSE and RESUME change no root's generation.
pub fn reorganizations_turn()
    ensures { ReorganizationsTurn }
{}

/// The switch: the output is what the partition has now.
pub fn switches_are_lawful()
    ensures { SwitchesAreLawful }
{}

/// A unit: whole records are copied to the output, and the cursor passes just these.
pub fn units_are_lawful()
    ensures { UnitsAreLawful }
{}
