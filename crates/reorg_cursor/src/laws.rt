// What units and events keep, as those use it who stand on them.
ghost use Rattle.reorg_cursor.specs.Laws.{CursorsAreOfTheLast, CursorsRise, FinishEnds, StatesFit, UnitsReachOneEnd, UnitsTakeFirst};

use hal_schema::schemas_are_kept;

/// A unit takes the first of the groups that are left, and just these.
pub fn units_take_first()
    ensures { UnitsTakeFirst }
{}

/// Units of any sizes come to one end.
pub fn units_reach_one_end()
    ensures { UnitsReachOneEnd }
{
    units_take_first();
    states_fit();
}

/// The cursor only rises.
pub fn cursors_rise()
    ensures { CursorsRise }
{}

/// The cursor behind the records of a unit is that behind the last of them.
pub fn cursors_are_of_the_last()
    ensures { CursorsAreOfTheLast }
{}

/// A state that is reached is one that a control row may have.
pub fn states_fit()
    ensures { StatesFit }
{
    schemas_are_kept();
}

/// A FINISH ends.
pub fn finish_ends()
    ensures { FinishEnds }
{
    units_take_first();
}
