ghost use Rattle.forest_laws.specs.Joining.{ChangesStayWithin, ForestsAreSequences, InsertionsStayWithin, JoinsExample, OrdersJoin, SequencesJoin};

use hal_schema::{root_order_is_total, schemas_are_kept};

/// A forest is a list in hierarchic sequence in which no index has a key twice.
pub fn forests_are_sequences()
    ensures { ForestsAreSequences }
{}

/// Lists that stand in order go on with such lists behind each of them.
pub fn orders_join()
    ensures { OrdersJoin }
{}

/// Lists in sequence, one behind another, are in sequence together.
pub fn sequences_join()
    ensures { SequencesJoin }
{
    schemas_are_kept();
}

/// A span that is cut out of one of such lists, and content that is replaced in one, is so in them all.
pub fn changes_stay_within()
    ensures { ChangesStayWithin }
{
    schemas_are_kept();
}

/// A row that is inserted into one of such lists is inserted into them all.
pub fn insertions_stay_within()
    ensures { InsertionsStayWithin }
{
    schemas_are_kept();
    root_order_is_total();
}

/// Lists that stand in order, and two that don't.
pub fn joining_is_an_example()
    ensures { JoinsExample }
{}
