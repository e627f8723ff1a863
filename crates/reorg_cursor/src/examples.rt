ghost use Rattle.reorg_cursor.specs.Examples.{AreExamples};

/// Events one by one on lists that are forests, from states that fit: units, FINISH, and each refusal.
pub fn reorganizations_are_examples()
    ensures { AreExamples }
{}
