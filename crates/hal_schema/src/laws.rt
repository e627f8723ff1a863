ghost use Rattle.hal_schema.specs.Facts.{SchemasAreKept};

/// What every schema keeps, as those use it who stand on one.
pub fn schemas_are_kept()
    ensures { SchemasAreKept }
{}
