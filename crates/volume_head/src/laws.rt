// What the definitions of a volume's front give.
ghost use Rattle.volume_head.specs.Definition.{AreOfOneSchema, AreShort};
ghost use Rattle.volume_head.specs.Empty.{AreTheirs};

use hal_schema::schemas_are_kept;

/// An image is the volume of one schema at most.
pub fn volumes_are_of_one_schema()
    ensures { AreOfOneSchema }
{}

/// The canonical text of a schema has place in a volume.
pub fn definitions_are_short()
    ensures { AreShort }
{
    schemas_are_kept();
}

/// What `write_volume` writes is the volume of its schema, whatever image was there.
pub fn empty_volumes_are_theirs()
    ensures { AreTheirs }
{}
