//! What is read of a node that bytes spell, and of one that an image lays out.

ghost use Rattle.node_reads.specs.Headers.{FieldsAreRead};
ghost use Rattle.node_reads.specs.LaidOut.{HeaderIsRead, HeaderBreaksNone, TableBreaksNone, EntriesAreChildren};

/// What a header says of bytes that spell a node are the fields of that node.
pub fn fields_are_read()
    ensures { FieldsAreRead }
{}

/// In an image that lays out a tree, what is read of the header of a node are the fields of the node, no rule is broken by
/// it or by its table as far as it tells, and the entries in use are those of its children.
pub fn nodes_are_read()
    ensures header { HeaderIsRead }
    ensures unbroken { HeaderBreaksNone }
    ensures table { TableBreaksNone }
    ensures entries { EntriesAreChildren }
{}
