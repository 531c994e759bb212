//! What holds of all that is filed, and the numbers that clauses cite by name.

ghost use Rattle.std.specs.Prelude.{◌≡◌};
ghost use Rattle.dlms_filing.specs.Filing.{PutIsPrinted};
ghost use Rattle.dlms_filing.specs.declared.host_disk.TheConstants.{EVERYONE, NAMES, OWNER_ALONE};

/// Where a text was to be put in its place, the lines that are new in it were printed and flushed.
pub fn what_is_put_was_printed()
    ensures { PutIsPrinted }
{}

/// The numbers that clauses cite by name: the permissions of a lock and of a text that replaces another, those of a text if there
/// was none, and how many names are tried for it.
pub fn the_numbers()
    ensures permissions { (OWNER_ALONE ≡ 384) × (EVERYONE ≡ 438) }
    ensures names { NAMES ≡ 16 }
{}
