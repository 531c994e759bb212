//! Laws of the definitions, and worked examples. They make no call.

ghost use Rattle.std.specs.Prelude.{◌≡◌, ℕ, ◌≤◌, List, [], ◌∷◌, length, take, Option, Ok, Err, true};
ghost use Rattle.dlms_data.specs.declared.descriptor.Descriptor.{Descriptor};
ghost use Rattle.dlms_data.specs.Value.{Value, null, array, none, cons, push_value};
ghost use Rattle.dlms_data.specs.Writing.{canonical};
ghost use Rattle.dlms_frame.specs.declared.client.Client.{Client};
ghost use Rattle.dlms_frame.specs.declared.client.Client.TheVariants.{Public, Management, Reader};
ghost use Rattle.dlms_profile.specs.declared.rows.Row.{Row};
ghost use Rattle.dlms_profile.specs.Rows.{row_of_values};
ghost use Rattle.dlms_state.specs.Columns.{are_known};
ghost use Rattle.dlms_state.specs.declared.event.TheConstants.{MOST_COLUMNS};
ghost use Rattle.dlms_state.specs.StateValue.{StateValue, HasEvents};
ghost use Rattle.dlms_state.specs.declared.event.SecretOf.TheVariants as owner;
ghost use Rattle.dlms_classes.specs.Access.{readable, writable, callable};
ghost use Rattle.dlms_classes.specs.Answer.{IsSendable, IsShown, wanted};
ghost use Rattle.dlms_classes.specs.Choice.{Selection, HasPart};
ghost use Rattle.dlms_classes.specs.Column.{columns_of};
ghost use Rattle.dlms_classes.specs.Listing.{object_list, map_values};
ghost use Rattle.dlms_classes.specs.Plan.{Setting, secret_to, setting_of};
ghost use Rattle.dlms_classes.specs.Shown.{Part, Shown, Shows, shown, part_shown, whole, between, cut, as_table, column_value, no_column};
ghost use Rattle.dlms_classes.specs.Table.{object_of_column};
ghost use Rattle.dlms_classes.specs.declared.access.AccessResult.TheVariants.{TypeUnmatched, OtherReason};
ghost use Rattle.dlms_classes.specs.declared.rows.Cell.TheVariants as Cell;
ghost use Rattle.dlms_classes.specs.declared.table.Attribute.{Attribute};
ghost use Rattle.dlms_classes.specs.declared.table.Call.{Call};
ghost use Rattle.dlms_classes.specs.declared.table.Content.TheVariants.{AssociatedPartners, Secret};

/// Each answer has exactly one value: a second of the clock has one date-time, and two date-times name one range. So two answers of
/// the same state to the same question are equal, except for out of memory.
pub fn one_value_shows_it()
    ensures { (x : Shown) (v w : Value) → Shows x v → Shows x w → v ≡ w }
{}

/// The value of a state that some legal list of events leads to has a spelling, which is no longer than the full buffer's.
pub fn what_is_shown_can_be_sent()
    ensures { (s : StateValue) (client : Client) (d : Descriptor) (selection : Option Selection)
        (v : Value) → HasEvents s
        → IsShown s client d (wanted client d selection) (Ok v) → IsSendable v }
{}

/// Entries 1 to 0 and columns 1 to 0 are all of the buffer.
pub fn a_cut_may_be_all()
    ensures { (columns : List ℕ) (rows : List Row)
        → part_shown columns (cut 1 0 1 0) rows ≡ part_shown columns whole rows }
{}

/// The object list begins with nine elements, and the first is that of the device's name: class 1, version 0, 0.0.42.0.0.255, its
/// two attributes to be read by every client, no method.
pub fn the_list_begins_with_the_device_name()
    ensures public { take 37 (canonical (object_list Public))
        ≡ 1 ∷ 9 ∷ 2 ∷ 4 ∷ 18 ∷ 0 ∷ 1 ∷ 17 ∷ 0 ∷ 9 ∷ 6 ∷ 0 ∷ 0 ∷ 42 ∷ 0 ∷ 0 ∷ 255 ∷ 2 ∷ 2 ∷ 1 ∷ 2 ∷ 2
        ∷ 3 ∷ 15 ∷ 1 ∷ 22 ∷ 1 ∷ 0 ∷ 2 ∷ 3 ∷ 15 ∷ 2 ∷ 22 ∷ 1 ∷ 0 ∷ 1 ∷ 0 ∷ [] }
    ensures management { take 37 (canonical (object_list Management))
        ≡ 1 ∷ 9 ∷ 2 ∷ 4 ∷ 18 ∷ 0 ∷ 1 ∷ 17 ∷ 0 ∷ 9 ∷ 6 ∷ 0 ∷ 0 ∷ 42 ∷ 0 ∷ 0 ∷ 255 ∷ 2 ∷ 2 ∷ 1 ∷ 2 ∷ 2
        ∷ 3 ∷ 15 ∷ 1 ∷ 22 ∷ 1 ∷ 0 ∷ 2 ∷ 3 ∷ 15 ∷ 2 ∷ 22 ∷ 1 ∷ 0 ∷ 1 ∷ 0 ∷ [] }
    ensures reader { take 37 (canonical (object_list Reader))
        ≡ 1 ∷ 9 ∷ 2 ∷ 4 ∷ 18 ∷ 0 ∷ 1 ∷ 17 ∷ 0 ∷ 9 ∷ 6 ∷ 0 ∷ 0 ∷ 42 ∷ 0 ∷ 0 ∷ 255 ∷ 2 ∷ 2 ∷ 1 ∷ 2 ∷ 2
        ∷ 3 ∷ 15 ∷ 1 ∷ 22 ∷ 1 ∷ 0 ∷ 2 ∷ 3 ∷ 15 ∷ 2 ∷ 22 ∷ 1 ∷ 0 ∷ 1 ∷ 0 ∷ [] }
{}

/// The reader reads what management reads, sets nothing but a secret, which is its own, and calls no method.
pub fn the_reader_changes_only_its_secret()
    ensures reads { (d : Descriptor) → readable Reader d ≡ readable Management d }
    ensures writes { (d : Descriptor) (a : Attribute) → writable Reader d ≡ Ok a
        → a.content ≡ Secret }
    ensures own { (v : Value) (setting : Setting) → setting_of Reader Secret v ≡ Ok setting
        → (bytes : List ℕ) × (setting ≡ secret_to owner.Reader bytes) }
    ensures calls { (d : Descriptor) (method : Call) → ¬ (callable Reader d ≡ Ok method) }
{}

/// The associated partners are a client's own service access point and the one logical device, 1.
pub fn the_partners_of_the_reader()
    ensures { (s : StateValue) (d : Descriptor) (p : Part) (v : Value)
        → Shows (shown s Reader d p AssociatedPartners) v
        → canonical v ≡ 2 ∷ 2 ∷ 15 ∷ 2 ∷ 18 ∷ 0 ∷ 1 ∷ [] }
{}

/// The capture objects can be set as they are read, and the columns are then the same.
pub fn capture_objects_are_set_as_they_are_read()
    ensures { (columns : List ℕ) → are_known columns ≡ true → length columns ≤ MOST_COLUMNS
        → columns_of (array (map_values
        (λ id. column_value (object_of_column id)) columns)) ≡ Ok columns }
{}

/// In capture objects, a wrong type after an unknown object is reported, and after four others too. Five columns are refused for
/// another reason.
pub fn types_of_capture_objects_go_before_values()
    ensures unknown { columns_of (array (cons no_column none)) ≡ Err OtherReason }
    ensures behind_unknown { columns_of
        (array (cons no_column (cons null none))) ≡ Err TypeUnmatched }
    ensures five { columns_of (array
        (map_values (λ id. column_value (object_of_column id))
        (0 ∷ 1 ∷ 2 ∷ 3 ∷ 0 ∷ []))) ≡ Err OtherReason }
    ensures behind_four { columns_of
        (array (push_value (map_values (λ id. column_value (object_of_column id))
        (0 ∷ 1 ∷ 2 ∷ 3 ∷ [])) null)) ≡ Err TypeUnmatched }
{}

/// Without the clock among the columns no range is a part of the buffer.
pub fn no_range_without_the_clock()
    ensures { (first last : List ℕ) → ¬ (HasPart (1 ∷ 2 ∷ 3 ∷ []) (between first last)) }
{}

/// Where register 0 is the only column, a row of it is shown as a structure of one number.
pub fn a_row_has_a_field_a_column()
    ensures { part_shown (1 ∷ []) whole (row_of_values (42 ∷ []) ∷ []) ≡ as_table
        ((Cell.Number 42 ∷ []) ∷ []) }
{}
