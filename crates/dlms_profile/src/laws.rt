//! Worked examples of the definitions, and laws over whole lists of rows. They make no call.
ghost use Rattle.std.specs.Prelude.{◌≡◌, ℕ, ◌<◌, List, [], ◌∷◌};
ghost use Rattle.circular_buffer.specs.Buffer.{keep_last};
ghost use Rattle.dlms_profile.specs.declared.rows.Row.{Row};
ghost use Rattle.dlms_profile.specs.Rows.{in_range, entries, row_at, row_of_values};
ghost use Rattle.dlms_profile.specs.declared.rows.TheConstants.{CAPACITY, MOST_VALUES};

/// A range has its first and its last second.
pub fn a_range_has_both_its_ends()
    ensures { in_range 0 900 1800
        (row_at 899 ∷ row_at 900 ∷ row_at 1800 ∷ row_at 1801 ∷ []) ≡ row_at 900 ∷ row_at 1800 ∷ [] }
{}

/// A range that ends before it begins names no row.
pub fn a_range_turned_round_is_empty()
    ensures { (place first last : ℕ) (rows : List Row) → last < first
        → in_range place first last rows ≡ [] }
{}

/// A row that has no value at the place lies in no range.
pub fn a_row_without_the_clock_is_in_no_range()
    ensures { in_range 1 0 4294967295 (row_of_values (900 ∷ []) ∷ []) ≡ [] }
{}

/// The oldest row is entry 1.
pub fn entries_count_from_one()
    ensures { entries 1 1 (row_at 900 ∷ row_at 1800 ∷ row_at 2700 ∷ []) ≡ row_at 900 ∷ [] }
{}

/// If 0 means the last entry, or if the last entry is past the newest row, the rows extend to the newest.
pub fn the_last_entry_is_the_newest_row()
    ensures open_end { entries 2 0 (row_at 900 ∷ row_at 1800 ∷ row_at 2700 ∷ []) ≡ row_at 1800
        ∷ row_at 2700 ∷ [] }
    ensures past_end { entries 2 9 (row_at 900 ∷ row_at 1800 ∷ row_at 2700 ∷ []) ≡ row_at 1800
        ∷ row_at 2700 ∷ [] }
{}

/// A first entry past the newest row names no row.
pub fn a_first_entry_past_the_last_names_none()
    ensures { entries 4 0 (row_at 900 ∷ row_at 1800 ∷ row_at 2700 ∷ []) ≡ [] }
{}

/// Entries 1 to 0 are all rows.
pub fn entries_one_to_none_are_all()
    ensures { (rows : List Row) → entries 1 0 rows ≡ rows }
{}

/// Of four rows a buffer of three keeps the last three.
pub fn the_oldest_row_goes_first()
    ensures { keep_last 3 (row_at 1 ∷ row_at 2 ∷ row_at 3 ∷ row_at 4 ∷ []) ≡ row_at 2 ∷ row_at 3
        ∷ row_at 4 ∷ [] }
{}

/// The numbers that clauses and definitions cite by name: the buffer keeps 960 rows, and a row at most four values.
pub fn the_numbers()
    ensures rows { CAPACITY ≡ 960 }
    ensures values { MOST_VALUES ≡ 4 }
{}
