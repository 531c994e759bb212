//! The columns that an answer lists, whatever they are.

ghost use Rattle.std.specs.Prelude.{◌≡◌, ◌≤◌, get_or};
ghost use Rattle.dlms_headend.specs.Listed.{column_at, column_in, columns_in, columns_listed_in, is_column_at, is_listing, six_octets, two_octets};

/// From here on an octet is no length, but the number of its octets.
const LONG: u8 = 0x80;

/// The octets of a column.
const COLUMN_SIZE: usize = 18;

/// The octets before the first column.
const HEAD: usize = 6;

/// A column of a load profile, as an answer lists it: a class, a logical name, the octet of an attribute, and a data index.
#[derive(Clone, Copy, Debug, PartialEq, Eq)]
pub struct ListedColumn {
    pub class: u16,
    pub name: [u8; 6],
    pub attribute: u8,
    pub index: u16,
}

/// The octet at a place, or 0 past the end.
fn octet(answer: &[u8], place: usize) -> u8
    ensures { result ≡ get_or answer.now place 0 }
{
    match answer.get(place) {
        Some(octet) => *octet,
        None => 0,
    }
}

/// The number in two octets.
fn two_octets(answer: &[u8], place: usize) -> u16
    requires { place ≤ 4096 }
    ensures { result ≡ two_octets answer.now place }
{
    u16::from(octet(answer, place)) * 256 + u16::from(octet(answer, place + 1))
}

/// Six octets.
fn six_octets(answer: &[u8], place: usize) -> [u8; 6]
    requires { place ≤ 4096 }
    ensures { result ≡ six_octets answer.now place }
{
    [
        octet(answer, place),
        octet(answer, place + 1),
        octet(answer, place + 2),
        octet(answer, place + 3),
        octet(answer, place + 4),
        octet(answer, place + 5),
    ]
}

/// Whether the answer is one with data, an array of columns by its length.
fn is_listing(answer: &[u8]) -> bool
    ensures { result ≡ is_listing answer.now }
{
    octet(answer, 0) == 0xc4
        && octet(answer, 1) == 1
        && octet(answer, 3) == 0
        && octet(answer, 4) == 1
        && octet(answer, 5) < LONG
        && answer.len() == HEAD + COLUMN_SIZE * usize::from(octet(answer, 5))
}

/// The number of columns in an answer; none if it is no list of columns.
fn columns_listed(answer: &[u8]) -> Option<usize>
    ensures { result ≡ columns_in answer.now }
{
    if is_listing(answer) {
        Some(usize::from(octet(answer, 5)))
    } else {
        None
    }
}

/// Whether a column begins at this place.
fn is_column_at(answer: &[u8], place: usize) -> bool
    requires { place ≤ 2500 }
    ensures { result ≡ is_column_at answer.now place }
{
    octet(answer, place) == 0x02
        && octet(answer, place + 1) == 4
        && octet(answer, place + 2) == 0x12
        && octet(answer, place + 5) == 0x09
        && octet(answer, place + 6) == 6
        && octet(answer, place + 13) == 0x0f
        && octet(answer, place + 15) == 0x12
}

/// The column that begins at this place.
fn column_at(answer: &[u8], place: usize) -> Option<ListedColumn>
    requires { place ≤ 2500 }
    ensures { result ≡ column_at answer.now place }
{
    if !is_column_at(answer, place) {
        return None;
    }
    Some(ListedColumn {
        class: two_octets(answer, place + 3),
        name: six_octets(answer, place + 7),
        attribute: octet(answer, place + 14),
        index: two_octets(answer, place + 16),
    })
}

/// The column of this number, counted from 0, in an answer; none if it lists fewer, or if that one has another form.
fn listed_column(answer: &[u8], number: usize) -> Option<ListedColumn>
    ensures { result ≡ column_in answer.now number }
{
    match columns_listed(answer) {
        Some(count) if number < count => column_at(answer, HEAD + COLUMN_SIZE * number),
        _ => None,
    }
}

/// The columns that an answer lists instead of the expected ones: how many, and the first eight of them; none if it is no list of
/// columns, and no column in place of one of another form.
#[derive(Clone, Copy, Debug, PartialEq, Eq)]
pub struct ColumnList {
    pub count: Option<usize>,
    pub columns: [Option<ListedColumn>; 8],
}

/// The columns that an answer lists.
pub fn list_columns(answer: &[u8]) -> ColumnList
    ensures { result ≡ columns_listed_in answer.now }
{
    ColumnList {
        count: columns_listed(answer),
        columns: [
            listed_column(answer, 0),
            listed_column(answer, 1),
            listed_column(answer, 2),
            listed_column(answer, 3),
            listed_column(answer, 4),
            listed_column(answer, 5),
            listed_column(answer, 6),
            listed_column(answer, 7),
        ],
    }
}
