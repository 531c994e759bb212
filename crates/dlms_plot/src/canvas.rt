//! Marks in rows and columns of a terminal.

/// How many columns a curve has.
pub const COLUMNS: usize = 72;

/// How many rows a curve has at most.
pub const ROWS: usize = 21;

/// How many marks a curve has.
const MARKS: usize = 1_512;

/// The marks of a curve, the lowest row first.
#[derive(Clone, Copy, PartialEq, Eq)]
pub struct Canvas {
    marks: [u8; MARKS],
}

impl Canvas {
    /// Blanks.
    pub fn blank() -> Canvas {
        Canvas {
            marks: [b' '; MARKS],
        }
    }

    /// Sets a mark. One outside changes nothing.
    pub fn set(&mut self, row: usize, column: usize, mark: u8) {
        if row < ROWS && column < COLUMNS {
            self.marks[row * COLUMNS + column] = mark;
        }
    }

    /// The marks of a row, without the blanks at its end; none outside.
    pub fn row(&self, row: usize) -> &[u8] {
        if row >= ROWS {
            return &[];
        }
        let begin = row * COLUMNS;
        self.marks[begin..begin + COLUMNS].trim_ascii_end()
    }

    /// Draws the curve at a column, from the level before it, if there is one, to its own.
    pub fn step(&mut self, column: usize, before: Option<usize>, level: usize) {
        match before {
            Some(before) if before != level => {
                for row in before.min(level)..before.max(level).min(ROWS) {
                    self.set(row, column, b'|');
                }
                self.set(before, column, b'+');
                self.set(level, column, b'+');
            }
            _ => self.set(level, column, b'-'),
        }
    }
}
