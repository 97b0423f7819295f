// Numbers by row and column, for arenas whose vertices are pairs.
ghost use Rattle.std.specs.Prelude.{◌≡◌, ◌+◌, ◌*◌};
ghost use Rattle.arena.specs.Grid.{cell};

// So many rows of so many columns, numbered row by row.
#[derive(Clone, Copy, PartialEq, Eq, Debug)]
pub struct Grid {
    pub rows: u8,
    pub columns: u8,
}

impl Grid {
    // How many numbers there are.
    pub fn count(self) -> usize
        ensures { result ≡ self.rows * self.columns }
    {
        usize::from(self.rows) * usize::from(self.columns)
    }

    // The row and the column of a number, if it is one of the grid's.
    pub fn cell(self, v: usize) -> Option<(u8, u8)>
        ensures { result ≡ cell self.rows self.columns v }
    {
        if v >= self.count() {
            return None;
        }
        let columns = usize::from(self.columns);
        Some(((v / columns) as u8, (v % columns) as u8))
    }

    // The number at a row and a column.
    pub fn number(self, row: u8, column: u8) -> usize
        ensures { result ≡ row * self.columns + column }
    {
        usize::from(row) * usize::from(self.columns) + usize::from(column)
    }
}
