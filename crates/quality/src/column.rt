// A cell, and a column: one element's nine cells, slot by slot, passed by value through the steps.
ghost use Rattle.std.specs.Prelude.{◌≡◌, ◌<◌, set};
ghost use Rattle.quality.specs.Cell.{missing, is_humidity, slot, discarded, flagged};
ghost use Rattle.quality.specs.Coded.{cells};
ghost use Rattle.quality.specs.Steps.{passed_over};

// States: 0 missing, 1 read, 2 corrected, 3 filled, 4 a humidity. Flags: 0 none, 1 range, 2 internal, 3 time, 4 suspect. They are numbers
// and no enums, since the store and C keep each as a byte, and any byte may lie in a store that is read.
#[derive(Clone, Copy)]
pub struct Cell {
    pub state: u8,
    pub flag: u8,
    pub value: i16,
}

// Three arrays and no array of cells: the form that document 01 names for the columns that go through the steps.
#[derive(Clone, Copy)]
pub struct Column {
    pub values: [i16; 9],
    pub states: [u8; 9],
    pub flags: [u8; 9],
}

impl Column {
    // The column of nine cells.
    pub fn of(nine: [Cell; 9]) -> Column
        ensures { cells result ≡ nine }
    {
        Column {
            values: nine.map(|d| d.value),
            states: nine.map(|d| d.state),
            flags: nine.map(|d| d.flag),
        }
    }

    // The cell at slot k, which is below 9 as an index into an array is.
    pub fn at(self, k: usize) -> Cell
        requires { k < 9 }
        ensures { result ≡ slot (cells self) k }
    {
        Cell {
            state: self.states[k],
            flag: self.flags[k],
            value: self.values[k],
        }
    }

    // The column with the cell d at slot k.
    pub fn put(self, k: usize, d: Cell) -> Column
        requires { k < 9 }
        ensures { cells result ≡ set (cells self) k d }
    {
        let mut column = self;
        column.values[k] = d.value;
        column.states[k] = d.state;
        column.flags[k] = d.flag;
        column
    }
}

impl Cell {
    // Missing, with the flag.
    pub fn discarded(flag: u8) -> Cell
        ensures { result ≡ discarded flag }
    {
        Cell {
            state: 0,
            flag,
            value: 0,
        }
    }

    // The same cell with another flag.
    pub fn with_flag(self, flag: u8) -> Cell
        ensures { result ≡ flagged flag self }
    {
        Cell { flag, ..self }
    }

    // Whether the cell has no value.
    pub fn is_missing(self) -> bool
        ensures { result ≡ missing self }
    {
        self.state == 0
    }

    // Whether the cell is a humidity.
    pub fn is_humidity(self) -> bool
        ensures { result ≡ is_humidity self }
    {
        self.state == 4
    }

    // Whether the steps pass over the cell.
    pub fn passed_over(self) -> bool
        ensures { result ≡ passed_over self }
    {
        self.is_missing() | self.is_humidity()
    }
}
