//! A table of counts that knows the sum of each row and of each column.
ghost use Rattle.std.specs.Prelude.{◌≡◌, ◌<◌, ◌≤◌, ◌+◌, ◌-◌, ◌*◌, IfOk, replicate};
ghost use Rattle.lw_world.specs.Sums.{at, put, sum_below};

use lw_base::NoMemory;
use std::alloc::Global;
use std::marker::Model;

// The room of a row.
const WIDTH: usize = 81;

/// Counts of at most 2^40, by row and column, at most 81 of each.
#[derive(Drop)]
pub struct Tally {
    cells: Vec<u64>,
    rows: Vec<u64>,
    columns: Vec<u64>,
}

impl Model for Tally {
    ghost use Rattle.std.specs.Prelude.{length};
    ghost use Rattle.lw_world.specs.Tally.{Counts, IsTallied};

    ghost Value = { Counts };

    ghost view = { λ a. record { rows = length a.rows.items; columns = length a.columns.items; cells = a.cells.items } };

    ghost invariant = { λ a. IsTallied a.cells.items a.rows.items a.columns.items };
}

impl Tally {
    /// All counts are 0.
    pub fn new(alloc: Global, rows: usize, columns: usize) -> Result<Tally, NoMemory>
        requires rows { rows ≤ 81 }
        requires columns { columns ≤ 81 }
        ensures { IfOk result (λ t. t ≡ record { rows = rows; columns = columns; cells = replicate (rows * 81) 0 }) }
    {
        let cells = zeros(alloc, rows * WIDTH)?;
        let rows = zeros(alloc, rows)?;
        let columns = zeros(alloc, columns)?;
        Ok(Tally {
            cells,
            rows,
            columns,
        })
    }

    /// One count.
    pub fn at(&self, row: u32, column: u32) -> u64
        requires row { row < self.now.rows }
        requires column { column < self.now.columns }
        ensures count { result ≡ at self.now.cells row column }
        ensures small { result ≤ 1099511627776 }
    {
        self.cells[row as usize * WIDTH + column as usize]
    }

    /// The sum of a row.
    pub fn row(&self, row: u32) -> u64
        requires { row < self.now.rows }
        ensures sum { result ≡ sum_below self.now.columns (at self.now.cells row) }
        ensures small { result ≤ 89060441849856 }
    {
        self.rows[row as usize]
    }

    /// The sum of a column.
    pub fn column(&self, column: u32) -> u64
        requires { column < self.now.columns }
        ensures sum { result ≡ sum_below self.now.rows (λ x. at self.now.cells x column) }
        ensures small { result ≤ 89060441849856 }
    {
        self.columns[column as usize]
    }

    /// Changes one count.
    pub fn set(&mut self, row: u32, column: u32, count: u64)
        requires row { row < self.old.rows }
        requires column { column < self.old.columns }
        requires small { count ≤ 1099511627776 }
        ensures { self.new ≡ record self.old { cells = put self.old.cells row column count } }
    {
        let old = self.at(row, column);
        let of_row = moved(self.row(row), old, count);
        let of_column = moved(self.column(column), old, count);
        self.cells[row as usize * WIDTH + column as usize] = count;
        self.rows[row as usize] = of_row;
        self.columns[column as usize] = of_column;
    }
}

// So many zeros.
pub fn zeros(alloc: Global, count: usize) -> Result<Vec<u64>, NoMemory>
    ensures { IfOk result (λ v. v.items ≡ replicate count 0) }
{
    vec![in alloc; 0u64; count]
}

// A sum of which one part was `old` and is `count` now.
fn moved(sum: u64, old: u64, count: u64) -> u64
    requires part { old ≤ sum }
    requires room { sum ≤ 89060441849856 }
    requires small { count ≤ 1099511627776 }
    ensures { result ≡ sum + count - old }
{
    sum + count - old
}
