//! When rows of tables are written that are held.

ghost use Rattle.gotymbe_plan.specs.Tables.{IsDue};

// The rows of a table are written once they have so many bytes, and those of all tables once these have so many.
const ENOUGH: u64 = 65_536;

const TOO_MUCH: u64 = 8_388_608;

/// Which rows are to be written.
#[derive(Clone, Copy, Debug, PartialEq, Eq)]
pub enum Due {
    /// None yet.
    Nothing,
    /// Those of the table that got the last one.
    Table,
    /// Those of all tables.
    All,
}

/// Which rows are to be written after one was put into a table, where the rows that it holds have so many bytes, and
/// those that all tables hold so many.
pub fn rows_due(held: u64, held_by_all: u64) -> Due
    ensures { IsDue held held_by_all result }
{
    if held >= ENOUGH {
        return Due::Table;
    }
    if held_by_all >= TOO_MUCH {
        return Due::All;
    }
    Due::Nothing
}
