// What the rows of a table and its first fault are, beside the recursion that computes them.
ghost use Rattle.std.specs.Prelude.{◌≡◌, ◌↔◌, List, Ok, Err};
ghost use Rattle.desk_io.specs.declared.desk.Table.{Table};
ghost use Rattle.row_reader.specs.Records.{Record};
ghost use Rattle.row_reader.specs.FirstFault.{Judge, rows_from};
ghost use Rattle.row_reader.specs.Laws.{AreAccepted, IsFirstFault};
ghost use Rattle.row_reader.specs.declared.faults.TableFault.{TableFault};

/// The law that the accepted rows are those of all records, one for each, in order.
pub fn accepted_rows_are_those_of_all_records<T>()
    ensures { (table : Table) (judge : Judge T) (before : List T) (records : List Record)
        (rows : List T) → (rows_from table judge before records ≡ Ok rows)
        ↔ AreAccepted judge before records rows }
{}

/// The law that the fault is that of the least line: each earlier record was accepted.
pub fn the_fault_is_that_of_the_least_line<T>()
    ensures { (table : Table) (judge : Judge T) (before : List T) (records : List Record)
        (fault : TableFault) → (rows_from table judge before records ≡ Err fault)
        ↔ IsFirstFault table judge before records fault }
{}
