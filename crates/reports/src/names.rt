// The names of tables, codes and columns in a line.
ghost use Rattle.std.specs.Prelude.{◌≡◌, ◌≤◌, ◌+◌, ◌++◌, length};
ghost use Rattle.pending_text.specs.declared.pending.TheConstants.{PIECE};
ghost use Rattle.reports.specs.declared.names.TheConstants.{NAME};
ghost use Rattle.row_reader.specs.Names.{code_name as name_of_code, column_name as name_of_column};
ghost use Rattle.row_reader.specs.Names.{table_name as name_of_table};

use desk_io::Table;
use pending_text::Pending;
use row_reader::{Code, Column, code_name, column_name, table_name};

/// No name of a table, of a code or of a column is longer.
pub(crate) const NAME: usize = 32;

// Adds a table's name to a line.
pub(crate) fn push_table(line: &mut Pending, table: Table)
    requires { length line.old + NAME ≤ PIECE }
    ensures name { line.new ≡ line.old ++ name_of_table table }
    ensures few { length line.new ≤ length line.old + NAME }
{
    line.push(table_name(table));
}

// Adds a code and its name to a line.
pub(crate) fn push_code(line: &mut Pending, code: Code)
    requires { length line.old + NAME ≤ PIECE }
    ensures name { line.new ≡ line.old ++ name_of_code code }
    ensures few { length line.new ≤ length line.old + NAME }
{
    line.push(code_name(code));
}

// Adds a column's name to a line.
pub(crate) fn push_column(line: &mut Pending, column: Column)
    requires { length line.old + NAME ≤ PIECE }
    ensures name { line.new ≡ line.old ++ name_of_column column }
    ensures few { length line.new ≤ length line.old + NAME }
{
    line.push(column_name(column));
}
