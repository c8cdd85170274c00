// The header of a table.
ghost use Rattle.std.specs.Prelude.{◌≡◌, ◌↔◌, IsTrue, option_map};
ghost use Rattle.csv.specs.Records.{field_at, fields_of};
ghost use Rattle.row_reader.specs.Columns.{column_of, place_of};
ghost use Rattle.row_reader.specs.Fields.{has_columns};
ghost use Rattle.row_reader.specs.Trimmed.{trimmed};

use crate::blanks::trim_blanks;
use crate::faults::{ALL_COLUMNS, COLUMNS, Code, Column, Complaint, column_name};
use crate::fields::unless;
use csv::StringRecord;
use std::marker::Model;

// The header of a table, and where each column stands in it, if anywhere, by the column's number.
#[derive(Drop)]
pub(crate) struct Header {
    names: StringRecord,
    places: [Option<usize>; COLUMNS],
}

impl Model for Header {
    ghost use Rattle.std.specs.Prelude.{◌≡◌, map};
    ghost use Rattle.csv.specs.Records.{fields_of};
    ghost use Rattle.row_reader.specs.Columns.{place_of};
    ghost use Rattle.row_reader.specs.Records.{Record};
    ghost use Rattle.row_reader.specs.declared.faults.TheConstants.{ALL_COLUMNS};

    ghost Value = { Record };

    ghost view = { λ a. fields_of a.names };

    ghost invariant = { λ a. a.places ≡ map (place_of (fields_of a.names)) ALL_COLUMNS };
}

impl Header {
    // The header with these names.
    pub(crate) fn of(names: StringRecord) -> Self
        ensures { result ≡ fields_of names }
    {
        let mut places = [None; COLUMNS];
        for number in 0..COLUMNS {
            places[number] = column_in(&names, column_name(ALL_COLUMNS[number]));
        }
        Header { names, places }
    }

    // The first position of a name, or none.
    pub(crate) fn position(&self, name: &str) -> Option<usize>
        ensures { result ≡ column_of self.now name.now }
    {
        column_in(&self.names, name)
    }

    // The first position of a column's name, or none.
    pub(crate) fn place(&self, column: Column) -> Option<usize>
        ensures { result ≡ place_of self.now column }
    {
        self.places[column as usize]
    }

    // The first of these columns that the header lacks is E1.
    pub(crate) fn has(&self, required: &[Column]) -> Result<(), Complaint>
        ensures { result ≡ has_columns self.now required.now }
    {
        for column in required {
            unless(self.place(*column).is_none(), Code::E1, *column)?;
        }
        Ok(())
    }
}

// The first position of a name, or none.
fn column_in(names: &StringRecord, name: &str) -> Option<usize>
    ensures { result ≡ column_of (fields_of names.now) name.now }
{
    for place in 0..names.len() {
        if has_name(names, place, name) {
            return Some(place);
        }
    }
    None
}

// Whether a name stands at a place.
fn has_name(names: &StringRecord, place: usize, name: &str) -> bool
    ensures { IsTrue result ↔
        (option_map trimmed (field_at (fields_of names.now) place) ≡ Some name.now) }
{
    match names.get(place) {
        Some(field) => trim_blanks(field.as_bytes()) == name.as_bytes(),
        None => false,
    }
}
