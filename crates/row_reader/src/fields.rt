// The fields of a record, and the checks of one field.
ghost use Rattle.std.specs.Prelude.{◌≡◌, ◌≤◌, IfOk, IfSome};
ghost use Rattle.row_reader.specs.Fields.{complain as complain_of, unless as unless_of};
ghost use Rattle.row_reader.specs.Fields.{not_a_number as not_a_number_of, numbered as numbered_of};
ghost use Rattle.row_reader.specs.Fields.{within as within_of};
ghost use Rattle.row_reader.specs.Columns.{text};
ghost use Rattle.row_reader.specs.Fields.{identifier, optional_quantity, quantity, quantity_or};
ghost use Rattle.fixed_units.specs.Quantity.{milli_of};

use crate::faults::{Code, Column, Complaint};
use crate::header::Header;
use crate::rows::Row;
use fixed_units::{GREATEST_IDENTIFIER, MOST_THOUSANDTHS, NumberFault, milli, whole};
use std::marker::Model;

/// A complaint with this code about this column.
pub fn complain(code: Code, column: Column) -> Complaint
    ensures { result ≡ complain_of code column }
{
    Complaint { code, column }
}

/// A check that fails where `fails` holds.
pub fn unless(fails: bool, code: Code, column: Column) -> Result<(), Complaint>
    ensures { result ≡ unless_of fails code column }
{
    if fails {
        Err(complain(code, column))
    } else {
        Ok(())
    }
}

/// A number from `low` to `high`, or E5.
pub fn within(column: Column, low: u64, high: u64, number: u64) -> Result<u64, Complaint>
    ensures value { result ≡ within_of column low high number }
    ensures low { IfOk result (λ n. low ≤ n) }
    ensures high { IfOk result (λ n. n ≤ high) }
{
    if low <= number && number <= high {
        Ok(number)
    } else {
        Err(complain(Code::E5, column))
    }
}

/// What a text that is no number of its kind complains of: E4 for its form, E5 for its range.
pub fn not_a_number(column: Column, fault: NumberFault) -> Complaint
    ensures { result ≡ not_a_number_of column fault }
{
    match fault {
        NumberFault::NotNumber => complain(Code::E4, column),
        NumberFault::OutOfRange => complain(Code::E5, column),
    }
}

/// The fields of a record, by their columns.
#[derive(Drop)]
pub struct Fields<'a> {
    header: &'a Header,
    row: &'a Row,
}

impl<'a> Model for Fields<'a> {
    ghost use Rattle.row_reader.specs.Rows.{FieldsView};

    ghost Value = { FieldsView };

    ghost view = { λ a. record {
      header = a.header.now;
      fields = a.row.now.fields;
      line = a.row.now.line;
    } };
}

impl<'a> Fields<'a> {
    // The fields of a row under its header.
    pub(crate) fn of(header: &'a Header, row: &'a Row) -> Self
        ensures { result ≡ record {
          header = header.now;
          fields = row.now.fields;
          line = row.now.line;
        } }
    {
        Fields { header, row }
    }

    /// The number of the record, where the header is 1.
    pub fn line(&self) -> u64
        ensures { result ≡ self.now.line }
    {
        self.row.line()
    }

    /// The field of a column, without the spaces and tabs at its ends. Empty where the header
    /// lacks the column.
    pub fn text(&self, column: Column) -> &'a [u8]
        ensures { result.now ≡ text self.now column }
    {
        self.row.field_in(self.header.place(column))
    }

    /// The identifier in a required field: E3 where it is empty, E4 where it is none, E5 where it
    /// is out of range.
    #[tactic(auto, unfolding(crate::specs::Fields::identifier))]
    pub fn identifier(&self, column: Column) -> Result<u64, Complaint>
        ensures value { result ≡ identifier column (text self.now column) }
        ensures range { IfOk result (λ n. n ≤ GREATEST_IDENTIFIER) }
    {
        let text = self.text(column);
        unless(text.is_empty(), Code::E3, column)?;
        match whole(text) {
            Ok(number) => Ok(number),
            Err(fault) => Err(not_a_number(column, fault)),
        }
    }

    /// The thousandths of the quantity in a required field: E3 where it is empty, E4 where it is
    /// none, E5 where it is out of range.
    #[tactic(auto, unfolding(crate::specs::Fields::quantity))]
    pub fn quantity(&self, column: Column) -> Result<u64, Complaint>
        ensures value { result ≡ quantity column (text self.now column) }
        ensures range { IfOk result (λ n. n ≤ MOST_THOUSANDTHS) }
    {
        let text = self.text(column);
        unless(text.is_empty(), Code::E3, column)?;
        thousandths(column, text)
    }

    /// The thousandths of the quantity in an optional field, or `otherwise` where it is empty: E4
    /// where it is none, E5 where it is out of range.
    #[tactic(auto, unfolding(crate::specs::Fields::quantity_or))]
    pub fn quantity_or(&self, otherwise: u64, column: Column) -> Result<u64, Complaint>
        requires { otherwise ≤ MOST_THOUSANDTHS }
        ensures value { result ≡ quantity_or otherwise column (text self.now column) }
        ensures range { IfOk result (λ n. n ≤ MOST_THOUSANDTHS) }
    {
        let text = self.text(column);
        if text.is_empty() {
            return Ok(otherwise);
        }
        thousandths(column, text)
    }

    /// The thousandths of the quantity in an optional field, or none where it is empty: E4 where
    /// it is no quantity, E5 where it is out of range.
    #[tactic(auto, unfolding(crate::specs::Fields::optional_quantity))]
    pub fn optional_quantity(&self, column: Column) -> Result<Option<u64>, Complaint>
        ensures value { result ≡ optional_quantity column (text self.now column) }
        ensures range { IfOk result (λ n. IfSome n (λ x. x ≤ MOST_THOUSANDTHS)) }
    {
        let text = self.text(column);
        if text.is_empty() {
            return Ok(None);
        }
        let number = thousandths(column, text)?;
        Ok(Some(number))
    }
}

// The thousandths of a quantity's text.
fn thousandths(column: Column, text: &[u8]) -> Result<u64, Complaint>
    ensures value { result ≡ numbered_of column (milli_of text.now) }
    ensures range { IfOk result (λ n. n ≤ MOST_THOUSANDTHS) }
{
    match milli(text) {
        Ok(number) => Ok(number),
        Err(fault) => Err(not_a_number(column, fault)),
    }
}
