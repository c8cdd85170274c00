// The rows of a table over `csv`.
ghost use Rattle.std.specs.Prelude.{◌≡◌, ◌<◌, ℕ, length, IfOk, IfErr, IfSome, IsNone};
ghost use Rattle.csv.specs.Reading.{error_kind};
ghost use Rattle.row_reader.specs.Columns.{column_of, field_in};
ghost use Rattle.row_reader.specs.Faults.{fault_of_kind};
ghost use Rattle.row_reader.specs.Records.{records};
ghost use Rattle.row_reader.specs.Rows.{OpensAs, HasBadHeader, Steps};
ghost use Rattle.row_reader.specs.RowsInside.{IsFresh};
ghost use Rattle.row_reader.specs.declared.rows.RowFault.TheVariants as fault;

use crate::blanks::trim_blanks;
use crate::header::Header;
use csv::{Error, ErrorKind, Reader, ReaderBuilder, StringRecord};
use std::alloc::Global;
use std::marker::Model;

/// Why rows stop before the end.
#[derive(Clone, Copy, Debug, PartialEq, Eq)]
pub enum RowFault {
    /// The record at this line isn't UTF-8, or isn't as long as the header.
    BadRecord { line: u64 },
    /// Memory is wanting.
    Memory,
}

/// A record below the header, with its line.
#[derive(Drop)]
pub struct Row {
    fields: StringRecord,
    line: u64,
}

impl Model for Row {
    ghost use Rattle.row_reader.specs.Rows.{RowView};
    ghost use Rattle.row_reader.specs.RowsInside.{row_view};

    ghost Value = { RowView };

    ghost view = { row_view };
}

impl Row {
    /// The number of the record, where the header is 1.
    pub fn line(&self) -> u64
        ensures { result ≡ self.now.line }
    {
        self.line
    }

    /// The field of this column, without the spaces and tabs at its ends.
    pub fn field(&self, column: usize) -> &[u8]
        requires { column < length self.now.fields }
        ensures { result.now ≡ field_in self.now.fields (Some column) }
    {
        self.field_in(Some(column))
    }

    // The field in a column that may be missing, without the spaces and tabs at its ends.
    // Empty where there is no such column.
    pub(crate) fn field_in(&self, column: Option<usize>) -> &[u8]
        ensures { result.now ≡ field_in self.now.fields column }
    {
        match column {
            Some(place) => match self.fields.get(place) {
                Some(field) => trim_blanks(field.as_bytes()),
                None => &[],
            },
            None => &[],
        }
    }
}

/// The records of a table below its header, in order.
#[derive(Drop)]
pub struct Rows<'a> {
    alloc: Global,
    reader: Box<Reader<&'a [u8]>>,
    header: Header,
    line: u64,
    ended: bool,
    fault: Option<RowFault>,
}

impl<'a> Model for Rows<'a> {
    ghost use Rattle.row_reader.specs.Rows.{RowsView};
    ghost use Rattle.row_reader.specs.RowsInside.{rows_view, IsSoundRows};

    ghost Value = { RowsView };

    ghost view = { rows_view };

    ghost invariant = { IsSoundRows };
}

impl<'a> Rows<'a> {
    /// Reads the header of a table, its first record. A table is a text of RFC 4180 as `csv` reads
    /// it. A text without records has a header of no columns. A header that isn't UTF-8 is a
    /// `BadRecord` at line 1.
    pub fn new(alloc: Global, text: &'a [u8]) -> Result<Self, RowFault>
        ensures opens { IfOk result (OpensAs (records text.now)) }
        ensures bad { IfErr result (λ e. (line : ℕ) → e ≡ fault.BadRecord line
            → (line ≡ 1) × HasBadHeader (records text.now)) }
    {
        let mut reader = reader_of(alloc, text)?;
        let mut header = StringRecord::new(alloc);
        match reader.read_record(&mut header) {
            Ok(true) => Ok(Rows {
                alloc,
                reader,
                header: Header::of(header),
                line: 1,
                ended: false,
                fault: None,
            }),
            Ok(false) => Ok(Rows {
                alloc,
                reader,
                header: Header::of(StringRecord::new(alloc)),
                line: 1,
                ended: true,
                fault: None,
            }),
            Err(error) => Err(fault_of(error, 1)),
        }
    }

    /// The first position in the header of a column's name, or none.
    /// The spaces and tabs at the ends of the header's names are dropped.
    pub fn column(&self, name: &str) -> Option<usize>
        ensures { result ≡ column_of self.now.header name.now }
    {
        self.header.position(name)
    }

    /// The next record, or the end. One that isn't UTF-8 or isn't as long as the header is a
    /// `BadRecord` at its line. After a fault each later call answers that fault again and changes
    /// nothing.
    pub fn next(&mut self) -> Result<Option<Row>, RowFault>
        ensures again { IfSome self.old.fault (λ f. (result ≡ Err f) × (self.new ≡ self.old)) }
        ensures steps { IsNone self.old.fault → Steps self.old self.new result }
    {
        match self.fault {
            Some(fault) => return Err(fault),
            None => {}
        }
        if self.ended {
            return Ok(None);
        }
        let mut fields = StringRecord::new(self.alloc);
        match self.reader.read_record(&mut fields) {
            Ok(true) => {
                self.line += 1;
                Ok(Some(Row {
                    fields,
                    line: self.line,
                }))
            }
            Ok(false) => {
                self.ended = true;
                Ok(None)
            }
            Err(error) => {
                let fault = fault_of(error, self.line.saturating_add(1));
                self.fault = Some(fault);
                Err(fault)
            }
        }
    }

    // The header.
    pub(crate) fn header(&self) -> &Header
        ensures { result.now ≡ self.now.header }
    {
        &self.header
    }
}

// A reader at the start of a table. It takes 34 KB, so it lies on the heap, where want of memory
// is answered, and in no caller's frame.
#[inline(never)]
fn reader_of(alloc: Global, text: &[u8]) -> Result<Box<Reader<&[u8]>>, RowFault>
    ensures fresh { IfOk result (λ reader. IsFresh reader.value text.now) }
    ensures memory { IfErr result (λ e. e ≡ fault.Memory) }
{
    let reader = ReaderBuilder::new()
        .has_headers(false)
        .from_reader(alloc, text);
    match Box::new(alloc, reader) {
        Ok(reader) => Ok(reader),
        Err(_) => Err(RowFault::Memory),
    }
}

// The fault that an error of the reader stands for.
fn fault_of(error: Error, line: u64) -> RowFault
    ensures { result ≡ fault_of_kind (error_kind error) line }
{
    match error.into_kind() {
        ErrorKind::UnequalLengths { .. } | ErrorKind::Utf8 { .. } => RowFault::BadRecord { line },
        _ => RowFault::Memory,
    }
}
